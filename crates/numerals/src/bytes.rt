// The classes of bytes that the text of a book is made of.
ghost use Rattle.std.specs.Prelude.{◌≡◌};
ghost use Rattle.format.specs.Parse.{is_digit};
ghost use Rattle.numerals.specs.Bytes.{class_of};

// The class of a byte; a byte of no other class is malformed.
#[derive(Drop)]
pub enum Class {
    Digit,
    Letter,
    Opening,
    Closing,
    Space,
    Minus,
    LineEnd,
    Other,
}

// The class that a byte falls into. The ranges are the form that docs/DECISIONS.md names for it.
pub fn class_of(byte: u8) -> Class
    ensures { result ≡ class_of byte }
{
    match byte {
        48..=57 => Class::Digit,
        97..=122 => Class::Letter,
        40 => Class::Opening,
        41 => Class::Closing,
        32 => Class::Space,
        45 => Class::Minus,
        10 => Class::LineEnd,
        _ => Class::Other,
    }
}

// Whether a byte is a digit. Asked of every digit of a text, so it compares with the ends of their range and asks for no class.
pub fn is_digit(byte: u8) -> bool
    ensures { result ≡ is_digit byte }
{
    (b'0' <= byte) & (byte <= b'9')
}
