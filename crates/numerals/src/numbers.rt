// Numbers in the text of a book: reading one yields the number and the next offset, or none.
ghost use Rattle.std.specs.Prelude.{◌≡◌, true, ◌+◌, ◌-◌, ◌*◌, ◌≤◌, length, Some};
ghost use Rattle.format.specs.Parse.{is_digit};
ghost use Rattle.numerals.specs.internal.Offsets.{beyond_limits, capped, digit_at, digits_at, number_at};

use crate::bytes::{Class, class_of, is_digit};
use crate::reader::Reader;

// A value above every limit of the format, where values stop growing.
const BEYOND_LIMITS: usize = 10_000_000;

// The value with one more digit; it stops growing beyond every limit of the format.
fn grown(value: usize, byte: u8) -> usize
    requires { (value ≤ beyond_limits) × (is_digit byte ≡ true) }
    ensures { result ≡ capped (value * 10 + (byte - 48)) }
{
    (value * 10 + (byte - b'0') as usize).min(BEYOND_LIMITS)
}

// Whether a digit stands at an offset.
fn digit_at(text: &[u8], at: usize) -> bool
    ensures { result ≡ digit_at text.now at }
{
    at < text.len() && is_digit(text[at])
}

// The digits from an offset on, added to what was read so far: the number they make, and the offset after them.
fn digits_from(text: &[u8], at: usize, value: usize) -> (usize, usize)
    requires { (at ≤ length text.now) × (value ≤ beyond_limits) }
    ensures { Some result ≡ digits_at text.now at value }
{
    let mut next = at;
    let mut total = value;
    while digit_at(text, next) {
        total = grown(total, text[next]);
        next += 1;
    }
    (total, next)
}

// The number at an offset, with the offset after it: its first byte is of the digits' class, and a zero that begins it stands alone.
pub(crate) fn number_from(text: &[u8], at: usize) -> Option<(usize, usize)>
    ensures { result ≡ number_at text.now at }
{
    let first = *text.get(at)?;
    let Class::Digit = class_of(first) else {
        return None;
    };
    let next = at + 1;
    if first != b'0' {
        return Some(digits_from(text, next, (first - b'0') as usize));
    }
    if digit_at(text, next) {
        None
    } else {
        Some((0, next))
    }
}

// The number at an offset, with the offset after it, read through a reader of the text. Every number of a form is read here,
// and each form reader takes the answer apart by let else.
pub fn read_number(text: &[u8], at: usize) -> Option<(usize, usize)>
    ensures { result ≡ number_at text.now at }
{
    Reader::start(text).moved(at).number()
}
