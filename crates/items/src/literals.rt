// Literals in the text of a book, each read as its code: twice its atom, and one more if it is negated.
ghost use Rattle.std.specs.Prelude.{◌≡◌};
ghost use Rattle.items.specs.internal.Places.{negated_at, literal_at};

use format::words::{byte_at, word_at};
use numerals::numbers::read_number;

// The literal `(not A)` at an offset, with the offset after it.
fn read_negated(text: &[u8], at: usize) -> Option<(usize, usize)>
    ensures { result ≡ negated_at text.now at }
{
    if !word_at(text, at, b"(not ") {
        return None;
    }
    let Some((atom, next)) = read_number(text, at + 5) else {
        return None;
    };
    if !byte_at(text, next, b')') {
        return None;
    }
    Some((atom * 2 + 1, next + 1))
}

// The literal at an offset, with the offset after it: an atom, or `(not A)`.
pub fn read_literal(text: &[u8], at: usize) -> Option<(usize, usize)>
    ensures { result ≡ literal_at text.now at }
{
    if byte_at(text, at, b'(') {
        return read_negated(text, at);
    }
    let Some((atom, next)) = read_number(text, at) else {
        return None;
    };
    Some((atom * 2, next))
}
