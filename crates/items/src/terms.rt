// Terms of load lines in the text of a book.
ghost use Rattle.std.specs.Prelude.{◌≡◌};
ghost use Rattle.items.specs.internal.Places.{term_read_at};

use crate::literals::read_literal;
use format::words::byte_at;
use numerals::signed::read_signed;

// The minutes of a term, and the code of its literal.
#[derive(Clone, Copy)]
pub struct Term {
    pub minutes: i32,
    pub literal: usize,
}

// The term `(M L)` at an offset, with the offset after it.
pub fn read_term(text: &[u8], at: usize) -> Option<(Term, usize)>
    ensures { result ≡ term_read_at text.now at }
{
    if !byte_at(text, at, b'(') {
        return None;
    }
    let Some((minutes, after)) = read_signed(text, at + 1) else {
        return None;
    };
    if !byte_at(text, after, b' ') {
        return None;
    }
    let Some((literal, next)) = read_literal(text, after + 1) else {
        return None;
    };
    if !byte_at(text, next, b')') {
        return None;
    }
    Some((Term { minutes, literal }, next + 1))
}
