// The kinds of forms, told by the word that a line begins with.
ghost use Rattle.std.specs.Prelude.{◌≡◌};
ghost use Rattle.format.specs.Words.{kind_at};

use crate::words::word_at;

// The kind of a form.
#[derive(Clone, Copy)]
pub enum Kind {
    Atoms,
    Rule,
    Clause,
    Load,
    Open,
    Claim,
    Defined,
}

// The kind of form whose word stands at an offset, if one stands there.
pub fn kind_at(text: &[u8], at: usize) -> Option<Kind>
    ensures { result ≡ kind_at text.now at }
{
    if word_at(text, at, b"(atoms") {
        return Some(Kind::Atoms);
    }
    if word_at(text, at, b"(rule") {
        return Some(Kind::Rule);
    }
    if word_at(text, at, b"(clause") {
        return Some(Kind::Clause);
    }
    if word_at(text, at, b"(load") {
        return Some(Kind::Load);
    }
    if word_at(text, at, b"(open") {
        return Some(Kind::Open);
    }
    if word_at(text, at, b"(claim") {
        return Some(Kind::Claim);
    }
    if word_at(text, at, b"(defined") {
        return Some(Kind::Defined);
    }
    None
}
