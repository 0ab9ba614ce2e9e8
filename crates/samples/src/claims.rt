// The claims among the samples. Each line has the sample's name, the verdict's number and its position.
use super::lent::{BOOK_A, Lent, ONE_ATOM, book_a_with_9, show_claim};
use std::io;

// One atom with the rule `(rule 0 0)`.
pub fn self_support() -> Lent<'static> {
    Lent {
        rules: &[0, 0, 1],
        literals: &[0],
        ..ONE_ATOM
    }
}

// One atom with the fact `(rule 0)`.
pub fn fact() -> Lent<'static> {
    Lent {
        rules: &[0, 0, 0],
        ..ONE_ATOM
    }
}

// `(rule 0 (not 1))` and `(rule 1 (not 0))`.
fn either_or() -> Lent<'static> {
    Lent {
        atoms: 2,
        rules: &[0, 0, 1, 1, 1, 1],
        literals: &[3, 1],
        marks: &[0, 0],
        ..ONE_ATOM
    }
}

// Claims on book A.
fn run_book_a(rt: &impl Print) -> io::Result<()> {
    show_claim(rt, b"A", BOOK_A, &[0, 0, 0, 1], &[0, 1, 1, 2])?;
    show_claim(rt, b"A-open-0", BOOK_A, &[1, 1, 1, 0], &[0, 1, 2, 2])?;
    show_claim(rt, b"P3", BOOK_A, &[0, 1, 1, 0], &[0, 1, 2, 2])?;
    show_claim(rt, b"P4", BOOK_A, &[0, 1, 1, 0], &[0, 2, 1, 2])
}

// Claims on one atom.
fn run_one_atom(rt: &impl Print) -> io::Result<()> {
    show_claim(rt, b"P6", self_support(), &[0], &[1])?;
    show_claim(rt, b"P7", fact(), &[1], &[1])?;
    show_claim(rt, b"P7-false", fact(), &[0], &[1])
}

// Claims with other levels and with another bound.
fn run_others(rt: &impl Print) -> io::Result<()> {
    show_claim(rt, b"P8-2-1", either_or(), &[1, 0], &[2, 1])?;
    show_claim(rt, b"P8-1-1", either_or(), &[1, 0], &[1, 1])?;
    show_claim(rt, b"P9", fact(), &[1], &[2])?;
    show_claim(rt, b"P10", book_a_with_9(), &[0, 0, 0, 1], &[0, 1, 1, 2])
}

pub fn run_claims(rt: &impl Print) -> io::Result<()> {
    run_book_a(rt)?;
    run_one_atom(rt)?;
    run_others(rt)
}
