// Evaluations among the samples: the verdict, the rounds, and the values and levels that were made.
use super::claims::{fact, self_support};
use super::lent::{BOOK_A, Lent, ONE_ATOM, book_a_with_9, show_made};
use std::io;

// One atom with the rule `(rule 0 (not 0))`.
fn self_denial() -> Lent<'static> {
    Lent {
        rules: &[0, 0, 1],
        literals: &[1],
        ..ONE_ATOM
    }
}

// An evaluation of book A, or of it with another bound.
fn four_atoms(rt: &impl Print, name: &[u8], lent: Lent, open_values: &[u8]) -> io::Result<()> {
    show_made(
        rt,
        name,
        lent,
        open_values,
        &mut [9; 4],
        &mut [9; 4],
        &mut [9; 4],
    )
}

fn one_atom(rt: &impl Print, name: &[u8], lent: Lent) -> io::Result<()> {
    show_made(rt, name, lent, &[0], &mut [9], &mut [9], &mut [9])
}

pub fn run_evaluations(rt: &impl Print) -> io::Result<()> {
    four_atoms(rt, b"P1", BOOK_A, &[0, 0, 0, 0])?;
    four_atoms(rt, b"P2", BOOK_A, &[1, 0, 0, 0])?;
    one_atom(rt, b"P5", self_denial())?;
    one_atom(rt, b"P6-made", self_support())?;
    one_atom(rt, b"P7-made", fact())?;
    four_atoms(rt, b"P10-made", book_a_with_9(), &[0, 0, 0, 0])?;
    four_atoms(rt, b"defined-atom-set", BOOK_A, &[0, 1, 0, 0])
}
