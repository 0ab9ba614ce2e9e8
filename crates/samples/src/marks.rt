// Two atoms and `(rule 1 (not 0))`: atom 0, which no rule has as its head, is open, or it is declared defined by its mark.
use super::lent::{Lent, ONE_ATOM, show_claim, show_made};
use std::io;

// The two atoms with these marks.
fn marked(marks: &[u8]) -> Lent {
    Lent {
        atoms: 2,
        rules: &[1, 0, 1],
        literals: &[1],
        marks,
        ..ONE_ATOM
    }
}

// A claim on the two atoms.
fn claim(
    rt: &impl Print,
    name: &[u8],
    marks: &[u8],
    values: &[u8],
    levels: &[u16],
) -> io::Result<()> {
    show_claim(rt, name, marked(marks), values, levels)
}

// An evaluation with these open values.
fn made(rt: &impl Print, name: &[u8], marks: &[u8], open_values: &[u8]) -> io::Result<()> {
    show_made(
        rt,
        name,
        marked(marks),
        open_values,
        &mut [9; 2],
        &mut [9; 2],
        &mut [9; 2],
    )
}

// Claims on an atom that is declared, with and without a rule, and on one that is not.
fn run_declared(rt: &impl Print) -> io::Result<()> {
    claim(rt, b"undeclared-true", &[0u8, 0], &[1u8, 0], &[0u16, 1])?;
    claim(rt, b"declared-false", &[1u8, 0], &[0u8, 1], &[1u16, 2])?;
    claim(rt, b"declared-true", &[1u8, 0], &[1u8, 0], &[1u16, 1])?;
    claim(rt, b"declared-at-level-0", &[1u8, 0], &[0u8, 1], &[0u16, 1])?;
    claim(
        rt,
        b"declared-with-a-rule",
        &[1u8, 1],
        &[0u8, 1],
        &[1u16, 2],
    )?;
    claim(rt, b"declared-above-D", &[1u8, 1], &[0u8, 1], &[1u16, 3])
}

// Marks of other lengths, marks that are neither 0 nor 1, and what comes before and after them.
fn run_bad_marks(rt: &impl Print) -> io::Result<()> {
    claim(rt, b"marks-too-short", &[1u8], &[0u8, 1], &[1u16, 2])?;
    claim(rt, b"marks-too-long", &[1u8, 0, 0], &[0u8, 1], &[1u16, 2])?;
    claim(
        rt,
        b"marks-too-long-and-2",
        &[0u8, 2, 2],
        &[0u8, 1],
        &[1u16, 2],
    )?;
    claim(rt, b"last-mark-2", &[1u8, 2], &[0u8, 1], &[1u16, 2])?;
    claim(rt, b"marks-255-and-2", &[255u8, 2], &[0u8, 1], &[1u16, 2])?;
    claim(
        rt,
        b"mark-2-before-value-2",
        &[0u8, 2],
        &[2u8, 1],
        &[0u16, 1],
    )?;
    claim(
        rt,
        b"levels-too-short-before-marks",
        &[1u8],
        &[0u8, 1],
        &[1u16],
    )
}

// The same two atoms evaluated.
fn run_made(rt: &impl Print) -> io::Result<()> {
    made(rt, b"undeclared-set", &[0u8, 0], &[1u8, 0])?;
    made(rt, b"declared-made", &[1u8, 0], &[0u8, 0])?;
    made(rt, b"declared-with-a-rule-made", &[1u8, 1], &[0u8, 0])?;
    made(rt, b"declared-set", &[1u8, 0], &[1u8, 0])
}

// Bad marks stop the maker, after slices of other lengths and before bad open values.
fn run_unmade(rt: &impl Print) -> io::Result<()> {
    made(rt, b"marks-too-short-made", &[1u8], &[0u8, 0])?;
    made(rt, b"marks-too-long-made", &[1u8, 0, 0], &[0u8, 0])?;
    made(rt, b"last-mark-2-made", &[1u8, 2], &[2u8, 0])?;
    made(rt, b"open-values-too-short-before-marks", &[1u8], &[0u8])
}

pub fn run_marks(rt: &impl Print) -> io::Result<()> {
    run_declared(rt)?;
    run_bad_marks(rt)?;
    run_made(rt)?;
    run_unmade(rt)
}
