// Lent tables and claims with a fault: each line has what is wrong, the verdict's number and its position.
use super::lent::{Lent, ONE_ATOM, show_claim};
use std::io;

// One rule row over one literal.
fn rule_row(rt: &impl Print, name: &[u8], head: u16, start: u16, size: u16) -> io::Result<()> {
    let lent = Lent {
        rules: &[head, start, size],
        literals: &[0],
        ..ONE_ATOM
    };
    show_claim(rt, name, lent, &[1], &[1])
}

// One clause row over one literal.
fn clause_row(rt: &impl Print, name: &[u8], literal: u16, start: u16, size: u16) -> io::Result<()> {
    let lent = Lent {
        literals: &[literal],
        clauses: &[start, size],
        ..ONE_ATOM
    };
    show_claim(rt, name, lent, &[1], &[0])
}

// Two literals that nothing uses.
fn unused(rt: &impl Print, name: &[u8], first: u16, second: u16) -> io::Result<()> {
    let lent = Lent {
        literals: &[first, second],
        ..ONE_ATOM
    };
    show_claim(rt, name, lent, &[1], &[0])
}

// These rules, literals and clauses, and no more.
fn rows<'a>(
    rt: &impl Print,
    name: &[u8],
    rules: &'a [u16],
    literals: &'a [u16],
    clauses: &'a [u16],
) -> io::Result<()> {
    let lent = Lent {
        rules,
        literals,
        clauses,
        ..ONE_ATOM
    };
    show_claim(rt, name, lent, &[1], &[0])
}

// One load row over one true literal.
fn load_row(
    rt: &impl Print,
    name: &[u8],
    low: i32,
    high: i32,
    start: i32,
    size: i32,
    minutes: i16,
) -> io::Result<()> {
    let lent = Lent {
        loads: &[low, high, start, size],
        load_literals: &[0],
        minutes: &[minutes],
        ..ONE_ATOM
    };
    show_claim(rt, name, lent, &[1], &[0])
}

// An open atom and one that is a fact, with these values and levels.
fn values_and_levels(
    rt: &impl Print,
    name: &[u8],
    first: u8,
    second: u8,
    first_level: u16,
    second_level: u16,
) -> io::Result<()> {
    let lent = Lent {
        atoms: 2,
        rules: &[1, 0, 0],
        marks: &[0, 0],
        ..ONE_ATOM
    };
    show_claim(
        rt,
        name,
        lent,
        &[first, second],
        &[first_level, second_level],
    )
}

// Rows that overlap in the literal table, with a literal twice and with its complement: (rule 1 0 0 (not 0)),
// (rule 1 0 (not 0)), (clause 0 0), (clause 0 (not 0)).
fn overlapping(rt: &impl Print, name: &[u8], first: u8, second: u8) -> io::Result<()> {
    let lent = Lent {
        atoms: 2,
        rules: &[1, 0, 3, 1, 1, 2],
        literals: &[0, 0, 1],
        clauses: &[0, 2, 1, 2],
        marks: &[0, 0],
        ..ONE_ATOM
    };
    show_claim(rt, name, lent, &[first, second], &[0, 1])
}

// A load literal without its minutes.
fn minutes_missing(rt: &impl Print, name: &[u8]) -> io::Result<()> {
    let lent = Lent {
        load_literals: &[0],
        ..ONE_ATOM
    };
    show_claim(rt, name, lent, &[1], &[0])
}

// So many open atoms, with marks, values and levels.
fn open_atoms(
    rt: &impl Print,
    name: &[u8],
    atoms: usize,
    marks: &[u8],
    values: &[u8],
    levels: &[u16],
) -> io::Result<()> {
    let lent = Lent {
        atoms,
        marks,
        ..ONE_ATOM
    };
    show_claim(rt, name, lent, values, levels)
}

// Numbers of atoms at their limits and past them, and values and levels of other numbers.
fn run_atoms(rt: &impl Print) -> io::Result<()> {
    open_atoms(rt, b"no-atoms", 0, &[], &[], &[])?;
    open_atoms(rt, b"1024-atoms", 1024, &[0; 1024], &[0; 1024], &[0; 1024])?;
    open_atoms(rt, b"1025-atoms", 1025, &[0; 1025], &[0; 1025], &[0; 1025])?;
    open_atoms(rt, b"values-too-short", 2, &[0; 2], &[0; 1], &[0; 2])?;
    open_atoms(rt, b"levels-too-long", 2, &[0; 2], &[0; 2], &[0; 3])
}

// Tables of literals and rules at their limits, past them, and of no whole rows.
fn run_rule_sizes(rt: &impl Print) -> io::Result<()> {
    rows(rt, b"16384-literals", &[], &[0; 16384], &[])?;
    rows(rt, b"16385-literals", &[], &[0; 16385], &[])?;
    rows(rt, b"2048-rules-at-level-0", &[0; 6144], &[], &[])?;
    rows(rt, b"2049-rules", &[0; 6147], &[], &[])?;
    rows(rt, b"no-whole-rule-rows", &[0; 4], &[], &[])
}

// The same of clauses, and minutes that are missing.
fn run_clause_sizes(rt: &impl Print) -> io::Result<()> {
    rows(rt, b"2048-empty-clauses", &[], &[], &[0; 4096])?;
    rows(rt, b"2049-clauses", &[], &[], &[0; 4098])?;
    rows(rt, b"no-whole-clause-rows", &[], &[], &[0; 1])?;
    minutes_missing(rt, b"minutes-missing")
}

// Rows of rules and clauses, and literals, out of range.
fn run_bad_rows(rt: &impl Print) -> io::Result<()> {
    rule_row(rt, b"head-out-of-range", 1, 0, 0)?;
    rule_row(rt, b"rule-past-the-end", 0, 65535, 65535)?;
    rule_row(rt, b"empty-rule-past-the-end", 0, 2, 0)?;
    rule_row(rt, b"empty-rule-at-the-end", 0, 1, 0)?;
    clause_row(rt, b"clause-past-the-end", 0, 1, 1)?;
    clause_row(rt, b"clause-literal-out-of-range", 2, 0, 1)?;
    unused(rt, b"unused-literal-out-of-range", 1, 2)
}

// Load rows at the ends of their ranges and past them.
fn run_bad_loads(rt: &impl Print) -> io::Result<()> {
    load_row(rt, b"load-past-the-end", 0, 0, 2147483647, 2147483647, 6)?;
    load_row(rt, b"negative-start", 0, 0, -2147483647, 0, 6)?;
    load_row(rt, b"negative-count", 0, 0, 0, -1, 6)?;
    load_row(rt, b"bounds-at-their-ends", -1000000, 1000000, 0, 1, 6)?;
    load_row(rt, b"low-bound-out-of-range", -1000001, 0, 0, 0, 6)?;
    load_row(rt, b"high-bound-out-of-range", 0, 1000001, 0, 0, 6)?;
    load_row(rt, b"minutes-at-their-end", -240, -240, 0, 1, -1440)?;
    load_row(rt, b"minutes-out-of-range", 0, 0, 0, 0, 1441)
}

// Values and levels that are none, or wrong.
fn run_bad_claims(rt: &impl Print) -> io::Result<()> {
    values_and_levels(rt, b"right", 0, 1, 0, 1)?;
    values_and_levels(rt, b"value-2", 0, 2, 0, 1)?;
    values_and_levels(rt, b"value-255", 255, 2, 0, 1)?;
    values_and_levels(rt, b"level-at-an-open-atom", 0, 1, 1, 1)?;
    values_and_levels(rt, b"level-0-at-a-defined-atom", 0, 1, 0, 0)?;
    values_and_levels(rt, b"level-above-D", 0, 1, 0, 2)?;
    values_and_levels(rt, b"fact-claimed-false", 0, 0, 0, 1)
}

// Rows that overlap, and clauses that fail.
fn run_clauses(rt: &impl Print) -> io::Result<()> {
    overlapping(rt, b"overlapping-rows", 1, 0)?;
    overlapping(rt, b"overlapping-rows-clause-fails", 0, 0)?;
    overlapping(rt, b"overlapping-rows-claimed-true", 1, 1)?;
    clause_row(rt, b"empty-clause", 0, 0, 0)?;
    clause_row(rt, b"clause-of-a-false-literal", 1, 0, 1)
}

// Minutes halfway between two tenths of an hour, which count as the even one; the last line asks for the odd one and is refused.
fn run_halves(rt: &impl Print) -> io::Result<()> {
    load_row(rt, b"tenths-of-3-minutes", 0, 0, 0, 1, 3)?;
    load_row(rt, b"tenths-of-minus-3-minutes", 0, 0, 0, 1, -3)?;
    load_row(rt, b"tenths-of-9-minutes", 2, 2, 0, 1, 9)?;
    load_row(rt, b"tenths-of-minus-9-minutes", -2, -2, 0, 1, -9)?;
    load_row(rt, b"tenths-of-15-minutes", 2, 2, 0, 1, 15)?;
    load_row(rt, b"odd-tenth-of-3-minutes", 1, 1, 0, 1, 3)
}

// Minutes nearer to one tenth than to any other, and bounds that nothing is between.
fn run_loads(rt: &impl Print) -> io::Result<()> {
    load_row(rt, b"tenths-of-2-minutes", 1, 1, 0, 1, 2)?;
    load_row(rt, b"tenths-of-4-minutes", 1, 1, 0, 1, 4)?;
    load_row(rt, b"low-above-high", 1, 0, 0, 0, 6)
}

// The samples of each function are few: what is known of every one before is carried along while one is proved.
pub fn run_bad_input(rt: &impl Print) -> io::Result<()> {
    run_atoms(rt)?;
    run_rule_sizes(rt)?;
    run_clause_sizes(rt)?;
    run_bad_rows(rt)?;
    run_bad_loads(rt)?;
    run_bad_claims(rt)?;
    run_clauses(rt)?;
    run_halves(rt)?;
    run_loads(rt)
}
