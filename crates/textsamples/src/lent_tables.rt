// Small tables lent to the reader and shown whole after a text was read: every entry was 9 before.
ghost use Rattle.std.specs.Prelude.{◌≤◌, length};

use super::texts::show_book;
use booktext::{Book, read};
use shown::show_numbers;
use std::fmt::Display;
use std::io;

// The tables that are lent.
#[derive(Clone, Copy, PartialEq, Eq)]
enum Table {
    Rules,
    Literals,
    Clauses,
    Loads,
    LoadLiterals,
    Minutes,
    Marks,
    Values,
    Levels,
}

// How many entries a table is lent with: what the text needs, or one less where it is the short one.
fn lent(needed: usize, table: Table, short: Option<Table>) -> usize
    requires { 1 ≤ needed }
    ensures { result ≤ needed }
{
    if short == Some(table) {
        needed - 1
    } else {
        needed
    }
}

// The entries of a table, behind a bar.
fn show_entries<N: Display>(rt: &impl Print, entries: &[N]) -> io::Result<()> {
    rt.write_all(b" |")?;
    show_numbers(rt, entries)
}

pub fn show_tables(
    rt: &impl Print,
    rules: &[u16],
    literals: &[u16],
    clauses: &[u16],
    loads: &[i32],
    load_literals: &[u16],
    minutes: &[i16],
    marks: &[u8],
    values: &[u8],
    levels: &[u16],
) -> io::Result<()> {
    show_entries(rt, rules)?;
    show_entries(rt, literals)?;
    show_entries(rt, clauses)?;
    show_entries(rt, loads)?;
    show_entries(rt, load_literals)?;
    show_entries(rt, minutes)?;
    show_entries(rt, marks)?;
    show_entries(rt, values)?;
    show_entries(rt, levels)?;
    println!(rt; "")
}

// Reads a text that needs 3 rule entries, 3 literals, 2 clause entries, 4 load entries, 1 term, 2 marks, 2 values and 2 levels.
// The tables are lent with just so many, one less where `short` says so.
fn read_lent(
    text: &[u8],
    short: Option<Table>,
    rules: &mut [u16],
    literals: &mut [u16],
    clauses: &mut [u16],
    loads: &mut [i32],
    load_literals: &mut [u16],
    minutes: &mut [i16],
    marks: &mut [u8],
    values: &mut [u8],
    levels: &mut [u16],
) -> Book
    requires { (3 ≤ length rules.old) × (3 ≤ length literals.old) × (2 ≤ length clauses.old) × (4 ≤ length loads.old)
        × (1 ≤ length load_literals.old) × (1 ≤ length minutes.old) × (2 ≤ length marks.old) × (2 ≤ length values.old) × (2 ≤ length levels.old) }
{
    let rules_end = lent(3, Table::Rules, short);
    let literals_end = lent(3, Table::Literals, short);
    let clauses_end = lent(2, Table::Clauses, short);
    let loads_end = lent(4, Table::Loads, short);
    let load_literals_end = lent(1, Table::LoadLiterals, short);
    let minutes_end = lent(1, Table::Minutes, short);
    let marks_end = lent(2, Table::Marks, short);
    let values_end = lent(2, Table::Values, short);
    let levels_end = lent(2, Table::Levels, short);
    read(
        text,
        &mut rules[0..rules_end],
        &mut literals[0..literals_end],
        &mut clauses[0..clauses_end],
        &mut loads[0..loads_end],
        &mut load_literals[0..load_literals_end],
        &mut minutes[0..minutes_end],
        &mut marks[0..marks_end],
        &mut values[0..values_end],
        &mut levels[0..levels_end],
    )
}

// The tables are shown with one entry more than the text needs.
fn show_lent(rt: &impl Print, name: &[u8], text: &[u8], short: Option<Table>) -> io::Result<()> {
    let mut rules = [9u16; 4];
    let mut literals = [9u16; 4];
    let mut clauses = [9u16; 3];
    let mut loads = [9i32; 5];
    let mut load_literals = [9u16; 2];
    let mut minutes = [9i16; 2];
    let mut marks = [9u8; 3];
    let mut values = [9u8; 3];
    let mut levels = [9u16; 3];
    let book = read_lent(
        text,
        short,
        &mut rules,
        &mut literals,
        &mut clauses,
        &mut loads,
        &mut load_literals,
        &mut minutes,
        &mut marks,
        &mut values,
        &mut levels,
    );
    show_book(rt, name, book)?;
    show_tables(
        rt,
        &rules,
        &literals,
        &clauses,
        &loads,
        &load_literals,
        &minutes,
        &marks,
        &values,
        &levels,
    )
}

// These three differ in their texts alone. Each stands in its call, where the check against other solvers finds it.
fn show_claim(rt: &impl Print, name: &[u8], short: Option<Table>) -> io::Result<()> {
    show_lent(
        rt,
        name,
        b"(atoms 2)\n(rule 1 0 (not 1))\n(clause 1)\n(load -5 7 (-90 (not 0)))\n(claim (0 0) (1 1))\n",
        short,
    )
}

fn show_open(rt: &impl Print, name: &[u8], short: Option<Table>) -> io::Result<()> {
    show_lent(
        rt,
        name,
        b"(atoms 2)\n(rule 1 0 (not 1))\n(clause 1)\n(load -5 7 (-90 (not 0)))\n(open 0)\n",
        short,
    )
}

fn show_defined(rt: &impl Print, name: &[u8], short: Option<Table>) -> io::Result<()> {
    show_lent(
        rt,
        name,
        b"(atoms 2)\n(defined 1)\n(rule 1 0 (not 1))\n(clause 1)\n(load -5 7 (-90 (not 0)))\n(claim (0 0) (1 1))\n",
        short,
    )
}

// One of the first four tables is too short.
fn run_short_rows(rt: &impl Print) -> io::Result<()> {
    show_claim(rt, b"rules-short", Some(Table::Rules))?;
    show_claim(rt, b"literals-short", Some(Table::Literals))?;
    show_claim(rt, b"clauses-short", Some(Table::Clauses))?;
    show_claim(rt, b"loads-short", Some(Table::Loads))
}

// One of the last five is.
fn run_short_entries(rt: &impl Print) -> io::Result<()> {
    show_claim(rt, b"load-literals-short", Some(Table::LoadLiterals))?;
    show_claim(rt, b"minutes-short", Some(Table::Minutes))?;
    show_claim(rt, b"marks-short", Some(Table::Marks))?;
    show_claim(rt, b"values-short", Some(Table::Values))?;
    show_claim(rt, b"levels-short", Some(Table::Levels))
}

// One of those that a state form needs is, for an open form.
fn run_short_open(rt: &impl Print) -> io::Result<()> {
    show_open(rt, b"open-marks-short", Some(Table::Marks))?;
    show_open(rt, b"open-values-short", Some(Table::Values))?;
    show_open(rt, b"open-levels-short", Some(Table::Levels))
}

// Atoms declared defined: with a claim, with an open form, with short marks, and with short marks and no state form.
fn run_defined(rt: &impl Print) -> io::Result<()> {
    show_defined(rt, b"defined-held", None)?;
    show_lent(
        rt,
        b"all-defined-held",
        b"(atoms 2)\n(defined 0 1)\n(open)\n",
        None,
    )?;
    show_defined(rt, b"defined-marks-short", Some(Table::Marks))?;
    show_lent(
        rt,
        b"state-missing-beats-space",
        b"(atoms 2)\n(defined 1)\n",
        Some(Table::Marks),
    )
}

pub fn run_lent_tables(rt: &impl Print) -> io::Result<()> {
    show_claim(rt, b"claim-held", None)?;
    show_open(rt, b"open-held", None)?;
    run_short_rows(rt)?;
    run_short_entries(rt)?;
    run_short_open(rt)?;
    run_defined(rt)
}
