// Tables lent to the reader with other lengths than whole rows, or with more entries than any book has. Every entry was 9 before.
// Each function has its own arrays, as it does in the other files: their lengths are part of their types, and are what it shows.
use super::lent_tables::show_tables;
use super::texts::show_book;
use booktext::read;
use std::io;

// Five entries of the rule table hold one row.
fn show_five(rt: &impl Print, name: &[u8], text: &[u8]) -> io::Result<()> {
    let mut rules = [9u16; 5];
    let mut none = [9u16; 0];
    let mut clauses = [9u16; 2];
    let mut no_loads = [9i32; 0];
    let mut no_literals = [9u16; 0];
    let mut no_minutes = [9i16; 0];
    let mut marks = [9u8; 1];
    let mut values = [9u8; 1];
    let mut levels = [9u16; 1];
    let book = read(
        text,
        &mut rules,
        &mut none,
        &mut clauses,
        &mut no_loads,
        &mut no_literals,
        &mut no_minutes,
        &mut marks,
        &mut values,
        &mut levels,
    );
    show_book(rt, name, book)?;
    show_tables(
        rt,
        &rules,
        &none,
        &clauses,
        &no_loads,
        &no_literals,
        &no_minutes,
        &marks,
        &values,
        &levels,
    )
}

// Each table is longer than its limit; what lies beyond the limits is shown.
fn show_long(rt: &impl Print, name: &[u8], text: &[u8]) -> io::Result<()> {
    let mut rules = [9u16; 6147];
    let mut literals = [9u16; 16385];
    let mut clauses = [9u16; 4098];
    let mut loads = [9i32; 260];
    let mut load_literals = [9u16; 4097];
    let mut minutes = [9i16; 4097];
    let mut marks = [9u8; 1025];
    let mut values = [9u8; 1025];
    let mut levels = [9u16; 1025];
    let book = read(
        text,
        &mut rules,
        &mut literals,
        &mut clauses,
        &mut loads,
        &mut load_literals,
        &mut minutes,
        &mut marks,
        &mut values,
        &mut levels,
    );
    show_book(rt, name, book)?;
    show_tables(
        rt,
        &rules[6144..6147],
        &literals[16384..16385],
        &clauses[4096..4098],
        &loads[256..260],
        &load_literals[4096..4097],
        &minutes[4096..4097],
        &marks[1024..1025],
        &values[1024..1025],
        &levels[1024..1025],
    )
}

pub fn run_other_lengths(rt: &impl Print) -> io::Result<()> {
    show_five(
        rt,
        b"one-rule-in-five-entries",
        b"(atoms 1)\n(rule 0)\n(open)\n",
    )?;
    show_five(
        rt,
        b"two-rules-in-five-entries",
        b"(atoms 1)\n(rule 0)\n(rule 0)\n(open)\n",
    )?;
    show_five(
        rt,
        b"limits-beat-space",
        b"(atoms 1)\n(rule 0)\n(rule 1024)\n(open)\n",
    )?;
    show_five(
        rt,
        b"order-beats-space",
        b"(atoms 1)\n(rule 0)\n(clause)\n(rule 0)\n(open)\n",
    )?;
    show_long(
        rt,
        b"tables-longer-than-the-limits",
        b"(atoms 2)\n(rule 1 0 (not 1))\n(clause 1)\n(load -5 7 (-90 (not 0)))\n(claim (0 0) (1 1))\n",
    )
}
