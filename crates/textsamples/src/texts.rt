// Texts through the reader: each line has what is special about a text, the verdict's number and position, N, the entries
// used in each table, and the number of the state form.
use booktext::{Book, read, state_number};
use shown::show_verdict;
use std::io;

// What the reader answered.
pub fn show_book(rt: &impl Print, name: &[u8], book: Book) -> io::Result<()> {
    let state = state_number(book.state);
    show_verdict(rt, name, book.verdict)?;
    print!(rt;
        " atoms {} rules {} literals {}",
        book.atoms, book.rules, book.literals
    )?;
    print!(rt;
        " clauses {} loads {} terms {} state {state}",
        book.clauses, book.loads, book.terms
    )
}

// Reads a text into tables of full size.
pub fn show_text(rt: &impl Print, name: &[u8], text: &[u8]) -> io::Result<()> {
    let mut rules = [0u16; 6144];
    let mut literals = [0u16; 16384];
    let mut clauses = [0u16; 4096];
    let mut loads = [0i32; 256];
    let mut load_literals = [0u16; 4096];
    let mut minutes = [0i16; 4096];
    let mut marks = [0u8; 1024];
    let mut values = [0u8; 1024];
    let mut levels = [0u16; 1024];
    let book = read(
        text,
        &mut rules,
        &mut literals,
        &mut clauses,
        &mut loads,
        &mut load_literals,
        &mut minutes,
        &mut marks,
        &mut values,
        &mut levels,
    );
    show_book(rt, name, book)?;
    println!(rt; "")
}

// Lines that are no forms for their spaces, ends or letters.
fn run_spacing(rt: &impl Print) -> io::Result<()> {
    show_text(rt, b"no-final-line-end", b"(atoms 1)\n(open)")?;
    show_text(rt, b"empty-line", b"(atoms 1)\n\n(open)\n")?;
    show_text(rt, b"two-spaces", b"(atoms  1)\n(open)\n")?;
    show_text(rt, b"space-before-the-bracket", b"(atoms 1 )\n(open)\n")?;
    show_text(rt, b"space-at-the-line's-start", b" (atoms 1)\n(open)\n")?;
    show_text(rt, b"carriage-return", b"(atoms 1)\r\n(open)\r\n")?;
    show_text(rt, b"capital-letter", b"(Atoms 1)\n(open)\n")
}

// Numbers that are none.
fn run_malformed_numbers(rt: &impl Print) -> io::Result<()> {
    show_text(rt, b"leading-zero", b"(atoms 01)\n(open)\n")?;
    show_text(rt, b"minus-zero", b"(atoms 1)\n(load -0 0)\n(open)\n")?;
    show_text(
        rt,
        b"minus-before-an-atom",
        b"(atoms 1)\n(rule -1)\n(open)\n",
    )?;
    show_text(rt, b"minus-before-N", b"(atoms -1)\n(open)\n")?;
    show_text(rt, b"minus-before-a-value", b"(atoms 1)\n(claim (-1 0))\n")?;
    show_text(rt, b"minus-before-a-level", b"(atoms 1)\n(claim (0 -1))\n")
}

// Forms with other parts than theirs, and lines that are also out of their limits.
fn run_malformed_forms(rt: &impl Print) -> io::Result<()> {
    show_text(
        rt,
        b"not-of-not",
        b"(atoms 1)\n(rule 0 (not (not 0)))\n(open)\n",
    )?;
    show_text(rt, b"rule-without-head", b"(atoms 1)\n(rule)\n(open)\n")?;
    show_text(rt, b"load-with-one-bound", b"(atoms 1)\n(load 0)\n(open)\n")?;
    show_text(rt, b"atoms-without-number", b"(atoms)\n(open)\n")?;
    show_text(rt, b"unknown-word", b"(atoms 1)\n(rules 0)\n(open)\n")?;
    show_text(rt, b"two-forms-on-a-line", b"(atoms 1)(open)\n")?;
    show_text(rt, b"malformed-beats-limits", b"(atoms 3)\n(rule 1024 x)\n")?;
    show_text(rt, b"unended-beats-limits", b"(atoms 1025)")
}

// Forms that are missing.
fn run_missing(rt: &impl Print) -> io::Result<()> {
    show_text(rt, b"empty-text", b"")?;
    show_text(rt, b"atoms-alone", b"(atoms 1)\n")?;
    show_text(rt, b"no-atoms-form", b"(open)\n")?;
    show_text(rt, b"state-missing", b"(atoms 2)\n(rule 0 1)\n")
}

// Forms out of order.
fn run_order(rt: &impl Print) -> io::Result<()> {
    show_text(rt, b"second-atoms-form", b"(atoms 1)\n(atoms 1)\n(open)\n")?;
    show_text(
        rt,
        b"second-atoms-form-of-1025",
        b"(atoms 1)\n(atoms 1025)\n(open)\n",
    )?;
    show_text(
        rt,
        b"rule-after-clause",
        b"(atoms 1)\n(clause 0)\n(rule 0)\n(open)\n",
    )?;
    show_text(
        rt,
        b"clause-after-load",
        b"(atoms 1)\n(load 0 0)\n(clause 0)\n(open)\n",
    )?;
    show_text(
        rt,
        b"second-state-form",
        b"(atoms 1)\n(open)\n(claim (0 0))\n",
    )?;
    show_text(rt, b"empty-line-after-the-state", b"(atoms 1)\n(open)\n\n")?;
    show_text(rt, b"limits-beat-order", b"(rule 1024)\n")
}

// Open atoms, in order and out of it.
fn run_open_atoms(rt: &impl Print) -> io::Result<()> {
    show_text(rt, b"open-1023-first", b"(open 1023)\n")?;
    show_text(rt, b"open-1024-first", b"(open 1024)\n")?;
    show_text(rt, b"open-atoms-equal", b"(atoms 3)\n(open 1 1)\n")?;
    show_text(rt, b"open-atoms-falling", b"(atoms 3)\n(open 2 1)\n")?;
    show_text(rt, b"open-atoms-rising", b"(atoms 3)\n(open 0 2)\n")?;
    show_text(rt, b"open-atom-of-N", b"(atoms 3)\n(open 3)\n")
}

// Atoms declared defined, in order and out of it.
fn run_defined_atoms(rt: &impl Print) -> io::Result<()> {
    show_text(rt, b"defined-1023-first", b"(defined 1023)\n")?;
    show_text(rt, b"defined-1024-first", b"(defined 1024)\n")?;
    show_text(
        rt,
        b"defined-atoms-equal",
        b"(atoms 3)\n(defined 1 1)\n(open)\n",
    )?;
    show_text(
        rt,
        b"defined-atoms-falling",
        b"(atoms 3)\n(defined 2 1)\n(open)\n",
    )?;
    show_text(
        rt,
        b"defined-atoms-rising",
        b"(atoms 3)\n(defined 0 2)\n(open)\n",
    )?;
    show_text(
        rt,
        b"defined-atom-of-N",
        b"(atoms 3)\n(defined 3)\n(open)\n",
    )?;
    show_text(
        rt,
        b"no-atoms-and-defined-0",
        b"(atoms 0)\n(defined 0)\n(open)\n",
    )
}

// Defined forms elsewhere than right after the atoms form.
fn run_defined_places(rt: &impl Print) -> io::Result<()> {
    show_text(
        rt,
        b"second-defined-form",
        b"(atoms 3)\n(defined 0)\n(defined 1)\n(open)\n",
    )?;
    show_text(
        rt,
        b"second-defined-form-with-atom-N",
        b"(atoms 3)\n(defined 0)\n(defined 3)\n(open)\n",
    )?;
    show_text(
        rt,
        b"defined-after-rule",
        b"(atoms 1)\n(rule 0)\n(defined 0)\n(open)\n",
    )?;
    show_text(
        rt,
        b"defined-after-clause",
        b"(atoms 1)\n(clause 0)\n(defined 0)\n(open)\n",
    )?;
    show_text(
        rt,
        b"defined-after-load",
        b"(atoms 1)\n(load 0 0)\n(defined 0)\n(open)\n",
    )?;
    show_text(
        rt,
        b"defined-after-the-state",
        b"(atoms 1)\n(open)\n(defined 0)\n",
    )
}

// Defined forms that are none, and what may follow one that is.
fn run_defined_forms(rt: &impl Print) -> io::Result<()> {
    show_text(
        rt,
        b"defined-without-atoms",
        b"(atoms 1)\n(defined)\n(open)\n",
    )?;
    show_text(
        rt,
        b"defined-with-a-literal",
        b"(atoms 1)\n(defined (not 0))\n(open)\n",
    )?;
    show_text(
        rt,
        b"space-after-a-defined-atom",
        b"(atoms 1)\n(defined 0 )\n(open)\n",
    )?;
    show_text(rt, b"defined-and-no-state", b"(atoms 1)\n(defined 0)\n")?;
    show_text(
        rt,
        b"atoms-form-after-defined",
        b"(atoms 1)\n(defined 0)\n(atoms 1)\n(open)\n",
    )?;
    show_text(
        rt,
        b"rule-after-defined",
        b"(atoms 1)\n(defined 0)\n(rule 0)\n(open)\n",
    )?;
    show_text(
        rt,
        b"claim-after-defined",
        b"(atoms 1)\n(defined 0)\n(claim (0 1))\n",
    )
}

// The highest atom of the largest book, and a form that names none, wherever it stands.
fn run_defined_limits(rt: &impl Print) -> io::Result<()> {
    show_text(
        rt,
        b"defined-1023-of-1024-atoms",
        b"(atoms 1024)\n(defined 1023)\n(open)\n",
    )?;
    show_text(
        rt,
        b"defined-1024-of-1024-atoms",
        b"(atoms 1024)\n(defined 1024)\n(open)\n",
    )?;
    show_text(rt, b"defined-without-atoms-first", b"(defined)\n")?;
    show_text(
        rt,
        b"defined-without-atoms-after-rule",
        b"(atoms 1)\n(rule 0)\n(defined)\n(open)\n",
    )
}

// Claims with other pairs than one for each atom, and books with no atoms.
fn run_claim_pairs(rt: &impl Print) -> io::Result<()> {
    show_text(rt, b"claim-pair-missing", b"(atoms 2)\n(claim (0 0))\n")?;
    show_text(
        rt,
        b"claim-pair-too-many",
        b"(atoms 2)\n(claim (0 0) (0 0) (0 0))\n",
    )?;
    show_text(rt, b"no-atoms-at-all", b"(atoms 0)\n(open)\n")?;
    show_text(rt, b"no-atoms-and-a-claim", b"(atoms 0)\n(claim)\n")?;
    show_text(rt, b"no-atoms-and-open-0", b"(atoms 0)\n(open 0)\n")
}

// Atoms at their limits and one past them.
fn run_atom_limits(rt: &impl Print) -> io::Result<()> {
    show_text(rt, b"atoms-1024", b"(atoms 1024)\n(open)\n")?;
    show_text(rt, b"atoms-1025", b"(atoms 1025)\n(open)\n")?;
    show_text(rt, b"head-1023", b"(atoms 1)\n(rule 1023)\n(open)\n")?;
    show_text(rt, b"head-1024", b"(atoms 1)\n(rule 1024)\n(open)\n")?;
    show_text(
        rt,
        b"literal-1023",
        b"(atoms 1)\n(clause (not 1023))\n(open)\n",
    )?;
    show_text(
        rt,
        b"literal-1024",
        b"(atoms 1)\n(clause (not 1024))\n(open)\n",
    )
}

// Minutes, load literals and bounds at their limits and one past them.
fn run_load_limits(rt: &impl Print) -> io::Result<()> {
    show_text(
        rt,
        b"minutes-1440",
        b"(atoms 1)\n(load 0 0 (1440 0) (-1440 0))\n(open)\n",
    )?;
    show_text(
        rt,
        b"minutes-1441",
        b"(atoms 1)\n(load 0 0 (1441 0))\n(open)\n",
    )?;
    show_text(
        rt,
        b"minutes-minus-1441",
        b"(atoms 1)\n(load 0 0 (-1441 0))\n(open)\n",
    )?;
    show_text(
        rt,
        b"load-literal-1024",
        b"(atoms 1)\n(load 0 0 (0 1024))\n(open)\n",
    )?;
    show_text(
        rt,
        b"bounds-1000000",
        b"(atoms 1)\n(load -1000000 1000000)\n(open)\n",
    )?;
    show_text(
        rt,
        b"low-bound-1000001",
        b"(atoms 1)\n(load -1000001 0)\n(open)\n",
    )?;
    show_text(
        rt,
        b"high-bound-1000001",
        b"(atoms 1)\n(load 0 1000001)\n(open)\n",
    )
}

// Values and levels at their limits and one past them, and a number that no word of the machine holds.
fn run_claim_limits(rt: &impl Print) -> io::Result<()> {
    show_text(
        rt,
        b"value-255-level-65535",
        b"(atoms 1)\n(claim (255 65535))\n",
    )?;
    show_text(rt, b"value-256", b"(atoms 1)\n(claim (256 0))\n")?;
    show_text(rt, b"level-65536", b"(atoms 1)\n(claim (0 65536))\n")?;
    show_text(rt, b"20-digits", b"(atoms 18446744073709551617)\n(open)\n")
}

// The texts of each function are few: what is known of every text before is carried along while one is proved.
pub fn run_texts(rt: &impl Print) -> io::Result<()> {
    run_spacing(rt)?;
    run_malformed_numbers(rt)?;
    run_malformed_forms(rt)?;
    run_missing(rt)?;
    run_order(rt)?;
    run_open_atoms(rt)?;
    run_defined_atoms(rt)?;
    run_defined_places(rt)?;
    run_defined_forms(rt)?;
    run_defined_limits(rt)?;
    run_claim_pairs(rt)?;
    run_atom_limits(rt)?;
    run_load_limits(rt)?;
    run_claim_limits(rt)
}
