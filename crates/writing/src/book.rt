// The text of a book and a claim, put at the front of a buffer.
ghost use Rattle.std.specs.Prelude.{◌≡◌, ◌+◌, ◌*◌, ◌≤◌, length};
ghost use Rattle.format.specs.Forms.{atoms_form, claim_form, render_all};
ghost use Rattle.tables.specs.Limits.{max_atoms};
ghost use Rattle.tables.specs.Sound.{lent};
ghost use Rattle.printing.specs.internal.Putting.{Puts};
ghost use Rattle.writing.specs.BookForms.{marked_atoms, defined_forms, pairs_of, text_of};
ghost use Rattle.writing.specs.internal.Parts.{line_of, rows_text};
ghost use Rattle.writing.specs.internal.Lent.{RulesLie, ClausesLie, LoadsLie, Puttable};

use super::each::{put_each, put_line};
use super::parts::{Marks, Pairs};
use super::rows::{Clauses, Loads, Rules};
use printing::{put, put_decimal};
use tables::load_rows::load_count;
use tables::marks::count_marked;
use tables::rows::{clause_count, rule_count};

// Puts the line of the number of atoms.
fn put_atoms(text: &mut [u8], at: usize, atoms: usize) -> usize
    requires { (atoms ≤ max_atoms) × (at + length (line_of (atoms_form atoms)) ≤ length text.old) }
    ensures { Puts text.old at (line_of (atoms_form atoms)) result text.new }
{
    let begun = put(text, at, b"(atoms ");
    let numbered = put_decimal(text, begun, atoms);
    put(text, numbered, b")\n")
}

// Puts the line of the marked atoms; there is none if no atom is marked.
fn put_defined(text: &mut [u8], at: usize, marks: &[u8]) -> usize
    requires marks_len_bound { length marks.now ≤ max_atoms }
    requires marks_in_bounds { at + length (render_all (defined_forms (marked_atoms (length marks.now) marks.now))) ≤ length text.old }
    ensures { Puts text.old at
        (render_all (defined_forms (marked_atoms (length marks.now) marks.now))) result text.new }
{
    if count_marked(marks, marks.len()) == 0 {
        return at;
    }
    let begun = put(text, at, b"(defined");
    put_line(text, begun, &Marks { marks }, marks.len())
}

// Puts the line of the claim.
fn put_claim(text: &mut [u8], at: usize, groups: usize, values: &[u8], levels: &[u16]) -> usize
    requires levels_len { length levels.now ≡ groups * length values.now }
    requires levels_in_bounds { at + length (line_of (claim_form (pairs_of (length values.now) groups values.now levels.now))) ≤ length text.old }
    ensures { Puts text.old at
        (line_of (claim_form (pairs_of (length values.now) groups values.now levels.now))) result text.new }
{
    let begun = put(text, at, b"(claim");
    let pairs = Pairs {
        groups,
        values,
        levels,
    };
    put_line(text, begun, &pairs, values.len())
}

// Puts the lines of rules, clauses and load rows.
fn put_rows(
    text: &mut [u8],
    at: usize,
    rules: &[u16],
    literals: &[u16],
    clauses: &[u16],
    loads: &[i32],
    load_literals: &[u16],
    minutes: &[i16],
) -> usize
    requires rules_lie { RulesLie rules.now literals.now }
    requires clauses_lie { ClausesLie clauses.now literals.now }
    requires loads_lie { LoadsLie loads.now load_literals.now minutes.now }
    requires minutes_in_bounds { at + length (rows_text rules.now literals.now clauses.now loads.now load_literals.now minutes.now) ≤ length text.old }
    ensures { Puts text.old at
        (rows_text rules.now literals.now clauses.now loads.now load_literals.now
        minutes.now) result text.new }
{
    let ruled = put_each(text, at, &Rules { rules, literals }, rule_count(rules));
    let claused = put_each(
        text,
        ruled,
        &Clauses { clauses, literals },
        clause_count(clauses),
    );
    let lines = Loads {
        loads,
        load_literals,
        minutes,
    };
    put_each(text, claused, &lines, load_count(loads))
}

// Puts the text of a book and a claim, and answers how long it is.
pub fn put_book(
    text: &mut [u8],
    rules: &[u16],
    literals: &[u16],
    clauses: &[u16],
    loads: &[i32],
    load_literals: &[u16],
    minutes: &[i16],
    marks: &[u8],
    values: &[u8],
    levels: &[u16],
) -> usize
    requires puttable { Puttable
        (lent (length values.now) rules.now literals.now clauses.now loads.now load_literals.now minutes.now marks.now)
        values.now levels.now }
    requires levels_in_bounds { length
        (text_of (lent (length values.now) rules.now literals.now clauses.now loads.now load_literals.now minutes.now marks.now)
        values.now levels.now) ≤ length text.old }
    ensures { Puts text.old 0
        (text_of (lent (length values.now) rules.now literals.now clauses.now loads.now
        load_literals.now minutes.now marks.now) values.now levels.now)
        result text.new }
{
    let sized = put_atoms(text, 0, values.len());
    let marked = put_defined(text, sized, marks);
    let listed = put_rows(
        text,
        marked,
        rules,
        literals,
        clauses,
        loads,
        load_literals,
        minutes,
    );
    put_claim(text, listed, 1, values, levels)
}
