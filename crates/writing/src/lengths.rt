// How many bytes the lines of a text have.
ghost use Rattle.std.specs.Prelude.{◌≡◌, ◌+◌, ◌*◌, ◌≤◌, length};
ghost use Rattle.tables.specs.Limits.{max_atoms};
ghost use Rattle.tables.specs.Sound.{lent};
ghost use Rattle.format.specs.Forms.{claim_form, render_all};
ghost use Rattle.writing.specs.BookForms.{marked_atoms, defined_forms, pairs_of, text_of};
ghost use Rattle.writing.specs.internal.Parts.{line_of, body_bytes, terms_bytes, rows_text};
ghost use Rattle.writing.specs.internal.Lent.{RulesLie, ClausesLie, LoadsLie, Puttable};
ghost use Rattle.writing.specs.internal.Counting.{Counts, Short, max_entries, max_groups, max_line, max_lines};

use super::each::{each_length, line_length};
use super::parts::{Literals, Marks, Pairs, Terms};
use super::rows::{Clauses, Loads, Rules};
use printing::width;
use tables::load_rows::load_count;
use tables::rows::{clause_count, rule_count};

// The `size` literals that begin at `start`, and the end of the line.
pub fn body_length(literals: &[u16], start: usize, size: usize) -> usize
    requires { (start + size ≤ length literals.now) × (size ≤ max_entries) }
    ensures { Counts (body_bytes literals.now start size) (14 * max_entries + 2) result }
{
    let body = Literals {
        literals: &literals[start..],
    };
    line_length(&body, size)
}

// The `size` terms that begin at `start`, and the end of the line.
pub fn line_of_terms_length(
    load_literals: &[u16],
    minutes: &[i16],
    start: usize,
    size: usize,
) -> usize
    requires { (start + size ≤ length load_literals.now) × (start + size ≤ length minutes.now) × (size ≤ max_entries) }
    ensures { Counts (terms_bytes load_literals.now minutes.now start size) (25 * max_entries + 2) result }
{
    let terms = Terms {
        load_literals: &load_literals[start..],
        minutes: &minutes[start..],
    };
    line_length(&terms, size)
}

// The lines of rules, clauses and load rows.
fn rows_length(
    rules: &[u16],
    literals: &[u16],
    clauses: &[u16],
    loads: &[i32],
    load_literals: &[u16],
    minutes: &[i16],
) -> usize
    requires rules_lie { RulesLie rules.now literals.now }
    requires clauses_lie { ClausesLie clauses.now literals.now }
    requires loads_lie { LoadsLie loads.now load_literals.now minutes.now }
    requires short { Short rules.now clauses.now loads.now load_literals.now }
    ensures { Counts
        (rows_text rules.now literals.now clauses.now loads.now load_literals.now
        minutes.now) (3 * max_lines) result }
{
    let ruled = each_length(&Rules { rules, literals }, rule_count(rules));
    let claused = each_length(&Clauses { clauses, literals }, clause_count(clauses));
    let lines = Loads {
        loads,
        load_literals,
        minutes,
    };
    ruled + claused + each_length(&lines, load_count(loads))
}

// The line of the claim.
fn claim_length(groups: usize, values: &[u8], levels: &[u16]) -> usize
    requires { (length levels.now ≡ groups * length values.now) × (length values.now ≤ max_atoms) × (groups ≤ max_groups) }
    ensures { Counts
        (line_of (claim_form (pairs_of (length values.now) groups values.now levels.now))) max_line result }
{
    let pairs = Pairs {
        groups,
        values,
        levels,
    };
    6 + line_length(&pairs, values.len())
}

// The line of the marked atoms; there is none if no atom is marked.
fn defined_length(marks: &[u8]) -> usize
    requires { length marks.now ≤ max_atoms }
    ensures { Counts (render_all (defined_forms (marked_atoms (length marks.now) marks.now))) max_line result }
{
    let named = each_length(&Marks { marks }, marks.len());
    if named == 0 {
        return 0;
    }
    named + 10
}

// The text of a book and a claim.
pub fn book_length(
    rules: &[u16],
    literals: &[u16],
    clauses: &[u16],
    loads: &[i32],
    load_literals: &[u16],
    minutes: &[i16],
    marks: &[u8],
    values: &[u8],
    levels: &[u16],
) -> usize
    requires puttable { Puttable
        (lent (length values.now) rules.now literals.now clauses.now loads.now load_literals.now minutes.now marks.now)
        values.now levels.now }
    requires short { Short rules.now clauses.now loads.now load_literals.now }
    ensures { result ≡ length
        (text_of (lent (length values.now) rules.now literals.now clauses.now loads.now
        load_literals.now minutes.now marks.now) values.now levels.now) }
{
    let sized = 9 + width(values.len());
    let marked = defined_length(marks);
    let listed = rows_length(rules, literals, clauses, loads, load_literals, minutes);
    sized + marked + listed + claim_length(1, values, levels)
}
