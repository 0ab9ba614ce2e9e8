// Faults of rows and of single entries: each search answers the lowest position that fails.
// The tests are joined by `|`, which leaves no branch.
ghost use Rattle.std.specs.Prelude.{◌≡◌, not, ℕ, ◌≤◌, ◌<◌, length, get_or};
ghost use Rattle.tables.specs.Faults.{lowest};
ghost use Rattle.tables.specs.Rows.{rule_count, clause_count};
ghost use Rattle.tables.specs.Loads.{load_count};
ghost use Rattle.tables.specs.Sound.{bad_rule_row, bad_clause_row, good_load_row, bad_literal, bad_term};

use super::load_rows::{load_count, load_row_is_good};
use super::rows::{
    clause_count, clause_size, clause_start, rule_count, rule_head, rule_size, rule_start,
};
use super::searches::lowest;
use super::sizes::MAX_MINUTES;
use wellfounded::atom_of;

fn rule_row_is_bad(atoms: usize, rules: &[u16], literals: usize, row: usize) -> bool
    requires { row < rule_count rules.now }
    ensures { result ≡ bad_rule_row atoms rules.now literals row }
{
    let head = rule_head(rules, row);
    let start = rule_start(rules, row);
    let size = rule_size(rules, row);
    (literals < start + size) | (atoms <= head)
}

// The lowest rule row past the end of the literals, or with a head that is no atom.
pub fn bad_rule_row(atoms: usize, rules: &[u16], literals: usize) -> Option<usize>
    ensures { result ≡ lowest (rule_count rules.now) (bad_rule_row atoms rules.now literals) }
{
    lowest(rule_count(rules), |row| {
        rule_row_is_bad(atoms, rules, literals, row)
    })
}

fn clause_row_is_bad(clauses: &[u16], literals: usize, row: usize) -> bool
    requires { row < clause_count clauses.now }
    ensures { result ≡ bad_clause_row clauses.now literals row }
{
    let start = clause_start(clauses, row);
    let size = clause_size(clauses, row);
    literals < start + size
}

// The lowest clause row past the end of the literals.
pub fn bad_clause_row(clauses: &[u16], literals: usize) -> Option<usize>
    ensures { result ≡ lowest (clause_count clauses.now) (bad_clause_row clauses.now literals) }
{
    lowest(clause_count(clauses), |row| {
        clause_row_is_bad(clauses, literals, row)
    })
}

fn literal_is_bad(atoms: usize, literals: &[u16], place: usize) -> bool
    requires { place < length literals.now }
    ensures { result ≡ bad_literal atoms literals.now place }
{
    atoms <= atom_of(literals[place])
}

// The lowest literal that is no atom's, in use or not. The highest tells whether there is one: finding it has no early end, so
// that it looks at many literals at a time.
pub fn bad_literal(atoms: usize, literals: &[u16]) -> Option<usize>
    ensures { result ≡ lowest (length literals.now) (bad_literal atoms literals.now) }
{
    let highest = literals.iter().copied().max().unwrap_or(0);
    if atom_of(highest) < atoms {
        return None;
    }
    lowest(
        literals.len(),
        |place| literal_is_bad(atoms, literals, place),
    )
}

fn term_is_bad(atoms: usize, load_literals: &[u16], minutes: &[i16], place: usize) -> bool
    requires { (place < length load_literals.now) × (length minutes.now ≡ length load_literals.now) }
    ensures { result ≡ bad_term atoms load_literals.now minutes.now place }
{
    let out_of_range = MAX_MINUTES < minutes[place].unsigned_abs();
    literal_is_bad(atoms, load_literals, place) | out_of_range
}

// The lowest place of a load literal that is no atom's or of minutes out of range, in use or not.
pub fn bad_term(atoms: usize, load_literals: &[u16], minutes: &[i16]) -> Option<usize>
    requires { length minutes.now ≡ length load_literals.now }
    ensures { result ≡ lowest (length load_literals.now)
        (bad_term atoms load_literals.now minutes.now) }
{
    lowest(load_literals.len(), |place| {
        term_is_bad(atoms, load_literals, minutes, place)
    })
}

// The lowest load row past the end of the terms, with a negative start or count, or with a bound out of range.
pub fn bad_load_row(loads: &[i32], terms: usize) -> Option<usize>
    ensures { result ≡ lowest (load_count loads.now) (λ row. not (good_load_row loads.now terms row)) }
{
    lowest(
        load_count(loads),
        |row| !load_row_is_good(loads, terms, row),
    )
}
