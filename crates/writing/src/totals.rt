// Literals and terms counted by row. Rows are not walked: what they share counts for each of them.
ghost use Rattle.std.specs.Prelude.{◌≡◌, ◌≤◌, length};
ghost use Rattle.wellfounded.specs.Lists.{sum_below};
ghost use Rattle.tables.specs.Rows.{clause_count, clause_size};
ghost use Rattle.tables.specs.Loads.{load_count, load_size};
ghost use Rattle.writing.specs.Writing.{rows_fit};

use tables::load_rows::{load_count, load_size};
use tables::rows::{clause_count, clause_size};
use tables::sizes::{MAX_LITERALS, MAX_TERMS};
use tables::totals::rules_total;

// The literals of all clauses.
fn clauses_total(clauses: &[u16]) -> usize
    requires { length clauses.now ≤ 65536 }
    ensures { (result ≡ sum_below (clause_count clauses.now) (clause_size clauses.now)) × (result ≤ 4294967296) }
{
    let mut total = 0;
    for row in 0..clause_count(clauses) {
        total += clause_size(clauses, row);
    }
    total
}

// The terms of all load rows. The two loops stay apart: one for both, told of sizes, bound and table, is longer than they are.
fn terms_total(loads: &[i32]) -> usize
    requires { length loads.now ≤ 65536 }
    ensures { result ≡ sum_below (load_count loads.now) (load_size loads.now) }
{
    let mut total = 0;
    for row in 0..load_count(loads) {
        total += load_size(loads, row);
    }
    total
}

// Whether literals and terms are within the limits of a text.
pub fn rows_fit(rules: &[u16], clauses: &[u16], loads: &[i32]) -> bool
    requires { (length rules.now ≤ 65536) × (length clauses.now ≤ 65536) × (length loads.now ≤ 65536) }
    ensures { result ≡ rows_fit rules.now clauses.now loads.now }
{
    let literals = rules_total(rules) + clauses_total(clauses);
    (literals <= MAX_LITERALS) & (terms_total(loads) <= MAX_TERMS)
}
