// Clauses in lent values.
ghost use Rattle.std.specs.Prelude.{◌≡◌, ◌<◌, length};
ghost use Rattle.wellfounded.specs.Literals.{body_at};
ghost use Rattle.wellfounded.specs.internal.Scans.{Scannable};
ghost use Rattle.tables.specs.Faults.{lowest};
ghost use Rattle.tables.specs.Rows.{clause_count};
ghost use Rattle.tables.specs.internal.Scans.{ClausesScannable};
ghost use Rattle.satisfaction.specs.Satisfied.{clause_holds, failing_clause};

use tables::rows::{clause_count, clause_size, clause_start};
use tables::searches::lowest;
use wellfounded::literal_true;

// Whether one of the first `size` literals is true in the values.
fn some_literal_true(literals: &[u16], size: usize, values: &[u8]) -> bool
    requires { Scannable literals.now 0 size (length values.now) }
    ensures { result ≡ clause_holds values.now (body_at literals.now 0 size) }
{
    // A `for` and not the library's `any`, for the reason that `literals_true` of wellfounded has.
    for literal in &literals[..size] {
        if literal_true(*literal, values) {
            return true;
        }
    }
    false
}

// Whether the clause that begins at `start` holds in the values. The part from start on is the form that docs/DECISIONS.md names for it.
fn clause_holds(literals: &[u16], start: usize, size: usize, values: &[u8]) -> bool
    requires { Scannable literals.now start size (length values.now) }
    ensures { result ≡ clause_holds values.now (body_at literals.now start size) }
{
    some_literal_true(&literals[start..], size, values)
}

fn clause_row_fails(clauses: &[u16], literals: &[u16], values: &[u8], row: usize) -> bool
    requires row_bound { row < clause_count clauses.now }
    requires clauses_scannable { ClausesScannable clauses.now literals.now (length values.now) }
    ensures { result ≡ failing_clause clauses.now literals.now values.now row }
{
    let start = clause_start(clauses, row);
    let size = clause_size(clauses, row);
    !clause_holds(literals, start, size, values)
}

// The lowest clause row that fails in the values.
pub fn failing_clause(clauses: &[u16], literals: &[u16], values: &[u8]) -> Option<usize>
    requires { ClausesScannable clauses.now literals.now (length values.now) }
    ensures { result ≡ lowest (clause_count clauses.now)
        (failing_clause clauses.now literals.now values.now) }
{
    lowest(clause_count(clauses), |row| {
        clause_row_fails(clauses, literals, values, row)
    })
}
