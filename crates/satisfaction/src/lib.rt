// Clauses and load lines in lent values: the faults 26 and 27.
#![tactic(auto)]

ghost use Rattle.std.specs.Prelude.{◌≡◌, [], ◌∷◌, length};
ghost use Rattle.tables.specs.Faults.{first_fault};
ghost use Rattle.tables.specs.internal.Scans.{ClausesScannable, LoadsScannable};
ghost use Rattle.satisfaction.specs.Satisfied.{clause_test, load_test};

mod clauses;
mod loads;

use clauses::failing_clause;
use loads::failing_load;
use tables::refusals::absent;
use tables::{Fault, Verdict};

// The first failing clause, or else the first failing load line.
pub fn satisfaction_fault(
    clauses: &[u16],
    literals: &[u16],
    loads: &[i32],
    load_literals: &[u16],
    minutes: &[i16],
    values: &[u8],
) -> Verdict
    requires clauses_scannable { ClausesScannable clauses.now literals.now (length values.now) }
    requires loads_scannable { LoadsScannable loads.now load_literals.now minutes.now (length values.now) }
    ensures { result ≡ first_fault
        (clause_test clauses.now literals.now values.now
        ∷ load_test loads.now load_literals.now minutes.now values.now ∷ []) }
{
    absent(
        Fault::FailingClause,
        failing_clause(clauses, literals, values),
    )?;
    absent(
        Fault::FailingLoad,
        failing_load(loads, load_literals, minutes, values),
    )
}
