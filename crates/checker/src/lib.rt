// The check of a claim on lent tables.
#![tactic(auto)]

ghost use Rattle.std.specs.Prelude.{◌≡◌, ◌∷◌, length};
ghost use Rattle.tables.specs.Faults.{first_fault};
ghost use Rattle.tables.specs.Rows.{group_count, definition_of};
ghost use Rattle.tables.specs.Sound.{lent, mark_test};
ghost use Rattle.tables.specs.internal.Scans.{ClausesScannable, LoadsScannable};
ghost use Rattle.checker.specs.Check.{level_tests, claim_tests, check_of};
ghost use Rattle.checker.specs.internal.Scans.{GroupsLevelled};

mod blocking;
mod levels;
mod support;

use blocking::blocking_fault;
use levels::level_fault;
use satisfaction::satisfaction_fault;
use support::support_fault;
use tables::groups::group_count;
use tables::refusals::{absent, require};
use tables::sizes::table_fault;
use tables::values::not_held_atom;
use tables::{Fault, Verdict};

// The first fault of levels and rules, on tables that have none: levels in all groups, then true atoms in all, then rules of false atoms in all.
fn group_fault(
    rules: &[u16],
    literals: &[u16],
    marks: &[u8],
    groups: usize,
    values: &[u8],
    levels: &[u16],
) -> Verdict
    requires groups_levelled { GroupsLevelled rules.now literals.now groups values.now levels.now }
    requires marks_len { length marks.now ≡ length values.now }
    ensures { result ≡ first_fault (level_tests
        (definition_of (length values.now) rules.now literals.now marks.now)
        (length values.now) groups
        rules.now literals.now values.now levels.now) }
{
    level_fault(rules, marks, groups, levels)?;
    support_fault(rules, literals, groups, values, levels)?;
    blocking_fault(rules, literals, groups, values, levels)
}

// The first fault of the marks' entries and of the claim, on tables that have no other.
fn claim_fault(
    rules: &[u16],
    literals: &[u16],
    clauses: &[u16],
    loads: &[i32],
    load_literals: &[u16],
    minutes: &[i16],
    marks: &[u8],
    groups: usize,
    values: &[u8],
    levels: &[u16],
) -> Verdict
    requires groups_levelled { GroupsLevelled rules.now literals.now groups values.now levels.now }
    requires groups_value { groups ≡ group_count rules.now }
    requires clauses_scannable { ClausesScannable clauses.now literals.now (length values.now) }
    requires loads_scannable { LoadsScannable loads.now load_literals.now minutes.now (length values.now) }
    requires marks_len { length marks.now ≡ length values.now }
    ensures { result ≡ first_fault
        (mark_test (lent (length values.now) rules.now literals.now clauses.now loads.now
        load_literals.now minutes.now marks.now)
        ∷ claim_tests (lent (length values.now) rules.now literals.now clauses.now loads.now
        load_literals.now minutes.now marks.now)
        values.now levels.now) }
{
    absent(Fault::Mark, not_held_atom(marks))?;
    absent(Fault::Value, not_held_atom(values))?;
    group_fault(rules, literals, marks, groups, values, levels)?;
    satisfaction_fault(clauses, literals, loads, load_literals, minutes, values)
}

// Checks a claim: accepted, or refused for its first fault at its lowest position. Writes nothing.
pub fn check(
    atoms: usize,
    rules: &[u16],
    literals: &[u16],
    clauses: &[u16],
    loads: &[i32],
    load_literals: &[u16],
    minutes: &[i16],
    marks: &[u8],
    values: &[u8],
    levels: &[u16],
) -> Verdict
    ensures { result ≡ check_of
        (lent atoms rules.now literals.now clauses.now loads.now load_literals.now
        minutes.now marks.now)
        values.now levels.now }
{
    table_fault(
        atoms,
        rules,
        literals,
        clauses,
        loads,
        load_literals,
        minutes,
    )?;
    require(values.len() == atoms, Fault::SliceLength)?;
    let groups = group_count(rules);
    require(levels.len() == groups * atoms, Fault::SliceLength)?;
    require(marks.len() == atoms, Fault::Mark)?;
    claim_fault(
        rules,
        literals,
        clauses,
        loads,
        load_literals,
        minutes,
        marks,
        groups,
        values,
        levels,
    )
}
