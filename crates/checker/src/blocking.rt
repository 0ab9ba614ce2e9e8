// Rules of false atoms and the literals that block them.
ghost use Rattle.std.specs.Prelude.{◌≡◌, ℕ, ◌≤◌, ◌<◌, length, get_or};
ghost use Rattle.wellfounded.specs.Lists.{tabulate};
ghost use Rattle.wellfounded.specs.Literals.{atom_of};
ghost use Rattle.wellfounded.specs.Definitions.{Definition};
ghost use Rattle.tables.specs.Faults.{lowest, first_fault};
ghost use Rattle.tables.specs.Rows.{rule_count};
ghost use Rattle.tables.specs.Sound.{group_levels};
ghost use Rattle.checker.specs.Check.{blocking_test};
ghost use Rattle.checker.specs.internal.Scans.{HasEntries, HeadsLevelled, GroupsLevelled, GroupsRanged, blocks_below, unblocked_row};

use crate::levels::levels_of;
use tables::refusals::absent;
use tables::rows::{rule_count, rule_group, rule_head, rule_size, rule_start};
use tables::{Fault, Verdict};
use wellfounded::atom_of;

// Whether the literal at place `i` of a body blocks a rule for a false atom at the level: it is false, and its atom is at a
// level no higher if it is positive, strictly lower if it is negated. An open atom's level is 0, so that it is always lower.
// The value that makes a literal false is 1 if it is negated, and 0 if not.
fn literal_blocks(body: &[u16], i: usize, level: u16, values: &[u8], levels: &[u16]) -> bool
    requires { (i < length body.now) × HasEntries (atom_of (get_or body.now i 0)) values.now levels.now × (1 ≤ level) }
    ensures { result ≡ blocks_below values.now levels.now level (get_or body.now i 0) }
{
    let literal = body[i];
    let atom = atom_of(literal);
    let negated = literal % 2;
    (values[atom] as u16 == negated) & (levels[atom] <= level - negated)
}

// The lowest rule row of a group whose head is false and that has no blocking literal. `levels` are those of the group. The body of another
// group's row is not walked. The labelled loops are the form that docs/DECISIONS.md names for it.
fn unblocked_row(
    rules: &[u16],
    literals: &[u16],
    group: usize,
    values: &[u8],
    levels: &[u16],
) -> Option<usize>
    requires { HeadsLevelled rules.now literals.now group values.now levels.now }
    ensures { result ≡ lowest (rule_count rules.now)
        (unblocked_row rules.now literals.now group values.now levels.now) }
{
    let mut found = None;
    'rows: for row in 0..rule_count(rules) {
        let head = rule_head(rules, row);
        if (rule_group(rules, row) != group) | (values[head] != 0) {
            continue 'rows;
        }
        let start = rule_start(rules, row);
        let size = rule_size(rules, row);
        let level = levels[head];
        for i in 0..size {
            if literal_blocks(&literals[start..], i, level, values, levels) {
                continue 'rows;
            }
        }
        found = Some(row);
        break 'rows;
    }
    found
}

// The first fault of rules of false atoms, group by group.
pub fn blocking_fault(
    rules: &[u16],
    literals: &[u16],
    groups: usize,
    values: &[u8],
    levels: &[u16],
) -> Verdict
    requires groups_levelled { GroupsLevelled rules.now literals.now groups values.now levels.now }
    requires by_index { (group : ℕ) → group < groups → HeadsLevelled rules.now literals.now group values.now
        (group_levels (length values.now) levels.now group) }
    ensures { (d : ℕ → Definition) → GroupsRanged d rules.now literals.now groups values.now levels.now →
        result ≡ first_fault (tabulate groups (λ group. blocking_test (d group) rules.now literals.now group values.now
        (group_levels (length values.now) levels.now group))) }
{
    let atoms = values.len();
    for group in 0..groups {
        let part = levels_of(levels, atoms, group);
        absent(
            Fault::Unblocked,
            unblocked_row(rules, literals, group, values, part),
        )?;
    }
    Ok(())
}
