// True atoms and the rules that support them.
ghost use Rattle.std.specs.Prelude.{◌≡◌, not, ◌&&◌, ℕ, ◌≤◌, ◌<◌, leb, length};
ghost use Rattle.wellfounded.specs.Lists.{all, tabulate};
ghost use Rattle.wellfounded.specs.Definitions.{Definition};
ghost use Rattle.wellfounded.specs.Levels.{level_at};
ghost use Rattle.wellfounded.specs.Literals.{atom_of, is_true, value_at, body_at};
ghost use Rattle.wellfounded.specs.internal.Scans.{Scannable};
ghost use Rattle.tables.specs.Faults.{lowest, first_fault};
ghost use Rattle.tables.specs.Sound.{group_levels};
ghost use Rattle.checker.specs.Check.{unsupported, support_test};
ghost use Rattle.tables.specs.Rows.{rule_count};
ghost use Rattle.tables.specs.internal.Marks.{is_marked, mark_where};
ghost use Rattle.checker.specs.internal.Scans.{HasEntries, Levelled, HeadsLevelled, GroupRanged, GroupsLevelled, GroupsRanged};
ghost use Rattle.checker.specs.internal.Scans.{supports_below, supports_row, supported_by};

use crate::levels::levels_of;
use tables::refusals::absent;
use tables::rows::{rule_count, rule_group, rule_head, rule_size, rule_start};
use tables::searches::lowest;
use tables::sizes::MAX_ATOMS;
use tables::{Fault, Verdict};
use wellfounded::{atom_of, literal_true};

// Whether the literal supports a true atom at the level: it is true, and its atom is at a strictly lower level. An open atom's
// level is 0, so that it is always lower.
fn literal_supports(literal: u16, level: u16, values: &[u8], levels: &[u16]) -> bool
    requires { HasEntries (atom_of literal) values.now levels.now }
    ensures { result ≡ supports_below values.now levels.now level literal }
{
    let atom = atom_of(literal);
    literal_true(literal, values) & (levels[atom] < level)
}

// Whether the first `size` literals all support an atom at the level.
fn literals_support(
    literals: &[u16],
    size: usize,
    level: u16,
    values: &[u8],
    levels: &[u16],
) -> bool
    requires { (Scannable literals.now 0 size (length values.now)) × (length levels.now ≡ length values.now) }
    ensures { result ≡ all (supports_below values.now levels.now level) (body_at literals.now 0 size) }
{
    // A `for` and not the library's `all`, for the reason that `literals_true` of wellfounded has.
    for literal in &literals[..size] {
        if !literal_supports(*literal, level, values, levels) {
            return false;
        }
    }
    true
}

// Whether the body that begins at `start` supports an atom at the level. The part from start on is the form that docs/DECISIONS.md names for it.
fn body_supports(
    literals: &[u16],
    start: usize,
    size: usize,
    level: u16,
    values: &[u8],
    levels: &[u16],
) -> bool
    requires { (Scannable literals.now start size (length values.now)) × (length levels.now ≡ length values.now) }
    ensures { result ≡ all (supports_below values.now levels.now level) (body_at literals.now start size) }
{
    literals_support(&literals[start..], size, level, values, levels)
}

// Whether the rule row is of the group, its head is true and the row supports it. The body of another group's row is not walked.
fn row_supports(
    rules: &[u16],
    row: usize,
    literals: &[u16],
    group: usize,
    values: &[u8],
    levels: &[u16],
) -> bool
    requires { (row < rule_count rules.now) × Levelled rules.now literals.now values.now levels.now }
    ensures { result ≡ supports_row rules.now literals.now group values.now levels.now row }
{
    if rule_group(rules, row) != group {
        return false;
    }
    let head = rule_head(rules, row);
    if values[head] != 1 {
        return false;
    }
    let start = rule_start(rules, row);
    let size = rule_size(rules, row);
    body_supports(literals, start, size, levels[head], values, levels)
}

// Marks every true atom that a rule of the group supports. A row whose head is marked is passed over.
fn mark_supported(
    rules: &[u16],
    literals: &[u16],
    group: usize,
    values: &[u8],
    levels: &[u16],
    supported: &mut [u8],
)
    requires levelled { Levelled rules.now literals.now values.now levels.now }
    requires values_in_bounds { length values.now ≤ length supported.old }
    ensures { supported.new ≡ mark_where
        (supported_by rules.now literals.now group values.now levels.now (rule_count rules.now))
        supported.old }
{
    for row in 0..rule_count(rules) {
        let head = rule_head(rules, row);
        if supported[head] != 1 && row_supports(rules, row, literals, group, values, levels) {
            supported[head] = 1;
        }
    }
}

// The lowest atom that is defined and true and has no support. A level from 1 on tells that an atom is defined.
fn unsupported_atom(values: &[u8], levels: &[u16], supported: &[u8]) -> Option<usize>
    requires { (length values.now ≤ length levels.now) × (length values.now ≤ length supported.now) }
    ensures { result ≡ lowest (length values.now)
        (λ atom. leb 1 (level_at levels.now atom) && is_true (value_at values.now atom) && not (is_marked supported.now atom)) }
{
    lowest(values.len(), |atom| {
        1 <= levels[atom] && values[atom] == 1 && supported[atom] != 1
    })
}

// The lowest true atom that a group defines and that has no rule there which supports it. `levels` are those of the group.
fn unsupported_in_group(
    rules: &[u16],
    literals: &[u16],
    group: usize,
    values: &[u8],
    levels: &[u16],
) -> Option<usize>
    requires { HeadsLevelled rules.now literals.now group values.now levels.now }
    ensures { (d : Definition) → GroupRanged d rules.now literals.now group values.now levels.now →
        result ≡ lowest d.size (unsupported d values.now levels.now) }
{
    let mut supported = [0u8; MAX_ATOMS];
    mark_supported(rules, literals, group, values, levels, &mut supported);
    unsupported_atom(values, levels, &supported)
}

// The first fault of true atoms, group by group.
pub fn support_fault(
    rules: &[u16],
    literals: &[u16],
    groups: usize,
    values: &[u8],
    levels: &[u16],
) -> Verdict
    requires groups_levelled { GroupsLevelled rules.now literals.now groups values.now levels.now }
    requires by_index { (group : ℕ) → group < groups → HeadsLevelled rules.now literals.now group values.now
        (group_levels (length values.now) levels.now group) }
    ensures { (d : ℕ → Definition) → GroupsRanged d rules.now literals.now groups values.now levels.now →
        result ≡ first_fault (tabulate groups (λ group. support_test (d group) values.now
        (group_levels (length values.now) levels.now group))) }
{
    let atoms = values.len();
    for group in 0..groups {
        let part = levels_of(levels, atoms, group);
        absent(
            Fault::Unsupported,
            unsupported_in_group(rules, literals, group, values, part),
        )?;
    }
    Ok(())
}
