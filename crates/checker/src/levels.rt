// Levels, atom by atom.
ghost use Rattle.std.specs.Prelude.{◌≡◌, not, List, ℕ, ◌+◌, ◌*◌, ◌≤◌, ◌<◌, length};
ghost use Rattle.wellfounded.specs.Lists.{tabulate};
ghost use Rattle.tables.specs.Faults.{lowest, first_fault};
ghost use Rattle.tables.specs.Rows.{definition_of};
ghost use Rattle.tables.specs.Sound.{group_levels};
ghost use Rattle.checker.specs.Check.{bad_level, level_test};
ghost use Rattle.checker.specs.internal.Scans.{Markable, max_levels, level_fits};

use tables::marks::{count_marked, mark_defined};
use tables::refusals::absent;
use tables::searches::lowest;
use tables::sizes::MAX_ATOMS;
use tables::{Fault, Verdict};

// Whether the atom's level is 0 where it is open, and from 1 to `most` where it is defined. A range would compare the same two ends.
fn level_in_range(defined: &[u8], most: usize, levels: &[u16], atom: usize) -> bool
    requires { (atom < length defined.now) × (atom < length levels.now) }
    ensures { result ≡ level_fits defined.now most levels.now atom }
{
    let level = levels[atom];
    if defined[atom] == 1 {
        1 <= level && level as usize <= most
    } else {
        level == 0
    }
}

// The lowest atom whose level is out of range.
fn bad_level(defined: &[u8], most: usize, levels: &[u16]) -> Option<usize>
    requires { length levels.now ≤ length defined.now }
    ensures { result ≡ lowest (length levels.now) (λ atom. not (level_fits defined.now most levels.now atom)) }
{
    lowest(
        levels.len(),
        |atom| !level_in_range(defined, most, levels, atom),
    )
}

// The lowest atom whose level in a group is out of range. `levels` are those of the group.
fn bad_group_level(rules: &[u16], group: usize, marks: &[u8], levels: &[u16]) -> Option<usize>
    requires { Markable rules.now marks.now × (length levels.now ≡ length marks.now) }
    ensures { (literals : List ℕ) → let d = definition_of (length marks.now) rules.now literals marks.now group in
        result ≡ lowest d.size (bad_level d levels.now) }
{
    let mut defined = [0u8; MAX_ATOMS];
    mark_defined(rules, group, marks, &mut defined);
    let most = count_marked(&defined, marks.len());
    bad_level(&defined, most, levels)
}

// The levels of a group, which are a part of all levels.
pub fn levels_of(levels: &[u16], atoms: usize, group: usize) -> &[u16]
    requires { (group * atoms + atoms ≤ length levels.now) × (length levels.now ≤ max_levels) }
    ensures { result.now ≡ group_levels atoms levels.now group }
{
    let from = group * atoms;
    &levels[from..from + atoms]
}

// The first fault of levels, group by group.
pub fn level_fault(rules: &[u16], marks: &[u8], groups: usize, levels: &[u16]) -> Verdict
    requires markable { Markable rules.now marks.now }
    requires groups_bound { (groups ≤ 65536) × (length levels.now ≡ groups * length marks.now) }
    ensures { (literals : List ℕ) → result ≡ first_fault (tabulate groups (λ group.
        level_test (definition_of (length marks.now) rules.now literals marks.now group)
        (group_levels (length marks.now) levels.now group))) }
{
    let atoms = marks.len();
    for group in 0..groups {
        let part = levels_of(levels, atoms, group);
        absent(Fault::Level, bad_group_level(rules, group, marks, part))?;
    }
    Ok(())
}
