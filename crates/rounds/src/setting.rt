// The setting: its faults, and the state it starts from.
ghost use Rattle.std.specs.Prelude.{◌≡◌, ℕ, ◌≤◌, ◌<◌, length, get_or};
ghost use Rattle.wellfounded.specs.Literals.{atom_of};
ghost use Rattle.tables.specs.Faults.{lowest};
ghost use Rattle.tables.specs.internal.Marks.{mark_where};
ghost use Rattle.rounds.specs.internal.Starting.{start_values, bad_start, occurs_negated};

use tables::searches::lowest;
use wellfounded::{atom_of, is_negated};

// Whether the atom's open value is not 0 or 1, or it is defined and has a value other than 0.
fn bad_start(defined: &[u8], setting: &[u8], atom: usize) -> bool
    requires { (atom < length setting.now) × (length setting.now ≤ length defined.now) }
    ensures { result ≡ bad_start defined.now setting.now atom }
{
    let most = if defined[atom] == 1 { 0 } else { 1 };
    most < setting[atom]
}

// The lowest atom whose open value is not 0 or 1, or that is defined and has a value other than 0.
pub fn bad_setting(defined: &[u8], setting: &[u8]) -> Option<usize>
    requires { length setting.now ≤ length defined.now }
    ensures { result ≡ lowest (length setting.now) (bad_start defined.now setting.now) }
{
    lowest(setting.len(), |atom| bad_start(defined, setting, atom))
}

// Stage 0: the open atoms have their values, the defined ones are undecided.
pub fn start_values(defined: &[u8], setting: &[u8], values: &mut [u8])
    requires { (length setting.now ≤ length defined.now) × (length values.old ≡ length setting.now) }
    ensures { values.new ≡ start_values defined.now setting.now }
{
    for (atom, value) in values.iter_mut().enumerate() {
        *value = if defined[atom] == 1 { 2 } else { setting[atom] };
    }
}

// Marks every atom that occurs negated in the literal table.
pub fn mark_negated(literals: &[u16], marks: &mut [u8])
    requires { (place : ℕ) → place < length literals.now → atom_of (get_or literals.now place 0) < length marks.old }
    ensures { marks.new ≡ mark_where (occurs_negated literals.now) marks.old }
{
    for literal in literals {
        if is_negated(*literal) {
            marks[atom_of(*literal)] = 1;
        }
    }
}
