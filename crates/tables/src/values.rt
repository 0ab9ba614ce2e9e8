// Values and marks, atom by atom.
ghost use Rattle.std.specs.Prelude.{◌≡◌, ℕ, ◌≤◌, ◌<◌, length, get_or};
ghost use Rattle.tables.specs.Faults.{lowest};
ghost use Rattle.tables.specs.Values.{not_held};

use super::searches::lowest;

// The lowest atom whose entry is neither 0 nor 1. The highest tells whether there is one: finding it has no early end, so that it
// looks at many entries at a time.
pub fn not_held_atom(entries: &[u8]) -> Option<usize>
    ensures { result ≡ lowest (length entries.now) (not_held entries.now) }
{
    let highest = entries.iter().copied().max().unwrap_or(0);
    if highest <= 1 {
        return None;
    }
    lowest(entries.len(), |atom| 1 < entries[atom])
}
