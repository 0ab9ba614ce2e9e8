// Atoms that are founded at a stage, found through the index.
ghost use Rattle.std.specs.Prelude.{◌≡◌, ℕ, List, length};
ghost use Rattle.wellfounded.specs.Definitions.{Definition};
ghost use Rattle.wellfounded.specs.Stages.{stage};
ghost use Rattle.advancing.specs.internal.Fronts.{FoundReady, TellsFounded};
ghost use Rattle.advancing.specs.internal.Waves.{WavesReady};

use propagation::counts::propagate;
use propagation::lacking::{count_lacks, lack_literals};
use tables::marks::copy_marks;
use tables::sizes::{MAX_ATOMS, MAX_RULE_ROWS};

// Marks wave by wave what the atoms of the queue found, until a wave marks nothing.
fn found_waves(
    end: usize,
    rules: &[u16],
    starts: &[u16],
    entries: &[u16],
    counts: &mut [u16],
    marks: &mut [u8],
    queue: &mut [u16],
)
    requires { (d : Definition) × (literals : List ℕ) × (setting : List ℕ) × (k : ℕ)
        × WavesReady d rules.now literals starts.now entries.now setting k end counts.old marks.old queue.old }
    ensures { (d : Definition) (literals setting : List ℕ) (k : ℕ) →
        WavesReady d rules.now literals starts.now entries.now setting k end
        counts.old marks.old queue.old →
        TellsFounded d (stage d setting k) marks.new }
{
    let mut from = 0;
    let mut behind = end;
    while from < behind {
        let next = propagate(from, behind, starts, entries, rules, counts, marks, queue);
        from = behind;
        behind = next;
    }
}

// Marks, on a copy of a stage's values, the undecided atoms that are founded there.
pub fn found(
    rules: &[u16],
    literals: &[u16],
    starts: &[u16],
    entries: &[u16],
    values: &[u8],
    marks: &mut [u8],
)
    requires { (d : Definition) × (setting : List ℕ) × (k : ℕ)
        × FoundReady d rules.now literals.now starts.now entries.now setting k values.now marks.old }
    ensures { (d : Definition) (setting : List ℕ) (k : ℕ) →
        FoundReady d rules.now literals.now starts.now entries.now setting k
        values.now marks.old →
        TellsFounded d (stage d setting k) marks.new }
{
    copy_marks(values, marks);
    let mut table = [0u8; 2 * MAX_ATOMS];
    lack_literals(true, values, &mut table);
    let mut counts = [0u16; MAX_RULE_ROWS];
    let mut queue = [0u16; MAX_ATOMS];
    let end = count_lacks(rules, literals, &table, &mut counts, marks, &mut queue);
    found_waves(end, rules, starts, entries, &mut counts, marks, &mut queue);
}
