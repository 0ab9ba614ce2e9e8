// Counts of what rows lack. They fall as the atoms of a queue lead to rows through an index.
ghost use Rattle.std.specs.Prelude.{◌≡◌, ◌≤◌, ◌<◌, length, get_or};
ghost use Rattle.tables.specs.Rows.{rule_count};
ghost use Rattle.propagation.specs.internal.Counts.{Steady, RowLowered, EntriesFit, RowsLowered, Propagatable, PartPropagated, true_literal};

use super::queues::push;
use tables::rows::rule_head;

// Lowers a row's count. At 0 the row makes its head true.
fn lower(
    row: usize,
    rules: &[u16],
    counts: &mut [u16],
    values: &mut [u8],
    queue: &mut [u16],
    end: usize,
) -> usize
    requires { (row < rule_count rules.now) × (1 ≤ get_or counts.old row 0) × Steady rules.now counts.old values.old queue.old end }
    ensures { RowLowered rules.now counts.old values.old queue.old end row
        counts.new values.new queue.new result }
{
    let left = counts[row] - 1;
    counts[row] = left;
    if left != 0 {
        return end;
    }
    let head = rule_head(rules, row);
    push(head, 1, values, queue, end)
}

// Lowers the counts of the rows at the entries from `first` on up to, and without, `last`.
fn lower_rows(
    first: usize,
    last: usize,
    entries: &[u16],
    rules: &[u16],
    counts: &mut [u16],
    values: &mut [u8],
    queue: &mut [u16],
    end: usize,
) -> usize
    requires { EntriesFit rules.now entries.now counts.old first last × Steady rules.now counts.old values.old queue.old end }
    ensures { RowsLowered rules.now entries.now counts.old values.old queue.old end first last
        counts.new values.new queue.new result }
{
    let mut behind = end;
    for row in &entries[first..last] {
        behind = lower(*row as usize, rules, counts, values, queue, behind);
    }
    behind
}

// The literal of a decided atom that is true.
fn true_literal(atom: usize, values: &[u8]) -> usize
    requires { (atom < length values.now) × (length values.now ≤ 65535) }
    ensures { result ≡ true_literal values.now atom }
{
    if values[atom] == 0 {
        2 * atom + 1
    } else {
        2 * atom
    }
}

// Goes through the queue from `from` on up to `end`: each atom's true literal leads to rows, which lose one. Heads that become true by that are
// put behind `end`. Answers where the queue ends then.
pub fn propagate(
    from: usize,
    end: usize,
    starts: &[u16],
    entries: &[u16],
    rules: &[u16],
    counts: &mut [u16],
    values: &mut [u8],
    queue: &mut [u16],
) -> usize
    requires { Propagatable rules.now starts.now entries.now counts.old values.old queue.old from end }
    ensures { PartPropagated rules.now starts.now entries.now counts.old values.old queue.old
        from end end counts.new values.new queue.new result }
{
    let mut behind = end;
    for i in from..end {
        let literal = true_literal(queue[i] as usize, values);
        let first = starts[literal] as usize;
        let last = starts[literal + 1] as usize;
        behind = lower_rows(first, last, entries, rules, counts, values, queue, behind);
    }
    behind
}
