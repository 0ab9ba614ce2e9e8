// Atoms that become false because nothing founds them.
ghost use Rattle.std.specs.Prelude.{not, ◌&&◌, ◌<◌, length};
ghost use Rattle.wellfounded.specs.Literals.{is_held, value_at};
ghost use Rattle.tables.specs.internal.Marks.{is_marked};
ghost use Rattle.propagation.specs.internal.Queues.{Pushable, Pushes};
ghost use Rattle.advancing.specs.internal.Noting.{Unfoundable, UnfoundedDecided};

use propagation::queues::push;

// Makes an undecided atom false if it is not marked as founded, and queues it. Answers where the queue ends then.
fn decide_if_unfounded(
    atom: usize,
    founded: &[u8],
    values: &mut [u8],
    queue: &mut [u16],
    end: usize,
) -> usize
    requires { (atom < length founded.now) × Pushable atom values.old queue.old end }
    ensures { Pushes (not (is_marked founded.now atom) && not (is_held (value_at values.old atom))) 0 atom
        values.old queue.old end values.new queue.new result }
{
    if founded[atom] == 1 {
        return end;
    }
    push(atom, 0, values, queue, end)
}

// Makes every undecided atom false that is not marked as founded, and queues it. Answers where the queue ends then.
pub fn decide_unfounded(founded: &[u8], values: &mut [u8], queue: &mut [u16], end: usize) -> usize
    requires { Unfoundable founded.now values.old queue.old end }
    ensures { UnfoundedDecided founded.now values.old queue.old end values.new queue.new result }
{
    let mut behind = end;
    for atom in 0..values.len() {
        behind = decide_if_unfounded(atom, founded, values, queue, behind);
    }
    behind
}
