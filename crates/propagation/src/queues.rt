// Atoms that are decided one after the other, and queued in this order. The queue is the lent work, so its end stands beside it.
ghost use Rattle.std.specs.Prelude.{not};
ghost use Rattle.wellfounded.specs.Literals.{is_held, value_at};
ghost use Rattle.propagation.specs.internal.Queues.{Pushable, Pushes};

// Decides an atom, if it is undecided, and puts it at the end of the queue. Answers where the queue ends then.
pub fn push(atom: usize, value: u8, values: &mut [u8], queue: &mut [u16], end: usize) -> usize
    requires { Pushable atom values.old queue.old end }
    ensures { Pushes (not (is_held (value_at values.old atom))) value atom values.old queue.old end
        values.new queue.new result }
{
    if values[atom] < 2 {
        return end;
    }
    values[atom] = value;
    queue[end] = atom as u16;
    end + 1
}
