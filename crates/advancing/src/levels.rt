// Levels of the atoms that a round decided.
ghost use Rattle.std.specs.Prelude.{◌≡◌, not, ◌&&◌, ◌+◌, ◌*◌, ◌≤◌, ◌<◌, eqb, length, get_or};
ghost use Rattle.wellfounded.specs.Literals.{is_true, value_at};
ghost use Rattle.advancing.specs.internal.Noting.{Notable, Noted};

// Whether an atom is true and has an entry under its negated literal. Both sides of `&` are evaluated, so that the machine code has no branch
// on the value.
fn renews(atom: usize, values: &[u8], starts: &[u16]) -> bool
    requires { (atom < length values.now) × (length starts.now ≡ 2 * length values.now + 1) × (length values.now ≤ 65535) }
    ensures { result ≡ (is_true (value_at values.now atom)
        && not (eqb (get_or starts.now (2 * atom + 1) 0) (get_or starts.now (2 * atom + 2) 0))) }
{
    (values[atom] == 1) & (starts[2 * atom + 1] != starts[2 * atom + 2])
}

// Gives the atoms of the queue from `from` on up to `end` their level. Answers whether one of them is true and has an entry under its negated
// literal: only then may another atom have become unfounded.
pub fn note_levels(
    queue: &[u16],
    from: usize,
    end: usize,
    level: u16,
    values: &[u8],
    starts: &[u16],
    levels: &mut [u16],
) -> bool
    requires { Notable queue.now from end values.now starts.now levels.old }
    ensures { Noted queue.now from end level values.now starts.now levels.old levels.new result }
{
    let mut due = false;
    for atom in &queue[from..end] {
        let atom = *atom as usize;
        levels[atom] = level;
        due = due | renews(atom, values, starts);
    }
    due
}
