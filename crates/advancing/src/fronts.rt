// One round that follows the index: what became true in the last one leads to rows, and what fires or is unfounded makes the next one.
ghost use Rattle.std.specs.Prelude.{◌≡◌, ℕ, suc, List};
ghost use Rattle.wellfounded.specs.Definitions.{Definition};
ghost use Rattle.wellfounded.specs.Stages.{stage};
ghost use Rattle.advancing.specs.internal.Noting.{Unfoundable};
ghost use Rattle.advancing.specs.internal.Fronts.{FalsifiedIfDue, KnowsFounded, AtFront, Closes, FoundsIf, Advances};

use super::founded::found;
use super::levels::note_levels;
use super::unfounded::decide_unfounded;
use propagation::counts::propagate;

// Where the rounds stand: the atoms that the last one decided are queued from `from` on up to `end`, and whether atoms have to be founded anew.
#[derive(Drop)]
pub struct Front {
    pub from: usize,
    pub end: usize,
    pub due: bool,
}

// Makes unfounded atoms false, if there may be new ones. Answers where the queue ends then.
fn falsify_if_due(
    due: bool,
    founded: &[u8],
    values: &mut [u8],
    queue: &mut [u16],
    end: usize,
) -> usize
    requires { Unfoundable founded.now values.old queue.old end }
    ensures { FalsifiedIfDue due founded.now values.old queue.old end values.new queue.new result }
{
    if !due {
        return end;
    }
    decide_unfounded(founded, values, queue, end)
}

// Closes a round in which the atoms that fire were made true: what is unfounded becomes false, and all that was decided has the level.
pub fn close(
    due: bool,
    from: usize,
    end: usize,
    level: u16,
    founded: &[u8],
    starts: &[u16],
    values: &mut [u8],
    levels: &mut [u16],
    queue: &mut [u16],
) -> Front
    requires { (d : Definition) × (rules literals entries setting counts : List ℕ) × (k : ℕ) × Closes d rules literals starts.now entries setting k due from end level
        founded.now counts values.old levels.old queue.old }
    ensures { (d : Definition) (rules literals entries setting counts : List ℕ) (k : ℕ) →
        Closes d rules literals starts.now entries setting k due from end level
        founded.now counts values.old levels.old queue.old →
        AtFront d rules literals setting k result.from result.end result.due counts values.new levels.new queue.new }
{
    let to = falsify_if_due(due, founded, values, queue, end);
    let renewed = note_levels(queue, from, to, level, values, starts, levels);
    Front {
        from,
        end: to,
        due: renewed,
    }
}

// Founds atoms anew, if that is due.
fn found_if(
    due: bool,
    rules: &[u16],
    literals: &[u16],
    starts: &[u16],
    entries: &[u16],
    values: &[u8],
    founded: &mut [u8],
)
    requires { (d : Definition) × (setting : List ℕ) × (k : ℕ) ×
        FoundsIf d rules.now literals.now starts.now entries.now setting k due values.now founded.old }
    ensures { (d : Definition) (setting : List ℕ) (k : ℕ) →
        FoundsIf d rules.now literals.now starts.now entries.now setting k due values.now founded.old →
        KnowsFounded d (stage d setting k) due founded.new }
{
    if due {
        found(rules, literals, starts, entries, values, founded);
    }
}

// One round: the atoms of the last one are propagated, and the round is closed at the level.
pub fn advance(
    level: u16,
    from: usize,
    end: usize,
    due: bool,
    rules: &[u16],
    literals: &[u16],
    starts: &[u16],
    entries: &[u16],
    counts: &mut [u16],
    founded: &mut [u8],
    values: &mut [u8],
    levels: &mut [u16],
    queue: &mut [u16],
) -> Front
    requires { (d : Definition) × (setting : List ℕ) × (k : ℕ) ×
        Advances d rules.now literals.now starts.now entries.now setting k level from end due counts.old founded.old values.old levels.old queue.old }
    ensures { (d : Definition) (setting : List ℕ) (k : ℕ) →
        Advances d rules.now literals.now starts.now entries.now setting k level from end due
        counts.old founded.old values.old levels.old queue.old →
        AtFront d rules.now literals.now setting (suc k) result.from result.end result.due
        counts.new values.new levels.new queue.new }
{
    found_if(due, rules, literals, starts, entries, values, founded);
    let next = propagate(from, end, starts, entries, rules, counts, values, queue);
    close(
        due, end, next, level, founded, starts, values, levels, queue,
    )
}
