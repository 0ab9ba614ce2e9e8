// Rounds until one decides nothing: from stage 0 to the well-founded model.
ghost use Rattle.std.specs.Prelude.{◌≡◌, ℕ, List, length};
ghost use Rattle.wellfounded.specs.Definitions.{Definition};
ghost use Rattle.advancing.specs.internal.Advancing.{AdvanceReady, AdvanceDone};
ghost use Rattle.advancing.specs.internal.Fronts.{Fired};
ghost use Rattle.advancing.specs.internal.Runs.{AtStart, Runs, RunDone};

use super::founded::found;
use super::fronts::{advance, close};
use propagation::lacking::{count_lacks, lack_literals};
use rounds::start_values;
use tables::entries::clear;
use tables::sizes::MAX_ATOMS;

// Counts what each row waits for at stage 0, and makes the heads of rows that wait for nothing true. Answers where the queue of these heads ends.
fn start_counts(
    rules: &[u16],
    literals: &[u16],
    counts: &mut [u16],
    values: &mut [u8],
    queue: &mut [u16],
) -> usize
    requires { (d : Definition) × (starts entries setting levels : List ℕ) ×
        AtStart d rules.now literals.now starts entries setting counts.old values.old levels queue.old }
    ensures { (d : Definition) (starts entries setting levels : List ℕ) →
        AtStart d rules.now literals.now starts entries setting counts.old values.old levels queue.old →
        Fired d rules.now literals.now setting 0 0 result counts.new values.new levels queue.new }
{
    let mut table = [0u8; 2 * MAX_ATOMS];
    lack_literals(false, values, &mut table);
    count_lacks(rules, literals, &table, counts, values, queue)
}

// Makes rounds until one decides nothing. Answers how many decided something, the first among them.
fn run(
    first: usize,
    last: usize,
    renewed: bool,
    rules: &[u16],
    literals: &[u16],
    starts: &[u16],
    entries: &[u16],
    counts: &mut [u16],
    founded: &mut [u8],
    values: &mut [u8],
    levels: &mut [u16],
    queue: &mut [u16],
) -> usize
    requires { (d : Definition) × (setting : List ℕ) × Runs d rules.now literals.now starts.now entries.now setting 0 first last renewed
        counts.old founded.old values.old levels.old queue.old }
    ensures { (d : Definition) (setting : List ℕ) →
        Runs d rules.now literals.now starts.now entries.now setting 0 first last renewed
        counts.old founded.old values.old levels.old queue.old →
        RunDone d rules.now literals.now setting counts.new values.new levels.new queue.new result }
{
    let mut from = first;
    let mut end = last;
    let mut due = renewed;
    let mut rounds: usize = 0;
    while from < end {
        rounds += 1;
        let front = advance(
            (rounds + 1) as u16,
            from,
            end,
            due,
            rules,
            literals,
            starts,
            entries,
            counts,
            founded,
            values,
            levels,
            queue,
        );
        from = front.from;
        end = front.end;
        due = front.due;
    }
    rounds
}

// Makes all rounds from stage 0 on. Answers how many decided something.
fn make_stages(
    rules: &[u16],
    literals: &[u16],
    starts: &[u16],
    entries: &[u16],
    counts: &mut [u16],
    founded: &mut [u8],
    values: &mut [u8],
    levels: &mut [u16],
    queue: &mut [u16],
) -> usize
    requires { (d : Definition) × (setting : List ℕ) ×
        AtStart d rules.now literals.now starts.now entries.now setting counts.old values.old levels.old queue.old
        × (length founded.old ≡ length values.old) }
    ensures { (d : Definition) (setting : List ℕ) →
        AtStart d rules.now literals.now starts.now entries.now setting
        counts.old values.old levels.old queue.old →
        AdvanceDone d rules.now literals.now setting values.new levels.new queue.new counts.new result }
{
    found(rules, literals, starts, entries, values, founded);
    let end = start_counts(rules, literals, counts, values, queue);
    let front = close(true, 0, end, 1, founded, starts, values, levels, queue);
    let rounds = run(
        front.from, front.end, front.due, rules, literals, starts, entries, counts, founded,
        values, levels, queue,
    );
    clear(queue);
    rounds
}

// Evaluates a definition, whose rules stand in the rows, at a setting, by the index of the rules: values become the model, levels the stages, work
// all 0, and counts what each row waits for in the model. Answers the rounds.
pub fn advance_stages(
    rules: &[u16],
    literals: &[u16],
    defined: &[u8],
    setting: &[u8],
    values: &mut [u8],
    levels: &mut [u16],
    work: &mut [u16],
    starts: &[u16],
    entries: &[u16],
    counts: &mut [u16],
) -> usize
    requires { (d : Definition) × AdvanceReady d rules.now literals.now defined.now setting.now values.old levels.old work.old
        starts.now entries.now counts.old }
    ensures { (d : Definition) →
        AdvanceReady d rules.now literals.now defined.now setting.now values.old
        levels.old work.old starts.now entries.now counts.old →
        AdvanceDone d rules.now literals.now setting.now values.new levels.new work.new
        counts.new result }
{
    start_values(defined, setting, values);
    clear(levels);
    let atoms = values.len();
    let mut founded = [0u8; MAX_ATOMS];
    make_stages(
        rules,
        literals,
        starts,
        entries,
        counts,
        &mut founded[..atoms],
        values,
        levels,
        work,
    )
}
