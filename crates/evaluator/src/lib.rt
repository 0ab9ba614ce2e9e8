// The evaluation of a book at given open values.
#![tactic(auto)]

ghost use Rattle.std.specs.Prelude.{◌≡◌, List, [], ◌∷◌, length};
ghost use Rattle.wellfounded.specs.Lists.{all};
ghost use Rattle.tables.specs.Faults.{first_fault};
ghost use Rattle.tables.specs.Sound.{lent, Slice, is_sized, lent_tests};
ghost use Rattle.tables.specs.internal.Scans.{ClausesScannable, LoadsScannable};
ghost use Rattle.satisfaction.specs.Satisfied.{clause_test, load_test};
ghost use Rattle.evaluator.specs.Evaluate.{undecided_test, evaluation_slices, evaluate_of, Answers};
ghost use Rattle.evaluator.specs.internal.Making.{Makes};

use rounds::{bad_setting, evaluate_stages};
use satisfaction::satisfaction_fault;
use tables::marks::mark_defined;
use tables::refusals::{absent, require};
use tables::sizes::{MAX_ATOMS, table_fault};
use tables::values::not_held_atom;
use tables::{Fault, Refusal, Verdict};

// The verdict, and the number of rounds: 0 where nothing was evaluated. Rounds stand beside the refusals 25 to 27 too, which judge a
// model that was made.
#[derive(Drop)]
pub struct Answer {
    pub verdict: Verdict,
    pub rounds: usize,
}

// The first fault of the model: an undecided atom, or else a failing clause or load line.
pub fn model_fault(
    clauses: &[u16],
    literals: &[u16],
    loads: &[i32],
    load_literals: &[u16],
    minutes: &[i16],
    values: &[u8],
) -> Verdict
    requires clauses_scannable { ClausesScannable clauses.now literals.now (length values.now) }
    requires loads_scannable { LoadsScannable loads.now load_literals.now minutes.now (length values.now) }
    ensures { result ≡ first_fault
        (undecided_test (length values.now) values.now
        ∷ clause_test clauses.now literals.now values.now
        ∷ load_test loads.now load_literals.now minutes.now values.now ∷ []) }
{
    absent(Fault::Undecided, not_held_atom(values))?;
    satisfaction_fault(clauses, literals, loads, load_literals, minutes, values)
}

// Whether the four slices all have as many entries as there are atoms.
pub fn lengths_fit(atoms: usize, setting: usize, values: usize, levels: usize, work: usize) -> bool
    ensures { result ≡ all is_sized (evaluation_slices atoms setting values levels work) }
{
    (setting == atoms) & ((values == atoms) & ((levels == atoms) & (work == atoms)))
}

// The verdict on all that is lent: on the tables, on the slices, of which `fit` says whether each has its length, and on the marks.
pub fn lent_fault(
    atoms: usize,
    rules: &[u16],
    literals: &[u16],
    clauses: &[u16],
    loads: &[i32],
    load_literals: &[u16],
    minutes: &[i16],
    marks: &[u8],
    fit: bool,
) -> Verdict
    ensures { (slices : List Slice) → fit ≡ all is_sized slices → result ≡ first_fault
        (lent_tests (lent atoms rules.now literals.now clauses.now loads.now load_literals.now
        minutes.now marks.now) slices) }
{
    table_fault(
        atoms,
        rules,
        literals,
        clauses,
        loads,
        load_literals,
        minutes,
    )?;
    require(fit, Fault::SliceLength)?;
    require(marks.len() == atoms, Fault::Mark)?;
    absent(Fault::Mark, not_held_atom(marks))
}

// Makes the model and answers the rounds, or refuses what is lent or the setting with nothing written.
fn make(
    atoms: usize,
    rules: &[u16],
    literals: &[u16],
    clauses: &[u16],
    loads: &[i32],
    load_literals: &[u16],
    minutes: &[i16],
    marks: &[u8],
    open_values: &[u8],
    values: &mut [u8],
    levels: &mut [u16],
    work: &mut [u16],
) -> Result<usize, Refusal>
    ensures { Makes (lent atoms rules.now literals.now clauses.now loads.now load_literals.now minutes.now marks.now)
        open_values.now values.old levels.old work.old result values.new levels.new work.new }
{
    let fit = lengths_fit(
        atoms,
        open_values.len(),
        values.len(),
        levels.len(),
        work.len(),
    );
    lent_fault(
        atoms,
        rules,
        literals,
        clauses,
        loads,
        load_literals,
        minutes,
        marks,
        fit,
    )?;
    let mut defined = [0u8; MAX_ATOMS];
    mark_defined(rules, 0, marks, &mut defined);
    absent(Fault::Value, bad_setting(&defined, open_values))?;
    let rounds = evaluate_stages(rules, literals, &defined, open_values, values, levels, work);
    Ok(rounds)
}

// Evaluates a book at the open values. For the numbers 0, 25, 26 and 27 values become the well-founded model, levels the
// stages and work all 0; for every other number nothing is written.
pub fn evaluate(
    atoms: usize,
    rules: &[u16],
    literals: &[u16],
    clauses: &[u16],
    loads: &[i32],
    load_literals: &[u16],
    minutes: &[i16],
    marks: &[u8],
    open_values: &[u8],
    values: &mut [u8],
    levels: &mut [u16],
    work: &mut [u16],
) -> Answer
    ensures { Answers
        (evaluate_of (lent atoms rules.now literals.now clauses.now loads.now
        load_literals.now minutes.now marks.now)
        open_values.now values.old levels.old work.old)
        result.verdict result.rounds values.new levels.new work.new }
{
    let made = make(
        atoms,
        rules,
        literals,
        clauses,
        loads,
        load_literals,
        minutes,
        marks,
        open_values,
        values,
        levels,
        work,
    );
    match made {
        Ok(rounds) => {
            let verdict = model_fault(clauses, literals, loads, load_literals, minutes, values);
            Answer { verdict, rounds }
        }
        Err(refusal) => Answer {
            verdict: Err(refusal),
            rounds: 0,
        },
    }
}
