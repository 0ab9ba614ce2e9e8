// The maker that follows the index.
#![tactic(auto)]

ghost use Rattle.std.specs.Prelude.{◌≡◌};
ghost use Rattle.wellfounded.specs.Lists.{all};
ghost use Rattle.tables.specs.Faults.{first_fault};
ghost use Rattle.tables.specs.Sound.{lent, is_sized};
ghost use Rattle.indexed.specs.EvaluateIndexed.{lent_lengths, EvaluatesIndexed};
ghost use Rattle.indexed.specs.internal.Following.{early_tests, Makes};

use advancing::advance_stages;
use evaluator::{Answer, lengths_fit, lent_fault, model_fault};
use indexing::building::build;
use indexing::index_fits;
use rounds::bad_setting;
use tables::marks::mark_defined;
use tables::refusals::{absent, require};
use tables::rows::rule_count;
use tables::sizes::MAX_ATOMS;
use tables::{Fault, Refusal, Verdict};

// Whether the slices under 17 have as many entries as there are atoms, and the counts as many as there are rule rows.
fn slices_fit(
    atoms: usize,
    rows: usize,
    setting: usize,
    values: usize,
    levels: usize,
    work: usize,
    counts: usize,
) -> bool
    ensures { result ≡ all is_sized (lent_lengths atoms rows setting values levels work counts) }
{
    lengths_fit(atoms, setting, values, levels, work) & (counts == rows)
}

// The verdict on tables, and on the lengths of all slices that are lent with them.
fn indexed_fault(
    atoms: usize,
    rules: &[u16],
    literals: &[u16],
    clauses: &[u16],
    loads: &[i32],
    load_literals: &[u16],
    minutes: &[i16],
    marks: &[u8],
    setting: usize,
    values: usize,
    levels: usize,
    work: usize,
    starts: usize,
    entries: usize,
    counts: usize,
) -> Verdict
    ensures { result ≡ first_fault
        (early_tests (lent atoms rules.now literals.now clauses.now loads.now load_literals.now
        minutes.now marks.now) setting values levels work starts entries counts) }
{
    let rows = rule_count(rules);
    let fit = slices_fit(atoms, rows, setting, values, levels, work, counts);
    lent_fault(
        atoms,
        rules,
        literals,
        clauses,
        loads,
        load_literals,
        minutes,
        marks,
        fit,
    )?;
    require(index_fits(atoms, rules, starts, entries), Fault::IndexSize)
}

// Makes the model by the index, which it builds, and answers the rounds, or refuses what is lent or the setting with nothing written.
fn make(
    atoms: usize,
    rules: &[u16],
    literals: &[u16],
    clauses: &[u16],
    loads: &[i32],
    load_literals: &[u16],
    minutes: &[i16],
    marks: &[u8],
    open_values: &[u8],
    values: &mut [u8],
    levels: &mut [u16],
    work: &mut [u16],
    starts: &mut [u16],
    entries: &mut [u16],
    counts: &mut [u16],
) -> Result<usize, Refusal>
    ensures { Makes
        (lent atoms rules.now literals.now clauses.now loads.now load_literals.now
        minutes.now marks.now)
        (record {
          setting = open_values.now;
          values = values.old;
          levels = levels.old;
          work = work.old;
          starts = starts.old;
          entries = entries.old;
          counts = counts.old;
        })
        result values.new levels.new work.new starts.new entries.new counts.new }
{
    indexed_fault(
        atoms,
        rules,
        literals,
        clauses,
        loads,
        load_literals,
        minutes,
        marks,
        open_values.len(),
        values.len(),
        levels.len(),
        work.len(),
        starts.len(),
        entries.len(),
        counts.len(),
    )?;
    let mut defined = [0u8; MAX_ATOMS];
    mark_defined(rules, 0, marks, &mut defined);
    absent(Fault::Value, bad_setting(&defined, open_values))?;
    build(rules, literals, starts, entries);
    let rounds = advance_stages(
        rules,
        literals,
        &defined,
        open_values,
        values,
        levels,
        work,
        starts,
        entries,
        counts,
    );
    Ok(rounds)
}

// Evaluates a book at the open values as the plain maker does, by an index that it builds itself. For the numbers 0, 25, 26 and 27 values become the
// well-founded model, levels the stages and work all 0, the index stands in starts and entries, and counts hold how many literals of each rule's body
// are not true; for every other number nothing is written.
pub fn evaluate_indexed(
    atoms: usize,
    rules: &[u16],
    literals: &[u16],
    clauses: &[u16],
    loads: &[i32],
    load_literals: &[u16],
    minutes: &[i16],
    marks: &[u8],
    open_values: &[u8],
    values: &mut [u8],
    levels: &mut [u16],
    work: &mut [u16],
    starts: &mut [u16],
    entries: &mut [u16],
    counts: &mut [u16],
) -> Answer
    ensures { EvaluatesIndexed
        (lent atoms rules.now literals.now clauses.now loads.now load_literals.now
        minutes.now marks.now)
        (record {
          setting = open_values.now;
          values = values.old;
          levels = levels.old;
          work = work.old;
          starts = starts.old;
          entries = entries.old;
          counts = counts.old;
        })
        result.verdict result.rounds values.new levels.new work.new starts.new entries.new
        counts.new }
{
    let made = make(
        atoms,
        rules,
        literals,
        clauses,
        loads,
        load_literals,
        minutes,
        marks,
        open_values,
        values,
        levels,
        work,
        starts,
        entries,
        counts,
    );
    match made {
        Ok(rounds) => {
            let verdict = model_fault(clauses, literals, loads, load_literals, minutes, values);
            Answer { verdict, rounds }
        }
        Err(refusal) => Answer {
            verdict: Err(refusal),
            rounds: 0,
        },
    }
}
