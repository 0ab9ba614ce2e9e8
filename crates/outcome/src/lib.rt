// What a text comes to: it is read into tables of full size, and then its claim is checked or its open form evaluated.
#![tactic(auto)]

ghost use Rattle.std.specs.Prelude.{◌≡◌, length};
ghost use Rattle.tables.specs.Sound.{lent};
ghost use Rattle.forms.specs.Contents.{lent_tables};
ghost use Rattle.evaluator.specs.Evaluate.{is_made};
ghost use Rattle.outcome.specs.Outcomes.{full_space, evaluation_outcome, book_outcome, outcome_of};
ghost use Rattle.booktext.specs.UsedParts.{used_parts};
ghost use Rattle.outcome.specs.internal.Promises.{GivesOutcome, HoldEveryAtom, FitsArrays, FitsBook, MakesEvaluation};

use booktext::{Book, StateForm, answer_of};
use checker::check;
use evaluator::Answer;
use indexed::evaluate_indexed;
use judging::reached::Space;
use lines::walk;
use tables::rows::rule_count;
use tables::sizes::{
    MAX_ATOMS, MAX_CLAUSE_ENTRIES, MAX_LITERALS, MAX_LOAD_ENTRIES, MAX_RULE_ENTRIES, MAX_RULE_ROWS,
    MAX_TERMS,
};
use tables::totals::rules_total;
use tables::{Fault, Verdict};

// The verdict, the state form, for how many atoms values and levels were made, and the rounds. No Result: rounds are told beside the refusals
// 25 to 27 too, and the state form beside every verdict.
#[derive(Drop)]
pub struct Outcome {
    pub verdict: Verdict,
    pub state: StateForm,
    pub atoms: usize,
    pub rounds: usize,
}

// Whether an evaluation was made: it was accepted, or refused for its model.
pub fn is_made(verdict: Verdict) -> bool
    ensures { result ≡ is_made verdict }
{
    match verdict {
        Ok(()) => true,
        Err(refusal) => match refusal.fault {
            Fault::Undecided | Fault::FailingClause | Fault::FailingLoad => true,
            _ => false,
        },
    }
}

// Evaluates a book at its open values, in values and levels of as many entries as there are atoms. The index, the counts and the work are held
// inside the call.
fn evaluate_inside(
    rules: &[u16],
    literals: &[u16],
    clauses: &[u16],
    loads: &[i32],
    load_literals: &[u16],
    minutes: &[i16],
    marks: &[u8],
    given: &[u8],
    values: &mut [u8],
    levels: &mut [u16],
) -> Answer
    requires { FitsArrays rules.now given.now }
    ensures { MakesEvaluation
        (lent (length given.now) rules.now literals.now clauses.now loads.now
        load_literals.now minutes.now marks.now) given.now
        values.old levels.old result.verdict result.rounds values.new levels.new }
{
    let mut work = [0u16; MAX_ATOMS];
    let mut starts = [0u16; 2 * MAX_ATOMS + 1];
    let mut entries = [0u16; MAX_LITERALS];
    let mut counts = [0u16; MAX_RULE_ROWS];
    let atoms = given.len();
    let rows = rule_count(rules);
    let total = rules_total(rules);
    evaluate_indexed(
        atoms,
        rules,
        literals,
        clauses,
        loads,
        load_literals,
        minutes,
        marks,
        given,
        values,
        levels,
        &mut work[0..atoms],
        &mut starts[0..2 * atoms + 1],
        &mut entries[0..total],
        &mut counts[0..rows],
    )
}

// Evaluates a book at its open values; what is made stands at the front of the values and levels.
fn evaluate_book(
    rules: &[u16],
    literals: &[u16],
    clauses: &[u16],
    loads: &[i32],
    load_literals: &[u16],
    minutes: &[i16],
    marks: &[u8],
    given: &[u8],
    values: &mut [u8],
    levels: &mut [u16],
) -> Outcome
    requires fits_arrays { FitsArrays rules.now given.now }
    requires hold_every_atom { HoldEveryAtom values.old levels.old }
    ensures { GivesOutcome
        (evaluation_outcome (lent (length given.now) rules.now literals.now
        clauses.now loads.now
        load_literals.now minutes.now marks.now) given.now)
        values.old levels.old
        result.verdict result.state result.atoms result.rounds values.new levels.new }
{
    let atoms = given.len();
    let answer = evaluate_inside(
        rules,
        literals,
        clauses,
        loads,
        load_literals,
        minutes,
        marks,
        given,
        &mut values[0..atoms],
        &mut levels[0..atoms],
    );
    let verdict = answer.verdict;
    let made = if is_made(verdict) { atoms } else { 0 };
    Outcome {
        verdict,
        state: StateForm::OpenState,
        atoms: made,
        rounds: answer.rounds,
    }
}

// The outcome of a claim that was checked, or of a text that was refused: a verdict alone.
fn verdict_alone(state: StateForm, verdict: Verdict) -> Outcome
    ensures { (result.verdict ≡ verdict) × (result.state ≡ state) × (result.atoms ≡ 0) × (result.rounds ≡ 0) }
{
    Outcome {
        verdict,
        state,
        atoms: 0,
        rounds: 0,
    }
}

// What a book that was read comes to, from the used parts of its tables.
fn book_outcome(
    book: Book,
    rules: &[u16],
    literals: &[u16],
    clauses: &[u16],
    loads: &[i32],
    load_literals: &[u16],
    minutes: &[i16],
    marks: &[u8],
    given: &[u8],
    given_levels: &[u16],
    values: &mut [u8],
    levels: &mut [u16],
) -> Outcome
    requires fits_book { FitsBook book (lent_tables rules.now literals.now clauses.now loads.now load_literals.now
        minutes.now marks.now given.now given_levels.now) }
    requires hold_every_atom { HoldEveryAtom values.old levels.old }
    ensures { GivesOutcome
        (book_outcome book.verdict book.state book.atoms
        (used_parts book (lent_tables rules.now literals.now clauses.now loads.now
        load_literals.now
        minutes.now marks.now given.now given_levels.now)))
        values.old levels.old
        result.verdict result.state result.atoms result.rounds values.new levels.new }
{
    let atoms = book.atoms;
    let rule_entries = book.rules;
    let literal_entries = book.literals;
    let clause_entries = book.clauses;
    let load_entries = book.loads;
    let terms = book.terms;
    let verdict = book.verdict;
    let used_rules = &rules[0..rule_entries];
    let used_literals = &literals[0..literal_entries];
    let used_clauses = &clauses[0..clause_entries];
    let used_loads = &loads[0..load_entries];
    let used_load_literals = &load_literals[0..terms];
    let used_minutes = &minutes[0..terms];
    let used_marks = &marks[0..atoms];
    let used_given = &given[0..atoms];
    let used_levels = &given_levels[0..atoms];
    let state = book.state;
    match state {
        StateForm::NoState => verdict_alone(StateForm::NoState, verdict),
        StateForm::OpenState => evaluate_book(
            used_rules,
            used_literals,
            used_clauses,
            used_loads,
            used_load_literals,
            used_minutes,
            used_marks,
            used_given,
            values,
            levels,
        ),
        StateForm::ClaimState => verdict_alone(
            StateForm::ClaimState,
            check(
                atoms,
                used_rules,
                used_literals,
                used_clauses,
                used_loads,
                used_load_literals,
                used_minutes,
                used_marks,
                used_given,
                used_levels,
            ),
        ),
    }
}

// The entries of tables of full size.
fn full_space() -> Space
    ensures { result ≡ full_space }
{
    Space {
        rules: MAX_RULE_ENTRIES,
        literals: MAX_LITERALS,
        clauses: MAX_CLAUSE_ENTRIES,
        loads: MAX_LOAD_ENTRIES,
        load_literals: MAX_TERMS,
        minutes: MAX_TERMS,
        marks: MAX_ATOMS,
        values: MAX_ATOMS,
        levels: MAX_ATOMS,
    }
}

// What a text comes to. The tables of full size are held inside the call and are of no worth after a refused text, so one
// walk both judges the text and fills them.
pub fn outcome_of(text: &[u8], values: &mut [u8], levels: &mut [u16]) -> Outcome
    requires { HoldEveryAtom values.old levels.old }
    ensures { GivesOutcome (outcome_of text.now)
        values.old levels.old
        result.verdict result.state result.atoms result.rounds values.new levels.new }
{
    let mut rules = [0u16; MAX_RULE_ENTRIES];
    let mut literals = [0u16; MAX_LITERALS];
    let mut clauses = [0u16; MAX_CLAUSE_ENTRIES];
    let mut loads = [0i32; MAX_LOAD_ENTRIES];
    let mut load_literals = [0u16; MAX_TERMS];
    let mut minutes = [0i16; MAX_TERMS];
    let mut marks = [0u8; MAX_ATOMS];
    let mut given = [0u8; MAX_ATOMS];
    let mut given_levels = [0u16; MAX_ATOMS];
    let judged = walk(
        text,
        full_space(),
        &mut rules,
        &mut literals,
        &mut clauses,
        &mut loads,
        &mut load_literals,
        &mut minutes,
        &mut marks,
        &mut given,
        &mut given_levels,
    );
    book_outcome(
        answer_of(judged),
        &rules,
        &literals,
        &clauses,
        &loads,
        &load_literals,
        &minutes,
        &marks,
        &given,
        &given_levels,
        values,
        levels,
    )
}
