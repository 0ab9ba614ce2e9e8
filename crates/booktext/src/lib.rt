// The reader of book texts.
#![tactic(auto)]

ghost use Rattle.std.specs.Prelude.{◌≡◌, Err};
ghost use Rattle.forms.specs.Contents.{lent_tables};
ghost use Rattle.booktext.specs.Answers.{state_number, state_of, answer_of, Reads};

use judging::reached::{Phase, Reached, Space};
use lines::{judge, walk};
use tables::{Refusal, Verdict};

// Which state form a text ended with. No Option of a form, as C is told one of three.
#[derive(Drop)]
pub enum StateForm {
    NoState,
    OpenState,
    ClaimState,
}

// The verdict, N, the entries used in each table, and the state form. The C interface tells all of them of a refused text too, as 0, so they stand
// beside the verdict and not in its `Ok`.
#[derive(Drop)]
pub struct Book {
    pub verdict: Verdict,
    pub atoms: usize,
    pub rules: usize,
    pub literals: usize,
    pub clauses: usize,
    pub loads: usize,
    pub terms: usize,
    pub state: StateForm,
}

// The number by which C is told a state form.
pub fn state_number(state: StateForm) -> usize
    ensures { result ≡ state_number state }
{
    match state {
        StateForm::NoState => 0,
        StateForm::OpenState => 1,
        StateForm::ClaimState => 2,
    }
}

// The answer for a refused text: nothing counted, no state form.
fn refused_book(refusal: Refusal) -> Book
    ensures { result ≡ answer_of (Err refusal) }
{
    Book {
        verdict: Err(refusal),
        atoms: 0,
        rules: 0,
        literals: 0,
        clauses: 0,
        loads: 0,
        terms: 0,
        state: StateForm::NoState,
    }
}

// The state form that a text has ended with.
fn state_of(phase: Phase) -> StateForm
    ensures { result ≡ state_of phase }
{
    match phase {
        Phase::OpenStood => StateForm::OpenState,
        Phase::ClaimStood => StateForm::ClaimState,
        _ => StateForm::NoState,
    }
}

// The answer for what a text has come to.
pub fn answer_of(judged: Result<Reached, Refusal>) -> Book
    ensures { result ≡ answer_of judged }
{
    match judged {
        Err(refusal) => refused_book(refusal),
        Ok(reached) => Book {
            verdict: Ok(()),
            atoms: reached.size,
            rules: reached.rules,
            literals: reached.literals,
            clauses: reached.clauses,
            loads: reached.loads,
            terms: reached.terms,
            state: state_of(reached.phase),
        },
    }
}

// Reads a book from its text. The tables of an accepted text hold its entries, and beyond them what they held; a refused
// text writes nothing, so it is judged before anything is written.
pub fn read(
    text: &[u8],
    rules: &mut [u16],
    literals: &mut [u16],
    clauses: &mut [u16],
    loads: &mut [i32],
    load_literals: &mut [u16],
    minutes: &mut [i16],
    marks: &mut [u8],
    values: &mut [u8],
    levels: &mut [u16],
) -> Book
    ensures { Reads text.now
        (lent_tables rules.old literals.old clauses.old loads.old load_literals.old
        minutes.old marks.old values.old levels.old) result
        (lent_tables rules.new literals.new clauses.new loads.new load_literals.new
        minutes.new marks.new values.new levels.new) }
{
    let space = Space {
        rules: rules.len(),
        literals: literals.len(),
        clauses: clauses.len(),
        loads: loads.len(),
        load_literals: load_literals.len(),
        minutes: minutes.len(),
        marks: marks.len(),
        values: values.len(),
        levels: levels.len(),
    };
    if let Err(refusal) = judge(text, space) {
        return refused_book(refusal);
    }
    answer_of(walk(
        text,
        space,
        rules,
        literals,
        clauses,
        loads,
        load_literals,
        minutes,
        marks,
        values,
        levels,
    ))
}
