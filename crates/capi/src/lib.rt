// The calls that `capi_c` exports to C, with their answers packed into numbers. C lends each table as a pointer and a length: tables are read where they
// lie, and handed on as they are.
#![tactic(auto)]

ghost use Rattle.std.specs.Prelude.{◌≡◌, ◌≤◌, length};
ghost use Rattle.tables.specs.Limits.{max_position};
ghost use Rattle.tables.specs.Faults.{position_of};
ghost use Rattle.tables.specs.Sound.{lent};
ghost use Rattle.checker.specs.Check.{check_of};
ghost use Rattle.evaluator.specs.Evaluate.{evaluate_of};
ghost use Rattle.forms.specs.Contents.{lent_tables};
ghost use Rattle.outcome.specs.Outcomes.{outcome_of};
ghost use Rattle.report.specs.Reports.{Reported};
ghost use Rattle.capi.specs.Packing.{packed, counts_of, EvaluatedForC, EvaluatedIndexedForC, ReadForC, WrittenForC, IndexedForC};
ghost use Rattle.capi.specs.internal.Counts.{WithinBook};

use booktext::{Book, read, state_number};
use checker::check;
use evaluator::evaluate;
use indexed::evaluate_indexed;
use indexing::index;
use outcome::outcome_of;
use report::report;
use tables::sizes::MAX_ATOMS;
use tables::{Verdict, number_of, position_of};
use writing::write;

// Answered where the counts have not seven places; no verdict packs to it.
const NO_ANSWER: u32 = 4_294_967_295;

// The verdict's number × 65,536 + its position; 0 if accepted.
fn pack(verdict: Verdict) -> u32
    requires { position_of verdict ≤ max_position }
    ensures { result ≡ packed verdict }
{
    (number_of(verdict) * 65536 + position_of(verdict)) as u32
}

// The verdict on a text, from tables of full size held inside the call.
pub fn battenplum_verdict(text: &[u8]) -> u32
    ensures { result ≡ packed (outcome_of text.now).verdict }
{
    let mut values = [0u8; MAX_ATOMS];
    let mut levels = [0u16; MAX_ATOMS];
    let outcome = outcome_of(text, &mut values, &mut levels);
    let verdict = outcome.verdict;
    pack(verdict)
}

// The report of a text, as the program prints it, at the front of a page; the answer is its length, or 0 for a page that is too short.
pub fn battenplum_report(text: &[u8], page: &mut [u8]) -> usize
    ensures { Reported text.now page.old result page.new }
{
    report(text, page)
}

// The check of a claim on lent tables.
pub fn battenplum_check(
    n: usize,
    rules: &[u16],
    literals: &[u16],
    clauses: &[u16],
    loads: &[i32],
    load_literals: &[u16],
    minutes: &[i16],
    marks: &[u8],
    values: &[u8],
    levels: &[u16],
) -> u32
    ensures { result ≡ packed
        (check_of (lent n rules.now literals.now clauses.now loads.now
        load_literals.now minutes.now marks.now) values.now levels.now) }
{
    pack(check(
        n,
        rules,
        literals,
        clauses,
        loads,
        load_literals,
        minutes,
        marks,
        values,
        levels,
    ))
}

// The maker on lent tables: rounds × 2^32 above the packed verdict.
pub fn battenplum_evaluate(
    n: usize,
    rules: &[u16],
    literals: &[u16],
    clauses: &[u16],
    loads: &[i32],
    load_literals: &[u16],
    minutes: &[i16],
    marks: &[u8],
    open_values: &[u8],
    values: &mut [u8],
    levels: &mut [u16],
    work: &mut [u16],
) -> u64
    ensures { EvaluatedForC
        (evaluate_of (lent n rules.now literals.now clauses.now loads.now
        load_literals.now minutes.now marks.now)
        open_values.now values.old levels.old work.old)
        result values.new levels.new work.new }
{
    let answer = evaluate(
        n,
        rules,
        literals,
        clauses,
        loads,
        load_literals,
        minutes,
        marks,
        open_values,
        values,
        levels,
        work,
    );
    let verdict = answer.verdict;
    answer.rounds as u64 * 4_294_967_296 + pack(verdict) as u64
}

// The maker that follows the index, on lent tables and with the index and the counts in lent slices: rounds × 2^32 above the packed verdict.
pub fn battenplum_evaluate_indexed(
    n: usize,
    rules: &[u16],
    literals: &[u16],
    clauses: &[u16],
    loads: &[i32],
    load_literals: &[u16],
    minutes: &[i16],
    marks: &[u8],
    open_values: &[u8],
    values: &mut [u8],
    levels: &mut [u16],
    work: &mut [u16],
    starts: &mut [u16],
    entries: &mut [u16],
    counts: &mut [u16],
) -> u64
    ensures { EvaluatedIndexedForC
        (lent n rules.now literals.now clauses.now loads.now load_literals.now
        minutes.now marks.now)
        (record {
          setting = open_values.now;
          values = values.old;
          levels = levels.old;
          work = work.old;
          starts = starts.old;
          entries = entries.old;
          counts = counts.old;
        })
        result values.new levels.new work.new starts.new entries.new counts.new }
{
    let followed = evaluate_indexed(
        n,
        rules,
        literals,
        clauses,
        loads,
        load_literals,
        minutes,
        marks,
        open_values,
        values,
        levels,
        work,
        starts,
        entries,
        counts,
    );
    let verdict = followed.verdict;
    followed.rounds as u64 * 4_294_967_296 + pack(verdict) as u64
}

// The writer on lent tables and a claim: the text's length × 2^32 above the packed verdict.
pub fn battenplum_write(
    n: usize,
    rules: &[u16],
    literals: &[u16],
    clauses: &[u16],
    loads: &[i32],
    load_literals: &[u16],
    minutes: &[i16],
    marks: &[u8],
    values: &[u8],
    levels: &[u16],
    text: &mut [u8],
) -> u64
    ensures { WrittenForC
        (lent n rules.now literals.now clauses.now loads.now load_literals.now
        minutes.now marks.now)
        values.now levels.now text.old result text.new }
{
    let answer = write(
        n,
        rules,
        literals,
        clauses,
        loads,
        load_literals,
        minutes,
        marks,
        values,
        levels,
        text,
    );
    match answer {
        Ok(length) => length as u64 * 4_294_967_296,
        Err(refusal) => pack(Err(refusal)) as u64,
    }
}

// The index of lent tables, built in two lent slices.
pub fn battenplum_index(
    n: usize,
    rules: &[u16],
    literals: &[u16],
    clauses: &[u16],
    loads: &[i32],
    load_literals: &[u16],
    minutes: &[i16],
    marks: &[u8],
    starts: &mut [u16],
    entries: &mut [u16],
) -> u32
    ensures { IndexedForC
        (lent n rules.now literals.now clauses.now loads.now load_literals.now
        minutes.now marks.now)
        starts.old entries.old result starts.new entries.new }
{
    pack(index(
        n,
        rules,
        literals,
        clauses,
        loads,
        load_literals,
        minutes,
        marks,
        starts,
        entries,
    ))
}

// Puts the seven counts in their places.
fn put_counts(answer: &mut [u32], book: Book)
    requires answer_len { length answer.old ≡ 7 }
    requires within_book { WithinBook book }
    ensures { answer.new ≡ counts_of book }
{
    let state = book.state;
    answer[0] = book.atoms as u32;
    answer[1] = book.rules as u32;
    answer[2] = book.literals as u32;
    answer[3] = book.clauses as u32;
    answer[4] = book.loads as u32;
    answer[5] = book.terms as u32;
    answer[6] = state_number(state) as u32;
}

// The reader into lent tables, with what it counted in seven places.
pub fn battenplum_read(
    text: &[u8],
    rules: &mut [u16],
    literals: &mut [u16],
    clauses: &mut [u16],
    loads: &mut [i32],
    load_literals: &mut [u16],
    minutes: &mut [i16],
    marks: &mut [u8],
    values: &mut [u8],
    levels: &mut [u16],
    answer: &mut [u32],
) -> u32
    ensures { ReadForC text.now
        (lent_tables rules.old literals.old clauses.old loads.old load_literals.old
        minutes.old marks.old values.old levels.old) answer.old result
        (lent_tables rules.new literals.new clauses.new loads.new load_literals.new
        minutes.new marks.new values.new levels.new) answer.new }
{
    if answer.len() != 7 {
        return NO_ANSWER;
    }
    let book = read(
        text,
        rules,
        literals,
        clauses,
        loads,
        load_literals,
        minutes,
        marks,
        values,
        levels,
    );
    let verdict = book.verdict;
    put_counts(answer, book);
    pack(verdict)
}
