// The calls of the library for C: each exports the call of `capi` that has its name, with the same clauses. In C each slice is a pointer
// and a length, in this order; `include/battenplum.h` documents them.
#![tactic(auto)]

ghost use Rattle.std.specs.Prelude.{◌≡◌};
ghost use Rattle.tables.specs.Sound.{lent};
ghost use Rattle.checker.specs.Check.{check_of};
ghost use Rattle.evaluator.specs.Evaluate.{evaluate_of};
ghost use Rattle.forms.specs.Contents.{lent_tables};
ghost use Rattle.outcome.specs.Outcomes.{outcome_of};
ghost use Rattle.report.specs.Reports.{Reported};
ghost use Rattle.capi.specs.Packing.{packed, EvaluatedForC, EvaluatedIndexedForC, ReadForC, WrittenForC, IndexedForC};

// The verdict on a text, from tables of full size held inside the call.
#[unsafe(no_mangle)]
pub extern "C" fn battenplum_verdict(text: &[u8]) -> u32
    ensures { result ≡ packed (outcome_of text.now).verdict }
{
    capi::battenplum_verdict(text)
}

// The report of a text, as the program prints it, at the front of a page; the answer is its length, or 0 for a page that is too short.
#[unsafe(no_mangle)]
pub extern "C" fn battenplum_report(text: &[u8], page: &mut [u8]) -> usize
    ensures { Reported text.now page.old result page.new }
{
    capi::battenplum_report(text, page)
}

// The check of a claim on lent tables.
#[unsafe(no_mangle)]
pub extern "C" fn battenplum_check(
    n: usize,
    rules: &[u16],
    literals: &[u16],
    clauses: &[u16],
    loads: &[i32],
    load_literals: &[u16],
    minutes: &[i16],
    marks: &[u8],
    values: &[u8],
    levels: &[u16],
) -> u32
    ensures { result ≡ packed
        (check_of (lent n rules.now literals.now clauses.now loads.now
        load_literals.now minutes.now marks.now) values.now levels.now) }
{
    capi::battenplum_check(
        n,
        rules,
        literals,
        clauses,
        loads,
        load_literals,
        minutes,
        marks,
        values,
        levels,
    )
}

// The maker on lent tables: rounds × 2^32 above the packed verdict.
#[unsafe(no_mangle)]
pub extern "C" fn battenplum_evaluate(
    n: usize,
    rules: &[u16],
    literals: &[u16],
    clauses: &[u16],
    loads: &[i32],
    load_literals: &[u16],
    minutes: &[i16],
    marks: &[u8],
    open_values: &[u8],
    values: &mut [u8],
    levels: &mut [u16],
    work: &mut [u16],
) -> u64
    ensures { EvaluatedForC
        (evaluate_of (lent n rules.now literals.now clauses.now loads.now
        load_literals.now minutes.now marks.now)
        open_values.now values.old levels.old work.old)
        result values.new levels.new work.new }
{
    capi::battenplum_evaluate(
        n,
        rules,
        literals,
        clauses,
        loads,
        load_literals,
        minutes,
        marks,
        open_values,
        values,
        levels,
        work,
    )
}

// The maker that follows the index, on lent tables and with the index and the counts in lent slices: rounds × 2^32 above the packed verdict.
#[unsafe(no_mangle)]
pub extern "C" fn battenplum_evaluate_indexed(
    n: usize,
    rules: &[u16],
    literals: &[u16],
    clauses: &[u16],
    loads: &[i32],
    load_literals: &[u16],
    minutes: &[i16],
    marks: &[u8],
    open_values: &[u8],
    values: &mut [u8],
    levels: &mut [u16],
    work: &mut [u16],
    starts: &mut [u16],
    entries: &mut [u16],
    counts: &mut [u16],
) -> u64
    ensures { EvaluatedIndexedForC
        (lent n rules.now literals.now clauses.now loads.now load_literals.now
        minutes.now marks.now)
        (record {
          setting = open_values.now;
          values = values.old;
          levels = levels.old;
          work = work.old;
          starts = starts.old;
          entries = entries.old;
          counts = counts.old;
        })
        result values.new levels.new work.new starts.new entries.new counts.new }
{
    capi::battenplum_evaluate_indexed(
        n,
        rules,
        literals,
        clauses,
        loads,
        load_literals,
        minutes,
        marks,
        open_values,
        values,
        levels,
        work,
        starts,
        entries,
        counts,
    )
}

// The writer on lent tables and a claim: the text's length × 2^32 above the packed verdict.
#[unsafe(no_mangle)]
pub extern "C" fn battenplum_write(
    n: usize,
    rules: &[u16],
    literals: &[u16],
    clauses: &[u16],
    loads: &[i32],
    load_literals: &[u16],
    minutes: &[i16],
    marks: &[u8],
    values: &[u8],
    levels: &[u16],
    text: &mut [u8],
) -> u64
    ensures { WrittenForC
        (lent n rules.now literals.now clauses.now loads.now load_literals.now
        minutes.now marks.now)
        values.now levels.now text.old result text.new }
{
    capi::battenplum_write(
        n,
        rules,
        literals,
        clauses,
        loads,
        load_literals,
        minutes,
        marks,
        values,
        levels,
        text,
    )
}

// The index of lent tables, built in two lent slices.
#[unsafe(no_mangle)]
pub extern "C" fn battenplum_index(
    n: usize,
    rules: &[u16],
    literals: &[u16],
    clauses: &[u16],
    loads: &[i32],
    load_literals: &[u16],
    minutes: &[i16],
    marks: &[u8],
    starts: &mut [u16],
    entries: &mut [u16],
) -> u32
    ensures { IndexedForC
        (lent n rules.now literals.now clauses.now loads.now load_literals.now
        minutes.now marks.now)
        starts.old entries.old result starts.new entries.new }
{
    capi::battenplum_index(
        n,
        rules,
        literals,
        clauses,
        loads,
        load_literals,
        minutes,
        marks,
        starts,
        entries,
    )
}

// The reader into lent tables, with what it counted in seven places.
#[unsafe(no_mangle)]
pub extern "C" fn battenplum_read(
    text: &[u8],
    rules: &mut [u16],
    literals: &mut [u16],
    clauses: &mut [u16],
    loads: &mut [i32],
    load_literals: &mut [u16],
    minutes: &mut [i16],
    marks: &mut [u8],
    values: &mut [u8],
    levels: &mut [u16],
    answer: &mut [u32],
) -> u32
    ensures { ReadForC text.now
        (lent_tables rules.old literals.old clauses.old loads.old load_literals.old
        minutes.old marks.old values.old levels.old) answer.old result
        (lent_tables rules.new literals.new clauses.new loads.new load_literals.new
        minutes.new marks.new values.new levels.new) answer.new }
{
    capi::battenplum_read(
        text,
        rules,
        literals,
        clauses,
        loads,
        load_literals,
        minutes,
        marks,
        values,
        levels,
        answer,
    )
}
