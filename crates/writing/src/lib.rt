// The writer of book texts.
#![tactic(auto)]

ghost use Rattle.std.specs.Prelude.{◌≡◌, [], ◌∷◌, length};
ghost use Rattle.tables.specs.Faults.{first_fault};
ghost use Rattle.tables.specs.Sound.{lent, mark_test};
ghost use Rattle.writing.specs.BookForms.{text_of};
ghost use Rattle.writing.specs.Writing.{bytes_fit, text_test, Writes};
ghost use Rattle.writing.specs.internal.Answered.{WritesAs};
ghost use Rattle.writing.specs.internal.Lent.{Lent};

mod book;
mod each;
mod lengths;
mod parts;
mod rows;
mod totals;

use book::put_book;
use lengths::book_length;
use tables::refusals::{first_refusal, require};
use tables::sizes::{MAX_BYTES, table_fault};
use tables::values::not_held_atom;
use tables::{Fault, Refusal};
use totals::rows_fit;

// Whether so many bytes are within the limit of a text and within the buffer.
fn bytes_fit(bytes: usize, room: usize) -> bool
    ensures { result ≡ bytes_fit bytes room }
{
    (bytes <= MAX_BYTES) & (bytes <= room)
}

// Writes on tables and slices without a fault of 11 to 17, and N marks: refused for a mark or for the text's size, or written.
fn write_lent(
    rules: &[u16],
    literals: &[u16],
    clauses: &[u16],
    loads: &[i32],
    load_literals: &[u16],
    minutes: &[i16],
    marks: &[u8],
    values: &[u8],
    levels: &[u16],
    text: &mut [u8],
) -> Result<usize, Refusal>
    requires { Lent
        (lent (length values.now) rules.now literals.now clauses.now loads.now load_literals.now minutes.now marks.now)
        values.now levels.now }
    ensures { WritesAs
        (first_fault
        (mark_test (lent (length values.now) rules.now literals.now clauses.now loads.now
        load_literals.now minutes.now marks.now)
        ∷ text_test (lent (length values.now) rules.now literals.now clauses.now loads.now
        load_literals.now minutes.now marks.now) values.now levels.now
        (length text.old) ∷ []))
        (text_of (lent (length values.now) rules.now literals.now clauses.now loads.now
        load_literals.now minutes.now marks.now) values.now levels.now)
        text.old result text.new }
{
    let fit = rows_fit(rules, clauses, loads);
    first_refusal(not_held_atom(marks), fit, Fault::TextSize)?;
    let length = book_length(
        rules,
        literals,
        clauses,
        loads,
        load_literals,
        minutes,
        marks,
        values,
        levels,
    );
    require(bytes_fit(length, text.len()), Fault::TextSize)?;
    put_book(
        text,
        rules,
        literals,
        clauses,
        loads,
        load_literals,
        minutes,
        marks,
        values,
        levels,
    );
    Ok(length)
}

// Writes the text of a book and a claim to the front of a buffer, and answers its length. Beyond the text the buffer keeps what it
// held; a refusal writes nothing, so the text is counted before anything is written.
pub fn write(
    atoms: usize,
    rules: &[u16],
    literals: &[u16],
    clauses: &[u16],
    loads: &[i32],
    load_literals: &[u16],
    minutes: &[i16],
    marks: &[u8],
    values: &[u8],
    levels: &[u16],
    text: &mut [u8],
) -> Result<usize, Refusal>
    ensures { Writes
        (lent atoms rules.now literals.now clauses.now loads.now load_literals.now
        minutes.now marks.now)
        values.now levels.now text.old result text.new }
{
    table_fault(
        atoms,
        rules,
        literals,
        clauses,
        loads,
        load_literals,
        minutes,
    )?;
    require(values.len() == atoms, Fault::SliceLength)?;
    require(levels.len() == atoms, Fault::SliceLength)?;
    require(marks.len() == atoms, Fault::Mark)?;
    write_lent(
        rules,
        literals,
        clauses,
        loads,
        load_literals,
        minutes,
        marks,
        values,
        levels,
        text,
    )
}
