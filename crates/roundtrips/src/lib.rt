// Both round trips are theorems about the contracts of the reader and the writer. Here the first is made: a book is written and read back.
#![tactic(auto)]

ghost use Rattle.tables.specs.Sound.{lent};
ghost use Rattle.forms.specs.Contents.{lent_tables};
ghost use Rattle.roundtrips.specs.RoundTrips.{Rewrites};

use booktext::{Book, answer_of, read};
use tables::sizes::MAX_BYTES;
use writing::write;

// Writes a book and its claim into a buffer of its own and reads them back into the same tables: rows become consecutive, each with
// literals or terms of its own. What the writer refuses, or the tables do not hold, is refused with nothing written to them.
pub fn rewrite(
    atoms: usize,
    rules: &mut [u16],
    literals: &mut [u16],
    clauses: &mut [u16],
    loads: &mut [i32],
    load_literals: &mut [u16],
    minutes: &mut [i16],
    marks: &mut [u8],
    values: &mut [u8],
    levels: &mut [u16],
) -> Book
    ensures { Rewrites
        (lent atoms rules.old literals.old clauses.old loads.old load_literals.old
        minutes.old marks.old) values.old levels.old
        (lent_tables rules.old literals.old clauses.old loads.old load_literals.old
        minutes.old marks.old values.old levels.old) result
        (lent_tables rules.new literals.new clauses.new loads.new load_literals.new
        minutes.new marks.new values.new levels.new) }
{
    let mut text = [0u8; MAX_BYTES];
    let written = write(
        atoms,
        rules,
        literals,
        clauses,
        loads,
        load_literals,
        minutes,
        marks,
        values,
        levels,
        &mut text,
    );
    let length = match written {
        Ok(length) => length,
        Err(refusal) => return answer_of(Err(refusal)),
    };
    read(
        &text[0..length],
        rules,
        literals,
        clauses,
        loads,
        load_literals,
        minutes,
        marks,
        values,
        levels,
    )
}
