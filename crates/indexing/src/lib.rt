// Where a literal occurs: an index from each literal to the rules that hold it.
#![tactic(auto)]

ghost use Rattle.std.specs.Prelude.{◌≡◌, ◌≤◌, length};
ghost use Rattle.tables.specs.Limits.{max_atoms};
ghost use Rattle.tables.specs.Sound.{lent};
ghost use Rattle.indexing.specs.Index.{index_fits, index_verdict, Indexes};

pub mod building;

use building::build;
use tables::refusals::{first_refusal, require};
use tables::sizes::{MAX_LITERALS, table_fault};
use tables::totals::rules_total;
use tables::values::not_held_atom;
use tables::{Fault, Verdict};

// Whether the bodies are within the limit of literals, and slices of these lengths are exactly as long as the index.
pub fn index_fits(atoms: usize, rules: &[u16], starts: usize, entries: usize) -> bool
    requires { (atoms ≤ max_atoms) × (length rules.now ≤ 65536) }
    ensures { result ≡ index_fits atoms rules.now starts entries }
{
    let total = rules_total(rules);
    (total <= MAX_LITERALS) & (starts == 2 * atoms + 1) & (entries == total)
}

// The verdict on tables, and on the lengths of the slices that the index is to be built in.
fn index_fault(
    atoms: usize,
    rules: &[u16],
    literals: &[u16],
    clauses: &[u16],
    loads: &[i32],
    load_literals: &[u16],
    minutes: &[i16],
    marks: &[u8],
    starts: usize,
    entries: usize,
) -> Verdict
    ensures { result ≡ index_verdict
        (lent atoms rules.now literals.now clauses.now loads.now load_literals.now
        minutes.now marks.now) starts entries }
{
    table_fault(
        atoms,
        rules,
        literals,
        clauses,
        loads,
        load_literals,
        minutes,
    )?;
    require(marks.len() == atoms, Fault::Mark)?;
    let fit = index_fits(atoms, rules, starts, entries);
    first_refusal(not_held_atom(marks), fit, Fault::IndexSize)
}

// Builds the index of a book in two lent slices. Literal L's entries run from start L to start L + 1: the rows of the rules that hold it,
// rising, one for each occurrence. A refusal writes nothing.
pub fn index(
    atoms: usize,
    rules: &[u16],
    literals: &[u16],
    clauses: &[u16],
    loads: &[i32],
    load_literals: &[u16],
    minutes: &[i16],
    marks: &[u8],
    starts: &mut [u16],
    entries: &mut [u16],
) -> Verdict
    ensures { Indexes
        (lent atoms rules.now literals.now clauses.now loads.now load_literals.now
        minutes.now marks.now)
        starts.old entries.old result starts.new entries.new }
{
    index_fault(
        atoms,
        rules,
        literals,
        clauses,
        loads,
        load_literals,
        minutes,
        marks,
        starts.len(),
        entries.len(),
    )?;
    build(rules, literals, starts, entries);
    Ok(())
}
