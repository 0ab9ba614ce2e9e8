// Sizes of the lent tables, and the faults 11 to 16 of tables in their order.
ghost use Rattle.std.specs.Prelude.{◌≡◌, List, ℕ};
ghost use Rattle.tables.specs.Faults.{first_fault};
ghost use Rattle.tables.specs.Sound.{lent, sizes_fit, table_tests};

use super::load_rows::LOAD_WIDTH;
use super::refusals::{absent, require};
use super::row_faults::{bad_clause_row, bad_literal, bad_load_row, bad_rule_row, bad_term};
use super::rows::{CLAUSE_WIDTH, RULE_WIDTH};
use super::{Fault, Verdict};

pub const MAX_ATOMS: usize = 1024;

pub const MAX_RULE_ROWS: usize = 2048;

pub const MAX_RULE_ENTRIES: usize = MAX_RULE_ROWS * RULE_WIDTH;

const MAX_CLAUSE_ROWS: usize = 2048;

pub const MAX_CLAUSE_ENTRIES: usize = MAX_CLAUSE_ROWS * CLAUSE_WIDTH;

pub const MAX_LITERALS: usize = 16384;

const MAX_LOAD_ROWS: usize = 64;

pub const MAX_LOAD_ENTRIES: usize = MAX_LOAD_ROWS * LOAD_WIDTH;

pub const MAX_TERMS: usize = 4096;

pub const MAX_MINUTES: u16 = 1440;

pub const MAX_VALUE: usize = 255;

pub const MAX_LEVEL: usize = 65535;

// A longer text is refused before anything in it is read, and none is written.
pub const MAX_BYTES: usize = 65535;

// The number of atoms and the tables' lengths are within their limits, with whole rows and as many minutes as load literals.
fn sizes_fit(
    atoms: usize,
    rules: usize,
    literals: usize,
    clauses: usize,
    loads: usize,
    load_literals: usize,
    minutes: usize,
) -> bool
    ensures { result ≡ sizes_fit atoms rules literals clauses loads load_literals minutes }
{
    (atoms <= MAX_ATOMS)
        & (rules <= MAX_RULE_ENTRIES)
        & (rules % RULE_WIDTH == 0)
        & (literals <= MAX_LITERALS)
        & (clauses <= MAX_CLAUSE_ENTRIES)
        & (clauses % CLAUSE_WIDTH == 0)
        & (loads <= MAX_LOAD_ENTRIES)
        & (loads % LOAD_WIDTH == 0)
        & (load_literals <= MAX_TERMS)
        & (minutes == load_literals)
}

// The first fault of the tables, whatever the marks: their sizes, then rows, then single entries.
pub fn table_fault(
    atoms: usize,
    rules: &[u16],
    literals: &[u16],
    clauses: &[u16],
    loads: &[i32],
    load_literals: &[u16],
    minutes: &[i16],
) -> Verdict
    ensures { (marks : List ℕ) → result ≡ first_fault (table_tests (lent atoms rules.now literals.now clauses.now
        loads.now load_literals.now minutes.now marks)) }
{
    let fit = sizes_fit(
        atoms,
        rules.len(),
        literals.len(),
        clauses.len(),
        loads.len(),
        load_literals.len(),
        minutes.len(),
    );
    require(fit, Fault::TableSizes)?;
    absent(Fault::RuleRow, bad_rule_row(atoms, rules, literals.len()))?;
    absent(Fault::ClauseRow, bad_clause_row(clauses, literals.len()))?;
    absent(Fault::LoadRow, bad_load_row(loads, load_literals.len()))?;
    absent(Fault::Literal, bad_literal(atoms, literals))?;
    absent(Fault::LoadTerm, bad_term(atoms, load_literals, minutes))
}
