// The forms of a text, each read from after its word on. What a form adds to the tables is stored as it is read.
#![tactic(auto)]

ghost use Rattle.std.specs.Prelude.{◌≡◌, true, ◌≤◌, map, leb, ltb, nat_abs, drop, replicate};
ghost use Rattle.std.proofs.lemmas.List.Edits.{sets};
ghost use Rattle.format.specs.Forms.{TermText};
ghost use Rattle.format.specs.Parse.{read_number, parts, read_atoms, read_rule, read_clause, read_load, read_open, read_claim, read_defined};
ghost use Rattle.items.specs.Items.{literal_code};
ghost use Rattle.tables.specs.Limits.{max_bound, max_atoms};
ghost use Rattle.judging.specs.States.{counts_within};
ghost use Rattle.judging.specs.Judging.{atom_bound, if_levelled};
ghost use Rattle.judging.specs.internal.Shapes.{capped_rise};
ghost use Rattle.lists.specs.internal.Lists.{Inside, Lists, marked};
ghost use Rattle.forms.specs.Entries.{literals_in, terms_in, rule_row, clause_row, load_row, marks_given, state_values, state_levels};
ghost use Rattle.forms.specs.internal.Readers.{Forms};

use format::kinds::Kind;
use format::words::byte_at;
use judging::reached::{Phase, Reached, Shape, groups_reached};
use lists::stores::{clear, store_clause, store_load, store_rule};
use lists::{Parts, read_atoms, read_literals, read_pairs, read_terms};
use numerals::numbers::read_number;
use numerals::signed::read_signed;
use tables::load_rows::MAX_BOUND;
use tables::sizes::MAX_ATOMS;

// `N)` of `(atoms N)`. The mark of each atom is put to 0. What is answered is the form's shape with the offset after it, or that there is no form;
// so it is by all that follow.
pub fn read_atoms_form(
    text: &[u8],
    at: usize,
    reached: Reached,
    marks: &mut [u8],
) -> Option<(Shape, usize)>
    requires { Inside text.now at }
    ensures { Forms reached text.now (read_atoms (drop at text.now)) result
        (λ f. marks.new ≡ sets marks.old 0 (marks_given reached f)) }
{
    if !byte_at(text, at, b' ') {
        return None;
    }
    let Some((size, next)) = read_number(text, at + 1) else {
        return None;
    };
    if !byte_at(text, next, b')') {
        return None;
    }
    clear(marks, size);
    let shape = Shape {
        kind: Kind::Atoms,
        size,
        parts: 0,
        within: size <= MAX_ATOMS,
        rising: true,
    };
    Some((shape, next + 1))
}

// `H L ..)` of `(rule H L ..)`.
pub fn read_rule_form(
    text: &[u8],
    at: usize,
    reached: Reached,
    rules: &mut [u16],
    literals: &mut [u16],
) -> Option<(Shape, usize)>
    requires inside { Inside text.now at }
    requires reached_value { counts_within reached ≡ true }
    ensures { Forms reached text.now (read_rule (drop at text.now)) result
        (λ f. (rules.new ≡ sets rules.old reached.rules (rule_row reached f))
        × (literals.new ≡ sets literals.old reached.literals (map literal_code (literals_in f)))) }
{
    if !byte_at(text, at, b' ') {
        return None;
    }
    let Some((head, next)) = read_number(text, at + 1) else {
        return None;
    };
    let start = reached.literals;
    let (parts, end) = read_literals(text, next, literals, start)?;
    store_rule(rules, reached.rules, head, start, parts.count);
    let shape = Shape {
        kind: Kind::Rule,
        size: 0,
        parts: parts.count,
        within: (head < MAX_ATOMS) & parts.within,
        rising: parts.ordered,
    };
    Some((shape, end))
}

// `L ..)` of `(clause L ..)`.
pub fn read_clause_form(
    text: &[u8],
    at: usize,
    reached: Reached,
    clauses: &mut [u16],
    literals: &mut [u16],
) -> Option<(Shape, usize)>
    requires inside { Inside text.now at }
    requires reached_value { counts_within reached ≡ true }
    ensures { Forms reached text.now (read_clause (drop at text.now)) result
        (λ f. (clauses.new ≡ sets clauses.old reached.clauses (clause_row reached f))
        × (literals.new ≡ sets literals.old reached.literals (map literal_code (literals_in f)))) }
{
    let start = reached.literals;
    let (parts, end) = read_literals(text, at, literals, start)?;
    store_clause(clauses, reached.clauses, start, parts.count);
    let shape = Shape {
        kind: Kind::Clause,
        size: 0,
        parts: parts.count,
        within: parts.within,
        rising: parts.ordered,
    };
    Some((shape, end))
}

// Whether a bound of a load line is within its limits.
fn bound_within(bound: i32) -> bool
    ensures { result ≡ leb (nat_abs bound) max_bound }
{
    bound.unsigned_abs() <= MAX_BOUND
}

// `LO HI (M L) ..)` of `(load LO HI (M L) ..)`.
pub fn read_load_form(
    text: &[u8],
    at: usize,
    reached: Reached,
    loads: &mut [i32],
    load_literals: &mut [u16],
    minutes: &mut [i16],
) -> Option<(Shape, usize)>
    requires inside { Inside text.now at }
    requires reached_value { counts_within reached ≡ true }
    ensures { Forms reached text.now (read_load (drop at text.now)) result
        (λ f. (loads.new ≡ sets loads.old reached.loads (load_row reached f))
        × (load_literals.new
        ≡ sets load_literals.old reached.terms (map (λ (t : TermText). literal_code t.literal) (terms_in f)))
        × (minutes.new ≡ sets minutes.old reached.terms (map (λ (t : TermText). t.minutes) (terms_in f)))) }
{
    if !byte_at(text, at, b' ') {
        return None;
    }
    let Some((low, after)) = read_signed(text, at + 1) else {
        return None;
    };
    if !byte_at(text, after, b' ') {
        return None;
    }
    let Some((high, next)) = read_signed(text, after + 1) else {
        return None;
    };
    let start = reached.terms;
    let (parts, end) = read_terms(text, next, load_literals, minutes, start)?;
    store_load(loads, reached.loads, low, high, start, parts.count);
    let bounds = bound_within(low) & bound_within(high);
    let shape = Shape {
        kind: Kind::Load,
        size: 0,
        parts: parts.count,
        within: bounds & parts.within,
        rising: parts.ordered,
    };
    Some((shape, end))
}

// The bound of named atoms: N, or before an atoms line the most atoms that a book has.
fn atom_bound(reached: Reached) -> usize
    ensures { result ≡ atom_bound reached }
{
    if reached.phase == Phase::NothingYet {
        MAX_ATOMS
    } else {
        reached.size
    }
}

// The atoms that a form names, each marked in a table with an entry for each atom. Before that all are put to 0.
fn read_named(text: &[u8], at: usize, reached: Reached, table: &mut [u8]) -> Option<(Parts, usize)>
    requires inside { Inside text.now at }
    requires size_le_max_atoms { reached.size ≤ max_atoms }
    ensures { Lists text.now (λ atom. ltb atom (atom_bound reached)) capped_rise (parts read_number (drop at text.now)) result
        (λ atoms. table.new ≡ marked atoms (sets table.old 0 (replicate reached.size 0))) }
{
    clear(table, reached.size);
    read_atoms(text, at, atom_bound(reached), table)
}

// `A ..)` of `(open A ..)`.
pub fn read_open_form(
    text: &[u8],
    at: usize,
    reached: Reached,
    values: &mut [u8],
) -> Option<(Shape, usize)>
    requires inside { Inside text.now at }
    requires size_le_max_atoms { reached.size ≤ max_atoms }
    ensures { Forms reached text.now (read_open (drop at text.now)) result
        (λ f. values.new ≡ sets values.old 0 (state_values reached f)) }
{
    let (parts, end) = read_named(text, at, reached, values)?;
    let shape = Shape {
        kind: Kind::Open,
        size: 0,
        parts: parts.count,
        within: parts.within,
        rising: parts.ordered,
    };
    Some((shape, end))
}

// `A ..)` of `(defined A ..)`: there is at least one atom.
pub fn read_defined_form(
    text: &[u8],
    at: usize,
    reached: Reached,
    marks: &mut [u8],
) -> Option<(Shape, usize)>
    requires inside { Inside text.now at }
    requires size_le_max_atoms { reached.size ≤ max_atoms }
    ensures { Forms reached text.now (read_defined (drop at text.now)) result
        (λ f. marks.new ≡ sets marks.old 0 (marks_given reached f)) }
{
    let (parts, end) = read_named(text, at, reached, marks)?;
    if parts.count == 0 {
        return None;
    }
    let shape = Shape {
        kind: Kind::Defined,
        size: 0,
        parts: parts.count,
        within: parts.within,
        rising: parts.ordered,
    };
    Some((shape, end))
}

// `(V K ..) ..)` of `(claim (V K ..) ..)`: each pair has a level for each group.
pub fn read_claim_form(
    text: &[u8],
    at: usize,
    reached: Reached,
    values: &mut [u8],
    levels: &mut [u16],
) -> Option<(Shape, usize)>
    requires inside { Inside text.now at }
    requires size_le_max_atoms { reached.size ≤ max_atoms }
    ensures { Forms reached text.now (if_levelled reached (read_claim (drop at text.now))) result
        (λ f. (values.new ≡ sets values.old 0 (state_values reached f))
        × (levels.new ≡ sets levels.old 0 (state_levels reached f))) }
{
    let groups = groups_reached(reached);
    let size = reached.size;
    let (parts, end) = read_pairs(text, at, groups, size, values, levels)?;
    if !parts.ordered {
        return None;
    }
    let shape = Shape {
        kind: Kind::Claim,
        size: 0,
        parts: parts.count,
        within: parts.within & (parts.count <= MAX_ATOMS),
        rising: true,
    };
    Some((shape, end))
}
