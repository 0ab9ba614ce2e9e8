// The parts that forms list, each after one space, up to the closing bracket. Parts are stored as they are read.
#![tactic(auto)]

ghost use Rattle.std.specs.Prelude.{◌≡◌, true, ℕ, ◌*◌, ◌≤◌, List, map, ltb, length, drop};
ghost use Rattle.std.proofs.lemmas.List.Edits.{sets};
ghost use Rattle.wellfounded.specs.Lists.{all};
ghost use Rattle.tables.specs.Limits.{max_atoms, max_literals, max_terms};
ghost use Rattle.format.specs.Forms.{TermText, PairText};
ghost use Rattle.format.specs.Parse.{read_number, read_literal, read_term, read_pair, parts};
ghost use Rattle.items.specs.Items.{literal_code, level_in, level_columns};
ghost use Rattle.judging.specs.Judging.{literal_within, term_within, pair_within, levels_for, max_bytes};
ghost use Rattle.judging.specs.internal.Shapes.{capped_rise};
ghost use Rattle.lists.specs.internal.Lists.{Inside, Laid, Lists, marked};

use crate::stores::{minutes_within, store, store_minutes, store_value};
use format::words::byte_at;
use items::literals::read_literal;
use items::pairs::read_pair;
use items::terms::read_term;
use numerals::numbers::read_number;
use tables::sizes::{MAX_ATOMS, MAX_VALUE};

pub mod stores;

// Codes of literals lie below twice the most atoms.
const LITERAL_CODES: usize = 2 * MAX_ATOMS;

// How many parts were listed, whether all are within their limits, and whether they stand as their form asks: they rise or, if they are
// pairs, have a level for each group.
#[derive(Clone, Copy)]
pub struct Parts {
    pub count: usize,
    pub within: bool,
    pub ordered: bool,
}

// Each kind of part has its loop: one for all would need a trait for what is read and tested, and a struct for each set of tables that is
// written, which is longer than the five loops.

// The literals of a rule or a clause, stored from a place on. The offset after the closing bracket is answered with them, as by all that follow.
pub fn read_literals(
    text: &[u8],
    at: usize,
    literals: &mut [u16],
    from: usize,
) -> Option<(Parts, usize)>
    requires inside { Inside text.now at }
    requires from_le_max_literals { from ≤ max_literals }
    ensures { Lists text.now literal_within (λ ls. true) (parts read_literal (drop at text.now)) result
        (λ ls. literals.new ≡ sets literals.old from (map literal_code ls)) }
{
    let mut next = at;
    let mut count = 0;
    let mut within = true;
    while byte_at(text, next, b' ') {
        let Some((literal, after)) = read_literal(text, next + 1) else {
            return None;
        };
        store(literals, from + count, literal);
        within = within & (literal < LITERAL_CODES);
        count += 1;
        next = after;
    }
    if !byte_at(text, next, b')') {
        return None;
    }
    Some((
        Parts {
            count,
            within,
            ordered: true,
        },
        next + 1,
    ))
}

// The terms of a load line, their literals and minutes stored from a place on.
pub fn read_terms(
    text: &[u8],
    at: usize,
    load_literals: &mut [u16],
    minutes: &mut [i16],
    from: usize,
) -> Option<(Parts, usize)>
    requires inside { Inside text.now at }
    requires from_le_max_terms { from ≤ max_terms }
    ensures { Lists text.now term_within (λ ts. true) (parts read_term (drop at text.now)) result
        (λ ts. (load_literals.new
        ≡ sets load_literals.old from (map (λ (t : TermText). literal_code t.literal) ts))
        × (minutes.new ≡ sets minutes.old from (map (λ (t : TermText). t.minutes) ts))) }
{
    let mut next = at;
    let mut count = 0;
    let mut within = true;
    while byte_at(text, next, b' ') {
        let Some((term, after)) = read_term(text, next + 1) else {
            return None;
        };
        store(load_literals, from + count, term.literal);
        store_minutes(minutes, from + count, term.minutes);
        within = within & (minutes_within(term.minutes) & (term.literal < LITERAL_CODES));
        count += 1;
        next = after;
    }
    if !byte_at(text, next, b')') {
        return None;
    }
    Some((
        Parts {
            count,
            within,
            ordered: true,
        },
        next + 1,
    ))
}

// The atoms that an open or a defined form names, each marked in a table with an entry for each atom.
pub fn read_atoms(text: &[u8], at: usize, bound: usize, table: &mut [u8]) -> Option<(Parts, usize)>
    requires inside { Inside text.now at }
    requires bound_le_max_atoms { bound ≤ max_atoms }
    ensures { Lists text.now (λ atom. ltb atom bound) capped_rise (parts read_number (drop at text.now)) result
        (λ atoms. table.new ≡ marked atoms table.old) }
{
    let mut next = at;
    let mut count = 0;
    let mut within = true;
    let mut rising = true;
    let mut floor = 0;
    while byte_at(text, next, b' ') {
        let Some((atom, after)) = read_number(text, next + 1) else {
            return None;
        };
        store_value(table, atom, 1);
        within = within & (atom < bound);
        rising = rising & (floor <= atom);
        floor = atom + 1;
        count += 1;
        next = after;
    }
    if !byte_at(text, next, b')') {
        return None;
    }
    Some((
        Parts {
            count,
            within,
            ordered: rising,
        },
        next + 1,
    ))
}

// The pairs of a claim: their values, and their levels in the first group. It tells too whether each has a level for each group.
fn read_values(
    text: &[u8],
    at: usize,
    groups: usize,
    values: &mut [u8],
    levels: &mut [u16],
) -> Option<(Parts, usize)>
    requires { Inside text.now at }
    ensures { Lists text.now pair_within (all (levels_for groups)) (parts read_pair (drop at text.now)) result
        (λ ps. (values.new ≡ sets values.old 0 (map (λ (p : PairText). p.value) ps))
        × (levels.new ≡ sets levels.old 0 (map (level_in 0) ps))) }
{
    let mut next = at;
    let mut count = 0;
    let mut within = true;
    let mut levelled = true;
    while byte_at(text, next, b' ') {
        let Some((pair, after)) = read_pair(text, next + 1, 0) else {
            return None;
        };
        store_value(values, count, pair.value);
        store(levels, count, pair.levels.level);
        within = within & ((pair.value <= MAX_VALUE) & pair.levels.within);
        levelled = levelled & (pair.levels.count == groups);
        count += 1;
        next = after;
    }
    if !byte_at(text, next, b')') {
        return None;
    }
    Some((
        Parts {
            count,
            within,
            ordered: levelled,
        },
        next + 1,
    ))
}

// The levels of a claim's pairs in one group, stored from a place on.
fn read_column(text: &[u8], at: usize, group: usize, levels: &mut [u16], from: usize)
    requires inside { Inside text.now at }
    requires from_bound { from ≤ max_bytes * max_atoms }
    ensures { Laid pair_within (parts read_pair (drop at text.now))
        (λ ps. levels.new ≡ sets levels.old from (map (level_in group) ps)) }
{
    let mut next = at;
    let mut count = 0;
    while byte_at(text, next, b' ') {
        let Some((pair, after)) = read_pair(text, next + 1, group) else {
            return;
        };
        store(levels, from + count, pair.levels.level);
        count += 1;
        next = after;
    }
}

// The levels of a claim's pairs in every group but the first, each group's behind those of the group before it.
fn read_columns(text: &[u8], at: usize, groups: usize, size: usize, levels: &mut [u16])
    requires inside { Inside text.now at }
    requires le_groups { (1 ≤ groups) × (groups ≤ max_bytes) × (size ≤ max_atoms) }
    ensures { Laid pair_within (parts read_pair (drop at text.now)) (λ ps. length ps ≡ size →
        (before : List ℕ) → levels.old ≡ sets before 0 (level_columns 1 ps) →
        levels.new ≡ sets before 0 (level_columns groups ps)) }
{
    for group in 1..groups {
        read_column(text, at, group, levels, group * size);
    }
}

// The pairs of a claim: their values stored pair by pair, and their levels group by group, where there are as many pairs as atoms.
pub fn read_pairs(
    text: &[u8],
    at: usize,
    groups: usize,
    size: usize,
    values: &mut [u8],
    levels: &mut [u16],
) -> Option<(Parts, usize)>
    requires inside { Inside text.now at }
    requires le_groups { (1 ≤ groups) × (groups ≤ max_bytes) × (size ≤ max_atoms) }
    ensures { Lists text.now pair_within (all (levels_for groups)) (parts read_pair (drop at text.now)) result
        (λ ps. (values.new ≡ sets values.old 0 (map (λ (p : PairText). p.value) ps))
        × (length ps ≡ size → levels.new ≡ sets levels.old 0 (level_columns groups ps))) }
{
    let read = read_values(text, at, groups, values, levels);
    read_columns(text, at, groups, size, levels);
    read
}
