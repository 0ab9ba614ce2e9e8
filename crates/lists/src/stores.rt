// Entries stored in lent tables, each where it has a place and fits the table's numbers.
ghost use Rattle.std.specs.Prelude.{◌≡◌, suc, ◌*◌, ◌≤◌, ◌<◌, [], ◌∷◌, ltb, leb, nat_abs, pos, set, replicate};
ghost use Rattle.std.proofs.lemmas.List.Edits.{sets};
ghost use Rattle.tables.specs.Loads.{load_width};
ghost use Rattle.tables.specs.Rows.{rule_width, clause_width};
ghost use Rattle.tables.specs.Limits.{max_minutes, max_rule_rows, max_clause_rows, max_load_rows, max_value};
ghost use Rattle.lists.specs.internal.Lists.{stored};

use tables::sizes::MAX_MINUTES;

// The most minutes, of minutes as they are read.
const WIDE_MINUTES: u32 = MAX_MINUTES as u32;

// Puts an entry where it has a place in its table.
pub fn put<T: Copy>(table: &mut [T], place: usize, entry: T)
    ensures { table.new ≡ set table.old place entry }
{
    if place < table.len() {
        table[place] = entry;
    }
}

// Stores an entry of 16 bits.
pub fn store(table: &mut [u16], place: usize, entry: usize)
    ensures { table.new ≡ stored (ltb entry 65536) table.old place entry }
{
    if let Ok(entry) = u16::try_from(entry) {
        put(table, place, entry);
    }
}

// Stores a value.
pub fn store_value(values: &mut [u8], place: usize, value: usize)
    ensures { values.new ≡ stored (ltb value (suc max_value)) values.old place value }
{
    if let Ok(value) = u8::try_from(value) {
        put(values, place, value);
    }
}

// Whether minutes are within their limits.
pub fn minutes_within(minutes: i32) -> bool
    ensures { result ≡ leb (nat_abs minutes) max_minutes }
{
    minutes.unsigned_abs() <= WIDE_MINUTES
}

// Stores minutes, by the limit of minutes, which is that of no type.
pub fn store_minutes(table: &mut [i16], place: usize, minutes: i32)
    ensures { table.new ≡ stored (leb (nat_abs minutes) max_minutes) table.old place minutes }
{
    if minutes_within(minutes) {
        put(table, place, minutes as i16);
    }
}

// Stores a rule row: head, start, count.
pub fn store_rule(rules: &mut [u16], place: usize, head: usize, start: usize, count: usize)
    requires { (place ≤ max_rule_rows * rule_width) × (start < 65536) × (count < 65536) }
    ensures { head < 65536 → rules.new ≡ sets rules.old place (head ∷ start ∷ count ∷ []) }
{
    store(rules, place, head);
    store(rules, place + 1, start);
    store(rules, place + 2, count);
}

// Stores a clause row: start, count.
pub fn store_clause(clauses: &mut [u16], place: usize, start: usize, count: usize)
    requires { (place ≤ max_clause_rows * clause_width) × (start < 65536) × (count < 65536) }
    ensures { clauses.new ≡ sets clauses.old place (start ∷ count ∷ []) }
{
    store(clauses, place, start);
    store(clauses, place + 1, count);
}

// Stores a load row: LO, HI, start, count.
pub fn store_load(loads: &mut [i32], place: usize, low: i32, high: i32, start: usize, count: usize)
    requires { (place ≤ max_load_rows * load_width) × (start < 65536) × (count < 65536) }
    ensures { loads.new ≡ sets loads.old place (low ∷ high ∷ pos start ∷ pos count ∷ []) }
{
    put(loads, place, low);
    put(loads, place + 1, high);
    put(loads, place + 2, start as i32);
    put(loads, place + 3, count as i32);
}

// Puts 0 at the first `count` entries, as far as there are any.
pub fn clear(table: &mut [u8], count: usize)
    ensures { table.new ≡ sets table.old 0 (replicate count 0) }
{
    let end = count.min(table.len());
    table[..end].fill(0);
}
