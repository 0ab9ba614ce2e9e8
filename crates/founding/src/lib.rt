// Founded atoms: those that are in no unfounded set.
#![tactic(auto)]

ghost use Rattle.std.specs.Prelude.{◌≡◌, not, cond, ◌||◌, ◌+◌, ◌≤◌, ◌<◌, length};
ghost use Rattle.wellfounded.specs.Lists.{all};
ghost use Rattle.wellfounded.specs.Literals.{atom_of, is_true, value_at, body_at};
ghost use Rattle.wellfounded.specs.internal.Scans.{Scannable};
ghost use Rattle.tables.specs.Rows.{rule_count};
ghost use Rattle.tables.specs.internal.Marks.{is_marked};
ghost use Rattle.founding.specs.internal.Founding.{founds, found_row, unmarked, PassDone, found_start, found_all, Markable};

use tables::rows::{rule_count, rule_head, rule_size, rule_start};
use wellfounded::{atom_of, is_negated, literal_false};

// Whether the literal leaves its rule's head founded: not false, and if positive then on a founded atom. Both sides of `&` and `|` are
// evaluated, so that the machine code has no branch on the sign, which follows no pattern.
fn literal_founds(literal: u16, values: &[u8], founded: &[u8]) -> bool
    requires { (atom_of literal < length values.now) × (atom_of literal < length founded.now) }
    ensures { result ≡ founds values.now founded.now literal }
{
    let atom = atom_of(literal);
    !literal_false(literal, values) & (is_negated(literal) | (founded[atom] == 1))
}

// Whether the literals of the body that begins at `start` all leave the head founded.
fn body_founds(literals: &[u16], start: usize, size: usize, values: &[u8], founded: &[u8]) -> bool
    requires { (Scannable literals.now start size (length values.now)) × (length values.now ≤ length founded.now) }
    ensures { result ≡ all (founds values.now founded.now) (body_at literals.now start size) }
{
    // The library's `all` is slower here: the machine's code for it has one more branch for each literal.
    for literal in &literals[start..start + size] {
        if !literal_founds(*literal, values, founded) {
            return false;
        }
    }
    true
}

// Looks at one row: marks its head if the row founds it and it is not marked yet. Answers whether it marked it. The head's value and
// its kind, which is its mark here, tell first whether the body matters.
fn found_row(rules: &[u16], row: usize, literals: &[u16], values: &[u8], founded: &mut [u8]) -> bool
    requires { (row < rule_count rules.now) × Markable rules.now literals.now values.now founded.old }
    ensures { (founded.new ≡ found_row rules.now literals.now values.now founded.old row)
        × (cond result 1 0 + unmarked founded.new ≡ unmarked founded.old) }
{
    let head = rule_head(rules, row);
    let value = values[head];
    let mark = founded[head];
    if value < 2 || mark == 1 {
        return false;
    }
    let start = rule_start(rules, row);
    let size = rule_size(rules, row);
    if body_founds(literals, start, size, values, founded) {
        founded[head] = 1;
        return true;
    }
    false
}

// One pass over the rules; answers how many atoms it marked.
fn found_pass(rules: &[u16], literals: &[u16], values: &[u8], founded: &mut [u8]) -> usize
    requires { Markable rules.now literals.now values.now founded.old }
    ensures { PassDone rules.now literals.now values.now founded.old founded.new result }
{
    let mut marked = 0;
    for row in 0..rule_count(rules) {
        if found_row(rules, row, literals, values, founded) {
            marked += 1;
        }
    }
    marked
}

// An atom's mark to begin with: 1 for an open atom and for a true one.
fn start_mark(atom: usize, defined: &[u8], values: &[u8]) -> u8
    requires { atom < length defined.now }
    ensures { result ≡ cond (not (is_marked defined.now atom) || is_true (value_at values.now atom)) 1 0 }
{
    (defined[atom] != 1 || values.get(atom) == Some(&1)) as u8
}

// Marks the atoms that are founded to begin with: the open ones and the true ones.
fn found_start(defined: &[u8], values: &[u8], founded: &mut [u8])
    requires { (length values.now ≤ length founded.old) × (length founded.old ≡ length defined.now) }
    ensures { founded.new ≡ found_start defined.now values.now founded.old }
{
    for (atom, mark) in founded.iter_mut().enumerate() {
        *mark = start_mark(atom, defined, values);
    }
}

// Marks all founded atoms: passes until one marks nothing.
pub fn mark_founded(
    rules: &[u16],
    literals: &[u16],
    defined: &[u8],
    values: &[u8],
    founded: &mut [u8],
)
    requires markable { Markable rules.now literals.now values.now founded.old }
    requires founded_len { length founded.old ≡ length defined.now }
    ensures { founded.new ≡ found_all rules.now literals.now defined.now values.now founded.old }
{
    found_start(defined, values, founded);
    let mut marked = 1;
    while 0 < marked {
        marked = found_pass(rules, literals, values, founded);
    }
}
