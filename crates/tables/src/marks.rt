// Marks on atoms, and the marks that a book declares atoms defined by.
ghost use Rattle.std.specs.Prelude.{◌≡◌, ℕ, ◌≤◌, ◌<◌, length};
ghost use Rattle.wellfounded.specs.Lists.{count};
ghost use Rattle.tables.specs.Rows.{rule_count, rule_head, heads_rule};
ghost use Rattle.tables.specs.internal.Marks.{is_marked, mark_where, Copied, Unmarked, Declares, TellsDefined};

use super::rows::{rule_count, rule_group, rule_head};

// Copies marks, or values, to the front of others. A `for` and not `copy_from_slice`: of slices that might overlap the machine's code for that calls
// `memmove`, which the library for C would then need from outside.
pub fn copy_marks(marks: &[u8], defined: &mut [u8])
    requires { length marks.now ≤ length defined.old }
    ensures { Copied marks.now defined.old defined.new }
{
    for (atom, mark) in marks.iter().enumerate() {
        defined[atom] = *mark;
    }
}

// Marks the atoms that a book declares defined, which it does in group 0 alone, in an array without marks.
fn mark_declared(group: usize, marks: &[u8], defined: &mut [u8])
    requires marks_in_bounds { length marks.now ≤ length defined.old }
    requires unmarked { Unmarked defined.old }
    ensures { Declares marks.now group defined.old defined.new }
{
    if group == 0 {
        copy_marks(marks, defined);
    }
}

// Marks the head of every rule of a group.
fn mark_heads(rules: &[u16], group: usize, marks: &mut [u8])
    requires { (row : ℕ) → row < rule_count rules.now → rule_head rules.now row < length marks.old }
    ensures { marks.new ≡ mark_where (heads_rule rules.now group) marks.old }
{
    for row in 0..rule_count(rules) {
        let head = rule_head(rules, row);
        if rule_group(rules, row) == group {
            marks[head] = 1;
        }
    }
}

// Marks the atoms that a group defines in an array without marks: the head of every rule of the group, and in group 0 the atoms that the book's
// marks declare.
pub fn mark_defined(rules: &[u16], group: usize, marks: &[u8], defined: &mut [u8])
    requires by_index { (row : ℕ) → row < rule_count rules.now → rule_head rules.now row < length defined.old }
    requires marks_in_bounds { length marks.now ≤ length defined.old }
    requires unmarked { Unmarked defined.old }
    ensures { TellsDefined rules.now marks.now group (length defined.old) defined.new }
{
    mark_declared(group, marks, defined);
    mark_heads(rules, group, defined);
}

// How many of the first `size` atoms are marked.
pub fn count_marked(marks: &[u8], size: usize) -> usize
    requires { size ≤ length marks.now }
    ensures { result ≡ count size (is_marked marks.now) }
{
    // Counted by a `for`: the contract is about places, and of the library's `filter` and `count` that did not follow.
    let mut marked = 0;
    for mark in &marks[..size] {
        if *mark == 1 {
            marked += 1;
        }
    }
    marked
}
