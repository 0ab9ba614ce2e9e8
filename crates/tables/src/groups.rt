// The groups of a book's rules: each is a definition of its own.
ghost use Rattle.std.specs.Prelude.{◌≡◌, ◌≤◌};
ghost use Rattle.tables.specs.Rows.{group_count};

use super::rows::{rule_count, rule_group};

// How many groups there are: one more than the highest.
pub fn group_count(rules: &[u16]) -> usize
    ensures { (result ≡ group_count rules.now) × (result ≤ 65536) }
{
    let mut high: usize = 0;
    for row in 0..rule_count(rules) {
        high = high.max(rule_group(rules, row));
    }
    high + 1
}
