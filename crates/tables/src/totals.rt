// Literals counted by row. Rows are not walked: what they share counts for each of them.
ghost use Rattle.std.specs.Prelude.{◌≡◌, ◌≤◌, length};
ghost use Rattle.tables.specs.Rows.{literals_by_rule};

use super::rows::{rule_count, rule_size};

// The literals of all rules. A loop, as `.map(..).sum()` has to be shown in advance that the sum fits, and a function for this table and
// others needs to be told each bound.
pub fn rules_total(rules: &[u16]) -> usize
    requires { length rules.now ≤ 65536 }
    ensures { (result ≡ literals_by_rule rules.now) × (result ≤ 4294967296) }
{
    let mut total = 0;
    for row in 0..rule_count(rules) {
        total += rule_size(rules, row);
    }
    total
}
