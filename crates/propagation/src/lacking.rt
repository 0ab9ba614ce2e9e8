// What rows lack to begin with, counted from a table that says of each literal whether it is lacking.
ghost use Rattle.std.specs.Prelude.{◌≡◌, not, cond, ℕ, ◌*◌, ◌≤◌, ◌<◌, length, get_or};
ghost use Rattle.wellfounded.specs.Lists.{sum_below};
ghost use Rattle.wellfounded.specs.Literals.{is_true, is_false};
ghost use Rattle.tables.specs.Rows.{rule_count};
ghost use Rattle.propagation.specs.internal.Queues.{undecided};
ghost use Rattle.propagation.specs.internal.Lacking.{TellsLacking, Summable, Startable, RowCounted, Started};

use super::queues::push;
use tables::rows::{rule_count, rule_head, rule_size, rule_start};

// Whether the positive literal of an atom is lacking, as 1 or 0: it is not true.
fn positive_lacks(value: u8) -> u8
    ensures { result ≡ cond (not (is_true value)) 1 0 }
{
    (value != 1) as u8
}

// Whether the negated literal of an atom is lacking, as 1 or 0: it is not true, or where atoms are founded it is false.
fn negated_lacks(founding: bool, value: u8) -> u8
    ensures { result ≡ cond (cond founding (is_true value) (not (is_false value))) 1 0 }
{
    (if founding { value == 1 } else { value != 0 }) as u8
}

// Fills the table for all literals of the atoms.
pub fn lack_literals(founding: bool, values: &[u8], table: &mut [u8])
    requires { 2 * length values.now ≤ length table.old }
    ensures { TellsLacking founding values.now table.new }
{
    for (atom, value) in values.iter().enumerate() {
        table[2 * atom] = positive_lacks(*value);
        table[2 * atom + 1] = negated_lacks(founding, *value);
    }
}

// How many literals of a body are lacking.
fn body_lacks(body: &[u16], table: &[u8]) -> u16
    requires { Summable body.now (length body.now) table.now }
    ensures { result ≡ sum_below (length body.now) (λ place. get_or table.now (get_or body.now place 0) 0) }
{
    body.iter()
        .map(|literal| table[*literal as usize] as u16)
        .sum()
}

// Counts what a row lacks. If that is nothing, the row makes its head true.
fn count_row(
    row: usize,
    rules: &[u16],
    literals: &[u16],
    table: &[u8],
    counts: &mut [u16],
    values: &mut [u8],
    queue: &mut [u16],
    end: usize,
) -> usize
    requires { (row < rule_count rules.now) × Startable rules.now literals.now table.now counts.old values.old queue.old end }
    ensures { RowCounted rules.now literals.now table.now counts.old values.old queue.old end row
        counts.new values.new queue.new result }
{
    let start = rule_start(rules, row);
    let size = rule_size(rules, row);
    let lacks = body_lacks(&literals[start..start + size], table);
    counts[row] = lacks;
    if lacks != 0 {
        return end;
    }
    let head = rule_head(rules, row);
    push(head, 1, values, queue, end)
}

// Counts what each row lacks. A row that lacks nothing makes its head true. Answers where the queue of these heads ends.
pub fn count_lacks(
    rules: &[u16],
    literals: &[u16],
    table: &[u8],
    counts: &mut [u16],
    values: &mut [u8],
    queue: &mut [u16],
) -> usize
    requires { Startable rules.now literals.now table.now counts.old values.old queue.old 0 }
    ensures { Started rules.now literals.now table.now counts.old values.old queue.old
        counts.new values.new queue.new result }
{
    let mut end = 0;
    for row in 0..rule_count(rules) {
        end = count_row(row, rules, literals, table, counts, values, queue, end);
    }
    end
}
