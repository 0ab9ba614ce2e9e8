// Load lines in lent values.
ghost use Rattle.std.specs.Prelude.{◌≡◌, ◌≤◌, ◌<◌, nat_abs, length};
ghost use Rattle.tables.specs.Faults.{lowest};
ghost use Rattle.tables.specs.Loads.{term_at, terms_at, load_at, load_count};
ghost use Rattle.tables.specs.internal.Scans.{LoadsScannable};
ghost use Rattle.satisfaction.specs.Tenths.{round_tenth, tenths};
ghost use Rattle.satisfaction.specs.Satisfied.{term_count, load_sum, load_holds, failing_load};
ghost use Rattle.satisfaction.specs.internal.Terms.{SmallCount, TermsScannable};

use tables::load_rows::{load_count, load_size, load_start, within_bounds};
use tables::searches::lowest;
use wellfounded::literal_true;

// Whole tenths of an hour: the nearest, of two equally near the even one. The one place of the tie rule.
fn round_tenth(minutes: u32) -> u32
    requires { minutes ≤ 32768 }
    ensures { result ≡ round_tenth minutes }
{
    (minutes + 2 + minutes / 6 % 2) / 6
}

// A number of minutes without its sign.
fn magnitude(minutes: i16) -> u32
    ensures { result ≡ nat_abs minutes }
{
    minutes.unsigned_abs() as u32
}

// The tenths of an hour that signed minutes count: those of their magnitude, with their sign.
fn tenths_of(minutes: i16) -> i32
    ensures { SmallCount (tenths minutes) result }
{
    let rounded = round_tenth(magnitude(minutes)) as i32;
    if minutes < 0 { 0 - rounded } else { rounded }
}

// What the term at a place counts in the values: its tenths times the truth of its literal, which leaves no branch.
fn term_count(load_literals: &[u16], minutes: &[i16], place: usize, values: &[u8]) -> i32
    requires { TermsScannable load_literals.now minutes.now place 1 (length values.now) }
    ensures { SmallCount (term_count values.now (term_at load_literals.now minutes.now place)) result }
{
    let counted = literal_true(load_literals[place], values) as i32;
    tenths_of(minutes[place]) * counted
}

// The sum over the first `size` terms.
fn terms_sum(load_literals: &[u16], minutes: &[i16], size: usize, values: &[u8]) -> i32
    requires { TermsScannable load_literals.now minutes.now 0 size (length values.now) }
    ensures { result ≡ load_sum values.now (terms_at load_literals.now minutes.now 0 size) }
{
    // Summed by a `for`: of signed numbers the library's `sum` has no bound to ask for.
    let mut sum: i32 = 0;
    for place in 0..size {
        sum += term_count(load_literals, minutes, place, values);
    }
    sum
}

// The sum over the `size` terms that begin at `start`. The part from start on is the form that docs/DECISIONS.md names for it.
fn load_sum(load_literals: &[u16], minutes: &[i16], start: usize, size: usize, values: &[u8]) -> i32
    requires { TermsScannable load_literals.now minutes.now start size (length values.now) }
    ensures { result ≡ load_sum values.now (terms_at load_literals.now minutes.now start size) }
{
    terms_sum(&load_literals[start..], &minutes[start..], size, values)
}

// Whether the load line of the row holds in the values.
fn load_holds(
    loads: &[i32],
    load_literals: &[u16],
    minutes: &[i16],
    row: usize,
    values: &[u8],
) -> bool
    requires { (row < load_count loads.now) × LoadsScannable loads.now load_literals.now minutes.now (length values.now) }
    ensures { result ≡ load_holds values.now
        (load_at loads.now load_literals.now minutes.now row) }
{
    let start = load_start(loads, row);
    let size = load_size(loads, row);
    let sum = load_sum(load_literals, minutes, start, size, values);
    within_bounds(loads, row, sum)
}

// The lowest load row that fails in the values.
pub fn failing_load(
    loads: &[i32],
    load_literals: &[u16],
    minutes: &[i16],
    values: &[u8],
) -> Option<usize>
    requires { LoadsScannable loads.now load_literals.now minutes.now (length values.now) }
    ensures { result ≡ lowest (load_count loads.now)
        (failing_load loads.now load_literals.now minutes.now values.now) }
{
    lowest(load_count(loads), |row| {
        !load_holds(loads, load_literals, minutes, row, values)
    })
}
