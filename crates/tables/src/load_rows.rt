// Rows of the load table, entry by entry. No other code knows how they are laid out.
// The tests of a row are joined by `&`, which leaves no branch.
ghost use Rattle.std.specs.Prelude.{◌≡◌, ◌&&◌, ◌<◌, leb, pos, nat_abs, length, get_or};
ghost use Rattle.std.specs.Int.Signed.{le_z, non_neg};
ghost use Rattle.tables.specs.Limits.{max_bound};
ghost use Rattle.tables.specs.internal.Fields.{Field};
ghost use Rattle.tables.specs.Loads.{index_of, load_count, load_start, load_size, load_low, load_high};
ghost use Rattle.tables.specs.Sound.{good_load_row};

// Entries in a row.
pub const LOAD_WIDTH: usize = 4;

pub const MAX_BOUND: u32 = 1_000_000;

// An entry of a table of load rows, as an index: 0 if it is negative.
fn load_index(loads: &[i32], place: usize) -> usize
    requires { place < length loads.now }
    ensures { Field 2147483648 (index_of (get_or loads.now place (pos 0))) result }
{
    let index = loads[place];
    usize::try_from(index).unwrap_or(0)
}

// How many load lines a table has.
pub fn load_count(loads: &[i32]) -> usize
    ensures { result ≡ load_count loads.now }
{
    loads.len() / LOAD_WIDTH
}

// Where the terms of a load line start.
pub fn load_start(loads: &[i32], row: usize) -> usize
    requires { row < load_count loads.now }
    ensures { Field 2147483648 (load_start loads.now row) result }
{
    load_index(loads, row * LOAD_WIDTH + 2)
}

// How many terms a load line has.
pub fn load_size(loads: &[i32], row: usize) -> usize
    requires { row < load_count loads.now }
    ensures { Field 2147483648 (load_size loads.now row) result }
{
    load_index(loads, row * LOAD_WIDTH + 3)
}

// The lower bound of a load line.
pub fn load_low(loads: &[i32], row: usize) -> i32
    requires { row < load_count loads.now }
    ensures { result ≡ load_low loads.now row }
{
    loads[row * LOAD_WIDTH]
}

// The upper bound of a load line.
pub fn load_high(loads: &[i32], row: usize) -> i32
    requires { row < load_count loads.now }
    ensures { result ≡ load_high loads.now row }
{
    loads[row * LOAD_WIDTH + 1]
}

// Whether an entry of a load table is a bound in range.
fn bound_is_good(loads: &[i32], place: usize) -> bool
    requires { place < length loads.now }
    ensures { result ≡ leb (nat_abs (get_or loads.now place (pos 0))) max_bound }
{
    loads[place].unsigned_abs() <= MAX_BOUND
}

// Whether an entry of a load table is not negative.
fn is_index(loads: &[i32], place: usize) -> bool
    requires { place < length loads.now }
    ensures { result ≡ non_neg (get_or loads.now place (pos 0)) }
{
    0 <= loads[place]
}

// Whether a load row lies within the terms, with a start and a size that are not negative, and has bounds in range.
pub fn load_row_is_good(loads: &[i32], terms: usize, row: usize) -> bool
    requires { row < load_count loads.now }
    ensures { result ≡ good_load_row loads.now terms row }
{
    let at = row * LOAD_WIDTH;
    let end = load_start(loads, row) + load_size(loads, row);
    is_index(loads, at + 2)
        & is_index(loads, at + 3)
        & (end <= terms)
        & bound_is_good(loads, at)
        & bound_is_good(loads, at + 1)
}

// Whether a sum is within the bounds of the row.
pub fn within_bounds(loads: &[i32], row: usize, sum: i32) -> bool
    requires { row < load_count loads.now }
    ensures { result ≡ (le_z (load_low loads.now row) sum && le_z sum (load_high loads.now row)) }
{
    let low = loads[row * LOAD_WIDTH];
    let high = loads[row * LOAD_WIDTH + 1];
    (low <= sum) & (sum <= high)
}
