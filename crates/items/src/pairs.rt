// Claim pairs in the text of a book.
ghost use Rattle.std.specs.Prelude.{◌≡◌, cond, ◌≤◌, eqb, length};
ghost use Rattle.items.specs.internal.Places.{levels_at, pair_at};

use format::words::byte_at;
use numerals::numbers::read_number;
use tables::sizes::MAX_LEVEL;

// The level of a pair in one group, how many levels it has, and whether all are within their limit.
#[derive(Clone, Copy)]
pub struct Levels {
    pub level: usize,
    pub count: usize,
    pub within: bool,
}

// The value of a claim pair, and its levels.
#[derive(Clone, Copy)]
pub struct Pair {
    pub value: usize,
    pub levels: Levels,
}

// A level if its group is the one that is wanted, and else what was found so far.
fn chosen(group: usize, wanted: usize, level: usize, found: usize) -> usize
    ensures { result ≡ cond (eqb group wanted) level found }
{
    if group == wanted { level } else { found }
}

// The levels of a pair, each after one space, up to the closing bracket, with the offset after it.
fn read_levels(text: &[u8], at: usize, wanted: usize) -> Option<(Levels, usize)>
    requires { at ≤ length text.now }
    ensures { result ≡ levels_at text.now at wanted }
{
    let mut next = at;
    let mut count = 0;
    let mut within = true;
    let mut found = 0;
    while byte_at(text, next, b' ') {
        let Some((level, after)) = read_number(text, next + 1) else {
            return None;
        };
        found = chosen(count, wanted, level, found);
        within = within & (level <= MAX_LEVEL);
        count += 1;
        next = after;
    }
    if !byte_at(text, next, b')') {
        return None;
    }
    let levels = Levels {
        level: found,
        count,
        within,
    };
    Some((levels, next + 1))
}

// The pair `(V K ..)` at an offset, with its level in the group that is wanted, and the offset after it.
pub fn read_pair(text: &[u8], at: usize, wanted: usize) -> Option<(Pair, usize)>
    ensures { result ≡ pair_at text.now at wanted }
{
    if !byte_at(text, at, b'(') {
        return None;
    }
    let Some((value, after)) = read_number(text, at + 1) else {
        return None;
    };
    let (levels, next) = read_levels(text, after, wanted)?;
    Some((Pair { value, levels }, next))
}
