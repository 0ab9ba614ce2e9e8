// Parts of a text that stand one behind the other: how one of them is put and how long it is, and the same of the first so many of them.
ghost use Rattle.std.specs.Prelude.{ℕ, List, ◌++◌, ◌+◌, ◌*◌, ◌≤◌, ◌<◌, length};
ghost use Rattle.wellfounded.specs.Lists.{join_below};
ghost use Rattle.printing.specs.internal.Putting.{Puts};
ghost use Rattle.writing.specs.internal.Parts.{line_close};
ghost use Rattle.writing.specs.internal.Counting.{Counts, max_lines};

use printing::put;

// Parts, by their places. A part's length is counted without its being put, as a text that does not fit is not begun.
pub trait Parts {
    // The bytes of the part at a place.
    ghost part: { Self → ℕ → List ℕ };

    // Where there is a part.
    ghost has: { Self → ℕ → Type 0 };

    // What counting asks besides.
    ghost countable: { Self → Type 0 } = { λ _. Unit {0} };

    // No part has more bytes.
    ghost most: { ℕ };

    // Puts the part at a place.
    fn put(&self, text: &mut [u8], at: usize, place: usize) -> usize
        requires inside { has self.now place }
        requires room { at + length (part self.now place) ≤ length text.old }
        ensures { Puts text.old at (part self.now place) result text.new };

    // How many bytes the part at a place has.
    fn length(&self, place: usize) -> usize
        requires inside { has self.now place }
        requires few { countable self.now }
        ensures { Counts (part self.now place) most result };
}

// Puts the first `count` parts.
pub fn put_each<P: Parts>(text: &mut [u8], at: usize, parts: &P, count: usize) -> usize
    requires inside { (place : ℕ) → place < count → P.has parts.now place }
    requires room { at + length (join_below count (P.part parts.now)) ≤ length text.old }
    ensures { Puts text.old at (join_below count (P.part parts.now)) result text.new }
{
    let mut next = at;
    for place in 0..count {
        next = parts.put(text, next, place);
    }
    next
}

// How many bytes the first `count` parts have.
pub fn each_length<P: Parts>(parts: &P, count: usize) -> usize
    requires inside { (place : ℕ) → place < count → P.has parts.now place }
    requires few { P.countable parts.now }
    requires short { P.most * count ≤ max_lines }
    ensures { Counts (join_below count (P.part parts.now)) (P.most * count) result }
{
    let mut total = 0;
    for place in 0..count {
        total += parts.length(place);
    }
    total
}

// Puts the first `count` parts, and ends the line.
pub fn put_line<P: Parts>(text: &mut [u8], at: usize, parts: &P, count: usize) -> usize
    requires inside { (place : ℕ) → place < count → P.has parts.now place }
    requires room { at + length (join_below count (P.part parts.now) ++ line_close) ≤ length text.old }
    ensures { Puts text.old at (join_below count (P.part parts.now) ++ line_close) result text.new }
{
    let listed = put_each(text, at, parts, count);
    put(text, listed, b")\n")
}

// How many bytes the first `count` parts and the end of the line have.
pub fn line_length<P: Parts>(parts: &P, count: usize) -> usize
    requires inside { (place : ℕ) → place < count → P.has parts.now place }
    requires few { P.countable parts.now }
    requires short { P.most * count ≤ max_lines }
    ensures { Counts (join_below count (P.part parts.now) ++ line_close) (P.most * count + 2) result }
{
    each_length(parts, count) + 2
}
