// The parts of a line, each after its space: how they are put, and how long they are. Widths are added without a branch, so that many are added at a
// time.
ghost use Rattle.std.specs.Prelude.{◌≡◌, ◌∷◌, ◌+◌, ◌*◌, ◌≤◌, ◌<◌, length};
ghost use Rattle.format.specs.Forms.{space, literal_bytes};
ghost use Rattle.printing.specs.internal.Putting.{Puts, max_printed};
ghost use Rattle.writing.specs.BookForms.{literal_text};
ghost use Rattle.writing.specs.internal.Parts.{literal_part, term_part, level_part, pair_part, mark_part};
ghost use Rattle.writing.specs.internal.Counting.{Counts, max_groups};

use super::each::{Parts, each_length, put_each};
use printing::{put, put_decimal, put_signed, signed_width, width};

// Puts a space and a literal: its atom, or `(not A)`.
fn put_literal(text: &mut [u8], at: usize, literal: u16) -> usize
    requires { at + length (literal_bytes (literal_text literal)) < length text.old }
    ensures { Puts text.old at (space ∷ literal_bytes (literal_text literal)) result text.new }
{
    let atom = (literal / 2) as usize;
    if literal % 2 == 0 {
        let begun = put(text, at, b" ");
        return put_decimal(text, begun, atom);
    }
    let opened = put(text, at, b" (not ");
    let named = put_decimal(text, opened, atom);
    put(text, named, b")")
}

// A literal and the space before it: `(not A)` is six bytes longer than `A`.
fn literal_length(literal: u16) -> usize
    ensures { Counts (space ∷ literal_bytes (literal_text literal)) 14 result }
{
    1 + width((literal / 2) as usize) + 6 * (literal % 2) as usize
}

// Literals.
#[derive(Drop)]
pub struct Literals<'a> {
    pub literals: &'a [u16],
}

impl Parts for Literals<'_> {
    ghost part = { λ s. literal_part s.literals.now };

    ghost has = { λ s place. place < length s.literals.now };

    ghost most = { 14 };

    fn put(&self, text: &mut [u8], at: usize, place: usize) -> usize {
        put_literal(text, at, self.literals[place])
    }

    fn length(&self, place: usize) -> usize {
        literal_length(self.literals[place])
    }
}

// Terms: each is `(M L)`.
#[derive(Drop)]
pub struct Terms<'a> {
    pub load_literals: &'a [u16],
    pub minutes: &'a [i16],
}

impl Parts for Terms<'_> {
    ghost part = { λ s. term_part s.load_literals.now s.minutes.now };

    ghost has = { λ s place. (place < length s.load_literals.now) × (place < length s.minutes.now) };

    ghost most = { 25 };

    fn put(&self, text: &mut [u8], at: usize, place: usize) -> usize {
        let opened = put(text, at, b" (");
        let counted = put_signed(text, opened, self.minutes[place] as i32);
        let named = put_literal(text, counted, self.load_literals[place]);
        put(text, named, b")")
    }

    fn length(&self, place: usize) -> usize {
        3 + signed_width(self.minutes[place] as i32) + literal_length(self.load_literals[place])
    }
}

// The levels of an atom, one for each group.
#[derive(Drop)]
pub struct Levels<'a> {
    pub atoms: usize,
    pub levels: &'a [u16],
    pub atom: usize,
}

impl Parts for Levels<'_> {
    ghost part = { λ s. level_part s.atoms s.levels.now s.atom };

    ghost has = { λ s group. group * s.atoms + s.atom < length s.levels.now };

    ghost most = { 8 };

    fn put(&self, text: &mut [u8], at: usize, group: usize) -> usize {
        let level = self.levels[group * self.atoms + self.atom];
        let begun = put(text, at, b" ");
        put_decimal(text, begun, level as usize)
    }

    fn length(&self, group: usize) -> usize {
        1 + width(self.levels[group * self.atoms + self.atom] as usize)
    }
}

// The pairs of the atoms: each is `(V K ..)`.
#[derive(Drop)]
pub struct Pairs<'a> {
    pub groups: usize,
    pub values: &'a [u8],
    pub levels: &'a [u16],
}

impl Parts for Pairs<'_> {
    ghost part = { λ s. pair_part (length s.values.now) s.groups s.values.now s.levels.now };

    ghost has = { λ s atom. (atom < length s.values.now) × (length s.levels.now ≡ s.groups * length s.values.now) };

    ghost countable = { λ s. s.groups ≤ max_groups };

    ghost most = { 10 + 8 * max_groups };

    fn put(&self, text: &mut [u8], at: usize, atom: usize) -> usize {
        let opened = put(text, at, b" (");
        let valued = put_decimal(text, opened, self.values[atom] as usize);
        let levels = Levels {
            atoms: self.values.len(),
            levels: self.levels,
            atom,
        };
        let levelled = put_each(text, valued, &levels, self.groups);
        put(text, levelled, b")")
    }

    fn length(&self, atom: usize) -> usize {
        let levels = Levels {
            atoms: self.values.len(),
            levels: self.levels,
            atom,
        };
        3 + width(self.values[atom] as usize) + each_length(&levels, self.groups)
    }
}

// The atoms that are marked. Another has no bytes.
#[derive(Drop)]
pub struct Marks<'a> {
    pub marks: &'a [u8],
}

impl Parts for Marks<'_> {
    ghost part = { λ s. mark_part s.marks.now };

    ghost has = { λ s atom. (atom < length s.marks.now) × (atom ≤ max_printed) };

    ghost most = { 8 };

    fn put(&self, text: &mut [u8], at: usize, atom: usize) -> usize {
        if self.marks[atom] != 1 {
            return at;
        }
        let begun = put(text, at, b" ");
        put_decimal(text, begun, atom)
    }

    fn length(&self, atom: usize) -> usize {
        (self.marks[atom] == 1) as usize * (1 + width(atom))
    }
}
