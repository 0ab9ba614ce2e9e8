// The lines of rows: how they are put, and how long they are. Each begins with its word and the numbers of the row, and goes on with the row's literals or
// terms.
ghost use Rattle.std.specs.Prelude.{◌+◌, ◌≤◌, ◌<◌, length};
ghost use Rattle.tables.specs.Rows.{rule_count, clause_count};
ghost use Rattle.tables.specs.Loads.{load_count};
ghost use Rattle.printing.specs.internal.Putting.{Puts};
ghost use Rattle.writing.specs.internal.Parts.{body_bytes, terms_bytes, rule_line, clause_line, load_line};
ghost use Rattle.writing.specs.internal.Lent.{RulesLie, ClausesLie, LoadsLie};
ghost use Rattle.writing.specs.internal.Counting.{max_entries, max_line};

use super::each::{Parts, put_line};
use super::lengths::{body_length, line_of_terms_length};
use super::parts::{Literals, Terms};
use printing::{put, put_decimal, put_signed, signed_width, width};
use tables::load_rows::{load_high, load_low, load_size, load_start};
use tables::rows::{clause_size, clause_start, rule_head, rule_size, rule_start};

// Puts the `size` literals that begin at `start`, and ends the line.
fn put_body(text: &mut [u8], at: usize, literals: &[u16], start: usize, size: usize) -> usize
    requires { (start + size ≤ length literals.now) × (at + length (body_bytes literals.now start size) ≤ length text.old) }
    ensures { Puts text.old at (body_bytes literals.now start size) result text.new }
{
    let body = Literals {
        literals: &literals[start..],
    };
    put_line(text, at, &body, size)
}

// Puts the `size` terms that begin at `start`, and ends the line.
fn put_line_of_terms(
    text: &mut [u8],
    at: usize,
    load_literals: &[u16],
    minutes: &[i16],
    start: usize,
    size: usize,
) -> usize
    requires size_in_bounds { (start + size ≤ length load_literals.now) × (start + size ≤ length minutes.now) }
    requires size_in_bounds_2 { at + length (terms_bytes load_literals.now minutes.now start size) ≤ length text.old }
    ensures { Puts text.old at (terms_bytes load_literals.now minutes.now start size) result
        text.new }
{
    let terms = Terms {
        load_literals: &load_literals[start..],
        minutes: &minutes[start..],
    };
    put_line(text, at, &terms, size)
}

// The lines of rules.
#[derive(Drop)]
pub struct Rules<'a> {
    pub rules: &'a [u16],
    pub literals: &'a [u16],
}

impl Parts for Rules<'_> {
    ghost part = { λ s. rule_line s.rules.now s.literals.now };

    ghost has = { λ s row. RulesLie s.rules.now s.literals.now × (row < rule_count s.rules.now) };

    ghost most = { max_line };

    fn put(&self, text: &mut [u8], at: usize, row: usize) -> usize {
        let begun = put(text, at, b"(rule ");
        let headed = put_decimal(text, begun, rule_head(self.rules, row));
        let start = rule_start(self.rules, row);
        let size = rule_size(self.rules, row);
        put_body(text, headed, self.literals, start, size)
    }

    fn length(&self, row: usize) -> usize {
        let head = width(rule_head(self.rules, row));
        let start = rule_start(self.rules, row);
        let body = body_length(self.literals, start, rule_size(self.rules, row));
        6 + head + body
    }
}

// The lines of clauses.
#[derive(Drop)]
pub struct Clauses<'a> {
    pub clauses: &'a [u16],
    pub literals: &'a [u16],
}

impl Parts for Clauses<'_> {
    ghost part = { λ s. clause_line s.clauses.now s.literals.now };

    ghost has = { λ s row. ClausesLie s.clauses.now s.literals.now × (row < clause_count s.clauses.now) };

    ghost most = { max_line };

    fn put(&self, text: &mut [u8], at: usize, row: usize) -> usize {
        let begun = put(text, at, b"(clause");
        let start = clause_start(self.clauses, row);
        let size = clause_size(self.clauses, row);
        put_body(text, begun, self.literals, start, size)
    }

    fn length(&self, row: usize) -> usize {
        let start = clause_start(self.clauses, row);
        7 + body_length(self.literals, start, clause_size(self.clauses, row))
    }
}

// The lines of load rows.
#[derive(Drop)]
pub struct Loads<'a> {
    pub loads: &'a [i32],
    pub load_literals: &'a [u16],
    pub minutes: &'a [i16],
}

impl Parts for Loads<'_> {
    ghost part = { λ s. load_line s.loads.now s.load_literals.now s.minutes.now };

    ghost has = { λ s row. LoadsLie s.loads.now s.load_literals.now s.minutes.now × (row < load_count s.loads.now) };

    ghost countable = { λ s. length s.load_literals.now ≤ max_entries };

    ghost most = { max_line };

    fn put(&self, text: &mut [u8], at: usize, row: usize) -> usize {
        let begun = put(text, at, b"(load ");
        let low = put_signed(text, begun, load_low(self.loads, row));
        let parted = put(text, low, b" ");
        let high = put_signed(text, parted, load_high(self.loads, row));
        let start = load_start(self.loads, row);
        let size = load_size(self.loads, row);
        put_line_of_terms(text, high, self.load_literals, self.minutes, start, size)
    }

    fn length(&self, row: usize) -> usize {
        let low = signed_width(load_low(self.loads, row));
        let high = signed_width(load_high(self.loads, row));
        let start = load_start(self.loads, row);
        let size = load_size(self.loads, row);
        7 + low + high + line_of_terms_length(self.load_literals, self.minutes, start, size)
    }
}
