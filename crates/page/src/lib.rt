// The printed page, written into a buffer. Each function puts its bytes at an offset and answers the offset after them.
#![tactic(auto)]

ghost use Rattle.std.specs.Prelude.{◌+◌, ◌≤◌, ◌∷◌, length};
ghost use Rattle.format.specs.Forms.{space, decimal};
ghost use Rattle.tables.specs.Limits.{max_atoms, max_position};
ghost use Rattle.tables.specs.Faults.{position_of};
ghost use Rattle.printing.specs.internal.Putting.{Puts};
ghost use Rattle.page.specs.Pages.{verdict_line, made_line, atom_line, lines_of, atom_lines, page_of};
ghost use Rattle.page.specs.internal.Putting.{Printable, Listable, KeysFit, keyed_lines};

mod ordering;

use ordering::{PRIORITIES, order_atoms};
use printing::{put, put_decimal};
use tables::sizes::MAX_ATOMS;
use tables::{Verdict, fault_number};

// A size that holds every page: a line of rounds, one of at most 19 bytes for each atom, and the verdict.
pub const PAGE_SIZE: usize = 12 + (MAX_ATOMS * 19 + 19);

// Slots for sorting the atoms of every page: one for each key of the most rounds, and one more.
const MAX_SLOTS: usize = PRIORITIES * (MAX_ATOMS + 1) + 1;

// Puts a space and a number behind it.
fn put_spaced(page: &mut [u8], at: usize, number: usize) -> usize
    requires { (number ≤ max_position) × (at + length (space ∷ decimal number) ≤ length page.old) }
    ensures { Puts page.old at (space ∷ decimal number) result page.new }
{
    page[at] = b' ';
    put_decimal(page, at + 1, number)
}

// Puts the verdict's line.
fn put_verdict(page: &mut [u8], at: usize, verdict: Verdict) -> usize
    requires { (position_of verdict ≤ max_position) × (at + length (verdict_line verdict) ≤ length page.old) }
    ensures { Puts page.old at (verdict_line verdict) result page.new }
{
    match verdict {
        Ok(()) => put(page, at, b"(accepted)\n"),
        Err(refusal) => {
            let begun = put(page, at, b"(refused ");
            let numbered = put_decimal(page, begun, fault_number(refusal.fault));
            let placed = put_spaced(page, numbered, refusal.position);
            put(page, placed, b")\n")
        }
    }
}

// Puts the line of the rounds.
fn put_made(page: &mut [u8], at: usize, rounds: usize) -> usize
    requires { (rounds ≤ max_position) × (at + length (made_line rounds) ≤ length page.old) }
    ensures { Puts page.old at (made_line rounds) result page.new }
{
    let begun = put(page, at, b"(made ");
    let counted = put_decimal(page, begun, rounds);
    put(page, counted, b")\n")
}

// Puts an atom's line.
fn put_atom(page: &mut [u8], at: usize, atom: usize, value: usize, level: usize) -> usize
    requires atom_le_max_position { (atom ≤ max_position) × (value ≤ max_position) × (level ≤ max_position) }
    requires level_in_bounds { at + length (atom_line atom value level) ≤ length page.old }
    ensures { Puts page.old at (atom_line atom value level) result page.new }
{
    let begun = put(page, at, b"(atom ");
    let named = put_decimal(page, begun, atom);
    let valued = put_spaced(page, named, value);
    let levelled = put_spaced(page, valued, level);
    put(page, levelled, b")\n")
}

// Puts the lines of atoms, one after the other.
fn put_lines(page: &mut [u8], at: usize, values: &[u8], levels: &[u16], atoms: &[u16]) -> usize
    requires listable { Listable values.now levels.now atoms.now }
    requires atoms_in_bounds { at + length (lines_of values.now levels.now atoms.now) ≤ length page.old }
    ensures { Puts page.old at (lines_of values.now levels.now atoms.now) result page.new }
{
    let mut next = at;
    for atom in atoms {
        let atom = *atom as usize;
        next = put_atom(
            page,
            next,
            atom,
            values[atom] as usize,
            levels[atom] as usize,
        );
    }
    next
}

// Puts the lines of all atoms in the order of their keys, which is worked out in slots and atoms that are lent for it.
fn put_ordered(
    page: &mut [u8],
    at: usize,
    values: &[u8],
    levels: &[u16],
    slots: &mut [u16],
    atoms: &mut [u16],
) -> usize
    requires keys_fit { KeysFit values.now levels.now slots.old atoms.old }
    requires slots_in_bounds { at + length (keyed_lines values.now levels.now slots.old) ≤ length page.old }
    ensures { Puts page.old at (keyed_lines values.now levels.now slots.old)
        result page.new }
{
    order_atoms(values, levels, slots, atoms);
    put_lines(page, at, values, levels, atoms)
}

// Puts the lines of all atoms. The slots, and the atoms in order, are held inside the call.
fn put_atoms(page: &mut [u8], at: usize, values: &[u8], levels: &[u16], rounds: usize) -> usize
    requires printable { Printable values.now levels.now rounds }
    requires rounds_le_max_atoms { (rounds ≤ max_atoms) × (at + length (atom_lines values.now levels.now rounds) ≤ length page.old) }
    ensures { Puts page.old at (atom_lines values.now levels.now rounds) result page.new }
{
    let mut slots = [0u16; MAX_SLOTS];
    let mut atoms = [0u16; MAX_ATOMS];
    let used = PRIORITIES * (rounds + 1) + 1;
    let count = levels.len();
    put_ordered(
        page,
        at,
        values,
        levels,
        &mut slots[..used],
        &mut atoms[..count],
    )
}

// Puts the page at the front of the buffer, and answers how long it is.
pub fn put_page(
    page: &mut [u8],
    made: bool,
    verdict: Verdict,
    rounds: usize,
    values: &[u8],
    levels: &[u16],
) -> usize
    requires printable { Printable values.now levels.now rounds }
    requires verdict_bound { (position_of verdict ≤ max_position) × (rounds ≤ max_atoms)
        × (length (page_of made verdict rounds values.now levels.now) ≤ length page.old) }
    ensures { Puts page.old 0 (page_of made verdict rounds values.now levels.now)
        result page.new }
{
    if !made {
        return put_verdict(page, 0, verdict);
    }
    let counted = put_made(page, 0, rounds);
    let listed = put_atoms(page, counted, values, levels, rounds);
    put_verdict(page, listed, verdict)
}
