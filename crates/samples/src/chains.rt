// Chains of 1,023 rounds over 1,024 atoms: each atom but the first has one rule, from the atom before it.
ghost use Rattle.std.specs.Prelude.{◌≤◌};

use super::lent::{Lent, ONE_ATOM, evaluate_lent};
use shown::show_verdict;
use std::io;

// The atom that the rule of a row rests on.
fn chain_atom(row: usize, falling: bool) -> u16
    requires { row ≤ 1022 }
    ensures { result ≤ 1022 }
{
    if falling {
        (1022 - row) as u16
    } else {
        row as u16
    }
}

// Rule rows by rising head, or by falling head; literal k stands for atom k, negated or not.
fn chain_rules(falling: bool) -> [u16; 3069] {
    let mut rules = [0; 3069];
    for row in 0..1023 {
        let atom = chain_atom(row, falling);
        rules[row * 3] = atom + 1;
        rules[row * 3 + 1] = atom;
        rules[row * 3 + 2] = 1;
    }
    rules
}

fn chain_literals(negated: bool) -> [u16; 1023] {
    let mut literals = [0; 1023];
    for (atom, literal) in literals.iter_mut().enumerate() {
        *literal = 2 * atom as u16 + negated as u16;
    }
    literals
}

fn chain<'a>(
    rt: &impl Print,
    name: &[u8],
    rules: &'a [u16],
    literals: &'a [u16],
    first: u8,
) -> io::Result<()> {
    let lent = Lent {
        atoms: 1024,
        rules,
        literals,
        marks: &[0; 1024],
        ..ONE_ATOM
    };
    let mut open_values = [0; 1024];
    open_values[0] = first;
    let mut values = [0; 1024];
    let mut levels = [0; 1024];
    let mut work = [0; 1024];
    let answer = evaluate_lent(lent, &open_values, &mut values, &mut levels, &mut work);
    let rounds = answer.rounds;
    show_verdict(rt, name, answer.verdict)?;
    println!(rt;
        " rounds {rounds} last {} level {}",
        values[1023], levels[1023]
    )
}

pub fn run_chains(rt: &impl Print) -> io::Result<()> {
    let rising = chain_rules(false);
    let falling = chain_rules(true);
    let positive = chain_literals(false);
    let negated = chain_literals(true);
    chain(rt, b"chain", &rising, &positive, 1)?;
    chain(rt, b"chain-falling", &falling, &positive, 1)?;
    chain(rt, b"chain-negated", &rising, &negated, 0)?;
    chain(rt, b"chain-negated-falling", &falling, &negated, 0)
}
