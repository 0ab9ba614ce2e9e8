// The tables that samples lend, and how a claim and an evaluation on them are shown.
use checker::check;
use evaluator::{Answer, evaluate};
use shown::{show_numbers, show_verdict};
use std::io;

// The number of atoms and the lent tables.
#[derive(Clone, Copy)]
pub struct Lent<'a> {
    pub atoms: usize,
    pub rules: &'a [u16],
    pub literals: &'a [u16],
    pub clauses: &'a [u16],
    pub loads: &'a [i32],
    pub load_literals: &'a [u16],
    pub minutes: &'a [i16],
    pub marks: &'a [u8],
}

// One atom without a mark, and tables with no entries.
pub const ONE_ATOM: Lent = Lent {
    atoms: 1,
    rules: &[],
    literals: &[],
    clauses: &[],
    loads: &[],
    load_literals: &[],
    minutes: &[],
    marks: &[0],
};

// Book A: (rule 1 0), (rule 1 2), (rule 2 1), (rule 3 (not 1)), (clause 1 3), (load 0 10 (60 3)).
pub const BOOK_A: Lent = Lent {
    atoms: 4,
    rules: &[1, 0, 1, 1, 1, 1, 2, 2, 1, 3, 3, 1],
    literals: &[0, 4, 2, 3, 2, 6],
    clauses: &[4, 2],
    loads: &[0, 10, 0, 1],
    load_literals: &[6],
    minutes: &[60],
    marks: &[0, 0, 0, 0],
};

// Book A with the higher bound 9.
pub fn book_a_with_9() -> Lent<'static> {
    Lent {
        loads: &[0, 9, 0, 1],
        ..BOOK_A
    }
}

// The sample's name and the verdict on a claim.
pub fn show_claim(
    rt: &impl Print,
    name: &[u8],
    lent: Lent,
    values: &[u8],
    levels: &[u16],
) -> io::Result<()> {
    let verdict = check(
        lent.atoms,
        lent.rules,
        lent.literals,
        lent.clauses,
        lent.loads,
        lent.load_literals,
        lent.minutes,
        lent.marks,
        values,
        levels,
    );
    show_verdict(rt, name, verdict)?;
    println!(rt; "")
}

// Evaluates at open values.
pub fn evaluate_lent(
    lent: Lent,
    open_values: &[u8],
    values: &mut [u8],
    levels: &mut [u16],
    work: &mut [u16],
) -> Answer {
    evaluate(
        lent.atoms,
        lent.rules,
        lent.literals,
        lent.clauses,
        lent.loads,
        lent.load_literals,
        lent.minutes,
        lent.marks,
        open_values,
        values,
        levels,
        work,
    )
}

// The sample's name, the verdict, the rounds, and the values and levels that were made. The slices hold numbers on entry that an evaluation
// leaves only if it is refused.
pub fn show_made(
    rt: &impl Print,
    name: &[u8],
    lent: Lent,
    open_values: &[u8],
    values: &mut [u8],
    levels: &mut [u16],
    work: &mut [u16],
) -> io::Result<()> {
    let answer = evaluate_lent(lent, open_values, values, levels, work);
    let rounds = answer.rounds;
    show_verdict(rt, name, answer.verdict)?;
    print!(rt; " rounds {rounds} values")?;
    show_numbers(rt, values)?;
    print!(rt; " levels")?;
    show_numbers(rt, levels)?;
    println!(rt; "")
}
