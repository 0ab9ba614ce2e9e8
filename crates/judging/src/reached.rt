// The state that the lines read so far have reached, and how a line is judged in it.
ghost use Rattle.std.specs.Prelude.{◌≡◌, ◌*◌, ◌≤◌};
ghost use Rattle.format.specs.declared.kinds.Kind.TheVariants.{Rule, Clause, Load};
ghost use Rattle.judging.specs.States.{start, groups_reached};
ghost use Rattle.judging.specs.Judging.{between, may_follow, max_bytes};
ghost use Rattle.judging.specs.internal.Shapes.{added, order_of, judge_shape, as_move, CountsFit, CountedAs};

use format::kinds::Kind;
use tables::Fault;
use tables::load_rows::LOAD_WIDTH;
use tables::rows::{CLAUSE_WIDTH, RULE_WIDTH};
use tables::sizes::{
    MAX_CLAUSE_ENTRIES, MAX_LITERALS, MAX_LOAD_ENTRIES, MAX_RULE_ENTRIES, MAX_TERMS,
};

// The phases of a text, in their order: nothing was read yet; the atoms form was read last; the defined form or a rule was, or a clause, or a load
// line; an open form or a claim stood. `Past` is any that comes after these: no text reaches it, but a caller's state may say so.
#[derive(Clone, Copy, PartialEq, Eq, PartialOrd, Ord)]
pub enum Phase {
    NothingYet,
    AtomsStood,
    InRules,
    InClauses,
    InLoads,
    OpenStood,
    ClaimStood,
    Past,
}

// The phase of the text, the number of atoms, and the entries counted for each table that grows from line to line.
#[derive(Clone, Copy)]
pub struct Reached {
    pub phase: Phase,
    pub size: usize,
    pub rules: usize,
    pub literals: usize,
    pub clauses: usize,
    pub loads: usize,
    pub terms: usize,
}

// How many entries each lent table has.
#[derive(Clone, Copy)]
pub struct Space {
    pub rules: usize,
    pub literals: usize,
    pub clauses: usize,
    pub loads: usize,
    pub load_literals: usize,
    pub minutes: usize,
    pub marks: usize,
    pub values: usize,
    pub levels: usize,
}

// What judging needs of a form: its kind, the number of atoms that it names, how many parts it lists, whether its numbers
// are within their limits, and whether its atoms rise.
#[derive(Drop)]
pub struct Shape {
    pub kind: Kind,
    pub size: usize,
    pub parts: usize,
    pub within: bool,
    pub rising: bool,
}

// Before the first line.
pub fn start() -> Reached
    ensures { result ≡ start }
{
    Reached {
        phase: Phase::NothingYet,
        size: 0,
        rules: 0,
        literals: 0,
        clauses: 0,
        loads: 0,
        terms: 0,
    }
}

// How many groups of rules there are.
pub fn groups_reached(reached: Reached) -> usize
    ensures { result ≡ groups_reached reached }
{
    1
}

// How many levels a claim tells: one for each atom in each group.
fn levels_told(reached: Reached) -> usize
    ensures { result ≡ reached.size * groups_reached reached }
{
    reached.size * groups_reached(reached)
}

// The state after a form, and whether all that is counted then is within the limits of a book and has space in the lent tables. No Option of a
// state: limits are looked at before the order of forms, and space after it.
#[derive(Drop)]
struct Counted {
    then: Reached,
    within: bool,
    fits: bool,
}

// Counts a rule. What a form adds nothing to was within the limits and had space before, so only the rest is compared, here and below.
fn count_rule(space: Space, reached: Reached, parts: usize) -> Counted
    requires { CountsFit space reached × (parts ≤ max_bytes) }
    ensures { CountedAs space (added reached Rule 0 parts) result }
{
    let mut then = reached;
    then.phase = Phase::InRules;
    then.rules = reached.rules + RULE_WIDTH;
    then.literals = reached.literals + parts;
    Counted {
        then,
        within: (then.rules <= MAX_RULE_ENTRIES) & (then.literals <= MAX_LITERALS),
        fits: (then.rules <= space.rules) & (then.literals <= space.literals),
    }
}

// Counts a clause.
fn count_clause(space: Space, reached: Reached, parts: usize) -> Counted
    requires { CountsFit space reached × (parts ≤ max_bytes) }
    ensures { CountedAs space (added reached Clause 0 parts) result }
{
    let mut then = reached;
    then.phase = Phase::InClauses;
    then.clauses = reached.clauses + CLAUSE_WIDTH;
    then.literals = reached.literals + parts;
    Counted {
        then,
        within: (then.literals <= MAX_LITERALS) & (then.clauses <= MAX_CLAUSE_ENTRIES),
        fits: (then.literals <= space.literals) & (then.clauses <= space.clauses),
    }
}

// Counts a load line.
fn count_load(space: Space, reached: Reached, parts: usize) -> Counted
    requires { CountsFit space reached × (parts ≤ max_bytes) }
    ensures { CountedAs space (added reached Load 0 parts) result }
{
    let mut then = reached;
    then.phase = Phase::InLoads;
    then.loads = reached.loads + LOAD_WIDTH;
    then.terms = reached.terms + parts;
    Counted {
        then,
        within: (then.loads <= MAX_LOAD_ENTRIES) & (then.terms <= MAX_TERMS),
        fits: (then.loads <= space.loads)
            & (then.terms <= space.load_literals)
            & (then.terms <= space.minutes),
    }
}

// Counts a form of some kind: `size` is the number of atoms that it names, `parts` how many parts it lists.
fn count(space: Space, reached: Reached, kind: Kind, size: usize, parts: usize) -> Counted
    requires { CountsFit space reached × (parts ≤ max_bytes) }
    ensures { CountedAs space (added reached kind size parts) result }
{
    let mut then = reached;
    let mut fits = true;
    match kind {
        Kind::Atoms => {
            then.phase = Phase::AtomsStood;
            then.size = size;
        }
        Kind::Rule => {
            return count_rule(space, reached, parts);
        }
        Kind::Clause => {
            return count_clause(space, reached, parts);
        }
        Kind::Load => {
            return count_load(space, reached, parts);
        }
        Kind::Open => {
            then.phase = Phase::OpenStood;
            fits = (reached.size <= space.marks) & (reached.size <= space.values);
        }
        Kind::Claim => {
            then.phase = Phase::ClaimStood;
            fits = (reached.size <= space.marks)
                & (reached.size <= space.values)
                & (levels_told(reached) <= space.levels);
        }
        Kind::Defined => {
            then.phase = Phase::InRules;
        }
    }
    Counted {
        then,
        within: true,
        fits,
    }
}

// Whether a phase is among those in which a kind of form may follow.
fn between(first: Phase, last: Phase, phase: Phase) -> bool
    ensures { result ≡ between first last phase }
{
    (first <= phase) & (phase <= last)
}

// Whether a form of some kind may follow in a phase.
fn may_follow(kind: Kind, phase: Phase) -> bool
    ensures { result ≡ may_follow kind phase }
{
    match kind {
        Kind::Atoms => phase == Phase::NothingYet,
        Kind::Rule => between(Phase::AtomsStood, Phase::InRules, phase),
        Kind::Clause => between(Phase::AtomsStood, Phase::InClauses, phase),
        Kind::Load => between(Phase::AtomsStood, Phase::InLoads, phase),
        Kind::Open => between(Phase::AtomsStood, Phase::InLoads, phase),
        Kind::Claim => between(Phase::AtomsStood, Phase::InLoads, phase),
        Kind::Defined => phase == Phase::AtomsStood,
    }
}

// Whether a form's parts are in order: named atoms rise, and there is a claim pair for each atom. Kinds are told apart by a match, as everywhere.
fn parts_in_order(reached: Reached, kind: Kind, parts: usize, rising: bool) -> bool
    ensures { result ≡ order_of reached kind parts rising }
{
    match kind {
        Kind::Claim => rising & (parts == reached.size),
        _ => rising,
    }
}

// A form judged in the state reached so far: its limits first, then its order, then the space of the lent tables. It comes to the state after it
// with the offset of the next line, or to a fault.
pub fn judge_shape(
    space: Space,
    reached: Reached,
    shape: Shape,
    next: usize,
) -> Result<(Reached, usize), Fault>
    requires { CountsFit space reached × (shape.parts ≤ max_bytes) }
    ensures { result ≡ as_move next (judge_shape space reached shape) }
{
    let kind = shape.kind;
    let counts = count(space, reached, kind, shape.size, shape.parts);
    if !(shape.within & counts.within) {
        return Err(Fault::OutsideLimits);
    }
    if !(may_follow(kind, reached.phase)
        & parts_in_order(reached, kind, shape.parts, shape.rising))
    {
        return Err(Fault::OutOfOrder);
    }
    if !counts.fits {
        return Err(Fault::NoSpace);
    }
    let then = counts.then;
    Ok((then, next))
}
