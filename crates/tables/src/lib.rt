// The tables of a book: verdicts, and the faults of tables that a host lends.
#![tactic(auto)]

ghost use Rattle.std.specs.Prelude.{◌≡◌};
ghost use Rattle.tables.specs.Faults.{fault_number, number_of, position_of};

pub mod entries;
pub mod groups;
pub mod load_rows;
pub mod marks;
pub mod refusals;
mod row_faults;
pub mod rows;
pub mod searches;
pub mod sizes;
pub mod totals;
pub mod values;

// Every reason to refuse. `fault_number` gives the paper's number.
#[derive(Clone, Copy)]
pub enum Fault {
    Malformed,
    OutsideLimits,
    OutOfOrder,
    NoSpace,
    TableSizes,
    RuleRow,
    ClauseRow,
    LoadRow,
    Literal,
    LoadTerm,
    SliceLength,
    Value,
    Level,
    Unsupported,
    Unblocked,
    Undecided,
    FailingClause,
    FailingLoad,
    Mark,
    TextSize,
    IndexSize,
}

// Why a call refuses: the fault, and its position.
#[derive(Clone, Copy)]
pub struct Refusal {
    pub fault: Fault,
    pub position: usize,
}

// What every call answers: it accepts, or it refuses.
pub type Verdict = Result<(), Refusal>;

// The paper's number of a fault.
impl From<Fault> for usize {
    ghost from_gives = { λ fault number. number ≡ fault_number fault };

    fn from(fault: Fault) -> usize {
        match fault {
            Fault::Malformed => 1,
            Fault::OutsideLimits => 2,
            Fault::OutOfOrder => 3,
            Fault::NoSpace => 4,
            Fault::TableSizes => 11,
            Fault::RuleRow => 12,
            Fault::ClauseRow => 13,
            Fault::LoadRow => 14,
            Fault::Literal => 15,
            Fault::LoadTerm => 16,
            Fault::SliceLength => 17,
            Fault::Value => 21,
            Fault::Level => 22,
            Fault::Unsupported => 23,
            Fault::Unblocked => 24,
            Fault::Undecided => 25,
            Fault::FailingClause => 26,
            Fault::FailingLoad => 27,
            Fault::Mark => 31,
            Fault::TextSize => 32,
            Fault::IndexSize => 33,
        }
    }
}

// The paper's number of a fault, by its name.
pub fn fault_number(fault: Fault) -> usize
    ensures { result ≡ fault_number fault }
{
    usize::from(fault)
}

// The verdict's number, 0 if accepted: C and the page are told numbers.
pub fn number_of(verdict: Verdict) -> usize
    ensures { result ≡ number_of verdict }
{
    match verdict {
        Ok(()) => 0,
        Err(refusal) => usize::from(refusal.fault),
    }
}

// The verdict's position, 0 if accepted: C and the page are told numbers.
pub fn position_of(verdict: Verdict) -> usize
    ensures { result ≡ position_of verdict }
{
    match verdict {
        Ok(()) => 0,
        Err(refusal) => refusal.position,
    }
}
