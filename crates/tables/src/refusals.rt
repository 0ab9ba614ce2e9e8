// Refusals for what was looked for, and the order of those that a call looks for after those of its tables.
ghost use Rattle.std.specs.Prelude.{◌≡◌, cond};
ghost use Rattle.tables.specs.declared.Fault.TheVariants.{Mark};
ghost use Rattle.tables.specs.Faults.{accepted, refused, refused_or};

use super::{Fault, Refusal, Verdict};

// Refuses for a fault at the position where it was found, and accepts if it was found nowhere.
pub fn absent(fault: Fault, found: Option<usize>) -> Verdict
    ensures { result ≡ refused_or fault found accepted }
{
    match found {
        Some(position) => Err(Refusal { fault, position }),
        None => Ok(()),
    }
}

// Accepts what holds, and refuses for a fault of the whole if it does not.
pub fn require(holds: bool, fault: Fault) -> Verdict
    ensures { result ≡ cond holds accepted (refused fault 0) }
{
    if holds {
        return Ok(());
    }
    Err(Refusal { fault, position: 0 })
}

// The first of two refusals: for a mark that is neither 0 nor 1, or else for what does not fit, the call's own fault. Whether it fits stands
// beside that fault, as a bad mark comes first.
pub fn first_refusal(mark: Option<usize>, fit: bool, own: Fault) -> Verdict
    ensures { result ≡ refused_or Mark mark (cond fit accepted (refused own 0)) }
{
    absent(Fault::Mark, mark)?;
    require(fit, own)
}
