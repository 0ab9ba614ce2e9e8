// The walk over the lines of a text. Lent tables with no entries it judges; lent the host's tables it fills them.
#![tactic(auto)]

ghost use Rattle.std.specs.Prelude.{◌≡◌};
ghost use Rattle.judging.specs.Judging.{judge_text};
ghost use Rattle.forms.specs.Contents.{lent_tables};
ghost use Rattle.lines.specs.internal.Walks.{ended_at, Walked};

use crate::line::{judge_line, read_form};
use judging::reached::{Phase, Reached, Space, start};
use tables::sizes::MAX_BYTES;
use tables::{Fault, Refusal};

mod line;

// After the last line the state form may be missing.
fn ended(reached: Reached, at: usize) -> Result<Reached, Refusal>
    ensures { result ≡ ended_at reached at }
{
    if reached.phase < Phase::OpenStood {
        return Err(Refusal {
            fault: Fault::OutOfOrder,
            position: at,
        });
    }
    Ok(reached)
}

// The lines in turn, until one is refused.
pub fn walk(
    text: &[u8],
    space: Space,
    rules: &mut [u16],
    literals: &mut [u16],
    clauses: &mut [u16],
    loads: &mut [i32],
    load_literals: &mut [u16],
    minutes: &mut [i16],
    marks: &mut [u8],
    values: &mut [u8],
    levels: &mut [u16],
) -> Result<Reached, Refusal>
    ensures { Walked text.now space
        (lent_tables rules.old literals.old clauses.old loads.old load_literals.old
        minutes.old marks.old values.old levels.old) result
        (lent_tables rules.new literals.new clauses.new loads.new load_literals.new
        minutes.new marks.new values.new levels.new) }
{
    if MAX_BYTES < text.len() {
        return Err(Refusal {
            fault: Fault::OutsideLimits,
            position: 0,
        });
    }
    let mut reached = start();
    let mut at = 0;
    while at < text.len() {
        let line = read_form(
            text,
            at,
            reached,
            rules,
            literals,
            clauses,
            loads,
            load_literals,
            minutes,
            marks,
            values,
            levels,
        );
        let moved = judge_line(text, line, space, reached);
        let (then, next) = moved.map_err(|fault| Refusal {
            fault,
            position: at,
        })?;
        reached = then;
        at = next;
    }
    ended(reached, at)
}

// The judgement alone: tables with no entries are lent, so that nothing is written.
pub fn judge(text: &[u8], space: Space) -> Result<Reached, Refusal>
    ensures { result ≡ judge_text space text.now }
{
    let mut rules = [0u16; 0];
    let mut literals = [0u16; 0];
    let mut clauses = [0u16; 0];
    let mut loads = [0i32; 0];
    let mut load_literals = [0u16; 0];
    let mut minutes = [0i16; 0];
    let mut marks = [0u8; 0];
    let mut values = [0u8; 0];
    let mut levels = [0u16; 0];
    walk(
        text,
        space,
        &mut rules,
        &mut literals,
        &mut clauses,
        &mut loads,
        &mut load_literals,
        &mut minutes,
        &mut marks,
        &mut values,
        &mut levels,
    )
}
