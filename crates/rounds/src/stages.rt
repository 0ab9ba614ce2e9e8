// Rounds until nothing changes: from stage 0 to the well-founded model.
ghost use Rattle.std.specs.Prelude.{◌≡◌, ℕ, suc, List};
ghost use Rattle.wellfounded.specs.Definitions.{Definition};
ghost use Rattle.rounds.specs.internal.Rounds.{AtStage, RoundDone, RoundsDone, RoundFits, StagesReady};

use super::rounds::{decide, mark_firing};
use super::setting::{mark_negated, start_values};
use founding::mark_founded;
use tables::entries::clear;
use tables::sizes::MAX_ATOMS;

// One round: marks what fires, then decides it together with what is not founded, at the level. Answers whether anything
// changed. The founded marks are made anew only if an atom became true that occurs negated: otherwise they still hold.
fn round(
    level: u16,
    rules: &[u16],
    literals: &[u16],
    defined: &[u8],
    negated: &[u8],
    founded: &mut [u8],
    values: &mut [u8],
    levels: &mut [u16],
    work: &mut [u16],
) -> bool
    requires { RoundFits rules.now literals.now defined.now negated.now founded.old values.old levels.old work.old }
    ensures { (d : Definition) (setting : List ℕ) (k : ℕ) →
        AtStage d rules.now literals.now setting k defined.now negated.now
        founded.old values.old levels.old work.old →
        suc k ≡ level →
        RoundDone d rules.now literals.now setting k defined.now negated.now
        founded.new values.new levels.new work.new result }
{
    mark_firing(rules, literals, values, work);
    let changed = decide(level, founded, negated, work, values, levels);
    clear(work);
    let decided = changed.decided;
    if decided == 0 {
        return false;
    }
    let renewed = changed.renewed;
    if renewed {
        mark_founded(rules, literals, defined, values, founded);
    }
    true
}

// Evaluates a definition, whose rules stand in the rows, at a setting: values become the model, levels the stages, work all 0. Answers the rounds.
pub fn evaluate_stages(
    rules: &[u16],
    literals: &[u16],
    defined: &[u8],
    setting: &[u8],
    values: &mut [u8],
    levels: &mut [u16],
    work: &mut [u16],
) -> usize
    requires { (d : Definition) × StagesReady d rules.now literals.now defined.now setting.now values.old levels.old work.old }
    ensures { (d : Definition) →
        StagesReady d rules.now literals.now defined.now setting.now
        values.old levels.old work.old →
        RoundsDone d setting.now values.new levels.new work.new result }
{
    start_values(defined, setting, values);
    clear(levels);
    clear(work);
    let mut negated = [0u8; MAX_ATOMS];
    mark_negated(literals, &mut negated);
    let mut founded = [0u8; MAX_ATOMS];
    mark_founded(rules, literals, defined, values, &mut founded);
    let mut rounds: usize = 0;
    while round(
        (rounds + 1) as u16,
        rules,
        literals,
        defined,
        &negated,
        &mut founded,
        values,
        levels,
        work,
    ) {
        rounds += 1;
    }
    rounds
}
