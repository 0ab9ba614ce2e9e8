// One round: what fires, what changes, and the next stage in place.
ghost use Rattle.std.specs.Prelude.{◌≡◌, ◌<◌, length};
ghost use Rattle.tables.specs.Rows.{rule_count, rule_head};
ghost use Rattle.tables.specs.internal.Marks.{mark_where, mark_head};
ghost use Rattle.founding.specs.internal.Founding.{Markable};
ghost use Rattle.rounds.specs.internal.Firing.{row_fires, fires_by};
ghost use Rattle.rounds.specs.internal.Deciding.{Decidable, AtomDecided, RoundDecided};

use tables::rows::{rule_count, rule_head, rule_size, rule_start};
use wellfounded::body_true;

// How many atoms a round decides, and whether one of them becomes true that occurs negated.
#[derive(Drop)]
pub struct Changed {
    pub decided: usize,
    pub renewed: bool,
}

// Looks at one row: marks its head if the row makes it true and it is not marked yet. The head's value and its kind, which is its mark
// here, tell first whether the body matters.
fn fire_row(rules: &[u16], row: usize, literals: &[u16], values: &[u8], firing: &mut [u16])
    requires { (row < rule_count rules.now) × Markable rules.now literals.now values.now firing.old }
    ensures { firing.new ≡ mark_head (row_fires rules.now literals.now values.now row)
        (rule_head rules.now row) firing.old }
{
    let head = rule_head(rules, row);
    let value = values[head];
    let mark = firing[head];
    if value < 2 || mark == 1 {
        return;
    }
    let start = rule_start(rules, row);
    let size = rule_size(rules, row);
    if body_true(literals, start, size, values) {
        firing[head] = 1;
    }
}

// Marks the undecided atoms that a rule makes true.
pub fn mark_firing(rules: &[u16], literals: &[u16], values: &[u8], firing: &mut [u16])
    requires { Markable rules.now literals.now values.now firing.old }
    ensures { firing.new ≡ mark_where (fires_by rules.now literals.now values.now (rule_count rules.now))
        firing.old }
{
    for row in 0..rule_count(rules) {
        fire_row(rules, row, literals, values, firing);
    }
}

// Decides one atom, if it is undecided: it becomes true if it fires, and false if it is not founded. Answers what changed.
fn decide_atom(
    atom: usize,
    level: u16,
    founded: &[u8],
    negated: &[u8],
    firing: &[u16],
    values: &mut [u8],
    levels: &mut [u16],
) -> Changed
    requires { (atom < length values.old) × Decidable founded.now negated.now firing.now values.old levels.old }
    ensures { AtomDecided level founded.now negated.now firing.now values.old levels.old atom
        result.decided result.renewed values.new levels.new }
{
    if values[atom] < 2 {
        return Changed {
            decided: 0,
            renewed: false,
        };
    }
    if firing[atom] == 1 {
        values[atom] = 1;
        levels[atom] = level;
        return Changed {
            decided: 1,
            renewed: negated[atom] == 1,
        };
    }
    if founded[atom] != 1 {
        values[atom] = 0;
        levels[atom] = level;
        return Changed {
            decided: 1,
            renewed: false,
        };
    }
    Changed {
        decided: 0,
        renewed: false,
    }
}

// Decides all atoms that the round decides, at the level. Answers what changed.
pub fn decide(
    level: u16,
    founded: &[u8],
    negated: &[u8],
    firing: &[u16],
    values: &mut [u8],
    levels: &mut [u16],
) -> Changed
    requires { Decidable founded.now negated.now firing.now values.old levels.old }
    ensures { RoundDecided level founded.now negated.now firing.now values.old levels.old
        result.decided result.renewed values.new levels.new }
{
    let mut decided = 0;
    let mut renewed = false;
    for atom in 0..values.len() {
        let changed = decide_atom(atom, level, founded, negated, firing, values, levels);
        decided += changed.decided;
        renewed = renewed | changed.renewed;
    }
    Changed { decided, renewed }
}
