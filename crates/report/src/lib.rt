// The report of a text: what it comes to, as a page in a lent buffer.
#![tactic(auto)]

ghost use Rattle.std.specs.Prelude.{◌≡◌};
ghost use Rattle.report.specs.Reports.{is_open_state, Reported};

use booktext::StateForm;
use outcome::{is_made, outcome_of};
use page::{PAGE_SIZE, put_page};
use tables::sizes::MAX_ATOMS;

// Whether a text ended with an open form.
fn is_open(state: StateForm) -> bool
    ensures { result ≡ is_open_state state }
{
    matches!(state, StateForm::OpenState)
}

// Writes the report of a text at the front of the page, and answers its length. A page shorter than `PAGE_SIZE` is left as it
// is, and the length is answered as 0: no Option, as C is told the number.
pub fn report(text: &[u8], page: &mut [u8]) -> usize
    ensures { Reported text.now page.old result page.new }
{
    if page.len() < PAGE_SIZE {
        return 0;
    }
    let mut values = [0u8; MAX_ATOMS];
    let mut levels = [0u16; MAX_ATOMS];
    let outcome = outcome_of(text, &mut values, &mut levels);
    let verdict = outcome.verdict;
    let state = outcome.state;
    let atoms = outcome.atoms;
    let rounds = outcome.rounds;
    let made = is_open(state) & is_made(verdict);
    put_page(
        page,
        made,
        verdict,
        rounds,
        &values[0..atoms],
        &levels[0..atoms],
    )
}
