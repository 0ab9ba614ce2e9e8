// Rounds until nothing changes: from a setting to its faults, or to the well-founded model with its stages.
#![tactic(auto)]

mod rounds;
mod setting;
mod stages;

pub use setting::{bad_setting, start_values};
pub use stages::evaluate_stages;
