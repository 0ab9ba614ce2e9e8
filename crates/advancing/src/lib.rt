// Rounds that follow the index. All rows are counted to begin with, and again where atoms are founded anew; otherwise a row is touched only when
// one of its literals becomes true.
#![tactic(auto)]

mod founded;
mod fronts;
mod levels;
mod stages;
mod unfounded;

pub use stages::advance_stages;
