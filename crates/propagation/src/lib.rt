// Counts that fall as atoms are decided: a queue of decided atoms, and for each rule row a count of what it lacks. A row that lacks nothing makes
// its head true.
#![tactic(auto)]

pub mod counts;
pub mod lacking;
pub mod queues;
