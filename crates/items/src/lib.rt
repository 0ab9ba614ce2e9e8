// The items that forms list: literals, terms and claim pairs at an offset of a text.
#![tactic(auto)]

pub mod literals;
pub mod pairs;
pub mod terms;
