// How a text is judged, line by line.
#![tactic(auto)]

pub mod reached;
