// The format of book texts: the words that stand in them, and the kinds of forms that words tell.
#![tactic(auto)]

pub mod kinds;
pub mod words;
