// Numbers in the text of a book: the classes of bytes, and numbers with and without a sign at an offset.
#![tactic(auto)]

pub mod bytes;
pub mod numbers;
pub mod reader;
pub mod signed;
