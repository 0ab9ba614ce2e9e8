// Runs sample texts through the reader, into tables of full size and into small ones.
#![tactic(auto)]

use std::io;

mod built_texts;
mod lent_tables;
mod other_lengths;
mod texts;

fn main(rt: HostRuntime) -> io::Result<()> {
    texts::run_texts(&rt)?;
    built_texts::run_built_texts(&rt)?;
    lent_tables::run_lent_tables(&rt)?;
    other_lengths::run_other_lengths(&rt)
}
