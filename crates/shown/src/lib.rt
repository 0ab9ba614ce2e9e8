// How the sample programs print: verdicts, and numbers behind a space each.
#![tactic(auto)]

use std::fmt::Display;
use std::io;
use tables::{Verdict, number_of, position_of};

// The sample's name, the verdict's number and its position.
pub fn show_verdict(rt: &impl Print, name: &[u8], verdict: Verdict) -> io::Result<()> {
    rt.write_all(name)?;
    print!(rt; " {} {}", number_of(verdict), position_of(verdict))
}

// Each number behind a space.
pub fn show_numbers<N: Display>(rt: &impl Print, numbers: &[N]) -> io::Result<()> {
    for number in numbers {
        print!(rt; " {number}")?;
    }
    Ok(())
}
