// Runs samples through the report, and through the check and the evaluator over lent tables.
#![tactic(auto)]

use claims::run_claims;
use evaluated::run_evaluations;
use std::io;

mod bad_input;
mod chains;
mod claims;
mod evaluated;
mod lent;
mod marks;
mod pages;
mod paper;

fn main(rt: HostRuntime) -> io::Result<()> {
    paper::run_paper(&rt)?;
    pages::run_pages(&rt)?;
    run_claims(&rt)?;
    run_evaluations(&rt)?;
    bad_input::run_bad_input(&rt)?;
    chains::run_chains(&rt)?;
    marks::run_marks(&rt)
}
