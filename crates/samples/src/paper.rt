// The samples of the paper: P1 to P10 from their list, and those that it only has run.
ghost use Rattle.std.specs.Prelude.{◌<◌};

use outcome::outcome_of;
use page::PAGE_SIZE;
use samplelist::{SAMPLES, put_sample_page};
use shown::show_verdict;
use std::io;
use tables::sizes::MAX_ATOMS;

// A line with the sample's place in the list, and its page.
fn show_sample(rt: &impl Print, sample: usize) -> io::Result<()>
    requires { sample < 12 }
{
    println!(rt; "sample {sample}")?;
    let mut page = [0u8; PAGE_SIZE];
    let printed = put_sample_page(sample, &mut page);
    rt.write_all(&page[0..printed])
}

fn run_listed(rt: &impl Print) -> io::Result<()> {
    for sample in 0..SAMPLES {
        show_sample(rt, sample)?;
    }
    Ok(())
}

fn show_outcome(rt: &impl Print, name: &[u8], text: &[u8]) -> io::Result<()> {
    let mut values = [0u8; MAX_ATOMS];
    let mut levels = [0u16; MAX_ATOMS];
    let outcome = outcome_of(text, &mut values, &mut levels);
    show_verdict(rt, name, outcome.verdict)?;
    println!(rt; "")
}

// The samples that the paper has run without a proof.
fn run_unlisted(rt: &impl Print) -> io::Result<()> {
    show_outcome(rt, b"atoms-1024", b"(atoms 1024)\n(open)\n")?;
    show_outcome(rt, b"atoms-1025", b"(atoms 1025)\n(open)\n")?;
    show_outcome(
        rt,
        b"minutes-1440",
        b"(atoms 1)\n(load 0 240 (1440 0))\n(open)\n",
    )?;
    show_outcome(
        rt,
        b"minutes-1441",
        b"(atoms 1)\n(load 0 240 (1441 0))\n(open)\n",
    )?;
    show_outcome(rt, b"empty-text", b"")
}

pub fn run_paper(rt: &impl Print) -> io::Result<()> {
    run_listed(rt)?;
    run_unlisted(rt)
}
