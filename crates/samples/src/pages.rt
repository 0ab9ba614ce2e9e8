// Pages among the samples: the order of their lines.
use page::PAGE_SIZE;
use report::report;
use std::io;

// A line with the sample's name, and its page.
fn show_page(rt: &impl Print, name: &[u8], text: &[u8]) -> io::Result<()> {
    rt.write_all(name)?;
    println!(rt; "")?;
    let mut page = [0u8; PAGE_SIZE];
    let printed = report(text, &mut page);
    rt.write_all(&page[0..printed])
}

pub fn run_pages(rt: &impl Print) -> io::Result<()> {
    show_page(rt, b"page-open-atoms", b"(atoms 4)\n(open 1 3)\n")?;
    show_page(
        rt,
        b"page-one-level",
        b"(atoms 4)\n(rule 0 0)\n(rule 1)\n(rule 2 2)\n(rule 3)\n(open)\n",
    )?;
    show_page(
        rt,
        b"page-undecided-atoms",
        b"(atoms 5)\n(rule 0 (not 0))\n(rule 1 0)\n(rule 4)\n(open 3)\n",
    )?;
    show_page(
        rt,
        b"page-levels-and-values",
        b"(atoms 9)\n(rule 0 (not 0))\n(rule 3 1)\n(rule 4 2)\n(rule 5 5)\n(rule 6)\n(rule 7 (not 4))\n(rule 8 6)\n(open 2)\n",
    )
}
