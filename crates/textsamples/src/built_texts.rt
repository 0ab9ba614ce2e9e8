// Long texts, built of a beginning, pieces that repeat, and an end.
ghost use Rattle.std.specs.Prelude.{◌≤◌, length};

use super::texts::show_text;
use std::io;

// Puts bytes into a buffer, as far as there is room, and answers the offset after them.
fn put(buffer: &mut [u8], at: usize, bytes: &[u8]) -> usize
    requires { at ≤ length buffer.old }
    ensures { result ≤ length buffer.old }
{
    let size = bytes.len().min(buffer.len() - at);
    buffer[at..at + size].copy_from_slice(&bytes[..size]);
    at + size
}

fn put_times(buffer: &mut [u8], at: usize, bytes: &[u8], times: usize) -> usize
    requires { at ≤ length buffer.old }
    ensures { result ≤ length buffer.old }
{
    let mut next = at;
    for _ in 0..times {
        next = put(buffer, next, bytes);
    }
    next
}

fn show_built(
    rt: &impl Print,
    name: &[u8],
    beginning: &[u8],
    piece: &[u8],
    times: usize,
    other: &[u8],
    other_times: usize,
    end: &[u8],
) -> io::Result<()> {
    let mut buffer = [0u8; 65600];
    let begun = put(&mut buffer, 0, beginning);
    let pieced = put_times(&mut buffer, begun, piece, times);
    let more = put_times(&mut buffer, pieced, other, other_times);
    let length = put(&mut buffer, more, end);
    show_text(rt, name, &buffer[0..length])
}

// One piece, so many times, between a beginning and an end.
fn show_repeated(
    rt: &impl Print,
    name: &[u8],
    beginning: &[u8],
    piece: &[u8],
    times: usize,
    end: &[u8],
) -> io::Result<()> {
    show_built(rt, name, beginning, piece, times, b"", 0, end)
}

// A book of one atom, with one line so many times.
fn show_lines(rt: &impl Print, name: &[u8], line: &[u8], times: usize) -> io::Result<()> {
    show_repeated(rt, name, b"(atoms 1)\n", line, times, b"(open)\n")
}

// Rules at their limit and one past it.
fn run_rules(rt: &impl Print) -> io::Result<()> {
    show_lines(rt, b"2048-rules", b"(rule 0)\n", 2048)?;
    show_lines(rt, b"2049-rules", b"(rule 0)\n", 2049)?;
    show_repeated(
        rt,
        b"2049th-rule-after-a-clause",
        b"(atoms 1)\n",
        b"(rule 0)\n",
        2048,
        b"(clause)\n(rule 0)\n(open)\n",
    )
}

// Clauses and the literals of rules and clauses together at their limits and one past them.
fn run_clauses(rt: &impl Print) -> io::Result<()> {
    show_lines(rt, b"2048-clauses", b"(clause)\n", 2048)?;
    show_lines(rt, b"2049-clauses", b"(clause)\n", 2049)?;
    show_built(
        rt,
        b"16384-literals",
        b"(atoms 1)\n",
        b"(rule 0 0 0 0 0 0 0 0 0)\n",
        1024,
        b"(clause 0 0 0 0 0 0 0 0)\n",
        1024,
        b"(clause)\n(open)\n",
    )?;
    show_built(
        rt,
        b"16385-literals",
        b"(atoms 1)\n",
        b"(rule 0 0 0 0 0 0 0 0 0)\n",
        1024,
        b"(clause 0 0 0 0 0 0 0 0)\n",
        1024,
        b"(clause 0)\n(open)\n",
    )
}

// Load lines and their terms at their limits and one past them.
fn run_loads(rt: &impl Print) -> io::Result<()> {
    show_lines(rt, b"64-loads", b"(load 0 0)\n", 64)?;
    show_lines(rt, b"65-loads", b"(load 0 0)\n", 65)?;
    show_repeated(
        rt,
        b"4096-terms",
        b"(atoms 1)\n(load 0 0",
        b" (0 0)",
        4096,
        b")\n(open)\n",
    )?;
    show_repeated(
        rt,
        b"4097-terms",
        b"(atoms 1)\n(load 0 0",
        b" (0 0)",
        4096,
        b")\n(load 0 0 (0 0))\n(open)\n",
    )
}

// Claim pairs at their limit and one past it, and a number of 5,000 digits.
fn run_long_lines(rt: &impl Print) -> io::Result<()> {
    show_repeated(
        rt,
        b"1024-claim-pairs",
        b"(atoms 1024)\n(claim",
        b" (0 0)",
        1024,
        b")\n",
    )?;
    show_repeated(
        rt,
        b"1025-claim-pairs",
        b"(atoms 1024)\n(claim",
        b" (0 0)",
        1025,
        b")\n",
    )?;
    show_repeated(rt, b"5000-digits", b"(atoms 1", b"0", 4999, b")\n(open)\n")
}

// Bytes at their limit and one past it.
fn run_bytes(rt: &impl Print) -> io::Result<()> {
    show_built(
        rt,
        b"65535-bytes",
        b"(atoms 1024)\n(clause",
        b" (not 1023)",
        5954,
        b" 0",
        6,
        b")\n(open)\n",
    )?;
    show_built(
        rt,
        b"65536-bytes",
        b"(atoms 1024)\n(clause",
        b" (not 1023)",
        5953,
        b" 0",
        12,
        b")\n(open)\n",
    )
}

pub fn run_built_texts(rt: &impl Print) -> io::Result<()> {
    run_rules(rt)?;
    run_clauses(rt)?;
    run_loads(rt)?;
    run_long_lines(rt)?;
    run_bytes(rt)
}
