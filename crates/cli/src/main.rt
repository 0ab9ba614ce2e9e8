// The program: reads a book's text from standard input and prints its report. Where the input cannot be read no report is
// printed, and trouble with input or output is told on standard error.
#![tactic(auto)]

ghost use Rattle.std.specs.Prelude.{◌≤◌, length, IfOk};

use page::PAGE_SIZE;
use report::report;
use std::io;
use std::io::{ErrorKind, Read, Stdin};
use std::process::ExitCode;
use tables::sizes::MAX_BYTES;

// One byte more than a text may have, so that a longer one is seen to be too long.
const TEXT_SIZE: usize = MAX_BYTES + 1;

// One read of standard input, which answers how many bytes were read. At its end there are none.
fn read_some(mut input: Stdin, text: &mut [u8]) -> io::Result<usize>
    ensures { IfOk result (λ count. count ≤ length text.new) }
{
    input.read(text)
}

// Reads standard input to its end, or until the buffer is full, and answers how many bytes were read.
fn read_input(input: Stdin, text: &mut [u8]) -> io::Result<usize>
    ensures { IfOk result (λ count. count ≤ length text.new) }
{
    let mut length = 0;
    while length < text.len() {
        let more = read_some(input, &mut text[length..])?;
        if more == 0 {
            return Ok(length);
        }
        length += more;
    }
    Ok(length)
}

// What a shell answers for a program that writes to a pipe which nobody reads: 128 and the number of SIGPIPE.
const PIPE_CLOSED: u8 = 141;

// Tells on standard error what went wrong; nobody is left to tell where that fails too.
fn tell(rt: &impl Eprint, stream: &str, error: io::Error) {
    let _ = eprintln!(rt; "battenplum: {stream}: {error}");
}

// Trouble with input or output is told, and has no status of its own.
fn main(rt: HostRuntime) -> ExitCode {
    let mut text = [0u8; TEXT_SIZE];
    let mut page = [0u8; PAGE_SIZE];
    let length = match read_input(rt.stdin(), &mut text) {
        Ok(length) => length,
        Err(error) => {
            tell(&rt, "standard input", error);
            return ExitCode::SUCCESS;
        }
    };
    let printed = report(&text[0..length], &mut page);
    match rt.write_all(&page[0..printed]) {
        Ok(()) => ExitCode::SUCCESS,
        Err(error) if error.kind() == ErrorKind::BrokenPipe => ExitCode::from(PIPE_CLOSED),
        Err(error) => {
            tell(&rt, "standard output", error);
            ExitCode::SUCCESS
        }
    }
}
