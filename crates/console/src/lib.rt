// What the programs share: standard output and standard error as writers of text, the tests for failed input, and the last line on standard error, which says
// how the program ended. If standard error is empty, it succeeded; tools/run turns that line into an exit status.
#![tactic(auto)]

use refusal::Refusal;
use std::fmt;
use std::fmt::Write;
use std::io::{Read, Stdin};

// The file descriptors of the three standard streams.
pub const STDIN: i32 = 0;

pub const STDOUT: i32 = 1;

pub const STDERR: i32 = 2;

fn write_to(stream: i32, text: &[u8]) -> fmt::Result {
    if io::write_all(stream, text) {
        Ok(())
    } else {
        Err(fmt::Error)
    }
}

// Standard output, without a buffer.
#[derive(Clone, Copy)]
pub struct Output;

impl Write for Output {
    fn write_str(&mut self, text: &str) -> fmt::Result {
        write_to(STDOUT, text.as_bytes())
    }
}

// Standard output, without a buffer, for a program that says nothing of failed writes: the output lacks what could not be written, and the rest is written.
#[derive(Clone, Copy)]
pub struct Report;

impl Write for Report {
    fn write_str(&mut self, text: &str) -> fmt::Result {
        let _ = write_to(STDOUT, text.as_bytes());
        Ok(())
    }
}

// Standard error, without a buffer. That a write failed could be told nowhere, so the rest is written.
#[derive(Clone, Copy)]
pub struct Errors;

impl Write for Errors {
    fn write_str(&mut self, text: &str) -> fmt::Result {
        let _ = write_to(STDERR, text.as_bytes());
        Ok(())
    }
}

// Writes bytes that need not be text to standard output.
pub fn put(bytes: &[u8]) -> fmt::Result {
    write_to(STDOUT, bytes)
}

// Writes text to standard error.
pub fn say<D: fmt::Display + Drop>(text: D) {
    let _ = write!(Errors, "{text}");
}

// Why a program ends without success.
#[derive(Clone, Copy, Debug, PartialEq, Eq)]
pub enum Failure {
    // Its input is refused.
    Refused(Refusal),
    // It could not read its input.
    Reading,
    // It could not write its output.
    Writing,
    // Its input is longer than its buffer.
    Longer,
}

impl From<Refusal> for Failure {
    fn from(refusal: Refusal) -> Failure {
        Failure::Refused(refusal)
    }
}

impl From<fmt::Error> for Failure {
    fn from(_error: fmt::Error) -> Failure {
        Failure::Writing
    }
}

// Its line. Here and in the programs' other lines each piece of text, blank and number is a write of its own: where there is room for part of a line alone, the
// pieces decide what comes out.
impl fmt::Display for Failure {
    fn fmt<W: fmt::Write>(&self, f: &mut fmt::Formatter<W>) -> fmt::Result {
        match self {
            Failure::Refused(refusal) => {
                let told = refusal.told();
                f.write_str("refused")?;
                writeln!(f, " {} {} {}", told.number, told.place, told.value)
            }
            Failure::Reading => f.write_str("failed: reading\n"),
            Failure::Writing => f.write_str("failed: writing\n"),
            Failure::Longer => f.write_str("failed: more than 65,536 bytes\n"),
        }
    }
}

// Writes the last line of a program, if it failed.
pub fn end(outcome: Result<(), Failure>) {
    if let Err(failure) = outcome {
        say(failure);
    }
}

// Whether the input has ended without a failure. It reads without a buffer, as `io::read_full` does, and so takes one byte at most.
pub fn ended(mut input: Stdin) -> bool {
    let mut more = [0u8; 1];
    matches!(input.read(&mut more), Ok(0))
}

// Whether the wanted number of bytes was read, or the whole input if it is shorter.
pub fn whole(input: Stdin, count: usize, wanted: usize) -> Result<(), Failure> {
    if wanted <= count || ended(input) {
        Ok(())
    } else {
        Err(Failure::Reading)
    }
}
