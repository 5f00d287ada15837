// Reads a card from standard input, mends it in place and writes it to standard output, bytes past 1,664 unchanged. Standard error has a line for each word
// that was mended, then for each that is damaged and unchanged, and a last line with the outcome: `clean`; `mended` and their number; `damaged` and the
// numbers of damaged and of mended words; `refused` with number, place and value; or `failed: reading`, `failed: writing` or `failed: more than 65,536
// bytes`. If the card is refused or reading failed, nothing is written to standard output.
#![tactic(auto)]

use console::Failure;
use listing::CHECKED_WORDS;
use scrub::Counts;
use std::fmt;
use std::io::Stdin;

// The outcome of a scrub, as its last line says.
#[derive(Clone, Copy, Debug, PartialEq, Eq)]
enum Outcome {
    Clean,
    Mended(usize),
    Damaged { damaged: usize, mended: usize },
}

impl From<Counts> for Outcome {
    fn from(counts: Counts) -> Outcome {
        match (counts.damaged, counts.changed) {
            (0, 0) => Outcome::Clean,
            (0, mended) => Outcome::Mended(mended),
            (damaged, mended) => Outcome::Damaged { damaged, mended },
        }
    }
}

impl fmt::Display for Outcome {
    fn fmt<W: fmt::Write>(&self, f: &mut fmt::Formatter<W>) -> fmt::Result {
        match self {
            Outcome::Clean => f.write_str("clean")?,
            Outcome::Mended(mended) => {
                f.write_str("mended")?;
                write!(f, " {mended}")?
            }
            Outcome::Damaged { damaged, mended } => {
                f.write_str("damaged")?;
                write!(f, " {damaged}")?;
                f.write_str(", mended")?;
                write!(f, " {mended}")?
            }
        }
        f.write_str("\n")
    }
}

// Writes a line for each of the first `count` words of a list; `what` is the line's end.
fn word_lines(list: &[u16], count: usize, what: &str) {
    for word in list.iter().take(count) {
        console::say("word");
        console::say(format_args!(" {word}{what}"));
    }
}

fn scrub_card(card: &mut [u8]) -> Result<(), Failure> {
    let mut changed = [0u16; CHECKED_WORDS];
    let mut damaged = [0u16; CHECKED_WORDS];
    let counts = scrub::scrub(card, &mut changed, &mut damaged)?;
    console::put(card)?;
    word_lines(&changed, counts.changed, " mended\n");
    word_lines(&damaged, counts.damaged, " damaged\n");
    console::say(Outcome::from(counts));
    Ok(())
}

fn run(input: Stdin) -> Result<(), Failure> {
    let mut buffer = io::large_buffer();
    let n = io::read_full(console::STDIN, &mut buffer);
    if console::ended(input) {
        scrub_card(&mut buffer[..n])
    } else if n < buffer.len() {
        Err(Failure::Reading)
    } else {
        Err(Failure::Longer)
    }
}

fn main(rt: HostRuntime) {
    console::end(run(rt.stdin()));
}
