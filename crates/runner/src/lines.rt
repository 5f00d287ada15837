// The lines that the runner writes. What cannot be written is missing in the output, which shows it.
use console::Report;
use std::fmt;
use std::fmt::Write;
use stream::Kind;

// How many cases of a kind were run, and how many of them agree.
#[derive(Clone, Copy, Debug, PartialEq, Eq)]
pub struct Tally {
    pub cases: u64,
    pub agree: u64,
}

impl Tally {
    pub fn count(&mut self, same: bool) {
        self.cases = self.cases.wrapping_add(1);
        self.agree = self.agree.wrapping_add(u64::from(same));
    }
}

// The first case that does not agree, by its number, counted from 1.
#[derive(Clone, Copy, Debug, PartialEq, Eq)]
pub enum First {
    // The stream ends within it, or its kind is unknown.
    Cut {
        number: u64,
    },
    // The length of its name, and the number of bytes of its answer that agree.
    Case {
        number: u64,
        kind: Kind,
        name: usize,
        agreed: usize,
    },
}

// Text of at most 32 bytes; what is longer is cut. It holds the name of a kind, of 29 bytes at most, which is written at once.
#[derive(Clone, Copy)]
struct Name {
    bytes: [u8; 32],
    length: usize,
}

impl Write for Name {
    fn write_str(&mut self, text: &str) -> fmt::Result {
        for byte in text.as_bytes() {
            if let Some(place) = self.bytes.get_mut(self.length) {
                *place = *byte;
                self.length += 1;
            }
        }
        Ok(())
    }
}

// Writes the name of a kind.
fn put_name(kind: Kind) -> fmt::Result {
    let mut name = Name {
        bytes: [0; 32],
        length: 0,
    };
    write!(name, "{kind}")?;
    let _ = console::put(stream::bytes(&name.bytes, 0, name.length));
    Ok(())
}

// Writes the line of a kind, but for cameras and frames, which have no answer.
fn kind_line(kind: Kind, tally: Tally) -> fmt::Result {
    match (kind, tally.cases) {
        (Kind::Shelved(_), _) | (_, 0) => Ok(()),
        (_, cases) => {
            put_name(kind)?;
            writeln!(Report, "\t{cases}\tagree\t{}", tally.agree)
        }
    }
}

fn kind_lines(tallies: &[Tally; 64]) -> fmt::Result {
    for number in 0..64u16 {
        if let Ok(kind) = Kind::try_from(number) {
            kind_line(kind, tallies[usize::from(number)])?;
        }
    }
    Ok(())
}

// Writes the name of a kind that has answers to compare; cameras and frames have none.
fn kind_name(kind: Kind) -> fmt::Result {
    match kind {
        Kind::Shelved(_) => Report.write_str("unknown kind"),
        _ => put_name(kind),
    }
}

fn first_line(first: Option<First>, name: &[u8]) -> fmt::Result {
    Report.write_str("first disagreement\t")?;
    match first {
        None => writeln!(Report, "none"),
        Some(First::Cut { number }) => {
            write!(Report, "{number}\tstream")?;
            Report.write_str("\n")
        }
        Some(
            First::Case {
                number,
                kind,
                name: length,
                agreed,
            },
        ) => {
            write!(Report, "{number}\t")?;
            kind_name(kind)?;
            Report.write_str("\t")?;
            let _ = console::put(stream::bytes(name, 0, length));
            writeln!(Report, "\tbyte {agreed}")
        }
    }
}

// Writes the line of each kind, and then that of the first disagreement, whose name `name` begins with.
pub fn write(tallies: &[Tally; 64], first: Option<First>, name: &[u8]) -> fmt::Result {
    kind_lines(tallies)?;
    first_line(first, name)
}
