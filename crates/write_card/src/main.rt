// Writes a card from text: 832 lines, that of word 0 first. A line begins with a number, decimal or 0x and hexadecimal: the data of a checked word, or an
// unchecked word as it is. The image goes to standard output.
// Standard error has `refused line` and the line's number, from 1 on, for a line that is not a word, a line past 832, or data above 2047; `refused` with
// number, place and value for any other refusal; and `failed: reading` or `failed: writing` if that fails. In all these cases no byte goes to standard
// output. A text of 65,536 bytes or more is refused by the number of the line that byte 65,536 is in.
#![tactic(auto)]

mod text;

ghost use Rattle.std.specs.Prelude.{◌≤◌, MatchResult};

use console::Failure;
use listing::{CHECKED_WORDS, UNCHECKED_WORDS};
use map::{IMAGE_BYTES, WORDS};
use refusal::Refusal;
use std::fmt;
use std::io::Stdin;

// Why no card is written.
#[derive(Clone, Copy, Debug, PartialEq, Eq)]
enum Stop {
    // A line that is not a word, or is too many.
    Line(u64),
    // Data of a line that do not fit a chip word.
    Data { line: u64, data: u16 },
    Failed(Failure),
}

impl From<Failure> for Stop {
    fn from(failure: Failure) -> Stop {
        Stop::Failed(failure)
    }
}

impl From<fmt::Error> for Stop {
    fn from(error: fmt::Error) -> Stop {
        Stop::Failed(Failure::from(error))
    }
}

// Data that are too large are refused by their line, anything else as it is.
impl From<Refusal> for Stop {
    fn from(refusal: Refusal) -> Stop {
        match refusal {
            Refusal::ListedDataTooLarge { index, data } => Stop::Data {
                line: line_of(index as u64),
                data,
            },
            _ => Stop::Failed(Failure::Refused(refusal)),
        }
    }
}

impl fmt::Display for Stop {
    fn fmt<W: fmt::Write>(&self, f: &mut fmt::Formatter<W>) -> fmt::Result {
        match self {
            Stop::Line(line) => {
                f.write_str("refused line")?;
                writeln!(f, " {line}")
            }
            Stop::Data { line, data } => {
                f.write_str("refused line")?;
                write!(f, " {line}")?;
                f.write_str(": data")?;
                write!(f, " {data} is above 2047\n")
            }
            Stop::Failed(failure) => write!(f, "{failure}"),
        }
    }
}

// The number of entries filled in each list. The lists have fixed memory, so what is filled is counted beside them: a text may have fewer lines.
#[derive(Clone, Copy, Debug, PartialEq, Eq)]
struct Filled {
    data: usize,
    others: usize,
}

// Appends a word to its list, if that has room.
fn put(filled: Filled, checked: bool, word: u16, data: &mut [u16], others: &mut [u16]) -> Filled {
    let Filled {
        data: index,
        others: other,
    } = filled;
    if checked {
        if index < data.len() {
            data[index] = word;
            return Filled {
                data: index + 1,
                others: other,
            };
        }
    } else if other < others.len() {
        others[other] = word;
        return Filled {
            data: index,
            others: other + 1,
        };
    }
    filled
}

// The number of lines read, and the number of entries filled in the lists.
#[derive(Clone, Copy, Debug, PartialEq, Eq)]
struct Lines {
    count: usize,
    filled: Filled,
}

// The number, from 1 on, of the first line that is not a word or is too many.
#[derive(Clone, Copy, Debug, PartialEq, Eq)]
struct RefusedLine {
    line: usize,
}

impl From<RefusedLine> for Stop {
    fn from(refused: RefusedLine) -> Stop {
        Stop::Line(refused.line as u64)
    }
}

// Reads the words of all lines.
fn read_lines(text: &[u8], data: &mut [u16], others: &mut [u16]) -> Result<Lines, RefusedLine>
    ensures { MatchResult result (λ lines. lines.count ≤ 832) (λ refused. (1 ≤ refused.line) × (refused.line ≤ 833)) }
{
    let mut start: usize = 0;
    let mut filled = Filled { data: 0, others: 0 };
    for count in 0..WORDS {
        if text.len() <= start {
            return Ok(Lines { count, filled });
        }
        let line = text::line_at(text, start);
        let Some(word) = line.word else {
            return Err(RefusedLine { line: count + 1 });
        };
        filled = put(filled, map::is_checked(count), word, data, others);
        start = line.next;
    }
    if start < text.len() {
        return Err(RefusedLine { line: WORDS + 1 });
    }
    Ok(Lines {
        count: WORDS,
        filled,
    })
}

// Returns the first `count` entries of a list, or all of it if it is shorter.
fn firsts(list: &[u16], count: usize) -> &[u16] {
    let end = count.min(list.len());
    &list[..end]
}

// Returns the number, from 1 on, of the line of a data entry: the data are words 16 to 18 and those from 21 on.
fn line_of(index: u64) -> u64 {
    match index {
        0..=2 => index + 17,
        3..=813 => index + 19,
        _ => 0,
    }
}

// Writes the card of two lists.
fn write_lists(data: &[u16], others: &[u16]) -> Result<(), Stop> {
    let mut image = [0u8; IMAGE_BYTES];
    writer::write(data, others, &mut image)?;
    console::put(&image)?;
    Ok(())
}

// Writes the card of a text. `cut` says that the text filled the buffer.
fn write_text(text: &[u8], cut: bool) -> Result<(), Stop> {
    let mut data = [0u16; CHECKED_WORDS];
    let mut others = [0u16; UNCHECKED_WORDS];
    let lines = read_lines(text, &mut data, &mut others)?;
    if cut {
        return Err(Stop::Line(lines.count as u64));
    }
    let filled = lines.filled;
    write_lists(firsts(&data, filled.data), firsts(&others, filled.others))
}

fn run(input: Stdin) -> Result<(), Stop> {
    let mut buffer = io::large_buffer();
    let n = io::read_full(console::STDIN, &mut buffer);
    let room = buffer.len();
    console::whole(input, n, room)?;
    write_text(&buffer[..n], n == room)
}

fn main(rt: HostRuntime) {
    if let Err(stop) = run(rt.stdin()) {
        console::say(stop);
    }
}
