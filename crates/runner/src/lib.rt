// Runs a stream of test cases from standard input. Writes the number of cases of each kind and the number that agree, and the first case that does not.
// docs/CASES.md describes the stream.
#![tactic(auto)]

mod lines;

use lines::{First, Tally};
use stream::{CardCase, Case640, Differs, Expected, Kind, Shelved, UnknownKind};

// A stream also ends at a case with this number in place of a kind.
const END: u16 = 0xFFFF;

// An upper bound on the number of cases in a stream.
const MOST: u64 = 1000000;

// The number of a case's kind, its kind, and the lengths of its name, input and expected answer.
#[derive(Clone, Copy, Debug, PartialEq, Eq)]
struct Head {
    number: u16,
    kind: Kind,
    name: usize,
    input: usize,
    answer: usize,
}

// The stream ends within a case, or a case's kind is unknown.
#[derive(Clone, Copy, Debug, PartialEq, Eq)]
struct Cut;

impl From<UnknownKind> for Cut {
    fn from(_unknown: UnknownKind) -> Cut {
        Cut
    }
}

// Reads name, input and answer, of this length together, which are no longer than `case`.
fn read_rest(length: usize, case: &mut [u8]) -> Result<(), Cut> {
    if io::read_full(console::STDIN, stream::first_mut(case, length)) == length {
        Ok(())
    } else {
        Err(Cut)
    }
}

// Reads the next case, unless the stream has ended.
fn read_case(case: &mut [u8]) -> Result<Option<Head>, Cut> {
    let mut block = [0u8; 12];
    let n = io::read_full(console::STDIN, &mut block);
    if n == 0 {
        return Ok(None);
    }
    if n < 12 {
        return Err(Cut);
    }
    let number = stream::half_at(&block, 0);
    if number == END {
        return Ok(None);
    }
    let name = stream::size_at(&block, 2);
    let input = stream::word_at(&block, 4) as usize;
    let answer = stream::word_at(&block, 8) as usize;
    // A case of an unknown kind is read whole too.
    read_rest(stream::after(name, stream::after(input, answer)), case)?;
    Ok(Some(Head {
        number,
        kind: Kind::try_from(number)?,
        name,
        input,
        answer,
    }))
}

// The shelf holds the camera and the frame that the following cases use. Its first bytes, this many, are for the MLX90641, the rest for the MLX90640.
const SHELF: usize = 8192;

fn shelf_mut(shelf: &mut [u8]) -> &mut [u8] {
    stream::first_mut(shelf, SHELF)
}

fn shelf_640_mut(shelf: &mut [u8]) -> &mut [u8] {
    stream::rest_mut(shelf, SHELF)
}

// Puts a camera or a frame on the shelf for the cases that follow; the record and tables of a load's answer are a camera too.
fn shelve(kind: Kind, shelf: &mut [u8], input: &[u8], answer: &[u8]) {
    match kind {
        Kind::Shelved(Shelved::Camera) => {
            stream::fill(input, 0, frame_cases::camera_mut(shelf_mut(shelf)))
        }
        Kind::Shelved(Shelved::Frame) => {
            stream::fill(input, 0, frame_cases::frame_mut(shelf_mut(shelf)))
        }
        Kind::Card(CardCase::Load) => {
            stream::fill(answer, 32, frame_cases::camera_mut(shelf_mut(shelf)))
        }
        Kind::Shelved(Shelved::Camera640) => {
            stream::fill(input, 0, cases640::camera_mut(shelf_640_mut(shelf)))
        }
        Kind::Shelved(Shelved::Frame640) => {
            stream::fill(input, 0, cases640::frame_mut(shelf_640_mut(shelf)))
        }
        Kind::Bigger(Case640::Load) => {
            stream::fill(answer, 24, cases640::camera_mut(shelf_640_mut(shelf)))
        }
        _ => {}
    }
}

// Makes the call of a case, and compares its result with the expected answer.
fn compare(kind: Kind, shelf: &[u8], input: &[u8], expected: &mut Expected) -> Result<(), Differs> {
    match kind {
        Kind::Shelved(_) => Ok(()),
        Kind::Card(case) => card_cases::compare(case, input, expected),
        Kind::Call(call) => frame_cases::compare(call, shelf, input, expected),
        Kind::Bigger(case) => {
            cases640::compare(case, stream::rest(shelf, SHELF), input, expected)
        }
    }
}

// Runs a case. If its answer does not agree, returns the number of bytes that do.
fn run_case(head: Head, case: &[u8], shelf: &mut [u8]) -> Result<(), usize> {
    let input = stream::bytes(case, head.name, head.input);
    let answer = stream::bytes(case, stream::after(head.name, head.input), head.answer);
    shelve(head.kind, shelf, input, answer);
    let mut expected = Expected::new(answer);
    let compared = compare(head.kind, shelf, input, &mut expected);
    if compared.is_ok() && expected.agreed() == head.answer {
        Ok(())
    } else {
        Err(expected.agreed())
    }
}

// Runs all cases and counts those of each kind. Returns the first that does not agree, and its name in `name`.
fn run_cases(tallies: &mut [Tally; 64], name: &mut [u8]) -> Option<First> {
    let mut case = io::large_buffer();
    let mut shelf = io::large_buffer();
    let mut first = None;
    for before in 0..MOST {
        let number = before + 1;
        let head = match read_case(&mut case) {
            Ok(Some(head)) => head,
            Ok(None) => break,
            Err(Cut) => return first.or(Some(First::Cut { number })),
        };
        let outcome = run_case(head, &case, &mut shelf);
        if let Some(tally) = tallies.get_mut(usize::from(head.number)) {
            tally.count(outcome.is_ok());
        }
        if let (None, Err(agreed)) = (first, outcome) {
            stream::fill(&case, 0, name);
            first = Some(First::Case {
                number,
                kind: head.kind,
                name: head.name,
                agreed,
            });
        }
    }
    first
}

pub fn run() {
    let mut tallies = [Tally { cases: 0, agree: 0 }; 64];
    let mut name = io::buffer();
    let first = run_cases(&mut tallies, &mut name);
    let _ = lines::write(&tallies, first, &name);
}
