// A card in pieces: events, one after another, on one reading, one image and five tables.
use crate::loads;
use crate::loads::Tables;
use reader::{Answer, Image, Reading};
use stream::{Differs, Expected};

// An upper bound on the number of events of a case.
const MOST_EVENTS: usize = 65536;

// An event of a case. Its byte begins it.
#[derive(Clone, Copy, Debug, PartialEq, Eq)]
enum Event {
    Take,
    Finish,
    Ask,
    Look,
    Set,
}

// The event that begins there, if its byte is an event's.
fn event_at(input: &[u8], at: usize) -> Option<Event> {
    match stream::byte_at(input, at) {
        0 => Some(Event::Take),
        1 => Some(Event::Finish),
        2 => Some(Event::Ask),
        3 => Some(Event::Look),
        4 => Some(Event::Set),
        _ => None,
    }
}

// Where the next event stands, the reading, and what its calls are given.
#[derive(Clone, Copy)]
struct Turn {
    at: usize,
    reading: Reading,
    range: usize,
    lengths: [usize; 5],
}

fn first_turn() -> Turn {
    Turn {
        at: 0,
        reading: reader::new(),
        range: map::BASIC_RANGE,
        lengths: [map::PIXELS; 5],
    }
}

fn same_answer(expected: &mut Expected, answer: Answer) -> Result<(), Differs> {
    expected.same_flag(answer.is_none())?;
    match answer {
        Some(loaded) => loads::same_loaded(expected, loaded),
        None => Ok(()),
    }
}

// The turn after an event of so many bytes.
fn turned(turn: Turn, size: usize, reading: Reading) -> Turn {
    let lengths = turn.lengths;
    Turn {
        at: stream::after(turn.at, size),
        reading,
        range: turn.range,
        lengths,
    }
}

fn take(
    input: &[u8],
    expected: &mut Expected,
    turn: Turn,
    image: &mut Image,
    tables: &mut Tables,
) -> Result<Turn, Differs> {
    let size = stream::size_at(input, stream::after(turn.at, 1));
    let lengths = turn.lengths;
    let taken = reader::take(
        image,
        turn.reading,
        stream::bytes(input, stream::after(turn.at, 3), size),
        turn.range,
        stream::first_mut(&mut tables.offsets0, lengths[0]),
        stream::first_mut(&mut tables.offsets1, lengths[1]),
        stream::first_mut(&mut tables.alpha, lengths[2]),
        stream::first_mut(&mut tables.k_v, lengths[3]),
        stream::first_mut(&mut tables.k_ta, lengths[4]),
    );
    same_answer(expected, taken.answer)?;
    Ok(turned(turn, stream::after(size, 3), taken.reading))
}

fn finish(expected: &mut Expected, turn: Turn) -> Result<Turn, Differs> {
    let reading = reader::finished(turn.reading);
    same_answer(expected, reading.answer)?;
    Ok(turned(turn, 1, reading))
}

fn ask(expected: &mut Expected, turn: Turn) -> Result<Turn, Differs> {
    let reading = turn.reading;
    expected.same_size(reading.count)?;
    same_answer(expected, reading.answer)?;
    Ok(turned(turn, 1, reading))
}

fn look(
    expected: &mut Expected,
    turn: Turn,
    image: &Image,
    tables: &Tables,
) -> Result<Turn, Differs> {
    loads::same_tables(expected, tables)?;
    expected.all_same(image)?;
    Ok(turned(turn, 1, turn.reading))
}

fn set(input: &[u8], turn: Turn) -> Turn {
    let given = stream::rest(input, turn.at);
    Turn {
        at: stream::after(turn.at, 19),
        reading: turn.reading,
        range: stream::long_at(given, 1) as usize,
        lengths: [
            stream::size_at(given, 9),
            stream::size_at(given, 11),
            stream::size_at(given, 13),
            stream::size_at(given, 15),
            stream::size_at(given, 17),
        ],
    }
}

fn after_event(
    input: &[u8],
    expected: &mut Expected,
    turn: Turn,
    image: &mut Image,
    tables: &mut Tables,
) -> Result<Turn, Differs> {
    match event_at(input, turn.at) {
        Some(Event::Take) => take(input, expected, turn, image, tables),
        Some(Event::Finish) => finish(expected, turn),
        Some(Event::Ask) => ask(expected, turn),
        Some(Event::Look) => look(expected, turn, image, tables),
        Some(Event::Set) => Ok(set(input, turn)),
        None => Err(Differs),
    }
}

// The number of bytes that an event takes, or none if there is no such event.
fn event_size(input: &[u8], at: usize) -> Option<usize> {
    let size = match event_at(input, at)? {
        Event::Take => stream::after(stream::size_at(input, stream::after(at, 1)), 3),
        Event::Finish | Event::Ask | Event::Look => 1,
        Event::Set => 19,
    };
    Some(size)
}

// Whether there is an event for each byte that begins one.
fn are_events(input: &[u8]) -> bool {
    let mut at = 0;
    for _ in 0..MOST_EVENTS {
        if input.len() <= at {
            break;
        }
        let Some(size) = event_size(input, at) else {
            return false;
        };
        at = stream::after(at, size);
    }
    true
}

// Nothing agrees if an event is unknown.
pub fn pieces(input: &[u8], expected: &mut Expected) -> Result<(), Differs> {
    if !are_events(input) {
        return Err(Differs);
    }
    let mut image = [77u8; 1664];
    let mut tables = loads::tables_before();
    let mut turn = first_turn();
    for _ in 0..MOST_EVENTS {
        if input.len() <= turn.at {
            break;
        }
        turn = after_event(input, expected, turn, &mut image, &mut tables)?;
    }
    Ok(())
}
