// Reads cards from standard input in pieces, as a bus delivers them, and writes the board's lines for each card.
// A piece is its size, two bytes with the upper one first, and then that number of bytes. Three sizes are commands. 0xFFFF finishes the card, and the next
// one begins. 0xFFFE asks for a line `kept`: the number of bytes kept and, once the reading has ended, its result with the fields of `load`. 0xFFFD is
// followed by two bytes: the basic range and the number of entries of each table, 192 at most, for the rest of this card; until then they are the camera's
// range and 192.
// A piece that is refused without ending the reading has a line `taken`, with the refusal in the fields of `load`. If the input ends within a piece, the
// piece has the bytes that came; at the end of the input a card that has begun is finished. If reading or writing fails, standard error has `failed: reading`
// or `failed: writing`.
#![tactic(auto)]

use console::{Failure, Output};
use eeprom::Loaded;
use map::{BASIC_RANGE, IMAGE_BYTES, PIXELS};
use offsets::Offset;
use reader::{Image, Reading, Taken};
use refusal::Refusal;
use std::fmt;
use std::fmt::Write;
use std::io::Stdin;

// What two bytes say: the size of the piece that follows, or a command.
#[derive(Clone, Copy, Debug, PartialEq, Eq)]
enum Command {
    Take(u16),
    Finish,
    Ask,
    Set,
}

impl From<u16> for Command {
    fn from(word: u16) -> Command {
        match word {
            0xFFFF => Command::Finish,
            0xFFFE => Command::Ask,
            0xFFFD => Command::Set,
            size => Command::Take(size),
        }
    }
}

// The basic range of a card, and the number of entries of each table.
#[derive(Clone, Copy, Debug, PartialEq, Eq)]
struct Settings {
    range: usize,
    table: usize,
}

// The settings where the input ends within them: a range that no camera has, and tables without an entry.
const CUT_OFF: Settings = Settings {
    range: 256,
    table: 0,
};

// A card in progress, whether anything of it has come, the number of its lines written, and its settings.
#[derive(Clone, Copy)]
struct Arrival {
    reading: Reading,
    begun: bool,
    lines: u64,
    settings: Settings,
}

fn next_card() -> Arrival {
    Arrival {
        reading: reader::new(),
        begun: false,
        lines: 0,
        settings: Settings {
            range: BASIC_RANGE,
            table: PIXELS,
        },
    }
}

// Returns the next two bytes, unless the input ends before.
fn next_two() -> Option<[u8; 2]> {
    let mut two = [0u8; 2];
    let n = io::read_full(console::STDIN, &mut two);
    if n < 2 { None } else { Some(two) }
}

fn next_command() -> Option<Command> {
    let two = next_two()?;
    Some(Command::from(u16::from_be_bytes(two)))
}

// Reads the basic range and the tables' length, a byte each, unless the input ends before.
fn next_settings() -> Option<Settings> {
    let [range, table] = next_two()?;
    Some(Settings {
        range: usize::from(range),
        table: usize::from(table),
    })
}

fn take(image: &mut Image, reading: Reading, piece: &[u8], settings: Settings) -> Taken {
    let mut offsets0: [Offset; 192] = [0; 192];
    let mut offsets1: [Offset; 192] = [0; 192];
    let mut alpha = [0.0f32; 192];
    let mut k_v = [0.0f32; 192];
    let mut k_ta = [0.0f32; 192];
    let n = settings.table.min(PIXELS);
    reader::take(
        image,
        reading,
        piece,
        settings.range,
        &mut offsets0[..n],
        &mut offsets1[..n],
        &mut alpha[..n],
        &mut k_v[..n],
        &mut k_ta[..n],
    )
}

// Takes the next piece of the input, as many bytes as fit in `room` or came.
fn take_next(image: &mut Image, reading: Reading, room: &mut [u8], settings: Settings) -> Taken {
    let n = io::read_full(console::STDIN, room);
    take(image, reading, &room[..n], settings)
}

fn kept_line(reading: Reading) -> fmt::Result {
    Output.write_str("kept")?;
    write!(Output, "\t{}", reading.count)?;
    if let Some(loaded) = reading.answer {
        board_lines::answer(loaded)?;
    }
    Output.write_str("\n")
}

fn taken_line(loaded: Result<Loaded, Refusal>) -> fmt::Result {
    Output.write_str("taken")?;
    board_lines::answer(loaded)?;
    Output.write_str("\n")
}

// Writes the lines of a card that has ended, which always has a result.
fn finish(arrival: Arrival) -> fmt::Result {
    if let Some(loaded) = reader::finished(arrival.reading).answer {
        board_lines::load_line(loaded)?;
    }
    board_lines::end_line(arrival.lines.wrapping_add(1))
}

// Returns the card's state after a piece. A piece that is refused while the reading goes on has a line.
fn after(arrival: Arrival, taken: Taken) -> Result<Arrival, fmt::Error> {
    let reading = taken.reading;
    let mut lines = arrival.lines;
    if let (None, Some(loaded)) = (reading.answer, taken.answer) {
        taken_line(loaded)?;
        lines = lines.wrapping_add(1);
    }
    Ok(Arrival {
        reading,
        begun: true,
        lines,
        settings: arrival.settings,
    })
}

// Does what the command says, and returns the card's state after it.
fn step(
    image: &mut Image,
    buffer: &mut [u8; 65536],
    arrival: Arrival,
    command: Command,
) -> Result<Arrival, fmt::Error> {
    let Arrival {
        reading,
        lines,
        settings,
        ..
    } = arrival;
    match command {
        Command::Take(size) => {
            let room = &mut buffer[..usize::from(size)];
            after(arrival, take_next(image, reading, room, settings))
        }
        Command::Finish => {
            finish(arrival)?;
            Ok(next_card())
        }
        Command::Ask => {
            kept_line(reading)?;
            Ok(Arrival {
                reading,
                begun: true,
                lines: lines.wrapping_add(1),
                settings,
            })
        }
        Command::Set => Ok(Arrival {
            reading,
            begun: true,
            lines,
            settings: next_settings().unwrap_or(CUT_OFF),
        }),
    }
}

// Reads pieces and commands until the input ends.
fn read_pieces() -> fmt::Result {
    let mut image = [0u8; IMAGE_BYTES];
    let mut buffer = io::large_buffer();
    let mut arrival = next_card();
    for _ in 0..u64::MAX {
        let Some(command) = next_command() else {
            break;
        };
        arrival = step(&mut image, &mut buffer, arrival, command)?;
    }
    if arrival.begun {
        finish(arrival)?;
    }
    Ok(())
}

fn run(input: Stdin) -> Result<(), Failure> {
    read_pieces()?;
    if console::ended(input) {
        Ok(())
    } else {
        Err(Failure::Reading)
    }
}

fn main(rt: HostRuntime) {
    console::end(run(rt.stdin()));
}
