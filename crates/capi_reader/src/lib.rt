// Reading a card in pieces, for C and Rust. The calls pass their arguments to the reader; its state as C has it says by a flag whether the reading has ended.
#![tactic(auto)]

ghost use Rattle.std.specs.Prelude.{◌≡◌};
ghost use Rattle.eeprom.specs.Load.{tables};
ghost use Rattle.reader.specs.Calls.{start, finishes};
ghost use Rattle.capi_reader.specs.Border.{ended_of, answer_out, reader_out, reading_in, wanting_out, after, takes_out, finishes_out};

use capi_cards::Load;
use eeprom::Loaded;
use offsets::Offset;
use reader::{Answer, Image, Reading};

// A reading, for C, which has no `Option`: the number of bytes kept, whether it has ended (0 if not), and the result that it ended with. Until then `answer`
// has number 0, no mended word and a record of zeros.
#[repr(C)]
#[derive(Clone, Copy)]
pub struct Reader {
    pub count: usize,
    pub ended: u8,
    pub answer: Load,
}

// The reading after a piece, and the result of the call. While the reading has not ended, number 0 means that more bytes are wanted, and 2 that a table is
// short.
#[repr(C)]
#[derive(Clone, Copy)]
pub struct Taken {
    pub reader: Reader,
    pub answer: Load,
}

// Returns a reader's answer as C has it: while more bytes are wanted, number 0, no mended word and a record of zeros. A function, since a `From` between two
// types of other crates is not this crate's to write. It is inlined, since a call would have the whole answer copied, three times for each piece.
#[inline(always)]
fn answer_out(answer: Answer) -> Load
    ensures { result ≡ answer_out answer }
{
    match answer {
        Some(loaded) => loaded.into(),
        None => Load::from(Ok(Loaded {
            calibration: calibration::no_calibration(),
            mending: card::no_mending(),
        })),
    }
}

// Returns the flag `ended`: 0 if more bytes are wanted.
fn flag(more: bool) -> u8
    ensures { result ≡ ended_of more }
{
    if more { 0 } else { 1 }
}

// A reading as C has it.
impl From<Reading> for Reader {
    ghost from_gives = { λ reading result. result ≡ reader_out reading };

    fn from(reading: Reading) -> Reader {
        let answer = reading.answer;
        Reader {
            count: reading.count,
            ended: flag(answer.is_none()),
            answer: answer_out(answer),
        }
    }
}

// Returns a reading that has not ended, with `count` bytes kept. A function, for the same reason.
fn reading_at(count: usize) -> Reading
    ensures { result ≡ reading_in count }
{
    Reading {
        count,
        answer: None,
    }
}

// Returns what a call gives while more bytes are wanted. A reading in small pieces ends most of its calls here, so it is made of zeros, with no answer to
// convert.
fn wanting(kept: usize) -> Taken
    ensures { result ≡ wanting_out kept }
{
    Taken {
        reader: reading_at(kept).into(),
        answer: answer_out(None),
    }
}

// Returns a reader before its first byte.
#[unsafe(no_mangle)]
pub extern "C" fn loamchalice_reader_new() -> Reader
    ensures { result ≡ reader_out start }
{
    reader::new().into()
}

// Takes a piece of any length; an empty one changes nothing. Refusals 2, 3, 4, 6 and 13; once the reading has ended, its result again. The tables change only
// in the call that completes the card and loads it.
#[unsafe(no_mangle)]
pub extern "C" fn loamchalice_reader_take(
    image: &mut Image,
    reader: Reader,
    piece: &[u8],
    basic_range: usize,
    offsets0: &mut [Offset],
    offsets1: &mut [Offset],
    alpha: &mut [f32],
    k_v: &mut [f32],
    k_ta: &mut [f32],
) -> Taken
    ensures { after image.new (tables offsets0.new offsets1.new alpha.new k_v.new k_ta.new) result
        ≡ takes_out image.old reader piece.now basic_range (tables offsets0.old offsets1.old alpha.old k_v.old k_ta.old) }
{
    let answer = reader.answer;
    if reader.ended == 0 {
        let reading = reading_at(reader.count);
        let taken = reader::take(
            image,
            reading,
            piece,
            basic_range,
            offsets0,
            offsets1,
            alpha,
            k_v,
            k_ta,
        );
        let next = taken.reading;
        let said = taken.answer;
        if next.answer.is_none() && said.is_none() {
            return wanting(next.count);
        }
        return Taken {
            reader: next.into(),
            answer: answer_out(said),
        };
    }
    Taken { reader, answer }
}

// Ends the reading early: refusal 1 with the number of bytes so far. Once the reading has ended, returns it unchanged. A reader with 1,664 bytes or more that
// has not ended, a state that no calls produce, is returned unchanged too.
#[unsafe(no_mangle)]
pub extern "C" fn loamchalice_reader_finished(reader: Reader) -> Reader
    ensures { result ≡ finishes_out reader }
{
    let count = reader.count;
    if reader.ended == 0 {
        let reading = reading_at(count);
        return reader::finished(reading).into();
    }
    reader
}
