// Reads a card that arrives in pieces of any length. The bytes so far are in an array that the caller lends; the rest of the state is passed by value.
#![tactic(auto)]

ghost use Rattle.std.specs.Prelude.{◌≡◌, ◌<◌};
ghost use Rattle.eeprom.specs.Load.{tables};
ghost use Rattle.reader.specs.Bytes.{Held, held, Keeps, taking, fed};
ghost use Rattle.reader.specs.Calls.{start, judged, judges, after, takes_on, takes, finishes};

use eeprom::Loaded;
use map::{IMAGE_BYTES, PIXELS, WORDS};
use offsets::Offset;
use refusal::{Refusal, Verdict};

// The caller's array, with the bytes so far at its start.
pub type Image = [u8; IMAGE_BYTES];

// The answer of a call: nothing while more bytes are wanted, or the result of a load, which is a refusal or the record of a complete card.
pub type Answer = Option<Result<Loaded, Refusal>>;

// The state of a reading: the number of bytes kept, and its answer so far. The reading has ended when there is an answer.
#[derive(Clone, Copy)]
pub struct Reading {
    pub count: usize,
    pub answer: Answer,
}

// The result of a call: the state of the reading after it, and the answer of this call. The two answers differ only if short tables are refused, which
// does not end the reading.
#[derive(Clone, Copy)]
pub struct Taken {
    pub reading: Reading,
    pub answer: Answer,
}

// The number of bytes kept, and the verdict on their words: the last byte may complete a damaged one.
#[derive(Clone, Copy)]
pub struct Kept {
    pub count: usize,
    pub verdict: Verdict,
}

// The state of a reading before its first byte.
pub fn new() -> Reading
    ensures { result ≡ start }
{
    Reading {
        count: 0,
        answer: None,
    }
}

// Stores one byte after those kept, and checks the word that it completes, if any.
fn one(image: &mut Image, count: usize, byte: u8) -> Kept
    requires { count < 1664 }
    ensures { Keeps image.new result (taking image.old count byte) }
{
    image[count] = byte;
    let next = count + 1;
    if count % 2 == 0 {
        return Kept {
            count: next,
            verdict: Ok(()),
        };
    }
    let word = count / 2;
    let read = card::read_word(image, word);
    if read.is_none() {
        let bits = util::word_at(image, word);
        return Kept {
            count: next,
            verdict: Err(Refusal::DamagedWord { word, bits }),
        };
    }
    Kept {
        count: next,
        verdict: Ok(()),
    }
}

// Stores the bytes of a piece after those kept. No byte is stored after a damaged word, nor past the 1,664 bytes of a card.
fn feed(image: &mut Image, count: usize, piece: &[u8]) -> Kept
    ensures { Keeps image.new result (fed (held image.old count 832) piece.now) }
{
    let mut kept = Kept {
        count,
        verdict: Ok(()),
    };
    for byte in piece {
        if kept.verdict.is_err() {
            return kept;
        }
        if IMAGE_BYTES <= kept.count {
            return kept;
        }
        kept = one(image, kept.count, *byte);
    }
    kept
}

// The answer for the bytes kept: a damaged word is refused; fewer than 1,664 bytes want more; a whole card is loaded into the tables.
fn judge(
    image: &Image,
    kept: Kept,
    basic_range: usize,
    offsets0: &mut [Offset],
    offsets1: &mut [Offset],
    alpha: &mut [f32],
    k_v: &mut [f32],
    k_ta: &mut [f32],
) -> Answer
    ensures { (h : Held) → Keeps image.now kept h → judged result (tables offsets0.new offsets1.new alpha.new k_v.new k_ta.new)
        ≡ judges h basic_range (tables offsets0.old offsets1.old alpha.old k_v.old k_ta.old) }
{
    if let Err(refusal) = kept.verdict {
        return Some(Err(refusal));
    }
    if kept.count < IMAGE_BYTES {
        return None;
    }
    let loaded = eeprom::load(image, basic_range, offsets0, offsets1, alpha, k_v, k_ta);
    Some(loaded)
}

// Takes a piece in a reading that has not ended. Short tables are refused and the piece is not taken; an empty piece changes nothing.
fn take_on(
    image: &mut Image,
    reading: Reading,
    piece: &[u8],
    basic_range: usize,
    offsets0: &mut [Offset],
    offsets1: &mut [Offset],
    alpha: &mut [f32],
    k_v: &mut [f32],
    k_ta: &mut [f32],
) -> Taken
    ensures { after image.new (tables offsets0.new offsets1.new alpha.new k_v.new k_ta.new) result
        ≡ takes_on image.old reading piece.now basic_range (tables offsets0.old offsets1.old alpha.old k_v.old k_ta.old) }
{
    let table = eeprom::shortest_of(
        offsets0.len(),
        offsets1.len(),
        alpha.len(),
        k_v.len(),
        k_ta.len(),
    );
    if table < PIXELS {
        return Taken {
            reading,
            answer: Some(Err(Refusal::ShortTable)),
        };
    }
    if piece.len() == 0 {
        return Taken {
            reading,
            answer: reading.answer,
        };
    }
    let kept = feed(image, reading.count, piece);
    let answer = judge(
        image,
        kept,
        basic_range,
        offsets0,
        offsets1,
        alpha,
        k_v,
        k_ta,
    );
    Taken {
        reading: Reading {
            count: kept.count,
            answer,
        },
        answer,
    }
}

// Takes a piece. A reading that has ended repeats its answer and changes nothing. Short tables are refused and the piece is not taken. With the card's
// last byte the tables are filled, unless the card is refused.
pub fn take(
    image: &mut Image,
    reading: Reading,
    piece: &[u8],
    basic_range: usize,
    offsets0: &mut [Offset],
    offsets1: &mut [Offset],
    alpha: &mut [f32],
    k_v: &mut [f32],
    k_ta: &mut [f32],
) -> Taken
    ensures { after image.new (tables offsets0.new offsets1.new alpha.new k_v.new k_ta.new) result
        ≡ takes image.old reading piece.now basic_range (tables offsets0.old offsets1.old alpha.old k_v.old k_ta.old) }
{
    if reading.answer.is_none() {
        return take_on(
            image,
            reading,
            piece,
            basic_range,
            offsets0,
            offsets1,
            alpha,
            k_v,
            k_ta,
        );
    }
    Taken {
        reading,
        answer: reading.answer,
    }
}

// Tells a reading that no more bytes come: if it has not ended, it ends with refusal 1 and the number of bytes so far. That number is below 1,664 in
// every state that calls have made; a state with 1,664 bytes or more is left as it is.
pub fn finished(reading: Reading) -> Reading
    ensures { result ≡ finishes reading }
{
    let answer = reading.answer;
    let count = reading.count;
    if answer.is_none() {
        if count < IMAGE_BYTES {
            return Reading {
                count,
                answer: Some(Err(Refusal::ShortImage { length: count })),
            };
        }
    }
    reading
}
