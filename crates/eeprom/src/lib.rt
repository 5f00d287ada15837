// Loads a card: from its image to a calibration record and five tables, or a refusal that changes nothing. Also two functions that return parts of an
// image and of a table.
#![tactic(auto)]

ghost use Rattle.std.specs.Prelude.{◌≡◌, ℕ, min, ◌<◌, length, OnOk};
ghost use Rattle.lists.specs.Written.{filled};
ghost use Rattle.refusal.specs.Order.{first_of};
ghost use Rattle.hamming.specs.Word.{data_values};
ghost use Rattle.map.specs.Map.{card_words};
ghost use Rattle.card.specs.Card.{data_at, mending_of};
ghost use Rattle.card.specs.Inner.{at};
ghost use Rattle.calibration.specs.Calibration.{calibration_of};
ghost use Rattle.eeprom.specs.Load.{giving, tables, filled_tables, data_tests, load_tests, Loads};
ghost use Rattle.eeprom.specs.Inner.{Passed};
ghost use Rattle.eeprom.specs.Parts.{row_of, first192, offsets_of};

use calibration::Calibration;
use camera::Subpage;
use card::Mending;
use map::{IMAGE_BYTES, PIXELS, RANGES, WORDS, Words};
use offsets::{Offset, SCALES};
use refusal::{Refusal, Verdict};
use tables::K;

// What a load returns if it is not refused: the record; and the number of checked words that are not codewords with the last of them, or 832 if there is none.
#[derive(Clone, Copy)]
pub struct Loaded {
    pub calibration: Calibration,
    pub mending: Mending,
}

// The length of the shortest of five tables.
pub fn shortest_of(offsets0: usize, offsets1: usize, alpha: usize, k_v: usize, k_ta: usize) -> usize
    ensures { result ≡ min (min offsets0 offsets1) (min alpha (min k_v k_ta)) }
{
    util::least(
        util::least(offsets0, offsets1),
        util::least(alpha, util::least(k_v, k_ta)),
    )
}

// Tests for refusals 4, 6 and 13, on the data of a card's words and the basic range.
fn data_gate(words: &Words, basic_range: usize) -> Verdict
    requires { (k : ℕ) → at words.now k < data_values }
    ensures { result ≡ first_of (data_tests (at words.now) basic_range) }
{
    let scale = offsets::offset_scale(words);
    if SCALES <= scale {
        return Err(Refusal::LargeScale { scale });
    }
    if RANGES <= basic_range {
        return Err(Refusal::BasicRange { range: basic_range });
    }
    if let Some(range) = calibration::zero_factor(words, basic_range) {
        return Err(Refusal::ZeroFactor { range });
    }
    Ok(())
}

// Runs all tests of a load, lowest refusal number first. If all pass, `words` has the data of the card's words, and the mended words are counted.
fn gate(
    image: &[u8],
    basic_range: usize,
    table: usize,
    words: &mut Words,
) -> Result<Mending, Refusal>
    requires { length words.old ≡ card_words }
    ensures value { result ≡ giving (first_of (load_tests image.now basic_range table)) (mending_of image.now) }
    ensures words_after { OnOk result (words.new ≡ filled (data_at image.now) card_words words.old) }
{
    let length = image.len();
    if length < IMAGE_BYTES {
        return Err(Refusal::ShortImage { length });
    }
    if table < PIXELS {
        return Err(Refusal::ShortTable);
    }
    let decoded = card::decode(image, words);
    if let Some(word) = decoded.damaged {
        let bits = util::word_at(image, word);
        return Err(Refusal::DamagedWord { word, bits });
    }
    data_gate(words, basic_range)?;
    Ok(decoded.mending)
}

// Fills the five tables and returns the record, from the data of words that passed the gate.
fn fill_all(
    words: &Words,
    basic_range: usize,
    offsets0: &mut [Offset],
    offsets1: &mut [Offset],
    alpha: &mut [f32],
    k_v: &mut [f32],
    k_ta: &mut [f32],
) -> Calibration
    requires { Passed (at words.now) basic_range (tables offsets0.old offsets1.old alpha.old k_v.old k_ta.old) }
    ensures value { result ≡ calibration_of (at words.now) basic_range }
    ensures k_ta_after { tables offsets0.new offsets1.new alpha.new k_v.new k_ta.new
        ≡ filled_tables (at words.now) (tables offsets0.old offsets1.old alpha.old k_v.old k_ta.old) }
{
    offsets::fill_offsets(words, 0, offsets0);
    offsets::fill_offsets(words, PIXELS, offsets1);
    tables::fill_alpha(words, alpha);
    tables::fill_k(words, K::KV, k_v);
    tables::fill_k(words, K::KTa, k_ta);
    calibration::read_calibration(words, basic_range)
}

// Loads a card: fills the first 192 entries of each table and returns the record. The range coefficients start at the basic range. All tests are
// complete before the first entry is written.
pub fn load(
    image: &[u8],
    basic_range: usize,
    offsets0: &mut [Offset],
    offsets1: &mut [Offset],
    alpha: &mut [f32],
    k_v: &mut [f32],
    k_ta: &mut [f32],
) -> Result<Loaded, Refusal>
    ensures { Loads image.now basic_range (tables offsets0.old offsets1.old alpha.old k_v.old k_ta.old)
        (tables offsets0.new offsets1.new alpha.new k_v.new k_ta.new) result }
{
    let table = shortest_of(
        offsets0.len(),
        offsets1.len(),
        alpha.len(),
        k_v.len(),
        k_ta.len(),
    );
    let mut words = [0u16; WORDS];
    let mending = gate(image, basic_range, table, &mut words)?;
    let calibration = fill_all(&words, basic_range, offsets0, offsets1, alpha, k_v, k_ta);
    Ok(Loaded {
        calibration,
        mending,
    })
}

// Returns the 64 bytes of a row of alpha as a part of the image; an empty part if the row is above 5 or the image is too short.
pub fn alpha_row(image: &[u8], row: usize) -> &[u8]
    ensures { result.now ≡ row_of image.now row }
{
    if 5 < row {
        return &image[0..0];
    }
    if image.len() < IMAGE_BYTES {
        return &image[0..0];
    }
    let start = 512 + row * 64;
    let end = start + 64;
    &image[start..end]
}

// Returns the first 192 entries of a table, or an empty part if it is shorter.
fn first_192(table: &[Offset]) -> &[Offset]
    ensures { result.now ≡ first192 table.now }
{
    if table.len() < PIXELS {
        &table[0..0]
    } else {
        &table[0..PIXELS]
    }
}

// Returns the 192 offsets of a subpage as a part of its table; an empty part if the table is shorter.
pub fn subpage_offsets<'a>(zero: &'a [Offset], one: &'a [Offset], subpage: Subpage) -> &'a [Offset]
    ensures { result.now ≡ offsets_of zero.now one.now subpage }
{
    match subpage {
        Subpage::Zero => first_192(zero),
        Subpage::One => first_192(one),
    }
}
