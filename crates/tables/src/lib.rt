// The tables with an f32 for each pixel: the sensitivities alpha and the coefficients K_Ta and K_V.
#![tactic(auto)]

ghost use Rattle.std.specs.Prelude.{◌≡◌, ℕ, ◌+◌, ◌<◌, ◌≤◌, pos, length, replicate};
ghost use Rattle.lists.specs.Written.{filled};
ghost use Rattle.floats.specs.Floats.{◌⊗◌, ◌⊘◌, real, over};
ghost use Rattle.floats.specs.Constants.{plus_zero, alpha_full};
ghost use Rattle.hamming.specs.Word.{data_values};
ghost use Rattle.map.specs.declared.Field.{Field};
ghost use Rattle.map.specs.Map.{frame_pixels, word_of};
ghost use Rattle.card.specs.Inner.{at};
ghost use Rattle.tables.specs.Tables.{reference, alpha_at, average_field, raw_of, k_at};
ghost use Rattle.tables.specs.Inner.{basis_of, k_of};

use card::Cursor;
use map::{PIXELS, Words};

// The number of rows of a table, a row being 32 pixels that share a maximum and a scale.
const ROWS: usize = 6;

const ROW_PIXELS: usize = 32;

// The reference of a row: its maximum divided by 2^(scale + 20).
fn reference_of(maximum: u16, scale: u16) -> f32
    requires { scale < data_values }
    ensures { result ≡ over (pos maximum) (scale + 20) }
{
    card::fraction_of(maximum, scale + 20)
}

// Reads the reference of a row. A word holds the scales of two rows, that of the even row in its upper bits.
fn row_reference(words: &Words, row: usize) -> f32
    requires { (row < 6) × ((k : ℕ) → at words.now k < data_values) }
    ensures { result ≡ reference (at words.now) row }
{
    let maximum = Cursor {
        word: map::ROW_MAXIMUM + row,
    }
    .plain(words);
    let scales = Cursor {
        word: map::ROW_SCALE + row / 2,
    }
    .split(words, 5);
    if row % 2 == 0 {
        reference_of(maximum.value, scales.value.upper)
    } else {
        reference_of(maximum.value, scales.value.lower)
    }
}

// Reads the references of the six rows.
fn row_references(words: &Words) -> [f32; ROWS]
    requires { (k : ℕ) → at words.now k < data_values }
    ensures { result ≡ filled (reference (at words.now)) 6 (replicate 6 plus_zero) }
{
    let mut references = [0.0f32; ROWS];
    // The index is also the number of the row that is read; so it is for the pixels below.
    for row in 0..ROWS {
        references[row] = row_reference(words, row);
    }
    references
}

// The sensitivity of a pixel, from its raw alpha and the reference of its row.
fn alpha_of(raw: u16, reference: f32) -> f32
    ensures { result ≡ real (pos raw) ⊘ alpha_full ⊗ reference }
{
    (raw as f32 / 2047.0) * reference
}

// Writes the sensitivities of all pixels to the first 192 entries of a table.
pub fn fill_alpha(words: &Words, table: &mut [f32])
    requires by_index { (k : ℕ) → at words.now k < data_values }
    requires frame_pixels_in_bounds { frame_pixels ≤ length table.old }
    ensures { table.new ≡ filled (alpha_at (at words.now)) frame_pixels table.old }
{
    let references = row_references(words);
    for i in 0..PIXELS {
        table[i] = alpha_of(words[map::ALPHA + i], references[i / ROW_PIXELS]);
    }
}

// Which of a pixel's two coefficients: K_Ta is the upper 6 bits of its word, K_V the lower 5.
#[derive(Clone, Copy, Debug, PartialEq, Eq)]
pub enum K {
    KTa,
    KV,
}

// The values that all pixels share for a coefficient, as f32: the average, 2^scale1 and 2^scale2.
#[derive(Clone, Copy)]
pub struct KBasis {
    pub average: f32,
    pub power1: f32,
    pub power2: f32,
}

// The number of the word with a coefficient's average. The next word has its scales.
fn average_word(which: K) -> usize
    ensures { result ≡ word_of (average_field which) 0 }
{
    match which {
        K::KTa => map::K_TA_AVERAGE,
        K::KV => map::K_V_AVERAGE,
    }
}

// Reads the values that all pixels share for a coefficient.
fn read_k_basis(words: &Words, which: K) -> KBasis
    ensures { result ≡ basis_of (at words.now) which }
{
    let word = average_word(which);
    let average = Cursor { word }.signed(words);
    let scales = average.next.split(words, 5);
    KBasis {
        average: average.value as f32,
        power1: floats::exp2(scales.value.upper),
        power2: floats::exp2(scales.value.lower),
    }
}

// The raw coefficient of a pixel, from its word.
fn raw_of(word: u16, which: K) -> i16
    ensures { result ≡ raw_of which word }
{
    match which {
        K::KTa => util::i16_from_bits(util::wide(word / 32), 6),
        K::KV => util::i16_from_bits(util::wide(word), 5),
    }
}

// The coefficient of a pixel, from its raw coefficient and the shared values.
fn k_of(raw: i16, basis: KBasis) -> f32
    ensures { result ≡ k_of raw basis }
{
    (raw as f32 * basis.power2 + basis.average) / basis.power1
}

// Writes one of the two coefficients of all pixels to the first 192 entries of a table.
pub fn fill_k(words: &Words, which: K, table: &mut [f32])
    requires { frame_pixels ≤ length table.old }
    ensures { table.new ≡ filled (k_at (at words.now) which) frame_pixels table.old }
{
    let basis = read_k_basis(words, which);
    for i in 0..PIXELS {
        table[i] = k_of(raw_of(words[map::K_PIXEL + i], which), basis);
    }
}
