// What is special to the MLX90640's card: how its words are split, the access pattern corrections, and the patterns over its 32 by 24 pixels.
// Names follow src/mlx90640/eeprom.rs of the crate mlx9064x. Every public function is total.
#![tactic(auto)]

ghost use Rattle.std.specs.Prelude.{◌≡◌, ◌%◌, ◌≤◌};
ghost use Rattle.util.specs.Fields.{signed};
ghost use Rattle.mlx90640.specs.Words.{six_ten, u4s, i4s};
ghost use Rattle.mlx90640.specs.Corrections.{corrections_of, pattern_of};
ghost use Rattle.mlx90640.specs.Pixels.{interleave_at, chessboard_at, entry_of};

use refusal::Refusal;

pub const WIDTH: usize = 32;

pub const HEIGHT: usize = 24;

pub const NUM_PIXELS: usize = WIDTH * HEIGHT;

// A word split into its upper six bits, signed, and its lower ten, unsigned.
#[repr(C)]
#[derive(Clone, Copy, Debug, PartialEq, Eq)]
pub struct SixTen {
    pub six: i8,
    pub ten: u16,
}

// The access pattern corrections: the factors that the datasheet numbers 3, 2 and 1, in the order of their bits, uppermost first.
#[derive(Clone, Copy)]
pub struct Corrections {
    pub chess_3: f32,
    pub chess_2: f32,
    pub chess_1: f32,
}

// The low `num_bits` bits of a word, at most eight, as a two's complement number.
fn i8_from_bits(word: u16, num_bits: u32) -> i8
    requires { (1 ≤ num_bits) × (num_bits ≤ 8) }
    ensures { result ≡ signed num_bits word }
{
    util::i16_from_bits(util::wide(word), num_bits) as i8
}

// Splits a word into 6 and 10 bits. The caller decides whether the ten are signed.
pub fn word_6_10_split(word: u16) -> SixTen
    ensures { result ≡ six_ten word }
{
    SixTen {
        six: i8_from_bits(word / 1024, 6),
        ten: word % 1024,
    }
}

// The low four bits of a word.
fn u4(word: u16) -> u8
    ensures { result ≡ word % 16 }
{
    (word % 16) as u8
}

// Splits a word into four unsigned nibbles, the uppermost first.
pub fn word_to_u4s(word: u16) -> [u8; 4]
    ensures { result ≡ u4s word }
{
    [u4(word / 4096), u4(word / 256), u4(word / 16), u4(word)]
}

// Splits a word into four signed nibbles, the uppermost first.
pub fn word_to_i4s(word: u16) -> [i8; 4]
    ensures { result ≡ i4s word }
{
    [
        i8_from_bits(word / 4096, 4),
        i8_from_bits(word / 256, 4),
        i8_from_bits(word / 16, 4),
        i8_from_bits(word, 4),
    ]
}

// Reads the corrections from their word. From the top: 5 bits divided by 8, 5 bits by 2 and 6 bits by 16, all signed.
pub fn access_pattern_corrections(word: u16) -> Corrections
    ensures { result ≡ corrections_of word }
{
    Corrections {
        chess_3: i8_from_bits(word / 2048, 5) as f32 / 8.0,
        chess_2: i8_from_bits(word / 64, 5) as f32 / 2.0,
        chess_1: i8_from_bits(word, 6) as f32 / 16.0,
    }
}

// The six-entry pattern that corrects pixels in interleave mode: -A, B, -C, A, -B, C. A negated zero is -0.
pub fn interleave_pattern(corrections: Corrections) -> [f32; 6]
    ensures { result ≡ pattern_of corrections }
{
    let a = corrections.chess_3;
    let b = corrections.chess_2 - corrections.chess_3;
    let c = corrections.chess_2 + corrections.chess_3;
    [-a, b, -c, a, -b, c]
}

// The index in the six-entry pattern for a pixel: an even row uses the first three entries, an odd row the last three.
pub fn interleave_at(pixel: usize) -> usize
    ensures { result ≡ interleave_at pixel }
{
    let half = pixel / WIDTH % 2 * 3;
    match pixel % WIDTH % 4 {
        1 => half + 1,
        3 => half + 2,
        _ => half,
    }
}

// The index in the four-entry chessboard for a pixel: the parity of its row, plus twice that of its column.
pub fn chessboard_at(pixel: usize) -> usize
    ensures { result ≡ chessboard_at pixel }
{
    pixel / WIDTH % 2 + pixel % WIDTH % 2 * 2
}

// Returns `at`, or refusal 14 if there is no such pixel.
fn checked_entry(pixel: usize, at: usize) -> Result<usize, Refusal>
    ensures { result ≡ entry_of pixel at }
{
    if pixel < NUM_PIXELS {
        Ok(at)
    } else {
        Err(Refusal::PixelNumber { pixel })
    }
}

// Returns the index in the six-entry pattern for a pixel, or refusal 14 if there is no such pixel.
pub fn interleave_entry(pixel: usize) -> Result<usize, Refusal>
    ensures { result ≡ entry_of pixel (interleave_at pixel) }
{
    checked_entry(pixel, interleave_at(pixel))
}

// Returns the index in the four-entry chessboard for a pixel, or refusal 14 if there is no such pixel.
pub fn chessboard_entry(pixel: usize) -> Result<usize, Refusal>
    ensures { result ≡ entry_of pixel (chessboard_at pixel) }
{
    checked_entry(pixel, chessboard_at(pixel))
}
