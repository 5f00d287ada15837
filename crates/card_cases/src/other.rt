// Cases of the MLX90640's words and pixels: splits of a word, and a pixel's entry in a pattern.
use mlx90640::Corrections;
use refusal::Refusal;
use stream::{Differs, Expected};

fn same_split(expected: &mut Expected, word: u16) -> Result<(), Differs> {
    let parts = mlx90640::word_6_10_split(word);
    expected.same(i16::from(parts.six))?;
    expected.same(parts.ten)
}

fn same_nibbles(expected: &mut Expected, word: u16) -> Result<(), Differs> {
    expected.all_same(&mlx90640::word_to_u4s(word))?;
    for nibble in mlx90640::word_to_i4s(word) {
        expected.same(i16::from(nibble))?;
    }
    Ok(())
}

fn same_corrections(expected: &mut Expected, corrections: Corrections) -> Result<(), Differs> {
    expected.same(corrections.chess_3)?;
    expected.same(corrections.chess_2)?;
    expected.same(corrections.chess_1)?;
    expected.all_same(&mlx90640::interleave_pattern(corrections))
}

pub fn word(input: &[u8], expected: &mut Expected) -> Result<(), Differs> {
    let word = stream::half_at(input, 0);
    same_split(expected, word)?;
    same_nibbles(expected, word)?;
    same_corrections(expected, mlx90640::access_pattern_corrections(word))
}

// Compares the splits of consecutive words, the first of which and whose number the input gives.
pub fn split(input: &[u8], expected: &mut Expected) -> Result<(), Differs> {
    let mut word = stream::half_at(input, 0);
    for _ in 0..stream::half_at(input, 2) {
        same_split(expected, word)?;
        word = word.wrapping_add(1);
    }
    Ok(())
}

fn same_entry(expected: &mut Expected, entry: Result<usize, Refusal>) -> Result<(), Differs> {
    expected.same_verdict(entry.map(|_| ()))?;
    expected.same_size(entry.unwrap_or(0))
}

pub fn pixel(input: &[u8], expected: &mut Expected) -> Result<(), Differs> {
    let number = stream::long_at(input, 0) as usize;
    same_entry(expected, mlx90640::interleave_entry(number))?;
    same_entry(expected, mlx90640::chessboard_entry(number))
}
