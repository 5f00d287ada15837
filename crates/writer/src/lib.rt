// Writes a card from two lists, each in reading order: the data of its checked words, and its unchecked words.
#![tactic(auto)]

ghost use Rattle.std.specs.Prelude.{◌≡◌, ◌+◌, ◌*◌, ◌/◌, ◌%◌, ◌<◌, ◌≤◌, length, set};
ghost use Rattle.refusal.specs.Order.{first_of};
ghost use Rattle.hamming.specs.Word.{data_values, encoded};
ghost use Rattle.util.specs.Found.{found_below};
ghost use Rattle.map.specs.Map.{card_words, image_bytes, checked_words, checked};
ghost use Rattle.listing.specs.Index.{lists, list_index};
ghost use Rattle.writer.specs.Write.{word_from, image_from, first_large, write_tests, Writes};
ghost use Rattle.writer.specs.Inner.{Fit};

use hamming::DATA_VALUES;
use listing::{CHECKED_WORDS, UNCHECKED_WORDS};
use map::{IMAGE_BYTES, WORDS};
use refusal::{Refusal, Verdict};

// The codeword of 11 bits of data.
pub fn codeword(data: u16) -> u16
    requires { «data» < data_values }
    ensures { result ≡ encoded «data» }
{
    match hamming::encode(data) {
        Ok(word) => word,
        Err(_) => 0,
    }
}

// The word to write at this word number, from the lists. `before` is the number of checked words before it.
fn word_from(data: &[u16], others: &[u16], word: usize, before: usize) -> u16
    requires fit { Fit (lists «data».now others.now) }
    requires word_lt_card_words { (word < card_words) × (before ≡ list_index checked word) }
    ensures { result ≡ word_from (lists «data».now others.now) word }
{
    if map::is_checked(word) {
        codeword(data[before])
    } else {
        let index = word - before;
        others[index]
    }
}

// The number of checked words up to and including this one, given the number before it.
fn past(word: usize, before: usize) -> usize
    requires { (word < card_words) × (before ≡ list_index checked word) }
    ensures { result ≡ list_index checked (word + 1) }
{
    if map::is_checked(word) {
        before + 1
    } else {
        before
    }
}

// Writes all words of the lists into an image.
fn put_words(image: &mut [u8], data: &[u16], others: &[u16])
    requires fit { Fit (lists «data».now others.now) }
    requires image_bytes_in_bounds { image_bytes ≤ length image.old }
    ensures { image.new ≡ image_from (lists «data».now others.now) image.old }
{
    let mut before = 0;
    for word in 0..WORDS {
        util::put_word(image, word, word_from(data, others, word, before));
        before = past(word, before);
    }
}

// The index of the first of the 814 data values that is above 2047.
fn first_large(data: &[u16]) -> Option<usize>
    requires { length «data».now ≡ checked_words }
    ensures { result ≡ found_below checked_words (first_large «data».now) }
{
    data.iter().position(|&value| DATA_VALUES <= value)
}

// Runs all tests for writing to an image of this length, lowest refusal number first.
fn write_gate(image: usize, data: &[u16], others: &[u16]) -> Verdict
    ensures { result ≡ first_of (write_tests (lists «data».now others.now) image) }
{
    let length = data.len();
    if length != CHECKED_WORDS {
        return Err(Refusal::ListLength { length });
    }
    let length = others.len();
    if length != UNCHECKED_WORDS {
        return Err(Refusal::ListLength { length });
    }
    if image < IMAGE_BYTES {
        return Err(Refusal::ShortTable);
    }
    match first_large(data) {
        Some(index) => {
            let data = data[index];
            Err(Refusal::ListedDataTooLarge { index, data })
        },
        None => Ok(()),
    }
}

// Writes a card, given the data of its 814 checked words and its 18 unchecked words in reading order, to the first 1,664 bytes of an image.
pub fn write(data: &[u16], others: &[u16], image: &mut [u8]) -> Verdict
    ensures { Writes (lists «data».now others.now) image.old image.new result }
{
    write_gate(image.len(), data, others)?;
    put_words(image, data, others);
    Ok(())
}
