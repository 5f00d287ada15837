// Reads a card into two lists, each in reading order: the data of its checked words, and its unchecked words as they are.
#![tactic(auto)]

ghost use Rattle.std.specs.Prelude.{◌≡◌, ◌+◌, ◌<◌, ◌≤◌, length, get_or, OnOk};
ghost use Rattle.lists.specs.Written.{filled};
ghost use Rattle.refusal.specs.Order.{first_of};
ghost use Rattle.util.specs.Words.{word_at};
ghost use Rattle.map.specs.Map.{card_words, image_bytes, checked_words, checked};
ghost use Rattle.card.specs.Card.{data_at};
ghost use Rattle.listing.specs.Index.{lists, unchecked, unchecked_words, list_index, listed_word};
ghost use Rattle.listing.specs.Read.{read_tests, Reads};
ghost use Rattle.listing.specs.Inner.{kept};

use map::{IMAGE_BYTES, WORDS, Words};
use refusal::{Refusal, Verdict};

// The number of checked words of a card.
pub const CHECKED_WORDS: usize = 814;

// The number of unchecked words of a card.
pub const UNCHECKED_WORDS: usize = 18;

// Stores one word in the list that it belongs to. `before` is the number of checked words before it; returns that number with this word included.
fn keep_word(
    image: &[u8],
    words: &Words,
    word: usize,
    before: usize,
    data: &mut [u16],
    others: &mut [u16],
) -> usize
    requires image_bytes_in_bounds { image_bytes ≤ length image.now }
    requires checked_words_in_bounds { (checked_words ≤ length «data».old) × (unchecked_words ≤ length others.old) }
    requires word_lt_card_words { (word < card_words) × (before ≡ list_index checked word) }
    ensures value { result ≡ list_index checked (word + 1) }
    ensures data_after { «data».new ≡ kept checked word (get_or words.now word 0) «data».old }
    ensures others_after { others.new ≡ kept unchecked word (word_at image.now word) others.old }
{
    if map::is_checked(word) {
        data[before] = words[word];
        before + 1
    } else {
        let index = word - before;
        others[index] = util::word_at(image, word);
        before
    }
}

// Stores all words of an image in their lists. `words` has the data of the checked ones.
fn keep_words(image: &[u8], words: &Words, data: &mut [u16], others: &mut [u16])
    requires image_bytes_in_bounds { image_bytes ≤ length image.now }
    requires checked_words_in_bounds { (checked_words ≤ length «data».old) × (unchecked_words ≤ length others.old) }
    ensures data_after { «data».new ≡ filled (λ k. get_or words.now (listed_word checked k) 0) checked_words «data».old }
    ensures others_after { others.new ≡ filled (λ k. word_at image.now (listed_word unchecked k)) unchecked_words others.old }
{
    let mut before = 0;
    for word in 0..WORDS {
        before = keep_word(image, words, word, before, data, others);
    }
}

// Runs all tests for reading into lists of these lengths, lowest refusal number first. If all pass, `words` has the data of the card's words.
fn read_gate(image: &[u8], data: usize, others: usize, words: &mut Words) -> Verdict
    requires { length words.old ≡ card_words }
    ensures value { result ≡ first_of (read_tests image.now «data» others) }
    ensures words_after { OnOk result (words.new ≡ filled (data_at image.now) card_words words.old) }
{
    let length = image.len();
    if length < IMAGE_BYTES {
        return Err(Refusal::ShortImage { length });
    }
    if data < CHECKED_WORDS {
        return Err(Refusal::ShortTable);
    }
    if others < UNCHECKED_WORDS {
        return Err(Refusal::ShortTable);
    }
    match card::decode(image, words).damaged {
        Some(word) => {
            let bits = util::word_at(image, word);
            Err(Refusal::DamagedWord { word, bits })
        },
        None => Ok(()),
    }
}

// Reads a card: writes the data of its checked words to the first 814 entries of `data` and its unchecked words to the first 18 of `others`, both in
// reading order.
pub fn read_words(image: &[u8], data: &mut [u16], others: &mut [u16]) -> Verdict
    ensures { Reads image.now (lists «data».old others.old) (lists «data».new others.new) result }
{
    let mut words = [0u16; WORDS];
    read_gate(image, data.len(), others.len(), &mut words)?;
    keep_words(image, &words, data, others);
    Ok(())
}
