// Mends a card in place: each checked word with one flipped bit becomes its codeword. Lists the numbers of the words that were changed, and of those
// that are damaged and stay as they are.
#![tactic(auto)]

ghost use Rattle.std.specs.Prelude.{◌≡◌, ◌+◌, ◌*◌, ◌<◌, ◌≤◌, length, set};
ghost use Rattle.refusal.specs.Order.{first_of};
ghost use Rattle.map.specs.Map.{card_words, image_bytes, checked_words};
ghost use Rattle.scrub.specs.Scrub.{lent, counts_of, left_of, scrub_tests, Scrubs};
ghost use Rattle.scrub.specs.Inner.{found_at, word_mended};

use listing::CHECKED_WORDS;
use map::{IMAGE_BYTES, WORDS};
use refusal::{Refusal, Verdict};

// The number of words that were changed, and the number of damaged words.
#[derive(Clone, Copy, Debug, PartialEq, Eq)]
pub struct Counts {
    pub changed: usize,
    pub damaged: usize,
}

// The state in which a word was found. A mended word was one flip from a codeword; a sound one needs no mending.
#[derive(Clone, Copy, Debug, PartialEq, Eq)]
pub enum Found {
    Sound,
    Mended,
    Damaged,
}

// Mends a word of an image if it is one flip from a codeword, and returns what it was.
fn mend_word(image: &mut [u8], word: usize) -> Found
    requires { word * 2 + 1 < length image.old }
    ensures value { result ≡ found_at image.old word }
    ensures image_after { image.new ≡ word_mended image.old word }
{
    let Some(read) = card::read_word(image, word) else {
        return Found::Damaged;
    };
    if read.stray {
        let code = writer::codeword(read.value);
        util::put_word(image, word, code);
        return Found::Mended;
    }
    Found::Sound
}

// Appends a word's number to a list of `count` entries. Returns the new number of entries.
fn note(list: &mut [u16], count: usize, word: usize) -> usize
    requires { (count < length list.old) × (word < card_words) }
    ensures value { result ≡ count + 1 }
    ensures list_after { list.new ≡ set list.old count word }
{
    list[count] = word as u16;
    count + 1
}

// Mends all words of an image, and lists those that it changed and those that are damaged.
fn scrub_words(image: &mut [u8], changed: &mut [u16], damaged: &mut [u16]) -> Counts
    requires image_bytes_in_bounds { image_bytes ≤ length image.old }
    requires checked_words_in_bounds { (checked_words ≤ length changed.old) × (checked_words ≤ length damaged.old) }
    ensures value { result ≡ counts_of image.old }
    ensures damaged_after { lent image.new changed.new damaged.new ≡ left_of (lent image.old changed.old damaged.old) }
{
    let mut mended = 0;
    let mut broken = 0;
    for word in 0..WORDS {
        match mend_word(image, word) {
            Found::Sound => {},
            Found::Mended => mended = note(changed, mended, word),
            Found::Damaged => broken = note(damaged, broken, word),
        }
    }
    Counts {
        changed: mended,
        damaged: broken,
    }
}

// Runs all tests of a scrub of an image and lists of these lengths, lowest refusal number first.
fn gate(image: usize, changed: usize, damaged: usize) -> Verdict
    ensures { result ≡ first_of (scrub_tests image changed damaged) }
{
    if image < IMAGE_BYTES {
        return Err(Refusal::ShortImage { length: image });
    }
    if changed < CHECKED_WORDS {
        return Err(Refusal::ShortTable);
    }
    if damaged < CHECKED_WORDS {
        return Err(Refusal::ShortTable);
    }
    Ok(())
}

// Mends a card in place. Writes the numbers of the words that it changed to the start of `changed`, and of the damaged words, which stay as they are, to
// the start of `damaged`: each once, ascending. A short image is refused by 1, a short list by 2; then nothing changes.
pub fn scrub(image: &mut [u8], changed: &mut [u16], damaged: &mut [u16]) -> Result<Counts, Refusal>
    ensures { Scrubs (lent image.old changed.old damaged.old) (lent image.new changed.new damaged.new) result }
{
    gate(image.len(), changed.len(), damaged.len())?;
    Ok(scrub_words(image, changed, damaged))
}
