// The words of a card: decodes their data, finds the first damaged word, counts the mended ones, and reads fields from the data by a cursor.
#![tactic(auto)]

ghost use Rattle.std.specs.Prelude.{◌≡◌, true, ◌+◌, ◌*◌, ◌<◌, ◌≤◌, length, pos, IfSome};
ghost use Rattle.lists.specs.Written.{filled};
ghost use Rattle.floats.specs.Floats.{real, over};
ghost use Rattle.util.specs.Fields.{combined};
ghost use Rattle.util.specs.Found.{found_below};
ghost use Rattle.map.specs.Map.{card_words, image_bytes};
ghost use Rattle.card.specs.Card.{data_at, first_damaged, no_mending, mending_below};
ghost use Rattle.card.specs.Inner.{read_of, counted, long, high_at, low_at, Codewords, Clean, FilledOn, plain_at, signed_at, combined_at, split_at, scaled_at, times32_at, fraction_at, real_at};

use hamming::{Checked, DATA_VALUES};
use map::{WORDS, Words};
use util::Pair;

// The first word that is checked as part of a block of words: all words from 21 on are checked, and a block starts at a multiple of 8.
const FIRST_STRETCH: usize = 24;
// The lengths of the blocks, in words: long, middle and short.
const LONG: usize = 160;

const MIDDLE: usize = 32;

const SHORT: usize = 8;

// The number of checked words that are not codewords, and the number of the last such word, or 832 if there is none. `last` is no Option: the C
// interface hands it out as this number.
#[derive(Clone, Copy, Debug, PartialEq, Eq)]
pub struct Mending {
    pub count: usize,
    pub last: usize,
}

// The result of decoding a card: the first damaged word in reading order, if there is one, and the mended words before it.
#[derive(Clone, Copy, Debug, PartialEq, Eq)]
pub struct Decoded {
    pub damaged: Option<usize>,
    pub mending: Mending,
}

// A word of an image as read: its data, and whether it is a checked word that is not a codeword.
#[derive(Clone, Copy, Debug, PartialEq, Eq)]
pub struct Read {
    pub value: u16,
    pub stray: bool,
}

// Reads word number `word` of an image; nothing is read of a damaged word. The data of an unchecked word are 0.
pub fn read_word(image: &[u8], word: usize) -> Option<Read>
    requires { word * 2 + 1 < length image.now }
    ensures { result ≡ read_of image.now word }
{
    if !map::is_checked(word) {
        return Some(Read {
            value: 0,
            stray: false,
        });
    }
    match hamming::check(util::word_at(image, word)) {
        Ok(Checked::Clean(data)) => Some(Read {
            value: data,
            stray: false,
        }),
        Ok(Checked::Mended { data, .. }) => Some(Read {
            value: data,
            stray: true,
        }),
        Err(_) => None,
    }
}

// The `Mending` of no words: a count of 0.
pub fn no_mending() -> Mending
    ensures { result ≡ no_mending }
{
    Mending {
        count: 0,
        last: WORDS,
    }
}

impl Mending {
    // Counts one more word, if it is not a codeword.
    fn with(self, word: usize, stray: bool) -> Mending
        requires { self.count < card_words }
        ensures { result ≡ counted self word stray }
    {
        if stray {
            Mending {
                count: self.count + 1,
                last: word,
            }
        } else {
            self
        }
    }
}

// Writes the high and the low bytes of the n words from `first` on into two arrays.
fn split_bytes(image: &[u8], first: usize, n: usize, high: &mut [u8; LONG], low: &mut [u8; LONG])
    requires { (image_bytes ≤ length image.now) × (first + n ≤ card_words) × (n ≤ long) }
    ensures high_after { high.new ≡ filled (high_at image.now first) n high.old }
    ensures low_after { low.new ≡ filled (low_at image.now first) n low.old }
{
    for i in 0..n {
        let word = util::word_by_one_load(image, first + i);
        high[i] = (word / 256) as u8;
        low[i] = (word % 256) as u8;
    }
}

// Whether the n words from `first` on are all codewords. There is no branch for a word and the bytes are stored in order, so a compiler can process
// 16 words at once.
fn are_codewords(image: &[u8], first: usize, n: usize) -> bool
    requires { (image_bytes ≤ length image.now) × (first + n ≤ card_words) × (n ≤ long) }
    ensures { result ≡ true → Codewords image.now first n }
{
    let mut high = [0u8; LONG];
    let mut low = [0u8; LONG];
    split_bytes(image, first, n, &mut high, &mut low);
    let mut any: u8 = 0;
    for i in 0..n {
        any = any | hamming::not_codeword(high[i], low[i]);
    }
    any == 0
}

// The length of a block of codewords that starts at this word: 160, 32, 8, or none if no such block was found. A block of 160 is tried only at word 32
// and every 160 words after it, so a mended word makes only one long try fail.
fn clean_ahead(image: &[u8], word: usize) -> Option<usize>
    requires { (image_bytes ≤ length image.now) × (word < card_words) }
    ensures { IfSome result (λ n. (0 < n) × Clean image.now word n) }
{
    if word < FIRST_STRETCH {
        return None;
    }
    if word % SHORT != 0 {
        return None;
    }
    if word % LONG == MIDDLE && are_codewords(image, word, LONG) {
        return Some(LONG);
    }
    if word % MIDDLE == 0 && are_codewords(image, word, MIDDLE) {
        return Some(MIDDLE);
    }
    if are_codewords(image, word, SHORT) {
        return Some(SHORT);
    }
    None
}

// Writes the data of the n words from `first` on, which are codewords, into `words`.
fn fill_clean(image: &[u8], first: usize, n: usize, words: &mut Words)
    requires { (image_bytes ≤ length image.now) × Clean image.now first n }
    ensures { FilledOn (data_at image.now) first n words.old words.new }
{
    for i in 0..n {
        let word = first + i;
        words[word] = util::word_by_one_load(image, word) % DATA_VALUES;
    }
}

// The place of a word, if there is such a word.
fn found_at(place: usize) -> Option<usize>
    ensures { result ≡ found_below card_words place }
{
    if place < WORDS { Some(place) } else { None }
}

// Decodes an image up to the first damaged word. Writes the data of all words before it into `words`.
pub fn decode(image: &[u8], words: &mut Words) -> Decoded
    requires { image_bytes ≤ length image.now }
    ensures damaged_value { result.damaged ≡ found_below card_words (first_damaged image.now) }
    ensures mending_value { result.mending ≡ mending_below image.now (first_damaged image.now) }
    ensures words_after { words.new ≡ filled (data_at image.now) (first_damaged image.now) words.old }
{
    let mut mending = no_mending();
    let mut word: usize = 0;
    // A required form (docs/DECISIONS.md): this loop yields the damaged word's place by break, or 832.
    let place = loop {
        if word == WORDS {
            break WORDS;
        }
        if let Some(clean) = clean_ahead(image, word) {
            fill_clean(image, word, clean, words);
            word += clean;
            continue;
        }
        let Some(read) = read_word(image, word) else {
            break word;
        };
        words[word] = read.value;
        mending = mending.with(word, read.stray);
        word += 1;
    };
    Decoded {
        damaged: found_at(place),
        mending,
    }
}

// An unsigned field divided by 2^power.
pub fn fraction_of(value: u16, power: u16) -> f32
    ensures { result ≡ over (pos value) power }
{
    value as f32 / floats::exp2(power)
}

// Two words combined, as f32.
fn combined_real(upper: u16, lower: u16) -> f32
    ensures { result ≡ real (pos (combined upper lower)) }
{
    util::combine(upper, lower) as f32
}

// The number of the word of a card that is read next.
#[derive(Clone, Copy, Debug, PartialEq, Eq)]
pub struct Cursor {
    pub word: usize,
}

// The value of a field, and the cursor after it.
#[derive(Clone, Copy)]
pub struct Field<T> {
    pub value: T,
    pub next: Cursor,
}

impl Cursor {
    // Reads a word's data, unsigned.
    pub fn plain(self, words: &Words) -> Field<u16>
        requires { self.word < card_words }
        ensures { result ≡ plain_at words.now self.word }
    {
        let word = self.word;
        Field {
            value: words[word],
            next: Cursor { word: word + 1 },
        }
    }

    // Reads a word's data as a signed number of 11 bits.
    pub fn signed(self, words: &Words) -> Field<i16>
        requires { self.word < card_words }
        ensures { result ≡ signed_at words.now self.word }
    {
        let word = self.word;
        Field {
            value: util::i16_from_bits(util::wide(words[word]), 11),
            next: Cursor { word: word + 1 },
        }
    }

    // Reads a word's data as a signed number of 11 bits, times 32.
    pub fn times_32(self, words: &Words) -> Field<i16>
        requires { self.word < card_words }
        ensures { result ≡ times32_at words.now self.word }
    {
        let field = self.signed(words);
        Field {
            value: field.value * 32,
            next: field.next,
        }
    }

    // Reads a word's data, unsigned, divided by 2^power.
    pub fn fraction(self, words: &Words, power: u16) -> Field<f32>
        requires { self.word < card_words }
        ensures { result ≡ fraction_at words.now power self.word }
    {
        let field = self.plain(words);
        Field {
            value: fraction_of(field.value, power),
            next: field.next,
        }
    }

    // Reads a word's data as a signed number of 11 bits, divided by 2^power.
    pub fn scaled(self, words: &Words, power: u16) -> Field<f32>
        requires { self.word < card_words }
        ensures { result ≡ scaled_at words.now power self.word }
    {
        let field = self.signed(words);
        Field {
            value: field.value as f32 / floats::exp2(power),
            next: field.next,
        }
    }

    // Reads two words, combined.
    pub fn combined(self, words: &Words) -> Field<u32>
        requires { self.word + 1 < card_words }
        ensures { result ≡ combined_at words.now self.word }
    {
        let upper = self.word;
        let lower = upper + 1;
        Field {
            value: util::combine(words[upper], words[lower]),
            next: Cursor { word: upper + 2 },
        }
    }

    // Reads two words, combined, as f32.
    pub fn real(self, words: &Words) -> Field<f32>
        requires { self.word + 1 < card_words }
        ensures { result ≡ real_at words.now self.word }
    {
        let upper = self.word;
        let lower = upper + 1;
        Field {
            value: combined_real(words[upper], words[lower]),
            next: Cursor { word: upper + 2 },
        }
    }

    // Reads a word split in two, the lower part of `low_bits` bits.
    pub fn split(self, words: &Words, low_bits: u32) -> Field<Pair>
        requires { (self.word < card_words) × (low_bits < 16) }
        ensures { result ≡ split_at words.now low_bits self.word }
    {
        let word = self.word;
        Field {
            value: util::split(words[word], low_bits),
            next: Cursor { word: word + 1 },
        }
    }
}
