// Pixel offsets of both subpages: average + raw × 2^scale.
#![tactic(auto)]

ghost use Rattle.std.specs.Prelude.{◌≡◌, ℕ, ◌+◌, ◌<◌, ◌≤◌, ◌+ℤ◌, length};
ghost use Rattle.std.specs.Int.Signed.{mag};
ghost use Rattle.lists.specs.Written.{filled};
ghost use Rattle.map.specs.Map.{card_words, frame_pixels};
ghost use Rattle.card.specs.Inner.{at};
ghost use Rattle.offsets.specs.Offsets.{entries, scales, offset_scale, offset_average, entry_word, product_of, product_at, offset_at};
ghost use Rattle.offsets.specs.Inner.{basis_of};

use card::Cursor;
use map::{PIXELS, Words};

// The type of a pixel's offset.
pub type Offset = i32;

// The number of accepted scales. With scales 0 to 20 every offset fits its type.
pub const SCALES: u16 = 21;

// The values that all pixel offsets share, from words 16 to 18.
#[derive(Clone, Copy)]
pub struct Basis {
    pub scale: u16,
    pub average: i16,
}

// The average of all pixel offsets, from its two words.
fn offset_average(upper: u16, lower: u16) -> i16
    ensures { result ≡ offset_average upper lower }
{
    util::i16_from_bits(util::combine(upper, lower), 16)
}

// Reads the values that all pixel offsets share.
fn read_basis(words: &Words) -> Basis
    ensures { result ≡ basis_of (at words.now) }
{
    let scale = Cursor {
        word: map::OFFSET_SCALE,
    }
    .split(words, 5);
    let upper = scale.next.plain(words);
    let lower = upper.next.plain(words);
    Basis {
        scale: scale.value.upper,
        average: offset_average(upper.value, lower.value),
    }
}

// Reads the offset scale.
pub fn offset_scale(words: &Words) -> u16
    ensures { result ≡ offset_scale (at words.now) }
{
    read_basis(words).scale
}

// A raw offset, a signed number of 11 bits, times 2^scale.
fn product(raw: u16, scale: u16) -> i32
    requires { scale < scales }
    ensures { result ≡ product_of raw scale }
{
    let raw = util::i16_from_bits(util::wide(raw), 11);
    raw as i32 * (1i32 << scale)
}

// The sum of the average and a product.
fn sum(average: i16, part: i32) -> i32
    requires { mag part ≤ 1073741824 }
    ensures { result ≡ average +ℤ part }
{
    average as i32 + part
}

// The number of the word of an entry. Entry numbers are 192 times the subpage plus the pixel.
fn entry_word(entry: usize) -> usize
    requires { entry < entries }
    ensures { (result ≡ entry_word entry) × (result < card_words) }
{
    if entry < PIXELS {
        map::OFFSET_0 + entry
    } else {
        map::OFFSET_1 + (entry - PIXELS)
    }
}

// The raw offset of an entry, times 2^scale.
fn product_at(words: &Words, basis: Basis, entry: usize) -> i32
    requires { (entry < entries) × (basis ≡ basis_of (at words.now)) × (basis.scale < scales) }
    ensures { (result ≡ product_at (at words.now) entry) × (mag result ≤ 1073741824) }
{
    let word = entry_word(entry);
    product(words[word], basis.scale)
}

// The offset of an entry.
fn offset_at(words: &Words, basis: Basis, entry: usize) -> Offset
    requires { (entry < entries) × (basis ≡ basis_of (at words.now)) × (basis.scale < scales) }
    ensures { result ≡ offset_at (at words.now) entry }
{
    sum(basis.average, product_at(words, basis, entry))
}

// Writes the offsets of 192 entries from `first` on, which are those of a subpage, to the first 192 entries of a table.
pub fn fill_offsets(words: &Words, first: usize, table: &mut [Offset])
    requires words_bound { offset_scale (at words.now) < scales }
    requires first_le_frame_pixels { (first ≤ frame_pixels) × (frame_pixels ≤ length table.old) }
    ensures { table.new ≡ filled (λ k. offset_at (at words.now) (first + k)) frame_pixels table.old }
{
    let basis = read_basis(words);
    // The index is also the number of the pixel whose offset is read.
    for i in 0..PIXELS {
        table[i] = offset_at(words, basis, first + i);
    }
}
