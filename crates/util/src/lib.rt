// Words and their fields: big-endian words, signed fields of any width, combined words, words split in two; and the lesser of two lengths.
#![tactic(auto)]

ghost use Rattle.std.specs.Prelude.{◌≡◌, min, ◌+◌, ◌*◌, ◌/◌, ◌%◌, ◌<◌, ◌≤◌, ◌-ℤ◌, length, set};
ghost use Rattle.std.specs.Int.Signed.{mag};
ghost use Rattle.util.specs.Words.{big_endian, swapped, word_at};
ghost use Rattle.util.specs.Fields.{signed, combined, pair_of, in_i16};

// A word split into its upper and its lower bits.
#[derive(Clone, Copy)]
pub struct Pair {
    pub upper: u16,
    pub lower: u16,
}

// The word of two bytes, the high one first.
pub fn big_endian(high: u8, low: u8) -> u16
    ensures { result ≡ big_endian high low }
{
    high as u16 * 256 + low as u16
}

// Word number `index` of the bytes, which must be long enough to contain it.
pub fn word_at(bytes: &[u8], index: usize) -> u16
    requires { index * 2 + 1 < length bytes.now }
    ensures { result ≡ word_at bytes.now index }
{
    let high = index * 2;
    let low = high + 1;
    big_endian(bytes[high], bytes[low])
}

// Word number `index` with its two bytes exchanged. Reading them in this order lets a compiler for x86-64 make a single load.
fn swapped_at(bytes: &[u8], index: usize) -> u16
    requires { index * 2 + 1 < length bytes.now }
    ensures { swapped result ≡ word_at bytes.now index }
{
    let high = index * 2;
    let low = high + 1;
    big_endian(bytes[low], bytes[high])
}

// Returns the same as `word_at`, by a single load: quicker in a loop over many words, slower if a byte of the word has just been stored.
pub fn word_by_one_load(bytes: &[u8], index: usize) -> u16
    requires { index * 2 + 1 < length bytes.now }
    ensures { result ≡ word_at bytes.now index }
{
    let word = swapped_at(bytes, index);
    big_endian((word % 256) as u8, (word / 256) as u8)
}

// Writes a word, high byte first, as word number `index` of the bytes, which must be long enough.
pub fn put_word(bytes: &mut [u8], index: usize, word: u16)
    requires { index * 2 + 1 < length bytes.old }
    ensures { bytes.new ≡ set (set bytes.old (index * 2) (word / 256)) (index * 2 + 1) (word % 256) }
{
    let high = index * 2;
    let low = high + 1;
    bytes[high] = (word / 256) as u8;
    bytes[low] = (word % 256) as u8;
}

// The word as a u32.
pub fn wide(word: u16) -> u32
    ensures { result ≡ word }
{
    word as u32
}

// The low `num_bits` bits of a word as a two's complement number.
pub fn i16_from_bits(word: u32, num_bits: u32) -> i16
    requires { (1 ≤ num_bits) × (num_bits ≤ 16) }
    ensures { result ≡ signed num_bits word }
{
    let full = 1u32 << num_bits;
    let low = word % full;
    if low < full / 2 {
        low as i16
    } else {
        -1 - (full - 1 - low) as i16
    }
}

// Combines two words: the upper times 32, OR the lower. A lower word above 31 overlaps and does not carry.
pub fn combine(upper: u16, lower: u16) -> u32
    ensures { result ≡ combined upper lower }
{
    upper as u32 * 32 | lower as u32
}

// Splits a word into its low `low_bits` bits and the bits above them.
pub fn split(word: u16, low_bits: u32) -> Pair
    requires { low_bits < 16 }
    ensures { result ≡ pair_of low_bits word }
{
    Pair {
        upper: word >> low_bits,
        lower: word % (1 << low_bits),
    }
}

// Whether the number fits an i16.
pub fn fits_i16(z: i32) -> bool
    ensures { result ≡ in_i16 z }
{
    if z < -32768 {
        return false;
    }
    z <= 32767
}

// The exact difference a - b.
pub fn difference(a: i16, b: i16) -> i32
    ensures { (result ≡ a -ℤ b) × (mag result ≤ 65536) }
{
    a as i32 - b as i32
}

// The lesser of two lengths.
pub fn least(a: usize, b: usize) -> usize
    ensures { result ≡ min a b }
{
    if a < b { a } else { b }
}
