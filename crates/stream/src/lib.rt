// Reading the blocks of bytes of a test case: numbers, tables filled from a block, parts of tables, and the comparison of a result with the expected one.
// docs/CASES.md describes the blocks.
#![tactic(auto)]

ghost use Rattle.std.specs.Prelude.{◌≡◌, ◌==◌, ℕ, Bool, List, take, drop, length};
ghost use Rattle.std.specs.Int.{cast_signed, w16, w32};
ghost use Rattle.std.specs.Ordering.{int_eq};
ghost use Rattle.std.specs.Float.{binary32};
ghost use Rattle.std.specs.Float.Ieee.{of_bits, to_bits};
ghost use Rattle.stream.specs.Blocks.{after, byte_at, half_at, word_at, long_at};

mod expected;
mod kinds;

pub use expected::{Differs, Expected};
pub use kinds::{Call, CardCase, Case640, Kind, Pass, RawCall, Shelved, UnknownKind};

// ---- Numbers, upper byte first. Bytes past the end of a block are 0

pub fn after(at: usize, size: usize) -> usize
    ensures { result ≡ after at size }
{
    at.wrapping_add(size)
}

pub fn byte_at(block: &[u8], at: usize) -> u8
    ensures { result ≡ byte_at block.now at }
{
    block.get(at).copied().unwrap_or(0)
}

pub fn half_at(block: &[u8], at: usize) -> u16
    ensures { result ≡ half_at block.now at }
{
    u16::from_be_bytes([byte_at(block, at), byte_at(block, after(at, 1))])
}

pub fn word_at(block: &[u8], at: usize) -> u32
    ensures { result ≡ word_at block.now at }
{
    u32::from(half_at(block, at)) << 16 | u32::from(half_at(block, after(at, 2)))
}

pub fn long_at(block: &[u8], at: usize) -> u64
    ensures { result ≡ long_at block.now at }
{
    u64::from(word_at(block, at)) << 32 | u64::from(word_at(block, after(at, 4)))
}

pub fn size_at(block: &[u8], at: usize) -> usize
    ensures { result ≡ half_at block.now at }
{
    usize::from(half_at(block, at))
}

pub fn short_at(block: &[u8], at: usize) -> i16
    ensures { result ≡ cast_signed w16 (half_at block.now at) }
{
    half_at(block, at).cast_signed()
}

pub fn whole_at(block: &[u8], at: usize) -> i32
    ensures { result ≡ cast_signed w32 (word_at block.now at) }
{
    word_at(block, at).cast_signed()
}

pub fn real_at(block: &[u8], at: usize) -> f32
    ensures { result ≡ of_bits binary32 (word_at block.now at) }
{
    floats::from_bits(word_at(block, at))
}

// A type of number that a block has.
pub trait Number: Copy {
    ghost SIZE: { ℕ };

    // The number at a position of a block.
    ghost number_at: { List ℕ → ℕ → Self };

    // Whether a number stands at a position of a block, bit for bit.
    ghost stands_at: { Self → List ℕ → ℕ → Bool };

    // How many bytes a number takes.
    const SIZE: usize;

    // The number at a position.
    fn at(block: &[u8], at: usize) -> Self
        ensures { result ≡ number_at block.now at };

    // Whether the number at a position is this one, bit for bit.
    fn is_at(self, block: &[u8], at: usize) -> bool
        ensures { result ≡ stands_at self block.now at };
}

impl Number for u8 {
    ghost SIZE = { 1 };

    ghost number_at = { byte_at };

    ghost stands_at = { λ number block at. byte_at block at == number };

    const SIZE: usize = 1;

    fn at(block: &[u8], at: usize) -> u8 {
        byte_at(block, at)
    }

    fn is_at(self, block: &[u8], at: usize) -> bool {
        byte_at(block, at) == self
    }
}

impl Number for u16 {
    ghost SIZE = { 2 };

    ghost number_at = { half_at };

    ghost stands_at = { λ number block at. half_at block at == number };

    const SIZE: usize = 2;

    fn at(block: &[u8], at: usize) -> u16 {
        half_at(block, at)
    }

    fn is_at(self, block: &[u8], at: usize) -> bool {
        half_at(block, at) == self
    }
}

impl Number for u32 {
    ghost SIZE = { 4 };

    ghost number_at = { word_at };

    ghost stands_at = { λ number block at. word_at block at == number };

    const SIZE: usize = 4;

    fn at(block: &[u8], at: usize) -> u32 {
        word_at(block, at)
    }

    fn is_at(self, block: &[u8], at: usize) -> bool {
        word_at(block, at) == self
    }
}

impl Number for u64 {
    ghost SIZE = { 8 };

    ghost number_at = { long_at };

    ghost stands_at = { λ number block at. long_at block at == number };

    const SIZE: usize = 8;

    fn at(block: &[u8], at: usize) -> u64 {
        long_at(block, at)
    }

    fn is_at(self, block: &[u8], at: usize) -> bool {
        long_at(block, at) == self
    }
}

impl Number for i16 {
    ghost SIZE = { 2 };

    ghost number_at = { λ block at. cast_signed w16 (half_at block at) };

    ghost stands_at = { λ number block at. int_eq (cast_signed w16 (half_at block at)) number };

    const SIZE: usize = 2;

    fn at(block: &[u8], at: usize) -> i16 {
        short_at(block, at)
    }

    fn is_at(self, block: &[u8], at: usize) -> bool {
        short_at(block, at) == self
    }
}

impl Number for i32 {
    ghost SIZE = { 4 };

    ghost number_at = { λ block at. cast_signed w32 (word_at block at) };

    ghost stands_at = { λ number block at. int_eq (cast_signed w32 (word_at block at)) number };

    const SIZE: usize = 4;

    fn at(block: &[u8], at: usize) -> i32 {
        whole_at(block, at)
    }

    fn is_at(self, block: &[u8], at: usize) -> bool {
        whole_at(block, at) == self
    }
}

impl Number for f32 {
    ghost SIZE = { 4 };

    ghost number_at = { λ block at. of_bits binary32 (word_at block at) };

    ghost stands_at = { λ number block at. word_at block at == to_bits binary32 number };

    const SIZE: usize = 4;

    fn at(block: &[u8], at: usize) -> f32 {
        real_at(block, at)
    }

    fn is_at(self, block: &[u8], at: usize) -> bool {
        word_at(block, at) == floats::to_bits(self)
    }
}

// Fills a table from a block, beginning at a position.
pub fn fill<T: Number>(block: &[u8], from: usize, table: &mut [T])
    ensures { length table.new ≡ length table.old }
{
    let mut at = from;
    for number in table.iter_mut() {
        *number = T::at(block, at);
        at = after(at, T::SIZE);
    }
}

// ---- Parts: the first n entries, or all if there are fewer; and all from a position on

pub fn first<T>(table: &[T], n: usize) -> &[T]
    ensures { result.now ≡ take n table.now }
{
    let end = n.min(table.len());
    &table[..end]
}

pub fn first_mut<T>(table: &mut [T], n: usize) -> &mut [T]
    ensures { result.now ≡ take n table.old }
{
    let end = n.min(table.len());
    &mut table[..end]
}

pub fn rest<T>(table: &[T], from: usize) -> &[T]
    ensures { result.now ≡ drop from table.now }
{
    let start = from.min(table.len());
    &table[start..]
}

pub fn rest_mut<T>(table: &mut [T], from: usize) -> &mut [T]
    ensures { result.now ≡ drop from table.old }
{
    let start = from.min(table.len());
    &mut table[start..]
}

// Returns at most n bytes, beginning at `from`.
pub fn bytes(block: &[u8], from: usize, n: usize) -> &[u8]
    ensures { result.now ≡ take n (drop from block.now) }
{
    first(rest(block, from), n)
}
