// The whole numbers of the MLX90640's pixels: sums of signed fields times powers of two, exactly, and the first pixel with one outside i16.
#![tactic(auto)]

ghost use Rattle.std.specs.Prelude.{◌≡◌, ℕ, ◌+◌, ◌*◌, ◌/◌, ◌%◌, ◌^◌, ◌<◌, ◌≤◌, true, ◌+ℤ◌, pos, length, get_or};
ghost use Rattle.std.specs.Int.Signed.{mag};
ghost use Rattle.floats.specs.Floats.{real, over};
ghost use Rattle.lists.specs.Written.{filled};
ghost use Rattle.util.specs.Words.{word_at};
ghost use Rattle.util.specs.Found.{found_below};
ghost use Rattle.util.specs.Fields.{signed};
ghost use Rattle.sums640.specs.Sums.{pixel_count, scaled, average_bytes, average_at, offset_at, alpha_rest_at, k_ta_sum_at, alpha_at, k_ta_at, outside_at, first_outside};
ghost use Rattle.sums640.specs.Inner.{base_bound, nibble_at, row_from, column_from, shared_count, shared_word, shared_at, Shared};

use map640::Field;

pub const PIXELS: usize = 768;

// How many numbers many pixels share.
pub const SHARED: usize = 116;

// The low bits of a word, signed, times 2^scale.
fn scaled(word: u16, width: u32, scale: u16) -> i32
    requires { (1 ≤ width) × (width ≤ 6) × (scale < 16) }
    ensures { result ≡ scaled width word scale }
{
    let raw = util::i16_from_bits(util::wide(word), width);
    raw as i32 * (1i32 << scale)
}

// A word from its nibble of this index on, the lowest first.
fn from_nibble(word: u16, index: usize) -> u16
    requires { index < 4 }
    ensures { result ≡ word / 2 ^ (4 * index) }
{
    match index {
        0 => word,
        1 => word / 16,
        2 => word / 256,
        _ => word / 4096,
    }
}

// The exact sum of two parts.
fn sum(a: i32, b: i32) -> i32
    requires { (mag a ≤ 16777216) × (mag b ≤ 16777216) }
    ensures { result ≡ a +ℤ b }
{
    a + b
}

// Coefficient `index` of the words from first on, times 2^scale.
fn coefficient(image: &[u8], first: usize, index: usize, scale: u16) -> i32
    requires { (first + index / 4 < 832) × (1664 ≤ length image.now) × (scale < 16) }
    ensures { result ≡ nibble_at (word_at image.now) first index scale }
{
    let word = util::word_at(image, first + index / 4);
    scaled(from_nibble(word, index % 4), 4, scale)
}

// The average.
fn average(image: &[u8], word: usize) -> i32
    requires { (word < 832) × (1664 ≤ length image.now) }
    ensures { result ≡ signed 16 (word_at image.now word) }
{
    let bits = util::word_at(image, word);
    util::i16_from_bits(util::wide(bits), 16) as i32
}

// Average + row, from the word of scales on.
fn row_sum(image: &[u8], first: usize, row: usize) -> i32
    requires { (first ≤ 32) × (row < 24) × (1664 ≤ length image.now) }
    ensures { result ≡ row_from (word_at image.now) first row }
{
    let scales = util::word_at(image, first);
    sum(
        average(image, first + 1),
        coefficient(image, first + 2, row, scales / 256 % 16),
    )
}

fn column(image: &[u8], first: usize, column: usize) -> i32
    requires { (first ≤ 32) × (column < 32) × (1664 ≤ length image.now) }
    ensures { result ≡ column_from (word_at image.now) first column }
{
    let scales = util::word_at(image, first);
    coefficient(image, first + 8, column, scales / 16 % 16)
}

// The byte of a K_Ta average, as the low bits of a word.
fn average_byte(image: &[u8], entry: usize) -> u16
    requires { (entry < 4) × (1664 ≤ length image.now) }
    ensures { result ≡ get_or (average_bytes (word_at image.now)) entry 0 }
{
    match entry {
        0 => util::word_at(image, map640::K_TA_AVERAGE) / 256,
        1 => util::word_at(image, map640::K_TA_AVERAGE),
        2 => util::word_at(image, map640::K_TA_AVERAGE + 1) / 256,
        _ => util::word_at(image, map640::K_TA_AVERAGE + 1),
    }
}

// A K_Ta average, eight bits signed, by the chessboard.
fn k_ta_average(image: &[u8], entry: usize) -> i32
    requires { (entry < 4) × (1664 ≤ length image.now) }
    ensures { result ≡ average_at (word_at image.now) entry }
{
    let byte = average_byte(image, entry);
    util::i16_from_bits(util::wide(byte), 8) as i32
}

// ---- What many pixels share

// The word that a shared number is read from: four rows or columns to a word, two averages.
fn shared_word(index: usize) -> usize
    requires { index < shared_count }
    ensures { result ≡ shared_word index }
{
    if index < 56 {
        return map640::OFFSET_SCALES + 2 + index / 4;
    }
    if index < 112 {
        return map640::ALPHA_SCALES + 2 + (index - 56) / 4;
    }
    map640::K_TA_AVERAGE + (index - 112) / 2
}

// A shared number, by what the map says of its word.
fn shared_at(image: &[u8], index: usize) -> i32
    requires { (index < shared_count) × (1664 ≤ length image.now) }
    ensures { result ≡ shared_at (word_at image.now) index }
{
    let field = map640::field_of(shared_word(index));
    match field {
        Field::OffsetRow => row_sum(image, map640::OFFSET_SCALES, index),
        Field::OffsetColumn => column(image, map640::OFFSET_SCALES, index - 24),
        Field::AlphaRow => row_sum(image, map640::ALPHA_SCALES, index - 56),
        Field::AlphaColumn => column(image, map640::ALPHA_SCALES, index - 80),
        Field::KTaAverage => k_ta_average(image, index - 112),
        _ => 0,
    }
}

// All of them, into the start of a list.
pub fn fill_shared(image: &[u8], shared: &mut [i32])
    requires { (1664 ≤ length image.now) × (shared_count ≤ length shared.old) }
    ensures { Shared (word_at image.now) shared.new }
{
    for index in 0..SHARED {
        shared[index] = shared_at(image, index);
    }
}

// ---- The four whole numbers of a pixel

// A row's and a column's number, from a place of the list on.
fn base(shared: &[i32], from: usize, pixel: usize) -> i32
    requires from_bound { (from ≤ 56) × (pixel < pixel_count) × (shared_count ≤ length shared.now) }
    requires pos_bound { (mag (get_or shared.now (from + pixel / 32) (pos 0)) ≤ 16777216) × (mag (get_or shared.now (from + 24 + pixel % 32) (pos 0)) ≤ 16777216) }
    ensures { result ≡ get_or shared.now (from + pixel / 32) (pos 0) +ℤ get_or shared.now (from + 24 + pixel % 32) (pos 0) }
{
    sum(shared[from + pixel / 32], shared[from + 24 + pixel % 32])
}

fn offset_at(image: &[u8], shared: &[i32], pixel: usize) -> i32
    requires pixel_lt_pixel_count { (pixel < pixel_count) × (1664 ≤ length image.now) × (shared_count ≤ length shared.now) }
    requires shared { Shared (word_at image.now) shared.now }
    ensures { result ≡ offset_at (word_at image.now) pixel }
{
    let scales = util::word_at(image, map640::OFFSET_SCALES);
    let word = util::word_at(image, map640::PIXEL + pixel);
    let rest = scaled(word / 1024, 6, scales % 16);
    sum(base(shared, 0, pixel), rest)
}

fn alpha_rest_at(image: &[u8], pixel: usize) -> i32
    requires { (pixel < pixel_count) × (1664 ≤ length image.now) }
    ensures { result ≡ alpha_rest_at (word_at image.now) pixel }
{
    let scales = util::word_at(image, map640::ALPHA_SCALES);
    let word = util::word_at(image, map640::PIXEL + pixel);
    scaled(word / 16, 6, scales % 16)
}

fn k_ta_sum_at(image: &[u8], shared: &[i32], pixel: usize) -> i32
    requires pixel_lt_pixel_count { (pixel < pixel_count) × (1664 ≤ length image.now) × (shared_count ≤ length shared.now) }
    requires shared { Shared (word_at image.now) shared.now }
    ensures { result ≡ k_ta_sum_at (word_at image.now) pixel }
{
    let scales = util::word_at(image, map640::SCALES);
    let word = util::word_at(image, map640::PIXEL + pixel);
    let rest = scaled(word / 2, 3, scales % 16);
    sum(shared[112 + mlx90640::chessboard_at(pixel)], rest)
}

// ---- Refusal 5

fn outside_at(image: &[u8], shared: &[i32], pixel: usize) -> bool
    requires pixel_lt_pixel_count { (pixel < pixel_count) × (1664 ≤ length image.now) × (shared_count ≤ length shared.now) }
    requires shared { Shared (word_at image.now) shared.now }
    ensures { result ≡ outside_at (word_at image.now) pixel }
{
    if !util::fits_i16(offset_at(image, shared, pixel)) {
        return true;
    }
    if !util::fits_i16(base(shared, 56, pixel)) {
        return true;
    }
    if !util::fits_i16(alpha_rest_at(image, pixel)) {
        return true;
    }
    !util::fits_i16(k_ta_sum_at(image, shared, pixel))
}

// 2^scale.
fn power(scale: u16) -> u32
    requires { scale < 16 }
    ensures { (result ≡ 2 ^ scale) × (result ≤ 32768) }
{
    1u32 << scale
}

// The least bound of an average. A number within a bound b is from -b to b - 1.
fn average_bound(average: u16) -> u32
    ensures { (result ≡ mag (signed 16 average) + 1) × (result ≤ 32768) }
{
    let bits = util::wide(average);
    if bits < 32768 { bits + 1 } else { 65536 - bits }
}

// A bound of average + row + column, whatever rows and columns say.
fn base_bound(scales: u16, average: u16) -> u32
    ensures { (result ≡ base_bound scales average) × (result ≤ 557056) }
{
    let rows = power(scales / 256 % 16);
    let columns = power(scales / 16 % 16);
    average_bound(average) + 8 * rows + 8 * columns
}

// Whether averages and scales alone keep every pixel inside i16, so that no search is needed. False says nothing.
fn mild(image: &[u8]) -> bool
    requires { 1664 ≤ length image.now }
    ensures { result ≡ true → first_outside (word_at image.now) ≡ pixel_count }
{
    let offset_scales = util::word_at(image, map640::OFFSET_SCALES);
    let offset_average = util::word_at(image, map640::OFFSET_SCALES + 1);
    let alpha_scales = util::word_at(image, map640::ALPHA_SCALES);
    let alpha_average = util::word_at(image, map640::ALPHA_SCALES + 1);
    let scales = util::word_at(image, map640::SCALES);
    if base_bound(offset_scales, offset_average) + 32 * power(offset_scales % 16) > 32768 {
        return false;
    }
    if base_bound(alpha_scales, alpha_average) > 32768 {
        return false;
    }
    if 32 * power(alpha_scales % 16) > 32768 {
        return false;
    }
    128 + 4 * power(scales % 16) <= 32768
}

// The first pixel with one of its four whole numbers outside i16, if there is one.
pub fn first_outside(image: &[u8], shared: &[i32]) -> Option<usize>
    requires { (1664 ≤ length image.now) × (shared_count ≤ length shared.now) × Shared (word_at image.now) shared.now }
    ensures { result ≡ found_below pixel_count (first_outside (word_at image.now)) }
{
    if mild(image) {
        return None;
    }
    for pixel in 0..PIXELS {
        if outside_at(image, shared, pixel) {
            return Some(pixel);
        }
    }
    None
}

// ---- The tables

// A pixel's alpha, over a power of two.
fn alpha_at(image: &[u8], shared: &[i32], pixel: usize) -> f32
    requires pixel_lt_pixel_count { (pixel < pixel_count) × (1664 ≤ length image.now) × (shared_count ≤ length shared.now) }
    requires shared { Shared (word_at image.now) shared.now }
    ensures { result ≡ alpha_at (word_at image.now) pixel }
{
    let scales = util::word_at(image, map640::ALPHA_SCALES);
    let sum = base(shared, 56, pixel) as f32 + alpha_rest_at(image, pixel) as f32;
    sum / floats::exp2(30 + scales / 4096 % 16)
}

fn k_ta_at(image: &[u8], shared: &[i32], pixel: usize) -> f32
    requires pixel_lt_pixel_count { (pixel < pixel_count) × (1664 ≤ length image.now) × (shared_count ≤ length shared.now) }
    requires shared { Shared (word_at image.now) shared.now }
    ensures { result ≡ k_ta_at (word_at image.now) pixel }
{
    let scales = util::word_at(image, map640::SCALES);
    k_ta_sum_at(image, shared, pixel) as f32 / floats::exp2(8 + scales / 16 % 16)
}

// Fills the first 768 entries of a table with what `at` answers for their pixels.
fn fill<T: Copy, F: Fn(usize) -> T>(table: &mut [T], at: F)
    requires callable { (pixel : ℕ) → pixel < pixel_count → F.pre at pixel }
    requires in_bounds { pixel_count ≤ length table.old }
    ensures { (value : ℕ → T) → ((pixel : ℕ) (r : T) → pixel < pixel_count → F.post at pixel r → r ≡ value pixel)
        → table.new ≡ filled value pixel_count table.old }
{
    for pixel in 0..PIXELS {
        table[pixel] = at(pixel);
    }
}

// Offsets, alpha and K_Ta, each into the start of its table.
pub fn fill_offsets(image: &[u8], shared: &[i32], table: &mut [i32])
    requires in_bounds { (1664 ≤ length image.now) × (shared_count ≤ length shared.now) × Shared (word_at image.now) shared.now }
    requires pixel_count_in_bounds { pixel_count ≤ length table.old }
    ensures { table.new ≡ filled (offset_at (word_at image.now)) pixel_count table.old }
{
    fill(table, |pixel| offset_at(image, shared, pixel));
}

pub fn fill_alpha(image: &[u8], shared: &[i32], table: &mut [f32])
    requires in_bounds { (1664 ≤ length image.now) × (shared_count ≤ length shared.now) × Shared (word_at image.now) shared.now }
    requires pixel_count_in_bounds { pixel_count ≤ length table.old }
    ensures { table.new ≡ filled (alpha_at (word_at image.now)) pixel_count table.old }
{
    fill(table, |pixel| alpha_at(image, shared, pixel));
}

pub fn fill_k_ta(image: &[u8], shared: &[i32], table: &mut [f32])
    requires in_bounds { (1664 ≤ length image.now) × (shared_count ≤ length shared.now) × Shared (word_at image.now) shared.now }
    requires pixel_count_in_bounds { pixel_count ≤ length table.old }
    ensures { table.new ≡ filled (k_ta_at (word_at image.now)) pixel_count table.old }
{
    fill(table, |pixel| k_ta_at(image, shared, pixel));
}
