// Reads the MLX90640's calibration record: words 48 to 63, and alpha_PTAT from word 16.
#![tactic(auto)]

ghost use Rattle.std.specs.Prelude.{◌≡◌, ◌≤◌, ◌<◌, length};
ghost use Rattle.floats.specs.Floats.{over};
ghost use Rattle.util.specs.Fields.{signed};
ghost use Rattle.util.specs.Words.{word_at};
ghost use Rattle.util.specs.Found.{found_below};
ghost use Rattle.record640.specs.Record.{k_v_dd_of, v_dd25_of, k_v_ptat, k_t_ptat, alpha_ptat_of, whole_of, resolution_of, k_vs, k_v_cp, k_ta_cp, alpha_cp0, alpha_cps, offset_cps_of, k_s_ta, gradient_of, k_s_tos, corners_of, corners_at, coefficients_of, calibration_of, no_calibration};
ghost use Rattle.ranges.specs.Coefficients.{zero_factor};

use camera::signed_over;

// The number of temperature ranges.
pub const RANGES: usize = 4;

// The calibration record of an MLX90640 card. Arrays of two have an entry for each subpage; arrays of four one for each range, but `k_v`.
#[derive(Clone, Copy)]
pub struct Calibration {
    pub k_v_dd: i16,
    pub v_dd_25: i16,
    pub resolution: u8,
    pub k_v_ptat: f32,
    pub k_t_ptat: f32,
    pub v_ptat_25: f32,
    pub alpha_ptat: f32,
    pub gain: f32,
    pub k_s_ta: f32,
    pub corner_temperatures: [i16; 4],
    pub k_s_to: [f32; 4],
    pub range_coefficients: [f32; 4],
    pub alpha_cp: [f32; 2],
    pub offset_reference_cp: [i16; 2],
    pub k_v_cp: f32,
    pub k_ta_cp: f32,
    pub temperature_gradient_coefficient: Option<f32>,
    // K_V, one value for each entry of the chessboard
    pub k_v: [f32; 4],
    // the six-entry pattern that corrects pixels in interleave mode
    pub access_pattern: [f32; 6],
    // the correction of the compensation pixel, in interleave mode and subpage 1
    pub access_cp: f32,
}

// ---- Supply and ambient temperature

// K_VDD: the upper byte of word 51, signed, times 32.
pub fn k_v_dd(word: u16) -> i16
    ensures { result ≡ k_v_dd_of word }
{
    util::i16_from_bits(util::wide(word / 256), 8) * 32
}

// V_DD25: (b - 256) × 32 - 8192, where b is the lower byte of word 51.
pub fn v_dd_25(word: u16) -> i16
    ensures { result ≡ v_dd25_of word }
{
    ((word % 256) as i16 - 256) * 32 - 8192
}

// alpha_PTAT: the upper nibble of word 16, divided by 4 and rounded down, plus 8.
pub fn alpha_ptat(word: u16) -> f32
    ensures { result ≡ alpha_ptat_of word }
{
    (word / 4096 / 4 + 8) as f32
}

// A whole word, signed, as f32.
pub fn whole(word: u16) -> f32
    ensures { result ≡ whole_of word }
{
    util::i16_from_bits(util::wide(word), 16) as f32
}

// K_VPTAT: the upper 6 bits of word 50, signed, divided by 2^12.
pub fn k_v_ptat(image: &[u8]) -> f32
    requires { 1664 ≤ length image.now }
    ensures { result ≡ k_v_ptat (word_at image.now) }
{
    signed_over(util::word_at(image, map640::PTAT) / 1024, 6, 12)
}

// K_TPTAT: the lower 10 bits of word 50, signed, divided by 2^3.
pub fn k_t_ptat(image: &[u8]) -> f32
    requires { 1664 ≤ length image.now }
    ensures { result ≡ k_t_ptat (word_at image.now) }
{
    signed_over(util::word_at(image, map640::PTAT), 10, 3)
}

// ---- Scales

// The resolution: bits 12 and 13 of word 56.
pub fn resolution(word: u16) -> u8
    ensures { result ≡ resolution_of word }
{
    (word / 4096 % 4) as u8
}

// ---- Pixels and the compensation pixel

// K_V: the four nibbles of word 52, signed, the uppermost first, divided by 2 to the scale of K_V. One for each entry of the chessboard.
pub fn k_v(image: &[u8]) -> [f32; 4]
    requires { 1664 ≤ length image.now }
    ensures { result ≡ k_vs (word_at image.now) }
{
    let scale = util::word_at(image, map640::SCALES) / 256 % 16;
    let word = util::word_at(image, map640::K_V);
    [
        signed_over(word / 4096, 4, scale),
        signed_over(word / 256, 4, scale),
        signed_over(word / 16, 4, scale),
        signed_over(word, 4, scale),
    ]
}

// K_V of the compensation pixel: the upper byte of word 59, signed, divided by 2 to the scale of K_V.
pub fn k_v_cp(image: &[u8]) -> f32
    requires { 1664 ≤ length image.now }
    ensures { result ≡ k_v_cp (word_at image.now) }
{
    let scale = util::word_at(image, map640::SCALES) / 256 % 16;
    signed_over(util::word_at(image, map640::K_CP) / 256, 8, scale)
}

// K_Ta of the compensation pixel: the lower byte of word 59, signed, divided by 2 to the scale 1 of K_Ta plus 8.
pub fn k_ta_cp(image: &[u8]) -> f32
    requires { 1664 ≤ length image.now }
    ensures { result ≡ k_ta_cp (word_at image.now) }
{
    let scale = util::word_at(image, map640::SCALES) / 16 % 16;
    signed_over(util::word_at(image, map640::K_CP), 8, 8 + scale)
}

// alpha_CP of both subpages: that of subpage 1 is that of subpage 0 times (1 + ratio).
pub fn alpha_cp(image: &[u8]) -> [f32; 2]
    requires { 1664 ≤ length image.now }
    ensures { result ≡ alpha_cps (word_at image.now) }
{
    let scale = 27 + util::word_at(image, map640::ALPHA_SCALES) / 4096;
    let word = util::word_at(image, map640::ALPHA_CP);
    let first = (word % 1024) as f32 / floats::exp2(scale);
    [first, first * (1.0 + signed_over(word / 1024, 6, 7))]
}

// Offset CP of both subpages, from word 58: that of subpage 1 is that of subpage 0 plus delta.
pub fn offset_cp(word: u16) -> [i16; 2]
    ensures { result ≡ offset_cps_of word }
{
    let first = util::i16_from_bits(util::wide(word), 10);
    [
        first,
        first + util::i16_from_bits(util::wide(word / 1024), 6),
    ]
}

// K_sTa: the upper byte of word 60, signed, divided by 2^13.
pub fn k_s_ta(image: &[u8]) -> f32
    requires { 1664 ≤ length image.now }
    ensures { result ≡ k_s_ta (word_at image.now) }
{
    signed_over(util::word_at(image, map640::K_S_TA) / 256, 8, 13)
}

// The gradient: the lower byte of word 60, signed, divided by 2^5; none if the byte is 0.
pub fn gradient(word: u16) -> Option<f32>
    ensures { result ≡ gradient_of word }
{
    if word % 256 == 0 {
        return None;
    }
    Some(signed_over(word, 8, 5))
}

// ---- Ranges

// K_sTo of the four ranges: the lower byte of word 61, its upper byte, then those of word 62; signed, divided by 2 to their scale plus 8.
pub fn k_s_to(image: &[u8]) -> [f32; 4]
    requires { 1664 ≤ length image.now }
    ensures { result ≡ k_s_tos (word_at image.now) }
{
    let scale = 8 + util::word_at(image, map640::CORNERS) % 16;
    let first = util::word_at(image, map640::K_S_TO);
    let second = util::word_at(image, map640::K_S_TO + 1);
    [
        signed_over(first, 8, scale),
        signed_over(first / 256, 8, scale),
        signed_over(second, 8, scale),
        signed_over(second / 256, 8, scale),
    ]
}

// The corner temperatures of the four ranges, from word 63. The first two are constants; the others are a number of steps.
pub fn corners(word: u16) -> [i16; 4]
    ensures { result ≡ corners_of word }
{
    let step = word / 4096 % 4 * 10;
    let second = word / 16 % 16 * step;
    let third = word / 256 % 16 * step + second;
    [-40, 0, second as i16, third as i16]
}

// The corner temperatures of a card.
fn corners_of(image: &[u8]) -> [i16; 4]
    requires { 1664 ≤ length image.now }
    ensures { result ≡ corners_at (word_at image.now) }
{
    corners(util::word_at(image, map640::CORNERS))
}

// The range coefficients of a card.
pub fn coefficients(image: &[u8], basic_range: usize) -> [f32; 4]
    requires { (1664 ≤ length image.now) × (basic_range < 4) }
    ensures { result ≡ coefficients_of (word_at image.now) basic_range }
{
    let corner_temperatures = corners_of(image);
    let k_s_to = k_s_to(image);
    let mut list = [0.0f32; RANGES];
    ranges::coefficients(
        RANGES,
        &corner_temperatures,
        &k_s_to,
        basic_range,
        &mut list,
    );
    list
}

// Returns the range nearest below the basic one whose coefficient would be divided by zero, if there is one.
pub fn zero_factor(image: &[u8], basic_range: usize) -> Option<usize>
    requires { (1664 ≤ length image.now) × (basic_range < 4) }
    ensures { result ≡ found_below 4 (zero_factor 4 (corners_at (word_at image.now)) (k_s_tos (word_at image.now)) basic_range) }
{
    let corner_temperatures = corners_of(image);
    let k_s_to = k_s_to(image);
    ranges::zero_factor(RANGES, &corner_temperatures, &k_s_to, basic_range)
}

// ---- The record

// Returns the record of a card, from its words and the basic range.
pub fn read_calibration(image: &[u8], basic_range: usize) -> Calibration
    requires { (1664 ≤ length image.now) × (basic_range < 4) }
    ensures { result ≡ calibration_of (word_at image.now) basic_range }
{
    let supply = util::word_at(image, map640::V_DD);
    let corrections = mlx90640::access_pattern_corrections(util::word_at(image, map640::ACCESS));
    Calibration {
        k_v_dd: k_v_dd(supply),
        v_dd_25: v_dd_25(supply),
        resolution: resolution(util::word_at(image, map640::SCALES)),
        k_v_ptat: k_v_ptat(image),
        k_t_ptat: k_t_ptat(image),
        v_ptat_25: whole(util::word_at(image, map640::V_PTAT_25)),
        alpha_ptat: alpha_ptat(util::word_at(image, map640::OFFSET_SCALES)),
        gain: whole(util::word_at(image, map640::GAIN)),
        k_s_ta: k_s_ta(image),
        corner_temperatures: corners_of(image),
        k_s_to: k_s_to(image),
        range_coefficients: coefficients(image, basic_range),
        alpha_cp: alpha_cp(image),
        offset_reference_cp: offset_cp(util::word_at(image, map640::OFFSET_CP)),
        k_v_cp: k_v_cp(image),
        k_ta_cp: k_ta_cp(image),
        temperature_gradient_coefficient: gradient(util::word_at(image, map640::K_S_TA)),
        k_v: k_v(image),
        access_pattern: mlx90640::interleave_pattern(corrections),
        access_cp: corrections.chess_1,
    }
}

// The record that a refused load returns: every number 0, and no gradient.
pub fn no_calibration() -> Calibration
    ensures { result ≡ no_calibration }
{
    Calibration {
        k_v_dd: 0,
        v_dd_25: 0,
        resolution: 0,
        k_v_ptat: 0.0,
        k_t_ptat: 0.0,
        v_ptat_25: 0.0,
        alpha_ptat: 0.0,
        gain: 0.0,
        k_s_ta: 0.0,
        corner_temperatures: [0; 4],
        k_s_to: [0.0; 4],
        range_coefficients: [0.0; 4],
        alpha_cp: [0.0; 2],
        offset_reference_cp: [0; 2],
        k_v_cp: 0.0,
        k_ta_cp: 0.0,
        temperature_gradient_coefficient: None,
        k_v: [0.0; 4],
        access_pattern: [0.0; 6],
        access_cp: 0.0,
    }
}
