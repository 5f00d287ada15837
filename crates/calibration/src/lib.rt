// The calibration record: all single values and eight-entry arrays of a card, read from the data of its words.
#![tactic(auto)]

mod coefficients;

ghost use Rattle.std.specs.Prelude.{◌≡◌, ℕ, ◌+◌, ◌<◌, ◌≤◌, pos};
ghost use Rattle.floats.specs.Floats.{over};
ghost use Rattle.util.specs.Fields.{signed};
ghost use Rattle.util.specs.Found.{found_below};
ghost use Rattle.hamming.specs.Word.{data_values};
ghost use Rattle.map.specs.Map.{card_words};
ghost use Rattle.card.specs.Inner.{at};
ghost use Rattle.calibration.specs.Calibration.{low_over, resolution_of, ranges_of, calibration_of, no_calibration};
ghost use Rattle.calibration.specs.Coefficients.{range_count, zero_factor};
ghost use Rattle.calibration.specs.Inner.{card_of, sensing_of, references_of, ptat_of, compensation_of, range_at};

use card::Cursor;
use map::Words;

// The calibration record of an MLX90641 card. Values per pixel are not in it: they go to the caller's tables.
#[derive(Clone, Copy)]
pub struct Calibration {
    pub k_v_dd: i16,
    pub v_dd_25: i16,
    pub resolution: u8,
    pub k_v_ptat: f32,
    pub k_t_ptat: f32,
    pub v_ptat_25: f32,
    pub alpha_ptat: f32,
    pub gain: f32,
    pub k_s_ta: f32,
    pub corner_temperatures: [i16; 8],
    pub k_s_to: [f32; 8],
    pub emissivity: f32,
    pub alpha_cp: f32,
    pub offset_reference_cp: i16,
    pub k_v_cp: f32,
    pub k_ta_cp: f32,
    pub temperature_gradient_coefficient: Option<f32>,
    pub range_coefficients: [f32; 8],
}

// The fields of words 34 to 37.
#[derive(Clone, Copy)]
pub struct Sensing {
    pub k_s_ta: f32,
    pub emissivity: f32,
    pub gain: f32,
}

// The fields of words 38 to 41.
#[derive(Clone, Copy)]
pub struct References {
    pub v_dd_25: i16,
    pub k_v_dd: i16,
    pub v_ptat_25: f32,
}

// The fields of words 42 to 46.
#[derive(Clone, Copy)]
pub struct Ptat {
    pub k_t_ptat: f32,
    pub k_v_ptat: f32,
    pub alpha_ptat: f32,
    pub alpha_cp: f32,
}

// The fields of words 47 to 51.
#[derive(Clone, Copy)]
pub struct Compensation {
    pub offset_reference_cp: i16,
    pub k_ta_cp: f32,
    pub k_v_cp: f32,
    pub resolution: u8,
    pub temperature_gradient_coefficient: Option<f32>,
}

// A corner temperature and the K_sTo of the range that starts there, with the cursor after them.
#[derive(Clone, Copy)]
pub struct Range {
    pub corner: i16,
    pub k_s_to: f32,
    pub next: Cursor,
}

// The fields of words 52 to 63: the lowest temperature and the K_sTo of each range.
#[derive(Clone, Copy)]
pub struct Ranges {
    pub corner_temperatures: [i16; 8],
    pub k_s_to: [f32; 8],
}

// The low `width` bits of a word, signed, divided by 2 to the power given by the bits above them.
fn low_over(word: u16, width: u32) -> f32
    requires { (1 ≤ width) × (width < 16) }
    ensures { result ≡ low_over width word }
{
    let parts = util::split(word, width);
    camera::signed_over(word, width, parts.upper)
}

// The resolution: bits 9 and 10 of word 51.
fn resolution_of(word: u16) -> u8
    ensures { result ≡ resolution_of word }
{
    (word / 512 % 4) as u8
}

// A corner temperature, an unsigned number of 11 bits, as i16.
fn corner(value: u16) -> i16
    requires { value < data_values }
    ensures { result ≡ pos value }
{
    value as i16
}

// Reads words 34 to 37.
fn read_sensing(words: &Words) -> Sensing
    ensures { result ≡ sensing_of (card_of (at words.now)) }
{
    let k_s_ta = Cursor { word: map::K_S_TA }.scaled(words, 15);
    let emissivity = k_s_ta.next.scaled(words, 9);
    let gain = emissivity.next.real(words);
    Sensing {
        k_s_ta: k_s_ta.value,
        emissivity: emissivity.value,
        gain: gain.value,
    }
}

// Reads words 38 to 41.
fn read_references(words: &Words) -> References
    ensures { result ≡ references_of (card_of (at words.now)) }
{
    let v_dd_25 = Cursor { word: map::V_DD_25 }.times_32(words);
    let k_v_dd = v_dd_25.next.times_32(words);
    let v_ptat_25 = k_v_dd.next.real(words);
    References {
        v_dd_25: v_dd_25.value,
        k_v_dd: k_v_dd.value,
        v_ptat_25: v_ptat_25.value,
    }
}

// Reads words 42 to 46.
fn read_ptat(words: &Words) -> Ptat
    ensures { result ≡ ptat_of (card_of (at words.now)) }
{
    let k_t_ptat = Cursor {
        word: map::K_T_PTAT,
    }
    .scaled(words, 3);
    let k_v_ptat = k_t_ptat.next.scaled(words, 12);
    let alpha_ptat = k_v_ptat.next.fraction(words, 7);
    let alpha_cp = alpha_ptat.next.plain(words);
    let alpha_cp_scale = alpha_cp.next.plain(words);
    Ptat {
        k_t_ptat: k_t_ptat.value,
        k_v_ptat: k_v_ptat.value,
        alpha_ptat: alpha_ptat.value,
        alpha_cp: card::fraction_of(alpha_cp.value, alpha_cp_scale.value),
    }
}

// Reads words 47 to 51.
fn read_compensation(words: &Words) -> Compensation
    ensures { result ≡ compensation_of (card_of (at words.now)) }
{
    let offset = Cursor {
        word: map::OFFSET_CP,
    }
    .combined(words);
    let k_ta = offset.next.plain(words);
    let k_v = k_ta.next.plain(words);
    let last = k_v.next.plain(words);
    let gradient = camera::signed_over(last.value, 9, 6);
    Compensation {
        offset_reference_cp: util::i16_from_bits(offset.value, 16),
        k_ta_cp: low_over(k_ta.value, 6),
        k_v_cp: low_over(k_v.value, 6),
        resolution: resolution_of(last.value),
        temperature_gradient_coefficient: Some(gradient),
    }
}

// Reads a corner temperature and its K_sTo, which is divided by 2^power.
fn read_range(words: &Words, power: u16, start: Cursor) -> Range
    requires { (start.word + 1 < card_words) × (at words.now start.word < data_values) }
    ensures { result ≡ range_at words.now power start.word }
{
    let temperature = start.plain(words);
    let k_s_to = temperature.next.scaled(words, power);
    Range {
        corner: corner(temperature.value),
        k_s_to: k_s_to.value,
        next: k_s_to.next,
    }
}

// Reads words 52 to 63. The first five corner temperatures are constants.
fn read_ranges(words: &Words) -> Ranges
    requires { (k : ℕ) → at words.now k < data_values }
    ensures { result ≡ ranges_of (at words.now) }
{
    let scale = Cursor {
        word: map::K_S_TO_SCALE,
    }
    .plain(words);
    let power = scale.value;
    let k0 = scale.next.scaled(words, power);
    let k1 = k0.next.scaled(words, power);
    let k2 = k1.next.scaled(words, power);
    let k3 = k2.next.scaled(words, power);
    let k4 = k3.next.scaled(words, power);
    let r5 = read_range(words, power, k4.next);
    let r6 = read_range(words, power, r5.next);
    let r7 = read_range(words, power, r6.next);
    let corner_temperatures = [-40, -20, 0, 80, 120, r5.corner, r6.corner, r7.corner];
    let k_s_to = [
        k0.value, k1.value, k2.value, k3.value, k4.value, r5.k_s_to, r6.k_s_to, r7.k_s_to,
    ];
    Ranges {
        corner_temperatures,
        k_s_to,
    }
}

// Returns the range nearest below the basic one whose coefficient would be divided by zero, if there is one, from the data of a card's words.
pub fn zero_factor(words: &Words, basic_range: usize) -> Option<usize>
    requires by_index { (k : ℕ) → at words.now k < data_values }
    requires basic_range_lt_range_count { basic_range < range_count }
    ensures { result ≡ found_below range_count (zero_factor (ranges_of (at words.now)) basic_range) }
{
    coefficients::zero_factor(read_ranges(words), basic_range)
}

// Returns the record of a card, from the data of its words and the basic range.
pub fn read_calibration(words: &Words, basic_range: usize) -> Calibration
    requires by_index { (k : ℕ) → at words.now k < data_values }
    requires basic_range_lt_range_count { basic_range < range_count }
    ensures { result ≡ calibration_of (at words.now) basic_range }
{
    let sensing = read_sensing(words);
    let references = read_references(words);
    let ptat = read_ptat(words);
    let compensation = read_compensation(words);
    let ranges = read_ranges(words);
    let corner_temperatures = ranges.corner_temperatures;
    let k_s_to = ranges.k_s_to;
    let range_coefficients = coefficients::coefficients(ranges, basic_range);
    let gradient = compensation.temperature_gradient_coefficient;
    Calibration {
        k_v_dd: references.k_v_dd,
        v_dd_25: references.v_dd_25,
        resolution: compensation.resolution,
        k_v_ptat: ptat.k_v_ptat,
        k_t_ptat: ptat.k_t_ptat,
        v_ptat_25: references.v_ptat_25,
        alpha_ptat: ptat.alpha_ptat,
        gain: sensing.gain,
        k_s_ta: sensing.k_s_ta,
        corner_temperatures,
        k_s_to,
        emissivity: sensing.emissivity,
        alpha_cp: ptat.alpha_cp,
        offset_reference_cp: compensation.offset_reference_cp,
        k_v_cp: compensation.k_v_cp,
        k_ta_cp: compensation.k_ta_cp,
        temperature_gradient_coefficient: gradient,
        range_coefficients,
    }
}

// The record that C gets after a refused load: every number 0, and no gradient.
pub fn no_calibration() -> Calibration
    ensures { result ≡ no_calibration }
{
    let corner_temperatures = [0i16; 8];
    let k_s_to = [0.0f32; 8];
    let range_coefficients = [0.0f32; 8];
    Calibration {
        k_v_dd: 0,
        v_dd_25: 0,
        resolution: 0,
        k_v_ptat: 0.0,
        k_t_ptat: 0.0,
        v_ptat_25: 0.0,
        alpha_ptat: 0.0,
        gain: 0.0,
        k_s_ta: 0.0,
        corner_temperatures,
        k_s_to,
        emissivity: 0.0,
        alpha_cp: 0.0,
        offset_reference_cp: 0,
        k_v_cp: 0.0,
        k_ta_cp: 0.0,
        temperature_gradient_coefficient: None,
        range_coefficients,
    }
}
