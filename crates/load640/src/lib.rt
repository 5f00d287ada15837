// Loads the MLX90640's card: from its image to a calibration record and three tables, or a refusal that changes nothing.
#![tactic(auto)]

ghost use Rattle.std.specs.Prelude.{◌≡◌, ◌≤◌, min, length, OnOk};
ghost use Rattle.refusal.specs.Order.{first_of};
ghost use Rattle.util.specs.Words.{word_at};
ghost use Rattle.sums640.specs.Inner.{shared_count, Shared};
ghost use Rattle.record640.specs.Record.{calibration_of};
ghost use Rattle.load640.specs.Load.{tables, filled_tables, data_tests, load_tests, Loads};
ghost use Rattle.load640.specs.Inner.{Passed};

use map640::IMAGE_BYTES;
use record640::{Calibration, RANGES};
use refusal::{Refusal, Verdict};
use sums640::{PIXELS, SHARED};

// The basic range that the crate mlx9064x uses for this camera.
pub const BASIC_RANGE: usize = 1;

// The length of the shortest of three tables.
fn shortest_of(offsets: usize, alpha: usize, k_ta: usize) -> usize
    ensures { result ≡ min offsets (min alpha k_ta) }
{
    util::least(offsets, util::least(alpha, k_ta))
}

// Tests for refusals 5, 6 and 13, on a card's words and the basic range.
fn data_gate(image: &[u8], basic_range: usize, shared: &[i32]) -> Verdict
    requires { (1664 ≤ length image.now) × (shared_count ≤ length shared.now) × Shared (word_at image.now) shared.now }
    ensures { result ≡ first_of (data_tests (word_at image.now) basic_range) }
{
    if let Some(pixel) = sums640::first_outside(image, shared) {
        return Err(Refusal::LargePixel { pixel });
    }
    if RANGES <= basic_range {
        return Err(Refusal::BasicRange { range: basic_range });
    }
    if let Some(range) = record640::zero_factor(image, basic_range) {
        return Err(Refusal::ZeroFactor { range });
    }
    Ok(())
}

// Runs all tests of a load, lowest refusal number first. If all pass, `shared` has the numbers that many pixels have in common.
fn gate(image: &[u8], basic_range: usize, table: usize, shared: &mut [i32]) -> Verdict
    requires { shared_count ≤ length shared.old }
    ensures value { result ≡ first_of (load_tests image.now basic_range table) }
    ensures shared { OnOk result (Shared (word_at image.now) shared.new) }
{
    let length = image.len();
    if length < IMAGE_BYTES {
        return Err(Refusal::ShortImage { length });
    }
    if table < PIXELS {
        return Err(Refusal::ShortTable);
    }
    sums640::fill_shared(image, shared);
    data_gate(image, basic_range, shared)
}

// Fills the three tables and returns the record of a card that passed the gate.
fn fill_all(
    image: &[u8],
    basic_range: usize,
    shared: &[i32],
    offsets: &mut [i32],
    alpha: &mut [f32],
    k_ta: &mut [f32],
) -> Calibration
    requires passed { Passed image.now basic_range (tables offsets.old alpha.old k_ta.old) }
    requires shared_count_in_bounds { (shared_count ≤ length shared.now) × Shared (word_at image.now) shared.now }
    ensures value { result ≡ calibration_of (word_at image.now) basic_range }
    ensures k_ta_after { tables offsets.new alpha.new k_ta.new
        ≡ filled_tables (word_at image.now) (tables offsets.old alpha.old k_ta.old) }
{
    sums640::fill_offsets(image, shared, offsets);
    sums640::fill_alpha(image, shared, alpha);
    sums640::fill_k_ta(image, shared, k_ta);
    record640::read_calibration(image, basic_range)
}

// Loads a card: fills the first 768 entries of each table and returns the record. The range coefficients start at the basic range. All tests are
// complete before the first entry is written.
pub fn load(
    image: &[u8],
    basic_range: usize,
    offsets: &mut [i32],
    alpha: &mut [f32],
    k_ta: &mut [f32],
) -> Result<Calibration, Refusal>
    ensures { Loads image.now basic_range (tables offsets.old alpha.old k_ta.old)
        (tables offsets.new alpha.new k_ta.new) result }
{
    let table = shortest_of(offsets.len(), alpha.len(), k_ta.len());
    let mut shared = [0i32; SHARED];
    gate(image, basic_range, table, &mut shared)?;
    let calibration = fill_all(image, basic_range, &shared, offsets, alpha, k_ta);
    Ok(calibration)
}
