// The temperature ranges of a camera with any number of ranges: the test of their corners for the second pass, and their coefficients.
#![tactic(auto)]

ghost use Rattle.std.specs.Prelude.{◌≡◌, ◌+◌, ◌<◌, ◌≤◌, length, int_le};
ghost use Rattle.lists.specs.Written.{filled};
ghost use Rattle.refusal.specs.Order.{first_of};
ghost use Rattle.util.specs.Found.{found_below};
ghost use Rattle.ranges.specs.Corners.{unrisen, corner_tests};
ghost use Rattle.ranges.specs.Coefficients.{growth, coefficient_at, zero_factor};
ghost use Rattle.ranges.specs.Inner.{Ranged, Between};

use refusal::{Refusal, Verdict};

// Whether a corner temperature is not above the one before it.
fn not_above(corner: i16, before: i16) -> bool
    ensures { result ≡ int_le corner before }
{
    corner <= before
}

// The first corner that is not above the one before it, if there is one.
fn first_unrisen(ranges: usize, corners: &[i16]) -> Option<usize>
    requires { (0 < ranges) × (ranges ≤ length corners.now) }
    ensures { result ≡ found_below ranges (unrisen ranges corners.now) }
{
    for range in 1..ranges {
        if not_above(corners[range], corners[range - 1]) {
            return Some(range);
        }
    }
    None
}

// Tests for refusal 12: corners that do not rise strictly.
pub fn corner_gate(ranges: usize, corners: &[i16]) -> Verdict
    requires { (0 < ranges) × (ranges ≤ length corners.now) }
    ensures { result ≡ first_of (corner_tests ranges corners.now) }
{
    match first_unrisen(ranges, corners) {
        Some(corner) => Err(Refusal::UnorderedCorners { corner }),
        None => Ok(()),
    }
}

// Returns 1 + K × (T next - T own) for a range that has a next one.
fn growth(corners: &[i16], k_s_to: &[f32], range: usize) -> f32
    requires { (range + 1 < length corners.now) × (range < length k_s_to.now) }
    ensures { result ≡ growth corners.now k_s_to.now range }
{
    let next = range + 1;
    1.0 + k_s_to[range]
        * std::num::nearest_i32_to_f32(util::difference(corners[next], corners[range]))
}

// Writes the coefficients of the basic range and those above it, each from the one below it.
fn upward(
    ranges: usize,
    corners: &[i16],
    k_s_to: &[f32],
    basic_range: usize,
    coefficients: &mut [f32],
)
    requires { Ranged ranges basic_range corners.now k_s_to.now × (ranges ≤ length coefficients.old) }
    ensures { Between corners.now k_s_to.now basic_range basic_range ranges coefficients.old coefficients.new }
{
    let last = ranges - 1;
    let mut coefficient = 1.0f32;
    for at in basic_range..last {
        coefficients[at] = coefficient;
        coefficient = coefficient * growth(corners, k_s_to, at);
    }
    coefficients[last] = coefficient;
}

// Writes the coefficients below the basic range, each from the one above it.
fn downward(
    ranges: usize,
    corners: &[i16],
    k_s_to: &[f32],
    basic_range: usize,
    coefficients: &mut [f32],
)
    requires { Ranged ranges basic_range corners.now k_s_to.now × (ranges ≤ length coefficients.old) }
    ensures { Between corners.now k_s_to.now basic_range 0 basic_range coefficients.old coefficients.new }
{
    let mut coefficient = 1.0f32;
    for at in (0..basic_range).rev() {
        coefficient = coefficient / growth(corners, k_s_to, at);
        coefficients[at] = coefficient;
    }
}

// Writes the coefficients of all ranges into the first `ranges` entries.
pub fn coefficients(
    ranges: usize,
    corners: &[i16],
    k_s_to: &[f32],
    basic_range: usize,
    coefficients: &mut [f32],
)
    requires { Ranged ranges basic_range corners.now k_s_to.now × (ranges ≤ length coefficients.old) }
    ensures { coefficients.new ≡ filled (coefficient_at corners.now k_s_to.now basic_range) ranges coefficients.old }
{
    upward(ranges, corners, k_s_to, basic_range, coefficients);
    downward(ranges, corners, k_s_to, basic_range, coefficients);
}

// The range nearest below the basic range whose coefficient would be divided by a zero, if there is one.
pub fn zero_factor(
    ranges: usize,
    corners: &[i16],
    k_s_to: &[f32],
    basic_range: usize,
) -> Option<usize>
    requires { Ranged ranges basic_range corners.now k_s_to.now }
    ensures { result ≡ found_below ranges (zero_factor ranges corners.now k_s_to.now basic_range) }
{
    for at in (0..basic_range).rev() {
        if growth(corners, k_s_to, at) == 0.0 {
            return Some(at);
        }
    }
    None
}
