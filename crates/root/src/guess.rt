// Estimates of both square roots at once. They affect only speed: the only promise about them is their range, and no result depends on them.
ghost use Rattle.std.specs.Prelude.{◌<◌};

use crate::rows;

// 2^52. The low bits of this number plus a smaller one hold the smaller one rounded to a whole number.
const SHIFT: f64 = 4503599627370496.0;

// The estimated 24-bit significands of the first and of the second root.
#[derive(Clone, Copy)]
pub struct Guesses {
    pub first: u64,
    pub second: u64,
}

// Returns about t^(-1/4), where t is 1 + (w % 2^23) / 2^23.
fn inverse(w: u32, t: f64) -> f64 {
    let j = w / 0x4_0000 % 32;
    (rows::constant(j) + rows::linear(j) * t) + (t * t) * (rows::square(j) + rows::cube(j) * t)
}

// Returns both estimates for the number (2^23 + w % 2^23) * 2^(w / 2^23). The second root is taken of the first one rounded. To first order it is half the
// ratio of the second root to the first, times the sum of the first root unrounded and rounded. If the sum is NaN, which no `w` gives, any significands will
// do.
pub fn both(w: u32) -> Guesses
    ensures { (result.first < 0x100000000) × (result.second < 0x100000000) }
{
    let t = f64::from_bits((w % 0x80_0000) as u64 * 0x2000_0000 + 0x3FF0_0000_0000_0000);
    let y = inverse(w, t);
    let case = w / 0x80_0000 % 4;
    let q = (t * rows::first_scale(case)) * y * y;
    let first = q + SHIFT;
    let second = (q + (first - SHIFT)) * (y * rows::second_scale(case)) + SHIFT;
    if second != second {
        return Guesses {
            first: (0x80_0000 + w % 0x80_0000 / 2) as u64,
            second: (0x80_0000 + w % 0x80_0000 / 4) as u64,
        };
    }
    Guesses {
        first: f64::to_bits(first) % 0x1_0000_0000,
        second: f64::to_bits(second) % 0x1_0000_0000,
    }
}
