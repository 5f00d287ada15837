// The fourth root of a binary32: two square roots, each rounded to nearest, decided by comparing whole squares.
#![tactic(auto)]

pub mod guess;
mod rows;
mod whole;

ghost use Rattle.std.specs.Prelude.{◌≡◌, ◌<◌, ◌≤◌};
ghost use Rattle.root.specs.Root.{root, root_pattern};
ghost use Rattle.root.specs.Whole.{Digits, Twice, Lifted};

// Returns the 24-bit significand of the nearest root of m * 2^23, or of m * 2^24 if k is odd. `start` is an estimate. Public, as `lifted` is, for the program
// that tests the estimates (`root_sweep`).
pub fn significand(m: u64, k: u32, start: u64) -> u64
    requires { (0x800000 ≤ m) × (m < 0x1000000) × (start < 0x100000000) }
    ensures { Digits m k result }
{
    whole::settle(m * (0x80_0000 + 0x80_0000 * (k % 2) as u64), start)
}

// Returns the bits of the fourth root of (2^23 + w % 2^23) * 2^(w / 2^23), from the significands of two roots and the exponent of the second.
fn twice(w: u32) -> u32
    requires { w < 0xBE000000 }
    ensures { Twice w result }
{
    let g = guess::both(w);
    let k = w / 0x80_0000;
    let q = significand((w % 0x80_0000 + 0x80_0000) as u64, k, g.first);
    let p = significand(q, k / 2 + 126, g.second);
    0x80_0000 * (k / 4 + 63) + p as u32
}

// Returns the bits of a positive finite number with the exponent field raised by 125. A subnormal is normalised, so every result has an implicit leading 1.
pub fn lifted(b: u32) -> u32
    requires { (0 < b) × (b < 0x7F800000) }
    ensures { Lifted b result }
{
    if b < 0x80_0000 {
        let z = u32::leading_zeros(b) - 8;
        return (b << z) + (125 - z) * 0x80_0000;
    }
    b + 0x3E80_0000
}

// Returns the fourth root of a positive finite number, both as bits.
fn fourth_positive(b: u32) -> u32
    requires { (0 < b) × (b < 0x7F800000) }
    ensures { (result ≡ root_pattern (root_pattern b)) × (result < 0x7F800000) }
{
    twice(lifted(b))
}

// Returns the fourth root of x. Either zero gives +0, either infinity +infinity, any other number below zero and NaN give NaN.
pub fn fourth_root(x: f32) -> f32
    ensures { result ≡ root x }
{
    if x != x {
        return 0.0 / 0.0;
    }
    let b = f32::to_bits(x);
    if b % 0x8000_0000 == 0 {
        return 0.0;
    }
    if b < 0x7F80_0000 {
        return f32::from_bits(fourth_positive(b));
    }
    if b % 0x8000_0000 == 0x7F80_0000 {
        return f32::from_bits(0x7F80_0000);
    }
    0.0 / 0.0
}
