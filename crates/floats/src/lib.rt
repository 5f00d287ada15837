// Powers of two, and conversion between f32 numbers and their bits. Every function is total.
#![tactic(auto)]

ghost use Rattle.std.specs.Prelude.{◌≡◌};
ghost use Rattle.std.specs.Float.{binary32};
ghost use Rattle.std.specs.Float.Ieee.{of_bits, to_bits};
ghost use Rattle.floats.specs.Floats.{power_of_two};

// 2^e: exact for e below 128, else infinity.
pub fn exp2(e: u16) -> f32
    ensures { result ≡ power_of_two e }
{
    if e < 128 {
        f32::from_bits((e as u32 + 127) * 0x80_0000)
    } else {
        f32::from_bits(0x7F80_0000)
    }
}

// The bits of a number. Every NaN has the bits 0x7FC00000.
pub fn to_bits(x: f32) -> u32
    ensures { result ≡ to_bits binary32 x }
{
    if x != x {
        return 0x7FC0_0000;
    }
    f32::to_bits(x)
}

// The number with these bits. Bits above those of infinity, leaving the sign bit aside, are NaN.
pub fn from_bits(bits: u32) -> f32
    ensures { result ≡ of_bits binary32 bits }
{
    if bits % 0x8000_0000 > 0x7F80_0000 {
        return 0.0 / 0.0;
    }
    f32::from_bits(bits)
}
