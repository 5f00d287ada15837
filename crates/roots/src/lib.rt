// The fourth roots of many numbers at once, in short loops without a branch, of which a compiler makes steps of several numbers. Guesses at
// both square roots are held against whole squares; a number whose guess is wrong, or that is not normal and positive, goes the way of one.
#![tactic(auto)]

ghost use Rattle.std.specs.Prelude.{◌≡◌, ◌+◌, ◌%◌, ◌<◌, ◌≤◌, not, T, length, is_nan, to_bits};
ghost use Rattle.std.specs.Float.{nan, binary32};
ghost use Rattle.std.specs.Float.Ieee.{fits};
ghost use Rattle.lists.specs.Written.{filled};
ghost use Rattle.lists.specs.Each.{Each};
ghost use Rattle.roots.specs.Many.{side, IsF32, pattern_at, IsRoot, MayBeRoot, Found, Leaves, Guessed};
ghost use Rattle.root.specs.Whole.{Rounds};

// How many numbers go side by side.
pub const SIDE: usize = 32;

// The pattern of the number from 1 up to 16 that is, times a power of 16, the number of the pattern b.
fn reduced(b: u32) -> u32
    ensures { (0x3F800000 ≤ result) × (result < 0x41800000) }
{
    (b % 0x200_0000 + 0x80_0000) % 0x200_0000 + 0x3F80_0000
}

// About t^(-1/4), where t is the number of the pattern, from 1 up to 16: from its bits to a ninth, and from there by the first powers of (1 - e)^(-1/4), whose
// coefficients 1/4, 5/32, 15/128 and 195/2048 are moved to where the error is least.
fn inverse(pattern: u32) -> f32
    requires { (0x3F800000 ≤ pattern) × (pattern < 0x41800000) }
{
    let t = f32::from_bits(pattern);
    let y = f32::from_bits(0x4F58_1800 - pattern / 4);
    let s = y * y;
    let e = 1.0 - (t * s) * s;
    y + y * (e * (0.24999403 + e * (0.15624456 + e * (0.11874896 + e * 0.096600514))))
}

// The root of t, from q about it and h about half its inverse: at least 1, and so a number. The square of q is taken in two parts.
fn step(t: f32, q: f32, h: f32) -> f32
    ensures { T (not (is_nan result)) }
{
    let c = q * 4097.0;
    let high = c - (c - q);
    let rest = (t - high * high) - (q + high) * (q - high);
    let better = q + rest * h;
    if better > 1.0 { better } else { 1.0 }
}

// A number's bits; every f32 is a number that its bits stand for.
fn bits_of(x: f32) -> u32
    ensures { (result ≡ to_bits binary32 x) × T (fits binary32 x) }
{
    floats::to_bits(x)
}

// The patterns of the numbers.
fn patterns(x: &[f32; SIDE], bits: &mut [u32; SIDE])
    ensures bits_after { bits.new ≡ filled (pattern_at x.now) side bits.old }
    ensures each { Each IsF32 nan x.now side }
{
    for i in 0..SIDE {
        bits[i] = bits_of(x[i]);
    }
}

fn inverses(bits: &[u32; SIDE], y: &mut [f32; SIDE]) {
    for i in 0..SIDE {
        y[i] = inverse(reduced(bits[i]));
    }
}

// The first roots as guessed, and their patterns.
fn firsts(bits: &[u32; SIDE], y: &[f32; SIDE], roots: &mut [f32], first: &mut [u32; SIDE])
    requires { side ≤ length roots.old }
    ensures { length roots.new ≡ length roots.old }
{
    for i in 0..SIDE {
        let t = f32::from_bits(reduced(bits[i]));
        let near = y[i];
        let z = near * near;
        let q = step(t, t * z, 0.5 * z);
        roots[i] = q;
        first[i] = f32::to_bits(q);
    }
}

// The patterns of the second roots as guessed.
fn seconds(y: &[f32; SIDE], roots: &[f32], second: &mut [u32; SIDE])
    requires { side ≤ length roots.now }
{
    for i in 0..SIDE {
        let q = roots[i];
        let near = y[i];
        second[i] = f32::to_bits(step(q, q * near, 0.5 * near));
    }
}

// The 24 digits of a pattern.
fn digits(pattern: u32) -> u64
    ensures { result ≡ pattern % 0x800000 + 0x800000 }
{
    (pattern % 0x80_0000 + 0x80_0000) as u64
}

// Its highest bit is 0 only where q is the whole number nearest to the root of n: then q * (q - 1) < n <= q * (q + 1).
fn astray(q: u64, n: u64) -> u64
    requires { (0x800000 ≤ q) × (q < 0x1000000) × (n ≤ 0xFFFFFF000000) }
    ensures { result < 0x8000000000000000 → Rounds n q }
{
    let past = std::num::wrapping_sub_u64(q * q, n);
    std::num::wrapping_add_u64(past, q) | std::num::wrapping_sub_u64(q - 1, past)
}

// The pattern of the fourth root of the number of the pattern b, if that is normal and positive and the guesses are right, else 0.
fn pattern_of(b: u32, first: u32, second: u32) -> u32
    ensures { Found b result }
{
    let w = std::num::wrapping_add_u32(b, 0x3E80_0000);
    let k = w / 0x80_0000;
    let q = digits(first);
    let p = digits(second);
    let n = digits(w) * (0x80_0000 + 0x80_0000 * (k % 2) as u64);
    let m = q * (0x80_0000 + 0x80_0000 * (k / 2 % 2) as u64);
    let wrong = astray(q, n) | astray(p, m);
    let odd = std::num::wrapping_sub_u32(b, 0x80_0000) | std::num::wrapping_sub_u32(0x7F7F_FFFF, b);
    if ((wrong / 0x1_0000_0000) as u32 | odd) < 0x8000_0000 {
        0x80_0000 * (k / 4 + 63) + p as u32
    } else {
        0
    }
}

// The roots of the numbers of the patterns, 0 where one is left open. Answers how many are.
fn settled(bits: &[u32; SIDE], first: &[u32; SIDE], second: &[u32; SIDE], roots: &mut [f32]) -> u32
    requires { side ≤ length roots.old }
    ensures leaves { Leaves bits.now roots.new result side }
    ensures roots_len_unchanged { length roots.new ≡ length roots.old }
{
    let mut open: u32 = 0;
    for i in 0..SIDE {
        let pattern = pattern_of(bits[i], first[i], second[i]);
        roots[i] = f32::from_bits(pattern);
        if pattern == 0 {
            open += 1;
        }
    }
    open
}

// The patterns of both roots as guessed. The list for the roots has the first in between.
fn guess(bits: &[u32; SIDE], roots: &mut [f32], first: &mut [u32; SIDE], second: &mut [u32; SIDE])
    requires { side ≤ length roots.old }
    ensures { length roots.new ≡ length roots.old }
{
    let mut y = [0.0f32; SIDE];
    inverses(bits, &mut y);
    firsts(bits, &y, roots, first);
    seconds(&y, roots, second);
}

// The fourth roots of the numbers, 0 where the guesses leave one open. Answers how many are. Public for the sweep of the guesses.
pub fn guessed(x: &[f32; SIDE], roots: &mut [f32]) -> u32
    requires { side ≤ length roots.old }
    ensures guessed { Guessed x.now roots.new result }
    ensures roots_len_unchanged { length roots.new ≡ length roots.old }
{
    let mut bits = [0u32; SIDE];
    let mut first = [0u32; SIDE];
    let mut second = [0u32; SIDE];
    patterns(x, &mut bits);
    guess(&bits, roots, &mut first, &mut second);
    settled(&bits, &first, &second, roots)
}

// The roots that are open, each on its own.
fn complete(x: &[f32; SIDE], roots: &mut [f32])
    requires { (side ≤ length roots.old) × Each (MayBeRoot x.now) nan roots.old side }
    ensures { Each (IsRoot x.now) nan roots.new side }
{
    for i in 0..SIDE {
        if roots[i] != 0.0 {
            continue;
        }
        roots[i] = root::fourth_root(x[i]);
    }
}

// The fourth roots of the numbers.
pub fn fourth_roots(x: &[f32; SIDE], roots: &mut [f32])
    requires { side ≤ length roots.old }
    ensures { Each (IsRoot x.now) nan roots.new side }
{
    if 0 < guessed(x, roots) {
        complete(x, roots);
    }
}
