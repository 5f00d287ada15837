// Counts how often the estimates of the two square roots miss, and by how much. Every result is proved right whatever the estimates are; only the speed
// depends on them.
// The sample has 4113 numbers of each exponent, from its first to its last; among the subnormals are the 2048 smallest. For the estimates that `roots` makes
// in blocks, which depend on the bits mod 2^25 alone, the program counts the roots that they leave undecided, over all numbers from 1 up to 16.
#![tactic(auto)]

ghost use Rattle.std.specs.Prelude.{◌<◌, ◌≤◌};

use console::Report;
use roots::SIDE;
use std::fmt::Write;

// The bits of 1.
const ONE: u32 = 0x3F80_0000;

// The number of numbers in the sample.
const SAMPLE: u32 = 1048815;

// The number of f32 from 1 up to 16.
const TO_SIXTEEN: u64 = 0x200_0000;

// The number of blocks that these fill.
const BLOCKS: u32 = 0x10_0000;

// The estimates for one number: 1 for each that missed, and the largest distance of an estimate from its root.
#[derive(Clone, Copy)]
struct Shown {
    first: u64,
    second: u64,
    steps: u64,
}

#[derive(Clone, Copy)]
struct Tally {
    patterns: u64,
    first: u64,
    second: u64,
    steps: u64,
}

fn missed(guess: u64, settled: u64) -> u64
    ensures { result ≤ 1 }
{
    u64::from(guess != settled)
}

// Returns the bits of the n-th number of the sample.
fn pattern(n: u32) -> u32
    requires { n < 1048815 }
    ensures { (0 < result) × (result < 0x7F800000) }
{
    if n < 2048 {
        return n + 1;
    }
    if n < 4113 {
        return 0x7F_FFFF - (4112 - n) * 4061;
    }
    let i = n % 4113;
    n / 4113 * 0x80_0000 + i * 2040 + i / 4112 * 127
}

// Compares both roots of one number, as `root` computes them, with their estimates.
fn look(b: u32) -> Shown
    requires { (0 < b) × (b < 0x7F800000) }
    ensures { (result.first ≤ 1) × (result.second ≤ 1) }
{
    let w = root::lifted(b);
    let g = root::guess::both(w);
    let k = w / 0x80_0000;
    let q = root::significand((w % 0x80_0000 + 0x80_0000) as u64, k, g.first);
    let p = root::significand(q, k / 2 + 126, g.second);
    Shown {
        first: missed(g.first, q),
        second: missed(g.second, p),
        steps: g.first.abs_diff(q).max(g.second.abs_diff(p)),
    }
}

fn sweep() -> Tally {
    let mut first: u64 = 0;
    let mut second: u64 = 0;
    let mut steps: u64 = 0;
    for n in 0..SAMPLE {
        let shown = look(pattern(n));
        first += shown.first;
        second += shown.second;
        steps = steps.max(shown.steps);
    }
    Tally {
        patterns: SAMPLE as u64,
        first,
        second,
        steps,
    }
}

// Returns the number of roots left undecided in the block of numbers whose bits begin at `first`.
fn open_of(first: u32) -> u32
    requires { first < 0x41800000 }
{
    let mut x = [1.0f32; SIDE];
    for (i, number) in x.iter_mut().enumerate() {
        *number = floats::from_bits(first + i as u32);
    }
    let mut roots = [0.0f32; SIDE];
    roots::guessed(&x, &mut roots)
}

fn sweep_side_by_side() -> u64 {
    let mut open: u64 = 0;
    for block in 0..BLOCKS {
        open = open.wrapping_add(open_of(ONE + block * 32) as u64);
    }
    open
}

// Writes a line. One that cannot be written is missing in the output, which shows it.
fn line(name: &str, number: u64) {
    let _ = writeln!(Report, "{name}\t{number}");
}

fn main() {
    let tally = sweep();
    line("patterns", tally.patterns);
    line("first", tally.first);
    line("second", tally.second);
    line("most steps", tally.steps);
    line("side by side", TO_SIXTEEN);
    line("left open", sweep_side_by_side());
}
