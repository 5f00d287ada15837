// The pixels of a frame, in blocks of 32: their readings to infrared numbers, those to temperatures, and what the mask asks for into the
// destination. One driver serves every call of both cameras. Loops over a block have no branch, so that a compiler takes several pixels at once. They count
// an index, which several lists share: in this form their speed is measured.
#![tactic(auto)]

ghost use Rattle.std.specs.Prelude.{◌≡◌, false, ℕ, ◌+◌, ◌*◌, ◌%◌, ◌<◌, ◌≤◌, length, get_or};
ghost use Rattle.std.specs.Float.{nan, binary32};
ghost use Rattle.std.specs.Float.Ieee.{le, to_bits};
ghost use Rattle.lists.specs.Pick.{pick};
ghost use Rattle.lists.specs.Each.{Each};
ghost use Rattle.lists.specs.Last.{last_below};
ghost use Rattle.floats.specs.Floats.{real};
ghost use Rattle.roots.specs.Many.{side};
ghost use Rattle.root.specs.Root.{celsius};
ghost use Rattle.ranges.specs.Corners.{reaches, range_of};
ghost use Rattle.formulas.specs.Pixel.{decided};
ghost use Rattle.pixels.specs.Pixels.{touched, reading_at, held, answer_bits, into, lost_of};
ghost use Rattle.pixels.specs.Inner.{lent, raw_of, in_turn, number_at, ReadableFor, table, lifted_at, under_at, rooted_at, ranged_from, lifted_ranged_at, bits_by, WorkableFor, v, number_bits, answers_from, celsius_at, Written};
ghost use Rattle.pixels.specs.Blocks.{is, IsNat, Unasked, lost_flag, Flagged, Block};

use formulas::{CommonIrData, CommonToData, Pixel, Range};
use offsets::Offset;
use roots::SIDE;

// The bits of every not-a-number that is written.
const PATTERN: u32 = 0x7FC0_0000;

// Where the infrared numbers come from: the pixel bytes, or the bits that the destination holds. An enum and no closure: a case holds what it needs, and the
// laws speak of the cases.
#[derive(Clone, Copy)]
pub enum Source {
    Pixels {
        common: CommonIrData,
        deduction: Option<f32>,
    },
    Destination,
}

// What is written: infrared numbers, temperatures, or those of the second pass, over so many ranges; an enum for the same reason.
#[derive(Clone, Copy)]
pub enum Goal {
    Infrared,
    Temperature(CommonToData),
    Ranged { common: CommonToData, ranges: u32 },
}

// How a frame is worked out, block by block. K_V and access terms are lists of their own numbers of blocks, which are taken in turn.
#[derive(Clone, Copy)]
pub struct Work {
    pub blocks: usize,
    pub k_v_blocks: usize,
    pub access_blocks: usize,
    pub source: Source,
    pub goal: Goal,
}

// What infrared numbers are made of: the pixel bytes, the tables of offsets and K_Ta by pixel number, and the lists of K_V and access terms.
#[derive(Clone, Copy)]
pub struct InfraredLists<'a> {
    pub pixels: &'a [u8],
    pub offsets: &'a [Offset],
    pub k_ta: &'a [f32],
    pub k_v: &'a [f32],
    pub access: &'a [f32],
}

// What temperatures are computed with: the table of alpha by pixel number, and the corners, K_sTo and coefficients of the ranges.
#[derive(Clone, Copy)]
pub struct TemperatureTables<'a> {
    pub alpha: &'a [f32],
    pub corners: &'a [i16],
    pub k_s_to: &'a [f32],
    pub coefficients: &'a [f32],
}

// ---- The mask

// Whether the mask asks for pixel i.
fn masked(mask: &[u8], i: usize) -> bool
    requires { i < length mask.now }
    ensures { result ≡ touched mask.now i }
{
    let byte = mask[i];
    byte != 0
}

// Whether the mask asks for one of the pixels of the block from base on.
fn any_masked(mask: &[u8], base: usize) -> bool
    requires { base + side ≤ length mask.now }
    ensures { result ≡ false → Unasked mask.now base side }
{
    let mut any: u8 = 0;
    for i in 0..SIDE {
        let k = base + i;
        any = any | mask[k];
    }
    any != 0
}

// The first where the test passes, else the second.
fn chosen(test: bool, new: u32, old: u32) -> u32
    ensures { result ≡ pick test new old }
{
    if test { new } else { old }
}

// ---- Infrared numbers

// Pixel i's reading as a number.
fn reading_at(pixels: &[u8], i: usize) -> f32
    requires { i * 2 + 1 < length pixels.now }
    ensures { result ≡ reading_at pixels.now i }
{
    let word = util::word_by_one_load(pixels, i);
    util::i16_from_bits(util::wide(word), 16) as f32
}

// An offset as a number, rounded once to the nearest: only the sum of its halves rounds.
fn real(offset: Offset) -> f32
    ensures { result ≡ real offset }
{
    let high = offset >> 16;
    let low = offset & 0xFFFF;
    high as f32 * 65536.0 + low as f32
}

// Pixel i's infrared number, with its K_V and access term.
fn infrared_at(
    common: CommonIrData,
    deduction: Option<f32>,
    lists: InfraredLists<'_>,
    i: usize,
    k_v: f32,
    access: f32,
) -> f32
    requires { (i * 2 + 1 < length lists.pixels.now) × (i < length lists.offsets.now) × (i < length lists.k_ta.now) }
    ensures { result ≡ raw_of common deduction lists.entry.pixels.now lists.entry.offsets.now lists.entry.k_ta.now i k_v access }
{
    let reading = reading_at(lists.pixels, i);
    let offset = real(lists.offsets[i]);
    let v_ir = formulas::per_pixel_v_ir(reading, common, offset, k_v, lists.k_ta[i], access);
    formulas::deduct(v_ir, deduction)
}

// The infrared numbers of the block from base on, with K_V and access terms from others on.
fn infrared_block(
    common: CommonIrData,
    deduction: Option<f32>,
    lists: InfraredLists<'_>,
    base: usize,
    k_v_base: usize,
    access_base: usize,
    numbers: &mut [f32],
)
    requires side_in_bounds { ((base + side) * 2 ≤ length lists.pixels.now) × (base + side ≤ length lists.offsets.now) × (base + side ≤ length lists.k_ta.now) }
    requires side_in_bounds_2 { (k_v_base + side ≤ length lists.k_v.now) × (access_base + side ≤ length lists.access.now) × (side ≤ length numbers.old) }
    ensures { Each (is (λ (i : ℕ). raw_of common deduction lists.entry.pixels.now lists.entry.offsets.now lists.entry.k_ta.now (base + i) (get_or lists.entry.k_v.now (k_v_base + i) nan) (get_or lists.entry.access.now (access_base + i) nan))) nan numbers.new side }
{
    let k_v = lists.k_v;
    let access = lists.access;
    for i in 0..SIDE {
        let k = base + i;
        let v = k_v_base + i;
        let a = access_base + i;
        numbers[i] = infrared_at(common, deduction, lists, k, k_v[v], access[a]);
    }
}

// The infrared numbers whose bits the destination holds, of the block from base on.
fn held_block(destination: &[u32], base: usize, numbers: &mut [f32])
    requires { (base + side ≤ length destination.now) × (side ≤ length numbers.old) }
    ensures { Each (is (λ (i : ℕ). held destination.now (base + i))) nan numbers.new side }
{
    for i in 0..SIDE {
        let k = base + i;
        numbers[i] = floats::from_bits(destination[k]);
    }
}

// Where a block starts in a list of so many blocks, which are taken in turn.
fn turn(block: usize, blocks: usize) -> usize
    requires { (0 < blocks) × (blocks ≤ 1000) }
    ensures { (result ≡ block % blocks * side) × (result + side ≤ blocks * side) }
{
    block % blocks * SIDE
}

// The infrared numbers of a block.
fn numbers_block(
    work: Work,
    block: usize,
    lists: InfraredLists<'_>,
    destination: &[u32],
    numbers: &mut [f32],
)
    requires block_lt_blocks { (block < work.blocks) × (work.blocks ≤ 1000) × (work.blocks * side ≤ length destination.now) × (side ≤ length numbers.old) }
    requires readable_for { ReadableFor work.source (lent lists.pixels.now lists.offsets.now lists.k_ta.now lists.k_v.now work.k_v_blocks lists.access.now work.access_blocks) work.blocks }
    ensures { Each (is (λ (i : ℕ). number_at work.source (lent lists.entry.pixels.now lists.entry.offsets.now lists.entry.k_ta.now lists.entry.k_v.now work.k_v_blocks lists.entry.access.now work.access_blocks) destination.now (block * side + i))) nan numbers.new side }
{
    let base = block * SIDE;
    let source = work.source;
    match source {
        Source::Pixels { common, deduction } => {
            let k_v_base = turn(block, work.k_v_blocks);
            let access_base = turn(block, work.access_blocks);
            infrared_block(
                common,
                deduction,
                lists,
                base,
                k_v_base,
                access_base,
                numbers,
            );
        }
        Source::Destination => {
            held_block(destination, base, numbers);
        }
    }
}

// ---- Temperatures

// What the roots in the final values are taken of, of the block from base on.
fn under_roots(common: CommonToData, alpha: &[f32], base: usize, numbers: &[f32], under: &mut [f32])
    requires { (base + side ≤ length alpha.now) × (side ≤ length numbers.now) × (side ≤ length under.old) }
    ensures { Each (is (λ (i : ℕ). under_at common alpha.now (v numbers.now i) (base + i))) nan under.new side }
{
    for i in 0..SIDE {
        let k = base + i;
        let a = formulas::sensitivity(alpha[k], common);
        under[i] = formulas::under_root(numbers[i], a, common);
    }
}

// The final values of those pixels, from the roots.
fn final_values(
    common: CommonToData,
    alpha: &[f32],
    base: usize,
    numbers: &[f32],
    roots: &[f32],
    values: &mut [f32],
)
    requires { (base + side ≤ length alpha.now) × (side ≤ length numbers.now) × (side ≤ length roots.now) × (side ≤ length values.old) }
    ensures { Each (is (λ (i : ℕ). rooted_at common alpha.now (v numbers.now i) (base + i) (v roots.now i))) nan values.new side }
{
    for i in 0..SIDE {
        let k = base + i;
        let a = formulas::sensitivity(alpha[k], common);
        values[i] = formulas::final_value(numbers[i], a, roots[i], common);
    }
}

// The temperatures of final values.
fn degrees_block(values: &[f32; SIDE], temperatures: &mut [f32])
    requires { side ≤ length temperatures.old }
    ensures { Each (is (celsius_at values.now)) nan temperatures.new side }
{
    roots::fourth_roots(values, temperatures);
    for i in 0..SIDE {
        temperatures[i] = formulas::degrees(temperatures[i]);
    }
}

// The temperatures of the block from base on. Each pixel has two roots, one inside the other: in stages many pixels are under way at once. The list for
// the temperatures has the inner roots in between.
fn temperature_block(
    common: CommonToData,
    alpha: &[f32],
    base: usize,
    numbers: &[f32],
    temperatures: &mut [f32],
)
    requires { (base + side ≤ length alpha.now) × (side ≤ length numbers.now) × (side ≤ length temperatures.old) }
    ensures { Each (is (λ (i : ℕ). celsius (lifted_at common alpha.now (v numbers.now i) (base + i)))) nan temperatures.new side }
{
    let mut values = [0.0f32; SIDE];
    under_roots(common, alpha, base, numbers, &mut values);
    roots::fourth_roots(&values, temperatures);
    final_values(common, alpha, base, numbers, temperatures, &mut values);
    degrees_block(&values, temperatures);
}

// ---- The second pass

fn whole(corner: i16) -> f32
    ensures { result ≡ real corner }
{
    corner as f32
}

fn wide(range: u32) -> usize
    ensures { result ≡ range }
{
    range as usize
}

// Each entry becomes the range where its corner is not above the temperature.
fn raise_ranges(corner: f32, range: u32, basic: &[f32], found: &mut [u32])
    requires { (side ≤ length basic.now) × (side ≤ length found.old) }
    ensures { Each (IsNat (λ (i : ℕ). pick (le corner (v basic.now i)) range (get_or found.old i 0))) 0 found.new side }
{
    for i in 0..SIDE {
        let reached = corner <= basic[i];
        found[i] = chosen(reached, range, found[i]);
    }
}

// The range that holds each temperature: the last corner not above it, range 0 if there is none.
fn find_ranges(ranges: u32, corners: &[i16], basic: &[f32], found: &mut [u32])
    requires { (ranges ≤ length corners.now) × (side ≤ length basic.now) × (side ≤ length found.old) × Each (IsNat (λ (i : ℕ). 0)) 0 found.old side }
    ensures { Each (IsNat (λ (i : ℕ). range_of ranges corners.now (v basic.now i))) 0 found.new side }
{
    for range in 0..ranges {
        let at = wide(range);
        raise_ranges(whole(corners[at]), range, basic, found);
    }
}

// The final values of the block from base on, by the range that was found for each.
fn ranged_values(
    common: CommonToData,
    tables: TemperatureTables<'_>,
    base: usize,
    numbers: &[f32],
    basic: &[f32],
    found: &[u32; SIDE],
    values: &mut [f32],
)
    requires side_in_bounds { (base + side ≤ length tables.alpha.now) × (side ≤ length numbers.now) × (side ≤ length basic.now) × (side ≤ length values.old) }
    requires by_index { (i : ℕ) → i < side → (get_or found.now i 0 < length tables.corners.now) × (get_or found.now i 0 < length tables.k_s_to.now) × (get_or found.now i 0 < length tables.coefficients.now) }
    ensures { Each (is (λ (i : ℕ). ranged_from common (table tables.entry.alpha.now tables.entry.corners.now tables.entry.k_s_to.now tables.entry.coefficients.now) (v numbers.now i) (base + i) (v basic.now i) (get_or found.now i 0))) nan values.new side }
{
    let alpha = tables.alpha;
    let corners = tables.corners;
    let k_s_to = tables.k_s_to;
    let coefficients = tables.coefficients;
    for i in 0..SIDE {
        let k = base + i;
        let r = wide(found[i]);
        let a = formulas::sensitivity(alpha[k], common);
        let range = Range {
            corner: whole(corners[r]),
            k_s_to: k_s_to[r],
            coefficient: coefficients[r],
        };
        values[i] = formulas::ranged_value(range, common.t_ar, a, numbers[i], basic[i]);
    }
}

// The second pass's temperatures of the block from base on. The list for them has the basic ones in between.
fn ranged_block(
    common: CommonToData,
    ranges: u32,
    tables: TemperatureTables<'_>,
    base: usize,
    numbers: &[f32],
    temperatures: &mut [f32],
)
    requires side_in_bounds { (base + side ≤ length tables.alpha.now) × (side ≤ length numbers.now) × (side ≤ length temperatures.old) }
    requires ranges_nonzero { (0 < ranges) × (ranges ≤ length tables.corners.now) × (ranges ≤ length tables.k_s_to.now) × (ranges ≤ length tables.coefficients.now) }
    ensures { Each (is (λ (i : ℕ). celsius (lifted_ranged_at common ranges (table tables.entry.alpha.now tables.entry.corners.now tables.entry.k_s_to.now tables.entry.coefficients.now) (v numbers.now i) (base + i)))) nan temperatures.new side }
{
    let mut found = [0u32; SIDE];
    let mut values = [0.0f32; SIDE];
    temperature_block(common, tables.alpha, base, numbers, temperatures);
    find_ranges(ranges, tables.corners, temperatures, &mut found);
    ranged_values(
        common,
        tables,
        base,
        numbers,
        temperatures,
        &found,
        &mut values,
    );
    degrees_block(&values, temperatures);
}

// ---- What is written

// 1 where a number is written as the pattern, else 0.
fn lost_flag(x: f32) -> u32
    ensures { result ≡ lost_flag (to_bits binary32 x) }
{
    if x != x { 1 } else { 0 }
}

// The bits of a block's numbers, and which of them are the pattern.
fn number_bits(numbers: &[f32], bits: &mut [u32], flags: &mut [u32])
    requires { (side ≤ length numbers.now) × (side ≤ length bits.old) × (side ≤ length flags.old) }
    ensures { Flagged (number_bits numbers.now) bits.new flags.new side }
{
    for i in 0..SIDE {
        bits[i] = floats::to_bits(numbers[i]);
        flags[i] = lost_flag(numbers[i]);
    }
}

// The bits of a block's temperatures; of a pixel that had none the pattern, which is flagged to be counted.
fn answer_bits(numbers: &[f32], temperatures: &[f32], bits: &mut [u32], flags: &mut [u32])
    requires { (side ≤ length numbers.now) × (side ≤ length temperatures.now) × (side ≤ length bits.old) × (side ≤ length flags.old) }
    ensures { Flagged (answers_from temperatures.now numbers.now) bits.new flags.new side }
{
    for i in 0..SIDE {
        let answer = formulas::pixel_answer(numbers[i], temperatures[i]);
        let Pixel::Temperature(t) = answer else {
            bits[i] = PATTERN;
            flags[i] = 1;
            continue;
        };
        bits[i] = floats::to_bits(t);
        flags[i] = 0;
    }
}

// What the pixels of the block from base on are written as, from their infrared numbers, and which of them are lost.
fn bits_block(
    goal: Goal,
    tables: TemperatureTables<'_>,
    base: usize,
    numbers: &[f32],
    bits: &mut [u32],
    flags: &mut [u32],
)
    requires side_in_bounds { (side ≤ length numbers.now) × (side ≤ length bits.old) × (side ≤ length flags.old) }
    requires workable_for { WorkableFor goal (table tables.alpha.now tables.corners.now tables.k_s_to.now tables.coefficients.now) (base + side) }
    ensures { Flagged (λ (i : ℕ). bits_by goal (table tables.entry.alpha.now tables.entry.corners.now tables.entry.k_s_to.now tables.entry.coefficients.now) (v numbers.now i) (base + i)) bits.new flags.new side }
{
    let mut temperatures = [0.0f32; SIDE];
    match goal {
        Goal::Infrared => {
            number_bits(numbers, bits, flags);
        }
        Goal::Temperature(common) => {
            temperature_block(common, tables.alpha, base, numbers, &mut temperatures);
            answer_bits(numbers, &temperatures, bits, flags);
        }
        Goal::Ranged { common, ranges } => {
            ranged_block(common, ranges, tables, base, numbers, &mut temperatures);
            answer_bits(numbers, &temperatures, bits, flags);
        }
    }
}

// The bits of a block into the destination from base on, where the mask asks for them. Answers how many of those are flagged.
fn write_block(
    mask: &[u8],
    bits: &[u32; SIDE],
    flags: &[u32; SIDE],
    base: usize,
    destination: &mut [u32],
) -> u32
    requires { (base + side ≤ length mask.now) × (base + side ≤ length destination.old) × Each (IsNat (λ (i : ℕ). lost_flag (get_or bits.now i 0))) 0 flags.now side }
    ensures { Block mask.now (λ (i : ℕ). get_or bits.now i 0) base side destination.old destination.new result }
{
    let mut lost: u32 = 0;
    for i in 0..SIDE {
        let k = base + i;
        let asked = masked(mask, k);
        destination[k] = chosen(asked, bits[i], destination[k]);
        lost += chosen(asked, flags[i], 0);
    }
    lost
}

// The pixels of a frame into the destination, where the mask asks for them. Answers how many were written as the pattern.
pub fn frame_pixels(
    work: Work,
    mask: &[u8],
    lists: InfraredLists<'_>,
    tables: TemperatureTables<'_>,
    destination: &mut [u32],
) -> usize
    requires blocks_bound { (work.blocks ≤ 1000) × (work.blocks * side ≤ length mask.now) × (work.blocks * side ≤ length destination.old) }
    requires readable_for { ReadableFor work.source (lent lists.pixels.now lists.offsets.now lists.k_ta.now lists.k_v.now work.k_v_blocks lists.access.now work.access_blocks) work.blocks }
    requires workable_for { WorkableFor work.goal (table tables.alpha.now tables.corners.now tables.k_s_to.now tables.coefficients.now) (work.blocks * side) }
    ensures { Written work (lent lists.entry.pixels.now lists.entry.offsets.now lists.entry.k_ta.now lists.entry.k_v.now work.k_v_blocks lists.entry.access.now work.access_blocks) (table tables.entry.alpha.now tables.entry.corners.now tables.entry.k_s_to.now tables.entry.coefficients.now) mask.now destination.old destination.new result }
{
    let blocks = work.blocks;
    let goal = work.goal;
    let mut lost: usize = 0;
    for block in 0..blocks {
        let base = block * SIDE;
        if !any_masked(mask, base) {
            continue;
        }
        let mut numbers = [0.0f32; SIDE];
        let mut bits = [0u32; SIDE];
        let mut flags = [0u32; SIDE];
        numbers_block(work, block, lists, destination, &mut numbers);
        bits_block(goal, tables, base, &numbers, &mut bits, &mut flags);
        lost += write_block(mask, &bits, &flags, base, destination) as usize;
    }
    lost
}
