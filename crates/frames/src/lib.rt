// The frame calls of any camera: pixels to infrared values or temperatures, and infrared values to temperatures. Each camera's own calls pass in the parts of
// its record and tables that these need.
#![tactic(auto)]

ghost use Rattle.std.specs.Prelude.{◌≡◌, min, ◌*◌, ◌<◌, ◌≤◌, List, ℤ, length, get_or, Float};
ghost use Rattle.std.specs.Float.{nan};
ghost use Rattle.refusal.specs.Order.{first_of};
ghost use Rattle.roots.specs.Many.{side};
ghost use Rattle.formulas.specs.Inner.{common_to_of};
ghost use Rattle.gates.specs.Gate.{one_pass_tests};
ghost use Rattle.pixels.specs.Inner.{lent, Tabled};
ghost use Rattle.frames.specs.Frames.{own_reading, steadied, Temperatures};
ghost use Rattle.frames.specs.Inner.{any_ir, ranges_of, any_pass, shorter, tests_of, Makes, InRange, goal_by, any_to};

use formulas::{CommonToData, Constants, RamData, Settings};
use gates::Lengths;
use pixels::{Goal, InfraredLists, Source, TemperatureTables, Work};
use refusal::{Refusal, Verdict};
use roots::SIDE;

// What a frame call returns: the bits of the ambient temperature, and the number of pixels that this call wrote as NaN (0x7FC00000).
#[derive(Clone, Copy, Debug, PartialEq, Eq)]
pub struct Frame {
    pub t_a: u32,
    pub lost: usize,
}

// What a call from pixels writes: infrared values, temperatures in one pass, or temperatures by the second pass. A match on it is plainer than a closure for
// each: one place has the tests of all three, and one what is computed.
#[derive(Clone, Copy)]
pub enum Wanted {
    Infrared,
    Temperature,
    Ranged,
}

// The arguments of a call from pixels that are passed by value. A frame has `blocks` blocks of 32 pixels. The lists of K_V and access terms have block counts
// of their own and are repeated over the frame. `table` is the length of the shortest table that an infrared call takes.
#[derive(Clone, Copy)]
pub struct Call {
    pub constants: Constants,
    pub settings: Settings,
    pub ram: RamData,
    pub compensation: f32,
    pub access_cp: f32,
    pub blocks: usize,
    pub k_v_blocks: usize,
    pub access_blocks: usize,
    pub ranges: u32,
    pub table: usize,
    pub wanted: Wanted,
}

// Returns the frame's own reading of the compensation pixel.
pub fn own_reading(ram: RamData) -> f32
    ensures { result ≡ own_reading ram }
{
    ram.compensation_pixel as f32
}

// Returns the compensation reading that the formulas use: the filter's average, or the frame's own reading while the filter has no average.
pub fn steadied(compensation: Option<f32>, ram: RamData) -> f32
    ensures { result ≡ steadied compensation ram }
{
    match compensation {
        None => own_reading(ram),
        Some(average) => average,
    }
}

// Returns the number of ranges as a `usize`.
fn wide(ranges: u32) -> usize
    ensures { result ≡ ranges }
{
    ranges as usize
}

// The first refusal of a one-pass call, or a pass. `alpha` is the length of the alpha table.
fn pass_gate(call: Call, lengths: Lengths, alpha: usize) -> Verdict
    ensures { result ≡ first_of (one_pass_tests call.constants call.settings.emissivity call.ram call.ranges call.settings.basic_range (shorter lengths alpha)) }
{
    let constants = call.constants;
    let settings = call.settings;
    let ram = call.ram;
    let shorter = Lengths {
        size: lengths.size,
        table: util::least(alpha, lengths.table),
        pixels: lengths.pixels,
        destination: lengths.destination,
        mask: lengths.mask,
    };
    gates::one_pass_gate(
        constants,
        settings.emissivity,
        ram,
        wide(call.ranges),
        settings.basic_range,
        shorter,
    )
}

// The first refusal of a call from pixels, or a pass. `alpha` is the length of the alpha table.
fn gate(call: Call, lengths: Lengths, alpha: usize, corners: &[i16]) -> Verdict
    requires { (0 < call.ranges) × (call.ranges ≤ length corners.now) }
    ensures { result ≡ first_of (tests_of call.wanted call corners.now alpha lengths) }
{
    let wanted = call.wanted;
    match wanted {
        Wanted::Infrared => {
            let constants = call.constants;
            let settings = call.settings;
            let ram = call.ram;
            gates::infrared_gate(constants, settings.emissivity, ram, lengths)
        }
        Wanted::Temperature => pass_gate(call, lengths, alpha),
        Wanted::Ranged => {
            pass_gate(call, lengths, alpha)?;
            ranges::corner_gate(wide(call.ranges), corners)
        }
    }
}

// Returns the numbers that all pixels share in the step to temperatures.
fn common_to(constants: Constants, settings: Settings, t_a: f32, k_s_to: &[f32]) -> CommonToData
    requires { settings.basic_range < length k_s_to.now }
    ensures { result ≡ common_to_of constants settings t_a (get_or k_s_to.now settings.basic_range nan) }
{
    let range = settings.basic_range;
    formulas::common_to_data(constants, settings, t_a, k_s_to[range])
}

// Returns what the pixel loop is to compute for a call.
fn goal_of(call: Call, t_a: f32, k_s_to: &[f32]) -> Goal
    requires { InRange call.wanted call.settings.basic_range (length k_s_to.now) }
    ensures { result ≡ goal_by call.wanted (common_to_of call.constants call.settings t_a (get_or k_s_to.now call.settings.basic_range nan)) call.ranges }
{
    let constants = call.constants;
    let settings = call.settings;
    let wanted = call.wanted;
    match wanted {
        Wanted::Infrared => Goal::Infrared,
        Wanted::Temperature => Goal::Temperature(common_to(constants, settings, t_a, k_s_to)),
        Wanted::Ranged => Goal::Ranged {
            common: common_to(constants, settings, t_a, k_s_to),
            ranges: call.ranges,
        },
    }
}

// Runs a call from pixels: writes the bits of each value that the mask asks for into the destination. A refused call writes nothing.
pub fn from_pixels(
    call: Call,
    mask: &[u8],
    lists: InfraredLists<'_>,
    tables: TemperatureTables<'_>,
    destination: &mut [u32],
) -> Result<Frame, Refusal>
    requires blocks_bound { (call.blocks ≤ 1000) × (call.blocks * side ≤ call.table → Tabled (lent lists.pixels.now lists.offsets.now lists.k_ta.now lists.k_v.now call.k_v_blocks lists.access.now call.access_blocks) call.blocks) }
    requires ranges_nonzero { (0 < call.ranges) × (call.ranges ≤ length tables.corners.now) × (call.ranges ≤ length tables.k_s_to.now) × (call.ranges ≤ length tables.coefficients.now) }
    ensures { Makes call.wanted (any_pass (any_ir call lists.entry.pixels.now lists.entry.offsets.now lists.entry.k_ta.now lists.entry.k_v.now lists.entry.access.now mask.now)
        (ranges_of call.ranges tables.entry.corners.now tables.entry.k_s_to.now tables.entry.coefficients.now) tables.entry.alpha.now)
        destination.old destination.new result }
{
    let lengths = Lengths {
        size: call.blocks * SIDE,
        table: call.table,
        pixels: lists.pixels.len(),
        destination: destination.len(),
        mask: mask.len(),
    };
    gate(call, lengths, tables.alpha.len(), tables.corners)?;
    let constants = call.constants;
    let settings = call.settings;
    let ram = call.ram;
    let common = formulas::common_ir_data(constants, settings, ram);
    let deduction = formulas::compensation(constants, common, call.compensation, call.access_cp);
    let work = Work {
        blocks: call.blocks,
        k_v_blocks: call.k_v_blocks,
        access_blocks: call.access_blocks,
        source: Source::Pixels { common, deduction },
        goal: goal_of(call, common.t_a, tables.k_s_to),
    };
    let lost = pixels::frame_pixels(work, mask, lists, tables, destination);
    Ok(Frame {
        t_a: floats::to_bits(common.t_a),
        lost,
    })
}

// Turns infrared values into temperatures, in place, both as f32 bits. The ambient temperature is the caller's, and is returned.
pub fn from_infrared(
    constants: Constants,
    settings: Settings,
    t_a: f32,
    blocks: usize,
    ranges: usize,
    k_s_to: &[f32],
    alpha: &[f32],
    mask: &[u8],
    destination: &mut [u32],
) -> Result<Frame, Refusal>
    requires { (blocks ≤ 1000) × (ranges ≤ length k_s_to.now) }
    ensures { (corners : List ℤ) (coefficients : List Float) → Temperatures (any_to constants settings t_a blocks (ranges_of ranges corners k_s_to.now coefficients) alpha.now mask.now)
        destination.old destination.new result }
{
    let size = blocks * SIDE;
    let lengths = Lengths {
        size,
        table: alpha.len(),
        pixels: 2 * size,
        destination: destination.len(),
        mask: mask.len(),
    };
    gates::temperature_gate(settings.emissivity, ranges, settings.basic_range, lengths)?;
    let work = Work {
        blocks,
        k_v_blocks: 0,
        access_blocks: 0,
        source: Source::Destination,
        goal: Goal::Temperature(common_to(constants, settings, t_a, k_s_to)),
    };
    // The pixel loop reads none of the lists that only pixels or the second pass need.
    let no_offsets = [0i32; 1];
    let no_corners = [0i16; 1];
    let lists = InfraredLists {
        pixels: mask,
        offsets: &no_offsets,
        k_ta: alpha,
        k_v: alpha,
        access: alpha,
    };
    let tables = TemperatureTables {
        alpha,
        corners: &no_corners,
        k_s_to,
        coefficients: k_s_to,
    };
    let lost = pixels::frame_pixels(work, mask, lists, tables, destination);
    Ok(Frame {
        t_a: floats::to_bits(t_a),
        lost,
    })
}
