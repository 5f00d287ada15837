// The MLX90641's frame calls: pixels to infrared, infrared to temperature, both in one pass, and the second pass. Each call that takes pixels has a second
// form, which takes a filter's average. All of them pass the record's numbers and the tables to the calls of `frames`, which both cameras share. The lent
// tables stay slices of their own, and no struct: that is the form that the documents give these calls.
#![tactic(auto)]

ghost use Rattle.std.specs.Prelude.{◌≡◌, min, length};
ghost use Rattle.frames.specs.Frames.{own_reading, steadied, Infrareds, Temperatures, Passes};
ghost use Rattle.frames.specs.Ranged.{RangedPasses};
ghost use Rattle.frames.specs.Inner.{Makes};
ghost use Rattle.calculations.specs.Frames.{constants_of, ir_call, to_call, pass_call};

use calibration::Calibration;
use camera::Subpage;
use formulas::{Constants, RamData, Settings};
use frames::{Call, Frame, Wanted};
use map::RANGES;
use offsets::Offset;
use pixels::{InfraredLists, TemperatureTables};
use refusal::Refusal;
use roots::SIDE;

// The number of blocks of 32 pixels in a frame.
const BLOCKS: usize = 6;

// The inputs of a frame apart from the card's record and tables: the caller's settings, the RAM words, and the subpage.
#[derive(Clone, Copy)]
pub struct Input {
    pub settings: Settings,
    pub ram: RamData,
    pub subpage: Subpage,
}

// The same inputs, and a filter's average for the compensation pixel; `None` while there is none.
#[derive(Clone, Copy)]
pub struct FilteredInput {
    pub input: Input,
    pub compensation: Option<f32>,
}

// Returns the record's values that the formulas use.
fn constants_of(calibration: Calibration) -> Constants
    ensures { result ≡ constants_of calibration }
{
    let gradient = calibration.temperature_gradient_coefficient;
    Constants {
        k_v_dd: calibration.k_v_dd,
        v_dd_25: calibration.v_dd_25,
        k_v_ptat: calibration.k_v_ptat,
        k_t_ptat: calibration.k_t_ptat,
        v_ptat_25: calibration.v_ptat_25,
        alpha_ptat: calibration.alpha_ptat,
        gain: calibration.gain,
        k_s_ta: calibration.k_s_ta,
        alpha_cp: calibration.alpha_cp,
        offset_reference_cp: calibration.offset_reference_cp,
        k_v_cp: calibration.k_v_cp,
        k_ta_cp: calibration.k_ta_cp,
        temperature_gradient_coefficient: gradient,
    }
}

// Returns the length of the shortest of four tables.
fn shortest_of(offsets0: usize, offsets1: usize, k_v: usize, k_ta: usize) -> usize
    ensures { result ≡ min (min offsets0 offsets1) (min k_v k_ta) }
{
    util::least(util::least(offsets0, offsets1), util::least(k_v, k_ta))
}

// Runs a call from pixels with the given compensation reading. If infrared values are wanted, alpha is not read.
fn from_pixels<'a>(
    calibration: Calibration,
    input: Input,
    compensation: f32,
    wanted: Wanted,
    offsets0: &'a [Offset],
    offsets1: &'a [Offset],
    alpha: &[f32],
    k_v: &[f32],
    k_ta: &[f32],
    pixels: &[u8],
    mask: &[u8],
    destination: &mut [u32],
) -> Result<Frame, Refusal>
    ensures { Makes wanted (pass_call calibration (ir_call calibration input compensation offsets0.now offsets1.now k_v.now k_ta.now pixels.now mask.now) alpha.now)
        destination.old destination.new result }
{
    let constants = constants_of(calibration);
    let settings = input.settings;
    let ram = input.ram;
    let subpage = input.subpage;
    let call = Call {
        constants,
        settings,
        ram,
        compensation,
        access_cp: 0.0,
        blocks: BLOCKS,
        k_v_blocks: BLOCKS,
        access_blocks: 1,
        ranges: RANGES as u32,
        table: shortest_of(offsets0.len(), offsets1.len(), k_v.len(), k_ta.len()),
        wanted,
    };
    let offsets = eeprom::subpage_offsets(offsets0, offsets1, subpage);
    let access = [0.0f32; SIDE];
    let corners = calibration.corner_temperatures;
    let k_s_to = calibration.k_s_to;
    let coefficients = calibration.range_coefficients;
    let lists = InfraredLists {
        pixels,
        offsets,
        k_ta,
        k_v,
        access: &access,
    };
    let tables = TemperatureTables {
        alpha,
        corners: &corners,
        k_s_to: &k_s_to,
        coefficients: &coefficients,
    };
    frames::from_pixels(call, mask, lists, tables, destination)
}

// Turns infrared values into temperatures, in place, both as f32 bits. The ambient temperature is the caller's, and is returned.
pub fn raw_ir_to_temperatures(
    calibration: Calibration,
    settings: Settings,
    t_a: f32,
    alpha: &[f32],
    mask: &[u8],
    destination: &mut [u32],
) -> Result<Frame, Refusal>
    ensures { Temperatures (to_call calibration settings t_a alpha.now mask.now)
        destination.old destination.new result }
{
    let k_s_to = calibration.k_s_to;
    frames::from_infrared(
        constants_of(calibration),
        settings,
        t_a,
        BLOCKS,
        RANGES,
        &k_s_to,
        alpha,
        mask,
        destination,
    )
}

// Writes the bits of the pixels' infrared values into the destination.
pub fn raw_pixels_to_ir_data<'a>(
    calibration: Calibration,
    input: Input,
    offsets0: &'a [Offset],
    offsets1: &'a [Offset],
    k_v: &[f32],
    k_ta: &[f32],
    pixels: &[u8],
    mask: &[u8],
    destination: &mut [u32],
) -> Result<Frame, Refusal>
    ensures { Infrareds (ir_call calibration input (own_reading input.ram) offsets0.now offsets1.now k_v.now k_ta.now pixels.now mask.now)
        destination.old destination.new result }
{
    let ram = input.ram;
    let reading = frames::own_reading(ram);
    from_pixels(
        calibration,
        input,
        reading,
        Wanted::Infrared,
        offsets0,
        offsets1,
        k_ta,
        k_v,
        k_ta,
        pixels,
        mask,
        destination,
    )
}

// The same as `raw_pixels_to_ir_data`, with the compensation reading from a filter.
pub fn filtered_pixels_to_ir_data<'a>(
    calibration: Calibration,
    filtered: FilteredInput,
    offsets0: &'a [Offset],
    offsets1: &'a [Offset],
    k_v: &[f32],
    k_ta: &[f32],
    pixels: &[u8],
    mask: &[u8],
    destination: &mut [u32],
) -> Result<Frame, Refusal>
    ensures { Infrareds (ir_call calibration filtered.input (steadied filtered.compensation filtered.input.ram) offsets0.now offsets1.now k_v.now k_ta.now pixels.now mask.now)
        destination.old destination.new result }
{
    let input = filtered.input;
    let compensation = filtered.compensation;
    let ram = input.ram;
    let reading = frames::steadied(compensation, ram);
    from_pixels(
        calibration,
        input,
        reading,
        Wanted::Infrared,
        offsets0,
        offsets1,
        k_ta,
        k_v,
        k_ta,
        pixels,
        mask,
        destination,
    )
}

// Writes the bits of the pixels' temperatures into the destination, in one pass.
pub fn raw_pixels_to_temperatures<'a>(
    calibration: Calibration,
    input: Input,
    offsets0: &'a [Offset],
    offsets1: &'a [Offset],
    alpha: &[f32],
    k_v: &[f32],
    k_ta: &[f32],
    pixels: &[u8],
    mask: &[u8],
    destination: &mut [u32],
) -> Result<Frame, Refusal>
    ensures { Passes (pass_call calibration (ir_call calibration input (own_reading input.ram) offsets0.now offsets1.now k_v.now k_ta.now pixels.now mask.now) alpha.now)
        destination.old destination.new result }
{
    let ram = input.ram;
    let reading = frames::own_reading(ram);
    from_pixels(
        calibration,
        input,
        reading,
        Wanted::Temperature,
        offsets0,
        offsets1,
        alpha,
        k_v,
        k_ta,
        pixels,
        mask,
        destination,
    )
}

// The same as `raw_pixels_to_temperatures`, with the compensation reading from a filter.
pub fn filtered_pixels_to_temperatures<'a>(
    calibration: Calibration,
    filtered: FilteredInput,
    offsets0: &'a [Offset],
    offsets1: &'a [Offset],
    alpha: &[f32],
    k_v: &[f32],
    k_ta: &[f32],
    pixels: &[u8],
    mask: &[u8],
    destination: &mut [u32],
) -> Result<Frame, Refusal>
    ensures { Passes (pass_call calibration (ir_call calibration filtered.input (steadied filtered.compensation filtered.input.ram) offsets0.now offsets1.now k_v.now k_ta.now pixels.now mask.now) alpha.now)
        destination.old destination.new result }
{
    let input = filtered.input;
    let compensation = filtered.compensation;
    let ram = input.ram;
    let reading = frames::steadied(compensation, ram);
    from_pixels(
        calibration,
        input,
        reading,
        Wanted::Temperature,
        offsets0,
        offsets1,
        alpha,
        k_v,
        k_ta,
        pixels,
        mask,
        destination,
    )
}

// The second pass: writes the bits of the pixels' temperatures, each computed by the range that holds its basic temperature.
pub fn raw_pixels_to_ranged_temperatures<'a>(
    calibration: Calibration,
    input: Input,
    offsets0: &'a [Offset],
    offsets1: &'a [Offset],
    alpha: &[f32],
    k_v: &[f32],
    k_ta: &[f32],
    pixels: &[u8],
    mask: &[u8],
    destination: &mut [u32],
) -> Result<Frame, Refusal>
    ensures { RangedPasses (pass_call calibration (ir_call calibration input (own_reading input.ram) offsets0.now offsets1.now k_v.now k_ta.now pixels.now mask.now) alpha.now)
        destination.old destination.new result }
{
    let ram = input.ram;
    let reading = frames::own_reading(ram);
    from_pixels(
        calibration,
        input,
        reading,
        Wanted::Ranged,
        offsets0,
        offsets1,
        alpha,
        k_v,
        k_ta,
        pixels,
        mask,
        destination,
    )
}

// The same as `raw_pixels_to_ranged_temperatures`, with the compensation reading from a filter.
pub fn filtered_pixels_to_ranged_temperatures<'a>(
    calibration: Calibration,
    filtered: FilteredInput,
    offsets0: &'a [Offset],
    offsets1: &'a [Offset],
    alpha: &[f32],
    k_v: &[f32],
    k_ta: &[f32],
    pixels: &[u8],
    mask: &[u8],
    destination: &mut [u32],
) -> Result<Frame, Refusal>
    ensures { RangedPasses (pass_call calibration (ir_call calibration filtered.input (steadied filtered.compensation filtered.input.ram) offsets0.now offsets1.now k_v.now k_ta.now pixels.now mask.now) alpha.now)
        destination.old destination.new result }
{
    let input = filtered.input;
    let compensation = filtered.compensation;
    let ram = input.ram;
    let reading = frames::steadied(compensation, ram);
    from_pixels(
        calibration,
        input,
        reading,
        Wanted::Ranged,
        offsets0,
        offsets1,
        alpha,
        k_v,
        k_ta,
        pixels,
        mask,
        destination,
    )
}
