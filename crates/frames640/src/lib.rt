// The MLX90640's frame calls: pixels to infrared, infrared to temperature, both in one pass, and the second pass. Each call that takes pixels has a second
// form, which takes a filter's average. All of them pass the record's numbers for the subpage and the tables to the calls of `frames`, which both cameras
// share. The lent tables stay slices of their own, and no struct: that is the form that the documents give these calls.
#![tactic(auto)]

ghost use Rattle.std.specs.Prelude.{◌≡◌, min, ◌<◌, pos, length, get_or};
ghost use Rattle.frames.specs.Frames.{own_reading, steadied, Infrareds, Temperatures, Passes};
ghost use Rattle.frames.specs.Ranged.{RangedPasses};
ghost use Rattle.frames.specs.Inner.{Makes};
ghost use Rattle.frames640.specs.Frames.{constants_of, access_cp_of, ir_call, to_call, pass_call};

use camera::Subpage;
use formulas::{Constants, RamData, Settings};
use frames::{Call, Frame, Wanted};
use pixels::{InfraredLists, TemperatureTables};
use record640::{Calibration, RANGES};
use refusal::Refusal;
use rows640::{Pattern, TWO_ROWS};

// The number of blocks of 32 pixels in a frame. A block is a row.
const BLOCKS: usize = 24;

// The inputs of a frame apart from the card's record and tables: the caller's settings, the RAM words, the subpage and the access pattern.
#[derive(Clone, Copy)]
pub struct Input {
    pub settings: Settings,
    pub ram: RamData,
    pub subpage: Subpage,
    pub pattern: Pattern,
}

// The same inputs, and the average of the subpage's filter for the compensation pixel; `None` while there is none.
#[derive(Clone, Copy)]
pub struct FilteredInput {
    pub input: Input,
    pub compensation: Option<f32>,
}

// Returns the entry of subpage `number`.
fn offset_of(two: &[i16], number: usize) -> i16
    requires { number < length two.now }
    ensures { result ≡ get_or two.now number (pos 0) }
{
    two[number]
}

// Returns the record's values that the formulas use, for a subpage.
fn constants_of(calibration: Calibration, subpage: Subpage) -> Constants
    ensures { result ≡ constants_of calibration subpage }
{
    let number = rows640::number_of(subpage);
    let gradient = calibration.temperature_gradient_coefficient;
    let alpha_cp = calibration.alpha_cp;
    let offset_cp = calibration.offset_reference_cp;
    Constants {
        k_v_dd: calibration.k_v_dd,
        v_dd_25: calibration.v_dd_25,
        k_v_ptat: calibration.k_v_ptat,
        k_t_ptat: calibration.k_t_ptat,
        v_ptat_25: calibration.v_ptat_25,
        alpha_ptat: calibration.alpha_ptat,
        gain: calibration.gain,
        k_s_ta: calibration.k_s_ta,
        alpha_cp: alpha_cp[number],
        offset_reference_cp: offset_of(&offset_cp, number),
        k_v_cp: calibration.k_v_cp,
        k_ta_cp: calibration.k_ta_cp,
        temperature_gradient_coefficient: gradient,
    }
}

// Returns the access term of the compensation pixel: the card's correction in interleave and subpage 1, else 0.
fn access_cp(pattern: Pattern, subpage: Subpage, correction: f32) -> f32
    ensures { result ≡ access_cp_of pattern subpage correction }
{
    match pattern {
        Pattern::Chess => 0.0,
        Pattern::Interleave => match subpage {
            Subpage::Zero => 0.0,
            Subpage::One => correction,
        },
    }
}

// Runs a call from pixels with the given compensation reading. If infrared values are wanted, alpha is not read.
fn from_pixels(
    calibration: Calibration,
    input: Input,
    compensation: f32,
    wanted: Wanted,
    offsets: &[i32],
    alpha: &[f32],
    k_ta: &[f32],
    pixels: &[u8],
    mask: &[u8],
    destination: &mut [u32],
) -> Result<Frame, Refusal>
    ensures { Makes wanted (pass_call calibration (ir_call calibration input compensation offsets.now k_ta.now pixels.now mask.now) alpha.now)
        destination.old destination.new result }
{
    let settings = input.settings;
    let ram = input.ram;
    let subpage = input.subpage;
    let pattern = input.pattern;
    let constants = constants_of(calibration, subpage);
    let call = Call {
        constants,
        settings,
        ram,
        compensation,
        access_cp: access_cp(pattern, subpage, calibration.access_cp),
        blocks: BLOCKS,
        k_v_blocks: 2,
        access_blocks: 2,
        ranges: RANGES as u32,
        table: util::least(offsets.len(), k_ta.len()),
        wanted,
    };
    let four = calibration.k_v;
    let mut k_v = [0.0f32; TWO_ROWS];
    rows640::k_v_rows(four, &mut k_v);
    let six = calibration.access_pattern;
    let mut access = [0.0f32; TWO_ROWS];
    rows640::access_rows(pattern, six, &mut access);
    let corners = calibration.corner_temperatures;
    let k_s_to = calibration.k_s_to;
    let coefficients = calibration.range_coefficients;
    let lists = InfraredLists {
        pixels,
        offsets,
        k_ta,
        k_v: &k_v,
        access: &access,
    };
    let tables = TemperatureTables {
        alpha,
        corners: &corners,
        k_s_to: &k_s_to,
        coefficients: &coefficients,
    };
    frames::from_pixels(call, mask, lists, tables, destination)
}

// Turns a subpage's infrared values into temperatures, in place, both as f32 bits. The ambient temperature is the caller's, and is returned.
pub fn raw_ir_to_temperatures(
    calibration: Calibration,
    settings: Settings,
    subpage: Subpage,
    t_a: f32,
    alpha: &[f32],
    mask: &[u8],
    destination: &mut [u32],
) -> Result<Frame, Refusal>
    ensures { Temperatures (to_call calibration settings subpage t_a alpha.now mask.now)
        destination.old destination.new result }
{
    let k_s_to = calibration.k_s_to;
    frames::from_infrared(
        constants_of(calibration, subpage),
        settings,
        t_a,
        BLOCKS,
        RANGES,
        &k_s_to,
        alpha,
        mask,
        destination,
    )
}

// Writes the bits of the pixels' infrared values into the destination.
pub fn raw_pixels_to_ir_data(
    calibration: Calibration,
    input: Input,
    offsets: &[i32],
    k_ta: &[f32],
    pixels: &[u8],
    mask: &[u8],
    destination: &mut [u32],
) -> Result<Frame, Refusal>
    ensures { Infrareds (ir_call calibration input (own_reading input.ram) offsets.now k_ta.now pixels.now mask.now)
        destination.old destination.new result }
{
    let ram = input.ram;
    let reading = frames::own_reading(ram);
    from_pixels(
        calibration,
        input,
        reading,
        Wanted::Infrared,
        offsets,
        k_ta,
        k_ta,
        pixels,
        mask,
        destination,
    )
}

// The same as `raw_pixels_to_ir_data`, with the compensation reading from a filter.
pub fn filtered_pixels_to_ir_data(
    calibration: Calibration,
    filtered: FilteredInput,
    offsets: &[i32],
    k_ta: &[f32],
    pixels: &[u8],
    mask: &[u8],
    destination: &mut [u32],
) -> Result<Frame, Refusal>
    ensures { Infrareds (ir_call calibration filtered.input (steadied filtered.compensation filtered.input.ram) offsets.now k_ta.now pixels.now mask.now)
        destination.old destination.new result }
{
    let input = filtered.input;
    let compensation = filtered.compensation;
    let ram = input.ram;
    let reading = frames::steadied(compensation, ram);
    from_pixels(
        calibration,
        input,
        reading,
        Wanted::Infrared,
        offsets,
        k_ta,
        k_ta,
        pixels,
        mask,
        destination,
    )
}

// Writes the bits of the pixels' temperatures into the destination, in one pass.
pub fn raw_pixels_to_temperatures(
    calibration: Calibration,
    input: Input,
    offsets: &[i32],
    alpha: &[f32],
    k_ta: &[f32],
    pixels: &[u8],
    mask: &[u8],
    destination: &mut [u32],
) -> Result<Frame, Refusal>
    ensures { Passes (pass_call calibration (ir_call calibration input (own_reading input.ram) offsets.now k_ta.now pixels.now mask.now) alpha.now)
        destination.old destination.new result }
{
    let ram = input.ram;
    let reading = frames::own_reading(ram);
    from_pixels(
        calibration,
        input,
        reading,
        Wanted::Temperature,
        offsets,
        alpha,
        k_ta,
        pixels,
        mask,
        destination,
    )
}

// The same as `raw_pixels_to_temperatures`, with the compensation reading from a filter.
pub fn filtered_pixels_to_temperatures(
    calibration: Calibration,
    filtered: FilteredInput,
    offsets: &[i32],
    alpha: &[f32],
    k_ta: &[f32],
    pixels: &[u8],
    mask: &[u8],
    destination: &mut [u32],
) -> Result<Frame, Refusal>
    ensures { Passes (pass_call calibration (ir_call calibration filtered.input (steadied filtered.compensation filtered.input.ram) offsets.now k_ta.now pixels.now mask.now) alpha.now)
        destination.old destination.new result }
{
    let input = filtered.input;
    let compensation = filtered.compensation;
    let ram = input.ram;
    let reading = frames::steadied(compensation, ram);
    from_pixels(
        calibration,
        input,
        reading,
        Wanted::Temperature,
        offsets,
        alpha,
        k_ta,
        pixels,
        mask,
        destination,
    )
}

// The second pass: writes the bits of the pixels' temperatures, each computed by the range that holds its basic temperature.
pub fn raw_pixels_to_ranged_temperatures(
    calibration: Calibration,
    input: Input,
    offsets: &[i32],
    alpha: &[f32],
    k_ta: &[f32],
    pixels: &[u8],
    mask: &[u8],
    destination: &mut [u32],
) -> Result<Frame, Refusal>
    ensures { RangedPasses (pass_call calibration (ir_call calibration input (own_reading input.ram) offsets.now k_ta.now pixels.now mask.now) alpha.now)
        destination.old destination.new result }
{
    let ram = input.ram;
    let reading = frames::own_reading(ram);
    from_pixels(
        calibration,
        input,
        reading,
        Wanted::Ranged,
        offsets,
        alpha,
        k_ta,
        pixels,
        mask,
        destination,
    )
}

// The same as `raw_pixels_to_ranged_temperatures`, with the compensation reading from a filter.
pub fn filtered_pixels_to_ranged_temperatures(
    calibration: Calibration,
    filtered: FilteredInput,
    offsets: &[i32],
    alpha: &[f32],
    k_ta: &[f32],
    pixels: &[u8],
    mask: &[u8],
    destination: &mut [u32],
) -> Result<Frame, Refusal>
    ensures { RangedPasses (pass_call calibration (ir_call calibration filtered.input (steadied filtered.compensation filtered.input.ram) offsets.now k_ta.now pixels.now mask.now) alpha.now)
        destination.old destination.new result }
{
    let input = filtered.input;
    let compensation = filtered.compensation;
    let ram = input.ram;
    let reading = frames::steadied(compensation, ram);
    from_pixels(
        calibration,
        input,
        reading,
        Wanted::Ranged,
        offsets,
        alpha,
        k_ta,
        pixels,
        mask,
        destination,
    )
}
