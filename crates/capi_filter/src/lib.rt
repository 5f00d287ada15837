// The filter of the compensation pixel, for C and Rust, and the MLX90641's frame calls that take its average.
#![tactic(auto)]

ghost use Rattle.std.specs.Prelude.{◌≡◌};
ghost use Rattle.filter.specs.Filter.{empty, pushed, average_of};
ghost use Rattle.frames.specs.Frames.{steadied, Infrareds, Passes};
ghost use Rattle.frames.specs.Ranged.{RangedPasses};
ghost use Rattle.calculations.specs.Frames.{ir_call, pass_call};
ghost use Rattle.capi_record.specs.Record.{record_in};
ghost use Rattle.capi_frames.specs.Border.{input_in, Carried};
ghost use Rattle.capi_filter.specs.Border.{average_out, steadied_in, filtered_in};

use calculations::FilteredInput;
use capi_frames::{Answer, Input};
use capi_record::Record;
use filter::Filter;
use offsets::Offset;

// What a filter returns: the average of the last 16 readings with `ready` 1, or +0 with `ready` 0 if there are fewer than 16. C has no `Option`.
#[repr(C)]
#[derive(Clone, Copy)]
pub struct Average {
    pub average: f32,
    pub ready: u8,
}

// The inputs of a filtered frame: those of the plain one, and what the filter returned. If `ready` is 0, the frame's own reading is used.
#[repr(C)]
#[derive(Clone, Copy)]
pub struct Filtered {
    pub input: Input,
    pub compensation: Average,
}

// Returns a filter without readings. To reset a filter, replace it by this one.
#[unsafe(no_mangle)]
pub extern "C" fn loamchalice_filter_new() -> Filter
    ensures { result ≡ empty }
{
    filter::new()
}

// Returns the filter with one more raw reading.
#[unsafe(no_mangle)]
pub extern "C" fn loamchalice_filter_push(filter: Filter, reading: i16) -> Filter
    ensures { result ≡ pushed filter reading }
{
    filter::push(filter, reading)
}

// What a filter returned, as C has it.
impl From<Option<f32>> for Average {
    ghost from_gives = { λ steadied result. result ≡ average_out steadied };

    fn from(steadied: Option<f32>) -> Average {
        match steadied {
            None => Average {
                average: 0.0,
                ready: 0,
            },
            Some(average) => Average { average, ready: 1 },
        }
    }
}

// Returns the average of the last 16 readings, which is exact.
#[unsafe(no_mangle)]
pub extern "C" fn loamchalice_filter_average(filter: Filter) -> Average
    ensures { result ≡ average_out (average_of filter) }
{
    filter::average(filter).into()
}

// What a filter returned, from C's: `ready` 0 is `None`.
impl From<Average> for Option<f32> {
    ghost from_gives = { λ average result. result ≡ steadied_in average };

    fn from(average: Average) -> Option<f32> {
        if average.ready == 0 {
            None
        } else {
            Some(average.average)
        }
    }
}

// The inputs that the inner calls take, from C's.
impl From<Filtered> for FilteredInput {
    ghost from_gives = { λ filtered result. result ≡ filtered_in filtered };

    fn from(filtered: Filtered) -> FilteredInput {
        let input = filtered.input;
        let compensation = filtered.compensation;
        FilteredInput {
            input: input.into(),
            compensation: compensation.into(),
        }
    }
}

// Writes infrared values as the plain call does, with the filter's average. Refusals 2, 10, 7, 8; after one the destination is unchanged.
#[unsafe(no_mangle)]
pub extern "C" fn loamchalice_filtered_pixels_to_ir_data<'a>(
    calibration: Record,
    filtered: Filtered,
    offsets0: &'a [Offset],
    offsets1: &'a [Offset],
    k_v: &[f32],
    k_ta: &[f32],
    pixels: &[u8],
    mask: &[u8],
    destination: &mut [u32],
) -> Answer
    ensures { Carried (Infrareds (ir_call (record_in calibration) (filtered_in filtered).input (steadied (filtered_in filtered).compensation (filtered_in filtered).input.ram) offsets0.now offsets1.now k_v.now k_ta.now pixels.now mask.now)
        destination.old destination.new) result }
{
    let record = calibration.into();
    let inner = filtered.into();
    let frame = calculations::filtered_pixels_to_ir_data(
        record,
        inner,
        offsets0,
        offsets1,
        k_v,
        k_ta,
        pixels,
        mask,
        destination,
    );
    frame.into()
}

// Writes temperatures in one pass as the plain call does, with the filter's average. Refusals 2, 10, 6, 7, 8; after one the destination is unchanged.
#[unsafe(no_mangle)]
pub extern "C" fn loamchalice_filtered_pixels_to_temperatures<'a>(
    calibration: Record,
    filtered: Filtered,
    offsets0: &'a [Offset],
    offsets1: &'a [Offset],
    alpha: &[f32],
    k_v: &[f32],
    k_ta: &[f32],
    pixels: &[u8],
    mask: &[u8],
    destination: &mut [u32],
) -> Answer
    ensures { Carried (Passes (pass_call (record_in calibration) (ir_call (record_in calibration) (filtered_in filtered).input (steadied (filtered_in filtered).compensation (filtered_in filtered).input.ram) offsets0.now offsets1.now k_v.now k_ta.now pixels.now mask.now) alpha.now)
        destination.old destination.new) result }
{
    let record = calibration.into();
    let inner = filtered.into();
    let frame = calculations::filtered_pixels_to_temperatures(
        record,
        inner,
        offsets0,
        offsets1,
        alpha,
        k_v,
        k_ta,
        pixels,
        mask,
        destination,
    );
    frame.into()
}

// Writes temperatures by the second pass as the plain call does, with the filter's average. Refusals 2, 10, 6, 7, 8, 12; after one the destination is
// unchanged.
#[unsafe(no_mangle)]
pub extern "C" fn loamchalice_filtered_pixels_to_ranged_temperatures<'a>(
    calibration: Record,
    filtered: Filtered,
    offsets0: &'a [Offset],
    offsets1: &'a [Offset],
    alpha: &[f32],
    k_v: &[f32],
    k_ta: &[f32],
    pixels: &[u8],
    mask: &[u8],
    destination: &mut [u32],
) -> Answer
    ensures { Carried (RangedPasses (pass_call (record_in calibration) (ir_call (record_in calibration) (filtered_in filtered).input (steadied (filtered_in filtered).compensation (filtered_in filtered).input.ram) offsets0.now offsets1.now k_v.now k_ta.now pixels.now mask.now) alpha.now)
        destination.old destination.new) result }
{
    let record = calibration.into();
    let inner = filtered.into();
    let frame = calculations::filtered_pixels_to_ranged_temperatures(
        record,
        inner,
        offsets0,
        offsets1,
        alpha,
        k_v,
        k_ta,
        pixels,
        mask,
        destination,
    );
    frame.into()
}
