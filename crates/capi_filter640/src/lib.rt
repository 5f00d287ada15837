// The MLX90640's frame calls that take a filter's average of the compensation pixel, for C and Rust.
#![tactic(auto)]

ghost use Rattle.std.specs.Prelude.{◌≡◌};
ghost use Rattle.frames.specs.Frames.{steadied, Infrareds, Passes};
ghost use Rattle.frames.specs.Ranged.{RangedPasses};
ghost use Rattle.frames640.specs.Frames.{ir_call, pass_call};
ghost use Rattle.capi_frames.specs.Border.{Carried};
ghost use Rattle.capi_record640.specs.Record.{record_in};
ghost use Rattle.capi_filter640.specs.Border.{filtered_in};

use capi_filter::Average;
use capi_frames::Answer;
use capi_frames640::Input640;
use capi_record640::Record640;
use frames640::FilteredInput;

// The inputs of a filtered frame: those of the plain one, and what the subpage's own filter returned. If `ready` is 0, the frame's own reading is used.
#[repr(C)]
#[derive(Clone, Copy)]
pub struct Filtered640 {
    pub input: Input640,
    pub compensation: Average,
}

// The inputs that the inner calls take, from C's.
impl From<Filtered640> for FilteredInput {
    ghost from_gives = { λ filtered result. result ≡ filtered_in filtered };

    fn from(filtered: Filtered640) -> FilteredInput {
        let input = filtered.input;
        let compensation = filtered.compensation;
        FilteredInput {
            input: input.into(),
            compensation: compensation.into(),
        }
    }
}

// Writes infrared values as the plain call does, with the filter's average. Refusals 2, 10, 7, 8; after one the destination is unchanged.
#[unsafe(no_mangle)]
pub extern "C" fn loamchalice_mlx90640_filtered_pixels_to_ir_data(
    calibration: Record640,
    filtered: Filtered640,
    offsets: &[i32],
    k_ta: &[f32],
    pixels: &[u8],
    mask: &[u8],
    destination: &mut [u32],
) -> Answer
    ensures { Carried (Infrareds (ir_call (record_in calibration) (filtered_in filtered).input (steadied (filtered_in filtered).compensation (filtered_in filtered).input.ram) offsets.now k_ta.now pixels.now mask.now)
        destination.old destination.new) result }
{
    let record = calibration.into();
    let inner = filtered.into();
    let frame = frames640::filtered_pixels_to_ir_data(
        record,
        inner,
        offsets,
        k_ta,
        pixels,
        mask,
        destination,
    );
    frame.into()
}

// Writes temperatures in one pass as the plain call does, with the filter's average. Refusals 2, 10, 6, 7, 8; after one the destination is unchanged.
#[unsafe(no_mangle)]
pub extern "C" fn loamchalice_mlx90640_filtered_pixels_to_temperatures(
    calibration: Record640,
    filtered: Filtered640,
    offsets: &[i32],
    alpha: &[f32],
    k_ta: &[f32],
    pixels: &[u8],
    mask: &[u8],
    destination: &mut [u32],
) -> Answer
    ensures { Carried (Passes (pass_call (record_in calibration) (ir_call (record_in calibration) (filtered_in filtered).input (steadied (filtered_in filtered).compensation (filtered_in filtered).input.ram) offsets.now k_ta.now pixels.now mask.now) alpha.now)
        destination.old destination.new) result }
{
    let record = calibration.into();
    let inner = filtered.into();
    let frame = frames640::filtered_pixels_to_temperatures(
        record,
        inner,
        offsets,
        alpha,
        k_ta,
        pixels,
        mask,
        destination,
    );
    frame.into()
}

// Writes temperatures by the second pass as the plain call does, with the filter's average. Refusals 2, 10, 6, 7, 8, 12; after one the destination is
// unchanged.
#[unsafe(no_mangle)]
pub extern "C" fn loamchalice_mlx90640_filtered_pixels_to_ranged_temperatures(
    calibration: Record640,
    filtered: Filtered640,
    offsets: &[i32],
    alpha: &[f32],
    k_ta: &[f32],
    pixels: &[u8],
    mask: &[u8],
    destination: &mut [u32],
) -> Answer
    ensures { Carried (RangedPasses (pass_call (record_in calibration) (ir_call (record_in calibration) (filtered_in filtered).input (steadied (filtered_in filtered).compensation (filtered_in filtered).input.ram) offsets.now k_ta.now pixels.now mask.now) alpha.now)
        destination.old destination.new) result }
{
    let record = calibration.into();
    let inner = filtered.into();
    let frame = frames640::filtered_pixels_to_ranged_temperatures(
        record,
        inner,
        offsets,
        alpha,
        k_ta,
        pixels,
        mask,
        destination,
    );
    frame.into()
}
