// The MLX90640's frames, for C and Rust. Each call passes its arguments to an inner call and makes the same promise.
#![tactic(auto)]

ghost use Rattle.std.specs.Prelude.{◌≡◌};
ghost use Rattle.frames.specs.Frames.{own_reading, Infrareds, Temperatures, Passes};
ghost use Rattle.frames.specs.Ranged.{RangedPasses};
ghost use Rattle.frames640.specs.Frames.{ir_call, to_call, pass_call};
ghost use Rattle.rows640.specs.Mask.{number_of};
ghost use Rattle.capi_record.specs.Record.{subpage_of};
ghost use Rattle.capi_frames.specs.Border.{settings_in, Carried};
ghost use Rattle.capi_record640.specs.Record.{record_in};
ghost use Rattle.capi_frames640.specs.Border.{pattern_of, input_in, Masking};

use capi_cards::Outcome;
use capi_frames::{Answer, Ram, Settings};
use capi_record640::Record640;
use rows640::Pattern;

// The inputs of a frame apart from the card's record and tables. Subpage 0 is the first, any other number the second; pattern 0 is interleave, any other
// number chess: C may hand in any.
#[repr(C)]
#[derive(Clone, Copy)]
pub struct Input640 {
    pub settings: Settings,
    pub ram: Ram,
    pub subpage: u8,
    pub pattern: u8,
}

// Returns the access pattern of a number: 0 is interleave, any other number chess. A function, since a `From` between two types of other crates is not this
// crate's to write.
fn pattern_of(pattern: u8) -> Pattern
    ensures { result ≡ pattern_of pattern }
{
    if pattern == 0 {
        Pattern::Interleave
    } else {
        Pattern::Chess
    }
}

// The inputs that the inner calls take, from C's.
impl From<Input640> for frames640::Input {
    ghost from_gives = { λ input result. result ≡ input_in input };

    fn from(input: Input640) -> frames640::Input {
        let settings = input.settings;
        let ram = input.ram;
        frames640::Input {
            settings: settings.into(),
            ram: ram.into(),
            subpage: capi_record::subpage_of(input.subpage),
            pattern: pattern_of(input.pattern),
        }
    }
}

// Writes the mask of a subpage: 1 for each of its pixels, 0 for the others. Refusal 2; after it the mask is unchanged. Entries past 768 are unchanged.
#[unsafe(no_mangle)]
pub extern "C" fn loamchalice_mlx90640_subpage_mask(
    subpage: u8,
    pattern: u8,
    mask: &mut [u8],
) -> Outcome
    ensures { Masking (number_of (subpage_of subpage)) (pattern_of pattern) mask.old mask.new result }
{
    let which = capi_record::subpage_of(subpage);
    let order = pattern_of(pattern);
    rows640::write_mask(which, order, mask).into()
}

// Turns a subpage's infrared values into temperatures, in place, both as f32 bits. The ambient temperature is the caller's, and is returned. Refusals 2, 10,
// 6, 8; after one the destination is unchanged.
#[unsafe(no_mangle)]
pub extern "C" fn loamchalice_mlx90640_raw_ir_to_temperatures(
    calibration: Record640,
    settings: Settings,
    subpage: u8,
    t_a: f32,
    alpha: &[f32],
    mask: &[u8],
    destination: &mut [u32],
) -> Answer
    ensures { Carried (Temperatures (to_call (record_in calibration) (settings_in settings) (subpage_of subpage) t_a alpha.now mask.now)
        destination.old destination.new) result }
{
    let record = calibration.into();
    let inner = settings.into();
    let which = capi_record::subpage_of(subpage);
    let frame = frames640::raw_ir_to_temperatures(
        record,
        inner,
        which,
        t_a,
        alpha,
        mask,
        destination,
    );
    frame.into()
}

// Writes the bits of the pixels' infrared values into the destination. Refusals 2, 10, 7, 8; after one the destination is unchanged.
#[unsafe(no_mangle)]
pub extern "C" fn loamchalice_mlx90640_raw_pixels_to_ir_data(
    calibration: Record640,
    input: Input640,
    offsets: &[i32],
    k_ta: &[f32],
    pixels: &[u8],
    mask: &[u8],
    destination: &mut [u32],
) -> Answer
    ensures { Carried (Infrareds (ir_call (record_in calibration) (input_in input) (own_reading (input_in input).ram) offsets.now k_ta.now pixels.now mask.now)
        destination.old destination.new) result }
{
    let record = calibration.into();
    let inner = input.into();
    let frame = frames640::raw_pixels_to_ir_data(
        record,
        inner,
        offsets,
        k_ta,
        pixels,
        mask,
        destination,
    );
    frame.into()
}

// Writes the bits of the pixels' temperatures into the destination, in one pass. Refusals 2, 10, 6, 7, 8; after one the destination is unchanged.
#[unsafe(no_mangle)]
pub extern "C" fn loamchalice_mlx90640_raw_pixels_to_temperatures(
    calibration: Record640,
    input: Input640,
    offsets: &[i32],
    alpha: &[f32],
    k_ta: &[f32],
    pixels: &[u8],
    mask: &[u8],
    destination: &mut [u32],
) -> Answer
    ensures { Carried (Passes (pass_call (record_in calibration) (ir_call (record_in calibration) (input_in input) (own_reading (input_in input).ram) offsets.now k_ta.now pixels.now mask.now) alpha.now)
        destination.old destination.new) result }
{
    let record = calibration.into();
    let inner = input.into();
    let frame = frames640::raw_pixels_to_temperatures(
        record,
        inner,
        offsets,
        alpha,
        k_ta,
        pixels,
        mask,
        destination,
    );
    frame.into()
}

// The second pass: writes the bits of the pixels' temperatures, each computed by the range that holds its basic temperature. Refusals 2, 10, 6, 7, 8, 12;
// after one the destination is unchanged.
#[unsafe(no_mangle)]
pub extern "C" fn loamchalice_mlx90640_raw_pixels_to_ranged_temperatures(
    calibration: Record640,
    input: Input640,
    offsets: &[i32],
    alpha: &[f32],
    k_ta: &[f32],
    pixels: &[u8],
    mask: &[u8],
    destination: &mut [u32],
) -> Answer
    ensures { Carried (RangedPasses (pass_call (record_in calibration) (ir_call (record_in calibration) (input_in input) (own_reading (input_in input).ram) offsets.now k_ta.now pixels.now mask.now) alpha.now)
        destination.old destination.new) result }
{
    let record = calibration.into();
    let inner = input.into();
    let frame = frames640::raw_pixels_to_ranged_temperatures(
        record,
        inner,
        offsets,
        alpha,
        k_ta,
        pixels,
        mask,
        destination,
    );
    frame.into()
}
