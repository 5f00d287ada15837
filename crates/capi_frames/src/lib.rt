// The MLX90641's frames, for C and Rust. Each call passes its arguments to an inner call and makes the same promise.
#![tactic(auto)]

ghost use Rattle.std.specs.Prelude.{◌≡◌};
ghost use Rattle.frames.specs.Frames.{own_reading, Infrareds, Temperatures, Passes};
ghost use Rattle.frames.specs.Ranged.{RangedPasses};
ghost use Rattle.calculations.specs.Frames.{ir_call, to_call, pass_call};
ghost use Rattle.capi_record.specs.Record.{record_in};
ghost use Rattle.capi_frames.specs.Border.{ram_in, settings_in, input_in, frame_out, Carried};

use capi_record::Record;
use formulas::{RamData, Reflected};
use frames::Frame;
use offsets::Offset;
use refusal::Refusal;

// The sensor readings of a frame that are not pixels.
#[repr(C)]
#[derive(Clone, Copy)]
pub struct Ram {
    pub t_a_v_be: i16,
    pub t_a_ptat: i16,
    pub v_dd_pixel: i16,
    pub gain: i16,
    pub compensation_pixel: i16,
}

// The numbers that the caller chooses. If `reflected_given` is 0, the reflected temperature is the ambient temperature minus `self_heating`, and `reflected`
// is not read: C has no enum whose variants hold values.
#[repr(C)]
#[derive(Clone, Copy)]
pub struct Settings {
    pub basic_range: usize,
    pub emissivity: f32,
    pub resolution_correction: f32,
    pub v_dd_0: f32,
    pub self_heating: f32,
    pub reflected: f32,
    pub reflected_given: u8,
}

// The inputs of a frame apart from the card's record and tables. Subpage 0 is the first, any other number the second: C may hand in any.
#[repr(C)]
#[derive(Clone, Copy)]
pub struct Input {
    pub settings: Settings,
    pub ram: Ram,
    pub subpage: u8,
}

// The result of a frame call: number, place and value of the refusal, all 0 for none; the number of pixels that this call wrote as NaN (0x7FC00000), and the
// bits of the ambient temperature, both 0 after a refusal. C has no `Result`.
#[repr(C)]
#[derive(Clone, Copy)]
pub struct Answer {
    pub number: u64,
    pub place: u64,
    pub value: u64,
    pub lost: usize,
    pub t_a: u32,
}

// The readings that the inner calls take, from C's.
impl From<Ram> for RamData {
    ghost from_gives = { λ ram result. result ≡ ram_in ram };

    fn from(ram: Ram) -> RamData {
        RamData {
            t_a_v_be: ram.t_a_v_be,
            t_a_ptat: ram.t_a_ptat,
            v_dd_pixel: ram.v_dd_pixel,
            gain: ram.gain,
            compensation_pixel: ram.compensation_pixel,
        }
    }
}

// The settings that the inner calls take, from C's.
impl From<Settings> for formulas::Settings {
    ghost from_gives = { λ settings result. result ≡ settings_in settings };

    fn from(settings: Settings) -> formulas::Settings {
        let reflected = if settings.reflected_given == 0 {
            Reflected::Ambient {
                self_heating: settings.self_heating,
            }
        } else {
            Reflected::Given(settings.reflected)
        };
        formulas::Settings {
            emissivity: settings.emissivity,
            resolution_correction: settings.resolution_correction,
            v_dd_0: settings.v_dd_0,
            basic_range: settings.basic_range,
            reflected,
        }
    }
}

// The inputs that the inner calls take, from C's.
impl From<Input> for calculations::Input {
    ghost from_gives = { λ input result. result ≡ input_in input };

    fn from(input: Input) -> calculations::Input {
        let settings = input.settings;
        let ram = input.ram;
        calculations::Input {
            settings: settings.into(),
            ram: ram.into(),
            subpage: capi_record::subpage_of(input.subpage),
        }
    }
}

// A frame's result as C has it.
impl From<Result<Frame, Refusal>> for Answer {
    ghost from_gives = { λ frame result. result ≡ frame_out frame };

    fn from(frame: Result<Frame, Refusal>) -> Answer {
        match frame {
            Ok(Frame { t_a, lost }) => Answer {
                number: 0,
                place: 0,
                value: 0,
                lost,
                t_a,
            },
            Err(refusal) => {
                let told = refusal.told();
                Answer {
                    number: told.number,
                    place: told.place,
                    value: told.value,
                    lost: 0,
                    t_a: 0,
                }
            }
        }
    }
}

// Writes the bits of the pixels' infrared values into the destination. Refusals 2, 10, 7, 8; after one the destination is unchanged.
#[unsafe(no_mangle)]
pub extern "C" fn loamchalice_raw_pixels_to_ir_data<'a>(
    calibration: Record,
    input: Input,
    offsets0: &'a [Offset],
    offsets1: &'a [Offset],
    k_v: &[f32],
    k_ta: &[f32],
    pixels: &[u8],
    mask: &[u8],
    destination: &mut [u32],
) -> Answer
    ensures { Carried (Infrareds (ir_call (record_in calibration) (input_in input) (own_reading (input_in input).ram) offsets0.now offsets1.now k_v.now k_ta.now pixels.now mask.now)
        destination.old destination.new) result }
{
    let record = calibration.into();
    let inner = input.into();
    let frame = calculations::raw_pixels_to_ir_data(
        record,
        inner,
        offsets0,
        offsets1,
        k_v,
        k_ta,
        pixels,
        mask,
        destination,
    );
    frame.into()
}

// Turns infrared values into temperatures, in place, both as f32 bits. Refusals 2, 10, 6, 8; after one the destination is unchanged.
#[unsafe(no_mangle)]
pub extern "C" fn loamchalice_raw_ir_to_temperatures(
    calibration: Record,
    settings: Settings,
    t_a: f32,
    alpha: &[f32],
    mask: &[u8],
    destination: &mut [u32],
) -> Answer
    ensures { Carried (Temperatures (to_call (record_in calibration) (settings_in settings) t_a alpha.now mask.now)
        destination.old destination.new) result }
{
    let record = calibration.into();
    let inner = settings.into();
    let frame = calculations::raw_ir_to_temperatures(record, inner, t_a, alpha, mask, destination);
    frame.into()
}

// Writes the bits of the pixels' temperatures into the destination, in one pass. Refusals 2, 10, 6, 7, 8; after one the destination is unchanged.
#[unsafe(no_mangle)]
pub extern "C" fn loamchalice_raw_pixels_to_temperatures<'a>(
    calibration: Record,
    input: Input,
    offsets0: &'a [Offset],
    offsets1: &'a [Offset],
    alpha: &[f32],
    k_v: &[f32],
    k_ta: &[f32],
    pixels: &[u8],
    mask: &[u8],
    destination: &mut [u32],
) -> Answer
    ensures { Carried (Passes (pass_call (record_in calibration) (ir_call (record_in calibration) (input_in input) (own_reading (input_in input).ram) offsets0.now offsets1.now k_v.now k_ta.now pixels.now mask.now) alpha.now)
        destination.old destination.new) result }
{
    let record = calibration.into();
    let inner = input.into();
    let frame = calculations::raw_pixels_to_temperatures(
        record,
        inner,
        offsets0,
        offsets1,
        alpha,
        k_v,
        k_ta,
        pixels,
        mask,
        destination,
    );
    frame.into()
}

// The second pass: writes the bits of the pixels' temperatures, each computed by the range that holds its basic temperature. Refusals 2, 10, 6, 7, 8, 12;
// after one the destination is unchanged.
#[unsafe(no_mangle)]
pub extern "C" fn loamchalice_raw_pixels_to_ranged_temperatures<'a>(
    calibration: Record,
    input: Input,
    offsets0: &'a [Offset],
    offsets1: &'a [Offset],
    alpha: &[f32],
    k_v: &[f32],
    k_ta: &[f32],
    pixels: &[u8],
    mask: &[u8],
    destination: &mut [u32],
) -> Answer
    ensures { Carried (RangedPasses (pass_call (record_in calibration) (ir_call (record_in calibration) (input_in input) (own_reading (input_in input).ram) offsets0.now offsets1.now k_v.now k_ta.now pixels.now mask.now) alpha.now)
        destination.old destination.new) result }
{
    let record = calibration.into();
    let inner = input.into();
    let frame = calculations::raw_pixels_to_ranged_temperatures(
        record,
        inner,
        offsets0,
        offsets1,
        alpha,
        k_v,
        k_ta,
        pixels,
        mask,
        destination,
    );
    frame.into()
}
