// The MLX90640's calls on raw pixels, by the kind of a case.
use frames::Frame;
use frames640::{FilteredInput, Input};
use record640::Calibration;
use refusal::Refusal;
use stream::{Pass, RawCall};

// The camera's tables, as many entries of each as the frame says.
#[derive(Clone, Copy)]
pub struct Tables<'a> {
    pub offsets: &'a [i32],
    pub alpha: &'a [f32],
    pub k_ta: &'a [f32],
}

// This and the next differ in the names of the calls and what they are given. One match over all six would be longer than a function should be.
fn plain(
    pass: Pass,
    record: Calibration,
    input: Input,
    tables: Tables,
    pixels: &[u8],
    mask: &[u8],
    destination: &mut [u32],
) -> Result<Frame, Refusal> {
    let Tables {
        offsets,
        alpha,
        k_ta,
    } = tables;
    match pass {
        Pass::Infrared => frames640::raw_pixels_to_ir_data(
            record,
            input,
            offsets,
            k_ta,
            pixels,
            mask,
            destination,
        ),
        Pass::One => frames640::raw_pixels_to_temperatures(
            record,
            input,
            offsets,
            alpha,
            k_ta,
            pixels,
            mask,
            destination,
        ),
        Pass::Second => frames640::raw_pixels_to_ranged_temperatures(
            record,
            input,
            offsets,
            alpha,
            k_ta,
            pixels,
            mask,
            destination,
        ),
    }
}

fn filtered(
    pass: Pass,
    record: Calibration,
    input: FilteredInput,
    tables: Tables,
    pixels: &[u8],
    mask: &[u8],
    destination: &mut [u32],
) -> Result<Frame, Refusal> {
    let Tables {
        offsets,
        alpha,
        k_ta,
    } = tables;
    match pass {
        Pass::Infrared => frames640::filtered_pixels_to_ir_data(
            record,
            input,
            offsets,
            k_ta,
            pixels,
            mask,
            destination,
        ),
        Pass::One => frames640::filtered_pixels_to_temperatures(
            record,
            input,
            offsets,
            alpha,
            k_ta,
            pixels,
            mask,
            destination,
        ),
        Pass::Second => frames640::filtered_pixels_to_ranged_temperatures(
            record,
            input,
            offsets,
            alpha,
            k_ta,
            pixels,
            mask,
            destination,
        ),
    }
}

pub fn call(
    call: RawCall,
    record: Calibration,
    input: FilteredInput,
    tables: Tables,
    pixels: &[u8],
    mask: &[u8],
    destination: &mut [u32],
) -> Result<Frame, Refusal> {
    match call {
        RawCall::Plain(pass) => {
            plain(pass, record, input.input, tables, pixels, mask, destination)
        }
        RawCall::Filtered(pass) => {
            filtered(pass, record, input, tables, pixels, mask, destination)
        }
    }
}
