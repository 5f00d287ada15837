// Test cases of the MLX90641's frames: each makes the call of its kind on a camera and a frame, and compares the result with the expected answer. docs/CASES.md
// describes the inputs and answers.
#![tactic(auto)]

mod given;

use calculations::{FilteredInput, Input};
use calibration::Calibration;
use frames::Frame;
use offsets::Offset;
use refusal::Refusal;
use stream::{Call, Differs, Expected, Pass, RawCall};

// ---- The calls

// The camera's tables, as many entries of each as the frame says.
#[derive(Clone, Copy)]
struct Tables<'a> {
    offsets0: &'a [Offset],
    offsets1: &'a [Offset],
    alpha: &'a [f32],
    k_v: &'a [f32],
    k_ta: &'a [f32],
}

// This and the next differ in the names of the calls and what they are given. One match over all six would be longer than a function should be.
fn plain_call(
    pass: Pass,
    record: Calibration,
    input: Input,
    tables: Tables,
    pixels: &[u8],
    mask: &[u8],
    destination: &mut [u32],
) -> Result<Frame, Refusal> {
    let Tables {
        offsets0,
        offsets1,
        alpha,
        k_v,
        k_ta,
    } = tables;
    match pass {
        Pass::Infrared => calculations::raw_pixels_to_ir_data(
            record,
            input,
            offsets0,
            offsets1,
            k_v,
            k_ta,
            pixels,
            mask,
            destination,
        ),
        Pass::One => calculations::raw_pixels_to_temperatures(
            record,
            input,
            offsets0,
            offsets1,
            alpha,
            k_v,
            k_ta,
            pixels,
            mask,
            destination,
        ),
        Pass::Second => calculations::raw_pixels_to_ranged_temperatures(
            record,
            input,
            offsets0,
            offsets1,
            alpha,
            k_v,
            k_ta,
            pixels,
            mask,
            destination,
        ),
    }
}

fn filtered_call(
    pass: Pass,
    record: Calibration,
    filtered: FilteredInput,
    tables: Tables,
    pixels: &[u8],
    mask: &[u8],
    destination: &mut [u32],
) -> Result<Frame, Refusal> {
    let Tables {
        offsets0,
        offsets1,
        alpha,
        k_v,
        k_ta,
    } = tables;
    match pass {
        Pass::Infrared => calculations::filtered_pixels_to_ir_data(
            record,
            filtered,
            offsets0,
            offsets1,
            k_v,
            k_ta,
            pixels,
            mask,
            destination,
        ),
        Pass::One => calculations::filtered_pixels_to_temperatures(
            record,
            filtered,
            offsets0,
            offsets1,
            alpha,
            k_v,
            k_ta,
            pixels,
            mask,
            destination,
        ),
        Pass::Second => calculations::filtered_pixels_to_ranged_temperatures(
            record,
            filtered,
            offsets0,
            offsets1,
            alpha,
            k_v,
            k_ta,
            pixels,
            mask,
            destination,
        ),
    }
}

// Makes the call with the camera's tables.
fn on_tables(
    call: RawCall,
    camera: &[u8],
    frame: &[u8],
    input: &[u8],
    destination: &mut [u32],
) -> Result<Frame, Refusal> {
    let mut offsets0: [Offset; 200] = [0; 200];
    let mut offsets1: [Offset; 200] = [0; 200];
    let mut alpha = [0.0f32; 200];
    let mut k_v = [0.0f32; 200];
    let mut k_ta = [0.0f32; 200];
    stream::fill(camera, 160, &mut offsets0);
    stream::fill(camera, 960, &mut offsets1);
    stream::fill(camera, 1760, &mut alpha);
    stream::fill(camera, 2560, &mut k_v);
    stream::fill(camera, 3360, &mut k_ta);
    let tables = Tables {
        offsets0: stream::first(&offsets0, stream::size_at(frame, 36)),
        offsets1: stream::first(&offsets1, stream::size_at(frame, 38)),
        alpha: stream::first(&alpha, stream::size_at(frame, 40)),
        k_v: stream::first(&k_v, stream::size_at(frame, 42)),
        k_ta: stream::first(&k_ta, stream::size_at(frame, 44)),
    };
    let record = given::record(camera);
    let filtered = given::filtered(frame, input);
    let pixels = stream::bytes(frame, 52, stream::size_at(frame, 46));
    let mask = given::mask(frame);
    match call {
        RawCall::Plain(pass) => plain_call(
            pass,
            record,
            filtered.input,
            tables,
            pixels,
            mask,
            destination,
        ),
        RawCall::Filtered(pass) => {
            filtered_call(pass, record, filtered, tables, pixels, mask, destination)
        }
    }
}

fn from_pixels(
    call: RawCall,
    camera: &[u8],
    frame: &[u8],
    input: &[u8],
    expected: &mut Expected,
) -> Result<(), Differs> {
    let mut destination = [0u32; 200];
    stream::fill(frame, 652, &mut destination);
    let done = on_tables(
        call,
        camera,
        frame,
        input,
        stream::first_mut(&mut destination, given::entries(frame)),
    );
    frame_parts::same_frame(expected, done, &destination)
}

fn from_infrared(
    camera: &[u8],
    frame: &[u8],
    input: &[u8],
    expected: &mut Expected,
) -> Result<(), Differs> {
    let mut alpha = [0.0f32; 200];
    let mut destination = [0u32; 200];
    stream::fill(camera, 1760, &mut alpha);
    frame_parts::fill_before(frame, 652, input, &mut destination);
    let done = calculations::raw_ir_to_temperatures(
        given::record(camera),
        frame_parts::settings(frame),
        stream::real_at(input, 0),
        stream::first(&alpha, stream::size_at(frame, 40)),
        given::mask(frame),
        stream::first_mut(&mut destination, given::entries(frame)),
    );
    frame_parts::same_frame(expected, done, &destination)
}

// ---- The shelf: a camera, followed by a frame

// The size alone differs from cases640's. A shared function that is given the size would be no plainer: it would be stream's own.
const CAMERA_BYTES: usize = 4160;

pub fn camera_mut(shelf: &mut [u8]) -> &mut [u8] {
    stream::first_mut(shelf, CAMERA_BYTES)
}

pub fn frame_mut(shelf: &mut [u8]) -> &mut [u8] {
    stream::rest_mut(shelf, CAMERA_BYTES)
}

pub fn compare(
    call: Call,
    shelf: &[u8],
    input: &[u8],
    expected: &mut Expected,
) -> Result<(), Differs> {
    let frame = stream::rest(shelf, CAMERA_BYTES);
    match call {
        Call::Raw(raw) => from_pixels(raw, shelf, frame, input, expected),
        Call::Temperatures => from_infrared(shelf, frame, input, expected),
    }
}
