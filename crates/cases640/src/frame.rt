// Test cases of the MLX90640's frames: a call on a camera and a frame, and the comparison with the expected answer; and the mask of a subpage.
use crate::calls::Tables;
use crate::{calls, given};
use frames::Frame;
use refusal::Refusal;
use stream::{Call, Differs, Expected, RawCall};

// Makes the call with the camera's tables.
fn on_tables(
    call: RawCall,
    camera: &[u8],
    frame: &[u8],
    input: &[u8],
    destination: &mut [u32],
) -> Result<Frame, Refusal> {
    let mut offsets = [0i32; 776];
    let mut alpha = [0.0f32; 776];
    let mut k_ta = [0.0f32; 776];
    stream::fill(camera, 160, &mut offsets);
    stream::fill(camera, 3264, &mut alpha);
    stream::fill(camera, 6368, &mut k_ta);
    let tables = Tables {
        offsets: stream::first(&offsets, stream::size_at(frame, 37)),
        alpha: stream::first(&alpha, stream::size_at(frame, 39)),
        k_ta: stream::first(&k_ta, stream::size_at(frame, 41)),
    };
    calls::call(
        call,
        given::record(camera),
        given::filtered(frame, input),
        tables,
        given::pixels(frame),
        given::mask(frame),
        destination,
    )
}

fn from_pixels(
    call: RawCall,
    camera: &[u8],
    frame: &[u8],
    input: &[u8],
    expected: &mut Expected,
) -> Result<(), Differs> {
    let mut destination = [0u32; 776];
    stream::fill(frame, given::BEFORE, &mut destination);
    let done = on_tables(
        call,
        camera,
        frame,
        input,
        stream::first_mut(&mut destination, given::entries(frame)),
    );
    frame_parts::same_frame(expected, done, &destination)
}

fn from_infrared(
    camera: &[u8],
    frame: &[u8],
    input: &[u8],
    expected: &mut Expected,
) -> Result<(), Differs> {
    let mut alpha = [0.0f32; 776];
    let mut destination = [0u32; 776];
    stream::fill(camera, 3264, &mut alpha);
    frame_parts::fill_before(frame, given::BEFORE, input, &mut destination);
    let done = frames640::raw_ir_to_temperatures(
        given::record(camera),
        frame_parts::settings(frame),
        frame_parts::subpage(frame),
        stream::real_at(input, 0),
        stream::first(&alpha, stream::size_at(frame, 39)),
        given::mask(frame),
        stream::first_mut(&mut destination, given::entries(frame)),
    );
    frame_parts::same_frame(expected, done, &destination)
}

pub fn compare(
    call: Call,
    camera: &[u8],
    frame: &[u8],
    input: &[u8],
    expected: &mut Expected,
) -> Result<(), Differs> {
    match call {
        Call::Raw(raw) => from_pixels(raw, camera, frame, input, expected),
        Call::Temperatures => from_infrared(camera, frame, input, expected),
    }
}

pub fn mask(input: &[u8], expected: &mut Expected) -> Result<(), Differs> {
    let mut mask = [77u8; 776];
    let verdict = rows640::write_mask(
        frame_parts::subpage_at(input, 0),
        given::pattern_at(input, 1),
        stream::first_mut(&mut mask, stream::size_at(input, 2)),
    );
    expected.same_verdict(verdict)?;
    expected.all_same(&mask)
}
