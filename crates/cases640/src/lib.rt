// Test cases of the MLX90640's card and frames: each makes the call of its kind, and compares the result with the expected answer. docs/CASES.md describes the
// inputs and answers.
#![tactic(auto)]

mod calls;
mod frame;
mod given;
mod loads;

use stream::{Case640, Differs, Expected};

// ---- The shelf: a camera, followed by a frame

// The size alone differs from frame_cases's. A shared function that is given the size would be no plainer: it would be stream's own.
const CAMERA_BYTES: usize = 9472;

pub fn camera_mut(shelf: &mut [u8]) -> &mut [u8] {
    stream::first_mut(shelf, CAMERA_BYTES)
}

pub fn frame_mut(shelf: &mut [u8]) -> &mut [u8] {
    stream::rest_mut(shelf, CAMERA_BYTES)
}

pub fn compare(
    case: Case640,
    shelf: &[u8],
    input: &[u8],
    expected: &mut Expected,
) -> Result<(), Differs> {
    match case {
        Case640::Load => loads::load(input, expected),
        Case640::Mask => frame::mask(input, expected),
        Case640::Call(call) => frame::compare(
            call,
            shelf,
            stream::rest(shelf, CAMERA_BYTES),
            input,
            expected,
        ),
    }
}
