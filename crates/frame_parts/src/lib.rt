// What the test cases of both cameras' frames share: the numbers that a frame begins with, a filter's result, a record's gradient, and the comparison of a
// frame's result with the expected answer. docs/CASES.md describes the inputs and answers.
#![tactic(auto)]

use camera::Subpage;
use formulas::{RamData, Reflected, Settings};
use frames::Frame;
use refusal::Refusal;
use stream::{Differs, Expected};

// ---- A frame's first 36 bytes

fn reflected(frame: &[u8]) -> Reflected {
    match stream::byte_at(frame, 35) {
        0 => Reflected::Ambient {
            self_heating: stream::real_at(frame, 12),
        },
        _ => Reflected::Given(stream::real_at(frame, 12)),
    }
}

pub fn settings(frame: &[u8]) -> Settings {
    Settings {
        emissivity: stream::real_at(frame, 0),
        resolution_correction: stream::real_at(frame, 4),
        v_dd_0: stream::real_at(frame, 8),
        basic_range: stream::long_at(frame, 16) as usize,
        reflected: reflected(frame),
    }
}

pub fn ram(frame: &[u8]) -> RamData {
    RamData {
        t_a_v_be: stream::short_at(frame, 24),
        t_a_ptat: stream::short_at(frame, 26),
        v_dd_pixel: stream::short_at(frame, 28),
        gain: stream::short_at(frame, 30),
        compensation_pixel: stream::short_at(frame, 32),
    }
}

pub fn subpage_at(block: &[u8], at: usize) -> Subpage {
    match stream::byte_at(block, at) {
        0 => Subpage::Zero,
        _ => Subpage::One,
    }
}

pub fn subpage(frame: &[u8]) -> Subpage {
    subpage_at(frame, 34)
}

// ---- A filter's result, if the input has one

pub fn steadied(input: &[u8]) -> Option<f32> {
    match stream::byte_at(input, 0) {
        0 => None,
        _ => Some(stream::real_at(input, 1)),
    }
}

// ---- A record's gradient, if it has one

pub fn gradient_at(camera: &[u8], at: usize) -> Option<f32> {
    match stream::word_at(camera, at) {
        0 => None,
        _ => Some(stream::real_at(camera, stream::after(at, 4))),
    }
}

// ---- A frame's answer: the refusal, t_a, lost pixels and the whole destination. After a refusal t_a and lost pixels are 0.

pub fn same_frame(
    expected: &mut Expected,
    frame: Result<Frame, Refusal>,
    destination: &[u32],
) -> Result<(), Differs> {
    let Frame { t_a, lost } = frame.unwrap_or(Frame { t_a: 0, lost: 0 });
    expected.same_verdict(frame.map(|_| ()))?;
    expected.same(t_a)?;
    expected.same_size(lost)?;
    expected.all_same(destination)
}

// Fills the destination before a call from infrared: with the input's own values if it has any after t_a, else with the frame's, which begin at `at`.
pub fn fill_before(frame: &[u8], at: usize, input: &[u8], destination: &mut [u32]) {
    if input.len() < 5 {
        stream::fill(frame, at, destination);
    } else {
        stream::fill(input, 4, destination);
    }
}
