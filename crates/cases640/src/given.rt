// The arguments of an MLX90640 frame call: the record of a camera, and the numbers of a frame.
use frames640::{FilteredInput, Input};
use record640::Calibration;
use rows640::Pattern;

// ---- A record

// Returns the corners, each the lower half of four bytes.
fn corners(camera: &[u8]) -> [i16; 4] {
    [
        stream::short_at(camera, 38),
        stream::short_at(camera, 42),
        stream::short_at(camera, 46),
        stream::short_at(camera, 50),
    ]
}

fn offsets_cp(camera: &[u8]) -> [i16; 2] {
    [stream::short_at(camera, 94), stream::short_at(camera, 98)]
}

pub fn record(camera: &[u8]) -> Calibration {
    let mut k_s_to = [0.0f32; 4];
    let mut range_coefficients = [0.0f32; 4];
    let mut alpha_cp = [0.0f32; 2];
    let mut k_v = [0.0f32; 4];
    let mut access_pattern = [0.0f32; 6];
    stream::fill(camera, 52, &mut k_s_to);
    stream::fill(camera, 68, &mut range_coefficients);
    stream::fill(camera, 84, &mut alpha_cp);
    stream::fill(camera, 116, &mut k_v);
    stream::fill(camera, 132, &mut access_pattern);
    let corner_temperatures = corners(camera);
    let offset_reference_cp = offsets_cp(camera);
    Calibration {
        k_v_dd: stream::short_at(camera, 2),
        v_dd_25: stream::short_at(camera, 6),
        resolution: stream::byte_at(camera, 11),
        k_v_ptat: stream::real_at(camera, 12),
        k_t_ptat: stream::real_at(camera, 16),
        v_ptat_25: stream::real_at(camera, 20),
        alpha_ptat: stream::real_at(camera, 24),
        gain: stream::real_at(camera, 28),
        k_s_ta: stream::real_at(camera, 32),
        corner_temperatures,
        k_s_to,
        range_coefficients,
        alpha_cp,
        offset_reference_cp,
        k_v_cp: stream::real_at(camera, 100),
        k_ta_cp: stream::real_at(camera, 104),
        temperature_gradient_coefficient: frame_parts::gradient_at(camera, 108),
        k_v,
        access_pattern,
        access_cp: stream::real_at(camera, 156),
    }
}

// ---- A frame

pub fn pattern_at(block: &[u8], at: usize) -> Pattern {
    match stream::byte_at(block, at) {
        0 => Pattern::Interleave,
        _ => Pattern::Chess,
    }
}

pub fn filtered(frame: &[u8], input: &[u8]) -> FilteredInput {
    FilteredInput {
        input: Input {
            settings: frame_parts::settings(frame),
            ram: frame_parts::ram(frame),
            subpage: frame_parts::subpage(frame),
            pattern: pattern_at(frame, 36),
        },
        compensation: frame_parts::steadied(input),
    }
}

pub fn pixels(frame: &[u8]) -> &[u8] {
    stream::bytes(frame, 49, stream::size_at(frame, 43))
}

pub fn mask(frame: &[u8]) -> &[u8] {
    stream::bytes(frame, 1601, stream::size_at(frame, 45))
}

// The position in a frame of the destination before the call.
pub const BEFORE: usize = 2377;

// Returns the number of entries of the destination that the call gets.
pub fn entries(frame: &[u8]) -> usize {
    stream::size_at(frame, 47)
}
