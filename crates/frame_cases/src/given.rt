// The arguments of a call: the record of a camera, and the numbers of a frame.
use calculations::{FilteredInput, Input};
use calibration::Calibration;

// ---- A record

// Returns the corners, each the lower half of four bytes.
fn corners(camera: &[u8]) -> [i16; 8] {
    [
        stream::short_at(camera, 38),
        stream::short_at(camera, 42),
        stream::short_at(camera, 46),
        stream::short_at(camera, 50),
        stream::short_at(camera, 54),
        stream::short_at(camera, 58),
        stream::short_at(camera, 62),
        stream::short_at(camera, 66),
    ]
}

pub fn record(camera: &[u8]) -> Calibration {
    let mut k_s_to = [0.0f32; 8];
    let mut range_coefficients = [0.0f32; 8];
    stream::fill(camera, 68, &mut k_s_to);
    stream::fill(camera, 128, &mut range_coefficients);
    let corner_temperatures = corners(camera);
    Calibration {
        k_v_dd: stream::short_at(camera, 2),
        v_dd_25: stream::short_at(camera, 6),
        resolution: stream::byte_at(camera, 11),
        k_v_ptat: stream::real_at(camera, 12),
        k_t_ptat: stream::real_at(camera, 16),
        v_ptat_25: stream::real_at(camera, 20),
        alpha_ptat: stream::real_at(camera, 24),
        gain: stream::real_at(camera, 28),
        k_s_ta: stream::real_at(camera, 32),
        corner_temperatures,
        k_s_to,
        emissivity: stream::real_at(camera, 100),
        alpha_cp: stream::real_at(camera, 104),
        offset_reference_cp: stream::short_at(camera, 110),
        k_v_cp: stream::real_at(camera, 112),
        k_ta_cp: stream::real_at(camera, 116),
        temperature_gradient_coefficient: frame_parts::gradient_at(camera, 120),
        range_coefficients,
    }
}

// ---- A frame

pub fn filtered(frame: &[u8], input: &[u8]) -> FilteredInput {
    FilteredInput {
        input: Input {
            settings: frame_parts::settings(frame),
            ram: frame_parts::ram(frame),
            subpage: frame_parts::subpage(frame),
        },
        compensation: frame_parts::steadied(input),
    }
}

pub fn mask(frame: &[u8]) -> &[u8] {
    stream::bytes(frame, 452, stream::size_at(frame, 48))
}

// Returns the number of entries of the destination that the call gets.
pub fn entries(frame: &[u8]) -> usize {
    stream::size_at(frame, 50)
}
