// Test cases of the MLX90640's load, and the comparison with the expected answer.
use record640::Calibration;
use refusal::Refusal;
use stream::{Differs, Expected};

fn same_sensor(expected: &mut Expected, record: Calibration) -> Result<(), Differs> {
    expected.same(i32::from(record.k_v_dd))?;
    expected.same(i32::from(record.v_dd_25))?;
    expected.same(u32::from(record.resolution))?;
    expected.same(record.k_v_ptat)?;
    expected.same(record.k_t_ptat)?;
    expected.same(record.v_ptat_25)?;
    expected.same(record.alpha_ptat)?;
    expected.same(record.gain)?;
    expected.same(record.k_s_ta)
}

fn same_ranges(expected: &mut Expected, record: Calibration) -> Result<(), Differs> {
    for corner in record.corner_temperatures {
        expected.same(i32::from(corner))?;
    }
    expected.all_same(&record.k_s_to)?;
    expected.all_same(&record.range_coefficients)
}

fn same_compensation(expected: &mut Expected, record: Calibration) -> Result<(), Differs> {
    expected.all_same(&record.alpha_cp)?;
    for offset in record.offset_reference_cp {
        expected.same(i32::from(offset))?;
    }
    expected.same(record.k_v_cp)?;
    expected.same(record.k_ta_cp)?;
    expected.same_gradient(record.temperature_gradient_coefficient)
}

fn same_pixels(expected: &mut Expected, record: Calibration) -> Result<(), Differs> {
    expected.all_same(&record.k_v)?;
    expected.all_same(&record.access_pattern)?;
    expected.same(record.access_cp)
}

// Compares verdict and record. After a refusal the expected answer has a record of zeros.
fn same_loaded(
    expected: &mut Expected,
    loaded: Result<Calibration, Refusal>,
) -> Result<(), Differs> {
    let record = loaded.unwrap_or(record640::no_calibration());
    expected.same_verdict(loaded.map(|_| ()))?;
    same_sensor(expected, record)?;
    same_ranges(expected, record)?;
    same_compensation(expected, record)?;
    same_pixels(expected, record)
}

pub fn load(input: &[u8], expected: &mut Expected) -> Result<(), Differs> {
    let mut offsets = [77i32; 776];
    let mut alpha = [77.0f32; 776];
    let mut k_ta = [77.0f32; 776];
    let loaded = load640::load(
        stream::rest(input, 14),
        stream::long_at(input, 0) as usize,
        stream::first_mut(&mut offsets, stream::size_at(input, 8)),
        stream::first_mut(&mut alpha, stream::size_at(input, 10)),
        stream::first_mut(&mut k_ta, stream::size_at(input, 12)),
    );
    same_loaded(expected, loaded)?;
    expected.all_same(&offsets)?;
    expected.all_same(&alpha)?;
    expected.all_same(&k_ta)
}
