// The MLX90640's record as C has it, for both card and frame calls.
#![tactic(auto)]

ghost use Rattle.std.specs.Prelude.{◌≡◌};
ghost use Rattle.capi_record640.specs.Record.{record_out, record_in};

use capi_record::Flagged;
use record640::Calibration;

// The calibration record. If `has_gradient` is 0 there is no gradient, and `gradient` is not read: C has no `Option`. Lists of two have an entry for each
// subpage. `unused` fills the struct so that the compiler adds no padding: it is 0 in a record that is returned, and not read in one that is passed in.
#[repr(C)]
#[derive(Clone, Copy)]
pub struct Record640 {
    pub k_v_ptat: f32,
    pub k_t_ptat: f32,
    pub v_ptat_25: f32,
    pub alpha_ptat: f32,
    pub gain: f32,
    pub k_s_ta: f32,
    pub k_v_cp: f32,
    pub k_ta_cp: f32,
    pub gradient: f32,
    pub access_cp: f32,
    pub alpha_cp: [f32; 2],
    pub k_s_to: [f32; 4],
    pub range_coefficients: [f32; 4],
    pub k_v: [f32; 4],
    pub access_pattern: [f32; 6],
    pub corner_temperatures: [i16; 4],
    pub offset_reference_cp: [i16; 2],
    pub k_v_dd: i16,
    pub v_dd_25: i16,
    pub resolution: u8,
    pub has_gradient: u8,
    pub unused: [u8; 2],
}

// The record as C has it.
impl From<Calibration> for Record640 {
    ghost from_gives = { λ calibration result. result ≡ record_out calibration };

    fn from(calibration: Calibration) -> Record640 {
        let gradient = calibration.temperature_gradient_coefficient;
        let flag = Flagged::from(gradient);
        let alpha_cp = calibration.alpha_cp;
        let k_s_to = calibration.k_s_to;
        let range_coefficients = calibration.range_coefficients;
        let k_v = calibration.k_v;
        let access_pattern = calibration.access_pattern;
        let corner_temperatures = calibration.corner_temperatures;
        let offset_reference_cp = calibration.offset_reference_cp;
        Record640 {
            k_v_ptat: calibration.k_v_ptat,
            k_t_ptat: calibration.k_t_ptat,
            v_ptat_25: calibration.v_ptat_25,
            alpha_ptat: calibration.alpha_ptat,
            gain: calibration.gain,
            k_s_ta: calibration.k_s_ta,
            k_v_cp: calibration.k_v_cp,
            k_ta_cp: calibration.k_ta_cp,
            gradient: flag.coefficient,
            access_cp: calibration.access_cp,
            alpha_cp,
            k_s_to,
            range_coefficients,
            k_v,
            access_pattern,
            corner_temperatures,
            offset_reference_cp,
            k_v_dd: calibration.k_v_dd,
            v_dd_25: calibration.v_dd_25,
            resolution: calibration.resolution,
            has_gradient: flag.has,
            unused: [0; 2],
        }
    }
}

// The record that the inner calls take, from C's.
impl From<Record640> for Calibration {
    ghost from_gives = { λ calibration result. result ≡ record_in calibration };

    fn from(calibration: Record640) -> Calibration {
        let gradient = capi_record::gradient_in(calibration.has_gradient, calibration.gradient);
        let alpha_cp = calibration.alpha_cp;
        let k_s_to = calibration.k_s_to;
        let range_coefficients = calibration.range_coefficients;
        let k_v = calibration.k_v;
        let access_pattern = calibration.access_pattern;
        let corner_temperatures = calibration.corner_temperatures;
        let offset_reference_cp = calibration.offset_reference_cp;
        Calibration {
            k_v_dd: calibration.k_v_dd,
            v_dd_25: calibration.v_dd_25,
            resolution: calibration.resolution,
            k_v_ptat: calibration.k_v_ptat,
            k_t_ptat: calibration.k_t_ptat,
            v_ptat_25: calibration.v_ptat_25,
            alpha_ptat: calibration.alpha_ptat,
            gain: calibration.gain,
            k_s_ta: calibration.k_s_ta,
            corner_temperatures,
            k_s_to,
            range_coefficients,
            alpha_cp,
            offset_reference_cp,
            k_v_cp: calibration.k_v_cp,
            k_ta_cp: calibration.k_ta_cp,
            temperature_gradient_coefficient: gradient,
            k_v,
            access_pattern,
            access_cp: calibration.access_cp,
        }
    }
}
