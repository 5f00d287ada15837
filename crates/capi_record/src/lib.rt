// The record, the gradient and the subpage as C has them, for both card and frame calls.
#![tactic(auto)]

ghost use Rattle.std.specs.Prelude.{◌≡◌};
ghost use Rattle.capi_record.specs.Record.{gradient_out, record_out, gradient_in, record_in, subpage_of};

use calibration::Calibration;
use camera::Subpage;

// The calibration record. If `has_gradient` is 0 there is no gradient, and `gradient` is not read: C has no `Option`.
#[repr(C)]
#[derive(Clone, Copy)]
pub struct Record {
    pub k_v_ptat: f32,
    pub k_t_ptat: f32,
    pub v_ptat_25: f32,
    pub alpha_ptat: f32,
    pub gain: f32,
    pub k_s_ta: f32,
    pub emissivity: f32,
    pub alpha_cp: f32,
    pub k_v_cp: f32,
    pub k_ta_cp: f32,
    pub gradient: f32,
    pub k_s_to: [f32; 8],
    pub corner_temperatures: [i16; 8],
    pub k_v_dd: i16,
    pub v_dd_25: i16,
    pub offset_reference_cp: i16,
    pub resolution: u8,
    pub has_gradient: u8,
    pub range_coefficients: [f32; 8],
}

// A gradient as a flag and a coefficient, as the C interface has it.
#[derive(Clone, Copy)]
pub struct Flagged {
    pub has: u8,
    pub coefficient: f32,
}

// The gradient as C has it. No gradient is the flag 0 and the coefficient +0.
impl From<Option<f32>> for Flagged {
    ghost from_gives = { λ gradient result. result ≡ gradient_out gradient };

    fn from(gradient: Option<f32>) -> Flagged {
        match gradient {
            Some(coefficient) => Flagged {
                has: 1,
                coefficient,
            },
            None => Flagged {
                has: 0,
                coefficient: 0.0,
            },
        }
    }
}

// The record as C has it.
impl From<Calibration> for Record {
    ghost from_gives = { λ calibration result. result ≡ record_out calibration };

    fn from(calibration: Calibration) -> Record {
        let gradient = calibration.temperature_gradient_coefficient;
        let flag = Flagged::from(gradient);
        let k_s_to = calibration.k_s_to;
        let corner_temperatures = calibration.corner_temperatures;
        let range_coefficients = calibration.range_coefficients;
        Record {
            k_v_ptat: calibration.k_v_ptat,
            k_t_ptat: calibration.k_t_ptat,
            v_ptat_25: calibration.v_ptat_25,
            alpha_ptat: calibration.alpha_ptat,
            gain: calibration.gain,
            k_s_ta: calibration.k_s_ta,
            emissivity: calibration.emissivity,
            alpha_cp: calibration.alpha_cp,
            k_v_cp: calibration.k_v_cp,
            k_ta_cp: calibration.k_ta_cp,
            gradient: flag.coefficient,
            k_s_to,
            corner_temperatures,
            k_v_dd: calibration.k_v_dd,
            v_dd_25: calibration.v_dd_25,
            offset_reference_cp: calibration.offset_reference_cp,
            resolution: calibration.resolution,
            has_gradient: flag.has,
            range_coefficients,
        }
    }
}

// Returns the gradient from C's flag and coefficient. The flag 0 is no gradient, whatever the coefficient. A function, since a `From` has one
// argument.
pub fn gradient_in(has: u8, coefficient: f32) -> Option<f32>
    ensures { result ≡ gradient_in has coefficient }
{
    if has == 0 { None } else { Some(coefficient) }
}

// The record that the inner calls take, from C's.
impl From<Record> for Calibration {
    ghost from_gives = { λ calibration result. result ≡ record_in calibration };

    fn from(calibration: Record) -> Calibration {
        let gradient = gradient_in(calibration.has_gradient, calibration.gradient);
        let k_s_to = calibration.k_s_to;
        let corner_temperatures = calibration.corner_temperatures;
        let range_coefficients = calibration.range_coefficients;
        Calibration {
            k_v_dd: calibration.k_v_dd,
            v_dd_25: calibration.v_dd_25,
            resolution: calibration.resolution,
            k_v_ptat: calibration.k_v_ptat,
            k_t_ptat: calibration.k_t_ptat,
            v_ptat_25: calibration.v_ptat_25,
            alpha_ptat: calibration.alpha_ptat,
            gain: calibration.gain,
            k_s_ta: calibration.k_s_ta,
            corner_temperatures,
            k_s_to,
            emissivity: calibration.emissivity,
            alpha_cp: calibration.alpha_cp,
            offset_reference_cp: calibration.offset_reference_cp,
            k_v_cp: calibration.k_v_cp,
            k_ta_cp: calibration.k_ta_cp,
            temperature_gradient_coefficient: gradient,
            range_coefficients,
        }
    }
}

// Returns the subpage of a number: 0 is the first, any other number the second. A function, since a `From` between two types of other crates is not this
// crate's to write.
pub fn subpage_of(subpage: u8) -> Subpage
    ensures { result ≡ subpage_of subpage }
{
    if subpage == 0 {
        Subpage::Zero
    } else {
        Subpage::One
    }
}
