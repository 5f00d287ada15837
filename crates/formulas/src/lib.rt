// The formulas of a frame, in document 01's order of operations. Each step is one f32 operation, rounded once. Every function is total.
#![tactic(auto)]

ghost use Rattle.std.specs.Prelude.{◌≡◌};
ghost use Rattle.floats.specs.Floats.{◌⊖◌};
ghost use Rattle.floats.specs.Constants.{freezing};
ghost use Rattle.formulas.specs.Frame.{delta_of, supply_of, denominator_of, art_of, ptat_correction_of, ambient_of, common_of};
ghost use Rattle.formulas.specs.Pixel.{plain_of, fourth, reflected_of, t_ar_of, ranged_of, decided};
ghost use Rattle.formulas.specs.Inner.{deducted, compensation_of, alpha_deduction_of, correction_of, common_to_of, lifted_sensitivity, lifted_under, lifted_from};

// The sensor readings of a frame that are not pixels: the inputs of the supply voltage, the ambient temperature, the gain and the compensation pixel.
#[derive(Clone, Copy)]
pub struct RamData {
    pub t_a_v_be: i16,
    pub t_a_ptat: i16,
    pub v_dd_pixel: i16,
    pub gain: i16,
    pub compensation_pixel: i16,
}

// The calibration values that the formulas use, for one subpage.
#[derive(Clone, Copy)]
pub struct Constants {
    pub k_v_dd: i16,
    pub v_dd_25: i16,
    pub k_v_ptat: f32,
    pub k_t_ptat: f32,
    pub v_ptat_25: f32,
    pub alpha_ptat: f32,
    pub gain: f32,
    pub k_s_ta: f32,
    pub alpha_cp: f32,
    pub offset_reference_cp: i16,
    pub k_v_cp: f32,
    pub k_ta_cp: f32,
    // `None` if there is no gradient.
    pub temperature_gradient_coefficient: Option<f32>,
}

// The numbers that the caller chooses for a frame.
#[derive(Clone, Copy)]
pub struct Settings {
    pub emissivity: f32,
    pub resolution_correction: f32,
    pub v_dd_0: f32,
    pub basic_range: usize,
    pub reflected: Reflected,
}

// The four numbers of a frame that all its pixels share: gain, supply voltage, emissivity and ambient temperature.
#[derive(Clone, Copy)]
pub struct CommonIrData {
    pub gain: f32,
    pub v_dd: f32,
    pub emissivity: f32,
    pub t_a: f32,
}

// Where the reflected temperature comes from: a given number, or the ambient temperature minus `self_heating`.
#[derive(Clone, Copy)]
pub enum Reflected {
    Given(f32),
    Ambient { self_heating: f32 },
}

// The numbers that all pixels share in the step from infrared to temperature. `alpha_deduction` is subtracted from every pixel's sensitivity, if there is
// one. `slope` is 1 - K_sTo × 273.15.
#[derive(Clone, Copy)]
pub struct CommonToData {
    pub alpha_deduction: Option<f32>,
    pub correction: f32,
    pub t_ar: f32,
    pub k_s_to: f32,
    pub slope: f32,
}

// One temperature range: its lower corner temperature, its K_sTo and its range coefficient.
#[derive(Clone, Copy)]
pub struct Range {
    pub corner: f32,
    pub k_s_to: f32,
    pub coefficient: f32,
}

// The result for one pixel: its temperature, or its infrared value if the temperature is NaN. It is no `Result`: both hold a number that the call stores,
// and a lost pixel is no error of the call.
#[derive(Clone, Copy)]
pub enum Pixel {
    Temperature(f32),
    Lost(f32),
}

// Returns delta: the supply reading minus its reference V_DD25, divided by K_VDD.
pub fn delta_v(constants: Constants, ram: RamData) -> f32
    ensures { result ≡ delta_of constants ram }
{
    util::difference(ram.v_dd_pixel, constants.v_dd_25) as f32 / constants.k_v_dd as f32
}

// Returns the supply voltage.
pub fn v_dd(settings: Settings, delta: f32) -> f32
    ensures { result ≡ supply_of settings delta }
{
    delta * settings.resolution_correction + settings.v_dd_0
}

// Returns the divisor of `v_ptat_art`.
pub fn ptat_denominator(constants: Constants, ram: RamData) -> f32
    ensures { result ≡ denominator_of constants ram }
{
    ram.t_a_ptat as f32 * constants.alpha_ptat + ram.t_a_v_be as f32
}

// Returns art, the corrected PTAT reading from which the ambient temperature is computed.
pub fn v_ptat_art(constants: Constants, ram: RamData) -> f32
    ensures { result ≡ art_of constants ram }
{
    ram.t_a_ptat as f32 / ptat_denominator(constants, ram) * 262144.0
}

// Returns the number by which `ambient_temperature` divides art.
pub fn ptat_correction(constants: Constants, delta: f32) -> f32
    ensures { result ≡ ptat_correction_of constants delta }
{
    1.0 + constants.k_v_ptat * delta
}

// Returns the ambient temperature t_a in degrees Celsius.
pub fn ambient_temperature(constants: Constants, art: f32, delta: f32) -> f32
    ensures { result ≡ ambient_of constants art delta }
{
    (art / ptat_correction(constants, delta) - constants.v_ptat_25) / constants.k_t_ptat + 25.0
}

// Returns the four numbers that all pixels of a frame share.
pub fn common_ir_data(constants: Constants, settings: Settings, ram: RamData) -> CommonIrData
    ensures { result ≡ common_of constants settings ram }
{
    let delta = delta_v(constants, ram);
    let art = v_ptat_art(constants, ram);
    CommonIrData {
        gain: constants.gain / ram.gain as f32,
        v_dd: v_dd(settings, delta),
        emissivity: settings.emissivity,
        t_a: ambient_temperature(constants, art, delta),
    }
}

// Returns `x` minus the deduction, if there is one.
pub fn deduct(x: f32, by: Option<f32>) -> f32
    ensures { result ≡ deducted x by }
{
    match by {
        None => x,
        Some(y) => x - y,
    }
}

// Returns a pixel's infrared value before the gradient's deduction, from its reading, offset, K_V, K_Ta and access term.
pub fn per_pixel_v_ir(
    reading: f32,
    common: CommonIrData,
    offset: f32,
    k_v: f32,
    k_ta: f32,
    access: f32,
) -> f32
    ensures { result ≡ plain_of common reading offset k_v k_ta access }
{
    (reading * common.gain + access
        - (offset * (1.0 + k_ta * (common.t_a - 25.0))) * (1.0 + k_v * (common.v_dd - 3.3)))
        / common.emissivity
}

// Returns what the compensation pixel takes off every pixel's infrared value, from its reading and its access term; nothing if there is no gradient.
pub fn compensation(
    constants: Constants,
    common: CommonIrData,
    reading: f32,
    access: f32,
) -> Option<f32>
    ensures { result ≡ compensation_of constants common reading access }
{
    let gradient = constants.temperature_gradient_coefficient;
    match gradient {
        Some(coefficient) => {
            let offset = constants.offset_reference_cp as f32;
            let v_ir = per_pixel_v_ir(
                reading,
                common,
                offset,
                constants.k_v_cp,
                constants.k_ta_cp,
                access,
            );
            Some(coefficient * v_ir)
        }
        None => None,
    }
}

fn fourth_power(x: f32) -> f32
    ensures { result ≡ fourth x }
{
    let square = x * x;
    square * square
}

// Returns the reflected temperature.
pub fn reflected_temperature(reflected: Reflected, t_a: f32) -> f32
    ensures { result ≡ reflected_of reflected t_a }
{
    match reflected {
        Reflected::Given(t_r) => t_r,
        Reflected::Ambient { self_heating } => t_a - self_heating,
    }
}

// Returns the reflected term t_ar. With an emissivity of 1 nothing is reflected, and it is the fourth power of t_a in kelvin.
pub fn t_ar(t_a: f32, t_r: f32, emissivity: f32) -> f32
    ensures { result ≡ t_ar_of t_a t_r emissivity }
{
    let a = fourth_power(t_a + 273.15);
    if emissivity == 1.0 {
        return a;
    }
    let r = fourth_power(t_r + 273.15);
    r - (r - a) / emissivity
}

// Returns the factor by which the ambient temperature corrects every pixel's sensitivity.
pub fn sensitivity_correction_coefficient(constants: Constants, t_a: f32) -> f32
    ensures { result ≡ correction_of constants t_a }
{
    1.0 + constants.k_s_ta * (t_a - 25.0)
}

// Returns what the compensation pixel takes off every pixel's sensitivity; nothing if there is no gradient.
pub fn alpha_deduction(constants: Constants) -> Option<f32>
    ensures { result ≡ alpha_deduction_of constants }
{
    let gradient = constants.temperature_gradient_coefficient;
    match gradient {
        Some(coefficient) => Some(constants.alpha_cp * coefficient),
        None => None,
    }
}

// Returns the numbers that all pixels share in the step from infrared to temperature. `k_s_to` is that of the basic range.
pub fn common_to_data(
    constants: Constants,
    settings: Settings,
    t_a: f32,
    k_s_to: f32,
) -> CommonToData
    ensures { result ≡ common_to_of constants settings t_a k_s_to }
{
    let reflected = settings.reflected;
    let t_r = reflected_temperature(reflected, t_a);
    CommonToData {
        alpha_deduction: alpha_deduction(constants),
        correction: sensitivity_correction_coefficient(constants, t_a),
        t_ar: t_ar(t_a, t_r, settings.emissivity),
        k_s_to,
        slope: 1.0 - k_s_to * 273.15,
    }
}

// Returns a pixel's compensated sensitivity, document 01's A.
pub fn sensitivity(alpha: f32, common: CommonToData) -> f32
    ensures { result ≡ lifted_sensitivity alpha common }
{
    let by = common.alpha_deduction;
    deduct(alpha, by) * common.correction
}

// Returns the number whose fourth root `final_value` needs, from a pixel's infrared value and its A.
pub fn under_root(v_ir: f32, a: f32, common: CommonToData) -> f32
    ensures { result ≡ lifted_under v_ir a common }
{
    let cubed = (a * a) * a;
    cubed * v_ir + fourth_power(a) * common.t_ar
}

// Returns document 01's X, the number whose fourth root is the temperature in kelvin, from a pixel's infrared value, its A and the root of `under_root`.
pub fn final_value(v_ir: f32, a: f32, root: f32, common: CommonToData) -> f32
    ensures { result ≡ lifted_from v_ir a root common }
{
    let s = common.k_s_to * root;
    v_ir / (a * common.slope + s) + common.t_ar
}

// Returns X of the second pass (document 02, CR 9), from a range's numbers, a pixel's A, its infrared value and its basic temperature `t`.
pub fn ranged_value(range: Range, t_ar: f32, a: f32, v_ir: f32, t: f32) -> f32
    ensures { result ≡ ranged_of range t_ar a v_ir t }
{
    v_ir / (a * range.coefficient * (1.0 + range.k_s_to * (t - range.corner))) + t_ar
}

// Returns the temperature in degrees Celsius, from the fourth root of X.
pub fn degrees(root: f32) -> f32
    ensures { result ≡ root ⊖ freezing }
{
    root - 273.15
}

// Returns a pixel's result: `t` if it is a number, or else the infrared value as lost.
pub fn pixel_answer(v_ir: f32, t: f32) -> Pixel
    ensures { result ≡ decided t v_ir }
{
    if t != t {
        Pixel::Lost(v_ir)
    } else {
        Pixel::Temperature(t)
    }
}
