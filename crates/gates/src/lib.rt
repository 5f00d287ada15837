// The tests that refuse a frame call, in their order of priority. Each test is one function, and the three gates share them.
#![tactic(auto)]

ghost use Rattle.std.specs.Prelude.{◌≡◌};
ghost use Rattle.refusal.specs.Order.{first_of};
ghost use Rattle.gates.specs.Gate.{bad_emissivity, zero_divisor, supply_outside, length_tests, range_tests, reading_tests, emissivity_tests, infrared_tests, temperature_tests, one_pass_tests};

use formulas::{Constants, RamData};
use refusal::{Refusal, Verdict};

// The number of pixels of a frame, and the lengths of the caller's slices: its shortest table, its pixel bytes, its destination and its mask.
#[derive(Clone, Copy)]
pub struct Lengths {
    pub size: usize,
    pub table: usize,
    pub pixels: usize,
    pub destination: usize,
    pub mask: usize,
}

// Whether an emissivity is refused: a zero of either sign, or NaN.
fn emissivity_stops(emissivity: f32) -> bool
    ensures { result ≡ bad_emissivity emissivity }
{
    if emissivity == 0.0 {
        return true;
    }
    emissivity != emissivity
}

// Whether one of the divisors that all pixels share is zero.
fn divisor_stops(constants: Constants, ram: RamData) -> bool
    ensures { result ≡ zero_divisor constants ram }
{
    if constants.k_v_dd as f32 == 0.0 {
        return true;
    }
    if ram.gain as f32 == 0.0 {
        return true;
    }
    if constants.k_t_ptat == 0.0 {
        return true;
    }
    let delta = formulas::delta_v(constants, ram);
    if formulas::ptat_correction(constants, delta) == 0.0 {
        return true;
    }
    formulas::ptat_denominator(constants, ram) == 0.0
}

// Whether the supply reading differs from its reference V_DD25 by more than an i16 holds.
fn supply_stops(constants: Constants, ram: RamData) -> bool
    ensures { result ≡ supply_outside constants ram }
{
    !util::fits_i16(util::difference(ram.v_dd_pixel, constants.v_dd_25))
}

// Tests for refusals 2 (a short table) and 10 (short pixel bytes, destination or mask).
fn length_gate(lengths: Lengths) -> Verdict
    ensures { result ≡ first_of (length_tests lengths) }
{
    if lengths.table < lengths.size {
        return Err(Refusal::ShortTable);
    }
    if lengths.pixels / 2 < lengths.size {
        let length = lengths.pixels;
        return Err(Refusal::ShortFrame { length });
    }
    if lengths.destination < lengths.size {
        let length = lengths.destination;
        return Err(Refusal::ShortFrame { length });
    }
    if lengths.mask < lengths.size {
        let length = lengths.mask;
        return Err(Refusal::ShortFrame { length });
    }
    Ok(())
}

// Tests for refusal 6: a basic range that the camera does not have.
fn range_gate(ranges: usize, basic_range: usize) -> Verdict
    ensures { result ≡ first_of (range_tests ranges basic_range) }
{
    if ranges <= basic_range {
        return Err(Refusal::BasicRange { range: basic_range });
    }
    Ok(())
}

// Tests for refusals 7 and 8 in a call that takes pixel bytes.
fn reading_gate(constants: Constants, emissivity: f32, ram: RamData) -> Verdict
    ensures { result ≡ first_of (reading_tests constants emissivity ram) }
{
    if supply_stops(constants, ram) {
        return Err(Refusal::SupplyRange);
    }
    if divisor_stops(constants, ram) {
        return Err(Refusal::ZeroDivisor);
    }
    if emissivity_stops(emissivity) {
        return Err(Refusal::ZeroDivisor);
    }
    Ok(())
}

// Tests for refusal 8 by the emissivity alone.
fn emissivity_gate(emissivity: f32) -> Verdict
    ensures { result ≡ first_of (emissivity_tests emissivity) }
{
    if emissivity_stops(emissivity) {
        return Err(Refusal::ZeroDivisor);
    }
    Ok(())
}

// The first refusal of an infrared call, or a pass: 2, 10, 7, 8.
pub fn infrared_gate(
    constants: Constants,
    emissivity: f32,
    ram: RamData,
    lengths: Lengths,
) -> Verdict
    ensures { result ≡ first_of (infrared_tests constants emissivity ram lengths) }
{
    length_gate(lengths)?;
    reading_gate(constants, emissivity, ram)
}

// The first refusal of an infrared-to-temperature call, or a pass: 2, 10, 6, and 8 for the emissivity alone.
pub fn temperature_gate(
    emissivity: f32,
    ranges: usize,
    basic_range: usize,
    lengths: Lengths,
) -> Verdict
    ensures { result ≡ first_of (temperature_tests emissivity ranges basic_range lengths) }
{
    length_gate(lengths)?;
    range_gate(ranges, basic_range)?;
    emissivity_gate(emissivity)
}

// The first refusal of a one-pass call, or a pass: 2, 10, 6, 7, 8.
pub fn one_pass_gate(
    constants: Constants,
    emissivity: f32,
    ram: RamData,
    ranges: usize,
    basic_range: usize,
    lengths: Lengths,
) -> Verdict
    ensures { result ≡ first_of (one_pass_tests constants emissivity ram ranges basic_range lengths) }
{
    length_gate(lengths)?;
    range_gate(ranges, basic_range)?;
    reading_gate(constants, emissivity, ram)
}
