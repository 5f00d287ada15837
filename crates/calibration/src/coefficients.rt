// The range coefficients of a card (document 02, CR 9), and the range whose coefficient would be divided by zero.
ghost use Rattle.std.specs.Prelude.{◌≡◌, ◌<◌};
ghost use Rattle.util.specs.Found.{found_below};
ghost use Rattle.calibration.specs.Coefficients.{range_count, coefficients_of, zero_factor};

use super::Ranges;
use map::RANGES;

// Returns the coefficients of all ranges.
pub fn coefficients(ranges: Ranges, basic_range: usize) -> [f32; 8]
    requires { basic_range < range_count }
    ensures { result ≡ coefficients_of ranges basic_range }
{
    let corners = ranges.corner_temperatures;
    let k_s_to = ranges.k_s_to;
    let mut coefficients = [0.0f32; RANGES];
    ranges::coefficients(RANGES, &corners, &k_s_to, basic_range, &mut coefficients);
    coefficients
}

// Returns the range nearest below the basic one whose coefficient would be divided by zero, if there is one.
pub fn zero_factor(ranges: Ranges, basic_range: usize) -> Option<usize>
    requires { basic_range < range_count }
    ensures { result ≡ found_below range_count (zero_factor ranges basic_range) }
{
    let corners = ranges.corner_temperatures;
    let k_s_to = ranges.k_s_to;
    ranges::zero_factor(RANGES, &corners, &k_s_to, basic_range)
}
