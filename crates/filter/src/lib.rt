// A moving average of the compensation pixel: its last 16 raw readings and their sum, as a value.
#![tactic(auto)]

ghost use Rattle.std.specs.Prelude.{◌≡◌, ◌<◌, ◌+ℤ◌, ◌-ℤ◌};
ghost use Rattle.std.specs.Int.Signed.{mag};
ghost use Rattle.filter.specs.Filter.{empty, kept, next_turn, pushed, average_of};

// The last 16 readings (0 for those still missing) and their sum. `turn` counts the readings from 0 to 15; from the 16th on it runs from 16 to 31 and round
// again, and `turn % 16` is the index of the oldest reading. A filter that the caller fills in by hand is accepted too: a sum outside 20 bits signed is
// clamped to that range, and the index is always `turn % 16`.
#[repr(C)]
#[derive(Clone, Copy)]
pub struct Filter {
    pub readings: [i16; 16],
    pub sum: i32,
    pub turn: u8,
}

// Returns a filter without readings. To reset a filter, replace it by this one.
pub fn new() -> Filter
    ensures { result ≡ empty }
{
    Filter {
        readings: [0i16; 16],
        sum: 0,
        turn: 0,
    }
}

// Returns the sum, clamped to 20 bits signed. The sum of 16 readings always fits.
fn kept(sum: i32) -> i32
    ensures { (result ≡ kept sum) × (mag result < 524288) }
{
    if sum < -524288 {
        return -524288;
    }
    if 524287 < sum {
        return 524287;
    }
    sum
}

// Returns the sum after `reading` has replaced the oldest reading.
fn moved_sum(sum: i32, oldest: i16, reading: i16) -> i32
    ensures { result ≡ kept sum +ℤ (reading -ℤ oldest) }
{
    kept(sum) + util::difference(reading, oldest)
}

// Returns `turn` plus 1; 16 follows 31.
fn next_turn(turn: u8) -> u8
    ensures { result ≡ next_turn turn }
{
    if turn < 31 { turn + 1 } else { 16 }
}

// Returns the filter with one more reading, which replaces the oldest.
pub fn push(filter: Filter, reading: i16) -> Filter
    ensures { result ≡ pushed filter reading }
{
    let mut readings = filter.readings;
    let place = (filter.turn % 16) as usize;
    let sum = moved_sum(filter.sum, readings[place], reading);
    readings[place] = reading;
    Filter {
        readings,
        sum,
        turn: next_turn(filter.turn),
    }
}

// Returns the average of the last 16 readings, which is exact, or `None` while there are fewer than 16.
pub fn average(filter: Filter) -> Option<f32>
    ensures { result ≡ average_of filter }
{
    if filter.turn < 16 {
        return None;
    }
    Some(kept(filter.sum) as f32 / 16.0)
}
