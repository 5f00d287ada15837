// Cases of a filter: a sequence of pushes and resets.
use filter::Filter;
use stream::{Differs, Expected};

#[derive(Clone, Copy, Debug, PartialEq, Eq)]
enum Event {
    Push,
    Reset,
}

fn event_at(input: &[u8], at: usize) -> Event {
    match stream::byte_at(input, at) {
        0 => Event::Push,
        _ => Event::Reset,
    }
}

// The position of the next event, and the filter.
#[derive(Clone, Copy)]
struct Turn {
    at: usize,
    filter: Filter,
}

// Whether there is an average, and the average; 0 if there is none.
fn same_average(expected: &mut Expected, average: Option<f32>) -> Result<(), Differs> {
    expected.same_flag(average.is_some())?;
    match average {
        Some(average) => expected.same(average),
        None => expected.same(0u32),
    }
}

fn after_event(input: &[u8], turn: Turn) -> Turn {
    match event_at(input, turn.at) {
        Event::Push => {
            let reading = stream::short_at(input, stream::after(turn.at, 1));
            Turn {
                at: stream::after(turn.at, 3),
                filter: filter::push(turn.filter, reading),
            }
        }
        Event::Reset => Turn {
            at: stream::after(turn.at, 1),
            filter: filter::new(),
        },
    }
}

pub fn filter(input: &[u8], expected: &mut Expected) -> Result<(), Differs> {
    let mut turn = Turn {
        at: 0,
        filter: filter::new(),
    };
    for _ in 0..65536usize {
        if input.len() <= turn.at {
            break;
        }
        turn = after_event(input, turn);
        same_average(expected, filter::average(turn.filter))?;
    }
    Ok(())
}
