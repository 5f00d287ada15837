// Cases of burning a card: the next step, and a burn.
use burn::Step;
use refusal::Refusal;
use stream::{Differs, Expected};

// Compares the refusal, the step's word and its value: 832 and 0 if there is no step.
fn same_next(expected: &mut Expected, next: Result<Option<Step>, Refusal>) -> Result<(), Differs> {
    let step = next.unwrap_or(None).unwrap_or(Step {
        word: 832,
        value: 0,
    });
    expected.same_verdict(next.map(|_| ()))?;
    expected.same_size(step.word)?;
    expected.same(step.value)
}

pub fn burn(input: &[u8], expected: &mut Expected) -> Result<(), Differs> {
    let mut present = [0u8; 1680];
    stream::fill(input, 4, &mut present);
    let length = stream::size_at(input, 0);
    let wanted = stream::bytes(input, 1684, stream::size_at(input, 2));
    let next = burn::next_step(stream::first(&present, length), wanted);
    let burnt = burn::burn(stream::first_mut(&mut present, length), wanted);
    same_next(expected, next)?;
    same_next(expected, burnt.map(|burnt| burnt.step))?;
    expected.same_flag(matches!(burnt, Ok(burnt) if burnt.reached))?;
    expected.all_same(&present)
}
