// Burning a card, for C and Rust. Each call passes its images to an inner call and makes the same promise.
#![tactic(auto)]

ghost use Rattle.std.specs.Prelude.{◌≡◌};
ghost use Rattle.burn.specs.Burn.{next_of};
ghost use Rattle.capi_burn.specs.Burning.{flag_of, burning_out, burnt_out, is_reached, Burning};

use burn::{Burnt, Step};
use refusal::Refusal;

// The result of a burning call: number, place and value of the refusal, all 0 for none; the step's word and its new value, 832 and 0 if there is no step; and
// `reached`, 1 if the wanted image is reached, else 0.
// Plain numbers in place of a Result: the C interface needs it.
#[repr(C)]
#[derive(Clone, Copy)]
pub struct Burn {
    pub number: u64,
    pub place: u64,
    pub value: u64,
    pub word: usize,
    pub bits: u16,
    pub reached: u8,
}

// Whether there is no step left to do.
fn is_reached(next: Result<Option<Step>, Refusal>) -> bool
    ensures { result ≡ is_reached next }
{
    matches!(next, Ok(None))
}

// Returns a step as C has it. A function, since a `From` has one argument.
fn burn_out(next: Result<Option<Step>, Refusal>, reached: u8) -> Burn
    ensures { result ≡ burning_out next reached }
{
    match next {
        Err(refusal) => {
            let told = refusal.told();
            Burn {
                number: told.number,
                place: told.place,
                value: told.value,
                word: 832,
                bits: 0,
                reached,
            }
        },
        Ok(None) => Burn {
            number: 0,
            place: 0,
            value: 0,
            word: 832,
            bits: 0,
            reached,
        },
        Ok(Some(step)) => Burn {
            number: 0,
            place: 0,
            value: 0,
            word: step.word,
            bits: step.value,
            reached,
        },
    }
}

// The result of a burn as C has it. After a refusal the wanted image is not reached.
impl From<Result<Burnt, Refusal>> for Burn {
    ghost from_gives = { λ burnt result. result ≡ burnt_out burnt };

    fn from(burnt: Result<Burnt, Refusal>) -> Burn {
        match burnt {
            Err(refusal) => burn_out(Err(refusal), 0),
            Ok(burnt) => burn_out(Ok(burnt.step), u8::from(burnt.reached)),
        }
    }
}

// Returns the step that `loamchalice_burn` would do. `reached` is 1 if there is none. Refusals 1 and 11.
#[unsafe(no_mangle)]
pub extern "C" fn loamchalice_next_step(present: &[u8], wanted: &[u8]) -> Burn
    ensures { result ≡ burning_out (next_of present.now wanted.now) (flag_of (is_reached (next_of present.now wanted.now))) }
{
    let next = burn::next_step(present, wanted);
    burn_out(next, u8::from(is_reached(next)))
}

// Does one step on the present image. `reached` is 1 if the image is now the wanted one. Refusals 1 and 11; after one no byte has changed.
#[unsafe(no_mangle)]
pub extern "C" fn loamchalice_burn(present: &mut [u8], wanted: &[u8]) -> Burn
    ensures { Burning present.old wanted.now present.new result }
{
    burn::burn(present, wanted).into()
}
