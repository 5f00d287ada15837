// Mending a card in place, for C and Rust. The call passes its arguments to an inner call and makes the same promise.
#![tactic(auto)]

ghost use Rattle.std.specs.Prelude.{◌≡◌};
ghost use Rattle.scrub.specs.Scrub.{lent};
ghost use Rattle.capi_scrub.specs.Scrubbing.{scrubbed_out, Scrubbing};

use refusal::Refusal;
use scrub::Counts;

// The result of a scrub: number, place and value of the refusal, all 0 for none; the number of words that it changed, and the number of damaged words, which
// are unchanged; both 0 after a refusal.
// Plain numbers in place of a Result: the C interface needs it.
#[repr(C)]
#[derive(Clone, Copy)]
pub struct Scrub {
    pub number: u64,
    pub place: u64,
    pub value: u64,
    pub changed: usize,
    pub damaged: usize,
}

// The result of a scrub as C has it. After a refusal both numbers are 0.
impl From<Result<Counts, Refusal>> for Scrub {
    ghost from_gives = { λ counts result. result ≡ scrubbed_out counts };

    fn from(counts: Result<Counts, Refusal>) -> Scrub {
        match counts {
            Ok(counts) => Scrub {
                number: 0,
                place: 0,
                value: 0,
                changed: counts.changed,
                damaged: counts.damaged,
            },
            Err(refusal) => {
                let told = refusal.told();
                Scrub {
                    number: told.number,
                    place: told.place,
                    value: told.value,
                    changed: 0,
                    damaged: 0,
                }
            },
        }
    }
}

// Mends a card in place, and lists the words that it changed and those that are damaged. Refusals 1 and 2; after one nothing has changed.
#[unsafe(no_mangle)]
pub extern "C" fn loamchalice_scrub(
    image: &mut [u8],
    changed: &mut [u16],
    damaged: &mut [u16],
) -> Scrub
    ensures { Scrubbing (lent image.old changed.old damaged.old) (lent image.new changed.new damaged.new) result }
{
    scrub::scrub(image, changed, damaged).into()
}
