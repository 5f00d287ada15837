// Burning: the way from a present image to a wanted one, a step a call. No plan is kept: each step is worked out from what is found, so a burn
// that was cut goes on from there. Only the first 1,664 bytes of an image count.
#![tactic(auto)]

ghost use Rattle.std.specs.Prelude.{◌≡◌, ◌+◌, ◌*◌, ◌<◌, ◌≤◌, length};
ghost use Rattle.refusal.specs.Order.{first_of};
ghost use Rattle.util.specs.Found.{found_below};
ghost use Rattle.map.specs.Map.{card_words, image_bytes};
ghost use Rattle.burn.specs.Burn.{differ_at, unchecked_at, first_differ, first_unchecked, next_value, word_set, step_from, burn_tests, next_of, Burns};

use map::{IMAGE_BYTES, WORDS};
use refusal::{Refusal, Verdict};

// A word, and what it becomes.
#[derive(Clone, Copy, Debug, PartialEq, Eq)]
pub struct Step {
    pub word: usize,
    pub value: u16,
}

// What a call has done, if there was a step to do, and whether the wanted image is now reached.
#[derive(Clone, Copy, Debug, PartialEq, Eq)]
pub struct Burnt {
    pub step: Option<Step>,
    pub reached: bool,
}

// Whether the word is another in the two images.
fn differs(present: &[u8], wanted: &[u8], word: usize) -> bool
    requires { (word * 2 + 1 < length present.now) × (word * 2 + 1 < length wanted.now) }
    ensures { result ≡ differ_at present.now wanted.now word }
{
    let old = util::word_at(present, word);
    let new = util::word_at(wanted, word);
    old != new
}

// The same of words that are not checked.
fn unchecked_differs(present: &[u8], wanted: &[u8], word: usize) -> bool
    requires { (word * 2 + 1 < length present.now) × (word * 2 + 1 < length wanted.now) }
    ensures { result ≡ unchecked_at present.now wanted.now word }
{
    if map::is_checked(word) {
        return false;
    }
    differs(present, wanted, word)
}

// The first word that differs.
fn first_differing(present: &[u8], wanted: &[u8]) -> Option<usize>
    requires { (image_bytes ≤ length present.now) × (image_bytes ≤ length wanted.now) }
    ensures { result ≡ found_below card_words (first_differ present.now wanted.now) }
{
    (0..WORDS).find(|&word| differs(present, wanted, word))
}

// The first unchecked word that differs.
fn first_unchecked(present: &[u8], wanted: &[u8]) -> Option<usize>
    requires { (image_bytes ≤ length present.now) × (image_bytes ≤ length wanted.now) }
    ensures { result ≡ found_below card_words (first_unchecked present.now wanted.now) }
{
    (0..WORDS).find(|&word| unchecked_differs(present, wanted, word))
}

// Refusals 1 and 11.
fn gate(present: &[u8], wanted: &[u8]) -> Verdict
    ensures { result ≡ first_of (burn_tests present.now wanted.now) }
{
    let here = present.len();
    if here < IMAGE_BYTES {
        return Err(Refusal::ShortImage { length: here });
    }
    let there = wanted.len();
    if there < IMAGE_BYTES {
        return Err(Refusal::ShortImage { length: there });
    }
    match first_unchecked(present, wanted) {
        Some(word) => Err(Refusal::UncheckedWord { word }),
        None => Ok(()),
    }
}

// What a word that differs becomes: zero, or what is wanted where it is zero.
fn next_value(present: &[u8], wanted: &[u8], word: usize) -> u16
    requires { (word * 2 + 1 < length present.now) × (word * 2 + 1 < length wanted.now) }
    ensures { result ≡ next_value present.now wanted.now word }
{
    let old = util::word_at(present, word);
    let new = util::word_at(wanted, word);
    if old == 0 { new } else { 0 }
}

// The first step of the plan, if a word differs.
fn first_step(present: &[u8], wanted: &[u8]) -> Option<Step>
    requires { (image_bytes ≤ length present.now) × (image_bytes ≤ length wanted.now) }
    ensures { result ≡ step_from present.now wanted.now }
{
    let word = first_differing(present, wanted)?;
    let value = next_value(present, wanted, word);
    Some(Step { word, value })
}

// The step that `burn` would do; none if the present image is the wanted one. Refusals 1 and 11.
pub fn next_step(present: &[u8], wanted: &[u8]) -> Result<Option<Step>, Refusal>
    ensures { result ≡ next_of present.now wanted.now }
{
    gate(present, wanted)?;
    Ok(first_step(present, wanted))
}

// Does the next step on the present image. With none to do, and after refusal 1 or 11, it changes nothing.
pub fn burn(present: &mut [u8], wanted: &[u8]) -> Result<Burnt, Refusal>
    ensures { Burns present.old wanted.now present.new result }
{
    let Some(step) = next_step(present, wanted)? else {
        return Ok(Burnt {
            step: None,
            reached: true,
        });
    };
    util::put_word(present, step.word, step.value);
    let reached = first_differing(present, wanted).is_none();
    Ok(Burnt {
        step: Some(step),
        reached,
    })
}
