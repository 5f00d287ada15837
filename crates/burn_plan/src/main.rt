// Reads a present card and right after it a wanted one from standard input. Writes the steps from the first to the second, a line for each, and then their
// number. A card is 1,664 bytes; what follows the second is not read.
// A refusal has a line in place of a step, and standard error has `refused` with number, place and value. If reading or writing fails, standard error has
// `failed: reading` or `failed: writing`; if reading fails, nothing is written to standard output. If the wanted card does not load, standard error has
// `warning: the wanted card does not load` with number, place and value.
#![tactic(auto)]

use burn::Step;
use console::{Failure, Output};
use map::{BASIC_RANGE, IMAGE_BYTES};
use offsets::Offset;
use refusal::{Refusal, Verdict};
use std::fmt;
use std::fmt::Write;
use std::io::Stdin;

// The largest number of steps in a plan: two for each of 814 words.
const STEPS: u64 = 1628;

// Writes the line of a step: the word, and its new value.
fn step_line(step: Step) -> fmt::Result {
    Output.write_str("step")?;
    writeln!(Output, "\t{}\t{}", step.word, step.value)
}

// Writes the line of a refusal: its number, place and value.
fn refused_line(refusal: Refusal) -> fmt::Result {
    let told = refusal.told();
    Output.write_str("refused")?;
    writeln!(Output, "\t{}\t{}\t{}", told.number, told.place, told.value)
}

fn end_line(steps: u64) -> fmt::Result {
    Output.write_str("end")?;
    writeln!(Output, "\t{steps}")
}

// The number of steps written, and the refusal that stopped them, if any.
#[derive(Clone, Copy, Debug, PartialEq, Eq)]
struct Plan {
    steps: u64,
    verdict: Verdict,
}

fn planned(steps: u64) -> Plan {
    Plan {
        steps,
        verdict: Ok(()),
    }
}

// Burns until the wanted card is reached or the burn is refused, and writes the step of each call, or the refusal.
fn burn_all(present: &mut [u8], wanted: &[u8]) -> Result<Plan, fmt::Error> {
    for steps in 0..STEPS {
        match burn::burn(present, wanted) {
            Err(refusal) => {
                refused_line(refusal)?;
                return Ok(Plan {
                    steps,
                    verdict: Err(refusal),
                });
            }
            Ok(burnt) => {
                let Some(step) = burnt.step else {
                    return Ok(planned(steps));
                };
                step_line(step)?;
                if burnt.reached {
                    return Ok(planned(steps + 1));
                }
            }
        }
    }
    Ok(planned(STEPS))
}

// Returns the verdict of loading a card.
fn loads(image: &[u8]) -> Verdict {
    let mut offsets0: [Offset; 192] = [0; 192];
    let mut offsets1: [Offset; 192] = [0; 192];
    let mut alpha = [0.0f32; 192];
    let mut k_v = [0.0f32; 192];
    let mut k_ta = [0.0f32; 192];
    eeprom::load(
        image,
        BASIC_RANGE,
        &mut offsets0,
        &mut offsets1,
        &mut alpha,
        &mut k_v,
        &mut k_ta,
    )?;
    Ok(())
}

// Warns if the wanted card does not load. The burn is planned all the same: a card may be written in several rounds.
fn warn(wanted: &[u8]) {
    if let Err(refusal) = loads(wanted) {
        let told = refusal.told();
        console::say("warning: the wanted card does not load:");
        console::say(format_args!(" {} {} {}\n", told.number, told.place, told.value));
    }
}

// Writes the lines of the steps from one card to the other.
fn plan_lines(present: &mut [u8], wanted: &[u8]) -> Result<(), Failure> {
    warn(wanted);
    let plan = burn_all(present, wanted)?;
    end_line(plan.steps)?;
    plan.verdict?;
    Ok(())
}

fn run(input: Stdin) -> Result<(), Failure> {
    let mut present = [0u8; IMAGE_BYTES];
    let mut wanted = [0u8; IMAGE_BYTES];
    let here = io::read_full(console::STDIN, &mut present);
    console::whole(input, here, IMAGE_BYTES)?;
    let there = io::read_full(console::STDIN, &mut wanted);
    console::whole(input, there, IMAGE_BYTES)?;
    plan_lines(&mut present[..here], &wanted[..there])
}

fn main(rt: HostRuntime) {
    console::end(run(rt.stdin()));
}
