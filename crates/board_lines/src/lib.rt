// The board's lines on standard output: tab-separated fields, numbers in decimal.
#![tactic(auto)]

use console::Output;
use eeprom::Loaded;
use refusal::{Refusal, Verdict};
use std::fmt;
use std::fmt::Write;

// Writes the refusal's number, place and value, and the number of mended words.
fn fields(verdict: Verdict, mended: usize) -> fmt::Result {
    let told = refusal::verdict_told(verdict);
    write!(
        Output,
        "\t{}\t{}\t{}\t{mended}",
        told.number, told.place, told.value
    )
}

// Writes the fields of a load's result; a refused load mends no word.
pub fn answer(loaded: Result<Loaded, Refusal>) -> fmt::Result {
    match loaded {
        Ok(loaded) => fields(Ok(()), loaded.mending.count),
        Err(refusal) => fields(Err(refusal), 0),
    }
}

// Writes the line of a card whose words are never mended.
pub fn plain_load_line(verdict: Verdict) -> fmt::Result {
    Output.write_str("load")?;
    fields(verdict, 0)?;
    Output.write_str("\n")
}

pub fn load_line(loaded: Result<Loaded, Refusal>) -> fmt::Result {
    Output.write_str("load")?;
    answer(loaded)?;
    Output.write_str("\n")
}

pub fn end_line(lines: u64) -> fmt::Result {
    Output.write_str("end")?;
    writeln!(Output, "\t{lines}")
}
