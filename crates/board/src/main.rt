// Reads an image of the MLX90641's card from standard input and writes the result of loading it, and then the number of lines before.
// Only the first 1,664 bytes of an image are loaded, and its length matters only below that. So a buffer of 4,096 bytes serves any input: it is read until it
// is full or the input ends, and the rest of the input is not read.
// A refusal is also written to standard error, as `refused` with number, place and value. If reading or writing fails, standard error has `failed: reading`
// or `failed: writing`; if reading fails, nothing is written to standard output.
#![tactic(auto)]

use board_lines::{end_line, load_line};
use console::Failure;
use eeprom::Loaded;
use map::{BASIC_RANGE, IMAGE_BYTES};
use offsets::Offset;
use refusal::Refusal;
use std::io::Stdin;

fn load(image: &[u8]) -> Result<Loaded, Refusal> {
    let mut offsets0: [Offset; 192] = [0; 192];
    let mut offsets1: [Offset; 192] = [0; 192];
    let mut alpha = [0.0f32; 192];
    let mut k_v = [0.0f32; 192];
    let mut k_ta = [0.0f32; 192];
    eeprom::load(
        image,
        BASIC_RANGE,
        &mut offsets0,
        &mut offsets1,
        &mut alpha,
        &mut k_v,
        &mut k_ta,
    )
}

// Writes the lines of an image.
fn serve(image: &[u8]) -> Result<(), Failure> {
    let loaded = load(image);
    load_line(loaded)?;
    end_line(1)?;
    loaded?;
    Ok(())
}

fn run(input: Stdin) -> Result<(), Failure> {
    let mut buffer = io::buffer();
    let n = io::read_full(console::STDIN, &mut buffer);
    console::whole(input, n, IMAGE_BYTES)?;
    serve(&buffer[..n])
}

fn main(rt: HostRuntime) {
    console::end(run(rt.stdin()));
}
