// Reads an image of the MLX90640's card from standard input and writes the result of loading it, and then the number of lines before. The lines are those of
// `board`; their fifth field is 0, since no word of this card is mended.
// Only the first 1,664 bytes of an image are loaded, and its length matters only below that. So a buffer of 4,096 bytes serves any input: it is read until it
// is full or the input ends, and the rest of the input is not read.
// A refusal is also written to standard error, as `refused` with number, place and value. If reading or writing fails, standard error has `failed: reading`
// or `failed: writing`; if reading fails, nothing is written to standard output.
#![tactic(auto)]

use board_lines::{end_line, plain_load_line};
use console::Failure;
use load640::BASIC_RANGE;
use map640::IMAGE_BYTES;
use refusal::Verdict;
use std::io::Stdin;

// Returns the verdict of loading an image.
fn load(image: &[u8]) -> Verdict {
    let mut offsets = [0i32; 768];
    let mut alpha = [0.0f32; 768];
    let mut k_ta = [0.0f32; 768];
    load640::load(image, BASIC_RANGE, &mut offsets, &mut alpha, &mut k_ta)?;
    Ok(())
}

// Writes the lines of an image.
fn serve(image: &[u8]) -> Result<(), Failure> {
    let verdict = load(image);
    plain_load_line(verdict)?;
    end_line(1)?;
    verdict?;
    Ok(())
}

fn run(input: Stdin) -> Result<(), Failure> {
    let mut buffer = io::buffer();
    let n = io::read_full(console::STDIN, &mut buffer);
    console::whole(input, n, IMAGE_BYTES)?;
    serve(&buffer[..n])
}

fn main(rt: HostRuntime) {
    console::end(run(rt.stdin()));
}
