// Reads an image from standard input and writes its words as the 832 lines that write_card takes, that of word 0 first. A line has the data of a checked word
// in decimal, or an unchecked word as 0x and four hexadecimal digits; then a tab and the word's number. If the image is refused, standard error has `refused`
// with number, place and value, and nothing is written to standard output. If reading or writing fails, standard error has `failed: reading` or `failed:
// writing`.
#![tactic(auto)]

use console::{Failure, Output};
use listing::{CHECKED_WORDS, UNCHECKED_WORDS};
use map::{IMAGE_BYTES, WORDS};
use std::fmt;
use std::fmt::Write;
use std::io::Stdin;

// Writes the line of an unchecked word, with all four digits at once.
fn unchecked_line(bits: u16, word: usize) -> fmt::Result {
    let mut digits = [0u8; 16];
    let n = io::hex(u64::from(bits), 4, &mut digits);
    Output.write_str("0x")?;
    console::put(&digits[..n])?;
    writeln!(Output, "\t{word}")
}

// Writes the line of each word, from the next entry of its list.
fn word_lines(data: &[u16], others: &[u16]) -> fmt::Result {
    let mut data = data.iter();
    let mut others = others.iter();
    for word in 0..WORDS {
        if map::is_checked(word) {
            if let Some(data) = data.next() {
                writeln!(Output, "{data}\t{word}")?;
            }
        } else if let Some(bits) = others.next() {
            unchecked_line(*bits, word)?;
        }
    }
    Ok(())
}

// Writes the words of an image, if it is not refused.
fn read_card(image: &[u8]) -> Result<(), Failure> {
    let mut data = [0u16; CHECKED_WORDS];
    let mut others = [0u16; UNCHECKED_WORDS];
    listing::read_words(image, &mut data, &mut others)?;
    word_lines(&data, &others)?;
    Ok(())
}

fn run(input: Stdin) -> Result<(), Failure> {
    let mut buffer = io::buffer();
    let n = io::read_full(console::STDIN, &mut buffer);
    console::whole(input, n, IMAGE_BYTES)?;
    read_card(&buffer[..n])
}

fn main(rt: HostRuntime) {
    console::end(run(rt.stdin()));
}
