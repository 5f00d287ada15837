// Numbers in lines of text.
ghost use Rattle.std.specs.Prelude.{◌≤◌, ◌<◌, length};

// Whether a byte ends the number of a line.
fn blank(byte: u8) -> bool {
    matches!(byte, b' ' | b'\t' | b'\r')
}

// Returns the word with one more digit in the base, if that is a word too.
fn append(word: u16, digit: u32, base: u32) -> Option<u16> {
    let number = u32::from(word).checked_mul(base)?.checked_add(digit)?;
    u16::try_from(number).ok()
}

// Returns the word that the digits up to a blank or the end represent in base 10 or 16, if they are a word.
fn digits(line: &[u8], base: u32) -> Option<u16>
    requires { (2 ≤ base) × (base ≤ 36) }
{
    let mut word = None;
    for byte in line {
        if blank(*byte) {
            break;
        }
        let digit = char::from(*byte).to_digit(base)?;
        word = Some(append(word.unwrap_or(0), digit, base)?);
    }
    word
}

// Returns the word that a line begins with, if it does: decimal, or 0x and hexadecimal. What follows a blank is not read.
fn word_of(line: &[u8]) -> Option<u16> {
    match line.strip_prefix(b"0x") {
        Some(hexadecimal) => digits(hexadecimal, 16),
        None => digits(line, 10),
    }
}

// Returns the end of the line that begins at `start`: its newline, or the end of the text.
fn line_end(text: &[u8], start: usize) -> usize
    requires { start ≤ length text.now }
    ensures { (start ≤ result) × (result ≤ length text.now) }
{
    match text[start..].iter().position(|byte| *byte == b'\n') {
        Some(before) => start + before,
        None => text.len(),
    }
}

// A line's word, if it has one, and the start of the next line, or the end of the text.
#[derive(Clone, Copy, Debug, PartialEq, Eq)]
pub struct Line {
    pub word: Option<u16>,
    pub next: usize,
}

pub fn line_at(text: &[u8], start: usize) -> Line
    requires { start < length text.now }
    ensures { (start < result.next) × (result.next ≤ length text.now) }
{
    let end = line_end(text, start);
    let word = word_of(&text[start..end]);
    Line {
        word,
        next: if end < text.len() { end + 1 } else { end },
    }
}
