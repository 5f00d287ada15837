// The chip word: data in bits 0 to 10, check bits P0 to P4 in bits 11 to 15. Encodes data, checks a word and mends a flipped bit.
#![tactic(auto)]

ghost use Rattle.std.specs.Prelude.{◌≡◌, ◌+◌, ◌*◌, ◌<◌};
ghost use Rattle.hamming.specs.Word.{parity, data_values, encoded, not_codeword};
ghost use Rattle.hamming.specs.Inner.{syndrome_of, spread, odd_byte};
ghost use Rattle.hamming.specs.Answer.{encode_answer, check_answer};

use refusal::Refusal;

// An accepted word: `Clean` with the data of a codeword, `Mended` with the data and the number (0 to 15) of the one flipped bit.
#[derive(Clone, Copy, Debug, PartialEq, Eq)]
pub enum Checked {
    Clean(u16),
    Mended { data: u16, bit: u8 },
}

// The number of data values: data have 11 bits.
pub const DATA_VALUES: u16 = 2048;

// 1 in each of five bytes. There is a byte for each check bit, with P0 in the lowest.
const EACH: u64 = 0x01_0101_0101;
// For each check bit, in its byte: which bits of the word's low byte it covers.
const LOW: u64 = 0xFF_F08E_6D5B;

// For each check bit, in its byte: which bits of the word's high byte it covers, with the check bit itself.
const HIGH: u64 = 0xFF_4727_160D;
// The bit of P4 among the five bytes.
const P4: u64 = 0x01_0000_0000;
// A factor that gathers the bits of P0 to P3 into bits 24 to 27.
const BESIDE: u64 = 0x0102_0408;
// The number of the flipped bit if P4 is odd: a hexadecimal digit for each of the 16 values of P0 to P3, the digit for 0 lowest.
const POINTED: u64 = 0xA987_654E_321D_0CBF;

// 1 if the word has an odd number of ones under the mask, else 0.
fn odd(word: u16, mask: u16) -> u16
    ensures { result ≡ parity mask word }
{
    (u16::count_ones(word & mask) % 2) as u16
}

// The codeword of 11 bits of data.
fn with_checks(data: u16) -> u16
    requires { «data» < data_values }
    ensures { result ≡ encoded «data» }
{
    let p0 = odd(data, 0x055B);
    let p1 = odd(data, 0x066D);
    let p2 = odd(data, 0x078E);
    let p3 = odd(data, 0x07F0);
    let word = data | (p0 << 11) | (p1 << 12) | (p2 << 13) | (p3 << 14);
    let p4 = odd(word, 0x7FFF);
    word | (p4 << 15)
}

// The syndrome, one byte for each check bit: 1 if the number of ones among the bits it covers and itself is odd, else 0. The five bytes are folded
// at once, each onto its lowest bit.
fn odd_bytes(word: u16) -> u64
    ensures { result ≡ spread (syndrome_of word) }
{
    let low = ((word % 256) as u64 * EACH) & LOW;
    let high = ((word / 256) as u64 * EACH) & HIGH;
    let ones = low ^ high;
    let four = ones ^ (ones >> 4);
    let two = four ^ (four >> 2);
    let one = two ^ (two >> 1);
    one & EACH
}

// 1 if the byte has an odd number of ones, else 0.
fn odd_byte(byte: u8) -> u8
    ensures { result ≡ odd_byte byte }
{
    (u8::count_ones(byte) % 2) as u8
}

// 0 if the word of these two bytes is a codeword, else 1. Computes the parity of each check bit, P4 first, over the bits of both bytes that it covers
// and itself. There is no branch, so a compiler can process several words at once.
pub fn not_codeword(high: u8, low: u8) -> u8
    ensures { result ≡ not_codeword (high * 256 + low) }
{
    odd_byte(low ^ high)
        | odd_byte((low & 0xF0) ^ (high & 0x47))
        | odd_byte((low & 0x8E) ^ (high & 0x27))
        | odd_byte((low & 0x6D) ^ (high & 0x16))
        | odd_byte((low & 0x5B) ^ (high & 0x0D))
}

// Returns the codeword of the data; data above 2047 are refused.
pub fn encode(data: u16) -> Result<u16, Refusal>
    ensures { result ≡ encode_answer «data» }
{
    if data < DATA_VALUES {
        Ok(with_checks(data))
    } else {
        Err(Refusal::DataTooLarge { data })
    }
}

// Returns the data of a chip word, as `Clean` for a codeword and as `Mended` if one bit is flipped. A damaged word is refused.
pub fn check(word: u16) -> Result<Checked, Refusal>
    ensures { result ≡ check_answer word }
{
    let odd = odd_bytes(word);
    if odd == 0 {
        return Ok(Checked::Clean(word % DATA_VALUES));
    }
    if odd < P4 {
        return Err(Refusal::DamagedWord {
            word: 0,
            bits: word,
        });
    }
    let value = ((odd * BESIDE) >> 24) % 16;
    let bit = (POINTED >> (value * 4)) % 16;
    Ok(Checked::Mended {
        data: (word ^ (1 << bit)) % DATA_VALUES,
        bit: bit as u8,
    })
}
