// Chip words and the fourth root, for C and Rust. Each call passes its arguments to an inner call and makes the same promise.
#![tactic(auto)]

ghost use Rattle.std.specs.Prelude.{◌≡◌};
ghost use Rattle.std.specs.Float.{binary32};
ghost use Rattle.std.specs.Float.Ieee.{to_bits};
ghost use Rattle.root.specs.Root.{root};
ghost use Rattle.hamming.specs.Answer.{encode_answer, check_answer};
ghost use Rattle.capi_words.specs.Border.{good_word, refused_word, encoded_out, checked_out};

use hamming::Checked;
use refusal::Refusal;

// The result of a call on a chip word: number, place and value of the refusal, all 0 for none; and the word or its data, 0 after a refusal. If a checked word
// was mended, `mended` is 1 and `bit` is the flipped bit, 0 to 15; or else both are 0. C has no `Result`.
#[repr(C)]
#[derive(Clone, Copy)]
pub struct Word {
    pub number: u64,
    pub place: u64,
    pub value: u64,
    pub word: u16,
    pub mended: u8,
    pub bit: u8,
}

// Returns the bits of the fourth root of x. Every NaN has the bits 0x7FC00000.
#[unsafe(no_mangle)]
pub extern "C" fn loamchalice_root(x: f32) -> u32
    ensures { result ≡ to_bits binary32 (root x) }
{
    floats::to_bits(root::fourth_root(x))
}

// A refusal as C has it.
impl From<Refusal> for Word {
    ghost from_gives = { λ refusal result. result ≡ refused_word refusal };

    fn from(refusal: Refusal) -> Word {
        let told = refusal.told();
        Word {
            number: told.number,
            place: told.place,
            value: told.value,
            word: 0,
            mended: 0,
            bit: 0,
        }
    }
}

// Returns a word, or a word's data, without a refusal. A function, since a `From` has one argument.
fn good_word(word: u16, mended: u8, bit: u8) -> Word
    ensures { result ≡ good_word word mended bit }
{
    Word {
        number: 0,
        place: 0,
        value: 0,
        word,
        mended,
        bit,
    }
}

// Returns the chip word of 11 bits of data. Refusal 9.
#[unsafe(no_mangle)]
pub extern "C" fn loamchalice_encode(data: u16) -> Word
    ensures { result ≡ encoded_out (encode_answer «data») }
{
    match hamming::encode(data) {
        Ok(word) => good_word(word, 0, 0),
        Err(too_large) => Word::from(too_large),
    }
}

// Returns the data of a chip word that is clean, or mended if one bit is flipped. Refusal 3.
#[unsafe(no_mangle)]
pub extern "C" fn loamchalice_check(word: u16) -> Word
    ensures { result ≡ checked_out (check_answer word) }
{
    match hamming::check(word) {
        Ok(Checked::Clean(data)) => good_word(data, 0, 0),
        Ok(Checked::Mended { data, bit }) => good_word(data, 1, bit),
        Err(damaged) => Word::from(damaged),
    }
}
