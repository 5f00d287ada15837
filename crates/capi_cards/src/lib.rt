// Cards, for C and Rust. Each call passes its arguments to an inner call and makes the same promise.
#![tactic(auto)]

ghost use Rattle.std.specs.Prelude.{◌≡◌, take, drop};
ghost use Rattle.eeprom.specs.Load.{tables};
ghost use Rattle.eeprom.specs.Parts.{row_of, offsets_of};
ghost use Rattle.listing.specs.Index.{lists};
ghost use Rattle.capi_record.specs.Record.{subpage_of};
ghost use Rattle.capi_cards.specs.Border.{load_of, loaded_out, outcome_of, Loading, Writing, Reading, row_place, offsets_place};

use calibration::Calibration;
use capi_record::Record;
use card::Mending;
use eeprom::Loaded;
use offsets::Offset;
use refusal::{Refusal, Told, Verdict};

// The result of a load: number, place and value of the refusal, all 0 for none; the number of checked words that were mended, and the last of them (832 if
// there is none, and after a refusal); and the calibration record, all zero after a refusal. C has no `Result`, and no `Option`.
#[repr(C)]
#[derive(Clone, Copy)]
pub struct Load {
    pub number: u64,
    pub place: u64,
    pub value: u64,
    pub mended: usize,
    pub last_mended: usize,
    pub calibration: Record,
}

// The result of a call that returns nothing else: number, place and value of the refusal, all 0 for none.
#[repr(C)]
#[derive(Clone, Copy)]
pub struct Outcome {
    pub number: u64,
    pub place: u64,
    pub value: u64,
}

// A part of one of the caller's slices: the index of its first entry and its length.
#[repr(C)]
#[derive(Clone, Copy)]
pub struct Part {
    pub start: usize,
    pub length: usize,
}

// Returns a refusal's numbers, a record and the mended words as C has them. A function, since a `From` has one argument.
fn load_of(told: Told, calibration: Calibration, mending: Mending) -> Load
    ensures { result ≡ load_of told calibration mending }
{
    Load {
        number: told.number,
        place: told.place,
        value: told.value,
        mended: mending.count,
        last_mended: mending.last,
        calibration: calibration.into(),
    }
}

// The result of a load as C has it. After a refusal the record is all zero and no word counts as mended.
impl From<Result<Loaded, Refusal>> for Load {
    ghost from_gives = { λ loaded result. result ≡ loaded_out loaded };

    fn from(loaded: Result<Loaded, Refusal>) -> Load {
        match loaded {
            Ok(loaded) => {
                let told = refusal::verdict_told(Ok(()));
                load_of(told, loaded.calibration, loaded.mending)
            }
            Err(refusal) => {
                let told = refusal.told();
                load_of(told, calibration::no_calibration(), card::no_mending())
            }
        }
    }
}

// Loads a card; its range coefficients are 1 at the basic range. Refusals 1 to 4, 6 and 13; after one the tables are unchanged. Table entries past 192 are
// unchanged.
#[unsafe(no_mangle)]
pub extern "C" fn loamchalice_load(
    image: &[u8],
    basic_range: usize,
    offsets0: &mut [Offset],
    offsets1: &mut [Offset],
    alpha: &mut [f32],
    k_v: &mut [f32],
    k_ta: &mut [f32],
) -> Load
    ensures { Loading image.now basic_range (tables offsets0.old offsets1.old alpha.old k_v.old k_ta.old)
        (tables offsets0.new offsets1.new alpha.new k_v.new k_ta.new) result }
{
    eeprom::load(image, basic_range, offsets0, offsets1, alpha, k_v, k_ta).into()
}

// A verdict as C has it.
impl From<Verdict> for Outcome {
    ghost from_gives = { λ verdict result. result ≡ outcome_of verdict };

    fn from(verdict: Verdict) -> Outcome {
        let told = refusal::verdict_told(verdict);
        Outcome {
            number: told.number,
            place: told.place,
            value: told.value,
        }
    }
}

// Writes a card from the data of its 814 checked words and its 18 unchecked words. Refusals 1, 2, 9; after one the image is unchanged. Bytes past 1,664 are
// unchanged.
#[unsafe(no_mangle)]
pub extern "C" fn loamchalice_write(data: &[u16], others: &[u16], image: &mut [u8]) -> Outcome
    ensures { Writing (lists «data».now others.now) image.old image.new result }
{
    writer::write(data, others, image).into()
}

// Reads the data of a card's 814 checked words and its 18 unchecked words. Refusals 1, 2, 3; after one the lists are unchanged. Entries past 814 and 18 are
// unchanged.
#[unsafe(no_mangle)]
pub extern "C" fn loamchalice_read_words(
    image: &[u8],
    data: &mut [u16],
    others: &mut [u16],
) -> Outcome
    ensures { Reading image.now (lists «data».old others.old) (lists «data».new others.new) result }
{
    listing::read_words(image, data, others).into()
}

// Returns the position of the 64 bytes of a row of alpha in the image; 0 and 0 for a row above 5 or an image below 1,664 bytes.
#[unsafe(no_mangle)]
pub extern "C" fn loamchalice_alpha_row(image: &[u8], row: usize) -> Part
    ensures value { result ≡ row_place image.now row }
    ensures image_value { take result.length (drop result.start image.now) ≡ row_of image.now row }
{
    let part = eeprom::alpha_row(image, row);
    let length = part.len();
    if length == 0 {
        return Part {
            start: 0,
            length: 0,
        };
    }
    Part {
        start: 512 + row * 64,
        length,
    }
}

// Returns the position of a subpage's offsets in its own table: the first 192 entries, or none if the table is shorter.
#[unsafe(no_mangle)]
pub extern "C" fn loamchalice_subpage_offsets<'a>(
    zero: &'a [Offset],
    one: &'a [Offset],
    subpage: u8,
) -> Part
    ensures { result ≡ offsets_place (offsets_of zero.now one.now (subpage_of subpage)) }
{
    let which = capi_record::subpage_of(subpage);
    let part = eeprom::subpage_offsets(zero, one, which);
    Part {
        start: 0,
        length: part.len(),
    }
}
