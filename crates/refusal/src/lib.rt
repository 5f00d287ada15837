// The numbered refusals: why a call stopped, and where. A refused call leaves the caller's tables, pixels and images as they were.
#![tactic(auto)]

ghost use Rattle.std.specs.Prelude.{◌≡◌};
ghost use Rattle.refusal.specs.Refusal.{says, told_of, verdict_told};

#[derive(Clone, Copy, Debug, PartialEq, Eq)]
pub enum Refusal {
    // 1: the image is shorter than a card.
    ShortImage { length: usize },
    // 1: a list to write does not have one entry for each such word of the card.
    ListLength { length: usize },
    // 2: a slice that the call reads a table from or writes to is too short. A table of pixels needs 192 entries (768 for the MLX90640).
    ShortTable,
    // 3: a checked word is damaged: it is neither a codeword nor one flipped bit away from one.
    DamagedWord { word: usize, bits: u16 },
    // 4: the offset scale is 21 or more.
    LargeScale { scale: u16 },
    // 5: one of the whole numbers computed for this pixel does not fit an i16 (MLX90640 only).
    LargePixel { pixel: usize },
    // 6: the basic range is not a temperature range of the camera.
    BasicRange { range: usize },
    // 7: the supply reading less its reference V_DD25 does not fit an i16.
    SupplyRange,
    // 8: a divisor is zero, or the emissivity is zero or NaN.
    ZeroDivisor,
    // 9: the data to encode do not fit the 11 data bits of a chip word.
    DataTooLarge { data: u16 },
    // 9: the entry of a data list at this index does not fit 11 bits.
    ListedDataTooLarge { index: usize, data: u16 },
    // 10: pixel bytes, destination or mask are too short for a frame; `length` is that of the first short one.
    ShortFrame { length: usize },
    // 11: the wanted image differs from the present one in this unchecked word.
    UncheckedWord { word: usize },
    // 12: this corner temperature is not above the one before it.
    UnorderedCorners { corner: usize },
    // 13: the divisor of this range's coefficient is zero.
    ZeroFactor { range: usize },
    // 14: the MLX90640 has no pixel with this number.
    PixelNumber { pixel: usize },
}

// A refusal as three numbers: its number, its place (an index, a length or the offending number) and its value. Place and value are 0 if the refusal has none.
#[derive(Clone, Copy, Debug, PartialEq, Eq)]
pub struct Told {
    pub number: u64,
    pub place: u64,
    pub value: u64,
}

fn said(number: u64, place: u64, value: u64) -> Told
    ensures { result ≡ says number place value }
{
    Told {
        number,
        place,
        value,
    }
}

impl Refusal {
    // The number, place and value of this refusal.
    pub fn told(self) -> Told
        ensures { result ≡ told_of self }
    {
        match self {
            Refusal::ShortImage { length } => said(1, length as u64, 0),
            Refusal::ListLength { length } => said(1, length as u64, 0),
            Refusal::ShortTable => said(2, 0, 0),
            Refusal::DamagedWord { word, bits } => said(3, word as u64, bits as u64),
            Refusal::LargeScale { scale } => said(4, scale as u64, 0),
            Refusal::LargePixel { pixel } => said(5, pixel as u64, 0),
            Refusal::BasicRange { range } => said(6, range as u64, 0),
            Refusal::SupplyRange => said(7, 0, 0),
            Refusal::ZeroDivisor => said(8, 0, 0),
            Refusal::DataTooLarge { data } => said(9, data as u64, 0),
            Refusal::ListedDataTooLarge { index, data } => said(9, index as u64, data as u64),
            Refusal::ShortFrame { length } => said(10, length as u64, 0),
            Refusal::UncheckedWord { word } => said(11, word as u64, 0),
            Refusal::UnorderedCorners { corner } => said(12, corner as u64, 0),
            Refusal::ZeroFactor { range } => said(13, range as u64, 0),
            Refusal::PixelNumber { pixel } => said(14, pixel as u64, 0),
        }
    }
}

// The outcome of a call's tests: all passed, or the refusal of the first that failed.
pub type Verdict = Result<(), Refusal>;

// The number, place and value of the refusal; 0, 0, 0 if there is none.
pub fn verdict_told(verdict: Verdict) -> Told
    ensures { result ≡ verdict_told verdict }
{
    match verdict {
        Ok(()) => said(0, 0, 0),
        Err(refusal) => refusal.told(),
    }
}
