// The map of an MLX90641 card: its sizes, the field that each of its 832 words belongs to, and which words are checked.
#![tactic(auto)]

ghost use Rattle.std.specs.Prelude.{◌≡◌};
ghost use Rattle.map.specs.Map.{role_of, checked};

// The number of words of a card.
pub const WORDS: usize = 832;

// The number of bytes of an image: two for each word.
pub const IMAGE_BYTES: usize = 1664;

// The number of pixels of a frame, and of entries of a table.
pub const PIXELS: usize = 192;

// The number of columns of a frame.
pub const WIDTH: usize = 16;

// The number of rows of a frame.
pub const HEIGHT: usize = 12;

// The number of temperature ranges of the camera.
pub const RANGES: usize = 8;

// The basic range that the crate mlx9064x uses.
pub const BASIC_RANGE: usize = 2;

// The data of all words of a card, by word number.
pub type Words = [u16; WORDS];

// The numbers of the words at which reading starts; some are followed by further fields that are read in sequence.
pub const OFFSET_SCALE: usize = 16;

pub const K_TA_AVERAGE: usize = 21;

pub const K_V_AVERAGE: usize = 23;

pub const ROW_SCALE: usize = 25;

pub const ROW_MAXIMUM: usize = 28;

pub const K_S_TA: usize = 34;

pub const V_DD_25: usize = 38;

pub const K_T_PTAT: usize = 42;

pub const OFFSET_CP: usize = 47;

pub const K_S_TO_SCALE: usize = 52;

pub const OFFSET_0: usize = 64;

pub const ALPHA: usize = 256;

pub const K_PIXEL: usize = 448;

pub const OFFSET_1: usize = 640;

// The fields of a card. Every checked word belongs to one.
#[derive(Clone, Copy, Debug, PartialEq, Eq)]
pub enum Field {
    OffsetScale,
    OffsetAverage,
    KTaAverage,
    KTaScale,
    KVAverage,
    KVScale,
    RowScale,
    RowMaximum,
    KSTa,
    Emissivity,
    Gain,
    VDd25,
    KVDd,
    VPtat25,
    KTPtat,
    KVPtat,
    AlphaPtat,
    AlphaCp,
    AlphaCpScale,
    OffsetCp,
    KTaCp,
    KVCp,
    Gradient,
    KSToScale,
    KSTo,
    Corner,
    Offset0,
    Alpha,
    KPixel,
    Offset1,
}

// The role of a word by its number: the field that it belongs to, or none if it is unchecked. Numbers from 832 on, which are no words, count as
// unchecked.
pub fn role_of(word: usize) -> Option<Field>
    ensures { result ≡ role_of word }
{
    match word {
        0..=15 | 19..=20 => None,
        16 => Some(Field::OffsetScale),
        17..=18 => Some(Field::OffsetAverage),
        21 => Some(Field::KTaAverage),
        22 => Some(Field::KTaScale),
        23 => Some(Field::KVAverage),
        24 => Some(Field::KVScale),
        25..=27 => Some(Field::RowScale),
        28..=33 => Some(Field::RowMaximum),
        34 => Some(Field::KSTa),
        35 => Some(Field::Emissivity),
        36..=37 => Some(Field::Gain),
        38 => Some(Field::VDd25),
        39 => Some(Field::KVDd),
        40..=41 => Some(Field::VPtat25),
        42 => Some(Field::KTPtat),
        43 => Some(Field::KVPtat),
        44 => Some(Field::AlphaPtat),
        45 => Some(Field::AlphaCp),
        46 => Some(Field::AlphaCpScale),
        47..=48 => Some(Field::OffsetCp),
        49 => Some(Field::KTaCp),
        50 => Some(Field::KVCp),
        51 => Some(Field::Gradient),
        52 => Some(Field::KSToScale),
        53..=57 => Some(Field::KSTo),
        58 => Some(Field::Corner),
        59 => Some(Field::KSTo),
        60 => Some(Field::Corner),
        61 => Some(Field::KSTo),
        62 => Some(Field::Corner),
        63 => Some(Field::KSTo),
        64..=255 => Some(Field::Offset0),
        256..=447 => Some(Field::Alpha),
        448..=639 => Some(Field::KPixel),
        640..=831 => Some(Field::Offset1),
        _ => None,
    }
}

// Whether a word is checked.
pub fn is_checked(word: usize) -> bool
    ensures { result ≡ checked word }
{
    role_of(word).is_some()
}
