// The map of the MLX90640's card: the field that each of its 832 words belongs to. This card has no error-correcting code: every word is read as it is.
#![tactic(auto)]

ghost use Rattle.std.specs.Prelude.{◌≡◌};
ghost use Rattle.map640.specs.Map.{field_of};

// The number of words of a card.
pub const WORDS: usize = 832;

// The number of bytes of an image: two for each word.
pub const IMAGE_BYTES: usize = 1664;

// The numbers of the words at which reading starts.
pub const OFFSET_SCALES: usize = 16;

pub const ALPHA_SCALES: usize = 32;

pub const GAIN: usize = 48;

pub const V_PTAT_25: usize = 49;

pub const PTAT: usize = 50;

pub const V_DD: usize = 51;

pub const K_V: usize = 52;

pub const ACCESS: usize = 53;

pub const K_TA_AVERAGE: usize = 54;

pub const SCALES: usize = 56;

pub const ALPHA_CP: usize = 57;

pub const OFFSET_CP: usize = 58;

pub const K_CP: usize = 59;

pub const K_S_TA: usize = 60;

pub const K_S_TO: usize = 61;

pub const CORNERS: usize = 63;

pub const PIXEL: usize = 64;

// The fields of a card. Every word belongs to one.
#[derive(Clone, Copy)]
pub enum Field {
    // Words 0 to 15, which are not read.
    NotRead,
    // Four nibbles, the uppermost first: alpha_PTAT, and the scales of the offsets' rows, columns and rests (the part of each pixel itself).
    OffsetScales,
    OffsetAverage,
    // Coefficients of rows, and below of columns: four to a word, the lowest nibble first.
    OffsetRow,
    OffsetColumn,
    // Four nibbles, the uppermost first: the scale of alpha itself, and the scales of its rows, columns and rests.
    AlphaScales,
    AlphaAverage,
    AlphaRow,
    AlphaColumn,
    Gain,
    VPtat25,
    // K_VPTAT and K_TPTAT.
    Ptat,
    // K_VDD and V_DD25.
    VDd,
    // K_V: four nibbles, the uppermost first, one for each entry of the chessboard.
    KV,
    // The access pattern corrections.
    Access,
    // The averages of K_Ta: four bytes, one for each entry of the chessboard.
    KTaAverage,
    // The resolution, and the scales of K_V and K_Ta.
    Scales,
    // alpha_CP of subpage 0, and the ratio that gives that of subpage 1.
    AlphaCp,
    // Offset CP of subpage 0, and the delta that gives that of subpage 1.
    OffsetCp,
    // K_V and K_Ta of the compensation pixel.
    KCp,
    // K_sTa and the gradient.
    KSTa,
    KSTo,
    // The step of the corner temperatures, corners 2 and 3 in steps, and the scale of K_sTo.
    Corners,
    // The rests of a pixel's offset, alpha and K_Ta.
    Pixel,
}

// The field of a word by its number. Numbers from 832 on, which are no words, count as not read.
pub fn field_of(word: usize) -> Field
    ensures { result ≡ field_of word }
{
    match word {
        0..=15 => Field::NotRead,
        16 => Field::OffsetScales,
        17 => Field::OffsetAverage,
        18..=23 => Field::OffsetRow,
        24..=31 => Field::OffsetColumn,
        32 => Field::AlphaScales,
        33 => Field::AlphaAverage,
        34..=39 => Field::AlphaRow,
        40..=47 => Field::AlphaColumn,
        48 => Field::Gain,
        49 => Field::VPtat25,
        50 => Field::Ptat,
        51 => Field::VDd,
        52 => Field::KV,
        53 => Field::Access,
        54..=55 => Field::KTaAverage,
        56 => Field::Scales,
        57 => Field::AlphaCp,
        58 => Field::OffsetCp,
        59 => Field::KCp,
        60 => Field::KSTa,
        61..=62 => Field::KSTo,
        63 => Field::Corners,
        64..=831 => Field::Pixel,
        _ => Field::NotRead,
    }
}
