// Parts of the MLX90640's card format, for C and Rust: splits of a word, access pattern corrections, and pixel entries.
#![tactic(auto)]

ghost use Rattle.std.specs.Prelude.{◌≡◌};
ghost use Rattle.mlx90640.specs.Words.{six_ten, u4s, i4s};
ghost use Rattle.mlx90640.specs.Pixels.{interleave_at, chessboard_at, entry_of};
ghost use Rattle.capi_mlx90640.specs.Bigger.{unsigned_out, signed_out, access_pattern, entry_out};

use mlx90640::SixTen;
use refusal::Refusal;

// The four unsigned nibbles of a word.
#[repr(C)]
#[derive(Clone, Copy)]
pub struct Unsigned {
    pub nibbles: [u8; 4],
}

// The four signed nibbles of a word.
#[repr(C)]
#[derive(Clone, Copy)]
pub struct Signed {
    pub nibbles: [i8; 4],
}

// The access pattern corrections of a word, and the six-entry pattern made of the first two.
#[repr(C)]
#[derive(Clone, Copy)]
pub struct AccessPattern {
    pub chess_3: f32,
    pub chess_2: f32,
    pub chess_1: f32,
    pub pattern: [f32; 6],
}

// A pixel's entry, 0 after a refusal; and number, place and value of the refusal, all 0 for none. C has no `Result`.
#[repr(C)]
#[derive(Clone, Copy)]
pub struct PixelEntry {
    pub number: u64,
    pub place: u64,
    pub value: u64,
    pub entry: usize,
}

// Returns a word's upper six bits, signed, and its lower ten, unsigned.
#[unsafe(no_mangle)]
pub extern "C" fn loamchalice_mlx90640_word_6_10_split(word: u16) -> SixTen
    ensures { result ≡ six_ten word }
{
    mlx90640::word_6_10_split(word)
}

// Returns the four unsigned nibbles of a word, the uppermost first.
#[unsafe(no_mangle)]
pub extern "C" fn loamchalice_mlx90640_word_to_u4s(word: u16) -> Unsigned
    ensures { result ≡ unsigned_out (u4s word) }
{
    let nibbles = mlx90640::word_to_u4s(word);
    Unsigned { nibbles }
}

// Returns the four signed nibbles of a word, the uppermost first.
#[unsafe(no_mangle)]
pub extern "C" fn loamchalice_mlx90640_word_to_i4s(word: u16) -> Signed
    ensures { result ≡ signed_out (i4s word) }
{
    let nibbles = mlx90640::word_to_i4s(word);
    Signed { nibbles }
}

// Returns the access pattern corrections of a word, and their six-entry pattern.
#[unsafe(no_mangle)]
pub extern "C" fn loamchalice_mlx90640_access_pattern(word: u16) -> AccessPattern
    ensures { result ≡ access_pattern word }
{
    let corrections = mlx90640::access_pattern_corrections(word);
    let pattern = mlx90640::interleave_pattern(corrections);
    AccessPattern {
        chess_3: corrections.chess_3,
        chess_2: corrections.chess_2,
        chess_1: corrections.chess_1,
        pattern,
    }
}

// A pixel's entry as C has it.
impl From<Result<usize, Refusal>> for PixelEntry {
    ghost from_gives = { λ entry result. result ≡ entry_out entry };

    fn from(entry: Result<usize, Refusal>) -> PixelEntry {
        match entry {
            Ok(at) => PixelEntry {
                number: 0,
                place: 0,
                value: 0,
                entry: at,
            },
            Err(refusal) => {
                let told = refusal.told();
                PixelEntry {
                    number: told.number,
                    place: told.place,
                    value: told.value,
                    entry: 0,
                }
            }
        }
    }
}

// Returns the index, 0 to 5, of a pixel's entry in the interleave pattern. Refusal 14.
#[unsafe(no_mangle)]
pub extern "C" fn loamchalice_mlx90640_interleave_entry(pixel: usize) -> PixelEntry
    ensures { result ≡ entry_out (entry_of pixel (interleave_at pixel)) }
{
    mlx90640::interleave_entry(pixel).into()
}

// Returns the index, 0 to 3, of a pixel's entry in the chessboard. Refusal 14.
#[unsafe(no_mangle)]
pub extern "C" fn loamchalice_mlx90640_chessboard_entry(pixel: usize) -> PixelEntry
    ensures { result ≡ entry_out (entry_of pixel (chessboard_at pixel)) }
{
    mlx90640::chessboard_entry(pixel).into()
}
