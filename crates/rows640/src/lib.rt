// The MLX90640's pixels by row and column: K_V and access terms of the first two rows, which repeat down the picture, and the mask of a subpage.
#![tactic(auto)]

ghost use Rattle.std.specs.Prelude.{◌≡◌, ◌≤◌, ◌<◌, length};
ghost use Rattle.std.specs.Float.{nan};
ghost use Rattle.lists.specs.Each.{Each};
ghost use Rattle.pixels.specs.Blocks.{is};
ghost use Rattle.rows640.specs.Rows.{two_rows, k_v_at, access_at};
ghost use Rattle.rows640.specs.Mask.{number_of, subpage_at, mask_at, Masks};

use camera::Subpage;
use mlx90640::{NUM_PIXELS, WIDTH};
use refusal::{Refusal, Verdict};

// The number of pixels in two rows.
pub const TWO_ROWS: usize = 2 * WIDTH;

// The access pattern: a subpage has the pixels of one colour of a chessboard, or every other row.
#[derive(Clone, Copy, Debug, PartialEq, Eq)]
pub enum Pattern {
    Chess,
    Interleave,
}

// ---- Two rows

// Writes K_V of the pixels of two rows, from the chessboard's four entries.
pub fn k_v_rows(four: [f32; 4], rows: &mut [f32])
    requires { two_rows ≤ length rows.old }
    ensures { Each (is (k_v_at four)) nan rows.new two_rows }
{
    for k in 0..TWO_ROWS {
        let entry = mlx90640::chessboard_at(k);
        rows[k] = four[entry];
    }
}

// Returns the access term of pixel `k`.
fn access_at(pattern: Pattern, six: [f32; 6], k: usize) -> f32
    ensures { result ≡ access_at pattern six k }
{
    match pattern {
        Pattern::Chess => 0.0,
        Pattern::Interleave => {
            let entry = mlx90640::interleave_at(k);
            six[entry]
        }
    }
}

// Writes the access terms of the pixels of two rows.
pub fn access_rows(pattern: Pattern, six: [f32; 6], rows: &mut [f32])
    requires { two_rows ≤ length rows.old }
    ensures { Each (is (access_at pattern six)) nan rows.new two_rows }
{
    for k in 0..TWO_ROWS {
        rows[k] = access_at(pattern, six, k);
    }
}

// ---- The mask of a subpage

// Returns the number of a subpage, 0 or 1.
pub fn number_of(subpage: Subpage) -> usize
    ensures value { result ≡ number_of subpage }
    ensures upper_bound { result < 2 }
{
    match subpage {
        Subpage::Zero => 0,
        Subpage::One => 1,
    }
}

// Returns the number of the subpage that a pixel belongs to.
fn subpage_at(pattern: Pattern, pixel: usize) -> usize
    ensures { result ≡ subpage_at pattern pixel }
{
    let row = pixel / WIDTH;
    match pattern {
        Pattern::Chess => (row + pixel % WIDTH) % 2,
        Pattern::Interleave => row % 2,
    }
}

// Returns a pixel's mask byte for a subpage: 1 if the pixel belongs to it, else 0.
fn mask_at(subpage: usize, pattern: Pattern, pixel: usize) -> u8
    ensures { result ≡ mask_at subpage pattern pixel }
{
    if subpage_at(pattern, pixel) == subpage {
        1
    } else {
        0
    }
}

// Writes the mask of a subpage: 1 for each of its pixels, 0 for the others. Refusal 2 if the mask has fewer than 768 entries; entries past 768 are unchanged.
pub fn write_mask(subpage: Subpage, pattern: Pattern, mask: &mut [u8]) -> Verdict
    ensures { Masks (number_of subpage) pattern mask.old mask.new result }
{
    if mask.len() < NUM_PIXELS {
        return Err(Refusal::ShortTable);
    }
    let number = number_of(subpage);
    for pixel in 0..NUM_PIXELS {
        mask[pixel] = mask_at(number, pattern, pixel);
    }
    Ok(())
}
