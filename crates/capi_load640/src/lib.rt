// The MLX90640's card, for C and Rust. The call passes its arguments to an inner call and makes the same promise.
#![tactic(auto)]

ghost use Rattle.std.specs.Prelude.{◌≡◌};
ghost use Rattle.load640.specs.Load.{tables};
ghost use Rattle.capi_load640.specs.Border.{loaded_out, Loading};

use capi_record640::Record640;
use record640::Calibration;
use refusal::Refusal;

// The result of a load: number, place and value of the refusal, all 0 for none; and the record, all zero after a refusal. C has no `Result`.
#[repr(C)]
#[derive(Clone, Copy)]
pub struct Load640 {
    pub number: u64,
    pub place: u64,
    pub value: u64,
    pub calibration: Record640,
}

// The result of a load as C has it.
impl From<Result<Calibration, Refusal>> for Load640 {
    ghost from_gives = { λ answer result. result ≡ loaded_out answer };

    fn from(answer: Result<Calibration, Refusal>) -> Load640 {
        let (told, calibration) = match answer {
            Ok(calibration) => (refusal::verdict_told(Ok(())), calibration),
            Err(refusal) => (refusal.told(), record640::no_calibration()),
        };
        Load640 {
            number: told.number,
            place: told.place,
            value: told.value,
            calibration: calibration.into(),
        }
    }
}

// Loads a card; its range coefficients are 1 at the basic range. Refusals 1, 2, 5 and 6 (13 is tested, and never holds); after one the tables are unchanged.
// Table entries past 768 are unchanged.
#[unsafe(no_mangle)]
pub extern "C" fn loamchalice_mlx90640_load(
    image: &[u8],
    basic_range: usize,
    offsets: &mut [i32],
    alpha: &mut [f32],
    k_ta: &mut [f32],
) -> Load640
    ensures { Loading image.now basic_range (tables offsets.old alpha.old k_ta.old)
        (tables offsets.new alpha.new k_ta.new) result }
{
    load640::load(image, basic_range, offsets, alpha, k_ta).into()
}
