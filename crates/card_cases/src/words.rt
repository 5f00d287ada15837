// Chip words.
use hamming::Checked;
use stream::{Differs, Expected};

pub fn encode(input: &[u8], expected: &mut Expected) -> Result<(), Differs> {
    let encoded = hamming::encode(stream::half_at(input, 0));
    expected.same_verdict(encoded.map(|_| ()))?;
    expected.same(encoded.unwrap_or(0))
}

pub fn check(input: &[u8], expected: &mut Expected) -> Result<(), Differs> {
    let checked = hamming::check(stream::half_at(input, 0));
    let (data, mended, bit) = match checked {
        Ok(Checked::Clean(data)) => (data, false, 0),
        Ok(Checked::Mended { data, bit }) => (data, true, bit),
        Err(_) => (0, false, 0),
    };
    expected.same_verdict(checked.map(|_| ()))?;
    expected.same(data)?;
    expected.same_flag(mended)?;
    expected.same(bit)
}
