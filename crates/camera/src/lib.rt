// What both cameras share: the subpage of a frame, and the way in which their cards hold a signed number.
#![tactic(auto)]

ghost use Rattle.std.specs.Prelude.{◌≡◌, ◌≤◌};
ghost use Rattle.floats.specs.Floats.{over};
ghost use Rattle.util.specs.Fields.{signed};

// Which of the two subpages a frame belongs to. The camera measures them in turn.
#[derive(Clone, Copy, Debug, PartialEq, Eq)]
pub enum Subpage {
    Zero,
    One,
}

// The low `width` bits of a word, signed, divided by 2^power.
pub fn signed_over(word: u16, width: u32, power: u16) -> f32
    requires { (1 ≤ width) × (width ≤ 16) }
    ensures { result ≡ over (signed width word) power }
{
    util::i16_from_bits(util::wide(word), width) as f32 / floats::exp2(power)
}
