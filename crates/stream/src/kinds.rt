// The kinds of cases. A kind's number begins its cases; its name stands in the runner's lines.
ghost use Rattle.std.specs.Prelude.{IsOk, ◌↔◌, ◌≤◌};

use std::fmt;

// What a frame call makes of raw pixels: infrared, or temperatures by the coefficients of one range or of each pixel's own range.
#[derive(Clone, Copy, Debug, PartialEq, Eq)]
pub enum Pass {
    Infrared,
    One,
    Second,
}

// A call on raw pixels, with the frame's own compensation pixel or a filter's average.
#[derive(Clone, Copy, Debug, PartialEq, Eq)]
pub enum RawCall {
    Plain(Pass),
    Filtered(Pass),
}

// A frame call: on raw pixels, or from infrared to temperatures.
#[derive(Clone, Copy, Debug, PartialEq, Eq)]
pub enum Call {
    Raw(RawCall),
    Temperatures,
}

// A case of a word or a card of the MLX90641, or of a word or a pixel of the MLX90640.
#[derive(Clone, Copy, Debug, PartialEq, Eq)]
pub enum CardCase {
    Encode,
    Check,
    Load,
    Row,
    Subpage,
    ReadWords,
    Write,
    Scrub,
    Burn,
    Pieces,
    Filter,
    Word,
    Split,
    Pixel,
}

// A case of the MLX90640's card or frames.
#[derive(Clone, Copy, Debug, PartialEq, Eq)]
pub enum Case640 {
    Load,
    Mask,
    Call(Call),
}

// A camera or a frame for the cases that follow it.
#[derive(Clone, Copy, Debug, PartialEq, Eq)]
pub enum Shelved {
    Camera,
    Frame,
    Camera640,
    Frame640,
}

#[derive(Clone, Copy, Debug, PartialEq, Eq)]
pub enum Kind {
    Shelved(Shelved),
    Card(CardCase),
    Call(Call),
    Bigger(Case640),
}

// A number that is no kind's.
#[derive(Clone, Copy, Debug, PartialEq, Eq)]
pub struct UnknownKind(pub u16);

impl TryFrom<u16> for Kind {
    type Error = UnknownKind;

    ghost try_from_gives = { λ number kind. IsOk kind ↔ ((1 ≤ number) × (number ≤ 34)) };

    fn try_from(number: u16) -> Result<Self, UnknownKind> {
        match number {
            1 => Ok(Kind::Card(CardCase::Encode)),
            2 => Ok(Kind::Card(CardCase::Check)),
            3 => Ok(Kind::Card(CardCase::Load)),
            4 => Ok(Kind::Card(CardCase::Row)),
            5 => Ok(Kind::Card(CardCase::Subpage)),
            6 => Ok(Kind::Card(CardCase::ReadWords)),
            7 => Ok(Kind::Card(CardCase::Write)),
            8 => Ok(Kind::Card(CardCase::Scrub)),
            9 => Ok(Kind::Card(CardCase::Burn)),
            10 => Ok(Kind::Card(CardCase::Pieces)),
            11 => Ok(Kind::Card(CardCase::Filter)),
            12 => Ok(Kind::Shelved(Shelved::Camera)),
            13 => Ok(Kind::Shelved(Shelved::Frame)),
            14 => Ok(Kind::Call(Call::Raw(RawCall::Plain(Pass::Infrared)))),
            15 => Ok(Kind::Call(Call::Raw(RawCall::Plain(Pass::One)))),
            16 => Ok(Kind::Call(Call::Raw(RawCall::Plain(Pass::Second)))),
            17 => Ok(Kind::Call(Call::Raw(RawCall::Filtered(Pass::Infrared)))),
            18 => Ok(Kind::Call(Call::Raw(RawCall::Filtered(Pass::One)))),
            19 => Ok(Kind::Call(Call::Raw(RawCall::Filtered(Pass::Second)))),
            20 => Ok(Kind::Call(Call::Temperatures)),
            21 => Ok(Kind::Card(CardCase::Word)),
            22 => Ok(Kind::Card(CardCase::Split)),
            23 => Ok(Kind::Card(CardCase::Pixel)),
            24 => Ok(Kind::Bigger(Case640::Load)),
            25 => Ok(Kind::Bigger(Case640::Mask)),
            26 => Ok(Kind::Shelved(Shelved::Camera640)),
            27 => Ok(Kind::Shelved(Shelved::Frame640)),
            28 => Ok(Kind::Bigger(Case640::Call(Call::Raw(RawCall::Plain(Pass::Infrared))))),
            29 => Ok(Kind::Bigger(Case640::Call(Call::Raw(RawCall::Plain(Pass::One))))),
            30 => Ok(Kind::Bigger(Case640::Call(Call::Raw(RawCall::Plain(Pass::Second))))),
            31 => Ok(Kind::Bigger(Case640::Call(Call::Raw(RawCall::Filtered(Pass::Infrared))))),
            32 => Ok(Kind::Bigger(Case640::Call(Call::Raw(RawCall::Filtered(Pass::One))))),
            33 => Ok(Kind::Bigger(Case640::Call(Call::Raw(RawCall::Filtered(Pass::Second))))),
            34 => Ok(Kind::Bigger(Case640::Call(Call::Temperatures))),
            _ => Err(UnknownKind(number)),
        }
    }
}

impl fmt::Display for Pass {
    fn fmt<W: fmt::Write>(&self, f: &mut fmt::Formatter<W>) -> fmt::Result {
        f.write_str(match self {
            Pass::Infrared => "infrared",
            Pass::One => "one pass",
            Pass::Second => "second pass",
        })
    }
}

impl fmt::Display for RawCall {
    fn fmt<W: fmt::Write>(&self, f: &mut fmt::Formatter<W>) -> fmt::Result {
        match self {
            RawCall::Plain(pass) => write!(f, "{pass}"),
            RawCall::Filtered(pass) => write!(f, "filtered {pass}"),
        }
    }
}

impl fmt::Display for Call {
    fn fmt<W: fmt::Write>(&self, f: &mut fmt::Formatter<W>) -> fmt::Result {
        match self {
            Call::Raw(call) => write!(f, "{call}"),
            Call::Temperatures => f.write_str("temperatures"),
        }
    }
}

impl fmt::Display for CardCase {
    fn fmt<W: fmt::Write>(&self, f: &mut fmt::Formatter<W>) -> fmt::Result {
        f.write_str(match self {
            CardCase::Encode => "encode",
            CardCase::Check => "check",
            CardCase::Load => "load",
            CardCase::Row => "row",
            CardCase::Subpage => "subpage",
            CardCase::ReadWords => "read words",
            CardCase::Write => "write",
            CardCase::Scrub => "scrub",
            CardCase::Burn => "burn",
            CardCase::Pieces => "pieces",
            CardCase::Filter => "filter",
            CardCase::Word => "MLX90640 word",
            CardCase::Split => "MLX90640 split",
            CardCase::Pixel => "MLX90640 pixel",
        })
    }
}

impl fmt::Display for Case640 {
    fn fmt<W: fmt::Write>(&self, f: &mut fmt::Formatter<W>) -> fmt::Result {
        match self {
            Case640::Load => f.write_str("MLX90640 load"),
            Case640::Mask => f.write_str("MLX90640 mask"),
            Case640::Call(call) => write!(f, "MLX90640 {call}"),
        }
    }
}

impl fmt::Display for Shelved {
    fn fmt<W: fmt::Write>(&self, f: &mut fmt::Formatter<W>) -> fmt::Result {
        f.write_str(match self {
            Shelved::Camera => "camera",
            Shelved::Frame => "frame",
            Shelved::Camera640 => "MLX90640 camera",
            Shelved::Frame640 => "MLX90640 frame",
        })
    }
}

impl fmt::Display for Kind {
    fn fmt<W: fmt::Write>(&self, f: &mut fmt::Formatter<W>) -> fmt::Result {
        match self {
            Kind::Shelved(shelved) => write!(f, "{shelved}"),
            Kind::Card(case) => write!(f, "{case}"),
            Kind::Call(call) => write!(f, "{call}"),
            Kind::Bigger(case) => write!(f, "{case}"),
        }
    }
}
