//! The table of format codes (OASIS AMQP 1.0, part 1, sections 1.2 and 1.6).
ghost use Rattle.std.specs.Prelude.{◌≡◌, ◌≤◌};
ghost use Rattle.amqp_types.specs.Codes.{class_of, octets_in, kind_index, run_index};

/// A type whose values are handled as unsigned numbers. Null and false are 0, true is 1, and a signed number is its
/// two's complement.
#[derive(Clone, Copy)]
pub enum Kind {
    Null,
    Bool,
    Ubyte,
    Ushort,
    Uint,
    Ulong,
    Sbyte,
    Short,
    Int,
    Long,
    FloatBits,
    DoubleBits,
    Dec32,
    Dec64,
    Char,
    Timestamp,
}

/// A type whose values are handled as octets.
#[derive(Clone, Copy)]
pub enum Run {
    Binary,
    Str,
    Symbol,
    Dec128,
    Uuid,
}

/// The number of octets that a number, a size or a count takes.
#[derive(Clone, Copy)]
pub enum Width {
    Zero,
    One,
    Two,
    Four,
    Eight,
}

/// The conversion of the number in a body into the value.
#[derive(Clone, Copy)]
pub enum Conversion {
    /// The number is the value.
    Plain,
    /// The value is the number plus one, as for the code of true, which has no body.
    One,
    /// The number is one octet in two's complement, widened to four octets.
    Widened32,
    /// The number is one octet in two's complement, widened to eight octets.
    Widened64,
}

/// The shape of the body under a format code.
#[derive(Clone, Copy)]
pub enum Class {
    /// A number of this width.
    Number(Kind, Width, Conversion),
    /// A size of this width, then as many octets.
    Octets(Run, Width),
    /// Sixteen octets.
    Sixteen(Run),
    /// No body: a list without items.
    EmptyList,
    /// Size and count of this width each, then the items.
    List(Width),
    /// Size and count of this width each, then keys and values in turn.
    Map(Width),
    /// Size and count of this width each, then one format code and the bodies under it.
    Array(Width),
    /// A descriptor, then the value that it describes.
    Described,
    /// The code is not in the table.
    Unknown,
}

/// Returns the shape of the body under `code`, or [`Class::Unknown`] if the code is not in the table.
#[tactic(auto, unfolding(crate::specs::Codes::class_of))]
pub fn class_of(code: u8) -> Class
    ensures { result ≡ class_of code }
{
    match code {
        0x00 => Class::Described,
        0x40 => Class::Number(Kind::Null, Width::Zero, Conversion::Plain),
        0x41 => Class::Number(Kind::Bool, Width::Zero, Conversion::One),
        0x42 => Class::Number(Kind::Bool, Width::Zero, Conversion::Plain),
        0x43 => Class::Number(Kind::Uint, Width::Zero, Conversion::Plain),
        0x44 => Class::Number(Kind::Ulong, Width::Zero, Conversion::Plain),
        0x45 => Class::EmptyList,
        0x50 => Class::Number(Kind::Ubyte, Width::One, Conversion::Plain),
        0x51 => Class::Number(Kind::Sbyte, Width::One, Conversion::Plain),
        0x52 => Class::Number(Kind::Uint, Width::One, Conversion::Plain),
        0x53 => Class::Number(Kind::Ulong, Width::One, Conversion::Plain),
        0x54 => Class::Number(Kind::Int, Width::One, Conversion::Widened32),
        0x55 => Class::Number(Kind::Long, Width::One, Conversion::Widened64),
        0x56 => Class::Number(Kind::Bool, Width::One, Conversion::Plain),
        0x60 => Class::Number(Kind::Ushort, Width::Two, Conversion::Plain),
        0x61 => Class::Number(Kind::Short, Width::Two, Conversion::Plain),
        0x70 => Class::Number(Kind::Uint, Width::Four, Conversion::Plain),
        0x71 => Class::Number(Kind::Int, Width::Four, Conversion::Plain),
        0x72 => Class::Number(Kind::FloatBits, Width::Four, Conversion::Plain),
        0x73 => Class::Number(Kind::Char, Width::Four, Conversion::Plain),
        0x74 => Class::Number(Kind::Dec32, Width::Four, Conversion::Plain),
        0x80 => Class::Number(Kind::Ulong, Width::Eight, Conversion::Plain),
        0x81 => Class::Number(Kind::Long, Width::Eight, Conversion::Plain),
        0x82 => Class::Number(Kind::DoubleBits, Width::Eight, Conversion::Plain),
        0x83 => Class::Number(Kind::Timestamp, Width::Eight, Conversion::Plain),
        0x84 => Class::Number(Kind::Dec64, Width::Eight, Conversion::Plain),
        0x94 => Class::Sixteen(Run::Dec128),
        0x98 => Class::Sixteen(Run::Uuid),
        0xa0 => Class::Octets(Run::Binary, Width::One),
        0xa1 => Class::Octets(Run::Str, Width::One),
        0xa3 => Class::Octets(Run::Symbol, Width::One),
        0xb0 => Class::Octets(Run::Binary, Width::Four),
        0xb1 => Class::Octets(Run::Str, Width::Four),
        0xb3 => Class::Octets(Run::Symbol, Width::Four),
        0xc0 => Class::List(Width::One),
        0xc1 => Class::Map(Width::One),
        0xd0 => Class::List(Width::Four),
        0xd1 => Class::Map(Width::Four),
        0xe0 => Class::Array(Width::One),
        0xf0 => Class::Array(Width::Four),
        _ => Class::Unknown,
    }
}

impl Width {
    /// Returns the number of octets of this width, at most 8.
    pub fn octets(self) -> usize
        ensures value { result ≡ octets_in self }
        ensures bound { result ≤ 8 }
    {
        match self {
            Width::Zero => 0,
            Width::One => 1,
            Width::Two => 2,
            Width::Four => 4,
            Width::Eight => 8,
        }
    }
}

pub(crate) fn run_index(run: Run) -> u8
    ensures { result ≡ run_index run }
{
    match run {
        Run::Binary => 0,
        Run::Str => 1,
        Run::Symbol => 2,
        Run::Dec128 => 3,
        Run::Uuid => 4,
    }
}

pub(crate) fn kind_index(kind: Kind) -> u8
    ensures { result ≡ kind_index kind }
{
    match kind {
        Kind::Null => 0,
        Kind::Bool => 1,
        Kind::Ubyte => 2,
        Kind::Ushort => 3,
        Kind::Uint => 4,
        Kind::Ulong => 5,
        Kind::Sbyte => 6,
        Kind::Short => 7,
        Kind::Int => 8,
        Kind::Long => 9,
        Kind::FloatBits => 10,
        Kind::DoubleBits => 11,
        Kind::Dec32 => 12,
        Kind::Dec64 => 13,
        Kind::Char => 14,
        Kind::Timestamp => 15,
    }
}
