//! Reads values that have no parts: numbers and runs of octets.
ghost use Rattle.std.specs.Prelude.{◌≡◌, ◌≤◌, ◌<◌, ◌^◌, nat_lt, ℕ, List, length, Option, Some, None, option_map, if◌then◌else◌, IsTrue};
ghost use Rattle.std.specs.Str.{IsUtf8, is_utf8};
ghost use Rattle.amqp_types.specs.Datum.{Datum, number, octets};
ghost use Rattle.amqp_types.specs.Grammar.{number_of, read_number, fits, is_scalar, is_run, is_ascii, is_element};
ghost use Rattle.amqp_types.specs.Codes.{class_of};
ghost use Rattle.amqp_types.specs.Reading.{Gives, split, field_at, number_at, run_at, octets_at, compound_at, all_parts_at, list_at, map_at, array_content_at, array_at, described_at, body_by, part_at, body_at};
ghost use Rattle.amqp_types.specs.View.{view, views};

use crate::class::{Class, Conversion, Kind, Run, Width, class_of};
use crate::fault::ReadFault;
use crate::items::Items;
use crate::text::Text;
use crate::value::Value;
use bytes::Bytes;
use std::alloc::Global;

/// Splits off the first `count` octets, or returns `None` if there are fewer.
pub(crate) fn split(octets: &[u8], count: usize) -> Option<(&[u8], &[u8])>
    ensures { option_map (λ x. (x.0.now, x.1.now)) result ≡ split count octets.now }
{
    if octets.len() < count {
        return None;
    }
    Some(octets.split_at(count))
}

/// Returns the first octet as a number, and the rest.
#[inline]
#[tactic(auto, unfolding(crate::specs::Reading::field_at))]
pub(crate) fn one(octets: &[u8]) -> Option<(u8, &[u8])>
    ensures { option_map (λ x. (x.0, x.1.now)) result ≡ field_at Width.One octets.now }
{
    let (first, rest) = octets.split_first_chunk::<1>()?;
    Some((first[0], rest))
}

#[inline]
#[tactic(auto, unfolding(crate::specs::Reading::field_at))]
pub(crate) fn two(octets: &[u8]) -> Option<(u16, &[u8])>
    ensures { option_map (λ x. (x.0, x.1.now)) result ≡ field_at Width.Two octets.now }
{
    let (first, rest) = octets.split_first_chunk::<2>()?;
    Some((u16::from_be_bytes(*first), rest))
}

#[inline]
#[tactic(auto, unfolding(crate::specs::Reading::field_at))]
pub(crate) fn four(octets: &[u8]) -> Option<(u32, &[u8])>
    ensures { option_map (λ x. (x.0, x.1.now)) result ≡ field_at Width.Four octets.now }
{
    let (first, rest) = octets.split_first_chunk::<4>()?;
    Some((u32::from_be_bytes(*first), rest))
}

#[inline]
#[tactic(auto, unfolding(crate::specs::Reading::field_at))]
pub(crate) fn eight(octets: &[u8]) -> Option<(u64, &[u8])>
    ensures { option_map (λ x. (x.0, x.1.now)) result ≡ field_at Width.Eight octets.now }
{
    let (first, rest) = octets.split_first_chunk::<8>()?;
    Some((u64::from_be_bytes(*first), rest))
}

/// Returns the big-endian number in the first octets, as many as `width` has, and the rest.
pub(crate) fn field(octets: &[u8], width: Width) -> Option<(u64, &[u8])>
    ensures { option_map (λ x. (x.0, x.1.now)) result ≡ field_at width octets.now }
{
    match width {
        Width::Zero => Some((0, octets)),
        Width::One => one(octets).map(|(n, rest)| (u64::from(n), rest)),
        Width::Two => two(octets).map(|(n, rest)| (u64::from(n), rest)),
        Width::Four => four(octets).map(|(n, rest)| (u64::from(n), rest)),
        Width::Eight => eight(octets),
    }
}

/// Returns the number of a value whose body holds `n`, under the conversion `reading`.
///
/// Returns `None` if the number does not fit in 64 bits.
pub fn read_number(reading: Conversion, n: u64) -> Option<u64>
    ensures { result ≡ (if nat_lt (read_number reading n) (2 ^ 64) then Some (read_number reading n) else None) }
{
    match reading {
        Conversion::Plain => Some(n),
        Conversion::One => n.checked_add(1),
        Conversion::Widened32 => if n < 128 {
            Some(n)
        } else {
            n.checked_add(0xffff_ff00)
        },
        Conversion::Widened64 => if n < 128 {
            Some(n)
        } else {
            n.checked_add(0xffff_ffff_ffff_ff00)
        },
    }
}

fn made(kind: Kind, n: u64) -> Result<Value, ReadFault>
    ensures { Gives view result (if fits kind n then Some (number kind n) else None) }
{
    match kind {
        Kind::Null => if n == 0 {
            Ok(Value::Null)
        } else {
            Err(ReadFault::NoValue)
        },
        Kind::Bool => if n < 2 {
            Ok(Value::Bool(n == 1))
        } else {
            Err(ReadFault::NoValue)
        },
        Kind::Ubyte => if n < 0x100 {
            Ok(Value::Ubyte(n as u8))
        } else {
            Err(ReadFault::NoValue)
        },
        Kind::Ushort => if n < 0x1_0000 {
            Ok(Value::Ushort(n as u16))
        } else {
            Err(ReadFault::NoValue)
        },
        Kind::Uint => if n < 0x1_0000_0000 {
            Ok(Value::Uint(n as u32))
        } else {
            Err(ReadFault::NoValue)
        },
        Kind::Ulong => Ok(Value::Ulong(n)),
        Kind::Sbyte => if n < 0x100 {
            Ok(Value::Sbyte((n as u8).cast_signed()))
        } else {
            Err(ReadFault::NoValue)
        },
        Kind::Short => if n < 0x1_0000 {
            Ok(Value::Short((n as u16).cast_signed()))
        } else {
            Err(ReadFault::NoValue)
        },
        Kind::Int => if n < 0x1_0000_0000 {
            Ok(Value::Int((n as u32).cast_signed()))
        } else {
            Err(ReadFault::NoValue)
        },
        Kind::Long => Ok(Value::Long(n.cast_signed())),
        Kind::FloatBits => if n < 0x1_0000_0000 {
            Ok(Value::FloatBits(n as u32))
        } else {
            Err(ReadFault::NoValue)
        },
        Kind::DoubleBits => Ok(Value::DoubleBits(n)),
        Kind::Dec32 => if n < 0x1_0000_0000 {
            Ok(Value::Dec32(n as u32))
        } else {
            Err(ReadFault::NoValue)
        },
        Kind::Dec64 => Ok(Value::Dec64(n)),
        Kind::Char => if n < 0x1_0000_0000 {
            char_of(n as u32)
        } else {
            Err(ReadFault::NoValue)
        },
        Kind::Timestamp => Ok(Value::Timestamp(n.cast_signed())),
    }
}

fn char_of(n: u32) -> Result<Value, ReadFault>
    ensures { Gives view result (if fits Kind.Char n then Some (number Kind.Char n) else None) }
{
    match char::from_u32(n) {
        Some(c) => Ok(Value::Char(c)),
        None => Err(ReadFault::NoValue),
    }
}

#[tactic(auto, unfolding(crate::specs::Reading::number_at))]
pub(crate) fn number(
    kind: Kind,
    width: Width,
    reading: Conversion,
    bytes: &[u8],
) -> Result<(Value, &[u8]), ReadFault>
    ensures { Gives (λ x. (view x.0, x.1.now)) result (number_at kind width reading bytes.now) }
{
    let (n, rest) = field(bytes, width).ok_or(ReadFault::NoValue)?;
    match read_number(reading, n) {
        Some(n) => {
            let value = made(kind, n)?;
            Ok((value, rest))
        }
        None => Err(ReadFault::NoValue),
    }
}

/// Returns whether a value of type `run` can have these octets. Linear in their number for strings and symbols.
pub(crate) fn is_run(run: Run, bytes: &[u8]) -> bool
    ensures { result ≡ is_run run bytes.now }
{
    match run {
        Run::Binary => true,
        Run::Str => is_utf8(bytes),
        Run::Symbol => is_ascii(bytes),
        Run::Dec128 => bytes.len() == 16,
        Run::Uuid => bytes.len() == 16,
    }
}

#[tactic(auto, unfolding(crate::specs::Reading::run_at))]
pub(crate) fn run(
    alloc: Global,
    run: Run,
    count: usize,
    bytes: &[u8],
) -> Result<(Value, &[u8]), ReadFault>
    ensures { Gives (λ x. (view x.0, x.1.now)) result (run_at run count bytes.now) }
{
    let (front, rest) = split(bytes, count).ok_or(ReadFault::NoValue)?;
    if !is_run(run, front) {
        return Err(ReadFault::NoValue);
    }
    let value = made_run(alloc, run, front)?;
    Ok((value, rest))
}

fn made_run(alloc: Global, run: Run, bytes: &[u8]) -> Result<Value, ReadFault>
    requires { IsTrue (is_run run bytes.now) }
    ensures { Gives view result (Some (octets run bytes.now)) }
{
    match run {
        Run::Binary => {
            let copy = Bytes::copy_from_slice(alloc, bytes)?;
            Ok(Value::Binary(copy))
        }
        Run::Str => {
            let text = text_of(alloc, bytes)?;
            Ok(Value::Str(text))
        }
        Run::Symbol => {
            let text = text_of(alloc, bytes)?;
            Ok(Value::Symbol(text))
        }
        Run::Dec128 => {
            let all = sixteen(bytes);
            Ok(Value::Dec128(all))
        }
        Run::Uuid => {
            let all = sixteen(bytes);
            Ok(Value::Uuid(all))
        }
    }
}

fn is_utf8(bytes: &[u8]) -> bool
    ensures { result ≡ is_utf8 bytes.now }
{
    match str::from_utf8(bytes) {
        Ok(_) => true,
        Err(_) => false,
    }
}

fn text_of(alloc: Global, bytes: &[u8]) -> Result<Text, ReadFault>
    requires { IsUtf8 bytes.now }
    ensures { Gives (λ x. x) result (Some bytes.now) }
{
    let copy = Vec::from_slice(alloc, bytes)?;
    match String::from_utf8(copy) {
        Ok(text) => Ok(Text { text }),
        Err(_) => unreachable!(),
    }
}

fn sixteen(bytes: &[u8]) -> [u8; 16]
    requires { length bytes.now ≡ 16 }
    ensures { result ≡ bytes.now }
{
    let mut all = [0u8; 16];
    all.copy_from_slice(bytes);
    all
}

pub(crate) fn is_ascii(bytes: &[u8]) -> bool
    ensures { result ≡ is_ascii bytes.now }
{
    for byte in bytes {
        if *byte >= 128 {
            return false;
        }
    }
    true
}

#[tactic(auto, unfolding(crate::specs::Reading::octets_at))]
pub(crate) fn sized_run(
    alloc: Global,
    kind: Run,
    width: Width,
    bytes: &[u8],
) -> Result<(Value, &[u8]), ReadFault>
    ensures { Gives (λ x. (view x.0, x.1.now)) result (octets_at kind width bytes.now) }
{
    let (count, rest) = field(bytes, width).ok_or(ReadFault::NoValue)?;
    run(alloc, kind, count as usize, rest)
}

/// Returns whether `n` represents a value of type `kind`.
///
/// Signed types are in two's complement, floating-point and decimal types are bits, a char is a Unicode scalar value.
pub fn fits(kind: Kind, n: u64) -> bool
    ensures { result ≡ fits kind n }
{
    match kind {
        Kind::Null => n == 0,
        Kind::Bool => n < 2,
        Kind::Ubyte | Kind::Sbyte => n < 0x100,
        Kind::Ushort | Kind::Short => n < 0x1_0000,
        Kind::Uint | Kind::Int | Kind::FloatBits | Kind::Dec32 => n < 0x1_0000_0000,
        Kind::Ulong | Kind::Long | Kind::DoubleBits | Kind::Dec64 | Kind::Timestamp => true,
        Kind::Char => n < 0x1_0000_0000 && is_scalar(n as u32),
    }
}

fn is_scalar(n: u32) -> bool
    ensures { result ≡ is_scalar n }
{
    match char::from_u32(n) {
        Some(_) => true,
        None => false,
    }
}
