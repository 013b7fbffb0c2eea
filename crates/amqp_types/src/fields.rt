//! Reads fields of one type in place, without allocation (part 1, 1.6).
//!
//! Each function returns the field at the start of the octets and the number of octets that encode it. It returns
//! `None` if and only if the octets do not begin with a field of that type. Every encoding of the type is accepted.
ghost use Rattle.std.specs.Prelude.{option_map, if◌then◌else◌};
ghost use Rattle.amqp_types.specs.Codes.{HasCodes};
ghost use Rattle.amqp_types.specs.Datum.{number, octets};
ghost use Rattle.amqp_types.specs.declared.class.Kind.{Kind};
ghost use Rattle.amqp_types.specs.declared.class.Run.{Run};
ghost use Rattle.amqp_types.specs.Grammar.{IsFront, IsCandidate};

use crate::class::{Run, Width};
use crate::leaves::{eight, four, is_ascii, one, split, two};

/// Returns the number of octets of the null at the start of `bytes`, or `None` if there is none (part 1, 1.6.1).
#[inline(always)]
pub fn read_null(bytes: &[u8]) -> Option<usize>
    ensures { IsFront (λ _. number Kind.Null 0) bytes.now (option_map (λ used. (used, used)) result) }
{
    let (code, _) = bytes.split_first()?;
    if *code == 0x40 { Some(1) } else { None }
}

/// Returns the boolean at the start of `bytes` and the number of its octets; `None` if there is none (part 1, 1.6.2).
#[inline(always)]
pub fn read_boolean(bytes: &[u8]) -> Option<(bool, usize)>
    ensures { IsFront (λ b. number Kind.Bool (if b then 1 else 0)) bytes.now result }
{
    let (code, _) = bytes.split_first()?;
    match *code {
        0x41 => Some((true, 1)),
        0x42 => Some((false, 1)),
        _ => read_any_boolean(bytes),
    }
}

/// Out of line, because peers rarely send a boolean under the two-octet code 56.
#[inline(never)]
fn read_any_boolean(bytes: &[u8]) -> Option<(bool, usize)>
    ensures { IsFront (λ b. number Kind.Bool (if b then 1 else 0)) bytes.now result }
{
    let (code, rest) = bytes.split_first()?;
    match *code {
        0x41 => Some((true, 1)),
        0x42 => Some((false, 1)),
        0x56 => {
            let (octet, _) = one(rest)?;
            match octet {
                0 => Some((false, 2)),
                1 => Some((true, 2)),
                _ => None,
            }
        }
        _ => None,
    }
}

/// Returns the ubyte at the start of `bytes` and the number of its octets, or `None` if there is none (part 1, 1.6.3).
#[inline]
pub fn read_ubyte(bytes: &[u8]) -> Option<(u8, usize)>
    ensures { IsFront (λ n. number Kind.Ubyte n) bytes.now result }
{
    let (code, rest) = bytes.split_first()?;
    match *code {
        0x50 => {
            let (n, _) = one(rest)?;
            Some((n, 2))
        }
        _ => None,
    }
}

/// Returns the ushort at the start of `bytes` and the number of its octets, or `None` if there is none (part 1, 1.6.4).
#[inline]
pub fn read_ushort(bytes: &[u8]) -> Option<(u16, usize)>
    ensures { IsFront (λ n. number Kind.Ushort n) bytes.now result }
{
    let (code, rest) = bytes.split_first()?;
    match *code {
        0x60 => {
            let (n, _) = two(rest)?;
            Some((n, 3))
        }
        _ => None,
    }
}

/// Returns the uint at the start of `bytes` and the number of its octets, or `None` if there is none (part 1, 1.6.5).
#[inline(always)]
pub fn read_uint(bytes: &[u8]) -> Option<(u32, usize)>
    ensures { IsFront (λ n. number Kind.Uint n) bytes.now result }
{
    let (code, rest) = bytes.split_first()?;
    match *code {
        0x43 => Some((0, 1)),
        0x52 => {
            let (n, _) = one(rest)?;
            Some((u32::from(n), 2))
        }
        0x70 => {
            let (n, _) = four(rest)?;
            Some((n, 5))
        }
        _ => None,
    }
}

/// Returns the ulong at the start of `bytes` and the number of its octets, or `None` if there is none (part 1, 1.6.6).
#[inline]
pub fn read_ulong(bytes: &[u8]) -> Option<(u64, usize)>
    ensures { IsFront (λ n. number Kind.Ulong n) bytes.now result }
{
    let (code, rest) = bytes.split_first()?;
    match *code {
        0x44 => Some((0, 1)),
        0x53 => {
            let (n, _) = one(rest)?;
            Some((u64::from(n), 2))
        }
        0x80 => {
            let (n, _) = eight(rest)?;
            Some((n, 9))
        }
        _ => None,
    }
}

/// Does not check that the octets are UTF-8 or ASCII: the callers do, because their result types differ.
#[inline(always)]
fn candidate(run: Run, small: u8, large: u8, bytes: &[u8]) -> Option<(&[u8], usize)>
    requires { HasCodes run small large }
    ensures { IsCandidate run bytes.now (option_map (λ x. (x.0.now, x.1)) result) }
{
    let (code, rest) = bytes.split_first()?;
    if *code == small {
        let (len, rest) = one(rest)?;
        let (octets, after) = split(rest, len as usize)?;
        Some((octets, bytes.len() - after.len()))
    } else if *code == large {
        let (len, rest) = four(rest)?;
        let (octets, after) = split(rest, len as usize)?;
        Some((octets, bytes.len() - after.len()))
    } else {
        None
    }
}

/// Returns the binary at the start of `bytes`, and the number of octets that encode it (part 1, 1.6.19).
///
/// Borrows the content from `bytes`. Returns `None` if `bytes` does not begin with a binary.
#[inline(always)]
pub fn read_binary(bytes: &[u8]) -> Option<(&[u8], usize)>
    ensures { IsFront (λ text. octets Run.Binary text.now) bytes.now result }
{
    candidate(Run::Binary, 0xa0, 0xb0, bytes)
}

/// Returns the string at the start of `bytes`, and the number of octets that encode it (part 1, 1.6.20).
///
/// Borrows the content from `bytes`. Returns `None` if `bytes` does not begin with a string. The cost is linear in the
/// length of the string, because its octets are checked to be UTF-8.
pub fn read_string(bytes: &[u8]) -> Option<(&str, usize)>
    ensures { IsFront (λ text. octets Run.Str text.now) bytes.now result }
{
    let (octets, used) = candidate(Run::Str, 0xa1, 0xb1, bytes)?;
    match str::from_utf8(octets) {
        Ok(text) => Some((text, used)),
        Err(_) => None,
    }
}

/// Returns the symbol at the start of `bytes`, and the number of octets that encode it (part 1, 1.6.21).
///
/// Borrows the content from `bytes`. Returns `None` if `bytes` does not begin with a symbol. The cost is linear in the
/// length of the symbol, because its octets are checked to be ASCII.
pub fn read_symbol(bytes: &[u8]) -> Option<(&str, usize)>
    ensures { IsFront (λ text. octets Run.Symbol text.now) bytes.now result }
{
    let (octets, used) = candidate(Run::Symbol, 0xa3, 0xb3, bytes)?;
    if !is_ascii(octets) {
        return None;
    }
    match str::from_utf8(octets) {
        Ok(text) => Some((text, used)),
        Err(_) => None,
    }
}
