//! Appends fields of one type to a buffer, in the canonical encoding (part 1, 1.6).
//!
//! If memory runs out, the buffer is left unchanged. Each `_size` function returns the length of an encoding in octets.
ghost use Rattle.std.specs.Prelude.{◌≡◌, length, Some, OnOk, OnErr, option_map, if◌then◌else◌};
ghost use Rattle.amqp_types.specs.declared.class.Kind.{Kind};
ghost use Rattle.amqp_types.specs.Datum.{number};
ghost use Rattle.amqp_types.specs.Canon.{canon, AppendsCanon};

use std::alloc::AllocError;

/// Appends null to `out` (part 1, 1.6.1).
///
/// # Errors
///
/// [`AllocError`] if memory runs out; `out` is then unchanged.
#[inline]
pub fn write_null(out: &mut Vec<u8>) -> Result<(), AllocError>
    ensures ok { OnOk result (AppendsCanon (number Kind.Null 0) out.old.items out.new.items) }
    ensures err { OnErr result (out.new.items ≡ out.old.items) }
{
    out.extend_from_slice(&[0x40])
}

/// Appends a boolean to `out`, under its shortest format code (part 1, 1.6.2).
///
/// # Errors
///
/// [`AllocError`] if memory runs out; `out` is then unchanged.
#[inline]
pub fn write_boolean(out: &mut Vec<u8>, b: bool) -> Result<(), AllocError>
    ensures ok { OnOk result (AppendsCanon (number Kind.Bool (if b then 1 else 0)) out.old.items out.new.items) }
    ensures err { OnErr result (out.new.items ≡ out.old.items) }
{
    if b {
        out.extend_from_slice(&[0x41])
    } else {
        out.extend_from_slice(&[0x42])
    }
}

/// Appends a ubyte to `out` (part 1, 1.6.3).
///
/// # Errors
///
/// [`AllocError`] if memory runs out; `out` is then unchanged.
#[inline]
pub fn write_ubyte(out: &mut Vec<u8>, n: u8) -> Result<(), AllocError>
    ensures ok { OnOk result (AppendsCanon (number Kind.Ubyte n) out.old.items out.new.items) }
    ensures err { OnErr result (out.new.items ≡ out.old.items) }
{
    out.extend_from_slice(&[0x50, n])
}

/// Appends a ushort to `out`, big endian (part 1, 1.6.4).
///
/// # Errors
///
/// [`AllocError`] if memory runs out; `out` is then unchanged.
#[inline]
pub fn write_ushort(out: &mut Vec<u8>, n: u16) -> Result<(), AllocError>
    ensures ok { OnOk result (AppendsCanon (number Kind.Ushort n) out.old.items out.new.items) }
    ensures err { OnErr result (out.new.items ≡ out.old.items) }
{
    let [a, b] = n.to_be_bytes();
    out.extend_from_slice(&[0x60, a, b])
}

/// Appends a uint to `out`, under its shortest format code (part 1, 1.6.5).
///
/// # Errors
///
/// [`AllocError`] if memory runs out; `out` is then unchanged.
#[inline]
pub fn write_uint(out: &mut Vec<u8>, n: u32) -> Result<(), AllocError>
    ensures ok { OnOk result (AppendsCanon (number Kind.Uint n) out.old.items out.new.items) }
    ensures err { OnErr result (out.new.items ≡ out.old.items) }
{
    if n == 0 {
        out.extend_from_slice(&[0x43])
    } else if n < 0x100 {
        out.extend_from_slice(&[0x52, n as u8])
    } else {
        let [a, b, c, d] = n.to_be_bytes();
        out.extend_from_slice(&[0x70, a, b, c, d])
    }
}

/// Appends a ulong to `out`, under its shortest format code (part 1, 1.6.6).
///
/// # Errors
///
/// [`AllocError`] if memory runs out; `out` is then unchanged.
#[inline]
pub fn write_ulong(out: &mut Vec<u8>, n: u64) -> Result<(), AllocError>
    ensures ok { OnOk result (AppendsCanon (number Kind.Ulong n) out.old.items out.new.items) }
    ensures err { OnErr result (out.new.items ≡ out.old.items) }
{
    if n == 0 {
        out.extend_from_slice(&[0x44])
    } else if n < 0x100 {
        out.extend_from_slice(&[0x53, n as u8])
    } else {
        let [a, b, c, d, e, f, g, h] = n.to_be_bytes();
        out.extend_from_slice(&[0x80, a, b, c, d, e, f, g, h])
    }
}

/// Returns the length in octets of the canonical encoding of a uint: 1, 2 or 5.
#[inline]
pub fn uint_size(n: u32) -> usize
    ensures { Some result ≡ option_map (λ x. length x) (canon (number Kind.Uint n)) }
{
    if n == 0 {
        1
    } else if n < 0x100 {
        2
    } else {
        5
    }
}

/// Returns the length in octets of the canonical encoding of a ulong: 1, 2 or 9.
#[inline]
pub fn ulong_size(n: u64) -> usize
    ensures { Some result ≡ option_map (λ x. length x) (canon (number Kind.Ulong n)) }
{
    if n == 0 {
        1
    } else if n < 0x100 {
        2
    } else {
        9
    }
}
