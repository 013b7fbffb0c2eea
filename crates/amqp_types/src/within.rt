//! Measures and writes values that lie inside others.
ghost use Rattle.std.specs.Prelude.{◌≡◌, None, nat_le, if◌then◌else◌};
ghost use Rattle.amqp_types.specs.Datum.{map, depth_of};
ghost use Rattle.amqp_types.specs.Canon.{Writes, part_form, capped};
ghost use Rattle.amqp_types.specs.Grammar.{is_ascii};
ghost use Rattle.amqp_types.specs.View.{view, views_of_pairs};

use crate::fault::WriteFault;
use crate::forms::{Head, put_spelled_head, spelled_len};
use crate::leaves::is_ascii;
use crate::value::Value;
use crate::write::{is_within, pairs_are_within, pairs_len, part_len, put_pairs, put_part};

/// Returns the number of octets in the canonical encoding of `value`.
///
/// Returns `None` if the value has no canonical encoding or is nested more than `depth` deep, and `u64::MAX` if the
/// number is that or more. Allocates nothing. The cost grows with the number of parts and the length of strings and symbols.
pub fn size_within(depth: u8, value: &Value) -> Option<u64>
    ensures { result ≡ capped (if nat_le (depth_of (view value.now)) depth then part_form None (view value.now) else None) }
{
    if is_within(value, depth) {
        part_len(value, None)
    } else {
        None
    }
}

/// Returns the number of octets in the canonical encoding of a map of `pairs`.
///
/// Returns `None` if the map has no canonical encoding or is nested more than `depth` deep, and `u64::MAX` if the
/// number is that or more. Allocates nothing. The cost is that of [`size_within`].
pub fn map_size_within(depth: u8, pairs: &[(Value, Value)]) -> Option<u64>
    ensures { result ≡ capped (if nat_le (depth_of (map (views_of_pairs pairs.now))) depth then part_form None (map (views_of_pairs pairs.now)) else None) }
{
    if depth == 0 || !pairs_are_within(pairs, depth - 1) {
        return None;
    }
    let size = pairs_len(pairs)?;
    spelled_len(&Head::Map(2 * pairs.len() as u64, size), None, size)
}

/// Appends the canonical encoding of `value` to `out`, without a check of its depth and without another buffer.
///
/// # Errors
///
/// [`WriteFault::NotWritable`] if the value has no canonical encoding at any depth; [`WriteFault::NoMemory`] if memory
/// runs out, even if a later part has no encoding. After an error, `out` may end with a part of the encoding.
pub fn append_value(value: &Value, out: &mut Vec<u8>) -> Result<(), WriteFault>
    ensures { Writes (part_form None (view value.now)) result out.old.items out.new.items }
{
    put_part(value, None, out)
}

/// Appends the canonical encoding of a map of `pairs` to `out`, without a check of depth and without another buffer.
///
/// # Errors
///
/// [`WriteFault::NotWritable`] if the map has no canonical encoding at any depth; [`WriteFault::NoMemory`] if memory
/// runs out. After an error, `out` may end with a part of the encoding.
pub fn append_map(pairs: &[(Value, Value)], out: &mut Vec<u8>) -> Result<(), WriteFault>
    ensures { Writes (part_form None (map (views_of_pairs pairs.now))) result out.old.items out.new.items }
{
    let size = pairs_len(pairs).ok_or(WriteFault::NotWritable)?;
    put_spelled_head(&Head::Map(2 * pairs.len() as u64, size), None, out)?;
    put_pairs(pairs, out)
}

/// Returns `true` if `text` can be a symbol, that is, if each octet is below 128 (part 1, 1.6.21).
pub fn is_symbol(text: &str) -> bool
    ensures { result ≡ is_ascii text.now }
{
    is_ascii(text.as_bytes())
}
