//! Writes the canonical encoding of a value.
ghost use Rattle.std.specs.Prelude.{◌≡◌, ◌<◌, ◌≤◌, ◌++◌, ◌↔◌, ℕ, List, length, All, None, Some, Err, IsTrue, OnOk, OnErr};
ghost use Rattle.amqp_types.specs.Datum.{Datum, depth_of, greatest_depth_of};
ghost use Rattle.amqp_types.specs.Grammar.{Spells, BeginsWithValue};
ghost use Rattle.amqp_types.specs.Canon.{Writes, part_form, parts_form, canon, capped, AppendsCanon};
ghost use Rattle.amqp_types.specs.View.{view, views, views_of_pairs};
ghost use Rattle.amqp_types.specs.Shape.{datum_of};
ghost use Rattle.amqp_types.specs.Shortest.{HasNoEmptyNulls};

use crate::class::{Kind, Run};
use crate::fault::WriteFault;
use crate::forms::{Head, put_spelled_head, spelled_len};
use crate::value::{MAX_DEPTH, Value};

/// Groups the types of a value by how they are encoded.
enum Shape<'a> {
    Number(Kind, u64),
    Octets(Run, &'a [u8]),
    List(&'a [Value]),
    Map(&'a [(Value, Value)]),
    Array(u8, &'a [Value]),
    Described(&'a Value, &'a Value),
}

fn shape_of(value: &Value) -> Shape<'_>
    ensures { datum_of result ≡ view value.now }
{
    match value {
        Value::Null => Shape::Number(Kind::Null, 0),
        Value::Bool(b) => Shape::Number(Kind::Bool, if *b { 1 } else { 0 }),
        Value::Ubyte(n) => Shape::Number(Kind::Ubyte, u64::from(*n)),
        Value::Ushort(n) => Shape::Number(Kind::Ushort, u64::from(*n)),
        Value::Uint(n) => Shape::Number(Kind::Uint, u64::from(*n)),
        Value::Ulong(n) => Shape::Number(Kind::Ulong, *n),
        Value::Sbyte(z) => Shape::Number(Kind::Sbyte, u64::from(z.cast_unsigned())),
        Value::Short(z) => Shape::Number(Kind::Short, u64::from(z.cast_unsigned())),
        Value::Int(z) => Shape::Number(Kind::Int, u64::from(z.cast_unsigned())),
        Value::Long(z) => Shape::Number(Kind::Long, z.cast_unsigned()),
        Value::FloatBits(n) => Shape::Number(Kind::FloatBits, u64::from(*n)),
        Value::DoubleBits(n) => Shape::Number(Kind::DoubleBits, *n),
        Value::Dec32(n) => Shape::Number(Kind::Dec32, u64::from(*n)),
        Value::Dec64(n) => Shape::Number(Kind::Dec64, *n),
        Value::Dec128(octets) => Shape::Octets(Run::Dec128, octets),
        Value::Char(c) => Shape::Number(Kind::Char, u64::from(u32::from(*c))),
        Value::Timestamp(z) => Shape::Number(Kind::Timestamp, z.cast_unsigned()),
        Value::Uuid(octets) => Shape::Octets(Run::Uuid, octets),
        Value::Binary(octets) => Shape::Octets(Run::Binary, octets.as_slice()),
        Value::Str(text) => Shape::Octets(Run::Str, text.as_bytes()),
        Value::Symbol(text) => Shape::Octets(Run::Symbol, text.as_bytes()),
        Value::List(values) => Shape::List(values.as_slice()),
        Value::Map(pairs) => Shape::Map(pairs.as_slice()),
        Value::Array(code, values) => Shape::Array(*code, values.as_slice()),
        Value::Described(descriptor, value) => Shape::Described(descriptor.get(), value.get()),
    }
}

/// Returns the length in octets of the value, with its own format code, or without one if `how` is the code of the
/// array around it. The length is capped at `u64::MAX`.
#[cycle(measuring)]
pub(crate) fn part_len(value: &Value, how: Option<u8>) -> Option<u64>
    ensures { result ≡ capped (part_form how (view value.now)) }
{
    match shape_of(value) {
        Shape::Number(kind, n) => spelled_len(&Head::Number(kind, n), how, 0),
        Shape::Octets(run, octets) => {
            spelled_len(&Head::Octets(run, octets), how, octets.len() as u64)
        }
        Shape::List(values) => {
            let size = parts_len(values, None)?;
            spelled_len(&Head::List(values.len() as u64, size), how, size)
        }
        Shape::Map(pairs) => {
            let size = pairs_len(pairs)?;
            spelled_len(&Head::Map(2 * pairs.len() as u64, size), how, size)
        }
        Shape::Array(code, values) => {
            let size = parts_len(values, Some(code))?;
            spelled_len(&Head::Array(code, values.len() as u64, size), how, size)
        }
        Shape::Described(descriptor, value) => {
            let first = part_len(descriptor, None)?;
            let second = part_len(value, None)?;
            spelled_len(&Head::Described, how, first.saturating_add(second))
        }
    }
}

#[cycle(measuring)]
fn parts_len(values: &[Value], how: Option<u8>) -> Option<u64>
    ensures { result ≡ capped (parts_form (views values.now) how) }
{
    let mut size: u64 = 0;
    for value in values {
        let more = part_len(value, how)?;
        size = size.saturating_add(more);
    }
    Some(size)
}

#[cycle(measuring)]
pub(crate) fn pairs_len(pairs: &[(Value, Value)]) -> Option<u64>
    ensures { result ≡ capped (parts_form (views_of_pairs pairs.now) None) }
{
    let mut size: u64 = 0;
    for pair in pairs {
        let key = part_len(&pair.0, None)?;
        let value = part_len(&pair.1, None)?;
        size = size.saturating_add(key).saturating_add(value);
    }
    Some(size)
}

/// Appends the value to `out`, with its own format code, or without one if `how` is the code of the array around it.
///
/// On an error, `out` may hold a part of the value.
#[cycle(putting)]
pub(crate) fn put_part(value: &Value, how: Option<u8>, out: &mut Vec<u8>) -> Result<(), WriteFault>
    ensures { Writes (part_form how (view value.now)) result out.old.items out.new.items }
{
    match shape_of(value) {
        Shape::Number(kind, n) => put_spelled_head(&Head::Number(kind, n), how, out),
        Shape::Octets(run, octets) => {
            put_spelled_head(&Head::Octets(run, octets), how, out)?;
            out.extend_from_slice(octets)?;
            Ok(())
        }
        Shape::List(values) => {
            let size = parts_len(values, None).ok_or(WriteFault::NotWritable)?;
            put_spelled_head(&Head::List(values.len() as u64, size), how, out)?;
            put_parts(values, None, out)
        }
        Shape::Map(pairs) => {
            let size = pairs_len(pairs).ok_or(WriteFault::NotWritable)?;
            put_spelled_head(&Head::Map(2 * pairs.len() as u64, size), how, out)?;
            put_pairs(pairs, out)
        }
        Shape::Array(code, values) => {
            let size = parts_len(values, Some(code)).ok_or(WriteFault::NotWritable)?;
            put_spelled_head(&Head::Array(code, values.len() as u64, size), how, out)?;
            put_parts(values, Some(code), out)
        }
        Shape::Described(descriptor, value) => {
            put_spelled_head(&Head::Described, how, out)?;
            put_part(descriptor, None, out)?;
            put_part(value, None, out)
        }
    }
}

#[cycle(putting)]
fn put_parts(values: &[Value], how: Option<u8>, out: &mut Vec<u8>) -> Result<(), WriteFault>
    ensures { Writes (parts_form (views values.now) how) result out.old.items out.new.items }
{
    for value in values {
        put_part(value, how, out)?;
    }
    Ok(())
}

#[cycle(putting)]
pub(crate) fn put_pairs(pairs: &[(Value, Value)], out: &mut Vec<u8>) -> Result<(), WriteFault>
    ensures { Writes (parts_form (views_of_pairs pairs.now) None) result out.old.items out.new.items }
{
    for pair in pairs {
        put_part(&pair.0, None, out)?;
        put_part(&pair.1, None, out)?;
    }
    Ok(())
}

/// Returns whether the value is nested at most `depth` deep. A value without parts has depth 1.
#[cycle(depth)]
pub(crate) fn is_within(value: &Value, depth: u8) -> bool
    ensures { IsTrue result ↔ (depth_of (view value.now) ≤ depth) }
{
    if depth == 0 {
        return false;
    }
    match value {
        Value::List(values) => are_within(values.as_slice(), depth - 1),
        Value::Map(pairs) => pairs_are_within(pairs.as_slice(), depth - 1),
        Value::Array(_, values) => are_within(values.as_slice(), depth - 1),
        Value::Described(descriptor, value) => {
            is_within(descriptor.get(), depth - 1) && is_within(value.get(), depth - 1)
        }
        _ => true,
    }
}

#[cycle(depth)]
fn are_within(values: &[Value], depth: u8) -> bool
    ensures { IsTrue result ↔ (greatest_depth_of (views values.now) ≤ depth) }
{
    for value in values {
        if !is_within(value, depth) {
            return false;
        }
    }
    true
}

#[cycle(depth)]
pub(crate) fn pairs_are_within(pairs: &[(Value, Value)], depth: u8) -> bool
    ensures { IsTrue result ↔ (greatest_depth_of (views_of_pairs pairs.now) ≤ depth) }
{
    for pair in pairs {
        if !is_within(&pair.0, depth) {
            return false;
        }
        if !is_within(&pair.1, depth) {
            return false;
        }
    }
    true
}

/// Returns the length in octets of the canonical encoding of `value`, capped at `u64::MAX`.
///
/// Returns `None` if and only if the value has no canonical encoding (see [`WriteFault::NotWritable`]). Allocates
/// nothing. The cost is linear in the number of parts and in the octets of strings and symbols, which are checked.
pub fn value_size(value: &Value) -> Option<u64>
    ensures { result ≡ capped (canon (view value.now)) }
{
    if is_within(value, MAX_DEPTH) {
        part_len(value, None)
    } else {
        None
    }
}

/// Appends the canonical encoding of `value` to `out`, with each part under the shortest format code that fits.
///
/// The elements of an array have the code that the array holds. The value is first encoded into a buffer of its exact
/// size, so each octet is copied twice. A part is measured again for each list, map or array around it: at most 32
/// times in all, with a check of the octets of strings and symbols.
///
/// # Errors
///
/// [`WriteFault::NotWritable`] if and only if the value has no canonical encoding; [`WriteFault::NoMemory`] if memory
/// runs out. On an error, `out` is unchanged.
pub fn write_value(value: &Value, out: &mut Vec<u8>) -> Result<(), WriteFault>
    ensures ok { OnOk result (AppendsCanon (view value.now) out.old.items out.new.items) }
    ensures refused { (result ≡ Err WriteFault.NotWritable) ↔ (canon (view value.now) ≡ None) }
    ensures err { OnErr result (out.new.items ≡ out.old.items) }
{
    let Some(size) = value_size(value) else {
        return Err(WriteFault::NotWritable);
    };
    let mut octets = Vec::with_capacity(*out.allocator(), size as usize)?;
    match put_part(value, None, &mut octets) {
        Ok(()) => {
            out.extend_from_slice(&octets)?;
            Ok(())
        }
        Err(_) => Err(WriteFault::NoMemory),
    }
}

/// States that the canonical encoding of a value is an encoding of that value.
pub fn canon_spells()
    ensures { (v : Datum) (x : List ℕ) → canon v ≡ Some x → Spells v x }
{}

/// States that a written value is read back, whatever octets follow it.
///
/// The octets begin with a value; it is the written one, and its encoding is the written one.
pub fn read_back()
    ensures there { (v : Datum) (x rest : List ℕ) → canon v ≡ Some x → BeginsWithValue 32 (x ++ rest) }
    ensures alone { (v w : Datum) (x rest y after : List ℕ) → canon v ≡ Some x → Spells w y → x ++ rest ≡ y ++ after → (w ≡ v) × (y ≡ x) }
{}

/// States that the canonical encoding is the shortest, for each value that contains no empty array of nulls.
///
/// Such an array may be encoded without its constructor, which the canonical encoding has.
pub fn canon_is_shortest()
    ensures { (v : Datum) (x y : List ℕ) → HasNoEmptyNulls v → canon v ≡ Some x → Spells v y → All (λ o. o < 256) y → length x ≤ length y }
{}
