//! Reads values that have parts: lists, maps, arrays and described values.
ghost use Rattle.std.specs.Prelude.{◌≡◌, ◌≤◌, ◌<◌, ◌+◌, ◌*◌, ◌++◌, [], ◌∷◌, IsTrue, Some, None, IfOk, IfErr, is_ok, if◌then◌else◌, option_map, max, vec_len, vec_capacity};
ghost use Rattle.amqp_types.specs.Codes.{class_of};
ghost use Rattle.amqp_types.specs.Datum.{array, map};
ghost use Rattle.amqp_types.specs.Grammar.{is_element, is_even};
ghost use Rattle.amqp_types.specs.Reading.{Gives, octets_at, compound_at, all_parts_at, list_at, map_at, array_content_at, array_at, described_at, part_at, body_at};
ghost use Rattle.amqp_types.specs.View.{view, views, views_of_pairs};

use crate::boxed::Boxed;
use crate::class::{Class, Width, class_of};
use crate::fault::ReadFault;
use crate::items::Items;
use crate::leaves::{field, number, run, sized_run, split};
use crate::value::Value;
use std::alloc::{AllocFailed, Global};

/// Returns the count and the content of a list, map or array, and the octets after it.
#[tactic(auto, unfolding(crate::specs::Reading::compound_at))]
pub(crate) fn compound(bytes: &[u8], width: Width) -> Option<(u64, &[u8], &[u8])>
    ensures { option_map (λ x. ((x.0, x.1.now), x.2.now)) result ≡ compound_at width bytes.now }
{
    let (size, rest) = field(bytes, width)?;
    let (inside, after) = split(rest, size as usize)?;
    let (count, content) = field(inside, width)?;
    Some((count, content, after))
}

/// Returns whether an array can have `count` elements under a format code of this class (part 1, 1.6.24).
///
/// This crate allows at most 255 elements without a body, so that a few octets cannot claim many values. It allows no
/// described values as elements, and no elements under an unknown code.
pub fn is_element(class: Class, count: u64) -> bool
    ensures { result ≡ is_element class count }
{
    match class {
        Class::Unknown | Class::Described => false,
        Class::EmptyList | Class::Number(_, Width::Zero, _) => count <= 255,
        _ => true,
    }
}

/// Returns whether `n` is even, as the number of keys and values of a map must be (part 1, 1.6.23).
#[tactic(auto, using(crate::proofs::Even::even_is))]
pub fn is_even(n: u64) -> bool
    ensures { result ≡ is_even n }
{
    n % 2 == 0
}

/// Reads the value at the start of `bytes`, nested at most `depth` deep, and returns it with the octets after it.
///
/// If `how` is a code, the value is an element of an array under that code and has none of its own.
///
/// # Errors
///
/// [`ReadFault::NoValue`] if there is no such value; [`ReadFault::NoMemory`] if memory runs out.
#[cycle(reading)]
pub fn part(
    alloc: Global,
    depth: u8,
    how: Option<u8>,
    bytes: &[u8],
) -> Result<(Value, &[u8]), ReadFault>
    ensures { Gives (λ x. (view x.0, x.1.now)) result (part_at depth how bytes.now) }
{
    match how {
        Some(code) => body(alloc, depth, code, bytes),
        None => match bytes.split_first() {
            None => Err(ReadFault::NoValue),
            Some((code, rest)) => body(alloc, depth, *code, rest),
        },
    }
}

/// Reserves room by what was read (four values, or twice as many as there are), never by the count in the octets:
/// otherwise a peer could make it allocate with a large count.
fn add<T>(values: &mut Vec<T>, value: T) -> Result<(), AllocFailed<T>>
    requires { vec_capacity values.old ≤ max 4 (2 * vec_len values.old) }
    ensures items { values.new.items ≡ (if is_ok result then values.old.items ++ value ∷ [] else values.old.items) }
    ensures value_returned { IfErr result (λ e. e.value ≡ value) }
    ensures room { vec_capacity values.new ≤ max 4 (2 * vec_len values.new) }
{
    let count = values.len();
    if count == values.capacity() {
        let room = count.saturating_mul(2).max(4);
        let Ok(()) = values.reserve_exact(room.saturating_sub(count)) else {
            return Err(AllocFailed { value });
        };
    }
    values.push_reserved(value);
    Ok(())
}

#[cycle(reading)]
fn parts(
    alloc: Global,
    depth: u8,
    how: Option<u8>,
    count: u64,
    bytes: &[u8],
) -> Result<Vec<Value>, ReadFault>
    ensures value { Gives (λ v. views v.items) result (all_parts_at (part_at depth how) count bytes.now) }
    ensures room { IfOk result (λ v. vec_capacity v ≤ max 4 (2 * vec_len v)) }
{
    let mut values = Vec::new(alloc);
    let mut rest = bytes;
    for _ in 0..count {
        let (value, after) = part(alloc, depth, how, rest)?;
        add(&mut values, value)?;
        rest = after;
    }
    if rest.is_empty() {
        Ok(values)
    } else {
        Err(ReadFault::NoValue)
    }
}

#[cycle(reading)]
#[tactic(auto, unfolding(crate::specs::Reading::list_at))]
fn list(alloc: Global, depth: u8, width: Width, bytes: &[u8]) -> Result<(Value, &[u8]), ReadFault>
    ensures { Gives (λ x. (view x.0, x.1.now)) result (list_at (part_at depth) width bytes.now) }
{
    let (count, content, rest) = compound(bytes, width).ok_or(ReadFault::NoValue)?;
    let items = parts(alloc, depth, None, count, content)?;
    Ok((Value::List(Items { items }), rest))
}

#[cycle(reading)]
fn pairs(
    alloc: Global,
    depth: u8,
    count: u64,
    bytes: &[u8],
) -> Result<Vec<(Value, Value)>, ReadFault>
    requires { IsTrue (is_even count) }
    ensures value { Gives (λ v. views_of_pairs v.items) result (all_parts_at (part_at depth None) count bytes.now) }
    ensures room { IfOk result (λ v. vec_capacity v ≤ max 4 (2 * vec_len v)) }
{
    let mut values = Vec::new(alloc);
    let mut rest = bytes;
    for _ in 0..count / 2 {
        let (key, after) = part(alloc, depth, None, rest)?;
        let (value, after) = part(alloc, depth, None, after)?;
        add(&mut values, (key, value))?;
        rest = after;
    }
    if rest.is_empty() {
        Ok(values)
    } else {
        Err(ReadFault::NoValue)
    }
}

#[cycle(reading)]
#[tactic(auto, unfolding(crate::specs::Reading::map_at))]
fn map(alloc: Global, depth: u8, width: Width, bytes: &[u8]) -> Result<(Value, &[u8]), ReadFault>
    ensures { Gives (λ x. (view x.0, x.1.now)) result (map_at (part_at depth) width bytes.now) }
{
    let (count, content, rest) = compound(bytes, width).ok_or(ReadFault::NoValue)?;
    if !is_even(count) {
        return Err(ReadFault::NoValue);
    }
    let items = pairs(alloc, depth, count, content)?;
    Ok((Value::Map(Items { items }), rest))
}

#[cycle(reading)]
#[tactic(auto, unfolding(crate::specs::Reading::array_content_at))]
fn array_content(alloc: Global, depth: u8, count: u64, content: &[u8]) -> Result<Value, ReadFault>
    ensures { Gives view result (array_content_at (part_at depth) count content.now) }
{
    match content.split_first() {
        None => {
            if count == 0 {
                Ok(Value::Array(
                    0x40,
                    Items {
                        items: Vec::new(alloc),
                    },
                ))
            } else {
                Err(ReadFault::NoValue)
            }
        }
        Some((code, bodies)) => {
            let code = *code;
            if !is_element(class_of(code), count) {
                return Err(ReadFault::NoValue);
            }
            let items = parts(alloc, depth, Some(code), count, bodies)?;
            Ok(Value::Array(code, Items { items }))
        }
    }
}

#[cycle(reading)]
#[tactic(auto, unfolding(crate::specs::Reading::array_at))]
fn array(alloc: Global, depth: u8, width: Width, bytes: &[u8]) -> Result<(Value, &[u8]), ReadFault>
    ensures { Gives (λ x. (view x.0, x.1.now)) result (array_at (part_at depth) width bytes.now) }
{
    let (count, content, rest) = compound(bytes, width).ok_or(ReadFault::NoValue)?;
    let value = array_content(alloc, depth, count, content)?;
    Ok((value, rest))
}

#[cycle(reading)]
#[tactic(auto, unfolding(crate::specs::Reading::described_at))]
fn described(alloc: Global, depth: u8, bytes: &[u8]) -> Result<(Value, &[u8]), ReadFault>
    ensures { Gives (λ x. (view x.0, x.1.now)) result (described_at (part_at depth) bytes.now) }
{
    let (descriptor, rest) = part(alloc, depth, None, bytes)?;
    let (value, rest) = part(alloc, depth, None, rest)?;
    let descriptor = Boxed::new(alloc, descriptor)?;
    let value = Boxed::new(alloc, value)?;
    Ok((Value::Described(descriptor, value), rest))
}

#[cycle(reading)]
fn body(alloc: Global, depth: u8, code: u8, bytes: &[u8]) -> Result<(Value, &[u8]), ReadFault>
    ensures { Gives (λ x. (view x.0, x.1.now)) result (body_at depth code bytes.now) }
{
    if depth == 0 {
        return Err(ReadFault::NoValue);
    }
    let inner = depth - 1;
    match class_of(code) {
        Class::Number(kind, width, reading) => number(kind, width, reading, bytes),
        Class::Octets(kind, width) => sized_run(alloc, kind, width, bytes),
        Class::Sixteen(kind) => run(alloc, kind, 16, bytes),
        Class::EmptyList => Ok((
            Value::List(Items {
                items: Vec::new(alloc),
            }),
            bytes,
        )),
        Class::List(width) => list(alloc, inner, width, bytes),
        Class::Map(width) => map(alloc, inner, width, bytes),
        Class::Array(width) => array(alloc, inner, width, bytes),
        Class::Described => described(alloc, inner, bytes),
        Class::Unknown => Err(ReadFault::NoValue),
    }
}
