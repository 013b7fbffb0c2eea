//! Borrowed fields of a composite type and the list of values that they are written as (part 1, 1.4).
ghost use Rattle.std.specs.Prelude.{◌≡◌, ◌↔◌, [], IsTrue, IfOk, OnOk, reverse};
ghost use Rattle.amqp_types.specs.View.{view, views};
ghost use Rattle.amqp_performatives.specs.Part.{Fields, FitInOrder, absent, shown, canonical, canonical_fields};
ghost use Rattle.amqp_performatives.specs.Bodies.{optional, boolean, ubyte, uint};
ghost use Rattle.amqp_messages.specs.Fields.{timestamp, lent_string, lent_symbol, lent_binary, lent_mapping, lent_any};
ghost use Rattle.amqp_messages.specs.Lending.{part_of, fields_at};

use amqp_types::{Items, Text, Value};
use bytes::Bytes;
use std::alloc::{AllocError, Global};

/// A field to be written, which borrows its content.
#[derive(Clone, Copy)]
pub(crate) enum Lent<'a> {
    Absent,
    Boolean(bool),
    Ubyte(u8),
    Uint(u32),
    Timestamp(i64),
    Str(&'a str),
    Symbol(&'a str),
    Binary(&'a [u8]),
    Mapping(&'a [(Value, Value)]),
    Any(&'a Value),
}

pub(crate) fn boolean(b: Option<bool>) -> Lent<'static>
    ensures { part_of result ≡ optional boolean b }
{
    match b {
        Some(b) => Lent::Boolean(b),
        None => Lent::Absent,
    }
}

pub(crate) fn ubyte(n: Option<u8>) -> Lent<'static>
    ensures { part_of result ≡ optional ubyte n }
{
    match n {
        Some(n) => Lent::Ubyte(n),
        None => Lent::Absent,
    }
}

pub(crate) fn uint(n: Option<u32>) -> Lent<'static>
    ensures { part_of result ≡ optional uint n }
{
    match n {
        Some(n) => Lent::Uint(n),
        None => Lent::Absent,
    }
}

pub(crate) fn timestamp(n: Option<i64>) -> Lent<'static>
    ensures { part_of result ≡ optional timestamp n }
{
    match n {
        Some(n) => Lent::Timestamp(n),
        None => Lent::Absent,
    }
}

pub(crate) fn string(text: Option<&str>) -> Lent<'_>
    ensures { part_of result ≡ lent_string text.entry }
{
    match text {
        Some(text) => Lent::Str(text),
        None => Lent::Absent,
    }
}

pub(crate) fn symbol(text: Option<&str>) -> Lent<'_>
    ensures { part_of result ≡ lent_symbol text.entry }
{
    match text {
        Some(text) => Lent::Symbol(text),
        None => Lent::Absent,
    }
}

pub(crate) fn binary(octets: Option<&[u8]>) -> Lent<'_>
    ensures { part_of result ≡ lent_binary octets.entry }
{
    match octets {
        Some(octets) => Lent::Binary(octets),
        None => Lent::Absent,
    }
}

pub(crate) fn mapping(pairs: Option<&[(Value, Value)]>) -> Lent<'_>
    ensures { part_of result ≡ lent_mapping pairs.entry }
{
    match pairs {
        Some(pairs) => Lent::Mapping(pairs),
        None => Lent::Absent,
    }
}

pub(crate) fn any(value: Option<&Value>) -> Lent<'_>
    ensures { part_of result ≡ lent_any value.entry }
{
    match value {
        Some(value) => Lent::Any(value),
        None => Lent::Absent,
    }
}

fn pairs_of(alloc: Global, pairs: &[(Value, Value)]) -> Result<Items<(Value, Value)>, AllocError>
    ensures { IfOk result (λ copies. copies ≡ pairs.now) }
{
    let mut copies = Vec::new(alloc);
    for pair in pairs {
        let key = pair.0.clone()?;
        let value = pair.1.clone()?;
        copies.push((key, value))?;
    }
    Ok(Items { items: copies })
}

fn value_of(alloc: Global, field: &Lent<'_>) -> Result<Value, AllocError>
    ensures { IfOk result (λ value. view value ≡ canonical (part_of field.now)) }
{
    match field {
        Lent::Absent => Ok(Value::Null),
        Lent::Boolean(b) => Ok(Value::Bool(*b)),
        Lent::Ubyte(n) => Ok(Value::Ubyte(*n)),
        Lent::Uint(n) => Ok(Value::Uint(*n)),
        Lent::Timestamp(n) => Ok(Value::Timestamp(*n)),
        Lent::Str(text) => Ok(Value::Str(Text::new(alloc, text)?)),
        Lent::Symbol(text) => Ok(Value::Symbol(Text::new(alloc, text)?)),
        Lent::Binary(octets) => Ok(Value::Binary(Bytes::copy_from_slice(alloc, octets)?)),
        Lent::Mapping(pairs) => Ok(Value::Map(pairs_of(alloc, pairs)?)),
        Lent::Any(value) => (**value).clone(),
    }
}

fn is_absent(field: &Lent<'_>) -> bool
    ensures { IsTrue result ↔ (part_of field.now ≡ absent) }
{
    match field {
        Lent::Absent => true,
        _ => false,
    }
}

// A null at the end of a list may be left off, and the canonical encoding leaves it off.
fn is_left_off(field: &Lent<'_>, behind: &[Value]) -> bool
    ensures { IsTrue result ↔ ((behind.now ≡ []) × (part_of field.now ≡ absent)) }
{
    behind.is_empty() && is_absent(field)
}

// Fields are put from last to first, because an absent field is left off only if no field after it is written.
fn put_field(alloc: Global, field: &Lent<'_>, values: &mut Vec<Value>) -> Result<(), AllocError>
    ensures { OnOk result (views (reverse values.new.items) ≡ shown (part_of field.now) (canonical (part_of field.now)) (views (reverse values.old.items))) }
{
    if is_left_off(field, values.as_slice()) {
        return Ok(());
    }
    let value = value_of(alloc, field)?;
    values.push(value)?;
    Ok(())
}

/// Returns the list of the fields' values, copied. An absent field is null, or left off at the end.
pub(crate) fn list_of(alloc: Global, fields: &[Lent<'_>]) -> Result<Items<Value>, AllocError>
    ensures { IfOk result (λ items. views items ≡ canonical_fields (fields_at fields.now)) }
{
    let mut values = Vec::new(alloc);
    for i in (0..fields.len()).rev() {
        put_field(alloc, &fields[i], &mut values)?;
    }
    values.reverse();
    Ok(Items { items: values })
}

/// States that the values built from fields (`to_section`, `to_value`) fit these fields.
///
/// `read` returns `None` only if no fields fit the values, so it accepts values that were built. This is a law for
/// proofs: a call does nothing.
pub fn built_fields_fit()
    ensures { (fs : Fields) → FitInOrder fs (canonical_fields fs) }
{}
