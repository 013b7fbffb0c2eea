//! The fields of a composite type, as the writer goes over them.
ghost use Rattle.std.specs.Prelude.{◌≡◌};
ghost use Rattle.amqp_performatives.specs.Part.{absent};
ghost use Rattle.amqp_performatives.specs.Bodies.{boolean, ubyte, ushort, uint, ulong, binary, string, symbol, mapping, any, role, error, state, optional};
ghost use Rattle.amqp_performatives.specs.Listed.{part_at};

use crate::bodies::Role;
use crate::error::AmqpError;
use crate::state::DeliveryState;
use amqp_types::{Boxed, Items, Tag, Text, Value};

/// A field, borrowed from its body.
#[derive(Clone, Copy)]
pub enum Field<'a> {
    Absent,
    Boolean(bool),
    Ubyte(u8),
    Ushort(u16),
    Uint(u32),
    Ulong(u64),
    Binary(&'a [u8]),
    Str(&'a str),
    Symbol(&'a str),
    Mapping(&'a [(Value, Value)]),
    Any(&'a Value),
    State(&'a DeliveryState),
    Failure(&'a AmqpError),
}

/// A boolean, or null.
#[inline]
pub fn boolean(b: Option<bool>) -> Field<'static>
    ensures { part_at result ≡ optional boolean b }
{
    match b {
        Some(b) => Field::Boolean(b),
        None => Field::Absent,
    }
}

/// A ubyte, or null.
#[inline]
pub fn ubyte(n: Option<u8>) -> Field<'static>
    ensures { part_at result ≡ optional ubyte n }
{
    match n {
        Some(n) => Field::Ubyte(n),
        None => Field::Absent,
    }
}

/// A ushort, or null.
#[inline]
pub fn ushort(n: Option<u16>) -> Field<'static>
    ensures { part_at result ≡ optional ushort n }
{
    match n {
        Some(n) => Field::Ushort(n),
        None => Field::Absent,
    }
}

/// A uint, or null.
#[inline]
pub fn uint(n: Option<u32>) -> Field<'static>
    ensures { part_at result ≡ optional uint n }
{
    match n {
        Some(n) => Field::Uint(n),
        None => Field::Absent,
    }
}

/// A ulong, or null.
#[inline]
pub fn ulong(n: Option<u64>) -> Field<'static>
    ensures { part_at result ≡ optional ulong n }
{
    match n {
        Some(n) => Field::Ulong(n),
        None => Field::Absent,
    }
}

/// A delivery-tag, or null.
#[inline]
pub fn tag(tag: &Option<Tag>) -> Field<'_>
    ensures { part_at result ≡ optional binary tag.now }
{
    match tag {
        Some(tag) => Field::Binary(tag.octets()),
        None => Field::Absent,
    }
}

/// A string, or null.
#[inline]
pub fn string(text: &Option<Text>) -> Field<'_>
    ensures { part_at result ≡ optional string text.now }
{
    match text {
        Some(text) => Field::Str(text.as_str()),
        None => Field::Absent,
    }
}

/// A map, or null.
#[inline]
pub fn mapping(pairs: &Option<Items<(Value, Value)>>) -> Field<'_>
    ensures { part_at result ≡ optional mapping pairs.now }
{
    match pairs {
        Some(pairs) => Field::Mapping(pairs.as_slice()),
        None => Field::Absent,
    }
}

/// A value of any type, or null.
#[inline]
pub fn any(value: &Option<Boxed<Value>>) -> Field<'_>
    ensures { part_at result ≡ optional any value.now }
{
    match value {
        Some(value) => Field::Any(value.get()),
        None => Field::Absent,
    }
}

/// A delivery state, or null.
#[inline]
pub fn state(reached: &Option<DeliveryState>) -> Field<'_>
    ensures { part_at result ≡ optional state reached.now }
{
    match reached {
        Some(reached) => Field::State(reached),
        None => Field::Absent,
    }
}

/// An error, or null.
#[inline]
pub fn failure(what: &Option<Boxed<AmqpError>>) -> Field<'_>
    ensures { part_at result ≡ optional error what.now }
{
    match what {
        Some(what) => Field::Failure(what.get()),
        None => Field::Absent,
    }
}

/// A role, which is a boolean (part 2, 2.8.1).
#[inline]
pub fn role(end: Role) -> Field<'static>
    ensures { part_at result ≡ role end }
{
    match end {
        Role::Sender => Field::Boolean(false),
        Role::Receiver => Field::Boolean(true),
    }
}
