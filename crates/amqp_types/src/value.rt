//! The values of the AMQP type system.
ghost use Rattle.std.specs.Prelude.{◌≡◌, IfOk};

use crate::boxed::Boxed;
use crate::items::Items;
use crate::text::Text;
use bytes::Bytes;
use std::alloc::AllocError;

/// The greatest nesting depth of a value that is read or written. A value without parts is nested 1 deep, and a value
/// with parts 1 deeper than its deepest part.
pub const MAX_DEPTH: u8 = 32;

const _: () = prove!(MAX_DEPTH == 32);

/// Any AMQP value (OASIS AMQP 1.0, part 1, section 1.6).
///
/// Floating-point and decimal numbers are kept as bits, and a timestamp is in milliseconds since the Unix epoch. A map
/// keeps its pairs in their order, even if two of them have the same key. An array holds the format code of its
/// elements; it can be written only if that code can encode each element.
///
/// Two values are equal if they are the same variant and their parts are equal. Numbers of different types are never
/// equal, and neither are maps whose pairs are in a different order.
#[derive(Debug, PartialEq, Eq)]
pub enum Value {
    Null,
    Bool(bool),
    Ubyte(u8),
    Ushort(u16),
    Uint(u32),
    Ulong(u64),
    Sbyte(i8),
    Short(i16),
    Int(i32),
    Long(i64),
    FloatBits(u32),
    DoubleBits(u64),
    Dec32(u32),
    Dec64(u64),
    Dec128([u8; 16]),
    Char(char),
    Timestamp(i64),
    Uuid([u8; 16]),
    Binary(Bytes),
    Str(Text),
    Symbol(Text),
    List(Items<Value>),
    Map(Items<(Value, Value)>),
    Array(u8, Items<Value>),
    Described(Boxed<Value>, Boxed<Value>),
}

// Written by hand, so that a crate that owns one does not prove the drops of its parts again.
impl Drop for Value {
    #[cycle(value)]
    fn drop(self) {
        match self {
            Value::Binary(octets) => drop(octets),
            Value::Str(text) | Value::Symbol(text) => drop(text),
            Value::List(values) | Value::Array(_, values) => drop(values),
            Value::Map(pairs) => drop(pairs),
            Value::Described(descriptor, value) => {
                drop(descriptor);
                drop(value);
            }
            Value::Null
            | Value::Bool(_)
            | Value::Ubyte(_)
            | Value::Ushort(_)
            | Value::Uint(_)
            | Value::Ulong(_)
            | Value::Sbyte(_)
            | Value::Short(_)
            | Value::Int(_)
            | Value::Long(_)
            | Value::FloatBits(_)
            | Value::DoubleBits(_)
            | Value::Dec32(_)
            | Value::Dec64(_)
            | Value::Dec128(_)
            | Value::Char(_)
            | Value::Timestamp(_)
            | Value::Uuid(_) => {}
        }
    }
}

impl Clone for Value {
    ghost is_clone = { λ a b. b ≡ a };

    #[cycle(value)]
    fn clone(&self) -> Result<Value, AllocError> {
        Ok(match self {
            Value::Null => Value::Null,
            Value::Bool(b) => Value::Bool(*b),
            Value::Ubyte(n) => Value::Ubyte(*n),
            Value::Ushort(n) => Value::Ushort(*n),
            Value::Uint(n) => Value::Uint(*n),
            Value::Ulong(n) => Value::Ulong(*n),
            Value::Sbyte(n) => Value::Sbyte(*n),
            Value::Short(n) => Value::Short(*n),
            Value::Int(n) => Value::Int(*n),
            Value::Long(n) => Value::Long(*n),
            Value::FloatBits(n) => Value::FloatBits(*n),
            Value::DoubleBits(n) => Value::DoubleBits(*n),
            Value::Dec32(n) => Value::Dec32(*n),
            Value::Dec64(n) => Value::Dec64(*n),
            Value::Dec128(octets) => Value::Dec128(*octets),
            Value::Char(c) => Value::Char(*c),
            Value::Timestamp(n) => Value::Timestamp(*n),
            Value::Uuid(octets) => Value::Uuid(*octets),
            Value::Binary(octets) => Value::Binary(octets.clone()?),
            Value::Str(text) => Value::Str(text.clone()?),
            Value::Symbol(text) => Value::Symbol(text.clone()?),
            Value::List(values) => Value::List(clone_items(values)?),
            Value::Map(pairs) => Value::Map(clone_pairs(pairs)?),
            Value::Array(code, values) => Value::Array(*code, clone_items(values)?),
            Value::Described(descriptor, value) => {
                let descriptor = clone_boxed(descriptor)?;
                let value = clone_boxed(value)?;
                Value::Described(descriptor, value)
            }
        })
    }
}

#[cycle(value)]
fn clone_boxed(value: &Boxed<Value>) -> Result<Boxed<Value>, AllocError>
    ensures { IfOk result (λ copy. copy ≡ value.now) }
{
    let copy = value.get().clone()?;
    Boxed::new(value.allocator(), copy)
}

#[cycle(value)]
fn clone_items(values: &Items<Value>) -> Result<Items<Value>, AllocError>
    ensures { IfOk result (λ copies. copies ≡ values.now) }
{
    let mut items = Vec::new(values.allocator());
    for value in values.as_slice() {
        items.push(value.clone()?)?;
    }
    Ok(Items { items })
}

#[cycle(value)]
fn clone_pairs(pairs: &Items<(Value, Value)>) -> Result<Items<(Value, Value)>, AllocError>
    ensures { IfOk result (λ copies. copies ≡ pairs.now) }
{
    let mut items = Vec::new(pairs.allocator());
    for pair in pairs.as_slice() {
        let key = pair.0.clone()?;
        let value = pair.1.clone()?;
        items.push((key, value))?;
    }
    Ok(Items { items })
}
