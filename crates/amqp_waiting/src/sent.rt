//! The unsettled deliveries that an attach of ours tells (part 2, 2.7.3), as the values of its map.
ghost use Rattle.std.specs.Prelude.{◌≡◌, Some, IfOk, OnOk, map, option_map};
ghost use Rattle.amqp_types.specs.declared.value.Value.TheVariants as value;
ghost use Rattle.amqp_performatives.specs.declared.state.DeliveryState.TheVariants.{Received, Rejected, Modified};
ghost use Rattle.amqp_waiting.specs.OurUnsettled.{composite_of, in_front, error_value, state_value, value_told, pair_of, map_of};

use crate::item::SuspendedItem;
use amqp_performatives::{AmqpError, Composite, DeliveryState};
use amqp_types::{Boxed, Items, Text, Value};
use bytes::Bytes;
use std::alloc::{AllocError, Global};

/// The fields as a list, described by the number of its type.
fn composite_of(
    alloc: Global,
    composite: Composite,
    fields: Vec<Value>,
) -> Result<Value, AllocError>
    ensures { IfOk result (λ v. v ≡ composite_of composite fields.items) }
{
    let number = u64::from(composite.number());
    let descriptor = Boxed::new(alloc, Value::Ulong(number))?;
    let described = Boxed::new(alloc, Value::List(Items { items: fields }))?;
    Ok(Value::Described(descriptor, described))
}

/// Puts a field in front of others. One that is absent is left off where none is behind it.
fn put_in_front(fields: &mut Vec<Value>, field: Option<Value>) -> Result<(), AllocError>
    ensures { OnOk result (fields.new.items ≡ in_front field fields.old.items) }
{
    match field {
        Some(value) => {
            fields.insert(0, value)?;
            Ok(())
        }
        None => {
            if fields.is_empty() {
                return Ok(());
            }
            fields.insert(0, Value::Null)?;
            Ok(())
        }
    }
}

fn boolean_value(b: Option<bool>) -> Option<Value>
    ensures { result ≡ option_map value.Bool b }
{
    match b {
        Some(b) => Some(Value::Bool(b)),
        None => None,
    }
}

fn string_value(text: &Option<Text>) -> Result<Option<Value>, AllocError>
    ensures { IfOk result (λ v. v ≡ option_map value.Str text.now) }
{
    match text {
        Some(text) => Ok(Some(Value::Str(text.clone()?))),
        None => Ok(None),
    }
}

fn any_value(value: &Option<Boxed<Value>>) -> Result<Option<Value>, AllocError>
    ensures { IfOk result (λ v. v ≡ value.now) }
{
    match value {
        Some(value) => Ok(Some(value.get().clone()?)),
        None => Ok(None),
    }
}

/// An error (part 2, 2.8.14).
fn error_value(alloc: Global, error: &AmqpError) -> Result<Value, AllocError>
    ensures { IfOk result (λ v. v ≡ error_value error.now) }
{
    let info = any_value(&error.info)?;
    let description = string_value(&error.description)?;
    let condition = error.condition.clone()?;
    let mut fields = Vec::new(alloc);
    put_in_front(&mut fields, info)?;
    put_in_front(&mut fields, description)?;
    put_in_front(&mut fields, Some(Value::Symbol(condition)))?;
    composite_of(alloc, Composite::Error, fields)
}

/// Received (part 3, 3.4.1).
fn received_value(
    alloc: Global,
    section_number: u32,
    section_offset: u64,
) -> Result<Value, AllocError>
    ensures { IfOk result (λ v. v ≡ state_value (Received section_number section_offset)) }
{
    let mut fields = Vec::new(alloc);
    put_in_front(&mut fields, Some(Value::Ulong(section_offset)))?;
    put_in_front(&mut fields, Some(Value::Uint(section_number)))?;
    composite_of(alloc, Composite::Received, fields)
}

/// Rejected (part 3, 3.4.3).
fn rejected_value(alloc: Global, error: &Option<Boxed<AmqpError>>) -> Result<Value, AllocError>
    ensures { IfOk result (λ v. v ≡ state_value (Rejected error.now)) }
{
    let mut fields = Vec::new(alloc);
    match error {
        Some(error) => {
            let error = error_value(alloc, error.get())?;
            put_in_front(&mut fields, Some(error))?;
            composite_of(alloc, Composite::Rejected, fields)
        }
        None => composite_of(alloc, Composite::Rejected, fields),
    }
}

/// Modified (part 3, 3.4.5).
fn modified_value(
    alloc: Global,
    delivery_failed: Option<bool>,
    undeliverable_here: Option<bool>,
    message_annotations: &Option<Boxed<Value>>,
) -> Result<Value, AllocError>
    ensures { IfOk result (λ v. v ≡ state_value (Modified delivery_failed undeliverable_here message_annotations.now)) }
{
    let annotations = any_value(message_annotations)?;
    let mut fields = Vec::new(alloc);
    put_in_front(&mut fields, annotations)?;
    put_in_front(&mut fields, boolean_value(undeliverable_here))?;
    put_in_front(&mut fields, boolean_value(delivery_failed))?;
    composite_of(alloc, Composite::Modified, fields)
}

/// A delivery state as a value, in its canonical form (part 3, 3.4).
pub fn state_value(alloc: Global, state: &DeliveryState) -> Result<Value, AllocError>
    ensures { IfOk result (λ v. v ≡ state_value state.now) }
{
    match state {
        DeliveryState::Received {
            section_number,
            section_offset,
        } => received_value(alloc, *section_number, *section_offset),
        DeliveryState::Accepted => composite_of(alloc, Composite::Accepted, Vec::new(alloc)),
        DeliveryState::Rejected(error) => rejected_value(alloc, error),
        DeliveryState::Released => composite_of(alloc, Composite::Released, Vec::new(alloc)),
        DeliveryState::Modified {
            delivery_failed,
            undeliverable_here,
            message_annotations,
        } => modified_value(
            alloc,
            *delivery_failed,
            *undeliverable_here,
            message_annotations,
        ),
        DeliveryState::Other(value) => value.get().clone(),
    }
}

/// A state, or null where there is none.
fn value_told(alloc: Global, state: &Option<DeliveryState>) -> Result<Value, AllocError>
    ensures { IfOk result (λ v. v ≡ value_told state.now) }
{
    match state {
        Some(state) => state_value(alloc, state),
        None => Ok(Value::Null),
    }
}

/// A pair of the map: the tag, and the state.
fn pair_of(alloc: Global, item: &SuspendedItem) -> Result<(Value, Value), AllocError>
    ensures { IfOk result (λ p. p ≡ pair_of item.now) }
{
    let tag = Bytes::copy_from_slice(alloc, item.tag.octets())?;
    let state = value_told(alloc, &item.state)?;
    Ok((Value::Binary(tag), state))
}

fn pairs_of(alloc: Global, items: &[SuspendedItem]) -> Result<Items<(Value, Value)>, AllocError>
    ensures { IfOk result (λ pairs. pairs ≡ map pair_of items.now) }
{
    let mut pairs = Vec::new(alloc);
    for item in items {
        let pair = pair_of(alloc, item)?;
        pairs.push(pair)?;
    }
    Ok(Items { items: pairs })
}

/// The map that an attach tells of these deliveries (part 2, 2.7.3): from each tag, a binary, to its state, or null where it has none. It is
/// absent where there are none.
pub fn map_of(
    alloc: Global,
    items: &[SuspendedItem],
) -> Result<Option<Items<(Value, Value)>>, AllocError>
    ensures { IfOk result (λ m. m ≡ map_of items.now) }
{
    if items.is_empty() {
        return Ok(None);
    }
    let pairs = pairs_of(alloc, items)?;
    Ok(Some(pairs))
}
