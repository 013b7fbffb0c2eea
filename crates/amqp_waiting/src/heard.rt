//! The peer's unsettled deliveries, read from the values of its attach (part 2, 2.7.3).
ghost use Rattle.std.specs.Prelude.{◌≡◌, IfOk, OnOk, Some, [], drop, filter_map, unwrap_or, option_map, option_copied, slice_get};
ghost use Rattle.amqp_types.specs.declared.value.Value.TheViews.{out-Value};
ghost use Rattle.amqp_types.specs.View.{view};
ghost use Rattle.amqp_performatives.specs.declared.state.DeliveryState.TheVariants.{Other};
ghost use Rattle.amqp_performatives.specs.Composite.{type_of};
ghost use Rattle.amqp_performatives.specs.Fair.{is_null, is_descriptor, names_state};
ghost use Rattle.amqp_waiting.specs.PeerUnsettled.{all_null, uint_in, ulong_in, symbol_in, boolean_in, string_in, any_in, error_fields, error_listed, error_in, received_fields, rejected_fields, modified_fields, bare_fields, state_with, state_listed, state_in, tag_in, told_in, unsettled_of};
ghost use Rattle.amqp_waiting.specs.Kept.{followed_by};

use crate::peer::{Told, Unsettled};
use amqp_performatives::{AmqpError, AttachBody, Composite, DeliveryState};
use amqp_types::{Boxed, Items, Tag, Text, Value};
use std::alloc::{AllocError, Global};

fn is_null(value: &Value) -> bool
    ensures { result ≡ is_null (view value.now) }
{
    match value {
        Value::Null => true,
        _ => false,
    }
}

/// Whether each value from this place on is null, as those past the last field are.
fn ends_at(place: usize, values: &[Value]) -> bool
    ensures { result ≡ all_null (drop place values.now) }
{
    for next in place..values.len() {
        if !is_null(&values[next]) {
            return false;
        }
    }
    true
}

/// The field at a place; None where it is left off.
fn field(values: &[Value], place: usize) -> Option<&Value>
    ensures { option_copied result ≡ slice_get values.now place }
{
    values.get(place)
}

fn uint_in(value: Option<&Value>) -> Option<u32>
    ensures { result ≡ uint_in (option_map out-Value (option_copied value.entry)) }
{
    match value {
        Some(Value::Uint(n)) => Some(*n),
        _ => None,
    }
}

fn ulong_in(value: Option<&Value>) -> Option<u64>
    ensures { result ≡ ulong_in (option_map out-Value (option_copied value.entry)) }
{
    match value {
        Some(Value::Ulong(n)) => Some(*n),
        _ => None,
    }
}

fn symbol_in(value: Option<&Value>) -> Option<&Text>
    ensures { option_copied result ≡ symbol_in (option_map out-Value (option_copied value.entry)) }
{
    match value {
        Some(Value::Symbol(text)) => Some(text),
        _ => None,
    }
}

/// A boolean that may be absent; None where it is no boolean.
fn boolean_in(value: Option<&Value>) -> Option<Option<bool>>
    ensures { result ≡ boolean_in (option_map out-Value (option_copied value.entry)) }
{
    match value {
        None => Some(None),
        Some(Value::Null) => Some(None),
        Some(Value::Bool(b)) => Some(Some(*b)),
        _ => None,
    }
}

/// A string that may be absent; None where it is no string.
fn string_in(value: Option<&Value>) -> Option<Option<&Text>>
    ensures { option_map option_copied result ≡ string_in (option_map out-Value (option_copied value.entry)) }
{
    match value {
        None => Some(None),
        Some(Value::Null) => Some(None),
        Some(Value::Str(text)) => Some(Some(text)),
        _ => None,
    }
}

fn copy_lent(text: Option<&Text>) -> Result<Option<Text>, AllocError>
    ensures { IfOk result (λ t. t ≡ option_copied text.entry) }
{
    match text {
        None => Ok(None),
        Some(text) => Ok(Some(text.clone()?)),
    }
}

/// A copy of a value behind a pointer.
fn copy_boxed(alloc: Global, value: &Value) -> Result<Boxed<Value>, AllocError>
    ensures { IfOk result (λ v. v ≡ value.now) }
{
    let copy = value.clone()?;
    Boxed::new(alloc, copy)
}

/// A copy of a value of any type that may be absent.
fn any_in(alloc: Global, value: Option<&Value>) -> Result<Option<Boxed<Value>>, AllocError>
    ensures { IfOk result (λ v. v ≡ any_in (option_copied value.entry)) }
{
    match value {
        None => Ok(None),
        Some(value) => if is_null(value) {
            Ok(None)
        } else {
            Ok(Some(copy_boxed(alloc, value)?))
        },
    }
}

/// Whether the value is the descriptor of the type.
fn is_named(descriptor: &Value, composite: Composite) -> bool
    ensures { result ≡ is_descriptor (type_of composite) (view descriptor.now) }
{
    match descriptor {
        Value::Ulong(number) => *number == u64::from(composite.number()),
        Value::Symbol(name) => name.as_str() == composite.name(),
        _ => false,
    }
}

/// The error that has these fields (part 2, 2.8.14); None where they are not its fields.
fn error_fields(alloc: Global, fields: &[Value]) -> Result<Option<AmqpError>, AllocError>
    ensures { IfOk result (λ e. e ≡ error_fields fields.now) }
{
    if !ends_at(3, fields) {
        return Ok(None);
    }
    let Some(condition) = symbol_in(field(fields, 0)) else {
        return Ok(None);
    };
    let Some(description) = string_in(field(fields, 1)) else {
        return Ok(None);
    };
    let condition = condition.clone()?;
    let description = copy_lent(description)?;
    let info = any_in(alloc, field(fields, 2))?;
    Ok(Some(AmqpError {
        condition,
        description,
        info,
    }))
}

fn error_listed(alloc: Global, described: &Value) -> Result<Option<AmqpError>, AllocError>
    ensures { IfOk result (λ e. e ≡ error_listed (out-Value described.now)) }
{
    match described {
        Value::List(fields) => error_fields(alloc, fields.as_slice()),
        _ => Ok(None),
    }
}

/// An error behind a pointer, where there is one.
fn boxed_error(
    alloc: Global,
    error: Option<AmqpError>,
) -> Result<Option<Option<Boxed<AmqpError>>>, AllocError>
    ensures { IfOk result (λ e. e ≡ option_map Some error) }
{
    match error {
        None => Ok(None),
        Some(error) => {
            let error = Boxed::new(alloc, error)?;
            Ok(Some(Some(error)))
        }
    }
}

/// An error that may be absent; None where it is no error.
fn error_in(
    alloc: Global,
    value: Option<&Value>,
) -> Result<Option<Option<Boxed<AmqpError>>>, AllocError>
    ensures { IfOk result (λ e. e ≡ error_in (option_map out-Value (option_copied value.entry))) }
{
    match value {
        None => Ok(Some(None)),
        Some(Value::Null) => Ok(Some(None)),
        Some(Value::Described(descriptor, described)) => {
            if !is_named(descriptor.get(), Composite::Error) {
                return Ok(None);
            }
            let error = error_listed(alloc, described.get())?;
            boxed_error(alloc, error)
        }
        _ => Ok(None),
    }
}

/// Received, of these fields (part 3, 3.4.1); None where they are not its fields.
fn received_fields(fields: &[Value]) -> Option<DeliveryState>
    ensures { result ≡ received_fields fields.now }
{
    if !ends_at(2, fields) {
        return None;
    }
    let Some(section_number) = uint_in(field(fields, 0)) else {
        return None;
    };
    let Some(section_offset) = ulong_in(field(fields, 1)) else {
        return None;
    };
    Some(DeliveryState::Received {
        section_number,
        section_offset,
    })
}

/// Rejected, of these fields (part 3, 3.4.3); None where they are not its fields.
fn rejected_fields(alloc: Global, fields: &[Value]) -> Result<Option<DeliveryState>, AllocError>
    ensures { IfOk result (λ s. s ≡ rejected_fields fields.now) }
{
    if !ends_at(1, fields) {
        return Ok(None);
    }
    match error_in(alloc, field(fields, 0)) {
        Ok(Some(error)) => Ok(Some(DeliveryState::Rejected(error))),
        Ok(None) => Ok(None),
        Err(e) => Err(e),
    }
}

/// Modified, of these fields (part 3, 3.4.5); None where they are not its fields.
fn modified_fields(alloc: Global, fields: &[Value]) -> Result<Option<DeliveryState>, AllocError>
    ensures { IfOk result (λ s. s ≡ modified_fields fields.now) }
{
    if !ends_at(3, fields) {
        return Ok(None);
    }
    let Some(delivery_failed) = boolean_in(field(fields, 0)) else {
        return Ok(None);
    };
    let Some(undeliverable_here) = boolean_in(field(fields, 1)) else {
        return Ok(None);
    };
    let message_annotations = any_in(alloc, field(fields, 2))?;
    Ok(Some(DeliveryState::Modified {
        delivery_failed,
        undeliverable_here,
        message_annotations,
    }))
}

/// The state of the descriptor's type, of these fields; None where they are not its fields.
fn state_with(
    alloc: Global,
    descriptor: &Value,
    fields: &[Value],
) -> Result<Option<DeliveryState>, AllocError>
    ensures { IfOk result (λ s. s ≡ state_with descriptor.now fields.now) }
{
    if is_named(descriptor, Composite::Received) {
        return Ok(received_fields(fields));
    }
    if is_named(descriptor, Composite::Accepted) {
        return Ok(bare_fields(DeliveryState::Accepted, fields));
    }
    if is_named(descriptor, Composite::Rejected) {
        return rejected_fields(alloc, fields);
    }
    if is_named(descriptor, Composite::Released) {
        return Ok(bare_fields(DeliveryState::Released, fields));
    }
    modified_fields(alloc, fields)
}

/// A state without fields; None where there are some.
fn bare_fields(state: DeliveryState, fields: &[Value]) -> Option<DeliveryState>
    ensures { result ≡ bare_fields state fields.now }
{
    if ends_at(0, fields) {
        Some(state)
    } else {
        None
    }
}

fn state_listed(
    alloc: Global,
    descriptor: &Value,
    described: &Value,
) -> Result<Option<DeliveryState>, AllocError>
    ensures { IfOk result (λ s. s ≡ state_listed descriptor.now (out-Value described.now)) }
{
    match described {
        Value::List(fields) => state_with(alloc, descriptor, fields.as_slice()),
        _ => Ok(None),
    }
}

/// Whether the descriptor is that of one of the five delivery states (part 3, 3.4).
fn names_state(descriptor: &Value) -> bool
    ensures { result ≡ names_state (view descriptor.now) }
{
    if is_named(descriptor, Composite::Received) {
        return true;
    }
    if is_named(descriptor, Composite::Accepted) {
        return true;
    }
    if is_named(descriptor, Composite::Rejected) {
        return true;
    }
    if is_named(descriptor, Composite::Released) {
        return true;
    }
    is_named(descriptor, Composite::Modified)
}

/// A state that is none of the five.
fn other_state(alloc: Global, value: &Value) -> Result<Option<DeliveryState>, AllocError>
    ensures { IfOk result (λ s. s ≡ Some (Other value.now)) }
{
    let value = copy_boxed(alloc, value)?;
    Ok(Some(DeliveryState::Other(value)))
}

/// The state that a value of the map is. Null is none, and so is what has the descriptor of one of the five states and not its fields; any other
/// value is a state that is none of them.
fn state_in(alloc: Global, value: &Value) -> Result<Option<DeliveryState>, AllocError>
    ensures { IfOk result (λ s. s ≡ state_in value.now) }
{
    match value {
        Value::Null => Ok(None),
        Value::Described(descriptor, described) => {
            if names_state(descriptor.get()) {
                return state_listed(alloc, descriptor.get(), described.get());
            }
            other_state(alloc, value)
        }
        _ => other_state(alloc, value),
    }
}

/// The tag that a key of the map is: a binary of at most 32 octets.
fn tag_in(key: &Value) -> Option<Tag>
    ensures { result ≡ tag_in (out-Value key.now) }
{
    match key {
        Value::Binary(octets) => Tag::new(octets.as_slice()),
        _ => None,
    }
}

/// Puts what a pair of the map tells behind the others, where its key is a tag.
fn put_told(alloc: Global, pair: &(Value, Value), told: &mut Vec<Told>) -> Result<(), AllocError>
    ensures { OnOk result (told.new.items ≡ followed_by told.old.items (told_in pair.now)) }
{
    let Some(tag) = tag_in(&pair.0) else {
        return Ok(());
    };
    let state = state_in(alloc, &pair.1)?;
    told.push(Told { tag, state })?;
    Ok(())
}

/// What the pairs of the map tell, in their order, without those whose key is no tag.
fn told_by(alloc: Global, pairs: &[(Value, Value)]) -> Result<Items<Told>, AllocError>
    ensures { IfOk result (λ told. told ≡ filter_map told_in pairs.now) }
{
    let mut told = Vec::new(alloc);
    for pair in pairs {
        put_told(alloc, pair, &mut told)?;
    }
    Ok(Items { items: told })
}

/// The pairs of an attach's map; none where there is no map.
fn pairs_of(attach: &AttachBody) -> &[(Value, Value)]
    ensures { result.now ≡ unwrap_or attach.now.unsettled [] }
{
    match &attach.unsettled {
        Some(pairs) => pairs.as_slice(),
        None => &[],
    }
}

/// The unsettled deliveries that an attach tells (part 2, 2.7.3).
///
/// A key that is no binary of at most 32 octets is not read. A value is a delivery state (part 3, 3.4), or null; what has the descriptor of one of
/// the five states and not its fields counts as null, and any other value is a state that is none of them, kept as it is.
pub fn unsettled_of(alloc: Global, attach: &AttachBody) -> Result<Unsettled, AllocError>
    ensures { IfOk result (λ u. u ≡ unsettled_of attach.now) }
{
    let told = told_by(alloc, pairs_of(attach))?;
    Ok(Unsettled {
        told,
        incomplete: attach.incomplete_unsettled.unwrap_or(false),
    })
}
