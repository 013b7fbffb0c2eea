//! Copies of optional parts: a copy is equal, or memory was refused.
ghost use Rattle.std.specs.Prelude.{◌≡◌, IfOk};

use crate::error::AmqpError;
use crate::state::DeliveryState;
use amqp_types::{Boxed, Items, Text, Value};
use std::alloc::AllocError;

/// A copy of a text, where there is one.
pub fn copy_text(text: &Option<Text>) -> Result<Option<Text>, AllocError>
    ensures { IfOk result (λ copy. copy ≡ text.now) }
{
    match text {
        None => Ok(None),
        Some(text) => Ok(Some(text.clone()?)),
    }
}

/// A copy of a value, where there is one.
pub fn copy_value(value: &Option<Boxed<Value>>) -> Result<Option<Boxed<Value>>, AllocError>
    ensures { IfOk result (λ copy. copy ≡ value.now) }
{
    match value {
        None => Ok(None),
        Some(value) => Ok(Some(value.clone()?)),
    }
}

/// A copy of an error, where there is one.
pub fn copy_error(error: &Option<Boxed<AmqpError>>) -> Result<Option<Boxed<AmqpError>>, AllocError>
    ensures { IfOk result (λ copy. copy ≡ error.now) }
{
    match error {
        None => Ok(None),
        Some(error) => Ok(Some(error.clone()?)),
    }
}

/// A copy of a state, where there is one.
pub fn copy_state(state: &Option<DeliveryState>) -> Result<Option<DeliveryState>, AllocError>
    ensures { IfOk result (λ copy. copy ≡ state.now) }
{
    match state {
        None => Ok(None),
        Some(state) => Ok(Some(state.clone()?)),
    }
}

pub(crate) fn copy_pairs(
    pairs: &Option<Items<(Value, Value)>>,
) -> Result<Option<Items<(Value, Value)>>, AllocError>
    ensures { IfOk result (λ copy. copy ≡ pairs.now) }
{
    let Some(pairs) = pairs else {
        return Ok(None);
    };
    let mut copies = Vec::new(pairs.allocator());
    for pair in pairs.as_slice() {
        let key = pair.0.clone()?;
        let value = pair.1.clone()?;
        copies.push((key, value))?;
    }
    Ok(Some(Items { items: copies }))
}
