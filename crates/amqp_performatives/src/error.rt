//! An error, as a peer is told it (part 2, 2.8.14).
ghost use Rattle.std.specs.Prelude.{◌≡◌};

use crate::copying::{copy_text, copy_value};
use amqp_types::{Boxed, Text, Value};
use std::alloc::AllocError;

/// What went wrong, as a peer is told (part 2, 2.8.14).
#[derive(Debug, PartialEq, Eq)]
pub struct AmqpError {
    /// A symbol, as `amqp:not-allowed`.
    pub condition: Text,
    pub description: Option<Text>,
    pub info: Option<Boxed<Value>>,
}

// By hand, so that a crate that owns one does not prove its parts' drops again.
impl Drop for AmqpError {
    fn drop(self) {
        let AmqpError {
            condition,
            description,
            info,
        } = self;
        drop(condition);
        drop(description);
        drop(info);
    }
}

impl Clone for AmqpError {
    ghost is_clone = { λ a b. b ≡ a };

    fn clone(&self) -> Result<AmqpError, AllocError> {
        let condition = self.condition.clone()?;
        let description = copy_text(&self.description)?;
        let info = copy_value(&self.info)?;
        Ok(AmqpError {
            condition,
            description,
            info,
        })
    }
}
