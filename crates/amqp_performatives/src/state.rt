//! Delivery states (part 3, 3.4).
ghost use Rattle.std.specs.Prelude.{◌≡◌};
ghost use Rattle.amqp_performatives.specs.Outcome.{is_outcome};

use crate::copying::{copy_error, copy_value};
use crate::error::AmqpError;
use amqp_types::{Boxed, Value};
use std::alloc::AllocError;

/// The state of a delivery at one end (part 3, 3.4). All but `Received` and `Other` are outcomes.
#[derive(Debug, PartialEq, Eq, Drop)]
pub enum DeliveryState {
    Received {
        section_number: u32,
        section_offset: u64,
    },
    Accepted,
    Rejected(Option<Boxed<AmqpError>>),
    Released,
    Modified {
        delivery_failed: Option<bool>,
        undeliverable_here: Option<bool>,
        message_annotations: Option<Boxed<Value>>,
    },
    /// A state that is none of these, as a transaction's.
    Other(Boxed<Value>),
}

impl Clone for DeliveryState {
    ghost is_clone = { λ a b. b ≡ a };

    fn clone(&self) -> Result<DeliveryState, AllocError> {
        match self {
            DeliveryState::Received {
                section_number,
                section_offset,
            } => Ok(DeliveryState::Received {
                section_number: *section_number,
                section_offset: *section_offset,
            }),
            DeliveryState::Accepted => Ok(DeliveryState::Accepted),
            DeliveryState::Rejected(error) => Ok(DeliveryState::Rejected(copy_error(error)?)),
            DeliveryState::Released => Ok(DeliveryState::Released),
            DeliveryState::Modified {
                delivery_failed,
                undeliverable_here,
                message_annotations,
            } => Ok(DeliveryState::Modified {
                delivery_failed: *delivery_failed,
                undeliverable_here: *undeliverable_here,
                message_annotations: copy_value(message_annotations)?,
            }),
            DeliveryState::Other(value) => Ok(DeliveryState::Other(value.clone()?)),
        }
    }
}

impl DeliveryState {
    /// Whether it is an outcome: a state that does not change any more (part 3, 3.4).
    pub fn is_outcome(&self) -> bool
        ensures { result ≡ is_outcome self.now }
    {
        match self {
            DeliveryState::Received { .. } => false,
            DeliveryState::Other(_) => false,
            _ => true,
        }
    }
}
