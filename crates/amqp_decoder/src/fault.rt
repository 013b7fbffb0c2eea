//! Why no performative is read.
ghost use Rattle.std.specs.Prelude.{◌≡◌};
ghost use Rattle.amqp_decoder.specs.declared.fault.BodyFault.TheVariants as fault;

use std::alloc::AllocError;
use thiserror::Error;

/// Why no performative is read.
#[derive(Clone, Copy, Debug, PartialEq, Eq, Error)]
pub enum BodyFault {
    /// No performative is in front of the octets.
    #[error("no performative is in front of the octets")]
    NoBody,
    /// One is, and there is no memory for what it owns: texts, errors, values of any type, bodies behind pointers.
    #[error("out of memory")]
    NoMemory,
}

impl From<AllocError> for BodyFault {
    ghost from_gives = { λ _ e. e ≡ fault.NoMemory };

    fn from(_refused: AllocError) -> BodyFault {
        BodyFault::NoMemory
    }
}
