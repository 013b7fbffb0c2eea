//! The errors of reading sections and messages.
ghost use Rattle.std.specs.Prelude.{◌≡◌};
ghost use Rattle.amqp_messages.specs.declared.fault.SectionFault.TheVariants as fault;

use std::alloc::AllocError;
use thiserror::Error;

/// The error that [`read_section`](crate::read_section) returns.
#[derive(Clone, Copy, Debug, PartialEq, Eq, Error)]
pub enum SectionFault {
    /// No section begins at the given octet.
    #[error("no section is in front of the octets")]
    NoSection,
    /// A section begins there, but memory ran out while its body was read.
    #[error("out of memory")]
    NoMemory,
}

impl From<AllocError> for SectionFault {
    ghost from_gives = { λ _ e. e ≡ fault.NoMemory };

    fn from(_refused: AllocError) -> SectionFault {
        SectionFault::NoMemory
    }
}

/// The error that [`read_message`](crate::read_message) returns. Positions are offsets in octets.
#[derive(Clone, Copy, Debug, PartialEq, Eq, Error)]
pub enum MessageFault {
    /// The octets before `at` are sections in order, and no section begins at `at`.
    #[error("no section begins at octet {at}")]
    NoSection { at: usize },
    /// The section that begins at `at` may not follow the sections before it (part 3, 3.2).
    #[error("the section at octet {at} is out of order")]
    OutOfOrder { at: usize },
    /// The sections are in order, but none of them is data, amqp-sequence or amqp-value.
    #[error("the message has no body")]
    NoBody,
    /// The octets are a message, but memory ran out while it was read.
    #[error("out of memory")]
    NoMemory,
}
