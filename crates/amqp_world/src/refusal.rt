//! Why an operation is refused, and why nothing is heard.

use amqp_rules::refusal::Refusal;
use thiserror::Error;

/// Why an operation of an end is refused. It has changed nothing.
#[derive(Clone, Copy, Debug, PartialEq, Eq, Error)]
pub enum WorldRefusal {
    /// A disposition of received deliveries has an id in its range that is of no delivery whose first transfer this end has heard.
    #[error("a delivery in the range has not come yet")]
    ReachesAhead,
    /// It puts a link aside, brings one back or resumes a delivery.
    #[error("two ends that lose nothing put no link aside")]
    Resuming,
    /// The session refuses it.
    #[error("{0}")]
    Refused(Refusal),
}

/// Why an end hears nothing. Nothing has changed. That a frame violates the session is none of these.
#[derive(Clone, Copy, Debug, PartialEq, Eq, Error)]
pub enum HearRefusal {
    #[error("no frame waits")]
    Empty,
    #[error("the journal has as many steps as it may")]
    JournalFull,
    /// The frame still waits.
    #[error("out of memory")]
    NoMemory,
}
