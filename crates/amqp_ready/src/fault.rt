//! Why a slot ends before its connection does.
use amqp_conn::{ConnFault, Refusal};
use thiserror::Error;

/// Why a slot ends before its connection does. A fault ends one slot, and no other.
#[derive(Clone, Copy, Debug, PartialEq, Eq, Error)]
pub enum SlotFault {
    #[error("a read failed")]
    Read,
    #[error("a write failed")]
    Write,
    #[error("the octets ended before the connection did")]
    EndOfInput,
    /// The open, the close or any sign of the peer took longer than the limits allow.
    #[error("it took too long")]
    TimedOut,
    /// A feed of the connection returned this fault.
    #[error("{0}")]
    Conn(ConnFault),
    /// The handler returned this refusal.
    #[error("an operation was refused: {0}")]
    Refused(Refusal),
}
