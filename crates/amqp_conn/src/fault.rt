//! Why a feed fails.
ghost use Rattle.std.specs.Prelude.{◌≡◌};
ghost use Rattle.amqp_conn.specs.Numbers.{fault_number};

use amqp_frames::FrameFault;
use thiserror::Error;

/// Why a feed fails.
///
/// The first five end the connection. If a close may still be sent, one is, with the fault's condition.
#[derive(Clone, Copy, Debug, PartialEq, Eq, Error)]
pub enum ConnFault {
    /// The peer's first eight octets are not the header of AMQP 1.0.0 (part 2, 2.2).
    #[error("the peer's header is not that of AMQP 1.0.0")]
    BadHeader,
    /// The next octets are not a frame that we accept (part 2, 2.3), for the reason that it holds.
    #[error("{0}")]
    Framing(FrameFault),
    /// A frame may not come here: the first one with a body is not an open, or it is a second open, or the session does
    /// not expect it.
    #[error("a frame is out of its place")]
    OutOfPlace,
    /// A frame is on another channel than 0; only channel 0 can have a session.
    #[error("a frame is on a channel without a session")]
    BadChannel,
    /// The journal has as many entries as it may ([`Config::journal_limit`](crate::Config::journal_limit)).
    #[error("the journal has as many steps as it may")]
    JournalFull,
    /// The connection had ended before.
    #[error("the connection is closed")]
    Closed,
    /// Memory ran out. Nothing has changed, and the octets can be fed again.
    #[error("out of memory")]
    NoMemory,
}

impl ConnFault {
    /// Returns the fault's number, 1 to 7, in the order of the variants.
    pub fn number(self) -> u32
        ensures { result ≡ fault_number self }
    {
        match self {
            ConnFault::BadHeader => 1,
            ConnFault::Framing(_) => 2,
            ConnFault::OutOfPlace => 3,
            ConnFault::BadChannel => 4,
            ConnFault::JournalFull => 5,
            ConnFault::Closed => 6,
            ConnFault::NoMemory => 7,
        }
    }
}
