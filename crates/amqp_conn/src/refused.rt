//! Why a connection cannot be created, or not be closed.
ghost use Rattle.std.specs.Prelude.{◌≡◌};
ghost use Rattle.amqp_conn.specs.Numbers.{start_number, close_number};

use thiserror::Error;

/// Why a connection cannot be created.
#[derive(Clone, Copy, Debug, PartialEq, Eq, Error)]
pub enum StartFault {
    /// A setting is out of its limits, or our open would be longer than 512 octets.
    #[error("a setting is out of its limits")]
    BadConfig,
    /// Memory ran out.
    #[error("out of memory")]
    NoMemory,
}

impl StartFault {
    /// Returns the fault's number, 1 or 2, in the order of the variants.
    pub fn number(self) -> u32
        ensures { result ≡ start_number self }
    {
        match self {
            StartFault::BadConfig => 1,
            StartFault::NoMemory => 2,
        }
    }
}

/// Why a connection cannot be closed. A refused close has changed nothing.
#[derive(Clone, Copy, Debug, PartialEq, Eq, Error)]
pub enum CloseRefusal {
    /// The phase is not `Running`.
    #[error("the connection is not open")]
    NotOpen,
    /// The error holds what no frame can hold.
    #[error("there is no such frame")]
    NotWritable,
    /// The close would be longer than the frames that the peer accepts.
    #[error("the frame is longer than the peer takes")]
    FrameTooBig,
    /// Memory ran out.
    #[error("out of memory")]
    NoMemory,
}

impl CloseRefusal {
    /// Returns the refusal's number, 1 to 4, in the order of the variants.
    pub fn number(self) -> u32
        ensures { result ≡ close_number self }
    {
        match self {
            CloseRefusal::NotOpen => 1,
            CloseRefusal::NotWritable => 2,
            CloseRefusal::FrameTooBig => 3,
            CloseRefusal::NoMemory => 4,
        }
    }
}
