//! The errors of reading a frame and of writing one.
ghost use Rattle.std.specs.Prelude.{◌≡◌};
ghost use Rattle.amqp_frames.specs.Numbers.{fault_number, refusal_number};
ghost use Rattle.amqp_frames.specs.declared.fault.FrameFault.TheVariants as fault;
ghost use Rattle.amqp_frames.specs.declared.fault.FrameRefusal.TheVariants as refusal;

use std::alloc::AllocError;
use thiserror::Error;

/// The reason why octets cannot be read as a frame (part 2, 2.3).
///
/// If several apply, the one with the lowest [`number`](FrameFault::number) is reported.
#[derive(Clone, Copy, Debug, PartialEq, Eq, Error)]
pub enum FrameFault {
    /// The size is below 8, the length of the frame header.
    #[error("a frame's size is below 8")]
    ShortSize,
    /// The data offset is below 2, or past the end of the frame.
    #[error("a frame's data offset is out of its range")]
    BadDoff,
    /// The size is above the framer's `max_size`.
    #[error("a frame is longer than is taken")]
    TooBig,
    /// The type is not 0, that of AMQP frames (a SASL frame has type 1).
    #[error("a frame is of another type")]
    BadKind,
    /// The body does not begin with a performative, or octets follow a performative that is not a transfer.
    #[error("a frame's body is no performative")]
    BadBody,
    /// Memory ran out.
    #[error("out of memory")]
    NoMemory,
}

impl From<AllocError> for FrameFault {
    ghost from_gives = { λ _ e. e ≡ fault.NoMemory };

    fn from(_refused: AllocError) -> FrameFault {
        FrameFault::NoMemory
    }
}

impl FrameFault {
    /// Returns the number by which programs report the fault: its place in the order of the tests, from 1.
    pub fn number(self) -> u32
        ensures { result ≡ fault_number self }
    {
        match self {
            FrameFault::ShortSize => 1,
            FrameFault::BadDoff => 2,
            FrameFault::TooBig => 3,
            FrameFault::BadKind => 4,
            FrameFault::BadBody => 5,
            FrameFault::NoMemory => 6,
        }
    }
}

/// The reason why a frame is not written.
///
/// If several apply, the one with the lowest [`number`](FrameRefusal::number) is reported.
#[derive(Clone, Copy, Debug, PartialEq, Eq, Error)]
pub enum FrameRefusal {
    /// A field holds a value that no reader would find there, a value has no encoding, a payload comes without a
    /// transfer, or the size does not fit 32 bits.
    #[error("there is no such frame")]
    NotWritable,
    /// The frame is longer than the caller's `max`, the most that the peer accepts.
    #[error("the frame is longer than the peer takes")]
    FrameTooBig,
    /// Memory ran out.
    #[error("out of memory")]
    NoMemory,
}

impl From<AllocError> for FrameRefusal {
    ghost from_gives = { λ _ e. e ≡ refusal.NoMemory };

    fn from(_refused: AllocError) -> FrameRefusal {
        FrameRefusal::NoMemory
    }
}

impl FrameRefusal {
    /// Returns the number by which programs report the refusal: its place in the order of the tests, from 1.
    pub fn number(self) -> u32
        ensures { result ≡ refusal_number self }
    {
        match self {
            FrameRefusal::NotWritable => 1,
            FrameRefusal::FrameTooBig => 2,
            FrameRefusal::NoMemory => 3,
        }
    }
}
