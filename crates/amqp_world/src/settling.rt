//! How far two ends came in hearing each other until nothing waits.

use crate::refusal::HearRefusal;
use crate::side::Side;
use thiserror::Error;

/// How many frames each end heard.
#[derive(Clone, Copy, Debug, PartialEq, Eq)]
pub struct Settled {
    pub a: u32,
    pub b: u32,
}

/// Why two ends have not heard all. What they heard before stays heard, and the frame still waits.
#[derive(Clone, Copy, Debug, PartialEq, Eq, Error)]
#[error("{refusal}")]
pub struct Unsettled {
    /// The end that heard nothing.
    pub side: Side,
    /// `JournalFull` or `NoMemory`.
    pub refusal: HearRefusal,
    /// How many frames were heard before.
    pub heard: Settled,
}

/// What a turn of settling came to.
pub(crate) enum Turn {
    /// This end heard a frame.
    Heard(Side),
    /// Neither end has anything to hear.
    Rests,
    /// This end has, and cannot.
    Stops(Side, HearRefusal),
}
