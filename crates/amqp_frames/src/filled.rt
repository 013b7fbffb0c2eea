//! The outcome of feeding a slot.

/// The outcome of [`Framer::feed_into`](crate::Framer::feed_into), with the number of octets that it took.
#[derive(Clone, Copy, Debug, PartialEq, Eq)]
pub enum Filled {
    /// No frame is complete yet; all octets were taken.
    Part(usize),
    /// The slot holds the frame that these octets completed.
    Whole(usize),
}
