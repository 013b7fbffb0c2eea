//! The windows and a link, as they are shown.

use amqp_frames::Role;

/// The windows of the session (part 2, 2.5.6), in transfers.
#[derive(Clone, Copy, Debug, PartialEq, Eq)]
pub struct WindowView {
    /// The id of the next transfer that is to be heard; none before the peer's begin.
    pub next_in: Option<u32>,
    /// How many transfers we still take.
    pub incoming: u32,
    /// The id of the next transfer that is sent.
    pub next_out: u32,
    /// How many transfers the peer still takes.
    pub remote_in: u32,
    /// How many transfers the peer may still send by its own word.
    pub remote_out: u32,
    /// The id of the next delivery that is sent.
    pub next_delivery: u32,
}

/// How far a link is attached (part 2, 2.6.3).
#[derive(Clone, Copy, Debug, PartialEq, Eq)]
pub enum LinkPhase {
    /// Our attach was sent.
    Asked,
    /// The peer's attach was heard.
    Offered,
    /// Both attaches are there.
    Attached,
    /// Our detach was sent.
    Leaving,
}

/// A link as it stands (part 2, 2.6.7).
#[derive(Clone, Copy, Debug, PartialEq, Eq)]
pub struct LinkStatus {
    /// Our end of it.
    pub role: Role,
    pub phase: LinkPhase,
    /// Its delivery-count.
    pub count: u32,
    /// How many deliveries may still begin.
    pub credit: u32,
    /// A sender is wished to drain; a receiver awaits a drain.
    pub drain: bool,
    /// A delivery is unfinished.
    pub mid: bool,
    /// How many messages wait to be taken; 0 at a sender.
    pub ready: usize,
}
