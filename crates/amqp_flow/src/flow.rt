//! What a flow frame says of a session and of a link (part 2, 2.7.4).
/// What a flow says of its session (part 2, 2.7.4). Ids and windows are those of the flow's sender.
#[derive(Clone, Copy, Debug, PartialEq, Eq)]
pub struct SessionFlow {
    /// The transfer id that the peer awaits, absent where it has not yet heard our begin.
    pub next_incoming_id: Option<u32>,
    /// How many transfers the peer takes, counted from that id.
    pub incoming_window: u32,
    /// The id of the peer's next transfer.
    pub next_outgoing_id: u32,
    /// How many transfers the peer is ready to send.
    pub outgoing_window: u32,
}

/// What a flow says of one link (part 2, 2.7.4).
#[derive(Clone, Copy, Debug, PartialEq, Eq)]
pub struct LinkFlow {
    /// The peer's delivery-count, absent from a receiver that has not yet heard our attach.
    pub delivery_count: Option<u32>,
    /// How many deliveries past that count the receiver takes.
    pub link_credit: Option<u32>,
    /// Whether the sender is to use up the credit at once.
    pub drain: bool,
}
