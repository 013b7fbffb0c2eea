//! What a step makes of unsettled deliveries, as data.
use crate::disposition::Disposition;
use crate::item::HeldItem;
use amqp_performatives::{DeliveryState, Role};

/// What a step makes of the unsettled deliveries (part 2, 2.6.12). A role is ours: `Sender` speaks of what we send.
#[derive(Debug, Drop)]
pub enum Change {
    Stay,
    /// An unsettled delivery begins.
    Begins(Role, HeldItem),
    /// A later transfer of the delivery with this id: the state that the peer gives it, and whether it ends.
    Continues(Role, u32, Option<DeliveryState>, bool),
    /// A disposition of ours.
    Says(Role, Disposition),
    /// One of the peer's.
    Hears(Role, Disposition),
    /// The deliveries of the link with this number end.
    Leaves(u32),
    /// All end.
    Over,
}
