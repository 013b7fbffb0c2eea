//! How much credit `receive` grants.
ghost use Rattle.std.specs.Prelude.{◌+◌, ◌≤◌, IfSome};

use amqp_client::{End, LINK};
use amqp_policy::{Incoming, Renewal, credit_to_grant};

/// Returns what the link has of the peer's messages.
pub(crate) fn incoming_of(end: &End) -> Incoming {
    match end.conn().logged().endpoint().status(LINK) {
        Some(status) => Incoming {
            credit: status.credit,
            ready: u32::try_from(status.ready).unwrap_or(u32::MAX),
            begun: u32::from(status.mid),
        },
        None => Incoming {
            credit: 0,
            ready: 0,
            begun: 0,
        },
    }
}

/// Returns the credit to grant now, or `None` if none is to be granted, if `count` messages are asked for and `taken` of them were taken. No more messages come
/// than are asked for.
pub(crate) fn credit_due(
    count: u32,
    taken: u64,
    incoming: Incoming,
    most: u32,
    renewal: Renewal,
) -> Option<u32>
    ensures within { IfSome result (λ c. taken + (c + incoming.ready + incoming.begun) ≤ count) }
{
    let wanted = u64::from(count).saturating_sub(taken);
    credit_to_grant(wanted, incoming, most, renewal)
}
