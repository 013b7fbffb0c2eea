//! What stands for an operation that was done.
ghost use Rattle.std.specs.Prelude.{◌≡◌};
ghost use Rattle.amqp_journal.specs.Units.{given_link, given_id};

use amqp_rules::reply::Given;

/// A place in a journal, with the link and the delivery that the step there gave.
#[derive(Clone, Copy, Debug, PartialEq, Eq)]
pub struct Receipt {
    /// The place of the operation's entry, from 0.
    pub place: u64,
    /// The number of the link that the step gave; none where it gave none.
    pub link: Option<u32>,
    /// The id of the delivery that the step gave; none where it gave none.
    pub id: Option<u32>,
}

/// The receipt for the entry at this place, which gave this.
pub fn receipt_of(place: u64, given: &Given) -> Receipt
    ensures { result ≡ record { place = place; link = given_link given.now; id = given_id given.now } }
{
    Receipt {
        place,
        link: link_of(given),
        id: id_of(given),
    }
}

/// The link that a step gave.
pub(crate) fn link_of(given: &Given) -> Option<u32>
    ensures { result ≡ given_link given.now }
{
    match given {
        Given::Link(link)
        | Given::Offered(link)
        | Given::Attached(link)
        | Given::Gone(link)
        | Given::Ready(link, _)
        | Given::Parted(link, _) => Some(*link),
        Given::Taken(taken) => Some(taken.get().link),
        Given::Learned(learned) => Some(learned.get().link),
        Given::Delivery(_) | Given::Suspended(_) | Given::Resumed(_) | Given::Nothing => None,
    }
}

/// The delivery that it gave.
pub(crate) fn id_of(given: &Given) -> Option<u32>
    ensures { result ≡ given_id given.now }
{
    match given {
        Given::Delivery(id) | Given::Ready(_, id) => Some(*id),
        Given::Taken(taken) => Some(taken.get().id),
        Given::Learned(learned) => Some(learned.get().id),
        Given::Resumed(resumed) => resumed.get().id,
        Given::Link(_)
        | Given::Offered(_)
        | Given::Attached(_)
        | Given::Gone(_)
        | Given::Suspended(_)
        | Given::Parted(_, _)
        | Given::Nothing => None,
    }
}
