//! What becomes of a message that came.
ghost use Rattle.std.specs.Prelude.{◌≡◌};
ghost use Rattle.amqp_serve.specs.Receiving.{outcome_of, outcome_for, receipt_of, is_kept};

use crate::answer::Reason;
use amqp_policy::Outcome;

/// What became of a message that came.
#[derive(Clone, Copy, Debug, PartialEq, Eq)]
pub enum Receipt {
    /// It is in its queue.
    Stored,
    /// The queues are full, or memory ran out.
    NoRoom,
    /// It goes to no queue.
    Unroutable(Reason),
}

/// Returns what became of a message that was put into a queue, or was not.
pub fn receipt_of(is_in: bool) -> Receipt
    ensures { result ≡ receipt_of is_in }
{
    if is_in {
        Receipt::Stored
    } else {
        Receipt::NoRoom
    }
}

fn outcome_of(receipt: Receipt) -> Outcome
    ensures { result ≡ outcome_of receipt }
{
    match receipt {
        Receipt::Stored => Outcome::Accepted,
        Receipt::NoRoom => Outcome::Released,
        Receipt::Unroutable(_) => Outcome::Rejected,
    }
}

/// Returns the outcome that the sender of the message is sent, or `None` if the message came settled (part 2, 2.6.12).
pub fn outcome_for(receipt: Receipt, is_settled: bool) -> Option<Outcome>
    ensures { result ≡ outcome_for receipt is_settled }
{
    if is_settled {
        return None;
    }
    Some(outcome_of(receipt))
}

/// Returns whether a message is kept that came before its link or its connection ended: if it is not settled, its sender sends it again.
pub fn is_kept(is_settled: bool, is_over: bool) -> bool
    ensures { result ≡ is_kept is_settled is_over }
{
    is_settled || !is_over
}
