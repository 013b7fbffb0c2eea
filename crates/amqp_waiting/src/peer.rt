//! What the peer's attach tells of its own unsettled deliveries.
ghost use Rattle.std.specs.Prelude.{◌≡◌, IfOk, option_map};
ghost use Rattle.amqp_waiting.specs.Waiting.{verdict_by, sender_verdict, state_told};
ghost use Rattle.amqp_waiting.specs.Kept.{receiver_verdict, verdict_at};

use crate::item::Verdict;
use amqp_performatives::copying::copy_state;
use amqp_performatives::{DeliveryState, Role};
use amqp_types::{Items, Tag};
use std::alloc::AllocError;

/// An unsettled delivery of the peer's: its tag, and the peer's state of it.
#[derive(Debug, Drop)]
pub struct Told {
    pub tag: Tag,
    pub state: Option<DeliveryState>,
}

/// The unsettled deliveries that the peer told; `incomplete` where there may be more.
#[derive(Debug, Drop)]
pub struct Unsettled {
    pub told: Items<Told>,
    pub incomplete: bool,
}

/// What becomes of a delivery that the peer told with this state.
fn verdict_by(state: &Option<DeliveryState>) -> Verdict
    ensures { result ≡ verdict_by state.now }
{
    match state {
        None => Verdict::Held,
        Some(DeliveryState::Received { .. }) => Verdict::Partial,
        Some(DeliveryState::Other(_)) => Verdict::Held,
        Some(DeliveryState::Accepted) => Verdict::Outcome,
        Some(DeliveryState::Rejected(_)) => Verdict::Outcome,
        Some(DeliveryState::Released) => Verdict::Outcome,
        Some(DeliveryState::Modified { .. }) => Verdict::Outcome,
    }
}

/// What becomes of a delivery that we sent. One that the peer did not tell is absent, unless the peer did not tell all.
fn sender_verdict(incomplete: bool, told: Option<&Told>) -> Verdict
    ensures { result ≡ sender_verdict incomplete (option_map (λ t. t.now) told.entry) }
{
    match told {
        Some(told) => verdict_by(&told.state),
        None => if incomplete {
            Verdict::Unclear
        } else {
            Verdict::Absent
        },
    }
}

/// What becomes of a delivery that we received; None where it waits no longer.
fn receiver_verdict(incomplete: bool, told: Option<&Told>) -> Option<Verdict>
    ensures { result ≡ receiver_verdict incomplete (option_map (λ t. t.now) told.entry) }
{
    match told {
        Some(_) => Some(Verdict::Held),
        None => if incomplete {
            Some(Verdict::Held)
        } else {
            None
        },
    }
}

/// What becomes of a delivery, by what the peer told of it; None where it waits no longer.
pub(crate) fn verdict_at(role: Role, incomplete: bool, told: Option<&Told>) -> Option<Verdict>
    ensures { result ≡ verdict_at role incomplete (option_map (λ t. t.now) told.entry) }
{
    match role {
        Role::Sender => Some(sender_verdict(incomplete, told)),
        Role::Receiver => receiver_verdict(incomplete, told),
    }
}

/// The peer's state of a delivery, in memory of its own.
pub(crate) fn copy_told(told: Option<&Told>) -> Result<Option<DeliveryState>, AllocError>
    ensures { IfOk result (λ s. s ≡ state_told (option_map (λ t. t.now) told.entry)) }
{
    match told {
        Some(told) => copy_state(&told.state),
        None => Ok(None),
    }
}
