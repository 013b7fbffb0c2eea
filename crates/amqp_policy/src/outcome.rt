//! What an outcome means for a message (part 3, 3.4).
ghost use Rattle.std.specs.Prelude.{◌≡◌};
ghost use Rattle.amqp_policy.specs.Outcome.{counted, outcome_of, after_outcome, is_set};

use amqp_performatives::DeliveryState;

/// What became of a message (part 3, 3.4).
#[derive(Clone, Copy, Debug, PartialEq, Eq)]
pub enum Outcome {
    Accepted,
    Rejected,
    Released,
    Modified,
    /// It was settled without an outcome, or its state is none of these.
    Unknown,
}

/// How many messages had each outcome.
#[derive(Clone, Copy, Debug, PartialEq, Eq)]
pub struct Outcomes {
    pub accepted: u64,
    pub rejected: u64,
    pub released: u64,
    pub modified: u64,
    /// Settled without an outcome.
    pub unknown: u64,
}

impl Outcomes {
    /// No message had any.
    pub const NONE: Outcomes = Outcomes {
        accepted: 0,
        rejected: 0,
        released: 0,
        modified: 0,
        unknown: 0,
    };

    /// Counts one more message with this outcome.
    pub fn count(&mut self, outcome: Outcome)
        ensures { self.new ≡ counted outcome self.old }
    {
        match outcome {
            Outcome::Accepted => self.accepted = self.accepted.saturating_add(1),
            Outcome::Rejected => self.rejected = self.rejected.saturating_add(1),
            Outcome::Released => self.released = self.released.saturating_add(1),
            Outcome::Modified => self.modified = self.modified.saturating_add(1),
            Outcome::Unknown => self.unknown = self.unknown.saturating_add(1),
        }
    }
}

/// What a sender does with a message whose state the peer has changed.
#[derive(Clone, Copy, Debug, PartialEq, Eq)]
pub enum AfterOutcome {
    /// The message is done with.
    Finished,
    /// The message may be sent again.
    Returned {
        /// This attempt counts in the message's delivery-count (part 3, 3.2.1).
        has_failed: bool,
        /// It does not go to the same link again.
        is_elsewhere: bool,
    },
    /// The peer has not decided yet.
    Pending,
}

/// Returns the outcome that a delivery's state is, or [`Outcome::Unknown`] if it is none.
pub fn outcome_of(state: &Option<DeliveryState>) -> Outcome
    ensures { result ≡ outcome_of state.now }
{
    match state {
        Some(DeliveryState::Accepted) => Outcome::Accepted,
        Some(DeliveryState::Rejected(_)) => Outcome::Rejected,
        Some(DeliveryState::Released) => Outcome::Released,
        Some(DeliveryState::Modified { .. }) => Outcome::Modified,
        _ => Outcome::Unknown,
    }
}

fn is_set(flag: &Option<bool>) -> bool
    ensures { result ≡ is_set flag.now }
{
    match flag {
        Some(flag) => *flag,
        None => false,
    }
}

/// Returns what a sender does with a message once the peer has sent this state, settled or not (part 3, 3.4).
pub fn after_outcome(state: &Option<DeliveryState>, is_settled: bool) -> AfterOutcome
    ensures { result ≡ after_outcome state.now is_settled }
{
    match state {
        Some(DeliveryState::Accepted | DeliveryState::Rejected(_)) => AfterOutcome::Finished,
        Some(DeliveryState::Released) => AfterOutcome::Returned {
            has_failed: false,
            is_elsewhere: false,
        },
        Some(
            DeliveryState::Modified {
                delivery_failed,
                undeliverable_here,
                ..
            },
        ) => AfterOutcome::Returned {
            has_failed: is_set(delivery_failed),
            is_elsewhere: is_set(undeliverable_here),
        },
        _ if is_settled => AfterOutcome::Finished,
        _ => AfterOutcome::Pending,
    }
}
