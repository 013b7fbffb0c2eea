//! How much credit a receiver grants (part 2, 2.6.7).
ghost use Rattle.std.specs.Prelude.{◌≡◌, ◌+◌, ◌<◌, ◌≤◌, ℕ, List, IfSome};
ghost use Rattle.amqp_policy.specs.Credit.{credit_to_grant, ReceivingStep, after_steps, all_of};

/// When a receiver grants credit again.
#[derive(Clone, Copy, Debug, PartialEq, Eq)]
pub enum Renewal {
    /// When no credit is left.
    AtZero,
    /// When half of the credit or less is left.
    AtHalf,
    /// When no credit is left; the sender uses it up or gives it up at once (drain).
    Drain,
}

/// What a receiving link has of the peer's messages.
#[derive(Clone, Copy, Debug, PartialEq, Eq)]
pub struct Incoming {
    /// How many deliveries the peer may still begin.
    pub credit: u32,
    /// How many deliveries are complete and not taken.
    pub ready: u32,
    /// How many deliveries have begun and are not complete: 0 or 1.
    pub begun: u32,
}

/// Returns the credit to grant now, or `None` if none is to be granted.
///
/// `wanted` is the number of messages that are still to be taken, `most` the largest credit. The credit that is returned replaces the link's credit. Together with
/// the deliveries that are ready or begun, it never exceeds `wanted`.
pub fn credit_to_grant(wanted: u64, incoming: Incoming, most: u32, renewal: Renewal) -> Option<u32>
    ensures value { result ≡ credit_to_grant wanted incoming most renewal }
    ensures within { IfSome result (λ c. (c + incoming.ready + incoming.begun ≤ wanted) × (c ≤ most) × (incoming.credit < c)) }
{
    let here = u64::from(incoming.ready) + u64::from(incoming.begun);
    let room = wanted.saturating_sub(here).min(u64::from(most)) as u32;
    let least = match renewal {
        Renewal::AtZero | Renewal::Drain => 0,
        Renewal::AtHalf => most / 2,
    };
    if incoming.credit <= least && incoming.credit < room {
        Some(room)
    } else {
        None
    }
}

/// A law of [`credit_to_grant`]: over every sequence of steps of a link, what was taken, what is ready, what is begun and the credit together never exceed the number
/// of messages that are asked for.
pub fn credit_laws()
    ensures within { (asked : ℕ) (steps : List ReceivingStep) → all_of (after_steps asked steps) ≤ asked }
{}
