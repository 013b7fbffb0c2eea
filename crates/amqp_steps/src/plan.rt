//! A step as it is planned: what it answers and what it leaves, as data. A plan changes nothing until it is committed.
ghost use Rattle.std.specs.Prelude.{◌≡◌, ◌+◌, ◌⊎◌, [], Some, None, IfOk, MatchResult};
ghost use Rattle.amqp_flow.specs.Serial.{wire};
ghost use Rattle.amqp_steps.specs.Plan.{flags_of, quiet_plan, sending_plan};
ghost use Rattle.amqp_rules.specs.Refusing.{no_memory};
ghost use Rattle.amqp_steps.specs.Written.{Writes};
ghost use Rattle.amqp_rules.specs.View.{awaits_begin, is_ending, is_mapped, may_begin, takes_frames};

use crate::sending::{Written, write};
use amqp_deliveries::Change;
use amqp_flow::windows::Windows;
use amqp_frames::Performative;
use amqp_links::fate::Fate;
use amqp_rules::refusal::Refusal;
use amqp_rules::reply::Given;
use amqp_rules::violation::{Violation, ViolationKind};
use bytes::Bytes;
use std::alloc::{AllocError, Global};

/// What a session is besides its links and its deliveries.
#[derive(Clone, Copy)]
pub struct Session {
    pub begin_sent: bool,
    pub begin_heard: bool,
    pub end_sent: bool,
    pub end_heard: bool,
    pub windows: Windows,
    /// How many deliveries were begun.
    pub deliveries: u32,
    /// The id of the delivery that the peer begins next; none before its first.
    pub expected: Option<u32>,
    /// In octets: the longest frame that the peer takes.
    pub max_frame: u32,
    /// The highest handle that the peer takes.
    pub handle_max: u32,
}

/// A step as it is planned. It owns all that the step needs.
#[derive(Drop)]
pub struct Plan {
    /// The session after it.
    pub session: Session,
    /// What becomes of the links, and of the unsettled deliveries.
    pub fate: Fate,
    pub change: Change,
    /// The frame that is sent, with its octets.
    pub sent: Option<Written>,
    /// What the application is told.
    pub given: Given,
}

/// The plan that sends this frame, which has no payload, where a peer takes it that takes frames of `max_frame` octets.
pub fn plan_sending(
    alloc: Global,
    session: Session,
    fate: Fate,
    change: Change,
    body: Option<Performative>,
    given: Given,
) -> Result<Plan, Refusal>
    ensures { Writes session.max_frame body [] (sending_plan session fate change body [] given) result }
{
    match write(alloc, body, Bytes::new(), session.max_frame) {
        Ok(sent) => Ok(Plan {
            session,
            fate,
            change,
            sent: Some(sent),
            given,
        }),
        Err(refusal) => {
            drop(change);
            drop(fate);
            drop(given);
            Err(refusal)
        }
    }
}

/// The plan that answers a heard frame by this one. Where the peer does not take it, which is tested for the sake of what the octets are, the
/// frame that was heard is refused as for want of memory.
pub fn plan_answering(
    alloc: Global,
    session: Session,
    fate: Fate,
    change: Change,
    body: Option<Performative>,
    given: Given,
) -> Result<Plan, Violation>
    ensures { MatchResult result (λ p. p ≡ sending_plan session fate change body [] given) (λ e. e ≡ no_memory) }
{
    match plan_sending(alloc, session, fate, change, body, given) {
        Ok(plan) => Ok(plan),
        Err(_) => Err(Violation::unlinked(ViolationKind::NoMemory)),
    }
}

/// The plan that sends no frame.
pub fn plan_quiet(session: Session, fate: Fate, change: Change, given: Given) -> Plan
    ensures { result ≡ quiet_plan session fate change given }
{
    Plan {
        session,
        fate,
        change,
        sent: None,
        given,
    }
}

impl Plan {
    /// What the application is told, once more.
    pub fn given(&self) -> Result<Given, AllocError>
        ensures { IfOk result (λ given. given ≡ self.now.given) }
    {
        self.given.clone()
    }
}

impl Session {
    /// Both begins were, and no end.
    pub fn is_mapped(&self) -> bool
        ensures { result ≡ is_mapped (flags_of self.now) }
    {
        self.begin_sent && self.takes_frames()
    }

    /// Our begin may be sent.
    pub fn may_begin(&self) -> bool
        ensures { result ≡ may_begin (flags_of self.now) }
    {
        !self.begin_sent && !(self.end_sent || self.end_heard)
    }

    /// The peer's begin is awaited.
    pub fn awaits_begin(&self) -> bool
        ensures { result ≡ awaits_begin (flags_of self.now) }
    {
        !self.begin_heard && !(self.end_sent || self.end_heard)
    }

    /// The peer's begin was heard, and there was no end.
    pub fn takes_frames(&self) -> bool
        ensures { result ≡ takes_frames (flags_of self.now) }
    {
        self.begin_heard && !(self.end_sent || self.end_heard)
    }

    /// Our end was sent, and the peer's is awaited.
    pub fn is_ending(&self) -> bool
        ensures { result ≡ is_ending (flags_of self.now) }
    {
        self.end_sent && !self.end_heard
    }

    /// The id of the delivery that begins next.
    pub fn next_delivery(&self) -> u32
        ensures { result ≡ wire (self.now.windows.first + self.now.deliveries) }
    {
        self.windows.first().wrapping_add(self.deliveries)
    }
}
