//! A disposition of ours, with its state lent, and what the unsettled deliveries refuse to it (part 2, 2.6.12 and 2.7.6).
ghost use Rattle.std.specs.Prelude.{◌≡◌, [], IfOk};
ghost use Rattle.amqp_rules.specs.Dispose.{dispose_body, is_backwards, is_empty, waits_for_sender};
ghost use Rattle.std.specs.Prelude.{filter};
ghost use Rattle.std.specs.List.{list_any};
ghost use Rattle.amqp_events.specs.States.{is_fixed};
ghost use Rattle.amqp_events.specs.Unsettled.{covers};
ghost use Rattle.amqp_deliveries.specs.Held.{items_of};
ghost use Rattle.amqp_deliveries.specs.Span.{IsSpan};
ghost use Rattle.amqp_steps.specs.Disposing.{held_refusals, said_in};
ghost use Rattle.amqp_rules.specs.Refusing.{first_refusal};
ghost use Rattle.amqp_rules.specs.Sending.{frame_refused};

use crate::sending::measured_refusal;
use crate::telling::flag;
use amqp_deliveries::{Disposition, Held, Span};
use amqp_flow::serial::Serial;
use amqp_frames::{DeliveryState, DispositionBody, Performative, Role, measure_disposition};
use amqp_performatives::copying::copy_state;
use amqp_rules::refusal::Refusal;
use std::alloc::AllocError;

/// The frame that says this.
pub fn dispose_body(role: Role, said: Disposition) -> Option<Performative>
    ensures { result ≡ dispose_body role said }
{
    Some(Performative::Disposition(DispositionBody {
        role,
        first: said.first,
        last: Some(said.last),
        settled: flag(said.settled),
        state: said.state,
        batchable: None,
    }))
}

/// A disposition, with its state lent.
#[derive(Clone, Copy)]
pub struct Said<'a> {
    pub first: u32,
    pub last: u32,
    pub settled: bool,
    pub state: &'a Option<DeliveryState>,
}

impl Said<'_> {
    /// A copy of it.
    pub fn kept(&self) -> Result<Disposition, AllocError>
        ensures { IfOk result (λ copy. copy ≡ said_in self.now) }
    {
        let state = copy_state(self.state)?;
        Ok(Disposition {
            first: self.first,
            last: self.last,
            settled: self.settled,
            state,
        })
    }
}

/// Why the frame that says this is not sent to a peer that takes frames of `max` octets. It asks for no memory.
pub fn dispose_refusal(role: Role, said: Said<'_>, max: u32) -> Option<Refusal>
    ensures { result ≡ frame_refused max (dispose_body role (said_in said.entry)) [] }
{
    let last = Some(said.last);
    let settled = flag(said.settled);
    measured_refusal(measure_disposition(role, said.first, last, settled, said.state, max))
}

/// The range runs backwards: it spans 2^31 ids or more.
pub fn is_backwards(first: u32, last: u32) -> bool
    ensures { result ≡ is_backwards first last }
{
    const HALF: u32 = 1 << 31;
    Serial(first).distance(Serial(last)) >= HALF
}

/// It speaks of none of a table's deliveries.
fn covers_none(held: &Held, span: Span, said: Said<'_>) -> bool
    requires { IsSpan said.first said.last held.now span }
    ensures { result ≡ is_empty (filter (covers (said_in said.entry)) (items_of held.now)) }
{
    span.is_empty()
}

/// The receiver of one of them settles it after its sender.
fn any_waits(held: &Held, span: Span, role: Role, said: Said<'_>) -> bool
    requires { IsSpan said.first said.last held.now span }
    ensures { result ≡ list_any (waits_for_sender role) (filter (covers (said_in said.entry)) (items_of held.now)) }
{
    match role {
        Role::Sender => false,
        Role::Receiver => held.any_second(span),
    }
}

/// We gave one of them another outcome.
fn any_fixed(held: &Held, span: Span, said: Said<'_>) -> bool
    requires { IsSpan said.first said.last held.now span }
    ensures { result ≡ list_any (is_fixed (said_in said.entry).state) (filter (covers (said_in said.entry)) (items_of held.now)) }
{
    held.any_fixed(span, said.state)
}

/// What the deliveries of a table refuse to a disposition of ours.
pub fn held_refusal(held: &Held, role: Role, said: Said<'_>) -> Option<Refusal>
    ensures { result ≡ first_refusal (held_refusals role (said_in said.entry) (items_of held.now)) }
{
    let span = held.span(said.first, said.last);
    if covers_none(held, span, said) {
        return Some(Refusal::NothingHeld);
    }
    if said.settled && any_waits(held, span, role, said) {
        return Some(Refusal::MustNotSettle);
    }
    if any_fixed(held, span, said) {
        return Some(Refusal::OutcomeFixed);
    }
    None
}
