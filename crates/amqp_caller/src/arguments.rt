//! Operations that are made of numbers and octets.
ghost use Rattle.std.specs.Prelude.{◌≡◌, ◌⊎◌, MatchResult};
ghost use Rattle.amqp_caller.specs.Arguments.{IsAttach, IsDispose, IsOutcome, address, error_given, named};
ghost use Rattle.amqp_caller.specs.Numbers.{role_number};

use crate::status::{BAD_ARGUMENT, NO_MEMORY};
use amqp_conn::{AmqpError, Boxed, Bytes, DeliveryState, Op, Role, Tag, Text, Value, ops};
use std::alloc::{AllocError, Global};

/// How a link is attached (part 2, 2.7.3), by the numbers of the standard.
#[repr(C)]
#[derive(Clone, Copy, Drop)]
pub struct LinkSettings {
    /// The sender's settle mode: 0 unsettled, 1 settled, 2 mixed (part 2, 2.8.2).
    pub snd: u8,
    /// The receiver's settle mode: 0 first, 1 second (part 2, 2.8.3).
    pub rcv: u8,
    /// A sender's first delivery-count.
    pub count: u32,
    /// The longest message that we take, in octets; 0 for no limit.
    pub max_message: u64,
}

/// A delivery state as numbers (part 3, 3.4). The error of a rejection is passed beside it.
#[repr(C)]
#[derive(Clone, Copy, Drop)]
pub struct Outcome {
    /// 0 none, 1 received, 2 accepted, 3 rejected, 4 released, 5 modified.
    pub state: u32,
    /// Of `received`.
    pub section_number: u32,
    /// Of `received`.
    pub section_offset: u64,
    /// Of `modified`.
    pub delivery_failed: bool,
    /// Of `modified`.
    pub undeliverable_here: bool,
}

/// The deliveries that a disposition is about (part 2, 2.7.6).
#[derive(Clone, Copy, Drop)]
pub struct Range {
    /// Our role on their links: 0 sender, 1 receiver.
    pub role: u32,
    /// The id of the first delivery.
    pub first: u32,
    /// The id of the last delivery.
    pub last: u32,
    /// The deliveries are settled.
    pub settled: bool,
}

/// Returns the text that the octets spell in UTF-8.
pub fn text_of(alloc: Global, octets: &[u8]) -> Result<Text, u32>
    ensures { MatchResult result (λ t. t ≡ octets.now) (λ s. (s ≡ 2) ⊎ (s ≡ 3)) }
{
    let Ok(text) = std::str::from_utf8(octets) else {
        return Err(BAD_ARGUMENT);
    };
    match Text::new(alloc, text) {
        Ok(text) => Ok(text),
        Err(AllocError) => Err(NO_MEMORY),
    }
}

/// Returns the text; none if there are no octets.
pub fn named(alloc: Global, octets: &[u8]) -> Result<Option<Text>, u32>
    ensures { MatchResult result (λ t. t ≡ named octets.now) (λ s. (s ≡ 2) ⊎ (s ≡ 3)) }
{
    if octets.is_empty() {
        return Ok(None);
    }
    Ok(Some(text_of(alloc, octets)?))
}

/// Returns the source of this address; none if it has no octets.
pub fn source_of(alloc: Global, octets: &[u8]) -> Result<Option<Boxed<Value>>, u32>
    ensures { MatchResult result (λ v. v ≡ address 40 octets.now) (λ s. (s ≡ 2) ⊎ (s ≡ 3)) }
{
    if octets.is_empty() {
        return Ok(None);
    }
    match ops::source(alloc, text_of(alloc, octets)?) {
        Ok(value) => Ok(Some(value)),
        Err(AllocError) => Err(NO_MEMORY),
    }
}

/// Returns the target of this address; none if it has no octets.
pub fn target_of(alloc: Global, octets: &[u8]) -> Result<Option<Boxed<Value>>, u32>
    ensures { MatchResult result (λ v. v ≡ address 41 octets.now) (λ s. (s ≡ 2) ⊎ (s ≡ 3)) }
{
    if octets.is_empty() {
        return Ok(None);
    }
    match ops::target(alloc, text_of(alloc, octets)?) {
        Ok(value) => Ok(Some(value)),
        Err(AllocError) => Err(NO_MEMORY),
    }
}

/// Returns the error of this condition and description; none if the condition has no octets.
pub fn error_of(
    alloc: Global,
    condition: &[u8],
    description: &[u8],
) -> Result<Option<Boxed<AmqpError>>, u32>
    ensures { MatchResult result (λ e. e ≡ error_given condition.now description.now) (λ s. (s ≡ 2) ⊎ (s ≡ 3)) }
{
    if condition.is_empty() {
        return Ok(None);
    }
    let condition = text_of(alloc, condition)?;
    let description = named(alloc, description)?;
    let error = AmqpError {
        condition,
        description,
        info: None,
    };
    match Boxed::new(alloc, error) {
        Ok(error) => Ok(Some(error)),
        Err(AllocError) => Err(NO_MEMORY),
    }
}

pub fn role_of(number: u32) -> Result<Role, u32>
    ensures { MatchResult result (λ r. role_number r ≡ number) (λ s. (s ≡ 2) ⊎ (s ≡ 3)) }
{
    match number {
        0 => Ok(Role::Sender),
        1 => Ok(Role::Receiver),
        _ => Err(BAD_ARGUMENT),
    }
}

/// Returns the state that the numbers describe.
fn state_of(
    alloc: Global,
    outcome: &Outcome,
    condition: &[u8],
    description: &[u8],
) -> Result<Option<DeliveryState>, u32>
    ensures { MatchResult result (IsOutcome outcome.now condition.now description.now) (λ s. (s ≡ 2) ⊎ (s ≡ 3)) }
{
    match outcome.state {
        0 => Ok(None),
        1 => Ok(Some(DeliveryState::Received {
            section_number: outcome.section_number,
            section_offset: outcome.section_offset,
        })),
        2 => Ok(Some(DeliveryState::Accepted)),
        3 => Ok(Some(DeliveryState::Rejected(error_of(alloc, condition, description)?))),
        4 => Ok(Some(DeliveryState::Released)),
        5 => Ok(Some(DeliveryState::Modified {
            delivery_failed: Some(outcome.delivery_failed),
            undeliverable_here: Some(outcome.undeliverable_here),
            message_annotations: None,
        })),
        _ => Err(BAD_ARGUMENT),
    }
}

/// Returns the operation that attaches a link of this name between these addresses.
pub fn attach_of(
    alloc: Global,
    name: &[u8],
    role: u32,
    source: &[u8],
    target: &[u8],
    settings: &LinkSettings,
) -> Result<Op, u32>
    ensures { MatchResult result (IsAttach name.now role source.now target.now settings.now) (λ s. (s ≡ 2) ⊎ (s ≡ 3)) }
{
    let role = role_of(role)?;
    let name = text_of(alloc, name)?;
    let source = source_of(alloc, source)?;
    let target = target_of(alloc, target)?;
    Ok(Op::Attach {
        name,
        role,
        snd: settings.snd,
        rcv: settings.rcv,
        source,
        target,
        count: settings.count,
        max_message: settings.max_message,
    })
}

/// Returns the operation that begins a delivery.
pub fn start_of(
    alloc: Global,
    link: u32,
    tag: &[u8],
    payload: &[u8],
    settled: bool,
    more: bool,
) -> Result<Op, u32>
    ensures { MatchResult result (λ o. o ≡ Op.Start link tag.now 0 settled payload.now more) (λ s. (s ≡ 2) ⊎ (s ≡ 3)) }
{
    let Some(tag) = Tag::new(tag) else {
        return Err(BAD_ARGUMENT);
    };
    let Ok(payload) = Bytes::copy_from_slice(alloc, payload) else {
        return Err(NO_MEMORY);
    };
    Ok(Op::Start {
        link,
        tag,
        format: 0,
        settled,
        payload,
        more,
    })
}

/// Returns the operation that sends a further part of a delivery.
pub fn carry_of(alloc: Global, link: u32, payload: &[u8], more: bool) -> Result<Op, u32>
    ensures { MatchResult result (λ o. o ≡ Op.Carry link payload.now more) (λ s. (s ≡ 2) ⊎ (s ≡ 3)) }
{
    let Ok(payload) = Bytes::copy_from_slice(alloc, payload) else {
        return Err(NO_MEMORY);
    };
    Ok(Op::Carry {
        link,
        payload,
        more,
    })
}

/// Returns the operation that states and settles deliveries.
pub fn dispose_of(
    alloc: Global,
    range: Range,
    outcome: &Outcome,
    condition: &[u8],
    description: &[u8],
) -> Result<Op, u32>
    ensures { MatchResult result (IsDispose range outcome.now condition.now description.now) (λ s. (s ≡ 2) ⊎ (s ≡ 3)) }
{
    let role = role_of(range.role)?;
    let state = state_of(alloc, outcome, condition, description)?;
    Ok(Op::Dispose {
        role,
        first: range.first,
        last: range.last,
        settled: range.settled,
        state,
    })
}

/// Returns the operation that detaches a link, with this error.
pub fn detach_of(alloc: Global, link: u32, condition: &[u8], description: &[u8]) -> Result<Op, u32>
    ensures { MatchResult result (λ o. o ≡ Op.Detach link (error_given condition.now description.now)) (λ s. (s ≡ 2) ⊎ (s ≡ 3)) }
{
    let error = error_of(alloc, condition, description)?;
    Ok(Op::Detach { link, error })
}

/// Returns the operation that ends the session, with this error.
pub fn end_of(alloc: Global, condition: &[u8], description: &[u8]) -> Result<Op, u32>
    ensures { MatchResult result (λ o. o ≡ Op.End (error_given condition.now description.now)) (λ s. (s ≡ 2) ⊎ (s ≡ 3)) }
{
    let error = error_of(alloc, condition, description)?;
    Ok(Op::End { error })
}
