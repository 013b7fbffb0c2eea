//! A delivery that is resumed: what becomes of it, and the transfer that is sent anew (part 2, 2.6.13 and 2.7.5).
ghost use Rattle.std.specs.Prelude.{◌≡◌, ◌&&◌, ◌||◌, [], None, not, IfOk};
ghost use Rattle.amqp_steps.specs.Resuming.{change_resumed, in_part, not_clear, outcome_told, sent_anew};
ghost use Rattle.amqp_rules.specs.Telling.{flag};
ghost use Rattle.amqp_rules.specs.Refusing.{first_refusal};
ghost use Rattle.amqp_rules.specs.Resume.{early_refusals, resume_body, resumed_to};
ghost use Rattle.amqp_rules.specs.Sending.{frame_refused};
ghost use Rattle.amqp_waiting.specs.Kept.{standing_of};

use crate::onlink::OnLink;
use crate::sending::measured_refusal;
use crate::telling::flag;
use amqp_deliveries::{Change, HeldItem};
use amqp_frames::{
    DeliveryState, Performative, ResumingParts, Role, TransferBody, measure_resuming,
};
use amqp_links::credit::same_role;
use amqp_links::fate::Fate;
use amqp_links::link::Link;
use amqp_performatives::copying::copy_state;
use amqp_rules::refusal::Refusal;
use amqp_rules::reply::{Given, Resumed};
use amqp_types::{Boxed, Tag};
use amqp_waiting::{Standing, Verdict};
use std::alloc::{AllocError, Global};

/// A delivery that is resumed: its link as it will be, whether the link's receiver settles second, and what is known of the delivery.
#[derive(Clone, Copy)]
pub struct Resuming<'a> {
    pub on: OnLink,
    pub second: bool,
    pub standing: &'a Standing,
}

/// The peer has it in part.
pub fn is_partial(verdict: Verdict) -> bool
    ensures { result ≡ in_part verdict }
{
    match verdict {
        Verdict::Unclear => false,
        Verdict::Absent => false,
        Verdict::Partial => true,
        Verdict::Held => false,
        Verdict::Outcome => false,
    }
}

/// It is sent anew: the peer knows it.
pub fn is_sent_anew(verdict: Verdict) -> bool
    ensures { result ≡ sent_anew verdict }
{
    match verdict {
        Verdict::Unclear | Verdict::Absent => false,
        Verdict::Partial => true,
        Verdict::Held => true,
        Verdict::Outcome => true,
    }
}

/// Nothing is known of it yet.
pub fn is_unclear(verdict: Verdict) -> bool
    ensures { result ≡ not_clear verdict }
{
    match verdict {
        Verdict::Unclear => true,
        Verdict::Absent => false,
        Verdict::Partial => false,
        Verdict::Held => false,
        Verdict::Outcome => false,
    }
}

/// The outcome that the peer told, or else this, which is none.
fn outcome_lent<'a>(
    verdict: Verdict,
    theirs: &'a Option<DeliveryState>,
    none: &'a Option<DeliveryState>,
) -> &'a Option<DeliveryState>
    requires { none.now ≡ None }
    ensures { result.now ≡ outcome_told verdict theirs.now }
{
    match verdict {
        Verdict::Unclear => none,
        Verdict::Absent => none,
        Verdict::Partial => none,
        Verdict::Held => none,
        Verdict::Outcome => theirs,
    }
}

/// The outcome that the peer told, in memory of its own.
pub fn copy_outcome(
    verdict: Verdict,
    theirs: &Option<DeliveryState>,
) -> Result<Option<DeliveryState>, AllocError>
    ensures { IfOk result (λ s. s ≡ outcome_told verdict theirs.now) }
{
    match verdict {
        Verdict::Unclear => Ok(None),
        Verdict::Absent => Ok(None),
        Verdict::Partial => Ok(None),
        Verdict::Held => Ok(None),
        Verdict::Outcome => copy_state(theirs),
    }
}

fn either(a: bool, b: bool) -> bool
    ensures { result ≡ (a || b) }
{
    a || b
}

/// An aborted transfer settles nothing.
fn settles(settled: bool, partial: bool) -> Option<bool>
    ensures { result ≡ flag (settled && not partial) }
{
    flag(settled && !partial)
}

/// Why the transfer is not sent to a peer that takes frames of `max` octets. It asks for no memory.
pub fn resuming_refusal(
    handle: u32,
    id: u32,
    tag: &Tag,
    settled: bool,
    standing: &Standing,
    max: u32,
) -> Option<Refusal>
    ensures { result ≡ frame_refused max (resume_body handle id settled (standing_of tag.now standing.now)) [] }
{
    let none = None;
    let partial = is_partial(standing.verdict);
    let parts = ResumingParts {
        handle,
        delivery_id: id,
        delivery_tag: tag,
        settled: settles(settled, partial),
        state: outcome_lent(standing.verdict, &standing.theirs, &none),
        aborted: flag(partial),
    };
    measured_refusal(measure_resuming(&parts, max))
}

/// The transfer that is sent.
pub fn resume_body(
    handle: u32,
    id: u32,
    tag: &Tag,
    settled: bool,
    standing: &Standing,
) -> Result<Option<Performative>, AllocError>
    ensures { IfOk result (λ body. body ≡ resume_body handle id settled (standing_of tag.now standing.now)) }
{
    let state = copy_outcome(standing.verdict, &standing.theirs)?;
    let partial = is_partial(standing.verdict);
    Ok(Some(Performative::Transfer(TransferBody {
        handle,
        delivery_id: Some(id),
        delivery_tag: Some(*tag),
        message_format: None,
        settled: settles(settled, partial),
        more: None,
        rcv_settle_mode: None,
        state,
        resume: Some(true),
        aborted: flag(partial),
        batchable: None,
    })))
}

/// What the step makes of the unsettled deliveries: the delivery begins with our state and the peer's, unless it is settled or aborted.
pub fn change_resumed(
    id: u32,
    link: u32,
    tag: &Tag,
    settled: bool,
    second: bool,
    standing: &Standing,
) -> Result<Change, AllocError>
    ensures { IfOk result (λ c. c ≡ change_resumed id link settled second (standing_of tag.now standing.now)) }
{
    let over = either(settled, is_partial(standing.verdict));
    if over {
        return Ok(Change::Stay);
    }
    let local = copy_state(&standing.state)?;
    let remote = copy_state(&standing.theirs)?;
    Ok(Change::Begins(
        Role::Sender,
        HeldItem {
            id,
            link,
            tag: *tag,
            second,
            local,
            remote,
        },
    ))
}

/// What the application is told of it.
pub fn told_resumed(
    alloc: Global,
    verdict: Verdict,
    id: Option<u32>,
    state: Option<DeliveryState>,
) -> Result<Given, AllocError>
    ensures { IfOk result (λ g. g ≡ resumed_to verdict id state) }
{
    let resumed = Boxed::new(alloc, Resumed { verdict, id, state })?;
    Ok(Given::Resumed(resumed))
}

/// What is refused before the delivery is looked for.
pub fn early_refusal(l: &Link) -> Option<Refusal>
    ensures { result ≡ first_refusal (early_refusals l.now) }
{
    if !l.is_attached() {
        return Some(Refusal::NotAttached);
    }
    if !same_role(Role::Sender, l.role()) {
        return Some(Refusal::WrongRole);
    }
    if l.sending().is_some() {
        return Some(Refusal::InDelivery);
    }
    None
}

/// What becomes of the link with this number: the delivery waits no longer.
pub fn fate_resumed(number: u32, tag: &Tag, on: &OnLink) -> Fate
    ensures { result ≡ Fate.Resumed on.now.key number on.now.marks tag.now }
{
    Fate::Resumed {
        key: on.key,
        number,
        marks: on.marks,
        tag: *tag,
    }
}
