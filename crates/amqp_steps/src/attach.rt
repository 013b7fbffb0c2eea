//! What an Attach asks for, and a Rejoin, which brings deliveries in, and what is made of it (part 2, 2.6.3, 2.6.13 and 2.7.3).
ghost use Rattle.std.specs.Prelude.{◌≡◌, Some, None, [], IfOk, cond};
ghost use Rattle.amqp_flow.specs.Credit.{count_given};
ghost use Rattle.amqp_links.specs.Credits.{credit_in, role_of};
ghost use Rattle.amqp_performatives.specs.declared.performative.Performative.TheVariants as body;
ghost use Rattle.amqp_rules.specs.Attach.{own_attach, size_told, end_of};
ghost use Rattle.amqp_rules.specs.Rejoin.{rejoined};
ghost use Rattle.amqp_rules.specs.Sending.{frame_refused};
ghost use Rattle.amqp_rules.specs.View.{is_sender};
ghost use Rattle.amqp_waiting.specs.OurUnsettled.{map_of};
ghost use Rattle.amqp_steps.specs.Attaching.{attached_fate, has_unfair, items_in, wanted_of};

use crate::sending::measured_refusal;
use amqp_frames::{AttachBody, AttachParts, Role, is_fair_state, measure_attach};
use amqp_links::credit::Credit;
use amqp_links::end::End;
use amqp_links::fate::Fate;
use amqp_links::marks::Marks;
use amqp_links::resuming::Resuming;
use amqp_performatives::copying::copy_value;
use amqp_rules::op::Rejoin;
use amqp_rules::refusal::Refusal;
use amqp_types::{Boxed, Items, Text, Value};
use amqp_waiting::{Brought, SuspendedItem};
use std::alloc::{AllocError, Global};

/// What an Attach asks for, and a Rejoin, which brings deliveries in.
#[derive(Clone, Copy)]
pub struct Wanted<'a> {
    pub name: &'a Text,
    pub role: Role,
    pub snd: u8,
    pub rcv: u8,
    pub source: &'a Option<Boxed<Value>>,
    pub target: &'a Option<Boxed<Value>>,
    pub count: u32,
    pub max_message: u64,
    /// What a Rejoin brings in.
    pub brought: Option<&'a Brought>,
}

/// What a Rejoin asks for.
pub fn rejoined(rejoin: &Rejoin) -> Wanted<'_>
    ensures { wanted_of result ≡ rejoined rejoin.now }
{
    Wanted {
        name: &rejoin.name,
        role: rejoin.role,
        snd: rejoin.snd,
        rcv: rejoin.rcv,
        source: &rejoin.source,
        target: &rejoin.target,
        count: rejoin.count,
        max_message: rejoin.max_message,
        brought: Some(&rejoin.items),
    }
}

/// The link that is attached: where it is, if it was offered, or one more; its number, our handle of it, and its marks after it.
#[derive(Clone, Copy)]
pub struct Meeting {
    pub met: Option<usize>,
    pub number: u32,
    pub handle: u32,
    pub marks: Marks,
}

/// A size that is told where it is above 0.
fn size_told(size: u64) -> Option<u64>
    ensures { result ≡ size_told size }
{
    if 0 < size { Some(size) } else { None }
}

/// The first delivery-count, which a sender tells.
pub fn count_told(role: Role, count: u32) -> Option<u32>
    ensures { result ≡ cond (is_sender role) (Some count) None }
{
    match role {
        Role::Sender => Some(count),
        Role::Receiver => None,
    }
}

/// The credit after our attach.
pub fn credit_told(credit: &Credit, count: u32) -> Credit
    ensures role { role_of result ≡ role_of credit.now }
    ensures credit { credit_in result ≡ cond (is_sender (role_of credit.now)) (count_given count (credit_in credit.now)) (credit_in credit.now) }
{
    match credit.role() {
        Role::Sender => credit.counted(count),
        Role::Receiver => *credit,
    }
}

/// The deliveries that are brought in.
pub fn items_in<'a>(brought: Option<&'a Brought>) -> &'a [SuspendedItem]
    ensures { result.now ≡ items_in brought.entry }
{
    match brought {
        Some(brought) => brought.as_slice(),
        None => &[],
    }
}

/// The map that the attach tells of them.
fn told_in<'a>(
    brought: Option<&'a Brought>,
    none: &'a Option<Items<(Value, Value)>>,
) -> &'a Option<Items<(Value, Value)>>
    requires { none.now ≡ None }
    ensures { result.now ≡ map_of (items_in brought.entry) }
{
    match brought {
        Some(brought) => brought.told(),
        None => none,
    }
}

/// One of these could not be told by a disposition.
pub fn has_unfair(items: &[SuspendedItem]) -> bool
    ensures { result ≡ has_unfair items.now }
{
    for next in 0..items.len() {
        if !is_fair_state(&items[next].state) {
            return true;
        }
    }
    false
}

/// Why an attach is not sent to a peer that takes frames of `max` octets. It asks for no memory.
pub fn attach_refusal(wanted: &Wanted<'_>, handle: u32, max: u32) -> Option<Refusal>
    ensures { result ≡ frame_refused max (Some (body.Attach (own_attach (wanted_of wanted.now) handle))) [] }
{
    let none = None;
    let parts = AttachParts {
        name: wanted.name.as_str(),
        handle,
        role: wanted.role,
        snd_settle_mode: Some(wanted.snd),
        rcv_settle_mode: Some(wanted.rcv),
        source: wanted.source,
        target: wanted.target,
        unsettled: told_in(wanted.brought, &none),
        initial_delivery_count: count_told(wanted.role, wanted.count),
        max_message_size: size_told(wanted.max_message),
    };
    measured_refusal(measure_attach(&parts, max))
}

/// The map once more, in memory of its own.
fn copy_told(brought: Option<&Brought>) -> Result<Option<Items<(Value, Value)>>, AllocError>
    ensures { IfOk result (λ m. m ≡ map_of (items_in brought.entry)) }
{
    match brought {
        Some(brought) => brought.copy_told(),
        None => Ok(None),
    }
}

/// The attach that is sent.
pub fn attach_body(
    alloc: Global,
    wanted: &Wanted<'_>,
    handle: u32,
) -> Result<Boxed<AttachBody>, AllocError>
    ensures { IfOk result (λ b. b ≡ own_attach (wanted_of wanted.now) handle) }
{
    let name = wanted.name.clone()?;
    let source = copy_value(wanted.source)?;
    let target = copy_value(wanted.target)?;
    let unsettled = copy_told(wanted.brought)?;
    Boxed::new(
        alloc,
        AttachBody {
            name,
            handle,
            role: wanted.role,
            snd_settle_mode: Some(wanted.snd),
            rcv_settle_mode: Some(wanted.rcv),
            source,
            target,
            unsettled,
            incomplete_unsettled: None,
            initial_delivery_count: count_told(wanted.role, wanted.count),
            max_message_size: size_told(wanted.max_message),
            offered_capabilities: None,
            desired_capabilities: None,
            properties: None,
        },
    )
}

/// What our attach tells that stays with the link.
pub fn our_end(wanted: &Wanted<'_>, handle: u32) -> Result<End, AllocError>
    ensures { IfOk result (λ end. end ≡ end_of (own_attach (wanted_of wanted.now) handle)) }
{
    let source = copy_value(wanted.source)?;
    let target = copy_value(wanted.target)?;
    Ok(End {
        handle,
        snd_mode: wanted.snd,
        rcv_mode: wanted.rcv,
        max_message: size_told(wanted.max_message).unwrap_or(0),
        source,
        target,
    })
}

/// What becomes of the links. The name is copied for a link that we ask for.
pub fn attached(
    name: &Text,
    meeting: &Meeting,
    end: End,
    resuming: Resuming,
) -> Result<Fate, AllocError>
    ensures { IfOk result (λ fate. fate ≡ attached_fate name.now meeting.now.met meeting.now.number end meeting.now.marks resuming) }
{
    match meeting.met {
        Some(key) => Ok(Fate::Ours {
            key,
            number: meeting.number,
            end,
            marks: meeting.marks,
            resuming,
        }),
        None => match name.clone() {
            Ok(name) => Ok(Fate::Asked {
                name,
                end,
                marks: meeting.marks,
                resuming,
            }),
            Err(e) => {
                drop(end);
                drop(resuming);
                Err(e)
            }
        },
    }
}
