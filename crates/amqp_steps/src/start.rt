//! A delivery that begins: its transfer, the marks of its link after it, and how it is held.
ghost use Rattle.std.specs.Prelude.{◌≡◌, ◌<◌, ◌+◌, ◌^◌, ◌∷◌, ◌||◌, [], Some, length};
ghost use Rattle.amqp_flow.specs.Credit.{delivery_begun};
ghost use Rattle.amqp_flow.specs.Windows.{windows_sent};
ghost use Rattle.amqp_steps.specs.Starting.{item_begun};
ghost use Rattle.std.specs.List.{list_any};
ghost use Rattle.amqp_events.specs.Tags.{is_tagged};
ghost use Rattle.amqp_links.specs.Credits.{credit_in, role_of};
ghost use Rattle.amqp_links.specs.Marks.{with_marks};
ghost use Rattle.amqp_rules.specs.Start.{begin_delivery, mode_forbids, sending_after, start_body};
ghost use Rattle.amqp_waiting.specs.Waiting.{waits};
ghost use Rattle.amqp_rules.specs.View.{is_too_long};

use crate::done::Done;
use crate::onlink::OnLink;
use crate::plan::Session;
use crate::sending::Written;
use crate::telling::flag;
use amqp_deliveries::{HeldItem, Tables};
use amqp_flow::receiver::ReceiverCredit;
use amqp_flow::sender::SenderCredit;
use amqp_frames::{Performative, Role, TransferBody};
use amqp_links::credit::Credit;
use amqp_links::link::Link;
use amqp_links::marks::{Marks, Sending};
use amqp_rules::reply::{Given, Reply};
use amqp_types::{Items, Tag};
use bytes::Bytes;
use std::alloc::Global;

/// The transfer on the link with this handle.
pub fn start_body(
    handle: u32,
    id: u32,
    tag: Tag,
    format: u32,
    settled: bool,
    more: bool,
) -> Option<Performative>
    ensures { result ≡ start_body handle id tag format settled more }
{
    Some(Performative::Transfer(TransferBody {
        handle,
        delivery_id: Some(id),
        delivery_tag: Some(tag),
        message_format: Some(format),
        settled: flag(settled),
        more: flag(more),
        rcv_settle_mode: None,
        state: None,
        resume: None,
        aborted: None,
        batchable: None,
    }))
}

fn sender_begun(credit: SenderCredit) -> SenderCredit
    ensures { 0 < credit.credit → result ≡ delivery_begun credit }
{
    let mut begun = credit;
    match begun.begin() {
        Ok(()) => begun,
        Err(_) => credit,
    }
}

fn receiver_begun(credit: ReceiverCredit) -> ReceiverCredit
    ensures { 0 < credit.credit → result ≡ delivery_begun credit }
{
    let mut begun = credit;
    match begun.begin() {
        Ok(()) => begun,
        Err(_) => credit,
    }
}

/// The credit once a delivery has begun, at either end.
pub(crate) fn credit_begun(credit: &Credit) -> Credit
    ensures role { role_of result ≡ role_of credit.now }
    ensures credit { 0 < (credit_in credit.now).credit → credit_in result ≡ delivery_begun (credit_in credit.now) }
{
    match credit {
        Credit::Sending(credit) => Credit::Sending(sender_begun(*credit)),
        Credit::Receiving(credit) => Credit::Receiving(receiver_begun(*credit)),
    }
}

/// The marks of a link once a delivery has begun.
pub fn marks_begun(l: &Link, id: u32, size: u128, more: bool) -> Marks
    ensures { 0 < l.now.credit.credit → with_marks result l.now ≡ begin_delivery id size more l.now }
{
    let mut marks = l.marks();
    marks.credit = credit_begun(&marks.credit);
    marks.sending = sending_after(more, id, size);
    marks
}

/// The session once a transfer is sent that begins a delivery.
pub fn started(mut session: Session) -> Session
    requires window { 0 < session.windows.remote_incoming }
    requires sent { session.windows.sent < 2 ^ 30 }
    requires deliveries { session.deliveries < 2 ^ 30 }
    ensures { result ≡ record session { windows = windows_sent session.windows; deliveries = session.deliveries + 1 } }
{
    session.windows.sent();
    session.deliveries += 1;
    session
}

/// The mode settled (1) takes settled deliveries alone, unsettled (0) none.
pub fn mode_forbids(mode: u8, settled: bool) -> bool
    ensures { result ≡ mode_forbids mode settled }
{
    if settled { mode == 0 } else { mode == 1 }
}

/// A message of this length is longer than an end takes; 0 is no limit.
pub fn is_too_long(max: u64, size: u128) -> bool
    ensures { result ≡ is_too_long max size }
{
    0 < max && (max as u128) < size
}

/// Unfinished while more is to come.
pub fn sending_after(more: bool, id: u32, size: u128) -> Option<Sending>
    ensures { result ≡ sending_after more id size }
{
    match more {
        true => Some(Sending { id, size }),
        false => None,
    }
}

/// An unsettled delivery that we sent on the link has the tag.
fn holds_tag(tables: &Tables, link: u32, tag: &Tag) -> bool
    ensures { result ≡ list_any (λ s. is_tagged link tag.now s.item) tables.now.sent }
{
    tables.has_tag(Role::Sender, link, tag)
}

/// The tag is in use on the link: an unsettled delivery has it, or one that waits to be resumed.
pub fn uses_tag(tables: &Tables, l: &Link, tag: &Tag) -> bool
    ensures { result ≡ (list_any (λ s. is_tagged l.now.number tag.now s.item) tables.now.sent || waits tag.now l.now.waiting) }
{
    holds_tag(tables, l.number(), tag) || l.waits(tag)
}

/// How long the payload is, in octets.
pub fn size_of(payload: &Bytes) -> u128
    ensures size { result ≡ length payload.now }
    ensures fits { result < 2 ^ 64 }
{
    payload.len() as u128
}

/// A delivery that begins: the link as it will be, whether its receiver settles second, and the frame that is sent.
#[derive(Drop)]
pub struct Starting {
    pub on: OnLink,
    pub second: bool,
    pub sent: Written,
}

/// The delivery as it is held.
pub fn item_begun(id: u32, link: u32, tag: &Tag, second: bool) -> HeldItem
    ensures { result ≡ item_begun id link tag.now second }
{
    HeldItem {
        id,
        link,
        tag: *tag,
        second,
        local: None,
        remote: None,
    }
}

/// What a delivery that begins gives.
pub fn sending_done(alloc: Global, sent: Written, id: u32) -> Done
    ensures { result ≡ record { reply = record { sent = sent ∷ []; ended = []; given = Given.Delivery id }; octets = Some sent.bytes; given = Given.Delivery id } }
{
    let (sent, octets) = sent.listed();
    Done {
        reply: Reply {
            sent,
            ended: Items::new(alloc),
            given: Given::Delivery(id),
        },
        octets: Some(octets),
        given: Given::Delivery(id),
    }
}
