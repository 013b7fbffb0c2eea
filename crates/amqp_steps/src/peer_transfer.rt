//! What a transfer that is heard violates by its link, its names and its delivery (part 2, 2.6.12, 2.6.14 and 2.7.5).
ghost use Rattle.std.specs.Prelude.{◌≡◌, ◌&&◌, ◌||◌, ◌==◌, ◌++◌, List, [], ℕ, false, is_none, length, not, unwrap_or};
ghost use Rattle.std.specs.List.{list_any};
ghost use Rattle.amqp_events.specs.Tags.{is_tagged};
ghost use Rattle.amqp_waiting.specs.Waiting.{waits};
ghost use Rattle.amqp_steps.specs.Transferring.{breaks_snd, later_rows, delivery_rows};
ghost use Rattle.amqp_events.specs.Joined.{Delivery, next_delivery, unless_resumed};
ghost use Rattle.amqp_links.specs.Arrivals.{IsProgressOf, size_told};
ghost use Rattle.amqp_rules.specs.Deliveries.{transferred};
ghost use Rattle.amqp_rules.specs.PeerTransfer.{breaks_mode, breaks_rcv_mode, breaks_size, is_nameless, is_other, is_unexpected, receives};
ghost use Rattle.amqp_rules.specs.Refusing.{first_refusal};

use crate::arriving::tag_of;
use crate::start::is_too_long;
use amqp_deliveries::Tables;
use amqp_frames::{Role, TransferBody};
use amqp_links::arrival::Progress;
use amqp_links::credit::same_role;
use amqp_links::link::Link;
use amqp_rules::violation::{Violation, ViolationKind};
use amqp_types::Tag;
use bytes::Bytes;

/// An unsettled delivery that we received on the link has the tag.
fn holds_tag(tables: &Tables, link: u32, tag: &Tag) -> bool
    ensures { result ≡ list_any (is_tagged link tag.now) tables.now.received }
{
    tables.has_tag(Role::Receiver, link, tag)
}

/// The tag is in use on the link: an unsettled delivery has it, or one that waits and is not brought in by this transfer.
pub fn takes_tag(tables: &Tables, l: &Link, b: &TransferBody) -> bool
    ensures { result ≡ (list_any (is_tagged l.now.number (unwrap_or b.now.delivery_tag [])) tables.now.received || not (unwrap_or b.now.resume false) && waits (unwrap_or b.now.delivery_tag []) l.now.waiting) }
{
    let tag = tag_of(b);
    holds_tag(tables, l.number(), &tag) || !b.resume.unwrap_or(false) && l.waits(&tag)
}

/// We receive on the link, and our attach was sent.
pub fn receives(l: &Link) -> bool
    ensures { result ≡ receives l.now }
{
    l.is_ours() && same_role(Role::Receiver, l.role())
}

/// It lacks an id or a tag, which a first transfer has.
pub fn is_nameless(b: &TransferBody) -> bool
    ensures { result ≡ is_nameless b.now }
{
    b.delivery_id.is_none() || b.delivery_tag.is_none()
}

/// The id is given and is not this one.
fn is_other(given: Option<u32>, id: u32) -> bool
    ensures { result ≡ is_other given id }
{
    match given {
        Some(given) => given != id,
        None => false,
    }
}

/// The id is not the one that is expected; the first is free.
pub fn is_unexpected(expected: Option<u32>, b: &TransferBody) -> bool
    ensures { result ≡ is_unexpected expected b.now }
{
    match expected {
        Some(id) => is_other(b.delivery_id, id),
        None => false,
    }
}

/// What a later transfer violates by its id.
pub fn later_violation(b: &TransferBody, id: u32) -> Option<Violation>
    ensures { result ≡ first_refusal (later_rows b.now id) }
{
    if is_other(b.delivery_id, id) {
        Some(Violation::unlinked(ViolationKind::IdOrder))
    } else {
        None
    }
}

/// Some transfer of the delivery so far settled it.
fn settled_now(l: &Link, b: &TransferBody) -> bool
    ensures { (mode : ℕ) (payload : List ℕ) → result ≡ (next_delivery (transferred mode b.now payload) l.now.receiving).settled }
{
    let settled = b.settled.unwrap_or(false);
    match l.progress() {
        Some(progress) => progress.settled || settled,
        None => settled,
    }
}

/// The delivery ends unsettled where all are to be settled (mode 1), or is settled where none is to be (mode 0).
fn breaks_snd(mode: u8, settled: bool, more: bool, aborted: bool) -> bool
    ensures { result ≡ breaks_snd mode settled more aborted }
{
    if aborted {
        false
    } else if settled {
        mode == 0
    } else {
        !more && mode == 1
    }
}

/// It asks that the receiver settle second where that settles first.
fn breaks_rcv_mode(mode: u8, b: &TransferBody) -> bool
    ensures { result ≡ breaks_rcv_mode mode b.now }
{
    b.rcv_settle_mode.unwrap_or(0) == 1 && mode == 0
}

fn breaks_mode(l: &Link, b: &TransferBody) -> bool
    ensures { result ≡ breaks_mode l.now b.now }
{
    let more = b.more.unwrap_or(false);
    let aborted = b.aborted.unwrap_or(false);
    breaks_snd(l.snd_mode(), settled_now(l, b), more, aborted) || breaks_rcv_mode(l.rcv_mode(), b)
}

/// How long the payloads of the unfinished delivery are with so many octets more.
fn size_with(progress: Progress, len: u128) -> u128
    ensures { (d : Delivery) (payload : List ℕ) → IsProgressOf d progress → len ≡ length payload → result ≡ size_told (d.payload ++ unless_resumed d.resumed payload) }
{
    if progress.resumed {
        progress.size
    } else {
        progress.size.saturating_add(len)
    }
}

/// How long the payloads are together; that of a delivery that is brought in counts for nothing.
fn size_after(l: &Link, b: &TransferBody, payload: &Bytes) -> u128
    ensures { (mode : ℕ) → unwrap_or b.now.aborted false ≡ false → result ≡ size_told (next_delivery (transferred mode b.now payload.now) l.now.receiving).payload }
{
    let len = payload.len() as u128;
    match l.progress() {
        Some(progress) => size_with(progress, len),
        None => if b.resume.unwrap_or(false) { 0 } else { len },
    }
}

/// The payloads together are longer than we take; an aborted transfer adds none.
fn breaks_size(l: &Link, b: &TransferBody, payload: &Bytes) -> bool
    ensures { (mode : ℕ) → result ≡ breaks_size l.now (transferred mode b.now payload.now) }
{
    if b.aborted.unwrap_or(false) {
        return false;
    }
    is_too_long(l.longest_ours(), size_after(l, b, payload))
}

/// A first transfer meets no credit.
fn lacks_credit(l: &Link) -> bool
    ensures { result ≡ (is_none l.now.receiving && l.now.credit.credit == 0) }
{
    l.progress().is_none() && l.credit() == 0
}

/// What a transfer violates by its delivery.
pub fn delivery_violation(l: &Link, b: &TransferBody, payload: &Bytes) -> Option<Violation>
    ensures { result ≡ first_refusal (delivery_rows b.now payload.now l.now) }
{
    let link = Some(l.number());
    if breaks_mode(l, b) {
        return Some(Violation::unlinked(ViolationKind::Mode));
    }
    if lacks_credit(l) {
        return Some(Violation {
            kind: ViolationKind::Credit,
            link,
        });
    }
    if breaks_size(l, b, payload) {
        return Some(Violation {
            kind: ViolationKind::TooLong,
            link,
        });
    }
    None
}
