//! The text of an answer.
ghost use Rattle.std.specs.Prelude.{◌≤◌, length};

use amqp_deliveries::{HeldItem, Parts};
use amqp_endpoint::endpoint::Endpoint;
use amqp_endpoint::refusal::Refusal;
use amqp_endpoint::reply::{Given, Learned, Reply, Resumed, Sent, Suspended, Taken};
use amqp_endpoint::status::{LinkPhase, LinkStatus, WindowView};
use amqp_endpoint::violation::ViolationKind;
use amqp_frames::{DeliveryState, Role};
use amqp_rules::sliced::Sliced;
use amqp_types::{Items, Tag};
use amqp_waiting::{SuspendedItem, Verdict};
use std::fmt;
use std::fmt::{Formatter, Write};

/// The answer to a line; its text has no newline.
#[derive(Drop)]
pub enum Answer<'a> {
    /// The step was taken, with this reply.
    Stepped(&'a Reply),
    Refused(Refusal),
    Violated(ViolationKind),
    Windows(WindowView),
    /// The link with this number, if there is one.
    Link(u32, Option<LinkStatus>),
    /// The unsettled deliveries of this role of ours.
    Held(&'a Endpoint, Role),
    /// The deliveries that wait on the link with this number.
    Waiting(&'a Endpoint, u32),
    BadLine,
}

impl fmt::Display for Answer<'_> {
    fn fmt<W: Write>(&self, f: &mut Formatter<W>) -> fmt::Result {
        match self {
            Answer::Stepped(reply) => write_reply(reply, f),
            Answer::Refused(refusal) => write!(f, "refused {}", refusal.number()),
            Answer::Violated(kind) => write!(f, "violation {}", kind.number()),
            Answer::Windows(windows) => write_windows(windows, f),
            Answer::Link(link, None) => write!(f, "link {link} none"),
            Answer::Link(link, Some(status)) => write_link(*link, status, f),
            Answer::Held(endpoint, role) => write_held(endpoint, *role, f),
            Answer::Waiting(endpoint, link) => write_waiting(endpoint, *link, f),
            Answer::BadLine => f.write_str("bad line"),
        }
    }
}

fn write_reply<W: Write>(reply: &Reply, f: &mut Formatter<W>) -> fmt::Result {
    f.write_str("ok given=")?;
    write_given(&reply.given, f)?;
    f.write_str(" ended=")?;
    write_ended(reply.ended.items.as_slice(), f)?;
    f.write_str(" frames=")?;
    write_frames(&reply.sent, f)
}

/// What a step gives, in a word.
pub fn write_given<W: Write>(given: &Given, f: &mut Formatter<W>) -> fmt::Result {
    match given {
        Given::Nothing => f.write_str("none"),
        Given::Link(link) => write!(f, "link:{link}"),
        Given::Offered(link) => write!(f, "offered:{link}"),
        Given::Attached(link) => write!(f, "attached:{link}"),
        Given::Gone(link) => write!(f, "gone:{link}"),
        Given::Delivery(id) => write!(f, "delivery:{id}"),
        Given::Ready(link, id) => write!(f, "ready:{link}:{id}"),
        Given::Taken(taken) => write_taken(taken.get(), f),
        Given::Learned(learned) => write_learned(learned.get(), f),
        Given::Suspended(aside) => {
            f.write_str("suspended:")?;
            write_aside(aside.get(), f)
        }
        Given::Parted(link, aside) => {
            write!(f, "parted:{link}:")?;
            write_aside(aside.get(), f)
        }
        Given::Resumed(resumed) => write_resumed(resumed.get(), f),
    }
}

fn write_taken<W: Write>(taken: &Taken, f: &mut Formatter<W>) -> fmt::Result {
    write!(f, "taken:{}:", taken.id)?;
    write_octets(taken.tag.octets(), f)?;
    f.write_str(":")?;
    write_payload(&taken.payload, f)
}

fn write_learned<W: Write>(learned: &Learned, f: &mut Formatter<W>) -> fmt::Result {
    let state = state_word(&learned.state);
    let settled = u8::from(learned.settled);
    write!(f, "learned:{}:{state}:{settled}", learned.id)
}

/// The tag and our state of each delivery that was put aside, or `-` for none.
fn write_aside<W: Write>(aside: &Suspended, f: &mut Formatter<W>) -> fmt::Result {
    if aside.items.items.is_empty() {
        return f.write_str("-");
    }
    for (place, item) in aside.items.items.iter().enumerate() {
        if place > 0 {
            f.write_str(",")?;
        }
        write_item_aside(item, f)?;
    }
    Ok(())
}

fn write_item_aside<W: Write>(item: &SuspendedItem, f: &mut Formatter<W>) -> fmt::Result {
    write_octets(item.tag.octets(), f)?;
    let state = state_word(&item.state);
    write!(f, ":{state}")
}

/// What became of a delivery that was resumed, its id and the outcome that the peer told.
fn write_resumed<W: Write>(resumed: &Resumed, f: &mut Formatter<W>) -> fmt::Result {
    write!(f, "resumed:{}:", verdict_word(resumed.verdict))?;
    match resumed.id {
        Some(id) => write!(f, "{id}")?,
        None => f.write_str("-")?,
    }
    let state = state_word(&resumed.state);
    write!(f, ":{state}")
}

/// `s` or `r` for our role and the id, for each delivery.
fn write_ended<W: Write>(ended: &[(Role, u32)], f: &mut Formatter<W>) -> fmt::Result {
    if ended.is_empty() {
        return f.write_str("-");
    }
    for (place, (role, id)) in ended.iter().enumerate() {
        if place > 0 {
            f.write_str(",")?;
        }
        match role {
            Role::Sender => write!(f, "s{id}")?,
            Role::Receiver => write!(f, "r{id}")?,
        }
    }
    Ok(())
}

fn write_frames<W: Write>(sent: &Items<Sent>, f: &mut Formatter<W>) -> fmt::Result {
    if sent.items.is_empty() {
        return f.write_str("-");
    }
    for (place, frame) in sent.items.iter().enumerate() {
        if place > 0 {
            f.write_str(",")?;
        }
        write_sliced(&frame.bytes, f)?;
    }
    Ok(())
}

/// Octets in hexadecimal, slice by slice.
pub fn write_sliced<W: Write>(octets: &Sliced, f: &mut Formatter<W>) -> fmt::Result {
    let (head, rest) = octets.slices();
    write_hex(head, f)?;
    write_hex(rest, f)
}

/// Hexadecimal, or `-` for no octets.
fn write_octets<W: Write>(octets: &[u8], f: &mut Formatter<W>) -> fmt::Result {
    if octets.is_empty() {
        return f.write_str("-");
    }
    write_hex(octets, f)
}

/// The same, slice by slice.
fn write_payload<W: Write>(payload: &Parts, f: &mut Formatter<W>) -> fmt::Result {
    let mut from = 0;
    for _ in 0..u64::MAX {
        let slice = payload.slice_from(from);
        if slice.is_empty() {
            break;
        }
        write_hex(slice, f)?;
        from = from.saturating_add(slice.len() as u64);
    }
    if from == 0 {
        return f.write_str("-");
    }
    Ok(())
}

/// How many octets are written at a time.
const PIECE: usize = 64;

/// Lower case hexadecimal, a piece at a time, which takes no memory.
pub fn write_hex<W: Write>(octets: &[u8], f: &mut Formatter<W>) -> fmt::Result {
    let mut rest = octets;
    while !rest.is_empty() {
        let (piece, others) = rest.split_at(rest.len().min(PIECE));
        write_piece(piece, f)?;
        rest = others;
    }
    Ok(())
}

fn write_piece<W: Write>(piece: &[u8], f: &mut Formatter<W>) -> fmt::Result
    requires { length piece.now ≤ PIECE }
{
    let mut digits = [0u8; 2 * PIECE];
    let written = &mut digits[..2 * piece.len()];
    match hex::encode_to_slice(piece, written) {
        Ok(()) => {}
        Err(_) => unreachable!(),
    }
    match std::str::from_utf8(written) {
        Ok(text) => f.write_str(text),
        Err(_) => Err(fmt::Error),
    }
}

fn write_windows<W: Write>(windows: &WindowView, f: &mut Formatter<W>) -> fmt::Result {
    f.write_str("windows next-in=")?;
    match windows.next_in {
        Some(id) => write!(f, "{id}")?,
        None => f.write_str("-")?,
    }
    write!(
        f,
        " in={} next-out={} remote-in={} remote-out={} delivery={}",
        windows.incoming,
        windows.next_out,
        windows.remote_in,
        windows.remote_out,
        windows.next_delivery
    )
}

fn write_link<W: Write>(link: u32, status: &LinkStatus, f: &mut Formatter<W>) -> fmt::Result {
    let role = role_word(status.role);
    let phase = phase_word(status.phase);
    write!(f, "link {link} role={role} phase={phase}")?;
    write!(f, " count={} credit={}", status.count, status.credit)?;
    let drain = u8::from(status.drain);
    let mid = u8::from(status.mid);
    write!(f, " drain={drain} mid={mid} ready={}", status.ready)
}

/// What we told of each delivery and what the peer did, in the order of their ids.
fn write_held<W: Write>(endpoint: &Endpoint, role: Role, f: &mut Formatter<W>) -> fmt::Result {
    f.write_str("held ")?;
    for place in 0..endpoint.unsettled_len(role) {
        if place > 0 {
            f.write_str(",")?;
        }
        if let Some(item) = endpoint.unsettled_at(role, place) {
            write_item(item, f)?;
        }
    }
    if endpoint.unsettled_len(role) == 0 {
        f.write_str("-")?;
    }
    Ok(())
}

/// The tag of each delivery that waits, and what becomes of it, in order.
fn write_waiting<W: Write>(endpoint: &Endpoint, link: u32, f: &mut Formatter<W>) -> fmt::Result {
    let Some((tag, verdict)) = endpoint.waiting_at(link, 0) else {
        return f.write_str("waiting -");
    };
    f.write_str("waiting ")?;
    write_verdict(tag, verdict, f)?;
    for place in 1..usize::MAX {
        let Some((tag, verdict)) = endpoint.waiting_at(link, place) else {
            return Ok(());
        };
        f.write_str(",")?;
        write_verdict(tag, verdict, f)?;
    }
    Ok(())
}

fn write_verdict<W: Write>(tag: &Tag, verdict: Verdict, f: &mut Formatter<W>) -> fmt::Result {
    write_octets(tag.octets(), f)?;
    write!(f, ":{}", verdict_word(verdict))
}

fn write_item<W: Write>(item: &HeldItem, f: &mut Formatter<W>) -> fmt::Result {
    let ours = state_word(&item.local);
    let heard = state_word(&item.remote);
    write!(f, "{}:{}:{ours}:{heard}", item.id, item.link)
}

fn state_word(state: &Option<DeliveryState>) -> &'static str {
    match state {
        None => "-",
        Some(DeliveryState::Received { .. }) => "received",
        Some(DeliveryState::Accepted) => "accepted",
        Some(DeliveryState::Rejected(_)) => "rejected",
        Some(DeliveryState::Released) => "released",
        Some(DeliveryState::Modified { .. }) => "modified",
        Some(DeliveryState::Other(_)) => "other",
    }
}

fn verdict_word(verdict: Verdict) -> &'static str {
    match verdict {
        Verdict::Unclear => "unclear",
        Verdict::Absent => "absent",
        Verdict::Partial => "partial",
        Verdict::Held => "held",
        Verdict::Outcome => "outcome",
    }
}

fn role_word(role: Role) -> &'static str {
    match role {
        Role::Sender => "sender",
        Role::Receiver => "receiver",
    }
}

fn phase_word(phase: LinkPhase) -> &'static str {
    match phase {
        LinkPhase::Asked => "asked",
        LinkPhase::Offered => "offered",
        LinkPhase::Attached => "attached",
        LinkPhase::Leaving => "leaving",
    }
}
