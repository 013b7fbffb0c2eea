//! Frames as they are sent: all on channel 0, each with its octets.
ghost use Rattle.std.specs.Prelude.{ℕ, Option, ◌≡◌, ◌∷◌, ◌++◌, IfOk, MatchResult, [], option_map, option_to_list};
ghost use Rattle.amqp_steps.specs.Plan.{octets_sent};
ghost use Rattle.amqp_steps.specs.Written.{Writes};
ghost use Rattle.amqp_frames.specs.Measuring.{Measures};
ghost use Rattle.amqp_rules.specs.Sending.{told, frame_of, frame_refused, sent_of};

use crate::cutting::Cutter;
use amqp_frames::{
    Frame, FrameRefusal, Measured, Performative, append_frame, append_head, frame_refusal,
};
use amqp_rules::refusal::Refusal;
use amqp_rules::reply::Sent;
use amqp_rules::sliced::Sliced;
use amqp_types::Items;
use bytes::Bytes;
use std::alloc::{AllocError, Global};
use std::marker::Model;

/// A frame that is sent, with its octets: where it stays, alone in its list, and one handle more of the octets. Contracts see it as the frame.
#[derive(Drop)]
pub struct Written {
    list: Items<Sent>,
    octets: Sliced,
}

impl Model for Written {
    ghost use Rattle.std.specs.Coded.{codes};
    ghost use Rattle.amqp_types.specs.contracts.value.Value as value;
    ghost use Rattle.amqp_rules.specs.declared.reply.Sent.{Sent};
    ghost use Rattle.amqp_steps.specs.Written.{IsAlone, first_of};

    ghost Value = { Sent };

    ghost coded = { Prim.hlevel (codes, value.the_row.coded) };

    ghost view = { λ w. first_of w.list };

    ghost invariant = { λ w. IsAlone w.list w.octets };
}

/// The frame with its octets moves to where it stays; `handle` is one more of these.
#[inline(always)]
fn keep_frame(
    alloc: Global,
    frame: Frame,
    bytes: Sliced,
    handle: Sliced,
) -> Result<Written, Refusal>
    requires { handle ≡ bytes }
    ensures { MatchResult result (λ w. w ≡ record { frame = frame; bytes = bytes }) (λ e. e ≡ Refusal.NoMemory) }
{
    match Vec::with_capacity(alloc, 1) {
        Ok(mut items) => {
            items.push_reserved(Sent { frame, bytes });
            Ok(Written {
                list: Items { items },
                octets: handle,
            })
        }
        Err(_) => {
            drop(handle);
            drop(bytes);
            drop(frame);
            Err(Refusal::NoMemory)
        }
    }
}

/// The frame with all its octets in one slice.
#[inline(always)]
fn keep_short(alloc: Global, frame: Frame, octets: Bytes) -> Result<Written, Refusal>
    ensures { MatchResult result (λ w. w ≡ record { frame = frame; bytes = octets }) (λ e. e ≡ Refusal.NoMemory) }
{
    match octets.clone() {
        Ok(handle) => keep_frame(alloc, frame, Sliced::one(octets), Sliced::one(handle)),
        Err(_) => {
            drop(octets);
            drop(frame);
            Err(Refusal::NoMemory)
        }
    }
}

/// The frame with the octets in front of its payload, and behind them that, which is shared.
fn keep_long(alloc: Global, frame: Frame, head: Bytes) -> Result<Written, Refusal>
    ensures { MatchResult result (λ w. w ≡ record { frame = frame; bytes = head ++ frame.payload }) (λ e. e ≡ Refusal.NoMemory) }
{
    match beside(alloc, head, &frame.payload) {
        Ok((bytes, handle)) => keep_frame(alloc, frame, bytes, handle),
        Err(_) => {
            drop(frame);
            Err(Refusal::NoMemory)
        }
    }
}

/// The octets, and behind them the payload, which is shared; and one handle more of both.
fn beside(alloc: Global, head: Bytes, payload: &Bytes) -> Result<(Sliced, Sliced), AllocError>
    ensures { IfOk result (λ both. (both.0 ≡ head ++ payload.now) × (both.1 ≡ both.0)) }
{
    let bytes = match payload.clone() {
        Ok(rest) => Sliced::two(alloc, head, rest)?,
        Err(error) => {
            drop(head);
            return Err(error);
        }
    };
    match bytes.clone() {
        Ok(handle) => Ok((bytes, handle)),
        Err(error) => {
            drop(bytes);
            Err(error)
        }
    }
}

fn told_refusal(fault: Option<FrameRefusal>) -> Option<Refusal>
    ensures { result ≡ option_map told fault }
{
    match fault {
        None => None,
        Some(fault) => Some(Refusal::from(fault)),
    }
}

/// Why a frame is not sent to a peer that takes frames of `max` octets, want of memory aside. It asks for no memory.
pub fn sending_refusal(body: Option<Performative>, payload: &[u8], max: u32) -> Option<Refusal>
    ensures { result ≡ frame_refused max body payload.now }
{
    let fault = frame_refusal(0, &body, payload, max);
    drop(body);
    told_refusal(fault)
}

/// Why a frame without a payload is not sent that measures so.
pub fn measured_refusal(measured: Result<Measured, FrameRefusal>) -> Option<Refusal>
    ensures { (max : ℕ) (body : Option Performative) → Measures measured (frame_of body []) max → result ≡ frame_refused max body [] }
{
    told_refusal(measured.err())
}

/// The frame with its octets, for a peer that takes frames of `max` octets. Memory is asked for once no other refusal is due.
pub fn write(
    alloc: Global,
    body: Option<Performative>,
    payload: Bytes,
    max: u32,
) -> Result<Written, Refusal>
    ensures { Writes max body payload (sent_of body payload) result }
{
    let frame = Frame {
        channel: 0,
        body,
        payload,
    };
    let mut octets = Vec::new(alloc);
    match append_frame(&frame, max, &mut octets) {
        Ok(()) => {
            let Ok(bytes) = Bytes::from_vec(octets) else {
                drop(frame);
                return Err(Refusal::NoMemory);
            };
            keep_short(alloc, frame, bytes)
        }
        Err(fault) => {
            drop(frame);
            Err(Refusal::from(fault))
        }
    }
}

/// A frame whose payload has more octets than these has a block of its own.
const SHORT: usize = 512;

/// A payload of more octets than these is sent from where it stands.
const LONG: usize = 4096;

/// As `write`, with the octets out of the cutter's block.
fn write_cut(
    alloc: Global,
    cutter: &mut Cutter,
    body: Option<Performative>,
    payload: Bytes,
    max: u32,
) -> Result<Written, Refusal>
    ensures { Writes max body payload (sent_of body payload) result }
{
    let frame = Frame {
        channel: 0,
        body,
        payload,
    };
    cutter.draft.clear();
    match append_frame(&frame, max, &mut cutter.draft) {
        Ok(()) => {
            let Ok(octets) = cutter.cut() else {
                drop(frame);
                return Err(Refusal::NoMemory);
            };
            keep_short(alloc, frame, octets)
        }
        Err(fault) => {
            drop(frame);
            Err(Refusal::from(fault))
        }
    }
}

/// As `write`, with the octets in front of a transfer's payload out of the cutter's block, and the payload where it stands.
#[inline(never)]
fn write_long(
    alloc: Global,
    cutter: &mut Cutter,
    body: Option<Performative>,
    payload: Bytes,
    max: u32,
) -> Result<Written, Refusal>
    ensures { Writes max body payload (sent_of body payload) result }
{
    let frame = Frame {
        channel: 0,
        body,
        payload,
    };
    cutter.draft.clear();
    let Some(answer) = append_head(&frame, max, &mut cutter.draft) else {
        let Frame { body, payload, .. } = frame;
        return write(alloc, body, payload, max);
    };
    match answer {
        Ok(()) => {
            let Ok(head) = cutter.cut() else {
                drop(frame);
                return Err(Refusal::NoMemory);
            };
            keep_long(alloc, frame, head)
        }
        Err(fault) => {
            drop(frame);
            Err(Refusal::from(fault))
        }
    }
}

/// As `write_sharing`, with the octets of a short frame out of the cutter's block, and a long payload where it stands.
pub fn cut_sharing(
    alloc: Global,
    cutter: &mut Cutter,
    body: Option<Performative>,
    payload: &Bytes,
    max: u32,
) -> Result<Written, Refusal>
    ensures { Writes max body payload.now (sent_of body payload.now) result }
{
    let Ok(handle) = payload.clone() else {
        return Err(sending_refusal(body, payload, max).unwrap_or(Refusal::NoMemory));
    };
    if LONG < payload.len() {
        return write_long(alloc, cutter, body, handle, max);
    }
    if SHORT < payload.len() {
        return write(alloc, body, handle, max);
    }
    write_cut(alloc, cutter, body, handle, max)
}

/// As `write`, of a frame that carries this payload, of which it takes a handle. Where there is none, what the frame is refused for comes first.
pub fn write_sharing(
    alloc: Global,
    body: Option<Performative>,
    payload: &Bytes,
    max: u32,
) -> Result<Written, Refusal>
    ensures { Writes max body payload.now (sent_of body payload.now) result }
{
    if let Ok(handle) = payload.clone() {
        return write(alloc, body, handle, max);
    }
    Err(sending_refusal(body, payload, max).unwrap_or(Refusal::NoMemory))
}

impl Written {
    /// The list of it alone, and a handle of its octets.
    pub(crate) fn listed(self) -> (Items<Sent>, Sliced)
        ensures list { result.0 ≡ self ∷ [] }
        ensures octets { result.1 ≡ self.bytes }
    {
        let Written { list, octets } = self;
        (list, octets)
    }
}

/// The frame that is sent, if there is one, and a handle of its octets.
pub fn list_sent(alloc: Global, sent: Option<Written>) -> (Items<Sent>, Option<Sliced>)
    ensures list { result.0 ≡ option_to_list sent }
    ensures octets { result.1 ≡ octets_sent sent }
{
    match sent {
        None => (Items::new(alloc), None),
        Some(sent) => {
            let (list, octets) = sent.listed();
            (list, Some(octets))
        }
    }
}
