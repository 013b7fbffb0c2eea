//! Reads what follows a frame header: nothing, or a performative and a transfer's payload (part 2, 2.3.2).
ghost use Rattle.std.specs.Prelude.{◌≡◌, ◌≤◌, ◌<◌, ◌-◌, ◌↔◌, ◌++◌, ℕ, List, Ok, IsTrue, IfOk, MatchResult, length, take, drop};
ghost use Rattle.amqp_performatives.specs.declared.performative.Performative.{Performative};
ghost use Rattle.amqp_frames.specs.Framing.{is_transfer, MayFollow, AreContents};
ghost use Rattle.amqp_performatives.specs.Spelling.{IsPerformative};
ghost use Rattle.amqp_decoder.specs.Slots.{LeavesFront};
ghost use Rattle.amqp_frames.specs.Contents.{AreNoContents, BeginsWithPerformative};
ghost use Rattle.amqp_frames.specs.Slots.{holds_transfer};
ghost use Rattle.std.specs.Bool.{OnTrue};

use crate::fault::FrameFault;
use crate::frame::Frame;
use crate::octets::Octets;
use amqp_decoder::{BodyFault, read_performative_into};
use amqp_halves::find_performative;
use amqp_performatives::{Composite, Performative};
use amqp_types::{Descriptor, read_descriptor, skip_value};
use bytes::Bytes;
use std::alloc::Global;

/// Reads the contents between two places in the octets into the slot; `piece` is the slice of the octets.
///
/// An octet after a performative that is not a transfer is a fault, even if memory runs out. After an error the slot
/// may hold anything.
#[inline(always)]
pub(crate) fn read_contents(
    alloc: Global,
    channel: u16,
    piece: &[u8],
    octets: &Octets<'_>,
    start: usize,
    end: usize,
    slot: &mut Frame,
) -> Result<(), FrameFault>
    requires same { piece.now ≡ octets.now }
    requires order { start ≤ end }
    requires within { end ≤ length octets.now }
    ensures { MatchResult result (λ _. (slot.new.channel ≡ channel) × AreContents slot.new.body slot.new.payload (take (end - start) (drop start octets.now))) (λ fault. AreNoContents fault (take (end - start) (drop start octets.now))) }
{
    let contents = &piece[start..end];
    slot.channel = channel;
    if contents.is_empty() {
        slot.body = None;
        slot.payload = Bytes::new();
        return Ok(());
    }
    match read_performative_into(alloc, contents, &mut slot.body) {
        Ok(size) => read_payload(alloc, octets, start, end, size, slot),
        Err(BodyFault::NoBody) => Err(FrameFault::BadBody),
        Err(BodyFault::NoMemory) => Err(if may_follow(contents) {
            FrameFault::NoMemory
        } else {
            FrameFault::BadBody
        }),
    }
}

/// Reads the payload behind the performative in the slot, which is `size` octets long.
#[inline(always)]
fn read_payload(
    alloc: Global,
    octets: &Octets<'_>,
    start: usize,
    end: usize,
    size: usize,
    slot: &mut Frame,
) -> Result<(), FrameFault>
    requires within { end ≤ length octets.now }
    requires order { start ≤ end }
    requires spelled { size ≤ end - start }
    requires front { LeavesFront (take (end - start) (drop start octets.now)) (Ok size) slot.old.body }
    ensures { MatchResult result (λ _. (slot.new.channel ≡ slot.old.channel) × AreContents slot.new.body slot.new.payload (take (end - start) (drop start octets.now))) (λ fault. AreNoContents fault (take (end - start) (drop start octets.now))) }
{
    if start + size == end {
        slot.payload = Bytes::new();
        return Ok(());
    }
    if !holds_transfer(&slot.body) {
        return Err(FrameFault::BadBody);
    }
    match octets.part_into(alloc, start + size, end, &mut slot.payload) {
        Ok(()) => Ok(()),
        Err(_) => Err(FrameFault::NoMemory),
    }
}

/// Reads a frame whose contents lie in two places: a transfer's performative in `head`, and the payload in the octets
/// up to `end`. Returns whether it did. If `head` is anything else, or memory runs out, the slot may hold anything.
pub(crate) fn read_behind(
    alloc: Global,
    channel: u16,
    head: &[u8],
    octets: &Octets<'_>,
    end: usize,
    slot: &mut Frame,
) -> bool
    requires { end ≤ length octets.now }
    ensures { OnTrue result ((slot.new.channel ≡ channel) × AreContents slot.new.body slot.new.payload (head.now ++ take end octets.now)) }
{
    let Ok(size) = read_performative_into(alloc, head, &mut slot.body) else {
        return false;
    };
    if size != head.len() {
        return false;
    }
    if !holds_transfer(&slot.body) {
        return false;
    }
    slot.channel = channel;
    octets.part_into(alloc, 0, end, &mut slot.payload).is_ok()
}

#[inline(always)]
fn holds_transfer(body: &Option<Performative>) -> bool
    ensures { result ≡ holds_transfer body.now }
{
    matches!(body, Some(Performative::Transfer(_)))
}

/// Returns whether the octets behind the first performative may follow it. It does not allocate, and is called only
/// after an allocation failed.
fn may_follow(octets: &[u8]) -> bool
    requires { BeginsWithPerformative octets.now }
    ensures { (p : Performative) (x rest : List ℕ) → IsPerformative p x → octets.now ≡ x ++ rest → IsTrue result ↔ MayFollow rest p }
{
    names_transfer(octets) || skip_value(octets) == Some(octets.len())
}

fn names_transfer(octets: &[u8]) -> bool
    ensures { (p : Performative) (x rest : List ℕ) → IsPerformative p x → octets.now ≡ x ++ rest → result ≡ is_transfer p }
{
    match read_descriptor(octets) {
        Some((Descriptor::Number(number), _)) => number == u64::from(Composite::Transfer.number()),
        Some((Descriptor::Name(name), _)) => name == Composite::Transfer.name(),
        None => false,
    }
}

/// Returns the fault of contents that lie in two places and that there is no memory to join. It reads them in place.
#[inline(never)]
pub(crate) fn front_fault(octets: &[u8], others: &[u8]) -> FrameFault
    requires { 0 < length octets.now }
    ensures { AreNoContents result (octets.now ++ others.now) }
{
    let Some(found) = find_performative(octets, others) else {
        return FrameFault::BadBody;
    };
    if found.is_transfer {
        return FrameFault::NoMemory;
    }
    if found.used == octets.len() + others.len() {
        return FrameFault::NoMemory;
    }
    FrameFault::BadBody
}
