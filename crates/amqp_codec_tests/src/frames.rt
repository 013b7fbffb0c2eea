//! What no clause says: octets of known frames, and each call once. A frame is owned by the helper that reads or makes it, and lent to what looks at
//! it: a test holds octets and answers alone. A call that is refused memory is made `again` in tests of growths alone.

use amqp_decoder::{BodyFault, read_performative};
use amqp_frames::*;
use amqp_types::{Boxed, Items, Text, Value};
use bytes::Bytes;
use std::alloc::{AllocError, Global};

const UNFAIR: Option<FrameRefusal> = Some(FrameRefusal::NotWritable);

/// A transfer of a delivery with the payload of one data section.
pub(crate) const T: &[u8] =
    b"\x00\x00\x00\x1b\x02\x00\x00\x00\x00\x53\x14\xc0\x07\x04\x43\x43\xa0\x01\x00\x43\x00\x53\x75\xa0\x02\x68\x69";

/// A frame of each performative with all its fields, and of each delivery state; those that own memory too. A flow without properties, and an
/// empty frame.
pub(crate) const EACH: &[&[u8]] = &[
    T,
    b"\x00\x00\x00\x37\x02\x00\x00\x00\x00\x53\x10\xc0\x2a\x0a\xa1\x01\x61\xa1\x01\x62\x70\x00\x01\x00\x00\x60\x00\x00\x70\x00\x00\x03\xe8\xa3\x02\x65\
        \x6e\xa3\x02\x65\x6e\xa3\x01\x78\xa3\x01\x79\xc1\x06\x02\xa3\x01\x61\x52\x01",
    b"\x00\x00\x00\x2c\x02\x00\x00\x00\x00\x53\x11\xc0\x1f\x08\x60\x00\x00\x43\x70\x00\x00\x08\x00\x70\x00\x00\x08\x00\x52\x07\xa3\x01\x78\xa3\x01\x79\
        \xc1\x06\x02\xa3\x01\x61\x52\x01",
    b"\x00\x00\x00\x3c\x02\x00\x00\x00\x00\x53\x12\xc0\x2f\x0e\xa1\x01\x71\x43\x41\x50\x02\x50\x00\x00\x53\x28\x45\x00\x53\x29\xc0\x04\x01\xa1\x01\x71\
        \xc1\x05\x02\xa0\x01\x74\x40\x41\x43\x44\xa3\x01\x78\xa3\x01\x79\xc1\x06\x02\xa3\x01\x61\x52\x01",
    b"\x00\x00\x00\x2b\x02\x00\x00\x00\x00\x53\x13\xc0\x1e\x0b\x52\x01\x70\x00\x00\x08\x00\x43\x70\x00\x00\x08\x00\x43\x52\x03\x52\x09\x43\x41\x42\xc1\
        \x06\x02\xa3\x01\x61\x52\x01",
    b"\x00\x00\x00\x2d\x02\x00\x00\x00\x00\x53\x14\xc0\x19\x0b\x43\x52\x01\xa0\x01\x74\x43\x42\x41\x50\x01\x00\x53\x23\xc0\x05\x02\x52\x01\x53\x02\x42\
        \x42\x41\x00\x53\x75\xa0\x02\x68\x69",
    b"\x00\x00\x00\x18\x02\x00\x00\x00\x00\x53\x15\xc0\x0b\x06\x41\x43\x52\x01\x41\x00\x53\x24\x45\x41",
    b"\x00\x00\x00\x3c\x02\x00\x00\x00\x00\x53\x15\xc0\x2f\x05\x41\x43\x40\x40\x00\x53\x25\xc0\x25\x01\x00\x53\x1d\xc0\x1f\x03\xa3\x0e\x61\x6d\x71\x70\
        \x3a\x6e\x6f\x74\x2d\x66\x6f\x75\x6e\x64\xa1\x04\x67\x6f\x6e\x65\xc1\x06\x02\xa3\x01\x61\x52\x01",
    b"\x00\x00\x00\x16\x02\x00\x00\x00\x00\x53\x15\xc0\x09\x05\x42\x43\x40\x40\x00\x53\x26\x45",
    b"\x00\x00\x00\x22\x02\x00\x00\x00\x00\x53\x15\xc0\x15\x05\x41\x43\x40\x40\x00\x53\x27\xc0\x0b\x03\x41\x42\xc1\x06\x02\xa3\x01\x61\x52\x01",
    b"\x00\x00\x00\x1b\x02\x00\x00\x00\x00\x53\x15\xc0\x0e\x05\x41\x43\x40\x40\x00\x53\x34\xc0\x04\x01\xa0\x01\x74",
    b"\x00\x00\x00\x34\x02\x00\x00\x00\x00\x53\x16\xc0\x27\x03\x43\x41\x00\x53\x1d\xc0\x1f\x03\xa3\x0e\x61\x6d\x71\x70\x3a\x6e\x6f\x74\x2d\x66\x6f\x75\
        \x6e\x64\xa1\x04\x67\x6f\x6e\x65\xc1\x06\x02\xa3\x01\x61\x52\x01",
    b"\x00\x00\x00\x32\x02\x00\x00\x00\x00\x53\x17\xc0\x25\x01\x00\x53\x1d\xc0\x1f\x03\xa3\x0e\x61\x6d\x71\x70\x3a\x6e\x6f\x74\x2d\x66\x6f\x75\x6e\x64\
        \xa1\x04\x67\x6f\x6e\x65\xc1\x06\x02\xa3\x01\x61\x52\x01",
    b"\x00\x00\x00\x32\x02\x00\x00\x00\x00\x53\x18\xc0\x25\x01\x00\x53\x1d\xc0\x1f\x03\xa3\x0e\x61\x6d\x71\x70\x3a\x6e\x6f\x74\x2d\x66\x6f\x75\x6e\x64\
        \xa1\x04\x67\x6f\x6e\x65\xc1\x06\x02\xa3\x01\x61\x52\x01",
    b"\x00\x00\x00\x1e\x02\x00\x00\x00\x00\x53\x13\xc0\x11\x07\x43\x70\x00\x00\x08\x00\x43\x70\x7f\xff\xff\xff\x43\x43\x52\x05",
    b"\x00\x00\x00\x08\x02\x00\x00\x00",
];

/// Octets of frames, how long a frame may be, how long what is written for it is, and whether it is these octets.
const WRITTEN: &[(&[u8], u32, Result<(usize, bool), FrameRefusal>)] = &[
    (T, 27, Ok((27, true))),
    (T, 26, Err(FrameRefusal::FrameTooBig)),
    // frames of a session
    (
        b"\x00\x00\x00\x1c\x02\x00\x00\x00\x00\x53\x11\xc0\x0f\x04\x60\x00\x00\x43\x70\x00\x00\x08\x00\x70\x7f\xff\xff\xff",
        65536,
        Ok((28, true)),
    ),
    (
        b"\x00\x00\x00\x1c\x02\x00\x00\x00\x00\x53\x12\xc0\x0f\x0a\xa1\x01\x71\x43\x42\x50\x02\x50\x00\x40\x40\x40\x40\x43",
        65536,
        Ok((28, true)),
    ),
    (
        b"\x00\x00\x00\x1e\x02\x00\x00\x00\x00\x53\x13\xc0\x11\x07\x43\x70\x00\x00\x08\x00\x43\x70\x7f\xff\xff\xff\x43\x43\x52\x05",
        65536,
        Ok((30, true)),
    ),
    (T, 65536, Ok((27, true))),
    // frames of a connection
    (
        b"\x00\x00\x00\x1a\x02\x00\x00\x00\x00\x53\x10\xc0\x0d\x04\xa1\x01\x61\x40\x70\x00\x01\x00\x00\x60\x00\x00",
        65536,
        Ok((26, true)),
    ),
    (
        b"\x00\x00\x00\x1a\x02\x00\x00\x00\x00\x53\x11\xc0\x0d\x04\x40\x43\x70\x00\x00\x08\x00\x70\x7f\xff\xff\xff",
        65536,
        Ok((26, true)),
    ),
    (
        b"\x00\x00\x00\x13\x02\x00\x00\x00\x00\x53\x12\xc0\x06\x03\xa1\x01\x71\x43\x41",
        65536,
        Ok((19, true)),
    ),
    // endings
    (
        b"\x00\x00\x00\x10\x02\x00\x00\x00\x00\x53\x15\xc0\x03\x02\x41\x43",
        65536,
        Ok((16, true)),
    ),
    (
        b"\x00\x00\x00\x10\x02\x00\x00\x00\x00\x53\x16\xc0\x03\x02\x43\x41",
        65536,
        Ok((16, true)),
    ),
    (
        b"\x00\x00\x00\x0c\x02\x00\x00\x00\x00\x53\x17\x45",
        65536,
        Ok((12, true)),
    ),
    (
        b"\x00\x00\x00\x0c\x02\x00\x00\x00\x00\x53\x18\x45",
        65536,
        Ok((12, true)),
    ),
    (b"\x00\x00\x00\x08\x02\x00\x00\x00", 65536, Ok((8, true))),
    // a name in place of a number, and an extended header: the frame is written anew in its canonical form
    (
        b"\x00\x00\x00\x1b\x02\x00\x00\x00\x00\xa3\x0f\x61\x6d\x71\x70\x3a\x63\x6c\x6f\x73\x65\x3a\x6c\x69\x73\x74\x45",
        65536,
        Ok((12, false)),
    ),
    (
        b"\x00\x00\x00\x10\x03\x00\x00\x00\x01\x02\x03\x04\x00\x53\x17\x45",
        65536,
        Ok((12, false)),
    ),
    // a name of 256 octets: its size and the list's take four
    (
        b"\x00\x00\x01\x1b\x02\x00\x00\x00\x00\x53\x12\xd0\x00\x00\x01\x0b\x00\x00\x00\x03\xb1\x00\x00\x01\x00\
            qqqqqqqqqqqqqqqqqqqqqqqqqqqqqqqqqqqqqqqqqqqqqqqqqqqqqqqqqqqqqqqqqqqqqqqqqqqqqqqqqqqqqqqqqqqqqqqqqqqqqqqqqqqqqqqqqqqqqqqqqqqqqqqq\
            qqqqqqqqqqqqqqqqqqqqqqqqqqqqqqqqqqqqqqqqqqqqqqqqqqqqqqqqqqqqqqqqqqqqqqqqqqqqqqqqqqqqqqqqqqqqqqqqqqqqqqqqqqqqqqqqqqqqqqqqqqqqqqqq\x43\x41",
        65536,
        Ok((283, true)),
    ),
];

/// How long what is written for the frame is, and whether it is these octets.
fn compared(
    alloc: Global,
    frame: &Frame,
    octets: &[u8],
    max: u32,
) -> Result<(usize, bool), FrameRefusal> {
    match write_frame(alloc, frame, max) {
        Ok(again) => Ok((again.len(), again.as_slice() == octets)),
        Err(refusal) => Err(refusal),
    }
}

/// The same of the frame that these octets are.
fn written(alloc: Global, octets: &[u8], max: u32) -> Result<(usize, bool), FrameRefusal> {
    let mut framer = Framer::new(alloc, 65536);
    match framer.feed(octets) {
        Ok((_, Some(frame))) => {
            let answer = compared(alloc, &frame, octets, max);
            drop(frame);
            answer
        }
        _ => Err(FrameRefusal::NoMemory),
    }
}

#[test]
fn frames(rt: HostRuntime) {
    for (octets, max, due) in WRITTEN {
        assert!(rt; written(rt.alloc(), octets, *max) == *due);
    }
}

fn writes(alloc: Global, frame: &Frame, again: bool) -> Result<Bytes, FrameRefusal> {
    match write_frame(alloc, frame, 65536) {
        Err(FrameRefusal::NoMemory) if again => write_frame(alloc, frame, 65536),
        answer => answer,
    }
}

/// Whether the frame is appended; where it is refused, there are as many octets as before.
fn appends(frame: &Frame, out: &mut Vec<u8>, again: bool) -> bool {
    let before = out.len();
    match append_frame(frame, 65536, out) {
        Err(FrameRefusal::NoMemory) if again && out.len() == before => {
            append_frame(frame, 65536, out).is_ok()
        }
        answer => answer.is_ok(),
    }
}

/// Whether these octets are written for the frame, and it is appended behind what is there.
fn is_written(alloc: Global, frame: &Frame, octets: &[u8], out: &mut Vec<u8>, again: bool) -> bool {
    match writes(alloc, frame, again) {
        Ok(written) => {
            let is_same = written.as_slice() == octets;
            drop(written);
            is_same && appends(frame, out, again)
        }
        Err(_) => false,
    }
}

fn copies(frame: &Frame, again: bool) -> Result<Frame, AllocError> {
    match frame.clone() {
        Ok(copy) => Ok(copy),
        Err(_) if again => frame.clone(),
        Err(refused) => Err(refused),
    }
}

/// The same of a copy of the frame.
fn is_copy_written(
    alloc: Global,
    frame: &Frame,
    octets: &[u8],
    out: &mut Vec<u8>,
    again: bool,
) -> bool {
    match copies(frame, again) {
        Ok(copy) => {
            let answer = is_written(alloc, &copy, octets, out, again);
            drop(copy);
            answer
        }
        Err(_) => false,
    }
}

/// The octets, and once more.
pub(crate) fn is_twice(twice: &[u8], octets: &[u8]) -> bool {
    let (one, other) = twice.split_at(octets.len().min(twice.len()));
    one == octets && other == octets
}

/// Whether what stands before the payload of a transfer is written by itself; of any other frame nothing is.
fn is_head_written(frame: &Frame, octets: &[u8], out: &mut Vec<u8>, again: bool) -> bool {
    out.clear();
    let written = match append_head(frame, 65536, out) {
        Some(Err(FrameRefusal::NoMemory)) if again => append_head(frame, 65536, out),
        written => written,
    };
    match written {
        Some(Ok(())) => {
            let (head, payload) = octets.split_at(out.len().min(octets.len()));
            out.as_slice() == head && frame.payload.as_slice() == payload
        }
        Some(Err(_)) => false,
        None => out.is_empty(),
    }
}

/// Whether these octets are written and appended for the frame, and behind them for a copy of it.
pub(crate) fn is_each_way(alloc: Global, frame: &Frame, octets: &[u8], again: bool) -> bool {
    let mut out = Vec::new(alloc);
    is_written(alloc, frame, octets, &mut out, again)
        && is_copy_written(alloc, frame, octets, &mut out, again)
        && is_twice(out.as_slice(), octets)
        && is_head_written(frame, octets, &mut out, again)
}

/// The octets, shared.
fn shares(alloc: Global, octets: &[u8], again: bool) -> Result<Bytes, AllocError> {
    match Bytes::copy_from_slice(alloc, octets) {
        Err(_) if again => Bytes::copy_from_slice(alloc, octets),
        shared => shared,
    }
}

/// Whether the shared octets are a frame, which is read into a slot and written each way.
fn is_through_a_slot(alloc: Global, shared: &Bytes, octets: &[u8], again: bool) -> bool {
    let mut framer = Framer::new(alloc, 65536);
    let mut slot = Frame::empty();
    let piece = Octets::shared(shared, 0);
    let fed = match framer.feed_into(&piece, &mut slot) {
        Err(FrameFault::NoMemory) if again => framer.feed_into(&piece, &mut slot),
        fed => fed,
    };
    let is_same = is_each_way(alloc, &slot, octets, again);
    drop(slot);
    fed.is_ok() && is_same
}

pub(crate) fn is_shared(alloc: Global, octets: &[u8], again: bool) -> bool {
    match shares(alloc, octets, again) {
        Ok(shared) => is_through_a_slot(alloc, &shared, octets, again),
        Err(_) => false,
    }
}

/// The room of octets that are nobody else's.
fn room_of(octets: Bytes) -> Result<usize, AllocError> {
    match octets.reclaim() {
        Some(owned) => Ok(owned.into_vec()?.capacity()),
        None => Ok(usize::MAX),
    }
}

/// Whether what is written for the frame has the room for its octets.
fn is_written_in_its_room(alloc: Global, frame: &Frame, size: usize) -> bool {
    match write_frame(alloc, frame, 65536) {
        Ok(written) => room_of(written) == Ok(size),
        Err(_) => false,
    }
}

/// Whether octets with the room for this frame keep it, and have twice what they need at most with a second one.
fn is_room_kept(frame: &Frame, size: usize, out: &mut Vec<u8>) -> bool {
    append_frame(frame, 65536, out).is_ok()
        && out.capacity() == size
        && append_frame(frame, 65536, out).is_ok()
        && out.capacity() <= out.len().saturating_mul(2)
}

fn are_rooms(alloc: Global, frame: &Frame, size: usize) -> bool {
    match Vec::with_capacity(alloc, size) {
        Ok(mut out) => {
            is_room_kept(frame, size, &mut out) && is_written_in_its_room(alloc, frame, size)
        }
        Err(_) => false,
    }
}

/// Whether the octets are a frame, which is written in its room, or each way.
fn is_frame(alloc: Global, octets: &[u8], is_room_asked: bool) -> bool {
    let mut framer = Framer::new(alloc, 65536);
    match framer.feed(octets) {
        Ok((_, Some(frame))) => {
            let answer = if is_room_asked {
                are_rooms(alloc, &frame, octets.len())
            } else {
                is_each_way(alloc, &frame, octets, false)
            };
            drop(frame);
            answer
        }
        _ => false,
    }
}

/// What no clause tells: a `Bytes` is seen as its octets alone, and a `Vec` that octets were put into may have any room.
#[test]
fn room_of_what_is_written(rt: HostRuntime) {
    for octets in EACH {
        assert!(rt; is_frame(rt.alloc(), octets, true));
    }
}

/// With memory at hand no call gives up.
#[test]
fn each_kind_and_field(rt: HostRuntime) {
    for octets in EACH {
        assert!(rt; is_frame(rt.alloc(), octets, false) && is_shared(rt.alloc(), octets, false));
    }
}

/// Octets of a frame of this size that begins so, and is filled with payload.
pub(crate) fn long_frame(alloc: Global, front: &[u8], size: usize) -> Result<Vec<u8>, AllocError> {
    let mut long = front.to_vec(alloc)?;
    long.resize(size, 0x61)?;
    Ok(long)
}

/// Whether the piece ends a frame, and these octets are written for it.
fn is_piece_written(alloc: Global, framer: &mut Framer, piece: &[u8], octets: &[u8]) -> bool {
    match framer.feed(piece) {
        Ok((_, Some(frame))) => {
            let answer = compared(alloc, &frame, octets, 65536);
            drop(frame);
            answer == Ok((octets.len(), true))
        }
        _ => false,
    }
}

/// Whether the octets, in pieces, are written for the frame that they are.
fn is_written_from_pieces(alloc: Global, framer: &mut Framer, octets: &[u8]) -> bool {
    for piece in octets.chunks(700) {
        if is_piece_written(alloc, framer, piece, octets) {
            return true;
        }
    }
    false
}

/// What stands before the payload of a transfer of 5000 octets.
const HEAD: &[u8] =
    b"\x00\x00\x13\x88\x02\x00\x00\x00\x00\x53\x14\xc0\x07\x04\x43\x43\xa0\x01\x00\x43";

/// A transfer with 4980 octets of payload: room for it grows from piece to piece.
fn is_long_in_pieces(alloc: Global) -> bool {
    match long_frame(alloc, HEAD, 5000) {
        Ok(long) => {
            let mut framer = Framer::new(alloc, 65536);
            let answer = is_written_from_pieces(alloc, &mut framer, long.as_slice());
            drop(framer);
            answer
        }
        Err(_) => false,
    }
}

#[test]
fn a_long_frame_in_pieces(rt: HostRuntime) {
    assert!(rt; is_long_in_pieces(rt.alloc()));
}

/// Whether the payload of a frame whose head came before is the slice that came, and is written from there.
fn is_shared_behind_its_head(framer: &mut Framer, out: &mut Vec<u8>, payload: Bytes) -> bool {
    let mut slot = Frame::empty();
    let head = framer.feed_into(&Octets::lent(HEAD), &mut slot);
    let behind = framer.feed_into(&Octets::shared(&payload, 0), &mut slot);
    let is_whole = matches!(head, Ok(Filled::Part(20)))
        && matches!(behind, Ok(Filled::Whole(4980)));
    let is_same = slot.payload == payload && append_head(&slot, 65536, out) == Some(Ok(()));
    let is_shared = payload.reclaim().is_none();
    drop(slot);
    is_whole && is_same && is_shared && out.as_slice() == HEAD
}

fn goes_without_a_copy(alloc: Global) -> bool {
    let payload = match long_frame(alloc, &[], 4980) {
        Ok(long) => Bytes::from_vec(long),
        Err(_) => return false,
    };
    let Ok(payload) = payload else {
        return false;
    };
    let mut framer = Framer::new(alloc, 65536);
    let mut out = Vec::new(alloc);
    let answer = is_shared_behind_its_head(&mut framer, &mut out, payload);
    drop(framer);
    answer
}

/// What no clause tells: which octets a `Bytes` shares.
#[test]
fn a_payload_behind_its_head_is_not_copied(rt: HostRuntime) {
    assert!(rt; goes_without_a_copy(rt.alloc()));
}

/// Why a frame of this performative and payload is not written; told by both calls, or else none.
fn refusal(alloc: Global, body: Performative, payload: Bytes) -> Option<FrameRefusal> {
    let frame = Frame {
        channel: 0,
        body: Some(body),
        payload,
    };
    let told = frame_refusal(0, &frame.body, frame.payload.as_slice(), 65536);
    let answered = write_frame(alloc, &frame, 65536).err();
    drop(frame);
    if told == answered { answered } else { None }
}

fn flow(
    payload: &'static [u8],
    properties: Option<Boxed<Value>>,
    alloc: Global,
) -> Option<FrameRefusal> {
    let body = FlowBody {
        next_incoming_id: None,
        incoming_window: 0,
        next_outgoing_id: 0,
        outgoing_window: 0,
        handle: None,
        delivery_count: None,
        link_credit: None,
        available: None,
        drain: None,
        echo: None,
        properties,
    };
    refusal(alloc, Performative::Flow(body), Bytes::from_static(payload))
}

fn transfer(alloc: Global, rcv_settle_mode: Option<u8>) -> Option<FrameRefusal> {
    let body = TransferBody {
        handle: 0,
        delivery_id: None,
        delivery_tag: None,
        message_format: None,
        settled: None,
        more: None,
        rcv_settle_mode,
        state: None,
        resume: None,
        aborted: None,
        batchable: None,
    };
    refusal(
        alloc,
        Performative::Transfer(body),
        Bytes::from_static(b"x"),
    )
}

fn disposition(alloc: Global, state: Option<DeliveryState>) -> Option<FrameRefusal> {
    let body = DispositionBody {
        role: Role::Sender,
        first: 0,
        last: None,
        settled: None,
        state,
        batchable: None,
    };
    refusal(
        alloc,
        Performative::Disposition(body),
        Bytes::from_static(b""),
    )
}

/// A state that is null. These helpers answer none where memory is refused, and each of them has a row that is unfair with what it makes alone.
fn other(alloc: Global) -> Option<DeliveryState> {
    Some(DeliveryState::Other(null(alloc)?))
}

/// A list without items, described by this number.
fn described(alloc: Global, number: u64) -> Option<DeliveryState> {
    let descriptor = Boxed::new(alloc, Value::Ulong(number)).ok()?;
    let list = Boxed::new(alloc, Value::List(Items::new(alloc))).ok()?;
    let value = Boxed::new(alloc, Value::Described(descriptor, list)).ok()?;
    Some(DeliveryState::Other(value))
}

fn begin(alloc: Global, properties: Option<Boxed<Value>>) -> Option<FrameRefusal> {
    let body = BeginBody {
        remote_channel: None,
        next_outgoing_id: 0,
        incoming_window: 0,
        outgoing_window: 0,
        handle_max: None,
        offered_capabilities: None,
        desired_capabilities: None,
        properties,
    };
    let Ok(body) = Boxed::new(alloc, body) else {
        return None;
    };
    refusal(alloc, Performative::Begin(body), Bytes::from_static(b""))
}

fn attach(
    alloc: Global,
    snd_settle_mode: Option<u8>,
    target: Option<Boxed<Value>>,
) -> Option<FrameRefusal> {
    let Ok(name) = Text::new(alloc, "q") else {
        return None;
    };
    let body = AttachBody {
        name,
        handle: 0,
        role: Role::Receiver,
        snd_settle_mode,
        rcv_settle_mode: None,
        source: None,
        target,
        unsettled: None,
        incomplete_unsettled: None,
        initial_delivery_count: None,
        max_message_size: None,
        offered_capabilities: None,
        desired_capabilities: None,
        properties: None,
    };
    let Ok(body) = Boxed::new(alloc, body) else {
        return None;
    };
    refusal(alloc, Performative::Attach(body), Bytes::from_static(b""))
}

fn open(alloc: Global, properties: Option<Boxed<Value>>) -> Option<FrameRefusal> {
    let Ok(container_id) = Text::new(alloc, "a") else {
        return None;
    };
    let body = OpenBody {
        container_id,
        hostname: None,
        max_frame_size: None,
        channel_max: None,
        idle_time_out: None,
        outgoing_locales: None,
        incoming_locales: None,
        offered_capabilities: None,
        desired_capabilities: None,
        properties,
    };
    let Ok(body) = Boxed::new(alloc, body) else {
        return None;
    };
    refusal(alloc, Performative::Open(body), Bytes::from_static(b""))
}

/// A field that is there and null.
fn null(alloc: Global) -> Option<Boxed<Value>> {
    Boxed::new(alloc, Value::Null).ok()
}

/// An error with these.
fn failure(alloc: Global, condition: &str, info: Option<Boxed<Value>>) -> Option<Boxed<AmqpError>> {
    let Ok(condition) = Text::new(alloc, condition) else {
        return None;
    };
    let error = AmqpError {
        condition,
        description: None,
        info,
    };
    Boxed::new(alloc, error).ok()
}

fn end(alloc: Global, error: Option<Boxed<AmqpError>>) -> Option<FrameRefusal> {
    let body = EndBody { error };
    refusal(alloc, Performative::End(body), Bytes::from_static(b""))
}

fn close(alloc: Global, error: Option<Boxed<AmqpError>>) -> Option<FrameRefusal> {
    let body = CloseBody { error };
    refusal(alloc, Performative::Close(body), Bytes::from_static(b""))
}

fn detach(alloc: Global, error: Option<Boxed<AmqpError>>) -> Option<FrameRefusal> {
    let body = DetachBody {
        handle: 0,
        closed: None,
        error,
    };
    refusal(alloc, Performative::Detach(body), Bytes::from_static(b""))
}

fn are_flows_and_deliveries(alloc: Global) -> bool {
    flow(b"", None, alloc) == None
        && flow(b"x", None, alloc) == UNFAIR
        && flow(b"", null(alloc), alloc) == UNFAIR
        && transfer(alloc, Some(1)) == None
        && transfer(alloc, Some(2)) == UNFAIR
}

fn are_states(alloc: Global) -> bool {
    disposition(alloc, Some(DeliveryState::Accepted)) == None
        && disposition(alloc, other(alloc)) == UNFAIR
        && disposition(alloc, described(alloc, 0x33)) == None
        && disposition(alloc, described(alloc, 0x24)) == UNFAIR
}

fn are_links(alloc: Global) -> bool {
    begin(alloc, None) == None
        && begin(alloc, null(alloc)) == UNFAIR
        && attach(alloc, Some(2), None) == None
        && attach(alloc, Some(3), None) == UNFAIR
        && attach(alloc, None, null(alloc)) == UNFAIR
}

fn are_endings(alloc: Global) -> bool {
    open(alloc, None) == None
        && open(alloc, null(alloc)) == UNFAIR
        && close(alloc, None) == None
        && close(alloc, failure(alloc, "x", null(alloc))) == UNFAIR
}

fn are_errors(alloc: Global) -> bool {
    end(alloc, failure(alloc, "x", None)) == None
        && end(alloc, failure(alloc, "\u{e9}", None)) == UNFAIR
        && detach(alloc, None) == None
        && detach(alloc, failure(alloc, "x", null(alloc))) == UNFAIR
}

#[test]
fn unfair_frames(rt: HostRuntime) {
    assert!(rt; are_flows_and_deliveries(rt.alloc()));
    assert!(rt; are_states(rt.alloc()));
    assert!(rt; are_links(rt.alloc()));
    assert!(rt; are_endings(rt.alloc()));
    assert!(rt; are_errors(rt.alloc()));
}

/// A frame without a body is empty, so no stored run shows this.
fn is_no_performative(alloc: Global, octets: &[u8]) -> bool {
    match read_performative(alloc, octets) {
        Ok((performative, _)) => {
            drop(performative);
            false
        }
        Err(fault) => matches!(fault, BodyFault::NoBody),
    }
}

#[test]
fn no_octets_are_no_performative(rt: HostRuntime) {
    assert!(rt; is_no_performative(rt.alloc(), &[]));
}
