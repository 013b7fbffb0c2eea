//! Appends frames to octets.
//!
//! Transfers, flows and dispositions of plain fields go through a small buffer on the stack, others through
//! `write_frame`.
ghost use Rattle.std.specs.Prelude.{◌≡◌, ◌≤◌, ◌<◌, ◌+◌, ◌-◌, ◌++◌, [], ◌∷◌, ℕ, List, Option, Some, None, IfSome, length, take, option_map, if◌then◌else◌, nat_lt, nat_eq, IfNone, OnOk, false, vec_len, vec_capacity};
ghost use Rattle.std.specs.Int.{to_be_bytes, w32};
ghost use Rattle.amqp_frames.specs.Plain.{Holds, full, trim, uint_octets, boolean_octets, ubyte_octets, binary_octets, bare_octets, state_of, IsShown, AreShown, Appended, AppendedHead, AppendedSo};
ghost use Rattle.amqp_types.specs.Datum.{Data, count_of, greatest_depth_of};
ghost use Rattle.amqp_types.specs.Canon.{canon, parts_form};
ghost use Rattle.amqp_performatives.specs.Composite.{type_of};
ghost use Rattle.amqp_performatives.specs.Part.{canonical_fields};
ghost use Rattle.amqp_performatives.specs.Bodies.{uint, boolean, ubyte, binary, role as role_part, optional, transfer_fields, flow_fields, disposition_fields};
ghost use Rattle.amqp_frames.specs.Field.{composite_datum, body_answer, header};
ghost use Rattle.amqp_frames.specs.Written.{write_answer};

use crate::fair::is_fair;
use crate::fault::FrameRefusal;
use crate::frame::Frame;
use crate::measured::frame_size;
use crate::written::write_frame;
use amqp_performatives::{
    Composite, DeliveryState, DispositionBody, FlowBody, Performative, Role, TransferBody,
};
use amqp_types::Tag;

#[derive(Clone, Copy)]
struct Envelope<'a> {
    channel: u16,
    payload: &'a [u8],
    max: u32,
}

/// A delivery state without fields, or none.
#[derive(Clone, Copy)]
pub(crate) enum PlainState {
    Absent,
    Accepted,
    Released,
}

#[inline]
fn bare_state(state: &Option<DeliveryState>) -> Option<PlainState>
    ensures { IfSome result (λ b. state.now ≡ state_of b) }
{
    match state {
        None => Some(PlainState::Absent),
        Some(DeliveryState::Accepted) => Some(PlainState::Accepted),
        Some(DeliveryState::Released) => Some(PlainState::Released),
        _ => None,
    }
}

/// The size of the buffer for a frame without its payload, in bytes.
const ROOM: usize = 96;

/// Returns the place where the octets end.
#[inline(always)]
fn put(head: &mut [u8; ROOM], at: usize, octets: &[u8]) -> usize
    requires { at + length octets.now ≤ 96 }
    ensures end { result ≡ at + length octets.now }
    ensures front { take result head.new ≡ take at head.old ++ octets.now }
{
    let end = at + octets.len();
    head[at..end].copy_from_slice(octets);
    end
}

/// Where the next field goes, where the last present field ended, and how many fields there were then.
#[derive(Clone, Copy)]
struct Spot {
    at: usize,
    end: usize,
    count: usize,
}

#[inline(always)]
fn absent(head: &mut [u8; ROOM], spot: Spot) -> Spot
    requires { spot.at + 1 ≤ 96 }
    ensures bound { result.at ≤ spot.at + 1 }
    ensures holds { (front : List ℕ) (os : List (Option (List ℕ))) → Holds front head.old spot.at spot.end spot.count os → Holds front head.new result.at result.end result.count (os ++ None ∷ []) }
{
    let at = put(head, spot.at, &[0x40]);
    Spot {
        at,
        end: spot.end,
        count: spot.count,
    }
}

#[inline(always)]
fn put_uint(head: &mut [u8; ROOM], at: usize, n: u32) -> usize
    requires { at + 5 ≤ 96 }
    ensures bound { (at ≤ result) × (result ≤ at + 5) }
    ensures front { take result head.new ≡ take at head.old ++ uint_octets n }
{
    if n == 0 {
        return put(head, at, &[0x43]);
    }
    if n < 256 {
        return put(head, at, &[0x52, n as u8]);
    }
    let [a, b, c, d] = n.to_be_bytes();
    put(head, at, &[0x70, a, b, c, d])
}

/// Writes field `number`, as null if it is absent.
#[inline(always)]
fn uint(head: &mut [u8; ROOM], spot: Spot, number: usize, n: Option<u32>) -> Spot
    requires { spot.at + 5 ≤ 96 }
    ensures bound { result.at ≤ spot.at + 5 }
    ensures holds { (front : List ℕ) (os : List (Option (List ℕ))) → Holds front head.old spot.at spot.end spot.count os → number ≡ length os + 1 → Holds front head.new result.at result.end result.count (os ++ option_map uint_octets n ∷ []) }
    ensures shown { IsShown (optional uint n) (option_map uint_octets n) }
{
    match n {
        Some(n) => {
            let at = put_uint(head, spot.at, n);
            Spot {
                at,
                end: at,
                count: number,
            }
        }
        None => absent(head, spot),
    }
}

#[inline(always)]
fn boolean_code(b: bool) -> u8
    ensures { result ≡ (if b then 0x41 else 0x42) }
{
    if b { 0x41 } else { 0x42 }
}

#[inline(always)]
fn boolean(head: &mut [u8; ROOM], spot: Spot, number: usize, b: Option<bool>) -> Spot
    requires { spot.at + 1 ≤ 96 }
    ensures bound { result.at ≤ spot.at + 1 }
    ensures holds { (front : List ℕ) (os : List (Option (List ℕ))) → Holds front head.old spot.at spot.end spot.count os → number ≡ length os + 1 → Holds front head.new result.at result.end result.count (os ++ option_map boolean_octets b ∷ []) }
    ensures shown { IsShown (optional boolean b) (option_map boolean_octets b) }
{
    match b {
        Some(b) => {
            let at = put(head, spot.at, &[boolean_code(b)]);
            Spot {
                at,
                end: at,
                count: number,
            }
        }
        None => absent(head, spot),
    }
}

#[inline(always)]
fn ubyte(head: &mut [u8; ROOM], spot: Spot, number: usize, n: Option<u8>) -> Spot
    requires { spot.at + 2 ≤ 96 }
    ensures bound { result.at ≤ spot.at + 2 }
    ensures holds { (front : List ℕ) (os : List (Option (List ℕ))) → Holds front head.old spot.at spot.end spot.count os → number ≡ length os + 1 → Holds front head.new result.at result.end result.count (os ++ option_map ubyte_octets n ∷ []) }
    ensures shown { IsShown (optional ubyte n) (option_map ubyte_octets n) }
{
    match n {
        Some(n) => {
            let at = put(head, spot.at, &[0x50, n]);
            Spot {
                at,
                end: at,
                count: number,
            }
        }
        None => absent(head, spot),
    }
}

#[inline(always)]
fn put_binary(head: &mut [u8; ROOM], at: usize, octets: &[u8]) -> usize
    requires short { length octets.now ≤ 32 }
    requires room { at + 34 ≤ 96 }
    ensures bound { (at ≤ result) × (result ≤ at + 34) }
    ensures front { take result head.new ≡ take at head.old ++ binary_octets octets.now }
{
    let start = put(head, at, &[0xa0, octets.len() as u8]);
    put(head, start, octets)
}

#[inline(always)]
fn tag(head: &mut [u8; ROOM], spot: Spot, number: usize, tag: &Option<Tag>) -> Spot
    requires { spot.at + 34 ≤ 96 }
    ensures bound { result.at ≤ spot.at + 34 }
    ensures holds { (front : List ℕ) (os : List (Option (List ℕ))) → Holds front head.old spot.at spot.end spot.count os → number ≡ length os + 1 → Holds front head.new result.at result.end result.count (os ++ option_map binary_octets tag.now ∷ []) }
    ensures shown { IsShown (optional binary tag.now) (option_map binary_octets tag.now) }
{
    match tag {
        Some(tag) => {
            let at = put_binary(head, spot.at, tag.octets());
            Spot {
                at,
                end: at,
                count: number,
            }
        }
        None => absent(head, spot),
    }
}

#[inline(always)]
fn state(head: &mut [u8; ROOM], spot: Spot, number: usize, state: PlainState) -> Spot
    requires { spot.at + 4 ≤ 96 }
    ensures bound { result.at ≤ spot.at + 4 }
    ensures holds { (front : List ℕ) (os : List (Option (List ℕ))) → Holds front head.old spot.at spot.end spot.count os → number ≡ length os + 1 → Holds front head.new result.at result.end result.count (os ++ bare_octets state ∷ []) }
{
    match state {
        PlainState::Absent => absent(head, spot),
        PlainState::Accepted => {
            let at = put(
                head,
                spot.at,
                &[0x00, 0x53, Composite::Accepted.number(), 0x45],
            );
            Spot {
                at,
                end: at,
                count: number,
            }
        }
        PlainState::Released => {
            let at = put(
                head,
                spot.at,
                &[0x00, 0x53, Composite::Released.number(), 0x45],
            );
            Spot {
                at,
                end: at,
                count: number,
            }
        }
    }
}

/// The first field's place, behind the frame header, the descriptor and the head of the list.
const START: Spot = Spot {
    at: 14,
    end: 14,
    count: 0,
};

/// Returns where the fields end, and how many are written: those up to the last that is present.
#[inline(never)]
fn put_transfer(body: &TransferBody, reached: PlainState, head: &mut [u8; ROOM]) -> (usize, usize)
    requires bare { body.now.state ≡ state_of reached }
    ensures bound { (14 ≤ result.0) × (result.0 ≤ 96) × (result.1 ≤ 11) }
    ensures some { 0 < result.1 }
    ensures shown { (os : List (Option (List ℕ))) × AreShown (transfer_fields body.now) os × (take result.0 head.new ≡ take 14 head.old ++ full (trim os)) × (result.1 ≡ length (trim os)) }
{
    let handle = uint(head, START, 1, Some(body.handle));
    let id = uint(head, handle, 2, body.delivery_id);
    let named = tag(head, id, 3, &body.delivery_tag);
    let format = uint(head, named, 4, body.message_format);
    let settled = boolean(head, format, 5, body.settled);
    let more = boolean(head, settled, 6, body.more);
    let mode = ubyte(head, more, 7, body.rcv_settle_mode);
    let outcome = state(head, mode, 8, reached);
    let resume = boolean(head, outcome, 9, body.resume);
    let aborted = boolean(head, resume, 10, body.aborted);
    let last = boolean(head, aborted, 11, body.batchable);
    (last.end, last.count)
}

#[inline(never)]
fn put_flow(body: &FlowBody, head: &mut [u8; ROOM]) -> (usize, usize)
    requires bare { body.now.properties ≡ None }
    ensures bound { (14 ≤ result.0) × (result.0 ≤ 96) × (result.1 ≤ 11) }
    ensures some { 0 < result.1 }
    ensures shown { (os : List (Option (List ℕ))) × AreShown (flow_fields body.now) os × (take result.0 head.new ≡ take 14 head.old ++ full (trim os)) × (result.1 ≡ length (trim os)) }
{
    let incoming = uint(head, START, 1, body.next_incoming_id);
    let window = uint(head, incoming, 2, Some(body.incoming_window));
    let outgoing = uint(head, window, 3, Some(body.next_outgoing_id));
    let theirs = uint(head, outgoing, 4, Some(body.outgoing_window));
    let handle = uint(head, theirs, 5, body.handle);
    let counted = uint(head, handle, 6, body.delivery_count);
    let credit = uint(head, counted, 7, body.link_credit);
    let available = uint(head, credit, 8, body.available);
    let drain = boolean(head, available, 9, body.drain);
    let echo = boolean(head, drain, 10, body.echo);
    let last = absent(head, echo);
    (last.end, last.count)
}

#[inline(never)]
fn put_disposition(
    body: &DispositionBody,
    reached: PlainState,
    head: &mut [u8; ROOM],
) -> (usize, usize)
    requires bare { body.now.state ≡ state_of reached }
    ensures bound { (14 ≤ result.0) × (result.0 ≤ 96) × (result.1 ≤ 6) }
    ensures some { 0 < result.1 }
    ensures shown { (os : List (Option (List ℕ))) × AreShown (disposition_fields body.now) os × (take result.0 head.new ≡ take 14 head.old ++ full (trim os)) × (result.1 ≡ length (trim os)) }
{
    let role = boolean(head, START, 1, Some(is_receiver(body.role)));
    let first = uint(head, role, 2, Some(body.first));
    let last = uint(head, first, 3, body.last);
    let settled = boolean(head, last, 4, body.settled);
    let outcome = state(head, settled, 5, reached);
    let end = boolean(head, outcome, 6, body.batchable);
    (end.end, end.count)
}

#[inline(always)]
fn is_receiver(role: Role) -> bool
    ensures { role_part role ≡ boolean result }
{
    match role {
        Role::Sender => false,
        Role::Receiver => true,
    }
}

/// Returns the frame header, the descriptor and the head of a short list.
#[inline(always)]
fn plain_head(size: u32, channel: u16, code: u8, end: usize, count: usize) -> [u8; 14]
    requires end { (14 ≤ end) × (end ≤ 96) }
    requires count { count < 256 }
    ensures { result ≡ header size channel ++ 0x00 ∷ 0x53 ∷ code ∷ 0xc0 ∷ (end - 13) ∷ count ∷ [] }
{
    let [a, b, c, d] = size.to_be_bytes();
    let [e, f] = channel.to_be_bytes();
    [
        a,
        b,
        c,
        d,
        2,
        0,
        e,
        f,
        0x00,
        0x53,
        code,
        0xc0,
        (end - 13) as u8,
        count as u8,
    ]
}

/// If the payload stays apart, only the octets before it need room.
#[inline(always)]
fn room_of(apart: bool, end: usize, size: usize) -> usize
    ensures { result ≡ (if apart then end else size) }
{
    if apart { end } else { size }
}

/// Appends the frame whose fields lie in the buffer from `START` on. `shown` says where they end and how many there
/// are; if `apart`, the payload is not appended.
#[inline(always)]
fn append_plain(
    envelope: &Envelope<'_>,
    composite: Composite,
    shown: (usize, usize),
    apart: bool,
    head: &mut [u8; ROOM],
    out: &mut Vec<u8>,
) -> Result<(), FrameRefusal>
    requires some { (0 < shown.1) × (shown.1 < 256) }
    requires bound { (14 ≤ shown.0) × (shown.0 ≤ 96) }
    ensures { (ds : Data) (x : List ℕ) → parts_form ds None ≡ Some x → count_of ds ≡ shown.1 → greatest_depth_of ds ≤ 3 → take shown.0 head.old ≡ take 14 head.old ++ x → AppendedSo apart envelope.now.payload.now result (body_answer envelope.now.channel envelope.now.max (canon (composite_datum (type_of composite).0 ds)) envelope.now.payload.now) out.old.items out.new.items }
{
    let (end, count) = shown;
    let code = composite.number();
    let size = match frame_size((end - 8) as u64, envelope.payload.len(), envelope.max) {
        Ok(size) => size,
        Err(refusal) => return Err(refusal),
    };
    head[..14].copy_from_slice(&plain_head(size, envelope.channel, code, end, count));
    let Ok(()) = out.reserve(room_of(apart, end, size as usize)) else {
        return Err(FrameRefusal::NoMemory);
    };
    out.extend_from_slice(&head[..end]).unwrap();
    if apart {
        return Ok(());
    }
    out.extend_from_slice(envelope.payload).unwrap();
    Ok(())
}

#[inline(always)]
fn append_transfer(
    envelope: &Envelope<'_>,
    body: &TransferBody,
    reached: PlainState,
    apart: bool,
    out: &mut Vec<u8>,
) -> Result<(), FrameRefusal>
    requires { body.now.state ≡ state_of reached }
    ensures { AppendedSo apart envelope.now.payload.now result (body_answer envelope.now.channel envelope.now.max (canon (composite_datum (type_of Composite.Transfer).0 (canonical_fields (transfer_fields body.now)))) envelope.now.payload.now) out.old.items out.new.items }
{
    let mut head = [0; ROOM];
    let shown = put_transfer(body, reached, &mut head);
    append_plain(envelope, Composite::Transfer, shown, apart, &mut head, out)
}

#[inline(always)]
fn append_flow(
    envelope: &Envelope<'_>,
    body: &FlowBody,
    out: &mut Vec<u8>,
) -> Result<(), FrameRefusal>
    requires { body.now.properties ≡ None }
    ensures { Appended result (body_answer envelope.now.channel envelope.now.max (canon (composite_datum (type_of Composite.Flow).0 (canonical_fields (flow_fields body.now)))) envelope.now.payload.now) out.old.items out.new.items }
{
    let mut head = [0; ROOM];
    let shown = put_flow(body, &mut head);
    append_plain(envelope, Composite::Flow, shown, false, &mut head, out)
}

#[inline(always)]
fn append_disposition(
    envelope: &Envelope<'_>,
    body: &DispositionBody,
    reached: PlainState,
    out: &mut Vec<u8>,
) -> Result<(), FrameRefusal>
    requires { body.now.state ≡ state_of reached }
    ensures { Appended result (body_answer envelope.now.channel envelope.now.max (canon (composite_datum (type_of Composite.Disposition).0 (canonical_fields (disposition_fields body.now)))) envelope.now.payload.now) out.old.items out.new.items }
{
    let mut head = [0; ROOM];
    let shown = put_disposition(body, reached, &mut head);
    append_plain(
        envelope,
        Composite::Disposition,
        shown,
        false,
        &mut head,
        out,
    )
}

#[inline(never)]
fn append_written(frame: &Frame, max: u32, out: &mut Vec<u8>) -> Result<(), FrameRefusal>
    ensures { Appended result (write_answer frame.now max) out.old.items out.new.items }
{
    match write_frame(*out.allocator(), frame, max) {
        Ok(octets) => match out.extend_from_slice(octets.as_slice()) {
            Ok(()) => Ok(()),
            Err(_) => Err(FrameRefusal::NoMemory),
        },
        Err(refusal) => Err(refusal),
    }
}

/// Appends the frame to `out`, in the same octets that [`write_frame`] returns.
///
/// A transfer or disposition whose state has no fields, and a flow without properties, are written without an
/// allocation besides that of `out`. Other frames are written by `write_frame` and then copied.
///
/// # Errors
///
/// [`FrameRefusal::NotWritable`], [`FrameRefusal::FrameTooBig`] if the frame is longer than `max` octets, and
/// [`FrameRefusal::NoMemory`], as for `write_frame`. After an error `out` holds what it held before.
pub fn append_frame(frame: &Frame, max: u32, out: &mut Vec<u8>) -> Result<(), FrameRefusal>
    ensures { Appended result (write_answer frame.now max) out.old.items out.new.items }
{
    let Some(performative) = &frame.body else {
        return append_written(frame, max, out);
    };
    if !is_fair(performative) {
        return append_written(frame, max, out);
    }
    let envelope = Envelope {
        channel: frame.channel,
        payload: frame.payload.as_slice(),
        max,
    };
    match performative {
        Performative::Transfer(body) => {
            if let Some(reached) = bare_state(&body.state) {
                return append_transfer(&envelope, body, reached, false, out);
            }
        }
        Performative::Flow(body) => {
            if body.properties.is_none() && envelope.payload.is_empty() {
                return append_flow(&envelope, body, out);
            }
        }
        Performative::Disposition(body) => {
            if envelope.payload.is_empty() {
                if let Some(reached) = bare_state(&body.state) {
                    return append_disposition(&envelope, body, reached, out);
                }
            }
        }
        _ => (),
    }
    append_written(frame, max, out)
}

/// Appends to `out` the octets of a transfer frame that come before its payload, so that the payload is not copied.
///
/// The size in the frame header includes the payload, which the caller sends next. Returns `None`, and appends nothing,
/// if the frame is not a transfer, its state has fields, or a field holds a value that no reader would find there:
/// [`append_frame`] writes or refuses these.
///
/// # Errors
///
/// Those of [`append_frame`]; the size is that of the frame with its payload. `out` then holds what it held before.
pub fn append_head(frame: &Frame, max: u32, out: &mut Vec<u8>) -> Option<Result<(), FrameRefusal>>
    ensures some { IfSome result (λ r. AppendedHead frame.now.payload r (write_answer frame.now max) out.old.items out.new.items) }
    ensures none { IfNone result (out.new.items ≡ out.old.items) }
{
    let Some(performative) = &frame.body else {
        return None;
    };
    if !is_fair(performative) {
        return None;
    }
    let Performative::Transfer(body) = performative else {
        return None;
    };
    let reached = bare_state(&body.state)?;
    let envelope = Envelope {
        channel: frame.channel,
        payload: frame.payload.as_slice(),
        max,
    };
    Some(append_transfer(&envelope, body, reached, true, out))
}
