//! Measures a frame before anything is written, without allocating.
ghost use Rattle.std.specs.Prelude.{◌≡◌, ◌<◌, ◌+◌, ℕ, List, None, length};
ghost use Rattle.std.specs.Result.{result_err};
ghost use Rattle.amqp_performatives.specs.Part.{canonical_fields};
ghost use Rattle.amqp_performatives.specs.Bodies.{descriptor_of, fields_of};
ghost use Rattle.amqp_performatives.specs.Listed.{shown_fields};
ghost use Rattle.amqp_frames.specs.Field.{size_answer};
ghost use Rattle.amqp_frames.specs.Written.{may_follow, write_answer};
ghost use Rattle.amqp_frames.specs.Measuring.{Measures, MeasuresList};

use crate::fair::is_fair;
use crate::fault::FrameRefusal;
use crate::leaf::list_len;
use crate::measure::{FIELD_DEPTH, Measure, fields_len};
use amqp_performatives::Performative;
use amqp_performatives::field::Field;

/// The size of a frame that can be written, and the measure of its performative's fields.
#[derive(Clone, Copy)]
pub struct Measured {
    pub(crate) size: u32,
    pub(crate) list: Measure,
}

impl Measured {
    /// Returns the size of the whole frame, in octets.
    pub fn size(&self) -> u32
        ensures { result ≡ self.now.size }
    {
        self.size
    }
}

/// Returns the measure of a frame with this performative and `payload_len` octets of payload, on any channel.
///
/// It does not allocate or read the payload. The cost is that of measuring the performative's fields.
///
/// # Errors
///
/// In this order: [`FrameRefusal::NotWritable`] if a field holds a value that no reader would find there, a payload
/// comes without a transfer, a value has no encoding, or the size does not fit 32 bits;
/// [`FrameRefusal::FrameTooBig`] if the frame is longer than `max` octets. Never [`FrameRefusal::NoMemory`].
pub fn measure_frame(
    body: &Option<Performative>,
    payload_len: usize,
    max: u32,
) -> Result<Measured, FrameRefusal>
    ensures { (channel : ℕ) (payload : List ℕ) → length payload ≡ payload_len → Measures result (record { channel = channel; body = body.now; payload = payload }) max }
{
    let Some(performative) = body else {
        return measure_empty(payload_len, max);
    };
    if !is_fair(performative) || !may_follow(payload_len, performative) {
        return Err(FrameRefusal::NotWritable);
    }
    measure_performative(performative, payload_len, max)
}

/// Returns the refusal that [`write_frame`](crate::write_frame) reports for a frame of these parts, or `None` if only
/// an allocation can fail.
///
/// It does not allocate or read the payload. The cost is that of measuring the performative's fields.
pub fn frame_refusal(
    channel: u16,
    body: &Option<Performative>,
    payload: &[u8],
    max: u32,
) -> Option<FrameRefusal>
    ensures { result ≡ result_err (write_answer (record { channel = channel; body = body.now; payload = payload.now }) max) }
{
    let _channel = channel;
    measure_frame(body, payload.len(), max).err()
}

fn measure_performative(
    performative: &Performative,
    payload_len: usize,
    max: u32,
) -> Result<Measured, FrameRefusal>
    ensures { (channel : ℕ) (payload : List ℕ) → length payload ≡ payload_len → MeasuresList result channel max (descriptor_of performative.now).0 (canonical_fields (fields_of performative.now)) payload }
{
    let listed = performative.listed();
    // For the proof: the descriptor's number is below 256.
    let _code = listed.composite().number();
    measure_list(listed.fields(), payload_len, max)
}

/// Only a transfer has a payload.
fn may_follow(payload_len: usize, performative: &Performative) -> bool
    ensures { (payload : List ℕ) → length payload ≡ payload_len → result ≡ may_follow payload performative.now }
{
    if payload_len == 0 {
        return true;
    }
    match performative {
        Performative::Transfer(_) => true,
        _ => false,
    }
}

fn measure_empty(payload_len: usize, max: u32) -> Result<Measured, FrameRefusal>
    ensures { (channel : ℕ) (payload : List ℕ) → length payload ≡ payload_len → Measures result (record { channel = channel; body = None; payload = payload }) max }
{
    if payload_len != 0 {
        return Err(FrameRefusal::NotWritable);
    }
    let size = frame_size(0, 0, max)?;
    Ok(Measured {
        size,
        list: Measure { count: 0, size: 0 },
    })
}

/// Measures a frame whose performative is a described list of these fields.
pub(crate) fn measure_list(
    fields: &[Field<'_>],
    payload_len: usize,
    max: u32,
) -> Result<Measured, FrameRefusal>
    ensures { (code channel : ℕ) (payload : List ℕ) → 0 < code → code < 256 → length payload ≡ payload_len → MeasuresList result channel max code (shown_fields fields.now) payload }
{
    let Some(list) = fields_len(fields, FIELD_DEPTH) else {
        return Err(FrameRefusal::NotWritable);
    };
    let Some(size) = list_len(list.count, list.size) else {
        return Err(FrameRefusal::NotWritable);
    };
    match frame_size(size + 3, payload_len, max) {
        Ok(size) => Ok(Measured { size, list }),
        Err(refusal) => Err(refusal),
    }
}

/// Returns the size of a frame whose performative takes `body` octets.
pub(crate) fn frame_size(body: u64, payload: usize, max: u32) -> Result<u32, FrameRefusal>
    ensures { result ≡ size_answer (8 + (body + payload)) max }
{
    let size = body.saturating_add(payload as u64).saturating_add(8);
    if size >= 0x1_0000_0000 {
        return Err(FrameRefusal::NotWritable);
    }
    if size > max as u64 {
        return Err(FrameRefusal::FrameTooBig);
    }
    Ok(size as u32)
}
