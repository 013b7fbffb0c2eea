//! Measures frames from borrowed parts, so that a frame can be refused before anything is copied into its body.
ghost use Rattle.std.specs.Prelude.{◌≡◌, ℕ, Some, None, []};
ghost use Rattle.amqp_performatives.specs.Bodies.{attach_fields, transfer_fields, disposition_fields, detach_fields, end_fields};
ghost use Rattle.amqp_performatives.specs.Fair.{is_fair, is_fair_attach};
ghost use Rattle.amqp_performatives.specs.Listed.{fields_at};
ghost use Rattle.amqp_frames.specs.Measuring.{Measures};
ghost use Rattle.amqp_frames.specs.Lent.{attach_of, resuming_of, disposition_of, detach_of, end_of};

use crate::fair::{
    any_present, is_fair_begin, is_fair_error, is_fair_open, is_fair_state, is_receiver_mode,
    is_sender_mode, is_tag,
};
use crate::fault::FrameRefusal;
use crate::measured::{Measured, measure_list};
use amqp_performatives::field::{
    Field, any, boolean, failure, mapping, role, state, ubyte, uint, ulong,
};
use amqp_performatives::listed::{begin_fields, open_fields};
use amqp_performatives::{AmqpError, BeginBody, DeliveryState, OpenBody, Performative, Role};
use amqp_types::{Boxed, Items, Tag, Value};

/// The fields of an attach, with its name, its source and target, and its map of unsettled deliveries borrowed.
///
/// The other fields of `AttachBody` are absent.
#[derive(Clone, Copy)]
pub struct AttachParts<'a> {
    pub name: &'a str,
    pub handle: u32,
    pub role: Role,
    pub snd_settle_mode: Option<u8>,
    pub rcv_settle_mode: Option<u8>,
    pub source: &'a Option<Boxed<Value>>,
    pub target: &'a Option<Boxed<Value>>,
    pub unsettled: &'a Option<Items<(Value, Value)>>,
    pub initial_delivery_count: Option<u32>,
    pub max_message_size: Option<u64>,
}

/// Measures a frame with this begin, on any channel, as [`measure_frame`](crate::measure_frame) does.
///
/// # Errors
///
/// [`FrameRefusal::NotWritable`] if a field cannot be written; [`FrameRefusal::FrameTooBig`] if the frame is longer
/// than `max` octets.
pub fn measure_begin(body: &BeginBody, max: u32) -> Result<Measured, FrameRefusal>
    ensures { (channel : ℕ) → Measures result (record { channel = channel; body = Some (Performative.Begin body.now); payload = [] }) max }
{
    if !is_fair_begin(body) {
        return Err(FrameRefusal::NotWritable);
    }
    measure_list(&begin_fields(body), 0, max)
}

/// Measures a frame with an attach of these parts, on any channel, as [`measure_frame`](crate::measure_frame) does.
///
/// # Errors
///
/// [`FrameRefusal::NotWritable`] if a field cannot be written; [`FrameRefusal::FrameTooBig`] if the frame is longer
/// than `max` octets.
pub fn measure_attach(parts: &AttachParts<'_>, max: u32) -> Result<Measured, FrameRefusal>
    ensures { (channel : ℕ) → Measures result (record { channel = channel; body = Some (Performative.Attach (attach_of parts.now)); payload = [] }) max }
{
    if !is_fair_attach(parts) {
        return Err(FrameRefusal::NotWritable);
    }
    measure_list(&attach_fields(parts), 0, max)
}

/// Measures a frame with this open, on any channel, as [`measure_frame`](crate::measure_frame) does.
///
/// # Errors
///
/// [`FrameRefusal::NotWritable`] if a field cannot be written; [`FrameRefusal::FrameTooBig`] if the frame is longer
/// than `max` octets.
pub fn measure_open(body: &OpenBody, max: u32) -> Result<Measured, FrameRefusal>
    ensures { (channel : ℕ) → Measures result (record { channel = channel; body = Some (Performative.Open body.now); payload = [] }) max }
{
    if !is_fair_open(body) {
        return Err(FrameRefusal::NotWritable);
    }
    measure_list(&open_fields(body), 0, max)
}

/// The fields of a transfer that resumes a delivery, with its tag and its state borrowed (part 2, 2.6.13 and 2.7.5).
///
/// `resume` is true, and the other fields of `TransferBody` are absent. The frame has no payload.
#[derive(Clone, Copy)]
pub struct ResumingParts<'a> {
    pub handle: u32,
    pub delivery_id: u32,
    pub delivery_tag: &'a Tag,
    pub settled: Option<bool>,
    pub state: &'a Option<DeliveryState>,
    pub aborted: Option<bool>,
}

/// Measures a frame with a resuming transfer of these parts, on any channel, as `measure_frame` does.
///
/// # Errors
///
/// [`FrameRefusal::NotWritable`] if a field cannot be written; [`FrameRefusal::FrameTooBig`] if the frame is longer
/// than `max` octets.
pub fn measure_resuming(parts: &ResumingParts<'_>, max: u32) -> Result<Measured, FrameRefusal>
    ensures { (channel : ℕ) → Measures result (record { channel = channel; body = Some (Performative.Transfer (resuming_of parts.now)); payload = [] }) max }
{
    if !is_fair_resuming(parts) {
        return Err(FrameRefusal::NotWritable);
    }
    measure_list(&resuming_fields(parts), 0, max)
}

/// Measures a frame with a disposition of these fields and no `batchable`, on any channel, as `measure_frame` does.
///
/// # Errors
///
/// [`FrameRefusal::NotWritable`] if the state cannot be written; [`FrameRefusal::FrameTooBig`] if the frame is longer
/// than `max` octets.
pub fn measure_disposition(
    role: Role,
    first: u32,
    last: Option<u32>,
    settled: Option<bool>,
    state: &Option<DeliveryState>,
    max: u32,
) -> Result<Measured, FrameRefusal>
    ensures { (channel : ℕ) → Measures result (record { channel = channel; body = Some (Performative.Disposition (disposition_of role first last settled state.now)); payload = [] }) max }
{
    if !is_fair_state(state) {
        return Err(FrameRefusal::NotWritable);
    }
    measure_list(
        &disposition_fields(role, first, last, settled, state),
        0,
        max,
    )
}

/// Measures a frame with a detach of these fields, on any channel, as [`measure_frame`](crate::measure_frame) does.
///
/// # Errors
///
/// [`FrameRefusal::NotWritable`] if the error cannot be written; [`FrameRefusal::FrameTooBig`] if the frame is longer
/// than `max` octets.
pub fn measure_detach(
    handle: u32,
    closed: Option<bool>,
    error: &Option<Boxed<AmqpError>>,
    max: u32,
) -> Result<Measured, FrameRefusal>
    ensures { (channel : ℕ) → Measures result (record { channel = channel; body = Some (Performative.Detach (detach_of handle closed error.now)); payload = [] }) max }
{
    if !is_fair_error(error) {
        return Err(FrameRefusal::NotWritable);
    }
    measure_list(&detach_fields(handle, closed, error), 0, max)
}

/// Measures a frame with an end of this error, on any channel, as [`measure_frame`](crate::measure_frame) does.
///
/// # Errors
///
/// [`FrameRefusal::NotWritable`] if the error cannot be written; [`FrameRefusal::FrameTooBig`] if the frame is longer
/// than `max` octets.
pub fn measure_end(error: &Option<Boxed<AmqpError>>, max: u32) -> Result<Measured, FrameRefusal>
    ensures { (channel : ℕ) → Measures result (record { channel = channel; body = Some (Performative.End (end_of error.now)); payload = [] }) max }
{
    if !is_fair_error(error) {
        return Err(FrameRefusal::NotWritable);
    }
    measure_list(&end_fields(error), 0, max)
}

fn is_fair_attach(parts: &AttachParts<'_>) -> bool
    ensures { result ≡ is_fair_attach (attach_of parts.now) }
{
    is_sender_mode(parts.snd_settle_mode)
        && is_receiver_mode(parts.rcv_settle_mode)
        && any_present(parts.source)
        && any_present(parts.target)
}

fn attach_fields<'a>(parts: &AttachParts<'a>) -> [Field<'a>; 14]
    ensures { fields_at result ≡ attach_fields (attach_of parts.now) }
{
    [
        Field::Str(parts.name),
        Field::Uint(parts.handle),
        role(parts.role),
        ubyte(parts.snd_settle_mode),
        ubyte(parts.rcv_settle_mode),
        any(parts.source),
        any(parts.target),
        mapping(parts.unsettled),
        Field::Absent,
        uint(parts.initial_delivery_count),
        ulong(parts.max_message_size),
        Field::Absent,
        Field::Absent,
        Field::Absent,
    ]
}

fn is_fair_resuming(parts: &ResumingParts<'_>) -> bool
    ensures { result ≡ is_fair (Performative.Transfer (resuming_of parts.now)) }
{
    is_tag(&Some(*parts.delivery_tag)) && is_fair_state(parts.state)
}

fn resuming_fields<'a>(parts: &ResumingParts<'a>) -> [Field<'a>; 11]
    ensures { fields_at result ≡ transfer_fields (resuming_of parts.now) }
{
    [
        Field::Uint(parts.handle),
        Field::Uint(parts.delivery_id),
        Field::Binary(parts.delivery_tag.octets()),
        Field::Absent,
        boolean(parts.settled),
        Field::Absent,
        Field::Absent,
        state(parts.state),
        Field::Boolean(true),
        boolean(parts.aborted),
        Field::Absent,
    ]
}

fn disposition_fields(
    end: Role,
    first: u32,
    last: Option<u32>,
    settled: Option<bool>,
    reached: &Option<DeliveryState>,
) -> [Field<'_>; 6]
    ensures { fields_at result ≡ disposition_fields (disposition_of end first last settled reached.now) }
{
    [
        role(end),
        Field::Uint(first),
        uint(last),
        boolean(settled),
        state(reached),
        Field::Absent,
    ]
}

fn detach_fields(
    handle: u32,
    closed: Option<bool>,
    error: &Option<Boxed<AmqpError>>,
) -> [Field<'_>; 3]
    ensures { fields_at result ≡ detach_fields (detach_of handle closed error.now) }
{
    [Field::Uint(handle), boolean(closed), failure(error)]
}

fn end_fields(error: &Option<Boxed<AmqpError>>) -> [Field<'_>; 1]
    ensures { fields_at result ≡ end_fields (end_of error.now) }
{
    [failure(error)]
}
