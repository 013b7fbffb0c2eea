//! Transfers, the most frequent performatives. Without a state they are set in place, field by field, and own no memory; a room for a state beside them would
//! cost each of them its copies.
ghost use Rattle.std.specs.Prelude.{◌≡◌, ◌≤◌, ◌&&◌, ℕ, Some, None, IfSome, option_map};
ghost use Rattle.amqp_performatives.specs.Bodies.{transfer_fields};
ghost use Rattle.amqp_performatives.specs.Fair.{where_present, is_tag, is_receiver_mode, is_fair_state};
ghost use Rattle.amqp_decoder.specs.Parts.{ReadsAll};
ghost use Rattle.amqp_decoder.specs.ReadBodies.{transfer_in};
ghost use Rattle.amqp_decoder.specs.ReadPerformatives.{transfer_type};
ghost use Rattle.amqp_decoder.specs.Slots.{LeavesKind, LeavesCommon};

use crate::borrowed::StateRef;
use crate::fault::BodyFault;
use crate::fields::Cursor;
use crate::states::keep_state;
use amqp_performatives::{DeliveryState, Performative, TransferBody};
use std::alloc::Global;

/// Leaves a transfer without a state in the slot, field by field where a transfer stands there.
#[inline(always)]
fn common_into(fields: Cursor<'_>, slot: &mut Option<Performative>) -> bool
    ensures { LeavesCommon transfer_type fields.entry result slot.new }
{
    match slot {
        Some(Performative::Transfer(_)) => {}
        _ => make_transfer(slot),
    }
    match slot {
        Some(Performative::Transfer(body)) => match transfer_fields_into(fields, body) {
            Some(()) => true,
            None => false,
        },
        _ => false,
    }
}

/// Leaves a transfer in the slot, whose fields are to be set.
#[inline(never)]
fn make_transfer(slot: &mut Option<Performative>) {
    *slot = Some(Performative::Transfer(TransferBody {
        handle: 0,
        delivery_id: None,
        delivery_tag: None,
        message_format: None,
        settled: None,
        more: None,
        rcv_settle_mode: None,
        state: None,
        resume: None,
        aborted: None,
        batchable: None,
    }));
}

/// Sets each field of the body.
#[inline(always)]
fn transfer_fields_into(fields: Cursor<'_>, body: &mut TransferBody) -> Option<()>
    ensures { IfSome result (λ _. ReadsAll transfer_fields (λ b. where_present is_tag b.delivery_tag && where_present is_receiver_mode b.rcv_settle_mode && where_present is_fair_state b.state) fields.entry (Some body.new)) }
{
    let (handle, fields) = fields.required_uint()?;
    body.handle = handle;
    let (delivery_id, fields) = fields.uint()?;
    body.delivery_id = delivery_id;
    let Some(fields) = fields.tag_into(&mut body.delivery_tag) else {
        return None;
    };
    let (message_format, fields) = fields.uint()?;
    body.message_format = message_format;
    let (settled, fields) = fields.boolean()?;
    body.settled = settled;
    let (more, fields) = fields.boolean()?;
    body.more = more;
    let (rcv_settle_mode, fields) = fields.mode(1)?;
    body.rcv_settle_mode = rcv_settle_mode;
    let Some(fields) = fields.absent() else {
        return None;
    };
    clear_state(&mut body.state);
    let (resume, fields) = fields.boolean()?;
    body.resume = resume;
    let (aborted, fields) = fields.boolean()?;
    body.aborted = aborted;
    let (batchable, fields) = fields.boolean()?;
    body.batchable = batchable;
    if !fields.is_at_end() {
        return None;
    }
    Some(())
}

/// Takes the state away. Where there is none nothing is dropped.
#[inline(always)]
fn clear_state(state: &mut Option<DeliveryState>)
    ensures { state.new ≡ None }
{
    if state.is_some() {
        *state = None;
    }
}

/// The fields of transfer, and the one that wants memory.
fn transfer_fields(fields: Cursor<'_>) -> Option<(TransferBody, Option<StateRef<'_>>)>
    requires { 5 ≤ fields.depth }
    ensures { ReadsAll transfer_fields (λ b. where_present is_tag b.delivery_tag && where_present is_receiver_mode b.rcv_settle_mode && where_present is_fair_state b.state) fields.entry (option_map transfer_in result) }
{
    let (handle, fields) = fields.required_uint()?;
    let (delivery_id, fields) = fields.uint()?;
    let mut delivery_tag = None;
    let Some(fields) = fields.tag_into(&mut delivery_tag) else {
        return None;
    };
    let (message_format, fields) = fields.uint()?;
    let (settled, fields) = fields.boolean()?;
    let (more, fields) = fields.boolean()?;
    let (rcv_settle_mode, fields) = fields.mode(1)?;
    let mut state = None;
    let Some(fields) = fields.state_into(&mut state) else {
        return None;
    };
    let (resume, fields) = fields.boolean()?;
    let (aborted, fields) = fields.boolean()?;
    let (batchable, fields) = fields.boolean()?;
    if !fields.is_at_end() {
        return None;
    }
    Some((
        TransferBody {
            handle,
            delivery_id,
            delivery_tag,
            message_format,
            settled,
            more,
            rcv_settle_mode,
            state: None,
            resume,
            aborted,
            batchable,
        },
        state,
    ))
}

/// Leaves a transfer in the slot, whatever its fields are.
#[inline(never)]
fn any_into(
    alloc: Global,
    fields: Cursor<'_>,
    slot: &mut Option<Performative>,
) -> Result<(), BodyFault>
    requires { 5 ≤ fields.depth }
    ensures { LeavesKind transfer_type fields.entry result slot.new }
{
    match transfer_fields(fields) {
        Some((mut body, state)) => match keep_state(alloc, state, &mut body.state) {
            Ok(()) => {
                *slot = Some(Performative::Transfer(body));
                Ok(())
            }
            Err(_) => Err(BodyFault::NoMemory),
        },
        None => Err(BodyFault::NoBody),
    }
}

/// Leaves a transfer in the slot.
#[inline(always)]
pub(crate) fn transfer_into(
    alloc: Global,
    fields: Cursor<'_>,
    slot: &mut Option<Performative>,
) -> Result<(), BodyFault>
    requires { 5 ≤ fields.depth }
    ensures { LeavesKind transfer_type fields.entry result slot.new }
{
    if common_into(fields, slot) {
        return Ok(());
    }
    any_into(alloc, fields, slot)
}
