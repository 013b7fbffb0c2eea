//! Reading performatives (part 2, 2.7), each by the table of its fields. A body is read where it lies, and memory is asked for last, so that
//! a flow or a disposition without errors and fields of any type takes none. These two, the frequent ones, are left in a slot: field by field, where one of
//! their kind stands there.
ghost use Rattle.std.specs.Prelude.{◌≤◌, ℕ, IsTrue, option_map};
ghost use Rattle.amqp_performatives.specs.Bodies.{flow_fields, disposition_fields, detach_fields, end_fields, close_fields};
ghost use Rattle.amqp_performatives.specs.Fair.{where_present, is_present, is_fair_error, is_fair_state};
ghost use Rattle.amqp_decoder.specs.Parts.{ReadsAll};
ghost use Rattle.amqp_decoder.specs.Slots.{LeavesKind, is_flow, is_disposition};
ghost use Rattle.amqp_decoder.specs.ReadPerformatives.{ReadsKind, flow_type, disposition_type, detach_type, end_type, close_type};
ghost use Rattle.amqp_decoder.specs.ReadBodies.{flow_in, disposition_in, detach_in};

use crate::borrowed::{ErrorRef, StateRef, ValueRef};
use crate::fault::BodyFault;
use crate::fields::Cursor;
use crate::parts::{keep_value, lone_error, owned_error};
use crate::states::keep_state;
use amqp_performatives::{
    CloseBody, DetachBody, DispositionBody, EndBody, FlowBody, Performative, Role,
};
use std::alloc::Global;

/// Leaves a flow in the slot, whose fields are to be set.
#[inline(never)]
fn make_flow(slot: &mut Option<Performative>)
    ensures { IsTrue (is_flow slot.new) }
{
    *slot = Some(Performative::Flow(FlowBody {
        next_incoming_id: None,
        incoming_window: 0,
        next_outgoing_id: 0,
        outgoing_window: 0,
        handle: None,
        delivery_count: None,
        link_credit: None,
        available: None,
        drain: None,
        echo: None,
        properties: None,
    }));
}

/// Sets each field of a flow but the one that wants memory, and gives that.
#[inline(always)]
fn set_flow<'a>(fields: Cursor<'a>, body: &mut FlowBody) -> Option<Option<ValueRef<'a>>>
    ensures { ReadsAll flow_fields (λ b. where_present is_present b.properties) fields.entry (option_map (λ p. flow_in (body.new, p)) result) }
{
    let (next_incoming_id, fields) = fields.uint()?;
    body.next_incoming_id = next_incoming_id;
    let (incoming_window, fields) = fields.required_uint()?;
    body.incoming_window = incoming_window;
    let (next_outgoing_id, fields) = fields.required_uint()?;
    body.next_outgoing_id = next_outgoing_id;
    let (outgoing_window, fields) = fields.required_uint()?;
    body.outgoing_window = outgoing_window;
    let (handle, fields) = fields.uint()?;
    body.handle = handle;
    let (delivery_count, fields) = fields.uint()?;
    body.delivery_count = delivery_count;
    let (link_credit, fields) = fields.uint()?;
    body.link_credit = link_credit;
    let (available, fields) = fields.uint()?;
    body.available = available;
    let (drain, fields) = fields.boolean()?;
    body.drain = drain;
    let (echo, fields) = fields.boolean()?;
    body.echo = echo;
    let (properties, fields) = fields.any()?;
    if !fields.is_at_end() {
        return None;
    }
    Some(properties)
}

/// Leaves a flow in the slot.
#[inline(always)]
pub(crate) fn flow_into(
    alloc: Global,
    fields: Cursor<'_>,
    slot: &mut Option<Performative>,
) -> Result<(), BodyFault>
    ensures { LeavesKind flow_type fields.entry result slot.new }
{
    match slot {
        Some(Performative::Flow(_)) => {}
        _ => make_flow(slot),
    }
    match slot {
        Some(Performative::Flow(body)) => match set_flow(fields, body) {
            Some(properties) => match keep_value(alloc, properties, &mut body.properties) {
                Ok(()) => Ok(()),
                Err(_) => Err(BodyFault::NoMemory),
            },
            None => Err(BodyFault::NoBody),
        },
        _ => Err(BodyFault::NoBody),
    }
}

/// Leaves a disposition in the slot, whose fields are to be set.
#[inline(never)]
fn make_disposition(slot: &mut Option<Performative>)
    ensures { IsTrue (is_disposition slot.new) }
{
    *slot = Some(Performative::Disposition(DispositionBody {
        role: Role::Sender,
        first: 0,
        last: None,
        settled: None,
        state: None,
        batchable: None,
    }));
}

/// Sets each field of a disposition but its state, which wants memory: that is lent.
#[inline(always)]
fn set_disposition<'a>(
    fields: Cursor<'a>,
    body: &mut DispositionBody,
    state: &mut Option<StateRef<'a>>,
) -> Option<()>
    requires { 5 ≤ fields.depth }
    ensures { ReadsAll disposition_fields (λ b. where_present is_fair_state b.state) fields.entry (option_map (λ _. disposition_in (body.new, state.new)) result) }
{
    let (role, fields) = fields.role()?;
    body.role = role;
    let (first, fields) = fields.required_uint()?;
    body.first = first;
    let (last, fields) = fields.uint()?;
    body.last = last;
    let (settled, fields) = fields.boolean()?;
    body.settled = settled;
    let Some(fields) = fields.state_into(state) else {
        return None;
    };
    let (batchable, fields) = fields.boolean()?;
    body.batchable = batchable;
    if !fields.is_at_end() {
        return None;
    }
    Some(())
}

/// Leaves a disposition in the slot.
#[inline(always)]
pub(crate) fn disposition_into(
    alloc: Global,
    fields: Cursor<'_>,
    slot: &mut Option<Performative>,
) -> Result<(), BodyFault>
    requires { 5 ≤ fields.depth }
    ensures { LeavesKind disposition_type fields.entry result slot.new }
{
    match slot {
        Some(Performative::Disposition(_)) => {}
        _ => make_disposition(slot),
    }
    let mut state = None;
    match slot {
        Some(Performative::Disposition(body)) => match set_disposition(fields, body, &mut state) {
            Some(()) => match keep_state(alloc, state, &mut body.state) {
                Ok(()) => Ok(()),
                Err(_) => Err(BodyFault::NoMemory),
            },
            None => Err(BodyFault::NoBody),
        },
        _ => Err(BodyFault::NoBody),
    }
}

/// The fields of detach, and the one that wants memory.
fn detach_fields(fields: Cursor<'_>) -> Option<(DetachBody, Option<ErrorRef<'_>>)>
    requires { 3 ≤ fields.depth }
    ensures { ReadsAll detach_fields (λ b. where_present is_fair_error b.error) fields.entry (option_map detach_in result) }
{
    let (handle, fields) = fields.required_uint()?;
    let (closed, fields) = fields.boolean()?;
    let (error, fields) = fields.error()?;
    if !fields.is_at_end() {
        return None;
    }
    Some((
        DetachBody {
            handle,
            closed,
            error: None,
        },
        error,
    ))
}

/// Detach.
pub(crate) fn read_detach(alloc: Global, fields: Cursor<'_>) -> Result<Performative, BodyFault>
    requires { 3 ≤ fields.depth }
    ensures { ReadsKind detach_type fields.entry result }
{
    match detach_fields(fields) {
        Some((mut body, error)) => match owned_error(alloc, error) {
            Ok(owned) => {
                body.error = owned;
                Ok(Performative::Detach(body))
            }
            Err(_) => Err(BodyFault::NoMemory),
        },
        None => Err(BodyFault::NoBody),
    }
}

/// End.
pub(crate) fn read_end(alloc: Global, fields: Cursor<'_>) -> Result<Performative, BodyFault>
    requires { 3 ≤ fields.depth }
    ensures { ReadsKind end_type fields.entry result }
{
    match lone_error(fields) {
        Some(error) => match owned_error(alloc, error) {
            Ok(owned) => Ok(Performative::End(EndBody { error: owned })),
            Err(_) => Err(BodyFault::NoMemory),
        },
        None => Err(BodyFault::NoBody),
    }
}

/// Close.
pub(crate) fn read_close(alloc: Global, fields: Cursor<'_>) -> Result<Performative, BodyFault>
    requires { 3 ≤ fields.depth }
    ensures { ReadsKind close_type fields.entry result }
{
    match lone_error(fields) {
        Some(error) => match owned_error(alloc, error) {
            Ok(owned) => Ok(Performative::Close(CloseBody { error: owned })),
            Err(_) => Err(BodyFault::NoMemory),
        },
        None => Err(BodyFault::NoBody),
    }
}
