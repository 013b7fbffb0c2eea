//! Delivery states (part 3, 3.4).
ghost use Rattle.std.specs.Prelude.{◌≡◌, ◌≤◌, ◌&&◌, false, ℕ, IfOk, OnOk, IfSome, MatchOption, option_map};
ghost use Rattle.amqp_types.specs.Heads.{datum_of};
ghost use Rattle.amqp_performatives.specs.Bodies.{state as state_part, optional};
ghost use Rattle.amqp_performatives.specs.Fair.{where_present, is_present, is_fair_state, names_state};
ghost use Rattle.amqp_decoder.specs.Opening.{NoStateNamed, IsBareList};
ghost use Rattle.amqp_performatives.specs.Part.{IsDescriptor};
ghost use Rattle.amqp_decoder.specs.Parts.{ReadsAll, state_in, values_in};
ghost use Rattle.amqp_decoder.specs.Reading.{Reads, MissesAbsent, every};
ghost use Rattle.amqp_decoder.specs.States.{type_of, is_of, received_fields, modified_fields, state_fields};

use crate::borrowed::{StateRef, ValueRef};
use crate::fields::Cursor;
use crate::opening::open;
use crate::parts::{lone_error, owned_error, owned_value};
use amqp_performatives::{Composite, DeliveryState};
use amqp_types::{Descriptor, read_descriptor};
use std::alloc::{AllocError, Global};

/// The types of delivery states.
#[derive(Clone, Copy)]
enum StateKind {
    Received,
    Accepted,
    Rejected,
    Released,
    Modified,
}

/// The number of the described list without items in front of the octets, where four of them spell it, the fewest that can.
#[inline(always)]
fn bare_list(octets: &[u8]) -> Option<u8>
    ensures { IfSome result (λ number. IsBareList number octets.now) }
{
    let (described, rest) = octets.split_first()?;
    let (small_ulong, rest) = rest.split_first()?;
    let (number, rest) = rest.split_first()?;
    let (empty_list, _) = rest.split_first()?;
    if *described != 0x00 {
        return None;
    }
    if *small_ulong != 0x53 {
        return None;
    }
    if *empty_list != 0x45 {
        return None;
    }
    Some(*number)
}

/// The type that the descriptor names.
#[inline]
fn state_kind(descriptor: Descriptor<'_>) -> Option<StateKind>
    ensures { MatchOption result (names_state (datum_of descriptor.entry) ≡ false) (λ k. IsDescriptor (type_of k) (datum_of descriptor.entry)) }
{
    if Composite::Accepted.is_named(descriptor) {
        return Some(StateKind::Accepted);
    }
    if Composite::Received.is_named(descriptor) {
        return Some(StateKind::Received);
    }
    if Composite::Rejected.is_named(descriptor) {
        return Some(StateKind::Rejected);
    }
    if Composite::Released.is_named(descriptor) {
        return Some(StateKind::Released);
    }
    if Composite::Modified.is_named(descriptor) {
        return Some(StateKind::Modified);
    }
    None
}

/// The fields of received (part 3, 3.4.1).
fn received_fields(fields: Cursor<'_>) -> Option<(u32, u64)>
    ensures { ReadsAll received_fields every fields.entry result }
{
    let (section_number, fields) = fields.required_uint()?;
    let (section_offset, fields) = fields.required_ulong()?;
    if !fields.is_at_end() {
        return None;
    }
    Some((section_number, section_offset))
}

/// The fields of modified (part 3, 3.4.5).
fn modified_fields(fields: Cursor<'_>) -> Option<(Option<bool>, Option<bool>, Option<ValueRef<'_>>)>
    ensures { ReadsAll modified_fields (λ m. where_present is_present m.2) fields.entry (option_map (λ r. (r.0, r.1, values_in r.2)) result) }
{
    let (delivery_failed, fields) = fields.boolean()?;
    let (undeliverable_here, fields) = fields.boolean()?;
    let (message_annotations, fields) = fields.any()?;
    if !fields.is_at_end() {
        return None;
    }
    Some((delivery_failed, undeliverable_here, message_annotations))
}

/// The state of this type that has these fields.
fn state_fields(kind: StateKind, fields: Cursor<'_>) -> Option<StateRef<'_>>
    requires { 3 ≤ fields.depth }
    ensures { ReadsAll state_fields (λ s. is_of kind s && is_fair_state s) fields.entry (option_map state_in result) }
{
    match kind {
        StateKind::Received => match received_fields(fields) {
            Some((section_number, section_offset)) => Some(StateRef::Received {
                section_number,
                section_offset,
            }),
            None => None,
        },
        StateKind::Accepted => if fields.is_at_end() {
            Some(StateRef::Accepted)
        } else {
            None
        },
        StateKind::Rejected => match lone_error(fields) {
            Some(error) => Some(StateRef::Rejected(error)),
            None => None,
        },
        StateKind::Released => if fields.is_at_end() {
            Some(StateRef::Released)
        } else {
            None
        },
        StateKind::Modified => match modified_fields(fields) {
            Some((delivery_failed, undeliverable_here, message_annotations)) => Some(
                StateRef::Modified {
                    delivery_failed,
                    undeliverable_here,
                    message_annotations,
                },
            ),
            None => None,
        },
    }
}

impl<'a> Cursor<'a> {
    /// A state that is none of the five, as a transaction's: kept as it is.
    fn other_state(self) -> Option<(StateRef<'a>, Cursor<'a>)>
        requires deep { 5 ≤ self.depth }
        requires present { MissesAbsent self.left self.octets.now }
        requires other { NoStateNamed self.depth self.octets.now }
        ensures { Reads state_part is_fair_state self.entry (option_map (λ r. (state_in r.0, r.1)) result) }
    {
        match self.value() {
            Some((value, others)) => Some((StateRef::Other(value), others)),
            None => None,
        }
    }

    /// A state that is there, of whatever spelling.
    fn required_state(self) -> Option<(StateRef<'a>, Cursor<'a>)>
        requires deep { 5 ≤ self.depth }
        requires present { MissesAbsent self.left self.octets.now }
        ensures { Reads state_part is_fair_state self.entry (option_map (λ r. (state_in r.0, r.1)) result) }
    {
        match open(self.octets, self.depth as u8) {
            Some(opened) => match state_kind(opened.descriptor) {
                Some(kind) => match state_fields(kind, opened.fields) {
                    Some(state) => Some((state, self.after(opened.used))),
                    None => None,
                },
                None => self.other_state(),
            },
            None => match read_descriptor(self.octets) {
                Some((descriptor, _)) => match state_kind(descriptor) {
                    Some(_) => None,
                    None => self.other_state(),
                },
                None => self.other_state(),
            },
        }
    }

    /// The same, left in the slot.
    #[inline(never)]
    fn required_state_into(self, slot: &mut Option<StateRef<'a>>) -> Option<Cursor<'a>>
        requires deep { 5 ≤ self.depth }
        requires present { MissesAbsent self.left self.octets.now }
        ensures { Reads (optional state_part) (where_present is_fair_state) self.entry (option_map (λ others. (option_map state_in slot.new, others)) result) }
    {
        match self.required_state() {
            Some((state, others)) => {
                *slot = Some(state);
                Some(others)
            }
            None => None,
        }
    }

    /// A state, left in the slot: accepted and released at once, where they are spelled in four octets.
    #[inline(always)]
    pub(crate) fn state_into(self, slot: &mut Option<StateRef<'a>>) -> Option<Cursor<'a>>
        requires { 5 ≤ self.depth }
        ensures { Reads (optional state_part) (where_present is_fair_state) self.entry (option_map (λ others. (option_map state_in slot.new, others)) result) }
    {
        if let Some(others) = self.absent() {
            *slot = None;
            return Some(others);
        }
        match bare_list(self.octets) {
            Some(0x24) => {
                *slot = Some(StateRef::Accepted);
                Some(self.after(4))
            }
            Some(0x26) => {
                *slot = Some(StateRef::Released);
                Some(self.after(4))
            }
            _ => self.required_state_into(slot),
        }
    }
}

/// A state in memory of its own.
fn owned_present(alloc: Global, state: StateRef<'_>) -> Result<DeliveryState, AllocError>
    ensures part { IfOk result (λ s. state_part s ≡ state_part (state_in state.entry)) }
    ensures fair { IfOk result (λ s. is_fair_state s ≡ is_fair_state (state_in state.entry)) }
{
    match state {
        StateRef::Received {
            section_number,
            section_offset,
        } => Ok(DeliveryState::Received {
            section_number,
            section_offset,
        }),
        StateRef::Accepted => Ok(DeliveryState::Accepted),
        StateRef::Rejected(borrowed) => {
            let error = owned_error(alloc, borrowed)?;
            Ok(DeliveryState::Rejected(error))
        }
        StateRef::Released => Ok(DeliveryState::Released),
        StateRef::Modified {
            delivery_failed,
            undeliverable_here,
            message_annotations,
        } => {
            let message_annotations = owned_value(alloc, message_annotations)?;
            Ok(DeliveryState::Modified {
                delivery_failed,
                undeliverable_here,
                message_annotations,
            })
        }
        StateRef::Other(borrowed) => {
            let value = borrowed.boxed(alloc)?;
            Ok(DeliveryState::Other(value))
        }
    }
}

/// A state, where there is one, in memory of its own in a slot. Where there is none, and none was, nothing is dropped.
#[inline(always)]
pub(crate) fn keep_state(
    alloc: Global,
    state: Option<StateRef<'_>>,
    slot: &mut Option<DeliveryState>,
) -> Result<(), AllocError>
    ensures part { OnOk result (optional state_part slot.new ≡ optional state_part (option_map state_in state.entry)) }
    ensures fair { OnOk result (where_present is_fair_state slot.new ≡ where_present is_fair_state (option_map state_in state.entry)) }
{
    match state {
        Some(borrowed) => {
            let state = owned_present(alloc, borrowed)?;
            *slot = Some(state);
        }
        None => {
            if slot.is_some() {
                *slot = None;
            }
        }
    }
    Ok(())
}
