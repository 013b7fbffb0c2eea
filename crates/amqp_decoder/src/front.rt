//! The performative in front of octets (part 2, 2.7).
ghost use Rattle.std.specs.Prelude.{◌≡◌, ◌≤◌, ◌++◌, ℕ, List, length, take, IfOk, Err};
ghost use Rattle.amqp_types.specs.Heads.{datum_of};
ghost use Rattle.amqp_performatives.specs.declared.performative.Performative.{Performative};
ghost use Rattle.amqp_performatives.specs.Spelling.{IsPerformative};
ghost use Rattle.amqp_types.specs.declared.value.Value.{Value};
ghost use Rattle.amqp_types.specs.Grammar.{Spells};
ghost use Rattle.amqp_types.specs.View.{view};
ghost use Rattle.amqp_performatives.specs.Part.{IsDescriptor};
ghost use Rattle.amqp_decoder.specs.ReadPerformatives.{ReadsDescribed, flow_type, transfer_type, disposition_type};
ghost use Rattle.amqp_decoder.specs.Slots.{LeavesDescribed, LeavesFront};

use crate::fault::BodyFault;
use crate::fields::Cursor;
use crate::opening::open;
use crate::reading::{disposition_into, flow_into, read_close, read_detach, read_end};
use crate::setup::{read_attach, read_begin, read_open};
use crate::transfer::transfer_into;
use amqp_performatives::{Composite, Performative};
use amqp_types::{Descriptor, MAX_DEPTH};
use std::alloc::Global;

/// The performative with this descriptor and these fields, of the kinds that are less frequent.
fn read_described(
    alloc: Global,
    descriptor: Descriptor<'_>,
    fields: Cursor<'_>,
) -> Result<Performative, BodyFault>
    requires deep { 5 ≤ fields.depth }
    requires transfer { IsDescriptor transfer_type (datum_of descriptor) → ⊥ }
    requires flow { IsDescriptor flow_type (datum_of descriptor) → ⊥ }
    requires disposition { IsDescriptor disposition_type (datum_of descriptor) → ⊥ }
    ensures { ReadsDescribed (datum_of descriptor.entry) fields.entry result }
{
    if Composite::Open.is_named(descriptor) {
        return read_open(alloc, fields);
    }
    if Composite::Begin.is_named(descriptor) {
        return read_begin(alloc, fields);
    }
    if Composite::Attach.is_named(descriptor) {
        return read_attach(alloc, fields);
    }
    if Composite::Detach.is_named(descriptor) {
        return read_detach(alloc, fields);
    }
    if Composite::End.is_named(descriptor) {
        return read_end(alloc, fields);
    }
    if Composite::Close.is_named(descriptor) {
        return read_close(alloc, fields);
    }
    Err(BodyFault::NoBody)
}

/// Leaves the performative with this descriptor and these fields in the slot, of the kinds that are less frequent.
#[inline(never)]
fn rare_into(
    alloc: Global,
    descriptor: Descriptor<'_>,
    fields: Cursor<'_>,
    slot: &mut Option<Performative>,
) -> Result<(), BodyFault>
    requires deep { 5 ≤ fields.depth }
    requires transfer { IsDescriptor transfer_type (datum_of descriptor) → ⊥ }
    requires flow { IsDescriptor flow_type (datum_of descriptor) → ⊥ }
    requires disposition { IsDescriptor disposition_type (datum_of descriptor) → ⊥ }
    ensures { LeavesDescribed (datum_of descriptor.entry) fields.entry result slot.new }
{
    match read_described(alloc, descriptor, fields) {
        Ok(performative) => {
            *slot = Some(performative);
            Ok(())
        }
        Err(fault) => Err(fault),
    }
}

/// The same, of each kind.
#[inline(always)]
fn described_into(
    alloc: Global,
    descriptor: Descriptor<'_>,
    fields: Cursor<'_>,
    slot: &mut Option<Performative>,
) -> Result<(), BodyFault>
    requires { 5 ≤ fields.depth }
    ensures { LeavesDescribed (datum_of descriptor.entry) fields.entry result slot.new }
{
    if Composite::Transfer.is_named(descriptor) {
        return transfer_into(alloc, fields, slot);
    }
    if Composite::Flow.is_named(descriptor) {
        return flow_into(alloc, fields, slot);
    }
    if Composite::Disposition.is_named(descriptor) {
        return disposition_into(alloc, fields, slot);
    }
    rare_into(alloc, descriptor, fields, slot)
}

/// Leaves the performative at the front of the octets in the slot, and tells how many octets spell it: what `read_performative` reads, without
/// a move of it. After a fault the slot may hold anything.
///
/// # Errors
///
/// Those of `read_performative`.
#[inline(always)]
pub fn read_performative_into(
    alloc: Global,
    octets: &[u8],
    slot: &mut Option<Performative>,
) -> Result<usize, BodyFault>
    ensures { LeavesFront octets.now result slot.new }
{
    match open(octets, MAX_DEPTH) {
        Some(opened) => match described_into(alloc, opened.descriptor, opened.fields, slot) {
            Ok(()) => Ok(opened.used),
            Err(fault) => Err(fault),
        },
        None => Err(BodyFault::NoBody),
    }
}

/// Reads the performative at the front of the octets (part 1, 1.4; part 2, 2.7), and tells how many octets spell it.
///
/// # Errors
///
/// `NoBody` where no performative is in front, and `NoMemory` where one is and there is no memory for what it owns.
pub fn read_performative(alloc: Global, octets: &[u8]) -> Result<(Performative, usize), BodyFault>
    ensures found { IfOk result (λ found. (found.1 ≤ length octets.now) × IsPerformative found.0 (take found.1 octets.now)) }
    ensures none { result ≡ Err BodyFault.NoBody → (p : Performative) (x rest : List ℕ) → IsPerformative p x → octets.now ≡ x ++ rest → ⊥ }
    ensures memory { result ≡ Err BodyFault.NoMemory → (p : Performative) × (x rest : List ℕ) × IsPerformative p x × (octets.now ≡ x ++ rest) }
{
    let mut slot = None;
    match read_performative_into(alloc, octets, &mut slot) {
        Ok(used) => match slot {
            Some(performative) => Ok((performative, used)),
            None => Err(BodyFault::NoBody),
        },
        Err(fault) => Err(fault),
    }
}

/// Octets spell at most one value.
pub fn one_value()
    ensures { (a b : Value) (x : List ℕ) → Spells (view a) x → Spells (view b) x → a ≡ b }
{}

/// Octets spell at most one performative.
pub fn one_performative()
    ensures { (p q : Performative) (x : List ℕ) → IsPerformative p x → IsPerformative q x → p ≡ q }
{}
