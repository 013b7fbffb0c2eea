//! Performatives, and what stands in their fields, as text.
ghost use Rattle.std.specs.Prelude.{◌≡◌, ◌++◌, true, codes, OnOk};
ghost use Rattle.amqp_performatives.specs.Composite.{type_of};
ghost use Rattle.amqp_performatives.specs.Listed.{part_at, fields_at, is_absent};
ghost use Rattle.amqp_trace.specs.Printed.{are_printable, type_text, comma, Continues};
ghost use Rattle.amqp_trace.specs.Names.{type_name, field_names, texts, AreNames};
ghost use Rattle.amqp_trace.specs.Lines.{present, Entries, IsListed, IsPerformative};

use crate::names::{field_names, type_name};
use crate::text::Line;
use crate::values::{
    put_binary, put_boolean, put_comma, put_pairs, put_string, put_symbol, put_type, put_value,
};
use amqp_performatives::field::Field;
use amqp_performatives::listed::error_fields;
use amqp_performatives::{AmqpError, Composite, DeliveryState, Performative};
use amqp_types::MAX_DEPTH;
use std::alloc::AllocError;

/// Puts the performative behind the text.
pub(crate) fn put_performative(line: &mut Line, body: &Performative) -> Result<(), AllocError>
    ensures { OnOk result (IsPerformative body.now line.old line.new) }
{
    let listed = body.listed();
    put_composite(line, listed.composite(), listed.fields(), MAX_DEPTH)
}

/// A composite, with the fields that are present.
#[tactic(auto, using(crate::proofs::Tables::fields_printable))]
#[cycle(listing)]
fn put_composite(
    line: &mut Line,
    kind: Composite,
    fields: &[Field<'_>],
    depth: u8,
) -> Result<(), AllocError>
    ensures listed { OnOk result (IsListed kind (present (field_names kind) (fields_at fields.now)) line.old line.new) }
    ensures goes { OnOk result (Continues line.old line.new) }
{
    put_front(line, kind)?;
    put_entries(line, field_names(kind), fields, depth)?;
    line.put("]")
}

/// What stands in front of the entries.
#[tactic(auto, using(crate::proofs::Tables::type_printable))]
fn put_front(line: &mut Line, kind: Composite) -> Result<(), AllocError>
    ensures text { OnOk result (line.new ≡ line.old ++ type_text (type_name kind) (type_of kind).0 ++ codes "[") }
    ensures goes { OnOk result (Continues line.old line.new) }
{
    put_type(line, type_name(kind), kind.number())?;
    line.put("[")
}

/// The fields that are present, each behind its name.
#[cycle(listing)]
fn put_entries(
    line: &mut Line,
    names: &[&'static str],
    fields: &[Field<'_>],
    depth: u8,
) -> Result<(), AllocError>
    requires { AreNames names.now }
    ensures entries { OnOk result (Entries true (present (texts names.now) (fields_at fields.now)) line.old line.new) }
    ensures goes { OnOk result (Continues line.old line.new) }
{
    let mut is_first = true;
    for place in 0..fields.len().min(names.len()) {
        if !is_absent(&fields[place]) {
            put_name(line, names[place], is_first)?;
            put_field(line, &fields[place], depth)?;
            is_first = false;
        }
    }
    Ok(())
}

/// What stands in front of an entry's value.
fn put_name(line: &mut Line, name: &str, is_first: bool) -> Result<(), AllocError>
    requires { are_printable name.now ≡ true }
    ensures text { OnOk result (line.new ≡ line.old ++ comma is_first ++ name.now ++ codes "=") }
    ensures goes { OnOk result (Continues line.old line.new) }
{
    put_comma(line, is_first)?;
    line.put(name)?;
    line.put("=")
}

fn is_absent(field: &Field<'_>) -> bool
    ensures { result ≡ is_absent (part_at field.now) }
{
    match field {
        Field::Absent => true,
        _ => false,
    }
}

#[cycle(listing)]
fn put_field(line: &mut Line, field: &Field<'_>, depth: u8) -> Result<(), AllocError>
    ensures { OnOk result (Continues line.old line.new) }
{
    match field {
        Field::Absent => line.put("null"),
        Field::Boolean(b) => put_boolean(line, *b),
        Field::Ubyte(n) => line.put_hex(u64::from(*n)),
        Field::Ushort(n) => line.put_hex(u64::from(*n)),
        Field::Uint(n) => line.put_hex(u64::from(*n)),
        Field::Ulong(n) => line.put_hex(*n),
        Field::Binary(octets) => put_binary(line, octets),
        Field::Str(text) => put_string(line, text),
        Field::Symbol(text) => put_symbol(line, text),
        Field::Mapping(pairs) => put_pairs(line, pairs, depth),
        Field::Any(value) => put_value(line, value, depth),
        Field::State(reached) => put_state(line, reached, depth),
        Field::Failure(failed) => put_error(line, failed, depth),
    }
}

#[cycle(listing)]
fn put_error(line: &mut Line, failed: &AmqpError, depth: u8) -> Result<(), AllocError>
    ensures { OnOk result (Continues line.old line.new) }
{
    if depth == 0 {
        return line.put("..");
    }
    let from = line.len();
    put_composite(line, Composite::Error, &error_fields(failed), depth - 1)?;
    line.mark_error(from);
    Ok(())
}

#[cycle(listing)]
fn put_state(line: &mut Line, reached: &DeliveryState, depth: u8) -> Result<(), AllocError>
    ensures { OnOk result (Continues line.old line.new) }
{
    if depth == 0 {
        return line.put("..");
    }
    match reached.listed() {
        Ok(listed) => put_composite(line, listed.composite(), listed.fields(), depth - 1),
        Err(value) => put_value(line, value, depth),
    }
}
