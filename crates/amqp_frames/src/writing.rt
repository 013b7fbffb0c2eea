//! Appends fields and composite types to octets. After an error a part of them may have been appended.
ghost use Rattle.std.specs.Prelude.{◌≡◌, Some, None, OnOk};
ghost use Rattle.amqp_types.specs.Canon.{canon, part_form, parts_form};
ghost use Rattle.amqp_types.specs.Datum.{count_of};
ghost use Rattle.amqp_performatives.specs.Part.{canonical};
ghost use Rattle.amqp_performatives.specs.Composite.{type_of};
ghost use Rattle.amqp_performatives.specs.Bodies.{symbol, mapping, any, error, state};
ghost use Rattle.amqp_frames.specs.Field.{composite_datum, added};
ghost use Rattle.amqp_frames.specs.Measuring.{IsListMeasure};
ghost use Rattle.amqp_performatives.specs.Listed.{part_at, shown_fields};

use crate::leaf::{put_list_head, put_run};
use crate::measure::{FIELD_DEPTH, Measure, fields_len};
use amqp_performatives::field::Field;
use amqp_performatives::listed::error_fields;
use amqp_performatives::{AmqpError, Composite, DeliveryState};
use amqp_types::{
    Value, WriteFault, append_map, append_value, is_symbol, write_boolean, write_null, write_ubyte,
    write_uint, write_ulong, write_ushort,
};

/// Writes the field, nested at most `depth` deep; an absent field is written as null.
#[cycle(writing)]
fn put_field(field: &Field<'_>, depth: u8, out: &mut Vec<u8>) -> Result<(), WriteFault>
    ensures { OnOk result (added out.old.items (part_form None (canonical (part_at field.now))) ≡ Some out.new.items) }
{
    match field {
        Field::Absent => Ok(write_null(out)?),
        Field::Boolean(b) => Ok(write_boolean(out, *b)?),
        Field::Ubyte(n) => Ok(write_ubyte(out, *n)?),
        Field::Ushort(n) => Ok(write_ushort(out, *n)?),
        Field::Uint(n) => Ok(write_uint(out, *n)?),
        Field::Ulong(n) => Ok(write_ulong(out, *n)?),
        Field::Binary(octets) => put_run(0xa0, 0xb0, octets, out),
        Field::Str(text) => put_run(0xa1, 0xb1, text.as_bytes(), out),
        Field::Symbol(text) => put_symbol(text, out),
        Field::Mapping(pairs) => put_map(pairs, out),
        Field::Any(value) => put_any(value, out),
        Field::State(reached) => put_state(reached, depth, out),
        Field::Failure(failed) => put_error(failed, depth, out),
    }
}

/// Out of line, as are `put_map` and `put_any`: the common fields are then written without the work that these need.
#[inline(never)]
fn put_symbol(text: &str, out: &mut Vec<u8>) -> Result<(), WriteFault>
    ensures { OnOk result (added out.old.items (part_form None (canonical (symbol text.now))) ≡ Some out.new.items) }
{
    if is_symbol(text) {
        put_run(0xa3, 0xb3, text.as_bytes(), out)
    } else {
        Err(WriteFault::NotWritable)
    }
}

#[inline(never)]
fn put_map(pairs: &[(Value, Value)], out: &mut Vec<u8>) -> Result<(), WriteFault>
    ensures { OnOk result (added out.old.items (part_form None (canonical (mapping pairs.now))) ≡ Some out.new.items) }
{
    append_map(pairs, out)
}

#[inline(never)]
fn put_any(value: &Value, out: &mut Vec<u8>) -> Result<(), WriteFault>
    ensures { OnOk result (added out.old.items (part_form None (canonical (any value.now))) ≡ Some out.new.items) }
{
    append_value(value, out)
}

#[inline(never)]
#[cycle(writing)]
fn put_error(failed: &AmqpError, depth: u8, out: &mut Vec<u8>) -> Result<(), WriteFault>
    ensures { OnOk result (added out.old.items (part_form None (canonical (error failed.now))) ≡ Some out.new.items) }
{
    put_composite(Composite::Error, &error_fields(failed), depth, out)
}

#[inline(never)]
#[cycle(writing)]
fn put_state(reached: &DeliveryState, depth: u8, out: &mut Vec<u8>) -> Result<(), WriteFault>
    ensures { OnOk result (added out.old.items (part_form None (canonical (state reached.now))) ≡ Some out.new.items) }
{
    match reached.listed() {
        Ok(listed) => put_composite(listed.composite(), listed.fields(), depth, out),
        Err(value) => append_value(value, out),
    }
}

#[cycle(writing)]
fn put_composite(
    composite: Composite,
    fields: &[Field<'_>],
    depth: u8,
    out: &mut Vec<u8>,
) -> Result<(), WriteFault>
    ensures { OnOk result (added out.old.items (part_form None (composite_datum (type_of composite).0 (shown_fields fields.now))) ≡ Some out.new.items) }
{
    if depth < 2 {
        return Err(WriteFault::NotWritable);
    }
    match fields_len(fields, depth - 2) {
        Some(measure) => put_described(composite, fields, measure, depth - 2, out),
        None => Err(WriteFault::NotWritable),
    }
}

#[cycle(writing)]
fn put_described(
    composite: Composite,
    fields: &[Field<'_>],
    measure: Measure,
    depth: u8,
    out: &mut Vec<u8>,
) -> Result<(), WriteFault>
    requires { IsListMeasure depth measure (shown_fields fields.now) }
    ensures { OnOk result (added out.old.items (part_form None (composite_datum (type_of composite).0 (shown_fields fields.now))) ≡ Some out.new.items) }
{
    out.extend_from_slice(&[0x00, 0x53, composite.number()])?;
    put_list_head(measure.count, measure.size, out)?;
    put_fields(fields, measure.count as usize, depth, out)
}

/// Appends the described list of a performative's fields, whose measure is known.
pub(crate) fn put_list(
    composite: Composite,
    fields: &[Field<'_>],
    list: Measure,
    out: &mut Vec<u8>,
) -> Result<(), WriteFault>
    requires { IsListMeasure 30 list (shown_fields fields.now) }
    ensures { OnOk result (added out.old.items (canon (composite_datum (type_of composite).0 (shown_fields fields.now))) ≡ Some out.new.items) }
{
    put_described(composite, fields, list, FIELD_DEPTH, out)
}

/// Writes the first `count` fields: absent fields at the end of a list are not written (part 1, 1.4).
#[cycle(writing)]
fn put_fields(
    fields: &[Field<'_>],
    count: usize,
    depth: u8,
    out: &mut Vec<u8>,
) -> Result<(), WriteFault>
    requires { count ≡ count_of (shown_fields fields.now) }
    ensures { OnOk result (added out.old.items (parts_form (shown_fields fields.now) None) ≡ Some out.new.items) }
{
    for i in 0..count {
        put_field(&fields[i], depth, out)?;
    }
    Ok(())
}
