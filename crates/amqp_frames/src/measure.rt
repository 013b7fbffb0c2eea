//! Measures the octets that fields take, without allocating. A sum that does not fit a `u64` is `u64::MAX`.
ghost use Rattle.std.specs.Prelude.{◌≡◌, ◌≤◌, ℕ, None, length, option_map};
ghost use Rattle.amqp_types.specs.Canon.{capped, part_form};
ghost use Rattle.amqp_types.specs.Datum.{count_of};
ghost use Rattle.amqp_performatives.specs.Composite.{type_of};
ghost use Rattle.amqp_performatives.specs.Part.{canonical};
ghost use Rattle.amqp_performatives.specs.Bodies.{symbol, mapping, any, error, state};
ghost use Rattle.amqp_frames.specs.Field.{form_within, forms_within, measured, composite_datum};
ghost use Rattle.amqp_performatives.specs.Listed.{part_at, is_absent, shown_fields};

use crate::leaf::{list_len, run_len, ubyte_size, ushort_size};
use amqp_performatives::field::Field;
use amqp_performatives::listed::{error_fields, shown_count};
use amqp_performatives::{AmqpError, Composite, DeliveryState};
use amqp_types::{
    MAX_DEPTH, Value, is_symbol, map_size_within, size_within, uint_size, ulong_size,
};

/// How deep a field may be nested: it lies in a list, which lies in a described value.
pub(crate) const FIELD_DEPTH: u8 = MAX_DEPTH - 2;

/// The count of fields, and how many octets they take together.
#[derive(Clone, Copy)]
pub(crate) struct Measure {
    pub(crate) count: u64,
    pub(crate) size: u64,
}

/// Returns `None` if the field is nested more than `depth` deep, or holds a value that has no encoding.
#[cycle(measuring)]
fn field_len(field: &Field<'_>, depth: u8) -> Option<u64>
    ensures { result ≡ capped (form_within depth (canonical (part_at field.now))) }
{
    if depth == 0 {
        return None;
    }
    match field {
        Field::Absent => Some(1),
        Field::Boolean(_) => Some(1),
        Field::Ubyte(n) => Some(ubyte_size(*n)),
        Field::Ushort(n) => Some(ushort_size(*n)),
        Field::Uint(n) => Some(uint_size(*n) as u64),
        Field::Ulong(n) => Some(ulong_size(*n) as u64),
        Field::Binary(octets) => run_len(octets.len()),
        Field::Str(text) => run_len(text.as_bytes().len()),
        Field::Symbol(text) => symbol_len(text),
        Field::Mapping(pairs) => map_len(pairs, depth),
        Field::Any(value) => any_len(value, depth),
        Field::State(reached) => state_len(reached, depth),
        Field::Failure(failed) => error_len(failed, depth),
    }
}

/// Out of line, as are `map_len` and `any_len`: the common fields are then measured without the work that these need.
#[inline(never)]
fn symbol_len(text: &str) -> Option<u64>
    ensures { result ≡ capped (part_form None (canonical (symbol text.now))) }
{
    if is_symbol(text) {
        run_len(text.as_bytes().len())
    } else {
        None
    }
}

#[inline(never)]
fn map_len(pairs: &[(Value, Value)], depth: u8) -> Option<u64>
    ensures { result ≡ capped (form_within depth (canonical (mapping pairs.now))) }
{
    map_size_within(depth, pairs)
}

#[inline(never)]
fn any_len(value: &Value, depth: u8) -> Option<u64>
    ensures { result ≡ capped (form_within depth (canonical (any value.now))) }
{
    size_within(depth, value)
}

#[inline(never)]
#[cycle(measuring)]
fn error_len(failed: &AmqpError, depth: u8) -> Option<u64>
    ensures { result ≡ capped (form_within depth (canonical (error failed.now))) }
{
    composite_len(Composite::Error, &error_fields(failed), depth)
}

#[inline(never)]
#[cycle(measuring)]
fn state_len(reached: &DeliveryState, depth: u8) -> Option<u64>
    ensures { result ≡ capped (form_within depth (canonical (state reached.now))) }
{
    match reached.listed() {
        Ok(listed) => composite_len(listed.composite(), listed.fields(), depth),
        Err(value) => size_within(depth, value),
    }
}

#[cycle(measuring)]
fn composite_len(composite: Composite, fields: &[Field<'_>], depth: u8) -> Option<u64>
    ensures { result ≡ capped (form_within depth (composite_datum (type_of composite).0 (shown_fields fields.now))) }
{
    if depth < 2 {
        return None;
    }
    // For the proof: the descriptor's number is below 256.
    let _code = composite.number();
    let measure = fields_len(fields, depth - 2)?;
    let size = list_len(measure.count, measure.size)?;
    Some(size + 3)
}

/// Measures the fields up to the last present one. Returns `None` if one has no encoding nested at most `depth` deep.
#[cycle(measuring)]
pub(crate) fn fields_len(fields: &[Field<'_>], depth: u8) -> Option<Measure>
    ensures { option_map (λ m. (m.count, m.size)) result ≡ measured (count_of (shown_fields fields.now)) (forms_within depth (shown_fields fields.now)) }
{
    let count = shown_count(fields);
    let mut size: u64 = 0;
    for i in 0..count {
        let more = field_len(&fields[i], depth)?;
        size = size.saturating_add(more);
    }
    Some(Measure {
        count: count as u64,
        size,
    })
}
