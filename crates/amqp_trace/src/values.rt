//! Values as text (part 1, 1.6).
ghost use Rattle.std.specs.Prelude.{◌≡◌, ◌++◌, true, codes, decimal, drop, IfOk, OnOk};
ghost use Rattle.amqp_trace.specs.Printed.{are_printable, type_text, comma, Continues};
ghost use Rattle.amqp_trace.specs.Names.{texts, described_type, AreNames};
ghost use Rattle.amqp_trace.specs.Values.{value_text, opened_text, list_text, map_text, described_text, descriptor_text, fields_text, name_text, is_null, leaf_text, boolean_text, bits_text, run_text, binary_text, string_text, symbol_text, is_word, is_of_word};
ghost use Rattle.amqp_types.specs.declared.value.Value.TheViews.{out-Value};

use crate::names::find_named;
use crate::text::Line;
use amqp_types::{MAX_DEPTH, Value};
use std::alloc::{AllocError, Global};

/// The value as text: all of it, where it lies as deep as values that are read.
///
/// # Errors
///
/// Want of memory.
pub fn value_line(alloc: Global, value: &Value) -> Result<Line, AllocError>
    ensures { IfOk result (λ line. line ≡ value_text 32 value.now) }
{
    let mut line = Line::new(alloc);
    put_value(&mut line, value, MAX_DEPTH)?;
    Ok(line)
}

/// Puts the value behind the text; `..` stands for parts that lie deeper.
#[cycle(showing)]
pub(crate) fn put_value(line: &mut Line, value: &Value, depth: u8) -> Result<(), AllocError>
    ensures text { OnOk result (line.new ≡ line.old ++ value_text depth value.now) }
    ensures goes { OnOk result (Continues line.old line.new) }
{
    if depth == 0 {
        return line.put("..");
    }
    put_opened(line, value, depth - 1)
}

/// A value whose parts have this depth.
#[cycle(showing)]
fn put_opened(line: &mut Line, value: &Value, depth: u8) -> Result<(), AllocError>
    ensures text { OnOk result (line.new ≡ line.old ++ opened_text (value_text depth) (out-Value value.now)) }
    ensures goes { OnOk result (Continues line.old line.new) }
{
    match value {
        Value::List(values) => put_values(line, values.as_slice(), depth),
        Value::Map(pairs) => put_pairs(line, pairs.as_slice(), depth),
        Value::Array(code, values) => {
            put_bits(line, "array", u64::from(*code))?;
            put_values(line, values.as_slice(), depth)
        }
        Value::Described(descriptor, value) => {
            put_described(line, descriptor.get(), value.get(), depth)
        }
        _ => put_leaf(line, value),
    }
}

/// A list of values.
#[cycle(showing)]
fn put_values(line: &mut Line, values: &[Value], depth: u8) -> Result<(), AllocError>
    ensures text { OnOk result (line.new ≡ line.old ++ list_text (value_text depth) values.now) }
    ensures goes { OnOk result (Continues line.old line.new) }
{
    line.put("[")?;
    let mut is_first = true;
    for value in values {
        put_comma(line, is_first)?;
        put_value(line, value, depth)?;
        is_first = false;
    }
    line.put("]")
}

/// A map, in the order in which its pairs lie.
#[cycle(showing)]
pub(crate) fn put_pairs(
    line: &mut Line,
    pairs: &[(Value, Value)],
    depth: u8,
) -> Result<(), AllocError>
    ensures text { OnOk result (line.new ≡ line.old ++ map_text (value_text depth) pairs.now) }
    ensures goes { OnOk result (Continues line.old line.new) }
{
    line.put("{")?;
    let mut is_first = true;
    for pair in pairs {
        put_comma(line, is_first)?;
        put_value(line, &pair.0, depth)?;
        line.put("=")?;
        put_value(line, &pair.1, depth)?;
        is_first = false;
    }
    line.put("}")
}

/// A described value; its fields by name where the type is known.
#[cycle(showing)]
fn put_described(
    line: &mut Line,
    descriptor: &Value,
    value: &Value,
    depth: u8,
) -> Result<(), AllocError>
    ensures text { OnOk result (line.new ≡ line.old ++ described_text (value_text depth) (described_type (out-Value descriptor.now)) descriptor.now value.now (out-Value value.now)) }
    ensures goes { OnOk result (Continues line.old line.new) }
{
    match (find_named(descriptor), value) {
        (Some(named), Value::List(values)) => {
            put_type(line, named.name, named.number)?;
            put_named(line, named.fields, values.as_slice(), depth)
        }
        (_, value) => {
            put_descriptor(line, descriptor, depth)?;
            put_value(line, value, depth)
        }
    }
}

/// A descriptor and a space; a number in decimal.
#[cycle(showing)]
fn put_descriptor(line: &mut Line, descriptor: &Value, depth: u8) -> Result<(), AllocError>
    ensures text { OnOk result (line.new ≡ line.old ++ codes "@" ++ descriptor_text (value_text depth) descriptor.now (out-Value descriptor.now) ++ codes " ") }
    ensures goes { OnOk result (Continues line.old line.new) }
{
    line.put("@")?;
    put_bare_descriptor(line, descriptor, depth)?;
    line.put(" ")
}

#[cycle(showing)]
fn put_bare_descriptor(line: &mut Line, descriptor: &Value, depth: u8) -> Result<(), AllocError>
    ensures text { OnOk result (line.new ≡ line.old ++ descriptor_text (value_text depth) descriptor.now (out-Value descriptor.now)) }
    ensures goes { OnOk result (Continues line.old line.new) }
{
    match descriptor {
        Value::Ulong(number) => line.put_decimal(*number),
        _ => put_value(line, descriptor, depth),
    }
}

/// The values that are not null, each behind its name where it has one.
#[cycle(showing)]
fn put_named(
    line: &mut Line,
    names: &[&'static str],
    values: &[Value],
    depth: u8,
) -> Result<(), AllocError>
    requires { AreNames names.now }
    ensures text { OnOk result (line.new ≡ line.old ++ fields_text (value_text depth) (texts names.now) values.now) }
    ensures goes { OnOk result (Continues line.old line.new) }
{
    line.put("[")?;
    let mut is_first = true;
    for (place, value) in values.iter().enumerate() {
        if !is_null(value) {
            put_comma(line, is_first)?;
            put_name(line, names, place)?;
            put_value(line, value, depth)?;
            is_first = false;
        }
    }
    line.put("]")
}

/// The name with this place, if there is one.
#[tactic(auto, using(crate::proofs::Tables::name_printable))]
fn put_name(line: &mut Line, names: &[&'static str], place: usize) -> Result<(), AllocError>
    requires { AreNames names.now }
    ensures text { OnOk result (line.new ≡ line.old ++ name_text (texts (drop place names.now))) }
    ensures goes { OnOk result (Continues line.old line.new) }
{
    if place >= names.len() {
        return Ok(());
    }
    line.put(names[place])?;
    line.put("=")
}

fn is_null(value: &Value) -> bool
    ensures { result ≡ is_null (out-Value value.now) }
{
    match value {
        Value::Null => true,
        _ => false,
    }
}

/// A type's name and number, and a space.
pub(crate) fn put_type(line: &mut Line, name: &str, number: u8) -> Result<(), AllocError>
    requires { are_printable name.now ≡ true }
    ensures text { OnOk result (line.new ≡ line.old ++ type_text name.now number) }
    ensures goes { OnOk result (Continues line.old line.new) }
{
    line.put("@")?;
    line.put(name)?;
    put_number(line, number)
}

/// A number in brackets, and a space.
fn put_number(line: &mut Line, number: u8) -> Result<(), AllocError>
    ensures text { OnOk result (line.new ≡ line.old ++ codes "(" ++ decimal number ++ codes ") ") }
    ensures goes { OnOk result (Continues line.old line.new) }
{
    line.put("(")?;
    line.put_decimal(u64::from(number))?;
    line.put(") ")
}

/// What stands between an entry and the one before it.
pub(crate) fn put_comma(line: &mut Line, is_first: bool) -> Result<(), AllocError>
    ensures text { OnOk result (line.new ≡ line.old ++ comma is_first) }
    ensures goes { OnOk result (Continues line.old line.new) }
{
    line.put(if is_first { "" } else { ", " })
}

/// A value without parts; nothing of one with parts.
fn put_leaf(line: &mut Line, value: &Value) -> Result<(), AllocError>
    ensures text { OnOk result (line.new ≡ line.old ++ leaf_text (out-Value value.now)) }
    ensures goes { OnOk result (Continues line.old line.new) }
{
    match value {
        Value::Bool(b) => put_boolean(line, *b),
        Value::Ubyte(n) => line.put_hex(u64::from(*n)),
        Value::Ushort(n) => line.put_hex(u64::from(*n)),
        Value::Uint(n) => line.put_hex(u64::from(*n)),
        Value::Ulong(n) => line.put_hex(*n),
        Value::Sbyte(n) => line.put_signed(i64::from(*n)),
        Value::Short(n) => line.put_signed(i64::from(*n)),
        Value::Int(n) => line.put_signed(i64::from(*n)),
        Value::Long(n) => line.put_signed(*n),
        Value::FloatBits(bits) => put_bits(line, "float", u64::from(*bits)),
        Value::DoubleBits(bits) => put_bits(line, "double", *bits),
        Value::Dec32(bits) => put_bits(line, "decimal32", u64::from(*bits)),
        Value::Dec64(bits) => put_bits(line, "decimal64", *bits),
        Value::Dec128(octets) => put_run(line, "decimal128", octets),
        Value::Char(c) => put_bits(line, "char", u64::from(u32::from(*c))),
        Value::Timestamp(n) => line.put_signed(*n),
        Value::Uuid(octets) => put_run(line, "uuid", octets),
        Value::Binary(octets) => put_binary(line, octets.as_slice()),
        Value::Str(text) => put_string(line, text.as_str()),
        Value::Symbol(text) => put_symbol(line, text.as_str()),
        Value::Null => line.put("null"),
        _ => Ok(()),
    }
}

pub(crate) fn put_boolean(line: &mut Line, b: bool) -> Result<(), AllocError>
    ensures text { OnOk result (line.new ≡ line.old ++ boolean_text b) }
    ensures goes { OnOk result (Continues line.old line.new) }
{
    line.put(if b { "true" } else { "false" })
}

/// A word, and bits in brackets behind it.
fn put_bits(line: &mut Line, word: &str, bits: u64) -> Result<(), AllocError>
    requires { are_printable word.now ≡ true }
    ensures text { OnOk result (line.new ≡ line.old ++ bits_text word.now bits) }
    ensures goes { OnOk result (Continues line.old line.new) }
{
    line.put(word)?;
    line.put("(")?;
    line.put_hex(bits)?;
    line.put(")")
}

/// A word, and octets that are no text in brackets behind it.
fn put_run(line: &mut Line, word: &str, octets: &[u8]) -> Result<(), AllocError>
    requires { are_printable word.now ≡ true }
    ensures text { OnOk result (line.new ≡ line.old ++ run_text word.now octets.now) }
    ensures goes { OnOk result (Continues line.old line.new) }
{
    line.put(word)?;
    line.put("(")?;
    line.put_hex_octets(octets)?;
    line.put(")")
}

pub(crate) fn put_binary(line: &mut Line, octets: &[u8]) -> Result<(), AllocError>
    ensures text { OnOk result (line.new ≡ line.old ++ binary_text octets.now) }
    ensures goes { OnOk result (Continues line.old line.new) }
{
    line.put("b\"")?;
    line.escape(octets)?;
    line.put("\"")
}

pub(crate) fn put_string(line: &mut Line, text: &str) -> Result<(), AllocError>
    ensures text { OnOk result (line.new ≡ line.old ++ string_text text.now) }
    ensures goes { OnOk result (Continues line.old line.new) }
{
    line.put("\"")?;
    line.escape(text.as_bytes())?;
    line.put("\"")
}

/// A symbol; in quotes where it has more than letters, digits and hyphens.
pub(crate) fn put_symbol(line: &mut Line, text: &str) -> Result<(), AllocError>
    ensures text { OnOk result (line.new ≡ line.old ++ symbol_text text.now) }
    ensures goes { OnOk result (Continues line.old line.new) }
{
    line.put(":")?;
    if is_word(text) {
        line.escape(text.as_bytes())
    } else {
        put_string(line, text)
    }
}

fn is_word(text: &str) -> bool
    ensures { result ≡ is_word text.now }
{
    for octet in text.as_bytes() {
        if !is_of_word(*octet) {
            return false;
        }
    }
    true
}

/// Whether the octet is a letter, a digit or a hyphen.
fn is_of_word(octet: u8) -> bool
    ensures { result ≡ is_of_word octet }
{
    octet.is_ascii_alphanumeric() || octet == b'-'
}
