//! Messages that were taken, as JSON (RFC 8259): an object and the end of a line.
ghost use Rattle.std.specs.Prelude.{◌≤◌, length};

use crate::printing::{is_null, name_of, names_of};
use amqp_messages::{MessageFault, Section, SectionKind};
use amqp_trace::value_line;
use amqp_types::{MAX_DEPTH, Value};
use std::alloc::Global;
use std::io;
use std::io::Write;

/// A message: its sections by name, the fields of header and properties by theirs. Data sections are one text, or hexadecimal if they are no text; sequences are one
/// list.
pub(crate) fn write_message<W: Write>(
    alloc: Global,
    sections: &[Section],
    out: &mut W,
) -> io::Result<()> {
    out.write_all(b"{")?;
    for place in 0..sections.len() {
        if !goes_on(sections, place) {
            write_comma(place == 0, out)?;
            write_member(alloc, &sections[place..], out)?;
        }
    }
    out.write_all(b"}\n")
}

/// Writes octets that are no message, behind why they are none.
pub(crate) fn write_octets<W: Write>(
    why: MessageFault,
    octets: &[u8],
    out: &mut W,
) -> io::Result<()> {
    write!(out, "{{\"no-message\":\"{why}\",\"octets-hex\":\"")?;
    write_hex(octets, out)?;
    out.write_all(b"\"}\n")
}

/// Whether the section at this place is of a body, and not the first one of it (part 3, 3.2).
fn goes_on(sections: &[Section], place: usize) -> bool
    requires { place ≤ length sections.now }
{
    match (sections[..place].last(), sections.get(place)) {
        (Some(before), Some(section)) => are_one(before.kind, section.kind),
        _ => false,
    }
}

fn are_one(before: SectionKind, kind: SectionKind) -> bool {
    match (before, kind) {
        (SectionKind::Data, SectionKind::Data) => true,
        (SectionKind::AmqpSequence, SectionKind::AmqpSequence) => true,
        _ => false,
    }
}

/// The first section by its name; data and sequences with those of the same kind behind it.
fn write_member<W: Write>(alloc: Global, sections: &[Section], out: &mut W) -> io::Result<()> {
    let Some(first) = sections.first() else {
        return Ok(());
    };
    match (first.kind, &first.body) {
        (SectionKind::Data, _) => write_data(sections, out),
        (SectionKind::AmqpSequence, _) => write_sequences(alloc, sections, out),
        (kind, Value::List(fields)) if !names_of(kind).is_empty() => {
            write_key(name_of(kind), out)?;
            write_fields(alloc, names_of(kind), fields.as_slice(), out)
        }
        (kind, body) => {
            write_key(name_of(kind), out)?;
            write_value(alloc, body, MAX_DEPTH, out)
        }
    }
}

/// A name in quotes, and a colon. No name has what is to be escaped.
fn write_key<W: Write>(name: &str, out: &mut W) -> io::Result<()> {
    write!(out, "\"{name}\":")
}

/// Writes what separates a member from the one before it.
fn write_comma<W: Write>(is_first: bool, out: &mut W) -> io::Result<()> {
    if is_first {
        Ok(())
    } else {
        out.write_all(b",")
    }
}

fn write_data<W: Write>(sections: &[Section], out: &mut W) -> io::Result<()> {
    let is_text = sections.iter().all(is_text);
    write_key(if is_text { "data" } else { "data-hex" }, out)?;
    out.write_all(b"\"")?;
    for section in sections {
        if let (SectionKind::Data, Value::Binary(octets)) = (section.kind, &section.body) {
            write_datum(is_text, octets.as_slice(), out)?;
        }
    }
    out.write_all(b"\"")
}

fn write_datum<W: Write>(is_text: bool, octets: &[u8], out: &mut W) -> io::Result<()> {
    if is_text {
        write_escaped(octets, out)
    } else {
        write_hex(octets, out)
    }
}

/// Whether the section has text alone, or is none of data.
fn is_text(section: &Section) -> bool {
    match (section.kind, &section.body) {
        (SectionKind::Data, Value::Binary(octets)) => {
            std::str::from_utf8(octets.as_slice()).is_ok()
        }
        _ => true,
    }
}

/// The values of all sequences as one list.
fn write_sequences<W: Write>(alloc: Global, sections: &[Section], out: &mut W) -> io::Result<()> {
    write_key(name_of(SectionKind::AmqpSequence), out)?;
    out.write_all(b"[")?;
    let mut is_first = true;
    for section in sections {
        if let (SectionKind::AmqpSequence, Value::List(values)) = (section.kind, &section.body) {
            write_values(alloc, values.as_slice(), MAX_DEPTH, is_first, out)?;
            is_first = is_first && values.as_slice().is_empty();
        }
    }
    out.write_all(b"]")
}

/// The fields that are not null, by their names.
fn write_fields<W: Write>(
    alloc: Global,
    names: &[&str],
    fields: &[Value],
    out: &mut W,
) -> io::Result<()> {
    out.write_all(b"{")?;
    let mut is_first = true;
    for (name, value) in names.iter().zip(fields) {
        if !is_null(value) {
            write_comma(is_first, out)?;
            write_key(name, out)?;
            write_value(alloc, value, MAX_DEPTH, out)?;
            is_first = false;
        }
    }
    out.write_all(b"}")
}

/// Writes a value; `null` for what lies deeper, which is never read.
#[cycle(telling)]
fn write_value<W: Write>(alloc: Global, value: &Value, depth: u8, out: &mut W) -> io::Result<()> {
    if depth == 0 {
        return out.write_all(b"null");
    }
    match value {
        Value::List(values) => write_list(alloc, values.as_slice(), depth - 1, out),
        Value::Array(_, values) => write_list(alloc, values.as_slice(), depth - 1, out),
        Value::Map(pairs) => write_map(alloc, pairs.as_slice(), depth - 1, out),
        _ => write_leaf(alloc, value, out),
    }
}

#[cycle(telling)]
fn write_list<W: Write>(alloc: Global, values: &[Value], depth: u8, out: &mut W) -> io::Result<()> {
    out.write_all(b"[")?;
    write_values(alloc, values, depth, true, out)?;
    out.write_all(b"]")
}

#[cycle(telling)]
fn write_values<W: Write>(
    alloc: Global,
    values: &[Value],
    depth: u8,
    is_first: bool,
    out: &mut W,
) -> io::Result<()> {
    for (place, value) in values.iter().enumerate() {
        write_comma(is_first && place == 0, out)?;
        write_value(alloc, value, depth, out)?;
    }
    Ok(())
}

#[cycle(telling)]
fn write_map<W: Write>(
    alloc: Global,
    pairs: &[(Value, Value)],
    depth: u8,
    out: &mut W,
) -> io::Result<()> {
    out.write_all(b"{")?;
    for (place, (key, value)) in pairs.iter().enumerate() {
        write_comma(place == 0, out)?;
        write_as_text(alloc, key, out)?;
        out.write_all(b":")?;
        write_value(alloc, value, depth, out)?;
    }
    out.write_all(b"}")
}

/// A text as it is, any other value as `trace` has it.
fn write_as_text<W: Write>(alloc: Global, value: &Value, out: &mut W) -> io::Result<()> {
    match value {
        Value::Str(text) => write_text(text.as_str(), out),
        Value::Symbol(text) => write_text(text.as_str(), out),
        _ => write_traced(alloc, value, out),
    }
}

/// A value without parts, or a described one.
fn write_leaf<W: Write>(alloc: Global, value: &Value, out: &mut W) -> io::Result<()> {
    match value {
        Value::Null => out.write_all(b"null"),
        Value::Bool(true) => out.write_all(b"true"),
        Value::Bool(false) => out.write_all(b"false"),
        _ => match number_of(value) {
            Some(number) => write!(out, "{number}"),
            None => write_as_text(alloc, value, out),
        },
    }
}

/// The number that it is, of those that are written as one.
fn number_of(value: &Value) -> Option<i128> {
    match value {
        Value::Ubyte(n) => Some(i128::from(*n)),
        Value::Ushort(n) => Some(i128::from(*n)),
        Value::Uint(n) => Some(i128::from(*n)),
        Value::Ulong(n) => Some(i128::from(*n)),
        Value::Sbyte(n) => Some(i128::from(*n)),
        Value::Short(n) => Some(i128::from(*n)),
        Value::Int(n) => Some(i128::from(*n)),
        Value::Long(n) | Value::Timestamp(n) => Some(i128::from(*n)),
        _ => None,
    }
}

/// The value as `trace` has it, as a text.
fn write_traced<W: Write>(alloc: Global, value: &Value, out: &mut W) -> io::Result<()> {
    let line = value_line(alloc, value)?;
    let written = write_text(line.as_str(), out);
    drop(line);
    written
}

fn write_text<W: Write>(text: &str, out: &mut W) -> io::Result<()> {
    out.write_all(b"\"")?;
    write_escaped(text.as_bytes(), out)?;
    out.write_all(b"\"")
}

fn write_escaped<W: Write>(octets: &[u8], out: &mut W) -> io::Result<()> {
    for octet in octets {
        match *octet {
            b'"' => out.write_all(b"\\\"")?,
            b'\\' => out.write_all(b"\\\\")?,
            0..=0x1f => write!(out, "\\u{octet:04x}")?,
            _ => out.write_all(&[*octet])?,
        }
    }
    Ok(())
}

fn write_hex<W: Write>(octets: &[u8], out: &mut W) -> io::Result<()> {
    for octet in octets {
        write!(out, "{octet:02x}")?;
    }
    Ok(())
}
