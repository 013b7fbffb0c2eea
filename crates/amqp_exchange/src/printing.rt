//! Messages that were taken, as text.
use crate::exchange::ExchangeFault;
use crate::json;
use amqp_conn::{Bytes, Value};
use amqp_messages::{Message, MessageFault, Section, SectionKind, read_message};
use amqp_trace::value_line;
use std::alloc::{AllocError, Global};
use std::io;
use std::io::Write;

/// What is printed of a message that was taken.
#[derive(Clone, Copy, Debug)]
pub enum Printed {
    Nothing,
    /// Its body, and the end of a line.
    Bodies,
    /// A line for each section.
    Sections,
    /// All of it as one line of JSON.
    Json,
}

/// The fields of a header, in their order (part 3, 3.2.1).
const HEADER: [&str; 5] = [
    "durable",
    "priority",
    "ttl",
    "first-acquirer",
    "delivery-count",
];

/// The fields of properties, in their order (part 3, 3.2.4).
const PROPERTIES: [&str; 13] = [
    "message-id",
    "user-id",
    "to",
    "subject",
    "reply-to",
    "correlation-id",
    "content-type",
    "content-encoding",
    "absolute-expiry-time",
    "creation-time",
    "group-id",
    "group-sequence",
    "reply-to-group-id",
];

pub(crate) fn name_of(kind: SectionKind) -> &'static str {
    match kind {
        SectionKind::Header => "header",
        SectionKind::DeliveryAnnotations => "delivery-annotations",
        SectionKind::MessageAnnotations => "message-annotations",
        SectionKind::Properties => "properties",
        SectionKind::ApplicationProperties => "application-properties",
        SectionKind::Data => "data",
        SectionKind::AmqpSequence => "amqp-sequence",
        SectionKind::AmqpValue => "amqp-value",
        SectionKind::Footer => "footer",
    }
}

/// The names of the fields that a section of the kind has.
pub(crate) fn names_of(kind: SectionKind) -> &'static [&'static str] {
    match kind {
        SectionKind::Header => &HEADER,
        SectionKind::Properties => &PROPERTIES,
        _ => &[],
    }
}

/// Writes what is asked for of the message, and flushes it.
///
/// # Errors
///
/// `Out` if a write fails, and `NoMemory`.
pub(crate) fn write_taken<W: Write>(
    alloc: Global,
    printed: Printed,
    payload: &Bytes,
    out: &mut W,
) -> Result<(), ExchangeFault> {
    if let Printed::Nothing = printed {
        return Ok(());
    }
    match read_message(alloc, payload) {
        Ok(message) => {
            let written = write_message(alloc, printed, &message, out);
            drop(message);
            written?;
        }
        Err(MessageFault::NoMemory) => return Err(ExchangeFault::NoMemory),
        Err(fault) => write_octets(printed, fault, payload.as_slice(), out)?,
    }
    out.flush().map_err(ExchangeFault::Out)
}

/// Writes octets that are no message, as they are, behind why they are none.
fn write_octets<W: Write>(
    printed: Printed,
    fault: MessageFault,
    octets: &[u8],
    out: &mut W,
) -> Result<(), ExchangeFault> {
    let written = match printed {
        Printed::Json => json::write_octets(fault, octets, out),
        Printed::Sections => write_fault(fault, octets, out),
        _ => write_line(octets, out),
    };
    written.map_err(ExchangeFault::Out)
}

fn write_fault<W: Write>(fault: MessageFault, octets: &[u8], out: &mut W) -> io::Result<()> {
    writeln!(out, "no message: {fault}")?;
    write_line(octets, out)
}

fn write_message<W: Write>(
    alloc: Global,
    printed: Printed,
    message: &Message,
    out: &mut W,
) -> Result<(), ExchangeFault> {
    let sections = message.sections.as_slice();
    match printed {
        Printed::Json => { json::write_message(alloc, sections, out).map_err(ExchangeFault::Out) }
        Printed::Sections => write_sections(alloc, sections, out),
        _ => write_bodies(alloc, sections, out),
    }
}

fn write_sections<W: Write>(
    alloc: Global,
    sections: &[Section],
    out: &mut W,
) -> Result<(), ExchangeFault> {
    for section in sections {
        write_section(alloc, section, out)?;
    }
    Ok(())
}

fn write_bodies<W: Write>(
    alloc: Global,
    sections: &[Section],
    out: &mut W,
) -> Result<(), ExchangeFault> {
    for section in sections {
        if is_body(section.kind) {
            write_body(alloc, &section.body, out)?;
        }
    }
    Ok(())
}

fn is_body(kind: SectionKind) -> bool {
    matches!(
        kind,
        SectionKind::Data | SectionKind::AmqpSequence | SectionKind::AmqpValue
    )
}

/// Octets and texts as they are, any other value as text.
fn write_body<W: Write>(alloc: Global, body: &Value, out: &mut W) -> Result<(), ExchangeFault> {
    match body {
        Value::Binary(octets) => write_line(octets.as_slice(), out).map_err(ExchangeFault::Out),
        Value::Str(text) => write_line(text.as_bytes(), out).map_err(ExchangeFault::Out),
        _ => {
            write_value(alloc, "", body, out)?;
            writeln!(out).map_err(ExchangeFault::Out)
        }
    }
}

fn write_line<W: Write>(octets: &[u8], out: &mut W) -> io::Result<()> {
    out.write_all(octets)?;
    out.write_all(b"\n")
}

/// A line: the section's name, and its fields by their names, or its value.
fn write_section<W: Write>(
    alloc: Global,
    section: &Section,
    out: &mut W,
) -> Result<(), ExchangeFault> {
    let name = name_of(section.kind);
    write!(out, "{name}").map_err(ExchangeFault::Out)?;
    let names = names_of(section.kind);
    match &section.body {
        Value::List(fields) if !names.is_empty() => {
            write_fields(alloc, names, fields.as_slice(), out)?
        }
        body => write_value(alloc, " ", body, out)?,
    }
    writeln!(out).map_err(ExchangeFault::Out)
}

/// Each field that is not null behind its name.
fn write_fields<W: Write>(
    alloc: Global,
    names: &[&str],
    fields: &[Value],
    out: &mut W,
) -> Result<(), ExchangeFault> {
    for (name, value) in names.iter().zip(fields) {
        if !is_null(value) {
            write!(out, " {name}=").map_err(ExchangeFault::Out)?;
            write_value(alloc, "", value, out)?;
        }
    }
    Ok(())
}

pub(crate) fn is_null(value: &Value) -> bool {
    match value {
        Value::Null => true,
        _ => false,
    }
}

/// Writes the value as text, behind `before`.
fn write_value<W: Write>(
    alloc: Global,
    before: &str,
    value: &Value,
    out: &mut W,
) -> Result<(), ExchangeFault> {
    let Ok(line) = value_line(alloc, value) else {
        return Err(ExchangeFault::NoMemory);
    };
    let written = write!(out, "{before}{}", line.as_str());
    drop(line);
    written.map_err(ExchangeFault::Out)
}
