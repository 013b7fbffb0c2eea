//! What `serve` reads and writes of a message: its header (part 3, 3.2.1), and where it goes (part 3, 3.2.4).
ghost use Rattle.std.specs.Prelude.{◌≡◌, ◌++◌, IfOk, drop};

use amqp_messages::{Header, Properties, Section, SectionFault, SectionKind, read_section};
use amqp_types::{Text, Value, append_value};
use bytes::Bytes;
use std::alloc::{AllocError, Global};

/// Returns the octets of a message with a delivery-count that is higher by `failures`. What is no message stays as it is.
pub fn with_failures(alloc: Global, payload: &Bytes, failures: u32) -> Result<Bytes, AllocError>
    ensures same { failures ≡ 0 → IfOk result (λ b. b ≡ payload.now) }
{
    if failures == 0 {
        return payload.clone();
    }
    match read_section(alloc, payload, 0) {
        Ok((section, used)) => counted(alloc, payload, &section, used, failures),
        Err(SectionFault::NoMemory) => Err(AllocError),
        Err(SectionFault::NoSection) => payload.clone(),
    }
}

/// Returns the message whose first section this is, and has so many octets.
fn counted(
    alloc: Global,
    payload: &Bytes,
    section: &Section,
    used: usize,
    failures: u32,
) -> Result<Bytes, AllocError> {
    if section.kind != SectionKind::Header {
        let header = first_header(failures);
        return with_header(alloc, header, payload, 0);
    }
    match header_of(&section.body) {
        Some(header) => {
            let count = header.delivery_count.unwrap_or(0).saturating_add(failures);
            let header = Header {
                first_acquirer: None,
                delivery_count: Some(count),
                ..header
            };
            with_header(alloc, header, payload, used)
        }
        None => payload.clone(),
    }
}

fn first_header(failures: u32) -> Header {
    Header {
        durable: None,
        priority: None,
        ttl: None,
        first_acquirer: None,
        delivery_count: Some(failures),
    }
}

fn header_of(body: &Value) -> Option<Header> {
    match body {
        Value::List(items) => Header::read(items.as_slice()),
        _ => None,
    }
}

/// Returns the header and the octets from `from` on.
fn with_header(
    alloc: Global,
    header: Header,
    payload: &Bytes,
    from: usize,
) -> Result<Bytes, AllocError> {
    let section = header.to_section(alloc)?;
    let mut octets = Vec::new(alloc);
    octets.extend_from_slice(&[0x00, 0x53, section.kind.number()])?;
    if append_value(&section.body, &mut octets).is_err() {
        return Err(AllocError);
    }
    put_rest(payload, from, octets)
}

/// Returns these octets, and those of the payload from `from` on.
fn put_rest(payload: &Bytes, from: usize, front: Vec<u8>) -> Result<Bytes, AllocError>
    ensures { IfOk result (λ b. b ≡ front.items ++ drop from payload.now) }
{
    let mut octets = front;
    let from = from.min(payload.len());
    octets.extend_from_slice(&payload.as_slice()[from..])?;
    match Bytes::from_vec(octets) {
        Ok(octets) => Ok(octets),
        Err(_) => Err(AllocError),
    }
}

/// The most sections of a message up to its properties.
const UP_TO_PROPERTIES: usize = 4;

/// Returns the address that the message's field `to` has, if it has one.
///
/// # Errors
///
/// `AllocError` if memory runs out.
pub fn addressee(alloc: Global, payload: &Bytes) -> Result<Option<Text>, AllocError> {
    let mut from = 0;
    for _ in 0..UP_TO_PROPERTIES {
        if from >= payload.len() {
            return Ok(None);
        }
        match read_section(alloc, payload, from) {
            Ok((section, used)) => {
                if section.kind == SectionKind::Properties {
                    return to_of(&section.body);
                }
                from = from.saturating_add(used);
            }
            Err(SectionFault::NoMemory) => return Err(AllocError),
            Err(SectionFault::NoSection) => return Ok(None),
        }
    }
    Ok(None)
}

/// Returns the field `to` of a properties section's body.
fn to_of(body: &Value) -> Result<Option<Text>, AllocError> {
    let Value::List(items) = body else {
        return Ok(None);
    };
    let Some(properties) = Properties::read(items.as_slice()) else {
        return Ok(None);
    };
    match properties.to {
        Some(Value::Str(address)) => Ok(Some(address.clone()?)),
        _ => Ok(None),
    }
}
