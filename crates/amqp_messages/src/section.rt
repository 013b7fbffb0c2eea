//! Sections and how one is read.
ghost use Rattle.std.specs.Prelude.{◌≡◌, ◌≤◌, ◌-◌, length, take, drop, IfOk, MatchOption};
ghost use Rattle.amqp_types.specs.Codes.{class_of};
ghost use Rattle.amqp_types.specs.Datum.{Datum};
ghost use Rattle.amqp_types.specs.Grammar.{SpellsWithin};
ghost use Rattle.amqp_types.specs.View.{view};
ghost use Rattle.amqp_messages.specs.Sections.{HasNoSection, ReadsSection};
ghost use Rattle.amqp_messages.specs.InPlace.{IsFound, begins};

use crate::fault::SectionFault;
use crate::kind::SectionKind;
use amqp_types::{
    Class, MAX_DEPTH, Run, Value, class_of, read_binary, read_descriptor, read_within, skip_within,
};
use bytes::Bytes;
use std::alloc::{AllocError, Global};

/// A section of a message: its kind and its body (part 3, 3.2).
#[derive(Debug, PartialEq, Eq, Drop)]
pub struct Section {
    pub kind: SectionKind,
    /// The described value: a list, a map, a binary or any value, as [`SectionKind::takes`] says.
    pub body: Value,
}

// The format code alone shows whether the body has the right type, so that a wrong one is refused without reading it.
fn begins(kind: SectionKind, code: u8) -> bool
    ensures { result ≡ begins kind (class_of code) }
{
    let class = class_of(code);
    match kind {
        SectionKind::Header | SectionKind::Properties | SectionKind::AmqpSequence => {
            matches!(class, Class::EmptyList | Class::List(_))
        }
        SectionKind::Data => {
            matches!(
                class,
                Class::Octets(Run::Binary, _) | Class::Sixteen(Run::Binary)
            )
        }
        SectionKind::AmqpValue => true,
        SectionKind::DeliveryAnnotations
        | SectionKind::MessageAnnotations
        | SectionKind::ApplicationProperties
        | SectionKind::Footer => matches!(class, Class::Map(_)),
    }
}

/// The position of a section at the front of some octets. Offsets are in octets.
#[derive(Clone, Copy)]
pub(crate) struct Place {
    pub(crate) kind: SectionKind,
    /// The offset of the body.
    pub(crate) start: usize,
    /// The offset after the body, which is the end of the section.
    pub(crate) end: usize,
}

/// Finds the section at the front of the octets, without allocating. Returns `None` if no section begins there.
pub(crate) fn find_section(octets: &[u8]) -> Option<Place>
    ensures { MatchOption result (HasNoSection octets.now) (λ place. IsFound octets.now place) }
{
    let Some((descriptor, start)) = read_descriptor(octets) else {
        return None;
    };
    let Some(kind) = SectionKind::named(descriptor) else {
        return None;
    };
    let rest = &octets[start..];
    let Some((code, _)) = rest.split_first() else {
        return None;
    };
    if !begins(kind, *code) {
        return None;
    }
    let Some(used) = skip_within(MAX_DEPTH - 1, rest) else {
        return None;
    };
    Some(Place {
        kind,
        start,
        end: start + used,
    })
}

/// Reads the value between two offsets. A binary is a slice of `octets`; other values are copied.
pub(crate) fn body_at(
    alloc: Global,
    octets: &Bytes,
    start: usize,
    end: usize,
) -> Result<Value, AllocError>
    requires order { start ≤ end }
    requires within { end ≤ length octets.now }
    ensures { (v : Datum) → SpellsWithin 31 v (take (end - start) (drop start octets.now)) → IfOk result (λ body. view body ≡ v) }
{
    let spelled = &octets.as_slice()[start..end];
    if let Some((payload, _)) = read_binary(spelled) {
        return Ok(Value::Binary(octets.slice(end - payload.len()..end)?));
    }
    match read_within(alloc, MAX_DEPTH - 1, spelled) {
        Ok((body, _)) => Ok(body),
        Err(_) => Err(AllocError),
    }
}

/// Reads the section that begins at offset `from`, and returns it with its length in octets (part 3, 3.2).
///
/// `from` must not exceed the length of `octets`; any octets may follow the section. A first pass checks the section
/// before memory is allocated. The payload of a data section is a slice of `octets`; lists and maps are copied.
///
/// # Errors
///
/// - [`SectionFault::NoSection`] if no section begins at `from`: for example, the descriptor is unknown, the body has
///   the wrong type, is incomplete, or is nested more than 31 deep
/// - [`SectionFault::NoMemory`] if a section begins there but memory runs out
pub fn read_section(
    alloc: Global,
    octets: &Bytes,
    from: usize,
) -> Result<(Section, usize), SectionFault>
    requires { from ≤ length octets.now }
    ensures { ReadsSection (drop from octets.now) result }
{
    let rest = &octets.as_slice()[from..];
    let Some(place) = find_section(rest) else {
        return Err(SectionFault::NoSection);
    };
    match body_at(alloc, octets, from + place.start, from + place.end) {
        Ok(body) => Ok((
            Section {
                kind: place.kind,
                body,
            },
            place.end,
        )),
        Err(_) => Err(SectionFault::NoMemory),
    }
}
