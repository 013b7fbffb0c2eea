//! Sections of a message and whole messages, in the spellings that peers use. A section, a message and a value are owned by one helper each, and lent
//! to what looks at them. A call that is refused memory is made `again` in tests of growths alone.
use crate::types::reads;
use amqp_messages::*;
use amqp_types::{Value, WriteFault};
use bytes::Bytes;
use std::alloc::{AllocError, Global};

// A header that says durable, properties with a message-id, two data sections, and a footer by the name of its descriptor.
const MESSAGE: &[u8] = &[
    0x00, 0x53, 0x70, 0xc0, 2, 1, 0x41, 0x00, 0x53, 0x73, 0xc0, 4, 1, 0xa1, 1, 0x61, 0x00, 0x53,
    0x75, 0xa0, 2, 0x68, 0x69, 0x00, 0x80, 0, 0, 0, 0, 0, 0, 0, 0x75, 0xb0, 0, 0, 0, 1, 0x21, 0x00,
    0xa3, 0x0f, 0x61, 0x6d, 0x71, 0x70, 0x3a, 0x66, 0x6f, 0x6f, 0x74, 0x65, 0x72, 0x3a, 0x6d, 0x61,
    0x70, 0xc1, 1, 0,
];

// Where a section of it begins, its kind, the octets of its body where it is a binary, and how many octets it takes.
const SECTIONS: &[(usize, SectionKind, &[u8], usize)] = &[
    (0, SectionKind::Header, &[], 7),
    (7, SectionKind::Properties, &[], 9),
    (16, SectionKind::Data, b"hi", 7),
    (23, SectionKind::Data, b"!", 16),
    (39, SectionKind::Footer, &[], 21),
];

const NO_SECTIONS: &[&[u8]] = &[
    &[],
    // a number past the last
    &[0x00, 0x53, 0x79, 0x45],
    // data that is a list
    &[0x00, 0x53, 0x75, 0x45],
    // a header cut short
    &[0x00, 0x53, 0x70, 0xc0, 2, 1],
];

// Whether the value is that binary; what is none has no octets.
fn is_binary(value: &Value, octets: &[u8]) -> bool {
    match value {
        Value::Binary(found) => found.as_slice() == octets,
        _ => octets.is_empty(),
    }
}

// Whether the section that begins there is of the kind, has that body where it is a binary, and is so long.
fn is_section(alloc: Global, from: usize, kind: SectionKind, payload: &[u8], long: usize) -> bool {
    let octets = Bytes::from_static(MESSAGE);
    if from > octets.len() {
        return false;
    }
    match read_section(alloc, &octets, from) {
        Ok((section, used)) => {
            let is_same = section.kind == kind && used == long && is_binary(&section.body, payload);
            drop(section);
            is_same
        }
        Err(_) => false,
    }
}

fn is_no_section(alloc: Global, octets: &'static [u8]) -> bool {
    match read_section(alloc, &Bytes::from_static(octets), 0) {
        Ok((section, _)) => {
            drop(section);
            false
        }
        Err(fault) => fault == SectionFault::NoSection,
    }
}

#[test]
fn sections(rt: HostRuntime) {
    for (from, kind, payload, long) in SECTIONS {
        assert!(rt; is_section(rt.alloc(), *from, *kind, payload, *long));
    }
    for octets in NO_SECTIONS {
        assert!(rt; is_no_section(rt.alloc(), octets));
    }
}

// As Proton's client sent it: durable, priority 9, five seconds to live; an annotation; an id, an address and a subject; a property; a map.
const FULL: &[u8] = &[
    0x00, 0x53, 0x70, 0xc0, 0x09, 0x03, 0x41, 0x50, 0x09, 0x70, 0x00, 0x00, 0x13, 0x88, 0x00, 0x53,
    0x72, 0xd1, 0x00, 0x00, 0x00, 0x0d, 0x00, 0x00, 0x00, 0x02, 0xa3, 0x05, 0x78, 0x2d, 0x6f, 0x70,
    0x74, 0x55, 0x02, 0x00, 0x53, 0x73, 0xc0, 0x0a, 0x04, 0x53, 0x07, 0x40, 0xa1, 0x01, 0x71, 0xa1,
    0x01, 0x73, 0x00, 0x53, 0x74, 0xd1, 0x00, 0x00, 0x00, 0x09, 0x00, 0x00, 0x00, 0x02, 0xa1, 0x01,
    0x6b, 0x55, 0x01, 0x00, 0x53, 0x77, 0xd1, 0x00, 0x00, 0x00, 0x1d, 0x00, 0x00, 0x00, 0x02, 0xa1,
    0x01, 0x61, 0xd0, 0x00, 0x00, 0x00, 0x11, 0x00, 0x00, 0x00, 0x04, 0x55, 0x01, 0x82, 0x40, 0x04,
    0x00, 0x00, 0x00, 0x00, 0x00, 0x00, 0x40, 0x41,
];

// As it sent another: an empty header, empty properties, and a string.
const HELLO: &[u8] = &[
    0x00, 0x53, 0x70, 0x45, 0x00, 0x53, 0x73, 0x45, 0x00, 0x53, 0x77, 0xa1, 0x05, 0x68, 0x65, 0x6c,
    0x6c, 0x6f,
];

// The source of one of its attaches: an address, a mode, a filter, outcomes and capabilities; and the target of another.
const SOURCE: &[u8] = &[
    0x00, 0x53, 0x28, 0xc0, 0xab, 0x0b, 0xa1, 0x01, 0x72, 0x43, 0x40, 0x43, 0x42, 0x40, 0xa3, 0x04,
    0x63, 0x6f, 0x70, 0x79, 0xd1, 0x00, 0x00, 0x00, 0x44, 0x00, 0x00, 0x00, 0x02, 0xa3, 0x08, 0x73,
    0x65, 0x6c, 0x65, 0x63, 0x74, 0x6f, 0x72, 0x00, 0xa3, 0x21, 0x61, 0x70, 0x61, 0x63, 0x68, 0x65,
    0x2e, 0x6f, 0x72, 0x67, 0x3a, 0x73, 0x65, 0x6c, 0x65, 0x63, 0x74, 0x6f, 0x72, 0x2d, 0x66, 0x69,
    0x6c, 0x74, 0x65, 0x72, 0x3a, 0x73, 0x74, 0x72, 0x69, 0x6e, 0x67, 0xa1, 0x10, 0x63, 0x6f, 0x6c,
    0x6f, 0x75, 0x72, 0x20, 0x3d, 0x20, 0x27, 0x67, 0x72, 0x65, 0x65, 0x6e, 0x27, 0x40, 0xf0, 0x00,
    0x00, 0x00, 0x31, 0x00, 0x00, 0x00, 0x02, 0xb3, 0x00, 0x00, 0x00, 0x12, 0x61, 0x6d, 0x71, 0x70,
    0x3a, 0x61, 0x63, 0x63, 0x65, 0x70, 0x74, 0x65, 0x64, 0x3a, 0x6c, 0x69, 0x73, 0x74, 0x00, 0x00,
    0x00, 0x12, 0x61, 0x6d, 0x71, 0x70, 0x3a, 0x72, 0x65, 0x6a, 0x65, 0x63, 0x74, 0x65, 0x64, 0x3a,
    0x6c, 0x69, 0x73, 0x74, 0xf0, 0x00, 0x00, 0x00, 0x17, 0x00, 0x00, 0x00, 0x02, 0xb3, 0x00, 0x00,
    0x00, 0x05, 0x71, 0x75, 0x65, 0x75, 0x65, 0x00, 0x00, 0x00, 0x05, 0x74, 0x6f, 0x70, 0x69, 0x63,
];

const TARGET: &[u8] = &[
    0x00, 0x53, 0x29, 0xc0, 0x0a, 0x07, 0xa1, 0x01, 0x61, 0x43, 0x40, 0x43, 0x42, 0x40, 0x40,
];

fn message(alloc: Global, octets: &Bytes, again: bool) -> Result<Message, MessageFault> {
    match read_message(alloc, octets) {
        Err(MessageFault::NoMemory) if again => read_message(alloc, octets),
        answer => answer,
    }
}

// The body of the section that stands at this place of the message, if it is of the kind.
fn body_of(message: &Message, place: usize, kind: SectionKind) -> Option<&Value> {
    match message.sections.as_slice().get(place) {
        Some(section) if section.kind == kind => Some(&section.body),
        _ => None,
    }
}

fn items_of(value: &Value) -> Option<&[Value]> {
    match value {
        Value::List(items) => Some(items.as_slice()),
        _ => None,
    }
}

// Whether there are five sections, and behind the first of them annotations, properties of the application and a value.
fn has_five(message: &Message) -> bool {
    message.sections.len() == 5
        && body_of(message, 1, SectionKind::MessageAnnotations).is_some()
        && body_of(message, 3, SectionKind::ApplicationProperties).is_some()
        && body_of(message, 4, SectionKind::AmqpValue).is_some()
}

fn header_of(message: &Message) -> Option<Header> {
    Header::read(items_of(body_of(message, 0, SectionKind::Header)?)?)
}

fn has_header(message: &Message) -> bool {
    let expected = Header {
        durable: Some(true),
        priority: Some(9),
        ttl: Some(5000),
        first_acquirer: None,
        delivery_count: None,
    };
    match header_of(message) {
        Some(header) => header == expected,
        None => false,
    }
}

fn properties_of(message: &Message) -> Option<Properties<'_>> {
    Properties::read(items_of(body_of(message, 2, SectionKind::Properties)?)?)
}

fn is_ulong(value: Option<&Value>, number: u64) -> bool {
    match value {
        Some(Value::Ulong(n)) => *n == number,
        _ => false,
    }
}

fn is_text(value: Option<&Value>, text: &str) -> bool {
    match value {
        Some(Value::Str(found)) => found.as_str() == text,
        _ => false,
    }
}

fn has_properties(message: &Message) -> bool {
    match properties_of(message) {
        Some(properties) => {
            is_ulong(properties.message_id, 7)
                && properties.user_id.is_none()
                && is_text(properties.to, "q")
                && properties.subject == Some("s")
                && properties.reply_to_group_id.is_none()
        }
        None => false,
    }
}

// Whether the message is written behind the octets, of which there are as many as before where it was refused.
fn is_written_behind(message: &Message, octets: &mut Vec<u8>, again: bool) -> bool {
    let before = octets.len();
    match write_message(message, octets) {
        Err(WriteFault::NoMemory) if again && octets.len() == before => {
            write_message(message, octets).is_ok()
        }
        answer => answer.is_ok(),
    }
}

// Whether the message is written as these octets, and so many are told; and once more behind.
fn is_written(alloc: Global, message: &Message, octets: &[u8], again: bool) -> bool {
    let mut twice = Vec::new(alloc);
    message_size(message) == Some(octets.len() as u64)
        && is_written_behind(message, &mut twice, again)
        && twice.as_slice() == octets
        && is_written_behind(message, &mut twice, again)
        && twice.len() == 2 * octets.len()
        && twice.as_slice().ends_with(octets)
}

fn shares(alloc: Global, octets: &[u8], again: bool) -> Result<Bytes, AllocError> {
    match Bytes::copy_from_slice(alloc, octets) {
        Err(_) if again => Bytes::copy_from_slice(alloc, octets),
        answer => answer,
    }
}

// Whether these octets are the same message.
fn is_message(alloc: Global, message: &Message, octets: &[u8], again: bool) -> bool {
    let Ok(octets) = shares(alloc, octets, again) else {
        return false;
    };
    match self::message(alloc, &octets, again) {
        Ok(other) => {
            let is_same = other == *message;
            drop(other);
            is_same
        }
        Err(_) => false,
    }
}

// Whether fewer octets than these are written, and are the same message.
fn is_written_shorter(alloc: Global, message: &Message, octets: &[u8], again: bool) -> bool {
    let mut shorter = Vec::new(alloc);
    is_written_behind(message, &mut shorter, again)
        && shorter.len() < octets.len()
        && is_message(alloc, message, shorter.as_slice(), again)
}

// Whether it is the section of its kind in the message.
fn is_found(message: &Message, kind: SectionKind, section: &Section) -> bool {
    match message.find(kind) {
        Some(body) => section.kind == kind && section.body == *body,
        None => false,
    }
}

// The same of what was built.
fn is_built(message: &Message, kind: SectionKind, built: Result<Section, AllocError>) -> bool {
    match built {
        Ok(section) => {
            let is_found = is_found(message, kind, &section);
            drop(section);
            is_found
        }
        Err(_) => false,
    }
}

fn is_header_built(alloc: Global, message: &Message, again: bool) -> bool {
    match header_of(message) {
        Some(header) => {
            let built = match header.to_section(alloc) {
                Err(_) if again => header.to_section(alloc),
                built => built,
            };
            is_built(message, SectionKind::Header, built)
        }
        None => false,
    }
}

fn are_properties_built(alloc: Global, message: &Message, again: bool) -> bool {
    match properties_of(message) {
        Some(properties) => {
            let built = match properties.to_section(alloc) {
                Err(_) if again => properties.to_section(alloc),
                built => built,
            };
            is_built(message, SectionKind::Properties, built)
        }
        None => false,
    }
}

// A message with all its sections, which is written shorter.
fn is_full(alloc: Global, message: &Message, octets: &[u8], again: bool) -> bool {
    has_five(message)
        && has_header(message)
        && has_properties(message)
        && is_written_shorter(alloc, message, octets, again)
        && is_header_built(alloc, message, again)
        && are_properties_built(alloc, message, again)
}

fn has_data_twice(message: &Message) -> bool {
    message.sections.len() == 5
        && body_of(message, 2, SectionKind::Data).is_some()
        && body_of(message, 3, SectionKind::Data).is_some()
}

fn has_forty(alloc: Global, message: &Message, octets: &[u8], again: bool) -> bool {
    message.sections.len() == 40 && is_written(alloc, message, octets, again)
}

// Forty data sections of one octet each.
const FORTY: &[u8] =
    b"\x00\x53\x75\xa0\x01x\x00\x53\x75\xa0\x01x\x00\x53\x75\xa0\x01x\x00\x53\x75\xa0\x01x\x00\x53\x75\xa0\x01x\
        \x00\x53\x75\xa0\x01x\x00\x53\x75\xa0\x01x\x00\x53\x75\xa0\x01x\x00\x53\x75\xa0\x01x\x00\x53\x75\xa0\x01x\
        \x00\x53\x75\xa0\x01x\x00\x53\x75\xa0\x01x\x00\x53\x75\xa0\x01x\x00\x53\x75\xa0\x01x\x00\x53\x75\xa0\x01x\
        \x00\x53\x75\xa0\x01x\x00\x53\x75\xa0\x01x\x00\x53\x75\xa0\x01x\x00\x53\x75\xa0\x01x\x00\x53\x75\xa0\x01x\
        \x00\x53\x75\xa0\x01x\x00\x53\x75\xa0\x01x\x00\x53\x75\xa0\x01x\x00\x53\x75\xa0\x01x\x00\x53\x75\xa0\x01x\
        \x00\x53\x75\xa0\x01x\x00\x53\x75\xa0\x01x\x00\x53\x75\xa0\x01x\x00\x53\x75\xa0\x01x\x00\x53\x75\xa0\x01x\
        \x00\x53\x75\xa0\x01x\x00\x53\x75\xa0\x01x\x00\x53\x75\xa0\x01x\x00\x53\x75\xa0\x01x\x00\x53\x75\xa0\x01x\
        \x00\x53\x75\xa0\x01x\x00\x53\x75\xa0\x01x\x00\x53\x75\xa0\x01x\x00\x53\x75\xa0\x01x\x00\x53\x75\xa0\x01x";

// What is asked of a message.
enum Asked {
    Full,
    Written,
    Forty,
    DataTwice,
}

const MESSAGES: &[(&[u8], Asked)] = &[
    (FULL, Asked::Full),
    // written as the peer wrote it
    (HELLO, Asked::Written),
    (MESSAGE, Asked::DataTwice),
    (FORTY, Asked::Forty),
];

// Whether the message that these octets are is as it should be.
fn is_as_asked(alloc: Global, octets: &'static [u8], asked: &Asked, again: bool) -> bool {
    match message(alloc, &Bytes::from_static(octets), again) {
        Ok(message) => {
            let is_so = match asked {
                Asked::Full => is_full(alloc, &message, octets, again),
                Asked::Written => is_written(alloc, &message, octets, again),
                Asked::DataTwice => has_data_twice(&message),
                Asked::Forty => has_forty(alloc, &message, octets, again),
            };
            drop(message);
            is_so
        }
        Err(_) => false,
    }
}

// Whether a message of data is written so, as a peer wrote it.
fn is_data_written(alloc: Global, octets: &[u8], again: bool) -> bool {
    let made = match Message::of_data(alloc, Bytes::from_static(b"octets")) {
        Err(_) if again => Message::of_data(alloc, Bytes::from_static(b"octets")),
        made => made,
    };
    match made {
        Ok(message) => {
            let is_so = is_written(alloc, &message, octets, again);
            drop(message);
            is_so
        }
        Err(_) => false,
    }
}

pub(crate) fn are_messages(alloc: Global, again: bool) -> bool {
    for (octets, asked) in MESSAGES {
        if !is_as_asked(alloc, octets, asked, again) {
            return false;
        }
    }
    is_data_written(alloc, b"\x00\x53\x75\xa0\x06octets", again)
}

const FAULTY: &[(&[u8], MessageFault)] = &[
    (&[], MessageFault::NoBody),
    // a header alone
    (&[0x00, 0x53, 0x70, 0x45], MessageFault::NoBody),
    // a number past the last, behind a header
    (
        &[0x00, 0x53, 0x70, 0x45, 0x00, 0x53, 0x79, 0x45],
        MessageFault::NoSection { at: 4 },
    ),
    // two headers
    (
        &[0x00, 0x53, 0x70, 0x45, 0x00, 0x53, 0x70, 0x45],
        MessageFault::OutOfOrder { at: 4 },
    ),
    // a value behind data
    (
        &[0x00, 0x53, 0x75, 0xa0, 0, 0x00, 0x53, 0x77, 0x40],
        MessageFault::OutOfOrder { at: 5 },
    ),
];

fn has_fault(alloc: Global, octets: &'static [u8], expected: MessageFault) -> bool {
    match read_message(alloc, &Bytes::from_static(octets)) {
        Ok(message) => {
            drop(message);
            false
        }
        Err(fault) => fault == expected,
    }
}

#[test]
fn messages(rt: HostRuntime) {
    assert!(rt; are_messages(rt.alloc(), false));
    for (octets, fault) in FAULTY {
        assert!(rt; has_fault(rt.alloc(), octets, *fault));
    }
}

fn is_source(value: &Value) -> bool {
    match Source::read(value) {
        Some(source) => {
            is_text(source.address, "r")
                && source.durable == Some(0)
                && source.distribution_mode == Some("copy")
                && source.filter.is_some()
                && source.default_outcome.is_none()
                && source.outcomes.is_some()
        }
        None => false,
    }
}

fn is_target(value: &Value) -> bool {
    match Target::read(value) {
        Some(target) => {
            is_text(target.address, "a")
                && target.dynamic == Some(false)
                && target.capabilities.is_none()
        }
        None => false,
    }
}

// What is built of the source that the value is.
fn source_built(alloc: Global, value: &Value, again: bool) -> Option<Value> {
    let source = Source::read(value)?;
    match source.to_value(alloc) {
        Err(_) if again => source.to_value(alloc).ok(),
        built => built.ok(),
    }
}

fn is_source_built(alloc: Global, value: &Value, again: bool) -> bool {
    match source_built(alloc, value, again) {
        Some(built) => {
            let is_same = built == *value;
            drop(built);
            is_same
        }
        None => false,
    }
}

fn has_target(value: &Value) -> bool {
    match Target::read(value) {
        Some(target) => is_text(target.address, "a") && target.dynamic == Some(false),
        None => false,
    }
}

// What is built of the target that the value is.
fn target_built(alloc: Global, value: &Value, again: bool) -> Option<Value> {
    let target = Target::read(value)?;
    match target.to_value(alloc) {
        Err(_) if again => target.to_value(alloc).ok(),
        built => built.ok(),
    }
}

// What is built is shorter, so it is read.
fn is_target_built(alloc: Global, value: &Value, again: bool) -> bool {
    match target_built(alloc, value, again) {
        Some(built) => {
            let is_same = has_target(&built);
            drop(built);
            is_same
        }
        None => false,
    }
}

// Whether the terminus of an attach that these octets are is read, and built as it was read.
fn is_terminus(alloc: Global, octets: &[u8], of_source: bool, again: bool) -> bool {
    match reads(alloc, octets, again) {
        Ok((value, _)) => {
            let is_so = if of_source {
                is_source(&value)
                    && Target::read(&value).is_none()
                    && is_source_built(alloc, &value, again)
            } else {
                is_target(&value) && is_target_built(alloc, &value, again)
            };
            drop(value);
            is_so
        }
        Err(_) => false,
    }
}

pub(crate) fn are_termini(alloc: Global, again: bool) -> bool {
    is_terminus(alloc, SOURCE, true, again) && is_terminus(alloc, TARGET, false, again)
}

#[test]
fn termini(rt: HostRuntime) {
    assert!(rt; are_termini(rt.alloc(), false));
}
