//! The kinds of sections and their descriptors.
ghost use Rattle.std.specs.Prelude.{◌≡◌, ◌↔◌, IsTrue, MatchOption};
ghost use Rattle.amqp_types.specs.Heads.{datum_of};
ghost use Rattle.amqp_types.specs.View.{view};
ghost use Rattle.amqp_performatives.specs.Part.{IsDescriptor};
ghost use Rattle.amqp_messages.specs.Sections.{type_of, is_body, NamesNone};

use amqp_types::{Descriptor, Value};

/// The kind of a section (part 3, 3.2.1 to 3.2.9). The variants are in the order of the sections in a message.
#[derive(Clone, Copy, Debug, PartialEq, Eq)]
pub enum SectionKind {
    Header,
    DeliveryAnnotations,
    MessageAnnotations,
    Properties,
    ApplicationProperties,
    Data,
    AmqpSequence,
    AmqpValue,
    Footer,
}

impl SectionKind {
    /// Returns the numeric code of the descriptor, which is written as a ulong.
    pub fn number(self) -> u8
        ensures { result ≡ (type_of self).0 }
    {
        match self {
            SectionKind::Header => 0x70,
            SectionKind::DeliveryAnnotations => 0x71,
            SectionKind::MessageAnnotations => 0x72,
            SectionKind::Properties => 0x73,
            SectionKind::ApplicationProperties => 0x74,
            SectionKind::Data => 0x75,
            SectionKind::AmqpSequence => 0x76,
            SectionKind::AmqpValue => 0x77,
            SectionKind::Footer => 0x78,
        }
    }

    /// Returns the symbolic name of the descriptor.
    pub fn name(self) -> &'static str
        ensures { result.now ≡ (type_of self).1 }
    {
        match self {
            SectionKind::Header => "amqp:header:list",
            SectionKind::DeliveryAnnotations => "amqp:delivery-annotations:map",
            SectionKind::MessageAnnotations => "amqp:message-annotations:map",
            SectionKind::Properties => "amqp:properties:list",
            SectionKind::ApplicationProperties => "amqp:application-properties:map",
            SectionKind::Data => "amqp:data:binary",
            SectionKind::AmqpSequence => "amqp:amqp-sequence:list",
            SectionKind::AmqpValue => "amqp:amqp-value:*",
            SectionKind::Footer => "amqp:footer:map",
        }
    }

    /// Returns true if the descriptor is the number or the name of this kind.
    pub(crate) fn is_named(self, descriptor: Descriptor<'_>) -> bool
        ensures { IsTrue result ↔ IsDescriptor (type_of self) (datum_of descriptor.entry) }
    {
        match descriptor {
            Descriptor::Number(number) => number == u64::from(self.number()),
            Descriptor::Name(name) => name == self.name(),
        }
    }

    /// Returns the kind that has the descriptor as its number or name, or `None` if there is none.
    pub fn named(descriptor: Descriptor<'_>) -> Option<SectionKind>
        ensures { MatchOption result (NamesNone (datum_of descriptor.entry)) (λ kind. IsDescriptor (type_of kind) (datum_of descriptor.entry)) }
    {
        if SectionKind::Header.is_named(descriptor) {
            return Some(SectionKind::Header);
        }
        if SectionKind::DeliveryAnnotations.is_named(descriptor) {
            return Some(SectionKind::DeliveryAnnotations);
        }
        if SectionKind::MessageAnnotations.is_named(descriptor) {
            return Some(SectionKind::MessageAnnotations);
        }
        if SectionKind::Properties.is_named(descriptor) {
            return Some(SectionKind::Properties);
        }
        if SectionKind::ApplicationProperties.is_named(descriptor) {
            return Some(SectionKind::ApplicationProperties);
        }
        if SectionKind::Data.is_named(descriptor) {
            return Some(SectionKind::Data);
        }
        if SectionKind::AmqpSequence.is_named(descriptor) {
            return Some(SectionKind::AmqpSequence);
        }
        if SectionKind::AmqpValue.is_named(descriptor) {
            return Some(SectionKind::AmqpValue);
        }
        if SectionKind::Footer.is_named(descriptor) {
            return Some(SectionKind::Footer);
        }
        None
    }

    /// Returns true if `body` has the type that this kind requires. The types of the values in it are not checked.
    pub fn takes(self, body: &Value) -> bool
        ensures { result ≡ is_body self (view body.now) }
    {
        match self {
            SectionKind::Header | SectionKind::Properties | SectionKind::AmqpSequence => {
                is_list(body)
            }
            SectionKind::Data => is_binary(body),
            SectionKind::AmqpValue => true,
            SectionKind::DeliveryAnnotations
            | SectionKind::MessageAnnotations
            | SectionKind::ApplicationProperties
            | SectionKind::Footer => is_map(body),
        }
    }
}

ghost use Rattle.amqp_messages.specs.Sections.{is_list, is_map, is_binary};

fn is_list(value: &Value) -> bool
    ensures { result ≡ is_list (view value.now) }
{
    match value {
        Value::List(_) => true,
        _ => false,
    }
}

fn is_map(value: &Value) -> bool
    ensures { result ≡ is_map (view value.now) }
{
    match value {
        Value::Map(_) => true,
        _ => false,
    }
}

fn is_binary(value: &Value) -> bool
    ensures { result ≡ is_binary (view value.now) }
{
    match value {
        Value::Binary(_) => true,
        _ => false,
    }
}
