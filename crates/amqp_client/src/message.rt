//! Messages as the library sends and receives them: encoded, one after the other section (part 3, 3.2).
ghost use Rattle.std.specs.Prelude.{◌≡◌, ◌∷◌, [], Some, IfOk};
ghost use Rattle.amqp_types.specs.Datum.{octets};
ghost use Rattle.amqp_types.specs.View.{view};
ghost use Rattle.amqp_types.specs.declared.class.Run.{Run};
ghost use Rattle.amqp_messages.specs.Messages.{seen_all};
ghost use Rattle.amqp_messages.specs.Written.{message_form};

use crate::error::ClientError;
use crate::links::Delivery;
use amqp_conn::{Bytes, Text, Value};
use amqp_messages::{Section, SectionKind, message_size, read_message, write_message};
use amqp_types::{Items, WriteFault};
use std::alloc::{AllocError, Global};

/// An AMQP message in its encoded form.
///
/// [`Message::text`] and [`Message::data`] make a message of one body section. A message with a header, properties or other sections is built as an
/// [`amqp_messages::Message`] and encoded by [`Message::encode`].
#[derive(Debug)]
pub struct Message {
    octets: Bytes,
}

// By hand, so that a crate that owns one does not prove its parts' drops again.
impl Drop for Message {
    fn drop(self) {
        let Message { octets } = self;
        drop(octets);
    }
}

/// A message that came, and the delivery by which it is settled.
#[derive(Debug, Drop)]
pub struct ReceivedMessage {
    pub delivery: Delivery,
    pub message: Message,
}

impl Message {
    /// Returns a message whose body is the text, as an amqp-value section (part 3, 3.2.8).
    ///
    /// # Errors
    ///
    /// `NotWritable` if the text is longer than 4294967295 octets; `NoMemory`.
    pub fn text(alloc: Global, text: &str) -> Result<Message, ClientError> {
        match Text::new(alloc, text) {
            Ok(text) => encode_body(alloc, SectionKind::AmqpValue, Value::Str(text)),
            Err(_) => Err(ClientError::NoMemory),
        }
    }

    /// Returns a message whose body is the octets, as one data section (part 3, 3.2.6).
    ///
    /// # Errors
    ///
    /// `NotWritable` if there are more than 4294967295 octets; `NoMemory`.
    pub fn data(alloc: Global, octets: &[u8]) -> Result<Message, ClientError> {
        match Bytes::copy_from_slice(alloc, octets) {
            Ok(octets) => encode_body(alloc, SectionKind::Data, Value::Binary(octets)),
            Err(_) => Err(ClientError::NoMemory),
        }
    }

    /// Returns the message of these sections in its encoded form.
    ///
    /// # Errors
    ///
    /// `NotWritable` if the sections are out of order, have no body, or one has a body that its kind does not take; `NoMemory`.
    pub fn encode(alloc: Global, message: &amqp_messages::Message) -> Result<Message, ClientError>
        ensures { IfOk result (λ encoded. message_form (seen_all message.now.sections) ≡ Some encoded.octets) }
    {
        let mut octets = Vec::new(alloc);
        match write_message(message, &mut octets) {
            Ok(()) => of_octets(octets),
            Err(fault) => {
                drop(octets);
                Err(write_error(fault))
            }
        }
    }

    /// The message whose encoded form came from a peer.
    pub(crate) fn received(octets: Bytes) -> Message {
        Message { octets }
    }

    /// Returns the encoded form: the octets that the transfers of a delivery carry.
    pub fn octets(&self) -> &Bytes
        ensures { result.now ≡ self.now.octets }
    {
        &self.octets
    }

    /// Returns all sections of the message, decoded.
    ///
    /// # Errors
    ///
    /// `NoMessage` if a peer sent what is no message, with the place of the fault; `NoMemory`.
    pub fn decode(&self, alloc: Global) -> Result<amqp_messages::Message, ClientError> {
        match read_message(alloc, &self.octets) {
            Ok(message) => Ok(message),
            Err(amqp_messages::MessageFault::NoMemory) => Err(ClientError::NoMemory),
            Err(fault) => Err(ClientError::NoMessage(fault)),
        }
    }

    /// Returns the octets of the body: those of the first data section, or of the text or binary of an amqp-value section; `None` if the body is another value.
    ///
    /// The octets of a data section are shared, not copied.
    ///
    /// # Errors
    ///
    /// Those of [`Message::decode`].
    pub fn body(&self, alloc: Global) -> Result<Option<Bytes>, ClientError> {
        let message = self.decode(alloc)?;
        let body = body_of(alloc, &message);
        drop(message);
        match body {
            Ok(body) => Ok(body),
            Err(_) => Err(ClientError::NoMemory),
        }
    }
}

/// The message of one section.
fn encode_body(alloc: Global, kind: SectionKind, body: Value) -> Result<Message, ClientError> {
    let mut sections = Items::new(alloc);
    let pushed = sections.push(Section { kind, body });
    let message = amqp_messages::Message { sections };
    let encoded = match pushed {
        Ok(()) => Message::encode(alloc, &message),
        Err(_) => Err(ClientError::NoMemory),
    };
    drop(message);
    encoded
}

fn of_octets(octets: Vec<u8>) -> Result<Message, ClientError>
    ensures { IfOk result (λ message. message.octets ≡ octets.items) }
{
    match Bytes::from_vec(octets) {
        Ok(octets) => Ok(Message { octets }),
        Err(_) => Err(ClientError::NoMemory),
    }
}

fn write_error(fault: WriteFault) -> ClientError {
    match fault {
        WriteFault::NotWritable => ClientError::NotWritable,
        _ => ClientError::NoMemory,
    }
}

fn body_of(alloc: Global, message: &amqp_messages::Message) -> Result<Option<Bytes>, AllocError> {
    if let Some(data) = message.find(SectionKind::Data) {
        return octets_of(alloc, data);
    }
    match message.find(SectionKind::AmqpValue) {
        Some(value) => octets_of(alloc, value),
        None => Ok(None),
    }
}

fn octets_of(alloc: Global, value: &Value) -> Result<Option<Bytes>, AllocError> {
    match value {
        Value::Binary(octets) => Ok(Some(octets.clone()?)),
        Value::Str(text) => Ok(Some(Bytes::copy_from_slice(alloc, text.as_bytes())?)),
        _ => Ok(None),
    }
}
