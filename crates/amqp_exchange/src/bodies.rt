//! Messages to be sent: so many of one size, or of one file, or the lines of an input.
use crate::exchange::{Exchange, ExchangeFault};
use crate::streaming::{Lines, Next};
use amqp_conn::{Bytes, Text, Value};
use amqp_messages::{Header, Message, Properties, Section, SectionKind, write_message};
use amqp_types::{Items, WriteFault};
use std::alloc::{AllocError, Global};
use std::io::BufRead;
use std::os::fd::RawFd;

/// Fields of the header and the properties of each message that is sent (part 3, 3.2.1 and 3.2.4).
#[derive(Clone, Copy, Debug)]
pub struct Labels<'a> {
    pub is_durable: bool,
    pub message_id: Option<&'a str>,
    pub correlation_id: Option<&'a str>,
    pub subject: Option<&'a str>,
    pub reply_to: Option<&'a str>,
    /// A symbol, as `text/plain`.
    pub content_type: Option<&'a str>,
}

impl Labels<'_> {
    /// None of them.
    pub const NONE: Labels<'static> = Labels {
        is_durable: false,
        message_id: None,
        correlation_id: None,
        subject: None,
        reply_to: None,
        content_type: None,
    };

    fn has_properties(&self) -> bool {
        self.message_id.is_some()
            || self.correlation_id.is_some()
            || self.subject.is_some()
            || self.reply_to.is_some()
            || self.content_type.is_some()
    }
}

/// Returns the text as a value of its own, if there is one.
fn text_of(alloc: Global, text: Option<&str>) -> Result<Option<Text>, AllocError> {
    match text {
        Some(text) => Ok(Some(Text::new(alloc, text)?)),
        None => Ok(None),
    }
}

/// Returns the text as a string, if there is one.
fn string_of(alloc: Global, text: Option<&str>) -> Result<Option<Value>, AllocError> {
    match text_of(alloc, text) {
        Ok(Some(text)) => Ok(Some(Value::Str(text))),
        Ok(None) => Ok(None),
        Err(error) => Err(error),
    }
}

fn header_of(alloc: Global) -> Result<Section, AllocError> {
    Header {
        durable: Some(true),
        priority: None,
        ttl: None,
        first_acquirer: None,
        delivery_count: None,
    }
    .to_section(alloc)
}

/// The values of properties.
#[derive(Drop)]
struct Told {
    message_id: Option<Value>,
    correlation_id: Option<Value>,
    reply_to: Option<Value>,
    subject: Option<Text>,
    content_type: Option<Text>,
}

/// None of them.
const NOTHING: Told = Told {
    message_id: None,
    correlation_id: None,
    reply_to: None,
    subject: None,
    content_type: None,
};

fn tell(alloc: Global, labels: &Labels<'_>, told: &mut Told) -> Result<(), AllocError> {
    told.message_id = string_of(alloc, labels.message_id)?;
    told.correlation_id = string_of(alloc, labels.correlation_id)?;
    told.reply_to = string_of(alloc, labels.reply_to)?;
    told.subject = text_of(alloc, labels.subject)?;
    told.content_type = text_of(alloc, labels.content_type)?;
    Ok(())
}

fn lent_text(text: &Option<Text>) -> Option<&str> {
    match text {
        Some(text) => Some(text.as_str()),
        None => None,
    }
}

fn properties_of(told: &Told) -> Properties<'_> {
    Properties {
        message_id: told.message_id.as_ref(),
        user_id: None,
        to: None,
        subject: lent_text(&told.subject),
        reply_to: told.reply_to.as_ref(),
        correlation_id: told.correlation_id.as_ref(),
        content_type: lent_text(&told.content_type),
        content_encoding: None,
        absolute_expiry_time: None,
        creation_time: None,
        group_id: None,
        group_sequence: None,
        reply_to_group_id: None,
    }
}

fn properties_section(alloc: Global, labels: &Labels<'_>) -> Result<Section, AllocError> {
    let mut told = NOTHING;
    let section = section_of(alloc, labels, &mut told);
    drop(told);
    section
}

fn section_of(alloc: Global, labels: &Labels<'_>, told: &mut Told) -> Result<Section, AllocError> {
    tell(alloc, labels, told)?;
    properties_of(told).to_section(alloc)
}

/// Puts the sections in front of a body.
fn put_labels(
    alloc: Global,
    labels: &Labels<'_>,
    sections: &mut Items<Section>,
) -> Result<(), AllocError> {
    if labels.is_durable {
        sections.push(header_of(alloc)?)?;
    }
    if labels.has_properties() {
        sections.push(properties_section(alloc, labels)?)?;
    }
    Ok(())
}

/// Returns the sections of a message: those of the labels, and a data section with this body.
fn sections_of(
    alloc: Global,
    labels: &Labels<'_>,
    body: Bytes,
) -> Result<Items<Section>, AllocError> {
    let mut sections = Items::new(alloc);
    let put = match put_labels(alloc, labels, &mut sections) {
        Ok(()) => sections.push(Section {
            kind: SectionKind::Data,
            body: Value::Binary(body),
        }),
        Err(error) => {
            drop(body);
            Err(error)
        }
    };
    match put {
        Ok(()) => Ok(sections),
        Err(error) => {
            drop(sections);
            Err(error)
        }
    }
}

/// Returns the octets as ones that others may share.
fn shared(octets: Vec<u8>) -> Result<Bytes, AllocError> {
    match Bytes::from_vec(octets) {
        Ok(shared) => Ok(shared),
        Err(_) => Err(AllocError),
    }
}

/// Returns the octets of a message with this body.
fn message_of(alloc: Global, labels: &Labels<'_>, body: Vec<u8>) -> Result<Bytes, ExchangeFault> {
    let sections = sections_of(alloc, labels, shared(body)?)?;
    let message = Message { sections };
    let mut octets = Vec::new(alloc);
    let written = write_message(&message, &mut octets);
    drop(message);
    match written {
        Ok(()) => Ok(shared(octets)?),
        Err(fault) => {
            drop(octets);
            Err(fault_of(fault))
        }
    }
}

fn fault_of(fault: WriteFault) -> ExchangeFault {
    match fault {
        WriteFault::NotWritable => ExchangeFault::NotWritable,
        _ => ExchangeFault::NoMemory,
    }
}

/// The messages that are sent, one after the other: [`Bodies`].
pub(crate) trait Supply {
    /// Returns the next message, if one is ready.
    ///
    /// # Errors
    ///
    /// `In` if a line cannot be read, `NotWritable` and `NoMemory`.
    fn next(&mut self) -> Result<Next<Bytes>, ExchangeFault>;

    /// Waits until the next message may be ready, or the socket can be read if there is one, for a [`TICK`](amqp_client::TICK) at most.
    fn await_ready(&self, socket: Option<RawFd>);
}

/// Which messages are sent.
#[derive(Drop)]
pub(crate) struct Bodies<'a, 'b, I> {
    alloc: Global,
    labels: Labels<'a>,
    /// What is sent again and again; `None` if lines of the input are sent.
    same: Option<Bytes>,
    /// How many more times.
    left: u32,
    lines: Lines<'b, I>,
}

impl<'a, 'b, I: BufRead> Bodies<'a, 'b, I> {
    /// Returns the messages of this exchange, with these octets of its file, or with the lines of this input.
    ///
    /// # Errors
    ///
    /// `NotWritable` and `NoMemory`.
    pub(crate) fn new(
        alloc: Global,
        exchange: &Exchange<'a>,
        file: Option<Vec<u8>>,
        input: &'b mut I,
    ) -> Result<Bodies<'a, 'b, I>, ExchangeFault> {
        match same_of(alloc, exchange, file) {
            Ok(same) => Ok(Bodies {
                alloc,
                labels: exchange.labels,
                same,
                left: exchange.count,
                lines: Lines::new(alloc, input, exchange.is_polled),
            }),
            Err(fault) => Err(fault),
        }
    }
}

/// Returns the one message, with these octets of a file or as many as are asked for; `None` if lines are sent.
fn same_of(
    alloc: Global,
    exchange: &Exchange<'_>,
    file: Option<Vec<u8>>,
) -> Result<Option<Bytes>, ExchangeFault> {
    let octets = match file {
        Some(octets) => octets,
        None if exchange.is_lines => return Ok(None),
        None => vec![in alloc; 0x78u8; exchange.size as usize]?,
    };
    match message_of(alloc, &exchange.labels, octets) {
        Ok(message) => Ok(Some(message)),
        Err(fault) => Err(fault),
    }
}

impl<I: BufRead> Supply for Bodies<'_, '_, I> {
    fn next(&mut self) -> Result<Next<Bytes>, ExchangeFault> {
        match &self.same {
            Some(_) if self.left == 0 => Ok(Next::Over),
            Some(same) => {
                self.left -= 1;
                Ok(Next::Item(same.clone()?))
            }
            None => {
                let next = self.lines.next()?;
                message_in(self.alloc, &self.labels, next)
            }
        }
    }

    fn await_ready(&self, socket: Option<RawFd>) {
        self.lines.await_ready(socket);
    }
}

/// What comes next of an input's lines, as a message.
fn message_in(
    alloc: Global,
    labels: &Labels<'_>,
    next: Next<Vec<u8>>,
) -> Result<Next<Bytes>, ExchangeFault> {
    match next {
        Next::Item(line) => match message_of(alloc, labels, line) {
            Ok(message) => Ok(Next::Item(message)),
            Err(fault) => Err(fault),
        },
        Next::NotYet => Ok(Next::NotYet),
        Next::Over => Ok(Next::Over),
    }
}
