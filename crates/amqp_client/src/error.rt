//! Why a call of the library fails.
use amqp_conn::{AmqpError, CloseRefusal, ConnFault, Refusal, StartFault};
use amqp_messages::MessageFault;
use amqp_policy::Shown;
use std::alloc::AllocError;
use std::fmt::{Display, Formatter};
use std::{fmt, io};
use thiserror::Error;

/// What ended before the program ended it.
#[derive(Clone, Copy, Debug, PartialEq, Eq)]
pub enum EndedPart {
    Link,
    Session,
    Connection,
}

/// The link, the session or the connection ended before the program ended it.
///
/// It is printed in one line, as `the peer ended the link: amqp:not-found: no such queue`.
#[derive(Debug, Drop)]
pub struct Ended {
    pub part: EndedPart,
    /// This end ended it, since the peer broke a rule of the protocol.
    pub is_violation: bool,
    /// The peer's error (part 2, 2.8.14), if it gave one; after a violation the error that the peer was sent.
    pub error: Option<AmqpError>,
}

impl Ended {
    /// Who ended what.
    fn subject(&self) -> &'static str {
        match self.part {
            EndedPart::Link if self.is_violation =>
                "the link was ended, since the peer broke a rule",
            EndedPart::Link => "the peer ended the link",
            EndedPart::Session if self.is_violation => {
                "the session was ended, since the peer broke a rule"
            }
            EndedPart::Session => "the peer ended the session",
            EndedPart::Connection => "the peer closed the connection",
        }
    }
}

impl Display for Ended {
    fn fmt<W: fmt::Write>(&self, f: &mut Formatter<W>) -> fmt::Result {
        f.write_str(self.subject())?;
        match &self.error {
            Some(error) => write_error(f, error),
            None => Ok(()),
        }
    }
}

/// Writes the condition, and the description if there is one, each behind a colon.
fn write_error<W: fmt::Write>(f: &mut Formatter<W>, error: &AmqpError) -> fmt::Result {
    write!(f, ": {}", Shown(error.condition.as_str()))?;
    match &error.description {
        Some(description) => write!(f, ": {}", Shown(description.as_str())),
        None => Ok(()),
    }
}

/// Why a call of a [`Client`](crate::Client) fails.
#[derive(Debug, Drop, Error)]
pub enum ClientError {
    /// The host's name has no address, or nobody listens there.
    #[error("cannot connect: {0}")]
    Connect(io::Error),
    #[error("a read failed: {0}")]
    Read(io::Error),
    #[error("a write failed: {0}")]
    Write(io::Error),
    /// A setting is out of its limits.
    #[error("the connection cannot start: {0}")]
    Start(StartFault),
    #[error("{0}")]
    Ended(Ended),
    /// The peer broke a rule of the connection, which was closed for it.
    #[error("the peer broke the protocol: {0}")]
    Protocol(ConnFault),
    /// The input ended before the connection was closed.
    #[error("the connection was lost")]
    Lost,
    /// The input ended before the peer's header.
    #[error("the peer hung up before its header: it may require TLS or SASL")]
    NoHeader,
    /// The peer's header is that of SASL (part 5, 5.3.1).
    #[error("the peer requires SASL, which this library does not speak")]
    Sasl,
    /// Nothing came from the peer for the time that [`Options::patience`](crate::Options::patience) allows.
    #[error("the peer was silent for too long")]
    Silent,
    /// The connection, as it stands, does not allow the operation.
    #[error("the operation was refused: {0}")]
    Refused(Refusal),
    #[error("the connection cannot be closed: {0}")]
    Close(CloseRefusal),
    /// The payload of a delivery is no message.
    #[error("the payload is no message: {0}")]
    NoMessage(MessageFault),
    /// A message cannot be written: its sections are out of order, or too long.
    #[error("the message cannot be written")]
    NotWritable,
    #[error("out of memory")]
    NoMemory,
}

impl From<AllocError> for ClientError {
    fn from(_: AllocError) -> ClientError {
        ClientError::NoMemory
    }
}
