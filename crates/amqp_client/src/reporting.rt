//! How what stopped a call becomes the error that the program gets.
use crate::end::End;
use crate::error::{ClientError, Ended, EndedPart};
use crate::fault::ClientFault;
use amqp_conn::{AmqpError, CloseRefusal, ConnFault, Phase, PumpFault, Refusal, StartFault};

/// The end of a part, with a copy of its error.
fn ended(part: EndedPart, is_violation: bool, error: &AmqpError) -> ClientError {
    match error.clone() {
        Ok(error) => ClientError::Ended(Ended {
            part,
            is_violation,
            error: Some(error),
        }),
        Err(_) => ClientError::NoMemory,
    }
}

/// What a refusal says of the link, the session or the connection: it has ended.
fn part_ended(refusal: Refusal) -> Option<EndedPart> {
    match refusal {
        Refusal::NoLink | Refusal::NotAttached => Some(EndedPart::Link),
        Refusal::NotMapped => Some(EndedPart::Session),
        Refusal::NotRunning => Some(EndedPart::Connection),
        _ => None,
    }
}

fn pump_error(fault: PumpFault) -> ClientError {
    match fault {
        PumpFault::Conn(ConnFault::NoMemory) => ClientError::NoMemory,
        PumpFault::Conn(fault) => ClientError::Protocol(fault),
        _ => ClientError::Lost,
    }
}

impl End {
    /// Returns the error of a call on this link that was stopped by the fault.
    pub(crate) fn error_on(&self, link: u32, fault: ClientFault) -> ClientError {
        match fault {
            ClientFault::Closed | ClientFault::Ended => {
                self.ended_on(link, EndedPart::Connection)
            }
            ClientFault::Refused(refusal) => self.refused_on(link, refusal),
            ClientFault::Pump(fault) => pump_error(fault),
            ClientFault::EndOfInput if self.conn.phase() == Phase::AwaitHeader => {
                ClientError::NoHeader
            }
            ClientFault::EndOfInput => ClientError::Lost,
            ClientFault::Silent => ClientError::Silent,
            ClientFault::Sasl => ClientError::Sasl,
            ClientFault::Start(StartFault::NoMemory)
            | ClientFault::Close(CloseRefusal::NoMemory)
            | ClientFault::NoMemory => ClientError::NoMemory,
            ClientFault::Start(fault) => ClientError::Start(fault),
            ClientFault::Close(refusal) => ClientError::Close(refusal),
        }
    }

    fn refused_on(&self, link: u32, refusal: Refusal) -> ClientError {
        match part_ended(refusal) {
            Some(part) => self.ended_on(link, part),
            None if refusal == Refusal::NoMemory => ClientError::NoMemory,
            None => ClientError::Refused(refusal),
        }
    }

    /// Why the link ended, if that is known: by the peer's close, by itself, or with the session. Else this part ended without an error.
    fn ended_on(&self, link: u32, part: EndedPart) -> ClientError {
        if let Some(error) = self.conn.ended_by() {
            return ended(EndedPart::Connection, false, error);
        }
        if let Some(cause) = self.links.cause_of(link) {
            return ended(EndedPart::Link, cause.is_violation, &cause.error);
        }
        if let Some(cause) = self.links.session_cause() {
            return ended(EndedPart::Session, cause.is_violation, &cause.error);
        }
        ClientError::Ended(Ended {
            part,
            is_violation: false,
            error: None,
        })
    }
}
