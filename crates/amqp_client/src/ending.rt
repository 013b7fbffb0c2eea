//! Links, the session and the connection are ended, each as agreed with the peer.
use crate::attaching::await_open;
use crate::end::{Awaited, End, LINK};
use crate::fault::ClientFault;
use crate::session::{Session, wait_for};
use amqp_conn::{AmqpError, Boxed, Op, Phase, Refusal, Text, ops};
use std::alloc::{AllocError, Global};

/// The error for a peer that has been silent for too long (part 2, 2.4.5 and 2.8.15).
fn silence(alloc: Global) -> Result<Boxed<AmqpError>, AllocError> {
    let condition = Text::new(alloc, "amqp:resource-limit-exceeded")?;
    let description = Text::new(alloc, "nothing was heard for too long")?;
    Boxed::new(
        alloc,
        AmqpError {
            condition,
            description: Some(description),
            info: None,
        },
    )
}

impl End {
    /// Does an operation that ends something. It is refused if the peer has ended that first.
    fn leave(&mut self, op: Op) -> Result<(), ClientFault> {
        let answer = self.conn.apply(&op);
        drop(op);
        match answer {
            Ok(given) => {
                drop(given);
                Ok(())
            }
            Err(Refusal::NoLink | Refusal::NotMapped | Refusal::NotRunning) => Ok(()),
            Err(refusal) => Err(ClientFault::Refused(refusal)),
        }
    }

    /// Detaches each link that the program opened, ends the session and closes the connection, each unless the peer has done so first.
    fn leave_links(&mut self) -> Result<(), ClientFault> {
        for place in 0..self.links.len() {
            if let Some(link) = self.links.number_at(place) {
                self.leave(ops::detach(link))?;
            }
        }
        self.end_and_close()
    }

    /// Ends the session and closes the connection, unless the peer has closed it first.
    fn end_and_close(&mut self) -> Result<(), ClientFault> {
        self.leave(ops::end())?;
        if self.conn.phase() == Phase::Closed {
            return Ok(());
        }
        match self.conn.close(None) {
            Ok(()) => Ok(()),
            Err(refusal) => Err(ClientFault::Close(refusal)),
        }
    }

    /// Closes the connection of a silent peer, with an error. False if the close cannot be sent.
    pub fn close_silent(&mut self) -> bool {
        match silence(self.alloc) {
            Ok(error) => self.conn.close(Some(error)).is_ok(),
            Err(_) => false,
        }
    }
}

/// Detaches the link, ends the session and closes the connection, and waits for the peer's answers. If the peer has closed first, that is the end, too.
///
/// # Errors
///
/// Those of `apply` except `Closed`; and `Close`.
pub fn finish<S: Session>(session: &mut S) -> Result<(), ClientFault> {
    match leave_all(session) {
        Err(ClientFault::Closed) => Ok(()),
        answer => answer,
    }
}

fn leave_all<S: Session>(session: &mut S) -> Result<(), ClientFault> {
    session.end_mut().leave(ops::detach(LINK))?;
    wait_for(session, Awaited::Parting)?;
    session.end_mut().end_and_close()?;
    for _ in 0..u64::MAX {
        session.turn()?;
    }
    Ok(())
}

/// Ends the links that the program opened, the session and the connection, and waits for the peer's close.
pub(crate) fn close<S: Session>(session: &mut S) -> Result<(), ClientFault> {
    match close_all(session) {
        Err(ClientFault::Closed) if session.end().conn.ended_by().is_none() => Ok(()),
        answer => answer,
    }
}

fn close_all<S: Session>(session: &mut S) -> Result<(), ClientFault> {
    await_open(session)?;
    session.end_mut().leave_links()?;
    for _ in 0..u64::MAX {
        session.turn()?;
    }
    Ok(())
}
