//! The library's calls that send.
use crate::client::Client;
use crate::end::End;
use crate::error::ClientError;
use crate::fault::ClientFault;
use crate::links::{Pending, Sender};
use crate::message::Message;
use crate::sending::{Told, learn_on, send_on};
use crate::session::Session;
use amqp_conn::{Bytes, Op, Refusal, Role};
use amqp_policy::Outcome;
use std::io::{Read, Write};

impl<R: Read, W: Write> Client<R, W> {
    /// Opens a link over which messages go to this address at the peer, and waits until the peer has attached it. The session is begun before, if this is the first link.
    ///
    /// # Errors
    ///
    /// [`ClientError::Ended`] if the peer refuses the session or the link, and those of the connection.
    ///
    /// # Examples
    ///
    /// ```text
    /// let queue = client.sender("queue")?;
    /// ```
    pub fn sender(&mut self, address: &str) -> Result<Sender, ClientError> {
        match self.open_link(Role::Sender, address) {
            Ok(link) => Ok(Sender { link }),
            Err(error) => Err(error),
        }
    }

    /// Sends a message and waits for its outcome: what the receiver did with it (part 3, 3.4).
    ///
    /// The message goes in as many transfers as the peer's frame size asks for, once the link has credit and the session's window is open. If it fails, the peer may have
    /// the message or not.
    ///
    /// # Errors
    ///
    /// [`ClientError::Ended`] if the peer ends the link, the session or the connection first, and those of the connection.
    ///
    /// # Examples
    ///
    /// ```text
    /// match client.send(queue, &message)? {
    ///     Outcome::Accepted => {}
    ///     outcome => println!(rt; "not taken: {outcome:?}")?,
    /// }
    /// ```
    pub fn send(&mut self, sender: Sender, message: &Message) -> Result<Outcome, ClientError> {
        let pending = match start(self, sender.link, message.octets(), false) {
            Ok(pending) => pending,
            Err(fault) => return Err(self.error_on(sender.link, fault)),
        };
        self.outcome(pending)
    }

    /// Sends a message and does not wait for its outcome, which [`Client::outcome`] returns later. Returns once the message is written.
    ///
    /// # Errors
    ///
    /// Those of [`Client::send`].
    pub fn start_send(
        &mut self,
        sender: Sender,
        message: &Message,
    ) -> Result<Pending, ClientError> {
        let started = start(self, sender.link, message.octets(), false);
        match self.flushed(started) {
            Ok(pending) => Ok(pending),
            Err(fault) => Err(self.error_on(sender.link, fault)),
        }
    }

    /// Sends a message settled: it has no outcome, and is lost if the connection is lost before the peer has read it.
    ///
    /// # Errors
    ///
    /// Those of [`Client::send`].
    pub fn send_settled(&mut self, sender: Sender, message: &Message) -> Result<(), ClientError> {
        let started = start(self, sender.link, message.octets(), true);
        match self.flushed(started) {
            Ok(_) => Ok(()),
            Err(fault) => Err(self.error_on(sender.link, fault)),
        }
    }

    /// Waits for the outcome of a message that [`Client::start_send`] sent, and returns it. Each outcome is returned once; outcomes may be asked for in any order.
    ///
    /// # Errors
    ///
    /// [`ClientError::Refused`] with [`Refusal::Nothing`] if the outcome was returned before, and those of [`Client::send`].
    pub fn outcome(&mut self, pending: Pending) -> Result<Outcome, ClientError> {
        match await_outcome(self, pending) {
            Ok(outcome) => Ok(outcome),
            Err(fault) => Err(self.error_on(pending.link, fault)),
        }
    }
}

/// Sends a message on the link. One that cannot be sent whole is aborted (part 2, 2.7.5).
fn start<S: Session>(
    session: &mut S,
    link: u32,
    message: &Bytes,
    settled: bool,
) -> Result<Pending, ClientFault> {
    let pending = new_message(session.end_mut(), link, settled)?;
    match send_on(session, link, pending.number, message, settled) {
        Ok(()) => Ok(pending),
        Err(fault) => {
            give_back(session.end_mut(), pending);
            Err(fault)
        }
    }
}

fn new_message(end: &mut End, link: u32, settled: bool) -> Result<Pending, ClientFault> {
    let number = end.links.next_number();
    let pending = Pending { link, number };
    if !settled && end.links.add_message(pending).is_err() {
        return Err(ClientFault::NoMemory);
    }
    Ok(pending)
}

fn give_back(end: &mut End, pending: Pending) {
    end.links.remove_message(pending);
    end.do_if_can(Op::Abort { link: pending.link });
}

/// Learns of messages of the link until the outcome of this one is known.
fn await_outcome<S: Session>(session: &mut S, pending: Pending) -> Result<Outcome, ClientFault> {
    for _ in 0..u64::MAX {
        match session.end_mut().links.take_outcome(pending) {
            Ok(Some(outcome)) => return Ok(outcome),
            Ok(None) => learn_next(session, pending.link)?,
            Err(fault) => return Err(fault),
        }
    }
    Err(ClientFault::Refused(Refusal::Nothing))
}

/// Waits until the peer has said what became of one message of the link, and notes it.
fn learn_next<S: Session>(session: &mut S, link: u32) -> Result<(), ClientFault> {
    match learn_on(session, link) {
        Ok(told) => {
            note_outcome(session.end_mut(), link, told);
            Ok(())
        }
        Err(fault) => Err(fault),
    }
}

fn note_outcome(end: &mut End, link: u32, told: Told) {
    let message = Pending {
        link,
        number: told.number,
    };
    end.links.set_outcome(message, told.outcome);
}
