//! The library's calls that receive.
ghost use Rattle.std.specs.Prelude.{◌≡◌, ◌+◌, ◌<◌, ◌≤◌, IfSome};
ghost use Rattle.amqp_policy.specs.Outcome.{outcome_of};

use crate::client::Client;
use crate::end::End;
use crate::error::ClientError;
use crate::fault::ClientFault;
use crate::links::{Delivery, Receiver};
use crate::message::{Message, ReceivedMessage};
use crate::sending::dispose;
use crate::session::Session;
use amqp_conn::{Boxed, DeliveryState, Refusal, Role, Taken, ops};
use amqp_policy::{Incoming, Outcome, Renewal, credit_to_grant};
use std::io::{Read, Write};

/// The largest credit that serial numbers allow (part 2, 2.6.7).
const MOST_CREDIT: u32 = 2147483647;

impl<R: Read, W: Write> Client<R, W> {
    /// Opens a link over which messages come from this address at the peer, and waits until the peer has attached it. The session is begun before, if this is the first
    /// link.
    ///
    /// At most `credit` messages, at least 1, are ready or on their way at a time: credit is granted again once the peer has used it up and at most half as many messages
    /// wait to be received.
    ///
    /// # Errors
    ///
    /// Those of [`Client::sender`].
    ///
    /// # Examples
    ///
    /// ```text
    /// let queue = client.receiver("queue", 10)?;
    /// ```
    pub fn receiver(&mut self, address: &str, credit: u32) -> Result<Receiver, ClientError> {
        match self.open_link(Role::Receiver, address) {
            Ok(link) => Ok(Receiver {
                link,
                most: credit.max(1).min(MOST_CREDIT),
            }),
            Err(error) => Err(error),
        }
    }

    /// Waits for the next message of the link, and returns it. Messages that came before the peer ended the link are returned first.
    ///
    /// Credit is granted by this call alone, so a receiver that is not asked for messages gets no more than its credit.
    ///
    /// # Errors
    ///
    /// [`ClientError::Ended`] if the peer ended the link, the session or the connection, and those of the connection.
    ///
    /// # Examples
    ///
    /// ```text
    /// let received = client.receive(queue)?;
    /// let body = received.message.body(alloc)?;
    /// client.settle(queue, received.delivery, Outcome::Accepted)?;
    /// ```
    pub fn receive(&mut self, receiver: Receiver) -> Result<ReceivedMessage, ClientError> {
        match receive_on(self, receiver) {
            Ok(taken) => received_of(taken),
            Err(fault) => Err(self.error_on(receiver.link, fault)),
        }
    }

    /// Settles a delivery with this outcome, and writes so to the peer (part 2, 2.6.12). [`Outcome::Modified`] says that the attempt has failed; [`Outcome::Unknown`]
    /// settles without an outcome. A delivery that came settled, or that the peer has settled, needs nothing.
    ///
    /// # Errors
    ///
    /// [`ClientError::Ended`] if the link is gone: the peer does not learn of the outcome, and may send the message again. Those of the connection.
    pub fn settle(
        &mut self,
        receiver: Receiver,
        delivery: Delivery,
        outcome: Outcome,
    ) -> Result<(), ClientError> {
        let settled = settle_on(self, receiver, delivery, outcome);
        match self.flushed(settled) {
            Ok(()) => Ok(()),
            Err(fault) => Err(self.error_on(receiver.link, fault)),
        }
    }
}

/// Returns the credit to grant on a link, or `None` if none is due. With the messages that are ready or begun it never exceeds `most`.
///
/// None is due while the peer has credit: some peers send more than they were granted if it is renewed sooner.
fn credit_due(incoming: Incoming, most: u32) -> Option<u32>
    ensures { IfSome result (λ c. (c + incoming.ready + incoming.begun ≤ most) × (incoming.credit < c)) }
{
    if u64::from(incoming.ready) + u64::from(incoming.begun) > u64::from(most / 2) {
        return None;
    }
    credit_to_grant(u64::from(most), incoming, most, Renewal::AtZero)
}

/// Returns the state that has this meaning for the sender.
fn state_of(outcome: Outcome) -> Option<DeliveryState>
    ensures { outcome_of result ≡ outcome }
{
    match outcome {
        Outcome::Accepted => Some(DeliveryState::Accepted),
        Outcome::Rejected => Some(DeliveryState::Rejected(None)),
        Outcome::Released => Some(DeliveryState::Released),
        Outcome::Modified => Some(DeliveryState::Modified {
            delivery_failed: Some(true),
            undeliverable_here: None,
            message_annotations: None,
        }),
        Outcome::Unknown => None,
    }
}

/// The message that was taken.
fn received_of(taken: Boxed<Taken>) -> Result<ReceivedMessage, ClientError> {
    let delivery = Delivery {
        id: taken.get().id,
        is_settled: taken.get().settled,
    };
    let payload = taken.get().payload.join();
    drop(taken);
    match payload {
        Ok(octets) => Ok(ReceivedMessage {
            delivery,
            message: Message::received(octets),
        }),
        Err(_) => Err(ClientError::NoMemory),
    }
}

/// Waits for the next message of the link.
fn receive_on<S: Session>(
    session: &mut S,
    receiver: Receiver,
) -> Result<Boxed<Taken>, ClientFault> {
    for _ in 0..u64::MAX {
        match receive_once(session, receiver) {
            Ok(Some(taken)) => return Ok(taken),
            Ok(None) => {}
            Err(fault) => return Err(fault),
        }
    }
    Err(ClientFault::Closed)
}

/// The next message that is here; if there is none the peer is listened to once.
fn receive_once<S: Session>(
    session: &mut S,
    receiver: Receiver,
) -> Result<Option<Boxed<Taken>>, ClientFault> {
    session.end_mut().renew(receiver)?;
    match session.end_mut().next_on(receiver.link) {
        Ok(None) => {}
        answer => return answer,
    }
    session.turn()?;
    Ok(None)
}

fn settle_on<S: Session>(
    session: &mut S,
    receiver: Receiver,
    delivery: Delivery,
    outcome: Outcome,
) -> Result<(), ClientFault> {
    if delivery.is_settled {
        return Ok(());
    }
    if session.end().is_left(receiver.link) {
        return Err(ClientFault::Refused(Refusal::NoLink));
    }
    match dispose(session, Role::Receiver, delivery.id, state_of(outcome)) {
        Err(ClientFault::Refused(Refusal::NothingHeld)) => Ok(()),
        answer => answer,
    }
}

impl End {
    /// No message comes over the link any more, and none is settled.
    fn is_left(&self, link: u32) -> bool {
        self.conn.logged().endpoint().link_of(link).is_none()
    }

    /// Takes the next message that is here, or that the link left if it is gone.
    fn next_on(&mut self, link: u32) -> Result<Option<Boxed<Taken>>, ClientFault> {
        match self.take_on(link) {
            Ok(taken) => Ok(taken),
            Err(Refusal::NoMemory) => Err(ClientFault::NoMemory),
            // The peer's answer to our detach is awaited.
            Err(Refusal::Nothing | Refusal::NotAttached) => Ok(None),
            Err(refusal) => self.last_on(link, refusal),
        }
    }

    /// Takes the next message that came before the link ended.
    fn last_on(
        &mut self,
        link: u32,
        refusal: Refusal,
    ) -> Result<Option<Boxed<Taken>>, ClientFault> {
        match self.take_left(link) {
            Ok(None) => Err(ClientFault::Refused(refusal)),
            answer => answer,
        }
    }

    /// Grants credit if it is due.
    fn renew(&mut self, receiver: Receiver) -> Result<(), ClientFault> {
        let Some(incoming) = self.incoming_on(receiver.link) else {
            return Ok(());
        };
        match credit_due(incoming, receiver.most) {
            Some(credit) => self.grant_on(receiver.link, credit),
            None => Ok(()),
        }
    }

    /// Grants credit, unless the link is ending.
    fn grant_on(&mut self, link: u32, credit: u32) -> Result<(), ClientFault> {
        match self.conn.perform(ops::grant(link, credit)) {
            Err(Refusal::NoMemory) => Err(ClientFault::NoMemory),
            _ => Ok(()),
        }
    }

    /// What the link has of the peer's messages.
    fn incoming_on(&self, link: u32) -> Option<Incoming> {
        match self.conn.logged().endpoint().status(link) {
            Some(status) => Some(Incoming {
                credit: status.credit,
                ready: status.ready.min(u32::MAX as usize) as u32,
                begun: u32::from(status.mid),
            }),
            None => None,
        }
    }
}
