//! The links that the program opened by their addresses, and what is kept of each.
use crate::cause::Cause;
use crate::fault::ClientFault;
use amqp_conn::{Refusal, Role};
use amqp_policy::Outcome;
use std::alloc::{AllocError, Global};

/// A link on which the program sends, opened by [`Client::sender`](crate::Client::sender).
///
/// A `Sender` is a small value that can be copied. It belongs to the client that opened it: each call that sends on the link is a call of that client.
///
/// # Examples
///
/// ```text
/// let queue = client.sender("queue")?;
/// let outcome = client.send(queue, &Message::text(alloc, "hello")?)?;
/// ```
#[derive(Clone, Copy, Debug)]
pub struct Sender {
    pub(crate) link: u32,
}

/// A link on which the program receives, opened by [`Client::receiver`](crate::Client::receiver).
///
/// A `Receiver` is a small value that can be copied. It belongs to the client that opened it: each call that receives on the link is a call of that client.
///
/// # Examples
///
/// ```text
/// let queue = client.receiver("queue", 10)?;
/// let received = client.receive(queue)?;
/// client.settle(queue, received.delivery, Outcome::Accepted)?;
/// ```
#[derive(Clone, Copy, Debug)]
pub struct Receiver {
    pub(crate) link: u32,
    /// How many messages may be ready or on their way at a time.
    pub(crate) most: u32,
}

/// A message that was sent, whose outcome [`Client::outcome`](crate::Client::outcome) returns.
#[derive(Clone, Copy, Debug)]
pub struct Pending {
    pub(crate) link: u32,
    /// What its tag is made of.
    pub(crate) number: u32,
}

/// A delivery that was received, by which [`Client::settle`](crate::Client::settle) settles it.
#[derive(Clone, Copy, Debug)]
pub struct Delivery {
    pub(crate) id: u32,
    /// It came settled: nothing is to be done.
    pub(crate) is_settled: bool,
}

/// A message that was sent, whose outcome nobody has asked for yet.
#[derive(Clone, Copy)]
struct SentMessage {
    number: u32,
    /// Its outcome, once it is known.
    outcome: Option<Outcome>,
}

/// A link that the program opened.
struct OpenLink {
    number: u32,
    role: Role,
    /// The messages that were sent on it, the first one first.
    messages: Vec<SentMessage>,
    /// Why it ended before the program ended it.
    cause: Option<Cause>,
}

// By hand, so that a crate that owns one does not prove its parts' drops again.
impl Drop for OpenLink {
    fn drop(self) {
        let OpenLink {
            number: _,
            role: _,
            messages,
            cause,
        } = self;
        drop(messages);
        drop(cause);
    }
}

/// The links that the program opened, the first one first.
pub(crate) struct OpenLinks {
    alloc: Global,
    /// The program opens links by their addresses.
    is_used: bool,
    links: Vec<OpenLink>,
    /// Why the session ended before the program ended it.
    session: Option<Cause>,
    /// The number of the next message that is sent.
    next: u32,
}

// By hand, so that a crate that owns one does not prove its parts' drops again.
impl Drop for OpenLinks {
    fn drop(self) {
        let OpenLinks {
            alloc: _,
            is_used: _,
            links,
            session,
            next: _,
        } = self;
        drop(links);
        drop(session);
    }
}

impl OpenLinks {
    pub(crate) fn new(alloc: Global) -> OpenLinks {
        OpenLinks {
            alloc,
            is_used: false,
            links: Vec::new(alloc),
            session: None,
            next: 0,
        }
    }

    /// Notes from now on why links end.
    pub(crate) fn begin(&mut self) {
        self.is_used = true;
    }

    pub(crate) fn is_used(&self) -> bool {
        self.is_used
    }

    pub(crate) fn len(&self) -> usize {
        self.links.len()
    }

    /// Makes room for one link more.
    pub(crate) fn reserve(&mut self) -> Result<(), AllocError> {
        self.links.reserve(1)
    }

    /// Adds the link with this number.
    pub(crate) fn add(&mut self, number: u32, role: Role) -> Result<(), AllocError> {
        let link = OpenLink {
            number,
            role,
            messages: Vec::new(self.alloc),
            cause: None,
        };
        self.links.push(link)?;
        Ok(())
    }

    /// Returns a number that none of the last 4294967295 messages had.
    pub(crate) fn next_number(&mut self) -> u32 {
        let number = self.next;
        self.next = number.wrapping_add(1);
        number
    }

    /// Returns the number of the link at this place.
    pub(crate) fn number_at(&self, place: usize) -> Option<u32> {
        match self.links.get(place) {
            Some(link) => Some(link.number),
            None => None,
        }
    }

    /// Returns the number of the link at this place, if it sends.
    pub(crate) fn sender_at(&self, place: usize) -> Option<u32> {
        match self.links.get(place) {
            Some(link) if link.role == Role::Sender => Some(link.number),
            _ => None,
        }
    }

    /// Returns the place of the link with this number, or the number of links if there is none.
    fn place_of(&self, number: u32) -> usize {
        for place in 0..self.links.len() {
            if self.number_at(place) == Some(number) {
                return place;
            }
        }
        self.links.len()
    }

    /// Adds a message of the link, whose outcome is to come.
    pub(crate) fn add_message(&mut self, message: Pending) -> Result<(), AllocError> {
        let place = self.place_of(message.link);
        match self.links.get_mut(place) {
            Some(link) => add_to(&mut link.messages, message.number),
            None => Ok(()),
        }
    }

    /// Removes a message that was not sent.
    pub(crate) fn remove_message(&mut self, message: Pending) {
        let place = self.place_of(message.link);
        if let Some(link) = self.links.get_mut(place) {
            remove_from(&mut link.messages, message.number);
        }
    }

    /// Notes the outcome of a message, unless it is known or was asked for.
    pub(crate) fn set_outcome(&mut self, message: Pending, outcome: Outcome) {
        let place = self.place_of(message.link);
        if let Some(link) = self.links.get_mut(place) {
            set_in(&mut link.messages, message.number, outcome);
        }
    }

    /// Returns the outcome of a message and removes the message, if the outcome is known.
    ///
    /// # Errors
    ///
    /// `Refused` with `Nothing` if there is no such message.
    pub(crate) fn take_outcome(
        &mut self,
        message: Pending,
    ) -> Result<Option<Outcome>, ClientFault> {
        let place = self.place_of(message.link);
        match self.links.get_mut(place) {
            Some(link) => take_from(&mut link.messages, message.number),
            None => Err(ClientFault::Refused(Refusal::NoLink)),
        }
    }

    /// Notes why the link with this number ended, unless that is known.
    pub(crate) fn end_link(&mut self, number: u32, cause: Cause) {
        let place = self.place_of(number);
        match self.links.get_mut(place) {
            Some(link) => set_cause(&mut link.cause, cause),
            None => drop(cause),
        }
    }

    /// Notes why the session ended, unless that is known.
    pub(crate) fn end_session(&mut self, cause: Cause) {
        set_cause(&mut self.session, cause);
    }

    /// Returns why the link with this number ended, if that is known.
    pub(crate) fn cause_of(&self, number: u32) -> Option<&Cause> {
        let place = self.place_of(number);
        match self.links.get(place) {
            Some(link) => link.cause.as_ref(),
            None => None,
        }
    }

    /// Returns why the session ended, if that is known.
    pub(crate) fn session_cause(&self) -> Option<&Cause> {
        self.session.as_ref()
    }
}

/// Returns the place of the message with this number, or the number of messages if there is none.
fn place_in(messages: &[SentMessage], number: u32) -> usize {
    for place in 0..messages.len() {
        if messages[place].number == number {
            return place;
        }
    }
    messages.len()
}

fn add_to(messages: &mut Vec<SentMessage>, number: u32) -> Result<(), AllocError> {
    messages.push(SentMessage {
        number,
        outcome: None,
    })?;
    Ok(())
}

fn remove_from(messages: &mut Vec<SentMessage>, number: u32) {
    let place = place_in(messages.as_slice(), number);
    if place < messages.len() {
        let _ = messages.remove(place);
    }
}

fn set_in(messages: &mut Vec<SentMessage>, number: u32, outcome: Outcome) {
    let place = place_in(messages.as_slice(), number);
    if let Some(message) = messages.get_mut(place) {
        if message.outcome.is_none() {
            message.outcome = Some(outcome);
        }
    }
}

fn take_from(messages: &mut Vec<SentMessage>, number: u32) -> Result<Option<Outcome>, ClientFault> {
    let place = place_in(messages.as_slice(), number);
    if place >= messages.len() {
        return Err(ClientFault::Refused(Refusal::Nothing));
    }
    let outcome = messages[place].outcome;
    if outcome.is_some() {
        let _ = messages.remove(place);
    }
    Ok(outcome)
}

fn set_cause(known: &mut Option<Cause>, cause: Cause) {
    if known.is_none() {
        *known = Some(cause);
    } else {
        drop(cause);
    }
}
