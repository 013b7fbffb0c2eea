//! Messages of one link are taken and settled.
use crate::end::{End, LINK};
use crate::fault::ClientFault;
use crate::sending::dispose;
use crate::session::{Session, apply, perform};
use amqp_conn::{Boxed, DeliveryState, Left, Op, Refusal, Role, Tag, Taken, ops};

fn left_of(left: Left) -> Option<Boxed<Taken>> {
    match left {
        Left::Delivery(_, taken) => Some(taken),
        Left::Outcome(_, _) => None,
    }
}

impl End {
    /// Takes the first message that is ready.
    fn take_now(&mut self) -> Result<Option<Boxed<Taken>>, Refusal> {
        self.take_on(LINK)
    }

    /// Takes the first message of the link that is ready.
    pub(crate) fn take_on(&mut self, link: u32) -> Result<Option<Boxed<Taken>>, Refusal> {
        let op = ops::take(link);
        let answer = self.conn.apply(&op);
        drop(op);
        match answer {
            Ok(given) => Ok(given.into_taken()),
            Err(refusal) => Err(refusal),
        }
    }

    /// Takes the first message that is ready; `None` if there is none, or the link is gone.
    pub fn take_ready(&mut self) -> Result<Option<Boxed<Taken>>, ClientFault> {
        match self.take_now() {
            Ok(taken) => Ok(taken),
            Err(Refusal::NoMemory) => Err(ClientFault::NoMemory),
            Err(_) => Ok(None),
        }
    }

    /// Takes the next message that the link left when it ended (part 2, 2.6.6); `None` if it left no more.
    pub fn take_last(&mut self) -> Result<Option<Boxed<Taken>>, ClientFault> {
        self.take_left(LINK)
    }

    /// Takes the next message that the link with this number left when it ended.
    pub(crate) fn take_left(&mut self, link: u32) -> Result<Option<Boxed<Taken>>, ClientFault> {
        match self.conn.pop_left_by(Role::Receiver, link) {
            Ok(Some(left)) => Ok(left_of(left)),
            Ok(None) => Ok(None),
            Err(_) => Err(ClientFault::NoMemory),
        }
    }

    /// Whether no message may come any more, and none has begun.
    fn is_drained(&self) -> bool {
        match self.conn.logged().endpoint().status(LINK) {
            Some(status) => status.credit == 0 && !status.mid,
            None => true,
        }
    }

    /// Returns whether the delivery with this tag waits to be resumed by the sender.
    pub fn waits(&self, tag: &Tag) -> bool {
        match self.link() {
            Some(link) => link.waits(tag),
            None => false,
        }
    }

    /// Returns the id of the delivery with this tag, if it is unsettled. O(n) for n unsettled deliveries.
    pub fn held(&self, tag: &Tag) -> Option<u32> {
        let endpoint = self.conn.logged().endpoint();
        for place in 0..endpoint.unsettled_len(Role::Receiver) {
            match endpoint.unsettled_at(Role::Receiver, place) {
                Some(item) if item.tag == *tag => return Some(item.id),
                _ => {}
            }
        }
        None
    }

    /// Returns how many deliveries wait to be resumed by the sender. O(n) for n of them.
    pub fn waiting_len(&self) -> u32 {
        let endpoint = self.conn.logged().endpoint();
        for place in 0..u32::MAX {
            if endpoint.waiting_at(LINK, place as usize).is_none() {
                return place;
            }
        }
        u32::MAX
    }
}

/// Grants the peer credit for `credit` messages.
///
/// # Errors
///
/// Those of `apply`.
pub fn grant<S: Session>(session: &mut S, credit: u32) -> Result<(), ClientFault> {
    perform(session, ops::grant(LINK, credit))
}

/// Grants the peer credit for `credit` messages, which it uses up or gives up at once (part 2, 2.6.7).
///
/// # Errors
///
/// Those of `apply`.
pub fn drain<S: Session>(session: &mut S, credit: u32) -> Result<(), ClientFault> {
    perform(
        session,
        Op::Grant {
            link: LINK,
            credit,
            drain: true,
            echo: false,
        },
    )
}

/// Waits for the next message and takes it, also one that came before the link ended. It is to be settled by its id, unless it came settled.
///
/// # Errors
///
/// Those of `apply`.
pub fn take<S: Session>(session: &mut S) -> Result<Boxed<Taken>, ClientFault> {
    for _ in 0..u64::MAX {
        match take_once(session) {
            Ok(Some(taken)) => return Ok(taken),
            Ok(None) => {}
            Err(fault) => return Err(fault),
        }
    }
    Err(ClientFault::Closed)
}

/// What the link gives, or what it left if it is gone.
fn take_once<S: Session>(session: &mut S) -> Result<Option<Boxed<Taken>>, ClientFault> {
    let op = ops::take(LINK);
    let answer = apply(session, &op);
    drop(op);
    match answer {
        Ok(given) => Ok(given.into_taken()),
        Err(fault) => match session.end_mut().take_last() {
            Ok(None) => Err(fault),
            left => left,
        },
    }
}

/// Takes the next message of a link that is drained; `None` once the credit is used up or given up.
///
/// # Errors
///
/// Those of `apply`.
pub fn take_drained<S: Session>(session: &mut S) -> Result<Option<Boxed<Taken>>, ClientFault> {
    for _ in 0..u64::MAX {
        let end = session.end_mut();
        match end.take_now() {
            Ok(taken) => return Ok(taken),
            Err(_) if end.is_gone() => return end.take_last(),
            Err(Refusal::Nothing) if end.is_drained() => return Ok(None),
            Err(Refusal::Nothing) => {}
            Err(refusal) => return Err(ClientFault::Refused(refusal)),
        }
        session.turn()?;
    }
    Ok(None)
}

/// Settles the message with this id, with this state (part 2, 2.6.12). False if the link is gone: then the peer does not learn of it, and may send the message
/// again. If the peer has settled the message, nothing is sent.
///
/// # Errors
///
/// Those of `apply`.
pub fn settle_as<S: Session>(
    session: &mut S,
    id: u32,
    state: DeliveryState,
) -> Result<bool, ClientFault> {
    if session.end().is_gone() {
        drop(state);
        return Ok(false);
    }
    match dispose(session, Role::Receiver, id, Some(state)) {
        Err(ClientFault::Refused(Refusal::NothingHeld)) => Ok(!session.end().is_gone()),
        Err(fault) => Err(fault),
        Ok(()) => Ok(true),
    }
}
