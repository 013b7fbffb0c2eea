//! A link that is attached over one connection after the other, and brings in what is in doubt.
use crate::exchange::{Exchange, ExchangeFault};
use crate::journal::Notes;
use amqp_client::{ClientFault, Session, answer_again, await_attached, await_link, open_again};
use amqp_conn::{Role, Tag};

/// How the link of an exchange is attached again.
#[derive(Clone, Copy)]
pub(crate) struct Rejoining {
    role: Role,
    /// The peer does not recover links: no attach brings anything in.
    is_plain: bool,
    /// How many lines had been written to the journal when the last attach brought something in.
    asked: Option<u64>,
}

impl Rejoining {
    /// Returns a link on which we have this role, and which was not attached yet.
    pub(crate) fn new(role: Role) -> Rejoining {
        Rejoining {
            role,
            is_plain: false,
            asked: None,
        }
    }

    /// From now on no attach brings anything in.
    pub(crate) fn forgo(&mut self) {
        self.is_plain = true;
    }

    /// Returns whether no attach brings anything in.
    pub(crate) fn is_plain(&self) -> bool {
        self.is_plain
    }

    /// Returns whether the last attach brought something in, and the journal has as many lines as then.
    pub(crate) fn has_asked(&self, noted: u64) -> bool {
        self.asked == Some(noted)
    }

    /// Begins the session and attaches the link, which brings in the deliveries with these tags.
    pub(crate) fn join<S: Session, N: Notes>(
        &mut self,
        session: &mut S,
        exchange: &Exchange<'_>,
        notes: &mut N,
        tags: Vec<Tag>,
    ) -> Result<(), ExchangeFault> {
        let mut tags = tags;
        if self.is_plain {
            tags.clear();
        }
        let joined = attach_noted(session, exchange, self.role, notes, tags.as_slice());
        self.asked = if tags.is_empty() {
            None
        } else {
            Some(notes.noted())
        };
        drop(tags);
        joined
    }
}

/// Begins the session and attaches the link, which brings in the deliveries with these tags. The journal is of that link.
fn attach_noted<S: Session, N: Notes>(
    session: &mut S,
    exchange: &Exchange<'_>,
    role: Role,
    notes: &mut N,
    tags: &[Tag],
) -> Result<(), ExchangeFault> {
    if exchange.is_listening {
        await_noted(session, role, notes)?;
    } else {
        notes.join(role, exchange.container_id)?;
    }
    attach(session, exchange, role, tags).map_err(ExchangeFault::Client)
}

/// Waits until the peer offers a link. The journal is of that one.
fn await_noted<S: Session, N: Notes>(
    session: &mut S,
    role: Role,
    notes: &mut N,
) -> Result<(), ExchangeFault> {
    match await_link(session, role) {
        Ok(name) => {
            let joined = notes.join(role, name.as_str());
            drop(name);
            joined
        }
        Err(fault) => Err(ExchangeFault::Client(fault)),
    }
}

/// Attaches the link, and waits until the peer has attached it, too.
fn attach<S: Session>(
    session: &mut S,
    exchange: &Exchange<'_>,
    role: Role,
    tags: &[Tag],
) -> Result<(), ClientFault> {
    if exchange.is_listening {
        answer_again(session, tags)?;
    } else {
        open_again(session, exchange.wanted(role), tags)?;
    }
    await_attached(session)
}
