//! The session and the links that the program opens by their addresses.
use crate::end::End;
use crate::fault::ClientFault;
use crate::opening::{Wanted, asking};
use crate::session::{Session, apply, perform};
use amqp_conn::{Given, Op, Phase, Refusal, Role};
use std::alloc::AllocError;

/// Waits until the peer's open came, or the connection has ended (part 2, 2.4.1).
pub(crate) fn await_open<S: Session>(session: &mut S) -> Result<(), ClientFault> {
    for _ in 0..u64::MAX {
        match session.end().conn.phase() {
            Phase::AwaitHeader | Phase::AwaitOpen => session.turn()?,
            _ => break,
        }
    }
    Ok(())
}

/// Begins the session, unless it has begun, and waits until the peer has begun it, too, or has ended it.
fn begin<S: Session>(session: &mut S) -> Result<(), ClientFault> {
    session.end_mut().links.begin();
    match perform(session, Op::Begin) {
        Ok(()) => await_begin(session),
        Err(ClientFault::Refused(Refusal::AlreadyBegun)) => Ok(()),
        Err(fault) => Err(fault),
    }
}

fn await_begin<S: Session>(session: &mut S) -> Result<(), ClientFault> {
    for _ in 0..u64::MAX {
        if session.end().has_begun() {
            break;
        }
        session.turn()?;
    }
    // From here on a session that is not mapped is one that has ended.
    session.end_mut().is_opened = true;
    Ok(())
}

/// Opens a link and waits until the peer has attached it, too: its number.
pub(crate) fn attach<S: Session>(
    session: &mut S,
    role: Role,
    address: &str,
) -> Result<u32, ClientFault> {
    begin(session)?;
    match session.end_mut().attach_of(role, address) {
        Ok(op) => attach_by(session, role, op),
        Err(_) => Err(ClientFault::NoMemory),
    }
}

/// Opens the link by its attach. There is room to note it.
fn attach_by<S: Session>(session: &mut S, role: Role, op: Op) -> Result<u32, ClientFault> {
    let answer = apply(session, &op);
    drop(op);
    match answer {
        Ok(given) => note_link(session, role, given),
        Err(fault) => Err(fault),
    }
}

fn note_link<S: Session>(session: &mut S, role: Role, given: Given) -> Result<u32, ClientFault> {
    let Some(link) = link_in(given) else {
        return Err(ClientFault::Refused(Refusal::NoLink));
    };
    if session.end_mut().links.add(link, role).is_err() {
        return Err(ClientFault::NoMemory);
    }
    match await_attached(session, link) {
        Ok(()) => Ok(link),
        Err(fault) => Err(fault),
    }
}

/// The number of the link that our attach opened.
fn link_in(given: Given) -> Option<u32> {
    let link = match &given {
        Given::Link(link) => Some(*link),
        _ => None,
    };
    drop(given);
    link
}

fn await_attached<S: Session>(session: &mut S, link: u32) -> Result<(), ClientFault> {
    for _ in 0..u64::MAX {
        match session.end().is_attached(link) {
            Some(true) => break,
            Some(false) => session.turn()?,
            None => return Err(ClientFault::Refused(Refusal::NoLink)),
        }
    }
    Ok(())
}

impl End {
    /// The peer has begun the session, or has ended it with an error.
    fn has_begun(&self) -> bool {
        self.conn.logged().endpoint().windows().next_in.is_some()
            || self.links.session_cause().is_some()
    }

    /// Whether both ends have attached the link; `None` if it is gone.
    fn is_attached(&self, link: u32) -> Option<bool> {
        match self.conn.logged().endpoint().link_of(link) {
            Some(link) => Some(link.is_attached()),
            None => None,
        }
    }

    /// Our attach of a link with this address at the peer, and room to note the link. Its name has its number among ours, so that no other has it.
    fn attach_of(&mut self, role: Role, address: &str) -> Result<Op, AllocError> {
        self.links.reserve()?;
        let number = self.links.len();
        let name = format!(in self.alloc; "{address}-{number}")?;
        let wanted = Wanted {
            name: name.as_str(),
            role,
            address,
        };
        let op = asking(self.alloc, wanted, &[]);
        drop(name);
        op
    }
}
