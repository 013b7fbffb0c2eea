//! The session and its one link.
use crate::end::{Awaited, End, LINK};
use crate::fault::ClientFault;
use crate::session::{Session, perform, wait_for};
use amqp_conn::{
    Boxed, Brought, DeliveryState, Link, Op, Refusal, Rejoin, Role, SuspendedItem, Tag, Text, ops,
};
use amqp_performatives::copying::copy_value;
use amqp_types::Items;
use std::alloc::{AllocError, Global};

/// A link that we ask for: its name, our role, and the address at the peer.
#[derive(Clone, Copy)]
pub struct Wanted<'a> {
    pub name: &'a str,
    pub role: Role,
    pub address: &'a str,
}

/// What this end knows of each delivery that it brings in: if it sent them, nothing more; if it received them, that it has accepted them (part 2, 2.6.13).
fn brought(alloc: Global, role: Role, tags: &[Tag]) -> Result<Brought, AllocError> {
    let mut items = Items::new(alloc);
    for tag in tags {
        let state = match role {
            Role::Sender => None,
            Role::Receiver => Some(DeliveryState::Accepted),
        };
        items.push(SuspendedItem { tag: *tag, state })?;
    }
    Brought::new(alloc, items)
}

/// An attach without a source and a target, which brings in deliveries of these tags.
fn attach_of(alloc: Global, name: Text, role: Role, tags: &[Tag]) -> Result<Rejoin, AllocError> {
    match brought(alloc, role, tags) {
        Ok(items) => Ok(Rejoin {
            name,
            role,
            snd: ops::SENDER_MIXED,
            rcv: ops::RECEIVER_FIRST,
            source: None,
            target: None,
            count: 0,
            max_message: 0,
            items,
        }),
        Err(error) => {
            drop(name);
            Err(error)
        }
    }
}

/// The operation of the attach, unless memory ran out as its source and target were set.
fn attach_with(
    alloc: Global,
    rejoin: Rejoin,
    ended: Result<(), AllocError>,
) -> Result<Op, AllocError> {
    match ended {
        Ok(()) => Ok(Op::Rejoin(Boxed::new(alloc, rejoin)?)),
        Err(error) => {
            drop(rejoin);
            Err(error)
        }
    }
}

/// An attach of a link that we ask for.
pub(crate) fn asking(alloc: Global, wanted: Wanted<'_>, tags: &[Tag]) -> Result<Op, AllocError> {
    let name = Text::new(alloc, wanted.name)?;
    let mut rejoin = attach_of(alloc, name, wanted.role, tags)?;
    let ended = match wanted.role {
        Role::Sender => set_addresses(alloc, &mut rejoin, wanted.name, wanted.address),
        Role::Receiver => set_addresses(alloc, &mut rejoin, wanted.address, wanted.name),
    };
    attach_with(alloc, rejoin, ended)
}

/// From the source with the one address to the target with the other.
fn set_addresses(
    alloc: Global,
    rejoin: &mut Rejoin,
    source: &str,
    target: &str,
) -> Result<(), AllocError> {
    rejoin.source = Some(ops::source(alloc, Text::new(alloc, source)?)?);
    rejoin.target = Some(ops::target(alloc, Text::new(alloc, target)?)?);
    Ok(())
}

/// An attach that answers the peer's: with its name, its source and its target (part 2, 2.6.3).
fn answering(alloc: Global, link: &Link, tags: &[Tag]) -> Result<Op, AllocError> {
    let mut rejoin = attach_of(alloc, link.name().clone()?, link.role(), tags)?;
    let ended = set_as_theirs(&mut rejoin, link);
    attach_with(alloc, rejoin, ended)
}

/// Sets the source and the target of the peer's attach.
fn set_as_theirs(rejoin: &mut Rejoin, link: &Link) -> Result<(), AllocError> {
    if let Some(theirs) = link.theirs() {
        rejoin.source = copy_value(&theirs.source)?;
        rejoin.target = copy_value(&theirs.target)?;
    }
    Ok(())
}

impl End {
    /// Returns the attach that answers the peer's.
    fn answer_with(&self, tags: &[Tag]) -> Result<Op, ClientFault> {
        match self.link() {
            Some(link) if link.theirs().is_some() => {
                answering(self.alloc, link, tags).map_err(unless_memory)
            }
            _ => Err(ClientFault::Refused(Refusal::NoLink)),
        }
    }

    /// Returns the name of the link that the peer offers.
    ///
    /// # Errors
    ///
    /// `Refused` if the peer has the same role, or offers no link; `NoMemory`.
    fn offered_name(&self, role: Role) -> Result<Text, ClientFault> {
        match self.link() {
            Some(link) if link.role() == role => link.name().clone().map_err(unless_memory),
            Some(_) => Err(ClientFault::Refused(Refusal::WrongRole)),
            None => Err(ClientFault::Refused(Refusal::NoLink)),
        }
    }
}

/// An allocation failure is a fault like others.
fn unless_memory(_: AllocError) -> ClientFault {
    ClientFault::NoMemory
}

/// Begins the session, and attaches the wanted link.
///
/// # Errors
///
/// Those of `apply`, and `NoMemory`.
pub fn open<S: Session>(session: &mut S, wanted: Wanted<'_>) -> Result<(), ClientFault> {
    open_again(session, wanted, &[])
}

/// As `open`, with a link that brings in deliveries of these tags (part 2, 2.6.13).
pub fn open_again<S: Session>(
    session: &mut S,
    wanted: Wanted<'_>,
    tags: &[Tag],
) -> Result<(), ClientFault> {
    perform(session, Op::Begin)?;
    let attach = asking(session.end().alloc, wanted, tags);
    perform_attach(session, attach.map_err(unless_memory))
}

fn perform_attach<S: Session>(
    session: &mut S,
    attach: Result<Op, ClientFault>,
) -> Result<(), ClientFault> {
    perform(session, attach?)?;
    session.end_mut().is_opened = true;
    Ok(())
}

/// Waits until the peer has begun its session and offers a link, and answers both, for this role of ours.
///
/// # Errors
///
/// `Refused` with `WrongRole` if the peer has the same role, those of `apply`, and `NoMemory`.
pub fn answer<S: Session>(session: &mut S, role: Role) -> Result<(), ClientFault> {
    drop(await_link(session, role)?);
    answer_again(session, &[])
}

/// Answers the link that the peer offers, which brings in deliveries of these tags.
pub fn answer_again<S: Session>(session: &mut S, tags: &[Tag]) -> Result<(), ClientFault> {
    let attach = session.end().answer_with(tags);
    perform_attach(session, attach)
}

/// Waits until the peer has begun its session, which is answered, and offers a link for this role of ours. Returns the link's name.
pub fn await_link<S: Session>(session: &mut S, role: Role) -> Result<Text, ClientFault> {
    wait_for(session, Awaited::Begin)?;
    perform(session, Op::Begin)?;
    wait_for(session, Awaited::Offer)?;
    session.end().offered_name(role)
}

/// Waits until the peer has attached our link, too.
pub fn await_attached<S: Session>(session: &mut S) -> Result<(), ClientFault> {
    wait_for(session, Awaited::Attach)?;
    match session.end().link() {
        Some(_) => Ok(()),
        None => Err(ClientFault::Refused(Refusal::NoLink)),
    }
}
