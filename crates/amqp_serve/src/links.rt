//! The links of a connection.
use crate::answer::Terminus;
use crate::store::Temporary;
use crate::terminus::{is_copied, source_address, source_kind, target_address, target_kind};
use amqp_conn::{Boxed, Conn, Link, LinkEnd, Role, Text, Value};
use amqp_performatives::copying::copy_value;
use std::alloc::AllocError;

/// The queue at our end of a link.
#[derive(Clone, Copy, Debug, PartialEq, Eq)]
pub enum Node {
    /// The queue at this place.
    Queue(usize),
    /// A queue that is deleted with its link.
    Temporary(Temporary),
    /// None: each message names its own.
    ByMessage,
}

impl Node {
    /// Returns the place of its queue.
    pub fn place(self) -> Option<usize> {
        match self {
            Node::Queue(place) => Some(place),
            Node::Temporary(temporary) => Some(temporary.place),
            Node::ByMessage => None,
        }
    }
}

/// A link that was answered.
#[derive(Clone, Copy, Debug)]
pub struct Linked {
    pub link: u32,
    /// Our end of it.
    pub role: Role,
    pub node: Node,
    /// How many messages of the queue were copied; `None` if messages are taken.
    pub copied: Option<usize>,
    /// The link is gone.
    pub is_gone: bool,
}

/// What a peer asks for by its attach.
#[derive(Drop)]
pub struct Offer {
    pub link: u32,
    pub name: Text,
    /// Our end of it.
    pub role: Role,
    pub source: Terminus,
    pub target: Terminus,
    /// The address of the end that is ours; the link's name if the attach has no such end.
    pub address: Option<Text>,
    pub is_copied: bool,
    /// The end that is the peer's, as its attach has it.
    pub theirs: Option<Boxed<Value>>,
}

/// Returns what the peer asks for by its attach of the link, or `None` if the link is gone or was answered.
///
/// # Errors
///
/// `AllocError` if memory runs out.
pub fn offer_of(conn: &Conn, link: u32) -> Result<Option<Offer>, AllocError> {
    let Some(found) = conn.logged().endpoint().link_of(link) else {
        return Ok(None);
    };
    match found.theirs() {
        Some(end) if !found.is_ours() => Ok(Some(read_offer(found, end)?)),
        _ => Ok(None),
    }
}

/// The attach does not have the end that is ours.
fn is_bare(role: Role, end: &LinkEnd) -> bool {
    match role {
        Role::Sender => end.source.is_none(),
        Role::Receiver => end.target.is_none(),
    }
}

fn read_offer(found: &Link, end: &LinkEnd) -> Result<Offer, AllocError> {
    let role = found.role();
    let ours = match role {
        Role::Sender => source_address(&end.source),
        Role::Receiver => target_address(&end.target),
    };
    let address = match ours {
        Some(address) => Some(address.clone()?),
        None if is_bare(role, end) => Some(found.name().clone()?),
        None => None,
    };
    let theirs = match role {
        Role::Sender => copy_value(&end.target)?,
        Role::Receiver => copy_value(&end.source)?,
    };
    let name = found.name().clone()?;
    Ok(Offer {
        link: found.number(),
        name,
        role,
        source: source_kind(&end.source),
        target: target_kind(&end.target),
        address,
        is_copied: is_copied(&end.source),
        theirs,
    })
}
