//! What becomes of messages that came.
use crate::answer::Reason;
use crate::attaching::place_of;
use crate::header::addressee;
use crate::links::Node;
use crate::peer::{Arrived, Peer};
use crate::receipt::{Receipt, is_kept};
use crate::shared::Shared;
use amqp_policy::Queued;
use std::alloc::Global;
use std::sync::Wait;

/// A message that came, and what became of it.
#[derive(Clone, Copy, Debug)]
pub struct Stored {
    pub id: u32,
    pub is_settled: bool,
    pub receipt: Receipt,
}

/// Puts the next message that came into its queue, if one came. `is_over` says that its connection has ended.
pub fn store_next<R: Wait>(
    rt: &R,
    shared: &Shared,
    peer: &mut Peer,
    is_over: bool,
) -> Option<Stored> {
    let arrived = peer.arrived.pop_front()?;
    let node = peer.node_of(arrived.link);
    let Arrived {
        id,
        is_settled,
        message,
        ..
    } = arrived;
    let receipt = if is_kept(is_settled, is_over) {
        store(rt, shared, node, message)
    } else {
        drop(message);
        Receipt::NoRoom
    };
    Some(Stored {
        id,
        is_settled,
        receipt,
    })
}

fn store<R: Wait>(rt: &R, shared: &Shared, node: Option<Node>, message: Queued) -> Receipt {
    match route(rt, shared, node, &message) {
        Ok(place) => shared.store.lock(rt).put(place, message),
        Err(reason) => {
            drop(message);
            Receipt::Unroutable(reason)
        }
    }
}

/// Returns the place of the queue to which a message goes.
fn route<R: Wait>(
    rt: &R,
    shared: &Shared,
    node: Option<Node>,
    message: &Queued,
) -> Result<usize, Reason> {
    match node {
        Some(Node::Queue(place)) => Ok(place),
        Some(Node::Temporary(temporary)) => Ok(temporary.place),
        Some(Node::ByMessage) => route_by_message(rt, shared, shared.settings.alloc, message),
        None => Err(Reason::NotFound),
    }
}

fn route_by_message<R: Wait>(
    rt: &R,
    shared: &Shared,
    alloc: Global,
    message: &Queued,
) -> Result<usize, Reason> {
    match addressee(alloc, &message.payload) {
        Ok(Some(address)) => place_of(rt, shared, &address),
        Ok(None) => Err(Reason::NoAddress),
        Err(_) => Err(Reason::TooMany),
    }
}

/// Puts what comes back into its queue, and returns whether anything did.
pub fn take_back<R: Wait>(rt: &R, shared: &Shared, peer: &mut Peer) -> bool {
    let comes_back = !peer.back.is_empty();
    // The lock is all threads'.
    if comes_back || peer.done > 0 {
        let done = peer.done;
        peer.done = 0;
        shared.store.lock(rt).take_back(&mut peer.back, done);
    }
    comes_back
}

/// Deletes the queues of links that are gone, if they were made for those links, and drops such links.
pub fn delete_gone<R: Wait>(rt: &R, shared: &Shared, peer: &mut Peer) {
    if !peer.links.as_slice().iter().any(|linked| linked.is_gone) {
        return;
    }
    for linked in peer.links.as_slice() {
        if let (true, Node::Temporary(temporary)) = (linked.is_gone, linked.node) {
            shared.store.lock(rt).delete(temporary);
        }
    }
    peer.links.retain(|linked| !linked.is_gone);
}
