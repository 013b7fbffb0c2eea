//! How the attach of a peer is answered: operations, and the link as it is kept (part 2, 2.6.3).
use crate::answer::{Answer, Reason, answer_of};
use crate::links::{Linked, Node, Offer};
use crate::shared::Shared;
use crate::store::Temporary;
use crate::terminus::{source_value, target_value};
use amqp_conn::{AmqpError, Boxed, DeliveryState, Op, Role, Text, Value, ops};
use amqp_policy::Outcome;
use std::alloc::{AllocError, Global};
use std::sync::Wait;

/// What a link is answered with: the queue at our end, or why there is none.
pub type Place = Result<Node, Reason>;

/// Returns the queue at our end of a link that a peer offers. The queue is made if there is none.
///
/// # Errors
///
/// The reason by which the link is refused.
pub fn place_for<R: Wait>(rt: &R, shared: &Shared, offer: &Offer) -> Place {
    match answer_of(offer.role, offer.source, offer.target) {
        Answer::Queue => match &offer.address {
            Some(address) => Ok(Node::Queue(place_of(rt, shared, address)?)),
            None => Err(Reason::InvalidField),
        },
        Answer::Temporary => Ok(Node::Temporary(make_up(rt, shared)?)),
        Answer::ByMessage => Ok(Node::ByMessage),
        Answer::Refused(reason) => Err(reason),
    }
}

/// Returns the place of the queue with this address, which is made if there is none.
///
/// # Errors
///
/// Those of `Store::place`.
pub fn place_of<R: Wait>(rt: &R, shared: &Shared, address: &Text) -> Result<usize, Reason> {
    shared.store.lock(rt).place(address)
}

fn make_up<R: Wait>(rt: &R, shared: &Shared) -> Result<Temporary, Reason> {
    shared.store.lock(rt).make_up()
}

/// Returns the attach that answers a link with this queue at our end.
///
/// # Errors
///
/// `AllocError` if memory runs out.
pub fn attach_at(alloc: Global, offer: Offer, node: Node) -> Result<Op, AllocError> {
    let address = address_at(alloc, node, offer.address)?;
    let is_dynamic = matches!(node, Node::Temporary(_));
    match (offer.role, address) {
        (Role::Sender, Some(address)) => {
            let source = source_value(alloc, &address, is_dynamic, offer.is_copied)?;
            Ok(ops::attach(offer.name, offer.role, Some(source), offer.theirs))
        }
        (_, address) => {
            let target = target_value(alloc, address.as_ref(), is_dynamic)?;
            Ok(ops::attach(offer.name, offer.role, offer.theirs, Some(target)))
        }
    }
}

fn address_at(
    alloc: Global,
    node: Node,
    address: Option<Text>,
) -> Result<Option<Text>, AllocError> {
    match node {
        Node::Queue(_) => Ok(address),
        Node::Temporary(temporary) => Ok(Some(temporary.address(alloc)?)),
        Node::ByMessage => Ok(None),
    }
}

/// Returns the attach of a link that is refused: without the end that would be ours. A detach follows.
pub fn refused_attach(offer: Offer) -> Op {
    let (source, target): (Option<Boxed<Value>>, Option<Boxed<Value>>) = match offer.role {
        Role::Sender => (None, offer.theirs),
        Role::Receiver => (offer.theirs, None),
    };
    ops::attach(offer.name, offer.role, source, target)
}

/// Returns the error that says the reason (part 2, 2.8.14), or `None` if memory runs out.
pub fn error_for(alloc: Global, reason: Reason) -> Option<Boxed<AmqpError>> {
    let condition = Text::new(alloc, reason.condition()).ok()?;
    let description = Text::new(alloc, reason.description()).ok();
    let error = AmqpError {
        condition,
        description,
        info: None,
    };
    Boxed::new(alloc, error).ok()
}

/// Returns the link as it is kept.
pub fn linked(offer: &Offer, node: Node) -> Linked {
    Linked {
        link: offer.link,
        role: offer.role,
        node,
        copied: if offer.is_copied { Some(0) } else { None },
        is_gone: false,
    }
}

/// Returns the state by which the sender of a message learns its outcome (part 3, 3.4).
pub fn state_of(alloc: Global, outcome: Outcome, reason: Option<Reason>) -> DeliveryState {
    match (outcome, reason) {
        (Outcome::Accepted, _) => DeliveryState::Accepted,
        (Outcome::Rejected, Some(reason)) => DeliveryState::Rejected(error_for(alloc, reason)),
        (Outcome::Rejected, None) => DeliveryState::Rejected(None),
        _ => DeliveryState::Released,
    }
}
