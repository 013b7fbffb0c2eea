//! Operations, as tables write them.

use amqp_frames::{DeliveryState, Role};
use amqp_rules::op::Op;
use amqp_types::{Tag, Text};
use bytes::Bytes;
use std::alloc::Global;

#[derive(Clone, Copy)]
pub(crate) enum Act {
    Begin,
    /// We send on a link `p`.
    SendsP,
    /// We send on a link `q`.
    Sends,
    /// We receive on a link `p` or `q`, by this receiving mode.
    ReceivesP(u8),
    ReceivesQ(u8),
    /// A delivery on this link, with this as its tag and as its payload.
    Start(u32, [u8; 2]),
    Learn(u32),
    Take(u32),
    /// So many deliveries may begin on this link.
    Grant(u32, u32),
    /// Tells the state of the deliveries with these ids.
    Dispose(u32, u32, State),
    /// Accepts the first delivery, and settles it.
    Accept,
    /// Of link 0.
    Detach,
    End,
    Beat,
}

/// The state of a delivery.
#[derive(Clone, Copy)]
pub(crate) enum State {
    Accepted,
    Released,
    /// It has content.
    GivenBack,
}

pub(crate) fn state_of(state: State) -> DeliveryState {
    match state {
        State::Accepted => DeliveryState::Accepted,
        State::Released => DeliveryState::Released,
        State::GivenBack => DeliveryState::Modified {
            delivery_failed: Some(true),
            undeliverable_here: Some(false),
            message_annotations: None,
        },
    }
}

fn attach(alloc: Global, name: &str, role: Role, rcv: u8) -> Option<Op> {
    match Text::new(alloc, name) {
        Ok(name) => Some(Op::Attach {
            name,
            role,
            snd: 2,
            rcv,
            source: None,
            target: None,
            count: 0,
            max_message: 0,
        }),
        Err(_) => None,
    }
}

fn start(alloc: Global, link: u32, octets: [u8; 2]) -> Option<Op> {
    match Bytes::copy_from_slice(alloc, &octets) {
        Ok(payload) => Some(Op::Start {
            link,
            tag: Tag::new(&octets).unwrap_or(Tag::empty()),
            format: 0,
            settled: false,
            payload,
            more: false,
        }),
        Err(_) => None,
    }
}

fn grant(link: u32, credit: u32) -> Op {
    Op::Grant {
        link,
        credit,
        drain: false,
        echo: false,
    }
}

fn dispose(first: u32, last: u32, state: State, settled: bool) -> Op {
    Op::Dispose {
        role: Role::Receiver,
        first,
        last,
        settled,
        state: Some(state_of(state)),
    }
}

/// The operation; none for want of memory.
pub(crate) fn made(alloc: Global, act: Act) -> Option<Op> {
    match act {
        Act::Begin => Some(Op::Begin),
        Act::SendsP => attach(alloc, "p", Role::Sender, 0),
        Act::Sends => attach(alloc, "q", Role::Sender, 0),
        Act::ReceivesP(rcv) => attach(alloc, "p", Role::Receiver, rcv),
        Act::ReceivesQ(rcv) => attach(alloc, "q", Role::Receiver, rcv),
        Act::Start(link, octets) => start(alloc, link, octets),
        Act::Learn(link) => Some(Op::Learn { link }),
        Act::Take(link) => Some(Op::Take { link }),
        Act::Grant(link, credit) => Some(grant(link, credit)),
        Act::Dispose(first, last, state) => Some(dispose(first, last, state, false)),
        Act::Accept => Some(dispose(0, 0, State::Accepted, true)),
        Act::Detach => Some(Op::Detach {
            link: 0,
            error: None,
        }),
        Act::End => Some(Op::End { error: None }),
        Act::Beat => Some(Op::Beat),
    }
}
