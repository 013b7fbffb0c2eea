//! Operations, as tables write them and dice choose them.

use amqp_frames::{DeliveryState, Role};
use amqp_rules::op::{Op, Rejoin};
use amqp_types::{Boxed, Tag, Text};
use amqp_waiting::Brought;
use bytes::Bytes;
use std::alloc::Global;

/// An operation that owns no memory yet.
#[derive(Clone, Copy)]
pub enum Act {
    Begin,
    Attach(Attach),
    Start(Start),
    Carry {
        link: u32,
        payload: Payload,
        more: bool,
    },
    Abort(u32),
    Dispose {
        role: Role,
        first: u32,
        last: u32,
        settled: bool,
        state: State,
    },
    Learn(u32),
    Grant {
        link: u32,
        credit: u32,
        drain: bool,
        echo: bool,
    },
    Offer {
        link: u32,
        available: u32,
    },
    Drained(u32),
    Refresh(bool),
    Take(u32),
    Detach(u32),
    Suspend(u32),
    /// With nothing, on a link `q`.
    Rejoin(Role),
    /// The delivery with this tag, unsettled.
    Resume(u32, u8),
    End,
    /// A step that changes nothing.
    Beat,
}

#[derive(Clone, Copy)]
pub struct Attach {
    pub name: &'static str,
    pub role: Role,
    pub snd: u8,
    pub rcv: u8,
    pub count: u32,
}

#[derive(Clone, Copy)]
pub struct Start {
    pub link: u32,
    /// The one octet of its tag.
    pub tag: u8,
    pub format: u32,
    pub settled: bool,
    pub payload: Payload,
    pub more: bool,
}

#[derive(Clone, Copy)]
pub enum Payload {
    These(&'static [u8]),
    /// So many octets of one kind.
    Alike(u8, usize),
}

/// A state that a disposition tells, if any.
#[derive(Clone, Copy)]
pub enum State {
    None,
    /// With this section number.
    Received(u32),
    Accepted,
    Released,
}

/// Our end of a link `q`, as its sender.
pub const SENDER: Attach = Attach {
    name: "q",
    role: Role::Sender,
    snd: 2,
    rcv: 0,
    count: 0,
};

pub const RECEIVER: Attach = Attach {
    role: Role::Receiver,
    ..SENDER
};

/// Two deliveries may begin on the first link.
pub const GRANT: Act = Act::Grant {
    link: 0,
    credit: 2,
    drain: false,
    echo: false,
};

/// A delivery of no octets, on the first link.
pub const START: Start = Start {
    link: 0,
    tag: 1,
    format: 0,
    settled: false,
    payload: Payload::These(b""),
    more: false,
};

/// The operation; none for want of memory.
pub fn op(alloc: Global, act: Act) -> Option<Op> {
    match act {
        Act::Attach(attach) => attached(alloc, attach),
        Act::Start(start) => started(alloc, start),
        Act::Carry {
            link,
            payload,
            more,
        } => carried(alloc, link, payload, more),
        Act::Rejoin(role) => rejoined(alloc, role, Brought::none(alloc)),
        _ => Some(plain(act)),
    }
}

fn attached(alloc: Global, attach: Attach) -> Option<Op> {
    match Text::new(alloc, attach.name) {
        Ok(name) => Some(Op::Attach {
            name,
            role: attach.role,
            snd: attach.snd,
            rcv: attach.rcv,
            source: None,
            target: None,
            count: attach.count,
            max_message: 0,
        }),
        Err(_) => None,
    }
}

fn started(alloc: Global, start: Start) -> Option<Op> {
    match octets(alloc, start.payload) {
        Some(payload) => Some(Op::Start {
            link: start.link,
            tag: tag(start.tag),
            format: start.format,
            settled: start.settled,
            payload,
            more: start.more,
        }),
        None => None,
    }
}

fn carried(alloc: Global, link: u32, payload: Payload, more: bool) -> Option<Op> {
    match octets(alloc, payload) {
        Some(payload) => Some(Op::Carry {
            link,
            payload,
            more,
        }),
        None => None,
    }
}

/// A link `q` is brought back with these deliveries.
pub fn rejoined(alloc: Global, role: Role, items: Brought) -> Option<Op> {
    let name = Text::new(alloc, "q").ok()?;
    let rejoin = Rejoin {
        name,
        role,
        snd: 2,
        rcv: 0,
        source: None,
        target: None,
        count: 0,
        max_message: 0,
        items,
    };
    match Boxed::new(alloc, rejoin) {
        Ok(rejoin) => Some(Op::Rejoin(rejoin)),
        Err(_) => None,
    }
}

/// An operation that owns no memory.
fn plain(act: Act) -> Op {
    match act {
        Act::Begin => Op::Begin,
        Act::Abort(link) => Op::Abort { link },
        Act::Dispose {
            role,
            first,
            last,
            settled,
            state,
        } => Op::Dispose {
            role,
            first,
            last,
            settled,
            state: told(state),
        },
        Act::Learn(link) => Op::Learn { link },
        Act::Grant {
            link,
            credit,
            drain,
            echo,
        } => Op::Grant {
            link,
            credit,
            drain,
            echo,
        },
        Act::Offer { link, available } => Op::Offer { link, available },
        Act::Drained(link) => Op::Drained { link },
        Act::Refresh(echo) => Op::Refresh { echo },
        Act::Take(link) => Op::Take { link },
        Act::Detach(link) => Op::Detach { link, error: None },
        Act::Suspend(link) => Op::Suspend { link },
        Act::Resume(link, octet) => Op::Resume {
            link,
            tag: tag(octet),
            settled: false,
        },
        Act::End => Op::End { error: None },
        _ => Op::Beat,
    }
}

fn told(state: State) -> Option<DeliveryState> {
    match state {
        State::None => None,
        State::Received(section_number) => Some(DeliveryState::Received {
            section_number,
            section_offset: 0,
        }),
        State::Accepted => Some(DeliveryState::Accepted),
        State::Released => Some(DeliveryState::Released),
    }
}

fn tag(octet: u8) -> Tag {
    Tag::new(&[octet]).unwrap_or(Tag::empty())
}

fn octets(alloc: Global, payload: Payload) -> Option<Bytes> {
    match payload {
        Payload::These(octets) => Bytes::copy_from_slice(alloc, octets).ok(),
        Payload::Alike(octet, count) => match vec![in alloc; octet; count] {
            Ok(octets) => Bytes::from_vec(octets).ok(),
            Err(_) => None,
        },
    }
}
