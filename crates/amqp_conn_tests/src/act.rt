//! Connections, and operations as tables write them. Where a growth is refused while one is made, it is made again, so that it is there for the call that
//! the test is of.

use amqp_conn::*;
use amqp_types::Items;
use std::alloc::{AllocError, Global};

/// An operation.
#[derive(Clone, Copy)]
pub(crate) enum Act {
    Begin,
    /// Between two addresses.
    Attach(Role, &'static str),
    /// Of `q` without addresses, for messages of at most so many octets; of any length where it is 0.
    Bare(Role, u64),
    /// With this tag; whether it is settled, and whether more follows. Its payload has memory of its own.
    Start(u32, u8, bool, bool),
    /// Whether more follows. Its payload is long.
    Carry(u32, bool),
    /// With this tag, and a payload that is none of the allocator's.
    Send(u32, u8),
    Abort(u32),
    /// The ids from the first to the last; whether they are settled.
    Dispose(Role, u32, u32, bool, State),
    Learn(u32),
    /// Whether an answer is wanted.
    Grant(u32, u32, bool),
    Offer(u32),
    Drained(u32),
    /// Whether an answer is wanted.
    Refresh(bool),
    Take(u32),
    /// With an error.
    Detach(u32),
    Suspend(u32),
    /// With what was put aside: its tags, and our states.
    Rejoin(Role, &'static str, &'static [(u8, State)]),
    /// With this tag; whether it is settled.
    Resume(u32, u8, bool),
    /// With an error.
    End,
    Beat,
}

/// A state that is told.
#[derive(Clone, Copy)]
pub(crate) enum State {
    None,
    Accepted,
    /// With an error.
    Rejected,
}

/// An error with a description.
pub(crate) fn error(alloc: Global) -> Result<Boxed<AmqpError>, AllocError> {
    let condition = Text::new(alloc, "amqp:not-found")?;
    let description = Some(Text::new(alloc, "gone")?);
    Boxed::new(
        alloc,
        AmqpError {
            condition,
            description,
            info: None,
        },
    )
}

fn told(alloc: Global, state: State) -> Result<Option<DeliveryState>, AllocError> {
    match state {
        State::None => Ok(None),
        State::Accepted => Ok(Some(DeliveryState::Accepted)),
        State::Rejected => match error(alloc) {
            Ok(error) => Ok(Some(DeliveryState::Rejected(Some(error)))),
            Err(refused) => Err(refused),
        },
    }
}

fn tag(octet: u8) -> Tag {
    Tag::new(&[octet]).unwrap_or(Tag::empty())
}

fn attach(alloc: Global, role: Role, name: &str) -> Result<Op, AllocError> {
    let name = Text::new(alloc, name)?;
    let source = ops::source(alloc, Text::new(alloc, "from")?)?;
    let target = ops::target(alloc, Text::new(alloc, "to")?)?;
    Ok(ops::attach(name, role, Some(source), Some(target)))
}

/// Of `q`, without addresses.
fn bare(name: Text, role: Role, max_message: u64) -> Op {
    Op::Attach {
        name,
        role,
        snd: 2,
        rcv: 0,
        source: None,
        target: None,
        count: 0,
        max_message,
    }
}

/// A payload that is sent from where it stands.
const LONG: [u8; 5000] = [0x61; 5000];

/// A transfer with this payload.
fn transfer(act: Act, payload: Bytes) -> Op {
    match act {
        Act::Start(link, octet, settled, more) => Op::Start {
            link,
            tag: tag(octet),
            format: 0,
            settled,
            payload,
            more,
        },
        Act::Carry(link, more) => Op::Carry {
            link,
            payload,
            more,
        },
        _ => Op::Beat,
    }
}

fn dispose(
    role: Role,
    first: u32,
    last: u32,
    settled: bool,
    told: Result<Option<DeliveryState>, AllocError>,
) -> Result<Op, AllocError> {
    match told {
        Ok(state) => Ok(Op::Dispose {
            role,
            first,
            last,
            settled,
            state,
        }),
        Err(refused) => Err(refused),
    }
}

/// Of a link, or of the session.
fn parting(alloc: Global, link: Option<u32>) -> Result<Op, AllocError> {
    let error = Some(error(alloc)?);
    match link {
        Some(link) => Ok(Op::Detach { link, error }),
        None => Ok(Op::End { error }),
    }
}

fn items(alloc: Global, aside: &[(u8, State)]) -> Result<Items<SuspendedItem>, AllocError> {
    let mut items = Items::new(alloc);
    for (octet, state) in aside {
        let state = told(alloc, *state)?;
        items.push(SuspendedItem {
            tag: tag(*octet),
            state,
        })?;
    }
    Ok(items)
}

fn rejoin(alloc: Global, role: Role, name: &str, aside: &[(u8, State)]) -> Result<Op, AllocError> {
    let items = items(alloc, aside)?;
    let name = Text::new(alloc, name)?;
    let aside = Suspended { name, role, items };
    let op = ops::rejoin(alloc, &aside, None, None);
    drop(aside);
    op
}

/// An operation that owns no memory.
fn plain(act: Act) -> Op {
    match act {
        Act::Begin => ops::begin(),
        Act::Send(link, octet) => ops::start(link, tag(octet), Bytes::from_static(b"hello")),
        Act::Abort(link) => Op::Abort { link },
        Act::Learn(link) => ops::learn(link),
        Act::Grant(link, credit, echo) => Op::Grant {
            link,
            credit,
            drain: false,
            echo,
        },
        Act::Offer(link) => Op::Offer { link, available: 7 },
        Act::Drained(link) => Op::Drained { link },
        Act::Refresh(echo) => Op::Refresh { echo },
        Act::Take(link) => ops::take(link),
        Act::Suspend(link) => ops::suspend(link),
        Act::Resume(link, octet, settled) => Op::Resume {
            link,
            tag: tag(octet),
            settled,
        },
        _ => Op::Beat,
    }
}

fn op(alloc: Global, act: Act) -> Result<Op, AllocError> {
    match act {
        Act::Attach(role, name) => attach(alloc, role, name),
        Act::Bare(role, most) => Ok(bare(Text::new(alloc, "q")?, role, most)),
        Act::Start(_, _, _, _) => Ok(transfer(act, Bytes::copy_from_slice(alloc, b"payload")?)),
        Act::Carry(_, _) => Ok(transfer(act, Bytes::copy_from_slice(alloc, &LONG)?)),
        Act::Dispose(role, first, last, settled, state) => {
            dispose(role, first, last, settled, told(alloc, state))
        }
        Act::Detach(link) => parting(alloc, Some(link)),
        Act::End => parting(alloc, None),
        Act::Rejoin(role, name, aside) => rejoin(alloc, role, name, aside),
        _ => Ok(plain(act)),
    }
}

/// The operation; none where two growths were refused.
pub(crate) fn made(alloc: Global, act: Act) -> Option<Op> {
    match op(alloc, act) {
        Ok(op) => Some(op),
        Err(_) => op(alloc, act).ok(),
    }
}

/// How a connection is set up.
#[derive(Clone, Copy)]
pub(crate) struct Settings {
    /// The host that it asks for.
    pub(crate) host: Option<&'static str>,
    pub(crate) idle_time_out: Option<u32>,
    /// How many transfers it takes at a time.
    pub(crate) window: u32,
    /// How many steps its journal takes.
    pub(crate) journal_limit: u32,
}

fn config(alloc: Global, settings: Settings) -> Result<Config, AllocError> {
    let container_id = Text::new(alloc, "a")?;
    let hostname = match settings.host {
        Some(host) => Some(Text::new(alloc, host)?),
        None => None,
    };
    Ok(Config {
        container_id,
        hostname,
        max_frame: 65536,
        idle_time_out: settings.idle_time_out,
        first_id: 0,
        window: settings.window,
        journal_limit: settings.journal_limit,
    })
}

fn connected(alloc: Global, settings: Settings) -> Result<Conn, StartFault> {
    match config(alloc, settings) {
        Ok(config) => Conn::new(alloc, config),
        Err(_) => Err(StartFault::NoMemory),
    }
}

/// A connection, made again where a growth was refused.
pub(crate) fn connection(alloc: Global, settings: Settings) -> Option<Conn> {
    match connected(alloc, settings) {
        Ok(conn) => Some(conn),
        Err(StartFault::NoMemory) => connected(alloc, settings).ok(),
        Err(StartFault::BadConfig) => None,
    }
}
