//! What calls answer and readers show, as small values.

use amqp_conn::*;
use amqp_endpoint::endpoint::Endpoint;
use amqp_rules::status::{LinkStatus, WindowView};

/// What a call answers.
#[derive(Clone, Copy, PartialEq, Eq)]
pub(crate) enum Said {
    Nothing,
    Link(u32),
    Offered(u32),
    Attached(u32),
    Gone(u32),
    Delivery(u32),
    Ready(u32, u32),
    /// With this id, and so many octets.
    Taken(u32, u64),
    /// Of this id, and whether it was settled.
    Learned(u32, bool),
    /// So many deliveries were put aside.
    Suspended(usize),
    Parted(u32, usize),
    Resumed(Verdict),
    /// The unit of this number.
    Unit(u64),
    /// So many octets were fed with so many steps, of which so many answer a violation.
    Fed(usize, u32, u32),
    /// The connection ended as agreed; so many octets were written, with this sum.
    Pumped(usize, u32),
    /// So many are there.
    Count(usize),
    /// By its number.
    Refused(u32),
    /// By its number.
    Violated(u32),
    /// By its number.
    Faulty(u32),
    /// Want of memory.
    Wanting,
}

/// What a step gave.
fn said_of(given: &Given) -> Said {
    match given {
        Given::Nothing => Said::Nothing,
        Given::Link(link) => Said::Link(*link),
        Given::Offered(link) => Said::Offered(*link),
        Given::Attached(link) => Said::Attached(*link),
        Given::Gone(link) => Said::Gone(*link),
        Given::Delivery(id) => Said::Delivery(*id),
        Given::Ready(link, id) => Said::Ready(*link, *id),
        Given::Taken(taken) => taken_of(taken.get()),
        Given::Learned(learned) => learned_of(learned.get()),
        Given::Suspended(aside) => Said::Suspended(aside.get().items.len()),
        Given::Parted(link, aside) => Said::Parted(*link, aside.get().items.len()),
        Given::Resumed(resumed) => Said::Resumed(resumed.get().verdict),
    }
}

fn taken_of(taken: &Taken) -> Said {
    Said::Taken(taken.id, taken.payload.len())
}

fn learned_of(learned: &Learned) -> Said {
    Said::Learned(learned.id, learned.settled)
}

/// What an operation gave.
pub(crate) fn gave(done: Result<Given, Refusal>) -> Said {
    match done {
        Ok(given) => {
            let said = said_of(&given);
            drop(given);
            said
        }
        Err(refusal) => refused(refusal),
    }
}

/// What a frame gave.
pub(crate) fn heard(done: Result<Given, Violation>) -> Said {
    match done {
        Ok(given) => {
            let said = said_of(&given);
            drop(given);
            said
        }
        Err(violation) => match violation.kind {
            ViolationKind::NoMemory => Said::Wanting,
            kind => Said::Violated(u32::from(kind.number())),
        },
    }
}

/// What the newest entry gave.
pub(crate) fn newest_gave(logged: &Logged) -> Said {
    match logged.journal().last() {
        Some(entry) => said_of(&entry.reply.given),
        None => Said::Nothing,
    }
}

/// What a link left.
pub(crate) fn left(popped: Option<Left>) -> Said {
    match &popped {
        Some(Left::Delivery(_, taken)) => taken_of(taken.get()),
        Some(Left::Outcome(_, learned)) => learned_of(learned.get()),
        None => Said::Nothing,
    }
}

pub(crate) fn unit(popped: Option<Unit>) -> Said {
    match &popped {
        Some(unit) => Said::Unit(unit.number),
        None => Said::Nothing,
    }
}

pub(crate) fn refused(refusal: Refusal) -> Said {
    match refusal {
        Refusal::NoMemory => Said::Wanting,
        _ => Said::Refused(u32::from(refusal.number())),
    }
}

/// An unsettled delivery: its id, its link, the first octet of its tag, whether it is of a receiver that settles second, and what either end told of it.
type Held = Option<(u32, u32, u8, bool, [u8; 2])>;

/// What the readers of a session or a connection show.
#[derive(Clone, Copy, PartialEq, Eq)]
pub(crate) struct Shown {
    /// Of a connection.
    pub(crate) phase: Option<Phase>,
    /// Whether there are the peer's open, its close, the error of that, and a frame that the newest step heard.
    pub(crate) heard: [bool; 4],
    /// How many deliveries the newest step ended, by the connection.
    pub(crate) ended: usize,
    steps: u32,
    entries: usize,
    put_out: u64,
    max_frame: u32,
    left: usize,
    windows: WindowView,
    links: [Option<LinkStatus>; 3],
    /// How many are held: sent, and received. And the first of them.
    held: [usize; 2],
    first: [Held; 8],
    /// The first that wait on links 0 and 1.
    waiting: [Option<(u8, Verdict)>; 4],
    /// Of the newest entry: how many frames it sent, and how many deliveries it ended.
    newest: [usize; 2],
}

/// The kind of a state.
fn kind(state: &Option<DeliveryState>) -> u8 {
    match state {
        None => 0,
        Some(DeliveryState::Received { .. }) => 1,
        Some(DeliveryState::Accepted) => 2,
        Some(DeliveryState::Rejected(_)) => 3,
        Some(DeliveryState::Released) => 4,
        Some(DeliveryState::Modified { .. }) => 5,
        Some(DeliveryState::Other(_)) => 6,
    }
}

fn first(tag: &Tag) -> u8 {
    tag.octets().first().copied().unwrap_or(0)
}

fn held_at(endpoint: &Endpoint, role: Role, place: usize) -> Held {
    match endpoint.unsettled_at(role, place) {
        Some(item) => Some((
            item.id,
            item.link,
            first(&item.tag),
            item.second,
            [kind(&item.local), kind(&item.remote)],
        )),
        None => None,
    }
}

fn waiting_at(endpoint: &Endpoint, link: u32, place: usize) -> Option<(u8, Verdict)> {
    match endpoint.waiting_at(link, place) {
        Some((tag, verdict)) => Some((first(tag), verdict)),
        None => None,
    }
}

fn newest(logged: &Logged) -> [usize; 2] {
    match logged.journal().last() {
        Some(entry) => [entry.reply.sent.len(), entry.reply.ended.len()],
        None => [0, 0],
    }
}

/// What the readers of a session show.
pub(crate) fn show(logged: &Logged) -> Shown {
    let endpoint = logged.endpoint();
    Shown {
        phase: None,
        heard: [false; 4],
        ended: 0,
        steps: logged.steps(),
        entries: logged.journal().len(),
        put_out: logged.put_out(),
        max_frame: logged.peer_max_frame(),
        left: logged.left_len(),
        windows: endpoint.windows(),
        links: [endpoint.status(0), endpoint.status(1), endpoint.status(2)],
        held: [
            endpoint.unsettled_len(Role::Sender),
            endpoint.unsettled_len(Role::Receiver),
        ],
        first: [
            held_at(endpoint, Role::Sender, 0),
            held_at(endpoint, Role::Sender, 1),
            held_at(endpoint, Role::Sender, 2),
            held_at(endpoint, Role::Sender, 3),
            held_at(endpoint, Role::Receiver, 0),
            held_at(endpoint, Role::Receiver, 1),
            held_at(endpoint, Role::Receiver, 2),
            held_at(endpoint, Role::Receiver, 3),
        ],
        waiting: [
            waiting_at(endpoint, 0, 0),
            waiting_at(endpoint, 0, 1),
            waiting_at(endpoint, 1, 0),
            waiting_at(endpoint, 1, 1),
        ],
        newest: newest(logged),
    }
}
