//! Links on which messages go out.
use crate::links::Linked;
use crate::peer::taker_of;
use crate::shared::Shared;
use amqp_conn::{Conn, Phase, Role};
use amqp_policy::{Queued, room_in_frame};
use std::sync::Wait;

/// A link on which messages go out.
#[derive(Clone, Copy, Debug)]
pub struct Outlet {
    pub link: u32,
    /// The place of its queue.
    pub place: usize,
    /// The longest message that its peer takes, in octets.
    pub longest: usize,
    /// How many octets of a message one transfer takes.
    pub part: usize,
    /// By what it is kept from messages that are not for it.
    pub taker: u64,
    /// How many messages of the queue were copied; `None` if messages are taken.
    pub copied: Option<usize>,
}

/// What may go out on a link now.
#[derive(Clone, Copy, Debug)]
pub enum Due {
    Nothing,
    /// More of the message that is being sent under this id, of which so many octets went.
    Rest(u32, u128),
    /// The next message.
    Message,
}

/// Returns how messages go out on a link, or `None` if none do.
pub fn outlet_on(conn: &Conn, number: u64, linked: &Linked) -> Option<Outlet> {
    if linked.is_gone || linked.role != Role::Sender {
        return None;
    }
    let place = linked.node.place()?;
    let logged = conn.logged();
    let longest = match logged.endpoint().link_of(linked.link) {
        Some(found) if found.longest_theirs() > 0 => found.longest_theirs() as usize,
        _ => usize::MAX,
    };
    Some(Outlet {
        link: linked.link,
        place,
        longest,
        part: room_in_frame(logged.peer_max_frame()),
        taker: taker_of(number, linked.link),
        copied: linked.copied,
    })
}

/// Returns what may go out on a link now. A message that is out of its queue is not seen by other threads, so one is due only if it can begin.
pub fn due_on(conn: &Conn, link: u32) -> Due {
    let endpoint = conn.logged().endpoint();
    if conn.phase() != Phase::Running || endpoint.windows().remote_in == 0 {
        return Due::Nothing;
    }
    let Some(found) = endpoint.link_of(link) else {
        return Due::Nothing;
    };
    match found.sending() {
        Some(sending) => Due::Rest(sending.id, sending.size),
        None if found.is_attached() && found.credit() > 0 => Due::Message,
        None => Due::Nothing,
    }
}

/// Returns whether the peer wants the credit of a link used up (part 2, 2.6.7).
pub fn is_draining(conn: &Conn, link: u32) -> bool {
    match conn.logged().endpoint().status(link) {
        Some(status) => status.drain && !status.mid,
        None => false,
    }
}

/// Returns the next message for a link. Unless it is a copy it is out of its queue.
pub fn next_message<R: Wait>(rt: &R, shared: &Shared, outlet: Outlet) -> Option<Queued> {
    let Outlet {
        place,
        longest,
        taker,
        copied,
        ..
    } = outlet;
    match copied {
        Some(at) => shared.store.lock(rt).copy(place, at, longest),
        None => shared.store.lock(rt).queues.next(place, longest, taker),
    }
}

/// Returns whether a message waits that may go out on a link.
pub fn waits<R: Wait>(rt: &R, shared: &Shared, outlet: Outlet) -> bool {
    let Outlet {
        place,
        longest,
        taker,
        copied,
        ..
    } = outlet;
    match copied {
        Some(at) => shared.store.lock(rt).has_copy(place, at, longest),
        None => shared.store.lock(rt).queues.waits(place, longest, taker),
    }
}
