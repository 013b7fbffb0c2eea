//! What readers show of a shared session, as small values.

use amqp_journal::entry::{Entry, Step};
use amqp_rules::status::{LinkStatus, WindowView};
use amqp_shared::{Closed, Conn, Given, Left, Name, Pass, Phase, Role, Shared, Unit, WriterEnd};
use std::sync::Wait;

/// What the readers of a connection show.
#[derive(Clone, Copy, PartialEq, Eq)]
pub(crate) struct Shown {
    phase: Phase,
    steps: u32,
    entries: usize,
    put_out: u64,
    left: usize,
    windows: WindowView,
    link: Option<LinkStatus>,
    held: [usize; 2],
    /// How many steps were made by what was asked.
    made: u64,
    /// Of all entries: which step each is of, how many frames it sent, and how many deliveries it ended.
    journal: u64,
}

fn sum(entries: &[Entry]) -> u64 {
    let mut sum = 7u64;
    for entry in entries {
        let kind = match &entry.step {
            Step::Opened(_) => 1,
            Step::Own(_) => 2,
            Step::Heard(_) => 3,
        };
        let sent = entry.reply.sent.len() as u64;
        let ended = entry.reply.ended.len() as u64;
        sum = sum
            .wrapping_mul(31)
            .wrapping_add(kind)
            .wrapping_add(sent.wrapping_mul(4))
            .wrapping_add(ended.wrapping_mul(64));
    }
    sum
}

pub(crate) fn show(conn: &Conn, made: u64) -> Shown {
    let logged = conn.logged();
    let endpoint = logged.endpoint();
    Shown {
        phase: conn.phase(),
        steps: logged.steps(),
        entries: logged.journal().len(),
        put_out: logged.put_out(),
        left: logged.left_len(),
        windows: endpoint.windows(),
        link: endpoint.status(0),
        held: [
            endpoint.unsettled_len(Role::Sender),
            endpoint.unsettled_len(Role::Receiver),
        ],
        made,
        journal: sum(logged.journal()),
    }
}

/// How many steps the passes made.
pub(crate) fn total<N: Name>(passes: &[Pass<N>]) -> u64 {
    let mut total = 0u64;
    for pass in passes {
        total = total.wrapping_add(pass.made());
    }
    total
}

/// What the readers show under the lock, and how many steps were made by what was asked.
pub(crate) fn look<N: Name, R: Wait>(rt: &R, shared: &Shared<N>, made: u64) -> Shown {
    let guard = shared.lock(rt);
    let shown = show(guard.conn(), made);
    drop(guard);
    shown
}

/// Units, by how many there are and a number that depends on each of their octets and on their order.
#[derive(Clone, Copy, PartialEq, Eq)]
pub(crate) struct Units {
    count: u64,
    sum: u32,
}

impl Units {
    pub(crate) const NONE: Units = Units { count: 0, sum: 7 };

    fn add(&mut self, unit: &Unit) {
        let (head, rest) = unit.bytes.slices();
        for slice in [head, rest] {
            for octet in slice {
                self.sum = self.sum.wrapping_mul(31).wrapping_add(u32::from(*octet));
            }
        }
        self.count = self.count.wrapping_add(1);
    }

    /// Takes so many units, or as many as the ring gives.
    pub(crate) fn take<N: Name>(&mut self, writer: &mut WriterEnd<N>, most: u32) {
        for _ in 0..most {
            let Some(unit) = writer.take() else {
                break;
            };
            self.add(&unit);
            drop(unit);
        }
    }
}

/// How a session stands that came to its end, and all its units.
#[derive(Clone, Copy, PartialEq, Eq)]
pub(crate) struct Course {
    pub(crate) shown: Shown,
    pub(crate) units: Units,
}

impl Course {
    /// It has ended, with so many steps and units.
    pub(crate) fn has(&self, steps: u32, units: u64) -> bool {
        self.shown.phase == Phase::Closed
            && self.shown.steps == steps
            && self.shown.put_out == units
            && self.units.count == units
    }
}

/// How it stands that was taken apart: two units were taken, and the others are left.
pub(crate) fn course_of(closed: &Closed, taken: Units) -> Option<Course> {
    let mut units = taken;
    for unit in closed.left.as_slice() {
        units.add(unit);
    }
    if closed.taken == taken.count {
        Some(Course {
            shown: show(&closed.conn, 0),
            units,
        })
    } else {
        None
    }
}

/// The link, or the id of a delivery, that a step gave; 0 where it gave none.
pub(crate) fn number_of(given: &Given) -> u32 {
    match given {
        Given::Link(link) => *link,
        Given::Delivery(id) => *id,
        Given::Taken(taken) => taken.get().id,
        Given::Learned(learned) => learned.get().id,
        _ => 0,
    }
}

/// The id of what a link left.
pub(crate) fn id_of(left: &Left) -> u32 {
    match left {
        Left::Delivery(_, taken) => taken.get().id,
        Left::Outcome(_, learned) => learned.get().id,
    }
}
