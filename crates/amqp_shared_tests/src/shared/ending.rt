//! How a connection is taken apart.

use super::looks::{Look, all_stand, sees_all};
use super::playing::{Player, Steps, play};
use super::waiting::is_outcome;
use crate::acts::Act;
use crate::session::closed_by;
use amqp_conn::{Conn, Phase};
use amqp_journal::receipt::Receipt;
use amqp_shared::{CloseReason, Closed, Name, NotClosed, Pass, Shared, WriterEnd};
use std::alloc::Global;
use std::sync::Wait;
use std::thread::Threads;

/// How it is then.
#[derive(Clone, Copy)]
pub(super) struct Ended {
    pub(super) phase: Phase,
    /// How many units the writer took, how many are left, and the number of the first of these.
    pub(super) taken: u64,
    pub(super) left: usize,
    pub(super) first_left: Option<u64>,
    pub(super) looks: &'static [Look],
    /// The delivery of the one outcome that is left, if there is one.
    pub(super) outcome: Option<u32>,
    /// It is handed back at first, since the pass of the last thread is wanting: why it is, and what that thread does then.
    pub(super) again: Option<(CloseReason, Steps)>,
}

/// It was closed by both ends, and nobody has taken units.
pub(super) const CLOSED: Ended = Ended {
    phase: Phase::Closed,
    taken: 0,
    left: 0,
    first_left: Some(0),
    looks: &[],
    outcome: None,
    again: None,
};

/// What comes together again.
#[derive(Drop)]
struct Gathered<N: Name> {
    passes: Vec<Pass<N>>,
    done: Vec<(Act, Receipt)>,
    writer: Option<WriterEnd<N>>,
    is_whole: bool,
}

/// Takes it apart, if that is due.
pub(super) fn ends<N: Name + Send + Sync, R: Threads + Wait + Sync>(
    rt: &R,
    alloc: Global,
    shared: Shared<N>,
    players: Vec<Player<N>>,
    end: Option<Ended>,
) -> bool {
    match end {
        Some(ended) => ends_so(rt, alloc, shared, players, ended),
        None => {
            drop(players);
            drop(shared);
            true
        }
    }
}

fn ends_so<N: Name + Send + Sync, R: Threads + Wait + Sync>(
    rt: &R,
    alloc: Global,
    shared: Shared<N>,
    players: Vec<Player<N>>,
    ended: Ended,
) -> bool {
    let mut players = players;
    match ended.again {
        Some((reason, steps)) => match players.pop() {
            Some(last) => {
                let all = gather(alloc, players);
                ends_again(rt, shared, all, last, steps, reason, ended)
            }
            None => false,
        },
        None => closes(alloc, shared, gather(alloc, players), ended),
    }
}

/// All that threads have.
fn gather<N: Name>(alloc: Global, players: Vec<Player<N>>) -> Gathered<N> {
    let mut players = players;
    let writer = match players.first_mut() {
        Some(first) => first.writer.take(),
        None => None,
    };
    let mut all = Gathered {
        passes: Vec::new(alloc),
        done: Vec::new(alloc),
        writer,
        is_whole: true,
    };
    for player in players {
        add(&mut all, player);
    }
    all
}

/// What one of them has, but for the writer's end.
fn add<N: Name>(all: &mut Gathered<N>, player: Player<N>) {
    let Player {
        pass,
        kept,
        writer,
        book,
        steps: _,
        is_right: _,
        alloc: _,
    } = player;
    drop(writer);
    let mut kept = kept;
    let mut book = book;
    let is_in = all.passes.push(pass).is_ok();
    let are_in = all.passes.append(&mut kept).is_ok();
    let is_noted = all.done.append(&mut book.done).is_ok();
    all.is_whole = all.is_whole && is_in && are_in && is_noted;
}

fn closes<N: Name>(alloc: Global, shared: Shared<N>, all: Gathered<N>, ended: Ended) -> bool {
    let Gathered {
        passes,
        done,
        writer,
        is_whole,
    } = all;
    match writer {
        Some(writer) => {
            let closed = closed_by(shared, passes, writer);
            is_whole && is_due(alloc, closed, done.as_slice(), ended)
        }
        None => false,
    }
}

fn is_due(alloc: Global, closed: Option<Closed>, done: &[(Act, Receipt)], ended: Ended) -> bool {
    match closed {
        Some(closed) => {
            let mut closed = closed;
            let is_so = is_as(alloc, &mut closed, done, ended);
            drop(closed);
            is_so
        }
        None => false,
    }
}

fn is_as(alloc: Global, closed: &mut Closed, done: &[(Act, Receipt)], ended: Ended) -> bool {
    closed.conn.phase() == ended.phase
        && closed.taken == ended.taken
        && closed.left.len() == ended.left
        && first_of(closed) == ended.first_left
        && sees_all(alloc, &closed.conn, ended.looks)
        && all_stand(alloc, &closed.conn, done)
        && pops(&mut closed.conn, ended.outcome)
}

fn first_of(closed: &Closed) -> Option<u64> {
    match closed.left.first() {
        Some(unit) => Some(unit.number),
        None => None,
    }
}

/// What is left is the outcome of this delivery, and nothing behind it.
fn pops(conn: &mut Conn, outcome: Option<u32>) -> bool {
    match outcome {
        Some(id) => pops_one(conn, id) && pops_none(conn),
        None => true,
    }
}

fn pops_one(conn: &mut Conn, id: u32) -> bool {
    match conn.pop_left() {
        Ok(Some(left)) => is_outcome(left, id),
        Ok(None) => false,
        Err(_) => false,
    }
}

fn pops_none(conn: &mut Conn) -> bool {
    match conn.pop_left() {
        Ok(Some(left)) => {
            drop(left);
            false
        }
        Ok(None) => true,
        Err(_) => false,
    }
}

/// It is handed back for this reason; then the last goes on, and it is taken apart.
fn ends_again<N: Name + Send + Sync, R: Threads + Wait + Sync>(
    rt: &R,
    shared: Shared<N>,
    all: Gathered<N>,
    last: Player<N>,
    steps: Steps,
    reason: CloseReason,
    ended: Ended,
) -> bool {
    let Gathered {
        passes,
        done,
        writer,
        is_whole,
    } = all;
    let Some(writer) = writer else {
        return false;
    };
    match shared.close(passes, writer) {
        Ok(closed) => {
            drop(closed);
            false
        }
        Err(kept) => {
            let is_due = is_whole && kept.reason == reason;
            goes_on(rt, kept, done, last, steps, ended) && is_due
        }
    }
}

fn goes_on<N: Name + Send + Sync, R: Threads + Wait + Sync>(
    rt: &R,
    kept: NotClosed<N>,
    done: Vec<(Act, Receipt)>,
    last: Player<N>,
    steps: Steps,
    ended: Ended,
) -> bool {
    let alloc = last.alloc;
    let (shared, passes, writer) = kept.into_parts();
    let mut last = last;
    last.steps = steps;
    play(rt, &shared, &mut last);
    let mut all = Gathered {
        passes,
        done,
        writer: Some(writer),
        is_whole: last.is_right,
    };
    add(&mut all, last);
    closes(alloc, shared, all, ended)
}
