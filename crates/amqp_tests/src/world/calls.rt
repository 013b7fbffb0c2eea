//! Calls on two ends, each answered by two numbers.

use crate::acts::{Act, op};
use amqp_frames::DeliveryState;
use amqp_rules::op::Op;
use amqp_rules::refusal::Refusal;
use amqp_rules::reply::{Given, Learned};
use amqp_world::refusal::{HearRefusal, WorldRefusal};
use amqp_world::side::Side;
use amqp_world::world::World;
use std::alloc::Global;

/// What a call answers, or `None` where memory was refused: which of the following, and the link or the id, where it has one.
pub type Said = Option<(u8, u32)>;

pub const DONE: u8 = 0;

pub const LINK: u8 = 1;

pub const OFFERED: u8 = 2;

pub const ATTACHED: u8 = 3;

pub const GONE: u8 = 4;

pub const BEGUN: u8 = 5;

pub const READY: u8 = 6;

pub const TAKEN: u8 = 7;

pub const LEARNT: u8 = 8;
/// Learnt as settled and accepted.
pub const ACCEPTED: u8 = 9;
/// No frame waits.
pub const EMPTY: u8 = 10;

pub const FULL: u8 = 11;
/// A disposition reaches ahead.
pub const AHEAD: u8 = 12;

pub const RESUMING: u8 = 13;
/// With the number of the session's refusal.
pub const REFUSED: u8 = 14;

/// Whether a call that answers this was done.
pub fn is_done(said: Said) -> bool {
    match said {
        Some((what, _)) => what < EMPTY,
        None => false,
    }
}

fn number_of(given: &Given) -> (u8, u32) {
    match given {
        Given::Link(link) => (LINK, *link),
        Given::Offered(link) => (OFFERED, *link),
        Given::Attached(link) => (ATTACHED, *link),
        Given::Gone(link) => (GONE, *link),
        Given::Delivery(id) => (BEGUN, *id),
        Given::Ready(_, id) => (READY, *id),
        Given::Taken(taken) => (TAKEN, taken.get().id),
        Given::Learned(learned) => learnt(learned.get()),
        _ => (DONE, 0),
    }
}

fn learnt(learned: &Learned) -> (u8, u32) {
    match learned.state {
        Some(DeliveryState::Accepted) if learned.settled => (ACCEPTED, learned.id),
        _ => (LEARNT, learned.id),
    }
}

fn said(given: Given) -> Said {
    let number = number_of(&given);
    drop(given);
    Some(number)
}

fn refused(refusal: WorldRefusal) -> Said {
    match refusal {
        WorldRefusal::Refused(Refusal::NoMemory) => None,
        WorldRefusal::Refused(refusal) => Some((REFUSED, u32::from(refusal.number()))),
        WorldRefusal::ReachesAhead => Some((AHEAD, 0)),
        WorldRefusal::Resuming => Some((RESUMING, 0)),
    }
}

/// Does the operation, where there is memory for it.
pub fn own(alloc: Global, world: &mut World, side: Side, act: Act) -> Said {
    match op(alloc, act) {
        Some(op) => does(world, side, op),
        None => None,
    }
}

/// Does the operation, and lets it go.
fn does(world: &mut World, side: Side, op: Op) -> Said {
    let answer = world.own(side, &op);
    drop(op);
    match answer {
        Ok(given) => said(given),
        Err(refusal) => refused(refusal),
    }
}

/// Hears the next frame.
pub fn hear(world: &mut World, side: Side) -> Said {
    match world.hear(side) {
        Ok(given) => said(given),
        Err(HearRefusal::NoMemory) => None,
        Err(HearRefusal::Empty) => Some((EMPTY, 0)),
        Err(HearRefusal::JournalFull) => Some((FULL, 0)),
    }
}
