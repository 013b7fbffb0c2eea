//! What two ends show of each other once nothing is on its way, by their readers.

use super::choosing::FIRST;
use super::notes::{Notes, does};
use crate::acts::Act;
use amqp_frames::Role;
use amqp_journal::logged::Logged;
use amqp_rules::config::Config;
use amqp_rules::status::{LinkPhase, LinkStatus};
use amqp_world::refusal::HearRefusal;
use amqp_world::settings::Settings;
use amqp_world::settling::{Settled, Unsettled};
use amqp_world::side::Side;
use amqp_world::world::World;

/// Both ends hear until nothing waits, and show the same then.
pub fn settle(world: &mut World, notes: &mut Notes) {
    let is_settled = settles(world);
    notes.look(world);
    let is_right = is_settled && agree(world, notes);
    notes.tally.judge(is_right);
}

/// The same once one has ended its session: neither has a link or an unsettled delivery.
pub fn settle_over(world: &mut World, notes: &mut Notes) {
    let is_settled = settles(world);
    notes.look(world);
    let is_right = is_settled && has_none(world, notes, Side::A) && has_none(world, notes, Side::B);
    notes.tally.judge(is_right);
}

/// Both ends have heard all, and nothing is on its way.
fn settles(world: &mut World) -> bool {
    let answer = world.settle();
    let is_at_rest = world.at_rest();
    answer.is_ok() && is_at_rest
}

fn agree(world: &World, notes: &Notes) -> bool {
    meets(world, notes, Side::A) && meets(world, notes, Side::B)
}

/// What this end sends the other receives.
fn meets(world: &World, notes: &Notes, side: Side) -> bool {
    let (mine, theirs) = (world.side(side), world.side(side.other()));
    windows_meet(mine, theirs) && unsettled_meet(mine, theirs) && links_meet(world, notes, side)
}

/// The next transfer is the one that is awaited, and as many may be sent as are taken.
fn windows_meet(mine: &Logged, theirs: &Logged) -> bool {
    let sends = mine.endpoint().windows();
    let takes = theirs.endpoint().windows();
    takes.next_in == Some(sends.next_out) && sends.remote_in == takes.incoming
}

/// The same deliveries in the same order; what is local here is remote there.
fn unsettled_meet(mine: &Logged, theirs: &Logged) -> bool {
    let count = mine.endpoint().unsettled_len(Role::Sender);
    if theirs.endpoint().unsettled_len(Role::Receiver) != count {
        return false;
    }
    for i in 0..count {
        if !is_same(mine, theirs, i) {
            return false;
        }
    }
    true
}

fn is_same(mine: &Logged, theirs: &Logged, place: usize) -> bool {
    let sent = mine.endpoint().unsettled_at(Role::Sender, place);
    let received = theirs.endpoint().unsettled_at(Role::Receiver, place);
    match (sent, received) {
        (Some(sent), Some(received)) => {
            sent.id == received.id
                && sent.tag == received.tag
                && sent.local == received.remote
                && sent.remote == received.local
        }
        _ => false,
    }
}

/// Each link of this end is one of the other's.
fn links_meet(world: &World, notes: &Notes, side: Side) -> bool {
    for link in 0..notes.newest(side).wrapping_add(1) {
        if !link_meets(world, notes, side, link) {
            return false;
        }
    }
    true
}

/// The link is gone, or the other end has one of its name in the opposite role that shows the same.
fn link_meets(world: &World, notes: &Notes, side: Side, link: u32) -> bool {
    let Some(status) = world.side(side).endpoint().status(link) else {
        return true;
    };
    for there in 0..notes.newest(side.other()).wrapping_add(1) {
        if is_met(world, side, link, &status, there) {
            return true;
        }
    }
    false
}

fn is_met(world: &World, side: Side, link: u32, status: &LinkStatus, there: u32) -> bool {
    let (mine, theirs) = (
        world.side(side).endpoint(),
        world.side(side.other()).endpoint(),
    );
    let Some(other) = theirs.status(there) else {
        return false;
    };
    let (Some(here), Some(found)) = (mine.link_of(link), theirs.link_of(there)) else {
        return false;
    };
    found.has_name(opposite(status.role), here.name()) && shows_same(status, &other)
}

fn opposite(role: Role) -> Role {
    match role {
        Role::Sender => Role::Receiver,
        Role::Receiver => Role::Sender,
    }
}

/// Both are attached, with the same count, credit and unfinished delivery, and a drain that one awaits the other is asked for; or one was asked for and the
/// other offered.
fn shows_same(here: &LinkStatus, there: &LinkStatus) -> bool {
    match (here.phase, there.phase) {
        (LinkPhase::Attached, LinkPhase::Attached) => {
            here.count == there.count
                && here.credit == there.credit
                && here.mid == there.mid
                && (is_asked(here, there) && is_asked(there, here))
        }
        (LinkPhase::Asked, LinkPhase::Offered) | (LinkPhase::Offered, LinkPhase::Asked) => true,
        _ => false,
    }
}

/// If the receiver awaits a drain, the sender is asked for one.
fn is_asked(receiver: &LinkStatus, sender: &LinkStatus) -> bool {
    receiver.role == Role::Sender || !receiver.drain || sender.drain
}

/// The end has no link, and no unsettled delivery.
fn has_none(world: &World, notes: &Notes, side: Side) -> bool {
    let endpoint = world.side(side).endpoint();
    for link in 0..notes.newest(side).wrapping_add(1) {
        if endpoint.status(link).is_some() {
            return false;
        }
    }
    endpoint.unsettled_len(Role::Sender) == 0 && endpoint.unsettled_len(Role::Receiver) == 0
}

/// An end whose journal takes its open, its begin and nothing else.
const SHORT: Settings = Settings {
    session: Config {
        first_id: FIRST,
        window: 1,
        journal_limit: 2,
    },
    max_frame: 512,
};

/// An end whose journal has room.
const LONG: Settings = Settings {
    session: Config {
        first_id: FIRST,
        window: 1,
        journal_limit: 100,
    },
    max_frame: 512,
};

/// One end hears the other's begin; the other's journal is full.
fn stops(notes: Notes) -> bool {
    let mut notes = notes;
    let (a, b) = (LONG, SHORT);
    if !a.session.is_within_limits() || !b.session.is_within_limits() {
        return false;
    }
    let Ok(mut world) = World::new(notes.alloc, &a, &b) else {
        return false;
    };
    let begun = does(&mut world, &mut notes, Side::A, Act::Begin)
        && does(&mut world, &mut notes, Side::B, Act::Begin);
    let stopped = is_stop(world.settle());
    let right = begun && stopped && !world.at_rest();
    drop(world);
    right
}

fn is_stop(answer: Result<Settled, Unsettled>) -> bool {
    match answer {
        Ok(_) => false,
        Err(stop) => {
            stop.side == Side::B
                && stop.refusal == HearRefusal::JournalFull
                && stop.heard == Settled { a: 1, b: 0 }
        }
    }
}

/// Settling says at which end it stopped, why, and how far both came.
#[test]
fn settling_stops_at_a_full_journal(rt: HostRuntime) {
    assert!(rt; stops(Notes::new(rt.alloc(), 0, super::notes::Tally::NONE)));
}
