//! Two ends that do what the dice say, and hear each other when the dice say so.

use super::agreeing::{settle, settle_over};
use super::choosing::{FIRST, accept_all, turn};
use super::lists::{complete, count, count_taken, judge, source};
use super::notes::{Notes, Tally, does};
use crate::acts::Act;
use amqp_rules::config::Config;
use amqp_rules::status::LinkPhase;
use amqp_world::settings::Settings;
use amqp_world::side::Side;
use amqp_world::world::World;
use std::alloc::Global;

/// How many pairs of ends there are, each with dice of its own, and how many turns a pair has before and after one of both ends its session.
const PAIRS: u32 = 24;

const TURNS: u32 = 1000;

const LAST: u32 = 40;

/// An end with a small window and the shortest frames.
const SETTINGS: Settings = Settings {
    session: Config {
        first_id: FIRST,
        window: 1,
        journal_limit: 100000,
    },
    max_frame: 512,
};

/// What all pairs made of each other.
fn play_all(alloc: Global) -> Tally {
    let mut tally = Tally::NONE;
    for seed in 0..PAIRS {
        tally = play(Notes::new(alloc, seed, tally));
    }
    tally
}

/// What two ends made of each other, beside what others did; nothing where there was no memory for them.
fn play(notes: Notes) -> Tally {
    let mut notes = notes;
    let (mut a, mut b) = (SETTINGS, SETTINGS);
    a.session.window = notes.dice.below(4).wrapping_add(1);
    b.session.window = notes.dice.below(4).wrapping_add(1);
    if !a.session.is_within_limits() || !b.session.is_within_limits() {
        return notes.tally;
    }
    if let Ok(mut world) = World::new(notes.alloc, &a, &b) {
        play_with(&mut world, &mut notes);
        drop(world);
    }
    notes.tally
}

/// Both begin, and take turns; then both hear and take all, and learn what the other says of it. One ends its session, of which the other may hear
/// while it goes on; then both hear all again. Each time that nothing is on its way they agree.
fn play_with(world: &mut World, notes: &mut Notes) {
    does(world, notes, Side::A, Act::Begin);
    does(world, notes, Side::B, Act::Begin);
    turns(world, notes, TURNS);
    judge_both(world, notes);
    finish(world, notes);
    let side = notes.side();
    does(world, notes, side, Act::End);
    turns(world, notes, LAST);
    settle_over(world, notes);
    judge_both(world, notes);
    count(&mut notes.tally, world.side(Side::A).journal());
    count(&mut notes.tally, world.side(Side::B).journal());
}

/// Both hear and take all, and learn what the other says of it.
fn finish(world: &mut World, notes: &mut Notes) {
    settle(world, notes);
    take_all(world, notes, Side::A);
    take_all(world, notes, Side::B);
    settle(world, notes);
    learn_all(world, notes, Side::A);
    learn_all(world, notes, Side::B);
}

fn turns(world: &mut World, notes: &mut Notes, count: u32) {
    for _ in 0..count {
        turn(world, notes);
    }
}

fn judge_both(world: &World, notes: &mut Notes) {
    let (a, b) = (world.side(Side::A).journal(), world.side(Side::B).journal());
    judge(&mut notes.tally, a, b);
    judge(&mut notes.tally, b, a);
}

/// The end takes all that waits on each of its links, and accepts it; then all was taken that the other sent complete.
fn take_all(world: &mut World, notes: &mut Notes, side: Side) {
    for link in 0..notes.newest(side).wrapping_add(1) {
        if is_attached(world, side, link) {
            exhaust(world, notes, side, Act::Take(link));
            notes.tally.judge(has_all(world, side, link));
        }
    }
    accept_all(world, notes, side);
}

/// The end learns all that was told on each of its links.
fn learn_all(world: &mut World, notes: &mut Notes, side: Side) {
    for link in 0..notes.newest(side).wrapping_add(1) {
        exhaust(world, notes, side, Act::Learn(link));
    }
}

/// Does it until it is refused.
fn exhaust(world: &mut World, notes: &mut Notes, side: Side, act: Act) {
    for _ in 0..u32::MAX {
        if !does(world, notes, side, act) {
            return;
        }
    }
}

/// All was taken that was sent complete, where the other end has not left the link.
fn has_all(world: &World, side: Side, link: u32) -> bool {
    let mine = world.side(side).journal();
    let theirs = world.side(side.other()).journal();
    match source(mine, theirs, link) {
        Some(there) => {
            !is_attached(world, side.other(), there)
                || complete(theirs, there, count_taken(mine, link)).is_none()
        }
        None => false,
    }
}

fn is_attached(world: &World, side: Side, link: u32) -> bool {
    match world.side(side).endpoint().status(link) {
        Some(status) => status.phase == LinkPhase::Attached,
        None => false,
    }
}

/// No frame is a violation, what is taken is what was sent, what is learnt is what was said, and both agree once nothing is on its way; and all that is looked
/// for came about.
#[test]
fn whatever_both_do(rt: HostRuntime) {
    assert!(rt; play_all(rt.alloc()).is_right());
}
