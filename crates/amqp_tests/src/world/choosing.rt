//! Operations that the dice choose among those that are due, mostly.

use super::dice::Dice;
use super::lists::{is_outcome, source};
use super::notes::{Notes, does, hears};
use crate::acts::{Act, Attach, Payload, Start, State};
use amqp_frames::Role;
use amqp_rules::status::{LinkPhase, LinkStatus, WindowView};
use amqp_world::side::Side;
use amqp_world::world::World;

/// The id of the first transfer and of the first delivery of either end, and the first count of each link.
pub const FIRST: u32 = 0xffff_fffa;

/// How many of its newest links an end looks at.
const NEWEST: u32 = 12;

/// One end does something, or hears the next frame of the other.
pub fn turn(world: &mut World, notes: &mut Notes) {
    let side = notes.side();
    if !acts(world, notes, side) {
        hears(world, notes, side);
    }
}

/// Whether the end did something. What reaches ahead or puts a link aside is to be refused.
fn acts(world: &mut World, notes: &mut Notes, side: Side) -> bool {
    let number = notes.dice.below(128);
    match number {
        16..=20 => return attach_at_once(world, notes),
        21 => return detach_at_once(world, notes, side),
        _ => {}
    }
    let done = match choose(world, notes, side, number) {
        Some(act) => does(world, notes, side, act),
        None => false,
    };
    notes.tally.judge(!done || number < 55 || number > 56);
    done
}

/// What the end does, as the number says; none where it hears.
fn choose(world: &World, notes: &mut Notes, side: Side, number: u32) -> Option<Act> {
    let windows = world.side(side).endpoint().windows();
    match number {
        0..=15 => None,
        23..=26 => Some(attach_some(&mut notes.dice)),
        27..=46 => dispose(world, &mut notes.dice, side),
        47..=54 => refresh(&mut notes.dice, &windows),
        55 => {
            let next = FIRST.wrapping_add(world.heard(side).firsts);
            Some(reach_ahead(&mut notes.dice, next))
        }
        _ => match attached(world, notes, side) {
            Some((link, status)) => on_link(&mut notes.dice, number, link, &status, &windows),
            None if number > 56 => Some(attach_some(&mut notes.dice)),
            None => None,
        },
    }
}

/// An attached link of the end, one of the newest; links are numbered in their order.
fn attached(world: &World, notes: &mut Notes, side: Side) -> Option<(u32, LinkStatus)> {
    let from = notes.dice.below(NEWEST);
    for back in 0..NEWEST {
        let link = notes
            .newest(side)
            .wrapping_sub(from.wrapping_add(back) % NEWEST);
        if let Some(status) = world.side(side).endpoint().status(link) {
            if status.phase == LinkPhase::Attached {
                return Some((link, status));
            }
        }
    }
    None
}

// Links

/// Attaches an end of one of the two links on which it sends, or receives.
fn attach(dice: &mut Dice, second: bool, sends: bool) -> Act {
    Act::Attach(Attach {
        name: if second { "q" } else { "p" },
        role: role(sends),
        snd: if dice.one_in(8) { 0 } else { 2 },
        rcv: if dice.one_in(4) { 1 } else { 0 },
        count: FIRST,
    })
}

fn role(sends: bool) -> Role {
    if sends { Role::Sender } else { Role::Receiver }
}

fn attach_some(dice: &mut Dice) -> Act {
    let second = dice.one_in(2);
    let sends = dice.one_in(2);
    attach(dice, second, sends)
}

/// Both ends attach one link, before either hears the other.
fn attach_at_once(world: &mut World, notes: &mut Notes) -> bool {
    let second = notes.dice.one_in(2);
    let sends = notes.dice.one_in(2);
    let act = attach(&mut notes.dice, second, sends);
    let a = does(world, notes, Side::A, act);
    let act = attach(&mut notes.dice, second, !sends);
    let b = does(world, notes, Side::B, act);
    if a && b {
        notes.tally.attached_at_once = notes.tally.attached_at_once.wrapping_add(1);
    }
    a || b
}

/// Both ends detach a link, before either hears the other.
fn detach_at_once(world: &mut World, notes: &mut Notes, side: Side) -> bool {
    let Some((link, _)) = attached(world, notes, side) else {
        return false;
    };
    let (mine, theirs) = (world.side(side), world.side(side.other()));
    let Some(there) = source(mine.journal(), theirs.journal(), link) else {
        return false;
    };
    let one = does(world, notes, side, Act::Detach(link));
    let other = does(world, notes, side.other(), Act::Detach(there));
    if one && other {
        notes.tally.left_at_once = notes.tally.left_at_once.wrapping_add(1);
    }
    one || other
}

/// What is due on an attached link, if anything, unless the number says that it is left or put aside.
fn on_link(
    dice: &mut Dice,
    number: u32,
    link: u32,
    status: &LinkStatus,
    windows: &WindowView,
) -> Option<Act> {
    match number {
        22 => Some(Act::Detach(link)),
        56 => Some(Act::Suspend(link)),
        _ => match status.role {
            Role::Sender => send_on(dice, link, status, windows),
            Role::Receiver => receive_on(dice, link, status, windows),
        },
    }
}

// Sending

fn send_on(dice: &mut Dice, link: u32, status: &LinkStatus, windows: &WindowView) -> Option<Act> {
    if dice.one_in(4) {
        return Some(Act::Learn(link));
    }
    if status.drain && !status.mid && dice.one_in(2) {
        return Some(Act::Drained(link));
    }
    if dice.one_in(16) {
        let available = dice.below(3);
        return Some(Act::Offer { link, available });
    }
    if windows.remote_in == 0 {
        return None;
    }
    if status.mid {
        return Some(go_on(dice, link));
    }
    if status.credit > 0 {
        return Some(start(dice, link));
    }
    None
}

/// Goes on with the delivery that is unfinished on the link, or gives it up.
fn go_on(dice: &mut Dice, link: u32) -> Act {
    if dice.one_in(6) {
        return Act::Abort(link);
    }
    let more = dice.one_in(2);
    Act::Carry {
        link,
        payload: payload(dice),
        more,
    }
}

/// Begins a delivery.
fn start(dice: &mut Dice, link: u32) -> Act {
    let tag = dice.octet() / 8;
    let format = dice.below(1 << 20);
    let settled = dice.one_in(6);
    let more = dice.one_in(3);
    Act::Start(Start {
        link,
        tag,
        format,
        settled,
        payload: payload(dice),
        more,
    })
}

/// Few octets of one kind mostly, and now and then more than a frame takes.
fn payload(dice: &mut Dice) -> Payload {
    let octet = dice.octet();
    let bound = if dice.one_in(32) { 700 } else { 20 };
    Payload::Alike(octet, dice.below(bound) as usize)
}

// Receiving

fn receive_on(
    dice: &mut Dice,
    link: u32,
    status: &LinkStatus,
    windows: &WindowView,
) -> Option<Act> {
    if status.ready > 0 && !dice.one_in(4) {
        return Some(Act::Take(link));
    }
    if status.credit > 1 || status.drain {
        return refresh(dice, windows);
    }
    Some(Act::Grant {
        link,
        credit: dice.below(6).wrapping_add(2),
        drain: dice.one_in(8),
        echo: dice.one_in(4),
    })
}

/// Tells the window anew where little of it is left.
fn refresh(dice: &mut Dice, windows: &WindowView) -> Option<Act> {
    if windows.incoming > 1 {
        return None;
    }
    Some(Act::Refresh(dice.one_in(4)))
}

// Dispositions

/// Disposes one to three deliveries, if that is due of one of the unsettled ones on which the end has a role that the dice choose: a sender settles what the
/// other end told of, and a receiver tells a state, or settles what has its outcome. An outcome that our end gave it has to keep, and a sender leaves it to the
/// other to give one.
fn dispose(world: &World, dice: &mut Dice, side: Side) -> Option<Act> {
    let endpoint = world.side(side).endpoint();
    let role = role(dice.one_in(4));
    let number = dice.below(1 << 16) as usize;
    let place = number.checked_rem(endpoint.unsettled_len(role))?;
    let item = endpoint.unsettled_at(role, place)?;
    let fixed = role == Role::Sender || is_outcome(&item.local);
    let settled = fixed || (!item.second && dice.one_in(2));
    let may = match role {
        Role::Sender => item.remote.is_some(),
        Role::Receiver => !(fixed && item.second),
    };
    if !may {
        return None;
    }
    Some(Act::Dispose {
        role,
        first: item.id,
        last: item.id.wrapping_add(dice.below(3)),
        settled,
        state: if fixed { State::None } else { state(dice) },
    })
}

fn state(dice: &mut Dice) -> State {
    match dice.below(8) {
        0 => State::None,
        1 => State::Released,
        2..=3 => State::Received(dice.below(4)),
        _ => State::Accepted,
    }
}

/// Disposes deliveries of which one was not heard: the next one, or also the one behind it.
fn reach_ahead(dice: &mut Dice, next: u32) -> Act {
    Act::Dispose {
        role: Role::Receiver,
        first: next.wrapping_sub(dice.below(3)),
        last: next.wrapping_add(dice.below(2)),
        settled: true,
        state: State::None,
    }
}

/// Accepts each delivery that the end received and has not settled, if it may; the other is told an outcome.
pub fn accept_all(world: &mut World, notes: &mut Notes, side: Side) {
    for place in 0..world.side(side).endpoint().unsettled_len(Role::Receiver) {
        if let Some(act) = accept(world, side, place) {
            does(world, notes, side, act);
        }
    }
}

fn accept(world: &World, side: Side, place: usize) -> Option<Act> {
    let endpoint = world.side(side).endpoint();
    let item = endpoint.unsettled_at(Role::Receiver, place)?;
    Some(Act::Dispose {
        role: Role::Receiver,
        first: item.id,
        last: item.id,
        settled: false,
        state: State::Accepted,
    })
}
