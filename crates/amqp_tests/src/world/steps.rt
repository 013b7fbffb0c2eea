//! Steps of two ends, each with its answer. Where one is refused memory it is made again, after a look at what the readers show. Two pairs go the same way:
//! one of both at least has ample memory, and both come to the same.
ghost use Rattle.amqp_rules.specs.Limits.{IsWithinLimits};

use super::calls::{DONE, Said, hear, own};
use crate::acts::Act;
use amqp_frames::Role;
use amqp_rules::config::Config;
use amqp_rules::status::{LinkStatus, WindowView};
use amqp_world::heard::Heard;
use amqp_world::settings::Settings;
use amqp_world::side::Side;
use amqp_world::world::World;
use std::alloc::Global;

/// What is done with an end.
#[derive(Clone, Copy)]
pub enum Do {
    Own(Act),
    /// Hears the next frame.
    Hear,
    /// Whether it has heard so many frames, and of these so many first transfers: 1 where it has.
    HasHeard(u32, u32),
    /// Whether its newest entry ended so many deliveries: 1 where it did.
    HasEnded(usize),
}

/// Steps, each with its answer.
pub type Steps = &'static [(Side, Do, (u8, u32))];

/// What the readers of an end show.
#[derive(Clone, Copy, PartialEq, Eq)]
struct Shown {
    steps: u32,
    entries: usize,
    put_out: u64,
    left: usize,
    windows: WindowView,
    link: Option<LinkStatus>,
    held: [usize; 2],
    heard: Heard,
}

fn show(world: &World, side: Side) -> Shown {
    let logged = world.side(side);
    let endpoint = logged.endpoint();
    Shown {
        steps: logged.steps(),
        entries: logged.journal().len(),
        put_out: logged.put_out(),
        left: logged.left_len(),
        windows: endpoint.windows(),
        link: endpoint.status(0),
        held: [
            endpoint.unsettled_len(Role::Sender),
            endpoint.unsettled_len(Role::Receiver),
        ],
        heard: world.heard(side),
    }
}

/// What the readers of both ends show.
fn look(world: &World) -> [Shown; 2] {
    [show(world, Side::A), show(world, Side::B)]
}

fn once(alloc: Global, world: &mut World, side: Side, what: Do) -> Said {
    match what {
        Do::Own(act) => own(alloc, world, side, act),
        Do::Hear => hear(world, side),
        Do::HasHeard(frames, firsts) => {
            let heard = world.heard(side);
            yes(heard.frames == frames && heard.firsts == firsts)
        }
        Do::HasEnded(count) => match world.side(side).journal().last() {
            Some(entry) => yes(entry.reply.ended.len() == count),
            None => yes(false),
        },
    }
}

fn yes(holds: bool) -> Said {
    Some((DONE, u32::from(holds)))
}

/// What is answered; where that is want of memory and nothing has changed, what is answered then.
fn twice(alloc: Global, world: &mut World, side: Side, what: Do) -> Said {
    let before = look(world);
    match once(alloc, world, side, what) {
        None if look(world) == before => once(alloc, world, side, what),
        said => said,
    }
}

/// Whether each step is answered as it is to be.
fn goes(alloc: Global, world: &mut World, steps: Steps) -> bool {
    for (side, what, due) in steps {
        if twice(alloc, world, *side, *what) != Some(*due) {
            return false;
        }
    }
    true
}

/// Both pairs have the same journals, and their readers show the same.
fn is_same(one: &World, other: &World) -> bool {
    one.side(Side::A).journal() == other.side(Side::A).journal()
        && one.side(Side::B).journal() == other.side(Side::B).journal()
        && look(one) == look(other)
}

fn both_go(alloc: Global, one: &mut World, other: &mut World, steps: Steps) -> bool {
    goes(alloc, one, steps) && goes(alloc, other, steps) && is_same(one, other)
}

/// None where the second pair was refused memory.
fn goes_with(alloc: Global, one: &mut World, settings: &Settings, steps: Steps) -> Option<bool>
    requires { IsWithinLimits settings.now.session }
{
    match World::new(alloc, settings, settings) {
        Ok(mut other) => {
            let right = both_go(alloc, one, &mut other, steps);
            drop(other);
            Some(right)
        }
        Err(_) => None,
    }
}

/// The same with a first pair.
fn go_once(alloc: Global, settings: &Settings, steps: Steps) -> Option<bool> {
    if !settings.session.is_within_limits() {
        return Some(false);
    }
    match World::new(alloc, settings, settings) {
        Ok(mut one) => {
            let right = goes_with(alloc, &mut one, settings, steps);
            drop(one);
            right
        }
        Err(_) => None,
    }
}

/// Whether two pairs, whose first deliveries have this id, go so and come to the same. They are made again where one was refused memory.
pub fn go(alloc: Global, first_id: u32, steps: Steps) -> bool {
    let settings = Settings {
        session: Config {
            first_id,
            window: 2048,
            journal_limit: 1000,
        },
        max_frame: 65536,
    };
    match go_once(alloc, &settings, steps) {
        Some(right) => right,
        None => go_once(alloc, &settings, steps) == Some(true),
    }
}
