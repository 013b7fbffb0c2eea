//! A shared connection from its seed to its end.
ghost use Rattle.amqp_shared.specs.Passes.{IsNamed};

use super::ending::{Ended, ends};
use super::looks::takes_place;
use super::playing::{Do, Due, Player, Steps, play};
use crate::acts::Act;
use crate::octets::{BEGUN, GREETING, SENDS, TAKES};
use crate::session::seed_of;
use amqp_shared::{Name, Retention, Seed, Shared, open_shared};
use std::alloc::Global;
use std::marker::Brand;
use std::sync::Wait;
use std::thread;
use std::thread::Threads;

/// What is done with a connection.
#[derive(Clone, Copy)]
pub(super) struct Case {
    /// How many units its ring takes.
    pub(super) ring: usize,
    /// How many steps its journal takes.
    pub(super) limit: u32,
    pub(super) rounds: &'static [Round],
    /// Of each delivery that threads have which wait to take one, by its id, the link on which it comes: each of them is had once.
    pub(super) taken: &'static [u32],
    /// How it is taken apart, if it is.
    pub(super) end: Option<Ended>,
}

/// What threads do side by side: so many do each of these, the first of them with the writer's end and the pass that the others' are parts of. Who is not
/// named does nothing.
pub(super) type Round = &'static [(u8, Steps)];

/// A connection of 1000 steps, with a ring of 16 units, that is dropped.
pub(super) const USUAL: Case = Case {
    ring: 16,
    limit: 1000,
    rounds: &[],
    taken: &[],
    end: None,
};

/// An end that sends on link 0, and has no credit: five steps.
pub(super) const LINK: Round = &[(
    1,
    &[
        Do::Hear(&GREETING),
        Do::Call(Act::Begin, Due::Done),
        Do::Hear(&BEGUN),
        Do::Call(Act::Sends, Due::Done),
        Do::Hear(&TAKES),
    ],
)];

/// An end that receives on link 1, by receiving mode second: six steps.
pub(super) const SESSION: Round = &[(
    1,
    &[
        Do::Hear(&GREETING),
        Do::Call(Act::Begin, Due::Done),
        Do::Hear(&BEGUN),
        Do::Call(Act::ReceivesP(1), Due::Done),
        Do::Hear(&SENDS),
        Do::Call(Act::ReceivesQ(1), Due::Done),
    ],
)];

/// More than there are in any case.
const THREADS: usize = 32;

/// Whether all goes as it is due.
pub(super) fn goes<R: Threads + Wait + Sync>(rt: &R, alloc: Global, case: &Case) -> bool {
    match seed_of(alloc, case.ring, case.limit, Retention::All) {
        Some(seed) => course::<Brand, R>(rt, alloc, seed, case),
        None => false,
    }
}

fn course<N: Name + Send + Sync, R: Threads + Wait + Sync>(
    rt: &R,
    alloc: Global,
    seed: Seed,
    case: &Case,
) -> bool
    requires { IsNamed seed N.name N.parts N.ring N.retention }
{
    let (shared, pass, writer) = open_shared::<N>(seed);
    let mut players = Vec::new(alloc);
    let first = Player::new(alloc, pass, Some(writer));
    let is_in = players.push(first).is_ok();
    let goes = is_in && goes_round(rt, &shared, &mut players, case);
    let ends = ends(rt, alloc, shared, players, case.end);
    goes && ends
}

fn goes_round<N: Name + Send + Sync, R: Threads + Wait + Sync>(
    rt: &R,
    shared: &Shared<N>,
    players: &mut Vec<Player<N>>,
    case: &Case,
) -> bool {
    for round in case.rounds {
        if !goes_once(rt, shared, players, *round) {
            return false;
        }
    }
    has_taken(players.as_slice(), case.taken)
}

fn goes_once<N: Name + Send + Sync, R: Threads + Wait + Sync>(
    rt: &R,
    shared: &Shared<N>,
    players: &mut Vec<Player<N>>,
    round: Round,
) -> bool {
    for _ in players.len()..count_of(round) {
        join(players);
    }
    deal(players.as_mut_slice(), round);
    thread::for_each_mut(
        rt,
        players.as_mut_slice(),
        THREADS,
        &|_, player: &mut Player<N>| play(rt, shared, player),
    );
    are_right(players.as_slice())
}

/// How many threads it has.
fn count_of(round: Round) -> usize {
    let mut sum = 0usize;
    for (count, _) in round {
        sum = sum.saturating_add(usize::from(*count));
    }
    sum
}

/// A thread behind the others, with a part of the first one's pass.
fn join<N: Name>(players: &mut Vec<Player<N>>) {
    let alloc = *players.allocator();
    let part = match players.first_mut() {
        Some(first) => first.pass.split(),
        None => None,
    };
    if let Some(pass) = part {
        let _ = players.push(Player::new(alloc, pass, None));
    }
}

/// Each is given what it is to do.
fn deal<N: Name>(players: &mut [Player<N>], round: Round) {
    for (place, player) in players.iter_mut().enumerate() {
        player.steps = steps_of(round, place);
    }
}

/// What the thread at this place does: nothing, if it is not named.
fn steps_of(round: Round, place: usize) -> Steps {
    let mut end = 0usize;
    for (count, steps) in round {
        end = end.saturating_add(usize::from(*count));
        if place < end {
            return steps;
        }
    }
    &[]
}

fn are_right<N: Name>(players: &[Player<N>]) -> bool {
    for player in players {
        if !player.is_right {
            return false;
        }
    }
    true
}

/// Those that waited to take a delivery have those that are due, each of them once, and on its own link.
fn has_taken<N: Name>(players: &[Player<N>], due: &[u32]) -> bool {
    let mut free = [true; 32];
    let mut count = 0usize;
    for player in players {
        if let Some((link, id)) = player.book.taken {
            if !takes_place(&mut free, u64::from(id)) || !is_on(due, link, id) {
                return false;
            }
            count = count.saturating_add(1);
        }
    }
    count == due.len()
}

/// The delivery of this id comes on this link.
fn is_on(due: &[u32], link: u32, id: u32) -> bool {
    match due.get(id as usize) {
        Some(own) => *own == link,
        None => false,
    }
}
