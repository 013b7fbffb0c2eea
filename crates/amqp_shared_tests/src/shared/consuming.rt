//! Consumers that a thread runs, each with a work that goes by a table: what is due of each delivery, and what it does with it.

use super::holding::feeds;
use super::playing::{Player, comes_to};
use crate::acts::{State, state_of};
use crate::octets::{SETTLED, SIXTH, transfer};
use amqp_shared::{
    Consumed, DeliveryState, Name, Pass, Refusal, Shared, Taken, Terms, Work, run_consumers,
    run_consumers_in_batches,
};
use std::sync::Wait;
use std::thread::Threads;

/// Consumers that are run, and what is due of them.
#[derive(Clone, Copy)]
pub(super) struct Consumers {
    /// One for each work.
    pub(super) works: &'static [Way],
    pub(super) terms: Terms,
    /// How many more deliveries each takes at once; none where they are run by `run_consumers`.
    pub(super) more: Option<u32>,
    /// How many deliveries all of them consume, and how many of what the link left.
    pub(super) count: u64,
    pub(super) left: u64,
    /// How many steps they make.
    pub(super) made: u64,
    /// None consumes more.
    pub(super) most: u64,
    /// What stops each.
    pub(super) stopped: Refusal,
}

/// What a work goes by.
#[derive(Clone, Copy)]
pub(super) enum Way {
    /// Accepts all.
    Accepts,
    /// Gives the first back, and ends the connection once it has had two.
    Ends,
    /// Hears, while it has the first, that the peer settles it, and ends the connection at the second.
    Settles,
    /// Holds the first until the journal has the step that follows the answer to the second, which another consumer has.
    Meets,
    /// Accepts all but the third, which it releases; hears of the sixth at the fifth, and closes the connection once they were told. It ends it at the sixth.
    Chooses,
    /// Hears of the next delivery at each of the first four, and ends the connection at the fifth.
    Follows,
    /// Accepts five that come settled.
    Counts,
}

/// A delivery's tag, and whether it comes settled; what is done with it, and its state.
type Row = (u8, bool, Then, State);

/// What a work does before it says the state.
#[derive(Clone, Copy)]
enum Then {
    Nothing,
    /// Hears this.
    Hear(&'static [u8]),
    /// Hears of the delivery of this id.
    Follow(u8),
    /// Ends the connection.
    Lose,
    /// Waits until the journal has so many entries, and ends the connection.
    MeetAt(usize),
}

const ACCEPTS: [Row; 2] = [
    (1, false, Then::Nothing, State::Accepted),
    (2, true, Then::Nothing, State::Accepted),
];

const ENDS: [Row; 2] = [
    (1, false, Then::Nothing, State::GivenBack),
    (2, true, Then::Lose, State::Accepted),
];

const SETTLES: [Row; 2] = [
    (1, false, Then::Hear(&SETTLED), State::Accepted),
    (2, true, Then::Lose, State::Accepted),
];

const MEETS: [Row; 2] = [
    (1, false, Then::MeetAt(12), State::Accepted),
    (2, true, Then::Nothing, State::Accepted),
];

const CHOOSES: [Row; 6] = [
    (1, false, Then::Nothing, State::Accepted),
    (2, false, Then::Nothing, State::Accepted),
    (3, false, Then::Nothing, State::Released),
    (4, false, Then::Nothing, State::Accepted),
    (5, false, Then::Hear(&SIXTH), State::Accepted),
    (6, false, Then::Lose, State::Accepted),
];

const FOLLOWS: [Row; 5] = [
    (0, false, Then::Follow(1), State::Accepted),
    (1, false, Then::Follow(2), State::Accepted),
    (2, false, Then::Follow(3), State::Accepted),
    (3, false, Then::Follow(4), State::Accepted),
    (4, false, Then::Lose, State::Accepted),
];

const COUNTS: [Row; 5] = [
    (0, true, Then::Nothing, State::Accepted),
    (1, true, Then::Nothing, State::Accepted),
    (2, true, Then::Nothing, State::Accepted),
    (3, true, Then::Nothing, State::Accepted),
    (4, true, Then::Nothing, State::Accepted),
];

/// What is due of the delivery of this id; none where it has none.
fn row_of(way: Way, id: u32) -> Option<Row> {
    let rows: &[Row] = match way {
        Way::Accepts => &ACCEPTS,
        Way::Ends => &ENDS,
        Way::Settles => &SETTLES,
        Way::Meets => &MEETS,
        Way::Chooses => &CHOOSES,
        Way::Follows => &FOLLOWS,
        Way::Counts => &COUNTS,
    };
    rows.get(id as usize).copied()
}

/// How often a delivery of each id was consumed, and how many were as they are due.
#[derive(Clone, Copy)]
struct Tally {
    had: [u8; 8],
    right: u64,
}

impl Tally {
    const NONE: Tally = Tally {
        had: [0; 8],
        right: 0,
    };

    fn notes(&mut self, id: u32, is_right: bool) {
        if let Some(count) = self.had.get_mut(id as usize) {
            *count = count.saturating_add(1);
        }
        if is_right {
            self.right = self.right.saturating_add(1);
        }
    }

    fn adds(&mut self, other: &Tally) {
        for (sum, count) in self.had.iter_mut().zip(other.had.iter()) {
            *sum = sum.saturating_add(*count);
        }
        self.right = self.right.saturating_add(other.right);
    }

    /// The first so many deliveries were consumed once each, as they are due, and no other.
    fn is_of(&self, count: u64) -> bool {
        for (id, had) in self.had.iter().enumerate() {
            if *had != u8::from((id as u64) < count) {
                return false;
            }
        }
        self.right == count
    }
}

/// What a work owns.
#[derive(Drop)]
struct Own<N: Name> {
    /// By which it hears.
    pass: Pass<N>,
    way: Way,
    tally: Tally,
}

struct Worker<'a, N: Name, R: Wait> {
    rt: &'a R,
    shared: &'a Shared<N>,
    own: Own<N>,
}

impl<'a, N: Name, R: Wait> Drop for Worker<'a, N, R> {
    fn drop(self) {
        let Worker {
            rt: _,
            shared: _,
            own,
        } = self;
        drop(own);
    }
}

impl<'a, N: Name, R: Wait> Worker<'a, N, R> {
    fn into_own(self) -> Own<N> {
        let Worker {
            rt: _,
            shared: _,
            own,
        } = self;
        own
    }
}

impl<'a, N: Name, R: Wait> Work for Worker<'a, N, R> {
    fn consume(&mut self, item: &Taken) -> DeliveryState {
        match row_of(self.own.way, item.id) {
            Some((tag, settled, then, state)) => {
                let is_sent = is_sent(item, tag, settled);
                let is_done = does_then(self.rt, self.shared, &mut self.own.pass, then);
                self.own.tally.notes(item.id, is_sent && is_done);
                state_of(state)
            }
            None => DeliveryState::Released,
        }
    }

    fn told(&mut self) {
        if let Way::Chooses = self.own.way {
            shut(self.rt, self.shared);
        }
    }
}

/// It is a delivery of link 1 as it was sent.
fn is_sent(item: &Taken, tag: u8, settled: bool) -> bool {
    item.link == 1
        && item.format == 0
        && item.settled == settled
        && item.second
        && item.tag.octets() == [tag].as_slice()
        && item.payload.is([0x78].as_slice())
}

fn does_then<N: Name, R: Wait>(rt: &R, shared: &Shared<N>, pass: &mut Pass<N>, then: Then) -> bool {
    match then {
        Then::Nothing => true,
        Then::Hear(piece) => feeds_alone(rt, shared, pass, piece),
        Then::Follow(id) => feeds_alone(rt, shared, pass, &transfer(0, id)),
        Then::Lose => lose(rt, shared),
        Then::MeetAt(entries) => comes_to(rt, shared, entries) && lose(rt, shared),
    }
}

fn feeds_alone<N: Name, R: Wait>(
    rt: &R,
    shared: &Shared<N>,
    pass: &mut Pass<N>,
    piece: &[u8],
) -> bool {
    let mut guard = shared.lock(rt);
    feeds(shared, &mut guard, pass, piece)
}

fn lose<N: Name, R: Wait>(rt: &R, shared: &Shared<N>) -> bool {
    let mut guard = shared.lock(rt);
    shared.lost(&mut guard);
    true
}

fn shut<N: Name, R: Wait>(rt: &R, shared: &Shared<N>) {
    let mut guard = shared.lock(rt);
    let _ = shared.shut(&mut guard, None);
}

/// What consumers have done together.
#[derive(Clone, Copy)]
struct Sum {
    count: u64,
    left: u64,
    made: u64,
    most: u64,
    /// Each was stopped as it is due.
    is_stopped: bool,
    tally: Tally,
}

type Works<'a, N, R> = Vec<Worker<'a, N, R>>;

type Done<'a, N, R> = Vec<Consumed<N, Worker<'a, N, R>>>;

/// Runs them, with parts of the thread's pass, and keeps their passes.
pub(super) fn consume<N: Name + Send + Sync, R: Threads + Wait + Sync>(
    rt: &R,
    shared: &Shared<N>,
    player: &mut Player<N>,
    consumers: &Consumers,
) -> bool {
    let mut passes = Vec::new(player.alloc);
    let mut works = Vec::new(player.alloc);
    for way in consumers.works {
        put(rt, shared, player, &mut passes, &mut works, *way);
    }
    match run(rt, shared, passes, works, consumers) {
        Some(done) => are_done(player, done, consumers),
        None => false,
    }
}

/// A consumer behind the others, with its work.
fn put<'a, N: Name, R: Wait>(
    rt: &'a R,
    shared: &'a Shared<N>,
    player: &mut Player<N>,
    passes: &mut Vec<Pass<N>>,
    works: &mut Works<'a, N, R>,
    way: Way,
) {
    if let Some(pass) = player.pass.split() {
        let _ = passes.push(pass);
    }
    if let Some(pass) = player.pass.split() {
        let own = Own {
            pass,
            way,
            tally: Tally::NONE,
        };
        let _ = works.push(Worker { rt, shared, own });
    }
}

fn run<'a, N: Name + Send + Sync, R: Threads + Wait + Sync>(
    rt: &'a R,
    shared: &'a Shared<N>,
    passes: Vec<Pass<N>>,
    works: Works<'a, N, R>,
    consumers: &Consumers,
) -> Option<Done<'a, N, R>> {
    if passes.len() != works.len() {
        return None;
    }
    let terms = consumers.terms;
    match consumers.more {
        None => run_consumers(rt, shared, passes, works, terms.link, terms.credit).ok(),
        Some(more) => run_consumers_in_batches(rt, shared, passes, works, terms, more).ok(),
    }
}

fn are_done<N: Name, R: Wait>(
    player: &mut Player<N>,
    done: Done<'_, N, R>,
    due: &Consumers,
) -> bool {
    let mut sum = Sum {
        count: 0,
        left: 0,
        made: 0,
        most: 0,
        is_stopped: true,
        tally: Tally::NONE,
    };
    for consumed in done {
        add(&mut sum, player, consumed, due.stopped);
    }
    sum.is_stopped
        && sum.count == due.count
        && sum.left == due.left
        && sum.made == due.made
        && sum.most == due.most
        && sum.tally.is_of(due.count.saturating_add(due.left))
}

/// What one consumer has done; both of its passes are kept.
fn add<N: Name, R: Wait>(
    sum: &mut Sum,
    player: &mut Player<N>,
    consumed: Consumed<N, Worker<'_, N, R>>,
    due: Refusal,
) {
    let Consumed {
        pass,
        work,
        count,
        left,
        stopped,
    } = consumed;
    let own = work.into_own();
    sum.count = sum.count.saturating_add(count);
    sum.left = sum.left.saturating_add(left);
    sum.made = sum.made.saturating_add(pass.made());
    sum.most = sum.most.max(count);
    sum.is_stopped = sum.is_stopped && stopped == due;
    sum.tally.adds(&own.tally);
    keep(player, pass, own);
}

fn keep<N: Name>(player: &mut Player<N>, pass: Pass<N>, own: Own<N>) {
    let Own {
        pass: other,
        way: _,
        tally: _,
    } = own;
    let is_kept = player.kept.push(pass).is_ok();
    let is_other_kept = player.kept.push(other).is_ok();
    player.is_right = player.is_right && is_kept && is_other_kept;
}
