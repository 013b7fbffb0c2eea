//! A thread, and what it does with a shared connection.

use super::consuming::{Consumers, consume};
use super::holding::hold;
use super::looks::Look;
use super::waiting::{wait_behind, wait_for_both, wait_in_vain};
use crate::acts::Act;
use amqp_journal::receipt::Receipt;
use amqp_rules::refusal::Refusal;
use amqp_shared::{Given, Name, Pass, Shared, WriterEnd};
use std::alloc::Global;
use std::sync::Wait;
use std::thread;
use std::thread::Threads;

/// What a thread does, and what is due of it. What stands first, up to `TakeThree`, is done under a lock of its own.
#[derive(Clone, Copy)]
pub(super) enum Do {
    Call(Act, Due),
    /// Both are done, under one lock.
    CallBoth(Act, Act),
    /// Feeds the octets, each feed what the one before left of them: all are taken.
    Hear(&'static [u8]),
    /// Feeds octets that are refused.
    Faults(&'static [u8]),
    /// Feeds so many deliveries, each fifth of them by handle 1, and the others by handle 0.
    Bring(u8),
    /// Puts out our close.
    Shut,
    /// The octets end.
    Lose,
    MoveUnits,
    /// Asks to forget the entries, and all are kept.
    KeepAll,
    Is(Look),
    /// Takes three deliveries of link 1 by one call: two are there, and the third is refused.
    TakeThree,
    /// Waits for it behind this, under one lock.
    Wait(Before, Act, Due),
    /// Beats, and waits to do the one and then the other, under one lock.
    WaitForBoth(Act, Act),
    /// Waits behind this to learn of link 0, under one lock. It is refused, and has the outcome of the first delivery, which the link left; so many outcomes
    /// are left then, if that is asked.
    WaitInVain(Before, Refusal, Option<usize>),
    /// Awaits more units than so many: so many were put out then, and whether the connection has ended.
    Units(u64, (u64, bool)),
    /// Takes the unit of this number of the ring, or finds none.
    Unit(Option<u64>),
    /// Takes the units of these numbers.
    UnitsUpTo(u64, u64),
    /// Takes units as they come, until it has taken so many.
    Write(u64),
    /// So many beats, each under a lock of its own.
    Beats(u32),
    /// Starts so many deliveries, each under a lock of its own, with this number and their own as their tags.
    Starts(u8, u8),
    /// Waits until the journal has so many entries.
    ComesTo(usize),
    /// Lets others run so often: that they wait is likely then, and not seen.
    Pause(u32),
    /// Its pass has made so many steps.
    Made(u64),
    /// Its pass has one part.
    IsOnePart,
    Consume(&'static Consumers),
}

pub(super) type Steps = &'static [Do];

/// What is due of an operation.
#[derive(Clone, Copy)]
pub(super) enum Due {
    Done,
    Refused(Refusal),
    /// A delivery of this link is taken.
    Takes(u32),
}

/// What goes before a call that waits.
#[derive(Clone, Copy)]
pub(super) enum Before {
    Beat,
    /// Two deliveries are begun.
    StartTwo,
    Hear(&'static [u8]),
    Shut,
}

/// What a thread has done.
#[derive(Drop)]
pub(super) struct Book {
    /// Each operation that was done, with its receipt.
    pub(super) done: Vec<(Act, Receipt)>,
    /// The link and the id of the delivery that it waited to take.
    pub(super) taken: Option<(u32, u32)>,
}

impl Book {
    /// Whether it is what is due; what was done is noted.
    pub(super) fn notes(
        &mut self,
        act: Act,
        answer: Result<(Receipt, Given), Refusal>,
        due: Due,
    ) -> bool {
        match answer {
            Ok((receipt, given)) => {
                let takes = taken_from(&given);
                drop(given);
                let is_noted = self.done.push((act, receipt)).is_ok();
                self.is_done(&receipt, takes, due) && is_noted
            }
            Err(refusal) => is_refused(refusal, due),
        }
    }

    fn is_done(&mut self, receipt: &Receipt, takes: Option<(u32, u32)>, due: Due) -> bool {
        match (due, takes) {
            (Due::Done, _) => true,
            (Due::Takes(due), Some((link, id))) => {
                self.taken = Some((link, id));
                link == due && receipt.id == Some(id)
            }
            _ => false,
        }
    }
}

/// The link and the id of the delivery that was taken.
fn taken_from(given: &Given) -> Option<(u32, u32)> {
    match given {
        Given::Taken(taken) => Some((taken.get().link, taken.get().id)),
        _ => None,
    }
}

fn is_refused(refusal: Refusal, due: Due) -> bool {
    match due {
        Due::Refused(due) => refusal == due,
        _ => false,
    }
}

/// A thread, with all that is its own. The first of a connection has the writer's end.
#[derive(Drop)]
pub(super) struct Player<N: Name> {
    pub(super) pass: Pass<N>,
    /// Those that consumers gave back.
    pub(super) kept: Vec<Pass<N>>,
    pub(super) writer: Option<WriterEnd<N>>,
    pub(super) book: Book,
    pub(super) steps: Steps,
    /// All was as it is due so far.
    pub(super) is_right: bool,
    pub(super) alloc: Global,
}

impl<N: Name> Player<N> {
    pub(super) fn new(alloc: Global, pass: Pass<N>, writer: Option<WriterEnd<N>>) -> Player<N> {
        Player {
            pass,
            kept: Vec::new(alloc),
            writer,
            book: Book {
                done: Vec::new(alloc),
                taken: None,
            },
            steps: &[],
            is_right: true,
            alloc,
        }
    }
}

/// Does all that is its to do, whether or not it is right.
pub(super) fn play<N: Name + Send + Sync, R: Threads + Wait + Sync>(
    rt: &R,
    shared: &Shared<N>,
    player: &mut Player<N>,
) {
    let steps = player.steps;
    for what in steps {
        let is_so = step(rt, shared, player, *what);
        player.is_right = is_so && player.is_right;
    }
}

fn step<N: Name + Send + Sync, R: Threads + Wait + Sync>(
    rt: &R,
    shared: &Shared<N>,
    player: &mut Player<N>,
    what: Do,
) -> bool {
    match what {
        Do::Wait(before, act, due) => wait_behind(rt, shared, player, before, act, due),
        Do::WaitForBoth(one, other) => wait_for_both(rt, shared, player, one, other),
        Do::WaitInVain(before, refusal, left) => {
            wait_in_vain(rt, shared, player, before, refusal, left)
        }
        Do::Units(seen, due) => shared.wait_units(rt, seen) == due,
        Do::Unit(due) => next_number(&mut player.writer) == due,
        Do::UnitsUpTo(from, end) => takes_up_to(&mut player.writer, from, end),
        Do::Write(count) => writes(rt, shared, &mut player.writer, count),
        Do::Beats(count) => beats(rt, shared, player, count),
        Do::Starts(number, count) => starts(rt, shared, player, number, count),
        Do::ComesTo(entries) => comes_to(rt, shared, entries),
        Do::Pause(times) => pause(times),
        Do::Made(count) => player.pass.made() == count,
        Do::IsOnePart => player.pass.split().is_none(),
        Do::Consume(consumers) => consume(rt, shared, player, consumers),
        held => hold(rt, shared, player, held),
    }
}

/// The number of the next unit that the ring gives.
fn next_number<N: Name>(writer: &mut Option<WriterEnd<N>>) -> Option<u64> {
    match writer {
        Some(writer) => number_of_next(writer),
        None => None,
    }
}

fn number_of_next<N: Name>(writer: &mut WriterEnd<N>) -> Option<u64> {
    match writer.take() {
        Some(unit) => {
            let number = unit.number;
            drop(unit);
            Some(number)
        }
        None => None,
    }
}

fn takes_up_to<N: Name>(writer: &mut Option<WriterEnd<N>>, from: u64, end: u64) -> bool {
    for number in from..end {
        if next_number(writer) != Some(number) {
            return false;
        }
    }
    true
}

fn writes<N: Name, R: Wait>(
    rt: &R,
    shared: &Shared<N>,
    writer: &mut Option<WriterEnd<N>>,
    count: u64,
) -> bool {
    let mut taken = 0u64;
    for _ in 0..1_000_000u32 {
        if taken >= count {
            break;
        }
        match next_number(writer) {
            Some(number) if number == taken => taken = taken.saturating_add(1),
            Some(_) => return false,
            None => {
                let _ = shared.wait_units(rt, taken);
            }
        }
    }
    taken == count
}

fn beats<N: Name, R: Wait>(rt: &R, shared: &Shared<N>, player: &mut Player<N>, count: u32) -> bool {
    for _ in 0..count {
        if !hold(rt, shared, player, Do::Call(Act::Beat, Due::Done)) {
            return false;
        }
    }
    true
}

fn starts<N: Name, R: Wait>(
    rt: &R,
    shared: &Shared<N>,
    player: &mut Player<N>,
    number: u8,
    count: u8,
) -> bool {
    for turn in 0..count {
        let start = Act::Start(0, [number, turn]);
        if !hold(rt, shared, player, Do::Call(start, Due::Done)) {
            return false;
        }
    }
    true
}

/// Whether the journal comes to have so many entries.
pub(super) fn comes_to<N: Name, R: Wait>(rt: &R, shared: &Shared<N>, entries: usize) -> bool {
    for _ in 0..1_000_000u32 {
        if entries_of(rt, shared) >= entries {
            return true;
        }
        thread::yield_now();
    }
    false
}

fn entries_of<N: Name, R: Wait>(rt: &R, shared: &Shared<N>) -> usize {
    let guard = shared.lock(rt);
    let entries = guard.conn().logged().journal().len();
    drop(guard);
    entries
}

fn pause(times: u32) -> bool {
    for _ in 0..times {
        thread::yield_now();
    }
    true
}
