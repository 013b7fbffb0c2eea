//! One thread sends an end's messages, and learns what became of each.
ghost use Rattle.std.specs.Prelude.{◌<◌};

use crate::end::End;
use crate::ending::shut;
use crate::fault::PairFault;
use crate::gate::Gate;
use crate::keeping::make_room;
use crate::options::{MAX_FRAME, Options};
use crate::reading::LINK;
use amqp_frames::DeliveryState;
use amqp_journal::logged::Logged;
use amqp_journal::receipt::Receipt;
use amqp_policy::{has_more, part};
use amqp_rules::op::Op;
use amqp_rules::refusal::Refusal;
use amqp_rules::reply::Given;
use amqp_shared::{Guard, Name, Pass, Shared};
use amqp_types::Tag;
use bytes::Bytes;
use std::alloc::{AllocError, Global};
use std::sync::Wait;

/// The longest payload of one transfer: the rest of a frame is the transfer's own.
const MAX_PAYLOAD: usize = (MAX_FRAME - 128) as usize;

/// So many messages are begun, or learnt of, before others get the lock.
const RUN: u32 = 128;

/// So many octets are queued at most before others get the lock, or one message that is longer.
const RUN_OCTETS: usize = 65536;

/// What was sent and accepted.
#[derive(Clone, Copy)]
pub struct Done {
    /// How many messages were begun.
    pub queued: u64,
    /// How many of them were told to be accepted.
    pub accepted: u64,
}

/// What the sending thread starts with, and what it keeps.
#[derive(Drop)]
pub struct Hand<N: Name> {
    pub pass: Pass<N>,
    /// The receipt of each operation that was done, in their order; none where entries are forgotten.
    pub receipts: Option<Vec<Receipt>>,
}

impl<N: Name> Hand<N> {
    fn note(&mut self, receipt: Receipt) -> Result<(), AllocError> {
        match &mut self.receipts {
            Some(receipts) => Ok(receipts.push(receipt)?),
            None => Ok(()),
        }
    }
}

/// What the sending thread hands back.
pub type SendOutcome<N> = (Hand<N>, Result<Done, Refusal>);

/// Messages of one size.
#[derive(Drop)]
pub struct Messages {
    count: u32,
    first_id: u32,
    keep: Option<u32>,
    settled: bool,
    payload: Bytes,
}

impl Messages {
    /// As many as are asked for, each octet 78 hexadecimal.
    pub fn new(alloc: Global, options: &Options) -> Result<Messages, PairFault> {
        let Ok(octets) = vec![in alloc; 0x78u8; options.size as usize] else {
            return Err(PairFault::NoMemory);
        };
        match Bytes::from_vec(octets) {
            Ok(payload) => Ok(Messages {
                count: options.count,
                first_id: options.first_id,
                keep: options.keep,
                settled: options.settled,
                payload,
            }),
            Err(_) => Err(PairFault::NoMemory),
        }
    }

    /// How many entries of its journal the end that sends them keeps at most; none: all.
    pub fn keep(&self) -> Option<u32> {
        self.keep
    }

    /// Where their operations' receipts are put: nowhere where entries are forgotten, for which none stands.
    pub fn receipts(&self, alloc: Global) -> Option<Vec<Receipt>> {
        match self.keep {
            Some(_) => None,
            None => Some(Vec::new(alloc)),
        }
    }

    /// How many messages are begun under one lock.
    fn in_a_run(&self) -> u32
        ensures { 0 < result }
    {
        let few = RUN_OCTETS / self.payload.len().max(1);
        few.min(RUN as usize).max(1) as u32
    }

    /// How many transfers a message goes in.
    fn transfers(&self) -> usize
        ensures { 0 < result }
    {
        self.payload.len().div_ceil(MAX_PAYLOAD).max(1)
    }

    /// The operation of this number: the transfers of all messages, and then learning of each.
    fn operation(&self, number: usize) -> Result<Op, Refusal> {
        let (message, part) = (number / self.transfers(), number % self.transfers());
        if message >= self.count as usize {
            Ok(Op::Learn { link: LINK })
        } else if part == 0 {
            self.start(message as u32)
        } else {
            self.carry(part.saturating_mul(MAX_PAYLOAD))
        }
    }

    /// Of how many messages something is told, and learnt.
    fn told(&self) -> u32 {
        if self.settled { 0 } else { self.count }
    }

    /// How many operations send all messages, and learn of each of which something is told.
    fn operations(&self) -> usize {
        let transfers = self.transfers().saturating_mul(self.count as usize);
        transfers.saturating_add(self.told() as usize)
    }

    /// There is a receipt for each operation, and each stands in the journal for its own, at a later place than the one before; or receipts were
    /// put nowhere.
    pub fn stand(&self, logged: &Logged, receipts: &Option<Vec<Receipt>>) -> Result<bool, Refusal> {
        match receipts {
            Some(receipts) => self.all_stand(logged, receipts.as_slice()),
            None => Ok(true),
        }
    }

    fn all_stand(&self, logged: &Logged, receipts: &[Receipt]) -> Result<bool, Refusal> {
        if receipts.len() != self.operations() {
            return Ok(false);
        }
        let mut least = 0u64;
        for (number, receipt) in receipts.iter().enumerate() {
            if receipt.place < least || !self.stands_for(logged, number, receipt)? {
                return Ok(false);
            }
            least = receipt.place.saturating_add(1);
        }
        Ok(true)
    }

    /// The receipt stands in the journal for the operation of this number.
    fn stands_for(
        &self,
        logged: &Logged,
        number: usize,
        receipt: &Receipt,
    ) -> Result<bool, Refusal> {
        let operation = self.operation(number)?;
        let stands = logged.stands(&operation, receipt);
        drop(operation);
        Ok(stands)
    }

    /// The session has used an id for each message, and one for each transfer, from the first ones on (part 2, 2.5.6 and 2.8.9).
    pub fn are_numbered(&self, logged: &Logged) -> bool {
        let transfers = self.transfers().saturating_mul(self.count as usize);
        let windows = logged.endpoint().windows();
        is_past(windows.next_delivery, self.first_id, u64::from(self.count))
            && is_past(windows.next_out, self.first_id, transfers as u64)
    }

    /// The first transfer of the message of this number.
    fn start(&self, number: u32) -> Result<Op, Refusal> {
        let Some(tag) = Tag::new(&number.to_be_bytes()) else {
            return Err(Refusal::NotWritable);
        };
        Ok(Op::Start {
            link: LINK,
            tag,
            format: 0,
            settled: self.settled,
            payload: self.part(0)?,
            more: has_more(self.payload.len(), 0, MAX_PAYLOAD),
        })
    }

    /// The transfer of a message's payload from this place on.
    fn carry(&self, from: usize) -> Result<Op, Refusal> {
        Ok(Op::Carry {
            link: LINK,
            payload: self.part(from)?,
            more: has_more(self.payload.len(), from, MAX_PAYLOAD),
        })
    }

    /// What one transfer takes of the payload from this place on. It shares the payload's octets.
    fn part(&self, from: usize) -> Result<Bytes, Refusal> {
        match part(&self.payload, from, MAX_PAYLOAD) {
            Ok(part) => Ok(part),
            Err(_) => Err(Refusal::NoMemory),
        }
    }
}

/// The id comes so many behind the first one, on the circle of serial numbers (part 2, 2.8.10).
fn is_past(id: u32, first: u32, count: u64) -> bool {
    u64::from(id) == u64::from(first).saturating_add(count) % 4294967296
}

/// Sends the messages once the end is ready, learns of each that is not settled, and closes the connection, also at a refusal that no wait can end.
pub fn send_all<N: Name, R: Wait>(
    rt: &R,
    end: &End<N>,
    hand: Hand<N>,
    messages: &Messages,
    gate: &Gate,
) -> SendOutcome<N> {
    if !gate.is_ready(rt) {
        return (hand, Err(Refusal::NotRunning));
    }
    let mut hand = hand;
    let sent = send_and_learn(rt, end, &mut hand, messages);
    shut(rt, end);
    (hand, sent)
}

/// Where entries are forgotten it learns in between of what was told by then, so that what is told and not learnt of stays little; else behind all
/// messages, since the receipts of learning stand behind those of sending.
fn send_and_learn<N: Name, R: Wait>(
    rt: &R,
    end: &End<N>,
    hand: &mut Hand<N>,
    messages: &Messages,
) -> Result<Done, Refusal> {
    let run = messages.in_a_run();
    let (mut queued, mut learnt, mut accepted) = (0u64, 0u32, 0u64);
    for first in (0..messages.count).step_by(run as usize) {
        let past = first.saturating_add(run).min(messages.count);
        let told = send_run(rt, end, hand, messages, first, past)?;
        end.flush(rt);
        queued = queued.saturating_add(u64::from(past.saturating_sub(first)));
        learnt = learnt.saturating_add(told.learnt);
        accepted = accepted.saturating_add(told.accepted);
    }
    let rest = messages.told().saturating_sub(learnt);
    accepted = accepted.saturating_add(learn_outcomes(rt, end, hand, messages, rest)?);
    Ok(Done { queued, accepted })
}

/// Learns of so many messages: how many were accepted.
fn learn_outcomes<N: Name, R: Wait>(
    rt: &R,
    end: &End<N>,
    hand: &mut Hand<N>,
    messages: &Messages,
    count: u32,
) -> Result<u64, Refusal> {
    let mut accepted = 0u64;
    for first in (0..count).step_by(RUN as usize) {
        let run = count.saturating_sub(first).min(RUN);
        accepted = accepted.saturating_add(learn_run(rt, end, hand, messages, run)?);
    }
    Ok(accepted)
}

/// What was learnt of between messages.
#[derive(Clone, Copy)]
struct Told {
    learnt: u32,
    accepted: u64,
}

/// Queues the messages of these numbers, and learns of what was told by then where entries are forgotten, under one lock but for where it waits.
fn send_run<N: Name, R: Wait>(
    rt: &R,
    end: &End<N>,
    hand: &mut Hand<N>,
    messages: &Messages,
    first: u32,
    past: u32,
) -> Result<Told, Refusal> {
    let mut guard = end.shared.lock(rt);
    make_room(&end.shared, &mut guard, messages.keep);
    for number in first..past {
        guard = send_one(rt, end, guard, hand, messages, number)?;
    }
    match messages.keep {
        Some(_) => learn_told(&end.shared, &mut guard, hand),
        None => Ok(Told {
            learnt: 0,
            accepted: 0,
        }),
    }
}

/// Learns of all that was told by now.
fn learn_told<N: Name>(
    shared: &Shared<N>,
    guard: &mut Guard<'_, N>,
    hand: &mut Hand<N>,
) -> Result<Told, Refusal> {
    let (mut learnt, mut accepted) = (0u32, 0u64);
    for _ in 0..u64::MAX {
        match shared.call(guard, &mut hand.pass, &Op::Learn { link: LINK }) {
            Ok((_, given)) => {
                learnt = learnt.saturating_add(1);
                if is_accepted(&given) {
                    accepted = accepted.saturating_add(1);
                }
            }
            Err(Refusal::Nothing) => break,
            Err(refusal) => return Err(refusal),
        }
    }
    Ok(Told { learnt, accepted })
}

/// The message of this number: its tag is the number in four octets, and its payload is cut where it is longer than a transfer's may be.
fn send_one<'b, N: Name, R: Wait>(
    rt: &R,
    end: &'b End<N>,
    guard: Guard<'b, N>,
    hand: &mut Hand<N>,
    messages: &Messages,
    number: u32,
) -> Result<Guard<'b, N>, Refusal> {
    let size = messages.payload.len();
    let mut guard = send_part(rt, end, guard, hand, messages.start(number))?;
    for from in (MAX_PAYLOAD..size).step_by(MAX_PAYLOAD) {
        guard = send_part(rt, end, guard, hand, messages.carry(from))?;
    }
    Ok(guard)
}

/// One transfer of a message. The operation and what it gave are let go here.
fn send_part<'b, N: Name, R: Wait>(
    rt: &R,
    end: &'b End<N>,
    guard: Guard<'b, N>,
    hand: &mut Hand<N>,
    part: Result<Op, Refusal>,
) -> Result<Guard<'b, N>, Refusal> {
    match part {
        Ok(op) => {
            let called = call(rt, end, guard, hand, &op);
            drop(op);
            only_guard(called)
        }
        Err(refusal) => Err(refusal),
    }
}

/// The guard, without what was given.
fn only_guard<N: Name>(
    called: Result<(Guard<'_, N>, Given), Refusal>,
) -> Result<Guard<'_, N>, Refusal> {
    match called {
        Ok((guard, given)) => {
            drop(given);
            Ok(guard)
        }
        Err(refusal) => Err(refusal),
    }
}

/// Learns of so many messages, under one lock but for where it waits: how many were accepted.
fn learn_run<N: Name, R: Wait>(
    rt: &R,
    end: &End<N>,
    hand: &mut Hand<N>,
    messages: &Messages,
    count: u32,
) -> Result<u64, Refusal> {
    let mut guard = end.shared.lock(rt);
    make_room(&end.shared, &mut guard, messages.keep);
    let mut accepted = 0u64;
    for _ in 0..count {
        let more;
        (guard, more) = learn_one(rt, end, guard, hand)?;
        accepted = accepted.saturating_add(more);
    }
    Ok(accepted)
}

/// Learns of one message: one where it was accepted, or none.
fn learn_one<'b, N: Name, R: Wait>(
    rt: &R,
    end: &'b End<N>,
    guard: Guard<'b, N>,
    hand: &mut Hand<N>,
) -> Result<(Guard<'b, N>, u64), Refusal> {
    match call(rt, end, guard, hand, &Op::Learn { link: LINK }) {
        Ok((guard, given)) => {
            let accepted = if is_accepted(&given) { 1 } else { 0 };
            drop(given);
            Ok((guard, accepted))
        }
        Err(refusal) => Err(refusal),
    }
}

fn call<'b, N: Name, R: Wait>(
    rt: &R,
    end: &'b End<N>,
    guard: Guard<'b, N>,
    hand: &mut Hand<N>,
    op: &Op,
) -> Result<(Guard<'b, N>, Given), Refusal> {
    let (guard, answer) = call_at_once_or_later(rt, end, guard, &mut hand.pass, op);
    match answer {
        Ok((receipt, given)) => match hand.note(receipt) {
            Ok(()) => Ok((guard, given)),
            Err(_) => Err(Refusal::NoMemory),
        },
        Err(refusal) => Err(refusal),
    }
}

/// Does the operation. Where it has to wait for it, it first gives the lock back and writes what it has put out.
fn call_at_once_or_later<'b, N: Name, R: Wait>(
    rt: &R,
    end: &'b End<N>,
    guard: Guard<'b, N>,
    pass: &mut Pass<N>,
    op: &Op,
) -> (Guard<'b, N>, Result<(Receipt, Given), Refusal>) {
    let mut guard = guard;
    match end.shared.call(&mut guard, pass, op) {
        Err(Refusal::NoCredit | Refusal::NoWindow | Refusal::Nothing) => {
            drop(guard);
            end.flush(rt);
            end.shared.call_wait(rt, end.shared.lock(rt), pass, op)
        }
        answer => (guard, answer),
    }
}

fn is_accepted(given: &Given) -> bool {
    match given {
        Given::Learned(learned) => match &learned.get().state {
            Some(DeliveryState::Accepted) => true,
            _ => false,
        },
        _ => false,
    }
}
