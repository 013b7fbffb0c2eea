//! A slot of the table, with its stage.
ghost use Rattle.std.specs.Prelude.{◌≡◌, ◌≢◌, [], None, Some, Ok, IfSome};
ghost use Rattle.amqp_ready.specs.Answering.{fresh};
ghost use Rattle.amqp_ready.specs.Seating.{IsOver, IsTicked, IsTold, Turns, Worked, fault_of, late, lost, parts_of};
ghost use Rattle.amqp_ready.specs.Serving.{fault_in};
ghost use Rattle.amqp_ready.specs.Slotting.{Serves};

use crate::device::NonBlocking;
use crate::fault::SlotFault;
use crate::handler::Handler;
use crate::inbox::Inbox;
use crate::sending::Flushed;
use crate::slot::{Served, Slot};
use crate::times::{Due, Limits, Seen, Span, Times, span_of};
use amqp_conn::{Conn, ConnFault, Op};
use std::alloc::Global;

/// The stage of a slot.
#[derive(Clone, Copy, Debug, PartialEq, Eq)]
pub enum Stage {
    /// It works.
    Works,
    /// It ends by this fault once what its connection put out is written, its close included.
    Leaves(SlotFault),
    /// It has ended: with its connection, or by this fault.
    Over(Option<SlotFault>),
}

/// What a turn of a slot in the table resulted in.
#[derive(Clone, Copy, Debug, PartialEq, Eq)]
pub enum Turned {
    /// No slot that still goes on has this key.
    Absent,
    /// The slot waits for its stream.
    Waits,
    /// The slot has more to do at once.
    Again,
    /// Memory was refused: nothing is lost, and a later turn goes on.
    NoRoom,
    /// The slot has ended.
    Over,
}

/// What is left of a slot that has ended.
#[derive(Drop)]
pub struct Ended<S, H> {
    /// The key that it had.
    pub key: usize,
    pub stream: S,
    /// The connection, whose octets have ended (`Conn::lost`): what its links left can be popped.
    pub conn: Conn,
    pub handler: H,
    /// The fault that ended the slot; `None` if the connection ended in the regular way.
    pub fault: Option<SlotFault>,
}

/// A slot with its stage.
#[derive(Drop)]
pub(crate) struct Seat<S, H> {
    pub slot: Slot<S, H>,
    pub stage: Stage,
    /// Whether its key is in the queue of slots that are due.
    pub is_due: bool,
    /// When it was seen to do something; `None` before the first check of the clock.
    pub times: Option<Times>,
    /// The slot that ended before it, of those that were not taken out.
    pub before: Option<usize>,
}

/// A refusal of memory ends no slot: a later turn goes on.
fn stage_after(answer: Result<Served, SlotFault>) -> Stage
    ensures told { IsTold (fault_in answer) result }
    ensures done { result ≡ Stage.Over None → answer ≡ Ok Served.Ended }
{
    match answer {
        Ok(Served::Ended) => Stage::Over(None),
        Ok(Served::Waits) | Ok(Served::Again) | Ok(Served::NoRoom) => Stage::Works,
        Err(SlotFault::Conn(ConnFault::NoMemory)) => Stage::Works,
        Err(fault) => Stage::Leaves(fault),
    }
}

/// After a fault, what was put out is still to be written.
fn turned_after(stage: Stage, answer: Result<Served, SlotFault>) -> Turned
    ensures { result ≡ Turned.Over → IsOver stage }
{
    match stage {
        Stage::Over(_) => Turned::Over,
        Stage::Leaves(_) => Turned::Again,
        Stage::Works => goes_on(answer),
    }
}

fn goes_on(answer: Result<Served, SlotFault>) -> Turned
    ensures { result ≢ Turned.Over }
{
    match answer {
        Ok(Served::Waits) => Turned::Waits,
        Ok(Served::Again) => Turned::Again,
        _ => Turned::NoRoom,
    }
}

fn stage_left(answer: Result<Flushed, SlotFault>, fault: SlotFault) -> Stage
    ensures { fault_of result ≡ Some fault }
{
    match answer {
        Ok(Flushed::Behind) | Ok(Flushed::More) => Stage::Leaves(fault),
        Ok(Flushed::All) | Err(_) => Stage::Over(Some(fault)),
    }
}

fn turned_left(stage: Stage, answer: Result<Flushed, SlotFault>) -> Turned
    ensures { result ≡ Turned.Over → IsOver stage }
{
    match stage {
        Stage::Over(_) => Turned::Over,
        Stage::Works | Stage::Leaves(_) => writes_on(answer),
    }
}

fn writes_on(answer: Result<Flushed, SlotFault>) -> Turned
    ensures { result ≢ Turned.Over }
{
    match answer {
        Ok(Flushed::More) => Turned::Again,
        _ => Turned::Waits,
    }
}

/// Returns the next stage of a slot that has taken too long.
fn late(stage: Stage) -> Stage
    ensures { result ≡ late stage }
{
    match stage {
        Stage::Works => Stage::Leaves(SlotFault::TimedOut),
        Stage::Leaves(fault) => Stage::Over(Some(fault)),
        Stage::Over(fault) => Stage::Over(fault),
    }
}

impl<S: NonBlocking, H: Handler> Seat<S, H> {
    pub(crate) fn new(alloc: Global, stream: S, conn: Conn, handler: H) -> Seat<S, H>
        ensures stage { result.stage ≡ Stage.Works }
        ensures unfed { result.slot.unfed ≡ [] }
        ensures outbox { result.slot.outbox ≡ [] }
        ensures conn { result.slot.lent.conn ≡ conn }
        ensures stream { result.slot.stream ≡ stream }
        ensures handler { result.slot.handler ≡ handler }
        ensures answers { result.slot.answers ≡ fresh }
    {
        Seat {
            slot: Slot::new(alloc, stream, conn, handler),
            stage: Stage::Works,
            is_due: false,
            times: None,
            before: None,
        }
    }

    pub(crate) fn turn(&mut self, inbox: &mut Inbox) -> Turned
        ensures turns { Turns self.old.stage self.new.stage (parts_of S.remaining S.written S.failed H.told self.old.slot) (parts_of S.remaining S.written S.failed H.told self.new.slot) }
        ensures over { result ≡ Turned.Over → IsOver self.new.stage }
    {
        match self.stage {
            Stage::Works => self.work(inbox),
            Stage::Leaves(fault) => self.leave(fault),
            Stage::Over(_) => Turned::Absent,
        }
    }

    fn work(&mut self, inbox: &mut Inbox) -> Turned
        ensures turns { Worked self.new.stage (parts_of S.remaining S.written S.failed H.told self.old.slot) (parts_of S.remaining S.written S.failed H.told self.new.slot) }
        ensures over { result ≡ Turned.Over → IsOver self.new.stage }
    {
        let answer = self.slot.serve(inbox);
        self.slot.rest_room(inbox);
        self.stage = stage_after(answer);
        turned_after(self.stage, answer)
    }

    fn leave(&mut self, fault: SlotFault) -> Turned
        ensures turns { Turns (Stage.Leaves fault) self.new.stage (parts_of S.remaining S.written S.failed H.told self.old.slot) (parts_of S.remaining S.written S.failed H.told self.new.slot) }
        ensures over { result ≡ Turned.Over → IsOver self.new.stage }
    {
        let answer = self.slot.flush();
        self.stage = stage_left(answer, fault);
        turned_left(self.stage, answer)
    }

    fn seen(&self) -> Seen {
        let conn = self.slot.conn();
        let span = match self.stage {
            Stage::Works => span_of(conn),
            Stage::Leaves(_) | Stage::Over(_) => Span::End,
        };
        Seen {
            span,
            reads: self.slot.reads(),
            put_out: conn.logged().put_out(),
        }
    }

    /// Checks the time limits, and returns what they ask for now.
    pub(crate) fn look(&mut self, limits: Limits, now: u64) -> Due
        ensures slot { self.new.slot ≡ self.old.slot }
        ensures stage { self.new.stage ≡ self.old.stage }
    {
        let seen = self.seen();
        let times = match self.times {
            Some(times) => times.next(seen, now),
            None => Times::new(seen, now),
        };
        self.times = Some(times);
        times.due(self.slot.conn(), limits, now)
    }

    /// Returns the moment at which the time limits ask for something next, if nothing happens before; `None` once it
    /// has ended.
    pub(crate) fn deadline(&self, limits: Limits) -> Option<u64> {
        match (self.stage, self.times) {
            (Stage::Works | Stage::Leaves(_), Some(times)) => {
                Some(times.deadline(self.slot.conn(), limits))
            }
            _ => None,
        }
    }

    /// Does what the time limits ask for; returns whether that has ended it.
    pub(crate) fn act(&mut self, due: Due) -> bool
        ensures stage { IsTicked self.old.stage self.new.stage }
        ensures lent { Serves None (parts_of S.remaining S.written S.failed H.told self.old.slot) (parts_of S.remaining S.written S.failed H.told self.new.slot) }
    {
        match due {
            Due::Nothing => false,
            Due::Beat => self.beat(),
            Due::End => self.time_out(),
        }
    }

    fn beat(&mut self) -> bool
        ensures stage { self.new.stage ≡ self.old.stage }
        ensures lent { Serves None (parts_of S.remaining S.written S.failed H.told self.old.slot) (parts_of S.remaining S.written S.failed H.told self.new.slot) }
    {
        let _ = self.slot.perform(Op::Beat);
        false
    }

    /// A slot that has taken too long closes its connection, and ends once that is written; one that leaves already
    /// ends at once.
    fn time_out(&mut self) -> bool
        ensures stage { self.new.stage ≡ late self.old.stage }
        ensures lent { Serves None (parts_of S.remaining S.written S.failed H.told self.old.slot) (parts_of S.remaining S.written S.failed H.told self.new.slot) }
    {
        let leaves = matches!(self.stage, Stage::Leaves(_));
        self.stage = late(self.stage);
        let _ = self.slot.close();
        leaves
    }

    /// Marks the slot as due; returns `false` if it was due already, or has ended.
    pub(crate) fn becomes_due(&mut self) -> bool
        ensures slot { self.new.slot ≡ self.old.slot }
        ensures stage { self.new.stage ≡ self.old.stage }
    {
        if self.is_due || matches!(self.stage, Stage::Over(_)) {
            return false;
        }
        self.is_due = true;
        true
    }

    /// Returns why it has ended, if it has, and which slot ended before it.
    pub(crate) fn ending(&self) -> Option<(Option<SlotFault>, Option<usize>)>
        ensures { IfSome result (λ r. self.now.stage ≡ Stage.Over r.0) }
    {
        match self.stage {
            Stage::Over(fault) => Some((fault, self.before)),
            Stage::Works | Stage::Leaves(_) => None,
        }
    }

    pub(crate) fn into_ended(self, key: usize, fault: Option<SlotFault>) -> Ended<S, H>
        ensures key { result.key ≡ key }
        ensures fault { result.fault ≡ fault }
        ensures stream { result.stream ≡ self.slot.stream }
        ensures conn { result.conn ≡ lost self.slot.lent.conn }
        ensures handler { result.handler ≡ self.slot.handler }
    {
        let (stream, mut conn, handler) = self.slot.into_parts();
        conn.lost();
        Ended {
            key,
            stream,
            conn,
            handler,
            fault,
        }
    }
}
