//! A connection with its stream.
ghost use Rattle.std.specs.Prelude.{◌≡◌, ◌≢◌, ◌≤◌, ◌<◌, ◌⊎◌, ℕ, List, [], Bool, Ok, None, IfOk, IfErr, OnErr, length};
ghost use Rattle.std.specs.Bool.{OnFalse, OnTrue};
ghost use Rattle.std.specs.Io.KnownBytes.{IsAtEnd};
ghost use Rattle.amqp_conn.specs.Calling.{Closes, Performs};
ghost use Rattle.amqp_conn.specs.Pumping.{AllWent, OnlyWrote};
ghost use Rattle.amqp_ready.specs.Answering.{added, fresh, unsent, with_most, written};
ghost use Rattle.amqp_ready.specs.Failing.{Stays, TellsFailure};
ghost use Rattle.amqp_ready.specs.Moving.{count};
ghost use Rattle.amqp_ready.specs.Reading.{Brings, CountsFailure};
ghost use Rattle.amqp_ready.specs.Serving.{fault_in, IsNoFeeds};
ghost use Rattle.amqp_ready.specs.Slotting.{parts, Sent, Serves};

use crate::answers::Answers;
use crate::device::{Moved, NonBlocking};
use crate::fault::SlotFault;
use crate::feeding::feed;
use crate::handler::{Handler, Next};
use crate::inbox::{Inbox, ReadFault, Unfed};
use crate::lent::Lent;
use crate::outbox::Outbox;
use crate::sending::{Flushed, flush};
use amqp_conn::{CloseRefusal, Conn, Op, Phase, Refusal};
use std::alloc::Global;

/// What a read brought, if it did not fail.
#[derive(Clone, Copy, Debug, PartialEq, Eq)]
pub enum Brought {
    Octets(usize),
    /// The input has ended.
    End,
    /// Nothing, since the stream would wait.
    Waits,
    /// Nothing was read: octets are not fed yet, or too many answers wait (`Slot::hold_at`).
    Held,
    /// Nothing was read: memory to read to was refused.
    NoRoom,
    /// Nothing was read yet: the handler asked to write first.
    Later,
}

/// What a turn of a slot resulted in.
#[derive(Clone, Copy, Debug, PartialEq, Eq)]
pub enum Served {
    /// The slot waits for its stream.
    Waits,
    /// There is more to do at once.
    Again,
    /// Memory was refused: nothing is lost, and a later turn goes on.
    NoRoom,
    /// The connection has ended, and all is written.
    Ended,
}

/// A connection with its stream and its handler.
///
/// What a peer can make a slot keep is bounded: at most one room (262144 octets) of octets that were read and not
/// fed; and of octets that were put out while what was read was fed, and are not written, twice as many as `hold_at`
/// sets, plus the answers to two more reads. The program itself has to bound what its handler puts out in
/// `Handler::go_on`, and what it puts out by `perform`: `unsent` returns how much waits.
#[derive(Drop)]
pub struct Slot<S, H> {
    stream: S,
    lent: Lent,
    handler: H,
    outbox: Outbox,
    unfed: Unfed,
    answers: Answers,
    /// How many reads brought octets.
    reads: u64,
}

fn as_brought(answer: Result<Moved, ReadFault>) -> Result<Brought, SlotFault>
    ensures fault { IsNoFeeds (fault_in result) }
    ensures held { result ≢ Ok Brought.Held }
    ensures end { result ≡ Ok Brought.End → answer ≡ Ok (Moved.Octets 0) }
    ensures brings { (x : List ℕ) → IfOk answer (λ moved. length x ≡ count moved) → OnErr answer (x ≡ []) → IfOk result (λ b. Brings b x) }
    ensures told { IfErr result (λ e. e ≡ SlotFault.Read) }
    ensures fails { (a b : Bool) → CountsFailure answer a b → TellsFailure (fault_in result) a b }
{
    match answer {
        Ok(Moved::Octets(0)) => Ok(Brought::End),
        Ok(Moved::Octets(count)) => Ok(Brought::Octets(count)),
        Ok(Moved::Waits) => Ok(Brought::Waits),
        Err(ReadFault::NoMemory) => Ok(Brought::NoRoom),
        Err(ReadFault::Failed) => Err(SlotFault::Read),
    }
}

impl<S: NonBlocking, H: Handler> Slot<S, H> {
    /// Returns a slot of which nothing was read or written yet.
    pub fn new(alloc: Global, stream: S, conn: Conn, handler: H) -> Slot<S, H>
        ensures unfed { result.unfed ≡ [] }
        ensures outbox { result.outbox ≡ [] }
        ensures conn { result.lent ≡ record { conn = conn } }
        ensures stream { result.stream ≡ stream }
        ensures handler { result.handler ≡ handler }
        ensures answers { result.answers ≡ fresh }
    {
        Slot {
            stream,
            lent: Lent::new(conn),
            handler,
            outbox: Outbox::new(alloc),
            unfed: Unfed::new(alloc),
            answers: Answers::new(),
            reads: 0,
        }
    }

    /// Sets at how many octets the slot stops to read: while at least `octets` octets that were put out for what was
    /// read are counted as not written, nothing more is read. The default is 1048576 ([`ANSWERS`](crate::ANSWERS));
    /// at 0 the slot never reads. So a peer that sends and never reads is held back.
    ///
    /// The number has to be larger than what `Handler::take` puts out for all that the peer may send before it reads
    /// again: if that is a disposition and a flow for each message, 128 octets for each message of the peer's credit.
    /// Otherwise two ends that both send may wait for each other to read.
    pub fn hold_at(&mut self, octets: u64)
        ensures { self.new ≡ record self.old { answers = with_most octets self.old.answers } }
    {
        self.answers.most = octets;
    }

    /// Returns how many octets are not written, at most `u64::MAX`: those of units that wait in the connection, and
    /// those of units that were popped.
    pub fn unsent(&self) -> u64
        ensures { result ≡ unsent self.now.lent.conn self.now.outbox }
    {
        let waiting = self.lent.conn.logged().waiting_octets() as u128;
        waiting
            .saturating_add(self.outbox.len())
            .min(u64::MAX as u128) as u64
    }

    /// Returns how many reads brought octets.
    pub(crate) fn reads(&self) -> u64 {
        self.reads
    }

    /// Returns the connection, for reading.
    pub fn conn(&self) -> &Conn
        ensures { result.now ≡ self.now.lent.conn }
    {
        self.lent.conn()
    }

    /// Returns the handler, for reading.
    pub fn handler(&self) -> &H
        ensures { result.now ≡ self.now.handler }
    {
        &self.handler
    }

    /// Returns the handler, for changes.
    pub fn handler_mut(&mut self) -> &mut H {
        &mut self.handler
    }

    /// Returns the stream, for reading.
    pub fn stream(&self) -> &S
        ensures { result.now ≡ self.now.stream }
    {
        &self.stream
    }

    /// Returns the stream; the caller must not read or write it.
    pub(crate) fn stream_mut(&mut self) -> &mut S {
        &mut self.stream
    }

    /// Returns how many octets were read and not fed.
    pub fn unfed(&self) -> usize
        ensures { result ≡ length self.now.unfed }
    {
        self.unfed.octets().len()
    }

    /// Writes what was put out, as far as the stream takes it.
    ///
    /// # Errors
    ///
    /// [`SlotFault::Write`] if the stream failed.
    pub fn flush(&mut self) -> Result<Flushed, SlotFault>
        ensures serves { Serves (fault_in result) (parts (S.remaining self.old.stream) self.old.unfed self.old.lent.conn (H.told self.old.handler) self.old.outbox (S.written self.old.stream) (S.failed self.old.stream)) (parts (S.remaining self.new.stream) self.new.unfed self.new.lent.conn (H.told self.new.handler) self.new.outbox (S.written self.new.stream) (S.failed self.new.stream)) }
        ensures went { result ≡ Ok Flushed.All → AllWent self.new.lent.conn }
        ensures empty { result ≡ Ok Flushed.All → self.new.outbox ≡ [] }
        ensures kept { self.new.unfed ≡ self.old.unfed }
        ensures told { IfErr result (λ e. e ≡ SlotFault.Write) }
        ensures answers { self.new.answers ≡ written (unsent self.old.lent.conn self.old.outbox) (unsent self.new.lent.conn self.new.outbox) self.old.answers }
        ensures reads { self.new.reads ≡ self.old.reads }
    {
        let before = self.unsent();
        let answer = flush(&mut self.outbox, &mut self.lent.conn, &mut self.stream);
        let left = self.unsent();
        self.answers.take_off(before, left);
        match answer {
            Ok(flushed) => Ok(flushed),
            Err(_) => Err(SlotFault::Write),
        }
    }

    /// What a feed puts out counts as answers (`hold_at`).
    fn feed(&mut self) -> Result<Next, SlotFault>
        ensures serves { Serves (fault_in result) (parts (S.remaining self.old.stream) self.old.unfed self.old.lent.conn (H.told self.old.handler) self.old.outbox (S.written self.old.stream) (S.failed self.old.stream)) (parts (S.remaining self.new.stream) self.new.unfed self.new.lent.conn (H.told self.new.handler) self.new.outbox (S.written self.new.stream) (S.failed self.new.stream)) }
        ensures answers { self.new.answers ≡ added (unsent self.old.lent.conn self.old.outbox) (unsent self.new.lent.conn self.new.outbox) self.old.answers }
    {
        let before = self.unsent();
        let answer = feed(&mut self.lent, &mut self.handler, &mut self.unfed);
        let after = self.unsent();
        self.answers.add(before, after);
        answer
    }

    fn is_held(&self) -> bool
        ensures held { OnTrue result ((self.now.unfed ≢ []) ⊎ (self.now.answers.most ≤ self.now.answers.since)) }
        ensures none { OnFalse result (self.now.unfed ≡ []) }
        ensures few { OnFalse result (self.now.answers.since < self.now.answers.most) }
    {
        if !self.unfed.is_empty() {
            return true;
        }
        self.answers.are_many()
    }

    /// Reads once if all that was read is fed and the slot does not hold (`hold_at`). Does not feed what it reads.
    ///
    /// # Errors
    ///
    /// [`SlotFault::Read`] if the stream failed.
    pub fn read(&mut self, inbox: &mut Inbox) -> Result<Brought, SlotFault>
        ensures serves { Serves (fault_in result) (parts (S.remaining self.old.stream) self.old.unfed self.old.lent.conn (H.told self.old.handler) self.old.outbox (S.written self.old.stream) (S.failed self.old.stream)) (parts (S.remaining self.new.stream) self.new.unfed self.new.lent.conn (H.told self.new.handler) self.new.outbox (S.written self.new.stream) (S.failed self.new.stream)) }
        ensures limit { self.old.answers.most ≤ self.old.answers.since → self.new ≡ self.old }
        ensures rest { self.old.unfed ≢ [] → self.new ≡ self.old }
        ensures held { result ≡ Ok Brought.Held → (self.old.unfed ≢ []) ⊎ (self.old.answers.most ≤ self.old.answers.since) }
        ensures answers { self.new.answers ≡ self.old.answers }
        ensures reads { self.new.reads ≡ self.old.reads }
        ensures brings { IfOk result (λ b. Brings b self.new.unfed) }
        ensures fault { IsNoFeeds (fault_in result) }
        ensures told { IfErr result (λ e. e ≡ SlotFault.Read) }
        ensures end { result ≡ Ok Brought.End → IsAtEnd (S.remaining self.new.stream) }
    {
        if self.is_held() {
            return Ok(Brought::Held);
        }
        as_brought(self.unfed.read(inbox, &mut self.stream))
    }

    fn begin(&mut self) -> Result<Next, SlotFault>
        ensures { Serves (fault_in result) (parts (S.remaining self.old.stream) self.old.unfed self.old.lent.conn (H.told self.old.handler) self.old.outbox (S.written self.old.stream) (S.failed self.old.stream)) (parts (S.remaining self.new.stream) self.new.unfed self.new.lent.conn (H.told self.new.handler) self.new.outbox (S.written self.new.stream) (S.failed self.new.stream)) }
    {
        match self.flush() {
            Ok(_) => self.feed(),
            Err(fault) => Err(fault),
        }
    }

    /// The end of the input is a fault unless the connection has ended before.
    fn at_end(&self) -> Result<Brought, SlotFault>
        ensures fault { IsNoFeeds (fault_in result) }
        ensures told { IfErr result (λ e. e ≡ SlotFault.EndOfInput) }
    {
        if self.lent.conn.phase() == Phase::Closed {
            return Ok(Brought::End);
        }
        Err(SlotFault::EndOfInput)
    }

    fn feed_those(&mut self, count: usize) -> Result<Brought, SlotFault>
        ensures { Serves (fault_in result) (parts (S.remaining self.old.stream) self.old.unfed self.old.lent.conn (H.told self.old.handler) self.old.outbox (S.written self.old.stream) (S.failed self.old.stream)) (parts (S.remaining self.new.stream) self.new.unfed self.new.lent.conn (H.told self.new.handler) self.new.outbox (S.written self.new.stream) (S.failed self.new.stream)) }
    {
        self.reads = self.reads.wrapping_add(1);
        match self.feed() {
            Ok(_) => Ok(Brought::Octets(count)),
            Err(fault) => Err(fault),
        }
    }

    fn bring(&mut self, inbox: &mut Inbox) -> Result<Brought, SlotFault>
        ensures { Serves (fault_in result) (parts (S.remaining self.old.stream) self.old.unfed self.old.lent.conn (H.told self.old.handler) self.old.outbox (S.written self.old.stream) (S.failed self.old.stream)) (parts (S.remaining self.new.stream) self.new.unfed self.new.lent.conn (H.told self.new.handler) self.new.outbox (S.written self.new.stream) (S.failed self.new.stream)) }
    {
        match self.read(inbox) {
            Ok(Brought::Octets(count)) => self.feed_those(count),
            Ok(Brought::End) => self.at_end(),
            Ok(Brought::Waits) => Ok(Brought::Waits),
            Ok(Brought::Held) => Ok(Brought::Held),
            Ok(Brought::NoRoom) => Ok(Brought::NoRoom),
            Ok(Brought::Later) => Ok(Brought::Later),
            Err(fault) => Err(fault),
        }
    }

    fn work(&mut self, inbox: &mut Inbox) -> Result<Brought, SlotFault>
        ensures { Serves (fault_in result) (parts (S.remaining self.old.stream) self.old.unfed self.old.lent.conn (H.told self.old.handler) self.old.outbox (S.written self.old.stream) (S.failed self.old.stream)) (parts (S.remaining self.new.stream) self.new.unfed self.new.lent.conn (H.told self.new.handler) self.new.outbox (S.written self.new.stream) (S.failed self.new.stream)) }
    {
        match self.begin() {
            Ok(Next::Feed) => self.bring(inbox),
            Ok(Next::Write) => Ok(Brought::Later),
            Err(fault) => Err(fault),
        }
    }

    fn next(&self, more: bool) -> Served
        ensures { result ≡ Served.Ended → self.now.lent.conn.core.phase ≡ Phase.Closed }
    {
        if self.lent.conn.phase() == Phase::Closed {
            return Served::Ended;
        }
        if more || !self.unfed.is_empty() {
            return Served::Again;
        }
        Served::Waits
    }

    fn write_out(&mut self, more: bool) -> Result<Served, SlotFault>
        ensures serves { Serves (fault_in result) (parts (S.remaining self.old.stream) self.old.unfed self.old.lent.conn (H.told self.old.handler) self.old.outbox (S.written self.old.stream) (S.failed self.old.stream)) (parts (S.remaining self.new.stream) self.new.unfed self.new.lent.conn (H.told self.new.handler) self.new.outbox (S.written self.new.stream) (S.failed self.new.stream)) }
        ensures ended { result ≡ Ok Served.Ended → (self.new.lent.conn.core.phase ≡ Phase.Closed) × AllWent self.new.lent.conn × (self.new.outbox ≡ []) }
    {
        match self.flush() {
            Ok(Flushed::All) => Ok(self.next(more)),
            Ok(Flushed::Behind) => Ok(Served::Waits),
            Ok(Flushed::More) => Ok(Served::Again),
            Err(fault) => Err(fault),
        }
    }

    fn finish(&mut self) -> Result<Served, SlotFault>
        ensures serves { Serves (fault_in result) (parts (S.remaining self.old.stream) self.old.unfed self.old.lent.conn (H.told self.old.handler) self.old.outbox (S.written self.old.stream) (S.failed self.old.stream)) (parts (S.remaining self.new.stream) self.new.unfed self.new.lent.conn (H.told self.new.handler) self.new.outbox (S.written self.new.stream) (S.failed self.new.stream)) }
        ensures ended { result ≡ Ok Served.Ended → (self.new.lent.conn.core.phase ≡ Phase.Closed) × AllWent self.new.lent.conn × (self.new.outbox ≡ []) }
    {
        match self.handler.go_on(&mut self.lent) {
            Ok(more) => self.write_out(more),
            Err(refusal) => Err(SlotFault::Refused(refusal)),
        }
    }

    fn turn(&mut self, inbox: &mut Inbox) -> Result<Served, SlotFault>
        ensures serves { Serves (fault_in result) (parts (S.remaining self.old.stream) self.old.unfed self.old.lent.conn (H.told self.old.handler) self.old.outbox (S.written self.old.stream) (S.failed self.old.stream)) (parts (S.remaining self.new.stream) self.new.unfed self.new.lent.conn (H.told self.new.handler) self.new.outbox (S.written self.new.stream) (S.failed self.new.stream)) }
        ensures ended { result ≡ Ok Served.Ended → (self.new.lent.conn.core.phase ≡ Phase.Closed) × AllWent self.new.lent.conn × (self.new.outbox ≡ []) }
    {
        match self.work(inbox) {
            Ok(brought) => self.finish_after(brought),
            Err(fault) => Err(fault),
        }
    }

    fn finish_after(&mut self, brought: Brought) -> Result<Served, SlotFault>
        ensures serves { Serves (fault_in result) (parts (S.remaining self.old.stream) self.old.unfed self.old.lent.conn (H.told self.old.handler) self.old.outbox (S.written self.old.stream) (S.failed self.old.stream)) (parts (S.remaining self.new.stream) self.new.unfed self.new.lent.conn (H.told self.new.handler) self.new.outbox (S.written self.new.stream) (S.failed self.new.stream)) }
        ensures ended { result ≡ Ok Served.Ended → (self.new.lent.conn.core.phase ≡ Phase.Closed) × AllWent self.new.lent.conn × (self.new.outbox ≡ []) }
    {
        match self.finish() {
            Ok(served) => Ok(after(served, brought, self.is_held())),
            Err(fault) => Err(fault),
        }
    }

    /// Serves the slot for one turn: writes what was put out, feeds what was read before, reads once and feeds that,
    /// lets the handler go on, and writes what that put out, as far as the stream takes it.
    ///
    /// # Errors
    ///
    /// The fault by which the slot ends. What was put out, the close of the connection included, was then written as
    /// far as the stream takes it; `flush` goes on with the rest. `Conn(NoMemory)` has lost nothing: the same call
    /// goes on.
    pub fn serve(&mut self, inbox: &mut Inbox) -> Result<Served, SlotFault>
        ensures serves { Serves (fault_in result) (parts (S.remaining self.old.stream) self.old.unfed self.old.lent.conn (H.told self.old.handler) self.old.outbox (S.written self.old.stream) (S.failed self.old.stream)) (parts (S.remaining self.new.stream) self.new.unfed self.new.lent.conn (H.told self.new.handler) self.new.outbox (S.written self.new.stream) (S.failed self.new.stream)) }
        ensures ended { result ≡ Ok Served.Ended → (self.new.lent.conn.core.phase ≡ Phase.Closed) × AllWent self.new.lent.conn × (self.new.outbox ≡ []) }
    {
        match self.turn(inbox) {
            Ok(served) => Ok(served),
            Err(fault) => Err(self.last_words(fault)),
        }
    }

    fn last_words(&mut self, fault: SlotFault) -> SlotFault
        ensures same { result ≡ fault }
        ensures sent { Sent self.old.lent.conn self.new.lent.conn self.old.outbox self.new.outbox (S.written self.old.stream) (S.written self.new.stream) }
        ensures only { OnlyWrote self.old.lent.conn self.new.lent.conn }
        ensures remaining { S.remaining self.new.stream ≡ S.remaining self.old.stream }
        ensures failed { Stays (S.failed self.old.stream) (S.failed self.new.stream) }
        ensures unfed { self.new.unfed ≡ self.old.unfed }
        ensures handler { self.new.handler ≡ self.old.handler }
        ensures answers { self.new.answers ≡ written (unsent self.old.lent.conn self.old.outbox) (unsent self.new.lent.conn self.new.outbox) self.old.answers }
    {
        let before = self.unsent();
        let _ = flush(&mut self.outbox, &mut self.lent.conn, &mut self.stream);
        let left = self.unsent();
        self.answers.take_off(before, left);
        fault
    }

    /// Closes the connection without an error, as `Conn::close`.
    ///
    /// # Errors
    ///
    /// Those of `Conn::close`: nothing has changed then.
    pub fn close(&mut self) -> Result<(), CloseRefusal>
        ensures closes { Closes self.old.lent.conn.core None result self.new.lent.conn.core }
        ensures answers { self.new.answers ≡ self.old.answers }
        ensures reads { self.new.reads ≡ self.old.reads }
        ensures serves { Serves None (parts (S.remaining self.old.stream) self.old.unfed self.old.lent.conn (H.told self.old.handler) self.old.outbox (S.written self.old.stream) (S.failed self.old.stream)) (parts (S.remaining self.new.stream) self.new.unfed self.new.lent.conn (H.told self.new.handler) self.new.outbox (S.written self.new.stream) (S.failed self.new.stream)) }
    {
        self.lent.close(None)
    }

    /// Performs an operation, as [`Lent::perform`]: the next turn writes what it puts out.
    ///
    /// # Errors
    ///
    /// Those of `Conn::apply`: nothing has changed then.
    pub fn perform(&mut self, op: Op) -> Result<(), Refusal>
        ensures performs { Performs self.old.lent.conn.core op result self.new.lent.conn.core }
        ensures answers { self.new.answers ≡ self.old.answers }
        ensures reads { self.new.reads ≡ self.old.reads }
        ensures serves { Serves None (parts (S.remaining self.old.stream) self.old.unfed self.old.lent.conn (H.told self.old.handler) self.old.outbox (S.written self.old.stream) (S.failed self.old.stream)) (parts (S.remaining self.new.stream) self.new.unfed self.new.lent.conn (H.told self.new.handler) self.new.outbox (S.written self.new.stream) (S.failed self.new.stream)) }
    {
        self.lent.perform(op)
    }

    /// Takes the slot apart into its stream, its connection and its handler; drops octets that were not fed or not
    /// written.
    pub fn into_parts(self) -> (S, Conn, H)
        ensures stream { result.0 ≡ self.stream }
        ensures conn { result.1 ≡ self.lent.conn }
        ensures handler { result.2 ≡ self.handler }
    {
        let Slot {
            stream,
            lent,
            handler,
            ..
        } = self;
        let Lent { conn } = lent;
        (stream, conn, handler)
    }

    /// Hands the room for reads back to the inbox; octets that are not fed stay.
    pub fn rest_room(&mut self, inbox: &mut Inbox)
        ensures { self.new ≡ self.old }
    {
        inbox.take_back(&mut self.unfed);
    }
}

fn after(served: Served, brought: Brought, is_held: bool) -> Served
    ensures { result ≡ Served.Ended → served ≡ Served.Ended }
{
    match (served, brought) {
        // The stream was not read to its end, so it may not report again that it is ready.
        (Served::Waits, Brought::Octets(_) | Brought::Later) => Served::Again,
        (Served::Waits, Brought::Held) if !is_held => Served::Again,
        (Served::Waits | Served::Again, Brought::NoRoom) => Served::NoRoom,
        _ => served,
    }
}
