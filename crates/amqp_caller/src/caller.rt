//! A connection that is driven by numbers and octets.
ghost use Rattle.std.specs.Prelude.{◌≡◌, ◌≤◌, ◌+◌, ◌++◌, ◌⊎◌, [], Ok, Err, Some, None, List, MatchResult, ℕ, cond, drop, length, option_map};
ghost use Rattle.amqp_rules.specs.RefusalNumbers.{refusal_number};
ghost use Rattle.amqp_rules.specs.Take.{taken_in};
ghost use Rattle.amqp_conn.specs.Calling.{forgotten, popped};
ghost use Rattle.amqp_conn.specs.Connection.{connection, in_phase};
ghost use Rattle.amqp_caller.specs.Arguments.{IsAttach, IsDispose, error_given};
ghost use Rattle.amqp_caller.specs.Calls.{Asked, Closed, Did, DidMade, LendsPayload, PayloadOf, WasClosed, WasFed, Writes, option_or, to_come};
ghost use Rattle.amqp_caller.specs.Numbers.{phase_number};
ghost use Rattle.amqp_caller.specs.Reading.{LinkTold, TextOf, link_at};

use crate::arguments::{
    LinkSettings, Outcome, Range, attach_of, carry_of, detach_of, dispose_of, end_of, error_of,
    start_of,
};
use crate::event::Event;
use crate::heard::{handle_heard, number_heard};
use crate::rest::{Rest, copy};
use crate::standing::LinkStatus;
use crate::status::{BAD_ARGUMENT, DONE, FAULT, NOT_CLOSED, REFUSED};
use crate::texts::{TextKind, link_at, text_asked};
use amqp_conn::{AmqpError, Boxed, Conn, ConnFault, Fed, Given, Octets, Op, Phase, Refusal, Taken};
use std::alloc::Global;

/// A connection, the octets of its newest unit that were not written yet, and the delivery that was taken last.
///
/// Its calls take and report numbers and octets alone, so a program in another language can make them.
pub struct Caller {
    /// The connection.
    pub conn: Conn,
    /// What was popped and not written.
    pub rest: Rest,
    /// The delivery whose payload [`Caller::payload`] reads.
    pub taken: Option<Boxed<Taken>>,
}

// By hand, so that a crate that owns one does not prove its parts' drops again.
impl Drop for Caller {
    fn drop(self) {
        let Caller { conn, rest, taken } = self;
        drop(conn);
        drop(rest);
        drop(taken);
    }
}

/// Returns the status of a refusal.
fn refused(refusal: Refusal) -> u32
    ensures { result ≡ 256 + refusal_number refusal }
{
    REFUSED + refusal.number() as u32
}

/// Returns the number of the connection's phase.
pub fn phase_of(conn: &Conn) -> u32
    ensures { result ≡ phase_number conn.now.core.phase }
{
    match conn.phase() {
        Phase::AwaitHeader => 1,
        Phase::AwaitOpen => 2,
        Phase::Running => 3,
        Phase::Closing => 4,
        Phase::Closed => 5,
    }
}

impl Caller {
    /// Returns a caller of a connection of which nothing was written.
    pub fn new(conn: Conn) -> Caller
        ensures conn { result.conn ≡ conn }
        ensures rest { result.rest ≡ [] }
        ensures taken { result.taken ≡ None }
    {
        Caller {
            conn,
            rest: Rest::none(),
            taken: None,
        }
    }

    /// Does the operation, and reports what it gives.
    ///
    /// # Errors
    ///
    /// [`REFUSED`] and the number of the refusal; nothing has changed then.
    pub fn apply(&mut self, op: &Op, event: &mut Event) -> u32
        ensures { Did self.old op.now result event.new self.new }
    {
        match self.conn.apply(op) {
            Ok(given) => {
                *event = Event::of(&given);
                event.stepped = true;
                event.phase = phase_of(&self.conn);
                self.keep(given);
                DONE
            }
            Err(refusal) => {
                *event = Event::none();
                event.phase = phase_of(&self.conn);
                refused(refusal)
            }
        }
    }

    /// Keeps a delivery that was taken, so that its payload can be read.
    fn keep(&mut self, given: Given)
        ensures conn { self.new.conn ≡ self.old.conn }
        ensures rest { self.new.rest ≡ self.old.rest }
        ensures taken { self.new.taken ≡ option_or (taken_in given) self.old.taken }
    {
        if let Some(taken) = given.into_taken() {
            self.taken = Some(taken);
        }
    }

    /// Does the operation that arguments made, or reports why they made none.
    pub(crate) fn does(&mut self, made: Result<Op, u32>, event: &mut Event) -> u32
        ensures did { DidMade made self.old result event.new self.new }
    {
        match made {
            Ok(op) => {
                let status = self.apply(&op, event);
                drop(op);
                status
            }
            Err(status) => status,
        }
    }

    /// Attaches a link of this name between these addresses (part 2, 2.7.3). An empty address stands for no terminus.
    ///
    /// # Errors
    ///
    /// [`BAD_ARGUMENT`], [`NO_MEMORY`](crate::NO_MEMORY) and those of [`Caller::apply`].
    pub fn attach(
        &mut self,
        alloc: Global,
        name: &[u8],
        role: u32,
        source: &[u8],
        target: &[u8],
        settings: &LinkSettings,
        event: &mut Event,
    ) -> u32
        ensures { Asked (IsAttach name.now role source.now target.now settings.now) (λ s. (s ≡ 2) ⊎ (s ≡ 3)) self.old result event.new self.new }
    {
        self.does(
            attach_of(alloc, name, role, source, target, settings),
            event,
        )
    }

    /// Begins a delivery with its first transfer (part 2, 2.6.12). With `more` further parts follow, by [`Caller::carry`].
    ///
    /// # Errors
    ///
    /// Those of [`Caller::attach`].
    pub fn start(
        &mut self,
        alloc: Global,
        link: u32,
        tag: &[u8],
        payload: &[u8],
        settled: bool,
        more: bool,
        event: &mut Event,
    ) -> u32
        ensures { Asked (λ o. o ≡ Op.Start link tag.now 0 settled payload.now more) (λ s. (s ≡ 2) ⊎ (s ≡ 3)) self.old result event.new self.new }
    {
        self.does(start_of(alloc, link, tag, payload, settled, more), event)
    }

    /// Sends a further part of the delivery that is unfinished on the link (part 2, 2.6.14).
    ///
    /// # Errors
    ///
    /// Those of [`Caller::attach`].
    pub fn carry(
        &mut self,
        alloc: Global,
        link: u32,
        payload: &[u8],
        more: bool,
        event: &mut Event,
    ) -> u32
        ensures { Asked (λ o. o ≡ Op.Carry link payload.now more) (λ s. (s ≡ 2) ⊎ (s ≡ 3)) self.old result event.new self.new }
    {
        self.does(carry_of(alloc, link, payload, more), event)
    }

    /// States the outcome of deliveries, and settles them (part 2, 2.7.6). The condition and the description are those of a rejection.
    ///
    /// # Errors
    ///
    /// Those of [`Caller::attach`].
    pub fn dispose(
        &mut self,
        alloc: Global,
        range: Range,
        outcome: &Outcome,
        condition: &[u8],
        description: &[u8],
        event: &mut Event,
    ) -> u32
        ensures { Asked (IsDispose range outcome.now condition.now description.now) (λ s. (s ≡ 2) ⊎ (s ≡ 3)) self.old result event.new self.new }
    {
        self.does(
            dispose_of(alloc, range, outcome, condition, description),
            event,
        )
    }

    /// Detaches the link (part 2, 2.6.6), with an error unless the condition is empty.
    ///
    /// # Errors
    ///
    /// Those of [`Caller::attach`].
    pub fn detach(
        &mut self,
        alloc: Global,
        link: u32,
        condition: &[u8],
        description: &[u8],
        event: &mut Event,
    ) -> u32
        ensures { Asked (λ o. o ≡ Op.Detach link (error_given condition.now description.now)) (λ s. (s ≡ 2) ⊎ (s ≡ 3)) self.old result event.new self.new }
    {
        self.does(detach_of(alloc, link, condition, description), event)
    }

    /// Ends the session (part 2, 2.5.2), with an error unless the condition is empty.
    ///
    /// # Errors
    ///
    /// Those of [`Caller::attach`].
    pub fn end(
        &mut self,
        alloc: Global,
        condition: &[u8],
        description: &[u8],
        event: &mut Event,
    ) -> u32
        ensures { Asked (λ o. o ≡ Op.End (error_given condition.now description.now)) (λ s. (s ≡ 2) ⊎ (s ≡ 3)) self.old result event.new self.new }
    {
        self.does(end_of(alloc, condition, description), event)
    }

    /// Feeds octets that came, at most to the end of one frame. `used` says how many of them, and `event` what they gave.
    ///
    /// # Errors
    ///
    /// [`FAULT`] and the number of the fault.
    pub fn feed(&mut self, octets: &[u8], used: &mut usize, event: &mut Event) -> u32
        ensures fed { WasFed self.old.conn octets.now used.new result event.new self.new.conn }
        ensures others { (self.new.rest ≡ self.old.rest) × (self.new.taken ≡ self.old.taken) }
    {
        match self.conn.feed(&Octets::lent(octets)) {
            Ok(fed) => {
                let Fed {
                    used: count,
                    stepped,
                    given,
                    violation,
                } = fed;
                *used = count;
                *event = Event::of(&given);
                event.stepped = stepped;
                event.frame = number_heard(&self.conn, stepped);
                event.handle = handle_heard(&self.conn, stepped);
                event.phase = phase_of(&self.conn);
                if let Some(violation) = violation {
                    event.violation = violation.kind.number() as u32;
                }
                drop(given);
                DONE
            }
            Err(fault) => {
                *used = 0;
                *event = Event::none();
                event.phase = phase_of(&self.conn);
                FAULT + fault.number()
            }
        }
    }

    /// Copies octets that go out next into `room`, and returns how many: 0 if none wait or `room` is empty.
    ///
    /// One call gives octets of one unit at most, so a program calls until none are left.
    pub fn write(&mut self, room: &mut [u8]) -> usize
        ensures writes { Writes self.old.rest self.old.conn room.new result self.new.rest self.new.conn }
        ensures taken { self.new.taken ≡ self.old.taken }
    {
        self.fetch();
        self.rest.give(room)
    }

    /// Makes the octets that go out next readable by [`Caller::front`]: pops a unit if nothing is left of the last one.
    pub fn fetch(&mut self)
        ensures octets { self.new.rest ++ to_come self.new.conn ≡ self.old.rest ++ to_come self.old.conn }
        ensures only { (self.new.conn ≡ self.old.conn) ⊎ (self.new.conn ≡ popped self.old.conn) }
        ensures taken { self.new.taken ≡ self.old.taken }
    {
        if !self.rest.is_empty() {
            return;
        }
        let Some(unit) = self.conn.pop_unit() else {
            return;
        };
        self.rest = Rest::of(unit.bytes);
    }

    /// Returns octets that go out next, without a copy: all that are left of a unit and lie in one slice. [`Caller::fetch`] comes before it, and
    /// [`Caller::wrote`] behind it.
    pub fn front(&self) -> &[u8]
        ensures { (more : List ℕ) × (result.now ++ more ≡ self.now.rest) }
    {
        self.rest.front()
    }

    /// Reports that so many octets of [`Caller::front`] were written.
    pub fn wrote(&mut self, count: usize)
        ensures { self.new ≡ record self.old { rest = drop count self.old.rest } }
    {
        self.rest.advance(count);
    }

    /// Returns octets of the payload that was taken last, from a place on, without a copy: all that lie in one slice.
    pub fn payload_at(&self, from: u64) -> &[u8]
        ensures { LendsPayload self.now.taken from result.now }
    {
        match &self.taken {
            Some(taken) => taken.get().payload.slice_from(from),
            None => &[],
        }
    }

    /// Copies octets of the payload that was taken last into `room`, from a place on, and returns how many: as many as have room and lie in one slice.
    pub fn payload(&self, from: u64, room: &mut [u8]) -> usize
        ensures { PayloadOf self.now.taken from room.new result }
    {
        match &self.taken {
            Some(taken) => copy(taken.get().payload.slice_from(from), room),
            None => 0,
        }
    }

    /// Sends our close (part 2, 2.4.3), with an error unless the condition is empty.
    ///
    /// # Errors
    ///
    /// [`BAD_ARGUMENT`], [`NO_MEMORY`](crate::NO_MEMORY), or [`NOT_CLOSED`] and the number of the refusal; nothing has changed then.
    pub fn close(&mut self, alloc: Global, condition: &[u8], description: &[u8]) -> u32
        ensures { Closed (error_given condition.now description.now) self.old result self.new }
    {
        match error_of(alloc, condition, description) {
            Ok(error) => self.close_with(error),
            Err(status) => status,
        }
    }

    fn close_with(&mut self, error: Option<Boxed<AmqpError>>) -> u32
        ensures closed { WasClosed self.old.conn.core error result self.new.conn.core }
        ensures others { (self.new.conn.unread ≡ self.old.conn.unread) × (self.new.rest ≡ self.old.rest) × (self.new.taken ≡ self.old.taken) }
    {
        match self.conn.close(error) {
            Ok(()) => DONE,
            Err(refusal) => NOT_CLOSED + refusal.number(),
        }
    }

    /// Copies a text into `room` as far as it has room, and returns the text's length: 0 if there is no such text. `link` is the number of the link if the
    /// text is a link's.
    pub fn text(&self, what: u32, link: u32, room: &mut [u8]) -> usize
        ensures { TextOf what link self.now.conn (length room.old) room.new result }
    {
        match text_asked(&self.conn, TextKind::numbered(what), link) {
            Some(text) => {
                copy(text.as_bytes(), room);
                text.as_bytes().len()
            }
            None => 0,
        }
    }

    /// Reports how the link of this number stands.
    ///
    /// # Errors
    ///
    /// [`BAD_ARGUMENT`] if there is no such link; `status` is unchanged then.
    pub fn link(&self, link: u32, status: &mut LinkStatus) -> u32
        ensures { LinkTold (link_at self.now.conn link) result status.old status.new }
    {
        match link_at(&self.conn, link) {
            Some(found) => {
                *status = LinkStatus::of(found);
                DONE
            }
            None => BAD_ARGUMENT,
        }
    }

    /// Returns where the connection stands: 1 awaits the header, 2 awaits the open, 3 is running, 4 is closing, 5 is closed.
    pub fn phase(&self) -> u32
        ensures { result ≡ phase_number self.now.conn.core.phase }
    {
        phase_of(&self.conn)
    }
}
