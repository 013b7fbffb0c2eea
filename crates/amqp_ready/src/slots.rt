//! Slots by key, for one thread.
ghost use Rattle.std.specs.Prelude.{◌≡◌, ◌==◌, [], None, Some, IfSome, IfOk, IfErr, OnOk, OnErr, option_copied, option_map};
ghost use Rattle.slab.specs.Slab.{HasRoomFor, slab_len};
ghost use Rattle.amqp_ready.specs.Seating.{AllStay, HoldsAt, IsLeft, IsNew, IsOverAt, LentAt, OthersStay, PerformsAt, TicksAt, TurnsAt, held};

use crate::answers::ANSWERS;
use crate::device::NonBlocking;
use crate::fault::SlotFault;
use crate::handler::Handler;
use crate::inbox::Inbox;
use crate::seat::{Ended, Seat, Stage, Turned};
use crate::slot::Slot;
use crate::times::{Due, Limits, sooner};
use amqp_conn::{Conn, Op, Refusal};
use slab::Slab;
use std::alloc::{AllocError, Global};
use std::collections::VecDeque;

/// Slots by key, and a queue of those that are due, which are to be served. A key names one slot until `take_ended`
/// has removed that slot, and may name another then.
///
/// | call | cost, for n slots |
/// |---|---|
/// | `add` | amortised O(1) |
/// | `wake`, `get`, `take_ended`, `perform` and `serve` but for the operation and the turn | O(1) |
/// | `close_all`, `tick` | O(n) |
#[derive(Drop)]
pub struct Slots<S, H> {
    alloc: Global,
    inbox: Inbox,
    /// At how many octets a slot that is added holds (`Slot::hold_at`).
    most: u64,
    seats: Slab<Seat<S, H>>,
    /// The keys of the slots that are due. `add` makes room for all slots.
    due: VecDeque<usize>,
    /// The slot that ended last, of those that were not taken out.
    ended: Option<usize>,
}

/// A stream, a connection and a handler that are handed back.
#[derive(Drop)]
pub struct Returned<S, H> {
    pub stream: S,
    pub conn: Conn,
    pub handler: H,
}

/// What one round over the slots that were due resulted in.
#[derive(Clone, Copy, Debug, PartialEq, Eq)]
pub struct Round {
    /// How many turns there were.
    pub turns: usize,
    /// Whether memory was refused in one of the turns.
    pub is_short: bool,
}

impl<S: NonBlocking, H: Handler> Slots<S, H> {
    /// Returns an empty table.
    pub fn new(alloc: Global) -> Slots<S, H>
        ensures { result.seats.slots ≡ [] }
    {
        Slots {
            alloc,
            inbox: Inbox::new(alloc),
            most: ANSWERS,
            seats: Slab::new(alloc),
            due: VecDeque::new(alloc),
            ended: None,
        }
    }

    /// Sets at how many octets each slot that is added later holds, as [`Slot::hold_at`].
    pub fn hold_at(&mut self, octets: u64)
        ensures { self.new ≡ record self.old { most = octets } }
    {
        self.most = octets;
    }

    /// Returns the number of slots, including those that have ended and were not taken out.
    pub fn len(&self) -> usize
        ensures { result ≡ slab_len self.now.seats }
    {
        self.seats.len()
    }

    /// Returns whether there is no slot, not even one that has ended and was not taken out.
    pub fn is_empty(&self) -> bool
        ensures { result ≡ (slab_len self.now.seats == 0) }
    {
        self.len() == 0
    }

    /// Returns the key that the next `add` returns.
    pub fn next_key(&self) -> usize
        ensures { result ≡ self.now.seats.vacant_key }
    {
        self.seats.vacant_key()
    }

    /// Returns whether a slot is due.
    pub fn is_any_due(&self) -> bool {
        !self.due.is_empty()
    }

    /// Returns the slot under `key`, for reading; also one that has ended and was not taken out.
    pub fn get(&self, key: usize) -> Option<&Slot<S, H>>
        ensures { option_copied result ≡ option_map (λ p. p.0) (held self.now.seats key) }
    {
        match self.seats.get(key) {
            Some(seat) => Some(&seat.slot),
            None => None,
        }
    }

    /// Returns the handler of the slot under `key`, between its turns; also of one that has ended and was not taken
    /// out. Call `wake` if the handler is to go on.
    pub fn handler_mut(&mut self, key: usize) -> Option<&mut H> {
        match self.seats.get_mut(key) {
            Some(seat) => Some(seat.slot.handler_mut()),
            None => None,
        }
    }

    /// Returns the stream of the slot under `key`; the caller must not read or write it.
    pub(crate) fn stream_mut(&mut self, key: usize) -> Option<&mut S> {
        match self.seats.get_mut(key) {
            Some(seat) => Some(seat.slot.stream_mut()),
            None => None,
        }
    }

    /// Returns a bound of the keys: each is below this number.
    pub fn capacity(&self) -> usize {
        self.seats.capacity()
    }

    /// Returns the stage of the slot under `key`.
    pub fn stage(&self, key: usize) -> Option<Stage>
        ensures { result ≡ option_map (λ p. p.1) (held self.now.seats key) }
    {
        match self.seats.get(key) {
            Some(seat) => Some(seat.stage),
            None => None,
        }
    }

    /// The queue needs room for all slots, so that `wake` never fails.
    fn make_room(&mut self) -> Result<(), AllocError>
        ensures most { self.new.most ≡ self.old.most }
        ensures room { OnOk result (HasRoomFor self.new.seats 1) }
        ensures key { self.new.seats.vacant_key ≡ self.old.seats.vacant_key }
        ensures slots { self.new.seats.slots ≡ self.old.seats.slots }
    {
        self.seats.reserve(1)?;
        self.due.reserve(self.seats.len().saturating_add(1))
    }

    /// Adds a slot, which is due at once, and returns its key.
    ///
    /// # Errors
    ///
    /// [`Returned`] if memory is refused: it hands back the stream, the connection and the handler.
    pub fn add(&mut self, stream: S, conn: Conn, handler: H) -> Result<usize, Returned<S, H>>
        ensures key { IfOk result (λ key. key ≡ self.old.seats.vacant_key) }
        ensures vacant { IfOk result (λ key. held self.old.seats key ≡ None) }
        ensures added { IfOk result (λ key. IsNew (held self.new.seats key) stream conn handler) }
        ensures others { IfOk result (OthersStay self.old.seats self.new.seats) }
        ensures err { OnErr result (AllStay self.old.seats self.new.seats) }
        ensures holds { IfOk result (λ key. HoldsAt self.old.most (held self.new.seats key)) }
        ensures back { IfErr result (λ r. (r.stream ≡ stream) × (r.conn ≡ conn) × (r.handler ≡ handler)) }
        ensures most { self.new.most ≡ self.old.most }
    {
        if self.make_room().is_err() {
            return Err(Returned {
                stream,
                conn,
                handler,
            });
        }
        Ok(self.put_in(stream, conn, handler))
    }

    fn put_in(&mut self, stream: S, conn: Conn, handler: H) -> usize
        requires { HasRoomFor self.old.seats 1 }
        ensures key { result ≡ self.old.seats.vacant_key }
        ensures vacant { held self.old.seats result ≡ None }
        ensures added { IsNew (held self.new.seats result) stream conn handler }
        ensures holds { HoldsAt self.old.most (held self.new.seats result) }
        ensures others { OthersStay self.old.seats self.new.seats result }
        ensures most { self.new.most ≡ self.old.most }
    {
        let mut seat = Seat::new(self.alloc, stream, conn, handler);
        seat.slot.hold_at(self.most);
        let key = self.seats.insert_reserved(seat);
        self.wake(key);
        key
    }

    /// Makes the slot under `key` due, if there is one that goes on.
    pub fn wake(&mut self, key: usize)
        ensures stay { AllStay self.old.seats self.new.seats }
        ensures most { self.new.most ≡ self.old.most }
    {
        if self.becomes_due(key) {
            // `add` has made room for it.
            let _ = self.due.push_back(key);
        }
    }

    fn becomes_due(&mut self, key: usize) -> bool
        ensures stay { AllStay self.old.seats self.new.seats }
        ensures most { self.new.most ≡ self.old.most }
    {
        match self.seats.get_mut(key) {
            Some(seat) => seat.becomes_due(),
            None => false,
        }
    }

    /// Serves the slot under `key` for one turn, with one read of at most 262144 octets.
    pub fn serve(&mut self, key: usize) -> Turned
        ensures turns { TurnsAt S.remaining S.written S.failed H.told (held self.old.seats key) (held self.new.seats key) }
        ensures over { result ≡ Turned.Over → IsOverAt (held self.new.seats key) }
        ensures others { OthersStay self.old.seats self.new.seats key }
        ensures most { self.new.most ≡ self.old.most }
    {
        let turned = self.turn(key);
        match turned {
            Turned::Over => self.put_aside(key),
            Turned::Again | Turned::NoRoom => self.wake(key),
            Turned::Waits | Turned::Absent => {}
        }
        turned
    }

    fn turn(&mut self, key: usize) -> Turned
        ensures turns { TurnsAt S.remaining S.written S.failed H.told (held self.old.seats key) (held self.new.seats key) }
        ensures over { result ≡ Turned.Over → IsOverAt (held self.new.seats key) }
        ensures others { OthersStay self.old.seats self.new.seats key }
        ensures most { self.new.most ≡ self.old.most }
    {
        match self.seats.get_mut(key) {
            Some(seat) => seat.turn(&mut self.inbox),
            None => Turned::Absent,
        }
    }

    /// A slot that has ended waits on a chain for `take_ended`.
    fn put_aside(&mut self, key: usize)
        ensures stay { AllStay self.old.seats self.new.seats }
        ensures most { self.new.most ≡ self.old.most }
    {
        if let Some(seat) = self.seats.get_mut(key) {
            seat.before = self.ended;
            self.ended = Some(key);
        }
    }

    fn leave_queue(&mut self, key: usize)
        ensures stay { AllStay self.old.seats self.new.seats }
        ensures most { self.new.most ≡ self.old.most }
    {
        if let Some(seat) = self.seats.get_mut(key) {
            seat.is_due = false;
        }
    }

    /// Serves the slot that became due first, and returns its key and the result. Returns `None` if no slot is due.
    pub fn serve_next(&mut self) -> Option<(usize, Turned)>
        ensures turns { IfSome result (λ r. TurnsAt S.remaining S.written S.failed H.told (held self.old.seats r.0) (held self.new.seats r.0)) }
        ensures others { IfSome result (λ r. OthersStay self.old.seats self.new.seats r.0) }
        ensures none { result ≡ None → self.new.seats ≡ self.old.seats }
        ensures most { self.new.most ≡ self.old.most }
    {
        match self.due.pop_front() {
            Some(key) => {
                self.leave_queue(key);
                Some((key, self.serve(key)))
            }
            None => None,
        }
    }

    /// Serves each slot that is due now once. A slot that becomes due meanwhile is served in the next round.
    pub fn serve_due(&mut self) -> Round {
        let mut round = Round {
            turns: 0,
            is_short: false,
        };
        for _ in 0..self.due.len() {
            if let Some((_, turned)) = self.serve_next() {
                round.turns = round.turns.wrapping_add(1);
                round.is_short = round.is_short || turned == Turned::NoRoom;
            }
        }
        round
    }

    /// Removes a slot that has ended, and returns what is left of it; `None` if there is none. A later slot may have
    /// the same key.
    pub fn take_ended(&mut self) -> Option<Ended<S, H>>
        ensures left { IfSome result (λ e. IsLeft (held self.old.seats e.key) e.stream e.conn e.handler e.fault) }
        ensures gone { IfSome result (λ e. held self.new.seats e.key ≡ None) }
        ensures others { IfSome result (λ e. OthersStay self.old.seats self.new.seats e.key) }
        ensures none { result ≡ None → self.new.seats ≡ self.old.seats }
        ensures most { self.new.most ≡ self.old.most }
    {
        match self.ended {
            Some(key) => self.take_out(key),
            None => None,
        }
    }

    fn take_out(&mut self, key: usize) -> Option<Ended<S, H>>
        ensures left { IfSome result (λ e. IsLeft (held self.old.seats e.key) e.stream e.conn e.handler e.fault) }
        ensures gone { IfSome result (λ e. held self.new.seats e.key ≡ None) }
        ensures others { IfSome result (λ e. OthersStay self.old.seats self.new.seats e.key) }
        ensures none { result ≡ None → self.new.seats ≡ self.old.seats }
        ensures most { self.new.most ≡ self.old.most }
    {
        let Some((fault, before)) = self.ending(key) else {
            return None;
        };
        self.ended = before;
        match self.seats.try_remove(key) {
            Some(seat) => Some(seat.into_ended(key, fault)),
            None => None,
        }
    }

    fn ending(&self, key: usize) -> Option<(Option<SlotFault>, Option<usize>)>
        ensures { IfSome result (λ r. option_map (λ p. p.1) (held self.now.seats key) ≡ Some (Stage.Over r.0)) }
    {
        match self.seats.get(key) {
            Some(seat) => seat.ending(),
            None => None,
        }
    }

    /// Closes the connection under `key`, as `Conn::close` without an error; does nothing if that is refused. The
    /// slot is due then.
    pub fn close(&mut self, key: usize)
        ensures lent { LentAt S.remaining S.written S.failed H.told (held self.old.seats key) (held self.new.seats key) }
        ensures others { OthersStay self.old.seats self.new.seats key }
        ensures most { self.new.most ≡ self.old.most }
    {
        self.close_one(key);
        self.wake(key);
    }

    fn close_one(&mut self, key: usize)
        ensures lent { LentAt S.remaining S.written S.failed H.told (held self.old.seats key) (held self.new.seats key) }
        ensures others { OthersStay self.old.seats self.new.seats key }
        ensures most { self.new.most ≡ self.old.most }
    {
        if let Some(seat) = self.seats.get_mut(key) {
            let _ = seat.slot.close();
        }
    }

    /// Performs an operation on the connection under `key`, as [`Lent::perform`](crate::Lent::perform), for a program
    /// that acts of its own accord. Returns `None` if there is no such slot.
    ///
    /// If the operation succeeds the slot is due, so that its next turn writes what was put out. A refused operation
    /// wakes nothing.
    pub fn perform(&mut self, key: usize, op: Op) -> Option<Result<(), Refusal>>
        ensures performs { PerformsAt op (held self.old.seats key) result (held self.new.seats key) }
        ensures lent { LentAt S.remaining S.written S.failed H.told (held self.old.seats key) (held self.new.seats key) }
        ensures others { OthersStay self.old.seats self.new.seats key }
        ensures most { self.new.most ≡ self.old.most }
    {
        let done = self.perform_one(key, op);
        if done == Some(Ok(())) {
            self.wake(key);
        }
        done
    }

    fn perform_one(&mut self, key: usize, op: Op) -> Option<Result<(), Refusal>>
        ensures performs { PerformsAt op (held self.old.seats key) result (held self.new.seats key) }
        ensures lent { LentAt S.remaining S.written S.failed H.told (held self.old.seats key) (held self.new.seats key) }
        ensures others { OthersStay self.old.seats self.new.seats key }
        ensures most { self.new.most ≡ self.old.most }
    {
        match self.seats.get_mut(key) {
            Some(seat) => Some(seat.slot.perform(op)),
            None => {
                drop(op);
                None
            }
        }
    }

    /// Closes each connection that is open. A slot ends once its peer has closed, too.
    pub fn close_all(&mut self) {
        for key in 0..self.seats.capacity() {
            self.close(key);
        }
    }

    /// Checks the time limits of all slots (`tick_one`), and returns the moment of the next check, which is later
    /// than `now`; `None` if no slot goes on.
    ///
    /// What happens to a slot counts from the check that notices it: a frame that went out just after a check delays
    /// the next empty frame by as much. So a program checks sooner if slots were added or served, at the latest after
    /// a quarter of the shortest limit.
    ///
    /// O(n) for n slots.
    pub fn tick(&mut self, limits: Limits, now: u64) -> Option<u64> {
        let mut next = None;
        for key in 0..self.seats.capacity() {
            self.tick_one(key, limits, now);
            if let Some(deadline) = self.deadline(key, limits) {
                next = sooner(next, deadline.max(now.saturating_add(1)));
            }
        }
        next
    }

    fn deadline(&self, key: usize, limits: Limits) -> Option<u64> {
        match self.seats.get(key) {
            Some(seat) => seat.deadline(limits),
            None => None,
        }
    }

    /// Checks the time limits of the slot under `key`. `now` is in milliseconds from a moment of the program's
    /// choice.
    ///
    /// A connection whose peer would otherwise take it for gone sends an empty frame (part 2, 2.4.5). One that has
    /// taken too long is closed, and leaves by [`SlotFault::TimedOut`]; one that leaves already ends.
    pub fn tick_one(&mut self, key: usize, limits: Limits, now: u64)
        ensures ticks { TicksAt S.remaining S.written S.failed H.told (held self.old.seats key) (held self.new.seats key) }
        ensures others { OthersStay self.old.seats self.new.seats key }
        ensures most { self.new.most ≡ self.old.most }
    {
        let due = self.look(key, limits, now);
        if due == Due::Nothing {
            return;
        }
        if self.act(key, due) {
            self.put_aside(key);
        }
        self.wake(key);
    }

    fn look(&mut self, key: usize, limits: Limits, now: u64) -> Due
        ensures stay { AllStay self.old.seats self.new.seats }
        ensures most { self.new.most ≡ self.old.most }
    {
        match self.seats.get_mut(key) {
            Some(seat) => seat.look(limits, now),
            None => Due::Nothing,
        }
    }

    /// Does what the time limits ask of the slot under `key`; returns whether that has ended it.
    fn act(&mut self, key: usize, due: Due) -> bool
        ensures ticks { TicksAt S.remaining S.written S.failed H.told (held self.old.seats key) (held self.new.seats key) }
        ensures others { OthersStay self.old.seats self.new.seats key }
        ensures most { self.new.most ≡ self.old.most }
    {
        match self.seats.get_mut(key) {
            Some(seat) => seat.act(due),
            None => false,
        }
    }
}
