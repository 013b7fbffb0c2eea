//! The data under the lock.
ghost use Rattle.std.specs.Prelude.{◌≡◌, ◌≢◌, ◌<◌, ◌≤◌, ◌^◌, ◌+◌, ◌-◌, ◌↔◌, [], length, true, false, IfOk, IfErr, IfSome, IfNone, IsTrue, IsFalse, OnErr, OnOk, Ok};
ghost use Rattle.amqp_journal.specs.Units.{units};
ghost use Rattle.amqp_conn.specs.Connection.{connection, in_phase};
ghost use Rattle.amqp_conn.specs.Feeding.{Feeds, MovesOn};
ghost use Rattle.amqp_conn.specs.Leaving.{Gives, GivesOf, left_of, but_left};
ghost use Rattle.amqp_conn.specs.Calling.{Closes};
ghost use Rattle.amqp_shared.specs.Passes.{raised, CountsStep};
ghost use Rattle.amqp_shared.specs.Retaining.{IsRetained, may_forget, forgetting_by};
ghost use Rattle.amqp_shared.specs.Session.{Makes, IsReceipt, IsRefused, Fits};
ghost use Rattle.amqp_shared.specs.Units.{MovesUnits, unmoved};
ghost use Rattle.amqp_shared.specs.Waking.{Held, told_of_units, units_came, with_want, with_units, waits_for, is_ended, is_full};

use crate::growing::{push_units, recall, steps_of};
use crate::name::{Name, Numbered};
use crate::pass::Pass;
use crate::retention::Retention;
use crate::sleepers::Sleepers;
use crate::waiting::{Waiters, Want, is_closed};
use amqp_conn::{CloseRefusal, Conn, ConnFault, Fed, Left, Phase};
use amqp_frames::{AmqpError, Octets, Role};
use amqp_journal::receipt::{Receipt, receipt_of};
use amqp_journal::unit::Unit;
use amqp_rules::op::Op;
use amqp_rules::refusal::Refusal;
use amqp_rules::reply::Given;
use amqp_types::Boxed;
use rtrb::Producer;
use std::alloc::{AllocError, Global};
use std::marker::Model;
use std::sync::ledger::Book;

/// The data under the lock of a shared connection.
///
/// Contracts see it as its connection, and which threads wait for what. Its invariant: the passes have made the
/// journal's steps, and the units that left the connection were pushed to the writer's ring, in order.
#[derive(Drop)]
pub struct Locked<N: Name> {
    pub(crate) conn: Conn,
    pub(crate) book: Book<N>,
    pub(crate) producer: Producer<Unit, Global, Numbered>,
    /// The maximum number of journal entries.
    pub(crate) limit: u32,
    pub(crate) retention: Retention,
    pub(crate) waiters: Waiters,
    /// The threads that sleep until a delivery comes.
    pub(crate) sleepers: Sleepers,
}

impl<N: Name> Model for Locked<N> {
    ghost use Rattle.rtrb.specs.Ring.{sent, known_free};
    ghost use Rattle.amqp_shared.specs.Ring.{pushes_to};
    ghost use Rattle.amqp_shared.specs.Session.{IsHeld};
    ghost use Rattle.amqp_shared.specs.Waking.{Held};
    ghost use Rattle.amqp_types.specs.contracts.value.Value as value;
    ghost use Rattle.std.specs.Coded.{codes};

    ghost Value = { Held };

    ghost coded = { Prim.hlevel (codes, value.the_row.coded) };

    ghost view = { λ l. record { conn = l.conn; waiters = l.waiters } };

    ghost invariant = { λ l. IsHeld l.conn l.book.total (sent l.producer) (known_free l.producer) l.limit (pushes_to l.producer) N.ring N.parts l.retention N.retention };
}

impl<N: Name> Locked<N> {
    /// Returns the connection, with its phase, its journal and its endpoint.
    pub fn conn(&self) -> &Conn
        ensures value { result.now ≡ self.now.conn }
        ensures retained { IsRetained N.retention self.now.conn.core.log }
    {
        &self.conn
    }

    pub(crate) fn move_units(&mut self)
        ensures moves { MovesUnits self.old.conn self.new.conn }
        ensures waiters { self.new.waiters ≡ self.old.waiters }
    {
        push_units(&mut self.conn, &mut self.producer);
    }

    pub(crate) fn lost(&mut self)
        ensures { self.new ≡ record self.old { conn = connection (in_phase Phase.Closed self.old.conn.core) [] } }
    {
        self.conn.lost();
    }

    pub(crate) fn forget(&mut self) -> bool
        ensures forgets { self.new ≡ record self.old { conn = forgetting_by N.retention self.old.conn } }
        ensures forgot { result ≡ may_forget N.retention }
    {
        forget_by(&mut self.conn, self.retention)
    }

    pub(crate) fn pop_left(&mut self) -> Result<Option<Left>, AllocError>
        ensures gives { IfOk result (λ given. Gives self.old.conn.core given self.new.conn.core) }
        ensures unread { self.new.conn.unread ≡ self.old.conn.unread }
        ensures waiters { self.new.waiters ≡ self.old.waiters }
        ensures err { OnErr result (self.new ≡ self.old) }
    {
        self.conn.pop_left()
    }

    pub(crate) fn pop_left_by(&mut self, role: Role, link: u32) -> Result<Option<Left>, AllocError>
        ensures gives { IfOk result (λ given. GivesOf role link self.old.conn.core given self.new.conn.core) }
        ensures unread { self.new.conn.unread ≡ self.old.conn.unread }
        ensures waiters { self.new.waiters ≡ self.old.waiters }
        ensures err { OnErr result (self.new ≡ self.old) }
    {
        self.conn.pop_left_by(role, link)
    }

    pub(crate) fn left_len(&mut self) -> Result<usize, AllocError>
        ensures len { IfOk result (λ n. n ≡ length (left_of self.old.conn.core)) }
        ensures still { OnOk result ((left_of self.new.conn.core ≡ left_of self.old.conn.core) × (but_left self.new.conn.core ≡ but_left self.old.conn.core)) }
        ensures unread { self.new.conn.unread ≡ self.old.conn.unread }
        ensures waiters { self.new.waiters ≡ self.old.waiters }
        ensures err { OnErr result (self.new ≡ self.old) }
    {
        self.conn.left_len()
    }

    #[tactic(auto, using(crate::proofs::Growth::operation_grows))]
    /// `recall` states the bounds of the counts for the proof.
    pub(crate) fn apply(&mut self, pass: &mut Pass<N>, op: &Op) -> Result<(Receipt, Given), Refusal>
        ensures step { IfOk result (λ r. Makes self.old.conn op.now r.1 self.new.conn) }
        ensures fits { IfOk result (λ r. Fits op.now r.1) }
        ensures receipt { IfOk result (λ r. IsReceipt self.new.conn.core.log op.now r.1 r.0) }
        ensures place { IfOk result (λ r. pass.old.made ≤ r.0.place) }
        ensures pass { OnOk result (pass.new ≡ raised pass.old) }
        ensures waiters { self.new.waiters ≡ self.old.waiters }
        ensures refusal { IfErr result (λ e. IsRefused self.old.conn op.now e) }
        ensures err { OnErr result ((self.new ≡ self.old) × (pass.new ≡ pass.old)) }
    {
        recall(&self.conn);
        let place = self.conn.logged().steps() as u64;
        match self.conn.apply(op) {
            Ok(given) => {
                raise(&mut self.book, pass, 1);
                push_units(&mut self.conn, &mut self.producer);
                Ok((receipt_of(place, &given), given))
            }
            Err(refusal) => Err(refusal),
        }
    }

    #[tactic(auto, using(crate::proofs::Growth::feed_grows))]
    /// `recall` states the bounds of the counts for the proof.
    pub(crate) fn feed(&mut self, pass: &mut Pass<N>, octets: &Octets<'_>) -> Result<Fed, ConnFault>
        ensures fed { Feeds self.old.conn octets.now result (unmoved self.old.conn self.new.conn) }
        ensures progress { octets.now ≢ [] → MovesOn result }
        ensures more { self.old.conn.core.log.popped ≤ self.new.conn.core.log.popped }
        ensures waiters { self.new.waiters ≡ self.old.waiters }
        ensures pass { CountsStep result pass.old pass.new }
    {
        recall(&self.conn);
        let result = self.conn.feed(octets);
        raise(&mut self.book, pass, steps_of(&result));
        push_units(&mut self.conn, &mut self.producer);
        result
    }

    #[tactic(auto, using(crate::proofs::Growth::close_grows))]
    pub(crate) fn shut(&mut self, error: Option<Boxed<AmqpError>>) -> Result<(), CloseRefusal>
        ensures closes { Closes self.old.conn.core error result (unmoved self.old.conn self.new.conn).core }
        ensures unread { self.new.conn.unread ≡ self.old.conn.unread }
        ensures more { self.old.conn.core.log.popped ≤ self.new.conn.core.log.popped }
        ensures waiters { self.new.waiters ≡ self.old.waiters }
        ensures err { OnErr result (self.new ≡ self.old) }
    {
        match self.conn.close(error) {
            Ok(()) => {
                push_units(&mut self.conn, &mut self.producer);
                Ok(())
            }
            Err(refusal) => Err(refusal),
        }
    }

    pub(crate) fn put_out(&self) -> u64
        ensures { result ≡ length (units self.now.conn.core.log) }
    {
        self.conn.logged().put_out()
    }

    pub(crate) fn await_units(&mut self, seen: u64)
        ensures { self.new ≡ record self.old { waiters = with_units seen self.old.waiters } }
    {
        self.waiters = self.waiters.with_units(seen);
    }

    /// Returns whether the threads that wait for units have to be woken, and counts them as woken: units past the
    /// awaited number were put out, or the connection has ended.
    pub(crate) fn end_await_units(&mut self) -> bool
        ensures waiters { self.new ≡ record self.old { waiters = told_of_units self.old.conn self.old.waiters } }
        ensures came { result ≡ units_came self.old.conn self.old.waiters.units }
    {
        let came = self.units_came();
        if came {
            self.waiters.units = None;
        }
        came
    }

    fn units_came(&self) -> bool
        ensures { result ≡ units_came self.now.conn self.now.waiters.units }
    {
        match self.waiters.units {
            Some(seen) => seen < self.put_out() || self.is_closed(),
            None => false,
        }
    }

    pub(crate) fn wait_for(&mut self, want: Want)
        ensures { self.new ≡ record self.old { waiters = with_want want true self.old.waiters } }
    {
        self.waiters = self.waiters.set(want, true);
    }

    /// Returns whether callers wait for this, and counts them as woken.
    pub(crate) fn end_wait_for(&mut self, want: Want) -> bool
        ensures waiters { self.new ≡ record self.old { waiters = with_want want false self.old.waiters } }
        ensures waited { result ≡ waits_for want self.old.waiters }
    {
        let waited = self.waiters.wait_for(want);
        self.waiters = self.waiters.set(want, false);
        waited
    }

    /// Returns the seat of the sleeper to wake once the lock is released, if there is one.
    pub(crate) fn rouse(&mut self) -> Option<usize>
        ensures { self.new ≡ self.old }
    {
        let is_full = self.is_at_limit();
        self.sleepers.rouse(&self.conn, is_full)
    }

    pub(crate) fn is_closed(&self) -> bool
        ensures { result ≡ is_ended self.now.conn.core.phase }
    {
        is_closed(&self.conn)
    }

    /// A full journal refuses all further steps.
    pub(crate) fn is_at_limit(&self) -> bool
        ensures { result ≡ is_full self.now.conn }
    {
        self.conn.logged().steps() >= self.limit
    }

    /// Returns how many units were put out, and whether the connection has ended. `None` if there are no more than
    /// `seen`, and it has not.
    pub(crate) fn news(&self, seen: u64) -> Option<(u64, bool)>
        ensures some { IfSome result (λ r. (r.0 ≡ length (units self.now.conn.core.log)) × (r.1 ≡ is_ended self.now.conn.core.phase) × (IsFalse r.1 → seen < r.0)) }
        ensures none { IfNone result ((length (units self.now.conn.core.log) ≤ seen) × (IsFalse (is_ended self.now.conn.core.phase))) }
    {
        let count = self.put_out();
        let closed = self.is_closed();
        if seen < count || closed {
            Some((count, closed))
        } else {
            None
        }
    }
}

/// Forgets the journal's entries so far, if they may be forgotten.
fn forget_by(conn: &mut Conn, retention: Retention) -> bool
    ensures forgets { conn.new ≡ forgetting_by retention conn.old }
    ensures forgot { result ≡ may_forget retention }
{
    match retention {
        Retention::All => false,
        Retention::UntilForgotten => {
            conn.forget();
            true
        }
    }
}

/// Adds steps to the book and to the pass: `audit` first shows that the pass has made no more than the book counts.
fn raise<N: Name>(book: &mut Book<N>, pass: &mut Pass<N>, steps: u64)
    requires { (book.old.total < 2 ^ 64 - 1) × (steps ≤ 1) }
    ensures total { book.new.total ≡ book.old.total + steps }
    ensures pass { pass.new ≡ record pass.old { made = pass.old.made + steps } }
    ensures bound { pass.old.made ≤ book.old.total }
{
    book.audit(&mut pass.share);
    book.add(&mut pass.share, steps);
    pass.made += steps;
}
