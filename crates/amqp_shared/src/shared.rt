//! A connection that threads share, and the calls on the session under its lock.
ghost use Rattle.std.specs.Prelude.{◌≡◌, ◌≢◌, ◌<◌, ◌≤◌, [], length, true, false, None, IfOk, IfErr, OnOk, OnErr, IsFalse};
ghost use Rattle.amqp_conn.specs.Connection.{Connection, connection, in_phase};
ghost use Rattle.amqp_conn.specs.Feeding.{Feeds, MovesOn};
ghost use Rattle.amqp_conn.specs.Leaving.{Gives, GivesOf, left_of, but_left};
ghost use Rattle.amqp_conn.specs.Calling.{Closes, due_in};
ghost use Rattle.amqp_shared.specs.Passes.{IsNamed, raised, after, CountsStep};
ghost use Rattle.amqp_shared.specs.Retaining.{IsRetained, may_forget, forgetting_by};
ghost use Rattle.amqp_shared.specs.Session.{Makes, IsDone, IsReceipt, IsRefused, Fits, EndsWait, IsDueAtOnce, Calls};
ghost use Rattle.amqp_shared.specs.Units.{MovesUnits, unmoved};
ghost use Rattle.amqp_shared.specs.Waking.{IsTold, IsAwaited, IsNews, brought_by_op, brought_by_feed, told_of, told_of_units, with_want, is_ended};
ghost use Rattle.amqp_journal.specs.Units.{units};
ghost use Rattle.amqp_shared.specs.declared.waiting.Change.TheVariants.{Ends};

use crate::growing::push_units;
use crate::guard::Guard;
use crate::history::History;
use crate::locked::Locked;
use crate::name::Name;
use crate::pass::{Answer, Pass};
use crate::seed::Seed;
use crate::sleepers::Sleepers;
use crate::waiting::{Change, Conditions, Due, Waiters, Want, awaited_by, brought, brought_by};
use crate::writer::WriterEnd;
use amqp_conn::{CloseRefusal, ConnFault, Fed, Left, Phase};
use amqp_frames::{AmqpError, Octets, Role};
use amqp_journal::receipt::Receipt;
use amqp_rules::op::Op;
use amqp_rules::refusal::Refusal;
use amqp_rules::reply::Given;
use amqp_types::Boxed;
use std::alloc::AllocError;
use std::marker::PhantomData;
use std::sync::{Mutex, Wait};

/// A connection that threads share by reference.
///
/// [`Shared::lock`] lends the session; most other calls take its guard. [`Shared::close`] takes the connection apart
/// again.
#[derive(Drop)]
pub struct Shared<N: Name> {
    pub(crate) locked: Mutex<Locked<N>>,
    pub(crate) conditions: Conditions,
}

/// Opens a seed under its name: returns what threads share, the first pass, and the writer's end.
///
/// The pass has all 65536 parts and has made no step, and nothing was taken from the writer's end. The caller is
/// generic over the name and gets `std::marker::Brand` for it (see `amqp_example`).
pub fn open_shared<N: Name>(seed: Seed) -> (Shared<N>, Pass<N>, WriterEnd<N>)
    requires { IsNamed seed N.name N.parts N.ring N.retention }
    ensures pass { result.1 ≡ record { parts = 65536; made = 0; asked = [] } }
    ensures writer { result.2 ≡ [] }
{
    let (locked, pass, writer) = open_locked(seed);
    (Shared::new(locked), pass, writer)
}

/// `open_shared`, before the mutex exists: the contract can speak of the connection here.
fn open_locked<N: Name>(seed: Seed) -> (Locked<N>, Pass<N>, WriterEnd<N>)
    requires { IsNamed seed N.name N.parts N.ring N.retention }
    ensures conn { MovesUnits seed.conn result.0.conn }
    ensures waiters { result.0.waiters ≡ record { units = None; room = false; delivery = false; outcome = false } }
    ensures pass { result.1 ≡ record { parts = 65536; made = 0; asked = [] } }
    ensures writer { result.2 ≡ [] }
{
    let Seed {
        conn,
        producer,
        consumer,
        blank,
        limit,
        retention,
    } = seed;
    let (book, share) = blank.open::<N>();
    let (mut conn, mut producer) = (conn, producer);
    push_units(&mut conn, &mut producer);
    (
        Locked {
            conn,
            book,
            producer,
            limit,
            retention,
            waiters: Waiters::NONE,
            sleepers: Sleepers::NONE,
        },
        Pass {
            share,
            parts: 65536,
            made: 0,
            asked: History::new(),
        },
        WriterEnd {
            consumer,
            taken: 0,
            of: PhantomData,
        },
    )
}

impl<N: Name> Shared<N> {
    pub(crate) fn new(locked: Locked<N>) -> Shared<N> {
        Shared {
            locked: Mutex::new(locked),
            conditions: Conditions::new(),
        }
    }

    /// Takes the lock and returns a guard that lends the session until it is dropped.
    ///
    /// Blocks until the lock is free. Dropping the guard releases the lock and wakes the threads that waited for what
    /// its steps have brought. No entry of the session's journal was forgotten if the seed keeps all of them.
    pub fn lock<R: Wait>(&self, rt: &R) -> Guard<'_, N>
        ensures retained { IsRetained N.retention result.conn.core.log }
    {
        let guard = Guard {
            locked: self.locked.lock(rt),
            conditions: &self.conditions,
            due: Due::NONE,
        };
        let _ = guard.conn();
        guard
    }

    /// Does an operation of the application on the locked session, as `Conn::apply` does, and counts it in the pass.
    ///
    /// Returns what the operation gave, and its receipt, which is for the journal's last entry.
    ///
    /// # Errors
    ///
    /// Those of `Conn::apply`: the refusal that is due to the operation, or [`Refusal::NoMemory`]. The session is as
    /// before then.
    pub fn call(
        &self,
        guard: &mut Guard<'_, N>,
        pass: &mut Pass<N>,
        op: &Op,
    ) -> Result<(Receipt, Given), Refusal>
        ensures step { IfOk result (λ r. Makes guard.old.conn op.now r.1 guard.new.conn) }
        ensures fits { IfOk result (λ r. Fits op.now r.1) }
        ensures receipt { IfOk result (λ r. IsReceipt guard.new.conn.core.log op.now r.1 r.0) }
        ensures place { IfOk result (λ r. pass.old.made ≤ r.0.place) }
        ensures pass { pass.new ≡ after op.now result pass.old }
        ensures told { OnOk result (IsTold (brought_by_op op.now) guard.old guard.new) }
        ensures refusal { IfErr result (λ e. IsRefused guard.old.conn op.now e) }
        ensures err { OnErr result (guard.new ≡ guard.old) }
    {
        let answer = self.attempt(guard, pass, op);
        pass.note(op, &answer);
        answer
    }

    /// `call`, before the pass notes it: `call_wait` notes only its last attempt.
    fn attempt(&self, guard: &mut Guard<'_, N>, pass: &mut Pass<N>, op: &Op) -> Answer
        ensures step { IfOk result (λ r. Makes guard.old.conn op.now r.1 guard.new.conn) }
        ensures fits { IfOk result (λ r. Fits op.now r.1) }
        ensures receipt { IfOk result (λ r. IsReceipt guard.new.conn.core.log op.now r.1 r.0) }
        ensures place { IfOk result (λ r. pass.old.made ≤ r.0.place) }
        ensures pass { OnOk result (pass.new ≡ raised pass.old) }
        ensures told { OnOk result (IsTold (brought_by_op op.now) guard.old guard.new) }
        ensures refusal { IfErr result (λ e. IsRefused guard.old.conn op.now e) }
        ensures err { OnErr result (guard.new ≡ guard.old) }
        ensures rests { OnErr result (pass.new ≡ pass.old) }
    {
        match guard.locked.apply(pass, op) {
            Ok(done) => {
                self.tell(guard, brought_by(op));
                Ok(done)
            }
            Err(refusal) => Err(refusal),
        }
    }

    /// Feeds octets that the peer sent, lent or shared, as `Conn::feed` does. A step that they make is counted in the
    /// pass.
    ///
    /// Takes at most one frame; the answer contains how many octets were used, and the caller feeds the rest again.
    ///
    /// # Errors
    ///
    /// Those of `Conn::feed`: a fault that ends the connection, `Closed` if it had ended before, or `NoMemory`, which
    /// changes nothing.
    pub fn feed(
        &self,
        guard: &mut Guard<'_, N>,
        pass: &mut Pass<N>,
        octets: &Octets<'_>,
    ) -> Result<Fed, ConnFault>
        ensures fed { Feeds guard.old.conn octets.now result (unmoved guard.old.conn guard.new.conn) }
        ensures progress { octets.now ≢ [] → MovesOn result }
        ensures more { guard.old.conn.core.log.popped ≤ guard.new.conn.core.log.popped }
        ensures pass { CountsStep result pass.old pass.new }
        ensures told { IsTold (brought_by_feed guard.new.conn result) guard.old guard.new }
    {
        let result = guard.locked.feed(pass, octets);
        let change = brought(guard.conn(), &result);
        self.tell(guard, change);
        result
    }

    /// Puts out our close with the error, as `Conn::close` does (part 2, 2.4.3).
    ///
    /// # Errors
    ///
    /// Those of `Conn::close`: `NotOpen`, `NotWritable`, `FrameTooBig` and `NoMemory`. Nothing has changed then.
    pub fn shut(
        &self,
        guard: &mut Guard<'_, N>,
        error: Option<Boxed<AmqpError>>,
    ) -> Result<(), CloseRefusal>
        ensures closes { Closes guard.old.conn.core error result (unmoved guard.old.conn guard.new.conn).core }
        ensures unread { guard.new.conn.unread ≡ guard.old.conn.unread }
        ensures more { guard.old.conn.core.log.popped ≤ guard.new.conn.core.log.popped }
        ensures told { OnOk result (IsTold Ends guard.old guard.new) }
        ensures err { OnErr result (guard.new ≡ guard.old) }
    {
        match guard.locked.shut(error) {
            Ok(()) => {
                self.tell(guard, Change::Ends);
                Ok(())
            }
            Err(refusal) => Err(refusal),
        }
    }

    /// Ends the connection because the octets ended, as `Conn::lost` does: its phase is `Closed`, and what was not read
    /// is dropped.
    pub fn lost(&self, guard: &mut Guard<'_, N>)
        ensures lost { guard.new.conn ≡ connection (in_phase Phase.Closed guard.old.conn.core) [] }
        ensures told { IsTold Ends guard.old guard.new }
    {
        guard.locked.lost();
        self.tell(guard, Change::Ends);
    }

    /// Returns the first thing that the links left, and removes it, as `Conn::pop_left` does. `None` if nothing is
    /// left.
    ///
    /// This is no step, and wakes no thread.
    ///
    /// # Errors
    ///
    /// `AllocError` if memory runs out; nothing has changed then.
    pub fn pop_left(&self, guard: &mut Guard<'_, N>) -> Result<Option<Left>, AllocError>
        ensures gives { IfOk result (λ given. Gives guard.old.conn.core given guard.new.conn.core) }
        ensures unread { guard.new.conn.unread ≡ guard.old.conn.unread }
        ensures waiters { guard.new.waiters ≡ guard.old.waiters }
        ensures err { OnErr result (guard.new ≡ guard.old) }
    {
        guard.locked.pop_left()
    }

    /// Returns the first thing that this link left, and removes it, as `Conn::pop_left_by` does: a delivery of a
    /// receiver, or an outcome of a sender.
    ///
    /// It is meant for a caller that waited for a delivery or an outcome when the link, the session or the connection
    /// ended. This is no step, and wakes no thread. O(n) for n things that are left.
    ///
    /// # Errors
    ///
    /// `AllocError` if memory runs out; nothing has changed then.
    pub fn pop_left_by(
        &self,
        guard: &mut Guard<'_, N>,
        role: Role,
        link: u32,
    ) -> Result<Option<Left>, AllocError>
        ensures gives { IfOk result (λ given. GivesOf role link guard.old.conn.core given guard.new.conn.core) }
        ensures unread { guard.new.conn.unread ≡ guard.old.conn.unread }
        ensures waiters { guard.new.waiters ≡ guard.old.waiters }
        ensures err { OnErr result (guard.new ≡ guard.old) }
    {
        guard.locked.pop_left_by(role, link)
    }

    /// Returns how many things the links left, as `Conn::left_len` does.
    ///
    /// # Errors
    ///
    /// `AllocError` if memory runs out; nothing has changed then.
    pub fn left_len(&self, guard: &mut Guard<'_, N>) -> Result<usize, AllocError>
        ensures len { IfOk result (λ n. n ≡ length (left_of guard.old.conn.core)) }
        ensures still { OnOk result ((left_of guard.new.conn.core ≡ left_of guard.old.conn.core) × (but_left guard.new.conn.core ≡ but_left guard.old.conn.core)) }
        ensures unread { guard.new.conn.unread ≡ guard.old.conn.unread }
        ensures waiters { guard.new.waiters ≡ guard.old.waiters }
        ensures err { OnErr result (guard.new ≡ guard.old) }
    {
        guard.locked.left_len()
    }

    /// Forgets the entries of the locked session's journal so far, as `Conn::forget` does, unless the seed keeps all of
    /// them ([`Retention::All`](crate::Retention::All)). Returns whether they were forgotten.
    ///
    /// The passes' steps remain those of the whole journal. Wakes no thread.
    pub fn forget(&self, guard: &mut Guard<'_, N>) -> bool
        ensures forgets { guard.new ≡ record guard.old { conn = forgetting_by N.retention guard.old.conn } }
        ensures forgot { result ≡ may_forget N.retention }
    {
        guard.locked.forget()
    }

    /// Moves units from the connection to the writer's ring, as many as fit. Allocates nothing.
    pub fn move_units(&self, guard: &mut Guard<'_, N>)
        ensures moves { MovesUnits guard.old.conn guard.new.conn }
        ensures waiters { guard.new.waiters ≡ guard.old.waiters }
    {
        guard.locked.move_units();
    }

    /// Does an operation as `call` does, but waits as long as credit, a window, a delivery or an outcome is missing.
    ///
    /// While it waits, the lock is free: it spins for some microseconds, then sleeps, and tries again once it is woken.
    /// The guard that it returns lends the session after the operation, or the session that refused it.
    ///
    /// # Errors
    ///
    /// Those of `call` except [`Refusal::NoCredit`], [`Refusal::NoWindow`] and [`Refusal::Nothing`], for which it
    /// waits. If a link, the session or the connection ends, or the journal is full, it tries again and returns the
    /// refusal that is due then. Nothing more comes on a link that this end has detached or suspended: a call that
    /// takes or learns there waits until the peer has left the link, too.
    pub fn call_wait<'b, R: Wait>(
        &self,
        rt: &R,
        guard: Guard<'b, N>,
        pass: &mut Pass<N>,
        op: &Op,
    ) -> (Guard<'b, N>, Result<(Receipt, Given), Refusal>)
        ensures fits { IfOk result.1 (λ r. Fits op.now r.1) }
        ensures receipt { IfOk result.1 (λ r. IsReceipt result.0.conn.core.log op.now r.1 r.0) }
        ensures place { IfOk result.1 (λ r. pass.old.made ≤ r.0.place) }
        ensures pass { pass.new ≡ after op.now result.1 pass.old }
        ensures done { IfOk result.1 (λ r. IsDone op.now r.1 result.0.conn) }
        ensures refusal { IfErr result.1 (λ e. IsRefused result.0.conn op.now e × EndsWait e) }
        ensures at_once { IsDueAtOnce (due_in guard.entry.conn.core.phase guard.entry.conn.core.log op.now) → Calls guard.entry.conn op.now result.1 result.0.conn }
    {
        let mut guard = guard;
        for _ in rt.forever() {
            match self.turn(&mut guard, pass, op) {
                Ok(answer) => return (guard, answer),
                Err(want) => guard = self.sleep(rt, guard, want, op),
            }
        }
        unreachable!()
    }

    /// A taker of a delivery waits at a seat of its own, if one is free; all others share a condition.
    fn sleep<'b, R: Wait>(&self, rt: &R, guard: Guard<'b, N>, want: Want, op: &Op) -> Guard<'b, N> {
        match op {
            Op::Take { link } => self.sleep_for_delivery(rt, guard, *link),
            _ => guard.wait(rt, self.conditions.of(want)),
        }
    }

    fn sleep_for_delivery<'b, R: Wait>(
        &self,
        rt: &R,
        guard: Guard<'b, N>,
        link: u32,
    ) -> Guard<'b, N> {
        let mut guard = guard;
        let seat = guard.locked.sleepers.sit(link);
        let mut guard = guard.wait(rt, self.conditions.at(seat));
        guard.locked.sleepers.rise(seat);
        guard
    }

    /// One attempt of a call that waits. `Err` is what it waits for now; nothing else has changed then.
    fn turn(&self, guard: &mut Guard<'_, N>, pass: &mut Pass<N>, op: &Op) -> Result<Answer, Want>
        ensures step { IfOk result (λ a. IfOk a (λ r. Makes guard.old.conn op.now r.1 guard.new.conn)) }
        ensures fits { IfOk result (λ a. IfOk a (λ r. Fits op.now r.1)) }
        ensures receipt { IfOk result (λ a. IfOk a (λ r. IsReceipt guard.new.conn.core.log op.now r.1 r.0)) }
        ensures place { IfOk result (λ a. IfOk a (λ r. pass.old.made ≤ r.0.place)) }
        ensures pass { IfOk result (λ a. pass.new ≡ after op.now a pass.old) }
        ensures refusal { IfOk result (λ a. IfErr a (λ e. IsRefused guard.old.conn op.now e × EndsWait e)) }
        ensures err { IfOk result (λ a. OnErr a (guard.new ≡ guard.old)) }
        ensures late { OnErr result (IsDueAtOnce (due_in guard.old.conn.core.phase guard.old.conn.core.log op.now) → ⊥) }
        ensures awaits { IfErr result (λ want. IsAwaited guard.old.conn op.now want) }
        ensures waits { IfErr result (λ want. guard.new ≡ record guard.old { waiters = with_want want true guard.old.waiters }) }
        ensures rests { OnErr result (pass.new ≡ pass.old) }
    {
        match self.attempt(guard, pass, op) {
            Ok(done) => {
                let answer = Ok(done);
                pass.note(op, &answer);
                Ok(answer)
            }
            Err(Refusal::NoCredit | Refusal::NoWindow) => {
                guard.locked.wait_for(Want::Room);
                Err(Want::Room)
            }
            Err(Refusal::Nothing) => {
                let want = awaited_by(op);
                guard.locked.wait_for(want);
                Err(want)
            }
            Err(refusal) => {
                let answer = Err(refusal);
                pass.note(op, &answer);
                Ok(answer)
            }
        }
    }

    /// Moves units to the ring, and blocks until more than `seen` units were put out or the connection has ended.
    ///
    /// Returns how many units were put out, and whether the phase is `Closed`. A writer passes the number of units that
    /// it has taken.
    pub fn wait_units<R: Wait>(&self, rt: &R, seen: u64) -> (u64, bool)
        ensures { (c : Connection) × IsNews seen c result }
    {
        let (guard, news) = self.news_past(rt, seen);
        drop(guard);
        news
    }

    /// `wait_units`, with the guard: the contract can speak of its session here.
    fn news_past<'b, R: Wait>(&'b self, rt: &R, seen: u64) -> (Guard<'b, N>, (u64, bool))
        ensures { IsNews seen result.0.conn result.1 }
    {
        let mut guard = self.lock(rt);
        for _ in rt.forever() {
            self.move_units(&mut guard);
            if let Some(news) = guard.locked.news(seen) {
                return (guard, news);
            }
            guard.locked.await_units(seen);
            guard = guard.wait(rt, &self.conditions.units);
        }
        unreachable!()
    }

    /// A full journal refuses whatever comes, so then everyone who waits has to look again.
    fn tell(&self, guard: &mut Guard<'_, N>, change: Change)
        ensures conn { guard.new.conn ≡ guard.old.conn }
        ensures told { IsTold change guard.old guard.new }
    {
        self.wake_writer(guard);
        let change = if guard.locked.is_at_limit() {
            Change::Ends
        } else {
            change
        };
        self.wake_callers(guard, change);
    }

    /// Notes in the guard the threads that wait for units, if there are new units now.
    fn wake_writer(&self, guard: &mut Guard<'_, N>)
        ensures { guard.new ≡ record guard.old { waiters = told_of_units guard.old.conn guard.old.waiters } }
    {
        if guard.locked.end_await_units() {
            guard.note_units();
        }
    }

    /// Notes in the guard the callers that wait for what the change may have brought.
    fn wake_callers(&self, guard: &mut Guard<'_, N>, change: Change)
        ensures { guard.new ≡ record guard.old { waiters = told_of change guard.old.waiters } }
    {
        match change {
            Change::Nothing => {}
            Change::Brings(want) => self.wake(guard, want),
            Change::Ends => {
                self.wake(guard, Want::Room);
                self.wake(guard, Want::Delivery);
                self.wake(guard, Want::Outcome);
            }
        }
    }

    /// Threads at seats are not noted here: `Locked::rouse` chooses one of them when the lock is released.
    fn wake(&self, guard: &mut Guard<'_, N>, want: Want)
        ensures { guard.new ≡ record guard.old { waiters = with_want want false guard.old.waiters } }
    {
        if guard.locked.end_wait_for(want) {
            guard.note(want);
        }
    }
}
