//! Taking a shared connection apart.
ghost use Rattle.std.specs.Prelude.{◌≡◌, ◌≢◌, ◌<◌, ◌≤◌, ◌+◌, ◌++◌, ◌↔◌, [], length, vec_len, vec_capacity, IfOk, IfErr, IsTrue};
ghost use Rattle.amqp_journal.specs.Units.{units};
ghost use Rattle.amqp_shared.specs.Passes.{total_made, total_parts, IsCloseReason};
ghost use Rattle.amqp_shared.specs.Retaining.{IsRetained};
ghost use Rattle.amqp_shared.specs.Units.{units_of, backlog_of, MovesUnits};

use crate::closing::{all_made, empty_backlog, empty_ring, totals};
use crate::locked::Locked;
use crate::name::Name;
use crate::pass::Pass;
use crate::refused::CloseReason;
use crate::shared::Shared;
use crate::writer::WriterEnd;
use amqp_conn::Conn;
use amqp_journal::unit::Unit;

/// A shared connection that was taken apart.
#[derive(Drop)]
pub struct Closed {
    /// The connection. No unit waits in it any more.
    pub conn: Conn,
    /// How many units the writer took.
    pub taken: u64,
    /// The units that were put out and not taken, in order.
    pub left: Vec<Unit>,
}

/// A shared connection that was not taken apart: the reason, and all arguments of [`Shared::close`].
#[derive(Drop)]
pub struct NotClosed<N: Name> {
    /// Why it was not taken apart.
    pub reason: CloseReason,
    /// The data under the lock.
    pub locked: Locked<N>,
    /// The passes.
    pub passes: Vec<Pass<N>>,
    /// The writer's end.
    pub writer: WriterEnd<N>,
}

impl<N: Name> NotClosed<N> {
    /// Returns the shared connection, the passes and the writer's end, to go on with them.
    pub fn into_parts(self) -> (Shared<N>, Vec<Pass<N>>, WriterEnd<N>)
        ensures { (result.1.items ≡ self.passes.items) × (result.2 ≡ self.writer) }
    {
        let (locked, passes, writer) = self.all();
        (Shared::new(locked), passes, writer)
    }

    /// `into_parts`, before the mutex exists: the contract can speak of the data under the lock here.
    fn all(self) -> (Locked<N>, Vec<Pass<N>>, WriterEnd<N>)
        ensures { (result.0 ≡ self.locked) × (result.1.items ≡ self.passes.items) × (result.2 ≡ self.writer) }
    {
        let NotClosed {
            reason: _,
            locked,
            passes,
            writer,
        } = self;
        (locked, passes, writer)
    }
}

impl<N: Name> Shared<N> {
    /// Takes the connection apart, with its passes and its writer's end, and returns the connection and the units that
    /// nobody took.
    ///
    /// The units that the writer took, and then those that are left, are the connection's units, each once and in
    /// order. It does not block: it owns all its arguments, so no other thread holds the lock. O(p + u) for p passes
    /// and u units that are left.
    ///
    /// # Errors
    ///
    /// [`CloseReason::PassesMissing`] if the passes have not made the journal's steps, and never if they have all 65536
    /// parts; [`CloseReason::NoMemory`] if there is no memory for the units that are left. All arguments are returned
    /// in [`NotClosed`].
    pub fn close(self, passes: Vec<Pass<N>>, writer: WriterEnd<N>) -> Result<Closed, NotClosed<N>>
        ensures units { IfOk result (λ c. writer ++ c.left.items ≡ units_of c.conn) }
        ensures none_waits { IfOk result (λ c. backlog_of c.conn ≡ []) }
        ensures taken { IfOk result (λ c. c.taken ≡ length writer) }
        ensures steps { IfOk result (λ c. total_made passes.items ≡ length c.conn.core.log.journal) }
        ensures retained { IfOk result (λ c. IsRetained N.retention c.conn.core.log) }
        ensures refusal { IfErr result (λ e. IsCloseReason (total_parts passes.items) (total_made passes.items) (length e.locked.conn.core.log.journal) e.reason) }
        ensures back { IfErr result (λ e. (e.passes.items ≡ passes.items) × (e.writer ≡ writer)) }
    {
        let Shared { locked, conditions } = self;
        drop(conditions);
        close(locked.into_inner(), passes, writer)
    }
}

/// `Shared::close`, of the data under the lock: the contract can speak of it here.
fn close<N: Name>(
    locked: Locked<N>,
    passes: Vec<Pass<N>>,
    writer: WriterEnd<N>,
) -> Result<Closed, NotClosed<N>>
    ensures conn { IfOk result (λ c. MovesUnits locked.conn c.conn) }
    ensures units { IfOk result (λ c. writer ++ c.left.items ≡ units_of c.conn) }
    ensures none_waits { IfOk result (λ c. backlog_of c.conn ≡ []) }
    ensures taken { IfOk result (λ c. c.taken ≡ length writer) }
    ensures steps { IfOk result (λ c. total_made passes.items ≡ length c.conn.core.log.journal) }
    ensures retained { IfOk result (λ c. IsRetained N.retention c.conn.core.log) }
    ensures refusal { IfErr result (λ e. IsCloseReason (total_parts passes.items) (total_made passes.items) (length e.locked.conn.core.log.journal) e.reason) }
    ensures back { IfErr result (λ e. (e.locked ≡ locked) × (e.passes.items ≡ passes.items) × (e.writer ≡ writer)) }
{
    let (parts, made) = totals(passes.as_slice());
    let steps = locked.conn().logged().steps() as u64;
    if is_missing(parts, made, steps) {
        let reason = CloseReason::PassesMissing { made, steps };
        return Err(NotClosed {
            reason,
            locked,
            passes,
            writer,
        });
    }
    let count = locked.put_out().saturating_sub(writer.taken()) as usize;
    match Vec::with_capacity(*passes.allocator(), count) {
        Ok(left) => Ok(take_apart(locked, parts, passes, writer, left)),
        Err(_) => Err(NotClosed {
            reason: CloseReason::NoMemory,
            locked,
            passes,
            writer,
        }),
    }
}

/// Passes with all parts have made all steps, so they are not counted against the journal.
fn is_missing(parts: u128, made: u128, steps: u64) -> bool
    ensures { IsTrue result ↔ (parts ≢ 65536) × (made ≢ steps) }
{
    parts != 65536 && made != steps as u128
}

fn take_apart<N: Name>(
    locked: Locked<N>,
    parts: u128,
    passes: Vec<Pass<N>>,
    writer: WriterEnd<N>,
    left: Vec<Unit>,
) -> Closed
    requires parts { parts ≡ total_parts passes.items }
    requires steps { parts ≢ 65536 → total_made passes.items ≡ length locked.conn.core.log.journal }
    requires empty { (left.items ≡ []) × (vec_len left ≡ 0) }
    requires room { length (units locked.conn.core.log) ≤ length writer + vec_capacity left }
    ensures conn { MovesUnits locked.conn result.conn }
    ensures units { writer ++ result.left.items ≡ units_of result.conn }
    ensures none_waits { backlog_of result.conn ≡ [] }
    ensures taken { result.taken ≡ length writer }
    ensures steps { total_made passes.items ≡ length result.conn.core.log.journal }
    ensures retained { IsRetained N.retention result.conn.core.log }
{
    let Locked {
        conn,
        book,
        producer,
        limit: _,
        retention: _,
        waiters: _,
        sleepers: _,
    } = locked;
    let WriterEnd {
        consumer,
        taken,
        of: _,
    } = writer;
    let (mut conn, mut book, mut producer) = (conn, book, producer);
    let (mut consumer, mut left) = (consumer, left);
    let in_ring = consumer.slots_beside(&mut producer);
    let waiting = (conn.logged().put_out() - taken) as usize - in_ring;
    if parts == 65536 {
        all_made(&mut book, passes);
    }
    empty_ring(&mut consumer, in_ring, &mut left);
    empty_backlog(&mut conn, waiting, &mut left);
    Closed { conn, taken, left }
}
