//! A call that waits, and also returns what its link left if it waited in vain.
ghost use Rattle.std.specs.Prelude.{◌≤◌, ◌≡◌, IfOk, IfErr};
ghost use Rattle.amqp_conn.specs.Connection.{Connection};
ghost use Rattle.amqp_shared.specs.Passes.{after};
ghost use Rattle.amqp_conn.specs.Calling.{due_in};
ghost use Rattle.amqp_shared.specs.Session.{IsDone, IsReceipt, IsRefused, Fits, EndsWait, IsDueAtOnce, Calls};
ghost use Rattle.amqp_shared.specs.Leaving.{plain, LeavesOf, LeavesBehind, HasLeft};

use crate::guard::Guard;
use crate::name::Name;
use crate::pass::Pass;
use crate::shared::Shared;
use amqp_conn::Left;
use amqp_frames::Role;
use amqp_journal::receipt::Receipt;
use amqp_rules::op::Op;
use amqp_rules::refusal::Refusal;
use amqp_rules::reply::Given;
use std::alloc::AllocError;
use std::sync::Wait;

/// The result of [`Shared::call_wait_or_left`].
///
/// `Ok` is the receipt and what the operation gave. `Err` is the refusal, and the first thing that the link left, if
/// any, as [`Shared::pop_left_by`] returns it.
pub type Waited = Result<(Receipt, Given), (Refusal, Result<Option<Left>, AllocError>)>;

impl<N: Name> Shared<N> {
    /// Does an operation as [`Shared::call_wait`] does; if a take or a learn is refused, also returns the first thing
    /// that its link left.
    ///
    /// Such an operation is mostly refused because its link, the session or the connection has ended. What the link
    /// left is taken under the same lock, so no other thread gets it first. This is no step. `None` if the link left
    /// nothing, or if the operation is neither a take nor a learn.
    ///
    /// # Errors
    ///
    /// The refusals of [`Shared::call_wait`], each with what the link left. `AllocError` in its place if memory runs
    /// out: what is left has not changed then, and can be popped later.
    pub fn call_wait_or_left<'b, R: Wait>(
        &self,
        rt: &R,
        guard: Guard<'b, N>,
        pass: &mut Pass<N>,
        op: &Op,
    ) -> (Guard<'b, N>, Waited)
        ensures fits { IfOk result.1 (λ r. Fits op.now r.1) }
        ensures receipt { IfOk result.1 (λ r. IsReceipt result.0.conn.core.log op.now r.1 r.0) }
        ensures place { IfOk result.1 (λ r. pass.old.made ≤ r.0.place) }
        ensures pass { pass.new ≡ after op.now (plain result.1) pass.old }
        ensures done { IfOk result.1 (λ r. IsDone op.now r.1 result.0.conn) }
        ensures left { IfErr result.1 (λ e. (c : Connection) × IsRefused c op.now e.0 × EndsWait e.0 × LeavesBehind op.now c e.1 result.0.conn) }
        ensures at_once { IsDueAtOnce (due_in guard.entry.conn.core.phase guard.entry.conn.core.log op.now) → (c : Connection) × Calls guard.entry.conn op.now (plain result.1) c × HasLeft op.now c result.1 result.0.conn }
    {
        let (mut guard, answer) = self.call_wait(rt, guard, pass, op);
        match answer {
            Ok(done) => (guard, Ok(done)),
            Err(refusal) => {
                let left = self.left_for(&mut guard, op);
                (guard, Err((refusal, left)))
            }
        }
    }

    /// A take gets what a receiver left, a learn what a sender left.
    fn left_for(&self, guard: &mut Guard<'_, N>, op: &Op) -> Result<Option<Left>, AllocError>
        ensures { LeavesBehind op.now guard.old.conn result guard.new.conn }
    {
        match op {
            Op::Take { link } => self.left_by(guard, Role::Receiver, *link),
            Op::Learn { link } => self.left_by(guard, Role::Sender, *link),
            _ => Ok(None),
        }
    }

    /// `pop_left_by`, with one clause on the connection.
    fn left_by(
        &self,
        guard: &mut Guard<'_, N>,
        role: Role,
        link: u32,
    ) -> Result<Option<Left>, AllocError>
        ensures { LeavesOf role link guard.old.conn result guard.new.conn }
    {
        match self.pop_left_by(guard, role, link) {
            Ok(left) => Ok(left),
            Err(error) => Err(error),
        }
    }
}
