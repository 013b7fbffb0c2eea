//! Several operations under one lock.
ghost use Rattle.std.specs.Prelude.{◌≡◌, IfOk, OnErr};
ghost use Rattle.amqp_shared.specs.Many.{CallsAll, Tells, Notes};

use crate::guard::Guard;
use crate::name::Name;
use crate::pass::Pass;
use crate::shared::Shared;
use amqp_journal::receipt::Receipt;
use amqp_rules::op::Op;
use amqp_rules::refusal::Refusal;
use amqp_rules::reply::Given;
use std::alloc::{AllocError, Global};

/// The answers of [`Shared::call_many`].
#[derive(Drop)]
pub struct Called {
    /// The receipt and the result of each operation that was done, in order.
    pub answers: Vec<(Receipt, Given)>,
    /// Why the next operation was refused; `None` if all were done.
    pub refused: Option<Refusal>,
}

impl<N: Name> Shared<N> {
    /// Does several operations on the locked session, in order, up to the first that is refused.
    ///
    /// Each is done and answered as by [`Shared::call`], and counted in the pass. The refusal of an operation is in
    /// [`Called::refused`].
    ///
    /// # Errors
    ///
    /// `AllocError` if there is no memory for the answers; no operation was done then.
    pub fn call_many(
        &self,
        alloc: Global,
        guard: &mut Guard<'_, N>,
        pass: &mut Pass<N>,
        ops: &[Op],
    ) -> Result<Called, AllocError>
        ensures calls { IfOk result (λ c. CallsAll Tells guard.old ops.now c.answers.items c.refused guard.new) }
        ensures pass { IfOk result (λ c. CallsAll Notes pass.old ops.now c.answers.items c.refused pass.new) }
        ensures err { OnErr result ((guard.new ≡ guard.old) × (pass.new ≡ pass.old)) }
    {
        let mut answers = Vec::with_capacity(alloc, ops.len())?;
        for op in ops {
            match self.call(guard, pass, op) {
                Ok(done) => answers.push_reserved(done),
                Err(refusal) => {
                    return Ok(Called {
                        answers,
                        refused: Some(refusal),
                    });
                }
            }
        }
        Ok(Called {
            answers,
            refused: None,
        })
    }
}
