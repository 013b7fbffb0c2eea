//! The right to make steps, distributed among threads.
ghost use Rattle.std.specs.Prelude.{◌≡◌, ◌<◌, ◌≤◌, ◌+◌, ◌^◌, [], ◌∷◌, IfSome, IfNone};
ghost use Rattle.amqp_shared.specs.Passes.{Tally};

use crate::history::History;
use crate::name::Name;
use amqp_journal::receipt::Receipt;
use amqp_rules::op::Op;
use amqp_rules::refusal::Refusal;
use amqp_rules::reply::Given;
use std::marker::Model;
use std::sync::ledger::Share;

pub(crate) type Answer = Result<(Receipt, Given), Refusal>;

/// A share of the right to make steps, with the number of steps that were made by it.
///
/// It has some of the 65536 parts of a connection's right. When all parts come back to
/// [`Shared::close`](crate::Shared::close), the passes' steps are the journal's. At run time a pass only counts; its
/// calls and their answers (`asked`) exist in contracts alone.
#[derive(Drop)]
pub struct Pass<N: Name> {
    pub(crate) share: Share<N>,
    pub(crate) parts: u32,
    pub(crate) made: u64,
    pub(crate) asked: History<Op, Answer>,
}

impl<N: Name> Model for Pass<N> {
    ghost use Rattle.std.specs.Prelude.{◌≡◌, ◌<◌, ◌^◌};
    ghost use Rattle.amqp_shared.specs.Passes.{Tally};
    ghost use Rattle.amqp_types.specs.contracts.value.Value as value;
    ghost use Rattle.std.specs.Coded.{codes};

    ghost Value = { Tally };

    ghost coded = { Prim.hlevel (codes, value.the_row.coded) };

    ghost view = { λ p. record { parts = p.parts; made = p.made; asked = p.asked.items } };

    ghost invariant = { λ p. (p.share.parts ≡ p.parts) × (p.share.amount ≡ p.made) × (0 < p.parts) };
}

impl<N: Name> Pass<N> {
    /// Returns how many steps the calls with this pass have made.
    pub fn made(&self) -> u64
        ensures { result ≡ self.now.made }
    {
        self.made
    }

    /// Splits off a pass with one part, which has made no step. `None` if this pass has only one part itself.
    ///
    /// A pass that was split off has one part, so all passes are split off the first one.
    pub fn split(&mut self) -> Option<Pass<N>>
        ensures some { IfSome result (λ p. (p ≡ record { parts = 1; made = 0; asked = [] }) × (self.new.parts + 1 ≡ self.old.parts) × (self.new.made ≡ self.old.made) × (self.new.asked ≡ self.old.asked)) }
        ensures none { IfNone result ((self.new ≡ self.old) × (self.old.parts ≡ 1)) }
    {
        if self.parts == 1 {
            return None;
        }
        self.parts -= 1;
        Some(Pass {
            share: self.share.split_off(1, 0),
            parts: 1,
            made: 0,
            asked: History::new(),
        })
    }

    /// Records a call and its answer, for contracts alone.
    pub(crate) fn note(&mut self, op: &Op, answer: &Answer)
        ensures { self.new ≡ record self.old { asked = (op.now, answer.now) ∷ self.old.asked } }
    {
        self.asked = self.asked.and(op, answer);
    }
}
