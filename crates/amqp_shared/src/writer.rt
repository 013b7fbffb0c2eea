//! The end of the ring from which units are written to a socket.
ghost use Rattle.std.specs.Prelude.{◌≡◌, ◌<◌, ◌≤◌, ◌+◌, ◌-◌, ◌^◌, ◌++◌, ◌∷◌, [], length, IfSome, IfNone};
ghost use Rattle.rtrb.specs.Ring.{received, known_items, SameConsumer};

use crate::name::{Name, Numbered};
use amqp_journal::unit::Unit;
use rtrb::Consumer;
use std::alloc::Global;
use std::marker::{Model, PhantomData};

/// The writer's end of the ring.
///
/// Contracts see it as the units that were taken. It needs neither the lock nor memory, so it is independent of the
/// threads that use the session.
#[derive(Drop)]
pub struct WriterEnd<N: Name> {
    pub(crate) consumer: Consumer<Unit, Global, Numbered>,
    pub(crate) taken: u64,
    pub(crate) of: PhantomData<N>,
}

impl<N: Name> Model for WriterEnd<N> {
    ghost use Rattle.std.specs.Prelude.{◌≡◌, List, length};
    ghost use Rattle.rtrb.specs.Ring.{received};
    ghost use Rattle.amqp_journal.specs.declared.unit.Unit as frame;
    ghost use Rattle.amqp_shared.specs.Ring.{pops_from};

    ghost Value = { List frame.Unit };

    ghost view = { λ w. received w.consumer };

    ghost invariant = { λ w. (w.taken ≡ length (received w.consumer)) × (pops_from w.consumer ≡ N.ring) };
}

impl<N: Name> WriterEnd<N> {
    /// Returns the next unit, and removes it from the ring. The program must write its octets whole, and the units in
    /// this order.
    ///
    /// `None` does not mean that all units are taken: more may wait in the connection. `Shared::wait_units` and
    /// `Shared::move_units` move them to the ring.
    pub fn take(&mut self) -> Option<Unit>
        ensures some { IfSome result (λ unit. (self.new ≡ self.old ++ unit ∷ []) × (unit.number ≡ length self.old)) }
        ensures none { IfNone result (self.new ≡ self.old) }
    {
        match next_of(&mut self.consumer) {
            Some(unit) => {
                self.taken += 1;
                Some(unit)
            }
            None => None,
        }
    }

    /// Returns how many units were taken.
    pub fn taken(&self) -> u64
        ensures { result ≡ length self.now }
    {
        self.taken
    }
}

fn next_of(consumer: &mut Consumer<Unit, Global, Numbered>) -> Option<Unit>
    ensures ring { SameConsumer consumer.old consumer.new }
    ensures some { IfSome result (λ unit. (received consumer.new ≡ received consumer.old ++ unit ∷ []) × (unit.number ≡ length (received consumer.old)) × (unit.number < 2 ^ 64 - 1)) }
    ensures none { IfNone result ((received consumer.new ≡ received consumer.old) × (known_items consumer.new ≡ [])) }
{
    match consumer.pop() {
        Ok(unit) => Some(unit),
        Err(_) => None,
    }
}
