//! The guard that the lock returns: it lends the session, and wakes threads on its release.
ghost use Rattle.std.specs.Prelude.{◌≡◌};
ghost use Rattle.amqp_shared.specs.Retaining.{IsRetained};

use crate::condition::Condition;
use crate::locked::Locked;
use crate::name::Name;
use crate::waiting::{Conditions, Due, Want};
use amqp_conn::Conn;
use std::marker::Model;
use std::sync::{Mutex, MutexGuard, Wait};

/// The session of a shared connection, lent until this guard is dropped.
///
/// Contracts see it as the data under the lock. Dropping it first releases the lock and then wakes threads, so that no
/// thread wakes up only to find the lock taken.
pub struct Guard<'a, N: Name> {
    pub(crate) locked: MutexGuard<'a, Locked<N>>,
    pub(crate) conditions: &'a Conditions,
    pub(crate) due: Due,
}

impl<'a, N: Name> Model for Guard<'a, N> {
    ghost use Rattle.std.specs.Sync.Mutex.{mutex_guard_value};
    ghost use Rattle.amqp_shared.specs.Waking.{Held};
    ghost use Rattle.amqp_types.specs.contracts.value.Value as value;
    ghost use Rattle.std.specs.Coded.{codes};

    ghost Value = { Held };

    ghost coded = { Prim.hlevel (codes, value.the_row.coded) };

    ghost view = { λ g. mutex_guard_value g.locked };
}

impl<'a, N: Name> Drop for Guard<'a, N> {
    fn drop(self) {
        let Guard {
            locked,
            conditions,
            due,
        } = self;
        give_back(locked, conditions, due);
    }
}

/// Threads are woken after the lock is released, so that they do not wake up only to find it taken.
fn give_back<'a, N: Name>(
    locked: MutexGuard<'a, Locked<N>>,
    conditions: &Conditions,
    due: Due,
) -> &'a Mutex<Locked<N>> {
    let mut locked = locked;
    let seat = locked.rouse();
    let others = locked.sleepers.has_others();
    let mutex = MutexGuard::unlock(locked);
    conditions.wake(due, seat, others);
    mutex
}

impl<'a, N: Name> Guard<'a, N> {
    /// Returns the connection, with its phase, its journal and its endpoint.
    ///
    /// No entry of the journal was forgotten if the seed keeps all of them.
    pub fn conn(&self) -> &Conn
        ensures value { result.now ≡ self.now.conn }
        ensures retained { IsRetained N.retention self.now.conn.core.log }
    {
        self.locked.conn()
    }

    pub(crate) fn note(&mut self, want: Want)
        ensures { self.new ≡ self.old }
    {
        self.due = self.due.and(want);
    }

    pub(crate) fn note_units(&mut self)
        ensures { self.new ≡ self.old }
    {
        self.due = Due {
            units: true,
            ..self.due
        };
    }

    /// Releases the lock until the condition is notified, and takes it again. Wakes the noted threads before it waits.
    pub(crate) fn wait<R: Wait>(self, rt: &R, condition: &Condition) -> Guard<'a, N> {
        let Guard {
            locked,
            conditions,
            due,
        } = self;
        let count = condition.count(&locked);
        let mutex = give_back(locked, conditions, due);
        condition.wait(rt, count);
        Guard {
            locked: mutex.lock(rt),
            conditions,
            due: Due::NONE,
        }
    }
}
