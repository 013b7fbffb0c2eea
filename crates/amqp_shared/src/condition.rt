//! A condition at which threads wait. Its notifications are counted under the lock.

use crate::locked::Locked;
use crate::name::Name;
use std::hint::spin_loop;
use std::sync::{Condvar, MutexGuard, Wait};
use std::time::Duration;

/// How often a thread checks its condition before it sleeps: some microseconds.
const LOOKS: u32 = 50;

/// The longest sleep, in seconds. A thread that wakes without a notification tries again and goes back to sleep.
const LONGEST: u64 = 86400;

/// How many notifications a condition had when the lock was held.
#[derive(Clone, Copy)]
pub(crate) struct Count {
    notifications: u64,
}

#[derive(Drop)]
pub(crate) struct Condition {
    condvar: Condvar,
}

impl Condition {
    pub(crate) fn new() -> Condition {
        Condition {
            condvar: Condvar::new(),
        }
    }

    /// The count is read under the lock, which `_held` shows: no notification from here on is missed.
    pub(crate) fn count<N: Name>(&self, _held: &MutexGuard<'_, Locked<N>>) -> Count {
        Count {
            notifications: self.condvar.notifications(),
        }
    }

    /// Waits for a notification after the count. Spins before it sleeps, because a sleep costs a system call.
    pub(crate) fn wait<R: Wait>(&self, rt: &R, count: Count) {
        if !self.is_notified(count) {
            self.condvar
                .sleep(rt, count.notifications, Duration::from_secs(LONGEST));
        }
    }

    fn is_notified(&self, count: Count) -> bool {
        for _ in 0..LOOKS {
            if self.condvar.notifications() != count.notifications {
                return true;
            }
            spin_loop();
        }
        false
    }

    pub(crate) fn notify_one(&self) {
        self.condvar.notify_one();
    }

    pub(crate) fn notify_all(&self) {
        self.condvar.notify_all();
    }
}
