//! What one thread waits for before it begins: that its end is open.
use crate::fault::PairFault;
use std::alloc::Global;
use std::sync::{Arc, Condvar, Mutex, Wait};

/// How far an end has come.
#[derive(Clone, Copy)]
pub enum Opening {
    /// It is still being opened.
    Waits,
    /// Its link is attached, and has credit where it receives.
    Ready,
    /// It has ended before.
    Failed,
}

/// A flag that one thread sets and others wait for.
#[derive(Drop)]
pub struct Gate {
    opening: Mutex<Opening>,
    changed: Condvar,
}

impl Gate {
    /// A gate for two threads, one for each.
    pub fn pair(alloc: Global) -> Result<(Arc<Gate>, Arc<Gate>), PairFault> {
        let gate = Gate {
            opening: Mutex::new(Opening::Waits),
            changed: Condvar::new(),
        };
        let Ok(gate) = Arc::new(alloc, gate) else {
            return Err(PairFault::NoMemory);
        };
        match Arc::try_clone(&gate) {
            Ok(other) => Ok((gate, other)),
            Err(_) => Err(PairFault::NoMemory),
        }
    }

    /// Says how far the end has come. What was said first stands.
    pub fn tell<R: Wait>(&self, rt: &R, opening: Opening) {
        let mut told = self.opening.lock(rt);
        if *told == Opening::Waits {
            *told = opening;
        }
        self.changed.notify_all();
    }

    /// Waits until the end is ready or has failed: whether it is ready.
    pub fn is_ready<R: Wait>(&self, rt: &R) -> bool {
        let mut told = self.opening.lock(rt);
        for _ in rt.forever() {
            match *told {
                Opening::Waits => told = self.changed.wait(rt, told),
                Opening::Ready => return true,
                Opening::Failed => return false,
            }
        }
        unreachable!()
    }
}
