//! Which handles are ours.
ghost use Rattle.std.specs.Prelude.{◌≡◌, ◌<◌, ◌≤◌, ◌^◌, ℕ, [], List, OnOk};
ghost use Rattle.std.specs.BinaryHeap.{heap_capacity, heap_len};
ghost use Rattle.amqp_links.specs.Handles.{AreHandled, HasRoom, IsGained, used};
ghost use Rattle.amqp_rules.specs.View.{LinkView, free_handle};

use std::alloc::{AllocError, Global};
use std::cmp::Reverse;
use std::collections::BinaryHeap;

/// Our handles: those below the next are free or in use. There is room for all of them to be free, so that giving one back cannot fail.
///
/// With h handles in use at most: `lowest` takes one step, `take` and `give` O(log h).
#[derive(Drop)]
pub(crate) struct Handles {
    free: BinaryHeap<Reverse<u32>>,
    next: u32,
}

impl Handles {
    /// None is in use. It allocates nothing.
    pub(crate) fn new(alloc: Global) -> Handles
        ensures handled { AreHandled result [] }
        ensures next { result.next ≡ 0 }
    {
        Handles {
            free: BinaryHeap::new(alloc),
            next: 0,
        }
    }

    /// The lowest that is not in use.
    pub(crate) fn lowest(&self) -> u32
        ensures { (links : List LinkView) → AreHandled self.now links → result ≡ free_handle links }
    {
        match self.free.peek() {
            Some(handle) => handle.0,
            None => self.next,
        }
    }

    /// Room for one more in use.
    pub(crate) fn reserve(&mut self) -> Result<(), AllocError>
        requires { self.old.next < 2 ^ 31 }
        ensures room { OnOk result (HasRoom self.new) }
        ensures handled { (links : List LinkView) → AreHandled self.old links → AreHandled self.new links }
        ensures next { self.new.next ≡ self.old.next }
    {
        if self.free.is_empty() {
            self.free.reserve(self.next as usize + 1)?;
        }
        Ok(())
    }

    /// The lowest that is not in use is in use.
    pub(crate) fn take(&mut self)
        requires room { HasRoom self.old }
        requires low { self.old.next < 2 ^ 31 }
        ensures handled { (less more : List LinkView) → AreHandled self.old less → IsGained (free_handle less) less more → AreHandled self.new more }
        ensures low { (links : List LinkView) (n : ℕ) → AreHandled self.old links → used links < n → self.old.next ≤ n → self.new.next ≤ n }
    {
        match self.free.pop() {
            Some(_) => {}
            None => self.next += 1,
        }
    }

    /// A handle is not in use any more.
    pub(crate) fn give(&mut self, handle: u32)
        requires { heap_len self.old.free < heap_capacity self.old.free }
        ensures handled { (less more : List LinkView) → AreHandled self.old more → IsGained handle less more → AreHandled self.new less }
        ensures next { self.new.next ≡ self.old.next }
    {
        let _ = self.free.push(Reverse(handle));
    }

    /// None is in use any more.
    pub(crate) fn clear(&mut self)
        ensures handled { AreHandled self.new [] }
        ensures next { self.new.next ≡ 0 }
    {
        self.free.clear();
        self.next = 0;
    }
}
