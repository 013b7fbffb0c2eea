//! What C holds of a connection.
ghost use Rattle.std.specs.Prelude.{◌≡◌, Option, Some, None, option_map};
ghost use Rattle.amqp_c.specs.Held.{held, held_coded};
ghost use Rattle.amqp_caller.specs.contracts.caller.Caller.{the_row as caller_row};

use crate::unboxed::{Unboxed, rebox, unbox};
use amqp_caller::Caller;
use std::alloc::Global;
use std::marker::Model;
use std::mem::replace;
use std::ptr::null_mut;

/// A connection in the heap, or none. In C it is 16 octets, and all zero stands for none.
#[repr(C)]
pub struct Handle {
    at: *mut u8,
    live: bool,
    alloc: Global,
    pub ghost caller: { Option caller_row.Denot } by { held_coded },
}

impl Model for Handle {
    ghost also_owns = { λ h. held h.alloc h.live h.at h.caller };
}

impl Handle {
    /// Returns a handle without a connection.
    pub fn empty(alloc: Global) -> Handle
        ensures { result.caller ≡ None }
    {
        Handle {
            at: null_mut(),
            live: false,
            alloc,
        }
    }

    /// Returns a handle of this connection.
    pub fn of(caller: Unboxed<Caller, Global>) -> Handle
        ensures { result.caller ≡ Some caller.value }
    {
        let Unboxed { at, alloc } = caller;
        Handle {
            at: at as *mut u8,
            live: true,
            alloc,
        }
    }

    /// Returns the connection, if there is one.
    pub fn open(self) -> Option<Unboxed<Caller, Global>>
        ensures { option_map (λ u. u.value) result ≡ self.caller }
    {
        let Handle { at, live, alloc } = self;
        if live {
            return Some(Unboxed {
                at: at as *mut Caller,
                alloc,
            });
        }
        None
    }
}

impl Drop for Handle {
    fn drop(self) {
        match self.open() {
            Some(unboxed) => drop(rebox(unboxed)),
            None => {}
        }
    }
}

impl Handle {
    /// Takes the connection out, and leaves the handle without one.
    #[inline(always)]
    pub fn take(&mut self, alloc: Global) -> Option<Box<Caller, Global>>
        ensures taken { option_map (λ b. b.value) result ≡ self.old.caller }
        ensures left { self.new.caller ≡ None }
    {
        let held = replace(self, Handle::empty(alloc));
        match held.open() {
            Some(unboxed) => Some(rebox(unboxed)),
            None => None,
        }
    }

    /// Puts the connection into the handle, and frees one that it had.
    #[inline(always)]
    pub fn put(&mut self, caller: Box<Caller, Global>)
        ensures { self.new.caller ≡ Some caller.value }
    {
        *self = Handle::of(unbox(caller));
    }
}
