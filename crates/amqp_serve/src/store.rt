//! The messages of all threads, by address, and what the threads have done.
ghost use Rattle.std.specs.Prelude.{◌≡◌, ◌≢◌, ◌<◌, IfOk, length, unwrap_or};
ghost use Rattle.amqp_policy.specs.Queues.{total, place_of, after_put};

use crate::answer::Reason;
use crate::receipt::{Receipt, receipt_of};
use crate::returning::{Sending, restore};
use amqp_conn::Text;
use amqp_policy::{Queued, Queues};
use std::alloc::{AllocError, Global};
use std::collections::VecDeque;
use std::io;

/// How many addresses there are at most.
const MAX_ADDRESSES: usize = 65536;

/// So many addresses that were made up are not used again, so that nobody who still knows one meets its next link.
const UNUSED: usize = 1000;

/// What a server has done.
#[derive(Clone, Copy)]
pub struct Totals {
    /// How many connections have ended.
    pub ended: u64,
    /// How many of them failed.
    pub faults: u64,
    /// How many messages came in.
    pub came: u64,
    /// How many messages went out and are done with.
    pub went: u64,
}

impl Totals {
    /// Counts a connection that has ended.
    pub fn end(&mut self, is_fault: bool) {
        self.ended = self.ended.saturating_add(1);
        if is_fault {
            self.faults = self.faults.saturating_add(1);
        }
    }
}

/// A queue whose address is made up.
#[derive(Clone, Copy, Debug, PartialEq, Eq)]
pub struct Temporary {
    /// The number in its address.
    pub number: u64,
    pub place: usize,
}

impl Temporary {
    /// Returns its address.
    ///
    /// # Errors
    ///
    /// `AllocError` if memory runs out.
    pub fn address(self, alloc: Global) -> Result<Text, AllocError> {
        let number = self.number;
        let text = format!(in alloc; "temporary-{number}")?;
        Ok(Text { text })
    }
}

/// The messages of all threads, and what these have done.
#[derive(Drop)]
pub struct Store {
    alloc: Global,
    pub queues: Queues,
    pub totals: Totals,
    /// Why a thread has ended before its time.
    pub failed: Option<io::Error>,
    /// How many addresses there are.
    addresses: usize,
    /// How many addresses were made up.
    made_up: u64,
    /// Addresses that were made up and are deleted, the oldest first.
    deleted: VecDeque<Temporary>,
}

impl Store {
    /// Returns a store whose queues together take at most `limit` messages.
    pub fn new(alloc: Global, limit: usize) -> Store {
        Store {
            alloc,
            queues: Queues::new(alloc, limit),
            totals: Totals {
                ended: 0,
                faults: 0,
                came: 0,
                went: 0,
            },
            failed: None,
            addresses: 0,
            made_up: 0,
            deleted: VecDeque::new(alloc),
        }
    }

    /// Returns the place of the queue with this address, and makes one if there is none.
    ///
    /// # Errors
    ///
    /// [`Reason::NotFound`] if the address was made up and is deleted; [`Reason::TooMany`] if there are too many addresses, or memory runs out.
    pub fn place(&mut self, address: &Text) -> Result<usize, Reason>
        ensures { IfOk result (λ place. place ≡ unwrap_or (place_of address.now self.old.queues) (length self.old.queues.queues)) }
    {
        if let Some(place) = self.queues.find(address) {
            if is_deleted(&self.deleted, place) {
                return Err(Reason::NotFound);
            }
            return Ok(place);
        }
        if self.addresses >= MAX_ADDRESSES {
            return Err(Reason::TooMany);
        }
        match self.queues.place(address) {
            Ok(place) => {
                self.addresses = self.addresses.saturating_add(1);
                Ok(place)
            }
            Err(_) => Err(Reason::TooMany),
        }
    }

    /// Makes up an address, and a queue for it.
    ///
    /// # Errors
    ///
    /// [`Reason::TooMany`] if there are too many addresses, or memory runs out.
    pub fn make_up(&mut self) -> Result<Temporary, Reason> {
        if self.deleted.len() > UNUSED {
            if let Some(temporary) = self.deleted.pop_front() {
                self.queues.clear(temporary.place);
                return Ok(temporary);
            }
        }
        let number = self.made_up;
        let made = Temporary { number, place: 0 };
        let Ok(address) = made.address(self.alloc) else {
            return Err(Reason::TooMany);
        };
        let place = self.place(&address)?;
        self.made_up = number.saturating_add(1);
        Ok(Temporary { number, place })
    }

    /// Deletes an address that was made up, with the messages of its queue.
    pub fn delete(&mut self, temporary: Temporary) {
        self.queues.clear(temporary.place);
        // If memory runs out the address is there for good.
        let _ = self.deleted.push_back(temporary);
    }

    /// Puts a message that came into its queue.
    pub fn put(&mut self, place: usize, message: Queued) -> Receipt
        ensures stored { result ≡ Receipt.Stored → (total self.old.queues.queues < self.old.queues.limit) × (self.new.queues ≡ after_put place message self.old.queues) }
        ensures not { result ≢ Receipt.Stored → self.new.queues ≡ self.old.queues }
    {
        let is_in = self.queues.put(place, message);
        if is_in {
            self.totals.came = self.totals.came.saturating_add(1);
        }
        receipt_of(is_in)
    }

    /// Puts messages back into their queues, and counts so many more that are done with.
    pub fn take_back(&mut self, back: &mut VecDeque<Sending>, done: u64) {
        self.totals.went = self.totals.went.saturating_add(done);
        // A message is lost if memory runs out.
        let _: u64 = restore(&mut self.queues, back);
    }

    /// Returns whether there is a message at a place behind the first one that has at most `longest` octets.
    pub fn has_copy(&self, place: usize, at: usize, longest: usize) -> bool {
        match self.queues.browse(place, at) {
            Some(message) => message.payload.len() <= longest,
            None => false,
        }
    }

    /// Returns a copy of a message, by its place behind the first one, if it has at most `longest` octets. The octets are shared.
    pub fn copy(&self, place: usize, at: usize, longest: usize) -> Option<Queued> {
        let message = self.queues.browse(place, at)?;
        if message.payload.len() > longest {
            return None;
        }
        match message.payload.clone() {
            Ok(payload) => Some(Queued {
                format: message.format,
                payload,
                delivery_count: message.delivery_count,
                excluded: None,
            }),
            Err(_) => None,
        }
    }
}

fn is_deleted(deleted: &VecDeque<Temporary>, place: usize) -> bool {
    deleted.iter().any(|temporary| temporary.place == place)
}
