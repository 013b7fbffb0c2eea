//! Messages in memory, by address.
ghost use Rattle.std.specs.Prelude.{◌≡◌, ◌≤◌, ◌<◌, ◌==◌, ◌++◌, ◌∷◌, [], cond, length, max, false, is_some, remove, slice_get, IsTrue, IfOk, OnOk, OnErr, option_copied, unwrap_or};
ghost use Rattle.std.specs.List.{position};
ghost use Rattle.amqp_policy.specs.Queues.{no_queues, has_address, is_for, short_at, next_place, message_of, removed, total, placed, place_of, after_put, after_put_back, next_of, after_next, message_at, after_clear};

use amqp_types::Text;
use bytes::Bytes;
use std::alloc::{AllocError, Global};
use std::collections::VecDeque;
use std::marker::Model;

/// A message that waits to be taken.
#[derive(Drop)]
pub struct Queued {
    /// The message-format of its delivery.
    pub format: u32,
    pub payload: Bytes,
    /// How many attempts to deliver it have failed (part 3, 3.2.1).
    pub delivery_count: u32,
    /// The taker to which it does not go again.
    pub excluded: Option<u64>,
}

/// Messages of one address.
#[derive(Drop)]
struct Queue {
    address: Text,
    messages: VecDeque<Queued>,
}

impl Model for Queue {
    ghost use Rattle.amqp_policy.specs.Queues.{QueueView};

    ghost Value = { QueueView };

    ghost view = { λ q. record { address = q.address; messages = q.messages.items } };
}

impl Queue {
    fn new(alloc: Global, address: Text) -> Queue
        ensures { result ≡ record { address = address; messages = [] } }
    {
        Queue {
            address,
            messages: VecDeque::new(alloc),
        }
    }

    fn has_address(&self, address: &Text) -> bool
        ensures { result ≡ has_address address.now self.now }
    {
        self.address == *address
    }

    fn len(&self) -> usize
        ensures { result ≡ length self.now.messages }
    {
        self.messages.len()
    }

    fn put(&mut self, message: Queued) -> bool
        ensures { self.new ≡ cond result (record self.old { messages = self.old.messages ++ message ∷ [] }) self.old }
    {
        self.messages.push_back(message).is_ok()
    }

    fn put_back(&mut self, message: Queued) -> bool
        ensures { self.new ≡ cond result (record self.old { messages = message ∷ self.old.messages }) self.old }
    {
        self.messages.push_front(message).is_ok()
    }

    fn next_place(&self, longest: usize, taker: u64) -> Option<usize>
        ensures { result ≡ next_place longest taker self.now.messages }
    {
        let first = first_for(&self.messages, taker);
        if_short(&self.messages, longest, first)
    }

    fn remove(&mut self, at: usize) -> Option<Queued>
        ensures value { result ≡ slice_get self.old.messages at }
        ensures new { self.new ≡ record self.old { messages = remove self.old.messages at } }
    {
        self.messages.remove(at)
    }

    #[tactic(auto, using(crate::proofs::Totals::removed_shorter))]
    fn next(&mut self, longest: usize, taker: u64) -> Option<Queued>
        ensures value { result ≡ message_of self.old.messages (next_place longest taker self.old.messages) }
        ensures new { self.new ≡ record self.old { messages = removed (next_place longest taker self.old.messages) self.old.messages } }
        ensures shorter { length self.new.messages ≤ length self.old.messages }
    {
        match self.next_place(longest, taker) {
            Some(at) => self.remove(at),
            None => None,
        }
    }

    fn browse(&self, at: usize) -> Option<&Queued>
        ensures { option_copied result ≡ slice_get self.now.messages at }
    {
        self.messages.get(at)
    }

    fn clear(&mut self)
        ensures { self.new ≡ record self.old { messages = [] } }
    {
        self.messages.clear();
    }
}

/// Queues of messages, each found by its address. Together they hold at most as many messages as their limit.
#[derive(Drop)]
pub struct Queues {
    alloc: Global,
    limit: usize,
    len: usize,
    queues: Vec<Queue>,
}

impl Model for Queues {
    ghost use Rattle.std.specs.Prelude.{◌≡◌};
    ghost use Rattle.amqp_policy.specs.Queues.{QueuesView, total};

    ghost Value = { QueuesView };

    ghost view = { λ q. record { limit = q.limit; queues = q.queues.items } };

    ghost invariant = { λ q. q.len ≡ total q.queues.items };
}

/// A message goes to this taker.
fn is_for(message: &Queued, taker: u64) -> bool
    ensures { result ≡ is_for taker message.now }
{
    match message.excluded {
        Some(excluded) => excluded != taker,
        None => true,
    }
}

/// The place of the first message that goes to this taker.
fn first_for(messages: &VecDeque<Queued>, taker: u64) -> Option<usize>
    ensures { result ≡ position (is_for taker) messages.now.items }
{
    messages.iter().position(|message| is_for(message, taker))
}

/// The place, if the message there has at most `longest` octets.
fn if_short(messages: &VecDeque<Queued>, longest: usize, place: Option<usize>) -> Option<usize>
    ensures { result ≡ short_at longest messages.now.items place }
{
    let place = place?;
    match messages.get(place) {
        Some(message) if message.payload.len() <= longest => Some(place),
        _ => None,
    }
}

fn place_in(queues: &[Queue], address: &Text) -> Option<usize>
    ensures { result ≡ position (has_address address.now) queues.now }
{
    queues.iter().position(|queue| queue.has_address(address))
}

impl Queues {
    /// Returns no queues, which together take at most `limit` messages.
    pub fn new(alloc: Global, limit: usize) -> Queues
        ensures { result ≡ no_queues limit }
    {
        Queues {
            alloc,
            limit,
            len: 0,
            queues: Vec::new(alloc),
        }
    }

    /// Returns how many messages all queues hold together.
    pub fn len(&self) -> usize
        ensures { result ≡ total self.now.queues }
    {
        self.len
    }

    /// Returns whether no queue holds a message.
    pub fn is_empty(&self) -> bool
        ensures { result ≡ (total self.now.queues == 0) }
    {
        self.len == 0
    }

    /// Returns the place of the queue with this address. O(n) for n queues.
    pub fn find(&self, address: &Text) -> Option<usize>
        ensures { result ≡ place_of address.now self.now }
    {
        place_in(self.queues.as_slice(), address)
    }

    /// Returns the place of the queue with this address, and makes an empty one if there is none. O(n) for n queues.
    ///
    /// # Errors
    ///
    /// `AllocError` if memory runs out. Nothing has changed then.
    pub fn place(&mut self, address: &Text) -> Result<usize, AllocError>
        ensures place { IfOk result (λ place. place ≡ unwrap_or (place_of address.now self.old) (length self.old.queues)) }
        ensures placed { OnOk result (self.new ≡ placed address.now self.old) }
        ensures err { OnErr result (self.new ≡ self.old) }
    {
        if let Some(place) = self.find(address) {
            return Ok(place);
        }
        let address = address.clone()?;
        let place = self.queues.len();
        self.queues.push(Queue::new(self.alloc, address))?;
        Ok(place)
    }

    /// Puts a message behind the others of its queue, and returns whether it did. It does not if the limit is reached, if there is no such queue, or if memory runs
    /// out.
    pub fn put(&mut self, place: usize, message: Queued) -> bool
        ensures put { IsTrue result → (total self.old.queues < self.old.limit) × (place < length self.old.queues) × (self.new ≡ after_put place message self.old) }
        ensures not { result ≡ false → self.new ≡ self.old }
        ensures within { total self.new.queues ≤ max self.old.limit (total self.old.queues) }
    {
        if self.len >= self.limit {
            drop(message);
            return false;
        }
        let Some(queue) = self.queues.get_mut(place) else {
            drop(message);
            return false;
        };
        if !queue.put(message) {
            return false;
        }
        self.len += 1;
        true
    }

    /// Puts a message back before the others of its queue, whatever the limit is, and returns whether it did. It does not if there is no such queue, or if memory runs
    /// out.
    pub fn put_back(&mut self, place: usize, message: Queued) -> bool
        ensures put { IsTrue result → (place < length self.old.queues) × (self.new ≡ after_put_back place message self.old) }
        ensures not { result ≡ false → self.new ≡ self.old }
    {
        if self.len == usize::MAX {
            drop(message);
            return false;
        }
        let Some(queue) = self.queues.get_mut(place) else {
            drop(message);
            return false;
        };
        if !queue.put_back(message) {
            return false;
        }
        self.len += 1;
        true
    }

    /// Returns whether [`next`](Queues::next) would return a message.
    pub fn waits(&self, place: usize, longest: usize, taker: u64) -> bool
        ensures { result ≡ is_some (next_of place longest taker self.now) }
    {
        match self.queues.get(place) {
            Some(queue) => queue.next_place(longest, taker).is_some(),
            None => false,
        }
    }

    /// Removes and returns the first message of the queue that goes to this taker, if it has at most `longest` octets.
    pub fn next(&mut self, place: usize, longest: usize, taker: u64) -> Option<Queued>
        ensures value { result ≡ next_of place longest taker self.old }
        ensures new { self.new ≡ after_next place longest taker self.old }
    {
        let queue = self.queues.get_mut(place)?;
        let before = queue.len();
        let message = queue.next(longest, taker);
        let after = queue.len();
        self.len -= before - after;
        message
    }

    /// Returns one message of a queue, by its place behind the first one.
    pub fn browse(&self, place: usize, at: usize) -> Option<&Queued>
        ensures { option_copied result ≡ message_at place at self.now }
    {
        self.queues.get(place)?.browse(at)
    }

    /// Drops all messages of a queue, whose address is gone.
    pub fn clear(&mut self, place: usize)
        ensures { self.new ≡ after_clear place self.old }
    {
        if let Some(queue) = self.queues.get_mut(place) {
            let len = queue.len();
            queue.clear();
            self.len -= len;
        }
    }
}
