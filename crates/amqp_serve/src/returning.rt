//! What becomes of messages that were sent: what an outcome does (part 3, 3.4), and what a link that ends gives back.
ghost use Rattle.std.specs.Prelude.{◌≡◌, ◌++◌, ◌-◌, [], filter, length, IsTrue};
ghost use Rattle.std.specs.List.{position};
ghost use Rattle.amqp_policy.specs.Queues.{after_put_back};
ghost use Rattle.amqp_serve.specs.Returning.{returned, after_end, is_on, goes_back, stays, not_if_copy, has_id, restored};

use amqp_policy::{AfterOutcome, Queued, Queues};
use bytes::Bytes;
use std::alloc::Global;
use std::collections::VecDeque;
use std::mem;

/// A message that was sent, or is being sent, and has no outcome yet.
#[derive(Drop)]
pub struct Sending {
    pub link: u32,
    pub id: u32,
    /// The place of its queue.
    pub place: usize,
    /// The message itself is still in its queue.
    pub is_copy: bool,
    pub message: Queued,
    /// What is sent: the message with its delivery-count.
    pub octets: Bytes,
}

/// Returns the message as it goes back to its queue: with one failed attempt more, and not to the taker again.
fn returned(message: Queued, has_failed: bool, is_elsewhere: bool, taker: u64) -> Queued
    ensures { result ≡ returned has_failed is_elsewhere taker message }
{
    let mut message = message;
    if has_failed {
        message.delivery_count = message.delivery_count.saturating_add(1);
    }
    if is_elsewhere {
        message.excluded = Some(taker);
    }
    message
}

/// Returns what goes back to its queue once the taker has sent an outcome, or `None` if the message is done with.
pub fn after_end(one: Sending, after: AfterOutcome, taker: u64) -> Option<Sending>
    ensures { result ≡ after_end after taker one }
{
    match after {
        AfterOutcome::Returned {
            has_failed,
            is_elsewhere,
        } => put_back_if(one, has_failed, is_elsewhere, taker),
        AfterOutcome::Finished | AfterOutcome::Pending => {
            drop(one);
            None
        }
    }
}

fn put_back_if(one: Sending, has_failed: bool, is_elsewhere: bool, taker: u64) -> Option<Sending>
    ensures { result ≡ after_end (AfterOutcome.Returned has_failed is_elsewhere) taker one }
{
    if one.is_copy {
        drop(one);
        return None;
    }
    let mut one = one;
    one.message = returned(one.message, has_failed, is_elsewhere, taker);
    Some(one)
}

fn is_on(one: &Sending, link: Option<u32>) -> bool
    ensures { result ≡ is_on link one.now }
{
    match link {
        Some(link) => one.link == link,
        None => true,
    }
}

/// Puts a message behind the others of a list, unless it is a copy. Returns whether memory sufficed.
fn give_back(back: &mut VecDeque<Sending>, one: Sending) -> bool
    ensures { IsTrue result → back.new.items ≡ back.old.items ++ not_if_copy one }
{
    if one.is_copy {
        drop(one);
        return true;
    }
    back.push_back(one).is_ok()
}

/// Moves the messages that were sent on the link, or on any link if it is `None`, behind those of `back`, in the order in which they began. Copies
/// are dropped. Returns
/// whether memory sufficed: messages for which it did not are lost.
pub fn leave(
    alloc: Global,
    sent: &mut VecDeque<Sending>,
    back: &mut VecDeque<Sending>,
    link: Option<u32>,
) -> bool
    ensures back { IsTrue result → back.new.items ≡ back.old.items ++ filter (goes_back link) sent.old.items }
    ensures stay { IsTrue result → sent.new.items ≡ filter (stays link) sent.old.items }
{
    let mut kept = VecDeque::new(alloc);
    let mut is_whole = true;
    for _ in 0..sent.len() {
        if let Some(one) = sent.pop_front() {
            let is_moved = if is_on(&one, link) {
                give_back(back, one)
            } else {
                kept.push_back(one).is_ok()
            };
            is_whole = is_whole && is_moved;
        }
    }
    mem::swap(sent, &mut kept);
    drop(kept);
    is_whole
}

/// Puts a message back before the others of its queue, and returns whether it did.
fn put_back(queues: &mut Queues, one: Sending) -> bool
    ensures { IsTrue result → queues.new ≡ after_put_back one.place one.message queues.old }
{
    let Sending { place, message, .. } = one;
    queues.put_back(place, message)
}

/// Puts the last message back. Returns how many were lost: 0 or 1.
#[tactic(auto, using(crate::proofs::Restored::restored_last))]
fn put_last_back(queues: &mut Queues, back: &mut VecDeque<Sending>) -> u64
    ensures restored { result ≡ 0 → restored back.new.items queues.new ≡ restored back.old.items queues.old }
    ensures shorter { length back.new.items ≡ length back.old.items - 1 }
{
    let Some(one) = back.pop_back() else {
        return 0;
    };
    if put_back(queues, one) {
        return 0;
    }
    1
}

/// Puts all messages back before the others of their queues, so that the first one is first. Returns how many were lost, because memory ran out.
pub fn restore(queues: &mut Queues, back: &mut VecDeque<Sending>) -> u64
    ensures restored { result ≡ 0 → queues.new ≡ restored back.old.items queues.old }
    ensures empty { back.new.items ≡ [] }
{
    let mut lost: u64 = 0;
    for _ in 0..back.len() {
        lost = lost.saturating_add(put_last_back(queues, back));
    }
    lost
}

/// Returns the place of the message that was sent under this id. O(n) for n messages.
pub fn place_of(sent: &VecDeque<Sending>, id: u32) -> Option<usize>
    ensures { result ≡ position (has_id id) sent.now.items }
{
    sent.iter().position(|one| one.id == id)
}
