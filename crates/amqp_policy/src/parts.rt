//! The parts in which a long message goes (part 2, 2.6.14).
ghost use Rattle.std.specs.Prelude.{◌≡◌, ◌+◌, ◌-◌, ◌<◌, ◌++◌, ◌↔◌, ℕ, List, IfOk, IsTrue, take, drop, min, max};

use bytes::Bytes;
use std::alloc::AllocError;

/// The most octets of a message that one transfer carries.
const LONGEST: u32 = 65536;

/// What a transfer takes of a frame beside its payload, in octets, and more.
const HEAD: u32 = 128;

/// Returns at most `most` octets of the message, beginning at `from`. The part shares the message's octets.
pub fn part(message: &Bytes, from: usize, most: usize) -> Result<Bytes, AllocError>
    ensures { IfOk result (λ b. b ≡ take most (drop from message.now)) }
{
    let from = from.min(message.len());
    let end = from.saturating_add(most).min(message.len());
    message.slice(from..end)
}

/// Returns whether a message of `len` octets has octets behind the part of `most` octets that begins at `from`.
pub fn has_more(len: usize, from: usize, most: usize) -> bool
    ensures { IsTrue result ↔ (from + most < len) }
{
    from.saturating_add(most) < len
}

/// Returns how many octets of a message one transfer carries, if the peer takes frames of at most `max_frame` octets: at least 1, and at most 65408.
pub fn room_in_frame(max_frame: u32) -> usize
    ensures value { result ≡ max 1 (min max_frame 65536 - 128) }
    ensures some { 0 < result }
{
    max_frame.min(LONGEST).saturating_sub(HEAD).max(1) as usize
}

/// A law of [`part`]: what has gone up to `from` and the next part are the message's beginning.
pub fn parts_join()
    ensures { (message : List ℕ) (from most : ℕ) → take from message ++ take most (drop from message) ≡ take (from + most) message }
{}
