//! The octets of a unit that were not written yet.
ghost use Rattle.std.specs.Prelude.{◌≡◌, ◌≤◌, ◌<◌, ◌+◌, ◌++◌, ◌↔◌, [], IsTrue, List, ℕ, length, take, drop, min};

use amqp_conn::{Bytes, Sliced};
use std::marker::Model;

/// The octets of a unit of which some were given. Contracts see those that are left.
#[derive(Drop)]
pub struct Rest {
    bytes: Sliced,
    from: usize,
}

impl Model for Rest {
    ghost use Rattle.std.specs.Prelude.{ℕ, List, ◌≤◌, drop, length};

    ghost Value = { List ℕ };

    ghost view = { λ r. drop r.from r.bytes };

    ghost invariant = { λ r. r.from ≤ length r.bytes };
}

impl Rest {
    /// Returns a rest without octets.
    pub fn none() -> Rest
        ensures { result ≡ [] }
    {
        Rest {
            bytes: Sliced::one(Bytes::new()),
            from: 0,
        }
    }

    /// Returns the rest that has all the octets.
    pub fn of(bytes: Sliced) -> Rest
        ensures { result ≡ bytes }
    {
        Rest { bytes, from: 0 }
    }

    /// Returns whether no octets are left.
    pub fn is_empty(&self) -> bool
        ensures { IsTrue result ↔ self.now ≡ [] }
    {
        self.from == self.bytes.len()
    }

    /// Returns how many octets are left.
    pub fn len(&self) -> usize
        ensures { result ≡ length self.now }
    {
        self.bytes.len() - self.from
    }

    /// Returns octets from the front: all that lie in one slice.
    pub fn front(&self) -> &[u8]
        ensures { (more : List ℕ) × (result.now ++ more ≡ self.now) }
    {
        let (head, rest) = self.bytes.slices();
        if self.from >= self.bytes.len() {
            return &[];
        }
        piece(head, rest, self.from)
    }

    /// Leaves out so many octets at the front, or all if there are fewer.
    pub fn advance(&mut self, count: usize)
        ensures { self.new ≡ drop count self.old }
    {
        let len = self.bytes.len();
        self.from += count.min(len - self.from);
    }

    /// Copies octets from the front into `room`, and returns how many: as many as have room and lie in one slice.
    pub fn give(&mut self, room: &mut [u8]) -> usize
        ensures within { result ≤ length room.old }
        ensures given { take result room.new ++ self.new ≡ self.old }
    {
        let count = copy(self.front(), room);
        self.advance(count);
        count
    }
}

/// Returns what lies in one slice from this place on.
fn piece<'a>(head: &'a [u8], rest: &'a [u8], from: usize) -> &'a [u8]
    requires { from ≤ length head.now + length rest.now }
    ensures { (more : List ℕ) × (result.now ++ more ≡ drop from (head.now ++ rest.now)) }
{
    if from < head.len() {
        return &head[from..];
    }
    &rest[from - head.len()..]
}

/// Copies as many octets as there is room for, and returns how many.
pub fn copy(from: &[u8], room: &mut [u8]) -> usize
    ensures count { result ≡ min (length from.now) (length room.old) }
    ensures octets { take result room.new ≡ take result from.now }
{
    let count = from.len().min(room.len());
    room[..count].copy_from_slice(&from[..count]);
    count
}
