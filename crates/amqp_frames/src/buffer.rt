//! A buffer of octets that grows to exactly the size that is requested.
ghost use Rattle.std.specs.Prelude.{◌≡◌, ◌<◌, ◌≤◌, ◌+◌, ◌++◌, [], length, take, max, OnOk, OnErr};
ghost use Rattle.std.specs.Vec.{vec_len, vec_capacity};

use std::alloc::{AllocError, Global};
use std::marker::Model;

/// Octets in memory that grows only on `reserve`, and to exactly the requested size. A `Vec` may take more when octets
/// are pushed, as far as its contract says. This one is therefore filled to its capacity as soon as it has grown, and
/// octets are copied over its contents.
#[derive(Debug, Drop)]
pub(crate) struct Buffer {
    /// The octets, followed up to the capacity by zeros or the remains of earlier octets.
    place: Vec<u8>,
    count: usize,
}

impl Model for Buffer {
    ghost use Rattle.std.specs.Prelude.{take};
    ghost use Rattle.std.specs.Vec.{vec_len, vec_capacity};
    ghost use Rattle.amqp_frames.specs.Buffer.{Buffered, IsFilled};

    ghost Value = { Buffered };

    ghost view = { λ b. record { octets = take b.count b.place.items; room = vec_capacity b.place } };

    ghost invariant = { λ b. IsFilled (vec_len b.place) (vec_capacity b.place) b.count };
}

impl Buffer {
    /// Creates an empty buffer without allocating.
    pub(crate) fn new(alloc: Global) -> Buffer
        ensures { result ≡ record { octets = []; room = 0 } }
    {
        Buffer {
            place: Vec::new(alloc),
            count: 0,
        }
    }

    pub(crate) fn allocator(&self) -> Global {
        *self.place.allocator()
    }

    pub(crate) fn as_slice(&self) -> &[u8]
        ensures { result.now ≡ self.now.octets }
    {
        &self.place[..self.count]
    }

    /// Returns the capacity in bytes.
    pub(crate) fn room(&self) -> usize
        ensures { result ≡ self.now.room }
    {
        self.place.capacity()
    }

    /// Grows the capacity to `room` bytes if it is smaller.
    pub(crate) fn reserve(&mut self, room: usize) -> Result<(), AllocError>
        ensures octets { self.new.octets ≡ self.old.octets }
        ensures more { self.old.room ≤ self.new.room }
        ensures made { OnOk result (self.new.room ≡ max self.old.room room) }
        ensures refused { OnErr result (self.new.room ≡ self.old.room) }
        ensures full { OnErr result (self.old.room < room) }
    {
        let more = room.saturating_sub(self.place.len());
        match self.place.reserve_exact(more) {
            Ok(()) => {
                fill(&mut self.place);
                Ok(())
            }
            Err(refused) => Err(refused),
        }
    }

    /// Appends octets, for which there must be room.
    pub(crate) fn append(&mut self, octets: &[u8])
        requires { length self.old.octets + length octets.now ≤ self.old.room }
        ensures octets { self.new.octets ≡ self.old.octets ++ octets.now }
        ensures room { self.new.room ≡ self.old.room }
    {
        let end = self.count + octets.len();
        self.place[self.count..end].copy_from_slice(octets);
        self.count = end;
    }

    /// Keeps the first `count` octets, or all if there are fewer.
    pub(crate) fn truncate(&mut self, count: usize)
        ensures octets { self.new.octets ≡ take count self.old.octets }
        ensures room { self.new.room ≡ self.old.room }
    {
        self.count = self.count.min(count);
    }
}

/// Appends zeros up to the capacity.
fn fill(place: &mut Vec<u8>)
    requires { vec_len place.old ≤ vec_capacity place.old }
    ensures front { take (vec_len place.old) place.new.items ≡ place.old.items }
    ensures full { vec_len place.new ≡ vec_capacity place.new }
    ensures capacity { vec_capacity place.new ≡ vec_capacity place.old }
{
    while place.len() < place.capacity() {
        place.push_reserved(0);
    }
}
