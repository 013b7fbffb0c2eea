//! Octets that were read and not fed, and the room for reads.
ghost use Rattle.std.specs.Prelude.{◌≡◌, ◌≤◌, ◌<◌, ◌==◌, [], length, drop, true, IfOk, OnErr};
ghost use Rattle.std.specs.Io.KnownBytes.{Consumes};
ghost use Rattle.amqp_ready.specs.Moving.{count};
ghost use Rattle.amqp_ready.specs.Reading.{Ends, CountsFailure};

use crate::device::{Moved, NonBlocking};
use std::alloc::{AllocError, Global};
use std::marker::Model;
use std::mem;

/// The most octets of one read. Of frames of 65536 octets, three of four then lie whole in what one read brings, and
/// are read in place; one that lies in two reads is first put together by a copy.
pub const ROOM: usize = 262144;

/// Why nothing was read.
#[derive(Clone, Copy, Debug, PartialEq, Eq)]
pub enum ReadFault {
    /// The stream failed.
    Failed,
    /// There was no memory to read to; the stream was not called.
    NoMemory,
}

/// The room for reads that the streams of a thread share. After its turn each stream hands it back; octets that are
/// not fed yet move to a buffer of their own length. So there is one room. If there is no memory for that buffer, the
/// stream keeps the room until all is fed.
#[derive(Drop)]
pub struct Inbox {
    alloc: Global,
    free: Vec<u8>,
}

impl Inbox {
    /// Returns an inbox without room; the first read allocates it.
    pub fn new(alloc: Global) -> Inbox {
        Inbox {
            alloc,
            free: Vec::new(alloc),
        }
    }

    fn room_or(&mut self, own: Vec<u8>) -> Result<Vec<u8>, AllocError>
        ensures { IfOk result (λ room. 0 < length room.items) }
    {
        if own.as_slice().len() >= ROOM {
            return Ok(own);
        }
        drop(own);
        let alloc = self.alloc;
        if self.free.as_slice().is_empty() {
            return vec![in alloc; 0u8; ROOM];
        }
        Ok(mem::replace(&mut self.free, Vec::new(alloc)))
    }

    /// Takes the room of a stream back. Octets that are not fed stay with the stream, by one copy.
    pub fn take_back(&mut self, unfed: &mut Unfed)
        ensures { unfed.new ≡ unfed.old }
    {
        let alloc = self.alloc;
        if !unfed.is_empty() {
            let room = unfed.shorten(alloc);
            self.keep(room);
            return;
        }
        let room = unfed.release(alloc);
        self.keep(room);
    }

    fn keep(&mut self, room: Vec<u8>) {
        if room.as_slice().len() >= ROOM {
            self.free = room;
        }
    }
}

/// The octets of one stream that were read and not fed.
#[derive(Drop)]
pub struct Unfed {
    room: Vec<u8>,
    start: usize,
    end: usize,
}

impl Model for Unfed {
    ghost use Rattle.std.specs.Prelude.{List, ℕ, ◌-◌, take, drop};
    ghost use Rattle.amqp_ready.specs.Reading.{IsSpan};

    ghost Value = { List ℕ };

    ghost view = { λ u. take (u.end - u.start) (drop u.start u.room.items) };

    ghost invariant = { λ u. IsSpan u.room.items u.start u.end };
}

impl Unfed {
    /// Returns a buffer without octets.
    pub fn new(alloc: Global) -> Unfed
        ensures { result ≡ [] }
    {
        Unfed {
            room: Vec::new(alloc),
            start: 0,
            end: 0,
        }
    }

    /// Returns the octets.
    pub fn octets(&self) -> &[u8]
        ensures { result.now ≡ self.now }
    {
        &self.room.as_slice()[self.start..self.end]
    }

    /// Returns whether all octets were fed.
    pub fn is_empty(&self) -> bool
        ensures { result ≡ (length self.now == 0) }
    {
        self.octets().is_empty()
    }

    /// Removes `used` octets from the front, which were fed.
    pub fn skip(&mut self, used: usize)
        requires { used ≤ length self.old }
        ensures { self.new ≡ drop used self.old }
    {
        self.start += used;
    }

    /// Removes all octets.
    pub fn clear(&mut self)
        ensures { self.new ≡ [] }
    {
        self.start = self.end;
    }

    fn release(&mut self, alloc: Global) -> Vec<u8>
        ensures { self.new ≡ [] }
    {
        self.start = 0;
        self.end = 0;
        mem::replace(&mut self.room, Vec::new(alloc))
    }

    /// The room that is returned has no octets if these already have a short one, or if memory for one is refused.
    fn shorten(&mut self, alloc: Global) -> Vec<u8>
        ensures { self.new ≡ self.old }
    {
        if self.room.as_slice().len() < ROOM {
            return Vec::new(alloc);
        }
        let mut short = Vec::new(alloc);
        match short.extend_from_slice(self.octets()) {
            Ok(()) => self.move_to(short),
            Err(_) => {
                drop(short);
                Vec::new(alloc)
            }
        }
    }

    fn move_to(&mut self, short: Vec<u8>) -> Vec<u8>
        ensures { self.new ≡ short.items }
    {
        self.start = 0;
        self.end = short.as_slice().len();
        mem::replace(&mut self.room, short)
    }

    /// Reads once. All octets that were read before must be fed.
    ///
    /// # Errors
    ///
    /// [`ReadFault`]. Nothing was read then.
    pub fn read<S: NonBlocking>(
        &mut self,
        inbox: &mut Inbox,
        stream: &mut S,
    ) -> Result<Moved, ReadFault>
        requires { self.old ≡ [] }
        ensures octets { Consumes (S.remaining stream.old) (S.remaining stream.new) self.new }
        ensures count { IfOk result (λ moved. length self.new ≡ count moved) }
        ensures end { IfOk result (Ends (S.remaining stream.new)) }
        ensures none { OnErr result (self.new ≡ []) }
        ensures written { S.written stream.new ≡ S.written stream.old }
        ensures failed { CountsFailure result (S.failed stream.old) (S.failed stream.new) }
    {
        let own = self.release(inbox.alloc);
        match inbox.room_or(own) {
            Ok(room) => self.fill(room, stream),
            Err(_) => Err(ReadFault::NoMemory),
        }
    }

    fn fill<S: NonBlocking>(
        &mut self,
        mut room: Vec<u8>,
        stream: &mut S,
    ) -> Result<Moved, ReadFault>
        requires { 0 < length room.items }
        ensures octets { Consumes (S.remaining stream.old) (S.remaining stream.new) self.new }
        ensures count { IfOk result (λ moved. length self.new ≡ count moved) }
        ensures end { IfOk result (Ends (S.remaining stream.new)) }
        ensures none { OnErr result (self.new ≡ []) }
        ensures written { S.written stream.new ≡ S.written stream.old }
        ensures failed { CountsFailure result (S.failed stream.old) (S.failed stream.new) }
    {
        self.start = 0;
        let answer = stream.read_some(room.as_mut_slice());
        self.room = room;
        match answer {
            Ok(Moved::Octets(count)) => {
                self.end = count;
                Ok(Moved::Octets(count))
            }
            Ok(Moved::Waits) => {
                self.end = 0;
                Ok(Moved::Waits)
            }
            Err(_) => {
                self.end = 0;
                Err(ReadFault::Failed)
            }
        }
    }
}
