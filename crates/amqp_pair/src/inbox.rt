//! The octets that were read, cut into whole frames.
//!
//! A frame that a read brings in part stays where it was read until its rest has come behind it, or moves once, where the room is used up: so its
//! payload can be a slice of what was read.
ghost use Rattle.std.specs.Prelude.{◌<◌, ◌≤◌, length, IfSome};

use crate::options::MAX_FRAME;
use crate::reading::ReadFault;
use bytes::{Bytes, BytesMut};
use std::alloc::{AllocError, Global};
use std::io::{ErrorKind, Read};
use std::sync::Wait;

/// Room for what reads bring, made at once.
const ROOM: usize = 524288;

/// The least room that a read is given: that of a frame.
const LEAST: usize = MAX_FRAME as usize;

/// What new room is made of: written octet by octet it would take a third of the time of a long message.
const ZEROS: &[u8; 1024] = &[0; 1024];

/// The first four octets of a protocol header (part 2, 2.2): AMQP. As a size they would be that of a longer frame than any that is taken.
const PROTOCOL: u32 = 0x414d5150;

/// How many octets a protocol header has.
const HEADER_LEN: usize = 8;

/// The octets that were read and not handed on.
#[derive(Drop)]
pub struct Inbox {
    buffer: BytesMut,
}

impl Inbox {
    /// Without octets.
    pub fn new(alloc: Global) -> Inbox {
        Inbox {
            buffer: BytesMut::new(alloc),
        }
    }

    /// Reads until there are whole frames, and hands them on. They share one buffer with those of other reads, until it is used up.
    ///
    /// # Errors
    ///
    /// `Read`; `EndOfInput`, with what there is of a frame given up; `NoMemory`.
    pub fn read_frames<R: Wait, S: Read>(
        &mut self,
        rt: &R,
        stream: &mut S,
    ) -> Result<Bytes, ReadFault> {
        for _ in rt.forever() {
            self.read(stream)?;
            let count = whole_frames(self.buffer.as_slice());
            if count > 0 {
                return self
                    .buffer
                    .freeze_to(count)
                    .map_err(|_| ReadFault::NoMemory);
            }
        }
        unreachable!()
    }

    /// One read, behind what is there.
    fn read<S: Read>(&mut self, stream: &mut S) -> Result<(), ReadFault> {
        if self.buffer.capacity().saturating_sub(self.buffer.len()) < LEAST
            && !self.buffer.try_reclaim(LEAST)
        {
            match with_room(*self.buffer.allocator(), self.buffer.as_slice()) {
                Ok(buffer) => self.buffer = buffer,
                Err(AllocError) => return Err(ReadFault::NoMemory),
            }
        }
        match self.buffer.read_from(stream) {
            Ok(0) => Err(ReadFault::EndOfInput),
            Ok(_) => Ok(()),
            Err(error) if error.kind() == ErrorKind::Interrupted => Ok(()),
            Err(error) => Err(ReadFault::Read(error)),
        }
    }
}

/// These octets, with new room behind them.
fn with_room(alloc: Global, octets: &[u8]) -> Result<BytesMut, AllocError> {
    let mut all = Vec::with_capacity(alloc, octets.len().saturating_add(ROOM))?;
    all.extend_from_slice(octets)?;
    for _ in 0..ROOM / ZEROS.len() {
        all.extend_from_slice(ZEROS)?;
    }
    let mut buffer = BytesMut::from_vec(all);
    buffer.truncate(octets.len());
    Ok(buffer)
}

/// How many octets the whole frames at the front have.
fn whole_frames(octets: &[u8]) -> usize
    ensures { result ≤ length octets.now }
{
    let mut rest = octets;
    while let Some(size) = front(rest) {
        rest = &rest[size..];
    }
    octets.len() - rest.len()
}

/// The size of the protocol header or the frame at the front, if it is whole, so that what is left begins with a frame. Octets that are neither, or a
/// frame longer than this end takes, are taken as they come: the connection ends with them.
fn front(octets: &[u8]) -> Option<usize>
    ensures { IfSome result (λ size. (0 < size) × (size ≤ length octets.now)) }
{
    let Some(head) = octets.first_chunk::<4>() else {
        return None;
    };
    let size = u32::from_be_bytes(*head);
    if size == PROTOCOL {
        return whole(octets, HEADER_LEN);
    }
    if size < 8 || MAX_FRAME < size {
        return Some(octets.len());
    }
    whole(octets, size as usize)
}

/// So many octets, if they are there.
fn whole(octets: &[u8], size: usize) -> Option<usize>
    requires { 0 < size }
    ensures { IfSome result (λ whole. (0 < whole) × (whole ≤ length octets.now)) }
{
    if octets.len() < size {
        None
    } else {
        Some(size)
    }
}
