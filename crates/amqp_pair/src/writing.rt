//! What an end puts out goes to its socket. A thread that has put units out writes them itself, without the lock of the session: no other is woken for it. The reader may not wait until
//! its peer reads, so a thread beside it writes what it has put out.
use crate::end::End;
use crate::fault::PairFault;
use amqp_shared::{Bytes, Name, Shared, Sliced, WriterEnd};
use std::alloc::Global;
use std::io;
use std::io::{ErrorKind, IoSlice, Write};
use std::net::{Shutdown, TcpStream};
use std::sync::{Condvar, Mutex, Wait};

/// How many units the ring of an end has room for.
pub const RING: usize = 256;

/// Room for the octets of units that are written together.
const BATCH: usize = 65536;

/// Units of at least so many octets are not copied.
const LONG: usize = 8192;

/// So many long units are written together at most: with what stands before each they are four parts, as many as one call of the system takes here.
const LONGS: usize = 2;

/// A unit that is written from where it stands, behind so many of the octets that were copied.
#[derive(Drop)]
struct Long {
    octets: Bytes,
    behind: usize,
}

/// What is written together: the octets of short units, copied one behind the other, and long ones between them.
#[derive(Drop)]
pub struct Batch {
    copied: Vec<u8>,
    longs: Vec<Long>,
}

impl Batch {
    pub fn new(alloc: Global) -> Result<Batch, PairFault> {
        let (Ok(copied), Ok(longs)) = (
            Vec::with_capacity(alloc, BATCH),
            Vec::with_capacity(alloc, LONGS),
        ) else {
            return Err(PairFault::NoMemory);
        };
        Ok(Batch { copied, longs })
    }

    fn is_full(&self) -> bool {
        self.copied.len() > BATCH - LONG || self.longs.len() >= LONGS
    }

    /// Puts octets behind the others. What does not fit beside them is written before.
    fn put(&mut self, stream: &mut TcpStream, octets: Bytes) -> io::Result<()> {
        if self.is_full() {
            if let Err(fault) = self.write(stream) {
                drop(octets);
                return Err(fault);
            }
        }
        if octets.len() >= LONG {
            return self.put_long(octets);
        }
        let copied = self.copied.extend_from_slice(octets.as_slice());
        drop(octets);
        Ok(copied?)
    }

    fn put_long(&mut self, octets: Bytes) -> io::Result<()> {
        let behind = self.copied.len();
        match self.longs.push(Long { octets, behind }) {
            Ok(()) => Ok(()),
            Err(failed) => {
                drop(failed);
                Err(io::Error::from(ErrorKind::OutOfMemory))
            }
        }
    }

    /// How many of the copied octets stand before the long unit of this place, or all where there is none.
    fn behind(&self, place: usize) -> usize {
        match self.longs.get(place) {
            Some(long) => long.behind,
            None => self.copied.len(),
        }
    }

    /// The copied octets from there to there.
    fn between(&self, from: usize, to: usize) -> &[u8] {
        self.copied.as_slice().get(from..to).unwrap_or(&[])
    }

    /// The long unit of this place, or nothing.
    fn long(&self, place: usize) -> &[u8] {
        match self.longs.get(place) {
            Some(long) => long.octets.as_slice(),
            None => &[],
        }
    }

    /// Writes all by one call, and by others what that leaves.
    fn write(&mut self, stream: &mut TcpStream) -> io::Result<()> {
        let parts = [
            self.between(0, self.behind(0)),
            self.long(0),
            self.between(self.behind(0), self.behind(1)),
            self.long(1),
            self.between(self.behind(1), self.copied.len()),
        ];
        write_parts(stream, parts)?;
        self.copied.clear();
        self.longs.clear();
        Ok(())
    }
}

fn write_parts(stream: &mut TcpStream, parts: [&[u8]; 5]) -> io::Result<()> {
    let mut written = gathered(stream, parts)?;
    for part in parts {
        let done = written.min(part.len());
        stream.write_all(&part[done..])?;
        written = written.saturating_sub(done);
    }
    Ok(())
}

/// How many octets one call writes; none where it was interrupted.
fn gathered(stream: &TcpStream, parts: [&[u8]; 5]) -> io::Result<usize> {
    let [first, second, third, fourth, fifth] = parts;
    let slices = [
        IoSlice::new(first),
        IoSlice::new(second),
        IoSlice::new(third),
        IoSlice::new(fourth),
        IoSlice::new(fifth),
    ];
    match stream.write_vectored(&slices) {
        Err(error) if error.kind() == ErrorKind::Interrupted => Ok(0),
        written => written,
    }
}

/// Whoever has it may write.
#[derive(Drop)]
struct Outgoing<N: Name> {
    end: WriterEnd<N>,
    stream: TcpStream,
    batch: Batch,
    /// The first write that failed; nothing is written behind it.
    fault: Option<io::Error>,
}

impl<N: Name> Outgoing<N> {
    /// Writes all that was put out. Where a write fails, the socket is shut.
    fn write<R: Wait>(&mut self, rt: &R, shared: &Shared<N>) {
        if self.fault.is_some() {
            return;
        }
        if let Err(fault) = self.write_units(rt, shared) {
            // A socket that is shut already needs no more.
            let _ = self.stream.shutdown(Shutdown::Both);
            self.fault = Some(fault);
        }
    }

    /// Units wait behind the ring only where it was full: where fewer were taken than it has room for, none do.
    fn write_units<R: Wait>(&mut self, rt: &R, shared: &Shared<N>) -> io::Result<()> {
        for _ in rt.forever() {
            if self.take_all(rt)? < RING as u64 {
                return self.batch.write(&mut self.stream);
            }
            let mut guard = shared.lock(rt);
            shared.move_units(&mut guard);
        }
        unreachable!()
    }

    /// Puts a unit behind the others, a long payload as a part of its own.
    fn put(&mut self, octets: Sliced) -> io::Result<()> {
        let (head, rest) = octets.into_slices();
        if let Err(fault) = self.batch.put(&mut self.stream, head) {
            drop(rest);
            return Err(fault);
        }
        match rest {
            Some(rest) => self.batch.put(&mut self.stream, rest),
            None => Ok(()),
        }
    }

    /// Takes what is in the ring: how many units.
    fn take_all<R: Wait>(&mut self, rt: &R) -> io::Result<u64> {
        let before = self.end.taken();
        for _ in rt.forever() {
            match self.end.take() {
                Some(unit) => self.put(unit.bytes)?,
                None => return Ok(self.end.taken().saturating_sub(before)),
            }
        }
        unreachable!()
    }
}

/// What the thread beside the reader is asked for.
#[derive(Clone, Copy)]
enum Asked {
    Nothing,
    /// To write what was put out.
    Units,
    /// To write it, and to tell the peer that no more will come.
    End,
}

/// By which the threads of an end write what they have put out, one at a time.
#[derive(Drop)]
pub struct Outlet<N: Name> {
    outgoing: Mutex<Outgoing<N>>,
    asked: Mutex<Asked>,
    changed: Condvar,
}

impl<N: Name> Outlet<N> {
    /// With what an end puts out at its beginning still to be written.
    pub fn new(end: WriterEnd<N>, stream: TcpStream, batch: Batch) -> Outlet<N> {
        let outgoing = Outgoing {
            end,
            stream,
            batch,
            fault: None,
        };
        Outlet {
            outgoing: Mutex::new(outgoing),
            asked: Mutex::new(Asked::Units),
            changed: Condvar::new(),
        }
    }

    /// Writes all that was put out, many units at once where they wait. Who calls it has given the session's lock back. A failed write shuts the socket, so that the reader ends
    /// the connection.
    pub fn flush<R: Wait>(&self, rt: &R, shared: &Shared<N>) {
        let mut outgoing = self.outgoing.lock(rt);
        outgoing.write(rt, shared);
    }

    /// Asks the thread beside the reader to write what was put out.
    pub fn ask<R: Wait>(&self, rt: &R) {
        self.say(rt, Asked::Units);
    }

    /// The connection has ended: what was put out is the last.
    pub fn end<R: Wait>(&self, rt: &R) {
        self.say(rt, Asked::End);
    }

    fn say<R: Wait>(&self, rt: &R, what: Asked) {
        let mut asked = self.asked.lock(rt);
        if *asked != Asked::End {
            *asked = what;
        }
        drop(asked);
        self.changed.notify_one();
    }

    /// Waits until something is asked for: whether it is the last.
    fn is_last<R: Wait>(&self, rt: &R) -> bool {
        let mut asked = self.asked.lock(rt);
        for _ in rt.forever() {
            match *asked {
                Asked::Nothing => asked = self.changed.wait(rt, asked),
                Asked::Units => {
                    *asked = Asked::Nothing;
                    return false;
                }
                Asked::End => return true,
            }
        }
        unreachable!()
    }

    /// Nothing more is written: the peer is told so.
    fn finish<R: Wait>(&self, rt: &R) {
        let outgoing = self.outgoing.lock(rt);
        // A socket that is shut already needs no more.
        let _ = outgoing.stream.shutdown(Shutdown::Write);
    }

    /// The writer's end of the ring, and the first write that failed.
    pub fn into_parts(self) -> WriteOutcome<N> {
        let Outlet {
            outgoing,
            asked: _,
            changed: _,
        } = self;
        let Outgoing {
            end,
            stream,
            batch,
            fault,
        } = outgoing.into_inner();
        drop(stream);
        drop(batch);
        match fault {
            Some(fault) => (end, Err(fault)),
            None => (end, Ok(())),
        }
    }
}

/// What is left of the outlet of an end.
pub type WriteOutcome<N> = (WriterEnd<N>, io::Result<()>);

/// Writes what the reader has put out, until the connection has ended and all is written.
pub fn write_end<N: Name, R: Wait>(rt: &R, end: &End<N>) {
    for _ in rt.forever() {
        let is_last = end.outlet.is_last(rt);
        end.flush(rt);
        if is_last {
            return end.outlet.finish(rt);
        }
    }
    unreachable!()
}
