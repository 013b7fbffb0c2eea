//! Streams that never wait.
ghost use Rattle.std.specs.Prelude.{◌≡◌, ◌≤◌, ◌<◌, ◌++◌, [], true, false, length, None, IfOk, OnOk, OnErr};
ghost use Rattle.amqp_ready.specs.Moving.{count, Reads, Writes, MovesSome};
ghost use Rattle.amqp_ready.specs.Tried.{IsTried, TriesSome, MovesNone};

use crate::tap::{Recorded, Tap, Way};
use amqp_conn::Failed;
use mio::net::TcpStream;
use std::alloc::Global;
use std::io;
use std::io::{ErrorKind, IoSlice, Read, Write};

/// What a call of a stream moved, if it did not fail.
#[derive(Clone, Copy, Debug, PartialEq, Eq)]
pub enum Moved {
    /// This many octets.
    Octets(usize),
    /// None, since the call would have waited.
    Waits,
}

/// A stream whose calls never wait: each moves some octets, or returns that it would have waited.
pub trait NonBlocking {
    ghost use Rattle.std.specs.Prelude.{ℕ, List, Option, Bool};

    /// The octets that later reads return, if they are known.
    ghost remaining: { Self → Option (List ℕ) };

    /// The octets that were written, if they are known.
    ghost written: { Self → Option (List ℕ) };

    /// Whether a call has failed.
    ghost failed: { Self → Bool };

    /// Reads some octets into the front of `buffer`. If `buffer` has room, `Octets(0)` is the end of the input.
    ///
    /// # Errors
    ///
    /// [`Failed`] if the stream failed; nothing was read then.
    fn read_some(&mut self, buffer: &mut [u8]) -> Result<Moved, Failed>
        ensures bound { IfOk result (λ moved. count moved ≤ length buffer.new) }
        ensures octets { Reads (remaining self.old) (remaining self.new) result buffer.new }
        ensures written { written self.new ≡ written self.old }
        ensures ok { OnOk result (failed self.new ≡ failed self.old) }
        ensures err { OnErr result (failed self.new ≡ true) };

    /// Writes some octets from the front of `octets`: at least one, unless `octets` is empty or the stream would
    /// wait.
    ///
    /// # Errors
    ///
    /// [`Failed`] if the stream failed; nothing was written then.
    fn write_some(&mut self, octets: &[u8]) -> Result<Moved, Failed>
        ensures bound { IfOk result (λ moved. count moved ≤ length octets.now) }
        ensures some { IfOk result (MovesSome octets.now) }
        ensures octets { Writes (written self.old) (written self.new) result octets.now }
        ensures remaining { remaining self.new ≡ remaining self.old }
        ensures ok { OnOk result (failed self.new ≡ failed self.old) }
        ensures err { OnErr result (failed self.new ≡ true) };

    /// Writes some octets from the front of `first` followed by `second`, as `write_some`; in one call if the stream
    /// has one for two slices.
    ///
    /// # Errors
    ///
    /// [`Failed`] if the stream failed; nothing was written then.
    fn write_two(&mut self, first: &[u8], second: &[u8]) -> Result<Moved, Failed>
        ensures bound { IfOk result (λ moved. count moved ≤ length (first.now ++ second.now)) }
        ensures some { IfOk result (MovesSome (first.now ++ second.now)) }
        ensures octets { Writes (written self.old) (written self.new) result (first.now ++ second.now) }
        ensures remaining { remaining self.new ≡ remaining self.old }
        ensures ok { OnOk result (failed self.new ≡ failed self.old) }
        ensures err { OnErr result (failed self.new ≡ true) }
    {
        if first.is_empty() {
            return self.write_some(second);
        }
        self.write_some(first)
    }
}

/// A TCP stream of mio, which remembers if a call has failed. It records what goes over it once `record` was called.
#[derive(Drop)]
pub struct Socket {
    stream: TcpStream,
    has_failed: bool,
    tap: Option<Tap>,
}

impl Socket {
    /// Makes a socket of a stream none of whose calls has failed.
    pub fn new(stream: TcpStream) -> Socket
        ensures { result ≡ record { stream = stream; has_failed = false; tap = None } }
    {
        Socket {
            stream,
            has_failed: false,
            tap: None,
        }
    }

    /// Records from now on what goes over the stream, in memory of `alloc`, for `take_recorded`. Discards what was
    /// recorded before.
    pub fn record(&mut self, alloc: Global)
        ensures stream { self.new.stream ≡ self.old.stream }
        ensures has_failed { self.new.has_failed ≡ self.old.has_failed }
    {
        self.tap = Some(Tap::new(alloc));
    }

    /// Removes and returns the oldest record that was not taken, in the order of the calls. Returns `None` if there
    /// is none, or if nothing is recorded.
    pub fn take_recorded(&mut self) -> Option<Recorded>
        ensures stream { self.new.stream ≡ self.old.stream }
        ensures has_failed { self.new.has_failed ≡ self.old.has_failed }
    {
        match &mut self.tap {
            Some(tap) => tap.take(),
            None => None,
        }
    }

    /// Returns the stream, for its registration.
    pub(crate) fn stream_mut(&mut self) -> &mut TcpStream {
        &mut self.stream
    }

    /// Returns the stream, and drops what was recorded.
    pub fn into_stream(self) -> TcpStream
        ensures { result ≡ self.stream }
    {
        let Socket { stream, .. } = self;
        stream
    }

    fn fail(&mut self) -> Failed
        ensures { self.new ≡ record self.old { has_failed = true } }
    {
        self.has_failed = true;
        Failed
    }

    fn note(&mut self, way: Way, first: &[u8], second: &[u8], moved: Moved)
        ensures { self.new.has_failed ≡ self.old.has_failed }
    {
        if let Some(tap) = &mut self.tap {
            tap.note(way, first, second, count_of(moved));
        }
    }
}

fn count_of(moved: Moved) -> usize {
    match moved {
        Moved::Octets(count) => count,
        Moved::Waits => 0,
    }
}

/// What one system call did.
#[derive(Clone, Copy)]
enum Tried {
    Moved(Moved),
    Interrupted,
    Failed,
}

fn failure(error: io::Error) -> Tried
    ensures { MovesNone result }
{
    match error.kind() {
        ErrorKind::WouldBlock => Tried::Moved(Moved::Waits),
        ErrorKind::Interrupted => Tried::Interrupted,
        _ => Tried::Failed,
    }
}

fn read_once(stream: &mut TcpStream, buffer: &mut [u8]) -> Tried
    ensures { IsTried (length buffer.new) result }
{
    match stream.read(buffer) {
        Ok(count) => Tried::Moved(Moved::Octets(count)),
        Err(error) => failure(error),
    }
}

/// A write of a non-empty slice that takes no octet counts as a failure, since a loop over it would never end: no
/// call of mio returns that.
fn write_once(stream: &mut TcpStream, first: &[u8], second: &[u8]) -> Tried
    ensures tried { IsTried (length (first.now ++ second.now)) result }
    ensures some { TriesSome (first.now ++ second.now) result }
{
    if first.is_empty() && second.is_empty() {
        return Tried::Moved(Moved::Octets(0));
    }
    match write_both(stream, first, second) {
        Ok(0) => Tried::Failed,
        Ok(count) => Tried::Moved(Moved::Octets(count)),
        Err(error) => failure(error),
    }
}

fn write_both(stream: &mut TcpStream, first: &[u8], second: &[u8]) -> io::Result<usize>
    ensures { IfOk result (λ n. n ≤ length (first.now ++ second.now)) }
{
    if second.is_empty() {
        return stream.write(first);
    }
    if first.is_empty() {
        return stream.write(second);
    }
    TcpStream::write_vectored(stream, &[IoSlice::new(first), IoSlice::new(second)])
}

impl NonBlocking for Socket {
    ghost use Rattle.std.specs.Prelude.{None};

    ghost remaining = { λ s. None };

    ghost written = { λ s. None };

    ghost failed = { λ s. s.has_failed };

    fn read_some(&mut self, buffer: &mut [u8]) -> Result<Moved, Failed> {
        for _ in 0..u64::MAX {
            match read_once(&mut self.stream, buffer) {
                Tried::Moved(moved) => {
                    self.note(Way::In, buffer, &[], moved);
                    return Ok(moved);
                }
                Tried::Interrupted => {}
                Tried::Failed => return Err(self.fail()),
            }
        }
        Err(self.fail())
    }

    fn write_some(&mut self, octets: &[u8]) -> Result<Moved, Failed> {
        self.write_two(octets, &[])
    }

    fn write_two(&mut self, first: &[u8], second: &[u8]) -> Result<Moved, Failed> {
        for _ in 0..u64::MAX {
            match write_once(&mut self.stream, first, second) {
                Tried::Moved(moved) => {
                    self.note(Way::Out, first, second, moved);
                    return Ok(moved);
                }
                Tried::Interrupted => {}
                Tried::Failed => return Err(self.fail()),
            }
        }
        Err(self.fail())
    }
}
