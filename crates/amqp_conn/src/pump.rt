//! The buffer of a pump: octets that were read and not fed yet.
ghost use Rattle.std.specs.Prelude.{◌≡◌, ◌≤◌, ◌<◌, ◌+◌, ◌-◌, ◌^◌, [], length, drop, IfOk, OnOk, OnErr};
ghost use Rattle.std.specs.Io.KnownBytes.{Consumes, IsAtEnd, Keeps};

use crate::device::{Failed, Source};
use std::marker::Model;

/// The most octets of one read.
const PIECE: usize = 4096;

/// Moves octets between a connection and its devices ([`Pump::drive`]).
///
/// It keeps octets that were read and not fed, so an allocation failure loses nothing: the same call goes on. A pump
/// belongs to one connection and its source.
#[derive(Drop)]
pub struct Pump {
    /// The octets of the last read, from its front.
    buffer: [u8; PIECE],
    /// The octets from here on were not fed.
    start: usize,
    /// The end of the octets that were read.
    end: usize,
}

impl Model for Pump {
    ghost use Rattle.std.specs.Prelude.{List, ℕ, ◌-◌, take, drop};
    ghost use Rattle.amqp_conn.specs.Turning.{IsSpan};

    ghost Value = { List ℕ };

    ghost view = { λ p. take (p.end - p.start) (drop p.start p.buffer) };

    ghost invariant = { λ p. IsSpan p.buffer p.start p.end };
}

impl Pump {
    /// Creates a pump that has read nothing. It does not allocate.
    pub fn new() -> Pump
        ensures { result ≡ [] }
    {
        Pump {
            buffer: [0; PIECE],
            start: 0,
            end: 0,
        }
    }

    /// Returns the octets that were read and not fed yet.
    pub fn rest(&self) -> &[u8]
        ensures { result.now ≡ self.now }
    {
        &self.buffer[self.start..self.end]
    }

    pub(crate) fn skip(&mut self, used: usize)
        requires { used ≤ length self.old }
        ensures { self.new ≡ drop used self.old }
    {
        self.start += used;
    }

    pub(crate) fn clear(&mut self)
        ensures { self.new ≡ [] }
    {
        self.start = self.end;
    }

    /// Overwrites what was kept.
    pub(crate) fn refill<S: Source>(&mut self, source: &mut S) -> Result<usize, Failed>
        requires { S.failed source.old < 2 ^ 64 - 1 }
        ensures count { IfOk result (λ n. length self.new ≡ n) }
        ensures most { length self.new ≤ 4096 }
        ensures read { OnOk result (Consumes (S.remaining source.old) (S.remaining source.new) self.new) }
        ensures end { IfOk result (λ n. n ≡ 0 → IsAtEnd (S.remaining source.new)) }
        ensures still { OnErr result ((self.new ≡ []) × Keeps (S.remaining source.old) (S.remaining source.new)) }
        ensures ok { OnOk result (S.failed source.new ≡ S.failed source.old) }
        ensures err { OnErr result (S.failed source.new ≡ S.failed source.old + 1) }
    {
        self.start = 0;
        self.end = 0;
        match source.read(&mut self.buffer) {
            Ok(count) => {
                self.end = count;
                Ok(count)
            }
            Err(failed) => Err(failed),
        }
    }
}

// The number that the contracts state.
const _: () = prove!(PIECE == 4096);
