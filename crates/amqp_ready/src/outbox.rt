//! Octets on their way out.
ghost use Rattle.std.specs.Prelude.{ℕ, List, ◌≡◌, ◌≢◌, ◌≤◌, ◌++◌, ◌==◌, [], length, drop, true, IfOk, OnOk, OnErr};
ghost use Rattle.std.specs.Bool.{OnTrue, OnFalse};
ghost use Rattle.amqp_conn.specs.Pumping.{AllWent, OnlyWrote};
ghost use Rattle.amqp_ready.specs.Gathering.{Gathers};
ghost use Rattle.amqp_ready.specs.Moving.{PassesOn, Sends, Writes, MovesSome, count};

use crate::device::{Moved, NonBlocking};
use amqp_conn::{Conn, Failed, Sliced};
use bytes::Bytes;
use std::alloc::Global;
use std::marker::Model;

/// Units of at least this many octets are written from where they lie, without a copy.
const LONG: usize = 8192;

/// No more units are gathered while this many octets of short ones are left.
const GATHERED: usize = 65536;

/// The octets of units that were popped and not written: those of short units, of which `sent` are written, and
/// behind them the rest of a long unit in one or two slices.
#[derive(Drop)]
pub struct Outbox {
    short: Vec<u8>,
    sent: usize,
    long: Bytes,
    last: Bytes,
}

#[derive(Clone, Copy, PartialEq, Eq)]
enum Gathered {
    Unit,
    /// Enough octets are left as it is.
    Full,
    /// No unit waits.
    All,
}

fn has_none(octets: &Bytes) -> bool
    ensures { OnTrue result (octets.now ≡ []) }
{
    octets.is_empty()
}

/// Copies the octets of a short unit if there is memory; returns whether it did.
fn copies(short: &mut Vec<u8>, octets: &Sliced) -> bool
    ensures copied { OnTrue result (short.new.items ≡ short.old.items ++ octets.now) }
    ensures still { OnFalse result (short.new.items ≡ short.old.items) }
{
    if octets.len() >= LONG || short.reserve(octets.len()).is_err() {
        return false;
    }
    let (head, rest) = octets.slices();
    short.extend_from_slice(head).unwrap();
    short.extend_from_slice(rest).unwrap();
    true
}

/// Copies what a long unit has in front of its payload if there is memory; returns the rest of the unit.
fn copies_head(short: &mut Vec<u8>, octets: Sliced) -> (Bytes, Bytes)
    ensures { (more : List ℕ) × (short.new.items ≡ short.old.items ++ more) × (more ++ (result.0 ++ result.1) ≡ octets) }
{
    let (head, rest) = octets.into_slices();
    let Some(rest) = rest else {
        return (head, Bytes::new());
    };
    if short.extend_from_slice(head.as_slice()).is_err() {
        return (head, rest);
    }
    (rest, Bytes::new())
}

impl Model for Outbox {
    ghost use Rattle.std.specs.Prelude.{ℕ, List, ◌++◌, ◌≤◌, drop, length};

    ghost Value = { List ℕ };

    ghost view = { λ o. drop o.sent o.short.items ++ (o.long ++ o.last) };

    ghost invariant = { λ o. o.sent ≤ length o.short.items };
}

impl Outbox {
    /// Returns an outbox without octets.
    pub fn new(alloc: Global) -> Outbox
        ensures { result ≡ [] }
    {
        Outbox {
            short: Vec::new(alloc),
            sent: 0,
            long: Bytes::new(),
            last: Bytes::new(),
        }
    }

    /// Returns how many octets are left to be written.
    pub fn len(&self) -> u128
        ensures { result ≡ length self.now }
    {
        let short = self.short.as_slice().len() - self.sent;
        short as u128 + self.long.len() as u128 + self.last.len() as u128
    }

    /// Returns whether all octets are written.
    pub fn is_empty(&self) -> bool
        ensures { result ≡ (length self.now == 0) }
    {
        self.len() == 0
    }

    /// Takes waiting units from `conn` until enough octets are left or no unit waits; returns whether none waits. It
    /// cannot fail: if memory for a copy is refused, the unit is written from where it lies.
    pub fn gather(&mut self, conn: &mut Conn) -> bool
        ensures gathers { Gathers self.old conn.old self.new conn.new }
        ensures only { OnlyWrote conn.old conn.new }
        ensures all { OnTrue result (AllWent conn.new) }
    {
        self.tidy();
        for _ in 0..u64::MAX {
            match self.gather_one(conn) {
                Gathered::Unit => {}
                Gathered::Full => return false,
                Gathered::All => return true,
            }
        }
        false
    }

    fn tidy(&mut self)
        ensures { self.new ≡ self.old }
    {
        if self.sent == self.short.as_slice().len() {
            self.sent = 0;
            self.short.clear();
        }
    }

    fn gather_one(&mut self, conn: &mut Conn) -> Gathered
        ensures gathers { Gathers self.old conn.old self.new conn.new }
        ensures only { OnlyWrote conn.old conn.new }
        ensures all { result ≡ Gathered.All → AllWent conn.new }
    {
        if !has_none(&self.long)
            || !has_none(&self.last)
            || self.short.as_slice().len() >= GATHERED
        {
            return Gathered::Full;
        }
        let Some(unit) = conn.pop_unit() else {
            return Gathered::All;
        };
        if copies(&mut self.short, &unit.bytes) {
            return Gathered::Unit;
        }
        let (long, last) = copies_head(&mut self.short, unit.bytes);
        self.long = long;
        self.last = last;
        Gathered::Unit
    }

    fn advance(&mut self, count: usize)
        requires { count ≤ length self.old }
        ensures { self.new ≡ drop count self.old }
    {
        let of_short = count.min(self.short.as_slice().len() - self.sent);
        self.sent += of_short;
        let of_long = (count - of_short).min(self.long.len());
        self.long.advance(of_long);
        self.last.advance(count - of_short - of_long);
    }

    fn write_front<S: NonBlocking>(&self, stream: &mut S) -> Result<Moved, Failed>
        ensures bound { IfOk result (λ moved. count moved ≤ length self.now) }
        ensures some { IfOk result (MovesSome self.now) }
        ensures octets { Writes (S.written stream.old) (S.written stream.new) result self.now }
        ensures remaining { S.remaining stream.new ≡ S.remaining stream.old }
        ensures ok { OnOk result (S.failed stream.new ≡ S.failed stream.old) }
        ensures err { OnErr result (S.failed stream.new ≡ true) }
    {
        let short = &self.short.as_slice()[self.sent..];
        if short.is_empty() {
            return stream.write_two(self.long.as_slice(), self.last.as_slice());
        }
        stream.write_two(short, self.long.as_slice())
    }

    fn write_once<S: NonBlocking>(&mut self, stream: &mut S) -> Result<Moved, Failed>
        ensures sends { IfOk result (Sends self.old self.new) }
        ensures err { OnErr result (self.new ≡ self.old) }
        ensures passes { PassesOn (S.written stream.old) (S.written stream.new) self.old self.new }
        ensures remaining { S.remaining stream.new ≡ S.remaining stream.old }
        ensures ok { OnOk result (S.failed stream.new ≡ S.failed stream.old) }
        ensures failed { OnErr result (S.failed stream.new ≡ true) }
    {
        let answer = self.write_front(stream);
        if let Ok(Moved::Octets(count)) = answer {
            self.advance(count);
        }
        answer
    }

    /// Writes until all is written or the stream would wait; returns whether all is written.
    ///
    /// # Errors
    ///
    /// [`Failed`] if the stream failed. The octets that it took before are not left.
    pub fn write<S: NonBlocking>(&mut self, stream: &mut S) -> Result<bool, Failed>
        ensures all { IfOk result (λ all. OnTrue all (self.new ≡ [])) }
        ensures some { IfOk result (λ all. OnFalse all (self.new ≢ [])) }
        ensures passes { PassesOn (S.written stream.old) (S.written stream.new) self.old self.new }
        ensures remaining { S.remaining stream.new ≡ S.remaining stream.old }
        ensures ok { OnOk result (S.failed stream.new ≡ S.failed stream.old) }
        ensures failed { OnErr result (S.failed stream.new ≡ true) }
    {
        while !self.is_empty() {
            match self.write_once(stream) {
                Ok(Moved::Octets(_)) => {}
                Ok(Moved::Waits) => return Ok(false),
                Err(failed) => return Err(failed),
            }
        }
        Ok(true)
    }
}
