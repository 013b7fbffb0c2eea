//! A stream of a test's, and a handler.
ghost use Rattle.std.specs.Prelude.{◌≡◌};
ghost use Rattle.amqp_ready.specs.Lending.{kept};

use amqp_conn::{Failed, Given, Op, Refusal};
use amqp_ready::{Handler, Lent, Moved, Next, NonBlocking};
use std::alloc::Global;

/// Gives octets of a peer's a part at a time, and takes octets a part at a time. Of two calls of a kind the first would wait, unless it is eager.
#[derive(Drop)]
pub(crate) struct Fake {
    says: &'static [u8],
    /// Behind what it says the peer stays; else the octets end.
    stays: bool,
    /// The most octets that are moved at once.
    part: usize,
    pub took: Vec<u8>,
    /// So many octets are taken yet; behind them each write would wait.
    room: usize,
    reads: u32,
    writes: u32,
    pub is_eager: bool,
    has_failed: bool,
}

impl Fake {
    /// Of which nothing was read or taken yet.
    pub(crate) fn new(
        alloc: Global,
        says: &'static [u8],
        stays: bool,
        part: usize,
        room: usize,
    ) -> Fake {
        Fake {
            says,
            stays,
            part,
            took: Vec::new(alloc),
            room,
            reads: 0,
            writes: 0,
            is_eager: false,
            has_failed: false,
        }
    }
}

impl NonBlocking for Fake {
    ghost use Rattle.std.specs.Prelude.{None, Some};

    ghost remaining = { λ f. None };

    ghost written = { λ f. Some f.took.items };

    ghost failed = { λ f. f.has_failed };

    fn read_some(&mut self, buffer: &mut [u8]) -> Result<Moved, Failed> {
        self.reads = self.reads.wrapping_add(1);
        if !self.is_eager && self.reads % 2 == 1 || self.stays && self.says.is_empty() {
            return Ok(Moved::Waits);
        }
        let count = self.says.len().min(self.part).min(buffer.len());
        let (said, rest) = self.says.split_at(count);
        buffer[..count].copy_from_slice(said);
        self.says = rest;
        Ok(Moved::Octets(count))
    }

    fn write_some(&mut self, octets: &[u8]) -> Result<Moved, Failed> {
        self.writes = self.writes.wrapping_add(1);
        let count = octets.len().min(self.part).min(self.room);
        if !self.is_eager && self.writes % 2 == 1 || count == 0 {
            return Ok(Moved::Waits);
        }
        if self.took.extend_from_slice(&octets[..count]).is_err() {
            self.has_failed = true;
            return Err(Failed);
        }
        self.room -= count;
        Ok(Moved::Octets(count))
    }
}

/// Counts what it is told; it would have written first, where it says so.
#[derive(Drop)]
pub(crate) struct Counts {
    pub told: u32,
    /// So many empty frames of eight octets answer what it is told next.
    pub beats: u32,
    pub next: Next,
}

impl Counts {
    pub(crate) fn new(next: Next) -> Counts {
        Counts {
            told: 0,
            beats: 0,
            next,
        }
    }
}

fn beat(conn: &mut Lent, count: u32) -> Result<(), Refusal>
    ensures { kept conn.new.conn ≡ kept conn.old.conn }
{
    for _ in 0..count {
        conn.perform(Op::Beat)?;
    }
    Ok(())
}

impl Handler for Counts {
    ghost use Rattle.std.specs.Prelude.{None};

    ghost told = { λ c. None };

    fn take(&mut self, conn: &mut Lent, given: Given) -> Result<Next, Refusal> {
        drop(given);
        self.told = self.told.wrapping_add(1);
        beat(conn, self.beats)?;
        self.beats = 0;
        // What is left is popped, where there is anything: memory is there for that.
        match conn.pop_left() {
            Ok(left) => drop(left),
            Err(_) => return Err(Refusal::NoMemory),
        }
        Ok(self.next)
    }

    fn go_on(&mut self, _conn: &mut Lent) -> Result<bool, Refusal> {
        Ok(false)
    }
}
