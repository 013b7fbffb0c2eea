//! Devices of a pump, of which one call fails, and that move so many octets at a time.

use std::io;
use std::io::{Read, Write};

/// How many octets a call moves at most, and which read and which write fail; 0 for none.
#[derive(Clone, Copy)]
pub(crate) struct Plan {
    pub(crate) size: usize,
    pub(crate) read: u32,
    pub(crate) write: u32,
}

/// No call fails, and each moves what a pump reads at once.
pub(crate) const AMPLE: Plan = Plan {
    size: 4096,
    read: 0,
    write: 0,
};

/// Gives these octets.
#[derive(Drop)]
pub(crate) struct Reads {
    pub(crate) octets: &'static [u8],
    pub(crate) plan: Plan,
    pub(crate) calls: u32,
}

impl Read for Reads {
    fn read(&mut self, buf: &mut [u8]) -> io::Result<usize> {
        self.calls = self.calls.wrapping_add(1);
        if self.calls == self.plan.read {
            return Err(io::Error::other("the line is cut"));
        }
        let (mut piece, rest) = self.octets.split_at(self.octets.len().min(self.plan.size));
        self.octets = rest;
        piece.read(buf)
    }
}

/// Takes octets, and keeps their count and a sum of them. Those that were missed by the write that failed are in the sum and not in the count.
#[derive(Drop)]
pub(crate) struct Writes {
    pub(crate) plan: Plan,
    pub(crate) calls: u32,
    pub(crate) count: usize,
    pub(crate) missed: usize,
    pub(crate) sum: u32,
}

impl Writes {
    /// None was written yet.
    pub(crate) fn new(plan: Plan) -> Writes {
        Writes {
            plan,
            calls: 0,
            count: 0,
            missed: 0,
            sum: 7,
        }
    }

    fn add(&mut self, octets: &[u8]) {
        for octet in octets {
            self.sum = self.sum.wrapping_mul(31).wrapping_add(u32::from(*octet));
        }
    }
}

impl Write for Writes {
    fn write(&mut self, buf: &[u8]) -> io::Result<usize> {
        self.calls = self.calls.wrapping_add(1);
        if self.calls == self.plan.write {
            self.add(buf);
            self.missed = buf.len();
            return Err(io::Error::other("the line is cut"));
        }
        let (piece, _) = buf.split_at(buf.len().min(self.plan.size));
        self.add(piece);
        self.count = self.count.wrapping_add(piece.len());
        Ok(piece.len())
    }

    fn flush(&mut self) -> io::Result<()> {
        Ok(())
    }
}
