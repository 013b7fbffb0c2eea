//! The input and the output of a row.

use std::alloc::Global;
use std::io;
use std::io::{Read, Write};

/// Gives its octets. Where it is to fail, it is interrupted once before them, and fails behind them.
#[derive(Drop)]
pub struct GivenInput<'a> {
    octets: &'a [u8],
    fails: bool,
    was_interrupted: bool,
}

impl<'a> GivenInput<'a> {
    pub fn new(octets: &'a [u8], fails: bool) -> GivenInput<'a> {
        GivenInput {
            octets,
            fails,
            was_interrupted: false,
        }
    }
}

impl Read for GivenInput<'_> {
    fn read(&mut self, buf: &mut [u8]) -> io::Result<usize> {
        if self.fails && !self.was_interrupted {
            self.was_interrupted = true;
            return Err(io::Error::from(io::ErrorKind::Interrupted));
        }
        if self.fails && self.octets.is_empty() {
            return Err(io::Error::other("the line is cut"));
        }
        self.octets.read(buf)
    }
}

/// Keeps what is written, as far as there is room, and fails at the first write past it.
#[derive(Drop)]
pub struct KeptOutput {
    room: usize,
    pub taken: Vec<u8>,
}

impl KeptOutput {
    pub fn new(alloc: Global, room: usize) -> KeptOutput {
        KeptOutput {
            room,
            taken: Vec::new(alloc),
        }
    }
}

impl Write for KeptOutput {
    fn write(&mut self, buf: &[u8]) -> io::Result<usize> {
        if self.room < buf.len() {
            return Err(io::Error::other("no room"));
        }
        self.room -= buf.len();
        self.taken.extend_from_slice(buf)?;
        Ok(buf.len())
    }

    fn flush(&mut self) -> io::Result<()> {
        Ok(())
    }
}
