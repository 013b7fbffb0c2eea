//! The command `trace`: octets of one end of a connection, and a line for each frame in them.
ghost use Rattle.std.specs.Prelude.{◌≢◌, ◌<◌, ◌≤◌, [], IfOk, length};

use crate::frames::{Framed, MAX_FRAME, Octets, tell_fault, tell_rest};
use crate::lines::{LineTaker, Outcome, RunFault, take_lines};
use amqp_frames::FrameFault;
use amqp_trace::{Direction, Look, Tracer};
use std::alloc::{AllocError, Global};
use std::io;
use std::io::{BufRead, Write};

/// How often raw octets are read at most.
const MAX_READS: u32 = u32::MAX;

/// Joins the octets of lines of hexadecimal, and prints a line for each frame in them, and for a protocol header in front; `fault N` where they
/// show a fault, which ends the reading, or `rest N` where N octets are left at the end. A line that is not hexadecimal is left out whole, and
/// prints `bad line`.
pub fn run_trace<R: BufRead, W: Write>(
    alloc: Global,
    direction: Direction,
    look: Look,
    reader: &mut R,
    writer: &mut W,
) -> Result<Framed, RunFault> {
    let mut tracing = Tracing::new(alloc, direction, look);
    let run = take_lines(alloc, &mut tracing, reader, writer);
    tracing.end(run, writer)
}

/// The same of octets as they are, in place of lines.
pub fn run_raw_trace<R: BufRead, W: Write>(
    alloc: Global,
    direction: Direction,
    look: Look,
    reader: &mut R,
    writer: &mut W,
) -> Result<Framed, RunFault> {
    let mut tracing = Tracing::new(alloc, direction, look);
    let run = take_raw(&mut tracing, reader, writer);
    tracing.end(run, writer)
}

/// A run of frames.
#[derive(Drop)]
struct Tracing {
    alloc: Global,
    tracer: Tracer,
    lines: Outcome,
}

impl LineTaker for Tracing {
    fn take_line<W: Write>(&mut self, line: &[u8], writer: &mut W) -> Result<(), RunFault> {
        match hex::decode(self.alloc, line) {
            Ok(octets) => self.take_octets(octets.as_slice(), writer),
            Err(hex::FromHexError::OutOfMemory) => Err(RunFault::Memory(AllocError)),
            Err(_) => {
                self.lines = Outcome::SomeLineBad;
                writeln!(writer, "bad line").map_err(RunFault::Write)
            }
        }
    }
}

impl Tracing {
    fn new(alloc: Global, direction: Direction, look: Look) -> Tracing {
        Tracing {
            alloc,
            tracer: Tracer::new(alloc, direction, look, MAX_FRAME),
            lines: Outcome::EachLineGood,
        }
    }

    /// Prints a line for the header in front, and for each frame that these octets end.
    fn take_octets<W: Write>(&mut self, octets: &[u8], writer: &mut W) -> Result<(), RunFault> {
        let mut rest = octets;
        while !rest.is_empty() {
            let used = self.take_front(rest, writer)?;
            rest = &rest[used..];
        }
        Ok(())
    }

    /// Prints the line of what ends first in these octets, if anything does, and answers how many of them were taken.
    fn take_front<W: Write>(&mut self, octets: &[u8], writer: &mut W) -> Result<usize, RunFault>
        requires { octets.now ≢ [] }
        ensures { IfOk result (λ used. (0 < used) × (used ≤ length octets.now)) }
    {
        match self.tracer.feed(octets) {
            Ok((used, Some(line))) => {
                writeln!(writer, "{line}").map_err(RunFault::Write)?;
                Ok(used)
            }
            Ok((used, None)) => Ok(used),
            Err(FrameFault::NoMemory) => Err(RunFault::Memory(AllocError)),
            Err(fault) => Err(tell_fault(fault, writer)),
        }
    }

    /// What the run told, once what is left is printed.
    fn end<W: Write>(self, run: Result<(), RunFault>, writer: &mut W) -> Result<Framed, RunFault> {
        let told = match run {
            Ok(()) => tell_rest(self.tracer.pending(), writer),
            Err(RunFault::Framing(fault)) => Ok(Octets::Faulty(fault)),
            Err(fault) => Err(fault),
        };
        let flushed = writer.flush();
        let octets = told?;
        flushed.map_err(RunFault::Write)?;
        Ok(Framed {
            lines: self.lines,
            octets,
        })
    }
}

/// Takes the octets that the reader gives. What was written is flushed before each read.
fn take_raw<R: BufRead, W: Write>(
    tracing: &mut Tracing,
    reader: &mut R,
    writer: &mut W,
) -> Result<(), RunFault> {
    for _ in 0..MAX_READS {
        if read_raw(tracing, reader, writer)? {
            return Ok(());
        }
    }
    Err(RunFault::TooManyReads)
}

/// Takes the octets of one read. It answers whether the input has ended.
fn read_raw<R: BufRead, W: Write>(
    tracing: &mut Tracing,
    reader: &mut R,
    writer: &mut W,
) -> Result<bool, RunFault> {
    writer.flush().map_err(RunFault::Write)?;
    let octets = match reader.fill_buf() {
        Ok(octets) => octets,
        Err(error) => {
            return if error.kind() == io::ErrorKind::Interrupted {
                Ok(false)
            } else {
                Err(RunFault::Read(error))
            };
        }
    };
    if octets.is_empty() {
        return Ok(true);
    }
    tracing.take_octets(octets, writer)?;
    let count = octets.len();
    reader.consume(count);
    Ok(false)
}
