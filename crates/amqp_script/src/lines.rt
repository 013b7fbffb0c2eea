//! Lines of an input, each taken as soon as its end was read.
ghost use Rattle.std.specs.Prelude.{◌≡◌, Ok, IsSome, OnOk, OnSome, false, true};
ghost use Rattle.std.specs.Io.KnownBytes.{IsAtEnd};

use amqp_conn::StartFault;
use amqp_frames::FrameFault;
use std::alloc::{AllocError, Global};
use std::io;
use std::io::{BufRead, Write};
use thiserror::Error;

/// How often a run reads its input at most.
const MAX_READS: u32 = u32::MAX;

/// What ends a run before its input ends.
#[derive(Debug, Drop, Error)]
pub enum RunFault {
    #[error("reading the input: {0}")]
    Read(io::Error),
    #[error("reading the input: more than {MAX_READS} reads")]
    TooManyReads,
    #[error("writing the answers: {0}")]
    Write(io::Error),
    #[error("out of memory")]
    Memory(#[from(alloc)] AllocError),
    /// The octets of the input are no frames.
    #[error("{0}")]
    Framing(FrameFault),
    /// There is no connection to drive.
    #[error("{0}")]
    Start(StartFault),
}

/// Whether each line of an input was one.
#[derive(Clone, Copy)]
pub enum Outcome {
    EachLineGood,
    SomeLineBad,
}

/// What is done with each line.
pub trait LineTaker {
    /// Takes a line, without its newline.
    fn take_line<W: Write>(&mut self, line: &[u8], writer: &mut W) -> Result<(), RunFault>;
}

/// Takes each line that the reader gives. What was written is flushed before each read. A line is held in memory only where it comes in
/// several pieces, and the longest of these at a time.
pub fn take_lines<T: LineTaker, R: BufRead, W: Write>(
    alloc: Global,
    taker: &mut T,
    reader: &mut R,
    writer: &mut W,
) -> Result<(), RunFault>
    // A run that is not at fault has read all of its input.
    ensures { OnOk result (OnSome (R.remaining reader.old) (IsAtEnd (R.remaining reader.new))) }
{
    let mut unfinished = Vec::new(alloc);
    for _ in 0..MAX_READS {
        if read_once(taker, &mut unfinished, reader, writer)? {
            return Ok(());
        }
    }
    Err(RunFault::TooManyReads)
}

/// Takes each line that one read ends. It answers whether the input has ended.
fn read_once<T: LineTaker, R: BufRead, W: Write>(
    taker: &mut T,
    unfinished: &mut Vec<u8>,
    reader: &mut R,
    writer: &mut W,
) -> Result<bool, RunFault>
    ensures end { result ≡ Ok true → OnSome (R.remaining reader.old) (IsAtEnd (R.remaining reader.new)) }
    ensures known { result ≡ Ok false → IsSome (R.remaining reader.old) → IsSome (R.remaining reader.new) }
{
    writer.flush().map_err(RunFault::Write)?;
    let octets = match reader.fill_buf() {
        Ok(octets) => octets,
        Err(error) => {
            return if error.kind() == io::ErrorKind::Interrupted {
                Ok(false)
            } else {
                Err(RunFault::Read(error))
            };
        }
    };
    if octets.is_empty() {
        finish(taker, unfinished, writer)?;
        return Ok(true);
    }
    take_octets(taker, unfinished, octets, writer)?;
    let count = octets.len();
    reader.consume(count);
    Ok(false)
}

/// Takes each line that ends in these octets, and keeps what stands after the last of them.
fn take_octets<T: LineTaker, W: Write>(
    taker: &mut T,
    unfinished: &mut Vec<u8>,
    octets: &[u8],
    writer: &mut W,
) -> Result<(), RunFault> {
    for piece in octets.split_inclusive(|octet| *octet == b'\n') {
        match piece {
            [end @ .., b'\n'] => end_line(taker, unfinished, end, writer)?,
            _ => unfinished.extend_from_slice(piece)?,
        }
    }
    Ok(())
}

/// Takes the unfinished line with this end.
fn end_line<T: LineTaker, W: Write>(
    taker: &mut T,
    unfinished: &mut Vec<u8>,
    end: &[u8],
    writer: &mut W,
) -> Result<(), RunFault> {
    if unfinished.is_empty() {
        return taker.take_line(end, writer);
    }
    unfinished.extend_from_slice(end)?;
    finish(taker, unfinished, writer)
}

/// Takes the unfinished line, if one was begun.
fn finish<T: LineTaker, W: Write>(
    taker: &mut T,
    unfinished: &mut Vec<u8>,
    writer: &mut W,
) -> Result<(), RunFault> {
    if unfinished.is_empty() {
        return Ok(());
    }
    taker.take_line(unfinished.as_slice(), writer)?;
    unfinished.clear();
    Ok(())
}
