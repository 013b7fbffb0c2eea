//! The command `frames`: lines of hexadecimal are joined, framed and named.
ghost use Rattle.std.specs.Prelude.{◌≢◌, ◌<◌, ◌≤◌, [], IfOk, length};

use crate::lines::{LineTaker, Outcome, RunFault, take_lines};
use amqp_frames::{Frame, FrameFault, Framer, Performative};
use std::alloc::{AllocError, Global};
use std::io::{BufRead, Write};

/// The longest frame that is taken, in octets.
pub(crate) const MAX_FRAME: u32 = 65536;

/// The names of the kinds of frames, in the order of their totals.
const NAMES: [&str; 10] = [
    "empty",
    "open",
    "begin",
    "attach",
    "flow",
    "transfer",
    "disposition",
    "detach",
    "end",
    "close",
];

/// Whether the lines were good, and the octets frames and nothing more.
#[derive(Clone, Copy)]
pub struct Framed {
    pub lines: Outcome,
    pub octets: Octets,
}

/// Whether octets are frames.
#[derive(Clone, Copy)]
pub enum Octets {
    Whole,
    /// They end within a frame.
    Unfinished,
    /// They show this fault.
    Faulty(FrameFault),
}

/// Joins the octets of lines of hexadecimal, and prints a line for each frame in them, `fault N` where they show a fault, which ends the reading,
/// or `rest N` where N octets are left at the end; then the total of each kind of frame that came. A line that is not hexadecimal is left out
/// whole, and prints `bad line`.
pub fn run_frames<R: BufRead, W: Write>(
    alloc: Global,
    reader: &mut R,
    writer: &mut W,
) -> Result<Framed, RunFault> {
    let mut framing = Framing {
        alloc,
        framer: Framer::new(alloc, MAX_FRAME),
        totals: [0; 10],
        lines: Outcome::EachLineGood,
    };
    let run = take_lines(alloc, &mut framing, reader, writer);
    let told = match run {
        Ok(()) => tell_rest(framing.framer.pending(), writer),
        Err(RunFault::Framing(fault)) => Ok(Octets::Faulty(fault)),
        Err(fault) => Err(fault),
    };
    let summed = match told {
        Ok(octets) => framing.tell_totals(writer, octets),
        Err(fault) => Err(fault),
    };
    drop(framing);
    let flushed = writer.flush();
    let framed = summed?;
    flushed.map_err(RunFault::Write)?;
    Ok(framed)
}

/// A run of frames.
#[derive(Drop)]
struct Framing {
    alloc: Global,
    framer: Framer,
    totals: [u64; 10],
    lines: Outcome,
}

impl LineTaker for Framing {
    fn take_line<W: Write>(&mut self, line: &[u8], writer: &mut W) -> Result<(), RunFault> {
        match hex::decode(self.alloc, line) {
            Ok(octets) => self.take_octets(octets.as_slice(), writer),
            Err(hex::FromHexError::OutOfMemory) => Err(RunFault::Memory(AllocError)),
            Err(_) => {
                self.lines = Outcome::SomeLineBad;
                writeln!(writer, "bad line").map_err(RunFault::Write)
            }
        }
    }
}

impl Framing {
    /// Prints each frame that these octets end.
    fn take_octets<W: Write>(&mut self, octets: &[u8], writer: &mut W) -> Result<(), RunFault> {
        let mut rest = octets;
        while !rest.is_empty() {
            let used = self.take_front(rest, writer)?;
            rest = &rest[used..];
        }
        Ok(())
    }

    /// Prints the frame that ends first in these octets, if one does, and answers how many of them were taken.
    fn take_front<W: Write>(&mut self, octets: &[u8], writer: &mut W) -> Result<usize, RunFault>
        requires { octets.now ≢ [] }
        ensures { IfOk result (λ used. (0 < used) × (used ≤ length octets.now)) }
    {
        match self.framer.feed(octets) {
            Ok((used, Some(frame))) => {
                self.tell_frame(&frame, writer)?;
                Ok(used)
            }
            Ok((used, None)) => Ok(used),
            Err(FrameFault::NoMemory) => Err(RunFault::Memory(AllocError)),
            Err(fault) => Err(tell_fault(fault, writer)),
        }
    }

    fn tell_frame<W: Write>(&mut self, frame: &Frame, writer: &mut W) -> Result<(), RunFault> {
        let kind = kind_of(&frame.body);
        self.totals[kind] = self.totals[kind].saturating_add(1);
        let channel = frame.channel;
        let (name, fields) = match &frame.body {
            None => ("empty", 0),
            Some(performative) => (performative.name(), performative.fields()),
        };
        let payload = frame.payload.len();
        writeln!(
            writer,
            "channel={channel} name={name} fields={fields} payload={payload}"
        )
        .map_err(RunFault::Write)
    }

    fn tell_totals<W: Write>(&self, writer: &mut W, octets: Octets) -> Result<Framed, RunFault> {
        for (kind, name) in NAMES.iter().enumerate() {
            let total = self.totals[kind];
            if total > 0 {
                writeln!(writer, "total {name} {total}").map_err(RunFault::Write)?;
            }
        }
        Ok(Framed {
            lines: self.lines,
            octets,
        })
    }
}

/// Prints the fault, and answers what ends the run.
pub(crate) fn tell_fault<W: Write>(fault: FrameFault, writer: &mut W) -> RunFault {
    match writeln!(writer, "fault {}", fault.number()) {
        Ok(()) => RunFault::Framing(fault),
        Err(error) => RunFault::Write(error),
    }
}

/// Prints how many octets are left of a frame that did not end.
pub(crate) fn tell_rest<W: Write>(count: usize, writer: &mut W) -> Result<Octets, RunFault> {
    if count == 0 {
        return Ok(Octets::Whole);
    }
    writeln!(writer, "rest {count}").map_err(RunFault::Write)?;
    Ok(Octets::Unfinished)
}

/// The place of its name among `NAMES`.
fn kind_of(body: &Option<Performative>) -> usize
    ensures { result < 10 }
{
    match body {
        None => 0,
        Some(Performative::Open(_)) => 1,
        Some(Performative::Begin(_)) => 2,
        Some(Performative::Attach(_)) => 3,
        Some(Performative::Flow(_)) => 4,
        Some(Performative::Transfer(_)) => 5,
        Some(Performative::Disposition(_)) => 6,
        Some(Performative::Detach(_)) => 7,
        Some(Performative::End(_)) => 8,
        Some(Performative::Close(_)) => 9,
    }
}
