//! Octets of one end of a connection as lines, however they are cut.
ghost use Rattle.std.specs.Prelude.{◌≡◌, ◌≢◌, ◌<◌, ◌≤◌, [], IfOk, length};
ghost use Rattle.amqp_trace.specs.Lines.{protocol_of};

use crate::frame::{Direction, Protocol, frame_line, header_line};
use crate::look::Look;
use crate::text::Line;
use amqp_frames::{FrameFault, Framer};
use std::alloc::Global;

/// What a protocol header begins with (part 2, 2.2).
const MAGIC: [u8; 4] = *b"AMQP";

/// How many octets a protocol header has.
const HEADER_LEN: usize = 8;

/// What one end of a connection says, from its first octet on: a protocol header, if one stands in front, and frames.
#[derive(Drop)]
pub struct Tracer {
    alloc: Global,
    direction: Direction,
    look: Look,
    framer: Framer,
    /// The first octets, as long as they may be of a header.
    front: Vec<u8>,
    has_begun: bool,
}

impl Tracer {
    /// Octets that go this way, in frames of at most so many, and how their lines look. It takes no memory.
    pub fn new(alloc: Global, direction: Direction, look: Look, max_frame: u32) -> Tracer {
        Tracer {
            alloc,
            direction,
            look,
            framer: Framer::new(alloc, max_frame),
            front: Vec::new(alloc),
            has_begun: false,
        }
    }

    /// Takes octets, at most to the end of one header or frame, and answers how many, with the line of what they end.
    ///
    /// # Errors
    ///
    /// What the octets show in the place of a frame, or want of memory. Nothing more is to be fed then.
    pub fn feed(&mut self, octets: &[u8]) -> Result<(usize, Option<Line>), FrameFault>
        requires { octets.now ≢ [] }
        ensures { IfOk result (λ fed. (0 < fed.0) × (fed.0 ≤ length octets.now)) }
    {
        if self.has_begun {
            return self.feed_frame(octets);
        }
        match self.feed_front(octets[0]) {
            Ok(line) => Ok((1, line)),
            Err(fault) => Err(fault),
        }
    }

    /// How many octets have come of a header or a frame that did not end.
    pub fn pending(&self) -> usize {
        if self.has_begun {
            self.framer.pending()
        } else {
            self.front.len()
        }
    }

    fn feed_frame(&mut self, octets: &[u8]) -> Result<(usize, Option<Line>), FrameFault>
        requires { octets.now ≢ [] }
        ensures { IfOk result (λ fed. (0 < fed.0) × (fed.0 ≤ length octets.now)) }
    {
        match self.framer.feed(octets) {
            Ok((used, Some(frame))) => {
                let line = frame_line(self.alloc, self.direction, &frame);
                drop(frame);
                Ok((used, Some(self.dress(line?))))
            }
            Ok((used, None)) => Ok((used, None)),
            Err(fault) => Err(fault),
        }
    }

    /// Takes the next octet of a header, or of a frame that does not begin as one.
    fn feed_front(&mut self, octet: u8) -> Result<Option<Line>, FrameFault> {
        if self.front.push(octet).is_err() {
            return Err(FrameFault::NoMemory);
        }
        if !may_be_header(self.front.as_slice()) {
            self.begin()?;
            return Ok(None);
        }
        if self.front.len() < HEADER_LEN {
            return Ok(None);
        }
        self.has_begun = true;
        self.header()
    }

    /// What came is of a frame: four octets at most, so none ends in it.
    fn begin(&mut self) -> Result<(), FrameFault> {
        self.has_begun = true;
        match self.framer.feed(self.front.as_slice()) {
            Ok((_, Some(frame))) => {
                drop(frame);
                Ok(())
            }
            Ok((_, None)) => Ok(()),
            Err(fault) => Err(fault),
        }
    }

    fn header(&self) -> Result<Option<Line>, FrameFault> {
        let Some(protocol) = protocol_of(self.front.as_slice()) else {
            return Ok(None);
        };
        let line = header_line(self.alloc, self.direction, protocol)?;
        Ok(Some(self.dress(line)))
    }

    /// The line, as it is to look.
    fn dress(&self, mut line: Line) -> Line {
        if self.look == Look::Colored {
            line.color(self.direction);
        }
        line
    }
}

/// The protocol that these octets name, if they are as many as a header has.
fn protocol_of(front: &[u8]) -> Option<Protocol>
    ensures { result ≡ protocol_of front.now }
{
    let [_, _, _, _, id, major, minor, revision] = front else {
        return None;
    };
    Some(Protocol {
        id: *id,
        major: *major,
        minor: *minor,
        revision: *revision,
    })
}

/// Whether the octets begin as a header does. No frame begins so that is shorter than a gigaoctet.
fn may_be_header(front: &[u8]) -> bool {
    let count = front.len().min(MAGIC.len());
    front[..count] == MAGIC[..count]
}
