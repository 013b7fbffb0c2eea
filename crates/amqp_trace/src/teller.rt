//! What goes over a connection as lines on standard error.
ghost use Rattle.std.specs.Prelude.{◌≢◌, ◌<◌, ◌≤◌, [], length};

use crate::tracer::Tracer;
use amqp_frames::FrameFault;

/// Octets that go one way over a connection: each header and frame in them is told by a line on standard error. A line that cannot be written is left out.
#[derive(Drop)]
pub struct Teller {
    /// What stands in front of each line, where there are several connections.
    number: Option<u64>,
    /// None where nothing is told any more.
    tracer: Option<Tracer>,
}

impl Teller {
    /// By the lines of this tracer, each behind the number of its connection, where it has one.
    pub fn new(number: Option<u64>, tracer: Tracer) -> Teller {
        Teller {
            number,
            tracer: Some(tracer),
        }
    }

    /// Tells each header and frame that ends in these octets, the first of which are the next that went this way. Where they show no frame, or memory is
    /// refused, that is told, and nothing more.
    pub fn tell<E: Eprint>(&mut self, rt: &E, octets: &[u8]) {
        let mut rest = octets;
        while !rest.is_empty() {
            let used = self.tell_front(rt, rest);
            rest = &rest[used..];
        }
    }

    /// Tells what ends first in these octets, if anything does, and answers how many of them that took.
    fn tell_front<E: Eprint>(&mut self, rt: &E, octets: &[u8]) -> usize
        requires { octets.now ≢ [] }
        ensures bound { (0 < result) × (result ≤ length octets.now) }
    {
        let Some(tracer) = &mut self.tracer else {
            return octets.len();
        };
        match tracer.feed(octets) {
            Ok((used, Some(line))) => {
                let _ = match self.number {
                    Some(number) => eprintln!(rt; "{number} {line}"),
                    None => eprintln!(rt; "{line}"),
                };
                used
            }
            Ok((used, None)) => used,
            Err(fault) => {
                self.end(rt, fault);
                octets.len()
            }
        }
    }

    /// Octets that went this way are not known, for want of memory: that is told, if it was not yet, and nothing more.
    pub fn cut<E: Eprint>(&mut self, rt: &E) {
        if self.tracer.is_some() {
            self.end(rt, FrameFault::NoMemory);
        }
    }

    fn end<E: Eprint>(&mut self, rt: &E, why: FrameFault) {
        self.tracer = None;
        let _ = match self.number {
            Some(number) => eprintln!(rt; "{number} trace ends: {why}"),
            None => eprintln!(rt; "trace ends: {why}"),
        };
    }
}
