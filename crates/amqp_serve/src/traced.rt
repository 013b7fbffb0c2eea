//! What goes over each connection, as lines on standard error.
use amqp_ready::{Recorded, Way};
use amqp_trace::{Direction, Look, Teller, Tracer};
use std::alloc::Global;

/// Prints the frames of one connection, each line behind the connection's number.
#[derive(Drop)]
pub struct Trace {
    heard: Teller,
    sent: Teller,
}

impl Trace {
    /// Returns the trace of the connection with this number, which takes frames of at most `max_frame` octets.
    pub fn new(alloc: Global, number: u64, look: Look, max_frame: u32) -> Trace {
        let heard = Tracer::new(alloc, Direction::Heard, look, max_frame);
        let sent = Tracer::new(alloc, Direction::Sent, look, u32::MAX);
        Trace {
            heard: Teller::new(Some(number), heard),
            sent: Teller::new(Some(number), sent),
        }
    }

    /// Prints each header and frame that ends in what was recorded.
    pub fn print<E: Eprint>(&mut self, rt: &E, recorded: &Recorded) {
        match recorded {
            Recorded::Octets(Way::In, octets) => self.heard.tell(rt, octets.as_slice()),
            Recorded::Octets(Way::Out, octets) => self.sent.tell(rt, octets.as_slice()),
            Recorded::Cut => {
                self.heard.cut(rt);
                self.sent.cut(rt);
            }
        }
    }
}
