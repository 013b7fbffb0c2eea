//! Lines of a trace on standard error: the number of their connection, and what ends a trace.
use amqp_trace::{Direction, Look, Teller, Tracer};
use std::alloc::Global;
use std::cell::RefCell;
use std::fmt::Display;
use std::io;
use std::io::ErrorKind;

/// A standard error that keeps what is printed.
#[derive(Drop)]
struct Kept {
    text: RefCell<String>,
}

impl Eprint for Kept {
    fn eprint<D: Display + Drop>(&self, value: D) -> io::Result<()> {
        self.keep(value, "")
    }

    fn eprintln<D: Display + Drop>(&self, value: D) -> io::Result<()> {
        self.keep(value, "\n")
    }
}

impl Kept {
    fn new(alloc: Global) -> Kept {
        Kept {
            text: RefCell::new(String::new(alloc)),
        }
    }

    fn keep<D: Display + Drop>(&self, value: D, end: &str) -> io::Result<()> {
        let Ok(mut text) = self.text.try_borrow_mut() else {
            return Err(io::Error::from(ErrorKind::Other));
        };
        match write!(text, "{value}{end}") {
            Ok(()) => Ok(()),
            Err(_) => Err(io::Error::from(ErrorKind::OutOfMemory)),
        }
    }

    fn has(&self, wanted: &str) -> bool {
        match self.text.try_borrow() {
            Ok(text) => text.as_str() == wanted,
            Err(_) => false,
        }
    }
}

/// What a trace is given.
enum Given {
    Octets(&'static [u8]),
    Cut,
}

/// A header and a close, then a cut: nothing is printed after it.
const CUT: &[Given] = &[
    Given::Octets(b"AMQP\x00\x01\x00\x00\x00\x00\x00\x0c\x02\x00\x00\x00\x00\x53\x18\x45"),
    Given::Cut,
    Given::Cut,
    Given::Octets(b"\x00\x00\x00\x08\x02\x00\x00\x00"),
];

/// An empty frame, then a frame of which the size is below 8.
const FAULTY: &[Given] = &[
    Given::Octets(b"\x00\x00\x00\x08\x02\x00\x00\x05\x00\x00\x00\x07"),
    Given::Octets(b"\x00\x00\x00\x08\x02\x00\x00\x00"),
    Given::Cut,
];

/// The number of a connection, if it has one, and what is printed of the faulty octets.
const NUMBERED: &[(Option<u64>, &str)] = &[
    (
        Some(7),
        "7 AMQP:FRAME:5 <- (EMPTY FRAME)\n7 trace ends: a frame's size is below 8\n",
    ),
    (
        Some(18446744073709551615),
        "18446744073709551615 AMQP:FRAME:5 <- (EMPTY FRAME)\n18446744073709551615 trace ends: a frame's size is below 8\n",
    ),
    (
        None,
        "AMQP:FRAME:5 <- (EMPTY FRAME)\ntrace ends: a frame's size is below 8\n",
    ),
];

fn prints(alloc: Global, number: Option<u64>, given: &[Given], wanted: &str) -> bool {
    let kept = Kept::new(alloc);
    let tracer = Tracer::new(alloc, Direction::Heard, Look::Plain, 65536);
    let mut teller = Teller::new(number, tracer);
    for next in given {
        match next {
            Given::Octets(octets) => teller.tell(&kept, octets),
            Given::Cut => teller.cut(&kept),
        }
    }
    kept.has(wanted)
}

#[test]
fn traced_lines_have_the_number_of_their_connection(rt: HostRuntime) {
    for (number, wanted) in NUMBERED {
        assert!(rt; prints(rt.alloc(), *number, FAULTY, wanted));
    }
}

#[test]
fn a_cut_ends_a_trace(rt: HostRuntime) {
    let wanted =
        "AMQP:HEADER <- id=0 version=1.0.0\nAMQP:FRAME:0 <- @close(24) []\ntrace ends: out of memory\n";
    assert!(rt; prints(rt.alloc(), None, CUT, wanted));
}
