//! How a pump ends over devices of which a call fails, and that it goes on behind a read that failed.

use crate::device::{Plan, Reads, Writes};
use crate::hostile::peer::connection;
use amqp_conn::*;
use std::alloc::Global;
use std::io;
use std::io::Write;

const HEADER: &[u8] = b"AMQP\x00\x01\x00\x00";

/// The header of the security layer.
const OTHER: &[u8] = b"AMQP\x03\x01\x00\x00";

/// Header, open and close.
const WHOLE: &[u8] =
    b"AMQP\x00\x01\x00\x00\x00\x00\x00\x1a\x02\x00\x00\x00\x00\x53\x10\xc0\x0d\x04\xa1\x01a\x40\x70\x00\x01\x00\x00\x60\x00\x00\x00\x00\x00\x0c\x02\x00\x00\x00\x00\x53\x18\x45";

/// Header, and the open twice.
const TWICE: &[u8] =
    b"AMQP\x00\x01\x00\x00\x00\x00\x00\x1a\x02\x00\x00\x00\x00\x53\x10\xc0\x0d\x04\xa1\x01a\x40\x70\x00\x01\x00\x00\x60\x00\x00\x00\x00\x00\x1a\x02\x00\x00\x00\x00\x53\x10\xc0\x0d\x04\xa1\x01a\x40\x70\x00\x01\x00\x00\x60\x00\x00";

/// Header, open, and a close on channel 1.
const ELSEWHERE: &[u8] =
    b"AMQP\x00\x01\x00\x00\x00\x00\x00\x1a\x02\x00\x00\x00\x00\x53\x10\xc0\x0d\x04\xa1\x01a\x40\x70\x00\x01\x00\x00\x60\x00\x00\x00\x00\x00\x0c\x02\x00\x00\x01\x00\x53\x18\x45";

type PumpAnswer = Result<PumpEnd, PumpFault>;

/// What a peer says, how many turns a pump has, which read and which write fails, 0 for none, and how the pump ends.
const PUMPS: &[(&[u8], u32, u32, u32, PumpAnswer)] = &[
    (HEADER, 1, 0, 0, Ok(PumpEnd::TurnsOver)),
    (HEADER, 9, 0, 0, Ok(PumpEnd::EndOfInput)),
    // Six reads of nine octets at most; that the connection is closed is told in the next turn.
    (WHOLE, 0, 0, 0, Ok(PumpEnd::TurnsOver)),
    (WHOLE, 1, 0, 0, Ok(PumpEnd::TurnsOver)),
    (WHOLE, 2, 0, 0, Ok(PumpEnd::TurnsOver)),
    (WHOLE, 3, 0, 0, Ok(PumpEnd::TurnsOver)),
    (WHOLE, 4, 0, 0, Ok(PumpEnd::TurnsOver)),
    (WHOLE, 5, 0, 0, Ok(PumpEnd::TurnsOver)),
    (WHOLE, 6, 0, 0, Ok(PumpEnd::TurnsOver)),
    (WHOLE, 7, 0, 0, Ok(PumpEnd::Closed)),
    (WHOLE, 99, 1, 0, Err(PumpFault::Read)),
    (WHOLE, 99, 2, 0, Err(PumpFault::Read)),
    (WHOLE, 99, 3, 0, Err(PumpFault::Read)),
    (WHOLE, 99, 4, 0, Err(PumpFault::Read)),
    (WHOLE, 99, 5, 0, Err(PumpFault::Read)),
    (WHOLE, 99, 6, 0, Err(PumpFault::Read)),
    // Three units: our header, open and close.
    (WHOLE, 99, 0, 1, Err(PumpFault::Write)),
    (WHOLE, 99, 0, 2, Err(PumpFault::Write)),
    (WHOLE, 99, 0, 3, Err(PumpFault::Write)),
    // The fault is told behind the last close, and that the close cannot be written before it.
    (TWICE, 99, 0, 4, Err(PumpFault::Conn(ConnFault::OutOfPlace))),
    (TWICE, 99, 0, 3, Err(PumpFault::Write)),
    (
        ELSEWHERE,
        99,
        0,
        4,
        Err(PumpFault::Conn(ConnFault::BadChannel)),
    ),
    (ELSEWHERE, 99, 0, 3, Err(PumpFault::Write)),
    // Behind another header no close goes out.
    (OTHER, 99, 0, 2, Err(PumpFault::Conn(ConnFault::BadHeader))),
];

/// Gives nine octets at a time.
fn reads(octets: &'static [u8], read: u32) -> Reads {
    let plan = Plan {
        size: 9,
        read,
        write: 0,
    };
    Reads {
        octets,
        plan,
        calls: 0,
    }
}

/// Takes each unit whole.
fn writes(write: u32) -> Writes {
    Writes::new(Plan {
        size: 4096,
        read: 0,
        write,
    })
}

fn pump(octets: &'static [u8], turns: u32, read: u32, write: u32, conn: &mut Conn) -> PumpAnswer {
    let mut source = FromStd::new(reads(octets, read));
    let mut sink = FromStd::new(writes(write));
    Pump::new().run(&mut source, &mut sink, conn, turns)
}

/// How a pump ends over such devices.
fn pumped(
    alloc: Global,
    octets: &'static [u8],
    turns: u32,
    read: u32,
    write: u32,
) -> Option<PumpAnswer> {
    let mut conn = connection(alloc, 99)?;
    let end = pump(octets, turns, read, write, &mut conn);
    drop(conn);
    Some(end)
}

#[test]
fn pumps_end(rt: HostRuntime) {
    for (octets, turns, read, write, end) in PUMPS {
        assert!(rt; pumped(rt.alloc(), octets, *turns, *read, *write) == Some(*end));
    }
}

/// Whether a pump tells a read that fails, keeps its error, and goes on to the end where it is called again.
fn goes_on(alloc: Global, failing: u32) -> bool {
    let Some(mut conn) = connection(alloc, 99) else {
        return false;
    };
    let so = is_called_again(failing, &mut conn);
    drop(conn);
    so
}

fn is_called_again(failing: u32, conn: &mut Conn) -> bool {
    let mut source = FromStd::new(reads(WHOLE, failing));
    let mut sink = FromStd::new(writes(0));
    let mut pump = Pump::new();
    let first = pump.run(&mut source, &mut sink, conn, 99);
    let kept = match source.take_error() {
        Some(error) => error.kind() == io::ErrorKind::Other,
        None => false,
    };
    let then = pump.run(&mut source, &mut sink, conn, 99);
    kept && first == Err(PumpFault::Read) && then == Ok(PumpEnd::Closed)
}

#[test]
fn a_pump_goes_on_behind_a_read_that_failed(rt: HostRuntime) {
    for failing in 1..7 {
        assert!(rt; goes_on(rt.alloc(), failing));
    }
}

/// Takes five octets at most, and is interrupted before each time; after so many octets it takes none.
#[derive(Drop)]
struct Slow {
    interrupted: bool,
    room: usize,
}

impl Write for Slow {
    fn write(&mut self, buf: &[u8]) -> io::Result<usize> {
        self.interrupted = !self.interrupted;
        if self.interrupted {
            return Err(io::Error::from(io::ErrorKind::Interrupted));
        }
        let taken = buf.len().min(5).min(self.room);
        self.room -= taken;
        Ok(taken)
    }

    fn flush(&mut self) -> io::Result<()> {
        Ok(())
    }
}

/// Whether a device with so much room takes sixteen octets.
fn takes(room: usize) -> bool {
    let mut sink = FromStd::new(Slow {
        interrupted: false,
        room,
    });
    Sink::write_all(&mut sink, &[7; 16]).is_ok()
}

#[test]
fn a_sink_writes_on_behind_short_writes(rt: HostRuntime) {
    assert!(rt; takes(16) && !takes(15));
}
