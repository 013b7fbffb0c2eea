//! Tests: a journal's line is written before what depends on it is sent, and nothing that is in doubt counts as taken.
use crate::again::GoesOn;
use crate::bodies::Bodies;
use crate::exchange::{Exchange, ExchangeFault, Renewal, Settlement, begin};
use crate::journal::{Journal, Line, Notes};
use crate::observed::{Flushes, Observed};
use crate::progress::Unwatched;
use crate::receive_again::Receives;
use crate::report::Output;
use crate::send_again::Sends;
use crate::{Labels, Printed, seen};
use amqp_client::{Client, ClientFault, End, Session, await_attached};
use amqp_conn::{Config, Phase, Role, Tag, Text};
use std::alloc::{AllocError, Global};
use std::cell::Cell;
use std::fs::{Metadata, OpenFile};
use std::io;
use std::io::{ErrorKind, Read, Sink, Write, sink};
use std::os::fd::RawFd;

/// A message of no octets, unsettled.
const ONE: Exchange<'static> = Exchange {
    host: "",
    port: 0,
    is_listening: false,
    address: "q",
    container_id: "amqp_peer",
    max_frame: 65536,
    count: 1,
    patience: None,
    wait: None,
    size: 0,
    file: None,
    is_lines: false,
    is_polled: false,
    labels: Labels::NONE,
    is_settled: false,
    credit: 1,
    renewal: Renewal::AtZero,
    settlement: Settlement::Accept,
    printed: Printed::Nothing,
    trace: None,
    is_quiet: true,
    journal: None,
    retries: 0,
};

/// In 96 octets header, open, begin and the attach of a link `amqp_peer` on which we receive; in 23 more a delivery of one octet that is not settled; behind
/// them detach, end and close.
const DELIVERED: [u8; 159] = [
    0x41, 0x4d, 0x51, 0x50, 0, 1, 0, 0, 0, 0, 0, 0x1a, 2, 0, 0, 0, 0, 0x53, 0x10, 0xc0, 0x0d, 4,
    0xa1, 1, 0x61, 0x40, 0x70, 0, 1, 0, 0, 0x60, 0, 0, 0, 0, 0, 0x1c, 2, 0, 0, 0, 0, 0x53, 0x11,
    0xc0, 0x0f, 4, 0x60, 0, 0, 0x43, 0x70, 0, 0, 8, 0, 0x70, 0x7f, 0xff, 0xff, 0xff, 0, 0, 0, 0x22,
    2, 0, 0, 0, 0, 0x53, 0x12, 0xc0, 0x15, 0x0a, 0xa1, 9, 0x61, 0x6d, 0x71, 0x70, 0x5f, 0x70, 0x65,
    0x65, 0x72, 0x43, 0x42, 0x40, 0x40, 0x40, 0x40, 0x40, 0x40, 0x43, 0, 0, 0, 0x17, 2, 0, 0, 0, 0,
    0x53, 0x14, 0xc0, 9, 5, 0x43, 0x52, 0, 0xa0, 1, 0, 0x43, 0x42, 0x78, 0, 0, 0, 0x10, 2, 0, 0, 0,
    0, 0x53, 0x16, 0xc0, 3, 2, 0x43, 0x41, 0, 0, 0, 0x0c, 2, 0, 0, 0, 0, 0x53, 0x17, 0x45, 0, 0, 0,
    0x0c, 2, 0, 0, 0, 0, 0x53, 0x18, 0x45,
];

/// In 119 octets header, open, begin, the attach that answers a link `amqp_peer` on which we send, and a flow with a credit of 5; in 42 more dispositions by
/// which the first two deliveries are accepted, and then settled; behind them detach, end and close.
const TOLD: [u8; 201] = [
    0x41, 0x4d, 0x51, 0x50, 0, 1, 0, 0, 0, 0, 0, 0x1a, 2, 0, 0, 0, 0, 0x53, 0x10, 0xc0, 0x0d, 4,
    0xa1, 1, 0x61, 0x40, 0x70, 0, 1, 0, 0, 0x60, 0, 0, 0, 0, 0, 0x1c, 2, 0, 0, 0, 0, 0x53, 0x11,
    0xc0, 0x0f, 4, 0x60, 0, 0, 0x43, 0x70, 0, 0, 8, 0, 0x70, 0x7f, 0xff, 0xff, 0xff, 0, 0, 0, 0x1b,
    2, 0, 0, 0, 0, 0x53, 0x12, 0xc0, 0x0e, 3, 0xa1, 9, 0x61, 0x6d, 0x71, 0x70, 0x5f, 0x70, 0x65,
    0x65, 0x72, 0x43, 0x41, 0, 0, 0, 0x1e, 2, 0, 0, 0, 0, 0x53, 0x13, 0xc0, 0x11, 7, 0x43, 0x70, 0,
    0, 8, 0, 0x43, 0x70, 0x7f, 0xff, 0xff, 0xff, 0x43, 0x43, 0x52, 5, 0, 0, 0, 0x17, 2, 0, 0, 0, 0,
    0x53, 0x15, 0xc0, 0x0a, 5, 0x41, 0x43, 0x52, 1, 0x42, 0, 0x53, 0x24, 0x45, 0, 0, 0, 0x13, 2, 0,
    0, 0, 0, 0x53, 0x15, 0xc0, 6, 4, 0x41, 0x43, 0x52, 1, 0x41, 0, 0, 0, 0x10, 2, 0, 0, 0, 0, 0x53,
    0x16, 0xc0, 3, 2, 0x43, 0x41, 0, 0, 0, 0x0c, 2, 0, 0, 0, 0, 0x53, 0x17, 0x45, 0, 0, 0, 0x0c, 2,
    0, 0, 0, 0, 0x53, 0x18, 0x45,
];

/// Lines that are counted, and how many of them are not on the disk. From a number of lines on, each fails.
#[derive(Drop)]
struct Recorder<'a> {
    noted: u64,
    most: u64,
    unsynced: &'a Cell<bool>,
}

impl Notes for Recorder<'_> {
    fn noted(&self) -> u64 {
        self.noted
    }

    fn join(&mut self, _role: Role, _name: &str) -> Result<(), ExchangeFault> {
        Ok(())
    }

    fn note(&mut self, _line: &Line<'_>) -> Result<(), ExchangeFault> {
        if self.noted >= self.most {
            return Err(ExchangeFault::NoLine(self.noted));
        }
        self.noted = self.noted.saturating_add(1);
        self.unsynced.set(true);
        Ok(())
    }

    fn sync(&mut self) -> Result<(), ExchangeFault> {
        self.unsynced.set(false);
        Ok(())
    }
}

/// Octets of the peer's in three pieces, one at each read: two of these lengths, and the rest.
#[derive(Drop)]
struct Pieces<'a> {
    octets: &'a [u8],
    first: usize,
    second: usize,
    reads: u32,
}

impl Read for Pieces<'_> {
    fn read(&mut self, buf: &mut [u8]) -> io::Result<usize> {
        let most = match self.reads {
            0 => self.first,
            1 => self.second,
            _ => self.octets.len(),
        };
        self.reads = self.reads.saturating_add(1);
        let (mut piece, rest) = self.octets.split_at(self.octets.len().min(most));
        self.octets = rest;
        piece.read(buf)
    }
}

type Fed<'a> = Client<Pieces<'a>, Sink>;

/// A session that sees whether something goes out while a line is not on the disk.
#[derive(Drop)]
struct Watched<'a> {
    session: Fed<'a>,
    unsynced: &'a Cell<bool>,
    is_early: bool,
}

impl Session for Watched<'_> {
    fn end(&self) -> &End {
        self.session.end()
    }

    fn end_mut(&mut self) -> &mut End {
        self.session.end_mut()
    }

    fn turn(&mut self) -> Result<(), ClientFault> {
        if self.unsynced.get() {
            self.is_early = true;
        }
        self.session.turn()
    }

    fn write_out(&mut self) {
        self.session.write_out();
    }
}

impl Flushes for Watched<'_> {
    fn flush(&mut self, _elapsed: u64) -> Result<(), ClientFault> {
        self.turn()
    }

    fn socket(&self) -> Option<RawFd> {
        None
    }
}

/// An end that hears these octets, in such pieces.
fn fed<'a>(
    alloc: Global,
    octets: &'a [u8],
    first: usize,
    second: usize,
    unsynced: &'a Cell<bool>,
) -> Option<Watched<'a>> {
    let Ok(name) = Text::new(alloc, "amqp_peer") else {
        return None;
    };
    let pieces = Pieces {
        octets,
        first,
        second,
        reads: 0,
    };
    match Client::new(alloc, Config::new(name), None, pieces, sink()) {
        Ok(session) => Some(Watched {
            session,
            unsynced,
            is_early: false,
        }),
        Err(_) => None,
    }
}

/// What came of an exchange over one connection.
#[derive(Clone, Copy, PartialEq, Eq)]
struct Seen {
    /// How many lines were noted.
    noted: u64,
    /// How many messages were taken, or have begun.
    count: u64,
    /// Something went out while a line was not on the disk.
    is_early: bool,
    /// The delivery with the tag 0 is unsettled.
    is_held: bool,
}

/// Receives a message, with at most so many lines.
fn received(alloc: Global, second: usize, most: u64) -> Option<Seen> {
    let unsynced = Cell::new(false);
    let mut session = fed(alloc, &DELIVERED, 96, second, &unsynced)?;
    let recorder = Recorder {
        noted: 0,
        most,
        unsynced: &unsynced,
    };
    let mut receives = Receives::new(alloc, &ONE, recorder);
    let mut watch = Unwatched;
    let mut out = sink();
    let mut output = Output::new(alloc, Printed::Nothing, &mut out, &mut watch);
    let ended = receives.go_on(&mut session, &mut output);
    let is_fault_of_it = matches!(&ended, Err(ExchangeFault::Client(_)));
    drop(ended);
    let wound = receives.wind_up(&mut session, is_fault_of_it, &mut output);
    drop(wound);
    drop(output);
    let is_held = match Tag::new(&[0]) {
        Some(tag) => session.end().held(&tag).is_some(),
        None => false,
    };
    let seen = Seen {
        noted: receives.noted(),
        count: receives.count(),
        is_early: session.is_early,
        is_held,
    };
    drop(receives);
    drop(session);
    Some(seen)
}

/// Sends the lines of this text to the peer that says `TOLD`, with at most so many lines of the journal.
fn sent(alloc: Global, octets: &[u8], text: &[u8], most: u64) -> Option<Seen> {
    let unsynced = Cell::new(false);
    let mut session = fed(alloc, octets, 119, 42, &unsynced)?;
    let lines = Exchange {
        is_lines: true,
        ..ONE
    };
    let mut input = text;
    let Ok(bodies) = Bodies::new(alloc, &lines, None, &mut input) else {
        return None;
    };
    let recorder = Recorder {
        noted: 0,
        most,
        unsynced: &unsynced,
    };
    let mut sends = Sends::new(alloc, &lines, recorder, bodies);
    let mut watch = Unwatched;
    let mut out = sink();
    let mut output = Output::new(alloc, Printed::Nothing, &mut out, &mut watch);
    let ended = sends.go_on(&mut session, &mut output);
    drop(output);
    drop(ended);
    let seen = Seen {
        noted: sends.noted(),
        count: sends.count(),
        is_early: session.is_early,
        is_held: false,
    };
    drop(sends);
    drop(session);
    Some(seen)
}

/// The peer's octets without the message.
fn without_message(alloc: Global) -> Result<Vec<u8>, AllocError> {
    let mut octets = Vec::from_slice(alloc, &DELIVERED[..96])?;
    octets.extend_from_slice(&DELIVERED[119..])?;
    Ok(octets)
}

/// The phase of a connection that fails while its link is kept, and whether the link is still there.
fn left_aside(alloc: Global) -> Option<(Phase, bool)> {
    let unsynced = Cell::new(false);
    let octets = without_message(alloc).ok()?;
    let watched = fed(alloc, octets.as_slice(), 96, 40, &unsynced)?;
    let devices = seen::Seen::new();
    let mut session = Observed::new(watched, &devices);
    let mut watch = Unwatched;
    let mut out = sink();
    let mut output = Output::new(alloc, Printed::Nothing, &mut out, &mut watch);
    let opened = begin(&mut session, &ONE, Role::Receiver);
    drop(opened);
    let attached = await_attached(&mut session);
    let fault = session.conclude(ExchangeFault::NoMessage(1), true, &mut output);
    drop(fault);
    drop(output);
    let stands = (session.end().conn().phase(), session.end().has_link());
    drop(session);
    match attached {
        Ok(()) => Some(stands),
        Err(_) => None,
    }
}

/// A file that counts how often it is brought to the disk.
#[derive(Drop)]
struct Disk<'a> {
    syncs: &'a Cell<u32>,
}

impl Write for Disk<'_> {
    fn write(&mut self, buf: &[u8]) -> io::Result<usize> {
        Ok(buf.len())
    }

    fn flush(&mut self) -> io::Result<()> {
        Ok(())
    }
}

impl OpenFile for Disk<'_> {
    fn metadata(&self) -> io::Result<Metadata> {
        Err(io::Error::from(ErrorKind::Unsupported))
    }

    fn set_len(&self, _size: u64) -> io::Result<()> {
        Ok(())
    }

    fn sync_all(&self) -> io::Result<()> {
        self.sync_data()
    }

    fn sync_data(&self) -> io::Result<()> {
        self.syncs.set(self.syncs.get().saturating_add(1));
        Ok(())
    }
}

/// How often the file is brought to the disk for a line that is synced twice.
fn syncs(alloc: Global) -> u32 {
    let syncs = Cell::new(0);
    let mut journal = Journal::over(alloc, Disk { syncs: &syncs }, None);
    let is_noted = journal.note(&Line::Begun(0)).is_ok();
    let is_synced = journal.sync().is_ok() && journal.sync().is_ok();
    drop(journal);
    if is_noted && is_synced {
        syncs.get()
    } else {
        0
    }
}

/// What was noted is brought to the disk, once.
#[test]
fn what_is_noted_is_brought_to_the_disk(rt: HostRuntime) {
    assert!(rt; syncs(rt.alloc()) == 1);
}

/// A run that fails puts its link aside, and closes the connection as agreed.
#[test]
fn a_link_that_is_kept_is_put_aside(rt: HostRuntime) {
    assert!(rt; left_aside(rt.alloc()) == Some((Phase::Closed, false)));
}

/// A message that cannot be noted is not accepted.
#[test]
fn a_message_is_noted_before_it_is_accepted(rt: HostRuntime) {
    let due = Seen {
        noted: 0,
        count: 0,
        is_early: false,
        is_held: true,
    };
    assert!(rt; received(rt.alloc(), 23, 0) == Some(due));
}

/// Two lines are noted of a message, and both are on the disk before anything that depends on them goes out.
#[test]
fn lines_are_on_the_disk_before_anything_goes_out(rt: HostRuntime) {
    let due = Seen {
        noted: 2,
        count: 1,
        is_early: false,
        is_held: false,
    };
    assert!(rt; received(rt.alloc(), 23, 9) == Some(due));
}

/// A message whose link is gone before it was accepted does not count as taken: its sender has it.
#[test]
fn what_a_link_leaves_in_doubt_is_not_had(rt: HostRuntime) {
    let due = Seen {
        noted: 0,
        count: 0,
        is_early: false,
        is_held: false,
    };
    assert!(rt; received(rt.alloc(), 99, 9) == Some(due));
}

/// A line is noted when a message begins, and one when its outcome is known.
#[test]
fn a_message_is_noted_before_it_goes(rt: HostRuntime) {
    let due = Seen {
        noted: 4,
        count: 2,
        is_early: false,
        is_held: false,
    };
    assert!(rt; sent(rt.alloc(), &TOLD, b"x\ny", u64::MAX) == Some(due));
}

/// Of lines that are all there 64 begin, and then the peer is heard: two outcomes are noted before another message begins.
#[test]
fn the_peer_is_heard_between_lines(rt: HostRuntime) {
    let due = Seen {
        noted: 66,
        count: 64,
        is_early: false,
        is_held: false,
    };
    let mut octets = TOLD;
    octets[118] = 200;
    assert!(rt; sent(rt.alloc(), &octets, &[b'\n'; 100], 66) == Some(due));
}
