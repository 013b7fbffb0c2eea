//! What no clause says: octets of known connections, and that calls succeed where memory is there. A connection is let go in the helper that makes it: a
//! test holds answers alone.

use crate::acts::{Act, op};
use crate::octets::{BEGIN, CLOSE, HEADER, OPEN};
use amqp_conn::*;
use amqp_types::Text;
use bytes::Bytes;
use std::alloc::Global;

/// The open behind an octet that was used.
const BEHIND: &[u8] =
    b"\x00\x00\x00\x00\x1a\x02\x00\x00\x00\x00\x53\x10\xc0\x0d\x04\xa1\x01a\x40\x70\x00\x01\x00\x00\x60\x00\x00";

/// An empty frame.
const BEAT: &[u8] = b"\x00\x00\x00\x08\x02\x00\x00\x00";

/// The header of the security layer.
const OTHER: &[u8] = b"AMQP\x03\x01\x00\x00";

/// Header and open of a peer.
const OPENED: &[u8] =
    b"AMQP\x00\x01\x00\x00\x00\x00\x00\x1a\x02\x00\x00\x00\x00\x53\x10\xc0\x0d\x04\xa1\x01a\x40\x70\x00\x01\x00\x00\x60\x00\x00";

/// What is done with a connection.
#[derive(Clone, Copy)]
enum Do {
    Feed(&'static [u8]),
    /// Octets that are shared, behind the first.
    FeedShared(&'static [u8]),
    Beat,
    Close,
    Lost,
}

/// What that answers.
#[derive(Clone, Copy, PartialEq, Eq)]
enum Said {
    /// So many octets were used, and whether that was a step.
    Used(usize, bool),
    Fault(ConnFault),
    Done,
    Refused(u32),
}

/// What is done, what that answers, and the first unit that waits then; no octets where none does.
type Step = (Do, Said, &'static [u8]);

/// Steps of a new connection of the container `a`, and where it stands behind them.
const RUNS: &[(&[Step], Phase)] = &[
    (
        &[
            (Do::Beat, Said::Refused(1), HEADER),
            (Do::Feed(HEADER), Said::Used(8, false), OPEN),
            (Do::Close, Said::Refused(1), b""),
            (Do::FeedShared(BEHIND), Said::Used(26, true), b""),
        ],
        Phase::Running,
    ),
    (
        &[
            (Do::Feed(HEADER), Said::Used(8, false), HEADER),
            (Do::Feed(OPEN), Said::Used(26, true), OPEN),
            (Do::Beat, Said::Done, BEAT),
            (Do::Close, Said::Done, CLOSE),
            (Do::Close, Said::Refused(1), b""),
            (Do::Feed(CLOSE), Said::Used(12, false), b""),
            (Do::Feed(b"\x00"), Said::Fault(ConnFault::Closed), b""),
        ],
        Phase::Closed,
    ),
    (
        &[
            (Do::Feed(OTHER), Said::Fault(ConnFault::BadHeader), HEADER),
            (Do::Feed(b"\x00"), Said::Fault(ConnFault::Closed), b""),
        ],
        Phase::Closed,
    ),
    (
        &[
            (Do::Feed(HEADER), Said::Used(8, false), HEADER),
            (Do::Feed(BEGIN), Said::Fault(ConnFault::OutOfPlace), OPEN),
        ],
        Phase::Closed,
    ),
    (
        &[
            (Do::Feed(HEADER), Said::Used(8, false), HEADER),
            (Do::Feed(OPEN), Said::Used(26, true), OPEN),
            (Do::Lost, Said::Done, b""),
            (Do::Feed(b"\x00"), Said::Fault(ConnFault::Closed), b""),
            (Do::Beat, Said::Refused(1), b""),
        ],
        Phase::Closed,
    ),
];

/// A connection of the container `a`.
pub(crate) fn connection(alloc: Global) -> Result<Conn, StartFault> {
    start(alloc, "a", 2048)
}

fn start(alloc: Global, name: &str, window: u32) -> Result<Conn, StartFault> {
    let Ok(container_id) = Text::new(alloc, name) else {
        return Err(StartFault::NoMemory);
    };
    let config = Config {
        container_id,
        hostname: None,
        max_frame: 65536,
        idle_time_out: None,
        first_id: 0,
        window,
        journal_limit: 1000,
    };
    Conn::new(alloc, config)
}

/// Whether the next unit has these octets; where there are none, whether no unit waits.
fn puts_out(conn: &mut Conn, octets: &[u8]) -> bool {
    match conn.pop_unit() {
        Some(unit) => unit.bytes.is(octets),
        None => octets.is_empty(),
    }
}

fn fed(conn: &mut Conn, octets: &[u8]) -> Said {
    match conn.feed(&Octets::lent(octets)) {
        Ok(fed) => Said::Used(fed.used, fed.stepped),
        Err(fault) => Said::Fault(fault),
    }
}

fn fed_shared(alloc: Global, conn: &mut Conn, octets: &[u8]) -> Said {
    let Ok(shared) = Bytes::copy_from_slice(alloc, octets) else {
        return Said::Fault(ConnFault::NoMemory);
    };
    if shared.len() == 0 {
        return Said::Done;
    }
    match conn.feed(&Octets::shared(&shared, 1)) {
        Ok(fed) => Said::Used(fed.used, fed.stepped),
        Err(fault) => Said::Fault(fault),
    }
}

fn beat(conn: &mut Conn) -> Said {
    match conn.perform(Op::Beat) {
        Ok(()) => Said::Done,
        Err(refusal) => Said::Refused(u32::from(refusal.number())),
    }
}

fn close(conn: &mut Conn) -> Said {
    match conn.close(None) {
        Ok(()) => Said::Done,
        Err(refusal) => Said::Refused(refusal.number()),
    }
}

fn answer(alloc: Global, conn: &mut Conn, what: Do) -> Said {
    match what {
        Do::Feed(octets) => fed(conn, octets),
        Do::FeedShared(octets) => fed_shared(alloc, conn, octets),
        Do::Beat => beat(conn),
        Do::Close => close(conn),
        Do::Lost => {
            conn.lost();
            Said::Done
        }
    }
}

/// Whether each step is answered so, with this unit first of those that wait.
fn all_so(alloc: Global, conn: &mut Conn, steps: &[Step]) -> bool {
    for (what, due, unit) in steps {
        if answer(alloc, conn, *what) != *due || !puts_out(conn, unit) {
            return false;
        }
    }
    true
}

/// The same of a new connection, which stands there behind them.
fn goes_so(alloc: Global, steps: &[Step], end: Phase) -> bool {
    let Ok(mut conn) = connection(alloc) else {
        return false;
    };
    let so = all_so(alloc, &mut conn, steps) && conn.phase() == end;
    drop(conn);
    so
}

#[test]
fn steps_are_answered(rt: HostRuntime) {
    for (steps, end) in RUNS {
        assert!(rt; goes_so(rt.alloc(), steps, *end));
    }
}

/// The longest name that a container may have in a frame of 512 octets is shorter.
const LONG: [u8; 600] = [b'a'; 600];

/// Why there is no connection; `None` where there is one.
fn start_fault(alloc: Global, name: &[u8], window: u32) -> Option<StartFault> {
    let Ok(name) = std::str::from_utf8(name) else {
        return None;
    };
    start(alloc, name, window).err()
}

#[test]
fn settings_out_of_range(rt: HostRuntime) {
    let alloc = rt.alloc();
    let none = start_fault(alloc, b"a", 0);
    let long = start_fault(alloc, &LONG, 1);
    let fine = start_fault(alloc, b"a", 1);
    assert!(rt;
        (none, long, fine)
            == (
                Some(StartFault::BadConfig),
                Some(StartFault::BadConfig),
                None
            )
    );
}

/// Feeds all of the octets, and answers whether no fault was told.
pub(crate) fn hears(conn: &mut Conn, octets: &[u8]) -> bool {
    let mut rest = octets;
    // No frame is read three times.
    for _ in 0..100 {
        if rest.is_empty() {
            return true;
        }
        match conn.feed(&Octets::lent(rest)) {
            Ok(fed) if fed.used <= rest.len() => rest = &rest[fed.used..],
            _ => return false,
        }
    }
    false
}

/// Does the operation, and answers whether that was done.
pub(crate) fn performs(alloc: Global, conn: &mut Conn, act: Act) -> bool {
    match op(alloc, act) {
        Some(op) => conn.perform(op).is_ok(),
        None => false,
    }
}

/// Where a connection stands that has heard the octets in two pieces, and whether no fault was told.
fn stands(alloc: Global, octets: &[u8], cut: usize) -> Option<(Phase, bool)> {
    let Ok(mut conn) = connection(alloc) else {
        return None;
    };
    let (one, other) = octets.split_at(octets.len().min(cut));
    let first = hears(&mut conn, one);
    let good = hears(&mut conn, other) && first;
    let phase = conn.phase();
    drop(conn);
    Some((phase, good))
}

#[test]
fn header_and_open_in_two_pieces(rt: HostRuntime) {
    for cut in 0..35 {
        assert!(rt; stands(rt.alloc(), OPENED, cut) == Some((Phase::Running, true)));
    }
}

/// Header, open, begin, attach, flow and transfer of a peer.
const SESSION: [u8; 126] =
    *b"AMQP\x00\x01\x00\x00\x00\x00\x00\x1a\x02\x00\x00\x00\x00\x53\x10\xc0\x0d\x04\xa1\x01a\x40\x70\x00\x01\x00\x00\x60\x00\x00\x00\x00\x00\x17\x02\x00\x00\x00\x00\x53\x11\xc0\x0a\x04\x40\x43\x52\x05\x70\x7f\xff\xff\xff\x00\x00\x00\x13\x02\x00\x00\x00\x00\x53\x12\xc0\x06\x03\xa1\x01q\x43\x41\x00\x00\x00\x1e\x02\x00\x00\x00\x00\x53\x13\xc0\x11\x07\x43\x70\x00\x00\x08\x00\x43\x70\x7f\xff\xff\xff\x43\x43\x52\x05\x00\x00\x00\x14\x02\x00\x00\x00\x00\x53\x14\xc0\x07\x06\x43\x40\x40\x40\x40\x41";

/// All is taken, or a fault closes the connection.
fn is_taken_or_closes(alloc: Global, octets: &[u8], cut: usize) -> bool {
    match stands(alloc, octets, cut) {
        Some((phase, good)) => (phase == Phase::Closed) != good,
        None => false,
    }
}

/// What is cut short is awaited.
fn is_awaited(alloc: Global, octets: &[u8]) -> bool {
    match stands(alloc, octets, octets.len() / 2) {
        Some((_, good)) => good,
        None => false,
    }
}

/// The session with one octet in turn replaced, and cut short there.
#[test]
fn wrong_octets(rt: HostRuntime) {
    let mut session = SESSION;
    for place in 0..126 {
        let right = session[place];
        session[place] = 0xff;
        let so = is_taken_or_closes(rt.alloc(), &session, place);
        session[place] = right;
        assert!(rt; so && is_awaited(rt.alloc(), &session[..place]));
    }
}
