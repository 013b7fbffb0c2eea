//! What the peer said: its open, its close, and the errors of its frames, at each end that a connection, a session or a link may have.

use crate::acts::{Act, RECEIVER};
use crate::conn::{connection, hears, performs};
use crate::octets;
use amqp_conn::*;
use std::alloc::Global;

const HEADER: Do = Do::Feed(octets::HEADER);

/// The open of a container `b` at `host`: frames of at most 1000 octets, channels up to 9, a time-out of 30 seconds, and a map of properties.
const OPEN: Do = Do::Feed(
    b"\x00\x00\x00\x31\x02\x00\x00\x00\x00\x53\x10\xc0\x24\x0a\xa1\x01b\xa1\x04host\x70\x00\x00\x03\xe8\x60\x00\x09\x70\x00\x00\x75\x30\
    \x40\x40\x40\x40\xc1\x07\x02\xa3\x01p\xa1\x01q",
);

/// Another open on channel 1, and a close there.
const OPEN_ELSEWHERE: Do = Do::Feed(
    b"\x00\x00\x00\x1a\x02\x00\x00\x01\x00\x53\x10\xc0\x0d\x04\xa1\x01a\x40\x70\x00\x01\x00\x00\x60\x00\x00",
);

const CLOSE_ELSEWHERE: Do = Do::Feed(b"\x00\x00\x00\x0c\x02\x00\x00\x01\x00\x53\x18\x45");

const PEER_BEGIN: Do = Do::Feed(octets::BEGIN);

/// The attach of a sender, `q`, on handle 0, and one delivery of it, which is unsettled.
const PEER_ATTACH: Do = Do::Feed(
    b"\x00\x00\x00\x1a\x02\x00\x00\x00\x00\x53\x12\xc0\x0d\x0a\xa1\x01q\x43\x42\x40\x40\x40\x40\x40\x40\x43",
);

const TRANSFER: Do = Do::Feed(
    b"\x00\x00\x00\x16\x02\x00\x00\x00\x00\x53\x14\xc0\x08\x05\x43\x43\xa0\x01\x01\x43\x42a",
);

/// A close, an end and a detach that closes handle 0, each with the error `x`, described as `by`.
const CLOSE: Do = Do::Feed(
    b"\x00\x00\x00\x1b\x02\x00\x00\x00\x00\x53\x18\xc0\x0e\x01\x00\x53\x1d\xc0\x08\x02\xa3\x01x\xa1\x02by",
);

const PLAIN: Do = Do::Feed(octets::CLOSE);

const END: Do = Do::Feed(
    b"\x00\x00\x00\x1b\x02\x00\x00\x00\x00\x53\x17\xc0\x0e\x01\x00\x53\x1d\xc0\x08\x02\xa3\x01x\xa1\x02by",
);

const DETACH: Do = Do::Feed(
    b"\x00\x00\x00\x1d\x02\x00\x00\x00\x00\x53\x16\xc0\x10\x03\x43\x41\x00\x53\x1d\xc0\x08\x02\xa3\x01x\xa1\x02by",
);

const BEGIN: Do = Do::Own(Act::Begin);

/// Our end of `q`, as its receiver, and credit for one delivery.
const ATTACH: Do = Do::Own(Act::Attach(RECEIVER));

const GRANT: Do = Do::Own(Act::Grant {
    link: 0,
    credit: 1,
    drain: false,
    echo: false,
});

const BEAT: Do = Do::Own(Act::Beat);

/// What is done with a connection.
#[derive(Clone, Copy)]
enum Do {
    Feed(&'static [u8]),
    Own(Act),
    Close,
    Lost,
    Forget,
}

/// The peer's longest frame, highest channel and idle time-out, and whether its name, its host and its properties are those of the open above.
type Peer = (Option<u32>, Option<u16>, Option<u32>, bool);

/// What is shown of what the peer said.
#[derive(Clone, Copy, PartialEq, Eq)]
struct Shown {
    peer: Option<Peer>,
    closed: bool,
    /// The close told the error above.
    ended_by: bool,
    /// The newest frame told it.
    heard: bool,
    /// A detach of link 0 told it, whose entry is kept.
    detached: bool,
    /// So many deliveries were ended by the newest step.
    ended: usize,
    phase: Phase,
}

const RUNNING: Shown = Shown {
    peer: Some((Some(1000), Some(9), Some(30000), true)),
    closed: false,
    ended_by: false,
    heard: false,
    detached: false,
    ended: 0,
    phase: Phase::Running,
};

const LOST: Shown = Shown {
    phase: Phase::Closed,
    ..RUNNING
};

/// A close that told why.
const CLOSED: Shown = Shown {
    closed: true,
    ended_by: true,
    ..LOST
};

/// A delivery of the peer's that waits on a link of ours.
const RECEIVED: &[Do] = &[
    HEADER,
    OPEN,
    PEER_BEGIN,
    BEGIN,
    PEER_ATTACH,
    ATTACH,
    GRANT,
    TRANSFER,
];

/// What is done with a new connection, what is done then, and what it shows behind that.
const RUNS: &[(&[Do], &[Do], Shown)] = &[
    // The open is kept.
    (
        &[HEADER],
        &[],
        Shown {
            peer: None,
            phase: Phase::AwaitOpen,
            ..RUNNING
        },
    ),
    (&[HEADER, OPEN], &[], RUNNING),
    (&[HEADER, OPEN], &[Do::Forget, Do::Lost], LOST),
    // So is the close.
    (&[HEADER, OPEN], &[CLOSE, PLAIN], CLOSED),
    (&[HEADER, OPEN], &[Do::Close, CLOSE], CLOSED),
    (
        &[HEADER, OPEN],
        &[PLAIN, CLOSE],
        Shown {
            ended_by: false,
            ..CLOSED
        },
    ),
    // A frame that is a fault is not.
    (&[HEADER], &[OPEN_ELSEWHERE], Shown { peer: None, ..LOST }),
    (&[HEADER, OPEN], &[CLOSE_ELSEWHERE], LOST),
    // An end and a detach tell why; what a detach told is kept with its entry.
    (RECEIVED, &[], RUNNING),
    (
        RECEIVED,
        &[DETACH],
        Shown {
            heard: true,
            ended: 1,
            detached: true,
            ..RUNNING
        },
    ),
    (
        RECEIVED,
        &[DETACH, BEAT],
        Shown {
            detached: true,
            ..RUNNING
        },
    ),
    (RECEIVED, &[DETACH, BEAT, Do::Forget], RUNNING),
    (
        RECEIVED,
        &[END],
        Shown {
            heard: true,
            ended: 1,
            ..RUNNING
        },
    ),
];

fn is_named(text: &Text, name: &str) -> bool {
    text.as_str() == name
}

/// The error of the frames above.
fn is_told(error: Option<&AmqpError>) -> bool {
    match error {
        Some(error) => match &error.description {
            Some(text) => is_named(&error.condition, "x") && is_named(text, "by"),
            None => false,
        },
        None => false,
    }
}

fn shown_of(open: &OpenBody) -> Peer {
    let host = match &open.hostname {
        Some(text) => is_named(text, "host"),
        None => false,
    };
    let named = is_named(&open.container_id, "b") && host && open.properties.is_some();
    (
        open.max_frame_size,
        open.channel_max,
        open.idle_time_out,
        named,
    )
}

fn show(conn: &Conn) -> Shown {
    let peer = match conn.peer() {
        Some(open) => Some(shown_of(open)),
        None => None,
    };
    let heard = match conn.heard() {
        Some(frame) => is_told(error_of(frame)),
        None => false,
    };
    Shown {
        peer,
        closed: conn.parting().is_some(),
        ended_by: is_told(conn.ended_by()),
        heard,
        detached: is_told(conn.detached_by(0)),
        ended: conn.ended().len(),
        phase: conn.phase(),
    }
}

/// A refusal and a fault are shown by what is missing then, and by the phase.
fn does(alloc: Global, conn: &mut Conn, what: Do) {
    match what {
        Do::Feed(octets) => {
            let _ = hears(conn, octets);
        }
        Do::Own(act) => {
            let _ = performs(alloc, conn, act);
        }
        Do::Close => {
            let _ = conn.close(None);
        }
        Do::Lost => conn.lost(),
        Do::Forget => conn.forget(),
    }
}

fn all(alloc: Global, conn: &mut Conn, steps: &[Do]) {
    for what in steps {
        does(alloc, conn, *what);
    }
}

/// Whether a new connection shows this after these steps, the first and then the others.
fn shows(alloc: Global, first: &[Do], then: &[Do], due: &Shown) -> bool {
    let Ok(mut conn) = connection(alloc) else {
        return false;
    };
    all(alloc, &mut conn, first);
    all(alloc, &mut conn, then);
    let shown = show(&conn);
    drop(conn);
    shown == *due
}

#[test]
fn what_the_peer_said_is_shown(rt: HostRuntime) {
    for (first, then, due) in RUNS {
        assert!(rt; shows(rt.alloc(), first, then, due));
    }
}
