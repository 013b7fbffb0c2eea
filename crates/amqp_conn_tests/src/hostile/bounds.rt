//! What a peer can make a connection keep is bounded: by our journal, by the longest frame that we take, by how deep values are nested.

use crate::hostile::frames::{
    HEADER, NARROW, OPEN, OWN_BEGIN, OWN_RECEIVER, OWN_REJOIN, OWN_SENDER,
};
use crate::hostile::peer::{
    BEGUN, NEW, Script, Told, UNHARMED, connection, goes, hears, last_tells,
};
use crate::hostile::sessions::is_plain;
use amqp_conn::{Conn, Phase};
use std::alloc::Global;

/// The front of an attach of a receiver with a name of 255 octets.
const FRONT: &[u8] =
    b"\x00\x00\x01\x18\x02\x00\x00\x00\x00S\x12\xd0\x00\x00\x01\x08\x00\x00\x00\x03\xa1\xff";

/// The attach of a receiver on this handle, of at most 127, with a name of 255 octets that begins with it.
fn long_named(handle: u8) -> [u8; 280] {
    let mut frame = [b'n'; 280];
    for (octet, front) in frame.iter_mut().zip(FRONT) {
        *octet = *front;
    }
    frame[22] = handle;
    frame[277] = 0x52;
    frame[278] = handle;
    frame[279] = 0x41;
    frame
}

/// Hears so many such attaches behind the three steps of the peer's open and of both begins.
fn floods(alloc: Global, conn: &mut Conn, count: u8) -> Told {
    let mut told = goes(alloc, conn, BEGUN, UNHARMED, NEW);
    for handle in 0..count {
        told = hears(conn, &long_named(handle), told);
    }
    told
}

/// There are so many links, and no more.
fn has_links(conn: &Conn, count: u32) -> bool {
    let mut found = 0u32;
    for link in 0..99 {
        if conn.logged().endpoint().link_of(link).is_some() {
            found = found.wrapping_add(1);
        }
    }
    found == count
}

/// There is a link for each attach of 64, and what one more makes of them, on this handle.
fn is_flooded(alloc: Global, conn: &mut Conn, handle: u8) -> Option<Told> {
    let all = floods(alloc, conn, 64);
    let taken = is_plain(all) && has_links(conn, 64) && conn.phase() == Phase::Running;
    let past = hears(conn, &long_named(handle), all);
    if taken && past.good { Some(past) } else { None }
}

/// Past the journal's limit the connection is closed, with its condition.
fn fills_journal(alloc: Global, conn: &mut Conn) -> bool {
    let Some(past) = is_flooded(alloc, conn, 64) else {
        return false;
    };
    let closes = last_tells(conn, 24, b"amqp:resource-limit-exceeded");
    past.fault == 5 && closes && has_links(conn, 64) && conn.phase() == Phase::Closed
}

/// A handle that is in use ends the session, and no link is left.
fn ends_session(alloc: Global, conn: &mut Conn) -> bool {
    let Some(past) = is_flooded(alloc, conn, 0) else {
        return false;
    };
    let ends = last_tells(conn, 23, b"amqp:session:handle-in-use");
    past.violation == 4 && ends && has_links(conn, 0) && conn.phase() == Phase::Running
}

/// Puts octets behind; where memory is refused they are missing, and the frame is no frame.
fn put(octets: &mut Vec<u8>, more: &[u8]) {
    let _ = octets.extend_from_slice(more);
}

/// An attach that tells so many tags of four octets, none of which has a state. It has 38 octets, and 7 for each tag.
fn with_tags(alloc: Global, count: u32) -> Vec<u8> {
    let tags = count.wrapping_mul(7);
    let mut frame = Vec::new(alloc);
    put(&mut frame, &tags.wrapping_add(38).to_be_bytes());
    put(&mut frame, b"\x02\x00\x00\x00\x00\x53\x12\xd0");
    put(&mut frame, &tags.wrapping_add(22).to_be_bytes());
    put(&mut frame, b"\x00\x00\x00\x08\xa1\x01qCA@@@@\xd1");
    put(&mut frame, &tags.wrapping_add(4).to_be_bytes());
    put(&mut frame, &count.wrapping_mul(2).to_be_bytes());
    for tag in 0..count {
        let [first, second, third, fourth] = tag.to_be_bytes();
        put(&mut frame, &[0xa0, 4, first, second, third, fourth, b'@']);
    }
    frame
}

/// Hears an attach with so many tags.
fn hears_tags(alloc: Global, conn: &mut Conn, count: u32) -> Told {
    let begun = goes(alloc, conn, BEGUN, UNHARMED, NEW);
    let frame = with_tags(alloc, count);
    hears(conn, frame.as_slice(), begun)
}

const REJOINED: Script = &[OWN_REJOIN];

/// As many tags are told as a frame has room for. Then we bring the link back with a tag that is not among them: it alone waits there.
fn takes_tags(alloc: Global, conn: &mut Conn) -> bool {
    let heard = hears_tags(alloc, conn, 9356);
    let taken = is_plain(heard) && has_links(conn, 1);
    let joined = is_plain(goes(alloc, conn, REJOINED, UNHARMED, heard));
    let first = conn.logged().endpoint().waiting_at(0, 0).is_some();
    let second = conn.logged().endpoint().waiting_at(0, 1).is_some();
    taken && joined && first && !second
}

/// With one tag more the frame is longer than we take.
fn refuses_tags(alloc: Global, conn: &mut Conn) -> bool {
    let told = hears_tags(alloc, conn, 9357);
    let closes = last_tells(conn, 24, b"amqp:connection:framing-error");
    told.good && told.fault == 23 && closes && has_links(conn, 0)
}

/// An attach whose source is nested so deep, at most 60: an empty list in lists of one element.
fn nested(alloc: Global, depth: u8) -> Vec<u8> {
    let len = depth.wrapping_mul(3).wrapping_sub(2);
    let mut frame = Vec::new(alloc);
    put(&mut frame, &[0, 0, 0, len.wrapping_add(21)]);
    put(&mut frame, b"\x02\x00\x00\x00\x00\x53\x12\xc0");
    put(&mut frame, &[len.wrapping_add(8), 6]);
    put(&mut frame, b"\xa1\x01qCA@@");
    for level in 1..depth {
        let inner = depth.wrapping_sub(level).wrapping_mul(3).wrapping_sub(2);
        put(&mut frame, &[0xc0, inner.wrapping_add(1), 1]);
    }
    put(&mut frame, b"\x45");
    frame
}

fn hears_nested(alloc: Global, conn: &mut Conn, depth: u8) -> Told {
    let begun = goes(alloc, conn, BEGUN, UNHARMED, NEW);
    let frame = nested(alloc, depth);
    hears(conn, frame.as_slice(), begun)
}

/// A field is at most 30 deep, since its frame's performative is at most 32; what is deeper is no performative.
fn is_nested(alloc: Global, conn: &mut Conn, depth: u8) -> bool {
    let told = hears_nested(alloc, conn, depth);
    if depth <= 30 {
        return is_plain(told) && has_links(conn, 1);
    }
    let closes = last_tells(conn, 24, b"amqp:decode-error");
    told.good && told.fault == 25 && closes && has_links(conn, 0)
}

/// The peer lets us have one handle, and we attach two links.
const ONE_HANDLE: Script = &[HEADER, OPEN, OWN_BEGIN, NARROW, OWN_SENDER, OWN_RECEIVER];

/// The second attach is refused for that.
fn is_narrow(alloc: Global, conn: &mut Conn) -> bool {
    let told = goes(alloc, conn, ONE_HANDLE, UNHARMED, NEW);
    told.good && told.fault == 0 && told.refusals == 1 && told.refusal == 9 && has_links(conn, 1)
}

/// What is asked of a connection.
#[derive(Clone, Copy)]
enum Bound {
    Journal,
    Session,
    Tags,
    LongerFrame,
    Handles,
    Depth(u8),
}

fn holds(alloc: Global, conn: &mut Conn, bound: Bound) -> bool {
    match bound {
        Bound::Journal => fills_journal(alloc, conn),
        Bound::Session => ends_session(alloc, conn),
        Bound::Tags => takes_tags(alloc, conn),
        Bound::LongerFrame => refuses_tags(alloc, conn),
        Bound::Handles => is_narrow(alloc, conn),
        Bound::Depth(depth) => is_nested(alloc, conn, depth),
    }
}

/// Whether it is so of a new connection whose journal takes so many steps.
fn is_so(alloc: Global, limit: u32, bound: Bound) -> bool {
    match connection(alloc, limit) {
        Some(mut conn) => {
            let so = holds(alloc, &mut conn, bound);
            drop(conn);
            so
        }
        None => false,
    }
}

/// How many steps the journal takes, and what is asked then.
const BOUNDS: &[(u32, Bound)] = &[
    (67, Bound::Journal),
    (99, Bound::Session),
    (99, Bound::Tags),
    (99, Bound::LongerFrame),
    (99, Bound::Handles),
];

#[test]
fn what_a_peer_makes_us_keep_is_bounded(rt: HostRuntime) {
    for (limit, bound) in BOUNDS {
        assert!(rt; is_so(rt.alloc(), *limit, *bound));
    }
}

#[test]
fn values_are_nested_thirty_deep(rt: HostRuntime) {
    for depth in 1..61 {
        assert!(rt; is_so(rt.alloc(), 99, Bound::Depth(depth)));
    }
}
