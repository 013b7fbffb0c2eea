//! Two callers talk to each other.
use crate::{Caller, Event, LinkSettings, Outcome, Range, Settings, start};
use amqp_conn::ops;
use std::alloc::Global;

fn caller(alloc: Global) -> Option<Caller> {
    let settings = Settings {
        max_frame: 0,
        window: 0,
        journal_limit: 0,
        first_id: 0,
        idle_time_out: 0,
    };
    match start(alloc, b"test", b"", &settings) {
        Ok(conn) => Some(Caller::new(conn)),
        Err(_) => None,
    }
}

/// Feeds the octets, and returns the last event that reports a frame.
fn feed_all(to: &mut Caller, octets: &[u8]) -> Event {
    let mut told = Event::none();
    let mut rest = octets;
    for _ in 0..8 {
        if rest.is_empty() {
            break;
        }
        let mut used = 0;
        let mut event = Event::none();
        to.feed(rest, &mut used, &mut event);
        if event.stepped {
            told = event;
        }
        rest = rest.get(used..).unwrap_or(&[]);
    }
    told
}

/// Feeds what one end writes to the other, and returns the last event that reports a step.
fn pass(from: &mut Caller, to: &mut Caller) -> Event {
    let mut told = Event::none();
    let mut room = [0; 512];
    for _ in 0..4 {
        let count = from.write(&mut room);
        let event = feed_all(to, room.get(..count).unwrap_or(&[]));
        if event.stepped {
            told = event;
        }
    }
    told
}

/// Opens both ends, begins the session and attaches a link.
fn attaches(alloc: Global, a: &mut Caller, b: &mut Caller) -> bool {
    let mut event = Event::none();
    let settings = LinkSettings {
        snd: 2,
        rcv: 0,
        count: 0,
        max_message: 0,
    };
    pass(a, b);
    pass(b, a);
    pass(a, b);
    if a.phase() != 3 || a.apply(&ops::begin(), &mut event) != 0 {
        return false;
    }
    if pass(a, b).frame != 2 || b.apply(&ops::begin(), &mut event) != 0 {
        return false;
    }
    if pass(b, a).frame != 2 {
        return false;
    }
    if a.attach(alloc, b"l", 0, b"", b"q", &settings, &mut event) != 0 || event.kind != 1 {
        return false;
    }
    if pass(a, b).kind != 2 || b.attach(alloc, b"l", 1, b"", b"q", &settings, &mut event) != 0 {
        return false;
    }
    pass(b, a).kind == 3
}

/// Sends a message in two parts, and accepts it.
fn sends(alloc: Global, a: &mut Caller, b: &mut Caller) -> bool {
    let mut event = Event::none();
    let mut room = [0; 8];
    let accepted = Outcome {
        state: 2,
        section_number: 0,
        section_offset: 0,
        delivery_failed: false,
        undeliverable_here: false,
    };
    let range = Range {
        role: 1,
        first: 0,
        last: 0,
        settled: true,
    };
    if b.apply(&ops::grant(0, 1), &mut event) != 0 || pass(b, a).frame != 4 {
        return false;
    }
    if a.start(alloc, 0, b"tag", b"hello", false, true, &mut event) != 0 {
        return false;
    }
    if a.carry(alloc, 0, b"you", false, &mut event) != 0 || pass(a, b).kind != 6 {
        return false;
    }
    if b.apply(&ops::take(0), &mut event) != 0 || event.payload_len != 8 {
        return false;
    }
    if b.payload(0, &mut room) != 5 || &room[..5] != b"hello".as_slice() {
        return false;
    }
    if b.dispose(alloc, range, &accepted, b"", b"", &mut event) != 0 || pass(b, a).frame != 6 {
        return false;
    }
    a.apply(&ops::learn(0), &mut event) == 0 && event.state == 2
}

/// Detaches the link, ends the session and closes the connection.
fn leaves(alloc: Global, a: &mut Caller, b: &mut Caller) -> bool {
    let mut event = Event::none();
    if a.detach(alloc, 0, b"amqp:not-found", b"gone", &mut event) != 0 || pass(a, b).frame != 7 {
        return false;
    }
    if a.end(alloc, b"", b"", &mut event) != 0 || pass(a, b).frame != 8 {
        return false;
    }
    if a.close(alloc, b"amqp:not-allowed", b"") != 0 {
        return false;
    }
    pass(a, b);
    b.phase() == 5
}

#[test]
fn talks(rt: HostRuntime) {
    let alloc = rt.alloc();
    let Some(mut a) = caller(alloc) else {
        panic!(rt; "out of memory");
    };
    let Some(mut b) = caller(alloc) else {
        panic!(rt; "out of memory");
    };
    assert!(rt; attaches(alloc, &mut a, &mut b));
    assert!(rt; sends(alloc, &mut a, &mut b));
    assert!(rt; leaves(alloc, &mut a, &mut b));
}
