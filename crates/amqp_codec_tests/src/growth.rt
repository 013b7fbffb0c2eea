//! Each growth refused in turn. A call that is refused memory has left all as it was, and the same call then gives its own answer: each call here is
//! made again where it was refused, and each test passes whichever growth is refused. `rt try --test --fail-alloc N -- every_growth_refused`
//! refuses the Nth of each test; where none is refused, they are tests like any other. Most are rows of the other modules, which make each call once.

use crate::deliveries::{begins, comes, joins};
use crate::frames::{EACH, is_each_way, is_shared, is_twice};
use crate::messages::{are_messages, are_termini};
use crate::types::rewrites;
use amqp_deliveries::{Disposition, Held, Partial};
use amqp_frames::*;
use amqp_types::{Boxed, Text};
use std::alloc::{AllocError, Global};

/// A list of octets, texts, a map, an array and a described list; octets, a text, and a described text.
const VALUES: &[&[u8]] = &[
    b"\xc0\x1f\x06\xa0\x01x\xa1\x02\xc3\xa9\xa3\x01y\xc1\x05\x02\xa1\x01k\x43\
        \xe0\x07\x02\xa3\x01x\x02yz\x00\x53\x24\x45",
    b"\xa0\x01x",
    b"\xa3\x01y",
    b"\x00\x53\x24\xa1\x01k",
];

/// Whether a copy of the value that these octets spell is written so, and once more behind.
fn is_rewritten_twice(alloc: Global, octets: &[u8]) -> bool {
    let mut out = Vec::new(alloc);
    rewrites(alloc, octets, &mut out, true).is_some()
        && rewrites(alloc, octets, &mut out, true).is_some()
        && is_twice(out.as_slice(), octets)
}

#[test]
fn every_growth_refused_of_values(rt: HostRuntime) {
    for octets in VALUES {
        assert!(rt; is_rewritten_twice(rt.alloc(), octets));
    }
}

/// Whether the framer takes these octets, which end no frame; it keeps as many as before where it was refused.
fn is_head_fed(framer: &mut Framer, head: &[u8]) -> bool {
    for _ in 0..2u8 {
        let before = framer.pending();
        match framer.feed(head) {
            Ok((_, whole)) => {
                let is_head = whole.is_none();
                drop(whole);
                return is_head;
            }
            Err(fault) => if fault != FrameFault::NoMemory || framer.pending() != before {
                return false;
            },
        }
    }
    false
}

/// Whether these octets end a frame, for which the octets are written and appended, and for a copy of it.
fn is_rest_fed(alloc: Global, framer: &mut Framer, rest: &[u8], octets: &[u8]) -> bool {
    for _ in 0..2u8 {
        let before = framer.pending();
        match framer.feed(rest) {
            Ok((_, Some(frame))) => {
                let is_same = is_each_way(alloc, &frame, octets, true);
                drop(frame);
                return is_same;
            }
            Ok((_, None)) => return false,
            Err(fault) => if fault != FrameFault::NoMemory || framer.pending() != before {
                return false;
            },
        }
    }
    false
}

/// A frame that is cut in its header is read, copied and written: whether these octets come of it each way.
fn is_frame(alloc: Global, octets: &[u8]) -> bool {
    let mut framer = Framer::new(alloc, 65536);
    let (head, rest) = octets.split_at(octets.len().min(7));
    let is_same = is_head_fed(&mut framer, head) && is_rest_fed(alloc, &mut framer, rest, octets);
    drop(framer);
    is_same
}

#[test]
fn every_growth_refused_of_frames(rt: HostRuntime) {
    for octets in EACH {
        assert!(rt; is_frame(rt.alloc(), octets));
    }
}

#[test]
fn every_growth_refused_of_shared_frames(rt: HostRuntime) {
    for octets in EACH {
        assert!(rt; is_shared(rt.alloc(), octets, true));
    }
}

/// A transfer, two ends and two empty frames, and the beginning of one more.
const PIECE: &[u8] =
    b"\x00\x00\x00\x16\x02\x00\x00\x00\x00\x53\x14\xc0\x08\x04\x43\x52\x01\xa0\x01\x02\x43\x78\x00\x00\x00\x08\x02\x00\x00\x00\x00\x00\x00\x32\x02\x00\
    \x00\x00\x00\x53\x17\xc0\x25\x01\x00\x53\x1d\xc0\x1f\x03\xa3\x0e\x61\x6d\x71\x70\x3a\x6e\x6f\x74\x2d\x66\x6f\x75\x6e\x64\xa1\x04\x67\x6f\x6e\x65\
    \xc1\x06\x02\xa3\x01\x61\x52\x01\x00\x00\x00\x0c\x02\x00\x00\x00\x00\x53\x17\x45\x00\x00\x00\x08\x02\x00\x00\x00\x00\x00\x00\x0c\x02\x00";

/// How many frames the piece gives. Where it was refused, those before stand, and the rest is fed again.
fn all_frames(alloc: Global, piece: &[u8]) -> Result<usize, FrameFault> {
    let mut framer = Framer::new(alloc, 65536);
    let mut frames = Vec::new(alloc);
    let mut answer = Ok(());
    if let Err(stopped) = framer.feed_all(piece, &mut frames) {
        answer = match (stopped.fault, piece.get(stopped.used..)) {
            (FrameFault::NoMemory, Some(rest)) => framer.feed_all(rest, &mut frames),
            _ => Err(stopped),
        };
    }
    let count = frames.len();
    drop(frames);
    match answer {
        Ok(()) => Ok(count),
        Err(stopped) => Err(stopped.fault),
    }
}

#[test]
fn every_growth_refused_of_a_framer(rt: HostRuntime) {
    assert!(rt; all_frames(rt.alloc(), PIECE) == Ok(5));
}

/// What rejects these, with an error that owns memory, and settles nothing.
fn said_once(alloc: Global, first: u32, last: u32) -> Option<Disposition> {
    let Ok(condition) = Text::new(alloc, "amqp:not-found") else {
        return None;
    };
    let mut error = AmqpError {
        condition,
        description: None,
        info: None,
    };
    error.description = Text::new(alloc, "gone").ok();
    let has_description = error.description.is_some();
    match Boxed::new(alloc, error) {
        Ok(error) if has_description => Some(Disposition {
            first,
            last,
            settled: false,
            state: Some(DeliveryState::Rejected(Some(error))),
        }),
        _ => None,
    }
}

fn said(alloc: Global, first: u32, last: u32) -> Option<Disposition> {
    match said_once(alloc, first, last) {
        None => said_once(alloc, first, last),
        said => said,
    }
}

/// How many were begun, and how many of these have a state of ours and of the peer's.
fn stated(held: &Held) -> [u32; 3] {
    let mut counts = [0u32; 3];
    for place in 0..held.len() {
        if let Some(item) = held.at(place) {
            counts[0] = counts[0].wrapping_add(1);
            counts[1] = counts[1].wrapping_add(u32::from(item.local.is_some()));
            counts[2] = counts[2].wrapping_add(u32::from(item.remote.is_some()));
        }
    }
    counts
}

/// Whether we say this, or the peer; where it is refused, no state has changed.
fn states(held: &mut Held, said: &Disposition, ours: bool) -> bool {
    let before = stated(held);
    let answer = if ours {
        held.say(said)
    } else {
        held.hear(said)
    };
    if answer.is_ok() {
        return true;
    }
    if stated(held) != before {
        return false;
    }
    let again = if ours {
        held.say(said)
    } else {
        held.hear(said)
    };
    again.is_ok()
}

/// How long the lists are that are told of a table.
fn told(held: &Held, said: &Disposition) -> Result<[usize; 5], AllocError> {
    Ok([
        held.ids()?.len(),
        held.ids_in(4294967295, 0)?.len(),
        held.ids_of(1)?.len(),
        held.tags_of(0)?.len(),
        held.tellings(said)?.len(),
    ])
}

/// Whether six begin: ids 4294967294 to 3, on links 0 and 1 in turn.
fn six_begin(held: &mut Held) -> bool {
    for number in 0..6u32 {
        let id = 4294967294u32.wrapping_add(number);
        if !begins(held, id, number % 2, &id.to_be_bytes(), true) {
            return false;
        }
    }
    true
}

/// Whether what is said of three is told of them, and then heard of them.
fn are_told(held: &mut Held, said: &Disposition) -> bool {
    if !states(held, said, true) {
        return false;
    }
    let lists = match told(held, said) {
        Ok(lists) => Ok(lists),
        Err(_) => told(held, said),
    };
    lists == Ok([6, 2, 3, 3, 3]) && states(held, said, false) && stated(held) == [6, 3, 3]
}

/// Whether what is said of three of six is told of them.
fn are_six_told(alloc: Global) -> bool {
    let Some(said) = said(alloc, 4294967295, 1) else {
        return false;
    };
    let mut held = Held::new(alloc);
    let is_so = six_begin(&mut held) && are_told(&mut held, &said);
    drop(held);
    drop(said);
    is_so
}

#[test]
fn every_growth_refused_of_held_deliveries(rt: HostRuntime) {
    assert!(rt; are_six_told(rt.alloc()));
}

/// Whether the six end: two by their ids, two by their link, and the others at last.
fn all_end(held: &mut Held) -> bool {
    held.end_range(4294967295, 0);
    if stated(held) != [4, 0, 0] || held.find(4294967294).is_none() {
        return false;
    }
    held.end_link(0);
    if held.len() != 2 {
        return false;
    }
    held.go_on(1, None, true);
    held.end_all();
    held.is_empty()
}

fn do_six_end(alloc: Global) -> bool {
    let mut held = Held::new(alloc);
    let is_so = six_begin(&mut held) && all_end(&mut held);
    drop(held);
    is_so
}

/// The calls of a table that take no memory.
#[test]
fn every_growth_refused_of_a_table_that_is_read(rt: HostRuntime) {
    assert!(rt; do_six_end(rt.alloc()));
}

fn do_six_come(partial: &mut Partial, payload: &'static [u8]) -> bool {
    for _ in 0..6u8 {
        if !comes(partial, payload, true) {
            return false;
        }
    }
    true
}

/// Whether six of these payloads join to these octets.
fn are_six_joined(alloc: Global, payload: &'static [u8], octets: &[u8]) -> bool {
    let mut partial = Partial::start(alloc);
    let is_so = do_six_come(&mut partial, payload)
        && joins(&mut partial, octets.len() as u64, octets, true);
    drop(partial);
    is_so
}

#[test]
fn every_growth_refused_of_payloads(rt: HostRuntime) {
    assert!(rt; are_six_joined(rt.alloc(), b"xy", b"xyxyxyxyxyxy"));
}

#[test]
fn every_growth_refused_of_messages(rt: HostRuntime) {
    assert!(rt; are_messages(rt.alloc(), true));
}

#[test]
fn every_growth_refused_of_what_is_built(rt: HostRuntime) {
    assert!(rt; are_termini(rt.alloc(), true));
}
