//! Deliveries that wait: what becomes of each by what the peer's attach tells, and the maps of attaches as octets.
use amqp_decoder::read_performative;
use amqp_performatives::{DeliveryState, Performative, Role};
use amqp_types::{Items, Tag, Value, write_value};
use amqp_waiting::*;
use std::alloc::Global;

/// An attach of a sender that tells all: from 01 to null, from 02 to received, from 03 to accepted, and from 04 to a uint.
const MAP: &[u8] = &[
    0x00, 0x53, 0x12, 0xc0, 0x2c, 10, 0xa1, 1, 0x71, 0x43, 0x42, 0x40, 0x40, 0x40, 0x40, 0xc1, 30,
    8, 0xa0, 1, 1, 0x40, 0xa0, 1, 2, 0x00, 0x53, 0x23, 0xc0, 5, 2, 0x52, 1, 0x53, 2, 0xa0, 1, 3,
    0x00, 0x53, 0x24, 0x45, 0xa0, 1, 4, 0x52, 7, 0x42, 0x43,
];

/// The same of one that does not tell all.
const INCOMPLETE: &[u8] = &[
    0x00, 0x53, 0x12, 0xc0, 0x2c, 10, 0xa1, 1, 0x71, 0x43, 0x42, 0x40, 0x40, 0x40, 0x40, 0xc1, 30,
    8, 0xa0, 1, 1, 0x40, 0xa0, 1, 2, 0x00, 0x53, 0x23, 0xc0, 5, 2, 0x52, 1, 0x53, 2, 0xa0, 1, 3,
    0x00, 0x53, 0x24, 0x45, 0xa0, 1, 4, 0x52, 7, 0x41, 0x43,
];

/// One from 01 to received, and once more, to accepted.
const TWICE: &[u8] = &[
    0x00, 0x53, 0x12, 0xc0, 0x23, 10, 0xa1, 1, 0x71, 0x43, 0x42, 0x40, 0x40, 0x40, 0x40, 0xc1, 21,
    4, 0xa0, 1, 1, 0x00, 0x53, 0x23, 0xc0, 5, 2, 0x52, 1, 0x53, 2, 0xa0, 1, 1, 0x00, 0x53, 0x24,
    0x45, 0x42, 0x43,
];

/// One from a string 01, and from a binary of 33 octets that begins with 02, to null; from 03 to received without fields, from 04 to accepted with a
/// field, and from 05 to accepted with one that is null.
const ODD: &[u8] = &[
    0x00, 0x53, 0x12, 0xc0, 0x52, 10, 0xa1, 1, 0x71, 0x43, 0x42, 0x40, 0x40, 0x40, 0x40, 0xc1, 68,
    10, 0xa1, 1, 1, 0x40, 0xa0, 33, 2, 0, 0, 0, 0, 0, 0, 0, 0, 0, 0, 0, 0, 0, 0, 0, 0, 0, 0, 0, 0,
    0, 0, 0, 0, 0, 0, 0, 0, 0, 0, 0, 0, 0x40, 0xa0, 1, 3, 0x00, 0x53, 0x23, 0x45, 0xa0, 1, 4, 0x00,
    0x53, 0x24, 0xc0, 2, 1, 0x41, 0xa0, 1, 5, 0x00, 0x53, 0x24, 0xc0, 2, 1, 0x40, 0x42, 0x43,
];

/// An attach of a receiver that tells that 02 was accepted, and nothing else.
const ACCEPTED: &[u8] = &[
    0x00, 0x53, 0x12, 0xc0, 0x14, 8, 0xa1, 1, 0x71, 0x43, 0x41, 0x40, 0x40, 0x40, 0x40, 0xc1, 8, 2,
    0xa0, 1, 2, 0x00, 0x53, 0x24, 0x45,
];

/// An attach of a sender that tells nothing.
const NOTHING: &[u8] = &[
    0x00, 0x53, 0x12, 0xc0, 0x0f, 10, 0xa1, 1, 0x71, 0x43, 0x42, 0x50, 2, 0x50, 0, 0x40, 0x40,
    0x40, 0x40, 0x43,
];

/// Our role, the tags of ours that wait, what the peer's attach tells, and what waits then, as each tag with its verdict.
const MET: &[(Role, &[u8], &[u8], &[(u8, Verdict)])] = &[
    // a sender learns what the peer has
    (
        Role::Sender,
        &[5, 1, 2, 3, 4],
        MAP,
        &[
            (5, Verdict::Absent),
            (1, Verdict::Held),
            (2, Verdict::Partial),
            (3, Verdict::Outcome),
            (4, Verdict::Held),
        ],
    ),
    (
        Role::Sender,
        &[5, 3],
        INCOMPLETE,
        &[(5, Verdict::Unclear), (3, Verdict::Outcome)],
    ),
    // the first of equal keys counts
    (Role::Sender, &[1], TWICE, &[(1, Verdict::Partial)]),
    // what is no tag, and what is no state
    (
        Role::Sender,
        &[1, 2, 3, 4, 5],
        ODD,
        &[
            (1, Verdict::Absent),
            (2, Verdict::Absent),
            (3, Verdict::Held),
            (4, Verdict::Held),
            (5, Verdict::Outcome),
        ],
    ),
    (
        Role::Sender,
        &[1, 2],
        ACCEPTED,
        &[(1, Verdict::Absent), (2, Verdict::Outcome)],
    ),
    (Role::Receiver, &[1], NOTHING, &[]),
];

/// The same of receivers whose peer told something.
const KEPT: &[(&[u8], &[u8], &[(u8, Verdict)])] = &[
    (&[5, 3, 2], MAP, &[(3, Verdict::Held), (2, Verdict::Held)]),
    (
        &[5, 3],
        INCOMPLETE,
        &[(5, Verdict::Held), (3, Verdict::Held)],
    ),
];

/// Whether there is one item more, with a tag of one octet.
fn is_added(items: &mut Vec<SuspendedItem>, octet: u8, state: Option<DeliveryState>) -> bool {
    match Tag::new(&[octet]) {
        Some(tag) => items.push(SuspendedItem { tag, state }).is_ok(),
        None => {
            drop(state);
            false
        }
    }
}

/// Items with tags of one octet, without a state; fewer where one is refused.
fn items(alloc: Global, tags: &[u8]) -> Vec<SuspendedItem> {
    let mut items = Vec::new(alloc);
    for octet in tags {
        if !is_added(&mut items, *octet, None) {
            break;
        }
    }
    items
}

/// So many items, each with a tag of its own, as they wait.
fn waiting(alloc: Global, items: &[SuspendedItem], count: usize) -> Option<Waiting> {
    if has_twice(items) || items.len() != count {
        return None;
    }
    Waiting::new(alloc, items).ok()
}

/// Whether this waits, as each tag with its verdict.
fn are_left(waiting: &Waiting, expected: &[(u8, Verdict)]) -> bool {
    let mut found = 0usize;
    for place in 0..waiting.len() {
        if let Some((tag, verdict)) = waiting.at(place) {
            match (tag.octets().first(), expected.get(found)) {
                (Some(first), Some((octet, due))) if first == octet && verdict == *due => {
                    found = found.wrapping_add(1);
                }
                _ => return false,
            }
        }
    }
    found == expected.len()
}

/// What waits once the peer has told that.
fn met(alloc: Global, tags: &[u8], role: Role, unsettled: &Unsettled) -> Option<Waiting> {
    let items = items(alloc, tags);
    let mut waiting = waiting(alloc, items.as_slice(), tags.len())?;
    match waiting.meet(role, unsettled) {
        Ok(()) => Some(waiting),
        Err(_) => None,
    }
}

/// What an attach tells that these octets are.
fn told_by(alloc: Global, octets: &[u8]) -> Option<Unsettled> {
    match read_performative(alloc, octets) {
        Ok((performative, _)) => {
            let told = match &performative {
                Performative::Attach(body) => unsettled_of(alloc, body.get()).ok(),
                _ => None,
            };
            drop(performative);
            told
        }
        Err(_) => None,
    }
}

/// Whether this waits once the peer has told what its attach says.
fn are_met(
    alloc: Global,
    role: Role,
    tags: &[u8],
    attach: &[u8],
    expected: &[(u8, Verdict)],
) -> bool {
    let Some(unsettled) = told_by(alloc, attach) else {
        return false;
    };
    let met = met(alloc, tags, role, &unsettled);
    drop(unsettled);
    match met {
        Some(waiting) => are_left(&waiting, expected),
        None => false,
    }
}

#[test]
fn what_becomes_of_each_that_waits(rt: HostRuntime) {
    for (role, tags, attach, expected) in MET {
        assert!(rt; are_met(rt.alloc(), *role, tags, attach, expected));
    }
}

#[test]
fn a_receiver_keeps_what_the_peer_told(rt: HostRuntime) {
    for (tags, attach, expected) in KEPT {
        assert!(rt; are_met(rt.alloc(), Role::Receiver, tags, attach, expected));
    }
}

/// Whether the map is written.
fn is_written(pairs: Items<(Value, Value)>, octets: &mut Vec<u8>) -> bool {
    let map = Value::Map(pairs);
    let answer = write_value(&map, octets).is_ok();
    drop(map);
    answer
}

/// Whether the map that an attach of these items has is written so.
fn is_map(alloc: Global, items: &[SuspendedItem], octets: &[u8]) -> bool {
    let mut written = Vec::new(alloc);
    let is_there = match map_of(alloc, items) {
        Ok(Some(pairs)) => is_written(pairs, &mut written),
        Ok(None) => true,
        Err(_) => false,
    };
    is_there && written.as_slice() == octets
}

/// Whether the map of one item is written so, whose delivery the peer may not have here.
fn is_map_of_modified(alloc: Global, octets: &[u8]) -> bool {
    let state = Some(DeliveryState::Modified {
        delivery_failed: None,
        undeliverable_here: Some(true),
        message_annotations: None,
    });
    let mut items = Vec::new(alloc);
    is_added(&mut items, 7, state) && is_map(alloc, items.as_slice(), octets)
}

/// Whether the map of two items without a state is written so.
fn is_map_of_two(alloc: Global, octets: &[u8]) -> bool {
    is_map(alloc, items(alloc, &[1, 2]).as_slice(), octets)
}

#[test]
fn the_map_that_is_sent(rt: HostRuntime) {
    let alloc = rt.alloc();
    assert!(rt; is_map_of_two(alloc, b"\xc1\x09\x04\xa0\x01\x01\x40\xa0\x01\x02\x40"));
    assert!(rt; is_map(alloc, &[], b""));
    let modified = b"\xc1\x0c\x02\xa0\x01\x07\x00\x53\x27\xc0\x03\x02\x40\x41";
    assert!(rt; is_map_of_modified(alloc, modified));
}

/// Whether the peer told of this tag what the map has for it.
fn is_received(waiting: &Waiting, tag: &Tag) -> bool {
    match waiting.find(tag) {
        Some(standing) => matches!(
            &standing.theirs,
            Some(DeliveryState::Received {
                section_number: 1,
                section_offset: 2,
            })
        ),
        None => false,
    }
}

/// Whether of two that wait, of which the peer told 02, that one has the peer's state, and goes.
fn goes_with_state(waiting: &mut Waiting) -> bool {
    let Some(second) = Tag::new(&[2]) else {
        return false;
    };
    if !is_received(waiting, &second) {
        return false;
    }
    waiting.remove(&second);
    !waiting.has(&second) && waiting.len() == 1
}

/// The same of what an attach tells.
fn is_kept(alloc: Global, attach: &[u8]) -> bool {
    let Some(unsettled) = told_by(alloc, attach) else {
        return false;
    };
    let met = met(alloc, &[2, 9], Role::Sender, &unsettled);
    drop(unsettled);
    match met {
        Some(mut waiting) => {
            let is_kept = goes_with_state(&mut waiting);
            drop(waiting);
            is_kept
        }
        None => false,
    }
}

#[test]
fn the_peers_state_is_kept(rt: HostRuntime) {
    assert!(rt; is_kept(rt.alloc(), MAP));
}
