//! Octets that are sent in one slice or in two: they are seen as the octets, however they are cut.

use crate::conn::connection;
use crate::ends::links_up;
use amqp_conn::{Bytes, Conn, Sliced, Tag, Unit, ops};
use std::alloc::{AllocError, Global};

const OCTETS: &[u8] = b"octets";

/// The octets, in two slices.
fn cut(alloc: Global, octets: &'static [u8], at: usize) -> Result<Sliced, AllocError> {
    let (head, rest) = octets.split_at(at.min(octets.len()));
    Sliced::two(alloc, Bytes::from_static(head), Bytes::from_static(rest))
}

/// Whether both are the same, by each of them.
fn equals(octets: &Sliced, other: Sliced) -> Option<bool> {
    let answers = (*octets == other, other == *octets);
    drop(other);
    if answers.0 == answers.1 {
        Some(answers.0)
    } else {
        None
    }
}

/// Whether they are the same as those others that are cut there.
fn is_same(alloc: Global, octets: &Sliced, other: &'static [u8], at: usize) -> Option<bool> {
    match cut(alloc, other, at) {
        Ok(other) => equals(octets, other),
        Err(_) => None,
    }
}

/// Whether their handles have these octets.
fn are_handles(octets: &Sliced, front: &[u8], back: &[u8]) -> bool {
    match octets.handles() {
        (head, Some(rest)) => head.as_slice() == front && rest.as_slice() == back,
        (_, None) => false,
    }
}

/// Whether they are shown as they are.
fn is_shown(octets: &Sliced, at: usize) -> bool {
    let (front, back) = OCTETS.split_at(at.min(OCTETS.len()));
    let (head, rest) = octets.slices();
    head == front
        && rest == back
        && are_handles(octets, front, back)
        && octets.len() == OCTETS.len()
        && octets.is(OCTETS)
        && !octets.is(b"octetS")
        && !octets.is(b"octet")
}

/// Whether they are the same in one piece.
fn is_joined(alloc: Global, octets: &Sliced) -> bool {
    match octets.join(alloc) {
        Ok(joined) => joined.as_slice() == OCTETS,
        Err(_) => false,
    }
}

/// Whether they equal the same octets, cut at this place and in one slice, and no others.
fn is_equal(alloc: Global, octets: &Sliced, at: usize) -> bool {
    is_same(alloc, octets, OCTETS, at) == Some(true)
        && equals(octets, Sliced::one(Bytes::from_static(OCTETS))) == Some(true)
        && is_same(alloc, octets, b"octetS", at) == Some(false)
        && is_same(alloc, octets, b"octet", at) == Some(false)
        && is_same(alloc, octets, b"octets!", at) == Some(false)
}

fn goes(alloc: Global, at: usize) -> bool {
    let Ok(octets) = cut(alloc, OCTETS, at) else {
        return false;
    };
    let mut answer = is_shown(&octets, at) && is_joined(alloc, &octets);
    for place in 0..OCTETS.len() + 1 {
        answer = answer && is_equal(alloc, &octets, place);
    }
    drop(octets);
    answer
}

#[test]
fn octets_however_they_are_cut(rt: HostRuntime) {
    for at in 0..OCTETS.len() + 1 {
        assert!(rt; goes(rt.alloc(), at));
    }
}

/// The last unit that waits.
fn last_unit(conn: &mut Conn) -> Option<Unit> {
    let mut last = None;
    for _ in 0..99 {
        match conn.pop_unit() {
            Some(unit) => last = Some(unit),
            None => break,
        }
    }
    last
}

/// The unit of a delivery that begins with this payload, on a connection that is gone then.
fn unit_of(alloc: Global, payload: Bytes) -> Option<Unit> {
    let (Ok(mut conn), Some(tag)) = (connection(alloc), Tag::new(b"t")) else {
        drop(payload);
        return None;
    };
    links_up(alloc, &mut conn);
    let _ = conn.perform(ops::start(0, tag, payload));
    let unit = last_unit(&mut conn);
    drop(conn);
    unit
}

/// Whether the unit has the payload behind what stands before it.
fn carries(unit: &Unit, payload: &Bytes) -> bool {
    unit.bytes.slices().1 == payload.as_slice()
}

/// Whether a long payload is sent as the octets that were handed over, which nobody else has then.
fn is_not_copied(alloc: Global) -> bool {
    let Ok(payload) = Bytes::copy_from_slice(alloc, &[0x61; 5000]) else {
        return false;
    };
    let Ok(handle) = payload.clone() else {
        return false;
    };
    let Some(unit) = unit_of(alloc, handle) else {
        return false;
    };
    let carries = carries(&unit, &payload);
    let is_shared = payload.reclaim().is_none();
    drop(unit);
    carries && is_shared
}

/// What no clause tells: which octets a unit shares.
#[test]
fn a_long_payload_is_sent_from_where_it_stands(rt: HostRuntime) {
    assert!(rt; is_not_copied(rt.alloc()));
}
