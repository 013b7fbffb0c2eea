//! A slot over a fake stream.
use crate::ready::fake::{Counts, Fake};
use crate::ready::peer::{BEGUN, CUT, OURS, TWICE, WHOLE, connection};
use amqp_conn::*;
use amqp_ready::{Inbox, Next, Served, Slot, SlotFault};
use std::alloc::Global;

/// What a peer says, in parts of so many octets, and how many it takes; what the handler wants next.
type Peer = (&'static [u8], usize, usize, Next);

/// How turns of a slot end: how many octets went out, which are a front of ours, and how often the handler was told. Or the fault alone.
type End = Result<(Served, usize, u32), SlotFault>;

const ENDED: &[(Peer, End)] = &[
    // short reads and writes
    ((WHOLE, 3, 999, Next::Feed), Ok((Served::Ended, 46, 1))),
    ((WHOLE, 9, 999, Next::Write), Ok((Served::Ended, 46, 1))),
    ((WHOLE, 64, 999, Next::Feed), Ok((Served::Ended, 46, 1))),
    // the peer takes no more
    ((WHOLE, 7, 20, Next::Feed), Ok((Served::Waits, 20, 1))),
    ((WHOLE, 7, 0, Next::Feed), Ok((Served::Waits, 0, 1))),
    // faults
    (
        (TWICE, 9, 999, Next::Feed),
        Err(SlotFault::Conn(ConnFault::OutOfPlace)),
    ),
    ((CUT, 9, 999, Next::Feed), Err(SlotFault::EndOfInput)),
];

/// So many turns at most.
fn serve(alloc: Global, slot: &mut Slot<Fake, Counts>, turns: u32) -> Result<Served, SlotFault> {
    let mut inbox = Inbox::new(alloc);
    let mut last = Ok(Served::Waits);
    for _ in 0..turns {
        last = slot.serve(&mut inbox);
        if last == Ok(Served::Ended) || last.is_err() {
            break;
        }
        slot.rest_room(&mut inbox);
    }
    last
}

/// The slot ends so, behind turns that came to this.
fn is_at(slot: &Slot<Fake, Counts>, last: Result<Served, SlotFault>, end: &End) -> bool {
    match (last, end) {
        (Ok(last), Ok((served, out, told))) => {
            let took = slot.stream().took.as_slice();
            last == *served
                && took.len() == *out
                && OURS.starts_with(took)
                && slot.handler().told == *told
                && slot.unfed() == 0
        }
        (Err(last), Err(fault)) => last == *fault,
        _ => false,
    }
}

/// The same of a new slot.
fn ends(alloc: Global, peer: &Peer, end: &End) -> bool {
    match connection(alloc) {
        Some(conn) => {
            let (says, part, room, next) = *peer;
            let fake = Fake::new(alloc, says, false, part, room);
            let mut slot = Slot::new(alloc, fake, conn, Counts::new(next));
            let last = serve(alloc, &mut slot, 99);
            let is_so = is_at(&slot, last, end);
            drop(slot);
            is_so
        }
        None => false,
    }
}

/// A first turn brings the header, the open and the begin, and leaves the begin to the second, which answers it by 800 octets, and writes them. Nobody wakes it.
fn ends_by_itself(alloc: Global, conn: Conn) -> bool {
    let mut fake = Fake::new(alloc, BEGUN, false, 60, 9999);
    fake.is_eager = true;
    let mut slot = Slot::new(alloc, fake, conn, Counts::new(Next::Write));
    slot.hold_at(800);
    let mut inbox = Inbox::new(alloc);
    let mut last = slot.serve(&mut inbox);
    slot.handler_mut().next = Next::Feed;
    slot.handler_mut().beats = 100;
    for _ in 0..9 {
        if last != Ok(Served::Again) {
            break;
        }
        last = slot.serve(&mut inbox);
    }
    let is_so = last == Ok(Served::Ended) && slot.unsent() == 0;
    drop(slot);
    is_so
}

#[test]
fn a_slot_that_held_goes_on(rt: HostRuntime) {
    match connection(rt.alloc()) {
        Some(conn) => {
            assert!(rt; ends_by_itself(rt.alloc(), conn));
        }
        None => {
            assert!(rt; false);
        }
    }
}

#[test]
fn a_slot_ends_so(rt: HostRuntime) {
    for (peer, end) in ENDED {
        assert!(rt; ends(rt.alloc(), peer, end));
    }
}
