//! Two sessions whose frames the test carries: B puts a link aside while a delivery of A's is under way. A brings it back with that delivery, of which B
//! knows nothing, so that A may send it again (part 2, 2.6.13).

use crate::acts::{Act, GRANT, START, op, rejoined};
use amqp_frames::{Frame, Role};
use amqp_journal::entry::Entry;
use amqp_journal::logged::Logged;
use amqp_rules::config::Config;
use amqp_rules::op::Op;
use amqp_rules::reply::{Given, Sent, Suspended};
use amqp_waiting::{Brought, SuspendedItem, Verdict};
use amqp_world::side::Side;
use std::alloc::Global;

const CONFIG: Config = Config {
    first_id: 4294967295,
    window: 2048,
    journal_limit: 1000,
};

/// Two ends, with how many entries of the other's journal each has heard.
#[derive(Drop)]
struct Ends {
    a: Logged,
    b: Logged,
    by_a: usize,
    by_b: usize,
}

/// What is done with two ends.
#[derive(Clone, Copy)]
enum Do {
    Own(Side, Act),
    /// Both hear all, what they answer included.
    Exchange,
    /// A brings back the link with what it was given when it was put aside.
    Back,
}

/// The link, brought in with nothing, on which A sends and B receives; A's delivery under way; and B puts the link aside.
const ASIDE: &[Do] = &[
    Do::Own(Side::A, Act::Begin),
    Do::Own(Side::B, Act::Begin),
    Do::Exchange,
    Do::Own(Side::A, Act::Rejoin(Role::Sender)),
    Do::Own(Side::B, Act::Rejoin(Role::Receiver)),
    Do::Exchange,
    Do::Own(Side::B, GRANT),
    Do::Exchange,
    Do::Own(Side::A, Act::Start(START)),
    Do::Own(Side::B, Act::Suspend(0)),
    Do::Exchange,
];

/// B brings the link back with nothing, behind A, which then resumes its delivery.
const RESUMED: &[Do] = &[
    Do::Back,
    Do::Own(Side::B, Act::Rejoin(Role::Receiver)),
    Do::Exchange,
    Do::Own(Side::A, Act::Resume(1, 1)),
];

/// Each of these frames that has a body is heard, and none is a violation.
fn hears(mine: &mut Logged, frames: &[Sent]) -> bool {
    for sent in frames {
        if sent.frame.body.is_some() && !receives(mine, &sent.frame) {
            return false;
        }
    }
    true
}

fn receives(mine: &mut Logged, frame: &Frame) -> bool {
    match mine.receive(frame) {
        Ok(given) => {
            drop(given);
            true
        }
        Err(_) => false,
    }
}

/// The same of all frames that the other sent from this entry on.
fn hears_from(mine: &mut Logged, theirs: &Logged, place: usize) -> bool {
    for entry in theirs.journal().get(place..).unwrap_or(&[]) {
        if !hears(mine, entry.reply.sent.as_slice()) {
            return false;
        }
    }
    true
}

fn exchange(ends: &mut Ends) -> bool {
    for _ in 0..4 {
        let (by_a, by_b) = (ends.by_a, ends.by_b);
        ends.by_a = ends.b.journal().len();
        if !hears_from(&mut ends.a, &ends.b, by_a) {
            return false;
        }
        ends.by_b = ends.a.journal().len();
        if !hears_from(&mut ends.b, &ends.a, by_b) {
            return false;
        }
    }
    true
}

/// Does the operation, and lets it go.
fn does(ends: &mut Ends, side: Side, op: Op) -> bool {
    let answer = match side {
        Side::A => ends.a.apply(&op),
        Side::B => ends.b.apply(&op),
    };
    drop(op);
    match answer {
        Ok(given) => {
            drop(given);
            true
        }
        Err(_) => false,
    }
}

/// The link that was put aside, as the newest entry of the journal that gives one has it.
fn aside_in(entries: &[Entry]) -> Option<&Suspended> {
    let mut newest = None;
    for entry in entries {
        match &entry.reply.given {
            Given::Suspended(aside) => newest = Some(aside.get()),
            Given::Parted(_, aside) => newest = Some(aside.get()),
            _ => {}
        }
    }
    newest
}

/// Whether these are the one delivery of A's.
fn is_one(items: &[SuspendedItem]) -> bool {
    match items {
        [item] => item.tag.octets() == [1].as_slice() && item.state.is_none(),
        _ => false,
    }
}

/// What A was given with the link has its delivery alone, and what B was given has none, since B did not hear it.
fn are_parted(ends: &Ends) -> bool {
    match (aside_in(ends.a.journal()), aside_in(ends.b.journal())) {
        (Some(a), Some(b)) => is_one(a.items.as_slice()) && b.items.as_slice().is_empty(),
        _ => false,
    }
}

/// The link is brought back with what was given when it was put aside.
fn brought_back(alloc: Global, entries: &[Entry]) -> Option<Op> {
    let items = aside_in(entries)?.items.clone().ok()?;
    match Brought::new(alloc, items) {
        Ok(items) => rejoined(alloc, Role::Sender, items),
        Err(_) => None,
    }
}

fn step(alloc: Global, ends: &mut Ends, what: Do) -> bool {
    let (side, op) = match what {
        Do::Own(side, act) => (side, op(alloc, act)),
        Do::Exchange => return exchange(ends),
        Do::Back => (Side::A, brought_back(alloc, ends.a.journal())),
    };
    match op {
        Some(op) => does(ends, side, op),
        None => false,
    }
}

/// Whether each step is done.
fn go(alloc: Global, ends: &mut Ends, steps: &[Do]) -> bool {
    for what in steps {
        if !step(alloc, ends, *what) {
            return false;
        }
    }
    true
}

/// What was resumed last is absent, and took no id.
fn is_absent(entries: &[Entry]) -> bool {
    let Some(entry) = entries.last() else {
        return false;
    };
    match &entry.reply.given {
        Given::Resumed(resumed) => {
            resumed.get().verdict == Verdict::Absent && resumed.get().id.is_none()
        }
        _ => false,
    }
}

fn is_right(alloc: Global, ends: &mut Ends) -> bool {
    ends.a.opened(65536).is_ok()
        && ends.b.opened(65536).is_ok()
        && go(alloc, ends, ASIDE)
        && are_parted(ends)
        && go(alloc, ends, RESUMED)
        && is_absent(ends.a.journal())
}

fn run(alloc: Global) -> bool {
    if !CONFIG.is_within_limits() {
        return false;
    }
    let mut ends = Ends {
        a: Logged::new(alloc, &CONFIG),
        b: Logged::new(alloc, &CONFIG),
        by_a: 0,
        by_b: 0,
    };
    let right = is_right(alloc, &mut ends);
    drop(ends);
    right
}

/// What B never heard is absent, and no frame is a violation.
#[test]
fn what_was_never_heard_is_absent(rt: HostRuntime) {
    assert!(rt; run(rt.alloc()));
}
