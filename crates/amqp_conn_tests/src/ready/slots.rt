//! Slots by key over fake streams.
use crate::ready::fake::{Counts, Fake};
use crate::ready::peer::{CONTENT, OURS, PATIENT, TWICE, WHOLE, connection};
use amqp_conn::{ConnFault, Op};
use amqp_ready::{Limits, Next, SlotFault, Slots, Stage};
use std::alloc::Global;

type Fakes = Slots<Fake, Counts>;

const LIMITS: Limits = Limits {
    open: 1000,
    silence: 9000,
    close: 1000,
};

/// What is done with slots, and what they show.
#[derive(Clone, Copy)]
enum Do {
    /// A slot more, over a peer that says this and takes so many octets, has this key.
    Add(&'static [u8], usize, usize),
    /// Slots that are added from here on hold at so many octets.
    HoldAt(u64),
    /// So many empty frames of eight octets answer what the handler under the key is told next.
    Answer(usize, u32),
    /// So many rounds, in which each of the first so many keys is told ready.
    Serve(usize, u32),
    /// Those that are to be served are, in so many turns.
    ServeDue(usize),
    NoneIsDue,
    /// The clock shows so many milliseconds, and is to be looked at again then.
    Tick(u64, Option<u64>),
    /// So many empty frames of eight octets are put out by the program under the key.
    Beat(usize, u32),
    /// The slot under the key is so far.
    Stage(usize, Stage),
    /// So many octets went out under the key.
    Out(usize, usize),
    /// One that ended with its connection is taken out.
    Takes,
    /// So many ended with their connection, and so many by this fault: all are taken out.
    Ends(u32, u32, SlotFault),
    /// None is left.
    None,
}

/// A slot more over a peer that says this, the octets that open it in two parts, and takes so many octets: its key.
fn add(alloc: Global, slots: &mut Fakes, says: &'static [u8], room: usize) -> Option<usize> {
    let stays = says.len() < WHOLE.len();
    match connection(alloc) {
        Some(conn) => {
            let fake = Fake::new(alloc, says, stays, 17, room);
            slots.add(fake, conn, Counts::new(Next::Feed)).ok()
        }
        None => None,
    }
}

fn serve(slots: &mut Fakes, keys: usize, rounds: u32) -> bool {
    for _ in 0..rounds {
        for key in 0..keys {
            slots.wake(key);
        }
        slots.serve_due();
    }
    true
}

/// How a slot has ended.
#[derive(Clone, Copy, PartialEq, Eq)]
enum End {
    /// With its connection, and all of ours went out.
    Well,
    By(SlotFault),
    /// With its connection, and something of ours is missing.
    Short,
}

/// Takes out one that has ended.
fn take(slots: &mut Fakes) -> Option<End> {
    match slots.take_ended() {
        Some(ended) => {
            let end = match ended.fault {
                Some(fault) => End::By(fault),
                None if ended.stream.took.as_slice() == OURS => End::Well,
                None => End::Short,
            };
            drop(ended);
            Some(end)
        }
        None => None,
    }
}

/// How many ended with their connection, and how many by this fault.
fn count_ends(slots: &mut Fakes, fault: SlotFault) -> (u32, u32) {
    let mut counts = (0u32, 0u32);
    for _ in 0..9 {
        match take(slots) {
            Some(End::Well) => counts.0 = counts.0.wrapping_add(1),
            Some(end) if end == End::By(fault) => counts.1 = counts.1.wrapping_add(1),
            Some(_) => {}
            None => break,
        }
    }
    counts
}

/// How many octets went out under the key.
fn out(slots: &Fakes, key: usize) -> usize {
    match slots.get(key) {
        Some(slot) => slot.stream().took.len(),
        None => 0,
    }
}

fn beat(slots: &mut Fakes, key: usize, count: u32) -> bool {
    for _ in 0..count {
        if slots.perform(key, Op::Beat) != Some(Ok(())) {
            return false;
        }
    }
    true
}

fn hold_at(slots: &mut Fakes, octets: u64) -> bool {
    slots.hold_at(octets);
    true
}

fn answer(slots: &mut Fakes, key: usize, beats: u32) -> bool {
    match slots.handler_mut(key) {
        Some(counts) => {
            counts.beats = beats;
            true
        }
        None => false,
    }
}

/// It is done, or shown.
fn holds(alloc: Global, slots: &mut Fakes, what: Do) -> bool {
    match what {
        Do::Add(says, room, key) => add(alloc, slots, says, room) == Some(key),
        Do::HoldAt(octets) => hold_at(slots, octets),
        Do::Answer(key, beats) => answer(slots, key, beats),
        Do::Serve(keys, rounds) => serve(slots, keys, rounds),
        Do::ServeDue(turns) => slots.serve_due().turns == turns,
        Do::NoneIsDue => !slots.is_any_due(),
        Do::Tick(now, next) => slots.tick(LIMITS, now) == next,
        Do::Beat(key, count) => beat(slots, key, count),
        Do::Stage(key, stage) => slots.stage(key) == Some(stage),
        Do::Out(key, count) => out(slots, key) == count,
        Do::Takes => matches!(take(slots), Some(End::Well)),
        Do::Ends(well, badly, fault) => count_ends(slots, fault) == (well, badly),
        Do::None => slots.is_empty(),
    }
}

fn hold(alloc: Global, slots: &mut Fakes, steps: &[Do]) -> bool {
    for what in steps {
        if !holds(alloc, slots, *what) {
            return false;
        }
    }
    true
}

/// All of it, of new slots.
fn goes(alloc: Global, steps: &[Do]) -> bool {
    let mut slots = Slots::new(alloc);
    let so = hold(alloc, &mut slots, steps);
    drop(slots);
    so
}

const TWICE_OPEN: SlotFault = SlotFault::Conn(ConnFault::OutOfPlace);

/// A fault ends its slot alone: the others are open meanwhile, and end well.
const FAULT: &[Do] = &[
    Do::Add(TWICE, 999, 0),
    Do::Add(WHOLE, 999, 1),
    Do::Add(WHOLE, 999, 2),
    Do::Serve(3, 4),
    Do::Serve(1, 99),
    Do::Stage(0, Stage::Over(Some(TWICE_OPEN))),
    Do::Stage(1, Stage::Works),
    Do::Out(1, 34),
    Do::Serve(3, 99),
    Do::Ends(2, 1, TWICE_OPEN),
    Do::None,
];

/// Each slot that is to be served has its turn: our header goes out.
const EACH: &[Do] = &[
    Do::Add(WHOLE, 999, 0),
    Do::Add(WHOLE, 999, 1),
    Do::Add(WHOLE, 999, 2),
    Do::ServeDue(3),
    Do::Out(0, 8),
    Do::Out(1, 8),
    Do::Out(2, 8),
];

/// Of a peer that takes no more nothing is read while 800 octets that answer it wait. With fewer, or where the program put them out, or where the peer takes
/// them, its second open is read.
const LAGS: &[Do] = &[
    Do::HoldAt(800),
    Do::Add(TWICE, 34, 0),
    Do::Add(TWICE, 34, 1),
    Do::Add(TWICE, 34, 2),
    Do::Add(TWICE, 999, 3),
    Do::Answer(0, 100),
    Do::Answer(1, 96),
    Do::Answer(3, 100),
    Do::Serve(4, 4),
    Do::Beat(2, 100),
    Do::Serve(4, 99),
    Do::Stage(0, Stage::Works),
    Do::Stage(1, Stage::Leaves(TWICE_OPEN)),
    Do::Stage(2, Stage::Leaves(TWICE_OPEN)),
    Do::Stage(3, Stage::Over(Some(TWICE_OPEN))),
];

/// A key names no other slot until it is taken out.
const KEYS: &[Do] = &[
    Do::Add(WHOLE, 999, 0),
    Do::Serve(1, 99),
    Do::Stage(0, Stage::Over(None)),
    Do::Tick(5, None),
    Do::Add(WHOLE, 999, 1),
    Do::Takes,
    Do::Add(WHOLE, 999, 0),
];

/// A slot that waits is left until it is told ready.
const READY: &[Do] = &[
    Do::Add(WHOLE, 999, 0),
    Do::ServeDue(1),
    Do::NoneIsDue,
    Do::ServeDue(0),
    Do::Add(WHOLE, 0, 1),
    Do::Serve(2, 99),
    Do::Stage(0, Stage::Over(None)),
    Do::Stage(1, Stage::Works),
];

/// A peer that says nothing ends its slot.
const SILENT: &[Do] = &[
    Do::Add(b"", 999, 0),
    Do::Add(PATIENT, 999, 1),
    Do::Tick(5, Some(1005)),
    Do::Serve(2, 99),
    Do::Tick(1004, Some(1005)),
    Do::Serve(2, 9),
    Do::Stage(0, Stage::Works),
    Do::Tick(1005, Some(1006)),
    Do::Serve(2, 9),
    Do::Stage(0, Stage::Over(Some(SlotFault::TimedOut))),
    Do::Stage(1, Stage::Works),
];

/// A connection beats for a peer that would leave.
const BEATS: &[Do] = &[
    Do::Add(PATIENT, 999, 0),
    Do::Add(CONTENT, 999, 1),
    Do::Serve(2, 99),
    Do::Tick(5, Some(505)),
    Do::Out(0, 34),
    Do::Tick(504, Some(505)),
    Do::Serve(2, 9),
    Do::Out(0, 34),
    Do::Tick(505, Some(506)),
    Do::Serve(2, 9),
    Do::Out(0, 42),
    Do::Out(1, 34),
    Do::Stage(1, Stage::Works),
    Do::Tick(506, Some(1006)),
];

#[test]
fn slots_go_so(rt: HostRuntime) {
    for steps in [FAULT, EACH, LAGS, KEYS, READY, SILENT, BEATS] {
        assert!(rt; goes(rt.alloc(), steps));
    }
}
