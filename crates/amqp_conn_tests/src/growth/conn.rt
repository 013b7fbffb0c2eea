//! A connection: what it is fed, cut and shared, what it does, and how it ends. What is not read of a frame no reader shows; the same octets, fed again,
//! and those that come after them, then have to make what they make with ample memory.

use crate::act::{Act, Settings, State, connection, error, made};
use crate::device::{AMPLE, Reads, Writes};
use crate::growth::octets::*;
use crate::growth::said::{Said, Shown, gave, left, show, unit};
use crate::growth::steps::{Do, Steps, Subject, Way, go_both};
use amqp_conn::*;
use std::alloc::Global;

/// Octets that are fed: in pieces of this length, or shared.
#[derive(Clone, Copy)]
enum Pieces<'a> {
    Cut(&'a [u8], usize),
    Shared(&'a Bytes),
}

/// What one feed answers: how many octets it used, whether that was a step, and whether one that answers a violation; or the number of a fault.
#[derive(Clone, Copy)]
struct One {
    used: usize,
    steps: u32,
    violations: u32,
    fault: u32,
}

/// The number of `ConnFault::NoMemory`.
const WANTING: u32 = 7;

fn one_of(answer: Result<Fed, ConnFault>) -> One {
    match answer {
        Ok(fed) => {
            let one = One {
                used: fed.used,
                steps: u32::from(fed.stepped),
                violations: u32::from(fed.violation.is_some()),
                fault: 0,
            };
            drop(fed);
            one
        }
        Err(fault) => One {
            used: 0,
            steps: 0,
            violations: 0,
            fault: fault.number(),
        },
    }
}

/// One feed of the octets from a place on.
fn feeds(conn: &mut Conn, octets: Pieces<'_>, from: usize) -> One {
    match octets {
        Pieces::Cut(octets, size) => {
            let rest = octets.get(from..).unwrap_or(&[]);
            let (piece, _) = rest.split_at(rest.len().min(size));
            one_of(conn.feed(&Octets::lent(piece)))
        }
        Pieces::Shared(shared) if from <= shared.len() => {
            one_of(conn.feed(&Octets::shared(shared, from)))
        }
        Pieces::Shared(_) => one_of(Err(ConnFault::Closed)),
    }
}

/// One feed, made again where it was refused memory and changed nothing.
fn feeds_twice(conn: &mut Conn, octets: Pieces<'_>, from: usize) -> One {
    let before = conn.shown();
    let one = feeds(conn, octets, from);
    if one.fault == WANTING && conn.shown() == before {
        return feeds(conn, octets, from);
    }
    one
}

/// Feeds so many octets, which are all.
fn feeds_all(conn: &mut Conn, octets: Pieces<'_>, len: usize) -> Said {
    let mut all = One {
        used: 0,
        steps: 0,
        violations: 0,
        fault: 0,
    };
    for _ in 0..999 {
        if all.used >= len || all.fault != 0 {
            break;
        }
        let one = feeds_twice(conn, octets, all.used);
        all.used = all.used.wrapping_add(one.used);
        all.steps = all.steps.wrapping_add(one.steps);
        all.violations = all.violations.wrapping_add(one.violations);
        all.fault = one.fault;
    }
    match all.fault {
        0 => Said::Fed(all.used, all.steps, all.violations),
        WANTING => Said::Wanting,
        fault => Said::Faulty(fault),
    }
}

fn feeds_shared(alloc: Global, conn: &mut Conn, octets: &[u8]) -> Said {
    let shared = match Bytes::copy_from_slice(alloc, octets) {
        Ok(shared) => Ok(shared),
        Err(_) => Bytes::copy_from_slice(alloc, octets),
    };
    match shared {
        Ok(shared) => feeds_all(conn, Pieces::Shared(&shared), octets.len()),
        Err(_) => Said::Wanting,
    }
}

/// How a pump ends, run again where memory was refused, and what it wrote.
fn pumps(conn: &mut Conn, octets: &'static [u8]) -> Said {
    let mut source = FromStd::new(Reads {
        octets,
        plan: AMPLE,
        calls: 0,
    });
    let mut sink = FromStd::new(Writes::new(AMPLE));
    let mut pump = Pump::new();
    let end = match pump.run(&mut source, &mut sink, conn, 99) {
        Err(PumpFault::Conn(ConnFault::NoMemory)) => pump.run(&mut source, &mut sink, conn, 99),
        end => end,
    };
    let writes = sink.into_inner();
    match end {
        Ok(PumpEnd::Closed) => Said::Pumped(writes.count, writes.sum),
        _ => Said::Wanting,
    }
}

fn does(alloc: Global, conn: &mut Conn, act: Act) -> Said {
    let Some(op) = made(alloc, act) else {
        return Said::Wanting;
    };
    let done = conn.apply(&op);
    drop(op);
    gave(done)
}

/// An error, made again where a growth was refused.
fn told(alloc: Global) -> Option<Boxed<AmqpError>> {
    match error(alloc) {
        Ok(error) => Some(error),
        Err(_) => error(alloc).ok(),
    }
}

fn closes(alloc: Global, conn: &mut Conn, tells: bool) -> Said {
    let error = if tells { told(alloc) } else { None };
    match conn.close(error) {
        Ok(()) => Said::Nothing,
        Err(CloseRefusal::NoMemory) => Said::Wanting,
        Err(refusal) => Said::Refused(refusal.number()),
    }
}

fn puts_aside(conn: &Conn, role: Role) -> Said {
    match conn.links_aside(role) {
        Ok(links) => Said::Count(links.len()),
        Err(_) => Said::Wanting,
    }
}

fn pops(conn: &mut Conn) -> Said {
    match conn.pop_left() {
        Ok(popped) => left(popped),
        Err(_) => Said::Wanting,
    }
}

impl Subject for Conn {
    fn once(&mut self, alloc: Global, what: Do, _way: Way) -> Said {
        match what {
            Do::Feed(octets, size) => feeds_all(self, Pieces::Cut(octets, size), octets.len()),
            Do::FeedShared(octets) => feeds_shared(alloc, self, octets),
            Do::Pump(octets) => pumps(self, octets),
            Do::Own(act) => does(alloc, self, act),
            Do::Close(tells) => closes(alloc, self, tells),
            Do::Aside(role) => puts_aside(self, role),
            Do::LeftLen => match self.left_len() {
                Ok(count) => Said::Count(count),
                Err(_) => Said::Wanting,
            },
            Do::Left => pops(self),
            Do::Unit => unit(self.pop_unit()),
            Do::Lost => {
                self.lost();
                Said::Nothing
            }
            Do::Forget => {
                self.forget();
                Said::Nothing
            }
            _ => Said::Wanting,
        }
    }

    fn shown(&self) -> Shown {
        let mut shown = show(self.logged());
        shown.phase = Some(self.phase());
        shown.heard = [
            self.peer().is_some(),
            self.parting().is_some(),
            self.ended_by().is_some(),
            self.heard().is_some(),
        ];
        shown.ended = self.ended().len();
        shown
    }

    fn session(&self) -> &Logged {
        self.logged()
    }

    fn next_unit(&mut self) -> Option<Unit> {
        self.pop_unit()
    }
}

fn settings(journal_limit: u32) -> Settings {
    Settings {
        host: Some("host"),
        idle_time_out: Some(1000),
        window: 2048,
        journal_limit,
    }
}

/// Whether two new connections go so, whose journals take so many steps.
fn goes(alloc: Global, limit: u32, lists: &[Steps]) -> bool {
    let Some(mut one) = connection(alloc, settings(limit)) else {
        return false;
    };
    let answer = goes_beside(alloc, limit, &mut one, lists);
    drop(one);
    answer
}

fn goes_beside(alloc: Global, limit: u32, one: &mut Conn, lists: &[Steps]) -> bool {
    let Some(mut other) = connection(alloc, settings(limit)) else {
        return false;
    };
    let answer = go_both(alloc, one, &mut other, lists, Way::Lent);
    drop(other);
    answer
}

/// The most steps that the journal takes, where none is to be missed.
const AMPLY: u32 = 1000;

/// The peer's greeting, in pieces of seven octets.
const CUT: &[(Do, Said)] = &[
    (Do::Own(Act::Begin), Said::Refused(1)),
    (Do::Feed(GREETING, 7), Said::Fed(67, 2, 0)),
    (Do::Own(Act::Begin), Said::Nothing),
    (Do::Own(Act::Attach(Role::Sender, "p")), Said::Link(0)),
    (Do::Feed(LINKS, 7), Said::Fed(128, 3, 0)),
];

/// The same, in shared octets.
const SHARED: &[(Do, Said)] = &[
    (Do::FeedShared(GREETING), Said::Fed(67, 2, 0)),
    (Do::Own(Act::Begin), Said::Nothing),
    (Do::Own(Act::Attach(Role::Sender, "p")), Said::Link(0)),
    (Do::FeedShared(LINKS), Said::Fed(128, 3, 0)),
];

/// We send two deliveries, and are to receive.
const SENT: &[(Do, Said)] = &[
    (Do::Own(Act::Attach(Role::Receiver, "q")), Said::Link(1)),
    (Do::Own(Act::Grant(1, 5, true)), Said::Nothing),
    (Do::Own(Act::Start(0, 1, false, false)), Said::Delivery(0)),
    (Do::Own(Act::Start(0, 2, false, true)), Said::Delivery(1)),
    (Do::Own(Act::Carry(0, false)), Said::Nothing),
    (Do::Own(Act::Start(0, 3, false, false)), Said::Delivery(2)),
    (Do::Own(Act::Start(0, 4, true, false)), Said::Delivery(3)),
];

/// What the peer says then, in pieces of 31 octets.
const SAID: &[(Do, Said)] = &[(Do::Feed(DELIVERIES, 31), Said::Fed(164, 6, 0))];

const SAID_SHARED: &[(Do, Said)] = &[(Do::FeedShared(DELIVERIES), Said::Fed(164, 6, 0))];

const DONE: &[(Do, Said)] = &[
    (Do::Own(Act::Take(1)), Said::Taken(0, 11)),
    (Do::Own(Act::Learn(0)), Said::Learned(0, true)),
    (Do::Aside(Role::Sender), Said::Count(1)),
    (Do::Aside(Role::Receiver), Said::Count(1)),
    (Do::Own(Act::Beat), Said::Nothing),
];

/// The operations that the other lists have not. The peer detaches both links, and then puts aside one that was rejoined.
const OPERATED: &[(Do, Said)] = &[
    (Do::Own(Act::Attach(Role::Receiver, "q")), Said::Link(1)),
    (Do::Own(Act::Start(0, 1, false, false)), Said::Delivery(0)),
    (Do::Own(Act::Start(0, 2, false, true)), Said::Delivery(1)),
    (Do::Own(Act::Abort(0)), Said::Nothing),
    (Do::Own(Act::Offer(0)), Said::Nothing),
    (
        Do::Own(Act::Dispose(Role::Sender, 0, 0, false, State::Rejected)),
        Said::Nothing,
    ),
    (Do::Own(Act::Refresh(true)), Said::Nothing),
    (Do::FeedShared(DRAIN), Said::Fed(33, 1, 0)),
    (Do::Own(Act::Drained(0)), Said::Nothing),
    (Do::Own(Act::Suspend(0)), Said::Suspended(1)),
    (Do::Own(Act::Detach(1)), Said::Nothing),
    (Do::FeedShared(DETACH_P), Said::Fed(30, 1, 0)),
    (Do::FeedShared(DETACH_Q), Said::Fed(16, 1, 0)),
    (
        Do::Own(Act::Rejoin(Role::Sender, "q", &[(4, State::Accepted)])),
        Said::Link(2),
    ),
    (Do::FeedShared(AGAIN), Said::Fed(69, 1, 0)),
    (Do::FeedShared(CREDIT), Said::Fed(30, 1, 0)),
    (
        Do::Own(Act::Resume(2, 4, false)),
        Said::Resumed(Verdict::Held),
    ),
    (Do::Aside(Role::Sender), Said::Count(1)),
    (Do::FeedShared(AWAY), Said::Fed(15, 1, 0)),
    (Do::Own(Act::End), Said::Nothing),
];

/// We close with an error; what comes before the peer's close is dropped.
const CLOSED: &[(Do, Said)] = &[
    (Do::Close(true), Said::Nothing),
    (Do::Close(true), Said::Refused(1)),
    (Do::Feed(PARTS, 9), Said::Fed(70, 0, 0)),
    (Do::Feed(CLOSE, 9), Said::Faulty(6)),
];

/// We close without one, and the octets end.
const LOST: &[(Do, Said)] = &[(Do::Close(false), Said::Nothing), (Do::Lost, Said::Nothing)];

/// The peer detaches, ends and closes.
const PARTED: &[(Do, Said)] = &[
    (Do::FeedShared(PARTS), Said::Fed(70, 2, 0)),
    (Do::Own(Act::Beat), Said::Refused(1)),
];

/// What is left of a session in which the links go with the connection: it is gathered by the first call.
const COUNTED: &[(Do, Said)] = &[
    (Do::LeftLen, Said::Count(3)),
    (Do::Left, Said::Learned(1, true)),
    (Do::Left, Said::Taken(1, 5)),
    (Do::Left, Said::Taken(2, 2)),
    (Do::Left, Said::Nothing),
];

/// And where the link on which we receive went before.
const POPPED: &[(Do, Said)] = &[
    (Do::Left, Said::Taken(1, 5)),
    (Do::Forget, Said::Nothing),
    (Do::Left, Said::Taken(2, 2)),
    (Do::Left, Said::Learned(1, true)),
    (Do::LeftLen, Said::Count(0)),
];

/// A transfer without credit is answered by a detach, one on no link by an end; each is then dropped.
const VIOLATED: &[(Do, Said)] = &[
    (Do::Own(Act::Attach(Role::Receiver, "q")), Said::Link(1)),
    (Do::Feed(WHOLE, 9), Said::Fed(28, 2, 1)),
    (Do::FeedShared(NO_HANDLE), Said::Fed(27, 2, 1)),
    (Do::Feed(END, 9), Said::Fed(27, 1, 0)),
];

/// Faults of a connection that runs.
const BAD_FRAME: &[(Do, Said)] = &[(Do::Feed(BAD, 9), Said::Faulty(2))];

const SECOND_OPEN: &[(Do, Said)] = &[(Do::FeedShared(OPEN), Said::Faulty(3))];

const OTHER_CHANNEL: &[(Do, Said)] = &[(Do::Feed(ELSEWHERE, 99), Said::Faulty(4))];

/// A journal that takes two steps.
const FULL: &[(Do, Said)] = &[
    (Do::Feed(GREETING, 7), Said::Fed(67, 2, 0)),
    (Do::Own(Act::Begin), Said::Refused(2)),
    (Do::Feed(ATTACH_P, 7), Said::Faulty(5)),
];

/// Faults before the open.
const OTHER_HEADER: &[(Do, Said)] = &[(Do::Feed(OTHER, 3), Said::Faulty(1))];

const EARLY: &[(Do, Said)] = &[
    (Do::Feed(HEADER, 3), Said::Fed(8, 0, 0)),
    (Do::Feed(BEGIN, 99), Said::Faulty(3)),
];

/// A whole session: our header, open and close go out.
const PUMP: &[(Do, Said)] = &[(Do::Pump(PUMPED), Said::Pumped(56, 1951669066))];

/// How many steps the journal takes, and what is done.
const FAULTS: &[(u32, &[Steps])] = &[
    (AMPLY, &[CUT, BAD_FRAME]),
    (AMPLY, &[CUT, SECOND_OPEN]),
    (AMPLY, &[CUT, OTHER_CHANNEL]),
    (AMPLY, &[OTHER_HEADER]),
    (AMPLY, &[EARLY]),
    (2, &[FULL]),
];

#[test]
fn every_growth_refused_of_a_connection_that_we_close(rt: HostRuntime) {
    assert!(rt; goes(rt.alloc(), AMPLY, &[CUT, SENT, SAID, DONE, CLOSED, COUNTED]));
}

#[test]
fn every_growth_refused_of_a_connection_that_is_lost(rt: HostRuntime) {
    assert!(rt;
        goes(
            rt.alloc(),
            AMPLY,
            &[CUT, SENT, SAID_SHARED, DONE, LOST, COUNTED]
        )
    );
}

#[test]
fn every_growth_refused_of_a_connection_that_the_peer_closes(rt: HostRuntime) {
    assert!(rt;
        goes(
            rt.alloc(),
            AMPLY,
            &[SHARED, SENT, SAID_SHARED, DONE, PARTED, POPPED]
        )
    );
}

#[test]
fn every_growth_refused_of_operations_of_a_connection(rt: HostRuntime) {
    assert!(rt; goes(rt.alloc(), AMPLY, &[CUT, OPERATED]));
}

#[test]
fn every_growth_refused_of_violations(rt: HostRuntime) {
    assert!(rt; goes(rt.alloc(), AMPLY, &[CUT, VIOLATED]));
}

#[test]
fn every_growth_refused_of_faults(rt: HostRuntime) {
    for (limit, lists) in FAULTS {
        assert!(rt; goes(rt.alloc(), *limit, lists));
    }
}

#[test]
fn every_growth_refused_of_a_pump(rt: HostRuntime) {
    assert!(rt; goes(rt.alloc(), AMPLY, &[PUMP]));
}
