//! Shared sessions on one thread, where one growth of memory is refused. A call that is refused memory is made again, after a look at what the readers
//! show, and has to answer what it answers with ample memory. Each session goes twice: one of both at least has ample memory, and both come to the same.
ghost use Rattle.std.specs.Prelude.{◌≡◌, IfSome};
ghost use Rattle.amqp_shared.specs.Passes.{IsNamed};

mod calls;
mod consuming;
mod ending;
mod shown;

use crate::acts::Act;
use crate::octets::{ACCEPTED, ANSWER, CLOSE, FLOW, GREETING};
use crate::session::seed_of;
use amqp_shared::{Name, Pass, Refusal, Retention, Seed, open_shared};
use calls::{Do, Steps, go};
use ending::end;
use shown::Course;
use std::alloc::Global;
use std::marker::Brand;
use std::sync::Wait;
use std::thread::Threads;

/// A disposition that accepts the second delivery and settles it.
const SECOND: [u8; 23] = [
    0, 0, 0, 0x17, 2, 0, 0, 0, 0, 0x53, 0x15, 0xc0, 0x0a, 5, 0x41, 0x52, 1, 0x40, 0x41, 0, 0x53,
    0x24, 0x45,
];

/// The peer's begin, and its attach of a link on which it sends.
const SESSION: [u8; 56] = [
    0, 0, 0, 0x1c, 2, 0, 0, 0, 0, 0x53, 0x11, 0xc0, 0x0f, 4, 0x60, 0, 0, 0x43, 0x70, 0, 0, 8, 0,
    0x70, 0x7f, 0xff, 0xff, 0xff, 0, 0, 0, 0x1c, 2, 0, 0, 0, 0, 0x53, 0x12, 0xc0, 0x0f, 0x0a, 0xa1,
    1, 0x71, 0x43, 0x42, 0x50, 2, 0x50, 0, 0x40, 0x40, 0x40, 0x40, 0x43,
];

/// A delivery, one that comes settled, and another.
const DELIVERIES: [u8; 66] = [
    0, 0, 0, 0x15, 2, 0, 0, 0, 0, 0x53, 0x14, 0xc0, 7, 4, 0x43, 0x43, 0xa0, 1, 1, 0x43, 0x78, 0, 0,
    0, 0x17, 2, 0, 0, 0, 0, 0x53, 0x14, 0xc0, 9, 5, 0x43, 0x52, 1, 0xa0, 1, 2, 0x43, 0x41, 0x78, 0,
    0, 0, 0x16, 2, 0, 0, 0, 0, 0x53, 0x14, 0xc0, 8, 4, 0x43, 0x52, 2, 0xa0, 1, 3, 0x43, 0x78,
];

/// Two deliveries of ours: of the first we learn, and what the peer told of the second is left when it closes. More units go out than the ring takes.
const SENT: Steps = &[
    (Do::Hear(&GREETING), 34),
    (Do::Call(Act::Begin), 0),
    (Do::Hear(&ANSWER), 47),
    (Do::Call(Act::Sends), 0),
    (Do::Hear(&FLOW), 30),
    (Do::Call(Act::Start(0, [1, 0])), 0),
    (Do::Wait(Act::Start(0, [2, 0])), 1),
    (Do::Hear(&ACCEPTED), 22),
    (Do::Wait(Act::Learn(0)), 0),
    (Do::Forget, 1),
    (Do::Hear(&SECOND), 23),
    (Do::Call(Act::Beat), 0),
    (Do::Hear(&CLOSE), 12),
    (Do::LeftLen, 1),
    (Do::Left, 1),
    (Do::Left, 99),
];

/// A consumer takes two of three deliveries, and is stopped by a full journal; then the peer closes, and the third is what the link left.
const CONSUMED: Steps = &[
    (Do::Hear(&GREETING), 34),
    (Do::Call(Act::Begin), 0),
    (Do::Hear(&SESSION), 56),
    (Do::Call(Act::ReceivesQ(0)), 0),
    (Do::Call(Act::Grant(0, 3)), 0),
    (Do::Hear(&DELIVERIES), 66),
    (Do::Consume(2, Refusal::JournalFull), 1),
    (Do::Hear(&CLOSE), 12),
    (Do::Consume(1, Refusal::NotRunning), 1),
    (Do::LeftLen, 0),
];

/// We close, with units that wait behind a ring that is full, and so does the peer.
const SHUT: Steps = &[
    (Do::Hear(&GREETING), 34),
    (Do::Call(Act::Begin), 0),
    (Do::Call(Act::Beat), 0),
    (Do::Call(Act::Beat), 0),
    (Do::Shut, 0),
    (Do::Hear(&CLOSE), 12),
    (Do::LeftLen, 0),
];

/// A course of a session, and what it has to come to.
#[derive(Clone, Copy)]
struct Plan {
    /// How many steps its journal takes.
    limit: u32,
    steps: Steps,
    /// Passes may be gone, where memory was refused.
    misses: bool,
    /// How many steps it makes, and how many units it puts out.
    made: u32,
    units: u64,
}

/// A seed with a ring of four units, made again where it was refused memory.
fn seed_again(alloc: Global, journal_limit: u32) -> Option<Seed>
    ensures { IfSome result (λ s. s.parts ≡ 65536) }
{
    let retention = Retention::UntilForgotten;
    match seed_of(alloc, 4, journal_limit, retention) {
        Some(seed) => Some(seed),
        None => seed_of(alloc, 4, journal_limit, retention),
    }
}

/// Room for the passes that the end wants: two, and those of four runs of a consumer. Later pushes make no growth.
fn room<N: Name>(alloc: Global) -> Vec<Pass<N>> {
    match Vec::with_capacity(alloc, 6) {
        Ok(passes) => passes,
        Err(_) => Vec::with_capacity(alloc, 6).unwrap_or(Vec::new(alloc)),
    }
}

/// The pass in two, with which the steps are made by turns.
fn split<N: Name>(passes: &mut Vec<Pass<N>>, pass: Pass<N>) -> bool {
    let mut pass = pass;
    let part = pass.split();
    let is_first_in = passes.push(pass).is_ok();
    match part {
        Some(part) => passes.push(part).is_ok() && is_first_in,
        None => false,
    }
}

/// How the session stands that comes back behind the steps; none where one of them is not answered so.
fn course<N: Name + Send + Sync, R: Threads + Wait + Sync>(
    rt: &R,
    alloc: Global,
    seed: Seed,
    plan: &Plan,
) -> Option<Course>
    requires { IsNamed seed N.name N.parts N.ring N.retention }
{
    let mut passes = room::<N>(alloc);
    let (shared, pass, writer) = open_shared::<N>(seed);
    let goes = split(&mut passes, pass) && go(rt, alloc, &shared, &mut passes, plan.steps);
    let course = end(rt, shared, passes, writer, plan.misses);
    if goes { course } else { None }
}

fn goes_once<R: Threads + Wait + Sync>(rt: &R, alloc: Global, plan: &Plan) -> Option<Course> {
    match seed_again(alloc, plan.limit) {
        Some(seed) => course::<Brand, R>(rt, alloc, seed, plan),
        None => None,
    }
}

/// Whether two sessions go so, and come to the same.
fn goes<R: Threads + Wait + Sync>(rt: &R, alloc: Global, plan: &Plan) -> bool {
    let one = goes_once(rt, alloc, plan);
    let other = goes_once(rt, alloc, plan);
    match one {
        Some(course) => one == other && course.has(plan.made, plan.units),
        None => false,
    }
}

#[test]
fn every_growth_refused_of_a_shared_session(rt: HostRuntime) {
    let plan = Plan {
        limit: 1000,
        steps: SENT,
        misses: false,
        made: 12,
        units: 8,
    };
    assert!(rt; goes(&rt, rt.alloc(), &plan));
}

#[test]
fn every_growth_refused_of_consumers(rt: HostRuntime) {
    // Nine steps, and those of two deliveries that are consumed.
    let plan = Plan {
        limit: 14,
        steps: CONSUMED,
        misses: true,
        made: 14,
        units: 9,
    };
    assert!(rt; goes(&rt, rt.alloc(), &plan));
}

#[test]
fn every_growth_refused_of_a_close(rt: HostRuntime) {
    let plan = Plan {
        limit: 1000,
        steps: SHUT,
        misses: false,
        made: 4,
        units: 6,
    };
    assert!(rt; goes(&rt, rt.alloc(), &plan));
}
