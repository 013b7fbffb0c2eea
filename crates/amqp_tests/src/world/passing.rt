//! Two deliveries of A's, with the ids 4294967295 and 0, on a link that A sends on and B receives on.

use super::calls::{ACCEPTED, AHEAD, ATTACHED, BEGUN, DONE, EMPTY, LINK, READY, RESUMING, TAKEN};
use super::steps::{Do, Steps, go};
use crate::acts::{Act, GRANT, RECEIVER, SENDER, START, Start, State};
use amqp_frames::Role;
use amqp_world::side::Side;

const FIRST: u32 = 4294967295;

/// B disposes both.
const DISPOSE: Act = Act::Dispose {
    role: Role::Receiver,
    first: FIRST,
    last: 0,
    settled: true,
    state: State::Accepted,
};

/// A sends both on credit of B's, which has heard neither. B is told that its disposition reaches ahead until it has heard both, and that it resumes where it
/// puts the link aside, brings one back with nothing, or resumes a delivery, which only waits where a link was brought back.
const STEPS: Steps = &[
    (Side::A, Do::Own(Act::Begin), (DONE, 0)),
    (Side::B, Do::Own(Act::Begin), (DONE, 0)),
    (Side::A, Do::Hear, (DONE, 0)),
    (Side::B, Do::Hear, (DONE, 0)),
    (Side::A, Do::Own(Act::Attach(SENDER)), (LINK, 0)),
    (Side::B, Do::Own(Act::Attach(RECEIVER)), (LINK, 0)),
    (Side::A, Do::Hear, (ATTACHED, 0)),
    (Side::B, Do::Hear, (ATTACHED, 0)),
    (Side::B, Do::Own(GRANT), (DONE, 0)),
    (Side::A, Do::Hear, (DONE, 0)),
    (Side::A, Do::Own(Act::Start(START)), (BEGUN, FIRST)),
    (
        Side::A,
        Do::Own(Act::Start(Start { tag: 2, ..START })),
        (BEGUN, 0),
    ),
    (Side::B, Do::Own(DISPOSE), (AHEAD, 0)),
    (Side::B, Do::Hear, (READY, FIRST)),
    (Side::B, Do::Own(DISPOSE), (AHEAD, 0)),
    (Side::B, Do::Hear, (READY, 0)),
    (Side::B, Do::Own(Act::Take(0)), (TAKEN, FIRST)),
    (Side::B, Do::Own(Act::Take(0)), (TAKEN, 0)),
    (Side::B, Do::Own(DISPOSE), (DONE, 0)),
    (Side::A, Do::Hear, (DONE, 0)),
    (Side::A, Do::HasEnded(2), (DONE, 1)),
    (Side::A, Do::Own(Act::Learn(0)), (ACCEPTED, FIRST)),
    (Side::A, Do::Own(Act::Learn(0)), (ACCEPTED, 0)),
    (Side::B, Do::HasHeard(4, 2), (DONE, 1)),
    (Side::A, Do::Hear, (EMPTY, 0)),
    (Side::B, Do::Own(Act::Suspend(0)), (RESUMING, 0)),
    (Side::B, Do::Own(Act::Rejoin(Role::Receiver)), (RESUMING, 0)),
    (Side::B, Do::Own(Act::Resume(0, 1)), (RESUMING, 0)),
];

/// A range that reaches ahead is refused whole, and once all of it was heard it is disposed; what was sent is taken, and what is disposed is learnt.
#[test]
fn a_disposition_waits_for_what_it_disposes(rt: HostRuntime) {
    assert!(rt; go(rt.alloc(), FIRST, STEPS));
}
