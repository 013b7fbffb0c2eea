//! Two ends that speak with each other, where one growth of memory is refused: nothing has changed then, and the same call gives its own answer.

use super::calls::{
    ACCEPTED, AHEAD, ATTACHED, BEGUN, DONE, EMPTY, GONE, LINK, OFFERED, READY, REFUSED, RESUMING,
    TAKEN,
};
use super::steps::{Do, Steps, go};
use crate::acts;
use crate::acts::{Act, Payload, RECEIVER, SENDER, Start, State};
use amqp_frames::Role;
use amqp_world::side::Side;

const START: Start = Start {
    payload: Payload::These(b"payload"),
    ..acts::START
};

/// Three deliveries may begin.
const GRANT: Act = Act::Grant {
    link: 0,
    credit: 3,
    drain: false,
    echo: false,
};

const CARRY: Act = Act::Carry {
    link: 0,
    payload: Payload::These(b"the rest"),
    more: false,
};

/// Accepts and settles the first two deliveries.
const ACCEPT: Act = Act::Dispose {
    role: Role::Receiver,
    first: 0,
    last: 1,
    settled: true,
    state: State::Accepted,
};

/// Both begin, and A is to send on a link. One delivery goes whole and one in two parts; B takes both, and A learns of them. A third waits when A detaches the
/// link and ends.
const STEPS: Steps = &[
    (Side::A, Do::Own(Act::Begin), (DONE, 0)),
    (Side::B, Do::Own(Act::Begin), (DONE, 0)),
    (Side::A, Do::Hear, (DONE, 0)),
    (Side::B, Do::Hear, (DONE, 0)),
    (Side::B, Do::Hear, (EMPTY, 0)),
    (Side::A, Do::Own(Act::Attach(SENDER)), (LINK, 0)),
    (Side::B, Do::Hear, (OFFERED, 0)),
    (Side::B, Do::Own(Act::Attach(RECEIVER)), (LINK, 0)),
    (Side::A, Do::Hear, (ATTACHED, 0)),
    (Side::A, Do::Own(Act::Start(START)), (REFUSED, 14)),
    (Side::B, Do::Own(GRANT), (DONE, 0)),
    (Side::A, Do::Hear, (DONE, 0)),
    (Side::A, Do::Own(Act::Start(START)), (BEGUN, 0)),
    (
        Side::A,
        Do::Own(Act::Start(Start {
            tag: 2,
            more: true,
            ..START
        })),
        (BEGUN, 1),
    ),
    (Side::A, Do::Own(CARRY), (DONE, 0)),
    (Side::B, Do::Hear, (READY, 0)),
    (Side::B, Do::Own(ACCEPT), (AHEAD, 0)),
    (Side::B, Do::Hear, (DONE, 0)),
    (Side::B, Do::Hear, (READY, 1)),
    (Side::B, Do::Own(Act::Take(0)), (TAKEN, 0)),
    (Side::B, Do::Own(Act::Take(0)), (TAKEN, 1)),
    (Side::B, Do::Own(ACCEPT), (DONE, 0)),
    (Side::B, Do::Own(Act::Suspend(0)), (RESUMING, 0)),
    (Side::A, Do::Hear, (DONE, 0)),
    (Side::A, Do::Own(Act::Learn(0)), (ACCEPTED, 0)),
    (Side::A, Do::Own(Act::Learn(0)), (ACCEPTED, 1)),
    (
        Side::A,
        Do::Own(Act::Start(Start { tag: 3, ..START })),
        (BEGUN, 2),
    ),
    (Side::A, Do::Own(Act::Detach(0)), (DONE, 0)),
    (Side::B, Do::Hear, (READY, 2)),
    (Side::B, Do::Hear, (GONE, 0)),
    (Side::A, Do::Own(Act::End), (DONE, 0)),
    (Side::B, Do::Hear, (DONE, 0)),
    (Side::A, Do::Hear, (DONE, 0)),
    (Side::A, Do::Hear, (DONE, 0)),
    (Side::A, Do::Hear, (EMPTY, 0)),
    (Side::B, Do::Hear, (EMPTY, 0)),
];

#[test]
fn every_growth_refused_of_two_ends(rt: HostRuntime) {
    assert!(rt; go(rt.alloc(), 0, STEPS));
}
