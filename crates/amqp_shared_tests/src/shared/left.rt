//! What came with an end is had behind the call that waited for it.

use super::consuming::{Consumers, Way};
use super::course::{Case, LINK, SESSION, USUAL, goes};
use super::ending::{CLOSED, Ended};
use super::playing::{Before, Do, Due};
use crate::acts::Act;
use crate::octets::{
    ACCEPTED_AND_CLOSED, ACCEPTED_AND_GONE, ACCEPTED_BOTH, CLOSE, DELIVERED_AND_CLOSED, FLOW,
};
use amqp_rules::refusal::Refusal;
use amqp_shared::{Renewal, Terms};

/// Starts two deliveries and waits to learn of one, under one lock: who sees that they were started finds that the call waits. It has the first outcome,
/// and the other one is left.
const LEARNS: &[Do] = &[Do::WaitInVain(Before::StartTwo, Refusal::NotRunning, Some(1))];

/// Another hears both outcomes and the end in one piece.
const WITH_A_CLOSE: Case = Case {
    rounds: &[
        LINK,
        &[(1, &[Do::Hear(&FLOW)])],
        &[
            (1, &[Do::ComesTo(8), Do::Hear(&ACCEPTED_AND_CLOSED)]),
            (1, LEARNS),
        ],
    ],
    ..USUAL
};

#[test]
fn an_outcome_comes_with_a_close(rt: HostRuntime) {
    assert!(rt; goes(&rt, rt.alloc(), &WITH_A_CLOSE));
}

const WITH_ALL_ENDS: Case = Case {
    rounds: &[
        LINK,
        &[(1, &[Do::Hear(&FLOW)])],
        &[
            (1, &[Do::ComesTo(8), Do::Hear(&ACCEPTED_AND_GONE)]),
            (1, LEARNS),
        ],
    ],
    ..USUAL
};

#[test]
fn the_last_outcome_comes_with_detach_end_and_close(rt: HostRuntime) {
    assert!(rt; goes(&rt, rt.alloc(), &WITH_ALL_ENDS));
}

/// Two consumers wait, and another thread hears five settled messages and the close in one piece: together they have each of them once.
const MESSAGES: Case = Case {
    rounds: &[
        SESSION,
        &[(1, &[Do::Call(Act::Grant(1, 5), Due::Done)])],
        &[
            (
                1,
                &[Do::Consume(&Consumers {
                    works: &[Way::Counts, Way::Counts],
                    terms: Terms {
                        link: 1,
                        credit: 5,
                        renewal: Renewal::Each,
                    },
                    more: None,
                    count: 0,
                    left: 5,
                    made: 0,
                    most: 0,
                    stopped: Refusal::NotRunning,
                })],
            ),
            (1, &[Do::Pause(10_000), Do::Hear(&DELIVERED_AND_CLOSED)]),
        ],
    ],
    ..USUAL
};

#[test]
fn messages_come_with_a_close(rt: HostRuntime) {
    assert!(rt; goes(&rt, rt.alloc(), &MESSAGES));
}

/// Once our close has gone out, who would learn has the first outcome, and before the peer's comes. The other one is had of the connection that is handed back.
const WITH_WHAT_IS_CLOSED: Case = Case {
    rounds: &[
        LINK,
        &[(
            1,
            &[
                Do::Hear(&FLOW),
                Do::CallBoth(Act::Start(0, [1, 0]), Act::Start(0, [2, 0])),
                Do::Hear(&ACCEPTED_BOTH),
                Do::WaitInVain(Before::Shut, Refusal::NotRunning, None),
                Do::Hear(&CLOSE),
            ],
        )],
    ],
    end: Some(Ended {
        left: 7,
        outcome: Some(1),
        ..CLOSED
    }),
    ..USUAL
};

#[test]
fn what_is_left_comes_with_what_is_closed(rt: HostRuntime) {
    assert!(rt; goes(&rt, rt.alloc(), &WITH_WHAT_IS_CLOSED));
}
