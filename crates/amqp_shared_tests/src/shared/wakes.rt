//! What comes wakes one that waits to take it, and that one the next.

use super::course::{Case, LINK, Round, SESSION, USUAL, goes};
use super::playing::{Before, Do, Due, Steps};
use crate::acts::Act;
use crate::octets::{ACCEPTED_BOTH, FIRST_OF_ALL, FLOW, FLOW_TOO, SENDS_TOO, TAKES_TOO};
use amqp_rules::refusal::Refusal;

/// The peer's attach of the other link, and enough credit on each: nine steps with those before.
const BOTH_LINKS: Round = &[(
    1,
    &[
        Do::Hear(&SENDS_TOO),
        Do::Call(Act::Grant(0, 30), Due::Done),
        Do::Call(Act::Grant(1, 30), Due::Done),
    ],
)];

const TAKES_OF_0: Steps = &[Do::Wait(Before::Beat, Act::Take(0), Due::Takes(0))];

const TAKES_OF_1: Steps = &[Do::Wait(Before::Beat, Act::Take(1), Due::Takes(1))];

/// A taker for each of 25 deliveries sleeps, more than sleep at conditions of their own, when they come all at once: each has one of its link, and no other has it. Each
/// fifth of them comes on the other link.
const TAKEN_BY_ALL: Case = Case {
    ring: 64,
    rounds: &[
        SESSION,
        BOTH_LINKS,
        &[
            (1, &[Do::ComesTo(34), Do::Bring(25)]),
            (1, TAKES_OF_0),
            (4, TAKES_OF_1),
            (1, TAKES_OF_0),
            (4, TAKES_OF_1),
            (1, TAKES_OF_0),
            (4, TAKES_OF_1),
            (1, TAKES_OF_0),
            (4, TAKES_OF_1),
            (1, TAKES_OF_0),
            (4, TAKES_OF_1),
        ],
    ],
    taken: &[
        0, 1, 1, 1, 1, 0, 1, 1, 1, 1, 0, 1, 1, 1, 1, 0, 1, 1, 1, 1, 0, 1, 1, 1, 1,
    ],
    ..USUAL
};

#[test]
fn deliveries_wake_one_after_the_other(rt: HostRuntime) {
    assert!(rt; goes(&rt, rt.alloc(), &TAKEN_BY_ALL));
}

/// One thread sleeps until a delivery comes. Another hears it and waits for one of the other link, under one lock: the first has it, and ends the connection.
const WAITS_BEHIND: Case = Case {
    ring: 64,
    rounds: &[
        SESSION,
        BOTH_LINKS,
        &[
            (
                1,
                &[
                    Do::ComesTo(10),
                    Do::Wait(
                        Before::Hear(&FIRST_OF_ALL),
                        Act::Take(0),
                        Due::Refused(Refusal::NotRunning),
                    ),
                ],
            ),
            (
                1,
                &[
                    Do::Wait(Before::Beat, Act::Take(1), Due::Takes(1)),
                    Do::Lose,
                ],
            ),
        ],
    ],
    taken: &[1],
    ..USUAL
};

#[test]
fn who_waits_wakes_another_before(rt: HostRuntime) {
    assert!(rt; goes(&rt, rt.alloc(), &WAITS_BEHIND));
}

/// A second link on which we send, with no credit either: seven steps with those before.
const SECOND_LINK: Round = &[(1, &[Do::Call(Act::SendsP, Due::Done), Do::Hear(&TAKES_TOO)])];

/// Two threads sleep until there is credit on their links, and later until they learn of their deliveries. The credit comes by two frames, and the outcomes come by one:
/// each time both are woken.
const WAKES_BOTH: Case = Case {
    rounds: &[
        LINK,
        SECOND_LINK,
        &[
            (
                1,
                &[
                    Do::ComesTo(9),
                    Do::Pause(20_000),
                    Do::Hear(&FLOW),
                    Do::Hear(&FLOW_TOO),
                ],
            ),
            (
                1,
                &[Do::Wait(Before::Beat, Act::Start(0, [1, 0]), Due::Done)],
            ),
            (
                1,
                &[Do::Wait(Before::Beat, Act::Start(1, [2, 0]), Due::Done)],
            ),
        ],
        &[
            (
                1,
                &[Do::ComesTo(15), Do::Pause(20_000), Do::Hear(&ACCEPTED_BOTH)],
            ),
            (1, &[Do::Wait(Before::Beat, Act::Learn(0), Due::Done)]),
            (1, &[Do::Wait(Before::Beat, Act::Learn(1), Due::Done)]),
        ],
    ],
    ..USUAL
};

#[test]
fn starters_and_learners_of_two_links_wake(rt: HostRuntime) {
    assert!(rt; goes(&rt, rt.alloc(), &WAKES_BOTH));
}
