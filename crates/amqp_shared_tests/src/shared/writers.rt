//! Writers that wait for units are told of them, each at its number.

use super::course::{Case, USUAL, goes};
use super::playing::{Do, Due, Steps};
use crate::acts::Act;
use crate::octets::{CLOSE, GREETING};

/// The peer's close is answered by ours, in octets that are borrowed, while a writer waits.
const TOLD_OF_CLOSE: Case = Case {
    ring: 4,
    rounds: &[
        &[(1, &[Do::Hear(&GREETING), Do::Units(1, (2, false))])],
        &[
            (1, &[Do::Pause(1000), Do::Hear(&CLOSE)]),
            (1, &[Do::Units(2, (3, true))]),
        ],
    ],
    ..USUAL
};

#[test]
fn a_writer_is_told_of_a_close(rt: HostRuntime) {
    assert!(rt; goes(&rt, rt.alloc(), &TOLD_OF_CLOSE));
}

/// One unit is put out: the first of two is told, and puts out the one that the second waits for.
const TOLD_IN_TURN: Case = Case {
    ring: 4,
    rounds: &[
        &[(1, &[Do::Hear(&GREETING), Do::Call(Act::Begin, Due::Done)])],
        &[
            (1, &[Do::Pause(1000), Do::Call(Act::Beat, Due::Done)]),
            (
                1,
                &[Do::Units(3, (4, false)), Do::Call(Act::Beat, Due::Done)],
            ),
            (1, &[Do::Units(4, (5, false))]),
        ],
    ],
    ..USUAL
};

#[test]
fn two_wait_at_different_numbers(rt: HostRuntime) {
    assert!(rt; goes(&rt, rt.alloc(), &TOLD_IN_TURN));
}

const BEATS_AND_WAITS: Steps = &[Do::Call(Act::Beat, Due::Done), Do::Units(5, (6, false))];

/// Two writers wait at the same number: one unit wakes both.
const TOLD_AT_ONCE: Case = Case {
    ring: 8,
    rounds: &[
        &[(1, &[Do::Hear(&GREETING), Do::Call(Act::Begin, Due::Done)])],
        &[
            (
                1,
                &[
                    Do::ComesTo(4),
                    Do::Pause(20_000),
                    Do::Call(Act::Beat, Due::Done),
                ],
            ),
            (2, BEATS_AND_WAITS),
        ],
    ],
    ..USUAL
};

#[test]
fn two_wait_at_one_number(rt: HostRuntime) {
    assert!(rt; goes(&rt, rt.alloc(), &TOLD_AT_ONCE));
}
