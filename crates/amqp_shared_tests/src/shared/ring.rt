//! What the ring gives, what waits for what, and how a connection is taken apart.

use super::course::{Case, LINK, USUAL, goes};
use super::ending::{CLOSED, Ended};
use super::looks::Look;
use super::playing::{Do, Due};
use crate::acts::Act;
use crate::octets::{ACCEPTED, CLOSE, CLOSE_HEAD, CLOSE_TAIL, FLOW, FLOW_SHUT, GREETING};
use amqp_conn::Phase;
use amqp_rules::refusal::Refusal;
use amqp_shared::CloseReason;

/// Units are taken in a thread that needs nothing but the writer's end, and one of them waits in the connection until it is moved.
const ROW: Case = Case {
    ring: 1,
    rounds: &[
        &[(
            1,
            &[
                Do::Hear(&GREETING),
                Do::Call(Act::Begin, Due::Done),
                Do::Units(0, (3, false)),
                Do::Is(Look::Begun),
            ],
        )],
        &[(1, &[Do::Unit(Some(0)), Do::Unit(None)]), (1, &[])],
        &[(1, &[Do::MoveUnits])],
        &[(1, &[Do::Unit(Some(1)), Do::Unit(None)])],
    ],
    end: Some(Ended {
        phase: Phase::Running,
        taken: 2,
        left: 1,
        first_left: Some(2),
        ..CLOSED
    }),
    ..USUAL
};

#[test]
fn row_of_the_ring(rt: HostRuntime) {
    assert!(rt; goes(&rt, rt.alloc(), &ROW));
}

/// What was handed back goes on, with the octets of a close whose first half came before.
const KEPT_BACK: Case = Case {
    ring: 4,
    rounds: &[
        &[(1, &[]), (1, &[Do::IsOnePart])],
        &[(1, &[Do::Hear(&GREETING)])],
        &[
            (1, &[]),
            (
                1,
                &[
                    Do::Call(Act::Begin, Due::Done),
                    Do::Call(Act::Beat, Due::Done),
                ],
            ),
        ],
        &[(1, &[Do::Hear(&CLOSE_HEAD)])],
    ],
    end: Some(Ended {
        left: 6,
        again: Some((
            CloseReason::PassesMissing { made: 1, steps: 3 },
            &[Do::Call(Act::Beat, Due::Done), Do::Hear(&CLOSE_TAIL)],
        )),
        ..CLOSED
    }),
    ..USUAL
};

#[test]
fn a_pass_is_kept_back(rt: HostRuntime) {
    assert!(rt; goes(&rt, rt.alloc(), &KEPT_BACK));
}

/// Nothing moves units but the steps.
const FILLED: Case = Case {
    ring: 2,
    rounds: &[&[(
        1,
        &[
            Do::Hear(&GREETING),
            Do::Call(Act::Begin, Due::Done),
            Do::UnitsUpTo(0, 2),
            Do::Unit(None),
            Do::Call(Act::Beat, Due::Done),
            Do::UnitsUpTo(2, 4),
            Do::Unit(None),
        ],
    )]],
    ..USUAL
};

#[test]
fn the_ring_is_filled_at_each_step(rt: HostRuntime) {
    assert!(rt; goes(&rt, rt.alloc(), &FILLED));
}

/// All entries are kept, also where somebody asks to forget them.
const KEPT: Case = Case {
    ring: 4,
    rounds: &[&[(
        1,
        &[
            Do::Hear(&GREETING),
            Do::Call(Act::Begin, Due::Done),
            Do::KeepAll,
            Do::Call(Act::Beat, Due::Done),
            Do::Is(Look::Entries(3)),
        ],
    )]],
    end: Some(Ended {
        phase: Phase::Running,
        left: 4,
        looks: &[Look::Entries(3)],
        ..CLOSED
    }),
    ..USUAL
};

#[test]
fn all_entries_are_kept(rt: HostRuntime) {
    assert!(rt; goes(&rt, rt.alloc(), &KEPT));
}

/// Our close goes out, and the connection has not ended before the peer's has come.
const CLOSES: Case = Case {
    ring: 4,
    rounds: &[&[(
        1,
        &[
            Do::Hear(&GREETING),
            Do::Shut,
            Do::Is(Look::Phase(Phase::Closing)),
            Do::Units(2, (3, false)),
            Do::Hear(&CLOSE),
            Do::Units(3, (3, true)),
        ],
    )]],
    ..USUAL
};

#[test]
fn a_close_is_waited_for(rt: HostRuntime) {
    assert!(rt; goes(&rt, rt.alloc(), &CLOSES));
}

/// The journal has room for the peer's open alone. Our close goes out nevertheless, and the peer's ends the connection.
const FULL: Case = Case {
    ring: 4,
    limit: 1,
    rounds: &[&[(
        1,
        &[
            Do::Hear(&GREETING),
            Do::Call(Act::Begin, Due::Refused(Refusal::JournalFull)),
            Do::Shut,
            Do::Hear(&CLOSE),
        ],
    )]],
    end: Some(Ended { left: 3, ..CLOSED }),
    ..USUAL
};

#[test]
fn a_full_journal_is_closed_as_agreed(rt: HostRuntime) {
    assert!(rt; goes(&rt, rt.alloc(), &FULL));
}

/// Also more than a pass has parts: all are written in turn.
const MANY_UNITS: Case = Case {
    ring: 65536,
    limit: 70000,
    rounds: &[&[(
        1,
        &[
            Do::Hear(&GREETING),
            Do::Beats(66_000),
            Do::UnitsUpTo(0, 65_536),
            Do::Unit(None),
            Do::Units(65_536, (66_002, false)),
            Do::UnitsUpTo(65_536, 66_002),
        ],
    )]],
    ..USUAL
};

#[test]
fn more_units_than_the_ring_has_places(rt: HostRuntime) {
    assert!(rt; goes(&rt, rt.alloc(), &MANY_UNITS));
}

/// Starts a delivery, learns its outcome, and awaits a unit, where each has to be waited for.
const STARTS_AND_LEARNS: &[Do] = &[
    Do::WaitForBoth(Act::Start(0, [1, 0]), Act::Learn(0)),
    Do::Units(6, (7, false)),
];

/// One thread waits; another tells it each thing once it is waited for. That a unit is waited for is likely then, and not seen.
const WAITS: Case = Case {
    rounds: &[
        LINK,
        &[
            (
                1,
                &[
                    Do::ComesTo(6),
                    Do::Hear(&FLOW),
                    Do::ComesTo(8),
                    Do::Hear(&ACCEPTED),
                    Do::ComesTo(10),
                    Do::Pause(1000),
                    Do::Call(Act::Beat, Due::Done),
                ],
            ),
            (1, STARTS_AND_LEARNS),
        ],
    ],
    ..USUAL
};

#[test]
fn calls_wait_for_what_comes(rt: HostRuntime) {
    assert!(rt; goes(&rt, rt.alloc(), &WAITS));
}

/// The same, where there is credit and no window at first.
const WAITS_SHUT: Case = Case {
    rounds: &[
        LINK,
        &[(
            1,
            &[
                Do::Hear(&FLOW_SHUT),
                Do::Call(Act::Start(0, [1, 0]), Due::Refused(Refusal::NoWindow)),
            ],
        )],
        &[
            (
                1,
                &[
                    Do::ComesTo(7),
                    Do::Hear(&FLOW),
                    Do::ComesTo(9),
                    Do::Hear(&ACCEPTED),
                    Do::ComesTo(11),
                    Do::Pause(1000),
                    Do::Call(Act::Beat, Due::Done),
                ],
            ),
            (1, STARTS_AND_LEARNS),
        ],
    ],
    ..USUAL
};

#[test]
fn a_call_waits_for_a_window(rt: HostRuntime) {
    assert!(rt; goes(&rt, rt.alloc(), &WAITS_SHUT));
}
