//! Each violation is answered by the operation of its kind, each fault by a close, with the condition of the standard; what comes then is as it should be.

use crate::hostile::frames::*;
use crate::hostile::peer::{
    BEGUN, HEADED, NEW, NOTHING, OPENED, Script, UNHARMED, answers, connection, goes, last_tells,
};
use amqp_conn::{Conn, Phase};
use std::alloc::Global;

/// The number of a violation or a fault, the descriptor of the performative that answers it (24 a close, 23 an end, 22 a detach) with its condition, and two
/// scripts.
type Row = (u32, u32, &'static [u8], Script, Script);

/// The two deliveries that came before the third, which is without credit, are there to be taken.
const VIOLATIONS: &[Row] = &[
    (
        3,
        23,
        b"amqp:session:unattached-handle",
        BEGUN,
        &[NO_LINK_FLOW],
    ),
    (
        3,
        23,
        b"amqp:session:unattached-handle",
        BEGUN,
        &[NO_LINK_TRANSFER],
    ),
    (
        3,
        23,
        b"amqp:session:unattached-handle",
        BEGUN,
        &[NO_LINK_DETACH],
    ),
    (
        3,
        23,
        b"amqp:session:unattached-handle",
        BEGUN,
        &[SENDS, WHOLE],
    ),
    (
        4,
        23,
        b"amqp:session:handle-in-use",
        BEGUN,
        &[SENDS, HANDLE_TAKEN],
    ),
    (
        5,
        23,
        b"amqp:not-allowed",
        BEGUN,
        &[SENDS, OWN_RECEIVER, NAME_TAKEN],
    ),
    (6, 23, b"amqp:invalid-field", BEGUN, &[TRANSFERS_AHEAD]),
    (
        6,
        23,
        b"amqp:invalid-field",
        BEGUN,
        &[OWN_SENDER, RECEIVES, COUNT_AHEAD],
    ),
    (
        7,
        23,
        b"amqp:session:window-violation",
        BEGUN,
        &[SENDS, OWN_RECEIVER, OWN_FIVE, WHOLE, SECOND, THIRD],
    ),
    (8, 23, b"amqp:invalid-field", BEGUN, &[COUNTLESS]),
    (
        8,
        23,
        b"amqp:invalid-field",
        BEGUN,
        &[SENDS, OWN_RECEIVER, OWN_FIVE, IDLESS],
    ),
    (
        9,
        23,
        b"amqp:invalid-field",
        BEGUN,
        &[SENDS, OWN_RECEIVER, OWN_FIVE, WHOLE, SKIPS],
    ),
    (
        9,
        23,
        b"amqp:invalid-field",
        BEGUN,
        &[SENDS, OWN_RECEIVER, OWN_FIVE, ONE, OTHER_ID],
    ),
    (
        10,
        23,
        b"amqp:invalid-field",
        BEGUN,
        &[SENDS, OWN_RECEIVER, OWN_FIVE, WHOLE, SAME_TAG],
    ),
    (
        11,
        23,
        b"amqp:invalid-field",
        BEGUN,
        &[SENDS_SETTLED, OWN_RECEIVER, OWN_FIVE, WHOLE],
    ),
    (
        12,
        22,
        b"amqp:link:transfer-limit-exceeded",
        BEGUN,
        &[SENDS, OWN_RECEIVER, WHOLE],
    ),
    (
        12,
        22,
        b"amqp:link:transfer-limit-exceeded",
        BEGUN,
        &[
            SENDS,
            OWN_RECEIVER,
            OWN_TWO,
            WHOLE,
            SECOND,
            OWN_REFRESH,
            THIRD,
        ],
    ),
    (
        12,
        22,
        b"amqp:link:transfer-limit-exceeded",
        BEGUN,
        &[
            SENDS,
            OWN_RECEIVER,
            OWN_TWO,
            WHOLE,
            SECOND,
            OWN_REFRESH,
            THIRD,
            OWN_TAKE,
            OWN_TAKE,
        ],
    ),
    (
        13,
        22,
        b"amqp:link:message-size-exceeded",
        BEGUN,
        &[SENDS, OWN_NARROW, OWN_FIVE, WHOLE],
    ),
    (14, 23, b"amqp:invalid-field", BEGUN, &[BACKWARDS]),
];

/// Those from 21 on are faults of the framer. Nothing goes out behind a bad header.
const FAULTS: &[Row] = &[
    (1, 0, b"", NOTHING, &[OTHER_HEADER]),
    (3, 24, b"amqp:not-allowed", HEADED, &[BEGIN]),
    (3, 24, b"amqp:not-allowed", OPENED, &[OPEN]),
    (3, 24, b"amqp:not-allowed", BEGUN, &[BEGIN]),
    (3, 24, b"amqp:not-allowed", OPENED, &[SENDS]),
    (3, 24, b"amqp:not-allowed", OPENED, &[BEGIN, NO_LINK_DETACH]),
    (3, 24, b"amqp:not-allowed", BEGUN, &[END, BEGIN]),
    (
        4,
        24,
        b"amqp:connection:framing-error",
        HEADED,
        &[OPEN_ELSEWHERE],
    ),
    (4, 24, b"amqp:connection:framing-error", BEGUN, &[ELSEWHERE]),
    (21, 24, b"amqp:connection:framing-error", BEGUN, &[SHORT]),
    (22, 24, b"amqp:connection:framing-error", BEGUN, &[OFFSET]),
    (23, 24, b"amqp:connection:framing-error", BEGUN, &[TOO_BIG]),
    (24, 24, b"amqp:connection:framing-error", BEGUN, &[KIND]),
    (25, 24, b"amqp:decode-error", BEGUN, &[NO_BODY]),
    (25, 24, b"amqp:decode-error", BEGUN, &[CUT_LIST]),
    (25, 24, b"amqp:decode-error", BEGUN, &[BEHIND_END]),
    (25, 24, b"amqp:decode-error", HEADED, &[NO_BODY]),
];

/// A session of nine steps, each of which but the last may be the last that the journal takes.
const FULL: Row = (
    5,
    24,
    b"amqp:resource-limit-exceeded",
    BEGUN,
    &[SENDS, OWN_RECEIVER, OWN_TWO, WHOLE, DETACH, END, CLOSE],
);

/// The violation of the row is told, as the only one, or the fault; it is answered so, and so are further calls.
fn holds(alloc: Global, conn: &mut Conn, row: &Row) -> bool {
    let (due, code, condition, first, then) = *row;
    let begun = goes(alloc, conn, first, UNHARMED, NEW);
    let told = goes(alloc, conn, then, UNHARMED, begun);
    let answered = last_tells(conn, code, condition);
    let phase = conn.phase();
    let is_so = if code == 22 || code == 23 {
        told.violation == due
            && told.violations == 1
            && told.fault == 0
            && told.refusals == 0
            && phase == Phase::Running
    } else {
        told.fault == due && told.violations == 0 && phase == Phase::Closed
    };
    told.good && answered && is_so && answers(alloc, conn)
}

/// The same of a new connection, whose journal takes so many steps.
fn is_so(alloc: Global, limit: u32, row: &Row) -> bool {
    match connection(alloc, limit) {
        Some(mut conn) => {
            let so = holds(alloc, &mut conn, row);
            drop(conn);
            so
        }
        None => false,
    }
}

#[test]
fn each_violation_is_answered_with_its_condition(rt: HostRuntime) {
    for row in VIOLATIONS {
        assert!(rt; is_so(rt.alloc(), 99, row));
    }
}

#[test]
fn each_fault_closes_with_its_condition(rt: HostRuntime) {
    for row in FAULTS {
        assert!(rt; is_so(rt.alloc(), 99, row));
    }
}

#[test]
fn a_full_journal_closes(rt: HostRuntime) {
    for limit in 1..10 {
        assert!(rt; is_so(rt.alloc(), limit, &FULL) == (limit < 9));
    }
}
