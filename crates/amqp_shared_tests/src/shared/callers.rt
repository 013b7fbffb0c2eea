//! Many threads call operations on one shared connection while one writes: each receipt stands in the journal that comes back.

use super::course::{Case, LINK, USUAL, goes};
use super::ending::{CLOSED, Ended};
use super::looks::Look;
use super::playing::Do;
use crate::octets::FLOW_MANY;
use amqp_conn::Phase;

/// Four callers start 25 deliveries each. Beside a header, an open, a begin and an attach these are the units, all of them written; beside the peer's open, begin,
/// attach and flow, our begin and attach they are the steps.
const MANY_CALLERS: Case = Case {
    ring: 4,
    rounds: &[
        LINK,
        &[(1, &[Do::Hear(&FLOW_MANY)])],
        &[
            (1, &[Do::Write(104)]),
            (1, &[Do::Starts(0, 25), Do::Made(25)]),
            (1, &[Do::Starts(1, 25), Do::Made(25)]),
            (1, &[Do::Starts(2, 25), Do::Made(25)]),
            (1, &[Do::Starts(3, 25), Do::Made(25)]),
        ],
    ],
    end: Some(Ended {
        phase: Phase::Running,
        taken: 104,
        first_left: None,
        looks: &[Look::Entries(106)],
        ..CLOSED
    }),
    ..USUAL
};

#[test]
fn receipts_of_many_threads(rt: HostRuntime) {
    assert!(rt; goes(&rt, rt.alloc(), &MANY_CALLERS));
}
