//! Links that are put aside, by either end, and that are rejoined: what waits on them is resumed.

use crate::act::{Act, State};
use crate::growth::octets::*;
use crate::growth::said::Said;
use crate::growth::steps::{Do, Way, goes, goes_each_way};
use amqp_conn::{Role, Verdict};

const MAPPED: &[(Do, Said)] = &[
    (Do::Opened(65536), Said::Nothing),
    (Do::Own(Act::Begin), Said::Nothing),
    (Do::Hear(BEGIN), Said::Nothing),
];

/// Four deliveries are put aside, and brought back.
const SUSPENDED: &[(Do, Said)] = &[
    (Do::Own(Act::Attach(Role::Sender, "q")), Said::Link(0)),
    (Do::Hear(RECEIVES), Said::Attached(0)),
    (Do::Hear(CREDIT), Said::Nothing),
    (Do::Own(Act::Start(0, 1, false, false)), Said::Delivery(0)),
    (Do::Own(Act::Start(0, 2, false, false)), Said::Delivery(1)),
    (Do::Own(Act::Start(0, 3, false, false)), Said::Delivery(2)),
    (Do::Own(Act::Start(0, 4, false, false)), Said::Delivery(3)),
    (
        Do::Own(Act::Dispose(Role::Sender, 0, 0, false, State::Rejected)),
        Said::Nothing,
    ),
    (Do::Own(Act::Suspend(0)), Said::Suspended(4)),
    (Do::Own(Act::Suspend(0)), Said::Refused(6)),
    (Do::Hear(AWAY), Said::Gone(0)),
    (Do::Own(Act::Rejoin(Role::Sender, "q", OURS)), Said::Link(1)),
];

const OURS: &[(u8, State)] = &[
    (1, State::Rejected),
    (2, State::None),
    (3, State::None),
    (4, State::None),
];

/// Each is resumed as the peer tells of it. Then the peer puts the link aside.
const RESUMED_ALL: &[(Do, Said)] = &[
    (Do::Own(Act::Resume(1, 2, true)), Said::Refused(6)),
    (Do::Hear(AGAIN), Said::Attached(1)),
    (Do::Hear(CREDIT), Said::Nothing),
    (
        Do::Own(Act::Resume(1, 1, false)),
        Said::Resumed(Verdict::Absent),
    ),
    (
        Do::Own(Act::Resume(1, 2, true)),
        Said::Resumed(Verdict::Outcome),
    ),
    (
        Do::Own(Act::Resume(1, 3, false)),
        Said::Resumed(Verdict::Partial),
    ),
    (
        Do::Own(Act::Resume(1, 4, false)),
        Said::Resumed(Verdict::Held),
    ),
    (Do::Own(Act::Resume(1, 4, false)), Said::Refused(29)),
    (Do::Own(Act::Start(1, 3, false, false)), Said::Delivery(7)),
    (Do::Hear(AWAY), Said::Parted(1, 2)),
    (Do::Own(Act::End), Said::Nothing),
];

/// What was taken on a link is brought back, and the peer's attach answers; or the peer's comes first.
const ASKED: &[(Do, Said)] = &[
    (
        Do::Own(Act::Rejoin(Role::Receiver, "r", TAKEN)),
        Said::Link(0),
    ),
    (Do::Hear(SENDS), Said::Attached(0)),
];

const OFFERED: &[(Do, Said)] = &[
    (Do::Hear(SENDS), Said::Offered(0)),
    (
        Do::Own(Act::Rejoin(Role::Receiver, "r", TAKEN)),
        Said::Link(0),
    ),
];

const TAKEN: &[(u8, State)] = &[(1, State::Accepted), (5, State::Rejected)];

/// One is resumed by the peer, one is taken and one is not.
const TAKEN_AGAIN: &[(Do, Said)] = &[
    (Do::Own(Act::Grant(0, 5, true)), Said::Nothing),
    (Do::Hear(RESUMED), Said::Nothing),
    (Do::Hear(FRESH), Said::Ready(0, 1)),
    (Do::Own(Act::Take(0)), Said::Taken(1, 5)),
    (Do::Hear(FRESHER), Said::Ready(0, 2)),
    (
        Do::Own(Act::Dispose(Role::Receiver, 1, 1, false, State::Accepted)),
        Said::Nothing,
    ),
];

const WE_LEAVE: &[(Do, Said)] = &[
    (Do::Own(Act::Suspend(0)), Said::Suspended(2)),
    (Do::Hear(LEAVES), Said::Gone(0)),
    (Do::Left, Said::Taken(2, 7)),
    (Do::Left, Said::Nothing),
];

const PEER_LEAVES: &[(Do, Said)] = &[
    (Do::Hear(LEAVES), Said::Parted(0, 2)),
    (Do::Left, Said::Taken(2, 7)),
    (Do::Left, Said::Nothing),
];

#[test]
fn every_growth_refused_of_deliveries_that_are_resumed(rt: HostRuntime) {
    assert!(rt; goes_each_way(rt.alloc(), &[MAPPED, SUSPENDED, RESUMED_ALL]));
}

#[test]
fn every_growth_refused_of_a_link_that_we_put_aside(rt: HostRuntime) {
    assert!(rt;
        goes(
            rt.alloc(),
            &[MAPPED, ASKED, TAKEN_AGAIN, WE_LEAVE],
            Way::Lent
        )
    );
}

#[test]
fn every_growth_refused_of_a_link_that_the_peer_puts_aside(rt: HostRuntime) {
    assert!(rt;
        goes(
            rt.alloc(),
            &[MAPPED, OFFERED, TAKEN_AGAIN, PEER_LEAVES],
            Way::Moved
        )
    );
}
