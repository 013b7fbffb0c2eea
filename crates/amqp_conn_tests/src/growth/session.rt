//! A session with its journal: each operation, and each frame that is heard.

use crate::act::{Act, State};
use crate::growth::octets::*;
use crate::growth::said::Said;
use crate::growth::steps::{Do, Way, goes, goes_each_way};
use amqp_conn::Role;

/// Both ends have begun, `p` is link 0, on which we send, and `q` link 1, on which we receive.
pub(crate) const BEGUN: &[(Do, Said)] = &[
    (Do::Opened(65536), Said::Nothing),
    (Do::Own(Act::Begin), Said::Nothing),
    (Do::Hear(BEGIN), Said::Nothing),
    (Do::Own(Act::Attach(Role::Sender, "p")), Said::Link(0)),
    (Do::Hear(ATTACH_P), Said::Attached(0)),
    (Do::Hear(ATTACH_Q), Said::Offered(1)),
    (Do::Own(Act::Attach(Role::Receiver, "q")), Said::Link(1)),
    (Do::Own(Act::Grant(1, 5, true)), Said::Nothing),
];

/// Deliveries of ours: two that the peer rejects, one of them in three frames, one that was settled, one that is aborted, one that the peer accepts
/// and we settle. Then the credit is drained.
const SENT: &[(Do, Said)] = &[
    (Do::Own(Act::Start(0, 1, false, false)), Said::Refused(14)),
    (Do::Hear(FLOW), Said::Nothing),
    (Do::Own(Act::Offer(0)), Said::Nothing),
    (Do::Own(Act::Start(0, 1, false, false)), Said::Delivery(0)),
    (Do::Own(Act::Start(0, 2, false, true)), Said::Delivery(1)),
    (Do::Own(Act::Carry(0, true)), Said::Nothing),
    (Do::Own(Act::Carry(0, false)), Said::Nothing),
    (Do::Own(Act::Start(0, 3, true, false)), Said::Delivery(2)),
    (Do::Own(Act::Start(0, 4, false, true)), Said::Delivery(3)),
    (Do::Own(Act::Abort(0)), Said::Nothing),
    (Do::Own(Act::Start(0, 5, false, false)), Said::Delivery(4)),
    (Do::Own(Act::Start(0, 5, false, false)), Said::Refused(12)),
    (
        Do::Own(Act::Dispose(Role::Sender, 0, 1, false, State::Rejected)),
        Said::Nothing,
    ),
    (Do::Hear(REJECTED), Said::Nothing),
    (Do::Own(Act::Learn(0)), Said::Learned(0, true)),
    (Do::Own(Act::Learn(0)), Said::Learned(1, true)),
    (Do::Own(Act::Learn(0)), Said::Refused(25)),
    (Do::Hear(ACCEPTED), Said::Nothing),
    (Do::Own(Act::Learn(0)), Said::Learned(4, false)),
    (
        Do::Own(Act::Dispose(Role::Sender, 4, 4, true, State::None)),
        Said::Nothing,
    ),
    (Do::Hear(DRAIN), Said::Nothing),
    (Do::Own(Act::Drained(0)), Said::Nothing),
];

/// Deliveries of the peer's: one in three parts, one whole, one that came settled, one that is aborted, and one that the peer settles.
const RECEIVED: &[(Do, Said)] = &[
    (Do::Hear(PART_ONE), Said::Nothing),
    (Do::Hear(PART_TWO), Said::Nothing),
    (Do::Hear(PART_LAST), Said::Ready(1, 0)),
    (Do::Own(Act::Take(1)), Said::Taken(0, 11)),
    (Do::Hear(WHOLE), Said::Ready(1, 1)),
    (Do::Own(Act::Take(1)), Said::Taken(1, 5)),
    (
        Do::Own(Act::Dispose(Role::Receiver, 0, 1, true, State::Rejected)),
        Said::Nothing,
    ),
    (Do::Hear(SETTLED), Said::Ready(1, 2)),
    (Do::Hear(BROKEN), Said::Nothing),
    (Do::Hear(ABORTED), Said::Nothing),
    (Do::Hear(LAST), Said::Ready(1, 4)),
    (Do::Hear(LAST), Said::Violated(9)),
    (Do::Hear(SETTLES), Said::Nothing),
    (Do::Own(Act::Refresh(true)), Said::Nothing),
    (Do::Own(Act::Beat), Said::Nothing),
];

/// A link is detached by us and one by the peer, which leaves two deliveries; then the session is ended.
const ENDED: &[(Do, Said)] = &[
    (Do::Own(Act::Detach(0)), Said::Nothing),
    (Do::Hear(DETACH_P), Said::Gone(0)),
    (Do::Hear(DETACH_Q), Said::Gone(1)),
    (Do::Own(Act::Take(1)), Said::Refused(5)),
    (Do::Left, Said::Taken(2, 2)),
    (Do::LeftBy(Role::Receiver, 1), Said::Taken(4, 4)),
    (Do::Left, Said::Nothing),
    (Do::Own(Act::End), Said::Nothing),
    (Do::Hear(END), Said::Nothing),
];

/// Deliveries wait, and the peer told of one of ours, when we end the session, or the peer does.
pub(crate) const LEFT: &[(Do, Said)] = &[
    (Do::Hear(FLOW), Said::Nothing),
    (Do::Own(Act::Start(0, 1, false, false)), Said::Delivery(0)),
    (Do::Own(Act::Start(0, 2, false, false)), Said::Delivery(1)),
    (Do::Hear(PART_ONE), Said::Nothing),
    (Do::Hear(PART_TWO), Said::Nothing),
    (Do::Hear(PART_LAST), Said::Ready(1, 0)),
    (Do::Hear(WHOLE), Said::Ready(1, 1)),
    (Do::Hear(REJECTED), Said::Nothing),
];

const WE_END: &[(Do, Said)] = &[(Do::Own(Act::End), Said::Nothing)];

pub(crate) const PEER_ENDS: &[(Do, Said)] = &[(Do::Hear(END), Said::Nothing)];

/// What was left, in the order of the links.
const HAD: &[(Do, Said)] = &[
    (Do::LeftBy(Role::Receiver, 1), Said::Taken(0, 11)),
    (Do::Left, Said::Learned(0, true)),
    (Do::Left, Said::Learned(1, true)),
    (Do::Forget, Said::Nothing),
    (Do::Left, Said::Taken(1, 5)),
    (Do::Left, Said::Nothing),
];

#[test]
fn every_growth_refused_of_operations(rt: HostRuntime) {
    assert!(rt; goes(rt.alloc(), &[BEGUN, SENT, RECEIVED, ENDED], Way::Lent));
}

#[test]
fn every_growth_refused_of_operations_that_move(rt: HostRuntime) {
    assert!(rt; goes(rt.alloc(), &[BEGUN, SENT, RECEIVED, ENDED], Way::Moved));
}

#[test]
fn every_growth_refused_of_an_end_of_ours(rt: HostRuntime) {
    assert!(rt; goes_each_way(rt.alloc(), &[BEGUN, LEFT, WE_END, HAD]));
}

#[test]
fn every_growth_refused_of_an_end_of_the_peers(rt: HostRuntime) {
    assert!(rt; goes_each_way(rt.alloc(), &[BEGUN, LEFT, PEER_ENDS, HAD]));
}
