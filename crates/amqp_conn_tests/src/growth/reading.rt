//! What takes no memory, told by the count of growths. `a_session_that_stands` and `a_session_that_is_read` go the same way; the second asks all readers
//! after each step, and then forgets all entries, pops all units and all that was left. It makes as many growths as the first.
//!
//! `a_delivery_that_waits` and `a_delivery_that_is_taken` differ by a take of a payload that came in one transfer: by one growth, that of the box of what
//! was taken. `parts_that_wait` and `parts_that_are_taken` differ by two, since the
//! payload that came in three is given as its slices, whose list is one.

use crate::act::Act;
use crate::growth::octets::*;
use crate::growth::said::Said;
use crate::growth::session::{BEGUN, LEFT, PEER_ENDS};
use crate::growth::steps::{Do, Way, goes_alone};

/// Eight units, and four things that were left.
const POPPED: &[(Do, Said)] = &[
    (Do::Forget, Said::Nothing),
    (Do::Unit, Said::Unit(0)),
    (Do::Unit, Said::Unit(1)),
    (Do::Unit, Said::Unit(2)),
    (Do::Unit, Said::Unit(3)),
    (Do::Unit, Said::Unit(4)),
    (Do::Unit, Said::Unit(5)),
    (Do::Unit, Said::Unit(6)),
    (Do::Unit, Said::Unit(7)),
    (Do::Unit, Said::Nothing),
    (Do::Left, Said::Learned(0, true)),
    (Do::Left, Said::Learned(1, true)),
    (Do::Left, Said::Taken(0, 11)),
    (Do::Left, Said::Taken(1, 5)),
    (Do::Left, Said::Nothing),
];

const WAITING: &[(Do, Said)] = &[(Do::Hear(PART_ALONE), Said::Ready(1, 0))];

const PARTS_WAIT: &[(Do, Said)] = &[
    (Do::Hear(PART_ONE), Said::Nothing),
    (Do::Hear(PART_TWO), Said::Nothing),
    (Do::Hear(PART_LAST), Said::Ready(1, 0)),
];

const TAKEN: &[(Do, Said)] = &[(Do::Own(Act::Take(1)), Said::Taken(0, 11))];

#[test]
fn every_growth_refused_of_a_session_that_stands(rt: HostRuntime) {
    assert!(rt; goes_alone(rt.alloc(), &[BEGUN, LEFT, PEER_ENDS], Way::Unread));
}

#[test]
fn every_growth_refused_of_a_session_that_is_read(rt: HostRuntime) {
    assert!(rt; goes_alone(rt.alloc(), &[BEGUN, LEFT, PEER_ENDS, POPPED], Way::Read));
}

#[test]
fn every_growth_refused_of_a_delivery_that_waits(rt: HostRuntime) {
    assert!(rt; goes_alone(rt.alloc(), &[BEGUN, WAITING], Way::Unread));
}

#[test]
fn every_growth_refused_of_a_delivery_that_is_taken(rt: HostRuntime) {
    assert!(rt; goes_alone(rt.alloc(), &[BEGUN, WAITING, TAKEN], Way::Unread));
}

#[test]
fn every_growth_refused_of_parts_that_wait(rt: HostRuntime) {
    assert!(rt; goes_alone(rt.alloc(), &[BEGUN, PARTS_WAIT], Way::Unread));
}

#[test]
fn every_growth_refused_of_parts_that_are_taken(rt: HostRuntime) {
    assert!(rt; goes_alone(rt.alloc(), &[BEGUN, PARTS_WAIT, TAKEN], Way::Unread));
}
