//! What no clause says of consumers: what ends them, what they do with each delivery, and that they run at once.

use super::consuming::{Consumers, Way};
use super::course::{Case, Round, SESSION, USUAL, goes};
use super::ending::{CLOSED, Ended};
use super::looks::Look;
use super::playing::{Do, Due};
use crate::acts::{Act, State};
use crate::octets::{CLOSE, DELIVERIES, FIRST_OF_ALL, THREE, TWO_MORE};
use amqp_rules::refusal::Refusal;
use amqp_shared::{Renewal, Terms};

/// A delivery of receiving mode second and one that came settled are ready on link 1: nine steps with those before.
const READY: Round = &[(
    1,
    &[Do::Call(Act::Grant(1, 2), Due::Done), Do::Hear(&DELIVERIES)],
)];

/// One consumer of link 1 by `run_consumers`, with a credit of two, that consumes two deliveries.
const ONE: Consumers = Consumers {
    works: &[Way::Ends],
    terms: Terms {
        link: 1,
        credit: 2,
        renewal: Renewal::Each,
    },
    more: None,
    count: 2,
    left: 0,
    made: 4,
    most: 2,
    stopped: Refusal::NotRunning,
};

/// The journal has the disposition of the first and the grant behind it.
const SECOND_AND_SETTLED: Case = Case {
    ring: 4,
    rounds: &[SESSION, READY, &[(1, &[Do::Consume(&ONE)])]],
    end: Some(Ended {
        left: 8,
        looks: &[
            Look::Entries(13),
            Look::Stands(Act::Dispose(0, 0, State::GivenBack), 3),
            Look::Stands(Act::Grant(1, 2), 2),
        ],
        ..CLOSED
    }),
    ..USUAL
};

#[test]
fn one_of_mode_second_and_a_settled_one(rt: HostRuntime) {
    assert!(rt; goes(&rt, rt.alloc(), &SECOND_AND_SETTLED));
}

/// The consumer grants and goes on: it takes the second delivery.
const SETTLED_MEANWHILE: Case = Case {
    ring: 4,
    rounds: &[
        SESSION,
        READY,
        &[(
            1,
            &[
                Do::Consume(&Consumers {
                    works: &[Way::Settles],
                    made: 3,
                    ..ONE
                }),
                Do::Is(Look::Entries(13)),
                Do::Is(Look::Stands(Act::Grant(1, 2), 2)),
            ],
        )],
    ],
    ..USUAL
};

#[test]
fn the_peer_settles_meanwhile(rt: HostRuntime) {
    assert!(rt; goes(&rt, rt.alloc(), &SETTLED_MEANWHILE));
}

/// Two of three have a delivery each, and the third has none.
const AT_ONCE: Case = Case {
    ring: 4,
    rounds: &[
        SESSION,
        READY,
        &[(
            1,
            &[Do::Consume(&Consumers {
                works: &[Way::Meets, Way::Meets, Way::Meets],
                made: 3,
                most: 1,
                ..ONE
            })],
        )],
    ],
    ..USUAL
};

#[test]
fn two_consumers_at_once(rt: HostRuntime) {
    assert!(rt; goes(&rt, rt.alloc(), &AT_ONCE));
}

/// The link has more credit than the consumer is to grant; and there is no such link.
const STOPPED_BY_A_GRANT: Case = Case {
    ring: 4,
    rounds: &[
        SESSION,
        READY,
        &[(
            1,
            &[
                Do::Call(Act::Grant(1, 5), Due::Done),
                Do::Consume(&Consumers {
                    works: &[Way::Accepts],
                    count: 1,
                    made: 2,
                    most: 1,
                    stopped: Refusal::CreditRecedes,
                    ..ONE
                }),
                Do::Consume(&Consumers {
                    works: &[Way::Accepts],
                    terms: Terms {
                        link: 9,
                        credit: 2,
                        renewal: Renewal::Each,
                    },
                    count: 0,
                    made: 0,
                    most: 0,
                    stopped: Refusal::NoLink,
                    ..ONE
                }),
            ],
        )],
    ],
    ..USUAL
};

#[test]
fn a_consumer_tells_which_refusal_stopped_it(rt: HostRuntime) {
    assert!(rt; goes(&rt, rt.alloc(), &STOPPED_BY_A_GRANT));
}

/// Two consumers begin when the peer has closed: together they have both deliveries, as what the link left.
const LEFT_TO_TWO: Case = Case {
    ring: 4,
    rounds: &[
        SESSION,
        READY,
        &[(
            1,
            &[
                Do::Hear(&CLOSE),
                Do::Consume(&Consumers {
                    works: &[Way::Accepts, Way::Accepts],
                    count: 0,
                    left: 2,
                    made: 0,
                    most: 0,
                    ..ONE
                }),
            ],
        )],
    ],
    ..USUAL
};

#[test]
fn deliveries_come_with_a_close(rt: HostRuntime) {
    assert!(rt; goes(&rt, rt.alloc(), &LEFT_TO_TWO));
}

/// Three dispositions tell of five deliveries, and the credit is granted once; then the work hears that they were told, without the lock, and no other is taken: the
/// sixth is what the link left.
const SETTLED_AT_ONCE: Case = Case {
    ring: 4,
    rounds: &[
        SESSION,
        &[(
            1,
            &[
                Do::Call(Act::Grant(1, 6), Due::Done),
                Do::Hear(&THREE),
                Do::Hear(&TWO_MORE),
                Do::Consume(&Consumers {
                    works: &[Way::Chooses],
                    terms: Terms {
                        link: 1,
                        credit: 5,
                        renewal: Renewal::Each,
                    },
                    more: Some(4),
                    count: 5,
                    left: 1,
                    made: 9,
                    most: 5,
                    ..ONE
                }),
                Do::Is(Look::Stands(Act::Dispose(0, 1, State::Accepted), 4)),
                Do::Is(Look::Stands(Act::Dispose(2, 2, State::Released), 3)),
                Do::Is(Look::Stands(Act::Dispose(3, 4, State::Accepted), 2)),
                Do::Is(Look::Stands(Act::Grant(1, 5), 1)),
            ],
        )],
    ],
    ..USUAL
};

#[test]
fn a_batch_is_settled_at_once(rt: HostRuntime) {
    assert!(rt; goes(&rt, rt.alloc(), &SETTLED_AT_ONCE));
}

/// Four deliveries may begin, and one has.
const ONE_OF_FOUR: Round = &[(
    1,
    &[
        Do::Call(Act::Grant(1, 4), Due::Done),
        Do::Hear(&FIRST_OF_ALL),
    ],
)];

/// One consumer with a credit of four that takes five deliveries, tells of four of them, and grants once.
const FOLLOWER: Consumers = Consumers {
    works: &[Way::Follows],
    terms: Terms {
        link: 1,
        credit: 4,
        renewal: Renewal::AtZero,
    },
    more: Some(0),
    count: 5,
    made: 10,
    most: 5,
    ..ONE
};

/// Of a credit of four so much is left behind each delivery: two, three, two, three. It is granted again at these places of the journal, counted from its end, and nowhere
/// else.
const AT_HALF: Case = Case {
    ring: 64,
    rounds: &[
        SESSION,
        ONE_OF_FOUR,
        &[(
            1,
            &[
                Do::Consume(&Consumers {
                    terms: Terms {
                        link: 1,
                        credit: 4,
                        renewal: Renewal::AtHalf,
                    },
                    made: 11,
                    ..FOLLOWER
                }),
                Do::Is(Look::Stands(Act::Grant(1, 4), 12)),
                Do::Is(Look::Stands(Act::Grant(1, 4), 5)),
            ],
        )],
    ],
    ..USUAL
};

#[test]
fn credit_is_granted_at_half(rt: HostRuntime) {
    assert!(rt; goes(&rt, rt.alloc(), &AT_HALF));
}

/// Two, one, none, three are left.
const AT_ZERO: Case = Case {
    ring: 64,
    rounds: &[
        SESSION,
        ONE_OF_FOUR,
        &[(
            1,
            &[
                Do::Consume(&FOLLOWER),
                Do::Is(Look::Stands(Act::Grant(1, 4), 5)),
            ],
        )],
    ],
    ..USUAL
};

#[test]
fn credit_is_granted_at_zero(rt: HostRuntime) {
    assert!(rt; goes(&rt, rt.alloc(), &AT_ZERO));
}

/// Two deliveries are taken, and the third operation is refused.
const CALLED_AT_ONCE: Case = Case {
    ring: 4,
    rounds: &[
        SESSION,
        READY,
        &[(1, &[Do::Made(9), Do::TakeThree, Do::Made(11)])],
    ],
    ..USUAL
};

#[test]
fn several_operations_at_once(rt: HostRuntime) {
    assert!(rt; goes(&rt, rt.alloc(), &CALLED_AT_ONCE));
}
