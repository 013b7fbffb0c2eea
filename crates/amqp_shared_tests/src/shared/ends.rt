//! A call that waits returns with its refusal, whatever takes away what it waits for; and writers that wait are told.
//!
//! A thread takes away what others wait for once all wait: each of them makes one step. One waits for credit, one for what the peer tells, and all others for a
//! delivery to take: up to 19, more than sleep at conditions of their own.

use super::course::{Case, LINK, Round, USUAL, goes};
use super::playing::{Before, Do, Due, Steps};
use crate::acts::Act;
use crate::octets::{BAD, DETACHES, END, SENDS_TOO, UNATTACHED};
use amqp_rules::refusal::Refusal;

/// A second link, on which we receive: seven steps with those before.
const BOTH_LINKS: Round = &[(
    1,
    &[Do::Call(Act::ReceivesP(0), Due::Done), Do::Hear(&SENDS_TOO)],
)];

const NOT_ATTACHED: Due = Due::Refused(Refusal::NotAttached);

const NO_LINK: Due = Due::Refused(Refusal::NoLink);

const NOT_MAPPED: Due = Due::Refused(Refusal::NotMapped);

const NOT_RUNNING: Due = Due::Refused(Refusal::NotRunning);

const JOURNAL_FULL: Due = Due::Refused(Refusal::JournalFull);

const TAKES_NO_LINK: Steps = &[Do::Wait(Before::Beat, Act::Take(1), NO_LINK)];

const TAKES_NOT_RUNNING: Steps = &[Do::Wait(Before::Beat, Act::Take(1), NOT_RUNNING)];

const TAKES_JOURNAL_FULL: Steps = &[Do::Wait(Before::Beat, Act::Take(1), JOURNAL_FULL)];

const LEARNS_NO_LINK: Steps = &[Do::Wait(Before::Beat, Act::Learn(0), NO_LINK)];

const LEARNS_NOT_RUNNING: Steps = &[Do::Wait(Before::Beat, Act::Learn(0), NOT_RUNNING)];

const LEARNS_JOURNAL_FULL: Steps = &[Do::Wait(Before::Beat, Act::Learn(0), JOURNAL_FULL)];

const STARTS_NOT_ATTACHED: Steps = &[Do::Wait(Before::Beat, Act::Start(0, [1, 0]), NOT_ATTACHED)];

const STARTS_NO_LINK: Steps = &[Do::Wait(Before::Beat, Act::Start(0, [1, 0]), NO_LINK)];

const STARTS_NOT_MAPPED: Steps = &[Do::Wait(Before::Beat, Act::Start(0, [1, 0]), NOT_MAPPED)];

const STARTS_NOT_RUNNING: Steps = &[Do::Wait(Before::Beat, Act::Start(0, [1, 0]), NOT_RUNNING)];

const STARTS_JOURNAL_FULL: Steps = &[Do::Wait(Before::Beat, Act::Start(0, [1, 0]), JOURNAL_FULL)];

const CASES: [Case; 9] = [
    // We detach.
    Case {
        rounds: &[
            LINK,
            BOTH_LINKS,
            &[
                (1, &[Do::ComesTo(8), Do::Call(Act::Detach, Due::Done)]),
                (1, STARTS_NOT_ATTACHED),
            ],
        ],
        ..USUAL
    },
    // We end the session.
    Case {
        rounds: &[
            LINK,
            BOTH_LINKS,
            &[
                (1, &[Do::ComesTo(28), Do::Call(Act::End, Due::Done)]),
                (1, TAKES_NO_LINK),
                (1, STARTS_NOT_MAPPED),
                (1, LEARNS_NO_LINK),
                (18, TAKES_NO_LINK),
            ],
        ],
        ..USUAL
    },
    // We close the connection.
    Case {
        rounds: &[
            LINK,
            BOTH_LINKS,
            &[
                (1, &[Do::ComesTo(28), Do::Shut]),
                (1, TAKES_NOT_RUNNING),
                (1, STARTS_NOT_RUNNING),
                (1, LEARNS_NOT_RUNNING),
                (18, TAKES_NOT_RUNNING),
            ],
        ],
        ..USUAL
    },
    // The octets end.
    Case {
        rounds: &[
            LINK,
            BOTH_LINKS,
            &[
                (1, &[Do::ComesTo(28), Do::Lose]),
                (1, TAKES_NOT_RUNNING),
                (1, STARTS_NOT_RUNNING),
                (1, LEARNS_NOT_RUNNING),
                (18, TAKES_NOT_RUNNING),
            ],
        ],
        ..USUAL
    },
    // The journal is full.
    Case {
        limit: 29,
        rounds: &[
            LINK,
            BOTH_LINKS,
            &[
                (1, &[Do::ComesTo(28), Do::Call(Act::Beat, Due::Done)]),
                (1, TAKES_JOURNAL_FULL),
                (1, STARTS_JOURNAL_FULL),
                (1, LEARNS_JOURNAL_FULL),
                (18, TAKES_JOURNAL_FULL),
            ],
        ],
        ..USUAL
    },
    // The peer detaches.
    Case {
        rounds: &[
            LINK,
            BOTH_LINKS,
            &[
                (1, &[Do::ComesTo(28), Do::Hear(&DETACHES)]),
                (1, TAKES_NO_LINK),
                (1, STARTS_NO_LINK),
                (1, LEARNS_NO_LINK),
                (18, TAKES_NO_LINK),
            ],
        ],
        ..USUAL
    },
    // The peer ends the session.
    Case {
        rounds: &[
            LINK,
            BOTH_LINKS,
            &[
                (1, &[Do::ComesTo(28), Do::Hear(&END)]),
                (1, TAKES_NO_LINK),
                (1, STARTS_NOT_MAPPED),
                (1, LEARNS_NO_LINK),
                (18, TAKES_NO_LINK),
            ],
        ],
        ..USUAL
    },
    // A frame is bad.
    Case {
        rounds: &[
            LINK,
            BOTH_LINKS,
            &[
                (1, &[Do::ComesTo(10), Do::Faults(&BAD)]),
                (1, TAKES_NOT_RUNNING),
                (1, STARTS_NOT_RUNNING),
                (1, LEARNS_NOT_RUNNING),
            ],
        ],
        ..USUAL
    },
    // A frame violates the session.
    Case {
        rounds: &[
            LINK,
            BOTH_LINKS,
            &[
                (1, &[Do::ComesTo(10), Do::Hear(&UNATTACHED)]),
                (1, TAKES_NO_LINK),
                (1, STARTS_NOT_MAPPED),
                (1, LEARNS_NO_LINK),
            ],
        ],
        ..USUAL
    },
];

#[test]
fn what_waits_is_refused(rt: HostRuntime) {
    for case in CASES.iter() {
        assert!(rt; goes(&rt, rt.alloc(), case));
    }
}
