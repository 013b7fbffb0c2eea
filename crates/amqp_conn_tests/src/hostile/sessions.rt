//! Whole sessions, cut short at each octet and with each octet replaced in turn: each answer is one that may be given there, and so are those of further calls.

use crate::act::Act;
use crate::hostile::frames::*;
use crate::hostile::peer::{
    Damage, NEW, Script, Told, UNHARMED, answers, connection, does, goes, last_tells,
};
use amqp_conn::{Conn, Phase};
use std::alloc::Global;

/// The peer sends in three transfers.
pub(crate) const IN_PARTS: Script = &[
    HEADER,
    OPEN,
    OWN_BEGIN,
    BEGIN,
    SENDS,
    OWN_RECEIVER,
    OWN_FIVE,
    ONE,
    TWO,
    OWN_REFRESH,
    THREE,
    OWN_TAKE,
    OWN_ACCEPT,
    SETTLES,
    DETACH,
    END,
    CLOSE,
];

/// A session, how many octets it has, and how often each of the four came of it (`comes`) where each of its octets is replaced by each of four.
type Session = (Script, usize, [usize; 4]);

/// The peer receives; it sends in one transfer; in three; the link on which it receives is put aside and rejoined.
pub(crate) const SESSIONS: &[Session] = &[
    (
        &[
            HEADER, OPEN, OWN_BEGIN, BEGIN, OWN_SENDER, RECEIVES, CREDIT, OWN_SEND, ACCEPTED,
            OWN_LEARN, DETACH, END, CLOSE,
        ],
        171,
        [0, 480, 0, 204],
    ),
    (
        &[
            HEADER,
            OPEN,
            BEGIN,
            OWN_BEGIN,
            SENDS,
            OWN_RECEIVER,
            OWN_TWO,
            WHOLE,
            OWN_TAKE,
            OWN_ACCEPT,
            SETTLES,
            DETACH,
            END,
            CLOSE,
        ],
        171,
        [0, 497, 2, 185],
    ),
    (IN_PARTS, 217, [0, 633, 2, 233]),
    (
        &[
            HEADER,
            OPEN,
            OWN_BEGIN,
            BEGIN,
            OWN_SENDER,
            RECEIVES,
            CREDIT,
            OWN_SEND,
            AWAY,
            OWN_REJOIN,
            HOLDS,
            CREDIT,
            OWN_RESUME,
            SETTLED,
            OWN_LEARN_AGAIN,
            DETACH,
            END,
            CLOSE,
        ],
        246,
        [0, 701, 0, 283],
    ),
];

/// Nothing went wrong.
pub(crate) fn is_plain(told: Told) -> bool {
    told.good && told.fault == 0 && told.violations == 0 && told.refusals == 0
}

/// How many octets the session has, which goes as it should; 0 where it does not.
fn whole(alloc: Global, conn: &mut Conn, script: Script) -> usize {
    let told = goes(alloc, conn, script, UNHARMED, NEW);
    if is_plain(told) && conn.phase() == Phase::Closed {
        told.at
    } else {
        0
    }
}

/// What is left is popped, and then nothing is left.
fn leaves_nothing(conn: &mut Conn) -> bool {
    let Ok(count) = conn.left_len() else {
        return false;
    };
    for _ in 0..count {
        match conn.pop_left() {
            Ok(Some(left)) => drop(left),
            _ => return false,
        }
    }
    matches!(conn.left_len(), Ok(0))
}

/// Its octets end: it is closed, and each further call answers so.
fn is_lost(alloc: Global, conn: &mut Conn) -> bool {
    let units = conn.logged().put_out();
    conn.lost();
    let closed = conn.phase() == Phase::Closed;
    let refused = does(alloc, conn, Act::Begin) == 1 && does(alloc, conn, Act::Take(0)) == 1;
    let not_open = conn.close(None).is_err();
    let silent = conn.logged().put_out() == units;
    let popped = !last_tells(conn, 0, b"-") && conn.pop_unit().is_none();
    closed
        && refused
        && not_open
        && silent
        && popped
        && answers(alloc, conn)
        && leaves_nothing(conn)
}

/// All of the octets before the end are taken, and the rest is awaited.
fn is_cut(alloc: Global, conn: &mut Conn, script: Script, damage: Damage) -> bool {
    let told = goes(alloc, conn, script, damage, NEW);
    let open = conn.phase() != Phase::Closed;
    is_plain(told) && told.at == damage.end && open && is_lost(alloc, conn)
}

/// What comes of a session: 0 where an answer was none that may be given, 1 where a fault ended it, 2 where a violation was answered, 3 where all was taken.
fn comes(alloc: Global, conn: &mut Conn, script: Script, damage: Damage) -> usize {
    let told = goes(alloc, conn, script, damage, NEW);
    let closed = conn.phase() == Phase::Closed;
    let good = told.good && (told.fault == 0 || closed) && answers(alloc, conn);
    if !good {
        0
    } else if told.fault != 0 {
        1
    } else if told.violations != 0 {
        2
    } else {
        3
    }
}

/// What is asked of a session.
#[derive(Clone, Copy)]
enum Ask {
    Length,
    IsCut,
    Comes,
}

/// What a new connection answers to it.
fn asked(alloc: Global, script: Script, ask: Ask, damage: Damage) -> usize {
    match connection(alloc, 99) {
        Some(mut conn) => {
            let answer = match ask {
                Ask::Length => whole(alloc, &mut conn, script),
                Ask::IsCut => usize::from(is_cut(alloc, &mut conn, script, damage)),
                Ask::Comes => comes(alloc, &mut conn, script, damage),
            };
            drop(conn);
            answer
        }
        None => 0,
    }
}

/// At how many places the session may be cut short.
fn cuts(alloc: Global, script: Script) -> usize {
    let mut so = 0usize;
    for end in 0..asked(alloc, script, Ask::Length, UNHARMED) {
        let damage = Damage {
            end,
            place: usize::MAX,
            octet: 0,
        };
        so = so.wrapping_add(asked(alloc, script, Ask::IsCut, damage));
    }
    so
}

/// How often each of the four came, with each octet replaced by each of these.
fn replaced(alloc: Global, script: Script, octets: &[u8]) -> [usize; 4] {
    let mut counts = [0usize; 4];
    let length = asked(alloc, script, Ask::Length, UNHARMED);
    for number in 0..length.wrapping_mul(4) {
        let damage = Damage {
            end: usize::MAX,
            place: number / 4,
            octet: octets.get(number % 4).copied().unwrap_or(0),
        };
        if let Some(count) = counts.get_mut(asked(alloc, script, Ask::Comes, damage)) {
            *count = count.wrapping_add(1);
        }
    }
    counts
}

#[test]
fn sessions_that_are_cut_short(rt: HostRuntime) {
    for (script, length, _) in SESSIONS {
        assert!(rt; cuts(rt.alloc(), script) == *length);
    }
}

/// None came of an answer that may not be given.
#[test]
fn sessions_with_an_octet_replaced(rt: HostRuntime) {
    for (script, _, counts) in SESSIONS {
        assert!(rt; replaced(rt.alloc(), script, &[0x00, 0x7f, 0x80, 0xff]) == *counts);
    }
}
