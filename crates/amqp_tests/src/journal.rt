//! A journal that forgets: beside its entries, a connection shows and does what it would without.

use crate::acts::{Act, Attach, op};
use crate::conn::{connection, hears, performs};
use crate::octets::GREETING;
use amqp_conn::{Conn, Phase};
use amqp_frames::Role;
use amqp_journal::receipt::Receipt;
use amqp_rules::status::{LinkStatus, WindowView};
use std::alloc::Global;

const ATTACH: Act = Act::Attach(Attach {
    name: "news",
    role: Role::Sender,
    snd: 0,
    rcv: 0,
    count: 0,
});

/// How many operations are done, one after the other.
const CALLS: usize = 4;

/// A begin, an attach, and then beats.
const ACTS: [Act; CALLS] = [Act::Begin, ATTACH, Act::Beat, Act::Beat];

/// The receipt of the begin, which is the step after the peer's open and begin.
const BEGUN: Receipt = Receipt {
    place: 2,
    link: None,
    id: None,
};

/// That of the attach behind it.
const ATTACHED: Receipt = Receipt {
    place: 3,
    link: Some(0),
    id: None,
};

/// What is shown of a connection, but for its journal.
#[derive(Clone, Copy, PartialEq, Eq)]
struct Shown {
    phase: Phase,
    steps: u32,
    put_out: u64,
    max_frame: u32,
    windows: WindowView,
    link: Option<LinkStatus>,
    unsettled: usize,
    /// The number of the unit that is popped then, and its length.
    unit: Option<(u64, usize)>,
}

/// A connection whose peer's open and begin were heard: two steps.
fn begun(alloc: Global) -> Option<Conn> {
    let Ok(mut conn) = connection(alloc) else {
        return None;
    };
    let _ = hears(&mut conn, GREETING);
    Some(conn)
}

/// What the connection shows; its first unit is popped.
fn show(conn: &mut Conn) -> Shown {
    let unit = match conn.pop_unit() {
        Some(unit) => Some((unit.number, unit.bytes.len())),
        None => None,
    };
    let logged = conn.logged();
    Shown {
        phase: conn.phase(),
        steps: logged.steps(),
        put_out: logged.put_out(),
        max_frame: logged.peer_max_frame(),
        windows: logged.endpoint().windows(),
        link: logged.endpoint().status(0),
        unsettled: logged.endpoint().unsettled_len(Role::Sender),
        unit,
    }
}

/// What is shown after each operation, where all entries are forgotten before it, or none ever.
fn shows(alloc: Global, forgets: bool) -> [Option<Shown>; CALLS] {
    let mut shown = [None; CALLS];
    if let Some(mut conn) = begun(alloc) {
        for place in 0..CALLS {
            shown[place] = shows_next(alloc, &mut conn, forgets, ACTS[place]);
        }
        drop(conn);
    }
    shown
}

/// What is shown after the operation, where it was done.
fn shows_next(alloc: Global, conn: &mut Conn, forgets: bool, act: Act) -> Option<Shown> {
    if forgets {
        conn.forget();
    }
    if performs(alloc, conn, act) {
        return Some(show(conn));
    }
    None
}

#[test]
fn readers_show_the_same(rt: HostRuntime) {
    let kept = shows(rt.alloc(), false);
    let forgotten = shows(rt.alloc(), true);
    for place in 0..CALLS {
        assert!(rt; kept[place].is_some() && kept[place] == forgotten[place]);
    }
}

/// How many entries the journal gives after three steps, after these are forgotten, and after two more.
fn lengths(alloc: Global, conn: &mut Conn) -> [usize; 3] {
    performs(alloc, conn, Act::Begin);
    let before = conn.logged().journal().len();
    conn.forget();
    let after = conn.logged().journal().len();
    performs(alloc, conn, Act::Beat);
    performs(alloc, conn, Act::Beat);
    [before, after, conn.logged().journal().len()]
}

#[test]
fn entries_are_gone(rt: HostRuntime) {
    let Some(mut conn) = begun(rt.alloc()) else {
        panic!(rt; "no connection");
    };
    let lengths = lengths(rt.alloc(), &mut conn);
    drop(conn);
    assert!(rt; lengths == [3, 0, 2]);
}

fn stands(alloc: Global, conn: &Conn, act: Act, receipt: &Receipt) -> bool {
    match op(alloc, act) {
        Some(op) => {
            let stands = conn.logged().stands(&op, receipt);
            drop(op);
            stands
        }
        None => false,
    }
}

/// Whether the begin's receipt stands, whether it does once it is forgotten, and whether the next step's does.
fn standing(alloc: Global, conn: &mut Conn) -> [bool; 3] {
    performs(alloc, conn, Act::Begin);
    let before = stands(alloc, conn, Act::Begin, &BEGUN);
    conn.forget();
    let after = stands(alloc, conn, Act::Begin, &BEGUN);
    performs(alloc, conn, ATTACH);
    [before, after, stands(alloc, conn, ATTACH, &ATTACHED)]
}

#[test]
fn forgotten_receipts_do_not_stand(rt: HostRuntime) {
    let Some(mut conn) = begun(rt.alloc()) else {
        panic!(rt; "no connection");
    };
    let standing = standing(rt.alloc(), &mut conn);
    drop(conn);
    assert!(rt; standing == [true, false, true]);
}
