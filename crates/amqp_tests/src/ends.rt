//! What came before an end is had once: whatever ends a link, the session or the connection, and wherever the octets are cut.

use crate::conn::connection;
use crate::octets::{CLOSE, END, GREETING};
use amqp_conn::*;
use std::alloc::{AllocError, Global};

/// The peer's attach of `q`, on which it sends, that of `p`, on which we send, and a flow that gives three credits for it.
const LINKS: &[u8] =
    b"\x00\x00\x00\x1a\x02\x00\x00\x00\x00\x53\x12\xc0\x0d\x0a\xa1\x01q\x43\x42\x40\x40\x40\x40\x40\x40\x43\
    \x00\x00\x00\x14\x02\x00\x00\x00\x00\x53\x12\xc0\x07\x03\xa1\x01p\x52\x01\x41\
    \x00\x00\x00\x1f\x02\x00\x00\x00\x00\x53\x13\xc0\x12\x07\x43\x70\x00\x00\x08\x00\x43\x70\x7f\xff\xff\xff\x52\x01\x43\x52\x03";

/// Five settled deliveries, with the dispositions of ours between them.
const SAID: &[u8] =
    b"\x00\x00\x00\x17\x02\x00\x00\x00\x00\x53\x14\xc0\x09\x05\x43\x52\x00\xa0\x01\x00\x43\x41x\
    \x00\x00\x00\x18\x02\x00\x00\x00\x00\x53\x15\xc0\x0b\x05\x41\x52\x00\x52\x00\x41\x00\x53\x24\x45\
    \x00\x00\x00\x17\x02\x00\x00\x00\x00\x53\x14\xc0\x09\x05\x43\x52\x01\xa0\x01\x01\x43\x41x\
    \x00\x00\x00\x17\x02\x00\x00\x00\x00\x53\x14\xc0\x09\x05\x43\x52\x02\xa0\x01\x02\x43\x41x\
    \x00\x00\x00\x18\x02\x00\x00\x00\x00\x53\x15\xc0\x0b\x05\x41\x52\x01\x52\x01\x41\x00\x53\x24\x45\
    \x00\x00\x00\x17\x02\x00\x00\x00\x00\x53\x14\xc0\x09\x05\x43\x52\x03\xa0\x01\x03\x43\x41x\
    \x00\x00\x00\x17\x02\x00\x00\x00\x00\x53\x14\xc0\x09\x05\x43\x52\x04\xa0\x01\x04\x43\x41x\
    \x00\x00\x00\x18\x02\x00\x00\x00\x00\x53\x15\xc0\x0b\x05\x41\x52\x02\x52\x02\x41\x00\x53\x24\x45";

const DETACHES: &[u8] = b"\x00\x00\x00\x10\x02\x00\x00\x00\x00\x53\x16\xc0\x03\x02\x43\x41\
    \x00\x00\x00\x11\x02\x00\x00\x00\x00\x53\x16\xc0\x04\x02\x52\x01\x41";

/// Detaches, end and close.
const ALL: &[u8] = b"\x00\x00\x00\x10\x02\x00\x00\x00\x00\x53\x16\xc0\x03\x02\x43\x41\
    \x00\x00\x00\x11\x02\x00\x00\x00\x00\x53\x16\xc0\x04\x02\x52\x01\x41\
    \x00\x00\x00\x0c\x02\x00\x00\x00\x00\x53\x17\x45\
    \x00\x00\x00\x0c\x02\x00\x00\x00\x00\x53\x18\x45";

/// A frame whose data offset is too small.
const BAD: &[u8] = b"\x00\x00\x00\x0c\x01\x00\x00\x00\x00\x53\x17\x45";

/// A detach by a handle that is not attached: we end the session for it.
const UNATTACHED: &[u8] = b"\x00\x00\x00\x11\x02\x00\x00\x00\x00\x53\x16\xc0\x04\x02\x52\x09\x41";

/// What ends a session of this test.
#[derive(Clone, Copy)]
enum Way {
    /// The peer says this.
    Hears(&'static [u8]),
    /// The octets end, wherever that is.
    Lost,
    /// We end the session.
    Ends,
    /// We detach the link on which we receive, and the peer both.
    Detaches,
    /// We close the connection, and the peer does.
    Closes,
}

/// The way in which the session of this number ends: each way in turn.
fn way_of(number: u32) -> Way {
    match number % 10 {
        0 => Way::Hears(DETACHES),
        1 => Way::Hears(END),
        2 => Way::Hears(CLOSE),
        3 => Way::Hears(ALL),
        4 => Way::Hears(BAD),
        5 => Way::Ends,
        6 => Way::Detaches,
        7 => Way::Closes,
        8 => Way::Hears(UNATTACHED),
        _ => Way::Lost,
    }
}

/// How often each thing was had, by its id, and how many frames that bring one were heard.
#[derive(Clone, Copy)]
struct Tally {
    taken: [u8; 5],
    learned: [u8; 3],
    deliveries: usize,
    outcomes: usize,
}

const NONE: Tally = Tally {
    taken: [0; 5],
    learned: [0; 3],
    deliveries: 0,
    outcomes: 0,
};

/// One more of this id.
fn mark(marks: &mut [u8], id: u32) {
    if let Some(mark) = marks.get_mut(id as usize) {
        *mark = mark.saturating_add(1);
    }
}

/// Whether the first so many were had once, and the others never.
fn each_once(marks: &[u8], count: usize) -> bool {
    for (place, mark) in marks.iter().enumerate() {
        if *mark != u8::from(place < count) {
            return false;
        }
    }
    true
}

impl Tally {
    fn is_due(&self) -> bool {
        each_once(&self.taken, self.deliveries) && each_once(&self.learned, self.outcomes)
    }

    /// All came, and was had once.
    fn is_all(&self) -> bool {
        self.is_due() && self.deliveries == 5 && self.outcomes == 3
    }

    /// A delivery counts where it is the one that the peer sent with its id.
    fn take(&mut self, taken: &Taken) {
        let is_sent = taken.link == 1 && taken.settled && taken.payload.is(b"x".as_slice());
        if is_sent && u32::from(taken.tag.octets().first().copied().unwrap_or(9)) == taken.id {
            mark(&mut self.taken, taken.id);
        }
    }

    fn learn(&mut self, learned: &Learned) {
        let is_accepted = match &learned.state {
            Some(DeliveryState::Accepted) => true,
            _ => false,
        };
        if is_accepted && learned.link == 0 && learned.settled {
            mark(&mut self.learned, learned.id);
        }
    }

    /// What was left counts like what is taken or learnt.
    fn leave(&mut self, left: Left) {
        match &left {
            Left::Delivery(name, taken) if name.as_str() == "q" => self.take(taken.get()),
            Left::Outcome(name, learned) if name.as_str() == "p" => self.learn(learned.get()),
            _ => {}
        }
        drop(left);
    }

    /// What an operation gave.
    fn have(&mut self, given: &Given) {
        match given {
            Given::Taken(taken) => self.take(taken.get()),
            Given::Learned(learned) => self.learn(learned.get()),
            _ => {}
        }
    }

    /// The frame of a step.
    fn hear(&mut self, frame: &Frame) {
        match &frame.body {
            Some(Performative::Transfer(_)) => self.deliveries = self.deliveries.saturating_add(1),
            Some(Performative::Disposition(_)) => self.outcomes = self.outcomes.saturating_add(1),
            _ => {}
        }
    }
}

/// Does the operation, where that can be done, and counts what it gave.
fn does(conn: &mut Conn, tally: &mut Tally, op: Op) {
    if conn.perform(op).is_ok() {
        if let Some(given) = conn.given() {
            tally.have(given);
        }
    }
}

/// Feeds all of the octets, or those before a fault, and counts what the frames bring.
fn hears(conn: &mut Conn, tally: &mut Tally, octets: &[u8]) {
    let mut rest = octets;
    // No frame is read three times.
    for _ in 0..99 {
        if rest.is_empty() {
            return;
        }
        let (used, stepped) = match conn.feed(&Octets::lent(rest)) {
            Ok(fed) => (fed.used, fed.stepped),
            Err(_) => return,
        };
        if stepped {
            if let Some(frame) = conn.heard() {
                tally.hear(frame);
            }
        }
        rest = rest.get(used..).unwrap_or(&[]);
    }
}

/// A number below 256 that nobody foresees.
fn roll(dice: &mut u32) -> usize {
    *dice = dice.wrapping_mul(1664525).wrapping_add(1013904223);
    (*dice >> 24) as usize
}

/// Hears the octets in pieces of up to 64, and takes or learns between them as the dice say.
fn hears_cut(conn: &mut Conn, tally: &mut Tally, octets: &[u8], dice: &mut u32) {
    let mut rest = octets;
    for _ in 0..octets.len() {
        if rest.is_empty() {
            return;
        }
        let (piece, back) = rest.split_at(rest.len().min(roll(dice) % 64 + 1));
        hears(conn, tally, piece);
        match roll(dice) % 4 {
            0 => does(conn, tally, ops::take(1)),
            1 => does(conn, tally, ops::learn(0)),
            _ => {}
        }
        rest = back;
    }
}

/// What the peer says of deliveries and outcomes, and with it of the end.
fn spoken(alloc: Global, end: &[u8]) -> Result<Vec<u8>, AllocError> {
    let mut said = Vec::new(alloc);
    said.extend_from_slice(SAID)?;
    said.extend_from_slice(end)?;
    Ok(said)
}

/// What we do at the end, and what the peer says then.
fn ends(conn: &mut Conn, tally: &mut Tally, way: Way) -> &'static [u8] {
    match way {
        Way::Hears(_) => b"",
        Way::Lost => {
            conn.lost();
            b""
        }
        Way::Ends => {
            does(conn, tally, ops::end());
            b""
        }
        Way::Detaches => {
            does(conn, tally, ops::detach(1));
            DETACHES
        }
        Way::Closes => {
            let _ = conn.close(None);
            CLOSE
        }
    }
}

/// Pops all that is left: there is no more than was heard.
fn pops_all(conn: &mut Conn, tally: &mut Tally) {
    for _ in 0..99 {
        match conn.pop_left() {
            Ok(Some(left)) => tally.leave(left),
            Ok(None) => return,
            Err(_) => return,
        }
    }
}

fn attaches(alloc: Global, conn: &mut Conn, name: &str, role: Role) {
    if let Ok(name) = Text::new(alloc, name) {
        let _ = conn.perform(ops::attach(name, role, None, None));
    }
}

/// Starts a delivery of this tag on link 0.
fn starts(alloc: Global, conn: &mut Conn, tag: u8) {
    let Ok(payload) = Bytes::copy_from_slice(alloc, b"y") else {
        return;
    };
    if let Some(tag) = Tag::new(&[tag]) {
        let _ = conn.perform(ops::start(0, tag, payload));
    }
}

/// Begins, attaches `p` as link 0 and `q` as link 1, and grants five deliveries; three may be started.
pub(crate) fn links_up(alloc: Global, conn: &mut Conn) {
    hears(conn, &mut NONE, GREETING);
    let _ = conn.perform(ops::begin());
    attaches(alloc, conn, "p", Role::Sender);
    hears(conn, &mut NONE, LINKS);
    attaches(alloc, conn, "q", Role::Receiver);
    let _ = conn.perform(ops::grant(1, 5));
}

/// The same, and three are started.
fn sets_up(alloc: Global, conn: &mut Conn) {
    links_up(alloc, conn);
    for tag in 0..3 {
        starts(alloc, conn, tag);
    }
}

/// The octets that come, and those of the end, cut as the dice say; where they are lost, as many of them as the dice say.
fn comes(conn: &mut Conn, tally: &mut Tally, said: &[u8], way: Way, dice: &mut u32) {
    let count = match way {
        Way::Lost => roll(dice),
        _ => said.len(),
    };
    let (come, _) = said.split_at(said.len().min(count));
    hears_cut(conn, tally, come, dice);
    let answer = ends(conn, tally, way);
    hears_cut(conn, tally, answer, dice);
}

/// What is had where the octets are cut as the dice say.
fn lives(alloc: Global, conn: &mut Conn, way: Way, dice: u32) -> Option<Tally> {
    let mut tally = NONE;
    let mut dice = dice;
    let end = match way {
        Way::Hears(end) => end,
        _ => b"",
    };
    let Ok(said) = spoken(alloc, end) else {
        return None;
    };
    sets_up(alloc, conn);
    comes(conn, &mut tally, said.as_slice(), way, &mut dice);
    pops_all(conn, &mut tally);
    Some(tally)
}

/// How much is left where all comes in one piece, and what is had then.
fn lives_at_once(alloc: Global, conn: &mut Conn, end: &[u8]) -> Option<(usize, Tally)> {
    let mut tally = NONE;
    let Ok(said) = spoken(alloc, end) else {
        return None;
    };
    sets_up(alloc, conn);
    hears(conn, &mut tally, said.as_slice());
    let left = conn.left_len().unwrap_or(0);
    pops_all(conn, &mut tally);
    Some((left, tally))
}

/// Whether all that came was had once, where the octets are cut as the dice say.
fn is_had(alloc: Global, way: Way, dice: u32) -> bool {
    let Ok(mut conn) = connection(alloc) else {
        return false;
    };
    let tally = lives(alloc, &mut conn, way, dice);
    drop(conn);
    match (tally, way) {
        (Some(tally), Way::Lost) => tally.is_due(),
        (Some(tally), _) => tally.is_all(),
        (None, _) => false,
    }
}

/// Whether all was had once, by `pop_left` alone, where it came in one piece with this end.
fn is_left(alloc: Global, end: &[u8]) -> bool {
    let Ok(mut conn) = connection(alloc) else {
        return false;
    };
    let told = lives_at_once(alloc, &mut conn, end);
    drop(conn);
    match told {
        Some((left, tally)) => left == 8 && tally.is_all(),
        None => false,
    }
}

#[test]
fn messages_come_with_a_close(rt: HostRuntime) {
    assert!(rt; is_left(rt.alloc(), CLOSE));
}

#[test]
fn the_last_outcome_comes_with_detach_end_and_close(rt: HostRuntime) {
    assert!(rt; is_left(rt.alloc(), ALL));
}

/// Two hundred sessions: nothing that was ready or told is missing or doubled.
#[test]
fn sessions_that_end_in_each_way(rt: HostRuntime) {
    for number in 0..200u32 {
        // Squares, so that those which end in one way differ in their first roll.
        let dice = number.wrapping_mul(number).wrapping_mul(0x9e37_79b9);
        assert!(rt; is_had(rt.alloc(), way_of(number), dice));
    }
}
