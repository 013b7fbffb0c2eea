//! What the journals of two ends say of deliveries: what one took and learnt, and what the other sent and told. All is read of their entries alone.

use super::choosing::FIRST;
use super::notes::Tally;
use amqp_flow::serial::Serial;
use amqp_frames::{DeliveryState, Role};
use amqp_journal::entry::{Entry, Step};
use amqp_rules::op::Op;
use amqp_rules::reply::{Given, Learned, Taken};
use amqp_types::{Boxed, Tag};

/// A delivery, as both ends see it.
#[derive(Clone, Copy, PartialEq, Eq)]
pub struct Content {
    id: u32,
    tag: Tag,
    format: u32,
    /// A number that depends on each octet of its payload and on their order.
    sum: u64,
    settled: bool,
}

/// What is told of a delivery. The state is a number: none is 0, and those from 100 on are outcomes.
#[derive(Clone, Copy)]
struct Saying {
    settled: bool,
    state: u32,
}

// What is taken was sent

/// The other end's link whose attach was heard on this one: the n-th attach that is heard is the n-th that was sent.
pub fn source(mine: &[Entry], theirs: &[Entry], link: u32) -> Option<u32> {
    match place_heard(mine, link) {
        Some(n) => link_sent(theirs, n),
        None => None,
    }
}

/// Which of the attaches that were heard is the one on this link, counted from 0.
fn place_heard(entries: &[Entry], link: u32) -> Option<u32> {
    let mut place = 0u32;
    for entry in entries {
        match &entry.reply.given {
            Given::Offered(on) | Given::Attached(on) => {
                if *on == link {
                    return Some(place);
                }
                place = place.wrapping_add(1);
            }
            _ => {}
        }
    }
    None
}

/// The link of the n-th attach that was sent.
fn link_sent(entries: &[Entry], n: u32) -> Option<u32> {
    let mut place = 0u32;
    for entry in entries {
        if let Given::Link(link) = &entry.reply.given {
            if place == n {
                return Some(*link);
            }
            place = place.wrapping_add(1);
        }
    }
    None
}

/// How many deliveries were taken on the link.
pub fn count_taken(entries: &[Entry], link: u32) -> u32 {
    let mut count = 0u32;
    for entry in entries {
        if let Given::Taken(taken) = &entry.reply.given {
            if taken.get().link == link {
                count = count.wrapping_add(1);
            }
        }
    }
    count
}

/// The n-th delivery, counted from 0, that was sent complete, and not aborted, on the link.
pub fn complete(entries: &[Entry], link: u32, n: u32) -> Option<Content> {
    let mut open = Content {
        id: 0,
        tag: Tag::empty(),
        format: 0,
        sum: 0,
        settled: false,
    };
    let mut count = 0u32;
    for entry in entries {
        if open.ends(entry, link) {
            if count == n {
                return Some(open);
            }
            count = count.wrapping_add(1);
        }
    }
    None
}

impl Content {
    /// Whether the entry ends the delivery that is open on the link. One that is aborted is open until another begins.
    fn ends(&mut self, entry: &Entry, link: u32) -> bool {
        match &entry.step {
            Step::Own(
                Op::Start {
                    link: on,
                    tag,
                    format,
                    settled,
                    payload,
                    more,
                },
            ) if *on == link => {
                *self = Content {
                    id: id_in(&entry.reply.given),
                    tag: *tag,
                    format: *format,
                    sum: sum(1, payload.as_slice()),
                    settled: *settled,
                };
                !*more
            }
            Step::Own(
                Op::Carry {
                    link: on,
                    payload,
                    more,
                },
            ) if *on == link => {
                self.sum = sum(self.sum, payload.as_slice());
                !*more
            }
            _ => false,
        }
    }
}

fn id_in(given: &Given) -> u32 {
    match given {
        Given::Delivery(id) => *id,
        _ => 0,
    }
}

/// The number of octets that go on behind those which gave the first one.
fn sum(first: u64, octets: &[u8]) -> u64 {
    let mut sum = first;
    for octet in octets {
        sum = sum
            .wrapping_mul(1099511628211)
            .wrapping_add(u64::from(*octet))
            .wrapping_add(1);
    }
    sum
}

/// What was taken after those before it on its link is the next delivery that the other end sent complete there.
fn was_sent(before: &[Entry], theirs: &[Entry], taken: &Taken) -> bool {
    let Some(link) = source(before, theirs, taken.link) else {
        return false;
    };
    let Ok(payload) = taken.payload.join() else {
        return false;
    };
    let content = Content {
        id: taken.id,
        tag: taken.tag,
        format: taken.format,
        sum: sum(1, payload.as_slice()),
        settled: taken.settled,
    };
    complete(theirs, link, count_taken(before, taken.link)) == Some(content)
}

// What is learnt was said

/// The end sent a delivery of this id and tag on this link.
fn has_sent(entries: &[Entry], learned: &Learned) -> bool {
    for entry in entries {
        if let Step::Own(Op::Start { link, tag, .. }) = &entry.step {
            if *link == learned.link
                && *tag == learned.tag
                && id_in(&entry.reply.given) == learned.id
            {
                return true;
            }
        }
    }
    false
}

/// The first disposition of the other that settled it or gave it an outcome says what was learnt.
fn was_said(entries: &[Entry], learned: &Learned) -> bool {
    let mut state = 0u32;
    for entry in entries {
        if let Some(saying) = saying_of(entry, learned.id) {
            if saying.state != 0 {
                state = saying.state;
            }
            if saying.settled || saying.state >= OUTCOME {
                return saying.settled == learned.settled && state == number_in(&learned.state);
            }
        }
    }
    false
}

/// What the entry tells of the received delivery with this id.
fn saying_of(entry: &Entry, id: u32) -> Option<Saying> {
    match &entry.step {
        Step::Own(
            Op::Dispose {
                role: Role::Receiver,
                first,
                last,
                settled,
                state,
            },
        ) if Serial(id).in_range(Serial(*first), Serial(*last)) => Some(Saying {
            settled: *settled,
            state: number_in(state),
        }),
        _ => None,
    }
}

const OUTCOME: u32 = 100;

pub fn is_outcome(state: &Option<DeliveryState>) -> bool {
    number_in(state) >= OUTCOME
}

fn number_in(state: &Option<DeliveryState>) -> u32 {
    match state {
        None => 0,
        Some(DeliveryState::Received { section_number, .. }) => section_number.wrapping_add(1),
        Some(DeliveryState::Accepted) => OUTCOME,
        Some(DeliveryState::Released) => OUTCOME + 1,
        Some(_) => OUTCOME + 2,
    }
}

// Both

/// Looks at all that an end took and learnt.
pub fn judge(tally: &mut Tally, mine: &[Entry], theirs: &[Entry]) {
    for (place, entry) in mine.iter().enumerate() {
        let right = match &entry.reply.given {
            Given::Taken(taken) => was_sent(&mine[..place], theirs, taken.get()),
            Given::Learned(learned) => {
                has_sent(mine, learned.get()) && was_said(theirs, learned.get())
            }
            _ => true,
        };
        tally.judge(right);
    }
}

/// Counts what an end took, learnt, carried and aborted.
pub fn count(tally: &mut Tally, entries: &[Entry]) {
    for entry in entries {
        match &entry.reply.given {
            Given::Taken(taken) => {
                tally.taken = tally.taken.wrapping_add(1);
                if taken.get().id < FIRST {
                    tally.past = tally.past.wrapping_add(1);
                }
            }
            Given::Learned(_) => tally.learnt = tally.learnt.wrapping_add(1),
            _ => match &entry.step {
                Step::Own(Op::Carry { .. }) => tally.carried = tally.carried.wrapping_add(1),
                Step::Own(Op::Abort { .. }) => tally.aborted = tally.aborted.wrapping_add(1),
                _ => {}
            },
        }
    }
}
