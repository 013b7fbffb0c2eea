//! Messages of one link are sent, and their outcomes learnt.
ghost use Rattle.std.specs.Prelude.{◌<◌};

use crate::end::{End, LINK};
use crate::fault::ClientFault;
use crate::session::{Session, apply, perform};
use amqp_conn::{Bytes, DeliveryState, Given, Learned, Left, Op, Refusal, Role, Tag, Verdict, ops};
use amqp_policy::{Outcome, has_more, outcome_of, part, room_in_frame};

/// What the peer has said of a message.
#[derive(Clone, Copy)]
pub struct Told {
    /// The message's number.
    pub number: u32,
    pub outcome: Outcome,
    id: u32,
    settled: bool,
}

impl Told {
    /// Returns whether the peer will say no more of the message.
    pub fn is_last(&self) -> bool {
        self.settled || !matches!(self.outcome, Outcome::Unknown)
    }
}

fn told_by(given: Given) -> Option<Told> {
    let told = match &given {
        Given::Learned(learned) => Some(told_of(learned.get())),
        _ => None,
    };
    drop(given);
    told
}

fn told_of(learned: &Learned) -> Told {
    Told {
        number: number_of(&learned.tag),
        outcome: outcome_of(&learned.state),
        id: learned.id,
        settled: learned.settled,
    }
}

/// Returns the number that `send` put into the tag.
pub fn number_of(tag: &Tag) -> u32 {
    match tag.octets() {
        [a, b, c, d, ..] => u32::from_be_bytes([*a, *b, *c, *d]),
        _ => 0,
    }
}

/// The outcome that the peer gave a delivery that was resumed.
fn outcome_resumed(given: Given) -> Outcome {
    let outcome = match &given {
        Given::Resumed(resumed) => outcome_of(&resumed.get().state),
        _ => Outcome::Unknown,
    };
    drop(given);
    outcome
}

/// What a link left when it ended. Nothing on it needs to be settled any more.
fn told_last(left: &Left) -> Option<Told> {
    match left {
        Left::Outcome(_, learned) => {
            let told = told_of(learned.get());
            Some(Told {
                settled: true,
                ..told
            })
        }
        Left::Delivery(_, _) => None,
    }
}

impl End {
    /// How many octets of a message one transfer takes, by the peer's frame size.
    fn in_a_transfer(&self) -> usize
        ensures { 0 < result }
    {
        room_in_frame(self.conn.logged().endpoint().max_frame())
    }

    /// Returns whether a message may begin: there is credit, and room in the window.
    pub fn has_room(&self) -> bool {
        self.credit() > 0 && self.conn.logged().endpoint().windows().remote_in > 0
    }

    /// Returns whether the message goes in one transfer.
    pub fn is_short(&self, message: &Bytes) -> bool {
        message.len() <= self.in_a_transfer()
    }

    /// Returns the tag of the first delivery that waits to be resumed, and what becomes of it.
    pub fn waiting(&self) -> Option<(Tag, Verdict)> {
        match self.conn.logged().endpoint().waiting_at(LINK, 0) {
            Some((tag, verdict)) => Some((*tag, verdict)),
            None => None,
        }
    }

    /// Returns what the peer has said of a message, also of a link that is gone; `None` if it has said nothing more.
    pub fn told(&mut self) -> Result<Option<Told>, ClientFault> {
        let op = ops::learn(LINK);
        let answer = self.conn.apply(&op);
        drop(op);
        match answer {
            Ok(given) => Ok(told_by(given)),
            Err(Refusal::NoMemory) => Err(ClientFault::NoMemory),
            Err(_) => self.told_left(LINK),
        }
    }

    /// What the link left when it ended (part 2, 2.6.6).
    fn told_left(&mut self, link: u32) -> Result<Option<Told>, ClientFault> {
        match self.conn.pop_left_by(Role::Sender, link) {
            Ok(Some(left)) => {
                let told = told_last(&left);
                drop(left);
                Ok(told)
            }
            Ok(None) => Ok(None),
            Err(_) => Err(ClientFault::NoMemory),
        }
    }
}

/// The first transfer of a message on the link, with at most `most` octets.
fn start_of(
    link: u32,
    number: u32,
    message: &Bytes,
    most: usize,
    settled: bool,
) -> Result<Op, ClientFault> {
    let Some(tag) = Tag::new(&number.to_be_bytes()) else {
        return Err(ClientFault::Refused(Refusal::NotWritable));
    };
    match part(message, 0, most) {
        Ok(payload) => Ok(Op::Start {
            link,
            tag,
            format: 0,
            settled,
            payload,
            more: has_more(message.len(), 0, most),
        }),
        Err(_) => Err(ClientFault::NoMemory),
    }
}

/// A later transfer of the message, with at most `most` octets behind the first `from`.
fn carry_of(link: u32, message: &Bytes, from: usize, most: usize) -> Result<Op, ClientFault> {
    match part(message, from, most) {
        Ok(payload) => Ok(Op::Carry {
            link,
            payload,
            more: has_more(message.len(), from, most),
        }),
        Err(_) => Err(ClientFault::NoMemory),
    }
}

/// Sends a message as one delivery, in as many transfers as the peer's frame size asks for, as soon as its credit and its window allow. The delivery's tag is the
/// number in four octets.
///
/// # Errors
///
/// Those of `apply`, and `NoMemory`. A message that was begun may be unfinished then.
pub fn send<S: Session>(
    session: &mut S,
    number: u32,
    message: &Bytes,
    settled: bool,
) -> Result<(), ClientFault> {
    send_on(session, LINK, number, message, settled)
}

/// Sends a message on the link, as `send`.
pub(crate) fn send_on<S: Session>(
    session: &mut S,
    link: u32,
    number: u32,
    message: &Bytes,
    settled: bool,
) -> Result<(), ClientFault> {
    let most = session.end().in_a_transfer();
    perform(session, start_of(link, number, message, most, settled)?)?;
    for from in (most..message.len()).step_by(most) {
        perform(session, carry_of(link, message, from, most)?)?;
    }
    Ok(())
}

/// Waits until the peer gives a message an outcome or settles it, and settles it if the peer has not. A peer may do both one after the other: then this returns
/// twice for the message. Outcomes that came before the link ended are returned, too.
///
/// # Errors
///
/// Those of `apply`.
pub fn learn<S: Session>(session: &mut S) -> Result<Told, ClientFault> {
    learn_on(session, LINK)
}

/// Learns of a message of the link, as `learn`.
pub(crate) fn learn_on<S: Session>(session: &mut S, link: u32) -> Result<Told, ClientFault> {
    for _ in 0..u64::MAX {
        match learn_once(session, link)? {
            Some(told) if told.is_last() => {
                settle(session, told)?;
                return Ok(told);
            }
            _ => {}
        }
    }
    Err(ClientFault::Refused(Refusal::Nothing))
}

/// What the peer says next of a message, or what the link left if it is gone.
fn learn_once<S: Session>(session: &mut S, link: u32) -> Result<Option<Told>, ClientFault> {
    let op = ops::learn(link);
    let answer = apply(session, &op);
    drop(op);
    match answer {
        Ok(given) => Ok(told_by(given)),
        Err(fault) => match session.end_mut().told_left(link) {
            Ok(None) => Err(fault),
            left => left,
        },
    }
}

/// Resumes the delivery with this tag (part 2, 2.6.13), settled or not, and returns the outcome that the peer gave it.
pub fn resume<S: Session>(
    session: &mut S,
    tag: Tag,
    settled: bool,
) -> Result<Outcome, ClientFault> {
    let op = Op::Resume {
        link: LINK,
        tag,
        settled,
    };
    let answer = apply(session, &op);
    drop(op);
    match answer {
        Ok(given) => Ok(outcome_resumed(given)),
        Err(fault) => Err(fault),
    }
}

/// Settles the delivery, unless the peer has (part 2, 2.6.12), also by a disposition that is not learnt yet.
pub fn settle<S: Session>(session: &mut S, told: Told) -> Result<(), ClientFault> {
    if told.settled {
        return Ok(());
    }
    match dispose(session, Role::Sender, told.id, None) {
        Err(ClientFault::Refused(Refusal::NothingHeld)) => Ok(()),
        answer => answer,
    }
}

/// Settles the delivery with this id, on which we have this role.
pub fn dispose<S: Session>(
    session: &mut S,
    role: Role,
    id: u32,
    state: Option<DeliveryState>,
) -> Result<(), ClientFault> {
    perform(
        session,
        Op::Dispose {
            role,
            first: id,
            last: id,
            settled: true,
            state,
        },
    )
}
