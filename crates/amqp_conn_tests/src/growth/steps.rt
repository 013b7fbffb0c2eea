//! A session with its journal, or a connection, that goes through steps. Where memory is refused a step is made once more, after a look at what the
//! readers show; a refusal and a violation are told at once, whatever is refused. Each goes twice: one growth is refused in one of both, and they are to be
//! the same.

use crate::act::{Act, made};
use crate::growth::said::{Said, Shown, gave, heard, left, newest_gave, refused, show, unit};
use amqp_conn::{Boxed, Frame, FrameFault, Logged, Role, Unit};
use amqp_frames::Framer;
use amqp_rules::config::Config;
use std::alloc::Global;

const CONFIG: Config = Config {
    first_id: 0,
    window: 2048,
    journal_limit: 1000,
};

/// What is done.
#[derive(Clone, Copy)]
pub(crate) enum Do {
    /// The session's peer takes frames so long.
    Opened(u32),
    /// A frame, by the session.
    Hear(&'static [u8]),
    /// In pieces of this length, by the connection.
    Feed(&'static [u8], usize),
    FeedShared(&'static [u8]),
    /// A pump's devices move these octets, and what the connection puts out.
    Pump(&'static [u8]),
    Own(Act),
    /// With an error, or without.
    Close(bool),
    /// How many links of the role would be put aside.
    Aside(Role),
    /// How many things are left.
    LeftLen,
    /// Pops the first of what is left.
    Left,
    /// Pops the first that this link left.
    LeftBy(Role, u32),
    /// Pops the first unit.
    Unit,
    Lost,
    Forget,
}

/// How operations and frames are handed to a session, and when readers are asked.
#[derive(Clone, Copy, PartialEq, Eq)]
pub(crate) enum Way {
    /// By `apply` and `receive`; before each step.
    Lent,
    /// By `perform` and `hear`; before each step.
    Moved,
    /// So, and no reader is asked.
    Unread,
    /// So, and all readers are asked twice after each step.
    Read,
}

/// What goes through steps.
pub(crate) trait Subject {
    /// Makes the step.
    fn once(&mut self, alloc: Global, what: Do, way: Way) -> Said;

    /// What its readers show.
    fn shown(&self) -> Shown;

    /// Its journal is compared.
    fn session(&self) -> &Logged;

    /// Pops the first unit that waits to go out.
    fn next_unit(&mut self) -> Option<Unit>;
}

fn does(alloc: Global, logged: &mut Logged, act: Act, way: Way) -> Said {
    let Some(op) = made(alloc, act) else {
        return Said::Wanting;
    };
    if way == Way::Lent {
        let done = logged.apply(&op);
        drop(op);
        return gave(done);
    }
    match logged.perform(op) {
        Ok(()) => newest_gave(logged),
        Err(refusal) => refused(refusal),
    }
}

/// The frame that these octets are, read again where that is refused.
fn read(alloc: Global, octets: &'static [u8]) -> Option<Frame> {
    let mut framer = Framer::new(alloc, 65536);
    let answer = match framer.feed(octets) {
        Err(FrameFault::NoMemory) => framer.feed(octets),
        answer => answer,
    };
    match answer {
        Ok((_, frame)) => frame,
        Err(_) => None,
    }
}

fn receives(logged: &mut Logged, frame: Frame) -> Said {
    let done = logged.receive(&frame);
    drop(frame);
    heard(done)
}

/// The frame behind a pointer, read again where that is refused.
fn boxed(alloc: Global, octets: &'static [u8]) -> Option<Boxed<Frame>> {
    let frame = read(alloc, octets)?;
    match Boxed::new(alloc, frame) {
        Ok(frame) => Some(frame),
        Err(_) => Boxed::new(alloc, read(alloc, octets)?).ok(),
    }
}

fn hears(alloc: Global, logged: &mut Logged, octets: &'static [u8], way: Way) -> Said {
    if way == Way::Lent {
        return match read(alloc, octets) {
            Some(frame) => receives(logged, frame),
            None => Said::Wanting,
        };
    }
    match boxed(alloc, octets) {
        Some(frame) => heard(logged.hear(frame)),
        None => Said::Wanting,
    }
}

impl Subject for Logged {
    fn once(&mut self, alloc: Global, what: Do, way: Way) -> Said {
        match what {
            Do::Opened(max) => match self.opened(max) {
                Ok(()) => Said::Nothing,
                Err(refusal) => refused(refusal),
            },
            Do::Own(act) => does(alloc, self, act, way),
            Do::Hear(octets) => hears(alloc, self, octets, way),
            Do::Left => left(self.pop_left()),
            Do::LeftBy(role, link) => left(self.pop_left_by(role, link)),
            Do::Unit => unit(self.pop_unit()),
            Do::Forget => {
                self.forget();
                Said::Nothing
            }
            _ => Said::Wanting,
        }
    }

    fn shown(&self) -> Shown {
        show(self)
    }

    fn session(&self) -> &Logged {
        self
    }

    fn next_unit(&mut self) -> Option<Unit> {
        self.pop_unit()
    }
}

/// Want of memory hides no refusal and no violation. A feed and a pump make their own second calls; each other call is made again.
fn may_want(what: Do, due: Said) -> bool {
    !matches!(what, Do::Feed(_, _) | Do::FeedShared(_) | Do::Pump(_))
        && !matches!(due, Said::Refused(_) | Said::Violated(_))
}

/// The readers show what they did, if they were asked before.
fn stands<S: Subject>(subject: &S, before: &Option<Shown>) -> bool {
    match before {
        Some(before) => subject.shown() == *before,
        None => true,
    }
}

/// What is answered; where that is want of memory and has changed nothing, what is answered then.
fn twice<S: Subject>(alloc: Global, subject: &mut S, what: Do, due: Said, way: Way) -> Said {
    let before = match way {
        Way::Lent | Way::Moved => Some(subject.shown()),
        Way::Unread | Way::Read => None,
    };
    match subject.once(alloc, what, way) {
        Said::Wanting if may_want(what, due) && stands(subject, &before) => {
            subject.once(alloc, what, way)
        }
        said => said,
    }
}

/// Steps, each with its answer.
pub(crate) type Steps = &'static [(Do, Said)];

fn answers<S: Subject>(alloc: Global, subject: &mut S, steps: Steps, way: Way) -> bool {
    for (what, due) in steps {
        if twice(alloc, subject, *what, *due, way) != *due {
            return false;
        }
        if way == Way::Read && subject.shown() != subject.shown() {
            return false;
        }
    }
    true
}

/// Each step of the lists is answered so.
fn answers_all<S: Subject>(alloc: Global, subject: &mut S, lists: &[Steps], way: Way) -> bool {
    for steps in lists {
        if !answers(alloc, subject, steps, way) {
            return false;
        }
    }
    true
}

fn is_same_unit(one: Option<Unit>, other: Option<Unit>) -> bool {
    match (&one, &other) {
        (Some(one), Some(other)) => one.number == other.number && one.bytes == other.bytes,
        (None, None) => true,
        _ => false,
    }
}

/// Whether both put out the same units.
fn put_out_the_same<S: Subject>(one: &mut S, other: &mut S) -> bool {
    for _ in 0..one.session().put_out() {
        if !is_same_unit(one.next_unit(), other.next_unit()) {
            return false;
        }
    }
    true
}

/// Whether both answer the steps so, and come to the same: one of them at least has ample memory.
pub(crate) fn go_both<S: Subject>(
    alloc: Global,
    one: &mut S,
    other: &mut S,
    lists: &[Steps],
    way: Way,
) -> bool {
    answers_all(alloc, one, lists, way)
        && answers_all(alloc, other, lists, way)
        && one.session().journal() == other.session().journal()
        && one.shown() == other.shown()
        && put_out_the_same(one, other)
}

/// Whether two new sessions go so.
pub(crate) fn goes(alloc: Global, lists: &[Steps], way: Way) -> bool {
    if !CONFIG.is_within_limits() {
        return false;
    }
    let mut one = Logged::new(alloc, &CONFIG);
    let mut other = Logged::new(alloc, &CONFIG);
    let answer = go_both(alloc, &mut one, &mut other, lists, way);
    drop(other);
    drop(one);
    answer
}

/// Both ways.
pub(crate) fn goes_each_way(alloc: Global, lists: &[Steps]) -> bool {
    goes(alloc, lists, Way::Lent) && goes(alloc, lists, Way::Moved)
}

/// Whether one new session answers the steps so.
pub(crate) fn goes_alone(alloc: Global, lists: &[Steps], way: Way) -> bool {
    if !CONFIG.is_within_limits() {
        return false;
    }
    let mut logged = Logged::new(alloc, &CONFIG);
    let answer = answers_all(alloc, &mut logged, lists, way);
    drop(logged);
    answer
}
