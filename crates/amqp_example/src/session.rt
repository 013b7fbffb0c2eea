//! `amqp_journal`: two ends of a session, each an endpoint with its journal. The octets of one are fed to the other.

use crate::operations::{attach, start};
use crate::telling::{tell_learned, tell_of};
use amqp_conn::{Given, Op, Refusal, Role, Taken, ops};
use amqp_endpoint::config::Config;
use amqp_frames::{Frame, Framer};
use amqp_journal::logged::Logged;
use anyhow::ensure;
use std::alloc::Global;
use std::io::Write;

/// The longest frame that either end takes, in octets.
const MAX_FRAME: u32 = 65536;

/// More units than an end has waiting at any time here.
const UNITS: u32 = 8;

/// A message is sent, taken, accepted and settled.
pub fn run(lines: &mut Vec<u8>) -> anyhow::Result<()> {
    let mut sender = End::new(*lines.allocator(), "sender")?;
    let talked = talk_with_receiver(lines, &mut sender);
    drop(sender);
    talked
}

fn talk_with_receiver(lines: &mut Vec<u8>, sender: &mut End) -> anyhow::Result<()> {
    let mut receiver = End::new(*lines.allocator(), "receiver")?;
    let talked = talk(lines, sender, &mut receiver);
    drop(receiver);
    talked
}

fn talk(lines: &mut Vec<u8>, sender: &mut End, receiver: &mut End) -> anyhow::Result<()> {
    begin(lines, sender, receiver)?;
    attach_both(lines, sender, receiver)?;
    send(lines, sender, receiver)?;
    settle(lines, sender, receiver)?;
    sender.tell_steps(lines)?;
    receiver.tell_steps(lines)
}

/// Both begin the session.
fn begin(lines: &mut Vec<u8>, sender: &mut End, receiver: &mut End) -> anyhow::Result<()> {
    act(lines, sender, receiver, ops::begin())?;
    act(lines, receiver, sender, ops::begin())
}

/// Both attach a link of one name, neither of which has heard of the other's.
fn attach_both(lines: &mut Vec<u8>, sender: &mut End, receiver: &mut End) -> anyhow::Result<()> {
    let alloc = *lines.allocator();
    sender.apply(lines, attach(alloc, "news", Role::Sender)?)?;
    receiver.apply(lines, attach(alloc, "news", Role::Receiver)?)?;
    exchange(lines, sender, receiver)
}

/// The link has no credit yet. A refusal has changed nothing, so the same operation may be tried again.
fn send(lines: &mut Vec<u8>, sender: &mut End, receiver: &mut End) -> anyhow::Result<()> {
    act(lines, sender, receiver, start(0, 1))?;
    act(lines, receiver, sender, ops::grant(0, 10))?;
    act(lines, sender, receiver, start(0, 1))
}

/// The receiver takes the message and accepts it; the sender learns of it.
fn settle(lines: &mut Vec<u8>, sender: &mut End, receiver: &mut End) -> anyhow::Result<()> {
    act(lines, receiver, sender, ops::take(0))?;
    act(lines, receiver, sender, ops::accept(0))?;
    act(lines, sender, receiver, ops::learn(0))
}

/// The one end does the operation, and each hears what the other put out then.
fn act(lines: &mut Vec<u8>, one: &mut End, other: &mut End, op: Op) -> anyhow::Result<()> {
    one.apply(lines, op)?;
    exchange(lines, one, other)
}

/// One end of the session, and the framer of what it hears.
#[derive(Drop)]
struct End {
    name: &'static str,
    logged: Logged,
    framer: Framer,
}

impl End {
    fn new(alloc: Global, name: &'static str) -> anyhow::Result<End> {
        let config = Config {
            first_id: 0,
            window: 2048,
            journal_limit: 1000,
        };
        ensure!(config.is_within_limits(), "a setting is out of its limits");
        let mut logged = Logged::new(alloc, &config);
        match logged.opened(MAX_FRAME) {
            Ok(()) => Ok(End {
                name,
                logged,
                framer: Framer::new(alloc, MAX_FRAME),
            }),
            Err(error) => {
                drop(logged);
                Err(error.into())
            }
        }
    }

    /// Does an operation. What is to be sent waits as a unit.
    fn apply(&mut self, lines: &mut Vec<u8>, op: Op) -> anyhow::Result<()> {
        let answer = self.logged.apply(&op);
        drop(op);
        match answer {
            Ok(given) => self.tell(lines, &given),
            Err(Refusal::NoMemory) => Err(Refusal::NoMemory.into()),
            Err(refusal) => Ok(writeln!(lines, "{}: refused, {refusal}", self.name)?),
        }
    }

    /// Takes octets of the peer's.
    fn hear(&mut self, lines: &mut Vec<u8>, octets: &[u8]) -> anyhow::Result<()> {
        let mut frames = Vec::new(*lines.allocator());
        let heard = match self.framer.feed_all(octets, &mut frames) {
            Ok(()) => self.receive_all(lines, frames.as_slice()),
            Err(fault) => Err(fault.into()),
        };
        drop(frames);
        heard
    }

    fn receive_all(&mut self, lines: &mut Vec<u8>, frames: &[Frame]) -> anyhow::Result<()> {
        for frame in frames {
            self.receive(lines, frame)?;
        }
        Ok(())
    }

    /// A frame that breaks the rules has changed nothing. Here none does.
    fn receive(&mut self, lines: &mut Vec<u8>, frame: &Frame) -> anyhow::Result<()> {
        match self.logged.receive(frame) {
            Ok(given) => self.tell(lines, &given),
            Err(violation) => Err(violation.into()),
        }
    }

    /// Tells what a step gives. No link is put aside here, and so no delivery resumed.
    fn tell(&self, lines: &mut Vec<u8>, given: &Given) -> anyhow::Result<()> {
        let name = self.name;
        match given {
            Given::Link(link) => tell_of(lines, name, "link", *link, "is asked for"),
            Given::Offered(link) => tell_of(lines, name, "link", *link, "is offered"),
            Given::Attached(link) => tell_of(lines, name, "link", *link, "is attached"),
            Given::Gone(link) => tell_of(lines, name, "link", *link, "is gone"),
            Given::Delivery(id) => tell_of(lines, name, "delivery", *id, "begins"),
            Given::Ready(_, id) => tell_of(lines, name, "delivery", *id, "is ready"),
            Given::Taken(taken) => tell_taken(lines, name, taken.get()),
            Given::Learned(learned) => tell_learned(lines, name, learned.get()),
            Given::Nothing | Given::Suspended(_) | Given::Parted(_, _) | Given::Resumed(_) => {
                Ok(())
            }
        }
    }

    fn tell_steps(&self, lines: &mut Vec<u8>) -> anyhow::Result<()> {
        let (name, steps) = (self.name, self.logged.steps());
        Ok(writeln!(lines, "{name}: {steps} steps in the journal")?)
    }
}

fn tell_taken(lines: &mut Vec<u8>, name: &str, taken: &Taken) -> anyhow::Result<()> {
    let (id, length) = (taken.id, taken.payload.len());
    Ok(writeln!(lines, "{name}: delivery {id} is taken, {length} octets")?)
}

/// Each end hears what the other put out.
fn exchange(lines: &mut Vec<u8>, one: &mut End, other: &mut End) -> anyhow::Result<()> {
    for _ in 0..UNITS {
        hand_on(lines, one, other)?;
        hand_on(lines, other, one)?;
    }
    Ok(())
}

/// The first unit that waits at the one end is heard at the other.
fn hand_on(lines: &mut Vec<u8>, from: &mut End, to: &mut End) -> anyhow::Result<()> {
    let Some(unit) = from.logged.pop_unit() else {
        return Ok(());
    };
    let joined = unit.bytes.join(*lines.allocator());
    drop(unit);
    let octets = joined?;
    to.hear(lines, octets.as_slice())
}
