//! `amqp_conn`: two ends of a connection, over memory. Octets go in and octets come out; each end does operations while it is running.

use crate::operations::{attach, start};
use crate::telling::{tell_learned, tell_of};
use amqp_conn::{Config, Conn, FromStd, Given, Op, Pump, Role, Text, ops};
use std::alloc::Global;
use std::io::Write;

/// More pieces in turn than either end has to say here.
const TURNS: u32 = 8;

/// More reads than a piece needs.
const READS: u32 = 100;

/// A message goes there and is accepted, one comes back, and the connection is closed.
pub fn run(lines: &mut Vec<u8>) -> anyhow::Result<()> {
    let mut one = End::new(*lines.allocator(), "one")?;
    let talked = talk_with_other(lines, &mut one);
    drop(one);
    talked
}

fn talk_with_other(lines: &mut Vec<u8>, one: &mut End) -> anyhow::Result<()> {
    let mut other = End::new(*lines.allocator(), "other")?;
    let talked = talk(lines, one, &mut other);
    drop(other);
    talked
}

fn talk(lines: &mut Vec<u8>, one: &mut End, other: &mut End) -> anyhow::Result<()> {
    begin(lines, one, other)?;
    send(lines, one, other, "there", 0)?;
    send(lines, other, one, "back", 1)?;
    one.conn.close(None)?;
    exchange(lines, one, other)?;
    one.tell_end(lines)?;
    other.tell_end(lines)
}

/// Both open, and begin the session.
fn begin(lines: &mut Vec<u8>, one: &mut End, other: &mut End) -> anyhow::Result<()> {
    exchange(lines, one, other)?;
    act(lines, one, other, ops::begin())?;
    act(lines, other, one, ops::begin())
}

/// A link of this name, the first or second of either end, and a message over it, which is accepted.
fn send(
    lines: &mut Vec<u8>,
    from: &mut End,
    to: &mut End,
    name: &str,
    link: u32,
) -> anyhow::Result<()> {
    attach_both(lines, from, to, name)?;
    act(lines, to, from, ops::grant(link, 10))?;
    act(lines, from, to, start(link, 1))?;
    act(lines, to, from, ops::take(link))?;
    act(lines, to, from, ops::accept(0))?;
    act(lines, from, to, ops::learn(link))
}

/// The one end asks for a link, and the other takes it, to which it is offered.
fn attach_both(
    lines: &mut Vec<u8>,
    from: &mut End,
    to: &mut End,
    name: &str,
) -> anyhow::Result<()> {
    let alloc = *lines.allocator();
    act(lines, from, to, attach(alloc, name, Role::Sender)?)?;
    act(lines, to, from, attach(alloc, name, Role::Receiver)?)
}

/// The one end does the operation, and each hears what the other says then.
fn act(lines: &mut Vec<u8>, one: &mut End, other: &mut End, op: Op) -> anyhow::Result<()> {
    one.apply(lines, op)?;
    exchange(lines, one, other)
}

/// One end, and its name.
#[derive(Drop)]
pub struct End {
    name: &'static str,
    conn: Conn,
}

impl End {
    /// A connection of this name.
    pub fn new(alloc: Global, name: &'static str) -> anyhow::Result<End> {
        let conn = Conn::new(alloc, Config::new(Text::new(alloc, name)?))?;
        Ok(End { name, conn })
    }

    /// Does the operation, and tells what it gave.
    pub fn apply(&mut self, lines: &mut Vec<u8>, op: Op) -> anyhow::Result<()> {
        let before = self.conn.logged().journal().len();
        self.conn.perform(op)?;
        self.tell_since(lines, before)
    }

    /// Hears the octets, tells what they gave, and answers what goes out then.
    pub fn hear(&mut self, lines: &mut Vec<u8>, octets: &[u8]) -> anyhow::Result<Vec<u8>> {
        let before = self.conn.logged().journal().len();
        let answer = hear(*lines.allocator(), &mut self.conn, octets)?;
        self.tell_since(lines, before)?;
        Ok(answer)
    }

    /// Tells what each entry of the journal behind the first ones gave.
    fn tell_since(&self, lines: &mut Vec<u8>, before: usize) -> anyhow::Result<()> {
        for entry in self.conn.logged().journal().iter().skip(before) {
            tell(lines, self.name, &entry.reply.given)?;
        }
        Ok(())
    }

    fn tell_end(&self, lines: &mut Vec<u8>) -> anyhow::Result<()> {
        let (name, phase) = (self.name, self.conn.phase());
        let steps = self.conn.logged().steps();
        Ok(writeln!(lines, "{name}: {phase:?} after {steps} steps")?)
    }
}

/// Hears the octets, and answers what goes out then.
pub fn hear(alloc: Global, conn: &mut Conn, octets: &[u8]) -> anyhow::Result<Vec<u8>> {
    let mut from = FromStd::new(octets);
    let mut to = FromStd::new(Vec::new(alloc));
    match Pump::new().run(&mut from, &mut to, conn, READS) {
        Ok(_) => Ok(to.into_inner()),
        Err(fault) => Err(fault.into()),
    }
}

/// Tells what a step gives, but for what goes without saying here.
fn tell(lines: &mut Vec<u8>, name: &str, given: &Given) -> anyhow::Result<()> {
    match given {
        Given::Attached(link) => tell_of(lines, name, "link", *link, "is attached"),
        Given::Offered(link) => tell_of(lines, name, "link", *link, "is offered"),
        Given::Ready(link, id) => tell_ready(lines, name, *id, *link),
        Given::Taken(taken) => tell_of(lines, name, "delivery", taken.get().id, "is taken"),
        Given::Learned(learned) => tell_learned(lines, name, learned.get()),
        _ => Ok(()),
    }
}

fn tell_ready(lines: &mut Vec<u8>, name: &str, id: u32, link: u32) -> anyhow::Result<()> {
    Ok(writeln!(lines, "{name}: delivery {id} is ready on link {link}")?)
}

/// Each end hears what the other says, in turn.
fn exchange(lines: &mut Vec<u8>, one: &mut End, other: &mut End) -> anyhow::Result<()> {
    let mut said = one.hear(lines, &[])?;
    for _ in 0..TURNS {
        let answer = other.hear(lines, &said)?;
        said = one.hear(lines, &answer)?;
    }
    Ok(())
}
