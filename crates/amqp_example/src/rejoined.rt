//! `amqp_conn`: a link that goes on over one connection after the other. The first is cut in mid-frame, the second comes near the limit of its journal;
//! each time what is in doubt goes with the link to the next connection, and each message arrives once.
//!
//! An outcome is told unsettled and settled by the sender, so that the receiver knows what it has until the sender knows, too (part 2, 2.6.13).

use crate::connection::hear;
use crate::operations::{start, tag_of};
use amqp_conn::{
    Config, Conn, DeliveryState, Given, Op, Refusal, Role, Suspended, Tag, Text, Verdict, ops,
};
use amqp_types::Items;
use anyhow::Context;
use std::alloc::Global;
use std::io::Write;

/// How many messages are sent; the tag of each is its number.
const MESSAGES: u8 = 20;

/// How many a connection is to send at most before it is looked at how many steps are left.
const BATCH: u8 = 4;

/// How many steps each connection has.
const STEPS: u32 = 48;

/// How many of these a batch takes at most, with those that close the session.
const BATCH_STEPS: u32 = 24;

/// More connections than the messages want.
const CONNECTIONS: u8 = 10;

/// More pieces in turn than either end has to say.
const PIECES: u32 = 4;

/// What both programs know beside their connections: the link as each has put it aside, what the sender has to send yet, and how often each message
/// arrived.
#[derive(Drop)]
struct Known {
    from: Suspended,
    to: Suspended,
    next: u8,
    learnt: u32,
    arrived: [u8; MESSAGES as usize],
}

/// Two ends of a connection.
#[derive(Drop)]
struct Ends {
    one: Conn,
    other: Conn,
}

/// Sends all messages, over as many connections as it takes.
pub fn run(lines: &mut Vec<u8>) -> anyhow::Result<()> {
    let mut known = at_first(*lines.allocator())?;
    let sent = send_all(lines, &mut known);
    let once = known.arrived.iter().all(|times| *times == 1);
    drop(known);
    sent?;
    Ok(writeln!(lines, "each of {MESSAGES} messages arrived once: {once}")?)
}

/// What is known before the first connection: nothing waits on the link.
fn at_first(alloc: Global) -> anyhow::Result<Known> {
    let (one, other) = (Text::new(alloc, "q")?, Text::new(alloc, "q")?);
    Ok(Known {
        from: Suspended {
            name: one,
            role: Role::Sender,
            items: Items::new(alloc),
        },
        to: Suspended {
            name: other,
            role: Role::Receiver,
            items: Items::new(alloc),
        },
        next: 0,
        learnt: 0,
        arrived: [0; MESSAGES as usize],
    })
}

fn send_all(lines: &mut Vec<u8>, known: &mut Known) -> anyhow::Result<()> {
    for number in 0..CONNECTIONS {
        connect_and_go(lines, number, known)?;
        if known.learnt == MESSAGES as u32 {
            break;
        }
    }
    Ok(())
}

/// One connection with this number, after which what of the link goes with it to the next is known.
fn connect_and_go(lines: &mut Vec<u8>, number: u8, known: &mut Known) -> anyhow::Result<()> {
    let mut ends = connect(*lines.allocator())?;
    let gone = go(lines, number, &mut ends, known);
    drop(ends);
    gone
}

fn connect(alloc: Global) -> anyhow::Result<Ends> {
    let one = conn(alloc, "one")?;
    match conn(alloc, "other") {
        Ok(other) => Ok(Ends { one, other }),
        Err(error) => {
            drop(one);
            Err(error)
        }
    }
}

/// A connection of this name, which takes few steps.
fn conn(alloc: Global, name: &str) -> anyhow::Result<Conn> {
    let mut config = Config::new(Text::new(alloc, name)?);
    config.journal_limit = STEPS;
    Ok(Conn::new(alloc, config)?)
}

fn go(lines: &mut Vec<u8>, number: u8, ends: &mut Ends, known: &mut Known) -> anyhow::Result<()> {
    let alloc = *lines.allocator();
    begin(alloc, ends)?;
    attach(alloc, ends, known)?;
    if number == 0 {
        cut_off(lines, ends, known)?;
    } else {
        go_on(lines, ends, known)?;
    }
    put_aside(ends, known)
}

/// Both open and begin.
fn begin(alloc: Global, ends: &mut Ends) -> anyhow::Result<()> {
    exchange(alloc, ends)?;
    ends.one.perform(ops::begin())?;
    ends.other.perform(ops::begin())?;
    exchange(alloc, ends)
}

/// Both attach the link again; the receiver grants credit for all messages.
fn attach(alloc: Global, ends: &mut Ends, known: &Known) -> anyhow::Result<()> {
    rejoin(alloc, &mut ends.one, &known.from)?;
    rejoin(alloc, &mut ends.other, &known.to)?;
    exchange(alloc, ends)?;
    ends.other.perform(ops::grant(0, MESSAGES as u32))?;
    exchange(alloc, ends)
}

fn rejoin(alloc: Global, conn: &mut Conn, link: &Suspended) -> anyhow::Result<()> {
    Ok(conn.perform(ops::rejoin(alloc, link, None, None)?)?)
}

/// The link of either end, with what is in doubt on it.
fn put_aside(ends: &Ends, known: &mut Known) -> anyhow::Result<()> {
    known.from = aside(&ends.one, Role::Sender)?;
    known.to = aside(&ends.other, Role::Receiver)?;
    Ok(())
}

/// The only link of an end.
fn aside(conn: &Conn, role: Role) -> anyhow::Result<Suspended> {
    let mut links = conn.links_aside(role)?;
    let link = links.pop();
    drop(links);
    link.context("each end has its link")
}

/// Each end hears what the other says, in turn.
fn exchange(alloc: Global, ends: &mut Ends) -> anyhow::Result<()> {
    let mut said = hear(alloc, &mut ends.one, &[])?;
    for _ in 0..PIECES {
        let answer = hear(alloc, &mut ends.other, &said)?;
        said = hear(alloc, &mut ends.one, &answer)?;
    }
    Ok(())
}

/// A batch is sent, and the pipe is cut in its last frame. Of the others the receiver takes two and accepts one, which the sender does not hear.
fn cut_off(lines: &mut Vec<u8>, ends: &mut Ends, known: &mut Known) -> anyhow::Result<()> {
    send(&mut ends.one, known)?;
    carry_but_three(*lines.allocator(), ends)?;
    take(&mut ends.other, known)?;
    accept_at(&mut ends.other, 0)?;
    take(&mut ends.other, known)?;
    ends.one.lost();
    ends.other.lost();
    tell(lines, "cut off", ends, known)
}

/// The receiver hears all that the sender says but the last three octets.
fn carry_but_three(alloc: Global, ends: &mut Ends) -> anyhow::Result<()> {
    let said = hear(alloc, &mut ends.one, &[])?;
    let there = &said[..said.len().saturating_sub(3)];
    let heard = hear(alloc, &mut ends.other, there);
    drop(said);
    drop(heard?);
    Ok(())
}

/// What is in doubt is resumed, and batches are sent as long as there are steps for them. Then the connection is closed.
fn go_on(lines: &mut Vec<u8>, ends: &mut Ends, known: &mut Known) -> anyhow::Result<()> {
    let alloc = *lines.allocator();
    resume(lines, &mut ends.one, known)?;
    deliver(alloc, ends, known)?;
    send_batches(alloc, ends, known)?;
    ends.one.close(None)?;
    exchange(alloc, ends)?;
    tell(lines, "closed", ends, known)
}

fn send_batches(alloc: Global, ends: &mut Ends, known: &mut Known) -> anyhow::Result<()> {
    for _ in 0..MESSAGES {
        if known.next == MESSAGES || is_near_its_end(ends) {
            break;
        }
        send(&mut ends.one, known)?;
        deliver(alloc, ends, known)?;
    }
    Ok(())
}

/// Either journal has no steps for another batch.
fn is_near_its_end(ends: &Ends) -> bool {
    ends.one.logged().steps_left() < BATCH_STEPS || ends.other.logged().steps_left() < BATCH_STEPS
}

/// What was sent arrives and is accepted, and the sender learns of it.
fn deliver(alloc: Global, ends: &mut Ends, known: &mut Known) -> anyhow::Result<()> {
    exchange(alloc, ends)?;
    take_all(&mut ends.other, known)?;
    accept_all(&mut ends.other)?;
    exchange(alloc, ends)?;
    learn(&mut ends.one, known)?;
    exchange(alloc, ends)
}

/// The next messages.
fn send(conn: &mut Conn, known: &mut Known) -> anyhow::Result<()> {
    for _ in 0..BATCH {
        if known.next == MESSAGES {
            break;
        }
        conn.perform(start(0, known.next))?;
        known.next = known.next.saturating_add(1);
    }
    Ok(())
}

/// Takes all messages that are ready.
fn take_all(conn: &mut Conn, known: &mut Known) -> anyhow::Result<()> {
    for _ in 0..MESSAGES {
        if !take(conn, known)? {
            break;
        }
    }
    Ok(())
}

/// Takes a message, where one is ready.
fn take(conn: &mut Conn, known: &mut Known) -> anyhow::Result<bool> {
    let is_taken = is_done(conn.perform(ops::take(0)))?;
    if is_taken {
        let number = taken(conn) as usize;
        if let Some(times) = known.arrived.get_mut(number) {
            *times = times.saturating_add(1);
        }
    }
    Ok(is_taken)
}

/// The operation was done. Where memory is wanting it may still be, so that is no answer.
fn is_done(answer: Result<(), Refusal>) -> anyhow::Result<bool> {
    match answer {
        Ok(()) => Ok(true),
        Err(Refusal::NoMemory) => Err(Refusal::NoMemory.into()),
        Err(_) => Ok(false),
    }
}

/// The number of the message that was taken last.
fn taken(conn: &Conn) -> u8 {
    match conn.given() {
        Some(Given::Taken(taken)) => number_of(&taken.get().tag),
        _ => 0,
    }
}

/// The number of the message with this tag.
fn number_of(tag: &Tag) -> u8 {
    tag.octets().first().copied().unwrap_or(0)
}

/// Accepts each unsettled delivery that has no outcome yet, and leaves it to the sender to settle it.
fn accept_all(conn: &mut Conn) -> anyhow::Result<()> {
    for place in 0..conn.logged().endpoint().unsettled_len(Role::Receiver) {
        accept_at(conn, place)?;
    }
    Ok(())
}

fn accept_at(conn: &mut Conn, place: usize) -> anyhow::Result<()> {
    match undecided(conn, place) {
        Some(id) => Ok(conn.perform(dispose(Role::Receiver, id, Some(DeliveryState::Accepted)))?),
        None => Ok(()),
    }
}

/// The id of the unsettled delivery at this place, where it has no state of ours.
fn undecided(conn: &Conn, place: usize) -> Option<u32> {
    match conn.logged().endpoint().unsettled_at(Role::Receiver, place) {
        Some(item) if item.local.is_none() => Some(item.id),
        _ => None,
    }
}

/// The receiver tells the state of a delivery, or the sender settles it.
fn dispose(role: Role, id: u32, state: Option<DeliveryState>) -> Op {
    Op::Dispose {
        role,
        first: id,
        last: id,
        settled: role == Role::Sender,
        state,
    }
}

/// Learns what was told, and settles it.
fn learn(conn: &mut Conn, known: &mut Known) -> anyhow::Result<()> {
    for _ in 0..MESSAGES {
        if !is_done(conn.perform(ops::learn(0)))? {
            break;
        }
        known.learnt = known.learnt.saturating_add(1);
        conn.perform(dispose(Role::Sender, learnt(conn), None))?;
    }
    Ok(())
}

/// The id of the delivery of which was learnt last.
fn learnt(conn: &Conn) -> u32 {
    match conn.given() {
        Some(Given::Learned(learned)) => learned.get().id,
        _ => 0,
    }
}

/// Resumes what waits on the link, in its order: what did not come is sent again.
fn resume(lines: &mut Vec<u8>, conn: &mut Conn, known: &mut Known) -> anyhow::Result<()> {
    for _ in 0..MESSAGES {
        let Some((number, verdict)) = waiting(conn) else {
            break;
        };
        writeln!(lines, "message {number} is {verdict:?}")?;
        resume_one(conn, number, verdict, known)?;
    }
    Ok(())
}

/// The number of the first message that waits, and what became of it.
fn waiting(conn: &Conn) -> Option<(u8, Verdict)> {
    match conn.logged().endpoint().waiting_at(0, 0) {
        Some((tag, verdict)) => Some((number_of(tag), verdict)),
        None => None,
    }
}

fn resume_one(
    conn: &mut Conn,
    number: u8,
    verdict: Verdict,
    known: &mut Known,
) -> anyhow::Result<()> {
    conn.perform(Op::Resume {
        link: 0,
        tag: tag_of(number),
        settled: verdict == Verdict::Outcome,
    })?;
    match verdict {
        Verdict::Outcome => known.learnt = known.learnt.saturating_add(1),
        Verdict::Absent | Verdict::Partial => conn.perform(start(0, number))?,
        Verdict::Held | Verdict::Unclear => {}
    }
    Ok(())
}

fn tell(lines: &mut Vec<u8>, what: &str, ends: &Ends, known: &Known) -> anyhow::Result<()> {
    let left = ends.one.logged().steps_left();
    let (sent, learnt) = (known.next, known.learnt);
    Ok(writeln!(
        lines,
        "{what}: {sent} messages were sent, {learnt} are known to be accepted, {left} of {STEPS} steps are left"
    )?)
}
