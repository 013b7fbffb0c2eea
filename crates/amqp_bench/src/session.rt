//! Messages over a connection in memory: two ends, each with its journal, in one thread.

use crate::end::{End, EndFault, exchange};
use amqp_conn::{Bytes, Role};
use std::io::Write;
use std::rt::Clock;
use std::time::{Duration, Instant};

/// What is sent, and how.
#[derive(Clone, Copy, Debug)]
pub struct Messages {
    /// How many there are.
    pub count: u32,
    /// How long each is, in octets.
    pub size: u32,
    /// They are sent settled; else the receiver accepts and settles each, and the sender learns of it.
    pub settled: bool,
    /// How many the receiver lets begin at a time.
    pub credit: u32,
    /// How many deliveries a disposition names at most.
    pub range: u32,
    /// How many entries each end keeps of its journal at most; none: all.
    pub keep: Option<u32>,
}

/// What came of it.
#[derive(Clone, Copy)]
pub struct Totals {
    /// How many messages were taken.
    pub taken: u32,
    /// How many octets these had.
    pub octets: u64,
    /// How many messages the sender learnt to be settled.
    pub learnt: u32,
    /// How many steps the two ends made.
    pub steps: u32,
}

/// Sends the messages over a connection, and again over another, so many times.
pub fn run_sessions<R, W>(
    rt: &R,
    messages: Messages,
    sessions: u32,
    writer: &mut W,
) -> anyhow::Result<()>
where
    R: AllocGlobal + Eprint + Clock,
    W: Write,
{
    for _ in 0..sessions {
        run_session(rt, messages, writer)?;
    }
    Ok(())
}

/// Sends the messages, and tells what came of it; standard error has the time.
fn run_session<R, W>(rt: &R, messages: Messages, writer: &mut W) -> anyhow::Result<()>
where
    R: AllocGlobal + Eprint + Clock,
    W: Write,
{
    let (totals, took) = send_messages(rt, messages)?;
    writeln!(
        writer,
        "session taken {} octets {} learnt {} steps {}",
        totals.taken, totals.octets, totals.learnt, totals.steps
    )?;
    writer.flush()?;
    tell(rt, messages.count, took)
}

/// Tells the time of one message, and how many there are in a second.
fn tell<R: Eprint>(rt: &R, count: u32, took: Duration) -> anyhow::Result<()> {
    let nanoseconds = took.as_nanos().max(1);
    let each = nanoseconds / count.max(1) as u128;
    let each_second = (count as u128).saturating_mul(1000000000) / nanoseconds;
    eprintln!(rt; "session: {each} ns a message, {each_second} a second")?;
    Ok(())
}

/// Sends the messages from one end to the other. The time is that of both ends, without giving back the memory of their journals.
pub fn send_messages<R>(rt: &R, messages: Messages) -> anyhow::Result<(Totals, Duration)>
where
    R: AllocGlobal + Clock,
{
    let alloc = rt.alloc();
    let payload = Bytes::from_vec(vec![in alloc; 0x78u8; messages.size as usize]?)?;
    let mut sender = End::new(alloc, Role::Sender, messages, payload)?;
    let sent = send_from(rt, &mut sender, messages);
    drop(sender);
    sent
}

/// Sends them to a new receiver.
fn send_from<R>(rt: &R, sender: &mut End, messages: Messages) -> anyhow::Result<(Totals, Duration)>
where
    R: AllocGlobal + Clock,
{
    let mut receiver = End::new(rt.alloc(), Role::Receiver, messages, Bytes::new())?;
    let sent = send_timed(rt, sender, &mut receiver);
    drop(receiver);
    sent
}

fn send_timed<R>(rt: &R, sender: &mut End, receiver: &mut End) -> anyhow::Result<(Totals, Duration)>
where
    R: Clock,
{
    let begun = Instant::now(rt)?;
    send_all(sender, receiver)?;
    let took = begun.elapsed(rt)?;
    Ok((totals_of(sender, receiver), took))
}

/// The ends take turns until both are closed, or neither has anything to say.
fn send_all(sender: &mut End, receiver: &mut End) -> Result<(), EndFault> {
    for _ in 0..u64::MAX {
        sender.go_on()?;
        let is_any = exchange(sender, receiver)?;
        receiver.go_on()?;
        if !exchange(receiver, sender)? && !is_any {
            break;
        }
    }
    Ok(())
}

fn totals_of(sender: &End, receiver: &End) -> Totals {
    Totals {
        taken: receiver.counts().taken,
        octets: receiver.counts().octets,
        learnt: sender.counts().learnt,
        steps: sender.steps().saturating_add(receiver.steps()),
    }
}
