//! `amqp_shared`: two threads send on one connection, each with a pass of its own, which counts its steps. The other end is in memory.
ghost use Rattle.amqp_shared.specs.Passes.{IsNamed};

use crate::connection::End;
use crate::operations::attach;
use amqp_conn::{Bytes, Config, Octets, Op, Role, Tag, Text, ops};
use amqp_shared::{
    Closed, Guard, Name, NotClosed, Pass, Retention, Seed, Shared, WriterEnd, open_shared,
};
use anyhow::{bail, ensure};
use std::alloc::{AllocError, Global};
use std::io::Write;
use std::marker::Brand;
use std::sync::Wait;
use std::thread;
use std::thread::Threads;

/// How many units the ring has room for; what is more waits in the connection.
const RING: usize = 4;

/// More units in turn than either end has to say here.
const TURNS: u32 = 16;

/// How many deliveries each thread sends.
const DELIVERIES: u8 = 4;

/// Two threads send; the connection is closed, and comes back with its journal.
pub fn run<R: AllocGlobal + Threads + Wait + Sync>(
    rt: &R,
    lines: &mut Vec<u8>,
) -> anyhow::Result<()> {
    let mut peer = End::new(rt.alloc(), "peer")?;
    let talked = share(rt, lines, &mut peer);
    drop(peer);
    talked
}

/// A connection of its own type, so that no pass of another counts for it.
fn share<R: AllocGlobal + Threads + Wait + Sync>(
    rt: &R,
    lines: &mut Vec<u8>,
    peer: &mut End,
) -> anyhow::Result<()> {
    let config = Config::new(Text::new(rt.alloc(), "shared")?);
    let seed = Seed::new(rt.alloc(), config, RING, Retention::All)?;
    talk::<Brand, R>(rt, lines, seed, peer)
}

fn talk<N: Name + Send + Sync, R: AllocGlobal + Threads + Wait + Sync>(
    rt: &R,
    lines: &mut Vec<u8>,
    seed: Seed,
    peer: &mut End,
) -> anyhow::Result<()>
    requires { IsNamed seed N.name N.parts N.ring N.retention }
{
    let (shared, mut pass, mut units) = open_shared::<N>(seed);
    let mut ours = Ours {
        shared: &shared,
        pass: &mut pass,
        units: &mut units,
    };
    match speak(rt, lines, &mut ours, peer) {
        Ok((first, second)) => close(lines, shared, units, pass, first, second),
        Err(error) => {
            drop(units);
            drop(pass);
            drop(shared);
            Err(error)
        }
    }
}

/// The shared end, as the thread has it that speaks with the peer.
#[derive(Drop)]
struct Ours<'a, N: Name> {
    shared: &'a Shared<N>,
    pass: &'a mut Pass<N>,
    units: &'a mut WriterEnd<N>,
}

/// Two threads send, each with a pass of its own, which it gives back.
fn speak<N: Name + Send + Sync, R: AllocGlobal + Threads + Wait + Sync>(
    rt: &R,
    lines: &mut Vec<u8>,
    ours: &mut Ours<'_, N>,
    peer: &mut End,
) -> anyhow::Result<(Pass<N>, Pass<N>)> {
    begin(rt, lines, ours, peer)?;
    attach_both(rt, lines, ours, peer)?;
    let (first, second) = split(ours.pass)?;
    let (first, second) = send_by_two(rt, ours.shared, first, second);
    match exchange(rt, lines, ours, peer) {
        Ok(()) => Ok((first, second)),
        Err(error) => {
            drop(first);
            drop(second);
            Err(error)
        }
    }
}

/// Two passes, split off this one.
fn split<N: Name>(pass: &mut Pass<N>) -> anyhow::Result<(Pass<N>, Pass<N>)> {
    match (pass.split(), pass.split()) {
        (Some(first), Some(second)) => Ok((first, second)),
        _ => bail!("a pass of 65536 parts can be split"),
    }
}

/// Both open, and begin the session.
fn begin<N: Name, R: AllocGlobal + Wait>(
    rt: &R,
    lines: &mut Vec<u8>,
    ours: &mut Ours<'_, N>,
    peer: &mut End,
) -> anyhow::Result<()> {
    exchange(rt, lines, ours, peer)?;
    apply(rt, ours.shared, ours.pass, ops::begin())?;
    exchange(rt, lines, ours, peer)?;
    peer.apply(lines, ops::begin())?;
    exchange(rt, lines, ours, peer)
}

/// A link on which the peer gives credit for ten deliveries.
fn attach_both<N: Name, R: AllocGlobal + Wait>(
    rt: &R,
    lines: &mut Vec<u8>,
    ours: &mut Ours<'_, N>,
    peer: &mut End,
) -> anyhow::Result<()> {
    let op = attach(rt.alloc(), "there", Role::Sender)?;
    apply(rt, ours.shared, ours.pass, op)?;
    exchange(rt, lines, ours, peer)?;
    attach_peer(lines, peer)?;
    exchange(rt, lines, ours, peer)
}

/// The peer takes the link that was offered to it.
fn attach_peer(lines: &mut Vec<u8>, peer: &mut End) -> anyhow::Result<()> {
    let alloc = *lines.allocator();
    peer.apply(lines, attach(alloc, "there", Role::Receiver)?)?;
    peer.apply(lines, ops::grant(0, 10))
}

/// Each thread has a pass of its own, and takes the lock for one operation at a time.
fn send_by_two<N: Name + Send + Sync, R: AllocGlobal + Threads + Wait + Sync>(
    rt: &R,
    shared: &Shared<N>,
    first: Pass<N>,
    second: Pass<N>,
) -> (Pass<N>, Pass<N>) {
    thread::join(
        rt,
        move || send_all(rt, shared, first, 1),
        move || send_all(rt, shared, second, 2),
    )
}

/// Sends until one is refused. The pass tells how many were not.
fn send_all<N: Name, R: AllocGlobal + Wait>(
    rt: &R,
    shared: &Shared<N>,
    pass: Pass<N>,
    sender: u8,
) -> Pass<N> {
    let mut pass = pass;
    for turn in 0..DELIVERIES {
        if send(rt, shared, &mut pass, [sender, turn]).is_err() {
            break;
        }
    }
    pass
}

/// A delivery whose payload is its tag.
fn send<N: Name, R: AllocGlobal + Wait>(
    rt: &R,
    shared: &Shared<N>,
    pass: &mut Pass<N>,
    octets: [u8; 2],
) -> anyhow::Result<()> {
    let mut tag = Tag::empty();
    tag.set(&octets);
    let payload = Bytes::copy_from_slice(rt.alloc(), &octets)?;
    apply(rt, shared, pass, ops::start(0, tag, payload))
}

fn apply<N: Name, R: Wait>(
    rt: &R,
    shared: &Shared<N>,
    pass: &mut Pass<N>,
    op: Op,
) -> anyhow::Result<()> {
    let mut guard = shared.lock(rt);
    let answer = shared.call(&mut guard, pass, &op);
    drop(guard);
    drop(op);
    match answer {
        Ok(_) => Ok(()),
        Err(refusal) => Err(refusal.into()),
    }
}

/// Each end hears what the other put out.
fn exchange<N: Name, R: AllocGlobal + Wait>(
    rt: &R,
    lines: &mut Vec<u8>,
    ours: &mut Ours<'_, N>,
    peer: &mut End,
) -> anyhow::Result<()> {
    for _ in 0..TURNS {
        ours.shared.move_units(&mut ours.shared.lock(rt));
        let answer = write_to_peer(lines, ours.units, peer)?;
        hear(rt, ours.shared, ours.pass, answer)?;
    }
    Ok(())
}

/// The peer hears the first unit in the ring, if there is one, and answers what it says then.
fn write_to_peer<N: Name>(
    lines: &mut Vec<u8>,
    units: &mut WriterEnd<N>,
    peer: &mut End,
) -> anyhow::Result<Vec<u8>> {
    let alloc = *lines.allocator();
    let Some(unit) = units.take() else {
        return peer.hear(lines, &[]);
    };
    let joined = unit.bytes.join(alloc);
    drop(unit);
    let octets = joined?;
    peer.hear(lines, octets.as_slice())
}

/// Feeds all of the octets.
fn hear<N: Name, R: Wait>(
    rt: &R,
    shared: &Shared<N>,
    pass: &mut Pass<N>,
    octets: Vec<u8>,
) -> anyhow::Result<()> {
    let mut guard = shared.lock(rt);
    let fed = feed_all(shared, &mut guard, pass, octets.as_slice());
    drop(guard);
    drop(octets);
    fed
}

fn feed_all<N: Name>(
    shared: &Shared<N>,
    guard: &mut Guard<'_, N>,
    pass: &mut Pass<N>,
    octets: &[u8],
) -> anyhow::Result<()> {
    let mut rest = octets;
    for _ in 0..octets.len() {
        if rest.is_empty() {
            return Ok(());
        }
        let fed = shared.feed(guard, pass, &Octets::lent(rest))?;
        ensure!(fed.used > 0, "the peer breaks a rule");
        rest = &rest[fed.used..];
    }
    Ok(())
}

/// All that belongs to the connection comes together again.
fn close<N: Name>(
    lines: &mut Vec<u8>,
    shared: Shared<N>,
    units: WriterEnd<N>,
    pass: Pass<N>,
    first: Pass<N>,
    second: Pass<N>,
) -> anyhow::Result<()> {
    let alloc = *lines.allocator();
    let made = [pass.made(), first.made(), second.made()];
    match gather(alloc, pass, first, second) {
        Ok(passes) => tell(lines, made, shared.close(passes, units)),
        Err(error) => {
            drop(units);
            drop(shared);
            Err(error.into())
        }
    }
}

fn gather<N: Name>(
    alloc: Global,
    pass: Pass<N>,
    first: Pass<N>,
    second: Pass<N>,
) -> Result<Vec<Pass<N>>, AllocError> {
    match Vec::with_capacity(alloc, 3) {
        Ok(mut passes) => {
            passes.push_reserved(pass);
            passes.push_reserved(first);
            passes.push_reserved(second);
            Ok(passes)
        }
        Err(error) => {
            drop(pass);
            drop(first);
            drop(second);
            Err(error)
        }
    }
}

fn tell<N: Name>(
    lines: &mut Vec<u8>,
    made: [u64; 3],
    closed: Result<Closed, NotClosed<N>>,
) -> anyhow::Result<()> {
    match closed {
        Ok(closed) => {
            let told = tell_closed(lines, made, &closed);
            drop(closed);
            told
        }
        Err(refusal) => {
            let reason = refusal.reason;
            drop(refusal);
            Err(reason.into())
        }
    }
}

fn tell_closed(lines: &mut Vec<u8>, made: [u64; 3], closed: &Closed) -> anyhow::Result<()> {
    let [pass, first, second] = made;
    let steps = closed.conn.logged().steps();
    writeln!(
        lines,
        "shared: steps of the passes: {pass} + {first} + {second}, of the journal: {steps}"
    )?;
    let (taken, left) = (closed.taken, closed.left.len());
    Ok(writeln!(lines, "shared: units written: {taken}, left: {left}")?)
}
