//! Messages over sockets: each end has one thread, which drives all of its connections.

use crate::end::connection;
use crate::hand::{Counts, Hand};
use crate::session::Messages;
use amqp_conn::{Bytes, Conn, Role};
use amqp_ready::{Driver, Limits, Round, SlotFault, Welcome, milliseconds};
use mio::net::{TcpListener, TcpStream};
use std::alloc::{AllocError, Global};
use std::io;
use std::io::Write;
use std::net::{IpAddr, Ipv4Addr, Net, SocketAddr};
use std::rt::Clock;
use std::time::{Duration, Instant};

/// How many events a turn takes at most.
pub(crate) const EVENTS: usize = 1024;

/// The longest and the shortest time between two looks at the clock, in milliseconds.
const TICK: u64 = 1000;

const LEAST: u64 = 10;

/// A peer opens within ten seconds, and closes within five; how long it is silent does not matter.
const LIMITS: Limits = Limits {
    open: 10000,
    silence: u64::MAX,
    close: 5000,
};

/// Which ends a run has.
#[derive(Clone, Copy, Debug)]
pub enum Ends {
    /// It connects, and sends.
    Sender,
    /// It listens, and receives.
    Receiver,
    /// One thread has all of both.
    Both,
}

/// What is sent over which connections.
#[derive(Clone, Copy, Debug)]
pub struct Sockets {
    pub ends: Ends,
    /// The port of 127.0.0.1; 0: any that is free.
    pub port: u16,
    pub connections: u32,
    /// Over each connection.
    pub messages: Messages,
}

/// What the ends have done.
#[derive(Clone, Copy)]
pub(crate) struct Totals {
    pub(crate) begun: u64,
    pub(crate) learnt: u64,
    pub(crate) taken: u64,
    octets: u64,
    /// How many connections did not end as they may.
    pub(crate) faults: u64,
}

impl Totals {
    /// What two ends have done.
    pub(crate) fn with(self, other: Totals) -> Totals {
        Totals {
            begun: self.begun.saturating_add(other.begun),
            learnt: self.learnt.saturating_add(other.learnt),
            taken: self.taken.saturating_add(other.taken),
            octets: self.octets.saturating_add(other.octets),
            faults: self.faults.saturating_add(other.faults),
        }
    }

    fn add(&mut self, counts: Counts, fault: Option<SlotFault>) {
        self.begun = self.begun.saturating_add(u64::from(counts.begun));
        self.learnt = self.learnt.saturating_add(u64::from(counts.learnt));
        self.taken = self.taken.saturating_add(u64::from(counts.taken));
        self.octets = self.octets.saturating_add(counts.octets);
        if fault.is_some() {
            self.faults = self.faults.saturating_add(1);
        }
    }
}

/// Makes the receiving end of each connection, of so many at most.
#[derive(Drop)]
struct Receives {
    alloc: Global,
    messages: Messages,
    left: u32,
}

impl Welcome<Hand> for Receives {
    fn welcome(&mut self, _from: SocketAddr) -> Option<(Conn, Hand)> {
        if self.left == 0 {
            return None;
        }
        self.left -= 1;
        match connection(self.alloc, "receiver") {
            Ok(conn) => {
                let hand = Hand::new(self.alloc, Role::Receiver, self.messages, Bytes::new());
                Some((conn, hand))
            }
            Err(_) => None,
        }
    }
}

/// Sends the messages over all connections, and tells what came of it; standard error has the time.
pub fn run_sockets<R, W>(rt: &R, sockets: Sockets, writer: &mut W) -> anyhow::Result<()>
where
    R: AllocGlobal + Eprint + Clock + Net,
    W: Write,
{
    let mut driver = new_driver(rt)?;
    let ran = run_driver(rt, &mut driver, sockets);
    drop(driver);
    let (totals, took) = ran?;
    writeln!(
        writer,
        "sockets begun {} learnt {} taken {} octets {} faults {}",
        totals.begun, totals.learnt, totals.taken, totals.octets, totals.faults
    )?;
    writer.flush()?;
    tell(rt, totals, took)
}

/// Tells the time of one message, and how many there are in a second.
fn tell<R: Eprint>(rt: &R, totals: Totals, took: Duration) -> anyhow::Result<()> {
    let count = u128::from(totals.begun.max(totals.taken).max(1));
    let nanoseconds = took.as_nanos().max(1);
    let each = nanoseconds / count;
    let each_second = count.saturating_mul(1000000000) / nanoseconds;
    eprintln!(rt; "sockets: {each} ns a message, {each_second} a second")?;
    Ok(())
}

/// A driver without connections.
pub(crate) fn new_driver<R>(rt: &R) -> io::Result<Driver<Hand>>
where
    R: AllocGlobal + Net,
{
    Driver::new(rt, rt.alloc(), EVENTS)
}

fn run_driver<R>(
    rt: &R,
    driver: &mut Driver<Hand>,
    sockets: Sockets,
) -> anyhow::Result<(Totals, Duration)>
where
    R: AllocGlobal + Clock + Net,
{
    begin(rt, driver, sockets)?;
    drive(rt, driver, sockets)
}

/// Drives all connections until they have ended. The time is from the first connection to the end of the last one.
pub(crate) fn drive<R>(
    rt: &R,
    driver: &mut Driver<Hand>,
    sockets: Sockets,
) -> anyhow::Result<(Totals, Duration)>
where
    R: AllocGlobal + Clock,
{
    let mut receives = Receives {
        alloc: rt.alloc(),
        messages: sockets.messages,
        left: sockets.connections,
    };
    await_first(driver, &mut receives)?;
    let begun = Instant::now(rt)?;
    let totals = turn_to_the_end(rt, driver, &mut receives, sockets, begun)?;
    Ok((totals, begun.elapsed(rt)?))
}

/// Listens, connects, or both.
fn begin<R>(rt: &R, driver: &mut Driver<Hand>, sockets: Sockets) -> anyhow::Result<()>
where
    R: AllocGlobal + Net,
{
    let mut there = loopback(sockets.port);
    if sockets.ends != Ends::Sender {
        let listener = TcpListener::bind(rt, there)?;
        there = listener.local_addr()?;
        driver.listen(listener)?;
    }
    if sockets.ends != Ends::Receiver {
        connect_senders(rt, driver, there, sockets)?;
    }
    Ok(())
}

/// A port of this machine; 0: any that is free.
pub(crate) fn loopback(port: u16) -> SocketAddr {
    SocketAddr::new(IpAddr::V4(Ipv4Addr::new(127, 0, 0, 1)), port)
}

/// Connects as many ends that send as there are to be.
pub(crate) fn connect_senders<R>(
    rt: &R,
    driver: &mut Driver<Hand>,
    there: SocketAddr,
    sockets: Sockets,
) -> anyhow::Result<()>
where
    R: AllocGlobal + Net,
{
    let size = sockets.messages.size as usize;
    let payload = Bytes::from_vec(vec![in rt.alloc(); 0x78u8; size]?)?;
    connect_all(rt, driver, there, sockets, &payload)
}

fn connect_all<R>(
    rt: &R,
    driver: &mut Driver<Hand>,
    there: SocketAddr,
    sockets: Sockets,
    payload: &Bytes,
) -> anyhow::Result<()>
where
    R: AllocGlobal + Net,
{
    for _ in 0..sockets.connections {
        let stream = TcpStream::connect(rt, there)?;
        add_sender(
            rt.alloc(),
            driver,
            stream,
            sockets.messages,
            payload.clone()?,
        )?;
    }
    Ok(())
}

fn add_sender(
    alloc: Global,
    driver: &mut Driver<Hand>,
    stream: TcpStream,
    messages: Messages,
    payload: Bytes,
) -> anyhow::Result<()> {
    let conn = connection(alloc, "sender")?;
    let hand = Hand::new(alloc, Role::Sender, messages, payload);
    match driver.add(stream, conn, hand) {
        Ok(_) => Ok(()),
        Err(not_added) => {
            drop(not_added);
            Err(AllocError.into())
        }
    }
}

/// Turns until a connection is there.
fn await_first(driver: &mut Driver<Hand>, receives: &mut Receives) -> anyhow::Result<()> {
    for _ in 0..u64::MAX {
        if !driver.slots().is_empty() {
            break;
        }
        let _: Round = driver.turn(None)?;
        admit(driver, receives);
    }
    Ok(())
}

/// Lets peers in. Those that cannot be let in now, mostly since the process may have no file more, wait.
fn admit(driver: &mut Driver<Hand>, receives: &mut Receives) {
    let _ = driver.admit(receives);
}

/// Turns until as many connections have ended as there are to be.
fn turn_to_the_end<R: Clock>(
    rt: &R,
    driver: &mut Driver<Hand>,
    receives: &mut Receives,
    sockets: Sockets,
    begun: Instant,
) -> anyhow::Result<Totals> {
    let mut totals = Totals {
        begun: 0,
        learnt: 0,
        taken: 0,
        octets: 0,
        faults: 0,
    };
    let mut left = u64::from(sockets.connections);
    if sockets.ends == Ends::Both {
        left = left.saturating_mul(2);
    }
    let (mut now, mut next) = (0u64, 0u64);
    for _ in 0..u64::MAX {
        if left == 0 {
            break;
        }
        let wait = next.saturating_sub(now).min(TICK);
        let _: Round = driver.turn(Some(Duration::from_millis(wait)))?;
        admit(driver, receives);
        now = milliseconds(begun.elapsed(rt)?);
        if now >= next {
            next = look(driver, now);
        }
        left = left.saturating_sub(count_ended(driver, &mut totals));
    }
    Ok(totals)
}

/// The clock is looked at: when it is to be looked at next.
fn look(driver: &mut Driver<Hand>, now: u64) -> u64 {
    let soonest = driver.tick(LIMITS, now).unwrap_or(u64::MAX);
    let (least, most) = (now.saturating_add(LEAST), now.saturating_add(TICK));
    soonest.max(least).min(most)
}

/// Counts what those have done that have ended: how many these are.
fn count_ended(driver: &mut Driver<Hand>, totals: &mut Totals) -> u64 {
    let mut count = 0u64;
    for _ in 0..u64::MAX {
        if !count_one(driver, totals) {
            break;
        }
        count = count.saturating_add(1);
    }
    count
}

fn count_one(driver: &mut Driver<Hand>, totals: &mut Totals) -> bool {
    match driver.take_ended() {
        Some(ended) => {
            totals.add(ended.handler.counts(), ended.fault);
            drop(ended);
            true
        }
        None => false,
    }
}
