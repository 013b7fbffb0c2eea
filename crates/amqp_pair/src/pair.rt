//! Two ends of a connection over a socket of the loopback, each with its threads.
ghost use Rattle.std.specs.Prelude.{OnOk};
ghost use Rattle.amqp_pair.specs.Ranges.{IsInRange};

use crate::beside::beside_if_made;
use crate::fault::PairFault;
use crate::options::Options;
use crate::receiver::run_receiver;
use crate::sender::run_sender;
use std::alloc::Global;
use std::io::Write;
use std::net::{IpAddr, Ipv4Addr, Net, OpenListener, SocketAddr, TcpListener, TcpStream};
use std::sync::Wait;
use std::thread::Threads;

/// What a run has done.
#[derive(Clone, Copy)]
pub struct Totals {
    pub queued: u64,
    pub consumed: u64,
    pub accepted: u64,
    /// Deliveries of both ends that are still unsettled, and units that nobody wrote.
    pub left: u64,
}

/// Two ends of a socket of the loopback: the one sends its messages, consumers of the other accept them, and both close. It tells what was done, in
/// four lines.
///
/// # Errors
///
/// `Options` where one is out of its range; `Socket`; `Start`, `Read`, `Write`, `Send`, `Consume`, `Close`, `Receipt` and `Ids` of either end; `Octets`
/// where not as many were received as were to be sent; `Out` where the four lines cannot be written; `NoMemory`.
pub fn run_pair<R, W: Write>(
    rt: &R,
    alloc: Global,
    options: &Options,
    out: &mut W,
) -> Result<(), PairFault>
where
    R: Net<Stream = TcpStream> + Threads + Wait + Sync,
    ensures { OnOk result (IsInRange options.now) }
{
    if !options.are_in_range() {
        return Err(PairFault::Options);
    }
    let (stream, peer) = connected(rt)?;
    let totals = run_over(rt, alloc, options, stream, peer)?;
    tell(out, &totals)
}

/// The two ends, over the two ends of a socket. Each is made in its own thread. The options are not looked at: with messages, and without a consumer or
/// credit, it does not end.
///
/// # Errors
///
/// Those of `run_pair` but `Options` and `Out`.
pub fn run_over<R>(
    rt: &R,
    alloc: Global,
    options: &Options,
    stream: TcpStream,
    peer: TcpStream,
) -> Result<Totals, PairFault>
where
    R: Threads + Wait + Sync,
{
    let (sent, received) = beside_if_made(
        rt,
        move || run_sender(rt, alloc, options, stream),
        move || run_receiver(rt, alloc, options, peer),
    );
    let Some(sent) = sent else {
        return Err(PairFault::Thread);
    };
    let (sent, received) = (sent?, received?);
    if received.octets != u64::from(options.count).saturating_mul(u64::from(options.size)) {
        return Err(PairFault::Octets);
    }
    Ok(Totals {
        queued: sent.queued,
        consumed: received.consumed,
        accepted: sent.accepted,
        left: sent.left.saturating_add(received.left),
    })
}

fn tell<W: Write>(out: &mut W, totals: &Totals) -> Result<(), PairFault> {
    writeln!(out, "queued {}", totals.queued).map_err(PairFault::Out)?;
    writeln!(out, "consumed {}", totals.consumed).map_err(PairFault::Out)?;
    writeln!(out, "accepted {}", totals.accepted).map_err(PairFault::Out)?;
    writeln!(out, "left {}", totals.left).map_err(PairFault::Out)?;
    out.flush().map_err(PairFault::Out)
}

/// Two ends of a socket of the loopback; at the other end of the first is whoever connects first.
///
/// # Errors
///
/// `Socket`.
pub fn connected<R: Net<Stream = TcpStream>>(rt: &R) -> Result<(TcpStream, TcpStream), PairFault> {
    let loopback = SocketAddr::new(IpAddr::V4(Ipv4Addr::new(127, 0, 0, 1)), 0);
    let listener = TcpListener::bind(rt, loopback).map_err(PairFault::Socket)?;
    let there = listener.local_addr().map_err(PairFault::Socket)?;
    let peer = TcpStream::connect(rt, there).map_err(PairFault::Socket)?;
    let (stream, _) = listener.accept().map_err(PairFault::Socket)?;
    stream.set_nodelay(true).map_err(PairFault::Socket)?;
    peer.set_nodelay(true).map_err(PairFault::Socket)?;
    Ok((stream, peer))
}
