//! A server that listens, on one thread or several.
use crate::server::Server;
use crate::shared::{Job, Settings, Shared};
use crate::store::Totals;
use amqp_trace::Look;
use mio::Poll;
use mio::net::TcpListener;
use std::alloc::{AllocError, Global};
use std::io::{ErrorKind, Write};
use std::net::{IpAddr, Ipv4Addr, Net, SocketAddr};
use std::rt::Clock;
use std::sync::Wait;
use std::thread::Threads;
use std::time::Instant;
use std::{io, thread};
use thiserror::Error;

/// How long a server goes on at most behind its last message, in seconds.
const LAST: u64 = 10;

/// The most threads that a server has.
pub const MAX_THREADS: u32 = 64;

/// What a server is to do.
#[derive(Clone, Copy, Debug)]
pub struct Serve<'a> {
    /// A name or an address of this machine; an address of version 6 may stand in brackets.
    pub host: &'a str,
    /// 0 is any port that is free. The port is printed.
    pub port: u16,
    /// How much credit each link is granted.
    pub credit: u32,
    /// How many messages the queues have together at most.
    pub limit: u32,
    /// The server ends once so many messages went out and are done with; `None` if it goes on.
    pub count: Option<u32>,
    /// How many threads drive the connections, at most `MAX_THREADS`; 0 is 1. If the system makes no more of them, those that there are do all.
    pub threads: u32,
    /// How each frame is printed on standard error; `None` if it is not.
    pub trace: Option<Look>,
}

/// Why a server does not go on.
#[derive(Debug, Drop, Error)]
pub enum ServeFault {
    #[error("{0}")]
    Io(#[from] io::Error),
    #[error("out of memory")]
    Memory(#[from] AllocError),
    #[error("{host} has no address: {error}")]
    Host { host: String, error: io::Error },
    #[error("cannot listen at {at}: {error}")]
    Listen { at: SocketAddr, error: io::Error },
}

/// Serves. Writes the address at which it listens, and in the end what it has done.
///
/// # Errors
///
/// [`ServeFault::Host`] if the host has no address; [`ServeFault::Listen`] if the system does not let it listen there; [`ServeFault::Io`]
/// if a write or a wait fails, or
/// memory runs out.
pub fn run_serve<R, W: Write>(
    rt: &R,
    alloc: Global,
    serve: Serve<'_>,
    writer: &mut W,
) -> Result<(), ServeFault>
where
    R: Net + Clock + Eprint + Threads + Wait + Sync,
{
    let settings = Settings {
        alloc,
        credit: serve.credit,
        count: serve.count,
        trace: serve.trace,
    };
    let listener = listen(rt, alloc, serve)?;
    if let Err(error) = print_listens(&listener, writer) {
        drop(listener);
        return Err(ServeFault::Io(error));
    }
    let threads = serve.threads.max(1).min(MAX_THREADS);
    match Shared::new(settings, serve.limit as usize, threads, listener) {
        Ok(shared) => {
            let served = serve_on(rt, &shared, writer);
            drop(shared);
            served
        }
        Err(error) => Err(ServeFault::Memory(error)),
    }
}

fn listen<R: Net>(rt: &R, alloc: Global, serve: Serve<'_>) -> Result<TcpListener, ServeFault> {
    let host = without_brackets(serve.host);
    let at = match address_of(rt, host, serve.port) {
        Ok(at) => at,
        Err(error) => {
            let host = String::from_str(alloc, host)?;
            return Err(ServeFault::Host { host, error });
        }
    };
    match TcpListener::bind(rt, at) {
        Ok(listener) => Ok(listener),
        Err(error) => Err(ServeFault::Listen { at, error }),
    }
}

/// Returns the address that is in digits, or the first one that a name has.
fn address_of<R: Net>(rt: &R, host: &str, port: u16) -> io::Result<SocketAddr> {
    if let Ok(host) = host.parse::<IpAddr>() {
        return Ok(SocketAddr::new(host, port));
    }
    let mut found = [SocketAddr::new(IpAddr::V4(Ipv4Addr::UNSPECIFIED), port); 1];
    match rt.lookup_host(host, port, &mut found)? {
        0 => Err(io::Error::from(ErrorKind::NotFound)),
        _ => Ok(found[0]),
    }
}

fn without_brackets(host: &str) -> &str {
    match host.strip_prefix('[') {
        Some(rest) => match rest.strip_suffix(']') {
            Some(inner) => inner,
            None => host,
        },
        None => host,
    }
}

fn print_listens<W: Write>(listener: &TcpListener, writer: &mut W) -> io::Result<()> {
    let there = listener.local_addr()?;
    writeln!(writer, "listens {there}")?;
    writer.flush()
}

fn serve_on<R, W: Write>(rt: &R, shared: &Shared, writer: &mut W) -> Result<(), ServeFault>
where
    R: Net + Clock + Eprint + Threads + Wait + Sync,
{
    let jobs = jobs_of(rt, shared)?;
    let done = run_side_by_side(rt, shared, jobs);
    print_served(rt, shared, writer)?;
    match done {
        Ok(()) => Ok(()),
        Err(error) => Err(ServeFault::Memory(error)),
    }
}

/// Writes what was done, by all threads.
fn print_served<R: Wait, W: Write>(
    rt: &R,
    shared: &Shared,
    writer: &mut W,
) -> Result<(), ServeFault> {
    let (failed, totals, left) = done_by(rt, shared);
    if let Some(error) = failed {
        return Err(ServeFault::Io(error));
    }
    writeln!(
        writer,
        "served connections {} faults {} in {} out {} left {left}",
        totals.ended, totals.faults, totals.came, totals.went
    )?;
    writer.flush()?;
    Ok(())
}

fn done_by<R: Wait>(rt: &R, shared: &Shared) -> (Option<io::Error>, Totals, usize) {
    let store = shared.store.lock(rt);
    (store.failed, store.totals, store.queues.len())
}

/// Returns what each thread begins with.
fn jobs_of<R: Net>(rt: &R, shared: &Shared) -> io::Result<Vec<Job>> {
    let mut jobs = Vec::new(shared.settings.alloc);
    match add_jobs(rt, &mut jobs, shared.len()) {
        Ok(()) => Ok(jobs),
        Err(error) => {
            drop(jobs);
            Err(error)
        }
    }
}

fn add_jobs<R: Net>(rt: &R, jobs: &mut Vec<Job>, count: usize) -> io::Result<()> {
    for place in 0..count {
        add_job(rt, jobs, place)?;
    }
    Ok(())
}

fn add_job<R: Net>(rt: &R, jobs: &mut Vec<Job>, place: usize) -> io::Result<()> {
    let poll = Poll::new(rt)?;
    match jobs.push(Job { place, poll }) {
        Ok(()) => Ok(()),
        Err(_) => Err(io::Error::from(AllocError)),
    }
}

/// Runs all threads, each at its place. If the system makes none, they run one after the other: the first listens, and goes on until all is done. If
/// memory runs out, those
/// that have begun have ended.
fn run_side_by_side<R>(rt: &R, shared: &Shared, jobs: Vec<Job>) -> Result<(), AllocError>
where
    R: Clock + Eprint + Threads + Wait + Sync,
{
    let done = thread::map_vec(rt, jobs, &|job: Job| run_place(rt, shared, job))?;
    drop(done);
    Ok(())
}

/// Runs the thread at its place, until as many messages went out as are asked for.
fn run_place<R: Clock + Eprint + Wait>(rt: &R, shared: &Shared, job: Job) {
    let Job { place, poll } = job;
    let fault = match Server::new(shared.settings, place, poll) {
        Ok(mut server) => {
            let turned = turn_on(rt, shared, &mut server);
            drop(server);
            turned.err()
        }
        Err(error) => Some(error),
    };
    shared.leave(rt, place, fault);
}

/// Makes turns until as many messages went out as are asked for, closes each connection, and makes turns until all have ended.
fn turn_on<R: Clock + Eprint + Wait>(
    rt: &R,
    shared: &Shared,
    server: &mut Server,
) -> io::Result<()> {
    let begun = Instant::now(rt)?;
    server.begin(rt, shared)?;
    for _ in 0..u64::MAX {
        if shared.is_over(rt) {
            break;
        }
        server.turn(rt, shared, begun)?;
    }
    server.close();
    turn_to_end(rt, shared, server, begun)
}

/// Makes turns until each connection has ended, or too much time has passed.
fn turn_to_end<R: Clock + Eprint + Wait>(
    rt: &R,
    shared: &Shared,
    server: &mut Server,
    begun: Instant,
) -> io::Result<()> {
    let until = begun.elapsed(rt)?.as_secs().saturating_add(LAST);
    for _ in 0..u64::MAX {
        if server.is_empty() || begun.elapsed(rt)?.as_secs() >= until {
            break;
        }
        server.turn(rt, shared, begun)?;
    }
    Ok(())
}
