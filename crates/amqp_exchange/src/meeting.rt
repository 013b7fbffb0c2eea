//! A peer is met over TCP: it is connected to, or it connects.
use crate::again::pause;
use crate::exchange::{Exchange, ExchangeFault};
use crate::observed::{Flushes, Observed};
use crate::report::Reports;
use crate::seen::Seen;
use crate::traced::Traced;
use amqp_client::{Client, TICK};
use amqp_conn::{Config, Text};
use amqp_trace::{Direction, Teller, Tracer};
use std::alloc::Global;
use std::io;
use std::io::ErrorKind;
use std::net::{Net, OpenListener, SocketAddr, TcpListener, TcpStream, ToSocketAddrs};
use std::os::fd::AsRawFd;
use std::rt::Clock;
use std::time::Duration;

/// An end whose frames may be printed.
type Told<'a, E> = Observed<'a, Client<Traced<'a, TcpStream, E>, Traced<'a, TcpStream, E>>>;

/// An exchange, as it runs over one connection.
pub(crate) trait Runs {
    /// Does all of it, and ends link, session and connection.
    fn run<S: Flushes, T: Reports>(
        &mut self,
        session: &mut S,
        reports: &mut T,
    ) -> Result<(), ExchangeFault>;
}

/// Meets the peer, and does the exchange. If that fails, the error is printed that the peer sent, and the connection is closed as agreed if it can be.
pub(crate) fn run_over<R: Net<Stream = TcpStream> + Eprint + Clock, E: Runs, T: Reports>(
    rt: &R,
    alloc: Global,
    exchange: &Exchange<'_>,
    runs: &mut E,
    reports: &mut T,
) -> Result<(), ExchangeFault> {
    let seen = Seen::new();
    match meet(rt, alloc, exchange, None, &seen, reports) {
        Ok(mut client) => {
            let ended = match runs.run(&mut client, reports) {
                Ok(()) => Ok(()),
                Err(fault) => Err(client.conclude(fault, false, reports)),
            };
            drop(client);
            ended
        }
        Err(fault) => Err(fault),
    }
}

/// The peer, over a socket. One that is to connect is waited for so many pauses; none: for good.
pub(crate) fn meet<'a, R: Net<Stream = TcpStream> + Eprint + Clock, T: Reports>(
    rt: &'a R,
    alloc: Global,
    exchange: &Exchange<'_>,
    pauses: Option<u32>,
    seen: &'a Seen,
    reports: &mut T,
) -> Result<Told<'a, R>, ExchangeFault> {
    let writer = stream_of(rt, alloc, exchange, pauses, reports)?;
    let reader = reader_of(&writer, exchange.patience).map_err(ExchangeFault::Socket)?;
    if exchange.is_listening {
        await_first(&reader);
    }
    seen.set_socket(reader.as_raw_fd());
    let heard = teller(alloc, exchange, Direction::Heard, exchange.max_frame);
    let sent = teller(alloc, exchange, Direction::Sent, u32::MAX);
    let client = client_of(
        alloc,
        Traced::new(reader, rt, seen, heard),
        Traced::new(writer, rt, seen, sent),
        exchange,
    )?;
    Ok(Observed::new(client, seen))
}

/// Waits for the peer's first octet, for a [`TICK`] at most: a peer that begins with another header than ours, as that of a SASL layer, leaves as soon as it reads
/// ours, and what it wants is then not known.
fn await_first(stream: &TcpStream) {
    let mut first = [0u8; 1];
    let _ = stream.peek(&mut first);
}

fn teller(
    alloc: Global,
    exchange: &Exchange<'_>,
    direction: Direction,
    max_frame: u32,
) -> Option<Teller> {
    let look = exchange.trace?;
    let tracer = Tracer::new(alloc, direction, look, max_frame);
    Some(Teller::new(None, tracer))
}

fn stream_of<R: Net<Stream = TcpStream> + Clock, T: Reports>(
    rt: &R,
    alloc: Global,
    exchange: &Exchange<'_>,
    pauses: Option<u32>,
    reports: &mut T,
) -> Result<TcpStream, ExchangeFault> {
    let there = (bare_host(exchange.host), exchange.port);
    let met = if exchange.is_listening {
        accepted(rt, alloc, there, pauses, reports)
    } else {
        connected(rt, there, exchange.patience)
    };
    let met = match met {
        Ok(stream) => without_delay(stream),
        Err(error) => Err(error),
    };
    match met {
        Ok(stream) => Ok(stream),
        Err(error) if error.kind() == ErrorKind::WouldBlock => {
            drop(error);
            Err(ExchangeFault::NoPeer)
        }
        Err(error) => Err(not_met(alloc, exchange, error)),
    }
}

/// What failed, with the address.
fn not_met(alloc: Global, exchange: &Exchange<'_>, error: io::Error) -> ExchangeFault {
    let verb = if exchange.is_listening {
        "listen at"
    } else {
        "connect to"
    };
    let host = exchange.host;
    let port = exchange.port;
    match format!(in alloc; "cannot {verb} {host}:{port}") {
        Ok(what) => ExchangeFault::NotMet(what, error),
        Err(_) => ExchangeFault::Socket(error),
    }
}

/// Returns the host without the brackets of an IPv6 address.
pub(crate) fn bare_host(host: &str) -> &str {
    match host.strip_prefix('[') {
        Some(rest) => match rest.strip_suffix(']') {
            Some(bare) => bare,
            None => host,
        },
        None => host,
    }
}

/// Connects there, to each address of the host in turn, for at most so many seconds each.
fn connected<R: Net<Stream = TcpStream>>(
    rt: &R,
    there: (&str, u16),
    seconds: Option<u32>,
) -> io::Result<TcpStream> {
    match seconds {
        Some(seconds) => {
            let limit = Duration::from_secs(u64::from(seconds.max(1)));
            connected_within(rt, there, limit)
        }
        None => TcpStream::connect(rt, there),
    }
}

fn connected_within<R: Net<Stream = TcpStream>>(
    rt: &R,
    there: (&str, u16),
    limit: Duration,
) -> io::Result<TcpStream> {
    let mut last = io::Error::new(ErrorKind::NotFound, "the host has no address");
    for address in there.to_socket_addrs(rt)? {
        match TcpStream::connect_timeout(rt, &address, limit) {
            Ok(stream) => return Ok(stream),
            Err(error) => last = error,
        }
    }
    Err(last)
}

/// The first peer that connects there, within so many pauses; none: at any time.
fn accepted<R: Net<Stream = TcpStream> + Clock, T: Reports>(
    rt: &R,
    alloc: Global,
    there: (&str, u16),
    pauses: Option<u32>,
    reports: &mut T,
) -> io::Result<TcpStream> {
    let listener = TcpListener::bind(rt, there)?;
    say_where(alloc, &listener, reports);
    let answer = match pauses {
        Some(pauses) => accept_within(rt, &listener, pauses),
        None => listener.accept(),
    };
    drop(listener);
    match answer {
        Ok((stream, _)) => Ok(stream),
        Err(error) => Err(error),
    }
}

/// Prints the address, with the port that the system chose if none was given.
fn say_where<L: OpenListener, T: Reports>(alloc: Global, listener: &L, reports: &mut T) {
    if let Ok(there) = listener.local_addr() {
        if let Ok(line) = format!(in alloc; "listens {there}") {
            reports.say(line.as_str());
        }
    }
}

fn accept_within<R: Clock, L: OpenListener<Stream = TcpStream>>(
    rt: &R,
    listener: &L,
    pauses: u32,
) -> io::Result<(TcpStream, SocketAddr)> {
    listener.set_nonblocking(true)?;
    for _ in 0..pauses {
        match listener.accept() {
            Err(error) if error.kind() == ErrorKind::WouldBlock => drop(error),
            answer => return answer,
        }
        pause(rt);
    }
    listener.accept()
}

fn without_delay(stream: TcpStream) -> io::Result<TcpStream> {
    match stream.set_nodelay(true) {
        Ok(()) => Ok(stream),
        Err(error) => {
            drop(stream);
            Err(error)
        }
    }
}

/// An end over the stream. Its reads wait for a [`TICK`](crate::TICK); half of `patience` is our idle time-out (part 2, 2.4.5).
pub fn client_over(
    alloc: Global,
    stream: TcpStream,
    exchange: &Exchange<'_>,
) -> Result<Client<TcpStream, TcpStream>, ExchangeFault> {
    let reader = reader_of(&stream, exchange.patience).map_err(ExchangeFault::Socket)?;
    client_of(alloc, reader, stream, exchange)
}

fn client_of<R: Drop, W: Drop>(
    alloc: Global,
    reader: R,
    writer: W,
    exchange: &Exchange<'_>,
) -> Result<Client<R, W>, ExchangeFault> {
    let patience = exchange.patience;
    let config = Config {
        max_frame: exchange.max_frame,
        idle_time_out: half_of(patience),
        ..Config::new(Text::new(alloc, exchange.container_id)?)
    };
    Ok(Client::new(alloc, config, patience, reader, writer)?)
}

/// A second hand on the stream, whose reads and writes have their limits.
fn reader_of(stream: &TcpStream, patience: Option<u32>) -> io::Result<TcpStream> {
    stream.set_read_timeout(Some(Duration::from_millis(u64::from(TICK))))?;
    if let Some(seconds) = patience {
        stream.set_write_timeout(Some(Duration::from_secs(u64::from(seconds))))?;
    }
    stream.try_clone()
}

/// Half of so many seconds, in milliseconds.
fn half_of(patience: Option<u32>) -> Option<u32> {
    match patience {
        Some(seconds) => Some(seconds.saturating_mul(500)),
        None => None,
    }
}
