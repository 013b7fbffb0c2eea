//! An exchange goes on over one connection after the other: when a peer is met once more.
use crate::exchange::{Exchange, ExchangeFault};
use crate::journal::Notes;
use crate::meeting::meet;
use crate::observed::{Flushes, Observed};
use crate::report::Reports;
use crate::seen::Seen;
use amqp_client::{ClientFault, End, Session};
use amqp_conn::{Phase, PumpFault, Refusal};
use std::net::{Net, TcpStream};
use std::rt::Clock;
use std::thread;
use std::time::Duration;

/// How long it is until a peer is tried again, and until progress is printed again, in milliseconds.
pub(crate) const PAUSE: u64 = 500;

/// The most that is in doubt at a time.
const MOST: u32 = 1024;

/// Printed before a connection without what is in doubt.
const NO_RECOVERY: &str =
    "the peer does not recover links: what is in doubt is taken for absent there";

/// How many octets of an attach a delivery takes that it brings in: a tag of 32 octets, a state, and their heads.
const ITEM: u32 = 44;

/// An exchange that has a journal, and goes on over one connection after the other.
pub(crate) trait GoesOn {
    /// All is done, and the peer knows it.
    fn is_done(&self) -> bool;

    /// All messages were taken, but the peer may still ask for outcomes: maybe nobody connects any more.
    fn has_all(&self) -> bool;

    /// Returns how many lines were written to its journal.
    fn noted(&self) -> u64;

    /// Its attach brought in what is in doubt, and nothing was noted since.
    fn has_asked(&self) -> bool;

    /// From now on its attach brings nothing in: the peer has none of what is in doubt.
    fn forgo(&mut self);

    /// Goes on over this connection until all is done, and ends link, session and connection.
    fn go_on<S: Flushes, T: Reports>(
        &mut self,
        session: &mut S,
        reports: &mut T,
    ) -> Result<(), ExchangeFault>;

    /// Takes and notes what came before the connection ended, maybe by a fault of its own.
    fn wind_up<S: Session, T: Reports>(
        &mut self,
        session: &mut S,
        is_fault_of_it: bool,
        reports: &mut T,
    ) -> Result<(), ExchangeFault>;
}

/// Does all of it, over as many connections as it takes.
pub(crate) fn go_over_all<R, E: GoesOn, T: Reports>(
    rt: &R,
    exchange: &Exchange<'_>,
    goes: &mut E,
    reports: &mut T,
) -> Result<(), ExchangeFault>
where
    R: AllocGlobal + Net<Stream = TcpStream> + Eprint + Clock,
{
    let mut tries = Tries::new(exchange);
    for _ in 0..u64::MAX {
        if goes.is_done() {
            break;
        }
        match go_over(rt, exchange, goes, &mut tries, reports) {
            Ok(()) => break,
            Err(ExchangeFault::NoRecovery) => {
                goes.forgo();
                reports.say(NO_RECOVERY);
            }
            Err(fault) => tries.again(rt, exchange, fault, reports)?,
        }
    }
    Ok(())
}

/// Goes on over one connection.
fn go_over<R, E: GoesOn, T: Reports>(
    rt: &R,
    exchange: &Exchange<'_>,
    goes: &mut E,
    tries: &mut Tries,
    reports: &mut T,
) -> Result<(), ExchangeFault>
where
    R: AllocGlobal + Net<Stream = TcpStream> + Eprint + Clock,
{
    let seen = Seen::new();
    let pauses = tries.pauses(goes.has_all());
    match meet(rt, rt.alloc(), exchange, pauses, &seen, reports) {
        Ok(mut client) => {
            let ended = go_to_end(goes, &mut client, reports);
            let ended = tries.end(&client, ended, goes.noted());
            let ended = conclude(goes, &mut client, ended, reports);
            drop(client);
            ended
        }
        Err(fault) => Err(fault),
    }
}

/// Says why the exchange over this connection failed, unless it is gone on with at once: the peer does not recover links.
fn conclude<E: GoesOn, S: Session, T: Reports>(
    goes: &E,
    client: &mut Observed<'_, S>,
    ended: Result<(), ExchangeFault>,
    reports: &mut T,
) -> Result<(), ExchangeFault> {
    match ended {
        Ok(()) => {
            if client.end().is_gone() {
                client.leave(true);
            }
            Ok(())
        }
        Err(ExchangeFault::Client(_)) if client.is_not_implemented() && goes.has_asked() => {
            Err(ExchangeFault::NoRecovery)
        }
        Err(fault) => Err(client.conclude(fault, true, reports)),
    }
}

/// Goes on over this connection. If all is done, it does not matter how the connection ended.
fn go_to_end<E: GoesOn, S: Flushes, T: Reports>(
    goes: &mut E,
    session: &mut S,
    reports: &mut T,
) -> Result<(), ExchangeFault> {
    let ended = goes.go_on(session, reports);
    // Nothing is noted behind a line that may be torn, and what is known and could not be noted is not done.
    if matches!(&ended, Err(ExchangeFault::Journal(_))) {
        return ended;
    }
    let is_fault_of_it = matches!(&ended, Err(ExchangeFault::Client(_)));
    match goes.wind_up(session, is_fault_of_it, reports) {
        Ok(()) if goes.is_done() => {
            drop(ended);
            Ok(())
        }
        Ok(()) => ended,
        failed => {
            drop(ended);
            failed
        }
    }
}

/// The connection ended without being closed as agreed, or none came about: what it was about can go on over another one.
fn is_lost(fault: &ExchangeFault) -> bool {
    match fault {
        ExchangeFault::Socket(_)
        | ExchangeFault::NotMet(_, _)
        | ExchangeFault::Read(_)
        | ExchangeFault::Write(_) => true,
        ExchangeFault::Client(fault) => is_lost_by(fault),
        _ => false,
    }
}

/// No connection came about.
fn is_unmet(fault: &ExchangeFault) -> bool {
    matches!(
        fault,
        ExchangeFault::Socket(_) | ExchangeFault::NotMet(_, _)
    )
}

fn is_lost_by(fault: &ClientFault) -> bool {
    match fault {
        ClientFault::EndOfInput
        | ClientFault::Silent
        | ClientFault::Ended
        | ClientFault::Pump(PumpFault::Read)
        | ClientFault::Pump(PumpFault::Write) => true,
        _ => false,
    }
}

/// A peer that closes the connection with an error has ended it before its time, also if it has left the link in the same piece.
fn unless_forced(ended: Result<(), ExchangeFault>, is_forced: bool) -> Result<(), ExchangeFault> {
    match ended {
        Err(ExchangeFault::Client(ClientFault::Closed | ClientFault::Refused(Refusal::NoLink)))
            if is_forced => { Err(ExchangeFault::Client(ClientFault::Ended)) }
        ended => ended,
    }
}

/// How often a peer is tried again.
#[derive(Clone, Copy)]
struct Tries {
    most: u32,
    left: u32,
    /// How many lines had been written to the journal when the peer was tried last.
    noted: u64,
    /// There was a connection, or one was tried.
    is_again: bool,
}

impl Tries {
    fn new(exchange: &Exchange<'_>) -> Tries {
        Tries {
            most: exchange.retries,
            left: exchange.retries,
            noted: 0,
            is_again: false,
        }
    }

    /// How many pauses a peer is waited for that is to connect; `None`: without a limit. If all messages were taken, maybe nobody connects.
    fn pauses(&self, has_all: bool) -> Option<u32> {
        if has_all || self.is_again {
            Some(self.most)
        } else {
            None
        }
    }

    /// The peer is not tried again: another connection would be of no use, or as many as may be in a row have brought nothing.
    fn is_last(&self, fault: &ExchangeFault) -> bool {
        self.left == 0 || !is_lost(fault)
    }

    /// Notes how the exchange over this connection ended, and how many lines had been written to the journal by then.
    ///
    /// # Errors
    ///
    /// How it ended.
    fn end<S: Session>(
        &mut self,
        session: &S,
        ended: Result<(), ExchangeFault>,
        noted: u64,
    ) -> Result<(), ExchangeFault> {
        if noted != self.noted {
            self.noted = noted;
            self.left = self.most;
        }
        let is_forced = session.end().conn().ended_by().is_some();
        unless_forced(ended, is_forced)
    }

    /// Prints the fault, and waits until the peer is to be tried again.
    ///
    /// # Errors
    ///
    /// The fault, if the peer is not tried again.
    fn again<R: Clock + Eprint, T: Reports>(
        &mut self,
        rt: &R,
        exchange: &Exchange<'_>,
        fault: ExchangeFault,
        reports: &mut T,
    ) -> Result<(), ExchangeFault> {
        if self.is_last(&fault) {
            return Err(fault);
        }
        self.left = self.left.saturating_sub(1);
        self.is_again = true;
        reports.end();
        if !exchange.is_quiet {
            let _ = eprintln!(rt; "again: {fault}");
        }
        // The peer is not kept waiting by one that listens.
        let is_ready = exchange.is_listening && !is_unmet(&fault);
        drop(fault);
        if !is_ready {
            pause(rt);
        }
        Ok(())
    }
}

/// As long as it is until a peer is tried again.
pub(crate) fn pause<R: Clock>(rt: &R) {
    thread::sleep(rt, Duration::from_millis(PAUSE));
}

/// A turn of the connection. What was noted is kept before anything goes out.
pub(crate) fn turn<S: Session, N: Notes>(
    session: &mut S,
    notes: &mut N,
) -> Result<(), ExchangeFault> {
    notes.sync()?;
    unless_left(session.end())?;
    session.turn().map_err(ExchangeFault::Client)
}

/// As `turn`, without waiting for the peer.
pub(crate) fn flush<S: Flushes, N: Notes>(
    session: &mut S,
    notes: &mut N,
    elapsed: u64,
) -> Result<(), ExchangeFault> {
    notes.sync()?;
    unless_left(session.end())?;
    session.flush(elapsed).map_err(ExchangeFault::Client)
}

/// Checks that neither end has left the link while the connection goes on.
fn unless_left(end: &End) -> Result<(), ExchangeFault> {
    if !end.has_link() && end.conn().phase() != Phase::Closed {
        return Err(ExchangeFault::Client(ClientFault::Refused(Refusal::NoLink)));
    }
    Ok(())
}

/// Returns how many deliveries may be in doubt at a time: an attach has to have room for all of them.
pub(crate) fn most_in_doubt(end: &End) -> usize {
    let frame = end.conn().logged().endpoint().max_frame();
    (frame / 2 / ITEM).clamp(1, MOST) as usize
}
