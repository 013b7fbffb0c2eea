//! A session over a socket, which keeps why it was ended.
ghost use Rattle.std.specs.Prelude.{◌↔◌, ◌≤◌, ◌+◌, IsTrue};

use crate::exchange::ExchangeFault;
use crate::reason::{Reason, reason_in};
use crate::report::Reports;
use crate::seen::Seen;
use amqp_client::{Client, ClientFault, End, LINK, Session, TICK, finish};
use amqp_conn::{Phase, PumpFault, ops};
use std::io;
use std::io::{Read, Write};
use std::os::fd::RawFd;

/// How many turns a connection that failed is given to close as agreed; each takes a quarter of a second at most.
const LAST_TURNS: u32 = 20;

/// What a peer most likely wants that ends a connection before it has opened it.
const HINT: &str =
    "the peer ended the connection before it opened it: it most likely requires SASL (part 5) or TLS, which this end has none of";

/// A session that can be driven without waiting for the peer.
pub trait Flushes: Session {
    /// Writes what was put out, and takes what the peer has sent. `elapsed` is how many milliseconds have passed since the command began: by them it is counted how
    /// long the peer has been silent.
    ///
    /// # Errors
    ///
    /// Those of [`Session::turn`].
    fn flush(&mut self, elapsed: u64) -> Result<(), ClientFault>;

    /// Returns the socket on which the peer is heard, if it can be waited for.
    fn socket(&self) -> Option<RawFd>;
}

/// Returns whether something was put out that is not written.
pub(crate) fn has_unwritten(end: &End) -> bool {
    end.conn().logged().waiting_units() > 0
}

impl<R: Read, W: Write> Flushes for Client<R, W> {
    /// A turn, which may wait.
    fn flush(&mut self, _elapsed: u64) -> Result<(), ClientFault> {
        self.turn()
    }

    fn socket(&self) -> Option<RawFd> {
        None
    }
}

/// How many reads a flush makes at most while the peer has sent more.
const READS: u32 = 16;

/// Returns whether so much time has passed that the next read counts as one that has waited.
fn is_tick_due(ticked: u64, elapsed: u64) -> bool
    ensures { IsTrue result ↔ (ticked + 250 ≤ elapsed) }
{
    elapsed.saturating_sub(ticked) >= u64::from(TICK)
}

/// A session, and why either end has left it.
#[derive(Drop)]
pub(crate) struct Observed<'a, S> {
    session: S,
    seen: &'a Seen,
    reason: Option<Reason>,
    /// How many turns are left; `None`: there is no limit.
    turns: Option<u32>,
    /// When a flush counted last as a read that has waited, in milliseconds since the command began.
    ticked: u64,
}

impl<S: Session> Session for Observed<'_, S> {
    fn end(&self) -> &End {
        self.session.end()
    }

    fn end_mut(&mut self) -> &mut End {
        self.session.end_mut()
    }

    fn turn(&mut self) -> Result<(), ClientFault> {
        if self.turns == Some(0) {
            return Err(ClientFault::Silent);
        }
        if let Some(turns) = self.turns {
            self.turns = Some(turns.saturating_sub(1));
        }
        let turned = self.session.turn();
        self.look();
        turned
    }

    fn write_out(&mut self) {
        self.session.write_out();
        self.look();
    }
}

impl<S: Session> Flushes for Observed<'_, S> {
    fn flush(&mut self, elapsed: u64) -> Result<(), ClientFault> {
        if is_tick_due(self.ticked, elapsed) {
            self.ticked = elapsed;
            self.turn_at_once()?;
        } else {
            self.turn_uncounted()?;
        }
        for _ in 0..READS {
            if !self.seen.has_read() {
                break;
            }
            self.turn_uncounted()?;
        }
        Ok(())
    }

    fn socket(&self) -> Option<RawFd> {
        self.seen.socket()
    }
}

impl<'a, S: Session> Observed<'a, S> {
    pub(crate) fn new(session: S, seen: &'a Seen) -> Observed<'a, S> {
        Observed {
            session,
            seen,
            reason: None,
            turns: None,
            ticked: 0,
        }
    }

    /// A turn whose read ends in vain if nothing is there.
    fn turn_at_once(&mut self) -> Result<(), ClientFault> {
        self.seen.begin_poll();
        let turned = self.turn();
        self.seen.end_poll();
        turned
    }

    /// As `turn_at_once`. A read in vain does not count: no time has passed.
    fn turn_uncounted(&mut self) -> Result<(), ClientFault> {
        let waits = self.session.end().waits;
        self.session.end_mut().waits.hear();
        let turned = self.turn_at_once();
        if !self.seen.has_read() {
            self.session.end_mut().waits = waits;
        }
        turned
    }

    /// Keeps the first error by which either end leaves something.
    fn look(&mut self) {
        if self.reason.is_none() {
            if let Ok(reason) = reason_in(self.session.end().conn()) {
                self.reason = reason;
            }
        }
    }

    /// The peer has answered that it has no such feature.
    pub(crate) fn is_not_implemented(&self) -> bool {
        match &self.reason {
            Some(reason) => reason.is_not_implemented(),
            None => false,
        }
    }

    /// Puts the link aside if it was not left, so that both ends keep what is in doubt on it (part 2, 2.6.4). False if that is not possible.
    fn put_aside(&mut self) -> bool {
        if !self.session.end().has_link() {
            return true;
        }
        let op = ops::suspend(LINK);
        let answer = self.session.end_mut().conn.apply(&op);
        drop(op);
        answer.is_ok() && self.await_left()
    }

    /// Waits until the peer has left the link, too. False if it does not.
    fn await_left(&mut self) -> bool {
        for _ in 0..LAST_TURNS {
            if !self.session.end().has_link() {
                return true;
            }
            if self.turn().is_err() {
                return false;
            }
        }
        false
    }

    /// Ends the connection as agreed if that is still possible, within a few seconds. If the link is kept, its deliveries stay in doubt.
    pub(crate) fn leave(&mut self, is_kept: bool) {
        if self.session.end().conn().phase() == Phase::Closed {
            self.write_out();
            return;
        }
        self.turns = Some(LAST_TURNS);
        if !is_kept || self.put_aside() {
            // How it ends changes nothing.
            let _ = finish(self);
        }
    }

    /// Prints why the exchange failed, and ends the connection as agreed if that is still possible. Returns the fault with the cause that the device gave.
    pub(crate) fn conclude<T: Reports>(
        &mut self,
        fault: ExchangeFault,
        is_kept: bool,
        reports: &mut T,
    ) -> ExchangeFault {
        if let Some(reason) = &self.reason {
            reports.tell(reason);
        }
        if self.session.end().conn().peer().is_none() && is_cut(&fault) {
            reports.say(HINT);
        }
        if may_close(&fault) {
            self.leave(is_kept);
        }
        with_cause(fault, self.seen)
    }
}

/// The octets have ended.
fn is_cut(fault: &ExchangeFault) -> bool {
    matches!(
        fault,
        ExchangeFault::Client(
            ClientFault::EndOfInput | ClientFault::Pump(PumpFault::Read | PumpFault::Write)
        )
    )
}

/// The fault is not the connection's: that may still be closed as agreed.
fn may_close(fault: &ExchangeFault) -> bool {
    match fault {
        ExchangeFault::Client(ClientFault::Refused(_) | ClientFault::Ended | ClientFault::Closed) =>
            true,
        ExchangeFault::Client(_) | ExchangeFault::NoMemory | ExchangeFault::Journal(_) => false,
        _ => true,
    }
}

/// The fault, with the error that a read or a write gave.
fn with_cause(fault: ExchangeFault, seen: &Seen) -> ExchangeFault {
    match seen.error() {
        Some(error) => caused_by(fault, error),
        None => fault,
    }
}

fn caused_by(fault: ExchangeFault, error: io::Error) -> ExchangeFault {
    match fault {
        ExchangeFault::Client(ClientFault::Pump(PumpFault::Read)) => ExchangeFault::Read(error),
        ExchangeFault::Client(ClientFault::Pump(PumpFault::Write)) => ExchangeFault::Write(error),
        fault => {
            drop(error);
            fault
        }
    }
}
