//! The command `receive` over one connection.
ghost use Rattle.std.specs.Prelude.{◌↔◌, ◌≤◌, ◌*◌, IsTrue};

use crate::credit::{credit_due, incoming_of};
use crate::exchange::{Exchange, ExchangeFault, Received, Renewal, Settlement, begin};
use crate::meeting::{Runs, run_over};
use crate::observed::Flushes;
use crate::progress::Watch;
use crate::reason::has_reason;
use crate::report::{Output, Reports, show_taken};
use amqp_client::{ClientFault, End, Session, drain, finish, grant, settle_as, take_drained};
use amqp_conn::{Boxed, DeliveryState, Phase, Refusal, Role, Taken};
use std::alloc::Global;
use std::io::Write;
use std::net::{Net, TcpStream};
use std::rt::Clock;

/// What an exchange is to take, and what it has taken.
#[derive(Clone, Copy)]
struct Receives<'a> {
    exchange: &'a Exchange<'a>,
    received: Received,
}

impl Runs for Receives<'_> {
    fn run<S: Flushes, T: Reports>(
        &mut self,
        session: &mut S,
        reports: &mut T,
    ) -> Result<(), ExchangeFault> {
        receive_messages(session, self.exchange, &mut self.received, reports)
    }
}

/// Takes them over one connection, and counts them in `received`, also if that fails.
pub(crate) fn receive_once<R, T: Reports>(
    rt: &R,
    alloc: Global,
    exchange: &Exchange<'_>,
    received: &mut Received,
    reports: &mut T,
) -> Result<(), ExchangeFault>
where
    R: Net<Stream = TcpStream> + Eprint + Clock,
{
    let mut receives = Receives {
        exchange,
        received: Received::NONE,
    };
    let ended = run_over(rt, alloc, exchange, &mut receives, reports);
    *received = receives.received;
    ended
}

/// Takes all messages over this end, prints what is asked for of each, accepts it, and ends link, session and connection.
///
/// # Errors
///
/// The peer ended the exchange, an operation was refused, a write failed, or memory ran out.
pub fn receive_all<S: Session, O: Write, P: Watch>(
    alloc: Global,
    session: &mut S,
    exchange: &Exchange<'_>,
    out: &mut O,
    watch: &mut P,
) -> Result<Received, ExchangeFault> {
    let mut received = Received::NONE;
    let mut output = Output::new(alloc, exchange.printed, out, watch);
    let ended = receive_messages(session, exchange, &mut received, &mut output);
    drop(output);
    match ended {
        Ok(()) => Ok(received),
        Err(fault) => Err(fault),
    }
}

fn receive_messages<S: Session, T: Reports>(
    session: &mut S,
    exchange: &Exchange<'_>,
    received: &mut Received,
    reports: &mut T,
) -> Result<(), ExchangeFault> {
    begin(session, exchange, Role::Receiver)?;
    match exchange.renewal {
        Renewal::Drain => drain_all(session, exchange, received, reports)?,
        _ => take_all(session, exchange, received, reports)?,
    }
    finish(session).map_err(ExchangeFault::Client)
}

/// Takes as many messages as are asked for.
fn take_all<S: Session, T: Reports>(
    session: &mut S,
    exchange: &Exchange<'_>,
    received: &mut Received,
    reports: &mut T,
) -> Result<(), ExchangeFault> {
    for number in 0..exchange.count {
        let taken = take_next(session, exchange, u64::from(number), reports)?;
        accept(session, exchange.settlement, taken, received, reports)?;
    }
    Ok(())
}

/// Takes a message if so many were taken before it, as soon as it is there.
fn take_next<S: Session, T: Reports>(
    session: &mut S,
    exchange: &Exchange<'_>,
    taken: u64,
    reports: &mut T,
) -> Result<Boxed<Taken>, ExchangeFault> {
    let begun = reports.elapsed();
    for _ in 0..u64::MAX {
        // Deliveries that the peer aborts use credit, too.
        renew(session, exchange, taken).map_err(ExchangeFault::Client)?;
        match next_of(session.end_mut()) {
            Ok(Some(taken)) => return Ok(taken),
            Ok(None) => {}
            Err(fault) => return Err(ExchangeFault::Client(fault)),
        }
        within(exchange.wait, reports.elapsed().saturating_sub(begun))?;
        if let Err(fault) = session.turn() {
            return last_of(session.end_mut(), fault);
        }
    }
    Err(ExchangeFault::Client(ClientFault::Closed))
}

/// The next message that is there, also one that the link has left which is gone.
///
/// # Errors
///
/// `Closed` or `Refused` if the connection or the link is gone and has left none, and `NoMemory`.
fn next_of(end: &mut End) -> Result<Option<Boxed<Taken>>, ClientFault> {
    match end.take_ready() {
        Ok(None) if end.is_gone() => {}
        taken => return taken,
    }
    match end.take_last() {
        Ok(None) => Err(gone_of(end)),
        left => left,
    }
}

/// Why nothing more comes of a link that is gone.
fn gone_of(end: &End) -> ClientFault {
    if end.conn().phase() == Phase::Closed {
        ClientFault::Closed
    } else {
        ClientFault::Refused(Refusal::NoLink)
    }
}

/// The message that came before a fault, or the fault.
fn last_of(end: &mut End, fault: ClientFault) -> Result<Boxed<Taken>, ExchangeFault> {
    match next_of(end) {
        Ok(Some(taken)) => Ok(taken),
        _ => Err(ExchangeFault::Client(fault)),
    }
}

/// The message is waited for no longer than is asked for, by this many milliseconds.
pub(crate) fn within(wait: Option<u32>, passed: u64) -> Result<(), ExchangeFault> {
    match wait {
        Some(seconds) if is_over(seconds, passed) => Err(ExchangeFault::NoMessage(seconds)),
        _ => Ok(()),
    }
}

/// So many seconds have passed.
fn is_over(seconds: u32, milliseconds: u64) -> bool
    ensures { IsTrue result ↔ (seconds * 1000 ≤ milliseconds) }
{
    u64::from(seconds) * 1000 <= milliseconds
}

/// Takes messages until the peer has no more, or there were as many as are asked for.
fn drain_all<S: Session, T: Reports>(
    session: &mut S,
    exchange: &Exchange<'_>,
    received: &mut Received,
    reports: &mut T,
) -> Result<(), ExchangeFault> {
    let mut given = 0;
    for _ in 0..exchange.count {
        match drain_next(session, exchange, received.count, &mut given) {
            Ok(Some(taken)) => accept(session, exchange.settlement, taken, received, reports)?,
            Ok(None) => break,
            Err(fault) => return Err(ExchangeFault::Client(fault)),
        }
    }
    Ok(())
}

/// Takes a message that the peer has; `None` if it has no more.
fn drain_next<S: Session>(
    session: &mut S,
    exchange: &Exchange<'_>,
    taken: u64,
    given: &mut u64,
) -> Result<Option<Boxed<Taken>>, ClientFault> {
    renew_drain(session, exchange, taken, given)?;
    match take_drained(session) {
        Ok(None) if has_reason(session.end().conn()) => Err(ClientFault::Ended),
        taken => taken,
    }
}

/// Credit is granted again once so many messages were taken as were granted until now.
fn renew_drain<S: Session>(
    session: &mut S,
    exchange: &Exchange<'_>,
    taken: u64,
    given: &mut u64,
) -> Result<(), ClientFault> {
    if taken != *given {
        return Ok(());
    }
    match credit_wanted(session.end(), exchange, taken) {
        Some(credit) => {
            *given = given.saturating_add(u64::from(credit));
            drain(session, credit)
        }
        None => Ok(()),
    }
}

/// Credit is granted again as is asked for.
fn renew<S: Session>(
    session: &mut S,
    exchange: &Exchange<'_>,
    taken: u64,
) -> Result<(), ClientFault> {
    match credit_wanted(session.end(), exchange, taken) {
        Some(credit) => grant(session, credit),
        None => Ok(()),
    }
}

/// Returns the credit to grant once so many messages were taken, never for more than are still wanted; `None` if none is due, or the link is gone.
fn credit_wanted(end: &End, exchange: &Exchange<'_>, taken: u64) -> Option<u32> {
    if end.is_gone() {
        return None;
    }
    credit_due(
        exchange.count,
        taken,
        incoming_of(end),
        exchange.credit,
        exchange.renewal,
    )
}

/// The outcome that is sent.
fn state_of(settlement: Settlement) -> DeliveryState {
    match settlement {
        Settlement::Accept => DeliveryState::Accepted,
        Settlement::Release => DeliveryState::Released,
        Settlement::Reject => DeliveryState::Rejected(None),
    }
}

/// Prints what is asked for of the message, counts it, and settles it unless it came settled.
fn accept<S: Session, T: Reports>(
    session: &mut S,
    settlement: Settlement,
    taken: Boxed<Taken>,
    received: &mut Received,
    reports: &mut T,
) -> Result<(), ExchangeFault> {
    let came = show_taken(reports, taken)?;
    received.count = received.count.saturating_add(1);
    received.octets = received.octets.saturating_add(came.octets);
    if !came.is_settled {
        match settle_as(session, came.id, state_of(settlement)) {
            Ok(true) => {}
            Ok(false) => received.unsettled = received.unsettled.saturating_add(1),
            Err(fault) => {
                received.unsettled = received.unsettled.saturating_add(1);
                return Err(ExchangeFault::Client(fault));
            }
        }
    }
    reports.note(received.count);
    Ok(())
}
