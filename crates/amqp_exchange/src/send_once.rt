//! The command `send` over one connection.
use crate::bodies::{Bodies, Supply};
use crate::exchange::{Exchange, ExchangeFault, Sent, begin};
use crate::meeting::{Runs, run_over};
use crate::observed::{Flushes, has_unwritten};
use crate::progress::Watch;
use crate::queued::Queued;
use crate::report::Reports;
use crate::streaming::Next;
use amqp_client::{ClientFault, Session, Told, finish, learn, send, settle};
use amqp_conn::{Bytes, Role};
use std::alloc::Global;
use std::io::BufRead;
use std::net::{Net, TcpStream};
use std::rt::Clock;

/// So many messages are sent before it is learnt what became of them.
const BATCH: u32 = 1024;

/// The messages of an exchange, and what was sent of them.
#[derive(Drop)]
struct Sends<'a, 'b, I> {
    alloc: Global,
    exchange: &'a Exchange<'a>,
    file: Option<Vec<u8>>,
    input: &'b mut I,
    sent: Sent,
}

impl<I: BufRead> Runs for Sends<'_, '_, I> {
    fn run<S: Flushes, T: Reports>(
        &mut self,
        session: &mut S,
        reports: &mut T,
    ) -> Result<(), ExchangeFault> {
        let file = self.file.take();
        send_counted(
            self.alloc,
            session,
            self.exchange,
            file,
            self.input,
            &mut self.sent,
            reports,
        )
    }
}

/// Sends them over one connection, and counts them in `sent`, also if that fails.
pub(crate) fn send_once<R, I: BufRead, T: Reports>(
    rt: &R,
    alloc: Global,
    exchange: &Exchange<'_>,
    file: Option<Vec<u8>>,
    input: &mut I,
    sent: &mut Sent,
    reports: &mut T,
) -> Result<(), ExchangeFault>
where
    R: Net<Stream = TcpStream> + Eprint + Clock,
{
    let mut sends = Sends {
        alloc,
        exchange,
        file,
        input,
        sent: Sent::NONE,
    };
    let ended = run_over(rt, alloc, exchange, &mut sends, reports);
    *sent = sends.sent;
    drop(sends);
    ended
}

/// Sends all messages over this end, each with these octets of a file as its body, if there are some, learns what became of each, and ends link, session and
/// connection.
///
/// # Errors
///
/// The peer ended the exchange, an operation was refused, a line could not be read, a message could not be written, or memory ran out.
pub fn send_all<S: Flushes, I: BufRead, P: Watch>(
    alloc: Global,
    session: &mut S,
    exchange: &Exchange<'_>,
    file: Option<Vec<u8>>,
    input: &mut I,
    watch: &mut P,
) -> Result<Sent, ExchangeFault> {
    let mut sent = Sent::NONE;
    match send_counted(alloc, session, exchange, file, input, &mut sent, watch) {
        Ok(()) => Ok(sent),
        Err(fault) => Err(fault),
    }
}

/// As `send_all`, and counts in `sent`, also if that fails.
fn send_counted<S: Flushes, I: BufRead, P: Watch>(
    alloc: Global,
    session: &mut S,
    exchange: &Exchange<'_>,
    file: Option<Vec<u8>>,
    input: &mut I,
    sent: &mut Sent,
    watch: &mut P,
) -> Result<(), ExchangeFault> {
    let mut bodies = Bodies::new(alloc, exchange, file, input)?;
    let ended = send_bodies(session, exchange, &mut bodies, sent, watch);
    drop(bodies);
    ended
}

/// Some messages in a row, and which of them have an outcome.
#[derive(Clone, Copy)]
struct Batch {
    /// The number of the first one.
    first: u32,
    /// How many were sent.
    count: u32,
    /// What was put out since the peer was heard last.
    queued: Queued,
    /// Of how many an outcome was counted.
    ended: u32,
    /// Of which.
    known: [bool; BATCH as usize],
}

impl Batch {
    fn starting_at(first: u32) -> Batch {
        Batch {
            first,
            count: 0,
            queued: Queued::NONE,
            ended: 0,
            known: [false; BATCH as usize],
        }
    }

    /// Notes that there is an outcome of the message with this number. False if there was one before, or it is none of these.
    fn is_new(&mut self, number: u32) -> bool {
        match self.known.get_mut(number.wrapping_sub(self.first) as usize) {
            Some(mark) => {
                let was_known = *mark;
                *mark = true;
                !was_known
            }
            None => false,
        }
    }
}

fn send_bodies<S: Flushes, B: Supply, P: Watch>(
    session: &mut S,
    exchange: &Exchange<'_>,
    bodies: &mut B,
    sent: &mut Sent,
    watch: &mut P,
) -> Result<(), ExchangeFault> {
    begin(session, exchange, Role::Sender)?;
    for first in (0..u32::MAX).step_by(BATCH as usize) {
        let mut batch = Batch::starting_at(first);
        let ended = send_batch(
            session,
            exchange.is_settled,
            bodies,
            &mut batch,
            sent,
            watch,
        );
        let ended = end_batch(session, exchange.is_settled, ended, &mut batch, sent);
        if !ended? {
            break;
        }
    }
    finish(session).map_err(ExchangeFault::Client)
}

/// Sends the messages of a batch. False if there are none behind them.
fn send_batch<S: Flushes, B: Supply, P: Watch>(
    session: &mut S,
    is_settled: bool,
    bodies: &mut B,
    batch: &mut Batch,
    sent: &mut Sent,
    watch: &mut P,
) -> Result<bool, ExchangeFault> {
    for _ in 0..u64::MAX {
        if batch.count >= BATCH {
            break;
        }
        match bodies.next()? {
            Next::Item(message) => {
                send_one(session, is_settled, message, batch, sent)?;
                watch.note(sent.count);
                if batch.queued.is_full() {
                    hear(session, batch, sent, watch)?;
                }
            }
            Next::NotYet => await_input(session, bodies, batch, sent, watch)?,
            Next::Over => return Ok(false),
        }
    }
    Ok(true)
}

/// Sends a message.
fn send_one<S: Session>(
    session: &mut S,
    is_settled: bool,
    message: Bytes,
    batch: &mut Batch,
    sent: &mut Sent,
) -> Result<(), ExchangeFault> {
    let number = batch.first.saturating_add(batch.count);
    let len = message.len();
    let went = send(session, number, &message, is_settled);
    drop(message);
    went.map_err(ExchangeFault::Client)?;
    batch.count = batch.count.saturating_add(1);
    sent.count = sent.count.saturating_add(1);
    batch.queued.add(len);
    Ok(())
}

/// Writes what was put out, and learns what the peer has said until now, without waiting for more.
fn hear<S: Flushes, P: Watch>(
    session: &mut S,
    batch: &mut Batch,
    sent: &mut Sent,
    watch: &P,
) -> Result<(), ExchangeFault> {
    batch.queued = Queued::NONE;
    session
        .flush(watch.elapsed())
        .map_err(ExchangeFault::Client)?;
    learn_ready(session, batch, sent).map_err(ExchangeFault::Client)
}

/// The input has nothing ready: what was put out is written, and the peer is heard until there is input.
fn await_input<S: Flushes, B: Supply, P: Watch>(
    session: &mut S,
    bodies: &B,
    batch: &mut Batch,
    sent: &mut Sent,
    watch: &P,
) -> Result<(), ExchangeFault> {
    hear(session, batch, sent, watch)?;
    if !has_unwritten(session.end()) {
        bodies.await_ready(session.socket());
    }
    Ok(())
}

/// A batch was sent, or that failed: the outcomes of its messages are counted. False if there are no messages behind them.
fn end_batch<S: Session>(
    session: &mut S,
    is_settled: bool,
    ended: Result<bool, ExchangeFault>,
    batch: &mut Batch,
    sent: &mut Sent,
) -> Result<bool, ExchangeFault> {
    match ended {
        Ok(is_more) => {
            if !is_more {
                session.end_mut().give_up();
            }
            if !is_settled {
                learn_batch(session, batch, sent).map_err(ExchangeFault::Client)?;
            }
            Ok(is_more)
        }
        Err(fault) => {
            count_told(session, batch, sent);
            Err(fault)
        }
    }
}

/// Counts the outcome of a message, unless one was counted before.
fn count_outcome(told: Told, batch: &mut Batch, sent: &mut Sent) {
    if batch.is_new(told.number) {
        batch.ended = batch.ended.saturating_add(1);
        sent.outcomes.count(told.outcome);
    }
}

/// Learns what became of each message of the batch.
fn learn_batch<S: Session>(
    session: &mut S,
    batch: &mut Batch,
    sent: &mut Sent,
) -> Result<(), ClientFault> {
    for _ in 0..u64::MAX {
        if batch.ended >= batch.count {
            break;
        }
        let told = learn(session)?;
        count_outcome(told, batch, sent);
    }
    Ok(())
}

/// Learns what became of messages, as far as the peer has said, and settles them.
fn learn_ready<S: Session>(
    session: &mut S,
    batch: &mut Batch,
    sent: &mut Sent,
) -> Result<(), ClientFault> {
    for _ in 0..u64::MAX {
        match session.end_mut().told()? {
            Some(told) if told.is_last() => {
                count_outcome(told, batch, sent);
                settle(session, told)?;
            }
            Some(_) => {}
            None => break,
        }
    }
    Ok(())
}

/// Counts the outcomes that came before a fault.
fn count_told<S: Session>(session: &mut S, batch: &mut Batch, sent: &mut Sent) {
    for _ in 0..u64::MAX {
        match session.end_mut().told() {
            Ok(Some(told)) if told.is_last() => count_outcome(told, batch, sent),
            Ok(Some(_)) => {}
            _ => break,
        }
    }
}
