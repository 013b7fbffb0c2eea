//! The end that sends: its reader, its writer, and its messages.
ghost use Rattle.std.specs.Prelude.{◌≡◌};
ghost use Rattle.amqp_shared.specs.Passes.{IsNamed};

use crate::beginning::seed;
use crate::end::{End, Means};
use crate::ending::{left_of, take_apart};
use crate::fault::PairFault;
use crate::options::Options;
use crate::reading::Beginning;
use crate::sending::{Done, Hand, Messages, SendOutcome, send_all};
use crate::threads::{Ran, outcome, run_threads};
use amqp_frames::Role;
use amqp_shared::{Closed, Name, Pass, Receipt, Seed, open_shared};
use std::alloc::Global;
use std::marker::Brand;
use std::net::TcpStream;
use std::sync::Wait;
use std::thread::Threads;

/// What the sending end has done.
#[derive(Clone, Copy)]
pub struct Sent {
    pub queued: u64,
    pub accepted: u64,
    /// Deliveries that it still holds, and units that nobody wrote.
    pub left: u64,
}

/// Makes the end `a` and runs it, until its connection has ended.
pub fn run_sender<R>(
    rt: &R,
    alloc: Global,
    options: &Options,
    stream: TcpStream,
) -> Result<Sent, PairFault>
where
    R: Threads + Wait + Sync,
{
    let messages = Messages::new(alloc, options)?;
    let seed = seed(alloc, "a", options)?;
    send::<Brand, R>(rt, alloc, seed, &messages, stream)
}

/// What can fail comes first, so that an end which is made runs.
fn send<N, R>(
    rt: &R,
    alloc: Global,
    seed: Seed,
    messages: &Messages,
    stream: TcpStream,
) -> Result<Sent, PairFault>
where
    N: Name + Send + Sync,
    R: Threads + Wait + Sync,
    requires { IsNamed seed N.name N.parts N.ring N.retention }
{
    match Means::new(alloc, stream) {
        Ok(means) => send_by::<N, R>(rt, alloc, seed, messages, means),
        Err(fault) => {
            drop(seed);
            Err(fault)
        }
    }
}

/// Runs the end over its socket.
fn send_by<N, R>(
    rt: &R,
    alloc: Global,
    seed: Seed,
    messages: &Messages,
    means: Means,
) -> Result<Sent, PairFault>
where
    N: Name + Send + Sync,
    R: Threads + Wait + Sync,
    requires { IsNamed seed N.name N.parts N.ring N.retention }
{
    let (shared, mut reading, writer) = open_shared::<N>(seed);
    let Some(pass) = reading.split() else {
        drop(writer);
        drop(reading);
        drop(shared);
        return Err(PairFault::Options);
    };
    let beginning = Beginning {
        role: Role::Sender,
        credit: 0,
        keep: messages.keep(),
    };
    let hand = Hand {
        pass,
        receipts: messages.receipts(alloc),
    };
    let (end, reader, gate) = means.into_end(alloc, shared, reading, writer, beginning);
    let (lent, shut) = (&end, &gate);
    let work = move || send_all(rt, lent, hand, messages, shut);
    let ran = run_threads(rt, lent, reader, shut, work);
    drop(gate);
    finish(alloc, end, messages, ran)
}

/// What the end has done, once its threads have ended.
fn finish<N: Name>(
    alloc: Global,
    end: End<N>,
    messages: &Messages,
    ran: Ran<N, SendOutcome<N>>,
) -> Result<Sent, PairFault> {
    let (shared, (writer, written)) = end.into_parts();
    let ((reading, read), (hand, sent), is_made) = ran;
    let Hand { pass, receipts } = hand;
    let closed = take_apart(shared, both(alloc, reading, pass), writer);
    match outcome(is_made, read, written, sent.map_err(PairFault::Send)) {
        Ok(done) => sent_by(messages, closed, receipts, done),
        Err(fault) => {
            drop(closed);
            drop(receipts);
            Err(fault)
        }
    }
}

/// What is told of the end, where it was taken apart.
fn sent_by(
    messages: &Messages,
    closed: Result<Closed, PairFault>,
    receipts: Option<Vec<Receipt>>,
    done: Done,
) -> Result<Sent, PairFault> {
    match closed {
        Ok(closed) => {
            let sent = sent_of(messages, &closed, &receipts, &done);
            drop(closed);
            sent
        }
        Err(fault) => Err(fault),
    }
}

/// What is told of the closed connection, where the receipts stand in its journal and its ids are numbered.
fn sent_of(
    messages: &Messages,
    closed: &Closed,
    receipts: &Option<Vec<Receipt>>,
    done: &Done,
) -> Result<Sent, PairFault> {
    let stand = messages.stand(closed.conn.logged(), receipts);
    if !stand.map_err(PairFault::Send)? {
        return Err(PairFault::Receipt);
    }
    if !messages.are_numbered(closed.conn.logged()) {
        return Err(PairFault::Ids);
    }
    Ok(Sent {
        queued: done.queued,
        accepted: done.accepted,
        left: left_of(closed),
    })
}

/// The two passes of the end.
fn both<N: Name>(
    alloc: Global,
    reading: Pass<N>,
    pass: Pass<N>,
) -> Result<Vec<Pass<N>>, PairFault> {
    match Vec::with_capacity(alloc, 2) {
        Ok(mut passes) => {
            passes.push_reserved(reading);
            passes.push_reserved(pass);
            Ok(passes)
        }
        Err(_) => {
            drop(reading);
            drop(pass);
            Err(PairFault::NoMemory)
        }
    }
}
