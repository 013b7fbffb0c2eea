//! The end that receives: its reader, its writer, and its consumers.
ghost use Rattle.std.specs.Prelude.{◌≡◌};
ghost use Rattle.amqp_shared.specs.Passes.{IsNamed};

use crate::beginning::seed;
use crate::consuming::{ConsumeOutcome, Counts, consume_all};
use crate::end::{End, Means};
use crate::ending::{left_of, put, take_apart};
use crate::fault::PairFault;
use crate::options::Options;
use crate::reading::Beginning;
use crate::threads::{Ran, outcome, run_threads};
use amqp_frames::Role;
use amqp_shared::{Closed, Name, Pass, Seed, open_shared};
use std::alloc::Global;
use std::marker::Brand;
use std::net::TcpStream;
use std::sync::Wait;
use std::thread::Threads;

/// What the receiving end has done.
#[derive(Clone, Copy)]
pub struct Received {
    pub consumed: u64,
    /// Of what was consumed.
    pub octets: u64,
    /// Deliveries that it still holds, and units that nobody wrote.
    pub left: u64,
}

/// Makes the end `b` and runs it, until its connection has ended.
pub fn run_receiver<R>(
    rt: &R,
    alloc: Global,
    options: &Options,
    stream: TcpStream,
) -> Result<Received, PairFault>
where
    R: Threads + Wait + Sync,
{
    let seed = seed(alloc, "b", options)?;
    receive::<Brand, R>(rt, alloc, seed, options, stream)
}

/// What can fail comes first, so that an end which is made runs.
fn receive<N, R>(
    rt: &R,
    alloc: Global,
    seed: Seed,
    options: &Options,
    stream: TcpStream,
) -> Result<Received, PairFault>
where
    N: Name + Send + Sync,
    R: Threads + Wait + Sync,
    requires { IsNamed seed N.name N.parts N.ring N.retention }
{
    match Means::new(alloc, stream) {
        Ok(means) => receive_by::<N, R>(rt, alloc, seed, options, means),
        Err(fault) => {
            drop(seed);
            Err(fault)
        }
    }
}

/// Runs the end over its socket.
fn receive_by<N, R>(
    rt: &R,
    alloc: Global,
    seed: Seed,
    options: &Options,
    means: Means,
) -> Result<Received, PairFault>
where
    N: Name + Send + Sync,
    R: Threads + Wait + Sync,
    requires { IsNamed seed N.name N.parts N.ring N.retention }
{
    let (shared, mut reading, writer) = open_shared::<N>(seed);
    let beginning = Beginning {
        role: Role::Receiver,
        credit: options.credit,
        keep: options.keep,
    };
    match split_off(alloc, &mut reading, options.consumers) {
        Ok(passes) => {
            let (end, reader, gate) = means.into_end(alloc, shared, reading, writer, beginning);
            let (lent, shut) = (&end, &gate);
            let work = move || consume_all(rt, alloc, lent, passes, options.credit, shut);
            let ran = run_threads(rt, lent, reader, shut, work);
            drop(gate);
            finish(end, ran)
        }
        Err(fault) => {
            drop(means);
            drop(writer);
            drop(reading);
            drop(shared);
            Err(fault)
        }
    }
}

/// What the end has done, once its threads have ended.
fn finish<N: Name>(end: End<N>, ran: Ran<N, ConsumeOutcome<N>>) -> Result<Received, PairFault> {
    let (shared, (writer, written)) = end.into_parts();
    let ((reading, read), consumed, is_made) = ran;
    match outcome(is_made, read, written, consumed) {
        Ok((passes, counts)) => {
            let closed = take_apart(shared, with_reader(passes, reading), writer);
            received_by(closed, counts)
        }
        Err(fault) => {
            drop(writer);
            drop(reading);
            drop(shared);
            Err(fault)
        }
    }
}

/// What is told of the end, where it was taken apart.
fn received_by(closed: Result<Closed, PairFault>, counts: Counts) -> Result<Received, PairFault> {
    match closed {
        Ok(closed) => {
            let left = left_of(&closed);
            drop(closed);
            Ok(Received {
                consumed: counts.deliveries,
                octets: counts.octets,
                left,
            })
        }
        Err(fault) => Err(fault),
    }
}

/// The passes, with the reader's behind them.
fn with_reader<N: Name>(passes: Vec<Pass<N>>, reading: Pass<N>) -> Result<Vec<Pass<N>>, PairFault> {
    let mut passes = passes;
    match put(&mut passes, reading) {
        Ok(()) => Ok(passes),
        Err(fault) => {
            drop(passes);
            Err(fault)
        }
    }
}

/// A pass for each consumer.
fn split_off<N: Name>(
    alloc: Global,
    pass: &mut Pass<N>,
    count: u32,
) -> Result<Vec<Pass<N>>, PairFault> {
    let mut passes = Vec::new(alloc);
    for _ in 0..count {
        split_one(&mut passes, pass)?;
    }
    Ok(passes)
}

/// A pass behind the others: a part of this one.
fn split_one<N: Name>(passes: &mut Vec<Pass<N>>, pass: &mut Pass<N>) -> Result<(), PairFault> {
    match pass.split() {
        Some(part) => put(passes, part),
        None => Err(PairFault::Options),
    }
}
