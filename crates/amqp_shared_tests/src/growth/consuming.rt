//! A consumer that is run, and run again: what it was refused memory for is done in its place.
ghost use Rattle.std.specs.Prelude.{◌≡◌, vec_len, IfSome};

use super::calls::{Do, twice};
use crate::acts::Act;
use amqp_shared::{
    Consumed, DeliveryState, Name, Pass, Refusal, Shared, Taken, Work, run_consumers,
};
use std::alloc::Global;
use std::sync::Wait;
use std::thread::Threads;

/// Accepts all.
#[derive(Drop)]
struct Accepting;

impl Work for Accepting {
    fn consume(&mut self, _item: &Taken) -> DeliveryState {
        DeliveryState::Accepted
    }
}

/// What a consumer did: how many deliveries it consumed in all, how many steps it made, and what stopped it.
#[derive(Clone, Copy)]
struct Ran {
    count: u64,
    made: u64,
    stopped: Refusal,
}

/// A list of one; none for want of memory.
fn one<T: Drop>(alloc: Global, item: T) -> Option<Vec<T>>
    ensures { IfSome result (λ v. vec_len v ≡ 1) }
{
    let Ok(mut list) = Vec::with_capacity(alloc, 1) else {
        return None;
    };
    match list.push(item) {
        Ok(()) => Some(list),
        Err(_) => None,
    }
}

/// A part of the first pass, in a list; none for want of memory, where the part is gone.
fn part<N: Name>(alloc: Global, passes: &mut Vec<Pass<N>>) -> Option<Vec<Pass<N>>>
    ensures { IfSome result (λ v. vec_len v ≡ 1) }
{
    let pass = passes.first_mut()?.split()?;
    one(alloc, pass)
}

/// What the consumer did; its pass is kept with the others.
fn kept<N: Name>(passes: &mut Vec<Pass<N>>, consumed: Consumed<N, Accepting>) -> Option<Ran> {
    let Consumed {
        pass,
        work: _,
        count,
        left,
        stopped,
    } = consumed;
    let made = pass.made();
    match passes.push(pass) {
        Ok(()) => Some(Ran {
            count: count.wrapping_add(left),
            made,
            stopped,
        }),
        Err(_) => None,
    }
}

/// What the consumer of a list that was handed back did.
fn kept_of<N: Name>(passes: &mut Vec<Pass<N>>, done: Vec<Consumed<N, Accepting>>) -> Option<Ran> {
    let mut done = done;
    let first = done.pop();
    drop(done);
    match first {
        Some(consumed) => kept(passes, consumed),
        None => None,
    }
}

/// What a consumer did that was given a part of the first pass; none for want of memory.
fn run<N: Name + Send + Sync, R: Threads + Wait + Sync>(
    rt: &R,
    alloc: Global,
    shared: &Shared<N>,
    passes: &mut Vec<Pass<N>>,
) -> Option<Ran> {
    let works = one(alloc, Accepting)?;
    let own = part(alloc, passes)?;
    match run_consumers(rt, shared, own, works, 0, 3) {
        Ok(done) => kept_of(passes, done),
        Err(_) => None,
    }
}

fn does<N: Name, R: Wait>(
    rt: &R,
    alloc: Global,
    shared: &Shared<N>,
    passes: &mut Vec<Pass<N>>,
    act: Act,
) -> bool {
    match passes.first_mut() {
        Some(pass) => twice(rt, alloc, shared, pass, Do::Call(act)) == Some(0),
        None => false,
    }
}

/// Does what a consumer was refused memory for that made so many steps, which are: it takes the first delivery, accepts it and grants, takes the second,
/// which came settled, and grants.
fn settle<N: Name, R: Wait>(
    rt: &R,
    alloc: Global,
    shared: &Shared<N>,
    passes: &mut Vec<Pass<N>>,
    made: u64,
) -> bool {
    match made {
        1 => {
            does(rt, alloc, shared, passes, Act::Accept)
                && does(rt, alloc, shared, passes, Act::Grant(0, 3))
        }
        2 | 4 => does(rt, alloc, shared, passes, Act::Grant(0, 3)),
        _ => true,
    }
}

/// How many deliveries a first run consumed. What it was stopped at for want of memory is done in its place.
fn consume_first<N: Name + Send + Sync, R: Threads + Wait + Sync>(
    rt: &R,
    alloc: Global,
    shared: &Shared<N>,
    passes: &mut Vec<Pass<N>>,
) -> Option<u64> {
    let ran = run(rt, alloc, shared, passes)?;
    let is_settled = ran.stopped != Refusal::NoMemory
        || settle(rt, alloc, shared, passes, ran.made);
    Some(if is_settled { ran.count } else { 99 })
}

/// Whether a consumer consumes so many deliveries, in two runs together, and is stopped so in the end. A run that hands nothing back, for want of memory, has
/// done nothing, or all that it was to do: what comes after shows which.
pub(crate) fn consume<N: Name + Send + Sync, R: Threads + Wait + Sync>(
    rt: &R,
    alloc: Global,
    shared: &Shared<N>,
    passes: &mut Vec<Pass<N>>,
    count: u64,
    stopped: Refusal,
) -> bool {
    let first = consume_first(rt, alloc, shared, passes);
    let again = match run(rt, alloc, shared, passes) {
        Some(ran) => Some(ran),
        None => run(rt, alloc, shared, passes),
    };
    match again {
        Some(ran) => {
            let all = ran.count.wrapping_add(first.unwrap_or(0));
            ran.stopped == stopped && (all == count || first.is_none() && all == 0)
        }
        None => false,
    }
}
