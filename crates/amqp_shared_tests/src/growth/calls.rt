//! Calls on a shared session, each answered by a number. Where one is refused memory it is made again, after a look at what the readers show.

use super::consuming::consume;
use super::shown::{id_of, look, number_of};
use crate::acts::{Act, made};
use amqp_journal::receipt::Receipt;
use amqp_shared::{
    CloseRefusal, ConnFault, Fed, Given, Guard, Left, Name, Octets, Op, Pass, Refusal, Shared,
};
use std::alloc::Global;
use std::sync::Wait;
use std::thread::Threads;

/// What is done with a session.
#[derive(Clone, Copy)]
pub(crate) enum Do {
    /// Feeds it these octets, in pieces: how many were taken.
    Hear(&'static [u8]),
    /// Feeds it these at once.
    Feed(&'static [u8]),
    /// By `call`: the link or the delivery that it gives.
    Call(Act),
    /// By `call_wait`, where it need not wait.
    Wait(Act),
    /// Puts out our close.
    Shut,
    /// Forgets the entries: 1 where that is allowed.
    Forget,
    /// How many things are left.
    LeftLen,
    /// Pops the first of what is left: its id, or 99 where there is none.
    Left,
    /// Runs a consumer, which has to consume so many deliveries and to be stopped so: 1 where that is so.
    Consume(u64, Refusal),
}

/// Steps, each with its answer.
pub(crate) type Steps = &'static [(Do, u64)];

/// What a call answers: a number, or `None` where memory was refused. 1000 and more tells another refusal.
type Said = Option<u64>;

const REFUSED: u64 = 1000;

fn said(answer: Result<(Receipt, Given), Refusal>) -> Said {
    match answer {
        Ok((_, given)) => {
            let number = number_of(&given);
            drop(given);
            Some(u64::from(number))
        }
        Err(Refusal::NoMemory) => None,
        Err(refusal) => Some(REFUSED.wrapping_add(u64::from(refusal.number()))),
    }
}

/// Does the operation, and lets it go.
fn call<N: Name>(shared: &Shared<N>, guard: &mut Guard<'_, N>, pass: &mut Pass<N>, op: Op) -> Said {
    let answer = shared.call(guard, pass, &op);
    drop(op);
    said(answer)
}

fn call_wait<N: Name, R: Wait>(rt: &R, shared: &Shared<N>, pass: &mut Pass<N>, op: Op) -> Said {
    let (guard, answer) = shared.call_wait(rt, shared.lock(rt), pass, &op);
    drop(guard);
    drop(op);
    said(answer)
}

fn fed(answer: Result<Fed, ConnFault>) -> Said {
    match answer {
        Ok(fed) => {
            let used = fed.used as u64;
            drop(fed);
            Some(used)
        }
        Err(ConnFault::NoMemory) => None,
        Err(fault) => Some(REFUSED.wrapping_add(u64::from(fault.number()))),
    }
}

/// The id of what was popped.
fn popped(left: Option<Left>) -> Said {
    match left {
        Some(left) => {
            let id = id_of(&left);
            drop(left);
            Some(u64::from(id))
        }
        None => Some(99),
    }
}

/// A call under a lock that is held.
fn locked<N: Name>(
    alloc: Global,
    shared: &Shared<N>,
    guard: &mut Guard<'_, N>,
    pass: &mut Pass<N>,
    what: Do,
) -> Said {
    match what {
        Do::Feed(octets) => fed(shared.feed(guard, pass, &Octets::lent(octets))),
        Do::Call(act) => match made(alloc, act) {
            Some(op) => call(shared, guard, pass, op),
            None => None,
        },
        Do::Shut => match shared.shut(guard, None) {
            Ok(()) => Some(0),
            Err(CloseRefusal::NoMemory) => None,
            Err(refusal) => Some(REFUSED.wrapping_add(u64::from(refusal.number()))),
        },
        Do::Forget => Some(u64::from(shared.forget(guard))),
        Do::LeftLen => match shared.left_len(guard) {
            Ok(count) => Some(count as u64),
            Err(_) => None,
        },
        Do::Left => match shared.pop_left(guard) {
            Ok(left) => popped(left),
            Err(_) => None,
        },
        _ => Some(REFUSED),
    }
}

/// A call that hears no more than one piece.
fn once<N: Name, R: Wait>(
    rt: &R,
    alloc: Global,
    shared: &Shared<N>,
    pass: &mut Pass<N>,
    what: Do,
) -> Said {
    if let Do::Wait(act) = what {
        return match made(alloc, act) {
            Some(op) => call_wait(rt, shared, pass, op),
            None => None,
        };
    }
    let mut guard = shared.lock(rt);
    let said = locked(alloc, shared, &mut guard, pass, what);
    drop(guard);
    said
}

/// The same, made again where it was refused memory and changed nothing.
pub(crate) fn twice<N: Name, R: Wait>(
    rt: &R,
    alloc: Global,
    shared: &Shared<N>,
    pass: &mut Pass<N>,
    what: Do,
) -> Said {
    let before = look(rt, shared, pass.made());
    match once(rt, alloc, shared, pass, what) {
        None if look(rt, shared, pass.made()) == before => once(rt, alloc, shared, pass, what),
        said => said,
    }
}

/// Feeds all of the octets, at most so many at once: how many were taken.
fn hear<N: Name, R: Wait>(
    rt: &R,
    alloc: Global,
    shared: &Shared<N>,
    pass: &mut Pass<N>,
    octets: &'static [u8],
) -> Said {
    let mut used = 0usize;
    for _ in 0..99u8 {
        let rest = octets.get(used..).unwrap_or(&[]);
        let (piece, _) = rest.split_at(rest.len().min(20));
        match twice(rt, alloc, shared, pass, Do::Feed(piece)) {
            Some(count) if count < REFUSED && !piece.is_empty() => {
                used = used.wrapping_add(count as usize);
            }
            _ => break,
        }
    }
    Some(used as u64)
}

/// One step, by one of two passes.
fn step<N: Name + Send + Sync, R: Threads + Wait + Sync>(
    rt: &R,
    alloc: Global,
    shared: &Shared<N>,
    passes: &mut Vec<Pass<N>>,
    place: usize,
    what: Do,
) -> Said {
    if let Do::Consume(count, stopped) = what {
        let is_so = consume(rt, alloc, shared, passes, count, stopped);
        return Some(u64::from(is_so));
    }
    match (passes.get_mut(place % 2), what) {
        (Some(pass), Do::Hear(octets)) => hear(rt, alloc, shared, pass, octets),
        (Some(pass), what) => twice(rt, alloc, shared, pass, what),
        (None, _) => None,
    }
}

/// Whether each step is answered so.
pub(crate) fn go<N: Name + Send + Sync, R: Threads + Wait + Sync>(
    rt: &R,
    alloc: Global,
    shared: &Shared<N>,
    passes: &mut Vec<Pass<N>>,
    steps: Steps,
) -> bool {
    for (place, (what, due)) in steps.iter().enumerate() {
        if step(rt, alloc, shared, passes, place, *what) != Some(*due) {
            return false;
        }
    }
    true
}
