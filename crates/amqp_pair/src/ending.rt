//! How an end comes to its close, and what is left of it.
use crate::end::End;
use crate::fault::PairFault;
use crate::gate::{Gate, Opening};
use amqp_frames::Role;
use amqp_shared::{Closed, Name, NotClosed, Pass, Shared, WriterEnd};
use std::sync::Wait;

/// Ends the connection without a close: no more octets come, and none go out but those that wait. Whoever waits for it goes on.
pub fn lose<N: Name, R: Wait>(rt: &R, end: &End<N>) {
    let mut guard = end.shared.lock(rt);
    end.shared.lost(&mut guard);
    drop(guard);
    end.outlet.end(rt);
}

/// Ends the connection of an end that nobody reads, and says so to who waits until it is open.
pub fn give_up<N: Name, R: Wait>(rt: &R, end: &End<N>, gate: &Gate) {
    lose(rt, end);
    gate.tell(rt, Opening::Failed);
}

/// Closes the connection, or ends it where it cannot close.
pub fn shut<N: Name, R: Wait>(rt: &R, end: &End<N>) {
    let mut guard = end.shared.lock(rt);
    let closes = end.shared.shut(&mut guard, None).is_ok();
    drop(guard);
    if closes {
        end.flush(rt);
    } else {
        lose(rt, end);
    }
}

/// Puts a pass behind the others.
pub fn put<N: Name>(passes: &mut Vec<Pass<N>>, pass: Pass<N>) -> Result<(), PairFault> {
    match passes.push(pass) {
        Ok(()) => Ok(()),
        Err(_) => Err(PairFault::NoMemory),
    }
}

/// Takes an end apart, where all its passes were gathered.
pub fn take_apart<N: Name>(
    shared: Shared<N>,
    passes: Result<Vec<Pass<N>>, PairFault>,
    writer: WriterEnd<N>,
) -> Result<Closed, PairFault> {
    match passes {
        Ok(passes) => only_closed(shared.close(passes, writer)),
        Err(fault) => {
            drop(writer);
            drop(shared);
            Err(fault)
        }
    }
}

fn only_closed<N: Name>(closed: Result<Closed, NotClosed<N>>) -> Result<Closed, PairFault> {
    match closed {
        Ok(closed) => Ok(closed),
        Err(refusal) => {
            let reason = refusal.reason;
            drop(refusal);
            Err(PairFault::Close(reason))
        }
    }
}

/// How many deliveries an end that was taken apart still holds, and how many units nobody wrote.
pub fn left_of(closed: &Closed) -> u64 {
    let endpoint = closed.conn.logged().endpoint();
    let held = endpoint
        .unsettled_len(Role::Sender)
        .saturating_add(endpoint.unsettled_len(Role::Receiver));
    held.saturating_add(closed.left.len()) as u64
}
