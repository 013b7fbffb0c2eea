//! What a thread waits for. The lock is kept from what goes before, and given back where a call waits: who sees the step before finds that the call waits.

use super::holding::goes_before;
use super::playing::{Before, Due, Player};
use crate::acts::{Act, made};
use amqp_shared::{Guard, Left, Name, Op, Refusal, Shared, Waited};
use std::sync::Wait;

pub(super) fn wait_behind<N: Name, R: Wait>(
    rt: &R,
    shared: &Shared<N>,
    player: &mut Player<N>,
    before: Before,
    act: Act,
    due: Due,
) -> bool {
    let mut guard = shared.lock(rt);
    let is_begun = goes_before(shared, &mut guard, player, before);
    let (guard, is_so) = waits(rt, shared, guard, player, act, due);
    drop(guard);
    is_begun && is_so
}

pub(super) fn wait_for_both<N: Name, R: Wait>(
    rt: &R,
    shared: &Shared<N>,
    player: &mut Player<N>,
    one: Act,
    other: Act,
) -> bool {
    let mut guard = shared.lock(rt);
    let is_begun = goes_before(shared, &mut guard, player, Before::Beat);
    let (guard, is_first) = waits(rt, shared, guard, player, one, Due::Done);
    let (guard, is_second) = waits(rt, shared, guard, player, other, Due::Done);
    drop(guard);
    is_begun && is_first && is_second
}

fn waits<'b, N: Name, R: Wait>(
    rt: &R,
    shared: &Shared<N>,
    guard: Guard<'b, N>,
    player: &mut Player<N>,
    act: Act,
    due: Due,
) -> (Guard<'b, N>, bool) {
    match made(player.alloc, act) {
        Some(op) => {
            let (guard, answer) = shared.call_wait(rt, guard, &mut player.pass, &op);
            drop(op);
            let is_so = player.book.notes(act, answer, due);
            (guard, is_so)
        }
        None => (guard, false),
    }
}

pub(super) fn wait_in_vain<N: Name, R: Wait>(
    rt: &R,
    shared: &Shared<N>,
    player: &mut Player<N>,
    before: Before,
    refusal: Refusal,
    left: Option<usize>,
) -> bool {
    let mut guard = shared.lock(rt);
    let is_begun = goes_before(shared, &mut guard, player, before);
    let learn = Op::Learn { link: 0 };
    let (mut guard, answer) = shared.call_wait_or_left(rt, guard, &mut player.pass, &learn);
    drop(learn);
    let is_left = leaves(shared, &mut guard, left);
    drop(guard);
    let is_had = has(answer, refusal);
    is_begun && is_left && is_had
}

/// So many outcomes are left, if that is asked.
fn leaves<N: Name>(shared: &Shared<N>, guard: &mut Guard<'_, N>, left: Option<usize>) -> bool {
    match left {
        Some(left) => shared.left_len(guard).unwrap_or(usize::MAX) == left,
        None => true,
    }
}

/// It is refused so, with the outcome of the first delivery.
fn has(answer: Waited, due: Refusal) -> bool {
    match answer {
        Ok(done) => {
            drop(done);
            false
        }
        Err((refusal, Ok(Some(left)))) => is_outcome(left, 0) && refusal == due,
        Err((_, Ok(None))) => false,
        Err((_, Err(_))) => false,
    }
}

/// It is the outcome of the delivery with this id, on a link `q`.
pub(super) fn is_outcome(left: Left, id: u32) -> bool {
    let is_so = match &left {
        Left::Outcome(name, learned) => name.as_str() == "q" && learned.get().id == id,
        Left::Delivery(_, _) => false,
    };
    drop(left);
    is_so
}
