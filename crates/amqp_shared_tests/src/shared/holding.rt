//! What is done under the lock.

use super::looks::sees;
use super::playing::{Before, Do, Due, Player};
use crate::acts::{Act, made};
use crate::octets::transfer;
use amqp_shared::{ConnFault, Fed, Guard, Name, Octets, Op, Pass, Refusal, Shared};
use std::alloc::Global;
use std::sync::Wait;

/// Does it under a lock of its own.
pub(super) fn hold<N: Name, R: Wait>(
    rt: &R,
    shared: &Shared<N>,
    player: &mut Player<N>,
    what: Do,
) -> bool {
    let mut guard = shared.lock(rt);
    let is_so = does(shared, &mut guard, player, what);
    drop(guard);
    is_so
}

fn does<N: Name>(
    shared: &Shared<N>,
    guard: &mut Guard<'_, N>,
    player: &mut Player<N>,
    what: Do,
) -> bool {
    match what {
        Do::Call(act, due) => calls(shared, guard, player, act, due),
        Do::CallBoth(one, other) => calls_both(shared, guard, player, one, other),
        Do::Hear(octets) => hears(shared, guard, &mut player.pass, octets),
        Do::Faults(octets) => !feeds(shared, guard, &mut player.pass, octets),
        Do::Bring(count) => brings(shared, guard, &mut player.pass, count),
        Do::Shut => shared.shut(guard, None).is_ok(),
        Do::Lose => loses(shared, guard),
        Do::MoveUnits => moves_units(shared, guard),
        Do::KeepAll => !shared.forget(guard),
        Do::Is(look) => sees(player.alloc, guard.conn(), look),
        Do::TakeThree => takes_two(player.alloc, shared, guard, &mut player.pass),
        _ => false,
    }
}

/// What goes before a call that waits.
pub(super) fn goes_before<N: Name>(
    shared: &Shared<N>,
    guard: &mut Guard<'_, N>,
    player: &mut Player<N>,
    before: Before,
) -> bool {
    match before {
        Before::Beat => calls(shared, guard, player, Act::Beat, Due::Done),
        Before::StartTwo => {
            calls_both(
                shared,
                guard,
                player,
                Act::Start(0, [1, 0]),
                Act::Start(0, [2, 0]),
            )
        }
        Before::Hear(octets) => hears(shared, guard, &mut player.pass, octets),
        Before::Shut => shared.shut(guard, None).is_ok(),
    }
}

fn calls<N: Name>(
    shared: &Shared<N>,
    guard: &mut Guard<'_, N>,
    player: &mut Player<N>,
    act: Act,
    due: Due,
) -> bool {
    match made(player.alloc, act) {
        Some(op) => {
            let answer = shared.call(guard, &mut player.pass, &op);
            drop(op);
            player.book.notes(act, answer, due)
        }
        None => false,
    }
}

fn calls_both<N: Name>(
    shared: &Shared<N>,
    guard: &mut Guard<'_, N>,
    player: &mut Player<N>,
    one: Act,
    other: Act,
) -> bool {
    let is_first = calls(shared, guard, player, one, Due::Done);
    let is_second = calls(shared, guard, player, other, Due::Done);
    is_first && is_second
}

/// How many octets of the piece one feed takes; none where they are refused.
fn used(answer: Result<Fed, ConnFault>) -> Option<usize> {
    match answer {
        Ok(fed) => {
            let used = fed.used;
            drop(fed);
            Some(used)
        }
        Err(_) => None,
    }
}

/// One feed takes all of it.
pub(super) fn feeds<N: Name>(
    shared: &Shared<N>,
    guard: &mut Guard<'_, N>,
    pass: &mut Pass<N>,
    piece: &[u8],
) -> bool {
    match used(shared.feed(guard, pass, &Octets::lent(piece))) {
        Some(used) => used == piece.len(),
        None => false,
    }
}

fn hears<N: Name>(
    shared: &Shared<N>,
    guard: &mut Guard<'_, N>,
    pass: &mut Pass<N>,
    octets: &[u8],
) -> bool {
    let mut rest = octets;
    for _ in 0..8u8 {
        if rest.is_empty() {
            return true;
        }
        let Some(used) = used(shared.feed(guard, pass, &Octets::lent(rest))) else {
            return false;
        };
        rest = rest.get(used..).unwrap_or(&[]);
    }
    rest.is_empty()
}

fn brings<N: Name>(
    shared: &Shared<N>,
    guard: &mut Guard<'_, N>,
    pass: &mut Pass<N>,
    count: u8,
) -> bool {
    for id in 0..count {
        let delivery = transfer(u8::from(id % 5 == 0), id);
        if !feeds(shared, guard, pass, &delivery) {
            return false;
        }
    }
    true
}

fn loses<N: Name>(shared: &Shared<N>, guard: &mut Guard<'_, N>) -> bool {
    shared.lost(guard);
    true
}

fn moves_units<N: Name>(shared: &Shared<N>, guard: &mut Guard<'_, N>) -> bool {
    shared.move_units(guard);
    true
}

fn takes_two<N: Name>(
    alloc: Global,
    shared: &Shared<N>,
    guard: &mut Guard<'_, N>,
    pass: &mut Pass<N>,
) -> bool {
    let takes = [
        Op::Take { link: 1 },
        Op::Take { link: 1 },
        Op::Take { link: 1 },
    ];
    match shared.call_many(alloc, guard, pass, &takes) {
        Ok(called) => called.answers.len() == 2 && called.refused == Some(Refusal::Nothing),
        Err(_) => false,
    }
}
