//! What peers meet.
use crate::stage::{LONG, Stage, Wanted};
use amqp_conn::{DeliveryState, Given, Op, Role, Text, ops};
use std::alloc::Global;
use std::net::Net;
use std::rt::Clock;
use std::sync::Wait;

/// What is tried.
#[derive(Clone, Copy)]
enum Case {
    Sent,
    Limit,
    Credit,
    Released,
    Died,
    Dynamic,
    Refused,
    Long,
    Woken,
}

const CASES: &[Case] = &[
    Case::Sent,
    Case::Limit,
    Case::Credit,
    Case::Released,
    Case::Died,
    Case::Dynamic,
    Case::Refused,
    Case::Long,
    Case::Woken,
];

/// Returns whether the outcome that is learnt next on a link is this one.
fn learns<R: Clock + Eprint + Wait>(
    rt: &R,
    stage: &mut Stage,
    key: usize,
    link: u32,
    wanted: &DeliveryState,
) -> Option<bool> {
    stage.await_done(rt, key, link, Role::Sender)?;
    match stage.peers.slots().get(key)?.conn().given() {
        Some(Given::Learned(learned)) => match &learned.get().state {
            Some(state) => Some(*state == *wanted && learned.get().settled),
            None => Some(false),
        },
        _ => Some(false),
    }
}

fn receiver<R: Clock + Eprint + Wait>(
    rt: &R,
    stage: &mut Stage,
    key: usize,
    address: &str,
) -> Option<u32> {
    let link = stage.attach(rt, key, Role::Receiver, address)?;
    stage.perform(key, ops::grant(link, 10));
    Some(link)
}

/// A message goes to the queue of its address, with its format, and its sender learns that it was accepted.
fn is_sent<R: Net + Clock + Eprint + Wait>(rt: &R, stage: &mut Stage) -> Option<bool> {
    let key = stage.connect(rt)?;
    let one = stage.attach(rt, key, Role::Sender, "one")?;
    let two = stage.attach(rt, key, Role::Sender, "two")?;
    stage.send(rt, key, two, 2)?;
    let is_accepted = learns(rt, stage, key, two, &DeliveryState::Accepted)?;
    stage.send(rt, key, one, 1)?;
    let from = receiver(rt, stage, key, "one")?;
    let (_, format, octet) = stage.take(rt, key, from)?;
    Some(is_accepted && format == 7 && octet == 1)
}

/// A message that has no room is released.
fn is_limited<R: Net + Clock + Eprint + Wait>(rt: &R, stage: &mut Stage) -> Option<bool> {
    let key = stage.connect(rt)?;
    let link = stage.attach(rt, key, Role::Sender, "one")?;
    let mut is_so = true;
    for octet in 0..5u8 {
        stage.send(rt, key, link, octet)?;
        is_so &= learns(rt, stage, key, link, &DeliveryState::Accepted)?;
    }
    stage.send(rt, key, link, 5)?;
    Some(is_so && learns(rt, stage, key, link, &DeliveryState::Released)?)
}

/// Credit is granted again, for more messages than are granted at once; they come in their order.
fn is_renewed<R: Net + Clock + Eprint + Wait>(rt: &R, stage: &mut Stage) -> Option<bool> {
    let key = stage.connect(rt)?;
    let to = stage.attach(rt, key, Role::Sender, "one")?;
    let from = receiver(rt, stage, key, "one")?;
    let mut is_so = true;
    for octet in 0..5u8 {
        stage.send(rt, key, to, octet)?;
    }
    for octet in 0..5u8 {
        let (_, _, came) = stage.take(rt, key, from)?;
        is_so &= came == octet;
    }
    Some(is_so)
}

/// A message that was released comes again.
fn is_released<R: Net + Clock + Eprint + Wait>(rt: &R, stage: &mut Stage) -> Option<bool> {
    let key = stage.connect(rt)?;
    let to = stage.attach(rt, key, Role::Sender, "one")?;
    stage.send(rt, key, to, 1)?;
    let from = receiver(rt, stage, key, "one")?;
    let (id, _, first) = stage.take(rt, key, from)?;
    let release = Op::Dispose {
        role: Role::Receiver,
        first: id,
        last: id,
        settled: true,
        state: Some(DeliveryState::Released),
    };
    let is_done = stage.perform(key, release);
    let (_, _, again) = stage.take(rt, key, from)?;
    Some(is_done && first == 1 && again == 1)
}

/// What a link had when it was detached comes to another one, in its order.
fn is_given_back<R: Net + Clock + Eprint + Wait>(rt: &R, stage: &mut Stage) -> Option<bool> {
    let key = stage.connect(rt)?;
    let other = stage.connect(rt)?;
    let to = stage.attach(rt, key, Role::Sender, "one")?;
    for octet in 0..3u8 {
        stage.send(rt, key, to, octet)?;
    }
    let from = receiver(rt, stage, other, "one")?;
    for _ in 0..3 {
        stage.take(rt, other, from)?;
    }
    stage.perform(other, ops::detach(from));
    stage.until(rt, other, Wanted::Gone(from))?;
    let late = receiver(rt, stage, key, "one")?;
    let mut is_so = true;
    for octet in 0..3u8 {
        let (_, _, came) = stage.take(rt, key, late)?;
        is_so &= came == octet;
    }
    Some(is_so)
}

/// An attach whose source or target is this one without a field.
fn bare(alloc: Global, role: Role, descriptor: u64, fields: &[bool]) -> Option<Op> {
    let name = Text::new(alloc, "bare").ok()?;
    let mut items = amqp_types::Items::new(alloc);
    for is_set in fields {
        let item = if *is_set {
            amqp_conn::Value::Bool(true)
        } else {
            amqp_conn::Value::Null
        };
        items.push(item).ok()?;
    }
    let descriptor = amqp_conn::Boxed::new(alloc, amqp_conn::Value::Ulong(descriptor)).ok()?;
    let list = amqp_conn::Boxed::new(alloc, amqp_conn::Value::List(items)).ok()?;
    let value = amqp_conn::Value::Described(descriptor, list);
    let node = amqp_conn::Boxed::new(alloc, value).ok()?;
    let other = ops::source(alloc, name.clone().ok()?).ok()?;
    match role {
        Role::Receiver => Some(ops::attach(name, role, Some(node), Some(other))),
        Role::Sender => Some(ops::attach(name, role, Some(other), Some(node))),
    }
}

/// A dynamic source is answered with an address.
fn is_made_up<R: Net + Clock + Eprint + Wait>(rt: &R, stage: &mut Stage) -> Option<bool> {
    let key = stage.connect(rt)?;
    let op = bare(
        stage.alloc,
        Role::Receiver,
        0x28,
        &[false, false, false, false, true],
    )?;
    let link = stage.offer(key, op)?;
    stage.until(rt, key, Wanted::Attached(link))?;
    let to = stage.attach(rt, key, Role::Sender, "temporary-0")?;
    stage.perform(key, ops::grant(link, 1));
    stage.send(rt, key, to, 9)?;
    let (_, _, octet) = stage.take(rt, key, link)?;
    Some(octet == 9)
}

/// A coordinator is refused.
fn is_refused<R: Net + Clock + Eprint + Wait>(rt: &R, stage: &mut Stage) -> Option<bool> {
    let key = stage.connect(rt)?;
    let op = bare(stage.alloc, Role::Sender, 0x30, &[])?;
    let link = stage.offer(key, op)?;
    for _ in 0..100 {
        stage.turn(rt)?;
        if let Some(error) = stage.peers.slots().get(key)?.conn().detached_by(link) {
            return Some(error.condition.as_str() == "amqp:not-implemented");
        }
    }
    Some(false)
}

/// A message of more transfers than the server's window has, and of more octets than a frame, comes as it was sent.
fn is_long<R: Net + Clock + Eprint + Wait>(rt: &R, stage: &mut Stage) -> Option<bool> {
    let key = stage.connect(rt)?;
    let to = stage.attach(rt, key, Role::Sender, "one")?;
    stage.send_long(rt, key, to, 2503)?;
    let from = receiver(rt, stage, key, "one")?;
    let payload = stage.take_payload(rt, key, from)?;
    let octets = payload.as_slice();
    let ends = [
        0,
        LONG - 1,
        LONG,
        2 * LONG - 1,
        2 * LONG,
        3 * LONG - 1,
        3 * LONG,
    ];
    let wanted = [0u8, 0, 1, 1, 2, 2, 3];
    let mut is_so = octets.len() == 3 * LONG + 2500;
    for place in 0..ends.len() {
        is_so &= octets.get(ends[place]) == Some(&wanted[place]);
    }
    Some(is_so)
}

/// A second thread is woken by each message that comes to the first one: four of its turns together take less than the second that they take if none is woken.
fn is_woken<R: Net + Clock + Eprint + Wait>(rt: &R, stage: &mut Stage) -> Option<bool> {
    let key = stage.connect(rt)?;
    let to = stage.attach(rt, key, Role::Sender, "one")?;
    let mut second = stage.second(rt)?;
    let mut waited: u64 = 0;
    for octet in 0..4u8 {
        stage.turn_second(rt, &mut second)?;
        stage.send(rt, key, to, octet)?;
        learns(rt, stage, key, to, &DeliveryState::Accepted)?;
        waited = waited.saturating_add(stage.turn_second(rt, &mut second)?);
    }
    Some(waited < 900)
}

/// The case, over a server of its own with room for five messages.
fn holds<R: AllocGlobal + Net + Clock + Eprint + Wait>(rt: &R, case: Case) -> bool {
    let Ok(mut stage) = Stage::new(rt, rt.alloc(), 5) else {
        return false;
    };
    let answer = match case {
        Case::Sent => is_sent(rt, &mut stage),
        Case::Limit => is_limited(rt, &mut stage),
        Case::Credit => is_renewed(rt, &mut stage),
        Case::Released => is_released(rt, &mut stage),
        Case::Died => is_given_back(rt, &mut stage),
        Case::Dynamic => is_made_up(rt, &mut stage),
        Case::Refused => is_refused(rt, &mut stage),
        Case::Long => is_long(rt, &mut stage),
        Case::Woken => is_woken(rt, &mut stage),
    };
    drop(stage);
    answer == Some(true)
}

#[test]
fn peers_are_served(rt: HostRuntime) {
    for case in CASES {
        assert!(rt; holds(&rt, *case));
    }
}
