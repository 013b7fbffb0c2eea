//! What the application does. Each function reports by `event` what its step gave.
//!
//! # Errors
//!
//! Each returns 256 and the number of the refusal if the session refuses it. Those that take octets return 2 if these are malformed, and 3 if memory
//! runs out before. Nothing has changed then.
ghost use Rattle.std.specs.Prelude.{◌≡◌, ◌⊎◌, false};
ghost use Rattle.amqp_caller.specs.Arguments.{IsAttach, IsDispose, error_given};
ghost use Rattle.amqp_caller.specs.Calls.{Asked, Did};
ghost use Rattle.amqp_c.specs.OnHeld.{OnHeld};

use crate::handle::Handle;
use amqp_caller::{Event, LinkSettings, NO_CONNECTION, Outcome, Range};
use amqp_conn::{Op, ops};
use std::alloc::Global;

/// Does an operation whose arguments need no memory.
#[inline(always)]
fn does(alloc: Global, handle: &mut Handle, op: &Op, event: &mut Event) -> u32
    ensures { OnHeld handle.old.caller handle.new.caller result (λ old new. Did old op.now result event.new new) }
{
    let Some(mut caller) = handle.take(alloc) else {
        return NO_CONNECTION;
    };
    let status = caller.apply(op, event);
    handle.put(caller);
    status
}

/// Begins the session (part 2, 2.5.1).
#[unsafe(no_mangle)]
pub extern "C" fn teivorm_raw_begin(alloc: Global, handle: &mut Handle, event: &mut Event) -> u32
    ensures { OnHeld handle.old.caller handle.new.caller result (λ old new. Did old Op.Begin result event.new new) }
{
    does(alloc, handle, &Op::Begin, event)
}

/// Ends the session (part 2, 2.5.2), with an error unless the condition is empty.
#[unsafe(no_mangle)]
pub extern "C" fn teivorm_raw_end(
    alloc: Global,
    handle: &mut Handle,
    condition: &[u8],
    description: &[u8],
    event: &mut Event,
) -> u32
    ensures { OnHeld handle.old.caller handle.new.caller result (λ old new. Asked (λ o. o ≡ Op.End (error_given condition.now description.now)) (λ s. (s ≡ 2) ⊎ (s ≡ 3)) old result event.new new) }
{
    let Some(mut caller) = handle.take(alloc) else {
        return NO_CONNECTION;
    };
    let status = caller.end(alloc, condition, description, event);
    handle.put(caller);
    status
}

/// Sends an empty frame, so that the peer does not take us for gone (part 2, 2.4.5).
#[unsafe(no_mangle)]
pub extern "C" fn teivorm_raw_beat(alloc: Global, handle: &mut Handle, event: &mut Event) -> u32
    ensures { OnHeld handle.old.caller handle.new.caller result (λ old new. Did old Op.Beat result event.new new) }
{
    does(alloc, handle, &Op::Beat, event)
}

/// Sends the peer our window anew; with `echo` the peer has to answer with a flow (part 2, 2.7.4).
#[unsafe(no_mangle)]
pub extern "C" fn teivorm_raw_refresh(
    alloc: Global,
    handle: &mut Handle,
    echo: bool,
    event: &mut Event,
) -> u32
    ensures { OnHeld handle.old.caller handle.new.caller result (λ old new. Did old (Op.Refresh echo) result event.new new) }
{
    does(alloc, handle, &Op::Refresh { echo }, event)
}

/// Attaches a link of this name between these addresses (part 2, 2.7.3). `role` is 0 for a sender and 1 for a receiver; an empty address stands for no terminus.
#[unsafe(no_mangle)]
pub extern "C" fn teivorm_raw_attach(
    alloc: Global,
    handle: &mut Handle,
    name: &[u8],
    role: u32,
    source: &[u8],
    target: &[u8],
    settings: &LinkSettings,
    event: &mut Event,
) -> u32
    ensures { OnHeld handle.old.caller handle.new.caller result (λ old new. Asked (IsAttach name.now role source.now target.now settings.now) (λ s. (s ≡ 2) ⊎ (s ≡ 3)) old result event.new new) }
{
    let Some(mut caller) = handle.take(alloc) else {
        return NO_CONNECTION;
    };
    let status = caller.attach(alloc, name, role, source, target, settings, event);
    handle.put(caller);
    status
}

/// Detaches the link (part 2, 2.6.6), with an error unless the condition is empty.
#[unsafe(no_mangle)]
pub extern "C" fn teivorm_raw_detach(
    alloc: Global,
    handle: &mut Handle,
    link: u32,
    condition: &[u8],
    description: &[u8],
    event: &mut Event,
) -> u32
    ensures { OnHeld handle.old.caller handle.new.caller result (λ old new. Asked (λ o. o ≡ Op.Detach link (error_given condition.now description.now)) (λ s. (s ≡ 2) ⊎ (s ≡ 3)) old result event.new new) }
{
    let Some(mut caller) = handle.take(alloc) else {
        return NO_CONNECTION;
    };
    let status = caller.detach(alloc, link, condition, description, event);
    handle.put(caller);
    status
}

/// Begins a delivery with its first transfer (part 2, 2.6.12). With `more` further parts follow, by `teivorm_carry`.
#[unsafe(no_mangle)]
pub extern "C" fn teivorm_raw_start(
    alloc: Global,
    handle: &mut Handle,
    link: u32,
    tag: &[u8],
    payload: &[u8],
    settled: bool,
    more: bool,
    event: &mut Event,
) -> u32
    ensures { OnHeld handle.old.caller handle.new.caller result (λ old new. Asked (λ o. o ≡ Op.Start link tag.now 0 settled payload.now more) (λ s. (s ≡ 2) ⊎ (s ≡ 3)) old result event.new new) }
{
    let Some(mut caller) = handle.take(alloc) else {
        return NO_CONNECTION;
    };
    let status = caller.start(alloc, link, tag, payload, settled, more, event);
    handle.put(caller);
    status
}

/// Sends a further part of the delivery that is unfinished on the link (part 2, 2.6.14).
#[unsafe(no_mangle)]
pub extern "C" fn teivorm_raw_carry(
    alloc: Global,
    handle: &mut Handle,
    link: u32,
    payload: &[u8],
    more: bool,
    event: &mut Event,
) -> u32
    ensures { OnHeld handle.old.caller handle.new.caller result (λ old new. Asked (λ o. o ≡ Op.Carry link payload.now more) (λ s. (s ≡ 2) ⊎ (s ≡ 3)) old result event.new new) }
{
    let Some(mut caller) = handle.take(alloc) else {
        return NO_CONNECTION;
    };
    let status = caller.carry(alloc, link, payload, more, event);
    handle.put(caller);
    status
}

/// Gives up the delivery that is unfinished on the link (part 2, 2.7.5).
#[unsafe(no_mangle)]
pub extern "C" fn teivorm_raw_abort(
    alloc: Global,
    handle: &mut Handle,
    link: u32,
    event: &mut Event,
) -> u32
    ensures { OnHeld handle.old.caller handle.new.caller result (λ old new. Did old (Op.Abort link) result event.new new) }
{
    does(alloc, handle, &Op::Abort { link }, event)
}

/// Sets the credit of a link on which we receive (part 2, 2.6.7). With `drain` the peer is to use it up or to give it up, with `echo` it is asked for a flow.
#[unsafe(no_mangle)]
pub extern "C" fn teivorm_raw_grant(
    alloc: Global,
    handle: &mut Handle,
    link: u32,
    credit: u32,
    drain: bool,
    echo: bool,
    event: &mut Event,
) -> u32
    ensures { OnHeld handle.old.caller handle.new.caller result (λ old new. Did old (Op.Grant link credit drain echo) result event.new new) }
{
    let op = Op::Grant {
        link,
        credit,
        drain,
        echo,
    };
    does(alloc, handle, &op, event)
}

/// Announces to the peer how many messages are available on a link on which we send (part 2, 2.6.7).
#[unsafe(no_mangle)]
pub extern "C" fn teivorm_raw_offer(
    alloc: Global,
    handle: &mut Handle,
    link: u32,
    available: u32,
    event: &mut Event,
) -> u32
    ensures { OnHeld handle.old.caller handle.new.caller result (λ old new. Did old (Op.Offer link available) result event.new new) }
{
    does(alloc, handle, &Op::Offer { link, available }, event)
}

/// Gives up the credit that is left on a link on which we send, as the peer asked by a drain (part 2, 2.6.7).
#[unsafe(no_mangle)]
pub extern "C" fn teivorm_raw_drained(
    alloc: Global,
    handle: &mut Handle,
    link: u32,
    event: &mut Event,
) -> u32
    ensures { OnHeld handle.old.caller handle.new.caller result (λ old new. Did old (Op.Drained link) result event.new new) }
{
    does(alloc, handle, &Op::Drained { link }, event)
}

/// States the outcome of the deliveries `first` to `last`, and settles them if `settled` (part 2, 2.7.6). `role` is ours on their links: 0 sender, 1 receiver.
/// The condition and the description are those of a rejection.
#[unsafe(no_mangle)]
pub extern "C" fn teivorm_raw_dispose(
    alloc: Global,
    handle: &mut Handle,
    role: u32,
    first: u32,
    last: u32,
    settled: bool,
    outcome: &Outcome,
    condition: &[u8],
    description: &[u8],
    event: &mut Event,
) -> u32
    ensures { OnHeld handle.old.caller handle.new.caller result (λ old new. Asked (IsDispose (record { role = role; first = first; last = last; settled = settled }) outcome.now condition.now description.now) (λ s. (s ≡ 2) ⊎ (s ≡ 3)) old result event.new new) }
{
    let Some(mut caller) = handle.take(alloc) else {
        return NO_CONNECTION;
    };
    let range = Range {
        role,
        first,
        last,
        settled,
    };
    let status = caller.dispose(alloc, range, outcome, condition, description, event);
    handle.put(caller);
    status
}

/// Learns the first outcome that the peer told of a delivery of the link.
#[unsafe(no_mangle)]
pub extern "C" fn teivorm_raw_learn(
    alloc: Global,
    handle: &mut Handle,
    link: u32,
    event: &mut Event,
) -> u32
    ensures { OnHeld handle.old.caller handle.new.caller result (λ old new. Did old (Op.Learn link) result event.new new) }
{
    does(alloc, handle, &ops::learn(link), event)
}

/// Takes the first delivery of the link that is ready. `teivorm_payload` reads its payload.
#[unsafe(no_mangle)]
pub extern "C" fn teivorm_raw_take(
    alloc: Global,
    handle: &mut Handle,
    link: u32,
    event: &mut Event,
) -> u32
    ensures { OnHeld handle.old.caller handle.new.caller result (λ old new. Did old (Op.Take link) result event.new new) }
{
    does(alloc, handle, &ops::take(link), event)
}

/// Puts the link aside (part 2, 2.6.4): it is detached, not for good.
#[unsafe(no_mangle)]
pub extern "C" fn teivorm_raw_suspend(
    alloc: Global,
    handle: &mut Handle,
    link: u32,
    event: &mut Event,
) -> u32
    ensures { OnHeld handle.old.caller handle.new.caller result (λ old new. Did old (Op.Suspend link) result event.new new) }
{
    does(alloc, handle, &ops::suspend(link), event)
}
