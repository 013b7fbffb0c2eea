//! Links come back on another connection, and what links leave is given (part 2, 2.6.13).
ghost use Rattle.std.specs.Prelude.{◌≡◌, ◌⊎◌};
ghost use Rattle.amqp_rules.specs.Status.{waiting_shown};
ghost use Rattle.amqp_caller.specs.Aside.{IsRejoin, WaitTold, WasLeft};
ghost use Rattle.amqp_caller.specs.Calls.{Asked};
ghost use Rattle.amqp_caller.specs.Reading.{view_of};
ghost use Rattle.amqp_c.specs.Both.{OnBoth};
ghost use Rattle.amqp_c.specs.OnHeld.{OnHeld};

use crate::handle::Handle;
use amqp_caller::{Event, LinkSettings, LostLink, NO_CONNECTION};
use amqp_conn::Op;
use std::alloc::Global;

/// Brings a link back that the connection of the handle `lost` had when it was lost (part 2, 2.6.13). What was unsettled on it waits to be resumed.
///
/// `role` is ours on the link, and `place` its place among the links of the role that can be rejoined, in the order in which they were made.
///
/// # Errors
///
/// 2 if there is no such link or an address is not UTF-8, 3 if memory runs out, 256 and the number of the refusal. Nothing has changed then.
#[unsafe(no_mangle)]
pub extern "C" fn teivorm_raw_rejoin(
    alloc: Global,
    handle: &mut Handle,
    lost: &mut Handle,
    role: u32,
    place: u32,
    source: &[u8],
    target: &[u8],
    settings: &LinkSettings,
    event: &mut Event,
) -> u32
    ensures { OnBoth handle.old.caller handle.new.caller lost.old.caller lost.new.caller result (λ from old new. Asked (IsRejoin (record { role = role; place = place }) from.conn source.now target.now settings.now) (λ s. (s ≡ 2) ⊎ (s ≡ 3)) old result event.new new) }
{
    let Some(mut caller) = handle.take(alloc) else {
        return NO_CONNECTION;
    };
    let Some(from) = lost.take(alloc) else {
        handle.put(caller);
        return NO_CONNECTION;
    };
    let link = LostLink { role, place };
    let status = caller.rejoin(alloc, &from, link, source, target, settings, event);
    lost.put(from);
    handle.put(caller);
    status
}

/// Resumes the delivery with this tag that waits on the link (part 2, 2.6.13).
///
/// # Errors
///
/// 2 if the tag has more than 32 octets, 256 and the number of the refusal. Nothing has changed then.
#[unsafe(no_mangle)]
pub extern "C" fn teivorm_raw_resume(
    alloc: Global,
    handle: &mut Handle,
    link: u32,
    tag: &[u8],
    settled: bool,
    event: &mut Event,
) -> u32
    ensures { OnHeld handle.old.caller handle.new.caller result (λ old new. Asked (λ o. o ≡ Op.Resume link tag.now settled) (λ s. (s ≡ 2) ⊎ (s ≡ 3)) old result event.new new) }
{
    let Some(mut caller) = handle.take(alloc) else {
        return NO_CONNECTION;
    };
    let status = caller.resume(link, tag, settled, event);
    handle.put(caller);
    status
}

/// Reports the delivery at this place among those that wait on the link to be resumed: its tag, and what the peer holds of it.
///
/// # Errors
///
/// 2 if there is none.
#[unsafe(no_mangle)]
pub extern "C" fn teivorm_raw_waiting(
    alloc: Global,
    handle: &mut Handle,
    link: u32,
    place: u32,
    event: &mut Event,
) -> u32
    ensures { OnHeld handle.old.caller handle.new.caller result (λ old new. (new ≡ old) × WaitTold link (waiting_shown (view_of old.conn) link place) result event.new) }
{
    let Some(caller) = handle.take(alloc) else {
        return NO_CONNECTION;
    };
    let status = caller.waiting(link, place, event);
    handle.put(caller);
    status
}

/// Returns in `event` the first of what is left: a delivery that was ready and not taken, or an outcome that was reported and not learnt, when its link
/// or the connection ended. The event is that of a take or of a learn; its kind is 0 if nothing is left.
///
/// # Errors
///
/// 3 if memory runs out; nothing has changed then.
#[unsafe(no_mangle)]
pub extern "C" fn teivorm_raw_left(alloc: Global, handle: &mut Handle, event: &mut Event) -> u32
    ensures { OnHeld handle.old.caller handle.new.caller result (λ old new. WasLeft old result event.new new) }
{
    let Some(mut caller) = handle.take(alloc) else {
        return NO_CONNECTION;
    };
    let status = caller.left(event);
    handle.put(caller);
    status
}
