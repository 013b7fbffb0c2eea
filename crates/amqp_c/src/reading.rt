//! What a connection is asked. Nothing changes.
ghost use Rattle.std.specs.Prelude.{◌≡◌, length};
ghost use Rattle.amqp_caller.specs.Calls.{PayloadOf};
ghost use Rattle.amqp_caller.specs.Numbers.{phase_number};
ghost use Rattle.amqp_caller.specs.Reading.{IsConnStatus, LinkTold, TextOf, link_at};
ghost use Rattle.amqp_c.specs.OnHeld.{OnHeld, OnHeldOr0};

use crate::handle::Handle;
use amqp_caller::{ConnStatus, DONE, LinkStatus, NO_CONNECTION};
use std::alloc::Global;

/// Returns the phase of the connection: 0 there is none, 1 awaits the header, 2 awaits the open, 3 is running, 4 is closing, 5 is closed.
#[unsafe(no_mangle)]
pub extern "C" fn teivorm_raw_phase(alloc: Global, handle: &mut Handle) -> u32
    ensures { OnHeldOr0 handle.old.caller handle.new.caller result (λ old new. (new ≡ old) × (result ≡ phase_number old.conn.core.phase)) }
{
    let Some(caller) = handle.take(alloc) else {
        return 0;
    };
    let phase = caller.phase();
    handle.put(caller);
    phase
}

/// Copies octets of the payload that was taken last into `room`, from a place on, and returns how many. A program calls until it has all.
#[unsafe(no_mangle)]
pub extern "C" fn teivorm_raw_payload(
    alloc: Global,
    handle: &mut Handle,
    from: u64,
    room: &mut [u8],
) -> usize
    ensures { OnHeldOr0 handle.old.caller handle.new.caller result (λ old new. (new ≡ old) × PayloadOf old.taken from room.new result) }
{
    let Some(caller) = handle.take(alloc) else {
        return 0;
    };
    let count = caller.payload(from, room);
    handle.put(caller);
    count
}

/// Copies a text into `room` as far as it has room, and returns the text's length: 0 if there is no such text.
///
/// | `what` | text |
/// |---|---|
/// | 0 | the name of the link |
/// | 1, 2 | the peer's container id, and the host that its open asks for |
/// | 3, 4 | condition and description of the detach or end that the newest step heard |
/// | 5, 6 | condition and description of the peer's close |
/// | 7, 8 | condition and description of the detach by which the peer ended the link |
/// | 9, 10 | condition and description of the rejection that the newest step learnt |
#[unsafe(no_mangle)]
pub extern "C" fn teivorm_raw_text(
    alloc: Global,
    handle: &mut Handle,
    what: u32,
    link: u32,
    room: &mut [u8],
) -> usize
    ensures { OnHeldOr0 handle.old.caller handle.new.caller result (λ old new. (new ≡ old) × TextOf what link old.conn (length room.old) room.new result) }
{
    let Some(caller) = handle.take(alloc) else {
        return 0;
    };
    let length = caller.text(what, link, room);
    handle.put(caller);
    length
}

/// Reports how the connection stands.
#[unsafe(no_mangle)]
pub extern "C" fn teivorm_raw_status(
    alloc: Global,
    handle: &mut Handle,
    status: &mut ConnStatus,
) -> u32
    ensures { OnHeld handle.old.caller handle.new.caller result (λ old new. (new ≡ old) × (result ≡ 0) × IsConnStatus old status.new) }
{
    let Some(caller) = handle.take(alloc) else {
        return NO_CONNECTION;
    };
    *status = ConnStatus::of(&caller);
    handle.put(caller);
    DONE
}

/// Reports how the link of this number stands.
///
/// # Errors
///
/// 2 if there is no such link; `status` is unchanged then.
#[unsafe(no_mangle)]
pub extern "C" fn teivorm_raw_link(
    alloc: Global,
    handle: &mut Handle,
    link: u32,
    status: &mut LinkStatus,
) -> u32
    ensures { OnHeld handle.old.caller handle.new.caller result (λ old new. (new ≡ old) × LinkTold (link_at old.conn link) result status.old status.new) }
{
    let Some(caller) = handle.take(alloc) else {
        return NO_CONNECTION;
    };
    let answer = caller.link(link, status);
    handle.put(caller);
    answer
}
