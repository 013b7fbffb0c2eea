//! Connections start, octets come in and go out, and connections end.
ghost use Rattle.std.specs.Prelude.{◌≡◌, ◌≢◌, [], None};
ghost use Rattle.amqp_conn.specs.Calling.{forgotten};
ghost use Rattle.amqp_conn.specs.Connection.{connection, in_phase};
ghost use Rattle.amqp_caller.specs.Arguments.{error_given};
ghost use Rattle.amqp_caller.specs.Calls.{Closed, WasFed, Writes};
ghost use Rattle.amqp_caller.specs.Starting.{config_told};
ghost use Rattle.amqp_c.specs.OnHeld.{IsNew, OnHeld, OnHeldOr0};

use crate::handle::Handle;
use amqp_caller::{Caller, DONE, Event, NO_CONNECTION, NO_MEMORY, Settings, start};
use amqp_conn::Phase;
use std::alloc::Global;

/// Starts a connection of a container with this name to this host, and puts it into the handle. A connection that the handle had is freed.
///
/// # Errors
///
/// 2 if a text is not UTF-8, 3 if memory runs out, 768 and the number of the reason if the settings allow no connection. The handle is unchanged then.
#[unsafe(no_mangle)]
pub extern "C" fn teivorm_raw_new(
    alloc: Global,
    handle: &mut Handle,
    name: &[u8],
    host: &[u8],
    settings: &Settings,
) -> u32
    ensures started { result ≡ 0 → IsNew (config_told name.now host.now settings.now) handle.new.caller }
    ensures stands { result ≢ 0 → handle.new.caller ≡ handle.old.caller }
{
    match start(alloc, name, host, settings) {
        Ok(conn) => match Box::new(alloc, Caller::new(conn)) {
            Ok(caller) => {
                handle.put(caller);
                DONE
            }
            Err(_) => NO_MEMORY,
        },
        Err(status) => status,
    }
}

/// Frees the connection, and leaves the handle without one.
#[unsafe(no_mangle)]
pub extern "C" fn teivorm_raw_free(alloc: Global, handle: &mut Handle)
    ensures { handle.new.caller ≡ None }
{
    *handle = Handle::empty(alloc);
}

/// Feeds octets that came, at most to the end of one frame. `used` says how many of them, and `event` what they gave.
///
/// # Errors
///
/// 512 and the number of the fault.
#[unsafe(no_mangle)]
pub extern "C" fn teivorm_raw_feed(
    alloc: Global,
    handle: &mut Handle,
    octets: &[u8],
    used: &mut usize,
    event: &mut Event,
) -> u32
    ensures { OnHeld handle.old.caller handle.new.caller result (λ old new. WasFed old.conn octets.now used.new result event.new new.conn × (new.rest ≡ old.rest) × (new.taken ≡ old.taken)) }
{
    let Some(mut caller) = handle.take(alloc) else {
        return NO_CONNECTION;
    };
    let status = caller.feed(octets, used, event);
    handle.put(caller);
    status
}

/// Copies octets that go out next into `room`, and returns how many. They are of one unit at most, so a program calls until 0 is returned.
#[unsafe(no_mangle)]
pub extern "C" fn teivorm_raw_write(alloc: Global, handle: &mut Handle, room: &mut [u8]) -> usize
    ensures { OnHeldOr0 handle.old.caller handle.new.caller result (λ old new. Writes old.rest old.conn room.new result new.rest new.conn × (new.taken ≡ old.taken)) }
{
    let Some(mut caller) = handle.take(alloc) else {
        return 0;
    };
    let count = caller.write(room);
    handle.put(caller);
    count
}

/// Closes the connection (part 2, 2.4.3), with an error unless the condition is empty.
///
/// # Errors
///
/// 2 if a text is not UTF-8, 3 if memory runs out, 1024 and the number of the refusal. Nothing has changed then.
#[unsafe(no_mangle)]
pub extern "C" fn teivorm_raw_close(
    alloc: Global,
    handle: &mut Handle,
    condition: &[u8],
    description: &[u8],
) -> u32
    ensures { OnHeld handle.old.caller handle.new.caller result (λ old new. Closed (error_given condition.now description.now) old result new) }
{
    let Some(mut caller) = handle.take(alloc) else {
        return NO_CONNECTION;
    };
    let status = caller.close(alloc, condition, description);
    handle.put(caller);
    status
}

/// Reports that no octets will come any more: the connection is closed, and no close is sent.
#[unsafe(no_mangle)]
pub extern "C" fn teivorm_raw_lost(alloc: Global, handle: &mut Handle) -> u32
    ensures { OnHeld handle.old.caller handle.new.caller result (λ old new. new ≡ record old { conn = connection (in_phase Phase.Closed old.conn.core) [] }) }
{
    let Some(mut caller) = handle.take(alloc) else {
        return NO_CONNECTION;
    };
    caller.conn.lost();
    handle.put(caller);
    DONE
}

/// Forgets the steps so far, with the payloads that they keep.
#[unsafe(no_mangle)]
pub extern "C" fn teivorm_raw_forget(alloc: Global, handle: &mut Handle) -> u32
    ensures { OnHeld handle.old.caller handle.new.caller result (λ old new. new ≡ record old { conn = forgotten old.conn }) }
{
    let Some(mut caller) = handle.take(alloc) else {
        return NO_CONNECTION;
    };
    caller.conn.forget();
    handle.put(caller);
    DONE
}
