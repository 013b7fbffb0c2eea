//! Octets that C reads in place.
ghost use Rattle.std.specs.Prelude.{◌≡◌, drop};
ghost use denote.RawPtr.{block_ptr};
ghost use Rattle.amqp_c.specs.Lending.{Lends, LendsOf};
ghost use Rattle.amqp_c.specs.OnHeld.{OnHeld, OnHeldOr0};

use crate::handle::Handle;
use amqp_caller::{DONE, NO_CONNECTION};
use std::alloc::Global;

/// Writes the address of the octets to `at`.
pub fn lend(octets: &[u8], at: &mut *const u8)
    ensures { at.new ≡ block_ptr octets.entry.ref_ptr.0 octets.entry.ref_ptr.1 }
{
    *at = octets.as_ptr();
}

/// Lends octets that go out next, without a copy: writes their address to `at`, and returns how many they are; 0 if none wait.
///
/// They stay readable until the next call on the handle. `teivorm_wrote` reports how many of them were written.
#[unsafe(no_mangle)]
pub extern "C" fn teivorm_raw_unit(alloc: Global, handle: &mut Handle, at: &mut *const u8) -> usize
    ensures { OnHeldOr0 handle.old.caller handle.new.caller result (λ old new. Lends old.rest old.conn result new.rest new.conn × (new.taken ≡ old.taken)) }
{
    let Some(mut caller) = handle.take(alloc) else {
        return 0;
    };
    caller.fetch();
    let octets = caller.front();
    let count = octets.len();
    lend(octets, at);
    handle.put(caller);
    count
}

/// Reports that so many of the octets were written that `teivorm_unit` lent.
#[unsafe(no_mangle)]
pub extern "C" fn teivorm_raw_wrote(alloc: Global, handle: &mut Handle, count: usize) -> u32
    ensures { OnHeld handle.old.caller handle.new.caller result (λ old new. (result ≡ 0) × (new ≡ record old { rest = drop count old.rest })) }
{
    let Some(mut caller) = handle.take(alloc) else {
        return NO_CONNECTION;
    };
    caller.wrote(count);
    handle.put(caller);
    DONE
}

/// Lends octets of the payload that was taken last, from a place on, without a copy: writes their address to `at`, and returns how many they are.
///
/// They stay readable until the next delivery is taken or the connection is freed.
#[unsafe(no_mangle)]
pub extern "C" fn teivorm_raw_payload_at(
    alloc: Global,
    handle: &mut Handle,
    from: u64,
    at: &mut *const u8,
) -> usize
    ensures { OnHeldOr0 handle.old.caller handle.new.caller result (λ old new. (new ≡ old) × LendsOf old.taken from result) }
{
    let Some(caller) = handle.take(alloc) else {
        return 0;
    };
    let octets = caller.payload_at(from);
    let count = octets.len();
    lend(octets, at);
    handle.put(caller);
    count
}
