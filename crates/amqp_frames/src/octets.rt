//! The octets of a stream, as they arrive.
ghost use Rattle.std.specs.Prelude.{◌≡◌, ◌≤◌, ◌-◌, OnOk, length, take, drop};

use bytes::Bytes;
use std::alloc::{AllocError, Global};
use std::marker::Model;

/// Octets of a stream: a borrowed slice, or the rest of shared octets.
#[derive(Drop)]
pub struct Octets<'a> {
    slice: &'a [u8],
    /// The shared octets, of which the slice is the rest from this place on.
    shared: Option<(&'a Bytes, usize)>,
}

impl<'a> Model for Octets<'a> {
    ghost use Rattle.std.specs.Prelude.{ℕ, List};
    ghost use Rattle.amqp_frames.specs.Octets.{IsRest};

    ghost Value = { List ℕ };

    ghost view = { λ o. o.slice.now };

    ghost invariant = { λ o. IsRest o.shared o.slice.now };
}

impl<'a> Octets<'a> {
    /// Borrows the octets for one call: a framer copies what it keeps of them.
    #[inline(always)]
    pub fn lent(slice: &'a [u8]) -> Octets<'a>
        ensures { result ≡ slice.now }
    {
        Octets {
            slice,
            shared: None,
        }
    }

    /// Uses the shared octets from the place `from` on.
    ///
    /// A payload that lies whole in them becomes a slice of them, without a copy, and keeps all of them alive. `from`
    /// must be at most their length.
    #[inline(always)]
    pub fn shared(octets: &'a Bytes, from: usize) -> Octets<'a>
        requires { from ≤ length octets.now }
        ensures { result ≡ drop from octets.now }
    {
        Octets {
            slice: &octets.as_slice()[from..],
            shared: Some((octets, from)),
        }
    }

    /// Returns the octets.
    #[inline(always)]
    pub fn as_slice(&self) -> &'a [u8]
        ensures { result.now ≡ self.now }
    {
        self.slice
    }

    /// Leaves the octets from `start` to `end` in the slot: a slice of shared octets, or a copy of lent ones.
    #[inline(always)]
    pub(crate) fn part_into(
        &self,
        alloc: Global,
        start: usize,
        end: usize,
        slot: &mut Bytes,
    ) -> Result<(), AllocError>
        requires order { start ≤ end }
        requires within { end ≤ length self.now }
        ensures { OnOk result (slot.new ≡ take (end - start) (drop start self.now)) }
    {
        match self.shared {
            None => copy_into(alloc, &self.slice[start..end], slot),
            Some((octets, from)) => {
                // No place is past the count of the octets.
                let all = octets.len();
                prove!(from <= all);
                slice_into(octets, from + start, from + end, slot)
            }
        }
    }
}

#[inline(never)]
fn copy_into(alloc: Global, octets: &[u8], slot: &mut Bytes) -> Result<(), AllocError>
    ensures { OnOk result (slot.new ≡ octets.now) }
{
    let copy = Bytes::copy_from_slice(alloc, octets)?;
    *slot = copy;
    Ok(())
}

/// Out of line, so that its parts go from registers to their places.
#[inline(never)]
fn slice_into(octets: &Bytes, start: usize, end: usize, slot: &mut Bytes) -> Result<(), AllocError>
    requires order { start ≤ end }
    requires within { end ≤ length octets.now }
    ensures { OnOk result (slot.new ≡ take (end - start) (drop start octets.now)) }
{
    let part = octets.slice(start..end)?;
    *slot = part;
    Ok(())
}
