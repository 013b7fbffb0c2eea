//! Described lists (part 1, 1.4): the descriptor, and the fields that follow it.
ghost use Rattle.std.specs.Prelude.{◌≡◌, ◌≤◌, ◌+◌, MatchOption, length};
ghost use Rattle.amqp_types.specs.Heads.{datum_of};
ghost use Rattle.amqp_decoder.specs.Opening.{FindsItems, NoItems, Opens, NotOpened};

use crate::fields::Cursor;
use amqp_types::{Descriptor, read_descriptor, read_list_head};

/// A described list that is in front of octets, as far as its head says.
#[derive(Clone, Copy)]
pub(crate) struct Opened<'a> {
    pub(crate) descriptor: Descriptor<'a>,
    pub(crate) fields: Cursor<'a>,
    /// How many octets spell it.
    pub(crate) used: usize,
}

/// The items of the list in front of the octets: how many, their octets, and how many octets the list takes.
#[inline]
fn list_items(octets: &[u8]) -> Option<(usize, &[u8], usize)>
    ensures { MatchOption result (NoItems octets.now) (λ r. FindsItems octets.now r.0 r.1.now r.2) }
{
    match read_list_head(octets) {
        Some(head) => Some((head.count, &octets[head.start..head.end], head.end)),
        None => None,
    }
}

/// The described list in front of the octets, where it is nested at most this deep.
#[inline(always)]
pub(crate) fn open(octets: &[u8], depth: u8) -> Option<Opened<'_>>
    requires some { 3 ≤ depth }
    requires most { depth ≤ 32 }
    ensures { MatchOption result (NotOpened depth octets.now)
        (λ r. Opens depth octets.now (datum_of r.descriptor) r.fields.depth r.fields.left r.fields.octets.now r.used) }
{
    match read_descriptor(octets) {
        Some((descriptor, start)) => match list_items(&octets[start..]) {
            Some((left, items, used)) => Some(Opened {
                descriptor,
                fields: Cursor {
                    depth: (depth - 2) as usize,
                    left,
                    octets: items,
                },
                used: start + used,
            }),
            None => None,
        },
        None => None,
    }
}
