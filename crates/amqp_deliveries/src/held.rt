//! The unsettled deliveries of one role.
ghost use Rattle.std.specs.Prelude.{List, ◌<◌, ◌≡◌, ◌++◌, ◌∷◌, [], false, IsTrue, ◌↔◌, length, option_map, slice_get, IfErr, OnOk, OnErr};
ghost use Rattle.std.specs.List.{list_any};
ghost use Rattle.std.specs.VecDeque.{deque_len, deque_capacity};
ghost use Rattle.amqp_events.specs.Told.{SentItem};
ghost use Rattle.amqp_deliveries.specs.Tags.{IsIndex};
ghost use Rattle.amqp_events.specs.Laws.{AreInOrder, IsPast};
ghost use Rattle.amqp_events.specs.Tags.{AreApart, is_tagged};
ghost use Rattle.amqp_deliveries.specs.Held.{IsHeld, items_of, untold, has_tag};
ghost use Rattle.amqp_deliveries.specs.Span.{IsSpan};

use crate::item::{Entry, HeldItem};
use crate::span::{Span, span_of};
use crate::tags::TagIndex;
use amqp_flow::serial::Serial;
use amqp_types::Tag;
use std::alloc::{AllocError, Global};
use std::collections::VecDeque;
use std::marker::Model;

mod edits;
mod lists;
mod loops;
mod readers;

/// Room for a delivery more, and its tag in use.
#[inline(never)]
fn make_room(
    items: &mut VecDeque<Entry>,
    tags: &mut TagIndex,
    entry: &Entry,
) -> Result<(), AllocError>
    ensures items { items.new.items ≡ items.old.items }
    ensures room { OnOk result (deque_len items.new < deque_capacity items.new) }
    ensures ok { (held : List SentItem) → IsIndex tags.old held → OnOk result (IsIndex tags.new (held ++ entry.now ∷ [])) }
    ensures err { (held : List SentItem) → IsIndex tags.old held → OnErr result (IsIndex tags.new held) }
{
    items.reserve(1)?;
    tags.put(entry)
}

/// The unsettled deliveries of one role, in serial order of their ids, which lie less than 2^31 apart. On a link each has a tag of its own.
/// Contracts see it as the list of its deliveries, each with a mark whether what became of it was told.
///
/// With n deliveries held, k of them covered by a range of ids, and h ids between the first and the last that are not held:
///
/// | call | steps |
/// |---|---|
/// | `len`, `at`, `follows` | one |
/// | `holds_tag`, `add` | one on average; n where the tags were chosen to collide as they are hashed |
/// | `span`, `find` | O(log h), and never more than O(log n) |
/// | `any_second`, `any_fixed`, `named_at` | k |
/// | `end_range`, `set_local`, `set_remote`, `say`, `hear`, `go_on` | those of `span`, and k; where deliveries end, the shorter side of the span moves: none for a span at either end |
/// | `ids_in`, `tellings` | those of `span`, and k |
/// | `ids`, `ids_of`, `tags_of`, `named_all`, `named_of`, `end_link`, `end_all` | n |
pub struct Held {
    alloc: Global,
    items: VecDeque<Entry>,
    tags: TagIndex,
}

// By hand, so that a crate that owns one does not prove its parts' drops again.
impl Drop for Held {
    fn drop(self) {
        let Held {
            alloc: _,
            items,
            tags,
        } = self;
        drop(items);
        drop(tags);
    }
}

impl Model for Held {
    ghost use Rattle.std.specs.Coded.{codes};
    ghost use Rattle.amqp_types.specs.contracts.value.Value as value;
    ghost use Rattle.std.specs.Prelude.{List};
    ghost use Rattle.amqp_events.specs.Told.{SentItem};

    ghost Value = { List SentItem };

    ghost coded = { Prim.hlevel (codes, value.the_row.coded) };

    ghost use Rattle.amqp_deliveries.specs.Held.{IsHeld};
    ghost use Rattle.amqp_deliveries.specs.Tags.{IsIndex};

    ghost view = { λ h. h.items.items };

    ghost invariant = { λ h. IsHeld h.items.items × IsIndex h.tags h.items.items };
}

impl Held {
    /// Nothing is held. It allocates nothing.
    pub fn new(alloc: Global) -> Held
        ensures { result ≡ [] }
    {
        Held {
            alloc,
            items: VecDeque::new(alloc),
            tags: TagIndex::new(alloc),
        }
    }

    /// How many are held.
    pub fn len(&self) -> usize
        ensures count { result ≡ length self.now }
        ensures in_order { AreInOrder (items_of self.now) }
        ensures apart { AreApart (items_of self.now) }
    {
        self.items.len()
    }

    /// No delivery is held.
    pub fn is_empty(&self) -> bool
        ensures { IsTrue result ↔ (self.now ≡ []) }
    {
        self.items.is_empty()
    }

    /// The delivery at place `i`.
    pub fn at(&self, i: usize) -> Option<&HeldItem>
        ensures { option_map (λ x. x.now) result ≡ slice_get (items_of self.now) i }
    {
        match self.items.get(i) {
            None => None,
            Some(entry) => Some(&entry.item),
        }
    }

    /// Whether a delivery of this link with this tag is held.
    pub fn holds_tag(&self, link: u32, tag: &Tag) -> bool
        ensures { result ≡ list_any (has_tag link tag.now) self.now }
    {
        self.tags.has(link, tag)
    }

    /// Whether this id comes after all that are held.
    pub fn follows(&self, id: u32) -> bool
        ensures { IsTrue result ↔ IsPast id (items_of self.now) }
    {
        let (Some(first), Some(last)) = (self.items.front(), self.items.back()) else {
            return true;
        };
        Serial(first.id()).is_before(Serial(id)) && Serial(last.id()).is_before(Serial(id))
    }

    /// A delivery begins.
    pub(crate) fn begin(&mut self, item: HeldItem) -> Result<(), AllocError>
        requires follows { IsPast item.id (items_of self.old) }
        requires fresh { list_any (has_tag item.link item.tag) self.old ≡ false }
        ensures ok { OnOk result (self.new ≡ self.old ++ untold item ∷ []) }
        ensures err { OnErr result (self.new ≡ self.old) }
    {
        let _id = item.id();
        let entry = Entry::new(item);
        match make_room(&mut self.items, &mut self.tags, &entry) {
            Ok(()) => {
                self.items.push_back_reserved(entry);
                Ok(())
            }
            Err(e) => {
                drop(entry);
                Err(e)
            }
        }
    }

    /// A delivery begins. For want of memory it is handed back.
    pub fn add(&mut self, item: HeldItem) -> Result<(), HeldItem>
        requires follows { IsPast item.id (items_of self.old) }
        requires fresh { list_any (has_tag item.link item.tag) self.old ≡ false }
        ensures ok { OnOk result (self.new ≡ self.old ++ untold item ∷ []) }
        ensures err { OnErr result (self.new ≡ self.old) }
        ensures back { IfErr result (λ back. back ≡ item) }
    {
        let _id = item.id();
        let entry = Entry::new(item);
        match make_room(&mut self.items, &mut self.tags, &entry) {
            Ok(()) => {
                self.items.push_back_reserved(entry);
                Ok(())
            }
            Err(_) => Err(entry.item),
        }
    }

    /// The places of the deliveries that the ids `first` to `last` cover; none where those are 2^31 or more apart.
    pub fn span(&self, first: u32, last: u32) -> Span
        ensures span { IsSpan first last self.now result }
        ensures held { IsHeld self.now }
    {
        span_of(&self.items, first, last)
    }
}
