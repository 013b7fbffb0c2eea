//! The deliveries that wait on a link.
ghost use Rattle.std.specs.Prelude.{◌≡◌, [], false, find, map, IfOk, OnOk, OnErr, MatchOption, filter_map, None, Some, length, slice_get, option_copied, option_map, ◌<◌};
ghost use Rattle.amqp_waiting.specs.Waiting.{WaitingItem, waits_as, waits, without, told_of, met_item, met, suspended_as, unclear, has_twice};
ghost use Rattle.amqp_waiting.specs.Kept.{standing_of, same_key, met_entry, put_where, suspended_entry};
ghost use Rattle.indexmap.specs.IndexMap.{insert_entry, IsUnique};

use crate::item::{Standing, SuspendedItem, Verdict};
use crate::key::Key;
use crate::peer::{Told, Unsettled, copy_told, verdict_at};
use crate::places::{find_first, first_places};
use amqp_performatives::Role;
use amqp_performatives::copying::copy_state;
use amqp_types::Tag;
use indexmap::IndexMap;
use std::alloc::{AllocError, Global};
use std::marker::Model;

/// The deliveries that wait on a link, in the order in which they were given.
pub struct Waiting {
    items: IndexMap<Key, Standing>,
}

// By hand, so that a crate that owns one does not prove its parts' drops again.
impl Drop for Waiting {
    fn drop(self) {
        let Waiting { items } = self;
        drop(items);
    }
}

impl Model for Waiting {
    ghost use Rattle.std.specs.Prelude.{List, map};
    ghost use Rattle.std.specs.Coded.{codes};
    ghost use Rattle.amqp_types.specs.contracts.value.Value as value;
    ghost use Rattle.amqp_waiting.specs.Waiting.{WaitingItem};
    ghost use Rattle.amqp_waiting.specs.Kept.{shown};

    ghost Value = { List WaitingItem };

    ghost coded = { Prim.hlevel (codes, value.the_row.coded) };

    ghost view = { λ w. map shown w.items.entries };

    ghost use Rattle.indexmap.specs.IndexMap.{IsUnique};
    ghost use Rattle.amqp_waiting.specs.Kept.{same_key};

    ghost invariant = { λ w. IsUnique same_key w.items };
}

/// One more waits.
fn put(items: &mut IndexMap<Key, Standing>, key: Key, standing: Standing) -> Result<(), AllocError>
    ensures entries { OnOk result (items.new.entries ≡ insert_entry same_key items.old.entries key standing) }
    ensures unique { OnOk result (IsUnique same_key items.new) }
{
    match items.insert(key, standing) {
        Ok(old) => {
            drop(old);
            Ok(())
        }
        Err(failed) => {
            drop(failed);
            Err(AllocError)
        }
    }
}

/// What an item waits as once both attaches are there; None where it waits no longer.
fn meet_one(
    role: Role,
    unsettled: &Unsettled,
    told: Option<&Told>,
    tag: &Tag,
    standing: &Standing,
) -> Result<Option<Standing>, AllocError>
    requires { option_copied told ≡ told_of tag.now unsettled.now }
    ensures { IfOk result (λ s. option_map (standing_of tag.now) s ≡ met_item role unsettled.now (standing_of tag.now standing.now)) }
{
    let Some(verdict) = verdict_at(role, unsettled.incomplete, told) else {
        return Ok(None);
    };
    let theirs = copy_told(told)?;
    let state = copy_state(&standing.state)?;
    Ok(Some(Standing {
        state,
        verdict,
        theirs,
    }))
}

/// One more waits, where it does.
fn put_met(
    entries: &mut IndexMap<Key, Standing>,
    key: Key,
    standing: Option<Standing>,
) -> Result<(), AllocError>
    requires { IsUnique same_key entries.old }
    ensures entries { OnOk result (entries.new.entries ≡ put_where entries.old.entries key standing) }
    ensures unique { OnOk result (IsUnique same_key entries.new) }
{
    match standing {
        Some(standing) => put(entries, key, standing),
        None => Ok(()),
    }
}

/// The entries of what waits once both attaches are there.
fn met_entries(
    items: &IndexMap<Key, Standing>,
    role: Role,
    unsettled: &Unsettled,
) -> Result<IndexMap<Key, Standing>, AllocError>
    ensures entries { IfOk result (λ m. m.entries ≡ filter_map (met_entry role unsettled.now) items.now.entries) }
    ensures unique { IfOk result (IsUnique same_key) }
{
    let all_told = unsettled.told.as_slice();
    let places = first_places(*items.allocator(), all_told)?;
    let mut entries = IndexMap::new(*items.allocator());
    let all = items.as_slice();
    let mut place = 0;
    while let Some((key, standing)) = all.get_index(place) {
        let told = find_first(&places, all_told, &key.tag);
        let met = meet_one(role, unsettled, told, &key.tag, standing)?;
        put_met(&mut entries, *key, met)?;
        place += 1;
    }
    Ok(entries)
}

/// What waits under this key, as it is put aside.
fn put_aside(key: &Key, standing: &Standing) -> Result<SuspendedItem, AllocError>
    ensures { IfOk result (λ s. s ≡ suspended_as (standing_of key.now.tag standing.now)) }
{
    let state = copy_state(&standing.state)?;
    Ok(SuspendedItem {
        tag: key.tag,
        state,
    })
}

/// All of them, as they are put aside.
fn suspended_entries(items: &IndexMap<Key, Standing>) -> Result<Vec<SuspendedItem>, AllocError>
    ensures { IfOk result (λ v. v.items ≡ map suspended_entry items.now.entries) }
{
    let mut aside = Vec::new(*items.allocator());
    let all = items.as_slice();
    let mut place = 0;
    while let Some((key, standing)) = all.get_index(place) {
        let item = put_aside(key, standing)?;
        aside.push(item)?;
        place += 1;
    }
    Ok(aside)
}

impl Waiting {
    /// None. It allocates nothing.
    pub fn empty(alloc: Global) -> Waiting
        ensures { result ≡ [] }
    {
        Waiting {
            items: IndexMap::new(alloc),
        }
    }

    /// These wait, no two of one tag; nothing is known of them yet.
    pub fn new(alloc: Global, items: &[SuspendedItem]) -> Result<Waiting, AllocError>
        requires { has_twice items.now ≡ false }
        ensures { IfOk result (λ w. w ≡ map unclear items.now) }
    {
        let mut entries = IndexMap::new(alloc);
        for item in items {
            let state = copy_state(&item.state)?;
            put(
                &mut entries,
                Key { tag: item.tag },
                Standing {
                    state,
                    verdict: Verdict::Unclear,
                    theirs: None,
                },
            )?;
        }
        Ok(Waiting { items: entries })
    }

    /// What waits once both attaches are there: each item with its verdict and the peer's state, by what the peer's attach tells. Of deliveries that
    /// were received those that the peer did not tell wait no longer, unless it did not tell all.
    pub fn met(&self, role: Role, unsettled: &Unsettled) -> Result<Waiting, AllocError>
        ensures { IfOk result (λ w. w ≡ met role unsettled.now self.now) }
    {
        let items = met_entries(&self.items, role, unsettled)?;
        Ok(Waiting { items })
    }

    /// Both attaches are there: it becomes what [`Waiting::met`] tells. Where memory is refused nothing has changed.
    pub fn meet(&mut self, role: Role, unsettled: &Unsettled) -> Result<(), AllocError>
        ensures met { OnOk result (self.new ≡ met role unsettled.now self.old) }
        ensures err { OnErr result (self.new ≡ self.old) }
    {
        let entries = met_entries(&self.items, role, unsettled)?;
        self.items = entries;
        Ok(())
    }

    /// Those that wait, as they are put aside: in their order, each with our state.
    pub fn suspended(&self) -> Result<Vec<SuspendedItem>, AllocError>
        ensures { IfOk result (λ v. v.items ≡ map suspended_as self.now) }
    {
        suspended_entries(&self.items)
    }

    /// The delivery with this tag waits no longer.
    pub fn remove(&mut self, tag: &Tag)
        ensures { self.new ≡ without tag.now self.old }
    {
        let gone = self.items.shift_remove(&Key { tag: *tag });
        drop(gone);
    }

    /// What is known of the delivery with this tag.
    pub fn find(&self, tag: &Tag) -> Option<&Standing>
        ensures { MatchOption result (find (waits_as tag.now) self.now ≡ None) (λ s. find (waits_as tag.now) self.now ≡ Some (standing_of tag.now s.now)) }
    {
        self.items.get(&Key { tag: *tag })
    }

    /// Whether a delivery with this tag waits.
    pub fn has(&self, tag: &Tag) -> bool
        ensures { result ≡ waits tag.now self.now }
    {
        self.items.contains_key(&Key { tag: *tag })
    }

    /// How many wait.
    pub fn len(&self) -> usize
        ensures { result ≡ length self.now }
    {
        self.items.len()
    }

    /// The tag and the verdict of one, by its place.
    pub fn at(&self, place: usize) -> Option<(&Tag, Verdict)>
        ensures tag { option_map (λ p. p.0.now) result ≡ option_map (λ w. w.tag) (slice_get self.now place) }
        ensures verdict { option_map (λ p. p.1) result ≡ option_map (λ w. w.verdict) (slice_get self.now place) }
    {
        match self.items.get_index(place) {
            None => None,
            Some((key, standing)) => Some((&key.tag, standing.verdict)),
        }
    }
}
