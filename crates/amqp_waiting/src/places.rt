//! Where the peer told each tag first: with it, what both attaches make of the items takes as many steps as there are items and tags told.
ghost use Rattle.std.specs.Prelude.{◌≡◌, IfOk, OnOk, option_copied, slice_get};
ghost use Rattle.amqp_waiting.specs.Kept.{first_told, with_place, AreFirst};

use crate::key::Key;
use crate::peer::Told;
use amqp_types::Tag;
use indexmap::IndexMap;
use std::alloc::{AllocError, Global};

/// The place stands for the tag, where none does yet.
fn put_first(places: &mut IndexMap<Key, usize>, tag: Tag, place: usize) -> Result<(), AllocError>
    ensures { OnOk result (places.new.entries ≡ with_place places.old.entries tag place) }
{
    let key = Key { tag };
    if places.contains_key(&key) {
        return Ok(());
    }
    match places.insert(key, place) {
        Ok(_) => Ok(()),
        Err(failed) => {
            drop(failed);
            Err(AllocError)
        }
    }
}

/// The place of the first that was told with each tag.
pub(crate) fn first_places(alloc: Global, told: &[Told]) -> Result<IndexMap<Key, usize>, AllocError>
    ensures { IfOk result (λ places. AreFirst places.entries told.now) }
{
    let mut places = IndexMap::new(alloc);
    for place in 0..told.len() {
        put_first(&mut places, told[place].tag, place)?;
    }
    Ok(places)
}

fn told_at(told: &[Told], place: usize) -> Option<&Told>
    ensures { option_copied result ≡ slice_get told.now place }
{
    told.get(place)
}

/// The first that was told with this tag.
pub(crate) fn find_first<'a>(
    places: &IndexMap<Key, usize>,
    told: &'a [Told],
    tag: &Tag,
) -> Option<&'a Told>
    requires { AreFirst places.now.entries told.now }
    ensures { option_copied result ≡ first_told tag.now told.now }
{
    match places.get(&Key { tag: *tag }) {
        Some(place) => told_at(told, *place),
        None => None,
    }
}
