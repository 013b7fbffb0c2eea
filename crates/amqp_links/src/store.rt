//! Where the links stand that are not gone.
ghost use Rattle.std.specs.Prelude.{◌≡◌, ◌<◌, ◌^◌, [], OnOk, OnErr, IfErr, None, MatchOption, find, option_map};
ghost use Rattle.std.specs.Ordering.{nat_cmp};
ghost use Rattle.std.specs.BTreeMap.{get};
ghost use Rattle.amqp_links.specs.Fate.{IsFit, changed, links_after, with_heard, with_ours, with_resumed};
ghost use Rattle.amqp_links.specs.Links.{AreWithin, IsFirst, IsKnown, look, stands_at};
ghost use Rattle.amqp_links.specs.Marks.{found_link, with_marks};
ghost use Rattle.amqp_rules.specs.Detach.{left_by_us};
ghost use Rattle.amqp_rules.specs.Learn.{learnt_from};
ghost use Rattle.amqp_rules.specs.Take.{taken_from};
ghost use Rattle.amqp_rules.specs.View.{has_number, has_peer_handle, remove_first};

use crate::arrival::Piece;
use crate::end::End;
use crate::fate::Fate;
use crate::found::Found;
use crate::link::Link;
use crate::marks::Marks;
use crate::resuming::Resuming;
use amqp_types::{Tag, Text};
use slab::Slab;
use std::alloc::{AllocError, Global};
use std::collections::BTreeMap;
use std::marker::Model;

/// The links that are not gone, in the order in which they were made: each in a slab, found by its number and by the peer's handle.
///
/// | call | cost, for n links |
/// |---|---|
/// | a look-up by number or by the peer's handle | O(log n) |
/// | a change at a place | O(1) |
#[derive(Drop)]
pub(crate) struct Store {
    pub(crate) alloc: Global,
    pub(crate) slab: Slab<Link>,
    pub(crate) numbers: BTreeMap<u32, usize>,
    peers: BTreeMap<u32, usize>,
    made: u32,
}

impl Model for Store {
    ghost use Rattle.amqp_links.specs.Links.{LinksView, links_of, IsStored};
    ghost use Rattle.std.specs.Coded.{codes};
    ghost use Rattle.amqp_types.specs.contracts.value.Value as value;

    ghost Value = { LinksView };

    ghost coded = { Prim.hlevel (codes, value.the_row.coded) };

    ghost view = { λ s. record { made = s.made; list = links_of s.slab s.numbers.entries } };

    ghost invariant = { λ s. IsStored s.slab s.numbers s.peers s.made };
}

impl Store {
    /// No link, and none was made.
    pub(crate) fn new(alloc: Global) -> Store
        ensures { result ≡ record { made = 0; list = [] } }
    {
        Store {
            alloc,
            slab: Slab::new(alloc),
            numbers: BTreeMap::new(alloc),
            peers: BTreeMap::new(alloc),
            made: 0,
        }
    }

    /// The link with this number, at its place.
    pub(crate) fn by_number(&self, number: u32) -> Option<Found<'_>>
        ensures { option_map found_link result ≡ find (has_number number) self.now.list }
    {
        standing(&self.slab, self.numbers.get(&number).copied())
    }

    /// The link that the peer calls by this handle, at its place.
    pub(crate) fn by_peer_handle(&self, handle: u32) -> Option<Found<'_>>
        ensures { MatchOption result (find (has_peer_handle handle) self.now.list ≡ None) (λ f. IsFirst (has_peer_handle handle) self.now.list (found_link f)) }
    {
        standing(&self.slab, self.peers.get(&handle).copied())
    }

    /// The number of the link that is made next.
    pub(crate) fn made(&self) -> u32
        ensures { result ≡ self.now.made }
    {
        self.made
    }

    /// A law: the numbers of the links rise, and stay below that of the link that is made next.
    pub(crate) fn rising(&self)
        ensures { AreWithin 0 self.now.made self.now.list }
    {
        let _numbers = &self.numbers;
    }

    /// The link with this number has these marks. The key is where it was found.
    pub(crate) fn mark(&mut self, key: usize, number: u32, marks: &Marks)
        ensures { self.new ≡ changed number (with_marks marks.now) self.old }
    {
        let Some(key) = key_of(&self.slab, &self.numbers, key, number) else {
            return;
        };
        let link = &mut self.slab[key];
        link.set_marks(marks);
    }

    /// Our detach of the link with this number was sent. The key is where it was found.
    pub(crate) fn leave(&mut self, key: usize, number: u32)
        ensures { self.new ≡ changed number left_by_us self.old }
    {
        let Some(key) = key_of(&self.slab, &self.numbers, key, number) else {
            return;
        };
        let link = &mut self.slab[key];
        link.leave();
    }

    /// What waits first on the link with this number is taken. The key is where it was found.
    pub(crate) fn take(&mut self, key: usize, number: u32)
        ensures { self.new ≡ changed number taken_from self.old }
    {
        let Some(key) = key_of(&self.slab, &self.numbers, key, number) else {
            return;
        };
        let link = &mut self.slab[key];
        link.take_ready();
    }

    /// What was told first of the deliveries of the link with this number is learnt. The key is where it was found.
    pub(crate) fn learn(&mut self, key: usize, number: u32)
        ensures { self.new ≡ changed number learnt_from self.old }
    {
        let Some(key) = key_of(&self.slab, &self.numbers, key, number) else {
            return;
        };
        let link = &mut self.slab[key];
        link.take_told();
    }

    /// Our attach of the link with this number was sent. The key is where it was found.
    pub(crate) fn attach(
        &mut self,
        key: usize,
        number: u32,
        end: End,
        marks: &Marks,
        resuming: Resuming,
    )
        ensures { self.new ≡ changed number (with_ours end marks.now resuming) self.old }
    {
        let Some(key) = key_of(&self.slab, &self.numbers, key, number) else {
            drop(end);
            drop(resuming);
            return;
        };
        let link = &mut self.slab[key];
        link.set_ours(end, marks, resuming);
    }

    /// The delivery with this tag is resumed on the link with this number, which has these marks. The key is where it was found.
    pub(crate) fn resume(&mut self, key: usize, number: u32, marks: &Marks, tag: &Tag)
        ensures { self.new ≡ changed number (with_resumed marks.now tag.now) self.old }
    {
        let Some(key) = key_of(&self.slab, &self.numbers, key, number) else {
            return;
        };
        let link = &mut self.slab[key];
        link.set_resumed(marks, tag);
    }

    /// The peer's attach of the link with this number was heard.
    pub(crate) fn answer(
        &mut self,
        key: usize,
        number: u32,
        end: End,
        marks: &Marks,
        resuming: Resuming,
    ) -> Result<(), AllocError>
        requires { IsFit (Fate.Theirs key number end marks.now resuming) self.old }
        ensures next { OnOk result (self.new ≡ links_after (Fate.Theirs key number end marks.now resuming) self.old) }
        ensures err { OnErr result (self.new ≡ self.old) }
    {
        let Some(key) = key_of(&self.slab, &self.numbers, key, number) else {
            drop(end);
            drop(resuming);
            return Ok(());
        };
        let handle = end.handle();
        match self.peers.insert(handle, key) {
            Ok(_) => {}
            Err(_) => {
                drop(end);
                drop(resuming);
                return Err(AllocError);
            }
        }
        let link = &mut self.slab[key];
        link.set_theirs(end, marks, resuming);
        Ok(())
    }

    /// A link more, which the peer offers. Where memory is refused, its name comes back.
    pub(crate) fn offer(
        &mut self,
        name: Text,
        end: End,
        marks: &Marks,
        resuming: Resuming,
    ) -> Result<(), Text>
        requires fit { IsFit (Fate.Offered name end marks.now resuming) self.old }
        requires made { self.old.made < 2 ^ 31 }
        ensures next { OnOk result (self.new ≡ links_after (Fate.Offered name end marks.now resuming) self.old) }
        ensures err { OnErr result (self.new ≡ self.old) }
        ensures name { IfErr result (λ n. n ≡ name) }
    {
        if self.slab.reserve(1).is_err() {
            drop(end);
            drop(resuming);
            return Err(name);
        }
        let key = self.slab.vacant_key();
        let handle = end.handle();
        match self.peers.insert(handle, key) {
            Ok(_) => {}
            Err(_) => {
                drop(end);
                drop(resuming);
                return Err(name);
            }
        }
        match self.numbers.insert(self.made, key) {
            Ok(_) => {}
            Err(_) => {
                self.peers.remove(&handle);
                drop(end);
                drop(resuming);
                return Err(name);
            }
        }
        let link = Link::offered(self.alloc, self.made, name, end, marks, resuming);
        self.slab.insert_reserved(link);
        self.made += 1;
        Ok(())
    }

    /// A link more, which we ask for. Where memory is refused, its name comes back.
    pub(crate) fn ask(
        &mut self,
        name: Text,
        end: End,
        marks: &Marks,
        resuming: Resuming,
    ) -> Result<(), Text>
        requires made { self.old.made < 2 ^ 31 }
        ensures next { OnOk result (self.new ≡ links_after (Fate.Asked name end marks.now resuming) self.old) }
        ensures err { OnErr result (self.new ≡ self.old) }
        ensures name { IfErr result (λ n. n ≡ name) }
    {
        if self.slab.reserve(1).is_err() {
            drop(end);
            drop(resuming);
            return Err(name);
        }
        let key = self.slab.vacant_key();
        match self.numbers.insert(self.made, key) {
            Ok(_) => {}
            Err(_) => {
                drop(end);
                drop(resuming);
                return Err(name);
            }
        }
        let link = Link::asked(self.alloc, self.made, name, end, marks, resuming);
        self.slab.insert_reserved(link);
        self.made += 1;
        Ok(())
    }

    /// The link with this number is gone from here: it is given.
    pub(crate) fn remove(&mut self, key: usize, number: u32) -> Option<Link>
        ensures list { self.new ≡ record self.old { list = remove_first (has_number number) self.old.list } }
        ensures link { result ≡ find (has_number number) self.old.list }
    {
        let Some(key) = key_of(&self.slab, &self.numbers, key, number) else {
            return None;
        };
        let link = self.slab.remove(key);
        let handle = link.peer_handle();
        self.numbers.remove(&number);
        match handle {
            Some(handle) => {
                self.peers.remove(&handle);
                Some(link)
            }
            None => Some(link),
        }
    }

    /// A transfer is heard on the link with this number, which has these marks. The key is where it was found.
    pub(crate) fn hear(
        &mut self,
        key: usize,
        number: u32,
        marks: &Marks,
        piece: Piece,
    ) -> Result<(), AllocError>
        ensures next { OnOk result (self.new ≡ changed number (with_heard marks.now piece) self.old) }
        ensures err { OnErr result (self.new ≡ self.old) }
    {
        let Some(key) = key_of(&self.slab, &self.numbers, key, number) else {
            drop(piece);
            return Ok(());
        };
        let link = &mut self.slab[key];
        link.hear_with(piece, marks)
    }

    /// All links are gone.
    pub(crate) fn clear(&mut self)
        ensures { self.new ≡ record self.old { list = [] } }
    {
        self.slab.clear();
        self.numbers.clear();
        self.peers.clear();
    }
}

/// What stands under the key, if there is one.
fn standing(slab: &Slab<Link>, key: Option<usize>) -> Option<Found<'_>>
    ensures { option_map found_link result ≡ look slab.now key }
{
    let key = key?;
    let link = slab.get(key)?;
    Some(Found { key, link })
}

/// The key of the link with this number, which mostly is the one at which it was found.
fn key_of(
    slab: &Slab<Link>,
    numbers: &BTreeMap<u32, usize>,
    key: usize,
    number: u32,
) -> Option<usize>
    requires { IsKnown slab.now numbers.now }
    ensures { result ≡ get nat_cmp numbers.now number }
{
    if stands_at(slab, key, number) {
        return Some(key);
    }
    numbers.get(&number).copied()
}

fn stands_at(slab: &Slab<Link>, key: usize, number: u32) -> bool
    ensures { result ≡ stands_at slab.now key number }
{
    match slab.get(key) {
        Some(link) => link.number == number,
        None => false,
    }
}
