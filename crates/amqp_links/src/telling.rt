//! What is told of deliveries waits on their links to be learnt.
ghost use Rattle.std.specs.Prelude.{◌≡◌, ◌∷◌, [], List, map, IfOk, OnOk, OnErr};
ghost use Rattle.amqp_events.specs.Told.{Telling};
ghost use Rattle.std.specs.Prelude.{◌++◌};
ghost use Rattle.std.specs.BTreeMap.{get};
ghost use Rattle.std.specs.Ordering.{nat_cmp};
ghost use Rattle.amqp_links.specs.Fate.{changed, links_told, with_one_told, without_last_told};
ghost use Rattle.amqp_links.specs.Index.{IsIndexedAlike};
ghost use Rattle.amqp_links.specs.Links.{AreNumbered, LinksView};

use crate::link::Link;
use crate::store::Store;
use amqp_deliveries::Telling as Told;
use std::alloc::AllocError;
use std::collections::BTreeMap;

impl Link {
    /// It is told this of a delivery of its.
    fn tell(&mut self, telling: Told) -> Result<(), AllocError>
        ensures ok { OnOk result (self.new ≡ with_one_told telling self.old) }
        ensures err { OnErr result (self.new ≡ self.old) }
        ensures number { self.new.number ≡ self.old.number }
        ensures theirs { self.new.theirs ≡ self.old.theirs }
    {
        self.told.reserve(1)?;
        self.told.push_back_reserved(telling);
        Ok(())
    }

    /// What it was told last is taken back.
    fn untell(&mut self)
        ensures { self.new ≡ without_last_told self.old }
    {
        let _ = self.told.pop_back();
    }
}

/// The key of the link with this number.
fn key_at(numbers: &BTreeMap<u32, usize>, number: u32) -> Option<usize>
    ensures { result ≡ get nat_cmp numbers.now number }
{
    numbers.get(&number).copied()
}

impl Store {
    /// One thing more is told.
    fn tell_one(&mut self, telling: Told) -> Result<(), AllocError>
        ensures next { OnOk result (self.new ≡ changed telling.link (with_one_told telling) self.old) }
        ensures numbered { AreNumbered 0 self.old.list }
        ensures err { OnErr result (self.new ≡ self.old) }
    {
        let Some(key) = key_at(&self.numbers, telling.link) else {
            drop(telling);
            return Ok(());
        };
        let link = &mut self.slab[key];
        link.tell(telling)
    }

    /// What was told last, on the link with this number, is taken back.
    fn untell_one(&mut self, number: u32)
        ensures changed { self.new ≡ changed number without_last_told self.old }
        ensures numbered { AreNumbered 0 self.old.list }
    {
        let Some(key) = key_at(&self.numbers, number) else {
            return;
        };
        let link = &mut self.slab[key];
        link.untell();
    }

    /// One thing more is told, and its link's number is noted.
    fn tell_next(&mut self, links: &mut Vec<u32>, telling: Told) -> Result<(), AllocError>
        ensures next { (ts : List Telling) (ls : LinksView) → self.old ≡ links_told ts ls → OnOk result (self.new ≡ links_told (ts ++ telling ∷ []) ls) }
        ensures noted { OnOk result (links.new.items ≡ links.old.items ++ telling.link ∷ []) }
        ensures err { OnErr result (self.new ≡ self.old) }
        ensures not_noted { OnErr result (links.new.items ≡ links.old.items) }
    {
        let link = telling.link;
        links.reserve(1)?;
        self.tell_one(telling)?;
        links.push_reserved(link);
        Ok(())
    }

    /// Takes back what was told last, a thing for each of these links.
    pub(crate) fn untell(&mut self, mut links: Vec<u32>)
        ensures alike { IsIndexedAlike self.old self.new }
        ensures back { (ts : List Telling) (ls : LinksView) → links.items ≡ map (λ t. t.link) ts → self.old ≡ links_told ts ls → self.new ≡ ls }
    {
        while let Some(number) = links.pop() {
            self.untell_one(number);
        }
    }

    /// What is told of deliveries waits on their links: each thing on the link that it names. It gives the numbers of these links, by which
    /// it can be taken back. Where memory is refused, nothing has changed.
    pub(crate) fn tell(&mut self, told: Vec<Told>) -> Result<Vec<u32>, AllocError>
        ensures next { OnOk result (self.new ≡ links_told told.items self.old) }
        ensures links { IfOk result (λ ns. ns.items ≡ map (λ t. t.link) told.items) }
        ensures err { OnErr result (self.new ≡ self.old) }
    {
        let mut links: Vec<u32> = Vec::new(self.alloc);
        for telling in told {
            match self.tell_next(&mut links, telling) {
                Ok(()) => {}
                Err(e) => {
                    self.untell(links);
                    return Err(e);
                }
            }
        }
        Ok(links)
    }
}
