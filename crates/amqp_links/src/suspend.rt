//! What goes with a link that is put aside (part 2, 2.6.4): what waits on it to be resumed, and what is unsettled and finished on it and, where we receive, was taken.
ghost use Rattle.std.specs.Prelude.{◌≡◌, ◌++◌, ◌∷◌, [], map, filter, slice_get, option_to_list, IfOk, OnOk};
ghost use Rattle.amqp_deliveries.specs.Held.{items_of};
ghost use Rattle.amqp_links.specs.Suspend.{AreReady};
ghost use Rattle.amqp_rules.specs.Suspend.{aside_of, is_put_aside, is_receiving, is_sending, item_aside};

use crate::link::Link;
use amqp_deliveries::{Held, HeldItem};
use amqp_performatives::copying::copy_state;
use amqp_rules::reply::Suspended;
use amqp_types::Items;
use amqp_waiting::SuspendedItem;
use std::alloc::AllocError;
use std::collections::BTreeSet;

/// What is kept of a delivery that is put aside.
fn item_aside(item: &HeldItem) -> Result<SuspendedItem, AllocError>
    ensures { IfOk result (λ s. s ≡ item_aside item.now) }
{
    let state = copy_state(&item.local)?;
    Ok(SuspendedItem {
        tag: item.tag,
        state,
    })
}

impl Link {
    /// The ids of those that wait to be taken.
    fn ready_ids(&self) -> Result<BTreeSet<u32>, AllocError>
        ensures { IfOk result (λ ids. AreReady self.now ids) }
    {
        let mut ids = BTreeSet::new(self.alloc);
        for place in 0..self.ready.len() {
            ids.insert(self.ready[place].id())?;
        }
        Ok(ids)
    }

    /// Our unfinished delivery has this id.
    fn is_sending(&self, id: u32) -> bool
        ensures { result ≡ is_sending id self.now.sending }
    {
        match self.sending {
            Some(sending) => sending.id == id,
            None => false,
        }
    }

    /// The peer's unfinished delivery has this id.
    fn is_receiving(&self, id: u32) -> bool
        ensures { result ≡ is_receiving id self.now.receiving }
    {
        match &self.receiving {
            Some(unfinished) => unfinished.id() == id,
            None => false,
        }
    }

    /// Whether an unsettled delivery goes with the link, on which those with these ids wait to be taken.
    fn puts_aside(&self, item: &HeldItem, ready: &BTreeSet<u32>) -> bool
        requires { AreReady self.now ready.now }
        ensures { result ≡ is_put_aside self.now item.now }
    {
        let id = item.id;
        item.link == self.number
            && !self.is_sending(id)
            && !self.is_receiving(id)
            && !ready.contains(&id)
    }

    /// An unsettled delivery goes behind the list, where it goes with the link.
    fn put_item(
        &self,
        item: &HeldItem,
        ready: &BTreeSet<u32>,
        items: &mut Vec<SuspendedItem>,
    ) -> Result<(), AllocError>
        requires { AreReady self.now ready.now }
        ensures { OnOk result (items.new.items ≡ items.old.items ++ map item_aside (filter (is_put_aside self.now) (item.now ∷ []))) }
    {
        if !self.puts_aside(item, ready) {
            return Ok(());
        }
        let item = item_aside(item)?;
        items.push(item)?;
        Ok(())
    }

    /// The same of the one at this place.
    fn put_at(
        &self,
        held: &Held,
        place: usize,
        ready: &BTreeSet<u32>,
        items: &mut Vec<SuspendedItem>,
    ) -> Result<(), AllocError>
        requires { AreReady self.now ready.now }
        ensures { OnOk result (items.new.items ≡ items.old.items ++ map item_aside (filter (is_put_aside self.now) (option_to_list (slice_get (items_of held.now) place)))) }
    {
        match held.at(place) {
            Some(item) => self.put_item(item, ready, items),
            None => Ok(()),
        }
    }

    /// The link, with what waits on it to be resumed, and behind that what of these unsettled deliveries goes with it, each in order. O(w + n + r log
    /// r + k log r) for w that wait, and n unsettled ones, of which k are on the link, where r wait to be taken.
    pub fn put_aside(&self, held: &Held) -> Result<Suspended, AllocError>
        ensures { IfOk result (λ s. s ≡ aside_of self.now (items_of held.now)) }
    {
        let name = self.name().clone()?;
        let ready = self.ready_ids()?;
        let mut items = self.resuming.suspended(self.alloc)?;
        for place in 0..held.len() {
            self.put_at(held, place, &ready, &mut items)?;
        }
        Ok(Suspended {
            name,
            role: self.role(),
            items: Items { items },
        })
    }
}
