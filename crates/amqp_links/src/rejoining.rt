//! All links of a role, as they would be put aside: for a connection that was lost (part 2, 2.6.13).
ghost use Rattle.std.specs.Prelude.{◌≡◌, ◌++◌, IfOk, OnOk};
ghost use Rattle.slab.specs.Slab.{get};
ghost use Rattle.std.specs.BTreeMap.{values};
ghost use Rattle.amqp_deliveries.specs.Held.{items_of};
ghost use Rattle.amqp_links.specs.Rejoining.{aside_on, can_rejoin};
ghost use Rattle.amqp_links.specs.Left.{on_all, on_found, under};

use crate::credit::same_role;
use crate::link::Link;
use crate::links::Links;
use crate::store::Store;
use amqp_deliveries::Held;
use amqp_performatives::Role;
use amqp_rules::reply::Suspended;
use slab::Slab;
use std::alloc::{AllocError, Global};
use std::collections::BTreeMap;

impl Link {
    /// It is of this role, and our attach was sent and no detach.
    fn can_rejoin(&self, role: Role) -> bool
        ensures { result ≡ can_rejoin role self.now }
    {
        same_role(role, self.role()) && self.is_ours() && !self.has_left()
    }

    /// The link goes behind the list, where it can be rejoined, with what of these unsettled deliveries goes with it.
    fn put_behind(
        &self,
        role: Role,
        held: &Held,
        aside: &mut Vec<Suspended>,
    ) -> Result<(), AllocError>
        ensures { OnOk result (aside.new.items ≡ aside.old.items ++ aside_on role (items_of held.now) self.now) }
    {
        if !self.can_rejoin(role) {
            return Ok(());
        }
        let suspended = self.put_aside(held)?;
        aside.push(suspended)?;
        Ok(())
    }
}

/// The same of what stands under the key.
fn put_at(
    slab: &Slab<Link>,
    key: usize,
    role: Role,
    held: &Held,
    aside: &mut Vec<Suspended>,
) -> Result<(), AllocError>
    ensures { OnOk result (aside.new.items ≡ aside.old.items ++ on_found (aside_on role (items_of held.now)) (get slab.now key)) }
{
    match slab.get(key) {
        Some(link) => link.put_behind(role, held, aside),
        None => Ok(()),
    }
}

/// The links whose keys these are.
fn aside_under(
    alloc: Global,
    slab: &Slab<Link>,
    numbers: &BTreeMap<u32, usize>,
    role: Role,
    held: &Held,
) -> Result<Vec<Suspended>, AllocError>
    ensures { IfOk result (λ v. v.items ≡ under (aside_on role (items_of held.now)) slab.now (values numbers.now)) }
{
    let mut aside = Vec::new(alloc);
    for key in numbers.values() {
        put_at(slab, *key, role, held, &mut aside)?;
    }
    Ok(aside)
}

impl Store {
    /// All links of the role that can be rejoined.
    fn aside(&self, role: Role, held: &Held) -> Result<Vec<Suspended>, AllocError>
        ensures { IfOk result (λ v. v.items ≡ on_all (aside_on role (items_of held.now)) self.now.list) }
    {
        aside_under(self.alloc, &self.slab, &self.numbers, role, held)
    }
}

impl Links {
    /// All links of the role that can be rejoined, in their order, with what of these unsettled deliveries goes with each. O(n · u) for n links and u
    /// deliveries.
    pub fn put_aside(&self, role: Role, held: &Held) -> Result<Vec<Suspended>, AllocError>
        ensures { IfOk result (λ v. v.items ≡ on_all (aside_on role (items_of held.now)) self.now.list) }
    {
        self.store.aside(role, held)
    }
}
