//! What a link leaves that goes: its deliveries that were ready and not taken, and what was told of its deliveries and not learnt.
ghost use Rattle.std.specs.Prelude.{◌≡◌, ◌++◌, find, map, option_map, IfOk, OnOk};
ghost use Rattle.slab.specs.Slab.{get};
ghost use Rattle.std.specs.BTreeMap.{values};
ghost use Rattle.amqp_links.specs.Marks.{found_link};
ghost use Rattle.amqp_links.specs.Left.{left_on, left_on_all, left_on_found, left_under, unlearnt, untaken};
ghost use Rattle.amqp_rules.specs.Learn.{learned_of};
ghost use Rattle.amqp_rules.specs.Take.{taken_of};
ghost use Rattle.amqp_rules.specs.View.{has_peer_handle};

use crate::arrival::Waiting;
use crate::found::Found;
use crate::link::Link;
use crate::links::Links;
use crate::store::Store;
use amqp_deliveries::Telling;
use amqp_performatives::copying::copy_state;
use amqp_rules::reply::{Learned, Taken};
use amqp_types::{Boxed, Text};
use slab::Slab;
use std::alloc::{AllocError, Global};
use std::collections::{BTreeMap, VecDeque};

/// What a link left that is gone, with the name of the link.
#[derive(Debug, Drop)]
pub enum Left {
    /// A delivery that was ready and not taken: what a take would have given.
    Delivery(Text, Boxed<Taken>),
    /// What was told of a delivery and not learnt: what a learn would have given.
    Outcome(Text, Boxed<Learned>),
}

/// What is taken of a delivery that waits on the link with this number.
fn take_of(link: u32, waiting: &Waiting) -> Result<Taken, AllocError>
    ensures { IfOk result (λ t. t ≡ taken_of link waiting.now) }
{
    let payload = waiting.payload()?;
    Ok(Taken {
        id: waiting.id(),
        link,
        tag: *waiting.tag(),
        format: waiting.format(),
        payload,
        settled: waiting.is_settled(),
        second: waiting.is_second(),
    })
}

/// What is learnt of a thing that was told.
fn learn_of(told: &Telling) -> Result<Learned, AllocError>
    ensures { IfOk result (λ l. l ≡ learned_of told.now) }
{
    let state = copy_state(&told.state)?;
    Ok(Learned {
        id: told.id,
        link: told.link,
        tag: told.tag,
        state,
        settled: told.settled,
    })
}

/// What is left of a delivery that waits on the link of this number and name.
fn untaken(alloc: Global, link: u32, name: &Text, waiting: &Waiting) -> Result<Left, AllocError>
    ensures { IfOk result (λ x. x ≡ untaken link name.now waiting.now) }
{
    let taken = take_of(link, waiting)?;
    let taken = Boxed::new(alloc, taken)?;
    let name = name.clone()?;
    Ok(Left::Delivery(name, taken))
}

/// What is left of a thing that was told of a delivery of the link of this name.
fn unlearnt(alloc: Global, name: &Text, told: &Telling) -> Result<Left, AllocError>
    ensures { IfOk result (λ x. x ≡ unlearnt name.now told.now) }
{
    let learned = learn_of(told)?;
    let learned = Boxed::new(alloc, learned)?;
    let name = name.clone()?;
    Ok(Left::Outcome(name, learned))
}

fn leave_ready(
    alloc: Global,
    link: u32,
    name: &Text,
    ready: &VecDeque<Waiting>,
    left: &mut Vec<Left>,
) -> Result<(), AllocError>
    ensures { OnOk result (left.new.items ≡ left.old.items ++ map (untaken link name.now) ready.now.items) }
{
    for place in 0..ready.len() {
        let waiting = &ready[place];
        let item = untaken(alloc, link, name, waiting)?;
        left.push(item)?;
    }
    Ok(())
}

fn leave_told(
    alloc: Global,
    name: &Text,
    told: &VecDeque<Telling>,
    left: &mut Vec<Left>,
) -> Result<(), AllocError>
    ensures { OnOk result (left.new.items ≡ left.old.items ++ map (unlearnt name.now) told.now.items) }
{
    for place in 0..told.len() {
        let telling = &told[place];
        let item = unlearnt(alloc, name, telling)?;
        left.push(item)?;
    }
    Ok(())
}

impl Link {
    /// What it leaves goes behind the list.
    fn leave_behind(&self, left: &mut Vec<Left>) -> Result<(), AllocError>
        ensures { OnOk result (left.new.items ≡ left.old.items ++ left_on self.now) }
    {
        leave_ready(self.alloc, self.number, self.name(), &self.ready, left)?;
        leave_told(self.alloc, self.name(), &self.told, left)
    }
}

/// The same of what stands under the key.
fn leave_at(slab: &Slab<Link>, key: usize, left: &mut Vec<Left>) -> Result<(), AllocError>
    ensures { OnOk result (left.new.items ≡ left.old.items ++ left_on_found (get slab.now key)) }
{
    match slab.get(key) {
        Some(link) => link.leave_behind(left),
        None => Ok(()),
    }
}

/// What the links leave whose keys these are.
fn left_under(
    alloc: Global,
    slab: &Slab<Link>,
    numbers: &BTreeMap<u32, usize>,
) -> Result<Vec<Left>, AllocError>
    ensures { IfOk result (λ v. v.items ≡ left_under slab.now (values numbers.now)) }
{
    let mut left = Vec::new(alloc);
    for key in numbers.values() {
        leave_at(slab, *key, &mut left)?;
    }
    Ok(left)
}

impl Store {
    /// What all links leave.
    fn left(&self) -> Result<Vec<Left>, AllocError>
        ensures { IfOk result (λ v. v.items ≡ left_on_all self.now.list) }
    {
        left_under(self.alloc, &self.slab, &self.numbers)
    }
}

/// What the link leaves that was found.
fn left_on(alloc: Global, found: Option<Found<'_>>) -> Result<Vec<Left>, AllocError>
    ensures { IfOk result (λ v. v.items ≡ left_on_found (option_map found_link found.entry)) }
{
    let mut left = Vec::new(alloc);
    match found {
        Some(found) => {
            found.link.leave_behind(&mut left)?;
            Ok(left)
        }
        None => Ok(left),
    }
}

impl Links {
    /// What all links leave, in their order. O(n) for n links, and a copy of each thing; payloads are shared.
    pub fn left_by_all(&self) -> Result<VecDeque<Left>, AllocError>
        ensures { IfOk result (λ v. v.items ≡ left_on_all self.now.list) }
    {
        let left = self.store.left()?;
        Ok(VecDeque::from_vec(left))
    }

    /// What the link leaves that the peer calls by this handle; nothing where there is none.
    pub fn left_by(&self, handle: u32) -> Result<VecDeque<Left>, AllocError>
        ensures { IfOk result (λ v. v.items ≡ left_on_found (find (has_peer_handle handle) self.now.list)) }
    {
        let left = left_on(self.store.alloc, self.by_peer_handle(handle))?;
        Ok(VecDeque::from_vec(left))
    }
}
