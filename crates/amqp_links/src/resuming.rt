//! What a link has to resume (part 2, 2.6.13): the deliveries that wait on it or, before our attach, what the peer's attach told.
ghost use Rattle.std.specs.Prelude.{◌≡◌, ◌∷◌, [], false, None, Some, IfOk, MatchOption, find, map, option_map, slice_get};
ghost use Rattle.amqp_links.specs.Resuming.{kept_without, met_as, none_resuming, offered_as, waiting_as};
ghost use Rattle.amqp_rules.specs.View.{none_told};
ghost use Rattle.amqp_waiting.specs.Kept.{standing_of};
ghost use Rattle.amqp_waiting.specs.PeerUnsettled.{unsettled_of};
ghost use Rattle.amqp_waiting.specs.Waiting.{has_twice, met, suspended_as, unclear, waits, waits_as, without};

use amqp_performatives::{AttachBody, Role};
use amqp_types::{Items, Tag};
use amqp_waiting::{Standing, SuspendedItem, Unsettled, Verdict, Waiting, unsettled_of};
use std::alloc::{AllocError, Global};
use std::marker::Model;

/// What a link has to resume, where it has anything.
#[derive(Drop)]
enum Kept {
    /// These deliveries wait on it.
    Waiting(Waiting),
    /// The peer's attach told these, and ours was not sent.
    Offer(Unsettled),
}

/// What a link has to resume. It is one pointer, which is null where there is nothing, as on each link that brings nothing in.
#[derive(Drop)]
pub struct Resuming {
    kept: Option<Box<Kept>>,
}

impl Model for Resuming {
    ghost use Rattle.std.specs.Coded.{codes};
    ghost use Rattle.std.specs.Prelude.{option_map};
    ghost use Rattle.amqp_types.specs.contracts.value.Value as value;
    ghost use Rattle.amqp_links.specs.Resuming.{ResumingView, resuming_in};

    ghost Value = { ResumingView };

    ghost coded = { Prim.hlevel (codes, value.the_row.coded) };

    ghost view = { λ r. resuming_in (option_map (λ b. b.value) r.kept) };
}

fn kept_waiting(alloc: Global, waiting: Waiting) -> Result<Resuming, AllocError>
    ensures { IfOk result (λ r. r ≡ waiting_as waiting) }
{
    let kept = Box::new(alloc, Kept::Waiting(waiting))?;
    Ok(Resuming { kept: Some(kept) })
}

fn kept_offer(alloc: Global, offer: Unsettled) -> Result<Resuming, AllocError>
    ensures { IfOk result (λ r. r ≡ offered_as offer) }
{
    let kept = Box::new(alloc, Kept::Offer(offer))?;
    Ok(Resuming { kept: Some(kept) })
}

impl Resuming {
    /// Nothing. It allocates nothing.
    pub fn none() -> Resuming
        ensures { result ≡ none_resuming }
    {
        Resuming { kept: None }
    }

    /// These deliveries wait on a link that we ask for; nothing is known of them yet. Where there are none it allocates nothing.
    pub fn asked(alloc: Global, items: &[SuspendedItem]) -> Result<Resuming, AllocError>
        requires { has_twice items.now ≡ false }
        ensures { IfOk result (λ r. r ≡ waiting_as (map unclear items.now)) }
    {
        if items.is_empty() {
            return Ok(Resuming::none());
        }
        let waiting = Waiting::new(alloc, items)?;
        kept_waiting(alloc, waiting)
    }

    /// The peer offers a link by this attach. Where it tells no delivery, and does not say that there are more, it allocates nothing.
    pub fn offered(alloc: Global, attach: &AttachBody) -> Result<Resuming, AllocError>
        ensures { IfOk result (λ r. r ≡ offered_as (unsettled_of attach.now)) }
    {
        let offer = unsettled_of(alloc, attach)?;
        if offer.told.is_empty() && !offer.incomplete {
            drop(offer);
            return Ok(Resuming::none());
        }
        kept_offer(alloc, offer)
    }
}

/// What becomes of these items of ours by what the peer's attach told.
fn met_by(
    alloc: Global,
    role: Role,
    offer: &Unsettled,
    items: &[SuspendedItem],
) -> Result<Resuming, AllocError>
    requires { has_twice items.now ≡ false }
    ensures { IfOk result (λ r. r ≡ met_as role offer.now (map unclear items.now)) }
{
    let waiting = Waiting::new(alloc, items)?;
    let met = waiting.met(role, offer)?;
    drop(waiting);
    kept_waiting(alloc, met)
}

/// What becomes of what waits by what the peer's attach tells.
fn met_again(
    alloc: Global,
    role: Role,
    waiting: &Waiting,
    attach: &AttachBody,
) -> Result<Resuming, AllocError>
    ensures { IfOk result (λ r. r ≡ met_as role (unsettled_of attach.now) waiting.now) }
{
    let told = unsettled_of(alloc, attach)?;
    let met = waiting.met(role, &told)?;
    drop(told);
    kept_waiting(alloc, met)
}

impl Resuming {
    /// What the peer's attach told, where there is something.
    fn offer(&self) -> Option<&Unsettled>
        ensures { MatchOption result (self.now.offer ≡ none_told) (λ u. self.now.offer ≡ u.now) }
    {
        let kept = self.kept.as_ref()?;
        match &**kept {
            Kept::Waiting(_) => None,
            Kept::Offer(offer) => Some(offer),
        }
    }

    /// What waits, where something does.
    fn waiting(&self) -> Option<&Waiting>
        ensures { MatchOption result (self.now.waiting ≡ []) (λ w. self.now.waiting ≡ w.now) }
    {
        let kept = self.kept.as_ref()?;
        match &**kept {
            Kept::Waiting(waiting) => Some(waiting),
            Kept::Offer(_) => None,
        }
    }

    /// Our attach answers the peer's, and brings these items in: they meet what that told.
    pub(crate) fn met_by_us(
        &self,
        alloc: Global,
        role: Role,
        items: &[SuspendedItem],
    ) -> Result<Resuming, AllocError>
        requires { has_twice items.now ≡ false }
        ensures { IfOk result (λ r. r ≡ met_as role self.now.offer (map unclear items.now)) }
    {
        if items.is_empty() {
            return Ok(Resuming::none());
        }
        match self.offer() {
            Some(offer) => met_by(alloc, role, offer, items),
            None => {
                let offer = Unsettled {
                    told: Items::new(alloc),
                    incomplete: false,
                };
                met_by(alloc, role, &offer, items)
            }
        }
    }

    /// The peer's attach answers ours: what waits meets what it tells.
    pub(crate) fn met_by_peer(
        &self,
        alloc: Global,
        role: Role,
        attach: &AttachBody,
    ) -> Result<Resuming, AllocError>
        ensures { IfOk result (λ r. r ≡ met_as role (unsettled_of attach.now) self.now.waiting) }
    {
        match self.waiting() {
            Some(waiting) => met_again(alloc, role, waiting, attach),
            None => Ok(Resuming::none()),
        }
    }

    /// Whether a delivery with this tag waits.
    #[inline(always)]
    pub(crate) fn waits(&self, tag: &Tag) -> bool
        ensures { result ≡ waits tag.now self.now.waiting }
    {
        match self.waiting() {
            Some(waiting) => waiting.has(tag),
            None => false,
        }
    }

    /// What is known of the delivery with this tag that waits.
    pub(crate) fn find(&self, tag: &Tag) -> Option<&Standing>
        ensures { MatchOption result (find (waits_as tag.now) self.now.waiting ≡ None) (λ s. find (waits_as tag.now) self.now.waiting ≡ Some (standing_of tag.now s.now)) }
    {
        match self.waiting() {
            Some(waiting) => waiting.find(tag),
            None => None,
        }
    }

    /// The tag and the verdict of one that waits, by its place.
    pub(crate) fn at(&self, place: usize) -> Option<(&Tag, Verdict)>
        ensures tag { option_map (λ p. p.0.now) result ≡ option_map (λ w. w.tag) (slice_get self.now.waiting place) }
        ensures verdict { option_map (λ p. p.1) result ≡ option_map (λ w. w.verdict) (slice_get self.now.waiting place) }
    {
        match self.waiting() {
            Some(waiting) => waiting.at(place),
            None => None,
        }
    }

    /// Those that wait, as they are put aside.
    pub(crate) fn suspended(&self, alloc: Global) -> Result<Vec<SuspendedItem>, AllocError>
        ensures { IfOk result (λ v. v.items ≡ map suspended_as self.now.waiting) }
    {
        match self.waiting() {
            Some(waiting) => waiting.suspended(),
            None => Ok(Vec::new(alloc)),
        }
    }

    /// The delivery with this tag waits no longer.
    pub(crate) fn remove(&mut self, tag: &Tag)
        ensures { self.new ≡ record self.old { waiting = without tag.now self.old.waiting } }
    {
        if let Some(kept) = &mut self.kept {
            kept.remove(tag);
        }
    }
}

impl Kept {
    fn remove(&mut self, tag: &Tag)
        ensures { self.new ≡ kept_without tag.now self.old }
    {
        match self {
            Kept::Waiting(waiting) => waiting.remove(tag),
            Kept::Offer(_) => {}
        }
    }
}
