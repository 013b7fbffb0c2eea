//! A link, as it is kept.
ghost use Rattle.std.specs.Prelude.{◌≡◌, None, Some, false, true, find, is_some, option_map, slice_get, IfOk, MatchOption};
ghost use Rattle.amqp_links.specs.Arrivals.{with_piece};
ghost use Rattle.amqp_links.specs.Credits.{role_of};
ghost use Rattle.amqp_links.specs.Fate.{with_ours, with_resumed, with_theirs, with_heard};
ghost use Rattle.amqp_links.specs.Marks.{IsMarksOf, with_marks};
ghost use Rattle.amqp_links.specs.Resuming.{resuming_by_us, resuming_by_peer};
ghost use Rattle.amqp_waiting.specs.Kept.{standing_of};
ghost use Rattle.amqp_waiting.specs.Waiting.{has_twice, waits, waits_as};
ghost use Rattle.amqp_rules.specs.Detach.{left_by_us};
ghost use Rattle.amqp_rules.specs.Learn.{learnt_from};
ghost use Rattle.amqp_rules.specs.Status.{link_status, phase_of};
ghost use Rattle.amqp_rules.specs.Take.{taken_from};
ghost use Rattle.amqp_rules.specs.View.{new_link, has_name, is_asked_as, is_offered_as, is_ours, is_theirs, is_attached, handle_of, snd_mode, rcv_mode, max_of};

use crate::arrival::{Piece, Unfinished, Waiting};
use crate::credit::{Credit, same_role};
use crate::end::End;
use crate::marks::{Marks, Sending};
use crate::resuming::Resuming;
use amqp_deliveries::Telling;
use amqp_performatives::{AttachBody, Role};
use amqp_types::{Tag, Text};
use amqp_waiting::{Standing, SuspendedItem, Verdict};
use std::alloc::{AllocError, Global};
use std::collections::VecDeque;
use std::marker::Model;

/// A link that is not gone.
#[derive(Drop)]
pub struct Link {
    pub(crate) alloc: Global,
    pub(crate) number: u32,
    name: Text,
    pub(crate) ours: Option<End>,
    pub(crate) theirs: Option<End>,
    pub(crate) left: bool,
    pub(crate) credit: Credit,
    available: u32,
    pub(crate) sending: Option<Sending>,
    pub(crate) receiving: Option<Unfinished>,
    pub(crate) ready: VecDeque<Waiting>,
    pub(crate) told: VecDeque<Telling>,
    pub(crate) resuming: Resuming,
}

impl Model for Link {
    ghost use Rattle.std.specs.Coded.{codes};
    ghost use Rattle.amqp_types.specs.contracts.value.Value as value;
    ghost use Rattle.amqp_rules.specs.View.{LinkView};

    ghost Value = { LinkView };

    ghost coded = { Prim.hlevel (codes, value.the_row.coded) };

    ghost use Rattle.amqp_links.specs.Credits.{role_of, credit_in};

    ghost view = { λ l. record { number = l.number; name = l.name; role = role_of l.credit; ours = l.ours; theirs = l.theirs; left = l.left; credit = credit_in l.credit; available = l.available; sending = l.sending; receiving = l.receiving; ready = l.ready.items; told = l.told.items; waiting = l.resuming.waiting; offer = l.resuming.offer } };
}

impl Link {
    /// It has these marks from now on.
    pub(crate) fn set_marks(&mut self, marks: &Marks)
        ensures { self.new ≡ with_marks marks.now self.old }
    {
        self.left = marks.left;
        self.credit = marks.credit;
        self.available = marks.available;
        self.sending = marks.sending;
    }

    /// It has these marks from now on, and the delivery with this tag waits on it no longer.
    pub(crate) fn set_resumed(&mut self, marks: &Marks, tag: &Tag)
        ensures { self.new ≡ with_resumed marks.now tag.now self.old }
    {
        self.left = marks.left;
        self.credit = marks.credit;
        self.available = marks.available;
        self.sending = marks.sending;
        self.resuming.remove(tag);
    }

    /// Our attach of it was sent, since when it has this to resume.
    pub(crate) fn set_ours(&mut self, end: End, marks: &Marks, resuming: Resuming)
        ensures { self.new ≡ with_ours end marks.now resuming self.old }
    {
        self.resuming = resuming;
        self.ours = Some(end);
        self.left = marks.left;
        self.credit = marks.credit;
        self.available = marks.available;
        self.sending = marks.sending;
    }

    /// The peer's attach of it was heard, since when it has this to resume.
    pub(crate) fn set_theirs(&mut self, end: End, marks: &Marks, resuming: Resuming)
        ensures { self.new ≡ with_theirs end marks.now resuming self.old }
    {
        self.resuming = resuming;
        self.theirs = Some(end);
        self.left = marks.left;
        self.credit = marks.credit;
        self.available = marks.available;
        self.sending = marks.sending;
    }

    /// Our detach was sent: what is unfinished is dropped.
    pub(crate) fn leave(&mut self)
        ensures { self.new ≡ left_by_us self.old }
    {
        self.left = true;
        self.sending = None;
        self.receiving = None;
    }

    /// The first delivery that waits is taken.
    pub(crate) fn take_ready(&mut self)
        ensures { self.new ≡ taken_from self.old }
    {
        let _ = self.ready.pop_front();
    }

    /// The first thing that was told is learnt.
    pub(crate) fn take_told(&mut self)
        ensures { self.new ≡ learnt_from self.old }
    {
        let _ = self.told.pop_front();
    }

    /// A link that we ask for.
    pub(crate) fn asked(
        alloc: Global,
        number: u32,
        name: Text,
        end: End,
        marks: &Marks,
        resuming: Resuming,
    ) -> Link
        ensures { result ≡ with_ours end marks.now resuming (new_link number (role_of marks.now.credit) name) }
    {
        Link {
            alloc,
            number,
            name,
            ours: Some(end),
            theirs: None,
            left: marks.left,
            credit: marks.credit,
            available: marks.available,
            sending: marks.sending,
            receiving: None,
            ready: VecDeque::new(alloc),
            told: VecDeque::new(alloc),
            resuming,
        }
    }

    /// A link that the peer offers.
    pub(crate) fn offered(
        alloc: Global,
        number: u32,
        name: Text,
        end: End,
        marks: &Marks,
        resuming: Resuming,
    ) -> Link
        ensures { result ≡ with_theirs end marks.now resuming (new_link number (role_of marks.now.credit) name) }
    {
        Link {
            alloc,
            number,
            name,
            ours: None,
            theirs: Some(end),
            left: marks.left,
            credit: marks.credit,
            available: marks.available,
            sending: marks.sending,
            receiving: None,
            ready: VecDeque::new(alloc),
            told: VecDeque::new(alloc),
            resuming,
        }
    }

    /// What it has to resume once our attach is sent, which brings these items in.
    pub fn resuming_by_us(&self, items: &[SuspendedItem]) -> Result<Resuming, AllocError>
        requires { has_twice items.now ≡ false }
        ensures { IfOk result (λ r. r ≡ resuming_by_us items.now self.now) }
    {
        match &self.theirs {
            Some(_) => self
                .resuming
                .met_by_us(self.alloc, self.credit.role(), items),
            None => Resuming::asked(self.alloc, items),
        }
    }

    /// What it has to resume once the peer's attach is heard, which answers ours.
    pub fn resuming_by_peer(&self, attach: &AttachBody) -> Result<Resuming, AllocError>
        requires { is_some self.now.ours ≡ true }
        ensures { IfOk result (λ r. r ≡ resuming_by_peer attach.now self.now) }
    {
        self.resuming
            .met_by_peer(self.alloc, self.credit.role(), attach)
    }

    /// Whether a delivery with this tag waits on it to be resumed.
    #[inline(always)]
    pub fn waits(&self, tag: &Tag) -> bool
        ensures { result ≡ waits tag.now self.now.waiting }
    {
        self.resuming.waits(tag)
    }

    /// What is known of the delivery with this tag that waits on it to be resumed.
    pub fn standing(&self, tag: &Tag) -> Option<&Standing>
        ensures { MatchOption result (find (waits_as tag.now) self.now.waiting ≡ None) (λ s. find (waits_as tag.now) self.now.waiting ≡ Some (standing_of tag.now s.now)) }
    {
        self.resuming.find(tag)
    }

    /// The tag and the verdict of one of those that wait to be resumed, by its place.
    pub fn waiting_at(&self, place: usize) -> Option<(&Tag, Verdict)>
        ensures tag { option_map (λ p. p.0.now) result ≡ option_map (λ w. w.tag) (slice_get self.now.waiting place) }
        ensures verdict { option_map (λ p. p.1) result ≡ option_map (λ w. w.verdict) (slice_get self.now.waiting place) }
    {
        self.resuming.at(place)
    }

    /// Both attaches were, and no detach of ours.
    pub fn is_attached(&self) -> bool
        ensures { result ≡ is_attached self.now }
    {
        self.ours.is_some() && self.theirs.is_some() && !self.left
    }

    /// Of this role and name.
    pub fn has_name(&self, role: Role, name: &Text) -> bool
        ensures { result ≡ has_name role name.now self.now }
    {
        same_role(role, self.credit.role()) && *name == self.name
    }

    /// Of this role and name, asked for by us.
    pub fn is_asked_as(&self, role: Role, name: &Text) -> bool
        ensures { result ≡ is_asked_as role name.now self.now }
    {
        self.has_name(role, name) && self.ours.is_some() && self.theirs.is_none()
    }

    /// Of this role and name, with an attach of the peer's.
    pub fn is_theirs(&self, role: Role, name: &Text) -> bool
        ensures { result ≡ is_theirs role name.now self.now }
    {
        self.has_name(role, name) && self.theirs.is_some()
    }

    /// The number that this end calls it by.
    pub fn number(&self) -> u32
        ensures { result ≡ self.now.number }
    {
        self.number
    }

    /// Its name (part 2, 2.6.1).
    pub fn name(&self) -> &Text
        ensures { result.now ≡ self.now.name }
    {
        &self.name
    }

    /// Our detach was sent.
    pub fn has_left(&self) -> bool
        ensures { result ≡ self.now.left }
    {
        self.left
    }

    /// Our attach was sent.
    pub fn is_ours(&self) -> bool
        ensures { result ≡ is_some self.now.ours }
    {
        self.ours.is_some()
    }

    /// Our handle of it; 0 before our attach.
    pub fn our_handle(&self) -> u32
        ensures { result ≡ handle_of self.now.ours }
    {
        match &self.ours {
            Some(end) => end.handle,
            None => 0,
        }
    }

    /// The peer's handle of it, once its attach was heard.
    pub fn peer_handle(&self) -> Option<u32>
        ensures { result ≡ option_map (λ e. e.handle) self.now.theirs }
    {
        match &self.theirs {
            Some(end) => Some(end.handle()),
            None => None,
        }
    }

    /// Its marks, as they are.
    pub fn marks(&self) -> Marks
        ensures { IsMarksOf self.now result }
    {
        Marks {
            left: self.left,
            credit: self.credit,
            available: self.available,
            sending: self.sending,
        }
    }
}
