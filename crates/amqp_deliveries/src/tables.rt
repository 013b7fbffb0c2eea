//! The unsettled deliveries of both roles.
ghost use Rattle.std.specs.Prelude.{◌≡◌, false, length, Option, [], option_map, slice_get, IfOk, OnOk, OnErr};
ghost use Rattle.std.specs.List.{list_any};
ghost use Rattle.amqp_performatives.specs.declared.state.DeliveryState.{DeliveryState};
ghost use Rattle.amqp_events.specs.Event as event;
ghost use Rattle.amqp_events.specs.Event.{Item};
ghost use Rattle.amqp_events.specs.Laws.{IsPast};
ghost use Rattle.amqp_events.specs.Tags.{is_tagged};
ghost use Rattle.amqp_events.specs.Told as told;
ghost use Rattle.amqp_deliveries.specs.Change.{TablesView, held_items, is_tagged_as, tables_after, ended_in};
ghost use Rattle.amqp_deliveries.specs.Held.{items_of, GivesState};
ghost use Rattle.amqp_deliveries.specs.declared.change.Change.TheVariants as change;

use crate::change::Change;
use crate::disposition::{Disposition, Telling};
use crate::held::Held;
use crate::item::HeldItem;
use amqp_performatives::{DeliveryState, Role};
use amqp_types::{Items, Tag};
use std::alloc::{AllocError, Global};
use std::marker::Model;

/// The unsettled deliveries of a session: those that we send, and those that we receive. A role is ours.
/// What the calls cost is said of [`Held`].
pub struct Tables {
    alloc: Global,
    sent: Held,
    received: Held,
}

// By hand, so that a crate that owns one does not prove its parts' drops again.
impl Drop for Tables {
    fn drop(self) {
        let Tables {
            alloc: _,
            sent,
            received,
        } = self;
        drop(sent);
        drop(received);
    }
}

impl Model for Tables {
    ghost use Rattle.std.specs.Coded.{codes};
    ghost use Rattle.amqp_types.specs.contracts.value.Value as value;
    ghost use Rattle.amqp_deliveries.specs.Change.{TablesView};

    ghost Value = { TablesView };

    ghost coded = { Prim.hlevel (codes, value.the_row.coded) };

    ghost use Rattle.amqp_deliveries.specs.Held.{items_of, GivesState};

    ghost view = { λ t. record { sent = t.sent; received = items_of t.received } };
}

impl Tables {
    /// Nothing is held. It allocates nothing.
    pub fn new(alloc: Global) -> Tables
        ensures { result ≡ record { sent = []; received = [] } }
    {
        Tables {
            alloc,
            sent: Held::new(alloc),
            received: Held::new(alloc),
        }
    }

    /// Those of which we have this role.
    pub fn of(&self, role: Role) -> &Held
        ensures { items_of result.now ≡ held_items role self.now }
    {
        match role {
            Role::Sender => &self.sent,
            Role::Receiver => &self.received,
        }
    }

    /// Whether one of this role is on the link with this tag.
    pub fn has_tag(&self, role: Role, link: u32, tag: &Tag) -> bool
        ensures { result ≡ list_any (is_tagged link tag.now) (held_items role self.now) }
    {
        match role {
            Role::Sender => self.sent.holds_tag(link, tag),
            Role::Receiver => self.received.holds_tag(link, tag),
        }
    }

    /// What ends where the tables change so: roles and ids, first those that we send.
    pub fn ended(&self, change: &Change) -> Result<Items<(Role, u32)>, AllocError>
        ensures { IfOk result (λ e. e ≡ ended_in change.now self.now) }
    {
        let items = self.ids_ended(change)?;
        Ok(Items { items })
    }

    fn ids_ended(&self, change: &Change) -> Result<Vec<(Role, u32)>, AllocError>
        ensures { IfOk result (λ v. v.items ≡ ended_in change.now self.now) }
    {
        match change {
            Change::Stay => Ok(Vec::new(self.alloc)),
            Change::Begins(_, _) => Ok(Vec::new(self.alloc)),
            Change::Continues(role, id, _, over) => self.ended_later(*role, *id, *over),
            Change::Says(role, said) => self.ended_by(*role, said),
            Change::Hears(role, said) => self.ended_by(*role, said),
            Change::Leaves(link) => self.ended_on(*link),
            Change::Over => self.ended_all(),
        }
    }

    /// By a later transfer.
    fn ended_later(&self, role: Role, id: u32, over: bool) -> Result<Vec<(Role, u32)>, AllocError>
        ensures { IfOk result (λ v. (state : Option DeliveryState) → v.items ≡ ended_in (change.Continues role id state over) self.now) }
    {
        if over {
            self.of(role).named_one(role, id)
        } else {
            Ok(Vec::new(self.alloc))
        }
    }

    /// By a disposition, whoever said it.
    fn ended_by(&self, role: Role, said: &Disposition) -> Result<Vec<(Role, u32)>, AllocError>
        ensures said { IfOk result (λ v. v.items ≡ ended_in (change.Says role said.now) self.now) }
        ensures heard { IfOk result (λ v. v.items ≡ ended_in (change.Hears role said.now) self.now) }
    {
        if said.settled {
            self.of(role).named_in(role, said.first, said.last)
        } else {
            Ok(Vec::new(self.alloc))
        }
    }

    /// With a link.
    fn ended_on(&self, link: u32) -> Result<Vec<(Role, u32)>, AllocError>
        ensures { IfOk result (λ v. v.items ≡ ended_in (change.Leaves link) self.now) }
    {
        let mut ended = self.sent.named_of(Role::Sender, link)?;
        let mut received = self.received.named_of(Role::Receiver, link)?;
        ended.append(&mut received)?;
        Ok(ended)
    }

    /// With the session.
    fn ended_all(&self) -> Result<Vec<(Role, u32)>, AllocError>
        ensures { IfOk result (λ v. v.items ≡ ended_in change.Over self.now) }
    {
        let mut ended = self.sent.named_all(Role::Sender)?;
        let mut received = self.received.named_all(Role::Receiver)?;
        ended.append(&mut received)?;
        Ok(ended)
    }

    /// What a disposition of the peer's tells of what we send that was not told yet, in order.
    pub fn tellings(&self, said: &Disposition) -> Result<Vec<Telling>, AllocError>
        ensures { IfOk result (λ v. v.items ≡ told.tellings (event.Hears said.now) self.now.sent) }
    {
        self.sent.tellings(said)
    }

    /// An unsettled delivery begins.
    pub fn begin(&mut self, role: Role, item: HeldItem) -> Result<(), AllocError>
        requires older { IsPast item.id (held_items role self.old) }
        requires fresh { list_any (is_tagged_as item) (held_items role self.old) ≡ false }
        ensures ok { OnOk result (self.new ≡ tables_after (change.Begins role item) self.old) }
        ensures err { OnErr result (self.new ≡ self.old) }
    {
        match role {
            Role::Sender => self.sent.begin(item),
            Role::Receiver => self.received.begin(item),
        }
    }

    /// Undoes the last `begin`.
    pub fn take_back(&mut self, role: Role)
        ensures { (before : TablesView) (item : Item) → self.old ≡ tables_after (change.Begins role item) before → self.new ≡ before }
    {
        match role {
            Role::Sender => self.sent.take_back(),
            Role::Receiver => self.received.take_back(),
        }
    }

    /// A later transfer of the delivery with this id: it ends, or the peer gives it a state.
    pub fn go_on(&mut self, role: Role, id: u32, state: Option<DeliveryState>, over: bool)
        ensures { self.new ≡ tables_after (change.Continues role id state over) self.old }
    {
        match role {
            Role::Sender => self.sent.go_on(id, state, over),
            Role::Receiver => self.received.go_on(id, state, over),
        }
    }

    /// We say this of deliveries. Memory is asked for where it gives a state to some that stay, and nowhere else.
    pub fn say(&mut self, role: Role, said: &Disposition) -> Result<(), AllocError>
        ensures ok { OnOk result (self.new ≡ tables_after (change.Says role said.now) self.old) }
        ensures err { OnErr result (self.new ≡ self.old) }
        ensures needs { OnErr result (GivesState said.now (held_items role self.old)) }
    {
        match role {
            Role::Sender => self.sent.say(said),
            Role::Receiver => self.received.say(said),
        }
    }

    /// The peer says this of deliveries. Memory is asked for where it gives a state to some that stay, and nowhere else.
    pub fn hear(&mut self, role: Role, said: &Disposition) -> Result<(), AllocError>
        ensures ok { OnOk result (self.new ≡ tables_after (change.Hears role said.now) self.old) }
        ensures err { OnErr result (self.new ≡ self.old) }
        ensures needs { OnErr result (GivesState said.now (held_items role self.old)) }
    {
        match role {
            Role::Sender => self.sent.hear(said),
            Role::Receiver => self.received.hear(said),
        }
    }

    /// The deliveries of a link end.
    pub fn leave(&mut self, link: u32)
        ensures { self.new ≡ tables_after (change.Leaves link) self.old }
    {
        self.sent.end_link(link);
        self.received.end_link(link);
    }

    /// All end.
    pub fn clear(&mut self)
        ensures { self.new ≡ tables_after change.Over self.old }
    {
        self.sent.end_all();
        self.received.end_all();
    }

    /// How many of this role are unsettled.
    pub fn unsettled_len(&self, role: Role) -> usize
        ensures { result ≡ length (held_items role self.now) }
    {
        self.of(role).len()
    }

    /// The one at place `i` of this role, in serial order.
    pub fn unsettled_at(&self, role: Role, i: usize) -> Option<&HeldItem>
        ensures { option_map (λ x. x.now) result ≡ slice_get (held_items role self.now) i }
    {
        self.of(role).at(i)
    }
}
