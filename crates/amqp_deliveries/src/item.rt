//! A held delivery.
ghost use Rattle.std.specs.Prelude.{◌≡◌};
ghost use Rattle.amqp_deliveries.specs.Held.{untold};
ghost use Rattle.amqp_deliveries.specs.Edits.{with_state, stated};
ghost use Rattle.amqp_events.specs.States.{is_fixed};

use amqp_performatives::DeliveryState;
use amqp_types::Tag;
use std::marker::Model;

/// An unsettled delivery, as one end of it stands (part 2, 2.6.12).
#[derive(Debug, Drop)]
pub struct HeldItem {
    /// Its delivery-id, a serial number.
    pub id: u32,
    /// The number of its link.
    pub link: u32,
    pub tag: Tag,
    /// Whether its receiver settles second (2.8.3).
    pub second: bool,
    /// What we told of it last.
    pub local: Option<DeliveryState>,
    /// What the peer told of it last.
    pub remote: Option<DeliveryState>,
}

impl Model for HeldItem {
    ghost use Rattle.std.specs.Prelude.{◌<◌, ◌^◌};
    ghost use Rattle.std.specs.Coded.{codes};
    ghost use Rattle.amqp_types.specs.contracts.value.Value as value;
    ghost use Rattle.amqp_events.specs.Event.{Item};

    ghost Value = { Item };

    ghost coded = { Prim.hlevel (codes, value.the_row.coded) };

    ghost view = { λ i. record { id = i.id; link = i.link; tag = i.tag; second = i.second; local = i.local; remote = i.remote } };

    ghost invariant = { λ i. i.id < 2 ^ 32 };
}

/// Which end of a delivery told a state.
#[derive(Clone, Copy, Debug, PartialEq, Eq)]
pub(crate) enum Side {
    Local,
    Remote,
}

impl HeldItem {
    /// Its delivery-id.
    pub(crate) fn id(&self) -> u32
        ensures { result ≡ self.now.id }
    {
        self.id
    }

    /// Whether we told an outcome of it, and not the state that is given.
    pub(crate) fn is_fixed(&self, state: &Option<DeliveryState>) -> bool
        ensures { result ≡ is_fixed state.now self.now }
    {
        match (state, &self.local) {
            (Some(state), Some(told)) => told.is_outcome() && told != state,
            _ => false,
        }
    }

    /// One end gives it this state.
    pub(crate) fn set_state(&mut self, side: Side, state: DeliveryState)
        ensures { self.new ≡ with_state side state self.old }
    {
        match side {
            Side::Local => self.local = Some(state),
            Side::Remote => self.remote = Some(state),
        }
    }
}

/// A delivery of the table, and whether what became of it was told already.
#[derive(Drop)]
pub(crate) struct Entry {
    pub(crate) item: HeldItem,
    told: bool,
}

impl Model for Entry {
    ghost use Rattle.std.specs.Coded.{codes};
    ghost use Rattle.amqp_types.specs.contracts.value.Value as value;
    ghost use Rattle.amqp_events.specs.Told.{SentItem};

    ghost Value = { SentItem };

    ghost coded = { Prim.hlevel (codes, value.the_row.coded) };

    ghost view = { λ e. record { item = e.item; told = e.told } };
}

impl Entry {
    /// A delivery that begins.
    pub(crate) fn new(item: HeldItem) -> Entry
        ensures { result ≡ untold item }
    {
        Entry { item, told: false }
    }

    pub(crate) fn id(&self) -> u32
        ensures { result ≡ self.now.item.id }
    {
        self.item.id()
    }

    pub(crate) fn link(&self) -> u32
        ensures { result ≡ self.now.item.link }
    {
        let item = &self.item;
        item.link
    }

    pub(crate) fn tag(&self) -> Tag
        ensures { result ≡ self.now.item.tag }
    {
        let item = &self.item;
        item.tag
    }

    /// Whether its receiver settles second.
    pub(crate) fn is_second(&self) -> bool
        ensures { result ≡ self.now.item.second }
    {
        let item = &self.item;
        item.second
    }

    /// Whether we told an outcome of it, and not the state that is given.
    pub(crate) fn is_fixed(&self, state: &Option<DeliveryState>) -> bool
        ensures { result ≡ is_fixed state.now self.now.item }
    {
        self.item.is_fixed(state)
    }

    /// One end gives it this state, which tells what became of it or does not.
    pub(crate) fn set_state(&mut self, side: Side, tells: bool, state: DeliveryState)
        ensures { self.new ≡ stated side tells state self.old }
    {
        self.item.set_state(side, state);
        self.told = tells || self.told;
    }

    /// Whether what became of it was told.
    pub(crate) fn is_told(&self) -> bool
        ensures { result ≡ self.now.told }
    {
        self.told
    }
}
