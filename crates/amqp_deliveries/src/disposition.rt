//! What is said of deliveries, and what the application is told of one.
ghost use Rattle.std.specs.Prelude.{◌≡◌, ◌||◌, cond, None, IfOk};
ghost use Rattle.amqp_events.specs.Told.{has_outcome, telling};

use crate::item::HeldItem;
use amqp_performatives::DeliveryState;
use amqp_performatives::copying::copy_state;
use amqp_types::Tag;
use std::alloc::AllocError;
use std::marker::Model;

/// A disposition (part 2, 2.7.6): what one end says of the deliveries whose ids are `first` to `last`.
#[derive(Debug, Drop)]
pub struct Disposition {
    pub first: u32,
    pub last: u32,
    pub settled: bool,
    pub state: Option<DeliveryState>,
}

impl Model for Disposition {
    ghost use Rattle.std.specs.Coded.{codes};
    ghost use Rattle.amqp_types.specs.contracts.value.Value as value;
    ghost use Rattle.amqp_events.specs.Event as event;

    ghost Value = { event.Disposition };

    ghost coded = { Prim.hlevel (codes, value.the_row.coded) };

    ghost view = { λ d. record { first = d.first; last = d.last; settled = d.settled; state = d.state } };
}

/// What the application learns of a delivery that it sent, once (part 2, 2.6.12; part 3, 3.4).
#[derive(Debug, Drop)]
pub struct Telling {
    /// Its delivery-id.
    pub id: u32,
    /// The number of its link.
    pub link: u32,
    pub tag: Tag,
    /// The peer's state of it then.
    pub state: Option<DeliveryState>,
    /// Whether it was settled then.
    pub settled: bool,
    /// The ids that the disposition spoke of, and whether the state is the one that it gave.
    first: u32,
    last: u32,
    gives: bool,
}

impl Model for Telling {
    ghost use Rattle.std.specs.Coded.{codes};
    ghost use Rattle.amqp_types.specs.contracts.value.Value as value;
    ghost use Rattle.std.specs.Prelude.{cond, None};
    ghost use Rattle.amqp_events.specs.Told as told;

    ghost Value = { told.Telling };

    ghost coded = { Prim.hlevel (codes, value.the_row.coded) };

    ghost view = { λ t. record { id = t.id; link = t.link; tag = t.tag; state = t.state; by = record { first = t.first; last = t.last; settled = t.settled; state = cond t.gives t.state None } } };
}

impl Disposition {
    /// Whether it settles the deliveries or tells an outcome of them: what their sender learns once.
    pub(crate) fn tells(&self) -> bool
        ensures { result ≡ (self.now.settled || has_outcome self.now.state) }
    {
        self.settled || self.has_outcome()
    }

    /// Whether its state is an outcome (part 3, 3.4).
    pub(crate) fn has_outcome(&self) -> bool
        ensures { result ≡ has_outcome self.now.state }
    {
        match &self.state {
            None => false,
            Some(state) => state.is_outcome(),
        }
    }

    /// What is learnt of this delivery, where it is one of those that it tells of.
    pub(crate) fn telling(&self, item: &HeldItem) -> Result<Telling, AllocError>
        ensures { IfOk result (λ t. t ≡ telling self.now item.now) }
    {
        let gives = self.state.is_some();
        let state = if gives {
            copy_state(&self.state)?
        } else {
            copy_state(&item.remote)?
        };
        Ok(Telling {
            id: item.id,
            link: item.link,
            tag: item.tag,
            state,
            settled: self.settled,
            first: self.first,
            last: self.last,
            gives,
        })
    }
}
