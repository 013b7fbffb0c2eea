//! What most steps change of a link.
ghost use Rattle.std.specs.Prelude.{◌≡◌};

use crate::credit::Credit;
use std::marker::Model;

/// A delivery that we send and that is unfinished: its id, and the length of its payloads so far, in octets.
#[derive(Clone, Copy)]
pub struct Sending {
    pub id: u32,
    pub size: u128,
}

impl Model for Sending {
    ghost use Rattle.amqp_rules.specs.View.{SendingView};

    ghost Value = { SendingView };

    ghost view = { λ s. record { id = s.id; size = s.size } };

    ghost inverse = { λ s. record { id = s.id; size = s.size } };
}

/// What most steps change of a link.
#[derive(Clone, Copy)]
pub struct Marks {
    /// Our detach was sent.
    pub left: bool,
    pub credit: Credit,
    /// How many messages the application said to be available.
    pub available: u32,
    /// The unfinished delivery of ours.
    pub sending: Option<Sending>,
}
