//! What the attach of one end tells that stays with the link.
ghost use Rattle.std.specs.Prelude.{◌≡◌};

use amqp_types::{Boxed, Value};
use std::marker::Model;

/// What the attach of one end tells that stays with the link (part 2, 2.7.3).
#[derive(Debug, Drop)]
pub struct End {
    pub handle: u32,
    /// 0 unsettled, 1 settled, 2 mixed.
    pub snd_mode: u8,
    /// 0 first, 1 second.
    pub rcv_mode: u8,
    /// In octets; 0: no limit.
    pub max_message: u64,
    /// Where its messages come from (part 3, 3.5.3), as the attach has it.
    pub source: Option<Boxed<Value>>,
    /// Where its messages go to (part 3, 3.5.4), as the attach has it.
    pub target: Option<Boxed<Value>>,
}

impl Model for End {
    ghost use Rattle.std.specs.Coded.{codes};
    ghost use Rattle.amqp_types.specs.contracts.value.Value as value;
    ghost use Rattle.amqp_rules.specs.View.{EndView};

    ghost Value = { EndView };

    ghost coded = { Prim.hlevel (codes, value.the_row.coded) };

    ghost view = { λ e. record { handle = e.handle; snd_mode = e.snd_mode; rcv_mode = e.rcv_mode; max_message = e.max_message; source = e.source; target = e.target } };
}

impl End {
    /// The handle of our end.
    pub fn handle(&self) -> u32
        ensures { result ≡ self.now.handle }
    {
        self.handle
    }
}
