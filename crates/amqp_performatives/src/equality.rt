//! What `==` is to contracts.
ghost use Rattle.std.specs.Prelude.{◌≡◌, ◌↔◌, IsTrue};

use crate::error::AmqpError;
use crate::performative::Performative;
use crate::state::DeliveryState;

/// Two performatives, states or errors are equal by `==` exactly where they are the same to contracts.
pub fn equal_is_same()
    ensures performatives { (a b : Performative) → IsTrue (⟦<Performative as PartialEq>⟧.eq a b) ↔ (a ≡ b) }
    ensures states { (a b : DeliveryState) → IsTrue (⟦<DeliveryState as PartialEq>⟧.eq a b) ↔ (a ≡ b) }
    ensures errors { (a b : AmqpError) → IsTrue (⟦<AmqpError as PartialEq>⟧.eq a b) ↔ (a ≡ b) }
{}
