//! What `==` is to contracts.
ghost use Rattle.std.specs.Prelude.{◌≡◌, ◌↔◌, IsTrue};

use crate::op::Op;
use crate::reply::Reply;

/// Two operations, or replies, are equal by `==` exactly where they are the same to contracts.
pub fn equal_is_same()
    ensures operations { (a b : Op) → IsTrue (⟦<Op as PartialEq>⟧.eq a b) ↔ (a ≡ b) }
    ensures replies { (a b : Reply) → IsTrue (⟦<Reply as PartialEq>⟧.eq a b) ↔ (a ≡ b) }
{}
