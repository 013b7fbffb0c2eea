//! The meaning of `==` in contracts.
ghost use Rattle.std.specs.Prelude.{◌≡◌, ◌↔◌, ℕ, List, IsTrue};

use crate::tag::Tag;
use crate::text::Text;
use crate::value::Value;

/// Proves that two values, texts or tags are equal by `==` exactly if they are the same in contracts.
pub fn equal_is_same()
    ensures values { (a b : Value) → IsTrue (⟦<Value as PartialEq>⟧.eq a b) ↔ (a ≡ b) }
    ensures texts { (a b : List ℕ) → IsTrue (⟦<Text as PartialEq>⟧.eq a b) ↔ (a ≡ b) }
    ensures tags { (a b : List ℕ) → IsTrue (⟦<Tag as PartialEq>⟧.eq a b) ↔ (a ≡ b) }
{}
