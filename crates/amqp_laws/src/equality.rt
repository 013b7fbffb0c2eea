//! What `==` is to contracts.
ghost use Rattle.std.specs.Prelude.{◌≡◌, ◌↔◌, IsTrue};

use crate::entry::Entry;

/// Two entries are equal by `==` exactly where they are the same to contracts.
pub fn equal_is_same()
    ensures { (a b : Entry) → IsTrue (⟦<Entry as PartialEq>⟧.eq a b) ↔ (a ≡ b) }
{}
