//! A list that only proofs read.
ghost use Rattle.std.specs.Prelude.{◌≡◌, List, [], ◌∷◌};
ghost use Rattle.std.specs.Borrow.{ftrue};

use std::marker::{Model, PhantomData};

/// A ghost list of pairs, the newest first, which contracts read as `items`.
///
/// It takes no memory, and its methods do nothing at run time.
#[derive(Drop)]
pub struct History<A, B> {
    of: PhantomData<(A, B)>,
    pub ghost items: { List (A × B) },
}

impl<A, B> Model for History<A, B> {
    ghost also_owns = { λ _. ftrue };
}

// It owns nothing.
unsafe impl<A, B> Send for History<A, B> {}

impl<A, B> History<A, B> {
    /// Returns an empty list.
    pub fn new() -> History<A, B>
        ensures { result.items ≡ [] }
    {
        History { of: PhantomData }
    }

    /// Returns the list with this pair before the others.
    pub fn and(&self, first: &A, second: &B) -> History<A, B>
        ensures { result.items ≡ (first.now, second.now) ∷ self.now.items }
    {
        History { of: PhantomData }
    }
}
