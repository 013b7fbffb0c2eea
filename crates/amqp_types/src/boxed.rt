//! Boxed values that contracts see as the value itself.
ghost use Rattle.std.specs.Prelude.{◌≡◌, IfOk};

use std::alloc::{AllocError, Global};
use std::marker::Model;

/// A `Box` that contracts see as the value in it, whatever its address.
#[derive(Debug)]
pub struct Boxed<T> {
    pub boxed: Box<T>,
}

// Written by hand, so that a crate that owns one does not prove the drops of its parts again.
impl<T: Drop> Drop for Boxed<T> {
    fn drop(self) {
        let Boxed { boxed } = self;
        drop(boxed);
    }
}

impl<T> Model for Boxed<T> {
    ghost Value = { T };

    ghost coded = { T.code };

    ghost view = { λ b. b.boxed.value };
}

impl<T> Boxed<T> {
    /// Returns a reference to the value.
    pub fn get(&self) -> &T
        ensures { result.now ≡ self.now }
    {
        &self.boxed
    }

    /// Moves the value out of the box.
    pub fn into_inner(self) -> T
        ensures { result ≡ self }
    {
        let Boxed { boxed } = self;
        Box::into_inner(boxed)
    }

    /// Returns the allocator of the box.
    pub fn allocator(&self) -> Global {
        *Box::allocator(&self.boxed)
    }
}

impl<T: Drop> Boxed<T> {
    /// Moves `value` into a box that `alloc` allocates.
    ///
    /// # Errors
    ///
    /// [`AllocError`] if memory runs out.
    pub fn new(alloc: Global, value: T) -> Result<Boxed<T>, AllocError>
        ensures { IfOk result (λ b. b ≡ value) }
    {
        Ok(Boxed {
            boxed: Box::new(alloc, value)?,
        })
    }
}

impl<T: Clone> Clone for Boxed<T> {
    ghost is_clone = { T.is_clone };

    fn clone(&self) -> Result<Boxed<T>, AllocError> {
        let copy = self.get().clone()?;
        Boxed::new(self.allocator(), copy)
    }
}

impl<T: PartialEq> PartialEq for Boxed<T> {
    ghost eq = { T.eq };

    ghost laws = { T.laws };

    fn eq(&self, other: &Boxed<T>) -> bool {
        *self.get() == *other.get()
    }
}

impl<T: Eq> Eq for Boxed<T> {
    ghost laws = { T.Eq.laws };
}
