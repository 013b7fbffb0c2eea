//! A box whose pointer and allocator are in sight.
ghost use Rattle.std.specs.Prelude.{◌≡◌};
ghost use Rattle.std.specs.Box.Ownership.{box_owns};

use std::alloc::Allocator;
use std::marker::Model;

/// The pointer and the allocator of a box. It owns what the box owned, and is never dropped: it becomes a box again, or part of a handle.
pub struct Unboxed<T, A: Allocator> {
    pub(crate) at: *mut T,
    pub(crate) alloc: A,
    pub ghost value: { T },
}

impl<T, A: Allocator> Model for Unboxed<T, A> {
    ghost also_owns = { λ u. box_owns (A.dealloc_token u.alloc) T.row u.at u.value };
}

/// Takes the box apart.
pub fn unbox<T: Drop, A: Allocator>(whole: Box<T, A>) -> Unboxed<T, A>
    ensures { result.value ≡ whole.value }
{
    let (at, alloc) = Box::into_raw_with_allocator(whole);
    Unboxed { at, alloc }
}

/// Makes the box again.
pub fn rebox<T: Drop, A: Allocator>(unboxed: Unboxed<T, A>) -> Box<T, A>
    ensures { result.value ≡ unboxed.value }
{
    let Unboxed { at, alloc } = unboxed;
    unsafe { Box::from_raw(alloc, at) }
}
