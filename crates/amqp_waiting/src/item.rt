//! What is known of a delivery that waits.
ghost use Rattle.std.specs.Prelude.{◌≡◌, drop};
ghost use Rattle.amqp_waiting.specs.Waiting.{has_twice};
ghost use Rattle.amqp_waiting.specs.Kept.{has_tag};

use amqp_performatives::DeliveryState;
use amqp_performatives::copying::copy_state;
use amqp_types::Tag;
use std::alloc::AllocError;

/// What becomes of a delivery that waits, once both attaches are there.
#[derive(Clone, Copy, Debug, PartialEq, Eq)]
pub enum Verdict {
    /// It is not known yet, or the peer did not tell all that it holds.
    Unclear,
    /// The peer does not know it.
    Absent,
    /// The peer has a part of it.
    Partial,
    /// The peer has it, without an outcome.
    Held,
    /// The peer has it, with an outcome.
    Outcome,
}

/// A delivery that was put aside: its tag, and our state of it.
#[derive(Debug, PartialEq, Eq, Drop)]
pub struct SuspendedItem {
    pub tag: Tag,
    pub state: Option<DeliveryState>,
}

impl Clone for SuspendedItem {
    ghost is_clone = { λ a b. b ≡ a };

    fn clone(&self) -> Result<SuspendedItem, AllocError> {
        let state = copy_state(&self.state)?;
        Ok(SuspendedItem {
            tag: self.tag,
            state,
        })
    }
}

/// A delivery that waits: our state of it, what becomes of it, and the peer's state of it.
#[derive(Debug, Drop)]
pub struct Standing {
    pub state: Option<DeliveryState>,
    pub verdict: Verdict,
    pub theirs: Option<DeliveryState>,
}

/// Whether one of the items from this place on has the tag.
fn has_tag(items: &[SuspendedItem], place: usize, tag: &Tag) -> bool
    ensures { result ≡ has_tag tag.now (drop place items.now) }
{
    for next in place..items.len() {
        if *tag == items[next].tag {
            return true;
        }
    }
    false
}

/// Whether two of the items have one tag. It takes as many steps as there are pairs of items, and no memory.
pub fn has_twice(items: &[SuspendedItem]) -> bool
    ensures { result ≡ has_twice items.now }
{
    for place in 0..items.len() {
        if has_tag(items, place + 1, &items[place].tag) {
            return true;
        }
    }
    false
}
