//! The deliveries that an attach of ours brings in.
ghost use Rattle.std.specs.Prelude.{◌≡◌, [], IfOk};
ghost use Rattle.amqp_waiting.specs.OurUnsettled.{map_of};

use crate::item::SuspendedItem;
use crate::sent::map_of;
use amqp_types::{Items, Value};
use std::alloc::{AllocError, Global};
use std::marker::Model;

/// The deliveries that an attach of ours brings in (part 2, 2.6.13), in their order. The map that the attach tells of them is made once, so that to
/// measure the attach asks for no memory.
#[derive(Debug)]
pub struct Brought {
    items: Items<SuspendedItem>,
    told: Option<Items<(Value, Value)>>,
}

// By hand, so that a crate that owns one does not prove its parts' drops again.
impl Drop for Brought {
    fn drop(self) {
        let Brought { items, told } = self;
        drop(items);
        drop(told);
    }
}

impl Model for Brought {
    ghost use Rattle.std.specs.Prelude.{◌≡◌, List};
    ghost use Rattle.std.specs.Coded.{codes};
    ghost use Rattle.amqp_types.specs.contracts.value.Value as value;
    ghost use Rattle.amqp_waiting.specs.declared.item.SuspendedItem.{SuspendedItem};
    ghost use Rattle.amqp_waiting.specs.OurUnsettled.{map_of};

    ghost Value = { List SuspendedItem };

    ghost coded = { Prim.hlevel (codes, value.the_row.coded) };

    ghost view = { λ b. b.items };

    ghost invariant = { λ b. b.told ≡ map_of b.items };
}

impl Brought {
    /// None. It allocates nothing.
    pub fn none(alloc: Global) -> Brought
        ensures { result ≡ [] }
    {
        Brought {
            items: Items::new(alloc),
            told: None,
        }
    }

    /// These deliveries. Where memory is refused they are gone.
    pub fn new(alloc: Global, items: Items<SuspendedItem>) -> Result<Brought, AllocError>
        ensures { IfOk result (λ b. b ≡ items) }
    {
        match map_of(alloc, items.as_slice()) {
            Ok(told) => Ok(Brought { items, told }),
            Err(e) => {
                drop(items);
                Err(e)
            }
        }
    }

    /// The deliveries in their order.
    pub fn as_slice(&self) -> &[SuspendedItem]
        ensures { result.now ≡ self.now }
    {
        self.items.as_slice()
    }

    /// The map once more, in memory of its own.
    pub fn copy_told(&self) -> Result<Option<Items<(Value, Value)>>, AllocError>
        ensures { IfOk result (λ m. m ≡ map_of self.now) }
    {
        map_of(self.items.allocator(), self.items.as_slice())
    }

    /// The map that the attach tells of them; none where there are none.
    pub fn told(&self) -> &Option<Items<(Value, Value)>>
        ensures { result.now ≡ map_of self.now }
    {
        &self.told
    }
}

fn copy_items(alloc: Global, items: &[SuspendedItem]) -> Result<Items<SuspendedItem>, AllocError>
    ensures { IfOk result (λ copy. copy ≡ items.now) }
{
    let mut copies = Vec::new(alloc);
    for item in items {
        let copy = item.clone()?;
        copies.push(copy)?;
    }
    Ok(Items { items: copies })
}

impl Clone for Brought {
    ghost is_clone = { λ a b. b ≡ a };

    fn clone(&self) -> Result<Brought, AllocError> {
        let alloc = self.items.allocator();
        let items = copy_items(alloc, self.items.as_slice())?;
        Brought::new(alloc, items)
    }
}

impl PartialEq for Brought {
    ghost use Rattle.std.specs.Cmp.Lexicographic.{pointwise, lists_per};
    ghost use Rattle.amqp_waiting.specs.contracts.item.SuspendedItemPartialEq.TheImpl.Laws as items;

    ghost eq = { pointwise ⟦<SuspendedItem as PartialEq>⟧.eq };

    ghost laws = { lists_per items.laws-law };

    fn eq(&self, other: &Brought) -> bool {
        self.items == other.items
    }
}

impl Eq for Brought {
    ghost use Rattle.std.specs.Cmp.Lexicographic.{lists_equiv};
    ghost use Rattle.amqp_waiting.specs.contracts.item.SuspendedItemEq.TheImpl.Laws as items;

    ghost laws = { lists_equiv items.laws-law };
}
