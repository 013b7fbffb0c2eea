//! What is read of the deliveries that are held: their ids, their tags, and one by its id.
ghost use Rattle.std.specs.Prelude.{◌≡◌, ◌==◌, option_map, map, find, IfOk};
ghost use Rattle.amqp_deliveries.specs.Held.{items_of, covered, linked};
ghost use Rattle.amqp_deliveries.specs.Span.{IsWithin, part};

use super::Held;
use crate::item::{Entry, HeldItem};
use crate::span::Span;
use amqp_types::Tag;
use std::alloc::AllocError;

impl Held {
    /// The ids of the deliveries at these places.
    fn ids_at(&self, span: Span) -> Result<Vec<u32>, AllocError>
        requires { IsWithin span self.now }
        ensures { IfOk result (λ v. v.items ≡ map (λ s. s.item.id) (part span self.now)) }
    {
        self.items
            .range(span.start..span.end)
            .map(|entry| entry.id())
            .collect(self.alloc)
    }

    /// The held ids among `first` to `last`, in serial order.
    pub fn ids_in(&self, first: u32, last: u32) -> Result<Vec<u32>, AllocError>
        ensures { IfOk result (λ v. v.items ≡ map (λ s. s.item.id) (covered first last self.now)) }
    {
        self.ids_at(self.span(first, last))
    }

    /// The held ids of a link, in serial order.
    pub fn ids_of(&self, link: u32) -> Result<Vec<u32>, AllocError>
        ensures { IfOk result (λ v. v.items ≡ map (λ s. s.item.id) (linked link self.now)) }
    {
        self.items
            .iter()
            .filter(|entry| entry.link() == link)
            .map(|entry| entry.id())
            .collect(self.alloc)
    }

    /// All held ids, in serial order.
    pub fn ids(&self) -> Result<Vec<u32>, AllocError>
        ensures { IfOk result (λ v. v.items ≡ map (λ s. s.item.id) self.now) }
    {
        self.items
            .iter()
            .map(|entry| entry.id())
            .collect(self.alloc)
    }

    /// The tags of a link's deliveries, in serial order of their ids.
    pub fn tags_of(&self, link: u32) -> Result<Vec<Tag>, AllocError>
        ensures { IfOk result (λ v. v.items ≡ map (λ s. s.item.tag) (linked link self.now)) }
    {
        self.items
            .iter()
            .filter(|entry| entry.link() == link)
            .map(|entry| entry.tag())
            .collect(self.alloc)
    }

    /// The one with this id at these places.
    fn find_at(&self, span: Span, id: u32) -> Option<&Entry>
        requires { IsWithin span self.now }
        ensures { option_map (λ x. x.now) result ≡ find (λ s. s.item.id == id) (part span self.now) }
    {
        self.items
            .range(span.start..span.end)
            .find(|entry| entry.id() == id)
    }

    /// The delivery with this id.
    pub fn find(&self, id: u32) -> Option<&HeldItem>
        ensures { option_map (λ x. x.now) result ≡ find (λ i. i.id == id) (items_of self.now) }
    {
        match self.find_at(self.span(id, id), id) {
            None => None,
            Some(entry) => Some(&entry.item),
        }
    }
}
