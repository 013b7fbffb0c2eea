//! What is told of the deliveries that are held.
ghost use Rattle.std.specs.Prelude.{◌≡◌, ◌==◌, true, map, IfOk};
ghost use Rattle.amqp_events.specs.Event as event;
ghost use Rattle.amqp_events.specs.Told.{tellings};
ghost use Rattle.amqp_events.specs.Table.{in_range};
ghost use Rattle.amqp_deliveries.specs.Held.{items_of, linked};
ghost use Rattle.amqp_deliveries.specs.Change.{Names};
ghost use Rattle.amqp_deliveries.specs.Span.{IsWithin, part};
ghost use Rattle.amqp_deliveries.specs.Dispose.{any_second, any_fixed};

use super::{Held, loops};
use crate::disposition::{Disposition, Telling};
use crate::span::Span;
use amqp_performatives::{DeliveryState, Role};
use std::alloc::AllocError;

impl Held {
    /// The ids of the deliveries at these places, each with the role.
    fn named_at(&self, role: Role, span: Span) -> Result<Vec<(Role, u32)>, AllocError>
        requires { IsWithin span self.now }
        ensures { IfOk result (λ v. v.items ≡ map (λ s. (role, s.item.id)) (part span self.now)) }
    {
        self.items
            .range(span.start..span.end)
            .map(|entry| (role, entry.id()))
            .collect(self.alloc)
    }

    /// What ends where the ids `first` to `last` end, or none.
    pub(crate) fn named_in(
        &self,
        role: Role,
        first: u32,
        last: u32,
    ) -> Result<Vec<(Role, u32)>, AllocError>
        ensures { IfOk result (λ v. Names role (in_range first last) (items_of self.now) v.items) }
    {
        self.named_at(role, self.span(first, last))
    }

    /// What ends where this id ends.
    pub(crate) fn named_one(&self, role: Role, id: u32) -> Result<Vec<(Role, u32)>, AllocError>
        ensures { IfOk result (λ v. Names role (λ i. i.id == id) (items_of self.now) v.items) }
    {
        self.named_at(role, self.span(id, id))
    }

    /// The ids of the deliveries of a link, each with the role.
    fn linked(&self, role: Role, link: u32) -> Result<Vec<(Role, u32)>, AllocError>
        ensures { IfOk result (λ v. v.items ≡ map (λ s. (role, s.item.id)) (linked link self.now)) }
    {
        self.items
            .iter()
            .filter(|entry| entry.link() == link)
            .map(|entry| (role, entry.id()))
            .collect(self.alloc)
    }

    /// The ids of all, each with the role.
    fn all(&self, role: Role) -> Result<Vec<(Role, u32)>, AllocError>
        ensures { IfOk result (λ v. v.items ≡ map (λ s. (role, s.item.id)) self.now) }
    {
        self.items
            .iter()
            .map(|entry| (role, entry.id()))
            .collect(self.alloc)
    }

    /// What ends where a link ends.
    pub(crate) fn named_of(&self, role: Role, link: u32) -> Result<Vec<(Role, u32)>, AllocError>
        ensures { IfOk result (λ v. Names role (λ i. i.link == link) (items_of self.now) v.items) }
    {
        let _ = &self.items;
        self.linked(role, link)
    }

    /// What ends where all end.
    pub(crate) fn named_all(&self, role: Role) -> Result<Vec<(Role, u32)>, AllocError>
        ensures { IfOk result (λ v. Names role (λ i. true) (items_of self.now) v.items) }
    {
        let _ = &self.items;
        self.all(role)
    }

    /// Whether the receiver of one at these places settles second.
    pub fn any_second(&self, span: Span) -> bool
        requires { IsWithin span self.now }
        ensures { result ≡ any_second (part span self.now) }
    {
        self.items
            .range(span.start..span.end)
            .any(|entry| entry.is_second())
    }

    /// Whether we told an outcome of one at these places that is not the state that is given.
    pub fn any_fixed(&self, span: Span, state: &Option<DeliveryState>) -> bool
        requires { IsWithin span self.now }
        ensures { result ≡ any_fixed state.now (part span self.now) }
    {
        self.items
            .range(span.start..span.end)
            .any(|entry| entry.is_fixed(state))
    }

    /// What a disposition of the peer's tells of its deliveries that was not told yet, in their order.
    pub fn tellings(&self, said: &Disposition) -> Result<Vec<Telling>, AllocError>
        ensures { IfOk result (λ v. v.items ≡ tellings (event.Hears said.now) self.now) }
    {
        if said.tells() {
            loops::tellings(
                self.alloc,
                &self.items,
                self.span(said.first, said.last),
                said,
            )
        } else {
            Ok(Vec::new(self.alloc))
        }
    }
}
