//! Links by what attaches tell of them.
ghost use Rattle.std.specs.Prelude.{◌≡◌, None, MatchOption, is_some, find};
ghost use Rattle.amqp_links.specs.Index.{stands_as};
ghost use Rattle.amqp_links.specs.Links.{IsFirst};
ghost use Rattle.amqp_links.specs.Marks.{found_link};
ghost use Rattle.amqp_rules.specs.View.{free_handle, is_asked_as, is_offered_as, is_ours, is_theirs};

use crate::found::Found;
use crate::link::Link;
use crate::links::Links;
use amqp_performatives::Role;
use amqp_types::Text;

/// By which attaches a link is sought.
#[derive(Clone, Copy)]
enum Standing {
    /// Ours alone was.
    Asked,
    /// The peer's alone was.
    Offered,
    /// Ours was.
    Ours,
    /// The peer's was.
    Theirs,
}

impl Link {
    /// Of this role and name, and so far.
    fn stands_as(&self, standing: Standing, role: Role, name: &Text) -> bool
        ensures { result ≡ stands_as standing role name.now self.now }
    {
        match standing {
            Standing::Asked => self.is_asked_as(role, name),
            Standing::Offered => self.is_offered_as(role, name),
            Standing::Ours => self.is_ours_as(role, name),
            Standing::Theirs => self.is_theirs(role, name),
        }
    }
}

impl Links {
    /// The first link of this role and name that has come so far, at its place.
    fn first(&self, standing: Standing, role: Role, name: &Text) -> Option<Found<'_>>
        ensures { MatchOption result (find (stands_as standing role name.now) self.now.list ≡ None) (λ f. IsFirst (stands_as standing role name.now) self.now.list (found_link f)) }
    {
        self.store.rising();
        for number in self.names.under(name) {
            let Some(found) = self.store.by_number(*number) else {
                continue;
            };
            if found.link.stands_as(standing, role, name) {
                return Some(found);
            }
        }
        None
    }

    /// The first link of this role and name that we asked for and the peer has not answered, at its place. O(log n).
    pub fn asked_as(&self, role: Role, name: &Text) -> Option<Found<'_>>
        ensures { MatchOption result (find (is_asked_as role name.now) self.now.list ≡ None) (λ f. IsFirst (is_asked_as role name.now) self.now.list (found_link f)) }
    {
        self.first(Standing::Asked, role, name)
    }

    /// The first link of this role and name that the peer offers, at its place. O(log n).
    pub fn offered_as(&self, role: Role, name: &Text) -> Option<Found<'_>>
        ensures { MatchOption result (find (is_offered_as role name.now) self.now.list ≡ None) (λ f. IsFirst (is_offered_as role name.now) self.now.list (found_link f)) }
    {
        self.first(Standing::Offered, role, name)
    }

    /// Whether the peer has attached a link of this role and name. O(log n).
    pub fn has_theirs(&self, role: Role, name: &Text) -> bool
        ensures { result ≡ is_some (find (is_theirs role name.now) self.now.list) }
    {
        self.first(Standing::Theirs, role, name).is_some()
    }

    /// Whether we have attached a link of this role and name. O(log n).
    pub fn has_ours(&self, role: Role, name: &Text) -> bool
        ensures { result ≡ is_some (find (is_ours role name.now) self.now.list) }
    {
        self.first(Standing::Ours, role, name).is_some()
    }

    /// The lowest number that is no handle of ours.
    pub fn free_handle(&self) -> u32
        ensures { result ≡ free_handle self.now.list }
    {
        self.handles.lowest()
    }
}
