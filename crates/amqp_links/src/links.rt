//! The links that are not gone.
ghost use Rattle.std.specs.Prelude.{◌≡◌, [], IfOk, List, None, MatchOption, OnOk, OnErr, find, map, option_map};
ghost use Rattle.amqp_events.specs.Told.{Telling};
ghost use Rattle.amqp_links.specs.Fate.{links_told};
ghost use Rattle.amqp_links.specs.Links.{IsFirst, LinksView};
ghost use Rattle.amqp_links.specs.Marks.{found_link};
ghost use Rattle.amqp_rules.specs.View.{has_number, has_peer_handle};

use crate::found::Found;
use crate::handles::Handles;
use crate::names::Names;
use crate::store::Store;
use amqp_deliveries::Telling as Told;
use std::alloc::{AllocError, Global};
use std::marker::Model;

/// The links that are not gone, in the order in which they were made. A link is found by its number, by the peer's handle, and by its role and name;
/// and the lowest handle that is free is known.
///
/// | call | cost, for n links, m of them of one name |
/// |---|---|
/// | a look-up by number or handle | O(log n) |
/// | a look-up by name; `meet`: an attach of either end, a link more, or one less | O(log n + m) |
/// | `free_handle`; `meet`: any other change of one link | O(1) |
/// | `tell`, `untell`, of k things | O(k log n) |
/// | `meet`: all are gone | O(n) |
pub struct Links {
    pub(crate) store: Store,
    pub(crate) names: Names,
    pub(crate) handles: Handles,
}

// By hand, so that a crate that owns one does not prove its parts' drops again.
impl Drop for Links {
    fn drop(self) {
        let Links {
            store,
            names,
            handles,
        } = self;
        drop(store);
        drop(names);
        drop(handles);
    }
}

impl Model for Links {
    ghost use Rattle.amqp_links.specs.Links.{LinksView};
    ghost use Rattle.amqp_links.specs.Index.{AreIndexed};
    ghost use Rattle.std.specs.Coded.{codes};
    ghost use Rattle.amqp_types.specs.contracts.value.Value as value;

    ghost Value = { LinksView };

    ghost coded = { Prim.hlevel (codes, value.the_row.coded) };

    ghost view = { λ s. s.store };

    ghost invariant = { λ s. AreIndexed s.names s.handles s.store };
}

impl Links {
    /// No link, and none was made.
    pub fn new(alloc: Global) -> Links
        ensures { result ≡ record { made = 0; list = [] } }
    {
        Links {
            store: Store::new(alloc),
            names: Names::new(alloc),
            handles: Handles::new(alloc),
        }
    }

    /// The link with this number, at its place.
    pub fn by_number(&self, number: u32) -> Option<Found<'_>>
        ensures { option_map found_link result ≡ find (has_number number) self.now.list }
    {
        self.store.by_number(number)
    }

    /// The link that the peer calls by this handle, at its place.
    pub fn by_peer_handle(&self, handle: u32) -> Option<Found<'_>>
        ensures { MatchOption result (find (has_peer_handle handle) self.now.list ≡ None) (λ f. IsFirst (has_peer_handle handle) self.now.list (found_link f)) }
    {
        self.store.by_peer_handle(handle)
    }

    /// The number of the link that is made next.
    pub fn made(&self) -> u32
        ensures { result ≡ self.now.made }
    {
        self.store.made()
    }

    /// What is told of deliveries waits on their links: each thing on the link that it names. It gives the numbers of these links, by which
    /// it can be taken back. Where memory is refused, nothing has changed.
    pub fn tell(&mut self, told: Vec<Told>) -> Result<Vec<u32>, AllocError>
        ensures next { OnOk result (self.new ≡ links_told told.items self.old) }
        ensures links { IfOk result (λ ns. ns.items ≡ map (λ t. t.link) told.items) }
        ensures err { OnErr result (self.new ≡ self.old) }
    {
        self.store.tell(told)
    }

    /// Takes back what was told last, a thing for each of these links.
    pub fn untell(&mut self, links: Vec<u32>)
        ensures { (ts : List Telling) (ls : LinksView) → links.items ≡ map (λ t. t.link) ts → self.old ≡ links_told ts ls → self.new ≡ ls }
    {
        self.store.untell(links);
    }
}
