//! What an endpoint is asked: it takes no memory, and changes nothing.
ghost use Rattle.std.specs.Prelude.{◌≡◌, find, length, option_map, slice_get};
ghost use Rattle.amqp_deliveries.specs.Change.{held_items};
ghost use Rattle.amqp_rules.specs.Status.{status_of, waiting_shown, windows_of};
ghost use Rattle.amqp_rules.specs.View.{has_number};
ghost use Rattle.amqp_steps.specs.Plan.{tables_in};

use crate::endpoint::Endpoint;
use crate::status::{LinkStatus, WindowView};
use amqp_deliveries::HeldItem;
use amqp_frames::Role;
use amqp_links::link::Link;
use amqp_types::Tag;
use amqp_waiting::Verdict;

impl Endpoint {
    /// How many steps it has accepted.
    pub fn steps(&self) -> u32
        ensures { result ≡ self.now.steps }
    {
        self.steps
    }

    /// In octets: the longest frame that the peer takes (part 2, 2.7.1); 512 before it told one.
    pub fn max_frame(&self) -> u32
        ensures { result ≡ self.now.max_frame }
    {
        self.session.max_frame
    }

    /// The windows, as they stand (part 2, 2.5.6).
    pub fn windows(&self) -> WindowView
        ensures { result ≡ windows_of self.now }
    {
        let windows = &self.session.windows;
        WindowView {
            next_in: windows.next_incoming(),
            incoming: windows.incoming(),
            next_out: windows.next_outgoing(),
            remote_in: windows.remote_incoming(),
            remote_out: windows.remote_outgoing(),
            next_delivery: self.session.next_delivery(),
        }
    }

    /// The link with this number, as it stands; none where there is none. O(log n) for n links.
    pub fn status(&self, link: u32) -> Option<LinkStatus>
        ensures { result ≡ status_of self.now link }
    {
        match self.stores.links.by_number(link) {
            Some(found) => Some(found.link.status()),
            None => None,
        }
    }

    /// The link with this number, and with it what both attaches told that stays: handles, settle modes, the greatest messages, sources and targets
    /// (part 2, 2.7.3); none where there is none. O(log n) for n links.
    pub fn link_of(&self, link: u32) -> Option<&Link>
        ensures { option_map (λ l. l.now) result ≡ find (has_number link) self.now.links }
    {
        match self.stores.links.by_number(link) {
            Some(found) => Some(found.link),
            None => None,
        }
    }

    /// The delivery that waits at this place on the link with this number to be resumed: its tag, and what becomes of it (part 2, 2.6.13). None past
    /// the last, or where there is no such link. O(log n) for n links.
    pub fn waiting_at(&self, link: u32, i: usize) -> Option<(&Tag, Verdict)>
        ensures tag { option_map (λ p. p.0.now) result ≡ option_map (λ p. p.0) (waiting_shown self.now link i) }
        ensures verdict { option_map (λ p. p.1) result ≡ option_map (λ p. p.1) (waiting_shown self.now link i) }
    {
        match self.stores.links.by_number(link) {
            Some(found) => found.link.waiting_at(i),
            None => None,
        }
    }

    /// How many deliveries are unsettled of those on which we have this role (part 2, 2.6.12).
    pub fn unsettled_len(&self, role: Role) -> usize
        ensures { result ≡ length (held_items role (tables_in self.now)) }
    {
        self.stores.tables.unsettled_len(role)
    }

    /// One of them, in the order in which they began.
    pub fn unsettled_at(&self, role: Role, i: usize) -> Option<&HeldItem>
        ensures { option_map (λ x. x.now) result ≡ slice_get (held_items role (tables_in self.now)) i }
    {
        self.stores.tables.unsettled_at(role, i)
    }
}
