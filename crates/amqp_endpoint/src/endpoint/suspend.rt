//! Suspend: we put a link aside (part 2, 2.6.4 and 2.6.6). What is unsettled on it is given.
ghost use Rattle.std.specs.Prelude.{◌≡◌, Err, IfOk, MatchResult};
ghost use Rattle.amqp_links.specs.Rejoining.{all_aside};
ghost use Rattle.amqp_rules.specs.Suspend.{next_suspend, put_aside, suspend_answer};
ghost use Rattle.amqp_steps.specs.Plan.{Plans};
ghost use Rattle.amqp_steps.specs.Taking.{IsPutAside};

use crate::endpoint::Endpoint;
use crate::refusal::Refusal;
use crate::reply::{Given, Suspended};
use amqp_deliveries::Change;
use amqp_frames::{DetachBody, Performative, Role};
use amqp_links::fate::Fate;
use amqp_links::found::Found;
use amqp_links::link::Link;
use amqp_steps::plan::Plan;
use amqp_steps::sending::write;
use amqp_steps::suspend::parting_refusal;
use amqp_types::Boxed;
use bytes::Bytes;
use std::alloc::AllocError;

impl Endpoint {
    /// The first refusal that is due, or the link.
    pub(crate) fn check_suspend(&self, link: u32) -> Result<Found<'_>, Refusal>
        ensures { MatchResult result (λ f. IsPutAside self.now link f.link.now) (λ e. suspend_answer self.now link ≡ Err e) }
    {
        if !self.session.is_mapped() {
            return Err(Refusal::NotMapped);
        }
        let Some(found) = self.stores.links.by_number(link) else {
            return Err(Refusal::NoLink);
        };
        let l = found.link;
        if !l.is_attached() {
            return Err(Refusal::NotAttached);
        }
        match parting_refusal(l.our_handle(), self.session.max_frame) {
            Some(refusal) => Err(refusal),
            None => Ok(found),
        }
    }

    /// The link, with what goes with it.
    pub(crate) fn put_aside(&self, link: &Link) -> Result<Boxed<Suspended>, AllocError>
        ensures { IfOk result (λ s. s ≡ put_aside self.now link.now) }
    {
        let held = self.stores.tables.of(link.role());
        let aside = link.put_aside(held)?;
        Boxed::new(self.alloc, aside)
    }

    /// Puts a link aside: it is left as by a detach, and what is unsettled on it is given. O(log n + u + r log r) for n links, u unsettled
    /// deliveries, and r that wait on it to be taken.
    pub(crate) fn plan_suspend(&self, link: u32) -> Result<Plan, Refusal>
        ensures { Plans Refusal.NoMemory self.now (suspend_answer self.now link) (next_suspend self.now link) result }
    {
        let found = self.check_suspend(link)?;
        let Ok(aside) = self.put_aside(found.link) else {
            return Err(Refusal::NoMemory);
        };
        let body = DetachBody {
            handle: found.link.our_handle(),
            closed: None,
            error: None,
        };
        let body = Some(Performative::Detach(body));
        let Ok(sent) = write(self.alloc, body, Bytes::new(), self.session.max_frame) else {
            return Err(Refusal::NoMemory);
        };
        Ok(Plan {
            session: self.session,
            fate: Fate::Left {
                key: found.key,
                number: link,
            },
            change: Change::Leaves(link),
            sent: Some(sent),
            given: Given::Suspended(aside),
        })
    }

    /// All links of the role that can be rejoined, as each would be put aside, in order: for a connection that was lost (part 2, 2.6.13). O(n · u) for
    /// n links and u unsettled deliveries of the role.
    pub fn links_aside(&self, role: Role) -> Result<Vec<Suspended>, AllocError>
        ensures { IfOk result (λ v. v.items ≡ all_aside self.now role) }
    {
        self.stores
            .links
            .put_aside(role, self.stores.tables.of(role))
    }
}
