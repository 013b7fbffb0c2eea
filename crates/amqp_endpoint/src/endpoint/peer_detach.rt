//! A detach that is heard (part 2, 2.6.4, 2.6.6 and 2.7.7): the link is gone, for good or put aside.
ghost use Rattle.std.specs.Prelude.{◌≡◌, Err, IfOk, MatchResult};
ghost use Rattle.amqp_rules.specs.PeerDetach.{detach_heard_answer, next_detach_heard, parting};
ghost use Rattle.amqp_rules.specs.Refusing.{no_memory};
ghost use Rattle.amqp_steps.specs.Answered.{IsParting};
ghost use Rattle.amqp_steps.specs.Plan.{Plans};

use crate::endpoint::Endpoint;
use crate::reply::Given;
use crate::violation::{Violation, ViolationKind};
use amqp_deliveries::Change;
use amqp_frames::{DetachBody, Performative};
use amqp_links::fate::Fate;
use amqp_links::link::Link;
use amqp_steps::peer_detach::Parting;
use amqp_steps::plan::{Plan, plan_answering, plan_quiet};
use std::alloc::AllocError;

impl Endpoint {
    /// What the frame violates, or the link that is left.
    pub(crate) fn check_peer_detach(&self, body: &DetachBody) -> Result<Parting<'_>, Violation>
        ensures { MatchResult result (IsParting self.now body.now) (λ e. detach_heard_answer self.now body.now ≡ Err e) }
    {
        if !self.session.takes_frames() {
            return Err(Violation::unlinked(ViolationKind::OutOfSession));
        }
        let Some(found) = self.stores.links.by_peer_handle(body.handle) else {
            return Err(Violation::unlinked(ViolationKind::BadHandle));
        };
        let l = found.link;
        Ok(Parting {
            link: l,
            key: found.key,
            number: l.number(),
            handle: l.our_handle(),
            attached: l.is_attached(),
        })
    }

    /// What is told of an attached link that the peer leaves: that it is gone, or what goes with it where the peer does not close it.
    fn tell_parting(&self, body: &DetachBody, link: &Link) -> Result<Given, AllocError>
        ensures { IfOk result (λ g. g ≡ parting self.now body.now link.now) }
    {
        let number = link.number();
        if body.closed.unwrap_or(false) {
            return Ok(Given::Gone(number));
        }
        let aside = self.put_aside(link)?;
        Ok(Given::Parted(number, aside))
    }

    /// The peer leaves a link; where it is attached it is answered by a detach that is closed as the peer's is. O(log n) for n
    /// links; what comes of it goes over all unsettled deliveries.
    pub(crate) fn plan_peer_detach(&self, body: &DetachBody) -> Result<Plan, Violation>
        ensures { Plans no_memory self.now (detach_heard_answer self.now body.now) (next_detach_heard self.now body.now) result }
    {
        let parting = self.check_peer_detach(body)?;
        let number = parting.number;
        let fate = Fate::Gone {
            key: parting.key,
            number,
        };
        if !parting.attached {
            return Ok(plan_quiet(
                self.session,
                fate,
                Change::Leaves(number),
                Given::Gone(number),
            ));
        }
        let Ok(given) = self.tell_parting(body, parting.link) else {
            return Err(Violation::unlinked(ViolationKind::NoMemory));
        };
        let answer = DetachBody {
            handle: parting.handle,
            closed: body.closed,
            error: None,
        };
        plan_answering(
            self.alloc,
            self.session,
            fate,
            Change::Leaves(number),
            Some(Performative::Detach(answer)),
            given,
        )
    }
}
