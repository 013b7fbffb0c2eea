//! A flow that is heard.
ghost use Rattle.std.specs.Prelude.{◌≡◌, true, false, Some};
ghost use Rattle.std.specs.Result.{result_err};
ghost use Rattle.amqp_links.specs.Links.{IsFirst};
ghost use Rattle.amqp_steps.specs.Flowing.{echo_plan, IsStill};
ghost use Rattle.amqp_steps.specs.Plan.{Checks, Plans};
ghost use Rattle.amqp_rules.specs.Flow.{flow_answer, next_flow};
ghost use Rattle.amqp_rules.specs.Refusing.{no_memory};
ghost use Rattle.amqp_rules.specs.View.{has_peer_handle, takes_frames};

use crate::endpoint::Endpoint;
use crate::violation::{Violation, ViolationKind};
use amqp_frames::FlowBody;
use amqp_links::fate::Fate;
use amqp_links::link::Link;
use amqp_steps::peer_flow::{
    Flowing, flow_in_return, heard_marks, heard_session, plan_echo, sends_echo,
};
use amqp_steps::plan::Plan;
use amqp_steps::telling::session_flow;

impl Endpoint {
    /// A flow of the session alone, or of a link that we have left: all links stay as they are.
    fn check_still_flow(&self, b: &FlowBody) -> Result<Flowing, Violation>
        requires takes { takes_frames self.now.session ≡ true }
        requires still { IsStill self.now b.now }
        ensures { Checks self.now (flow_answer self.now b.now) (next_flow self.now b.now) echo_plan result }
    {
        let Some(session) = heard_session(b, self.session) else {
            return Err(Violation::unlinked(ViolationKind::CountAhead));
        };
        let echo = sends_echo(&session, b);
        let body = session_flow(&session.windows);
        Ok(Flowing {
            session,
            fate: Fate::Stay,
            echo,
            body,
        })
    }

    /// A flow of a link that we have not left.
    fn check_link_flow(
        &self,
        b: &FlowBody,
        handle: u32,
        key: usize,
        l: &Link,
    ) -> Result<Flowing, Violation>
        requires takes { takes_frames self.now.session ≡ true }
        requires names { b.now.handle ≡ Some handle }
        requires called { IsFirst (has_peer_handle handle) self.now.links l.now }
        requires left { l.now.left ≡ false }
        ensures { Checks self.now (flow_answer self.now b.now) (next_flow self.now b.now) echo_plan result }
    {
        let Some(session) = heard_session(b, self.session) else {
            return Err(Violation::unlinked(ViolationKind::CountAhead));
        };
        let Some(marks) = heard_marks(b, l) else {
            return Err(Violation::unlinked(ViolationKind::CountAhead));
        };
        let echo = sends_echo(&session, b);
        let body = flow_in_return(&session.windows, l, &marks);
        let fate = Fate::Marked {
            key,
            number: l.number(),
            marks,
        };
        Ok(Flowing {
            session,
            fate,
            echo,
            body,
        })
    }

    /// What a flow violates, or what it leaves. O(log n) for n links.
    fn check_flow(&self, b: &FlowBody) -> Result<Flowing, Violation>
        ensures { Checks self.now (flow_answer self.now b.now) (next_flow self.now b.now) echo_plan result }
    {
        if !self.session.takes_frames() {
            return Err(Violation::unlinked(ViolationKind::OutOfSession));
        }
        let Some(handle) = b.handle else {
            return self.check_still_flow(b);
        };
        let Some(found) = self.stores.links.by_peer_handle(handle) else {
            return Err(Violation::unlinked(ViolationKind::BadHandle));
        };
        if found.link.has_left() {
            self.check_still_flow(b)
        } else {
            self.check_link_flow(b, handle, found.key, found.link)
        }
    }

    /// What a flow violates.
    pub(crate) fn flow_violation(&self, b: &FlowBody) -> Option<Violation>
        ensures { result ≡ result_err (flow_answer self.now b.now) }
    {
        match self.check_flow(b) {
            Ok(flowing) => {
                drop(flowing);
                None
            }
            Err(violation) => Some(violation),
        }
    }

    /// A flow that is heard. O(log n) for n links.
    pub(crate) fn plan_flow(&self, b: &FlowBody) -> Result<Plan, Violation>
        ensures { Plans no_memory self.now (flow_answer self.now b.now) (next_flow self.now b.now) result }
    {
        match self.check_flow(b) {
            Ok(flowing) => plan_echo(self.alloc, flowing),
            Err(violation) => Err(violation),
        }
    }
}
