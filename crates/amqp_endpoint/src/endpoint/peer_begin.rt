//! A begin that is heard (part 2, 2.5.1 and 2.7.2).
ghost use Rattle.std.specs.Prelude.{◌≡◌};
ghost use Rattle.std.specs.Result.{result_err};
ghost use Rattle.amqp_rules.specs.PeerBegin.{begin_heard_answer, next_begin_heard};
ghost use Rattle.amqp_rules.specs.Refusing.{no_memory};
ghost use Rattle.amqp_steps.specs.Plan.{Plans};

use crate::endpoint::Endpoint;
use crate::reply::Given;
use crate::violation::{Violation, ViolationKind};
use amqp_deliveries::Change;
use amqp_frames::BeginBody;
use amqp_links::fate::Fate;
use amqp_steps::plan::{Plan, plan_quiet};

impl Endpoint {
    /// What the frame violates.
    pub(crate) fn begin_violation(&self) -> Option<Violation>
        ensures { result ≡ result_err (begin_heard_answer self.now) }
    {
        if self.session.awaits_begin() {
            None
        } else {
            Some(Violation::unlinked(ViolationKind::OutOfSession))
        }
    }

    /// Takes the peer's begin: its windows, and how many handles it takes. O(1).
    pub(crate) fn plan_peer_begin(&self, b: &BeginBody) -> Result<Plan, Violation>
        ensures { Plans no_memory self.now (begin_heard_answer self.now) (next_begin_heard self.now b.now) result }
    {
        if let Some(violation) = self.begin_violation() {
            return Err(violation);
        }
        let mut session = self.session;
        session.begin_heard = true;
        session
            .windows
            .on_begin(b.next_outgoing_id, b.incoming_window, b.outgoing_window);
        session.handle_max = b.handle_max.unwrap_or(4294967295);
        Ok(plan_quiet(session, Fate::Stay, Change::Stay, Given::Nothing))
    }
}
