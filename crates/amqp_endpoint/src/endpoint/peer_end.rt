//! An end that is heard: the session has ended, and all its links are gone (part 2, 2.5.2 and 2.7.8).
ghost use Rattle.std.specs.Prelude.{◌≡◌};
ghost use Rattle.std.specs.Result.{result_err};
ghost use Rattle.amqp_rules.specs.PeerEnd.{end_heard_answer, next_end_heard};
ghost use Rattle.amqp_rules.specs.Refusing.{no_memory};
ghost use Rattle.amqp_steps.specs.Plan.{Plans};

use crate::endpoint::Endpoint;
use crate::reply::Given;
use crate::violation::{Violation, ViolationKind};
use amqp_deliveries::Change;
use amqp_frames::{EndBody, Performative};
use amqp_links::fate::Fate;
use amqp_steps::plan::{Plan, plan_answering, plan_quiet};

impl Endpoint {
    /// What the frame violates.
    pub(crate) fn end_violation(&self) -> Option<Violation>
        ensures { result ≡ result_err (end_heard_answer self.now) }
    {
        if self.session.is_ending() || self.session.takes_frames() {
            None
        } else {
            Some(Violation::unlinked(ViolationKind::OutOfSession))
        }
    }

    /// Takes an end of the peer's, and answers it where the session is mapped.
    pub(crate) fn plan_peer_end(&self) -> Result<Plan, Violation>
        ensures { Plans no_memory self.now (end_heard_answer self.now) (next_end_heard self.now) result }
    {
        if let Some(violation) = self.end_violation() {
            return Err(violation);
        }
        let mut session = self.session;
        session.end_heard = true;
        match self.session.is_mapped() {
            true => plan_answering(
                self.alloc,
                session,
                Fate::AllGone,
                Change::Over,
                Some(Performative::End(EndBody { error: None })),
                Given::Nothing,
            ),
            false => Ok(plan_quiet(session, Fate::AllGone, Change::Over, Given::Nothing)),
        }
    }
}
