//! A disposition that is heard (part 2, 2.6.12 and 2.7.6).
ghost use Rattle.std.specs.Prelude.{◌≡◌, IfOk};
ghost use Rattle.std.specs.Result.{result_err};
ghost use Rattle.amqp_rules.specs.Deliveries.{disposition_of};
ghost use Rattle.amqp_rules.specs.PeerDisposition.{disposition_answer, next_disposition};
ghost use Rattle.amqp_rules.specs.Refusing.{no_memory};
ghost use Rattle.amqp_rules.specs.View.{opposite};
ghost use Rattle.amqp_steps.specs.Plan.{Plans};

use crate::endpoint::Endpoint;
use crate::reply::Given;
use crate::violation::{Violation, ViolationKind};
use amqp_deliveries::{Change, Disposition};
use amqp_frames::DispositionBody;
use amqp_links::credit::opposite;
use amqp_links::fate::Fate;
use amqp_performatives::copying::copy_state;
use amqp_steps::dispose::is_backwards;
use amqp_steps::plan::{Plan, plan_quiet};
use std::alloc::AllocError;

/// What it says. An absent last is the first, an absent settled is false.
fn disposition_of(body: &DispositionBody) -> Result<Disposition, AllocError>
    ensures { IfOk result (λ d. d ≡ disposition_of body.now) }
{
    let state = copy_state(&body.state)?;
    Ok(Disposition {
        first: body.first,
        last: body.last.unwrap_or(body.first),
        settled: body.settled.unwrap_or(false),
        state,
    })
}

impl Endpoint {
    /// What the frame violates.
    pub(crate) fn disposition_violation(&self, body: &DispositionBody) -> Option<Violation>
        ensures { result ≡ result_err (disposition_answer self.now body.now) }
    {
        if !self.session.takes_frames() {
            return Some(Violation::unlinked(ViolationKind::OutOfSession));
        }
        if is_backwards(body.first, body.last.unwrap_or(body.first)) {
            return Some(Violation::unlinked(ViolationKind::BadRange));
        }
        None
    }

    /// The peer tells a state of deliveries, or settles them. With n unsettled deliveries, k of them covered: O(log n), and k steps.
    pub(crate) fn plan_peer_disposition(&self, body: &DispositionBody) -> Result<Plan, Violation>
        ensures { Plans no_memory self.now (disposition_answer self.now body.now) (next_disposition self.now body.now) result }
    {
        if let Some(violation) = self.disposition_violation(body) {
            return Err(violation);
        }
        let Ok(said) = disposition_of(body) else {
            return Err(Violation::unlinked(ViolationKind::NoMemory));
        };
        Ok(plan_quiet(
            self.session,
            Fate::Stay,
            Change::Hears(opposite(body.role), said),
            Given::Nothing,
        ))
    }
}
