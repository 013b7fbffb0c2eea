//! Dispose: we tell the state of unsettled deliveries, and may settle them (part 2, 2.6.12 and 2.7.6).
ghost use Rattle.std.specs.Prelude.{◌≡◌};
ghost use Rattle.amqp_rules.specs.Dispose.{dispose_answer, next_dispose};
ghost use Rattle.std.specs.Result.{result_err};
ghost use Rattle.amqp_steps.specs.Disposing.{said_in};
ghost use Rattle.amqp_steps.specs.Plan.{Plans};

use crate::endpoint::Endpoint;
use crate::refusal::Refusal;
use crate::reply::Given;
use amqp_deliveries::Change;
use amqp_frames::Role;
use amqp_links::fate::Fate;
use amqp_steps::dispose::{Said, dispose_body, dispose_refusal, held_refusal, is_backwards};
use amqp_steps::plan::Plan;
use amqp_steps::sending::write;
use bytes::Bytes;

impl Endpoint {
    /// The refusal that is due.
    pub(crate) fn refuse_dispose(&self, role: Role, said: Said<'_>) -> Option<Refusal>
        ensures { result ≡ result_err (dispose_answer self.now role (said_in said.entry)) }
    {
        if !self.session.is_mapped() {
            return Some(Refusal::NotMapped);
        }
        if is_backwards(said.first, said.last) {
            return Some(Refusal::BadRange);
        }
        if let Some(refusal) = held_refusal(self.stores.tables.of(role), role, said) {
            return Some(refusal);
        }
        dispose_refusal(role, said, self.session.max_frame)
    }

    /// Tells a state of the unsettled deliveries that this covers, of those on which we have the role, or settles them.
    /// With n unsettled deliveries, k of them covered: O(log n), and k steps.
    pub(crate) fn plan_dispose(&self, role: Role, said: Said<'_>) -> Result<Plan, Refusal>
        ensures { Plans Refusal.NoMemory self.now (dispose_answer self.now role (said_in said.entry)) (next_dispose self.now role (said_in said.entry)) result }
    {
        if let Some(refusal) = self.refuse_dispose(role, said) {
            return Err(refusal);
        }
        let Ok(sent) = said.kept() else {
            return Err(Refusal::NoMemory);
        };
        let Ok(kept) = said.kept() else {
            drop(sent);
            return Err(Refusal::NoMemory);
        };
        let body = dispose_body(role, sent);
        let Ok(sent) = write(self.alloc, body, Bytes::new(), self.session.max_frame) else {
            drop(kept);
            return Err(Refusal::NoMemory);
        };
        Ok(Plan {
            session: self.session,
            fate: Fate::Stay,
            change: Change::Says(role, kept),
            sent: Some(sent),
            given: Given::Nothing,
        })
    }
}
