//! End: we end the session, and all its links are gone (part 2, 2.5.2 and 2.7.8).
ghost use Rattle.std.specs.Prelude.{◌≡◌};
ghost use Rattle.std.specs.Result.{result_err};
ghost use Rattle.amqp_rules.specs.End.{end_answer, next_end};
ghost use Rattle.amqp_steps.specs.Plan.{Plans};

use crate::endpoint::Endpoint;
use crate::refusal::Refusal;
use crate::reply::Given;
use amqp_deliveries::Change;
use amqp_frames::{AmqpError, EndBody, Performative, measure_end};
use amqp_links::fate::Fate;
use amqp_performatives::copying::copy_error;
use amqp_steps::plan::{Plan, plan_sending};
use amqp_steps::sending::measured_refusal;
use amqp_types::Boxed;

impl Endpoint {
    /// The refusal that is due.
    pub(crate) fn refuse_end(&self, error: &Option<Boxed<AmqpError>>) -> Option<Refusal>
        ensures { result ≡ result_err (end_answer self.now error.now) }
    {
        if !self.session.is_mapped() {
            return Some(Refusal::NotMapped);
        }
        measured_refusal(measure_end(error, self.session.max_frame))
    }

    /// Ends the session. All links and all unsettled deliveries are gone.
    pub(crate) fn plan_end(&self, error: &Option<Boxed<AmqpError>>) -> Result<Plan, Refusal>
        ensures { Plans Refusal.NoMemory self.now (end_answer self.now error.now) (next_end self.now) result }
    {
        if let Some(refusal) = self.refuse_end(error) {
            return Err(refusal);
        }
        let Ok(error) = copy_error(error) else {
            return Err(Refusal::NoMemory);
        };
        let mut session = self.session;
        session.end_sent = true;
        plan_sending(
            self.alloc,
            session,
            Fate::AllGone,
            Change::Over,
            Some(Performative::End(EndBody { error })),
            Given::Nothing,
        )
    }
}
