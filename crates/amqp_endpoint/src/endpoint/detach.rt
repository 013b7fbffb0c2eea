//! Detach: we leave a link for good (part 2, 2.6.6 and 2.7.7).
ghost use Rattle.std.specs.Prelude.{◌≡◌, Err, MatchResult};
ghost use Rattle.amqp_rules.specs.Detach.{detach_answer, next_detach};
ghost use Rattle.amqp_steps.specs.Taking.{IsLeft};
ghost use Rattle.amqp_steps.specs.Plan.{Plans};

use crate::endpoint::Endpoint;
use crate::refusal::Refusal;
use crate::reply::Given;
use amqp_deliveries::Change;
use amqp_frames::{AmqpError, DetachBody, Performative};
use amqp_links::fate::Fate;
use amqp_performatives::copying::copy_error;
use amqp_steps::detach::{Leaving, detach_refusal};
use amqp_steps::plan::Plan;
use amqp_steps::sending::write;
use amqp_types::Boxed;
use bytes::Bytes;

impl Endpoint {
    /// The first refusal that is due, or where the link is.
    pub(crate) fn check_detach(
        &self,
        link: u32,
        error: &Option<Boxed<AmqpError>>,
    ) -> Result<Leaving, Refusal>
        ensures { MatchResult result (IsLeft self.now link error.now) (λ e. detach_answer self.now link error.now ≡ Err e) }
    {
        if !self.session.is_mapped() {
            return Err(Refusal::NotMapped);
        }
        let Some(found) = self.stores.links.by_number(link) else {
            return Err(Refusal::NoLink);
        };
        let l = found.link;
        if !l.is_attached() {
            return Err(Refusal::NotAttached);
        }
        let handle = l.our_handle();
        match detach_refusal(handle, error, self.session.max_frame) {
            Some(refusal) => Err(refusal),
            None => Ok(Leaving {
                key: found.key,
                handle,
            }),
        }
    }

    /// Leaves a link: what is unfinished on it is dropped, and its unsettled deliveries are ended. O(log n) for n links;
    /// what comes of it goes over all unsettled deliveries.
    pub(crate) fn plan_detach(
        &self,
        link: u32,
        error: &Option<Boxed<AmqpError>>,
    ) -> Result<Plan, Refusal>
        ensures { Plans Refusal.NoMemory self.now (detach_answer self.now link error.now) (next_detach self.now link) result }
    {
        let leaving = self.check_detach(link, error)?;
        let Ok(error) = copy_error(error) else {
            return Err(Refusal::NoMemory);
        };
        let body = DetachBody {
            handle: leaving.handle,
            closed: Some(true),
            error,
        };
        let body = Some(Performative::Detach(body));
        let Ok(sent) = write(self.alloc, body, Bytes::new(), self.session.max_frame) else {
            return Err(Refusal::NoMemory);
        };
        Ok(Plan {
            session: self.session,
            fate: Fate::Left {
                key: leaving.key,
                number: link,
            },
            change: Change::Leaves(link),
            sent: Some(sent),
            given: Given::Nothing,
        })
    }
}
