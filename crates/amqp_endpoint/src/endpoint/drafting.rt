//! A step that sends a frame, as it is drafted: before the frame is measured, or written.
ghost use Rattle.std.specs.Prelude.{◌≡◌, Result};
ghost use Rattle.std.specs.Result.{result_err};
ghost use Rattle.amqp_steps.specs.Drafting.{Drafts};
ghost use Rattle.amqp_steps.specs.Plan.{Plans};
ghost use Rattle.amqp_rules.specs.View.{View};

use crate::endpoint::Endpoint;
use crate::refusal::Refusal;
use crate::reply::{Given, Reply};
use amqp_steps::drafting::Draft;
use amqp_steps::plan::Plan;
use amqp_steps::sending::{sending_refusal, write_sharing};
use bytes::Bytes;

impl Endpoint {
    /// The refusal that is due to a step that was drafted so, whose frame has this payload.
    pub(crate) fn refuse_draft(
        &self,
        draft: Result<Draft, Refusal>,
        payload: &[u8],
    ) -> Option<Refusal>
        ensures { (answer : Result Reply Refusal) (after : View) → Drafts self.now answer after payload.now draft → result ≡ result_err answer }
    {
        match draft {
            Err(refusal) => Some(refusal),
            Ok(draft) => {
                let Draft {
                    fate,
                    change,
                    body,
                    ..
                } = draft;
                drop(change);
                drop(fate);
                sending_refusal(body, payload, self.session.max_frame)
            }
        }
    }

    /// The plan of a step that was drafted so, whose frame has this payload.
    pub(crate) fn plan_draft(
        &self,
        draft: Result<Draft, Refusal>,
        payload: &Bytes,
    ) -> Result<Plan, Refusal>
        ensures { (answer : Result Reply Refusal) (after : View) → Drafts self.now answer after payload.now draft → Plans Refusal.NoMemory self.now answer after result }
    {
        let draft = match draft {
            Ok(draft) => draft,
            Err(refusal) => return Err(refusal),
        };
        let Draft {
            session,
            fate,
            change,
            body,
        } = draft;
        match write_sharing(self.alloc, body, payload, self.session.max_frame) {
            Ok(sent) => Ok(Plan {
                session,
                fate,
                change,
                sent: Some(sent),
                given: Given::Nothing,
            }),
            Err(refusal) => {
                drop(change);
                drop(fate);
                Err(refusal)
            }
        }
    }
}
