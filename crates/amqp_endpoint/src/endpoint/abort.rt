//! Abort: the unfinished delivery is given up, and ended (part 2, 2.7.5).
ghost use Rattle.std.specs.Prelude.{◌≡◌, [], ◌<◌, ◌^◌, Err, IfOk, MatchResult};
ghost use Rattle.amqp_rules.specs.Abort.{abort_answer, next_abort};
ghost use Rattle.amqp_steps.specs.Taking.{IsAborted};
ghost use Rattle.amqp_steps.specs.Drafting.{Drafts};

use crate::endpoint::Endpoint;
use crate::refusal::Refusal;
use amqp_deliveries::Change;
use amqp_frames::Role;
use amqp_links::credit::same_role;
use amqp_steps::abort::Aborted;
use amqp_steps::carry::{later_body, sent};
use amqp_steps::drafting::Draft;
use amqp_steps::onlink::OnLink;

impl Endpoint {
    /// The first refusal that is due, or the delivery that is given up.
    fn check_abort(&self, link: u32) -> Result<Aborted, Refusal>
        ensures taken { MatchResult result (IsAborted self.now link) (λ e. abort_answer self.now link ≡ Err e) }
        ensures window { IfOk result (λ o. 0 < self.now.windows.remote_incoming) }
    {
        if !self.session.is_mapped() {
            return Err(Refusal::NotMapped);
        }
        let Some(found) = self.stores.links.by_number(link) else {
            return Err(Refusal::NoLink);
        };
        let l = found.link;
        if !l.is_attached() {
            return Err(Refusal::NotAttached);
        }
        if !same_role(Role::Sender, l.role()) {
            return Err(Refusal::WrongRole);
        }
        let Some(unfinished) = l.sending() else {
            return Err(Refusal::NotInDelivery);
        };
        if self.session.windows.remote_incoming() == 0 {
            return Err(Refusal::NoWindow);
        }
        let mut marks = l.marks();
        marks.sending = None;
        Ok(Aborted {
            id: unfinished.id,
            on: OnLink {
                key: found.key,
                handle: l.our_handle(),
                marks,
            },
        })
    }

    /// Gives the unfinished delivery up. O(log n) for n links, and for as many unsettled deliveries.
    pub(crate) fn draft_abort(&self, link: u32) -> Result<Draft, Refusal>
        requires { self.now.steps < 2 ^ 30 }
        ensures { Drafts self.now (abort_answer self.now link) (next_abort self.now link) [] result }
    {
        let aborted = self.check_abort(link)?;
        let on = aborted.on;
        Ok(Draft {
            session: sent(self.session),
            fate: on.fate(link),
            change: Change::Continues(Role::Sender, aborted.id, None, true),
            body: later_body(on.handle, None, Some(true)),
        })
    }
}
