//! Grant: the peer may begin so many deliveries, or is asked to use them up (part 2, 2.6.7).
ghost use Rattle.std.specs.Prelude.{◌≡◌, [], Bool, Err, MatchResult};
ghost use Rattle.amqp_rules.specs.Grant.{granted_on, grant_refusals, grant_answer, next_grant};
ghost use Rattle.amqp_steps.specs.Taking.{IsTaken};
ghost use Rattle.amqp_steps.specs.Drafting.{Drafts};

use crate::endpoint::Endpoint;
use crate::refusal::Refusal;
use amqp_links::credit::Credit;
use amqp_steps::drafting::{Draft, draft_flow};
use amqp_steps::grant::{grant_flow, granted};
use amqp_steps::onlink::OnLink;

impl Endpoint {
    /// The first refusal that is due, or the link as it will be.
    fn check_grant(&self, link: u32, credit: u32, drain: bool) -> Result<OnLink, Refusal>
        ensures { (echo : Bool) → MatchResult result (IsTaken self.now link (λ l. grant_refusals l credit) (granted_on credit drain)) (λ e. grant_answer self.now link credit drain echo ≡ Err e) }
    {
        if !self.session.is_mapped() {
            return Err(Refusal::NotMapped);
        }
        let Some(found) = self.stores.links.by_number(link) else {
            return Err(Refusal::NoLink);
        };
        let l = found.link;
        if !l.is_attached() {
            return Err(Refusal::NotAttached);
        }
        let mut marks = l.marks();
        let Some(receiver) = marks.credit.receiving() else {
            return Err(Refusal::WrongRole);
        };
        match granted(receiver, credit, drain) {
            Err(refusal) => Err(refusal),
            Ok(after) => {
                marks.credit = Credit::Receiving(after);
                Ok(OnLink {
                    key: found.key,
                    handle: l.our_handle(),
                    marks,
                })
            }
        }
    }

    /// Gives credit to the peer. O(log n) for n links.
    pub(crate) fn draft_grant(
        &self,
        link: u32,
        credit: u32,
        drain: bool,
        echo: bool,
    ) -> Result<Draft, Refusal>
        ensures { Drafts self.now (grant_answer self.now link credit drain echo) (next_grant self.now link credit drain) [] result }
    {
        let on = self.check_grant(link, credit, drain)?;
        let told = grant_flow(&self.session.windows, on.handle, &on.marks, drain, echo);
        Ok(draft_flow(self.session, on.fate(link), told))
    }
}
