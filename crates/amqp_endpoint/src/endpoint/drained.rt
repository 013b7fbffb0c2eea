//! Drained: the credit that is left is given up, as the peer's drain wishes (part 2, 2.6.7).
ghost use Rattle.std.specs.Prelude.{◌≡◌, [], Err, MatchResult};
ghost use Rattle.amqp_flow.specs.Sender.{sender_drained};
ghost use Rattle.amqp_rules.specs.Drained.{drained, drained_refusals, drained_answer, next_drained};
ghost use Rattle.amqp_steps.specs.Taking.{IsTaken};
ghost use Rattle.amqp_steps.specs.Drafting.{Drafts};

use crate::endpoint::Endpoint;
use crate::refusal::Refusal;
use amqp_flow::sender::SenderCredit;
use amqp_links::credit::Credit;
use amqp_steps::drafting::{Draft, draft_flow};
use amqp_steps::onlink::OnLink;
use amqp_steps::telling::sender_flow;

/// The credit once what is left of it is given up.
fn drained(mut sender: SenderCredit) -> SenderCredit
    ensures { result ≡ sender_drained sender }
{
    sender.drain();
    sender
}

impl Endpoint {
    /// The first refusal that is due, or the link as it will be.
    fn check_drained(&self, link: u32) -> Result<OnLink, Refusal>
        ensures { MatchResult result (IsTaken self.now link drained_refusals drained) (λ e. drained_answer self.now link ≡ Err e) }
    {
        if !self.session.is_mapped() {
            return Err(Refusal::NotMapped);
        }
        let Some(found) = self.stores.links.by_number(link) else {
            return Err(Refusal::NoLink);
        };
        let l = found.link;
        if !l.is_attached() {
            return Err(Refusal::NotAttached);
        }
        let mut marks = l.marks();
        let Some(sender) = marks.credit.sending() else {
            return Err(Refusal::WrongRole);
        };
        if !sender.is_draining() {
            return Err(Refusal::NotDraining);
        }
        marks.credit = Credit::Sending(drained(sender));
        Ok(OnLink {
            key: found.key,
            handle: l.our_handle(),
            marks,
        })
    }

    /// Gives up the credit that is left. O(log n) for n links.
    pub(crate) fn draft_drained(&self, link: u32) -> Result<Draft, Refusal>
        ensures { Drafts self.now (drained_answer self.now link) (next_drained self.now link) [] result }
    {
        let on = self.check_drained(link)?;
        let told = sender_flow(&self.session.windows, on.handle, &on.marks, Some(true));
        Ok(draft_flow(self.session, on.fate(link), told))
    }
}
