//! Offer: the peer is told how many messages are available (part 2, 2.6.7).
ghost use Rattle.std.specs.Prelude.{◌≡◌, [], Err, MatchResult};
ghost use Rattle.amqp_performatives.specs.declared.bodies.Role.TheVariants.{Sender};
ghost use Rattle.amqp_steps.specs.Taking.{IsTaken};
ghost use Rattle.amqp_rules.specs.Offer.{offered, offer_answer, next_offer};
ghost use Rattle.amqp_rules.specs.OnLink.{attached_as};
ghost use Rattle.amqp_steps.specs.Drafting.{Drafts};

use crate::endpoint::Endpoint;
use crate::refusal::Refusal;
use amqp_steps::drafting::{Draft, draft_flow};
use amqp_steps::onlink::OnLink;
use amqp_steps::telling::standing_flow;

impl Endpoint {
    /// The first refusal that is due, or the link as it will be.
    fn check_offer(&self, link: u32, available: u32) -> Result<OnLink, Refusal>
        ensures { MatchResult result (IsTaken self.now link (λ l. attached_as Sender l []) (offered available)) (λ e. offer_answer self.now link available ≡ Err e) }
    {
        if !self.session.is_mapped() {
            return Err(Refusal::NotMapped);
        }
        let Some(found) = self.stores.links.by_number(link) else {
            return Err(Refusal::NoLink);
        };
        let l = found.link;
        if !l.is_attached() {
            return Err(Refusal::NotAttached);
        }
        let mut marks = l.marks();
        if marks.credit.sending().is_none() {
            return Err(Refusal::WrongRole);
        }
        marks.available = available;
        Ok(OnLink {
            key: found.key,
            handle: l.our_handle(),
            marks,
        })
    }

    /// How many messages are available. O(log n) for n links.
    pub(crate) fn draft_offer(&self, link: u32, available: u32) -> Result<Draft, Refusal>
        ensures { Drafts self.now (offer_answer self.now link available) (next_offer self.now link available) [] result }
    {
        let on = self.check_offer(link, available)?;
        let told = standing_flow(&self.session.windows, on.handle, &on.marks);
        Ok(draft_flow(self.session, on.fate(link), told))
    }
}
