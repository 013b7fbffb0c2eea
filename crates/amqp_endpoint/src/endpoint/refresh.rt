//! Refresh: the peer is told our window anew, and may be asked to tell its own (part 2, 2.5.6).
ghost use Rattle.std.specs.Prelude.{◌≡◌, [], Some};
ghost use Rattle.amqp_rules.specs.Refresh.{next_refresh, refresh_answer, refresh_body};
ghost use Rattle.amqp_steps.specs.Drafting.{Drafts};

use crate::endpoint::Endpoint;
use crate::refusal::Refusal;
use amqp_flow::windows::Windows;
use amqp_frames::{FlowBody, Performative};
use amqp_links::fate::Fate;
use amqp_steps::drafting::{Draft, draft_flow};
use amqp_steps::telling::{flag, session_flow};

fn refresh_flow(windows: &Windows, echo: bool) -> FlowBody
    ensures { Some (Performative.Flow result) ≡ refresh_body windows.now echo }
{
    let mut told = session_flow(windows);
    told.echo = flag(echo);
    told
}

impl Endpoint {
    /// Tells the session's windows, and renews ours. O(1).
    pub(crate) fn draft_refresh(&self, echo: bool) -> Result<Draft, Refusal>
        ensures { Drafts self.now (refresh_answer self.now echo) (next_refresh self.now) [] result }
    {
        if !self.session.is_mapped() {
            return Err(Refusal::NotMapped);
        }
        let told = refresh_flow(&self.session.windows, echo);
        Ok(draft_flow(self.session, Fate::Stay, told))
    }
}
