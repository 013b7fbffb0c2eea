//! Beat: an empty frame, by which the peer knows that we are there (part 2, 2.4.5).
ghost use Rattle.std.specs.Prelude.{[]};
ghost use Rattle.amqp_rules.specs.Beat.{beat_answer, next_beat};
ghost use Rattle.amqp_steps.specs.Drafting.{Drafts};

use crate::endpoint::Endpoint;
use crate::refusal::Refusal;
use amqp_deliveries::Change;
use amqp_links::fate::Fate;
use amqp_steps::drafting::Draft;

impl Endpoint {
    /// Sends an empty frame. O(1).
    pub(crate) fn draft_beat(&self) -> Result<Draft, Refusal>
        ensures { Drafts self.now (beat_answer self.now) (next_beat self.now) [] result }
    {
        Ok(Draft {
            session: self.session,
            fate: Fate::Stay,
            change: Change::Stay,
            body: None,
        })
    }
}
