//! A step that sends a frame, as it is drafted: before the frame is measured, or written.
ghost use Rattle.std.specs.Prelude.{◌≡◌};
ghost use Rattle.amqp_steps.specs.Drafting.{flow_draft};

use crate::plan::Session;
use amqp_deliveries::Change;
use amqp_frames::{FlowBody, Performative};
use amqp_links::fate::Fate;

/// A step that tells the application nothing and sends a frame: what it leaves, and the frame's body, which owns no memory.
#[derive(Drop)]
pub struct Draft {
    pub session: Session,
    pub fate: Fate,
    pub change: Change,
    pub body: Option<Performative>,
}

/// A step that sends a flow, which renews our window.
pub fn draft_flow(mut session: Session, fate: Fate, told: FlowBody) -> Draft
    ensures { result ≡ flow_draft session fate told }
{
    session.windows.renew();
    Draft {
        session,
        fate,
        change: Change::Stay,
        body: Some(Performative::Flow(told)),
    }
}
