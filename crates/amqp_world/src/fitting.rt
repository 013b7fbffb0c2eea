//! Numbers of 32 bits, as their types have it. The functions are for proofs alone, and do nothing.
ghost use Rattle.amqp_rules.specs.Ranges.{IsBodyInRange, IsOpInRange};

use amqp_frames::{Frame, Performative};
use amqp_rules::op::Op;

/// How many messages are available.
pub(crate) fn op_fits(op: &Op)
    ensures { IsOpInRange op.now }
{
    if let Op::Offer { available, .. } = op {
        let _available = *available;
    }
}

/// The credit that a flow gives.
pub(crate) fn body_fits(frame: &Frame)
    ensures { IsBodyInRange frame.now.body }
{
    if let Some(Performative::Flow(flow)) = &frame.body {
        if let Some(credit) = &flow.link_credit {
            let _credit = *credit;
        }
    }
}
