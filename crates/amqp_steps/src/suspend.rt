//! Why the detach of a link that we put aside is not sent (part 2, 2.6.4 and 2.6.6).
ghost use Rattle.std.specs.Prelude.{◌≡◌, None, []};
ghost use Rattle.amqp_rules.specs.Detach.{detach_body};
ghost use Rattle.amqp_rules.specs.Sending.{frame_refused};

use crate::sending::measured_refusal;
use amqp_frames::measure_detach;
use amqp_rules::refusal::Refusal;

/// Why a detach that does not close the link is not sent to a peer that takes frames of `max` octets. It asks for no memory.
pub fn parting_refusal(handle: u32, max: u32) -> Option<Refusal>
    ensures { result ≡ frame_refused max (detach_body handle None None) [] }
{
    let error = None;
    measured_refusal(measure_detach(handle, None, &error, max))
}
