//! A link that we leave for good, and why its detach is not sent (part 2, 2.6.6 and 2.7.7).
ghost use Rattle.std.specs.Prelude.{◌≡◌, true, Some, []};
ghost use Rattle.amqp_rules.specs.Detach.{detach_body};
ghost use Rattle.amqp_rules.specs.Sending.{frame_refused};

use crate::sending::measured_refusal;
use amqp_frames::{AmqpError, measure_detach};
use amqp_rules::refusal::Refusal;
use amqp_types::Boxed;

/// A link that is left: where it was found, and our handle of it.
#[derive(Clone, Copy)]
pub struct Leaving {
    pub key: usize,
    pub handle: u32,
}

/// Why a detach is not sent to a peer that takes frames of `max` octets. It asks for no memory.
pub fn detach_refusal(handle: u32, error: &Option<Boxed<AmqpError>>, max: u32) -> Option<Refusal>
    ensures { result ≡ frame_refused max (detach_body handle (Some true) error.now) [] }
{
    measured_refusal(measure_detach(handle, Some(true), error, max))
}
