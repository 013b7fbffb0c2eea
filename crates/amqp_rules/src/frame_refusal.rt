//! A frame's refusal as that of the operation that sends the frame.

use crate::refusal::Refusal;
use amqp_frames::FrameRefusal;

impl From<FrameRefusal> for Refusal {
    ghost use Rattle.std.specs.Prelude.{◌≡◌};
    ghost use Rattle.amqp_rules.specs.Sending.{told};

    ghost from_gives = { λ fault refusal. refusal ≡ told fault };

    fn from(fault: FrameRefusal) -> Refusal {
        match fault {
            FrameRefusal::NotWritable => Refusal::NotWritable,
            FrameRefusal::FrameTooBig => Refusal::FrameTooBig,
            FrameRefusal::NoMemory => Refusal::NoMemory,
        }
    }
}
