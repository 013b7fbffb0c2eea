//! Dispositions that reach ahead of what was heard.
ghost use Rattle.std.specs.Prelude.{◌≡◌};
ghost use Rattle.amqp_world.specs.Knowing.{reaches_ahead};

use crate::heard::Hearing;
use amqp_flow::serial::Serial;
use amqp_frames::Role;
use amqp_rules::op::Op;

/// The operation disposes received deliveries, and one of its ids is of none whose first transfer was heard. A range that runs backwards has no ids.
pub(crate) fn reaches_ahead(op: &Op, hearing: &Hearing) -> bool
    ensures { result ≡ reaches_ahead op.now hearing.now }
{
    match op {
        Op::Dispose {
            role: Role::Receiver,
            first,
            last,
            ..
        } => {
            let before = Serial(hearing.first_id).distance(Serial(*first));
            let length = Serial(*first).distance(Serial(*last));
            length < Serial::HALF && before as u64 + length as u64 >= hearing.firsts as u64
        }
        _ => false,
    }
}
