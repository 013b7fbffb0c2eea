//! Operations by which a link outlives its session (part 2, 2.6.13).
ghost use Rattle.std.specs.Prelude.{◌≡◌};
ghost use Rattle.amqp_world.specs.Calls.{resumes};

use amqp_rules::op::Op;

/// The operation puts a link aside, brings one back or resumes a delivery.
pub(crate) fn resumes(op: &Op) -> bool
    ensures { result ≡ resumes op.now }
{
    matches!(op, Op::Suspend { .. } | Op::Rejoin(_) | Op::Resume { .. })
}
