//! Laws of the definitions: the frames of each reply have octets.
ghost use Rattle.amqp_frames.specs.declared.frame.Frame.{Frame};
ghost use Rattle.amqp_rules.specs.declared.op.Op.{Op};
ghost use Rattle.amqp_rules.specs.declared.reply.Reply.{Reply};
ghost use Rattle.amqp_rules.specs.View.{View};
ghost use Rattle.amqp_rules.specs.Answer.{own_answer, heard_answer};
ghost use Rattle.amqp_rules.specs.Ranges.{IsInRange, IsBodyInRange};
ghost use Rattle.amqp_rules.specs.Written.{AllWritten};
ghost use Rattle.std.specs.Prelude.{◌≡◌, Ok};

/// A reply sends one frame at most, and that has octets: for an operation at most as many as the peer takes, for a frame that is heard
/// at most 512, which each peer takes (part 2, 2.4.1). So once no refusal or violation is due, want of memory alone stands against a reply.
pub fn written()
    ensures own { (v : View) (op : Op) (reply : Reply) → own_answer v op ≡ Ok reply → AllWritten v.max_frame reply }
    ensures heard { (v : View) (f : Frame) (reply : Reply) → IsInRange v → IsBodyInRange f.body → heard_answer v f ≡ Ok reply → AllWritten 512 reply }
{}
