//! How much an end heard of the other.
ghost use Rattle.std.specs.Prelude.{◌≡◌, ◌<◌, ◌^◌};
ghost use Rattle.amqp_world.specs.Knowing.{begins, unheard, having_heard, having_done};

use amqp_frames::{Frame, Performative};
use amqp_rules::op::Op;

/// How much an end heard of the other.
#[derive(Clone, Copy, Debug, PartialEq, Eq)]
pub struct Heard {
    /// The frames with a body.
    pub frames: u32,
    /// Of these the first transfers of deliveries (part 2, 2.7.5), but for those that are dropped after its own end (part 2, 2.5.5).
    pub firsts: u32,
}

/// How far an end has heard the other.
#[derive(Clone, Copy)]
pub(crate) struct Hearing {
    /// How many frames with a body.
    pub frames: u32,
    /// How many first transfers, but for those that are dropped.
    pub firsts: u32,
    /// All that the entries before this place in the other's journal sent was heard, and nothing that comes after.
    pub place: usize,
    /// The id of the other's first delivery.
    pub first_id: u32,
    /// Its own end was sent.
    pub ended: bool,
}

impl Hearing {
    /// Nothing was heard of an end whose first delivery has this id.
    pub fn new(first_id: u32) -> Hearing
        ensures { result ≡ unheard first_id }
    {
        Hearing {
            frames: 0,
            firsts: 0,
            place: 0,
            first_id,
            ended: false,
        }
    }

    /// The frame at the place was heard.
    pub fn hear(&mut self, frame: &Frame)
        requires frames { self.old.frames < 2 ^ 30 }
        requires firsts { self.old.firsts < 2 ^ 30 }
        requires place { self.old.place < 2 ^ 63 }
        ensures { self.new ≡ having_heard frame.now self.old }
    {
        if !self.ended && begins(frame) {
            self.firsts += 1;
        }
        self.frames += 1;
        self.place += 1;
    }

    /// The operation was done.
    pub fn own(&mut self, op: &Op)
        ensures { self.new ≡ having_done op.now self.old }
    {
        if let Op::End { .. } = op {
            self.ended = true;
        }
    }
}

/// The frame begins a delivery: only a first transfer has an id.
fn begins(frame: &Frame) -> bool
    ensures { result ≡ begins frame.now }
{
    match &frame.body {
        Some(Performative::Transfer(transfer)) => transfer.delivery_id.is_some(),
        _ => false,
    }
}
