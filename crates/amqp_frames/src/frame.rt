//! The frame that is read and written.
ghost use Rattle.std.specs.Prelude.{◌≡◌, [], None, IfOk};

use amqp_performatives::Performative;
use bytes::Bytes;
use std::alloc::AllocError;

/// An AMQP frame (part 2, 2.3): a performative on a channel, with the payload of a transfer.
/// Without a performative it is an empty frame, which only shows that the peer is alive (part 2, 2.4.5).
#[derive(Debug, PartialEq, Eq, Drop)]
pub struct Frame {
    pub channel: u16,
    pub body: Option<Performative>,
    /// The octets behind the performative; only a transfer can have some.
    pub payload: Bytes,
}

impl Frame {
    /// Creates an empty frame on channel 0, for use as the slot of [`Framer::feed_into`](crate::Framer::feed_into).
    ///
    /// It does not allocate.
    #[inline(always)]
    pub fn empty() -> Frame
        ensures { result ≡ record { channel = 0; body = None; payload = [] } }
    {
        Frame {
            channel: 0,
            body: None,
            payload: Bytes::new(),
        }
    }
}

impl Clone for Frame {
    ghost is_clone = { λ a b. b ≡ a };

    fn clone(&self) -> Result<Frame, AllocError> {
        copy(self.channel, &self.body, &self.payload)
    }
}

fn copy(channel: u16, body: &Option<Performative>, payload: &Bytes) -> Result<Frame, AllocError>
    ensures { IfOk result (λ frame. frame ≡ record { channel = channel; body = body.now; payload = payload.now }) }
{
    let payload = payload.clone()?;
    match copy_body(body) {
        Ok(body) => Ok(Frame {
            channel,
            body,
            payload,
        }),
        Err(error) => Err(error),
    }
}

fn copy_body(body: &Option<Performative>) -> Result<Option<Performative>, AllocError>
    ensures { IfOk result (λ copy. copy ≡ body.now) }
{
    match body {
        None => Ok(None),
        Some(performative) => Ok(Some(performative.clone()?)),
    }
}
