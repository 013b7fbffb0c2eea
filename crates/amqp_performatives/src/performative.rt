//! The nine performatives (part 2, 2.7).
ghost use Rattle.std.specs.Prelude.{◌≡◌};

use crate::bodies::{
    AttachBody, BeginBody, CloseBody, DetachBody, DispositionBody, EndBody, FlowBody, OpenBody,
    TransferBody,
};
use amqp_types::Boxed;
use std::alloc::AllocError;

/// What a frame says (part 2, 2.7). The three bodies that come once for a connection, a session or a link stand behind a pointer, so that the
/// others, which come with each delivery, are narrow.
#[derive(Debug, PartialEq, Eq, Drop)]
pub enum Performative {
    Open(Boxed<OpenBody>),
    Begin(Boxed<BeginBody>),
    Attach(Boxed<AttachBody>),
    Flow(FlowBody),
    Transfer(TransferBody),
    Disposition(DispositionBody),
    Detach(DetachBody),
    End(EndBody),
    Close(CloseBody),
}

impl Clone for Performative {
    ghost is_clone = { λ a b. b ≡ a };

    fn clone(&self) -> Result<Performative, AllocError> {
        Ok(match self {
            Performative::Open(body) => Performative::Open(body.clone()?),
            Performative::Begin(body) => Performative::Begin(body.clone()?),
            Performative::Attach(body) => Performative::Attach(body.clone()?),
            Performative::Flow(body) => Performative::Flow(body.clone()?),
            Performative::Transfer(body) => Performative::Transfer(body.clone()?),
            Performative::Disposition(body) => Performative::Disposition(body.clone()?),
            Performative::Detach(body) => Performative::Detach(body.clone()?),
            Performative::End(body) => Performative::End(body.clone()?),
            Performative::Close(body) => Performative::Close(body.clone()?),
        })
    }
}
