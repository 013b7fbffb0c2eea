//! Entries of a journal.

use amqp_frames::Frame;
use amqp_rules::op::Op;
use amqp_rules::reply::Reply;
use amqp_types::Boxed;

/// What happened to the endpoint: the peer's longest frame was told, an operation of the application, or a frame that was heard, behind a pointer
/// since it is wider than an operation.
#[derive(Debug, PartialEq, Eq, Drop)]
pub enum Step {
    Opened(u32),
    Own(Op),
    Heard(Boxed<Frame>),
}

/// A step that was accepted, with its reply.
#[derive(Debug, PartialEq, Eq, Drop)]
pub struct Entry {
    pub step: Step,
    pub reply: Reply,
}
