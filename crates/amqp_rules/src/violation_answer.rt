//! The operation by which a violation is answered.
ghost use Rattle.std.specs.Prelude.{◌≡◌, IfOk};
ghost use Rattle.amqp_rules.specs.ViolationAnswer.{violation_answer, ends_with, detaches_with};

use crate::op::Op;
use crate::violation::{Violation, ViolationKind};
use amqp_frames::AmqpError;
use amqp_types::{Boxed, Text};
use std::alloc::{AllocError, Global};

/// An error with this condition, which has no description.
fn error_of(alloc: Global, condition: &str) -> Result<Boxed<AmqpError>, AllocError>
    ensures { IfOk result (λ error. error ≡ record { condition = condition.now; description = None; info = None }) }
{
    let condition = Text::new(alloc, condition)?;
    Boxed::new(
        alloc,
        AmqpError {
            condition,
            description: None,
            info: None,
        },
    )
}

/// The session is ended.
fn end_with(alloc: Global, condition: &str) -> Result<Option<Op>, AllocError>
    ensures { IfOk result (λ op. op ≡ ends_with condition.now) }
{
    let error = error_of(alloc, condition)?;
    Ok(Some(Op::End { error: Some(error) }))
}

/// The link is detached, where one is named.
fn detach_with(alloc: Global, link: Option<u32>, condition: &str) -> Result<Option<Op>, AllocError>
    ensures { IfOk result (λ op. op ≡ detaches_with link condition.now) }
{
    let Some(link) = link else {
        return Ok(None);
    };
    let error = error_of(alloc, condition)?;
    Ok(Some(Op::Detach {
        link,
        error: Some(error),
    }))
}

impl Violation {
    /// The operation that answers it: an End, or a Detach of the link that broke its limit, with a condition of part 2, 2.8.15, 2.8.17 or 2.8.18.
    /// There is none where the connection is closed (the journal is full, or the frame is out of session), nor where memory was refused:
    /// then the frame is to be taken again.
    pub fn answer(&self, alloc: Global) -> Result<Option<Op>, AllocError>
        ensures { IfOk result (λ op. op ≡ violation_answer self.now) }
    {
        match self.kind {
            ViolationKind::BadHandle => end_with(alloc, "amqp:session:unattached-handle"),
            ViolationKind::HandleTaken => end_with(alloc, "amqp:session:handle-in-use"),
            ViolationKind::NameTaken => end_with(alloc, "amqp:not-allowed"),
            ViolationKind::CountAhead => end_with(alloc, "amqp:invalid-field"),
            ViolationKind::Window => end_with(alloc, "amqp:session:window-violation"),
            ViolationKind::MissingField => end_with(alloc, "amqp:invalid-field"),
            ViolationKind::IdOrder => end_with(alloc, "amqp:invalid-field"),
            ViolationKind::TagHeld => end_with(alloc, "amqp:invalid-field"),
            ViolationKind::Mode => end_with(alloc, "amqp:invalid-field"),
            ViolationKind::Credit => {
                detach_with(alloc, self.link, "amqp:link:transfer-limit-exceeded")
            }
            ViolationKind::TooLong => {
                detach_with(alloc, self.link, "amqp:link:message-size-exceeded")
            }
            ViolationKind::BadRange => end_with(alloc, "amqp:invalid-field"),
            ViolationKind::JournalFull => Ok(None),
            ViolationKind::OutOfSession => Ok(None),
            ViolationKind::NoMemory => Ok(None),
        }
    }
}
