//! Why a link, a session or a connection ended before its time.
use amqp_conn::{AmqpError, Conn, Op, Performative, Text, error_of};
use amqp_journal::entry::{Entry, Step};
use amqp_policy::Shown;
use std::alloc::AllocError;
use std::fmt;
use std::fmt::{Display, Formatter};

/// The error by which either end has left the link, the session or the connection (part 2, 2.8.14).
#[derive(Drop)]
pub(crate) struct Reason {
    /// This end has answered a frame that breaks a rule; `false`: the peer sent the error.
    is_ours: bool,
    condition: Text,
    description: Option<Text>,
    /// The kind of that frame, if it is known.
    frame: Option<FrameKind>,
}

/// The kinds of frames that may break a rule of a session or a link.
#[derive(Clone, Copy)]
enum FrameKind {
    Attach,
    Flow,
    Transfer,
    Disposition,
    Detach,
}

impl FrameKind {
    fn name(self) -> &'static str {
        match self {
            FrameKind::Attach => "attach",
            FrameKind::Flow => "flow",
            FrameKind::Transfer => "transfer",
            FrameKind::Disposition => "disposition",
            FrameKind::Detach => "detach",
        }
    }
}

/// The peer does not recover links (part 2, 2.6.13).
const NOT_IMPLEMENTED: &str = "amqp:not-implemented";

impl Reason {
    /// The peer has answered that it has no such feature.
    pub(crate) fn is_not_implemented(&self) -> bool {
        !self.is_ours && self.condition.as_str() == NOT_IMPLEMENTED
    }
}

impl Display for Reason {
    fn fmt<W: fmt::Write>(&self, f: &mut Formatter<W>) -> fmt::Result {
        f.write_str(if self.is_ours { "violation " } else { "told " })?;
        write!(f, "{}", Shown(self.condition.as_str()))?;
        if let Some(description) = &self.description {
            write!(f, " {}", Shown(description.as_str()))?;
        }
        match self.frame {
            Some(frame) => {
                let name = frame.name();
                write!(f, ": the peer sent a {name} that it may not send")
            }
            None => Ok(()),
        }
    }
}

fn copy_text(text: &Option<Text>) -> Result<Option<Text>, AllocError> {
    match text {
        Some(text) => Ok(Some(text.clone()?)),
        None => Ok(None),
    }
}

fn reason_of(
    error: &AmqpError,
    is_ours: bool,
    frame: Option<FrameKind>,
) -> Result<Reason, AllocError> {
    let description = copy_text(&error.description)?;
    match error.condition.clone() {
        Ok(condition) => Ok(Reason {
            is_ours,
            condition,
            description,
            frame,
        }),
        Err(error) => {
            drop(description);
            Err(error)
        }
    }
}

/// The error by which the peer leaves something, in an entry that heard it.
fn heard_in(step: &Step) -> Option<&AmqpError> {
    match step {
        Step::Heard(frame) => error_of(frame.get()),
        _ => None,
    }
}

/// The error by which this end answers a violation. Nothing else of ours leaves a link or a session with an error.
fn answered_in(step: &Step) -> Option<&AmqpError> {
    match step {
        Step::Own(
            Op::Detach {
                error: Some(error),
                ..
            },
        ) => Some(error.get()),
        Step::Own(Op::End { error: Some(error) }) => Some(error.get()),
        _ => None,
    }
}

/// The kind of the frame that an entry heard: the one that broke a rule is heard again behind the answer to it.
fn frame_in(entry: Option<&Entry>) -> Option<FrameKind> {
    match entry {
        Some(entry) => match &entry.step {
            Step::Heard(frame) => kind_of(&frame.get().body),
            _ => None,
        },
        None => None,
    }
}

fn kind_of(body: &Option<Performative>) -> Option<FrameKind> {
    match body {
        Some(Performative::Attach(_)) => Some(FrameKind::Attach),
        Some(Performative::Flow(_)) => Some(FrameKind::Flow),
        Some(Performative::Transfer(_)) => Some(FrameKind::Transfer),
        Some(Performative::Disposition(_)) => Some(FrameKind::Disposition),
        Some(Performative::Detach(_)) => Some(FrameKind::Detach),
        _ => None,
    }
}

/// Returns the first error by which either end left the link or the session, in the entries that are kept, or else that of the peer's close.
///
/// # Errors
///
/// `AllocError` if memory runs out.
pub(crate) fn reason_in(conn: &Conn) -> Result<Option<Reason>, AllocError> {
    let entries = conn.logged().journal();
    for place in 0..entries.len() {
        let step = &entries[place].step;
        if let Some(error) = heard_in(step) {
            return Ok(Some(reason_of(error, false, None)?));
        }
        if let Some(error) = answered_in(step) {
            let frame = frame_in(entries.get(place.saturating_add(1)));
            return Ok(Some(reason_of(error, true, frame)?));
        }
    }
    match conn.ended_by() {
        Some(error) => Ok(Some(reason_of(error, false, None)?)),
        None => Ok(None),
    }
}

/// Whether either end has left the link, the session or the connection with an error, as far as the entries that are kept say.
pub(crate) fn has_reason(conn: &Conn) -> bool {
    conn.ended_by().is_some()
        || conn.logged().journal().iter().any(|entry| heard_in(&entry.step).is_some()
            || answered_in(&entry.step).is_some())
}
