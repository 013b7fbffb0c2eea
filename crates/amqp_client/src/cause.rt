//! Why a link or the session ended before the program ended it, as the journal of the newest turn shows it.
use crate::links::OpenLinks;
use amqp_conn::{AmqpError, Frame, Given, Op, error_of};
use amqp_journal::entry::{Entry, Step};

/// Why a link or the session ended.
pub(crate) struct Cause {
    /// This end ended it, since the peer broke a rule.
    pub(crate) is_violation: bool,
    pub(crate) error: AmqpError,
}

// By hand, so that a crate that owns one does not prove its parts' drops again.
impl Drop for Cause {
    fn drop(self) {
        let Cause {
            is_violation: _,
            error,
        } = self;
        drop(error);
    }
}

/// What a frame or an answer of ours ends.
#[derive(Clone, Copy)]
enum Ends {
    Session,
    Link(u32),
}

/// Notes why links and the session ended, by the entries of a turn.
pub(crate) fn note_all(links: &mut OpenLinks, entries: &[Entry]) {
    if links.is_used() {
        for entry in entries {
            note(links, entry);
        }
    }
}

fn note(links: &mut OpenLinks, entry: &Entry) {
    match &entry.step {
        Step::Heard(frame) => note_heard(links, frame.get(), &entry.reply.given),
        Step::Own(op) => note_own(links, op),
        Step::Opened(_) => {}
    }
}

/// Notes the error of a detach or an end that the peer sent.
fn note_heard(links: &mut OpenLinks, frame: &Frame, given: &Given) {
    if let Some(error) = error_of(frame) {
        note_error(links, ended_by(given), false, error);
    }
}

/// What a frame with an error ends: a detach gives the link that is gone.
fn ended_by(given: &Given) -> Ends {
    match given {
        Given::Gone(link) => Ends::Link(*link),
        Given::Parted(link, _) => Ends::Link(*link),
        _ => Ends::Session,
    }
}

/// Notes the error of a detach or an end that answered a violation: no other operation of a client has one.
fn note_own(links: &mut OpenLinks, op: &Op) {
    match op {
        Op::Detach {
            link,
            error: Some(error),
        } => note_error(links, Ends::Link(*link), true, error.get()),
        Op::End { error: Some(error) } => note_error(links, Ends::Session, true, error.get()),
        _ => {}
    }
}

/// Notes a copy of the error. If memory runs out it is left out, and the end is reported without an error.
fn note_error(links: &mut OpenLinks, ends: Ends, is_violation: bool, error: &AmqpError) {
    let Ok(error) = error.clone() else {
        return;
    };
    let cause = Cause {
        is_violation,
        error,
    };
    match ends {
        Ends::Link(link) => links.end_link(link, cause),
        Ends::Session => links.end_session(cause),
    }
}
