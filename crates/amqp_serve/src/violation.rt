//! Violations of a peer that were answered, to be printed.
use amqp_conn::{AmqpError, Conn, Frame, Op, Performative};
use amqp_journal::entry::{Entry, Step};

/// A violation of a peer, and what we answered.
#[derive(Drop)]
pub struct Violation {
    /// The name of the frame, once it is known.
    pub frame: Option<&'static str>,
    /// The name of the frame that answered it.
    pub answer: &'static str,
    /// The error condition of our answer.
    pub condition: amqp_conn::Text,
}

/// Returns the violation that the newest entry of the journal answered, if it did. Between two calls of a handler only an answer is a step of ours.
pub fn violation_in(conn: &Conn) -> Option<Violation> {
    let entry = conn.logged().journal().last()?;
    answered(entry)
}

fn answered(entry: &Entry) -> Option<Violation> {
    match &entry.step {
        Step::Own(
            Op::Detach {
                error: Some(error),
                ..
            },
        ) => answered_by("detach", error.get()),
        Step::Own(Op::End { error: Some(error) }) => answered_by("end", error.get()),
        _ => None,
    }
}

fn answered_by(answer: &'static str, error: &AmqpError) -> Option<Violation> {
    match error.condition.clone() {
        Ok(condition) => Some(Violation {
            frame: None,
            answer,
            condition,
        }),
        Err(_) => None,
    }
}

/// Returns the name of a frame's performative (part 2, 2.7).
pub fn frame_name(frame: &Frame) -> &'static str {
    match &frame.body {
        Some(Performative::Open(_)) => "open",
        Some(Performative::Begin(_)) => "begin",
        Some(Performative::Attach(_)) => "attach",
        Some(Performative::Flow(_)) => "flow",
        Some(Performative::Transfer(_)) => "transfer",
        Some(Performative::Disposition(_)) => "disposition",
        Some(Performative::Detach(_)) => "detach",
        Some(Performative::End(_)) => "end",
        Some(Performative::Close(_)) => "close",
        None => "frame",
    }
}
