//! What the attach of a peer is answered with (part 2, 2.6.3).
ghost use Rattle.std.specs.Prelude.{◌≡◌};
ghost use Rattle.amqp_serve.specs.Answering.{node_answer, source_answer, target_answer, answer_of};

use amqp_performatives::Role;

/// An end of a link, as the peer's attach describes it.
#[derive(Clone, Copy, Debug, PartialEq, Eq)]
pub enum Terminus {
    /// The field is absent.
    Absent,
    /// A source or a target (part 3, 3.5.3 and 3.5.4).
    Node {
        has_address: bool,
        /// The peer asks for a node that is made for this link (part 3, 3.5.3).
        is_dynamic: bool,
    },
    /// A coordinator of transactions (part 4, 4.5.1).
    Coordinator,
    /// A value that is none of these.
    Unknown,
}

/// Why a link or a message is refused.
#[derive(Clone, Copy, Debug, PartialEq, Eq)]
pub enum Reason {
    NotImplemented,
    InvalidField,
    /// The address named a node that is gone.
    NotFound,
    /// There are as many addresses as there may be.
    TooMany,
    /// The message does not say where it goes.
    NoAddress,
}

impl Reason {
    /// Returns the error condition (part 2, 2.8.15).
    pub fn condition(self) -> &'static str {
        match self {
            Reason::NotImplemented => "amqp:not-implemented",
            Reason::InvalidField => "amqp:invalid-field",
            Reason::NotFound => "amqp:not-found",
            Reason::TooMany => "amqp:resource-limit-exceeded",
            Reason::NoAddress => "amqp:precondition-failed",
        }
    }

    /// Returns the description of the error.
    pub fn description(self) -> &'static str {
        match self {
            Reason::NotImplemented => "there is no such kind of node here",
            Reason::InvalidField => "the node has no address",
            Reason::NotFound => "there is no node of this address any more",
            Reason::TooMany => "there are as many addresses as there may be",
            Reason::NoAddress => "the message has no address in its field `to`",
        }
    }
}

/// What an attach is answered with.
#[derive(Clone, Copy, Debug, PartialEq, Eq)]
pub enum Answer {
    /// The queue of the address that the peer names, or of the link's name if the attach has no such end.
    Queue,
    /// A queue with an address that is made up, both of which last as long as the link.
    Temporary,
    /// The link goes to no queue: each message names its own.
    ByMessage,
    /// An attach without a source or target, and a detach with an error.
    Refused(Reason),
}

fn node_answer(has_address: bool, is_dynamic: bool, otherwise: Answer) -> Answer
    ensures { result ≡ node_answer has_address is_dynamic otherwise }
{
    if is_dynamic {
        return Answer::Temporary;
    }
    if has_address {
        return Answer::Queue;
    }
    otherwise
}

fn source_answer(source: Terminus) -> Answer
    ensures { result ≡ source_answer source }
{
    match source {
        Terminus::Absent => Answer::Queue,
        Terminus::Node {
            has_address,
            is_dynamic,
        } => node_answer(
            has_address,
            is_dynamic,
            Answer::Refused(Reason::InvalidField),
        ),
        Terminus::Coordinator | Terminus::Unknown => Answer::Refused(Reason::NotImplemented),
    }
}

fn target_answer(target: Terminus) -> Answer
    ensures { result ≡ target_answer target }
{
    match target {
        Terminus::Absent => Answer::Queue,
        Terminus::Node {
            has_address,
            is_dynamic,
        } => node_answer(has_address, is_dynamic, Answer::ByMessage),
        Terminus::Coordinator | Terminus::Unknown => Answer::Refused(Reason::NotImplemented),
    }
}

/// Returns what the attach of a peer is answered with, by the role of our end. Only the end that is ours decides.
pub fn answer_of(role: Role, source: Terminus, target: Terminus) -> Answer
    ensures { result ≡ answer_of role source target }
{
    match role {
        Role::Sender => source_answer(source),
        Role::Receiver => target_answer(target),
    }
}
