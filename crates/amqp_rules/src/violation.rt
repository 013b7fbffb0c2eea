//! What a frame of the peer violates.
ghost use Rattle.std.specs.Prelude.{◌≡◌};
ghost use Rattle.amqp_rules.specs.ViolationNumbers.{violation_number};
ghost use Rattle.amqp_rules.specs.Refusing.{unlinked};

use std::error::Error;
use std::fmt;

/// What a frame of the peer's violates. Where several hold, the one with the lowest number is told.
#[derive(Clone, Copy, Debug, PartialEq, Eq)]
pub enum ViolationKind {
    JournalFull,
    OutOfSession,
    BadHandle,
    HandleTaken,
    NameTaken,
    CountAhead,
    Window,
    MissingField,
    IdOrder,
    TagHeld,
    Mode,
    Credit,
    TooLong,
    BadRange,
    NoMemory,
}

impl ViolationKind {
    /// The number by which programs tell it: 1 to 15.
    pub fn number(&self) -> u8
        ensures { result ≡ violation_number self.now }
    {
        self.told().0
    }

    /// Its number, and what it says.
    fn told(&self) -> (u8, &'static str)
        ensures { result.0 ≡ violation_number self.now }
    {
        match self {
            ViolationKind::JournalFull => (1, "the journal has as many steps as it may"),
            ViolationKind::OutOfSession => (2, "the session does not await this frame"),
            ViolationKind::BadHandle => (3, "no link has this handle"),
            ViolationKind::HandleTaken => (4, "a link has this handle"),
            ViolationKind::NameTaken => (5, "the peer has attached this link"),
            ViolationKind::CountAhead => (6, "a count is ahead of what was sent"),
            ViolationKind::Window => (7, "the window is used up"),
            ViolationKind::MissingField => (8, "a field is missing"),
            ViolationKind::IdOrder => (9, "the delivery id is out of order"),
            ViolationKind::TagHeld => (10, "the tag is in use on the link"),
            ViolationKind::Mode => (11, "the link's settle mode does not allow it"),
            ViolationKind::Credit => (12, "the link has no credit"),
            ViolationKind::TooLong => (13, "the message is too long"),
            ViolationKind::BadRange => (14, "the range of ids runs backwards"),
            ViolationKind::NoMemory => (15, "out of memory"),
        }
    }
}

impl fmt::Display for ViolationKind {
    fn fmt<W: fmt::Write>(&self, f: &mut fmt::Formatter<W>) -> fmt::Result {
        f.write_str(self.told().1)
    }
}

impl Error for ViolationKind {}

/// A frame that is not taken; it has changed nothing. `link` is the number of the link that broke its credit or its message size.
#[derive(Clone, Copy, Debug, PartialEq, Eq, thiserror::Error)]
#[error("{kind}")]
pub struct Violation {
    pub kind: ViolationKind,
    pub link: Option<u32>,
}

impl Violation {
    /// The violation of this kind that names no link.
    pub fn unlinked(kind: ViolationKind) -> Violation
        ensures { result ≡ unlinked kind }
    {
        Violation { kind, link: None }
    }
}
