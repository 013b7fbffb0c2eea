//! Why an operation is refused.
ghost use Rattle.std.specs.Prelude.{◌≡◌};
ghost use Rattle.amqp_rules.specs.RefusalNumbers.{refusal_number};

use std::error::Error;
use std::fmt;

/// Why an operation is refused. Where several hold, the one is told that comes first in the table of its operation: the one with the lowest number, but
/// that `NotWaiting` and `Unclear` come directly after `InDelivery`, and `TagTwice` directly after `HandleLimit`. A refused operation has changed
/// nothing.
#[derive(Clone, Copy, Debug, PartialEq, Eq)]
pub enum Refusal {
    NotRunning,
    JournalFull,
    AlreadyBegun,
    NotMapped,
    NoLink,
    NotAttached,
    WrongRole,
    NameInUse,
    HandleLimit,
    InDelivery,
    NotInDelivery,
    TagHeld,
    SettleMode,
    NoCredit,
    NoWindow,
    MessageTooLong,
    BadCredit,
    CreditRecedes,
    Draining,
    NotDraining,
    BadRange,
    NothingHeld,
    MustNotSettle,
    OutcomeFixed,
    Nothing,
    NotWritable,
    FrameTooBig,
    NoMemory,
    NotWaiting,
    Unclear,
    TagTwice,
}

impl Refusal {
    /// The number by which programs tell it: 1 to 31.
    pub fn number(&self) -> u8
        ensures { result ≡ refusal_number self.now }
    {
        self.told().0
    }

    /// Its number, and what it says.
    fn told(&self) -> (u8, &'static str)
        ensures { result.0 ≡ refusal_number self.now }
    {
        match self {
            Refusal::NotRunning => (1, "the connection is not running"),
            Refusal::JournalFull => (2, "the journal has as many steps as it may"),
            Refusal::AlreadyBegun => (3, "the session has begun"),
            Refusal::NotMapped => (4, "the session is not mapped"),
            Refusal::NoLink => (5, "there is no such link"),
            Refusal::NotAttached => (6, "the link is not attached"),
            Refusal::WrongRole => (7, "the link has the other role"),
            Refusal::NameInUse => (8, "a link of this role and name is there"),
            Refusal::HandleLimit => (9, "the peer allows no further handle"),
            Refusal::InDelivery => (10, "a delivery is unfinished on the link"),
            Refusal::NotInDelivery => (11, "no delivery is unfinished on the link"),
            Refusal::TagHeld => (12, "the tag is in use on the link"),
            Refusal::SettleMode => (13, "the link's settle mode does not allow it"),
            Refusal::NoCredit => (14, "the link has no credit"),
            Refusal::NoWindow => (15, "the peer's window is used up"),
            Refusal::MessageTooLong => (16, "the message is longer than the peer takes"),
            Refusal::BadCredit => (17, "the credit is past what serial numbers allow"),
            Refusal::CreditRecedes => (18, "the credit is below what was granted"),
            Refusal::Draining => (19, "the link is being drained"),
            Refusal::NotDraining => (20, "no drain was asked for"),
            Refusal::BadRange => (21, "the range of ids runs backwards"),
            Refusal::NothingHeld => (22, "no delivery of the range is held"),
            Refusal::MustNotSettle => (23, "the sender settles these deliveries"),
            Refusal::OutcomeFixed => (24, "the delivery has another outcome"),
            Refusal::Nothing => (25, "there is nothing to give"),
            Refusal::NotWritable => (26, "there is no such frame"),
            Refusal::FrameTooBig => (27, "the frame is longer than the peer takes"),
            Refusal::NoMemory => (28, "out of memory"),
            Refusal::NotWaiting => (29, "no delivery with the tag waits on the link"),
            Refusal::Unclear => (30, "the peer has not told whether it knows the delivery"),
            Refusal::TagTwice => (31, "two of the deliveries have one tag"),
        }
    }
}

impl fmt::Display for Refusal {
    fn fmt<W: fmt::Write>(&self, f: &mut fmt::Formatter<W>) -> fmt::Result {
        f.write_str(self.told().1)
    }
}

impl Error for Refusal {}
