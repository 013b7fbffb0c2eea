//! The command `explain`: what the number of a refusal, a violation or a fault says, with the section of the standard and the condition that the peer is sent.
ghost use Rattle.std.specs.Prelude.{ℕ, ◌≡◌, ◌⊎◌, Some, IfSome};
ghost use Rattle.amqp_conn.specs.Numbers.{fault_number};
ghost use Rattle.amqp_conn.specs.Octets.{condition, framing_condition};
ghost use Rattle.amqp_frames.specs.Numbers as framing;
ghost use Rattle.amqp_rules.specs.RefusalNumbers.{refusal_number};
ghost use Rattle.amqp_rules.specs.ViolationAnswer.{answer_to, detaches_with, ends_with};
ghost use Rattle.amqp_rules.specs.ViolationNumbers.{violation_number};

use amqp_conn::ConnFault;
use amqp_frames::FrameFault;
use amqp_rules::refusal::Refusal;
use amqp_rules::violation::ViolationKind;
use std::fmt::{Formatter, Write};
use std::{fmt, io};

/// The greatest number of a kind.
const MAX_NUMBER: u32 = 31;

/// The greatest number behind the point of a fault.
const MAX_PART: u32 = 6;

/// A kind of numbers.
#[derive(Clone, Copy, Debug)]
pub enum Kind {
    /// Of refusals, which `script` and `conn` print.
    Refusal,
    /// Of violations, which `script` and `conn` print.
    Violation,
    /// Of faults of a connection, which `conn` prints: `3`, and `2.5` for a fault of framing.
    Fault,
    /// Of faults of framing, which `frames` and `trace` print.
    Framing,
}

/// What is explained; its text has no newline.
#[derive(Clone, Copy, Debug)]
pub enum Explained {
    Refusal(Refusal),
    Violation(ViolationKind),
    Fault(ConnFault),
    Framing(FrameFault),
}

/// What `explain` prints.
#[derive(Clone, Copy, Debug)]
pub enum Explanation<'a> {
    /// The line of one number.
    One(Explained),
    /// The lines of all numbers of a kind.
    All(Kind),
    /// The lines of those violations and faults that the peer is sent as this condition.
    Sent(&'a str),
}

/// Where a rule stands: a section of the standard, or none for what this end sets itself.
type Section = Option<&'static str>;

/// Prints a line for each number that is explained.
///
/// # Errors
///
/// Those of the writer.
pub fn run_explain<W: io::Write>(explanation: Explanation<'_>, writer: &mut W) -> io::Result<()> {
    match explanation {
        Explanation::One(explained) => writeln!(writer, "{explained}")?,
        Explanation::All(kind) => print_all(kind, None, writer)?,
        Explanation::Sent(condition) => {
            print_all(Kind::Violation, Some(condition), writer)?;
            print_all(Kind::Fault, Some(condition), writer)?;
        }
    }
    writer.flush()
}

/// Prints a line for each number of the kind; with a condition for those alone that are sent as it.
fn print_all<W: io::Write>(kind: Kind, condition: Option<&str>, writer: &mut W) -> io::Result<()> {
    for number in 1..=MAX_NUMBER {
        for part in 0..=MAX_PART {
            if let Some(explained) = kind.find_if(number, part, condition) {
                writeln!(writer, "{explained}")?;
            }
        }
    }
    Ok(())
}

/// Returns true if the peer is sent the condition for a violation or a fault.
pub fn is_sent(condition: &str) -> bool {
    for number in 1..=MAX_NUMBER {
        for part in 0..=MAX_PART {
            if Kind::Violation
                .find_if(number, part, Some(condition))
                .is_some()
                || Kind::Fault.find_if(number, part, Some(condition)).is_some()
            {
                return true;
            }
        }
    }
    false
}

impl Kind {
    /// Returns what the number says. A fault of framing has a `part`, the number behind the point of `2.5`; else it is 0.
    pub fn find(self, number: u32, part: u32) -> Option<Explained> {
        match self {
            Kind::Fault => Some(Explained::Fault(find_fault(number, part)?)),
            _ if part > 0 => None,
            Kind::Refusal => Some(Explained::Refusal(find_refusal(number)?)),
            Kind::Violation => Some(Explained::Violation(find_violation(number)?)),
            Kind::Framing => Some(Explained::Framing(find_framing(number)?)),
        }
    }

    /// The same; with a condition only if the peer is sent it.
    fn find_if(self, number: u32, part: u32, condition: Option<&str>) -> Option<Explained> {
        let explained = self.find(number, part)?;
        let is_wanted = match (condition, explained.condition()) {
            (Some(wanted), Some(own)) => wanted == own,
            (Some(_), None) => false,
            (None, _) => true,
        };
        if is_wanted { Some(explained) } else { None }
    }
}

impl fmt::Display for Explained {
    fn fmt<W: Write>(&self, f: &mut Formatter<W>) -> fmt::Result {
        match self {
            Explained::Refusal(refusal) => write!(f, "refusal {}: {refusal}", refusal.number())?,
            Explained::Violation(kind) => write!(f, "violation {}: {kind}", kind.number())?,
            Explained::Fault(ConnFault::Framing(fault)) => {
                write!(f, "fault 2.{}: {fault}", fault.number())?
            }
            Explained::Fault(fault) => write!(f, "fault {}: {fault}", fault.number())?,
            Explained::Framing(fault) => write!(f, "framing fault {}: {fault}", fault.number())?,
        }
        write_section(self.section(), f)?;
        write_condition(self.condition(), f)
    }
}

impl Explained {
    fn section(self) -> Section {
        match self {
            Explained::Refusal(refusal) => refusal_section(refusal),
            Explained::Violation(kind) => violation_section(kind),
            Explained::Fault(fault) => fault_section(fault),
            Explained::Framing(fault) => framing_section(fault),
        }
    }

    /// Returns the condition that the peer is sent; `None` if it is sent none.
    fn condition(self) -> Option<&'static str> {
        match self {
            Explained::Refusal(_) => None,
            Explained::Violation(kind) => violation_condition(kind),
            Explained::Fault(fault) => fault_condition(fault),
            Explained::Framing(fault) => framing_condition(fault),
        }
    }
}

fn write_section<W: Write>(section: Section, f: &mut Formatter<W>) -> fmt::Result {
    match section {
        Some(section) => write!(f, " ({section})"),
        None => Ok(()),
    }
}

fn write_condition<W: Write>(condition: Option<&str>, f: &mut Formatter<W>) -> fmt::Result {
    match condition {
        Some(condition) => write!(f, "; the peer is sent {condition}"),
        None => Ok(()),
    }
}

/// The refusal with this number.
pub fn find_refusal(number: u32) -> Option<Refusal>
    ensures { IfSome result (λ refusal. refusal_number refusal ≡ number) }
{
    match number {
        1 => Some(Refusal::NotRunning),
        2 => Some(Refusal::JournalFull),
        3 => Some(Refusal::AlreadyBegun),
        4 => Some(Refusal::NotMapped),
        5 => Some(Refusal::NoLink),
        6 => Some(Refusal::NotAttached),
        7 => Some(Refusal::WrongRole),
        8 => Some(Refusal::NameInUse),
        9 => Some(Refusal::HandleLimit),
        10 => Some(Refusal::InDelivery),
        11 => Some(Refusal::NotInDelivery),
        12 => Some(Refusal::TagHeld),
        13 => Some(Refusal::SettleMode),
        14 => Some(Refusal::NoCredit),
        15 => Some(Refusal::NoWindow),
        16 => Some(Refusal::MessageTooLong),
        17 => Some(Refusal::BadCredit),
        18 => Some(Refusal::CreditRecedes),
        19 => Some(Refusal::Draining),
        20 => Some(Refusal::NotDraining),
        21 => Some(Refusal::BadRange),
        22 => Some(Refusal::NothingHeld),
        23 => Some(Refusal::MustNotSettle),
        24 => Some(Refusal::OutcomeFixed),
        25 => Some(Refusal::Nothing),
        26 => Some(Refusal::NotWritable),
        27 => Some(Refusal::FrameTooBig),
        28 => Some(Refusal::NoMemory),
        29 => Some(Refusal::NotWaiting),
        30 => Some(Refusal::Unclear),
        31 => Some(Refusal::TagTwice),
        _ => None,
    }
}

/// The violation with this number.
pub fn find_violation(number: u32) -> Option<ViolationKind>
    ensures { IfSome result (λ kind. violation_number kind ≡ number) }
{
    match number {
        1 => Some(ViolationKind::JournalFull),
        2 => Some(ViolationKind::OutOfSession),
        3 => Some(ViolationKind::BadHandle),
        4 => Some(ViolationKind::HandleTaken),
        5 => Some(ViolationKind::NameTaken),
        6 => Some(ViolationKind::CountAhead),
        7 => Some(ViolationKind::Window),
        8 => Some(ViolationKind::MissingField),
        9 => Some(ViolationKind::IdOrder),
        10 => Some(ViolationKind::TagHeld),
        11 => Some(ViolationKind::Mode),
        12 => Some(ViolationKind::Credit),
        13 => Some(ViolationKind::TooLong),
        14 => Some(ViolationKind::BadRange),
        15 => Some(ViolationKind::NoMemory),
        _ => None,
    }
}

/// The fault of a connection with this number; that of framing has the number 2, and its own as its part.
pub fn find_fault(number: u32, part: u32) -> Option<ConnFault>
    ensures { IfSome result (λ fault. fault_number fault ≡ number) }
{
    match (number, part) {
        (1, 0) => Some(ConnFault::BadHeader),
        (2, part) => Some(ConnFault::Framing(find_framing(part)?)),
        (3, 0) => Some(ConnFault::OutOfPlace),
        (4, 0) => Some(ConnFault::BadChannel),
        (5, 0) => Some(ConnFault::JournalFull),
        (6, 0) => Some(ConnFault::Closed),
        (7, 0) => Some(ConnFault::NoMemory),
        _ => None,
    }
}

/// The fault of framing with this number.
pub fn find_framing(number: u32) -> Option<FrameFault>
    ensures { IfSome result (λ fault. framing.fault_number fault ≡ number) }
{
    match number {
        1 => Some(FrameFault::ShortSize),
        2 => Some(FrameFault::BadDoff),
        3 => Some(FrameFault::TooBig),
        4 => Some(FrameFault::BadKind),
        5 => Some(FrameFault::BadBody),
        6 => Some(FrameFault::NoMemory),
        _ => None,
    }
}

fn refusal_section(refusal: Refusal) -> Section {
    match refusal {
        Refusal::NotRunning => Some("part 2, 2.4.6"),
        Refusal::AlreadyBegun => Some("part 2, 2.5.1"),
        Refusal::NotMapped => Some("part 2, 2.5.5"),
        Refusal::NotAttached => Some("part 2, 2.6.3"),
        Refusal::WrongRole => Some("part 2, 2.8.1"),
        Refusal::NameInUse => Some("part 2, 2.6.1"),
        Refusal::HandleLimit => Some("part 2, 2.7.2"),
        Refusal::InDelivery => Some("part 2, 2.6.14"),
        Refusal::NotInDelivery => Some("part 2, 2.6.14"),
        Refusal::TagHeld => Some("part 2, 2.6.12"),
        Refusal::SettleMode => Some("part 2, 2.8.2"),
        Refusal::NoCredit => Some("part 2, 2.6.7"),
        Refusal::NoWindow => Some("part 2, 2.5.6"),
        Refusal::MessageTooLong => Some("part 2, 2.7.3"),
        Refusal::BadCredit => Some("part 2, 2.8.10"),
        Refusal::CreditRecedes => Some("part 2, 2.6.7"),
        Refusal::Draining => Some("part 2, 2.6.7"),
        Refusal::NotDraining => Some("part 2, 2.6.7"),
        Refusal::BadRange => Some("part 2, 2.7.6"),
        Refusal::NothingHeld => Some("part 2, 2.7.6"),
        Refusal::MustNotSettle => Some("part 2, 2.8.3"),
        Refusal::OutcomeFixed => Some("part 3, 3.4"),
        Refusal::NotWritable => Some("part 2, 2.7"),
        Refusal::FrameTooBig => Some("part 2, 2.7.1"),
        Refusal::NotWaiting => Some("part 2, 2.6.13"),
        Refusal::Unclear => Some("part 2, 2.7.3"),
        Refusal::TagTwice => Some("part 2, 2.6.12"),
        Refusal::JournalFull => None,
        Refusal::NoLink => None,
        Refusal::Nothing => None,
        Refusal::NoMemory => None,
    }
}

fn violation_section(kind: ViolationKind) -> Section {
    match kind {
        ViolationKind::OutOfSession => Some("part 2, 2.5.5"),
        ViolationKind::BadHandle => Some("part 2, 2.6.2"),
        ViolationKind::HandleTaken => Some("part 2, 2.6.2"),
        ViolationKind::NameTaken => Some("part 2, 2.6.1"),
        ViolationKind::CountAhead => Some("part 2, 2.5.6 and 2.6.7"),
        ViolationKind::Window => Some("part 2, 2.5.6"),
        ViolationKind::MissingField => Some("part 2, 2.7.3 and 2.7.5"),
        ViolationKind::IdOrder => Some("part 2, 2.7.5"),
        ViolationKind::TagHeld => Some("part 2, 2.6.12"),
        ViolationKind::Mode => Some("part 2, 2.8.2"),
        ViolationKind::Credit => Some("part 2, 2.6.7"),
        ViolationKind::TooLong => Some("part 2, 2.7.3"),
        ViolationKind::BadRange => Some("part 2, 2.7.6"),
        ViolationKind::JournalFull => None,
        ViolationKind::NoMemory => None,
    }
}

fn fault_section(fault: ConnFault) -> Section {
    match fault {
        ConnFault::BadHeader => Some("part 2, 2.2"),
        ConnFault::Framing(fault) => framing_section(fault),
        ConnFault::OutOfPlace => Some("part 2, 2.4.1"),
        ConnFault::BadChannel => Some("part 2, 2.5.1"),
        ConnFault::JournalFull => None,
        ConnFault::Closed => None,
        ConnFault::NoMemory => None,
    }
}

fn framing_section(fault: FrameFault) -> Section {
    match fault {
        FrameFault::ShortSize => Some("part 2, 2.3.1"),
        FrameFault::BadDoff => Some("part 2, 2.3.1"),
        FrameFault::TooBig => Some("part 2, 2.7.1"),
        FrameFault::BadKind => Some("part 2, 2.3.1"),
        FrameFault::BadBody => Some("part 2, 2.3.2"),
        FrameFault::NoMemory => None,
    }
}

/// The condition of the end or of the detach that answers the violation; none if it is answered by neither.
fn violation_condition(kind: ViolationKind) -> Option<&'static str>
    ensures { IfSome result (λ own. (link : ℕ) → (answer_to kind (Some link) ≡ ends_with own.now) ⊎ (answer_to kind (Some link) ≡ detaches_with (Some link) own.now)) }
{
    match kind {
        ViolationKind::BadHandle => Some("amqp:session:unattached-handle"),
        ViolationKind::HandleTaken => Some("amqp:session:handle-in-use"),
        ViolationKind::NameTaken => Some("amqp:not-allowed"),
        ViolationKind::CountAhead => Some("amqp:invalid-field"),
        ViolationKind::Window => Some("amqp:session:window-violation"),
        ViolationKind::MissingField => Some("amqp:invalid-field"),
        ViolationKind::IdOrder => Some("amqp:invalid-field"),
        ViolationKind::TagHeld => Some("amqp:invalid-field"),
        ViolationKind::Mode => Some("amqp:invalid-field"),
        ViolationKind::Credit => Some("amqp:link:transfer-limit-exceeded"),
        ViolationKind::TooLong => Some("amqp:link:message-size-exceeded"),
        ViolationKind::BadRange => Some("amqp:invalid-field"),
        ViolationKind::JournalFull => None,
        ViolationKind::OutOfSession => None,
        ViolationKind::NoMemory => None,
    }
}

/// The condition of the close that the fault leads to; none if the peer is sent no close for it.
fn fault_condition(fault: ConnFault) -> Option<&'static str>
    ensures { IfSome result (λ own. own.now ≡ condition fault) }
{
    match fault {
        ConnFault::Framing(fault) => framing_condition(fault),
        ConnFault::OutOfPlace => Some("amqp:not-allowed"),
        ConnFault::BadChannel => Some("amqp:connection:framing-error"),
        ConnFault::JournalFull => Some("amqp:resource-limit-exceeded"),
        ConnFault::BadHeader => None,
        ConnFault::Closed => None,
        ConnFault::NoMemory => None,
    }
}

fn framing_condition(fault: FrameFault) -> Option<&'static str>
    ensures { IfSome result (λ own. own.now ≡ framing_condition fault) }
{
    match fault {
        FrameFault::BadBody => Some("amqp:decode-error"),
        FrameFault::ShortSize => Some("amqp:connection:framing-error"),
        FrameFault::BadDoff => Some("amqp:connection:framing-error"),
        FrameFault::TooBig => Some("amqp:connection:framing-error"),
        FrameFault::BadKind => Some("amqp:connection:framing-error"),
        FrameFault::NoMemory => None,
    }
}
