//! The text of an answer of the command `conn`.

use crate::answer::{write_given, write_sliced};
use amqp_conn::{ConnFault, Phase};
use amqp_endpoint::reply::Given;
use amqp_endpoint::violation::ViolationKind;
use amqp_journal::unit::Unit;
use std::fmt;
use std::fmt::{Formatter, Write};

/// What one feed told.
#[derive(Drop)]
pub enum Told {
    /// It made a step, which gives this.
    Step(Given),
    /// It answered a frame that violates this.
    Violation(ViolationKind),
    /// It ended the connection.
    Fault(ConnFault),
}

/// The answer to a line that was done or refused; its text has no newline.
#[derive(Drop)]
pub enum Answer<'a> {
    /// Octets were fed: what each feed told, where the connection stands, and the units that came out.
    Fed(&'a [Told], Phase, &'a [Unit]),
    /// An operation was done, and gives this.
    Stepped(&'a Given, Phase, &'a [Unit]),
    /// It was done, and gives nothing.
    Done(Phase, &'a [Unit]),
    Refused(u32),
    BadLine,
}

impl fmt::Display for Answer<'_> {
    fn fmt<W: Write>(&self, f: &mut Formatter<W>) -> fmt::Result {
        match self {
            Answer::Fed(told, phase, units) => {
                f.write_str("ok told=")?;
                write_told(told, f)?;
                f.write_str(" ")?;
                write_state(*phase, units, f)
            }
            Answer::Stepped(given, phase, units) => {
                f.write_str("ok given=")?;
                write_given(given, f)?;
                f.write_str(" ")?;
                write_state(*phase, units, f)
            }
            Answer::Done(phase, units) => {
                f.write_str("ok ")?;
                write_state(*phase, units, f)
            }
            Answer::Refused(number) => write!(f, "refused {number}"),
            Answer::BadLine => f.write_str("bad line"),
        }
    }
}

fn write_told<W: Write>(told: &[Told], f: &mut Formatter<W>) -> fmt::Result {
    if told.is_empty() {
        return f.write_str("-");
    }
    for (place, one) in told.iter().enumerate() {
        if place > 0 {
            f.write_str(",")?;
        }
        match one {
            Told::Step(given) => write_given(given, f)?,
            Told::Violation(kind) => write!(f, "violation:{}", kind.number())?,
            Told::Fault(ConnFault::Framing(fault)) => write!(f, "fault:2.{}", fault.number())?,
            Told::Fault(fault) => write!(f, "fault:{}", fault.number())?,
        }
    }
    Ok(())
}

fn write_state<W: Write>(phase: Phase, units: &[Unit], f: &mut Formatter<W>) -> fmt::Result {
    let phase = phase_word(phase);
    write!(f, "phase={phase} units=")?;
    if units.is_empty() {
        return f.write_str("-");
    }
    for (place, unit) in units.iter().enumerate() {
        if place > 0 {
            f.write_str(",")?;
        }
        write_sliced(&unit.bytes, f)?;
    }
    Ok(())
}

fn phase_word(phase: Phase) -> &'static str {
    match phase {
        Phase::AwaitHeader => "awaitheader",
        Phase::AwaitOpen => "awaitopen",
        Phase::Running => "running",
        Phase::Closing => "closing",
        Phase::Closed => "closed",
    }
}
