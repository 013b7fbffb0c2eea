//! The command `conn`: one connection that lines drive, with one answer each.
ghost use Rattle.std.specs.Prelude.{◌<◌, IfSome, length};
ghost use Rattle.amqp_journal.specs.Units.{waiting};

pub mod answer;
pub mod line;

use crate::feeding::feed_front;
use crate::line::LineFault;
use crate::lines::{LineTaker, Outcome, RunFault, take_lines};
use amqp_conn::{CloseRefusal, Config, Conn, ConnFault, Fed, StartFault};
use amqp_endpoint::op::Op;
use amqp_endpoint::refusal::Refusal;
use amqp_endpoint::reply::Given;
use amqp_journal::unit::Unit;
use amqp_rules::config;
use amqp_types::Text;
use answer::{Answer, Told};
use line::DrivenLine;
use std::alloc::{AllocError, Global};
use std::fmt::Display;
use std::io::{BufRead, Write};

/// The longest frame that is taken, in octets.
const MAX_FRAME: u32 = 65536;

/// A new connection with these settings of its session, whose container id is `a`.
pub fn open(alloc: Global, session: &config::Config) -> Result<Conn, StartFault> {
    let Ok(container_id) = Text::new(alloc, "a") else {
        return Err(StartFault::NoMemory);
    };
    let config = Config {
        container_id,
        hostname: None,
        max_frame: MAX_FRAME,
        idle_time_out: None,
        first_id: session.first_id,
        window: session.window,
        journal_limit: session.journal_limit,
    };
    Conn::new(alloc, config)
}

/// Drives a new connection with these settings of its session by the lines that the reader gives, as `run_lines` does.
///
/// # Errors
///
/// `Start` where there is no such connection; those of `run_lines`.
pub fn run_conn<R: BufRead, W: Write>(
    alloc: Global,
    session: &config::Config,
    reader: &mut R,
    writer: &mut W,
) -> Result<Outcome, RunFault> {
    match open(alloc, session) {
        Ok(conn) => run_lines(alloc, conn, reader, writer),
        Err(fault) => Err(RunFault::Start(fault)),
    }
}

/// Drives the connection by the lines that the reader gives, and writes an answer for each. What was answered is flushed before each read and at
/// the end, also where a fault ends the run.
pub fn run_lines<R: BufRead, W: Write>(
    alloc: Global,
    conn: Conn,
    reader: &mut R,
    writer: &mut W,
) -> Result<Outcome, RunFault> {
    let mut driven = Driven {
        alloc,
        conn,
        outcome: Outcome::EachLineGood,
    };
    let run = take_lines(alloc, &mut driven, reader, writer);
    let flushed = writer.flush();
    let outcome = driven.outcome;
    drop(driven);
    run?;
    flushed.map_err(RunFault::Write)?;
    Ok(outcome)
}

/// A connection that is being driven.
#[derive(Drop)]
struct Driven {
    alloc: Global,
    conn: Conn,
    outcome: Outcome,
}

impl LineTaker for Driven {
    fn take_line<W: Write>(&mut self, line: &[u8], writer: &mut W) -> Result<(), RunFault> {
        match DrivenLine::read(self.alloc, line) {
            Ok(line) => self.take(line, writer),
            Err(LineFault::Bad) => {
                self.outcome = Outcome::SomeLineBad;
                print(writer, &Answer::BadLine)
            }
            Err(LineFault::NoMemory) => Err(RunFault::Memory(AllocError)),
        }
    }
}

impl Driven {
    fn take<W: Write>(&mut self, line: DrivenLine, writer: &mut W) -> Result<(), RunFault> {
        match line {
            DrivenLine::Feed(octets) => self.feed(octets.as_slice(), writer),
            DrivenLine::Own(op) => self.apply(op, writer),
            DrivenLine::Close => self.close(writer),
            DrivenLine::Lost => {
                self.conn.lost();
                self.tell_done(writer)
            }
            DrivenLine::Ask(question) => {
                print(writer, &question.answer(self.conn.logged().endpoint()))
            }
        }
    }

    /// Feeds the octets until they are used up, or a fault comes.
    fn feed<W: Write>(&mut self, octets: &[u8], writer: &mut W) -> Result<(), RunFault> {
        let mut told = Vec::new(self.alloc);
        feed_all(&mut self.conn, octets, &mut told)?;
        let units = self.units()?;
        let phase = self.conn.phase();
        print(
            writer,
            &Answer::Fed(told.as_slice(), phase, units.as_slice()),
        )
    }

    fn apply<W: Write>(&mut self, op: Op, writer: &mut W) -> Result<(), RunFault> {
        let applied = self.conn.apply(&op);
        drop(op);
        match applied {
            Ok(given) => {
                let units = self.units()?;
                let phase = self.conn.phase();
                print(writer, &Answer::Stepped(&given, phase, units.as_slice()))
            }
            Err(Refusal::NoMemory) => Err(RunFault::Memory(AllocError)),
            Err(refusal) => print(writer, &Answer::Refused(u32::from(refusal.number()))),
        }
    }

    fn close<W: Write>(&mut self, writer: &mut W) -> Result<(), RunFault> {
        match self.conn.close(None) {
            Ok(()) => self.tell_done(writer),
            Err(CloseRefusal::NoMemory) => Err(RunFault::Memory(AllocError)),
            Err(refusal) => print(writer, &Answer::Refused(refusal.number())),
        }
    }

    fn tell_done<W: Write>(&mut self, writer: &mut W) -> Result<(), RunFault> {
        let units = self.units()?;
        let phase = self.conn.phase();
        print(writer, &Answer::Done(phase, units.as_slice()))
    }

    /// The units that wait; none waits afterwards.
    fn units(&mut self) -> Result<Vec<Unit>, RunFault> {
        let mut units = Vec::new(self.alloc);
        while let Some(unit) = pop(&mut self.conn) {
            units.push(unit)?;
        }
        Ok(units)
    }
}

/// The first unit that waits.
fn pop(conn: &mut Conn) -> Option<Unit>
    ensures less { IfSome result (λ _. length (waiting conn.new.core.log) < length (waiting conn.old.core.log)) }
{
    conn.pop_unit()
}

/// Feeds the octets until they are used up, or a fault comes, and adds what each feed told.
fn feed_all(conn: &mut Conn, octets: &[u8], told: &mut Vec<Told>) -> Result<(), RunFault> {
    let mut rest = octets;
    while !rest.is_empty() {
        match feed_front(conn, rest) {
            Ok(fed) => {
                rest = &rest[fed.used..];
                tell_fed(fed, told)?;
            }
            Err(ConnFault::NoMemory) => return Err(RunFault::Memory(AllocError)),
            Err(fault) => {
                told.push(Told::Fault(fault))?;
                return Ok(());
            }
        }
    }
    Ok(())
}

fn tell_fed(fed: Fed, told: &mut Vec<Told>) -> Result<(), RunFault> {
    let Fed {
        stepped,
        given,
        violation,
        ..
    } = fed;
    match violation {
        Some(violation) => {
            drop(given);
            told.push(Told::Violation(violation.kind))?;
        }
        None if stepped => told.push(Told::Step(given))?,
        None => drop(given),
    }
    Ok(())
}

fn print<W: Write, A: Display>(writer: &mut W, answer: &A) -> Result<(), RunFault> {
    writeln!(writer, "{answer}").map_err(RunFault::Write)
}
