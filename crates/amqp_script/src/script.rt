//! The command `script`: each line is an operation, a heard frame or a question, and is answered by one line.
ghost use Rattle.std.specs.Prelude.{◌<◌, ◌≤◌, OnOk, OnSome, length};
ghost use Rattle.std.specs.Io.KnownBytes.{IsAtEnd};
ghost use Rattle.amqp_rules.specs.Limits.{IsWithinLimits};

use crate::answer::Answer;
use crate::line::{Line, LineFault};
use crate::lines::{LineTaker, Outcome, RunFault, take_lines};
use amqp_endpoint::config::Config;
use amqp_endpoint::op::Op;
use amqp_endpoint::refusal::Refusal;
use amqp_endpoint::violation::ViolationKind;
use amqp_frames::Frame;
use amqp_journal::logged::Logged;
use amqp_types::Boxed;
use std::alloc::{AllocError, Global};
use std::io::{BufRead, Write};

/// Runs the lines that the reader gives on a new journal, and writes an answer for each. What was answered is flushed
/// before each read and at the end, also where a fault ends the run.
///
/// At most so many of the journal's entries are kept; none: all. Where so many stand, the next step forgets them all first, so a step's cost
/// on average stays the same. An answer is the same whatever was forgotten.
pub fn run_script<R: BufRead, W: Write>(
    alloc: Global,
    config: &Config,
    keep: Option<u32>,
    reader: &mut R,
    writer: &mut W,
) -> Result<Outcome, RunFault>
    requires { IsWithinLimits config.now }
    // A run that is not at fault has read all of its input.
    ensures { OnOk result (OnSome (R.remaining reader.old) (IsAtEnd (R.remaining reader.new))) }
{
    let mut script = Script {
        alloc,
        logged: Logged::new(alloc, config),
        keep,
        outcome: Outcome::EachLineGood,
    };
    let run = take_lines(alloc, &mut script, reader, writer);
    let flushed = writer.flush();
    run?;
    flushed.map_err(RunFault::Write)?;
    Ok(script.outcome)
}

/// A script that is being run.
#[derive(Drop)]
struct Script {
    alloc: Global,
    logged: Logged,
    /// How many entries are kept at most.
    keep: Option<u32>,
    outcome: Outcome,
}

impl LineTaker for Script {
    fn take_line<W: Write>(&mut self, line: &[u8], writer: &mut W) -> Result<(), RunFault> {
        self.answer_line(line, writer)
    }
}

impl Script {
    fn answer_line<W: Write>(&mut self, octets: &[u8], writer: &mut W) -> Result<(), RunFault> {
        match Line::read(self.alloc, octets) {
            Ok(Line::Opened(max)) => self.open(max, writer),
            Ok(Line::Own(op)) => self.apply(op, writer),
            Ok(Line::Hear(frame)) => self.hear(frame, writer),
            Ok(Line::Ask(question)) => print(writer, question.answer(self.logged.endpoint())),
            Err(LineFault::Bad) => {
                self.outcome = Outcome::SomeLineBad;
                print(writer, Answer::BadLine)
            }
            Err(LineFault::NoMemory) => Err(RunFault::Memory(AllocError)),
        }
    }

    fn open<W: Write>(&mut self, max: u32, writer: &mut W) -> Result<(), RunFault> {
        self.make_room();
        match self.logged.opened(max) {
            Ok(()) => self.print_entry(writer),
            Err(fault) => print_refusal(writer, fault),
        }
    }

    fn apply<W: Write>(&mut self, op: Op, writer: &mut W) -> Result<(), RunFault> {
        self.make_room();
        match self.logged.perform(op) {
            Ok(()) => self.print_entry(writer),
            Err(refusal) => print_refusal(writer, refusal),
        }
    }

    fn hear<W: Write>(&mut self, frame: Frame, writer: &mut W) -> Result<(), RunFault> {
        let frame = Boxed::new(self.alloc, frame)?;
        self.make_room();
        match self.logged.hear(frame) {
            Ok(_) => self.print_entry(writer),
            Err(violation) => match violation.kind {
                ViolationKind::NoMemory => Err(RunFault::Memory(AllocError)),
                kind => print(writer, Answer::Violated(kind)),
            },
        }
    }

    /// Forgets the entries where as many stand as are kept.
    fn make_room(&mut self)
        ensures { self.new.logged.forgotten ≤ length self.new.logged.journal }
    {
        let kept = self.logged.journal().len();
        if is_full(kept, self.keep) {
            self.logged.forget();
        }
    }

    /// Answers a step with the journal's last entry.
    fn print_entry<W: Write>(&self, writer: &mut W) -> Result<(), RunFault>
        requires { self.now.logged.forgotten < length self.now.logged.journal }
    {
        let journal = self.logged.journal();
        let entry = &journal[journal.len() - 1];
        print(writer, Answer::Stepped(&entry.reply))
    }
}

/// So many entries are as many as are kept.
fn is_full(kept: usize, keep: Option<u32>) -> bool {
    match keep {
        Some(most) => kept >= most as usize,
        None => false,
    }
}

/// Answers an operation that was refused. Memory that was refused ends the run.
fn print_refusal<W: Write>(writer: &mut W, refusal: Refusal) -> Result<(), RunFault> {
    match refusal {
        Refusal::NoMemory => Err(RunFault::Memory(AllocError)),
        refusal => print(writer, Answer::Refused(refusal)),
    }
}

fn print<W: Write>(writer: &mut W, answer: Answer<'_>) -> Result<(), RunFault> {
    writeln!(writer, "{answer}").map_err(RunFault::Write)
}
