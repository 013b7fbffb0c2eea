//! A case, and the lines that write it.
//!
//! | line | what it says |
//! |---|---|
//! | `case NAME` | a case begins |
//! | `run WORDS` | a row: a command line, without the program's name; a case may have several rows, each of which is to answer the same |
//! | `ask WORDS` | a row that is not run: it answers with what the command line asks for |
//! | `< TEXT` | a line of the input; `<` alone is an empty one |
//! | `- TEXT` | the same without its newline |
//! | `* N HEX` | these octets of the input N times |
//! | `> TEXT` | a line of the output that is wanted; `>` alone is an empty one |
//! | `>...` | in front of that output may stand anything |
//! | `status N` | the exit status that is wanted; 0 where it is left off |
//! | `! TEXT` | the run is to fail with this text behind its output, and so with status 1 |
//! | `piece N` | a read gives so many octets of the input at most |
//! | `fails` | the input is interrupted once before its first octet, and fails behind its last |
//! | `room N` | the output takes so many octets, and fails behind them |
//!
//! A line that begins with `#`, and an empty one, says nothing.

use crate::commands::{DONE, FAULT};
use amqp_script::{LineFault, LineTaker, Outcome, RunFault, Words};
use std::alloc::{AllocError, Global};
use std::io::Write;

/// How many octets of the input a read gives at most, where no case says it.
const PIECE: usize = 8192;

/// What a row is answered, or is to be answered.
#[derive(Drop)]
pub struct Answer {
    /// What was written, and then what made the run fail, if anything.
    pub output: Vec<u8>,
    pub status: u8,
}

/// A command line.
#[derive(Drop)]
pub struct Row {
    /// Its words, without the program's name.
    pub words: String,
    /// Whether it is run, and not only read.
    pub is_run: bool,
}

/// Command lines with one input, and what each of them is to answer.
#[derive(Drop)]
pub struct Case {
    pub name: String,
    pub rows: Vec<Row>,
    pub input: Vec<u8>,
    /// How many octets of the input a read gives at most.
    pub piece: usize,
    /// The input fails at its end.
    pub fails: bool,
    /// How many octets the output takes.
    pub room: usize,
    wanted: Answer,
    /// In front of the output that is wanted may stand anything.
    is_open: bool,
}

/// Cases that are being read.
#[derive(Drop)]
pub struct Cases {
    alloc: Global,
    pub cases: Vec<Case>,
    pub outcome: Outcome,
    /// How many lines were read.
    lines: u64,
}

impl Cases {
    pub fn new(alloc: Global) -> Cases {
        Cases {
            alloc,
            cases: Vec::new(alloc),
            outcome: Outcome::EachLineGood,
            lines: 0,
        }
    }

    fn read_line(&mut self, line: &[u8]) -> Result<(), LineFault> {
        let (word, rest) = split_word(line);
        match word {
            [] | [b'#', ..] => Ok(()),
            b"case" => {
                let case = Case::new(self.alloc, text(self.alloc, rest)?);
                self.cases.push(case)?;
                Ok(())
            }
            word => match self.cases.last_mut() {
                Some(case) => case.read_line(self.alloc, word, rest),
                None => Err(LineFault::Bad),
            },
        }
    }
}

impl LineTaker for Cases {
    fn take_line<W: Write>(&mut self, line: &[u8], writer: &mut W) -> Result<(), RunFault> {
        self.lines = self.lines.saturating_add(1);
        match self.read_line(line) {
            Ok(()) => Ok(()),
            Err(LineFault::Bad) => {
                self.outcome = Outcome::SomeLineBad;
                writeln!(writer, "line {}: bad line", self.lines).map_err(RunFault::Write)
            }
            Err(LineFault::NoMemory) => Err(RunFault::Memory(AllocError)),
        }
    }
}

impl Case {
    fn new(alloc: Global, name: String) -> Case {
        Case {
            name,
            rows: Vec::new(alloc),
            input: Vec::new(alloc),
            piece: PIECE,
            fails: false,
            room: usize::MAX,
            wanted: Answer {
                output: Vec::new(alloc),
                status: DONE,
            },
            is_open: false,
        }
    }

    /// Whether this is what its rows are to answer.
    pub fn wants(&self, had: &Answer) -> bool {
        let output = had.output.as_slice();
        let wanted = self.wanted.output.as_slice();
        let agrees = if self.is_open {
            output.ends_with(wanted)
        } else {
            output == wanted
        };
        agrees && had.status == self.wanted.status
    }

    fn read_line(&mut self, alloc: Global, word: &[u8], rest: &[u8]) -> Result<(), LineFault> {
        match word {
            b"run" => self.add_row(text(alloc, rest)?, true),
            b"ask" => self.add_row(text(alloc, rest)?, false),
            b"<" => add_line(&mut self.input, rest),
            b">" => add_line(&mut self.wanted.output, rest),
            b"!" => {
                self.wanted.status = FAULT;
                self.wanted.output.extend_from_slice(b"! ")?;
                add_line(&mut self.wanted.output, rest)
            }
            b"-" => {
                self.input.extend_from_slice(rest)?;
                Ok(())
            }
            b"*" => self.repeat(alloc, Words::of(rest)),
            b">..." => {
                self.is_open = true;
                Ok(())
            }
            b"fails" => {
                self.fails = true;
                Ok(())
            }
            _ => self.read_number(word, Words::of(rest)),
        }
    }

    fn add_row(&mut self, words: String, is_run: bool) -> Result<(), LineFault> {
        self.rows.push(Row { words, is_run })?;
        Ok(())
    }

    /// `N HEX`
    fn repeat(&mut self, alloc: Global, mut words: Words<'_>) -> Result<(), LineFault> {
        let times = words.number()?;
        let octets = words.octets(alloc)?;
        words.end()?;
        for _ in 0..times {
            self.input.extend_from_slice(octets.as_slice())?;
        }
        Ok(())
    }

    /// `N`, behind the word that says of what.
    fn read_number(&mut self, word: &[u8], mut words: Words<'_>) -> Result<(), LineFault> {
        match word {
            b"status" => self.wanted.status = words.octet()?,
            b"piece" => self.piece = words.number()? as usize,
            b"room" => self.room = words.number()? as usize,
            _ => return Err(LineFault::Bad),
        }
        words.end()
    }
}

fn add_line(lines: &mut Vec<u8>, line: &[u8]) -> Result<(), LineFault> {
    lines.extend_from_slice(line)?;
    lines.push(b'\n')?;
    Ok(())
}

/// The first word, and what stands behind the space after it.
fn split_word(line: &[u8]) -> (&[u8], &[u8]) {
    match line.iter().position(|octet| *octet == b' ') {
        Some(end) => (&line[..end], &line[end + 1..]),
        None => (line, b"".as_slice()),
    }
}

/// The whole of it, as a text.
fn text(alloc: Global, octets: &[u8]) -> Result<String, LineFault> {
    match std::str::from_utf8(octets) {
        Ok(text) => Ok(String::from_str(alloc, text)?),
        Err(_) => Err(LineFault::Bad),
    }
}
