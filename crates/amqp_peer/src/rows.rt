//! The command `rows`: cases of command lines with their inputs, and whether the program answers them as they want.
//!
//! | module | what it holds |
//! |---|---|
//! | `case` | a case, and the lines that write it |
//! | `fake` | the input and the output of a row |
ghost use Rattle.amqp_peer.specs.Requests.{IsAllowed};

pub mod case;
pub mod fake;

use crate::command_line::{Request, read_request};
use crate::commands::{BAD_INPUT, DONE, FAULT, answer, status_of_words};
use amqp_script::{Outcome, take_lines};
use case::{Answer, Case, Cases, Row};
use clap::Error;
use fake::{GivenInput, KeptOutput};
use std::io::{BufRead, BufReader, Write};
use std::net::{Net, TcpStream};
use std::rt::{Clock, Files};
use std::sync::Wait;
use std::thread::Threads;

/// Runs each row of the cases that the reader gives, and tells of each that is answered otherwise than its case wants what it is answered; then
/// how many rows there were. Where a line of the cases is bad, it tells which, and runs none. It answers the exit status.
pub fn run_rows<H, R: BufRead, W: Write>(
    rt: &H,
    reader: &mut R,
    writer: &mut W,
) -> anyhow::Result<u8>
where
    H: AllocGlobal + Eprint + Clock + Files + Net<Stream = TcpStream> + Threads + Wait + Sync,
{
    let mut cases = Cases::new(rt.alloc());
    take_lines(rt.alloc(), &mut cases, reader, writer)?;
    let status = match cases.outcome {
        Outcome::EachLineGood => run_cases(rt, cases.cases.as_slice(), writer)?,
        Outcome::SomeLineBad => BAD_INPUT,
    };
    writer.flush()?;
    Ok(status)
}

fn run_cases<H, W: Write>(rt: &H, cases: &[Case], writer: &mut W) -> anyhow::Result<u8>
where
    H: AllocGlobal + Eprint + Clock + Files + Net<Stream = TcpStream> + Threads + Wait + Sync,
{
    let mut rows: usize = 0;
    let mut differ: usize = 0;
    for case in cases {
        rows = rows.saturating_add(case.rows.len());
        differ = differ.saturating_add(run_case(rt, case, writer)?);
    }
    writeln!(writer, "{rows} rows, {differ} differ")?;
    Ok(if differ == 0 { DONE } else { FAULT })
}

/// How many rows of the case are answered otherwise than it wants.
fn run_case<H, W: Write>(rt: &H, case: &Case, writer: &mut W) -> anyhow::Result<usize>
where
    H: AllocGlobal + Eprint + Clock + Files + Net<Stream = TcpStream> + Threads + Wait + Sync,
{
    let mut differ: usize = 0;
    for row in case.rows.as_slice() {
        if !run_row(rt, case, row, writer)? {
            differ = differ.saturating_add(1);
        }
    }
    Ok(differ)
}

/// Whether the row is answered as the case wants. A script is run once more, with two entries of its journal kept at most, and must then answer the
/// same.
fn run_row<H, W: Write>(rt: &H, case: &Case, row: &Row, writer: &mut W) -> anyhow::Result<bool>
where
    H: AllocGlobal + Eprint + Clock + Files + Net<Stream = TcpStream> + Threads + Wait + Sync,
{
    let words = row.words.as_str();
    let had = answer_words(rt, case, words, row.is_run)?;
    if !case.wants(&had) {
        tell(case, words, &had, writer)?;
        return Ok(false);
    }
    if !row.is_run || !keeps_all(words) {
        return Ok(true);
    }
    let forgetful = format!(in rt.alloc(); "{words} --keep 2")?;
    let again = answer_words(rt, case, forgetful.as_str(), true)?;
    if again.status != had.status || again.output.as_slice() != had.output.as_slice() {
        tell(case, forgetful.as_str(), &again, writer)?;
        return Ok(false);
    }
    Ok(true)
}

/// Whether the words are those of a script, which keeps all entries of its journal.
fn keeps_all(words: &str) -> bool {
    words.starts_with("script") && !words.contains("--keep")
}

/// Tells what a row is answered.
fn tell<W: Write>(case: &Case, words: &str, had: &Answer, writer: &mut W) -> anyhow::Result<()> {
    writeln!(
        writer,
        "{} differs: {words}: status {}",
        case.name, had.status
    )?;
    writer.write_all(had.output.as_slice())?;
    Ok(())
}

/// What the words are answered, which are run or only read.
fn answer_words<H>(rt: &H, case: &Case, words: &str, is_run: bool) -> anyhow::Result<Answer>
where
    H: AllocGlobal + Eprint + Clock + Files + Net<Stream = TcpStream> + Threads + Wait + Sync,
{
    let mut line: Vec<&str> = Vec::new(rt.alloc());
    line.push("amqp_peer")?;
    for word in words.split_whitespace() {
        line.push(word)?;
    }
    match read_request(rt.alloc(), line.as_slice()) {
        Ok(request) => if is_run {
            answer_request(rt, case, request)
        } else {
            show(rt, request)
        },
        Err(error) => refuse(rt, &error),
    }
}

/// What words ask for.
fn show<H: AllocGlobal>(rt: &H, request: Request<'_>) -> anyhow::Result<Answer> {
    let mut output = Vec::new(rt.alloc());
    writeln!(output, "{request:?}")?;
    Ok(Answer {
        output,
        status: DONE,
    })
}

/// What is answered to words that are at fault, or that ask for help. The text of a fault is not looked at.
fn refuse<H: AllocGlobal>(rt: &H, error: &Error) -> anyhow::Result<Answer> {
    let mut output = Vec::new(rt.alloc());
    if !error.use_stderr() {
        write!(output, "{error}")?;
    }
    Ok(Answer {
        output,
        status: status_of_words(error),
    })
}

/// What a run answers. What makes it fail stands behind that.
fn answer_request<H>(rt: &H, case: &Case, request: Request<'_>) -> anyhow::Result<Answer>
where
    H: AllocGlobal + Eprint + Clock + Files + Net<Stream = TcpStream> + Threads + Wait + Sync,
    requires { IsAllowed request }
{
    let input = GivenInput::new(case.input.as_slice(), case.fails);
    let mut reader = BufReader::with_capacity(rt.alloc(), case.piece, input)?;
    let mut output = KeptOutput::new(rt.alloc(), case.room);
    let status = match answer(rt, request, &mut reader, &mut output) {
        Ok(status) => status,
        Err(fault) => {
            writeln!(output.taken, "! {fault}")?;
            FAULT
        }
    };
    Ok(Answer {
        output: output.taken,
        status,
    })
}
