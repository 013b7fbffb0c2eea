//! What each command does, from its input to its output.
ghost use Rattle.amqp_peer.specs.Requests.{IsAllowed};

use crate::command_line::Request;
use amqp_bench::{run_bench, run_drivers};
use amqp_example::run_examples;
use amqp_exchange::exchange::{run_receive, run_send};
use amqp_pair::run_pair;
use amqp_script::Outcome;
use amqp_script::driven::run_conn;
use amqp_script::explain::run_explain;
use amqp_script::frames::{Framed, Octets, run_frames};
use amqp_script::script::run_script;
use amqp_script::trace::{run_raw_trace, run_trace};
use amqp_serve::run_serve;
use anyhow::bail;
use clap::error::ErrorKind;
use std::io::{BufRead, Write};
use std::net::{Net, TcpStream};
use std::rt::{Clock, Files};
use std::sync::Wait;
use std::thread::Threads;

/// The status where all is done.
pub const DONE: u8 = 0;

/// The status of a run that failed, of `send` if a message was not accepted, of `receive` if one could not be, and of `rows` if a row is answered otherwise
/// than its case wants.
pub const FAULT: u8 = 1;

/// The status where a line was bad, or octets were no frames.
pub const BAD_INPUT: u8 = 2;

/// Does what is asked for with this input and this output, and answers the exit status. The command `rows` is not done here, so no row runs rows.
pub fn answer<H, R: BufRead, W: Write>(
    rt: &H,
    request: Request<'_>,
    reader: &mut R,
    writer: &mut W,
) -> anyhow::Result<u8>
where
    H: AllocGlobal + Eprint + Clock + Files + Net<Stream = TcpStream> + Threads + Wait + Sync,
    requires { IsAllowed request }
{
    let alloc = rt.alloc();
    match request {
        Request::Script(config, keep) => Ok(status_of(run_script(
            alloc, &config, keep, reader, writer,
        )?)),
        Request::Conn(config) => Ok(status_of(run_conn(alloc, &config, reader, writer)?)),
        Request::Frames => Ok(status_of_frames(run_frames(alloc, reader, writer)?)),
        Request::Trace(direction, look, is_raw) => {
            let framed = if is_raw {
                run_raw_trace(alloc, direction, look, reader, writer)?
            } else {
                run_trace(alloc, direction, look, reader, writer)?
            };
            Ok(status_of_frames(framed))
        }
        Request::Explain(explanation) => {
            run_explain(explanation, writer)?;
            Ok(DONE)
        }
        Request::Pair(options) => {
            run_pair(rt, alloc, &options, writer)?;
            Ok(DONE)
        }
        Request::Drivers(sockets) => done(run_drivers(rt, sockets, writer)),
        Request::Send(exchange) => Ok(status_if(run_send(rt, alloc, &exchange, reader, writer)?)),
        Request::Receive(exchange) => Ok(status_if(run_receive(rt, alloc, &exchange, writer)?)),
        Request::Serve(serve) => {
            run_serve(rt, alloc, serve, writer)?;
            Ok(DONE)
        }
        Request::Example => done(run_examples(rt, writer)),
        Request::Bench(bench) => done(run_bench(rt, bench, writer)),
        Request::Rows => bail!("a row that runs rows"),
    }
}

/// The status of what is done wherever it does not fail.
fn done(ran: anyhow::Result<()>) -> anyhow::Result<u8> {
    ran?;
    Ok(DONE)
}

/// The status of messages that were exchanged.
fn status_if(is_whole: bool) -> u8 {
    if is_whole { DONE } else { FAULT }
}

/// The status of a command line that was not read: want of memory is no fault of its words.
pub fn status_of_words(error: &clap::Error) -> u8 {
    match error.kind() {
        ErrorKind::OutOfMemory => FAULT,
        _ => error.exit_code() as u8,
    }
}

fn status_of_frames(framed: Framed) -> u8 {
    match framed.octets {
        Octets::Whole => status_of(framed.lines),
        _ => BAD_INPUT,
    }
}

fn status_of(outcome: Outcome) -> u8 {
    match outcome {
        Outcome::EachLineGood => DONE,
        Outcome::SomeLineBad => BAD_INPUT,
    }
}
