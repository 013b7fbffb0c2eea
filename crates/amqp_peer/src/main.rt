//! `amqp_peer`: one end of an AMQP 1.0 connection, as a program.
//!
//! | module | what it holds |
//! |---|---|
//! | `command_line` | what the words of a command line ask for |
//! | `choice` | an option as the row of a table, and the command that has it |
//! | `tables` | the commands with their options |
//! | `options` | what is asked for by the options that were given |
//! | `bench_options` | the command `bench` with its options, and what is asked for by them |
//! | `place` | the peer and the address that a word or an option names |
//! | `commands` | what each command does, from its input to its output |
//! | `memory` | how much memory that was given back is kept |
//! | `rows` | the command `rows`: cases of command lines with their inputs, and whether they are answered as they want |
//! | `amqp_script::driven` | the command `conn`: lines of text on one connection, one answer each |
//! | `amqp_script::frames` | the command `frames`: octets in hexadecimal, framed and named |
//! | `amqp_script::trace` | the command `trace`: octets, a line for each frame |
//! | `amqp_script::explain` | the command `explain`: numbers and conditions in words |
//! | `amqp_script::script` | the command `script`: lines of text on one journal, one answer each |
//! | `amqp_pair` | the command `pair`: two ends of a connection over the loopback |
//! | `amqp_exchange` | the commands `send` and `receive`: messages to a peer, or from one, over TCP |
//! | `amqp_serve` | the command `serve`: messages in memory by address, for peers that connect |
//! | `amqp_example` | the command `example`: how the crates are embedded |
//! | `amqp_bench` | the command `bench`: how long frames and messages take |
//!
//! | exit status | if |
//! |---|---|
//! | 0 | all is done, or help or the version was asked for |
//! | 1 | a read, a write, a socket or an allocation failed: standard error has one line on it |
//! | 1 | a message of `send` was not accepted, or one of `receive` could not be; a row of `rows` is answered otherwise than its case wants |
//! | 2 | the command line is at fault, a line was bad, or octets were no frames |
#![tactic(auto)]

ghost use Rattle.amqp_peer.specs.Requests.{IsAllowed};

pub mod bench_options;
pub mod choice;
pub mod command_line;
pub mod commands;
pub mod memory;
pub mod options;
pub mod place;
pub mod rows;
pub mod tables;

use command_line::{Request, read_request, refuse_words};
use commands::{FAULT, answer, status_of_words};
use memory::keep_memory;
use rows::run_rows;
use std::env::Env;
use std::io::{BufReader, BufWriter, IsTerminal};
use std::net::{Net, TcpStream};
use std::process::ExitCode;
use std::rt::{Clock, Files};
use std::sync::Wait;
use std::thread::Threads;
use std::{env, io};

fn main(rt: HostRuntime) -> ExitCode {
    match run(&rt, rt.stderr().is_terminal()) {
        Ok(status) => ExitCode::from(status),
        Err(fault) => {
            // A fault that cannot be printed still has its status.
            let _ = eprintln!(rt; "amqp_peer: {fault}");
            ExitCode::from(FAULT)
        }
    }
}

/// Does what the words ask for. How far it is is printed on standard error if that is a terminal.
fn run<R>(rt: &R, is_looked_at: bool) -> anyhow::Result<u8>
where
    R: AllocGlobal
        + Env
        + Input
        + Print
        + Eprint
        + Clock
        + Files
        + Net<Stream = TcpStream>
        + Threads
        + Wait
        + Sync,
{
    keep_memory(rt.alloc());
    let Some(words) = words_of(rt)? else {
        let error = refuse_words(rt.alloc())?;
        error.print(rt)?;
        return Ok(status_of_words(&error));
    };
    match read_request(rt.alloc(), words.as_slice()) {
        Ok(request) => {
            let request = if is_looked_at {
                request
            } else {
                request.quiet()
            };
            do_request(rt, request.polled())
        }
        Err(error) => {
            error.print(rt)?;
            Ok(status_of_words(&error))
        }
    }
}

/// Returns the words of the command line; `None` if one of them is not UTF-8.
fn words_of<R: AllocGlobal + Env>(rt: &R) -> anyhow::Result<Option<Vec<String>>> {
    match env::args(rt) {
        Ok(words) => Ok(Some(words.collect(rt.alloc())?)),
        Err(error) => match error.kind() {
            io::ErrorKind::InvalidData => Ok(None),
            _ => Err(error.into()),
        },
    }
}

/// Does what is asked for, from standard input to standard output.
fn do_request<R>(rt: &R, request: Request<'_>) -> anyhow::Result<u8>
where
    R: AllocGlobal
        + Input
        + Print
        + Eprint
        + Clock
        + Files
        + Net<Stream = TcpStream>
        + Threads
        + Wait
        + Sync,
    requires { IsAllowed request }
{
    let mut reader = BufReader::new(rt.alloc(), rt.reader())?;
    let mut writer = BufWriter::new(rt.alloc(), io::writer(rt))?;
    match request {
        Request::Rows => run_rows(rt, &mut reader, &mut writer),
        request => answer(rt, request, &mut reader, &mut writer),
    }
}
