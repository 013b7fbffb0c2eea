//! What the words of a command line ask for.
ghost use Rattle.std.specs.Prelude.{IfOk, IfSome};
ghost use Rattle.amqp_peer.specs.Requests.{IsAllowed};

use crate::bench_options::{bench, bench_of};
use crate::choice::put;
use crate::options::{
    USUAL, config_of, direction_of, drivers_of, explanation_of, look_of, pair_of, receive_of,
    send_of, serve_of,
};
use crate::tables;
use amqp_bench::{Bench, Sockets};
use amqp_endpoint::config::Config;
use amqp_exchange::exchange::Exchange;
use amqp_pair::Options;
use amqp_script::explain::Explanation;
use amqp_serve::Serve;
use amqp_trace::{Direction, Look};
use clap::builder::ValueParser;
use clap::error::ErrorKind;
use clap::{Arg, ArgMatches, Command, Error};
use std::alloc::{AllocError, Global};
use std::convert::AsStr;

/// The version that is printed; the file `VERSION` at the top of the repository has it, too.
const VERSION: &str = "0.1.0";

/// What a command line asks for.
#[derive(Clone, Copy, Debug)]
pub enum Request<'a> {
    /// A run of `script` on a journal with these settings, of which at most so many entries are kept; none: all.
    Script(Config, Option<u32>),
    /// A run of `conn` with these settings of its session.
    Conn(Config),
    /// A run of `frames`.
    Frames,
    /// A run of `trace` over octets that went this way; how its lines look; whether the octets are read as they are, and not in hexadecimal.
    Trace(Direction, Look, bool),
    /// What `explain` prints.
    Explain(Explanation<'a>),
    /// A run of `pair`.
    Pair(Options),
    /// A run of `pair` by two drivers.
    Drivers(Sockets),
    /// A run of `rows`.
    Rows,
    /// A run of `send`.
    Send(Exchange<'a>),
    /// A run of `receive`.
    Receive(Exchange<'a>),
    /// A run of `serve`.
    Serve(Serve<'a>),
    /// A run of `example`.
    Example,
    /// A run of `bench`.
    Bench(Bench),
}

impl<'a> Request<'a> {
    /// The same, with the process's standard input as the input of a `send`.
    pub fn polled(self) -> Request<'a>
        requires { IsAllowed self }
        ensures { IsAllowed result }
    {
        match self {
            Request::Send(exchange) => Request::Send(polled(exchange)),
            request => request,
        }
    }

    /// The same, and it is not printed how far it is.
    pub fn quiet(self) -> Request<'a>
        requires { IsAllowed self }
        ensures { IsAllowed result }
    {
        match self {
            Request::Send(exchange) => Request::Send(quiet(exchange)),
            Request::Receive(exchange) => Request::Receive(quiet(exchange)),
            request => request,
        }
    }
}

fn polled(exchange: Exchange<'_>) -> Exchange<'_> {
    Exchange {
        is_polled: true,
        ..exchange
    }
}

fn quiet(exchange: Exchange<'_>) -> Exchange<'_> {
    Exchange {
        is_quiet: true,
        ..exchange
    }
}

/// What the words ask for, the first of which is the program's name. The error holds what is to be told: a fault of
/// the words, or the help that they asked for.
pub fn read_request<'a, S: AsStr>(alloc: Global, words: &'a [S]) -> Result<Request<'a>, Error>
    ensures { IfOk result IsAllowed }
{
    // What is owned here is let go on no way out but the last: a function that lets much go on each is dear to prove.
    let mut command = program(alloc)?;
    let request = read_words(&mut command, words);
    drop(command);
    request
}

fn read_words<'a, S: AsStr>(command: &mut Command<'a>, words: &'a [S]) -> Result<Request<'a>, Error>
    ensures { IfOk result IsAllowed }
{
    let matches = command.try_get_matches_from_mut(words)?;
    let request = plain_request_of(command, &matches);
    drop(matches);
    match request {
        Some(request) => Ok(request),
        None => Err(command.error(
            ErrorKind::ValueValidation,
            "a number, a host, an address or a condition is none, or out of its range",
        )?),
    }
}

/// Returns the error for words of which one is no UTF-8.
pub fn refuse_words(alloc: Global) -> Result<Error, AllocError> {
    let mut command = program(alloc)?;
    let error = command.error(ErrorKind::InvalidValue, "a word is not UTF-8");
    drop(command);
    error
}

/// True if each number that was given to the command, or to the one under it, has no sign, which clap takes.
fn are_numbers_plain(command: &Command<'_>, matches: &ArgMatches<'_>) -> bool {
    let Some((name, options)) = matches.subcommand() else {
        return true;
    };
    let Some(command) = command.find_subcommand(name) else {
        return true;
    };
    let is_below_plain = match options.subcommand() {
        Some((name, below)) => match command.find_subcommand(name) {
            Some(command) => are_own_numbers_plain(command.get_arguments(), below),
            None => true,
        },
        None => true,
    };
    is_below_plain && are_own_numbers_plain(command.get_arguments(), options)
}

fn are_own_numbers_plain(arguments: &[Arg<'_>], options: &ArgMatches<'_>) -> bool {
    for argument in arguments {
        if matches!(argument.get_value_parser(), ValueParser::Signed(_, _)) {
            if let Some(text) = options.get_str(argument.get_id()) {
                if text.starts_with('+') || text.starts_with('-') {
                    return false;
                }
            }
        }
    }
    true
}

/// The same as `request_of`; none, too, if a number has a sign.
fn plain_request_of<'a>(command: &Command<'_>, matches: &ArgMatches<'a>) -> Option<Request<'a>>
    ensures { IfSome result IsAllowed }
{
    if are_numbers_plain(command, matches) {
        request_of(matches)
    } else {
        None
    }
}

/// None if a value is none, or out of its range.
fn request_of<'a>(matches: &ArgMatches<'a>) -> Option<Request<'a>>
    ensures { IfSome result IsAllowed }
{
    if matches.subcommand_matches("frames").is_some() {
        return Some(Request::Frames);
    }
    if matches.subcommand_matches("rows").is_some() {
        return Some(Request::Rows);
    }
    if let Some(options) = matches.subcommand_matches("send") {
        return Some(Request::Send(send_of(options)?));
    }
    if let Some(options) = matches.subcommand_matches("receive") {
        return Some(Request::Receive(receive_of(options)?));
    }
    if let Some(options) = matches.subcommand_matches("serve") {
        return Some(Request::Serve(serve_of(options)?));
    }
    if matches.subcommand_matches("example").is_some() {
        return Some(Request::Example);
    }
    if let Some(options) = matches.subcommand_matches("bench") {
        return Some(Request::Bench(bench_of(options)));
    }
    if let Some(options) = matches.subcommand_matches("trace") {
        return Some(Request::Trace(
            direction_of(options),
            look_of(options),
            options.get_flag("raw"),
        ));
    }
    if let Some(options) = matches.subcommand_matches("explain") {
        if let Some(explanation) = explanation_of(options) {
            return Some(Request::Explain(explanation));
        }
    } else if let Some(options) = matches.subcommand_matches("pair") {
        if options.get_flag("drivers") {
            return Some(Request::Drivers(drivers_of(options)));
        }
        let options = pair_of(options);
        if options.are_in_range() {
            return Some(Request::Pair(options));
        }
    } else if let Some(options) = matches.subcommand_matches("conn") {
        let config = config_of(options);
        if config.is_within_limits() {
            return Some(Request::Conn(config));
        }
    } else {
        let config = script_config(matches);
        if config.is_within_limits() {
            return Some(Request::Script(config, kept_entries(matches)));
        }
    }
    None
}

fn program<'a>(alloc: Global) -> Result<Command<'a>, AllocError> {
    let commands = commands(alloc)?;
    Command::new(alloc, "amqp_peer")
        .version(VERSION)
        .about("One end of an AMQP 1.0 connection")
        .subcommand_required(true)
        .subcommands(commands)
}

fn commands<'a>(alloc: Global) -> Result<Vec<Command<'a>>, AllocError> {
    let mut commands = Vec::new(alloc);
    add_readers(alloc, &mut commands)?;
    add_peers(alloc, &mut commands)?;
    add_others(alloc, &mut commands)?;
    Ok(commands)
}

/// Adds the commands that read what standard input gives, and `explain`.
fn add_readers<'a>(alloc: Global, commands: &mut Vec<Command<'a>>) -> Result<(), AllocError> {
    put(commands, tables::script(alloc))?;
    put(commands, tables::conn(alloc))?;
    put(commands, Ok(tables::frames(alloc)))?;
    put(commands, tables::trace(alloc))?;
    put(commands, tables::explain(alloc))?;
    Ok(())
}

/// Adds the commands that talk over sockets.
fn add_peers<'a>(alloc: Global, commands: &mut Vec<Command<'a>>) -> Result<(), AllocError> {
    put(commands, tables::pair(alloc))?;
    put(commands, tables::send(alloc))?;
    put(commands, tables::receive(alloc))?;
    put(commands, tables::serve(alloc))?;
    Ok(())
}

fn add_others<'a>(alloc: Global, commands: &mut Vec<Command<'a>>) -> Result<(), AllocError> {
    put(commands, Ok(tables::example(alloc)))?;
    put(commands, bench(alloc))?;
    put(commands, Ok(tables::rows(alloc)))?;
    Ok(())
}

/// The settings of a `script`.
fn script_config(matches: &ArgMatches<'_>) -> Config {
    match matches.subcommand_matches("script") {
        Some(options) => config_of(options),
        None => USUAL,
    }
}

/// How many entries of its journal a `script` keeps.
fn kept_entries(matches: &ArgMatches<'_>) -> Option<u32> {
    match matches.subcommand_matches("script") {
        Some(options) => options.get_one::<u32>("keep"),
        None => None,
    }
}
