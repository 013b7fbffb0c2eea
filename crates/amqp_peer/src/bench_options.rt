//! The command `bench`, with the commands `codec`, `session` and `sockets` under it and their options, and what is read from those that were given.

use crate::choice::{Choice, NUMBER, Value, choice, command, put};
use amqp_bench::{Bench, Ends, Messages, SHORT_RUN, Sockets};
use clap::{ArgMatches, Command};
use std::alloc::{AllocError, Global};

/// How often each frame is written and read where nothing else is asked for.
const ROUNDS: u32 = 100000;

/// The most that may be granted, or named by a disposition.
const MANY: u32 = 2147483647;

/// The number of a port.
const PORT: Value = Value::Number("PORT", 0, 65535);

/// Of `codec`.
static CODEC: [Choice; 2] = [
    choice!(NUMBER, "rounds": "How often each frame is written and read",
        value: Value::Number("N", 1, 100000000), usual: Some("100000")),
    choice!(NUMBER, "part": "One way alone: 1 a transfer written, 2 read, 3 and 4 a flow, 5 and 6 a disposition",
        value: Value::Number("K", 1, 6)),
];

/// By which messages are asked for.
static MESSAGES: [Choice; 6] = [
    choice!(NUMBER, "count": "How many messages are sent", value: Value::Number("N", 1, 100000000)),
    choice!(NUMBER, "size": "How long each is, in octets", value: Value::Number("S", 0, 100000000)),
    choice!(NUMBER, "settled": "1: they are sent settled; 0: each is accepted and settled",
        value: Value::Number("0|1", 0, 1)),
    choice!(NUMBER, "credit": "How many the receiver lets begin at a time", value: Value::Number("C", 1, MANY)),
    choice!(NUMBER, "range": "How many deliveries a disposition names at most; all that were taken if it is not given",
        value: Value::Number("R", 1, MANY)),
    choice!(NUMBER, "keep": "How many entries of its journal each end keeps at most; all if it is not given",
        value: Value::Number("N", 1, 1073741824)),
];

/// Of `session` alone.
static SESSION: [Choice; 1] = [
    choice!(NUMBER, "sessions": "How many sessions, one after the other: from the second on they find memory that was used before",
    value: Value::Number("N", 1, 1000)),
];

/// The ports of `sockets`.
static PORTS: [Choice; 2] = [
    choice!(NUMBER, "connect": "Has the sending ends, and connects to this port", value: PORT, group: Some("ends")),
    choice!(NUMBER, "listen": "Has the receiving ends, and listens at this port", value: PORT, group: Some("ends")),
];

/// Of `sockets` alone.
static SOCKETS: [Choice; 1] = [
    choice!(NUMBER, "connections": "How many connections there are at once, each with messages of its own",
    value: Value::Number("N", 1, 100000)),
];

/// The command `bench` with the commands under it.
pub fn bench<'a>(alloc: Global) -> Result<Command<'a>, AllocError> {
    let about =
        "Measures frames, and messages over a session in memory and over sockets; with no command under it a short run of all three";
    let commands = commands(alloc)?;
    Command::new(alloc, "bench")
        .about(about)
        .subcommands(commands)
}

fn commands<'a>(alloc: Global) -> Result<Vec<Command<'a>>, AllocError> {
    let mut commands = Vec::new(alloc);
    put(&mut commands, codec(alloc))?;
    put(&mut commands, session(alloc))?;
    put(&mut commands, sockets(alloc))?;
    Ok(commands)
}

fn codec<'a>(alloc: Global) -> Result<Command<'a>, AllocError> {
    let about = "Writes and reads transfer, flow and disposition frames in memory";
    command(alloc, "codec", about, &[&CODEC])
}

fn session<'a>(alloc: Global) -> Result<Command<'a>, AllocError> {
    let about = "Sends messages over a session in memory, between two ends with their journals";
    command(alloc, "session", about, &[&MESSAGES, &SESSION])
}

fn sockets<'a>(alloc: Global) -> Result<Command<'a>, AllocError> {
    let about =
        "Sends messages over sockets of 127.0.0.1; each end has one thread for all of its connections, or one thread has both ends";
    command(alloc, "sockets", about, &[&PORTS, &MESSAGES, &SOCKETS])
}

/// What a `bench` is to measure.
pub fn bench_of(options: &ArgMatches<'_>) -> Bench {
    if let Some(options) = options.subcommand_matches("codec") {
        return Bench::Codec {
            rounds: options.get_one::<u32>("rounds").unwrap_or(ROUNDS),
            part: options.get_one::<u32>("part"),
        };
    }
    if let Some(options) = options.subcommand_matches("session") {
        return Bench::Session {
            messages: messages_of(options),
            sessions: options.get_one::<u32>("sessions").unwrap_or(1),
        };
    }
    match options.subcommand_matches("sockets") {
        Some(options) => Bench::Sockets(sockets_of(options)),
        None => SHORT_RUN,
    }
}

/// The messages that the options ask for. Where no range is named, a disposition names all deliveries that were taken.
fn messages_of(options: &ArgMatches<'_>) -> Messages {
    let given = |name: &str, usual: u32| options.get_one::<u32>(name).unwrap_or(usual);
    Messages {
        count: given("count", 100000),
        size: given("size", 16),
        settled: given("settled", 0) == 1,
        credit: given("credit", 100),
        range: given("range", u32::MAX),
        keep: options.get_one::<u32>("keep"),
    }
}

/// With neither port one thread has both ends.
fn sockets_of(options: &ArgMatches<'_>) -> Sockets {
    let (ends, port) = match (
        options.get_one::<u16>("connect"),
        options.get_one::<u16>("listen"),
    ) {
        (Some(port), _) => (Ends::Sender, port),
        (None, Some(port)) => (Ends::Receiver, port),
        (None, None) => (Ends::Both, 0),
    };
    Sockets {
        ends,
        port,
        connections: options.get_one::<u32>("connections").unwrap_or(1),
        messages: messages_of(options),
    }
}
