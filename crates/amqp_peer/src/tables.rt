//! The commands `script`, `conn`, `frames`, `trace`, `explain`, `pair`, `send`, `receive`, `serve`, `example` and `rows` with their options. A table is a
//! static, since a constant is written out, and proved, in each function that names it; one of all commands would cost more than all of these functions.

use crate::choice::{Choice, FLAG, NUMBER, TEXT, Value, choice, command};
use amqp_exchange::MIN_MAX_FRAME;
use amqp_pair::{MAX_CONSUMERS, MAX_COUNT, MAX_CREDIT, MAX_SIZE};
use amqp_rules::config::{MAX_JOURNAL_LIMIT, MAX_WINDOW};
use amqp_serve::MAX_THREADS;
use clap::Command;
use std::alloc::{AllocError, Global};

/// The most seconds that a peer may be waited for: half of them are sent to it in milliseconds.
const MAX_PATIENCE: u32 = 8_589_934;

/// The most connections that are driven at once.
const MAX_CONNECTIONS: u32 = 100_000;

/// How many of a journal's entries are kept.
const KEEP: Choice =
    choice!(NUMBER, "keep": "How many entries of the journal stay at most; all if it is not given",
    value: Value::Number("N", 1, MAX_JOURNAL_LIMIT));

/// The messages are sent settled.
const SETTLED: Choice =
    choice!(FLAG, "settled": "Sends the messages settled: the peer reports no outcome");

/// The file that is the journal of a `send` or a `receive`, beside which another option does not stand.
const JOURNAL: Choice =
    choice!(TEXT, "journal": "Keeps in this file what became of each message, to go on after a lost connection or a killed run",
    value: PATH);

/// Of `script` alone.
static KEEPING: [Choice; 1] = [KEEP];

/// The number of a port.
const PORT: Value = Value::Number("N", 0, 65535);

/// The path of a file.
const PATH: Value = Value::Text("PATH");

/// A number of messages.
const COUNT: Value = Value::Number("N", 1, u32::MAX);

/// Of an endpoint's settings.
static CONFIG: [Choice; 3] = [
    choice!(NUMBER, "first-id": "The first transfer id and delivery id", usual: Some("0")),
    choice!(NUMBER, "window": "The incoming window, in transfers",
        value: Value::Number("W", 1, MAX_WINDOW), usual: Some("2048")),
    choice!(NUMBER, "limit": "How many steps the journal may have",
        value: Value::Number("L", 1, MAX_JOURNAL_LIMIT), usual: Some("1073741824")),
];

/// Of `trace` alone.
static TRACE: [Choice; 3] = [
    choice!(FLAG, "heard": "The octets were received, and not sent"),
    choice!(FLAG, "raw": "Reads the octets as they are, and not as hexadecimal"),
    choice!(FLAG, "color": "Prints the lines in colour"),
];

/// Of `explain`.
static EXPLAIN: [Choice; 4] = [
    choice!(TEXT, "what": "A number, as 14; of a fault of framing as 2.5; or a condition, as amqp:not-allowed. Without it all numbers are listed",
        value: Value::Text("NUMBER|CONDITION"), is_bare: true),
    choice!(FLAG, "violation": "It is a violation, and not a refusal", group: Some("kind")),
    choice!(FLAG, "fault": "It is a fault of a connection, as `conn` prints it", group: Some("kind")),
    choice!(FLAG, "framing": "It is a fault of framing, as `frames` and `trace` print it", group: Some("kind")),
];

/// Of `pair`.
static PAIR: [Choice; 9] = [
    choice!(NUMBER, "count": "How many messages", value: Value::Number("N", 1, MAX_COUNT), is_required: true),
    choice!(NUMBER, "consumers": "How many threads consume them",
        value: Value::Number("N", 1, MAX_CONSUMERS), unless: Some("drivers")),
    choice!(NUMBER, "credit": "How many messages may come at a time",
        value: Value::Number("N", 1, MAX_CREDIT), is_required: true),
    choice!(NUMBER, "size": "The octets of a message", value: Value::Number("N", 0, MAX_SIZE), is_required: true),
    choice!(NUMBER, "first-id": "The first transfer id and delivery id", unless: Some("drivers")),
    KEEP,
    SETTLED,
    choice!(FLAG, "drivers": "Each end is one thread, which drives all of its connections"),
    // clap does not ask for `drivers` beside an option that excludes it.
    choice!(NUMBER, "connections": "How many connections there are at once, each with messages of its own; 1 if it is not given",
        value: Value::Number("N", 1, MAX_CONNECTIONS), needs: Some("drivers"), excludes: Some("consumers")),
];

/// Of what prints each frame.
static TRACED: [Choice; 2] = [
    choice!(FLAG, "trace": "Prints each frame on standard error"),
    choice!(FLAG, "color": "Prints the frames in colour", needs: Some("trace")),
];

/// The most messages that a peer may be let send at a time (part 2, 2.6.7).
const MAX_GRANT: u32 = 2_147_483_647;

/// Of who the peer is, and of how it is met.
static PEER: [Choice; 9] = [
    choice!(TEXT, "url": "The peer and the address at it, as amqp://HOST:PORT/ADDRESS, or the address alone",
        value: Value::Text("URL"), is_bare: true, excludes: Some("listen"), group: Some("place")),
    choice!(TEXT, "address": "The address at the peer", usual: Some("q"), excludes: Some("listen"), group: Some("place")),
    choice!(TEXT, "host": "The peer's host, or with --listen the one to listen at: a name or an address, with :PORT behind it if wanted",
        usual: Some("127.0.0.1")),
    choice!(NUMBER, "port": "The peer's port, or with --listen the one to listen at",
        value: PORT, usual: Some("5672")),
    choice!(FLAG, "listen": "Waits for the peer to connect and to attach the link"),
    choice!(NUMBER, "timeout": "How long a connect may take, and how long the peer may be silent",
        value: Value::Number("SECONDS", 1, MAX_PATIENCE)),
    choice!(TEXT, "container-id": "This end's name", usual: Some("amqp_peer")),
    choice!(NUMBER, "max-frame": "The longest frame that this end takes, in octets",
        value: Value::Number("N", MIN_MAX_FRAME, u32::MAX), usual: Some("65536")),
    choice!(NUMBER, "retries": "With --journal: how often in a row a peer is tried again without success", usual: Some("20"), needs: Some("journal")),
];

/// What each message has beside its body.
static LABELS: [Choice; 6] = [
    choice!(TEXT, "message-id": "The messages' message-id, a string"),
    choice!(TEXT, "correlation-id": "Their correlation-id, a string"),
    choice!(TEXT, "subject": "Their subject"),
    choice!(TEXT, "reply-to": "Their reply-to"),
    choice!(TEXT, "content-type": "Their content-type"),
    choice!(FLAG, "durable": "They are durable"),
];

/// Of `send` alone.
static SEND: [Choice; 7] = [
    choice!(FLAG, "lines": "Sends each line of standard input as a message, as without --count, --size and --file", group: Some("body")),
    choice!(NUMBER, "count": "How many messages are sent", value: COUNT, usual: Some("1"), excludes: Some("lines")),
    choice!(NUMBER, "size": "The octets of a message's body", usual: Some("16"), group: Some("body")),
    choice!(TEXT, "file": "Sends this file as each message's body", value: PATH, group: Some("body")),
    SETTLED,
    choice!(FLAG, "quiet": "Does not print how far it is", excludes: Some("trace")),
    Choice {
        excludes: Some("settled"),
        ..JOURNAL
    },
];

/// Of `receive` alone.
static RECEIVE: [Choice; 13] = [
    choice!(NUMBER, "count": "How many messages are received", value: COUNT, usual: Some("1")),
    choice!(NUMBER, "credit": "How many messages may come at a time",
        value: Value::Number("N", 1, MAX_GRANT), usual: Some("10")),
    choice!(FLAG, "half": "Grants credit again once half of it is used, and not all"),
    choice!(FLAG, "drain": "Receives what is there, and waits for no message", excludes: Some("half")),
    choice!(NUMBER, "wait": "How long the next message is waited for",
        value: Value::Number("SECONDS", 1, MAX_PATIENCE), excludes: Some("drain")),
    choice!(FLAG, "lines": "Prints the body of each message as a line, as without these options", group: Some("printed")),
    choice!(FLAG, "sections": "Prints a line for each section of each message", group: Some("printed")),
    choice!(FLAG, "json": "Prints a line of JSON for each message", group: Some("printed")),
    choice!(FLAG, "no-print": "Prints nothing of the messages", group: Some("printed")),
    choice!(FLAG, "quiet": "Prints nothing of the messages, nor how far it is", group: Some("printed")),
    choice!(FLAG, "release": "Releases the messages: the peer may send them again", group: Some("outcome"), excludes: Some("journal")),
    choice!(FLAG, "reject": "Rejects the messages", group: Some("outcome"), excludes: Some("journal")),
    Choice {
        excludes: Some("drain"),
        ..JOURNAL
    },
];

/// Of `serve` alone.
static SERVE: [Choice; 6] = [
    choice!(TEXT, "host": "The host to listen at: a name or an address, with :PORT behind it if wanted", usual: Some("127.0.0.1")),
    choice!(NUMBER, "port": "The port to listen at", value: PORT, usual: Some("5672")),
    choice!(NUMBER, "credit": "How many messages may come at a time on each link",
        value: Value::Number("N", 1, MAX_GRANT), usual: Some("100")),
    choice!(NUMBER, "limit": "How many messages are kept at most", usual: Some("100000")),
    choice!(NUMBER, "threads": "How many threads drive connections",
        value: Value::Number("N", 1, MAX_THREADS), usual: Some("1")),
    choice!(NUMBER, "count": "Ends once so many messages were sent and settled"),
];

/// The command `script` with its options.
pub fn script<'a>(alloc: Global) -> Result<Command<'a>, AllocError> {
    let about = "Reads lines from standard input and answers each with a line";
    command(alloc, "script", about, &[&CONFIG, &KEEPING])
}

/// The command `conn` with its options.
pub fn conn<'a>(alloc: Global) -> Result<Command<'a>, AllocError> {
    let about =
        "Reads lines from standard input, drives a connection by them, and answers each with a line";
    command(alloc, "conn", about, &[&CONFIG])
}

/// The command `frames`, which has no options.
pub fn frames<'a>(alloc: Global) -> Command<'a> {
    let about = "Reads octets in hexadecimal from standard input and names the frames in them";
    Command::new(alloc, "frames").about(about)
}

/// The command `trace` with its options.
pub fn trace<'a>(alloc: Global) -> Result<Command<'a>, AllocError> {
    let about =
        "Reads octets in hexadecimal from standard input and prints a line for each frame in them";
    command(alloc, "trace", about, &[&TRACE])
}

/// The command `explain` with its options.
pub fn explain<'a>(alloc: Global) -> Result<Command<'a>, AllocError> {
    let about = "Explains a number or a condition of an answer, or lists all of them";
    command(alloc, "explain", about, &[&EXPLAIN])
}

/// The command `pair` with its options.
pub fn pair<'a>(alloc: Global) -> Result<Command<'a>, AllocError> {
    let about = "Sends messages from one end of a connection to another, over the loopback";
    command(alloc, "pair", about, &[&PAIR])
}

/// The command `send` with its options.
pub fn send<'a>(alloc: Global) -> Result<Command<'a>, AllocError> {
    let about = "Sends messages to a peer over TCP, and prints what became of them";
    command(alloc, "send", about, &[&TRACED, &PEER, &LABELS, &SEND])
}

/// The command `receive` with its options.
pub fn receive<'a>(alloc: Global) -> Result<Command<'a>, AllocError> {
    let about = "Receives messages from a peer over TCP, prints and accepts them";
    command(alloc, "receive", about, &[&TRACED, &PEER, &RECEIVE])
}

/// The command `serve` with its options.
pub fn serve<'a>(alloc: Global) -> Result<Command<'a>, AllocError> {
    let about =
        "Listens for peers, keeps what they send in memory by address, and sends it to those that take it: for tests";
    command(alloc, "serve", about, &[&TRACED, &SERVE])
}

/// The command `example`, which has no options.
pub fn example<'a>(alloc: Global) -> Command<'a> {
    let about =
        "Runs the examples of how the crates are embedded, each of which prints what it does";
    Command::new(alloc, "example").about(about)
}

/// The command `rows`, which has no options.
pub fn rows<'a>(alloc: Global) -> Command<'a> {
    let about =
        "Reads cases from standard input and prints which of them are answered otherwise than they want";
    Command::new(alloc, "rows").about(about)
}
