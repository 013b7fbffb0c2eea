//! Measures the codec, and messages over a session in memory and over sockets of the loopback. What is written has counts, the same in each run;
//! standard error has times.
//!
//! | module | what it has |
//! |---|---|
//! | `codec` | frames written and read |
//! | `session` | messages between two ends in memory, and what is asked for of messages |
//! | `sockets` | messages over sockets, each end with one thread for all of its connections |
//! | `drivers` | both of these ends in one process |
//! | `end` | an end of a connection in memory |
//! | `hand` | what an end does that is measured, in memory and over sockets |
#![tactic(auto)]

mod codec;
mod drivers;
mod end;
mod hand;
mod session;
mod sockets;

use codec::run_codec;
pub use drivers::run_drivers;
pub use session::Messages;
use session::run_sessions;
use sockets::run_sockets;
pub use sockets::{Ends, Sockets};
use std::io::Write;
use std::net::Net;
use std::rt::Clock;

/// Long messages in two transfers each, more of them than there is credit for at a time.
const SHORT_MESSAGES: Messages = Messages {
    count: 3,
    size: 70000,
    settled: false,
    credit: 2,
    range: 1,
    keep: None,
};

/// A short run of all three: the codec, messages over a session, and over two connections with both ends of each.
pub const SHORT_RUN: Bench = Bench::All {
    rounds: 1000,
    messages: SHORT_MESSAGES,
    sockets: Sockets {
        ends: Ends::Both,
        port: 0,
        connections: 2,
        messages: SHORT_MESSAGES,
    },
};

/// What is to be measured.
#[derive(Clone, Copy, Debug)]
pub enum Bench {
    /// Frames written and read, so often; one way alone where a part is named.
    Codec {
        rounds: u32,
        part: Option<u32>,
    },
    /// Messages over a session, and so many sessions one after the other.
    Session {
        messages: Messages,
        sessions: u32,
    },
    /// Messages over sockets.
    Sockets(Sockets),
    /// The codec, and then messages, over a session and over sockets.
    All {
        rounds: u32,
        messages: Messages,
        sockets: Sockets,
    },
}

/// Measures what is asked for: the writer gets the counts, standard error the times.
pub fn run_bench<R, W>(rt: &R, bench: Bench, writer: &mut W) -> anyhow::Result<()>
where
    R: AllocGlobal + Eprint + Clock + Net,
    W: Write,
{
    match bench {
        Bench::Codec { rounds, part } => run_codec(rt, rounds, part, writer),
        Bench::Session { messages, sessions } => run_sessions(rt, messages, sessions, writer),
        Bench::Sockets(sockets) => run_sockets(rt, sockets, writer),
        Bench::All {
            rounds,
            messages,
            sockets,
        } => {
            run_codec(rt, rounds, None, writer)?;
            run_sessions(rt, messages, 1, writer)?;
            run_sockets(rt, sockets, writer)
        }
    }
}
