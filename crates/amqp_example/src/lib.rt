//! How the crates are embedded, the lowest first: frames alone, a session with its journal, the client library, a connection, one that threads share. It runs each in
//! turn.
//!
//! | module | which crate it shows |
//! |---|---|
//! | `codec` | `amqp_frames`: frames written, and a stream read however it is cut |
//! | `session` | `amqp_journal`: operations and heard frames in, frames to send out |
//! | `first` | `amqp_client`: messages sent to a peer, in some lines |
//! | `connection` | `amqp_conn`: octets in, octets out |
//! | `rejoined` | `amqp_conn`: a link that goes on over several connections |
//! | `shared` | `amqp_shared`: two threads send on one connection |
//! | `operations`, `telling` | the operations that these do, and what they tell |
#![tactic(auto)]

mod codec;
mod connection;
mod first;
mod operations;
mod rejoined;
mod session;
mod shared;
mod telling;

use std::io::Write;
use std::sync::Wait;
use std::thread::Threads;

/// Runs each example in turn, and writes the lines that tell what it does.
pub fn run_examples<R: AllocGlobal + Threads + Wait + Sync, W: Write>(
    rt: &R,
    writer: &mut W,
) -> anyhow::Result<()> {
    let mut lines = Vec::new(rt.alloc());
    let ran = run_each(rt, &mut lines);
    let written = writer.write_all(lines.as_slice());
    drop(lines);
    ran?;
    written?;
    Ok(writer.flush()?)
}

fn run_each<R: AllocGlobal + Threads + Wait + Sync>(
    rt: &R,
    lines: &mut Vec<u8>,
) -> anyhow::Result<()> {
    codec::run(lines)?;
    session::run(lines)?;
    first::send_first(lines)?;
    connection::run(lines)?;
    rejoined::run(lines)?;
    shared::run(rt, lines)
}
