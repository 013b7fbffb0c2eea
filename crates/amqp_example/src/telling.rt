//! What an end tells, a line each.

use amqp_conn::Learned;
use std::io::Write;

/// What became of the link or the delivery with this number.
pub fn tell_of(
    lines: &mut Vec<u8>,
    name: &str,
    what: &str,
    number: u32,
    became: &str,
) -> anyhow::Result<()> {
    Ok(writeln!(lines, "{name}: {what} {number} {became}")?)
}

/// A delivery of ours, of which the peer has told the outcome.
pub fn tell_learned(lines: &mut Vec<u8>, name: &str, learned: &Learned) -> anyhow::Result<()> {
    let (id, settled) = (learned.id, learned.settled);
    Ok(writeln!(lines, "{name}: delivery {id} is settled: {settled}")?)
}
