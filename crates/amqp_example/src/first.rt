//! A connection in some lines: messages go to a queue by the client library. The peer is one that was recorded; over TCP the client is made by
//! [`Client::connect`], and all else is the same.

use amqp_client::{Client, Message, Options};
use std::alloc::Global;
use std::io;
use std::io::{Read, Write, sink};

/// Sends three messages to the queue, and prints the outcome of each.
fn send_three<R: Read, W: Write>(
    alloc: Global,
    client: &mut Client<R, W>,
    lines: &mut Vec<u8>,
) -> anyhow::Result<()> {
    let queue = client.sender("queue")?;
    for text in ["one", "two", "three"] {
        let message = Message::text(alloc, text)?;
        let outcome = client.send(queue, &message)?;
        writeln!(lines, "first: message {text}: {outcome:?}")?;
    }
    Ok(client.close()?)
}

/// Sends messages to the recorded peer, which accepts the first one, rejects the second one and releases the third one.
pub fn send_first(lines: &mut Vec<u8>) -> anyhow::Result<()> {
    let alloc = *lines.allocator();
    let mut client = Client::over(alloc, &Options::new("first"), Recorded { reads: 0 }, sink())?;
    let sent = send_three(alloc, &mut client, lines);
    drop(client);
    sent
}

/// What the peer says: its header, open, begin and attach, a flow with credit for five messages, the outcomes of three, its close.
const SAID: [&[u8]; 9] = [
    b"AMQP\x00\x01\x00\x00",
    b"\x00\x00\x00\x11\x02\x00\x00\x00\x00S\x10\xc0\x04\x01\xa1\x01a",
    b"\x00\x00\x00\x1c\x02\x00\x00\x00\x00S\x11\xc0\x0f\x04`\x00\x00Cp\x00\x00\x08\x00p\x7f\xff\xff\xff",
    b"\x00\x00\x007\x02\x00\x00\x00\x00S\x12\xc0*\x07\xa1\x07queue-0CA@@\x00S(\xc0\x0a\x01\xa1\x07queue-0\x00S)\xc0\x08\x01\xa1\x05queue",
    b"\x00\x00\x00\x1e\x02\x00\x00\x00\x00S\x13\xc0\x11\x07Cp\x00\x00\x08\x00Cp\x7f\xff\xff\xffCCR\x05",
    b"\x00\x00\x00\x16\x02\x00\x00\x00\x00S\x15\xc0\x09\x05AC@A\x00S$E",
    b"\x00\x00\x00\x17\x02\x00\x00\x00\x00S\x15\xc0\x0a\x05AR\x01@A\x00S%E",
    b"\x00\x00\x00\x17\x02\x00\x00\x00\x00S\x15\xc0\x0a\x05AR\x02@A\x00S&E",
    b"\x00\x00\x00\x0c\x02\x00\x00\x00\x00S\x18E",
];

/// The recorded peer says one thing more at each read.
#[derive(Drop)]
struct Recorded {
    reads: usize,
}

impl Read for Recorded {
    fn read(&mut self, buffer: &mut [u8]) -> io::Result<usize> {
        let Some(said) = SAID.get(self.reads) else {
            return Ok(0);
        };
        self.reads = self.reads.saturating_add(1);
        let count = said.len().min(buffer.len());
        buffer[..count].copy_from_slice(&said[..count]);
        Ok(count)
    }
}
