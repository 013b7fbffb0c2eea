//! Messages between two ends that each do one thing after the other, over a socket of the loopback: either of them begins. And what a peer says in one piece.

use crate::octets::{DELIVERED, TOLD, transfer};
use amqp_client::{Client, Session};
use amqp_conn::{Config, Text};
use amqp_exchange::exchange::{
    Exchange, Outcomes, Received, Renewal, Sent, Settlement, client_over, receive_all, send_all,
};
use amqp_exchange::journal::{read_line, whole_lines};
use amqp_exchange::{Labels, Printed, Unwatched};
use amqp_pair::connected;
use std::alloc::{AllocError, Global};
use std::io::{Read, Sink, sink};
use std::net::TcpStream;
use std::{io, thread};

/// A message of no octets, unsettled.
const ONE: Exchange<'static> = Exchange {
    host: "",
    port: 0,
    is_listening: false,
    address: "q",
    container_id: "amqp_peer",
    max_frame: 65536,
    count: 1,
    patience: None,
    wait: None,
    size: 0,
    file: None,
    is_lines: false,
    is_polled: false,
    labels: Labels::NONE,
    is_settled: false,
    credit: 1,
    renewal: Renewal::AtZero,
    settlement: Settlement::Accept,
    printed: Printed::Nothing,
    trace: None,
    is_quiet: true,
    journal: None,
    retries: 0,
};

/// What three messages are, two at a time, for both ends.
#[derive(Clone, Copy)]
struct Row {
    /// Who sends listens.
    is_listening: bool,
    /// The octets of a body.
    size: u32,
    is_settled: bool,
    /// The octets of all three messages.
    octets: u64,
}

const ROWS: [Row; 4] = [
    Row {
        is_listening: false,
        size: 16,
        is_settled: false,
        octets: 63,
    },
    Row {
        is_listening: true,
        size: 16,
        is_settled: false,
        octets: 63,
    },
    Row {
        is_listening: false,
        size: 200000,
        is_settled: false,
        octets: 600024,
    },
    Row {
        is_listening: true,
        size: 0,
        is_settled: true,
        octets: 15,
    },
];

impl Row {
    fn exchange(&self, is_listening: bool) -> Exchange<'static> {
        Exchange {
            is_listening,
            count: 3,
            size: self.size,
            is_settled: self.is_settled,
            credit: 2,
            ..ONE
        }
    }

    fn is_right(&self, told: Option<Sent>, had: Option<Received>) -> bool {
        told == Some(all(3, if self.is_settled { 0 } else { 3 }))
            && had
                == Some(Received {
                    count: 3,
                    octets: self.octets,
                    unsettled: 0,
                })
    }
}

/// So many messages, of which so many were accepted.
fn all(count: u64, accepted: u64) -> Sent {
    Sent {
        count,
        outcomes: Outcomes {
            accepted,
            ..Outcomes::NONE
        },
    }
}

fn sent(alloc: Global, stream: TcpStream, row: &Row) -> Option<Sent> {
    let exchange = row.exchange(row.is_listening);
    let Ok(mut client) = client_over(alloc, stream, &exchange) else {
        return None;
    };
    let mut input: &[u8] = &[];
    let sent = send_all(
        alloc,
        &mut client,
        &exchange,
        None,
        &mut input,
        &mut Unwatched,
    )
    .ok();
    drop(client);
    sent
}

fn received(alloc: Global, stream: TcpStream, row: &Row) -> Option<Received> {
    let exchange = row.exchange(!row.is_listening);
    let Ok(mut client) = client_over(alloc, stream, &exchange) else {
        return None;
    };
    let received = receive_all(alloc, &mut client, &exchange, &mut sink(), &mut Unwatched).ok();
    drop(client);
    received
}

#[test]
fn messages_are_exchanged(rt: HostRuntime) {
    let alloc = rt.alloc();
    for row in ROWS {
        let Some((near, far)) = connected(&rt).ok() else {
            panic!(rt; "no socket");
        };
        let (told, had) = thread::join(
            &rt,
            || sent(alloc, near, &row),
            || received(alloc, far, &row),
        );
        assert!(rt; row.is_right(told, had));
    }
}

/// Octets of the peer's in three pieces, one at each read: two of these lengths, and the rest.
#[derive(Drop)]
struct Pieces<'a> {
    octets: &'a [u8],
    first: usize,
    second: usize,
    reads: u32,
}

impl Read for Pieces<'_> {
    fn read(&mut self, buf: &mut [u8]) -> io::Result<usize> {
        let most = match self.reads {
            0 => self.first,
            1 => self.second,
            _ => self.octets.len(),
        };
        self.reads = self.reads.saturating_add(1);
        let (mut piece, rest) = self.octets.split_at(self.octets.len().min(most));
        self.octets = rest;
        piece.read(buf)
    }
}

type Fed<'a> = Client<Pieces<'a>, Sink>;

/// An end that hears these octets, in such pieces.
fn fed(alloc: Global, octets: &[u8], first: usize, second: usize) -> Option<Fed<'_>> {
    let Ok(name) = Text::new(alloc, "amqp_peer") else {
        return None;
    };
    let pieces = Pieces {
        octets,
        first,
        second,
        reads: 0,
    };
    match Client::new(alloc, Config::new(name), None, pieces, sink()) {
        Ok(client) => Some(client),
        Err(_) => None,
    }
}

/// Two lines are sent as messages.
fn sent_to(alloc: Global, second: usize) -> Option<Sent> {
    let mut client = fed(alloc, &TOLD, 119, second)?;
    let lines = Exchange {
        is_lines: true,
        ..ONE
    };
    let mut input: &[u8] = b"x\ny";
    let sent = send_all(alloc, &mut client, &lines, None, &mut input, &mut Unwatched).ok();
    drop(client);
    sent
}

fn received_from(alloc: Global, second: usize) -> Option<Received> {
    let mut client = fed(alloc, &DELIVERED, 96, second)?;
    let received = receive_all(alloc, &mut client, &ONE, &mut sink(), &mut Unwatched).ok();
    drop(client);
    received
}

/// The peer tells what became of both messages, and that they are settled, one behind the other; also where it ends in the same piece.
#[test]
fn outcomes_and_their_settling_count_once(rt: HostRuntime) {
    for second in [42, 99] {
        assert!(rt; sent_to(rt.alloc(), second) == Some(all(2, 2)));
    }
}

/// The peer sends a message and ends in the same piece, or later.
#[test]
fn a_message_of_a_link_that_is_gone_is_told(rt: HostRuntime) {
    for (second, unsettled) in [(23, 0), (99, 1)] {
        let due = Received {
            count: 1,
            octets: 1,
            unsettled,
        };
        assert!(rt; received_from(rt.alloc(), second) == Some(due));
    }
}

/// What each line is labelled with.
const LABELS: Labels<'static> = Labels {
    is_durable: true,
    message_id: Some("m"),
    correlation_id: Some("c"),
    subject: Some("s"),
    reply_to: Some("r"),
    content_type: Some("t"),
};

/// How a message of one line is printed.
const PRINTED: &str = "header durable=true
properties message-id=\"m\" subject=\"s\" reply-to=\"r\" correlation-id=\"c\" content-type=:t
data b\"x\"
header durable=true
properties message-id=\"m\" subject=\"s\" reply-to=\"r\" correlation-id=\"c\" content-type=:t
data b\"yz\"
";

/// Sends the lines of this text.
fn lines_sent(
    alloc: Global,
    stream: TcpStream,
    labels: Labels<'static>,
    text: &[u8],
) -> Option<Sent> {
    let exchange = Exchange {
        is_lines: true,
        labels,
        ..ONE
    };
    let Ok(mut client) = client_over(alloc, stream, &exchange) else {
        return None;
    };
    let mut input = text;
    let sent = send_all(
        alloc,
        &mut client,
        &exchange,
        None,
        &mut input,
        &mut Unwatched,
    )
    .ok();
    drop(client);
    sent
}

/// Whether the messages are printed as this text.
fn are_printed(alloc: Global, stream: TcpStream, exchange: &Exchange<'_>, due: &[u8]) -> bool {
    let Ok(mut client) = client_over(alloc, stream, exchange) else {
        return false;
    };
    let mut text: Vec<u8> = Vec::new(alloc);
    let had = receive_all(alloc, &mut client, exchange, &mut text, &mut Unwatched);
    drop(client);
    had.is_ok() && text.as_slice() == due
}

/// Lines are sent with what labels them, the last one also if it has no end.
#[test]
fn lines_and_their_labels_are_printed(rt: HostRuntime) {
    let alloc = rt.alloc();
    let Some((near, far)) = connected(&rt).ok() else {
        panic!(rt; "no socket");
    };
    let both = Exchange {
        is_listening: true,
        count: 2,
        printed: Printed::Sections,
        ..ONE
    };
    let (sent, is_right) = thread::join(
        &rt,
        || lines_sent(alloc, near, LABELS, b"x\nyz"),
        || are_printed(alloc, far, &both, PRINTED.as_bytes()),
    );
    assert!(rt; sent == Some(all(2, 2)) && is_right);
}

/// How many octets a line has that goes in some 2100 transfers of 384 octets: more than the incoming window has.
const LONG: usize = 800000;

fn long_line(alloc: Global) -> Result<Vec<u8>, AllocError> {
    let mut text = vec![in alloc; b'y'; LONG]?;
    text.push(b'\n')?;
    Ok(text)
}

/// A line that goes in several transfers is printed as it was, and the window is announced again in its middle.
#[test]
fn a_long_line_is_printed_as_it_was(rt: HostRuntime) {
    let alloc = rt.alloc();
    let Some((near, far)) = connected(&rt).ok() else {
        panic!(rt; "no socket");
    };
    let Ok(text) = long_line(alloc) else {
        panic!(rt; "no memory");
    };
    let one = Exchange {
        is_listening: true,
        max_frame: 512,
        printed: Printed::Bodies,
        ..ONE
    };
    let (sent, is_right) = thread::join(
        &rt,
        || lines_sent(alloc, near, Labels::NONE, text.as_slice()),
        || are_printed(alloc, far, &one, text.as_slice()),
    );
    assert!(rt; sent == Some(all(1, 1)) && is_right);
}

/// A peer that has attached its link, and two messages that come in one piece.
fn two_messages(alloc: Global) -> Result<Vec<u8>, AllocError> {
    let mut octets = Vec::from_slice(alloc, &DELIVERED[..96])?;
    octets.extend_from_slice(&transfer(0, 0))?;
    octets.extend_from_slice(&transfer(0, 1))?;
    Ok(octets)
}

/// How much credit the peer has left once two of three messages were taken.
fn credit_left(alloc: Global, octets: &[u8], renewal: Renewal) -> Option<u32> {
    let mut client = fed(alloc, octets, 96, 46)?;
    let three = Exchange {
        count: 3,
        credit: 2,
        renewal,
        ..ONE
    };
    let had = receive_all(alloc, &mut client, &three, &mut sink(), &mut Unwatched);
    let credit = client.end().credit();
    drop(client);
    match had {
        Ok(_) => None,
        Err(_) => Some(credit),
    }
}

/// A message that is there and not taken is wanted no more: no credit is granted for it.
#[test]
fn no_credit_beyond_what_is_wanted(rt: HostRuntime) {
    let Ok(octets) = two_messages(rt.alloc()) else {
        panic!(rt; "no memory");
    };
    for renewal in [Renewal::AtZero, Renewal::AtHalf] {
        assert!(rt; credit_left(rt.alloc(), octets.as_slice(), renewal) == Some(1));
    }
}

/// A line of each kind, and such as are no lines of a journal.
const LINES: [(&str, bool); 21] = [
    ("sender 616d71705f70656572", true),
    ("receiver -", true),
    ("begun 4294967294", true),
    ("accepted 1", true),
    ("rejected 2", true),
    ("released 3", true),
    ("modified 4", true),
    ("unknown 0", true),
    ("output 2049 18446744073709551615", true),
    ("printing 00ff 12", true),
    ("taken - 0", true),
    ("taken 00ff 18446744073709551615", true),
    (
        "settled 000102030405060708090a0b0c0d0e0f101112131415161718191a1b1c1d1e1f",
        true,
    ),
    ("", false),
    ("begun", false),
    ("begun 4294967296", false),
    ("begun 1 2", false),
    ("lost 1", false),
    ("taken 0 1", false),
    ("taken 00", false),
    (
        "settled 000102030405060708090a0b0c0d0e0f101112131415161718191a1b1c1d1e1f20",
        false,
    ),
];

/// Whether the text is read as what was written, where it is a line.
fn is_read(alloc: Global, text: &str, is_line: bool) -> bool {
    match read_line(text.as_bytes()) {
        Some(line) => match format!(in alloc; "{line}") {
            Ok(told) => is_line && told.as_str() == text,
            Err(_) => false,
        },
        None => !is_line,
    }
}

/// A journal's line is read as what was written, and one that was torn off is passed over.
#[test]
fn lines_of_a_journal_are_read_back(rt: HostRuntime) {
    for (text, is_line) in LINES {
        assert!(rt; is_read(rt.alloc(), text, is_line));
    }
    let whole = whole_lines(b"begun 0\nacc") == b"begun 0\n".as_slice();
    assert!(rt; whole && whole_lines(b"beg").is_empty());
}
