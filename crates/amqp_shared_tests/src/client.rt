//! Calls of the client library, over recorded peers that say one piece at each read, and over a socket of the loopback.

use amqp_client::{
    Client, ClientError, ClientFault, Message, Options, Outcome, Pending, ReceivedMessage, Sender,
    answer, finish, grant, settle_as, take,
};
use amqp_conn::{DeliveryState, Refusal, Role};
use amqp_pair::connected;
use std::alloc::Global;
use std::io::{Read, Sink, sink};
use std::net::TcpStream;
use std::{io, thread};

/// Its header.
const HEADER: &[u8] = b"AMQP\x00\x01\x00\x00";

/// Its open.
const OPEN: &[u8] = b"\x00\x00\x00\x11\x02\x00\x00\x00\x00S\x10\xc0\x04\x01\xa1\x01a";

/// Its begin.
const BEGIN: &[u8] =
    b"\x00\x00\x00\x1c\x02\x00\x00\x00\x00S\x11\xc0\x0f\x04`\x00\x00Cp\x00\x00\x08\x00p\x7f\xff\xff\xff";

/// Its attach of our first link, on which we send.
const TAKES: &[u8] =
    b"\x00\x00\x007\x02\x00\x00\x00\x00S\x12\xc0*\x07\xa1\x07queue-0CA@@\x00S(\xc0\x0a\x01\xa1\x07queue-0\x00S)\xc0\x08\x01\xa1\x05queue";

/// Its attach of our first link, on which we receive.
const SENDS: &[u8] =
    b"\x00\x00\x00<\x02\x00\x00\x00\x00S\x12\xc0/\x0a\xa1\x07queue-0CBP\x02P\x00\x00S(\xc0\x08\x01\xa1\x05queue\x00S)\xc0\x0a\x01\xa1\x07queue-0@@C";

/// Its attach of our second link, on which we receive.
const SENDS_TOO: &[u8] =
    b"\x00\x00\x00=\x02\x00\x00\x00\x00S\x12\xc00\x0a\xa1\x07other-1R\x01BP\x02P\x00\x00S(\xc0\x08\x01\xa1\x05other\x00S)\xc0\x0a\x01\xa1\x07other-1@@C";

/// A flow with a credit of 5 for the first link.
const FLOW: &[u8] =
    b"\x00\x00\x00\x1e\x02\x00\x00\x00\x00S\x13\xc0\x11\x07Cp\x00\x00\x08\x00Cp\x7f\xff\xff\xffCCR\x05";

/// The outcomes of our first three deliveries: accepted, first without settling, rejected, released.
const OUTCOMES: &[u8] =
    b"\x00\x00\x00\x16\x02\x00\x00\x00\x00S\x15\xc0\x09\x05AC@B\x00S$E\x00\x00\x00\x16\x02\x00\x00\x00\x00S\x15\xc0\x09\x05AC@A\x00S$E\x00\x00\x00B\x02\x00\x00\x00\x00S\x15\xc05\x05AR\x01@A\x00S%\xc0*\x01\x00S\x1d\xc0$\x02\xa3\x18amqp:precondition-failed\xa1\x07too old\x00\x00\x00\x17\x02\x00\x00\x00\x00S\x15\xc0\x0a\x05AR\x02@A\x00S&E";

/// The outcome of our first delivery: accepted.
const ACCEPTED: &[u8] = b"\x00\x00\x00\x16\x02\x00\x00\x00\x00S\x15\xc0\x09\x05AC@A\x00S$E";

/// A message whose body is the text `hi`, on the second link.
const HI: &[u8] =
    b"\x00\x00\x00\x1d\x02\x00\x00\x00\x00S\x14\xc0\x09\x05R\x01C\xa0\x01\x01CB\x00Sw\xa1\x02hi";

/// Two messages on the first link: data of one octet each.
const TWO: &[u8] =
    b"\x00\x00\x00\x1b\x02\x00\x00\x00\x00S\x14\xc0\x08\x05CC\xa0\x01\x01CB\x00Su\xa0\x01a\x00\x00\x00\x1c\x02\x00\x00\x00\x00S\x14\xc0\x09\x05CR\x01\xa0\x01\x02CB\x00Su\xa0\x01b";

/// Its detach of the first link, since there is no such queue.
const NO_QUEUE: &[u8] =
    b"\x00\x00\x005\x02\x00\x00\x00\x00S\x16\xc0(\x03CA\x00S\x1d\xc0 \x02\xa3\x0eamqp:not-found\xa1\x0dno such queue";

/// Its detach of the first link.
const DETACH: &[u8] = b"\x00\x00\x00\x10\x02\x00\x00\x00\x00S\x16\xc0\x03\x02CA";

/// Its attach and its detach of the first link in one piece.
const REFUSES: &[u8] =
    b"\x00\x00\x007\x02\x00\x00\x00\x00S\x12\xc0*\x07\xa1\x07queue-0CA@@\x00S(\xc0\x0a\x01\xa1\x07queue-0\x00S)\xc0\x08\x01\xa1\x05queue\x00\x00\x005\x02\x00\x00\x00\x00S\x16\xc0(\x03CA\x00S\x1d\xc0 \x02\xa3\x0eamqp:not-found\xa1\x0dno such queue";

/// Its end with an error.
const END: &[u8] =
    b"\x00\x00\x00.\x02\x00\x00\x00\x00S\x17\xc0!\x01\x00S\x1d\xc0\x1b\x01\xa3\x18amqp:unauthorized-access";

/// Its close with an error whose text has a line's end.
const CLOSE_ERROR: &[u8] =
    b"\x00\x00\x005\x02\x00\x00\x00\x00S\x18\xc0(\x01\x00S\x1d\xc0\x22\x02\xa3\x16amqp:connection:forced\xa1\x07bye\x0abye";

/// Its close.
const CLOSE: &[u8] = b"\x00\x00\x00\x0c\x02\x00\x00\x00\x00S\x18E";

/// The header of a SASL layer.
const SASL: &[u8] = b"AMQP\x03\x01\x00\x00";

/// No piece: a read that fails.
const RESET: &[u8] = b"reset";

/// A peer that was recorded. It ends behind its last piece.
#[derive(Drop)]
struct Recorded {
    pieces: &'static [&'static [u8]],
    reads: usize,
}

impl Read for Recorded {
    fn read(&mut self, buf: &mut [u8]) -> io::Result<usize> {
        let mut piece: &[u8] = match self.pieces.get(self.reads) {
            Some(piece) => piece,
            None => &[],
        };
        self.reads = self.reads.saturating_add(1);
        if piece == RESET {
            return Err(io::Error::from(io::ErrorKind::ConnectionReset));
        }
        piece.read(buf)
    }
}

type Recording = Client<Recorded, Sink>;

fn client_of(alloc: Global, pieces: &'static [&'static [u8]]) -> Option<Recording> {
    let recorded = Recorded { pieces, reads: 0 };
    Client::over(alloc, &Options::new("me"), recorded, sink()).ok()
}

fn start_one(
    alloc: Global,
    client: &mut Recording,
    sender: Sender,
) -> Result<Pending, ClientError> {
    let message = Message::text(alloc, "hello")?;
    let started = client.start_send(sender, &message);
    drop(message);
    started
}

/// Three messages, whose outcomes are asked for in another order, and one of them twice.
fn outcomes_of(alloc: Global, client: &mut Recording) -> Result<[Outcome; 3], ClientError> {
    let queue = client.sender("queue")?;
    let first = start_one(alloc, client, queue)?;
    let second = start_one(alloc, client, queue)?;
    let third = start_one(alloc, client, queue)?;
    let last = client.outcome(third)?;
    let outcomes = [client.outcome(first)?, client.outcome(second)?, last];
    match client.outcome(first) {
        Err(ClientError::Refused(Refusal::Nothing)) => Ok(outcomes),
        _ => Err(ClientError::Lost),
    }
}

fn has_outcomes(alloc: Global) -> bool {
    let pieces: &[&[u8]] = &[HEADER, OPEN, BEGIN, TAKES, FLOW, OUTCOMES, CLOSE];
    let Some(mut client) = client_of(alloc, pieces) else {
        return false;
    };
    let outcomes = outcomes_of(alloc, &mut client);
    let is_closed = client.close().is_ok();
    drop(client);
    match outcomes {
        Ok(outcomes) => {
            is_closed && outcomes == [Outcome::Accepted, Outcome::Rejected, Outcome::Released]
        }
        Err(_) => false,
    }
}

/// A run that is refused memory once fails, and the next one does not.
#[test]
fn outcomes_come_in_any_order(rt: HostRuntime) {
    assert!(rt; has_outcomes(rt.alloc()) || has_outcomes(rt.alloc()));
}

fn is_hi(alloc: Global, received: &ReceivedMessage) -> bool {
    match received.message.body(alloc) {
        Ok(Some(body)) => body.as_slice() == b"hi".as_slice(),
        _ => false,
    }
}

/// A message of the one link goes out over the other.
fn forwards(alloc: Global, client: &mut Recording) -> Result<bool, ClientError> {
    let to = client.sender("queue")?;
    let from = client.receiver("other", 1)?;
    let received = client.receive(from)?;
    let (delivery, is_hi) = (received.delivery, is_hi(alloc, &received));
    let sent = client.send(to, &received.message);
    drop(received);
    let outcome = sent?;
    client.settle(from, delivery, outcome)?;
    client.close()?;
    Ok(is_hi && outcome == Outcome::Accepted)
}

fn has_forwarded(alloc: Global) -> bool {
    let pieces: &[&[u8]] = &[
        HEADER, OPEN, BEGIN, TAKES, SENDS_TOO, HI, FLOW, ACCEPTED, CLOSE,
    ];
    let Some(mut client) = client_of(alloc, pieces) else {
        return false;
    };
    let forwarded = forwards(alloc, &mut client);
    drop(client);
    match forwarded {
        Ok(is_so) => is_so,
        Err(_) => false,
    }
}

#[test]
fn a_connection_has_several_links(rt: HostRuntime) {
    assert!(rt; has_forwarded(rt.alloc()) || has_forwarded(rt.alloc()));
}

fn send_hello(alloc: Global, client: &mut Recording) -> Result<Outcome, ClientError> {
    let queue = client.sender("queue")?;
    let pending = start_one(alloc, client, queue)?;
    client.outcome(pending)
}

fn receive_all(client: &mut Recording) -> Result<Outcome, ClientError> {
    let queue = client.receiver("queue", 1)?;
    for _ in 0..3 {
        let received = client.receive(queue)?;
        drop(received);
    }
    Ok(Outcome::Unknown)
}

/// Whether the error is printed so.
fn prints(alloc: Global, outcome: Result<Outcome, ClientError>, due: &str) -> bool {
    match outcome {
        Ok(_) => false,
        Err(error) => {
            let is_so = match format!(in alloc; "{error}") {
                Ok(text) => text.as_str() == due,
                Err(_) => false,
            };
            drop(error);
            is_so
        }
    }
}

/// What a peer says, and how the error of a call is printed that it ends.
#[derive(Clone, Copy)]
struct Row {
    receives: bool,
    pieces: &'static [&'static [u8]],
    due: &'static str,
}

const ROWS: [Row; 10] = [
    Row {
        receives: false,
        pieces: &[HEADER, OPEN, BEGIN, TAKES, NO_QUEUE],
        due: "the peer ended the link: amqp:not-found: no such queue",
    },
    Row {
        receives: false,
        pieces: &[HEADER, OPEN, BEGIN, REFUSES],
        due: "the peer ended the link: amqp:not-found: no such queue",
    },
    Row {
        receives: false,
        pieces: &[HEADER, OPEN, BEGIN, END],
        due: "the peer ended the session: amqp:unauthorized-access",
    },
    Row {
        receives: false,
        pieces: &[HEADER, OPEN, CLOSE_ERROR],
        due: "the peer closed the connection: amqp:connection:forced: bye\\x0abye",
    },
    Row {
        receives: false,
        pieces: &[HEADER, OPEN, CLOSE],
        due: "the peer closed the connection",
    },
    Row {
        receives: false,
        pieces: &[],
        due: "the peer hung up before its header: it may require TLS or SASL",
    },
    Row {
        receives: false,
        pieces: &[SASL],
        due: "the peer requires SASL, which this library does not speak",
    },
    Row {
        receives: true,
        pieces: &[HEADER, OPEN, BEGIN, SENDS, TWO, DETACH],
        due: "the link was ended, since the peer broke a rule: amqp:link:transfer-limit-exceeded",
    },
    Row {
        receives: true,
        pieces: &[HEADER, OPEN, BEGIN, SENDS],
        due: "the connection was lost",
    },
    Row {
        receives: true,
        pieces: &[HEADER, OPEN, BEGIN, SENDS, RESET],
        due: "a read failed: connection reset",
    },
];

fn fails(alloc: Global, row: &Row) -> bool {
    let Some(mut client) = client_of(alloc, row.pieces) else {
        return false;
    };
    let outcome = if row.receives {
        receive_all(&mut client)
    } else {
        send_hello(alloc, &mut client)
    };
    drop(client);
    prints(alloc, outcome, row.due)
}

#[test]
fn the_reason_of_an_end_is_reported(rt: HostRuntime) {
    for row in ROWS {
        assert!(rt; fails(rt.alloc(), &row) || fails(rt.alloc(), &row));
    }
}

fn over_socket(alloc: Global, stream: TcpStream) -> Option<Client<TcpStream, TcpStream>> {
    match stream.try_clone() {
        Ok(reader) => Client::over(alloc, &Options::new("me"), reader, stream).ok(),
        Err(_) => None,
    }
}

/// Sends messages of several transfers, and returns their outcomes.
fn send_three(
    alloc: Global,
    client: &mut Client<TcpStream, TcpStream>,
) -> Result<[Outcome; 3], ClientError> {
    let queue = client.sender("queue")?;
    let octets = vec![in alloc; 7u8; 200000]?;
    let message = Message::data(alloc, octets.as_slice());
    drop(octets);
    let message = message?;
    let mut outcomes = [Outcome::Unknown; 3];
    for place in 0..outcomes.len() {
        outcomes[place] = client.send(queue, &message)?;
    }
    drop(message);
    client.close()?;
    Ok(outcomes)
}

fn sends(alloc: Global, stream: TcpStream) -> bool {
    let Some(mut client) = over_socket(alloc, stream) else {
        return false;
    };
    let sent = send_three(alloc, &mut client);
    drop(client);
    match sent {
        Ok(outcomes) => outcomes == [Outcome::Accepted, Outcome::Rejected, Outcome::Released],
        Err(_) => false,
    }
}

fn state_at(place: u32) -> DeliveryState {
    match place {
        0 => DeliveryState::Accepted,
        1 => DeliveryState::Rejected(None),
        _ => DeliveryState::Released,
    }
}

/// Takes three messages of the peer's link: how many octets they had.
fn take_three(client: &mut Client<TcpStream, TcpStream>) -> Result<u64, ClientFault> {
    answer(client, Role::Receiver)?;
    grant(client, 3)?;
    let mut octets = 0u64;
    for place in 0..3 {
        let taken = take(client)?;
        octets = octets.saturating_add(taken.get().payload.len());
        let id = taken.get().id;
        drop(taken);
        settle_as(client, id, state_at(place))?;
    }
    finish(client)?;
    Ok(octets)
}

fn takes(alloc: Global, stream: TcpStream) -> bool {
    let Some(mut client) = over_socket(alloc, stream) else {
        return false;
    };
    let octets = take_three(&mut client);
    drop(client);
    // Each has the head of a data section.
    matches!(octets, Ok(600024))
}

#[test]
fn messages_go_over_a_socket(rt: HostRuntime) {
    let alloc = rt.alloc();
    let Some((near, far)) = connected(&rt).ok() else {
        panic!(rt; "no socket");
    };
    let (is_sent, is_taken) = thread::join(&rt, || sends(alloc, near), || takes(alloc, far));
    assert!(rt; is_sent && is_taken);
}
