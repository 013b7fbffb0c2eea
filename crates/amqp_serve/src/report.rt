//! Lines on standard error about peers.
use crate::greeting::Greeting;
use crate::peer::Peer;
use crate::shared::Shared;
use crate::violation::Violation;
use amqp_conn::{AmqpError, Conn, ConnFault};
use amqp_ready::SlotFault;
use std::net::SocketAddr;
use std::sync::Wait;

/// Returns what most likely made a connection fail, if its beginning says so.
fn meaning(greeting: Greeting, fault: SlotFault, has_opened: bool) -> Option<&'static str> {
    if has_opened {
        return None;
    }
    match (greeting, fault) {
        (Greeting::Amqp, SlotFault::Conn(ConnFault::BadHeader)) => {
            Some("it speaks another version of AMQP than 1.0.0")
        }
        (Greeting::Nothing, SlotFault::Conn(ConnFault::BadHeader)) => Some(
            "it most likely asks for a SASL or TLS layer (part 5), which serve does not have",
        ),
        (Greeting::Amqp, SlotFault::EndOfInput | SlotFault::Read | SlotFault::Write) => Some(
            "it left before it opened the connection: it most likely requires SASL, which serve does not have",
        ),
        (Greeting::Amqp | Greeting::Nothing, SlotFault::TimedOut) => None,
        (greeting, _) => greeting.meaning(),
    }
}

/// Prints that a peer has connected.
pub fn print_connected<R: Wait + Eprint>(rt: &R, shared: &Shared, number: u64, from: SocketAddr) {
    let output = shared.output.lock(rt);
    let _ = eprintln!(rt; "{number} connected {from}");
    drop(output);
}

/// Prints why a connection failed, and each violation that was not printed; with a trace, also that it ended as agreed.
pub fn print_ended<R: Wait + Eprint>(
    rt: &R,
    shared: &Shared,
    peer: &mut Peer,
    conn: &Conn,
    fault: Option<SlotFault>,
) {
    print_violations(rt, shared, peer);
    let output = shared.output.lock(rt);
    match fault {
        Some(fault) => print_fault(rt, peer, conn, fault),
        None => print_close(rt, peer, conn),
    }
    drop(output);
}

fn print_fault<R: Eprint>(rt: &R, peer: &Peer, conn: &Conn, fault: SlotFault) {
    let (number, from) = (peer.number, peer.from);
    let _ = match meaning(peer.greeting, fault, conn.peer().is_some()) {
        Some(meaning) => eprintln!(rt; "{number} failed ({from}): {fault}; {meaning}"),
        None => eprintln!(rt; "{number} failed ({from}): {fault}"),
    };
}

fn print_close<R: Eprint>(rt: &R, peer: &Peer, conn: &Conn) {
    let (number, from) = (peer.number, peer.from);
    if let Some(error) = conn.ended_by() {
        let (condition, description) = words_of(error);
        let _ = eprintln!(rt;
            "{number} failed ({from}): the peer closed with {condition} {description}"
        );
    } else if peer.trace.is_some() {
        let _ = eprintln!(rt; "{number} ended");
    }
}

fn words_of(error: &AmqpError) -> (&str, &str) {
    let description = match &error.description {
        Some(description) => description.as_str(),
        None => "",
    };
    (error.condition.as_str(), description)
}

/// Prints the violations of a peer that were answered.
pub fn print_violations<R: Wait + Eprint>(rt: &R, shared: &Shared, peer: &mut Peer) {
    if peer.violations.is_empty() {
        return;
    }
    let output = shared.output.lock(rt);
    for _ in 0..peer.violations.len() {
        if let Some(violation) = peer.violations.pop_front() {
            print_violation(rt, peer.number, peer.from, &violation);
        }
    }
    drop(output);
}

fn print_violation<R: Eprint>(rt: &R, number: u64, from: SocketAddr, violation: &Violation) {
    let frame = violation.frame.unwrap_or("frame");
    let answer = violation.answer;
    let condition = violation.condition.as_str();
    let _ = eprintln!(rt;
        "{number} violated the protocol ({from}): its {frame} was answered by {answer} with {condition}"
    );
}
