//! What no clause says: an endpoint gives its replies where memory is there, both as they are wanted.

use crate::octets::BEGIN;
use amqp_endpoint::config::Config;
use amqp_endpoint::endpoint::Endpoint;
use amqp_endpoint::op::Op;
use amqp_endpoint::reply::{Given, Reply};
use amqp_frames::{BeginBody, Frame, Performative};
use amqp_types::Boxed;
use bytes::Bytes;
use std::alloc::Global;

const CONFIG: Config = Config {
    first_id: 0,
    window: 5,
    journal_limit: 1000,
};

/// Both replies send these octets, if any, end nothing and give nothing.
fn are_so(replies: (Reply, Reply), octets: &[u8]) -> bool {
    let are_so = is_so(&replies.0, octets) && is_so(&replies.1, octets);
    drop(replies);
    are_so
}

fn is_so(reply: &Reply, octets: &[u8]) -> bool {
    let sent = reply.sent.as_slice();
    let is_sent = match sent.get(0) {
        Some(frame) => sent.len() == 1 && frame.bytes.is(octets),
        None => octets.is_empty(),
    };
    let is_given = match &reply.given {
        Given::Nothing => true,
        _ => false,
    };
    is_sent && is_given && reply.ended.as_slice().is_empty()
}

/// The peer's begin.
fn begin(alloc: Global) -> Option<Frame> {
    let body = BeginBody {
        remote_channel: None,
        next_outgoing_id: 0,
        incoming_window: 5,
        outgoing_window: 5,
        handle_max: None,
        offered_capabilities: None,
        desired_capabilities: None,
        properties: None,
    };
    match Boxed::new(alloc, body) {
        Ok(body) => Some(Frame {
            channel: 0,
            body: Some(Performative::Begin(body)),
            payload: Bytes::new(),
        }),
        Err(_) => None,
    }
}

/// Whether a new endpoint hears the peer's begin before its first step, sends nothing and gives nothing.
fn hears_begin(alloc: Global) -> bool {
    let Some(frame) = begin(alloc) else {
        return false;
    };
    let answered = hears(alloc, &frame);
    drop(frame);
    answered
}

fn hears(alloc: Global, frame: &Frame) -> bool {
    if !CONFIG.is_within_limits() {
        return false;
    }
    let mut endpoint = Endpoint::new(alloc, &CONFIG);
    let answer = endpoint.receive(frame);
    drop(endpoint);
    match answer {
        Ok(replies) => are_so(replies, b""),
        Err(_) => false,
    }
}

/// Whether a new endpoint sends its own begin, and gives nothing.
fn begins(alloc: Global) -> bool {
    if !CONFIG.is_within_limits() {
        return false;
    }
    let mut endpoint = Endpoint::new(alloc, &CONFIG);
    let answer = endpoint.apply(&Op::Begin);
    drop(endpoint);
    match answer {
        Ok(replies) => are_so(replies, BEGIN),
        Err(_) => false,
    }
}

#[test]
fn steps_are_answered_twice(rt: HostRuntime) {
    assert!(rt; hears_begin(rt.alloc()) && begins(rt.alloc()));
}
