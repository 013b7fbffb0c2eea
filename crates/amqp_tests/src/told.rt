//! What both attaches tell of a link stays with it, also where the journal forgets: handles, settle modes, greatest messages, sources and targets.

use crate::conn::{connection, hears};
use crate::octets::GREETING;
use amqp_conn::*;
use std::alloc::{AllocError, Global};

/// The attach of a sender `q` on handle 3: settled, second, from `a` to `b`, messages of at most 7 octets.
const ATTACH: &[u8] =
    b"\x00\x00\x00\x2f\x02\x00\x00\x00\x00\x53\x12\xc0\x22\x0b\xa1\x01q\x52\x03\x42\x50\x01\x50\x01\x00\x53\x28\xc0\x04\x01\xa1\x01a\
    \x00\x53\x29\xc0\x04\x01\xa1\x01b\x40\x40\x43\x53\x07";

/// What a link tells of an end.
#[derive(Clone, Copy, PartialEq, Eq)]
struct Told {
    handle: u32,
    modes: (u8, u8),
    max_message: u64,
    /// Its source is what was told, and its target is.
    termini: (bool, bool),
}

/// What our attach tells, and what the peer's does.
const OURS: Told = Told {
    handle: 0,
    modes: (2, 0),
    max_message: 0,
    termini: (true, true),
};

const THEIRS: Told = Told {
    handle: 3,
    modes: (1, 1),
    max_message: 7,
    termini: (true, true),
};

/// A source or a target, by its code, of this address alone.
fn is_terminus(value: &Option<Boxed<Value>>, code: u64, address: &str) -> bool {
    match value {
        Some(value) => match value.get() {
            Value::Described(descriptor, fields) => {
                is_code(descriptor.get(), code) && is_address(fields.get(), address)
            }
            _ => false,
        },
        None => false,
    }
}

fn is_code(value: &Value, code: u64) -> bool {
    match value {
        Value::Ulong(found) => *found == code,
        _ => false,
    }
}

/// A list of this string alone.
fn is_address(value: &Value, address: &str) -> bool {
    match value {
        Value::List(fields) => match fields.as_slice().first() {
            Some(Value::Str(text)) => text.as_str() == address && fields.len() == 1,
            _ => false,
        },
        _ => false,
    }
}

/// The symbol `address`.
fn is_symbol(value: &Option<Boxed<Value>>, address: &str) -> bool {
    match value {
        Some(value) => match value.get() {
            Value::Symbol(text) => text.as_str() == address,
            _ => false,
        },
        None => false,
    }
}

fn told_of(end: &LinkEnd, termini: (bool, bool)) -> Told {
    Told {
        handle: end.handle,
        modes: (end.snd_mode, end.rcv_mode),
        max_message: end.max_message,
        termini,
    }
}

/// What our attach told, and what the peer's did.
fn told_by(link: &Link) -> (Option<Told>, Option<Told>) {
    let ours = match link.ours() {
        Some(end) => {
            let source = is_symbol(&end.source, "c");
            Some(told_of(end, (source, end.target.is_none())))
        }
        None => None,
    };
    let theirs = match link.theirs() {
        Some(end) => {
            let source = is_terminus(&end.source, 0x28, "a");
            let target = is_terminus(&end.target, 0x29, "b");
            Some(told_of(end, (source, target)))
        }
        None => None,
    };
    (ours, theirs)
}

/// Whether this is what the connection's first link tells, and it has no other.
fn tells(conn: &Conn, due: (Option<Told>, Option<Told>)) -> bool {
    let endpoint = conn.logged().endpoint();
    match endpoint.link_of(0) {
        Some(link) => told_by(link) == due && endpoint.link_of(1).is_none(),
        None => false,
    }
}

/// A link of ours for `q`, as its receiver, from the symbol `c`.
fn attach(alloc: Global) -> Result<Op, AllocError> {
    let name = Text::new(alloc, "q")?;
    let source = Boxed::new(alloc, Value::Symbol(Text::new(alloc, "c")?))?;
    Ok(ops::attach(name, Role::Receiver, Some(source), None))
}

fn attaches(alloc: Global, conn: &mut Conn) -> bool {
    match attach(alloc) {
        Ok(op) => conn.perform(op).is_ok(),
        Err(_) => false,
    }
}

/// What is told once the peer's attach was heard; and again once the connection has attached that link and forgotten all entries.
fn is_told(alloc: Global, conn: &mut Conn) -> bool {
    if !hears(conn, GREETING) || !hears(conn, ATTACH) || conn.perform(Op::Begin).is_err() {
        return false;
    }
    if !tells(conn, (None, Some(THEIRS))) || !attaches(alloc, conn) {
        return false;
    }
    conn.forget();
    tells(conn, (Some(OURS), Some(THEIRS)))
}

#[test]
fn what_attaches_told_stays(rt: HostRuntime) {
    let Ok(mut conn) = connection(rt.alloc()) else {
        panic!(rt; "no connection");
    };
    let told = is_told(rt.alloc(), &mut conn);
    drop(conn);
    assert!(rt; told);
}
