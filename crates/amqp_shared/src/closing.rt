//! The parts of taking a shared connection apart.
ghost use Rattle.std.specs.Prelude.{◌≡◌, ◌<◌, ◌≤◌, ◌+◌, ◌++◌, ◌∷◌, length, vec_len, vec_capacity, IfSome, IfNone};
ghost use Rattle.rtrb.specs.Ring.{known_items};
ghost use Rattle.amqp_journal.specs.Units.{units};
ghost use Rattle.amqp_conn.specs.Calling.{popped};
ghost use Rattle.amqp_shared.specs.Passes.{total_made, total_parts};
ghost use Rattle.amqp_shared.specs.Units.{backlog_of, unmoved};

use crate::name::{Name, Numbered};
use crate::pass::Pass;
use amqp_conn::Conn;
use amqp_journal::unit::Unit;
use rtrb::Consumer;
use std::alloc::Global;
use std::sync::ledger::{Book, Share};

/// Returns the parts of all passes, and the steps that were made by them.
pub(crate) fn totals<N: Name>(passes: &[Pass<N>]) -> (u128, u128)
    ensures parts { result.0 ≡ total_parts passes.now }
    ensures made { result.1 ≡ total_made passes.now }
{
    let mut parts = 0u128;
    let mut made = 0u128;
    for pass in passes {
        parts += pass.parts as u128;
        made += pass.made() as u128;
    }
    (parts, made)
}

fn gather<N: Name>(passes: Vec<Pass<N>>) -> Option<Share<N>>
    ensures some { IfSome result (λ s. (s.parts ≡ total_parts passes.items) × (s.amount ≡ total_made passes.items)) }
    ensures none { IfNone result (total_parts passes.items ≡ 0) }
{
    let mut passes = passes;
    let Pass {
        share,
        parts: _,
        made: _,
        asked: _,
    } = passes.pop()?;
    let mut share = share;
    while let Some(pass) = passes.pop() {
        let Pass {
            share: other,
            parts: _,
            made: _,
            asked: _,
        } = pass;
        share.merge(other);
    }
    Some(share)
}

/// Does nothing at run time: it shows that all passes together have made the steps that the book counts.
pub(crate) fn all_made<N: Name>(book: &mut Book<N>, passes: Vec<Pass<N>>)
    requires { (N.parts ≡ 65536) × (total_parts passes.items ≡ 65536) }
    ensures { total_made passes.items ≡ book.old.total }
{
    if let Some(mut share) = gather(passes) {
        book.audit(&mut share);
    }
}

pub(crate) fn empty_ring(
    consumer: &mut Consumer<Unit, Global, Numbered>,
    count: usize,
    left: &mut Vec<Unit>,
)
    requires { (count ≡ length (known_items consumer.old)) × (vec_len left.old + count ≤ vec_capacity left.old) }
    ensures items { left.new.items ≡ left.old.items ++ known_items consumer.old }
    ensures capacity { vec_capacity left.new ≡ vec_capacity left.old }
{
    for _i in 0..count {
        left.push_reserved(consumer.pop_known());
    }
}

fn next_waiting(conn: &mut Conn) -> Unit
    requires { conn.old.core.log.popped < length (units conn.old.core.log) }
    ensures unit { backlog_of conn.old ≡ result ∷ backlog_of conn.new }
    ensures conn { conn.new ≡ popped conn.old }
{
    match conn.pop_unit() {
        Some(unit) => unit,
        None => unreachable!(),
    }
}

pub(crate) fn empty_backlog(conn: &mut Conn, count: usize, left: &mut Vec<Unit>)
    requires { (conn.old.core.log.popped + count ≡ length (units conn.old.core.log)) × (vec_len left.old + count ≤ vec_capacity left.old) }
    ensures items { left.new.items ≡ left.old.items ++ backlog_of conn.old }
    ensures conn { unmoved conn.old conn.new ≡ conn.old }
    ensures all { conn.new.core.log.popped ≡ length (units conn.new.core.log) }
{
    for _i in 0..count {
        left.push_reserved(next_waiting(conn));
    }
}
