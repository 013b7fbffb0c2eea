//! What always holds of a connection, what a feed adds to its journal, and the units that go on to the ring.
ghost use Rattle.std.specs.Prelude.{◌≡◌, ◌<◌, ◌≤◌, ◌^◌, length, Ok};
ghost use Rattle.rtrb.specs.Ring.{sent, known_free};
ghost use Rattle.amqp_journal.specs.Units.{units, PutWithin};
ghost use Rattle.amqp_shared.specs.Passes.{steps_fed};
ghost use Rattle.amqp_shared.specs.Ring.{pushes_to};
ghost use Rattle.amqp_shared.specs.Units.{MovesUnits, moved_of};

use crate::name::Numbered;
use amqp_conn::{Conn, ConnFault, Fed};
use amqp_journal::unit::Unit;
use rtrb::Producer;
use std::alloc::Global;

/// Does nothing at run time: its contract states what always holds of a connection.
pub(crate) fn recall(conn: &Conn)
    ensures within { PutWithin (length conn.now.core.log.journal) conn.now.core.log.put }
    ensures some { conn.now.core.log.popped ≤ length (units conn.now.core.log) }
    ensures few { length (units conn.now.core.log) < 2 ^ 64 }
    ensures short { length conn.now.core.log.journal < 2 ^ 63 }
    ensures stored { conn.now.core.log.forgotten ≤ length conn.now.core.log.journal }
{
    let _ = conn.logged().put_out();
    let _ = conn.logged().steps();
    let _ = conn.logged().journal();
}

/// Moves units from the connection to the ring, as many as fit.
pub(crate) fn push_units(conn: &mut Conn, producer: &mut Producer<Unit, Global, Numbered>)
    requires pushed { sent producer.old ≡ moved_of conn.old }
    ensures pushed { sent producer.new ≡ moved_of conn.new }
    ensures some { conn.new.core.log.popped ≤ length (units conn.new.core.log) }
    ensures full { conn.new.core.log.popped < length (units conn.new.core.log) → known_free producer.new ≡ 0 }
    ensures ring { pushes_to producer.new ≡ pushes_to producer.old }
    ensures moves { MovesUnits conn.old conn.new }
{
    recall(conn);
    while !producer.is_full() {
        match conn.pop_unit() {
            Some(unit) => producer.push_reserved(unit),
            None => return,
        }
    }
}

/// Returns how many entries the feed has appended.
pub(crate) fn steps_of(answer: &Result<Fed, ConnFault>) -> u64
    ensures steps { result ≡ steps_fed answer.now }
    ensures most { result ≤ 1 }
{
    match answer {
        Ok(fed) => u64::from(fed.stepped),
        Err(_) => 0,
    }
}
