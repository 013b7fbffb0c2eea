//! A connection before it is shared.
ghost use Rattle.std.specs.Prelude.{◌≡◌, ◌<◌, ◌≤◌, [], MatchResult};
ghost use Rattle.amqp_conn.specs.Calling.{IsFit, IsStartFault};
ghost use Rattle.amqp_conn.specs.Connection.{connection};
ghost use Rattle.amqp_conn.specs.Octets.{new_core};
ghost use Rattle.amqp_shared.specs.Passes.{Planted};

use crate::name::Numbered;
use crate::retention::Retention;
use amqp_conn::{Config, Conn, StartFault};
use amqp_journal::unit::Unit;
use rtrb::{Consumer, Producer, RingBuffer};
use std::alloc::Global;
use std::marker::Model;
use std::sync::ledger::Blank;

/// A connection before it is shared, with its ring and its ledger. No name is bound to it yet.
///
/// [`open_shared`](crate::open_shared) shares it.
#[derive(Drop)]
pub struct Seed {
    pub(crate) conn: Conn,
    pub(crate) producer: Producer<Unit, Global, Numbered>,
    pub(crate) consumer: Consumer<Unit, Global, Numbered>,
    pub(crate) blank: Blank,
    pub(crate) limit: u32,
    pub(crate) retention: Retention,
}

impl Model for Seed {
    ghost use Rattle.std.specs.Prelude.{◌≡◌, []};
    ghost use Rattle.rtrb.specs.Ring.{sent, received, producer_capacity};
    ghost use Rattle.amqp_shared.specs.Passes.{Planted};
    ghost use Rattle.amqp_shared.specs.Ring.{pushes_to, pops_from};
    ghost use Rattle.amqp_types.specs.contracts.value.Value as value;
    ghost use Rattle.std.specs.Coded.{codes};

    ghost Value = { Planted };

    ghost coded = { Prim.hlevel (codes, value.the_row.coded) };

    ghost view = { λ s. record { conn = s.conn; name = s.blank.name; parts = s.blank.parts; ring = pushes_to s.producer; room = producer_capacity s.producer; retention = s.retention } };

    ghost invariant = { λ s. (s.conn.core.log.journal ≡ []) × (s.conn.core.log.forgotten ≡ 0) × (s.conn.core.log.popped ≡ 0) × (sent s.producer ≡ []) × (received s.consumer ≡ []) × (pops_from s.consumer ≡ pushes_to s.producer) × (s.blank.parts ≡ 65536) × (s.limit ≡ s.conn.core.log.config.journal_limit) };
}

impl Seed {
    /// Creates a connection whose header waits to go out, with a ring of `ring` units (1 to 65536) for its writer.
    ///
    /// `retention` says for good which entries of the journal the connection keeps once it is shared.
    ///
    /// Allocates the ring, and what `Conn::new` allocates: the connection, eight octets, and our open.
    ///
    /// # Errors
    ///
    /// [`StartFault::BadConfig`] if a setting is out of its limits, or if our open is longer than the 512 octets that
    /// every peer accepts (part 2, 2.7.1); [`StartFault::NoMemory`] if memory runs out.
    pub fn new(
        alloc: Global,
        config: Config,
        ring: usize,
        retention: Retention,
    ) -> Result<Seed, StartFault>
        requires { (1 ≤ ring) × (ring ≤ 65536) }
        ensures { MatchResult result (λ s. IsFit config × (s.conn ≡ connection (new_core config) []) × (s.parts ≡ 65536) × (s.room ≡ ring) × (s.retention ≡ retention)) (λ e. IsStartFault e config) }
    {
        let limit = config.journal_limit;
        match Conn::new(alloc, config) {
            Ok(conn) => match RingBuffer::with_protocol::<Global, Numbered>(alloc, ring) {
                Ok((producer, consumer)) => Ok(Seed {
                    conn,
                    producer,
                    consumer,
                    blank: Blank::new(65536),
                    limit,
                    retention,
                }),
                Err(_) => Err(StartFault::NoMemory),
            },
            Err(fault) => Err(fault),
        }
    }
}
