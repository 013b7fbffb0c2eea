//! How a connection is driven: when it is written to, how long it may take, and how much of it is kept.
ghost use Rattle.std.specs.Prelude.{◌≡◌, ◌≤◌, length, drop};
ghost use Rattle.amqp_ready.specs.Lending.{kept};
ghost use Rattle.amqp_serve.specs.Driving.{is_behind, limits, is_met};

use amqp_ready::{ANSWERS, Lent, Limits};

/// From how many entries on a connection forgets its journal, each time that its peer is heard: what is sent to a peer between two of its frames is
/// kept until then. Few
/// are kept: what they own, payloads among it, is given back while the processor's cache has it.
const KEPT: usize = 8;

/// How long a peer's header is awaited before ours is written, in milliseconds.
pub const HEADER_WAIT: u64 = 250;

/// Returns whether so much waits to be written that the peer is sent no message, no credit and no window: it does not read, or not so fast.
pub fn is_behind(unsent: u64) -> bool
    ensures { result ≡ is_behind unsent }
{
    unsent >= ANSWERS
}

/// Returns how long connections may take.
pub fn limits() -> Limits
    ensures { result ≡ limits }
{
    Limits {
        open: 10000,
        silence: u64::MAX,
        close: 5000,
    }
}

/// Returns whether a peer that said nothing for so many milliseconds is sent our header.
pub fn is_met(waited: u64) -> bool
    ensures { result ≡ is_met waited }
{
    waited >= HEADER_WAIT
}

/// Forgets the journal's entries if there are many, so that at most seven are kept.
pub fn forget_old(conn: &mut Lent)
    ensures kept { kept conn.new.conn ≡ kept conn.old.conn }
    ensures few { length (drop conn.new.conn.core.log.forgotten conn.new.conn.core.log.journal) ≤ 7 }
{
    if conn.conn().logged().journal().len() >= KEPT {
        conn.forget();
    }
}
