//! One feed of a loop of feeds.
ghost use Rattle.std.specs.Prelude.{◌≢◌, [], IfOk};
ghost use Rattle.amqp_conn.specs.Turning.{GoesOn};

use amqp_conn::{Conn, ConnFault, Fed, Octets};

/// Feeds octets: at least one is used, or a violation is answered, so a loop of feeds comes to its end.
pub fn feed_front(conn: &mut Conn, rest: &[u8]) -> Result<Fed, ConnFault>
    requires { rest.now ≢ [] }
    ensures { IfOk result (λ fed. GoesOn conn.old rest.now fed.used conn.new) }
{
    match conn.feed(&Octets::lent(rest)) {
        Ok(fed) => Ok(fed),
        Err(fault) => Err(fault),
    }
}
