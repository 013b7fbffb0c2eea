//! Writes what a connection put out.
ghost use Rattle.std.specs.Prelude.{◌≡◌, [], Ok, true, OnErr, OnOk};
ghost use Rattle.amqp_conn.specs.Pumping.{AllWent, OnlyWrote};
ghost use Rattle.amqp_ready.specs.Slotting.{Sent};

use crate::device::NonBlocking;
use crate::outbox::Outbox;
use amqp_conn::{Conn, Failed};

/// How much of what was put out a flush has written.
#[derive(Clone, Copy, Debug, PartialEq, Eq)]
pub enum Flushed {
    /// Some octets are left, since the stream would wait.
    Behind,
    /// All octets, and no unit waits.
    All,
    /// There is more to write at once.
    More,
}

fn flush_once<S: NonBlocking>(
    outbox: &mut Outbox,
    conn: &mut Conn,
    stream: &mut S,
) -> Result<Flushed, Failed>
    ensures sent { Sent conn.old conn.new outbox.old outbox.new (S.written stream.old) (S.written stream.new) }
    ensures only { OnlyWrote conn.old conn.new }
    ensures went { result ≡ Ok Flushed.All → AllWent conn.new }
    ensures empty { result ≡ Ok Flushed.All → outbox.new ≡ [] }
    ensures remaining { S.remaining stream.new ≡ S.remaining stream.old }
    ensures ok { OnOk result (S.failed stream.new ≡ S.failed stream.old) }
    ensures failed { OnErr result (S.failed stream.new ≡ true) }
{
    let all = outbox.gather(conn);
    match outbox.write(stream) {
        Ok(true) => {}
        Ok(false) => return Ok(Flushed::Behind),
        Err(failed) => return Err(failed),
    }
    if all {
        return Ok(Flushed::All);
    }
    Ok(Flushed::More)
}

/// Writes what waits, as far as the stream takes it.
pub(crate) fn flush<S: NonBlocking>(
    outbox: &mut Outbox,
    conn: &mut Conn,
    stream: &mut S,
) -> Result<Flushed, Failed>
    ensures sent { Sent conn.old conn.new outbox.old outbox.new (S.written stream.old) (S.written stream.new) }
    ensures only { OnlyWrote conn.old conn.new }
    ensures went { result ≡ Ok Flushed.All → AllWent conn.new }
    ensures empty { result ≡ Ok Flushed.All → outbox.new ≡ [] }
    ensures remaining { S.remaining stream.new ≡ S.remaining stream.old }
    ensures ok { OnOk result (S.failed stream.new ≡ S.failed stream.old) }
    ensures failed { OnErr result (S.failed stream.new ≡ true) }
{
    for _ in 0..u64::MAX {
        match flush_once(outbox, conn, stream) {
            Ok(Flushed::More) => {}
            Ok(Flushed::Behind) => return Ok(Flushed::Behind),
            Ok(Flushed::All) => return Ok(Flushed::All),
            Err(failed) => return Err(failed),
        }
    }
    Ok(Flushed::More)
}
