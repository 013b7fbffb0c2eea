//! Running a connection over a source and a sink.
ghost use Rattle.std.specs.Prelude.{ℕ, List, Option, Err, ◌≡◌, ◌≢◌, ◌<◌, ◌≤◌, ◌+◌, ◌-◌, ◌^◌, [], length, drop, IfOk, IfErr, IfSome, OnOk, OnErr, MatchBool};
ghost use Rattle.std.specs.Bool.{OnTrue, OnFalse};
ghost use Rattle.std.specs.Io.KnownBytes.{Appends};
ghost use Rattle.amqp_journal.specs.Units.{units, waiting, PutWithin};
ghost use Rattle.amqp_conn.specs.Connection.{IsQuiet};
ghost use Rattle.amqp_conn.specs.Feeding.{Feeds, IsFed};
ghost use Rattle.amqp_conn.specs.Pumping.{line, AppendsFront, Fails, Runs, AllWent, OnlyWrote, CountsFailures, Adds, Tells};
ghost use Rattle.amqp_conn.specs.Turning.{GoesOn, Took, IsTaken, ClosesWell, StoppedBy, WritesOne, WriteFails, TellsLast, CountsWrites, FedAll, Turned, TurnFails};

use crate::conn::Conn;
use crate::device::{Failed, Sink, Source};
use crate::fault::ConnFault;
use crate::fed::Fed;
use crate::phase::Phase;
use crate::pump::Pump;
use amqp_frames::Octets;
use amqp_rules::reply::Given;
use amqp_rules::sliced::Sliced;
use thiserror::Error;

/// Why a pump stopped without a failure.
#[derive(Clone, Copy, Debug, PartialEq, Eq)]
pub enum PumpEnd {
    /// The connection has ended, and all units were written.
    Closed,
    /// The source has no more octets.
    EndOfInput,
    /// The turns are over.
    TurnsOver,
}

/// Why a pump failed. The pump keeps the octets that were read and not fed.
#[derive(Clone, Copy, Debug, PartialEq, Eq, Error)]
pub enum PumpFault {
    /// The source failed. That read returned no octets, and all octets before it were fed.
    #[error("a read failed")]
    Read,
    /// The sink failed. A front of one unit's octets may have been written, and that unit does not wait any more.
    #[error("a write failed")]
    Write,
    /// A feed failed. After [`ConnFault::NoMemory`] the same call goes on; after every other fault the connection is
    /// closed.
    #[error("{0}")]
    Conn(ConnFault),
}

#[derive(Clone, Copy)]
struct Stopped {
    /// How many octets were fed before the fault.
    used: usize,
    fault: ConnFault,
}

/// A handler of what each new entry of the journal gives.
pub trait Hears {
    ghost use Rattle.std.specs.Prelude.{List, Option, []};
    ghost use Rattle.amqp_rules.specs.declared.reply.Given.{Given};
    ghost use Rattle.amqp_conn.specs.Pumping.{Adds};

    /// What the handler was called with so far, in order, if that is known.
    ghost heard: { Self → Option (List Given) };

    /// Called with what a new entry gives, before the next frame is fed. It cannot fail.
    fn hear(&mut self, given: Given)
        ensures { Adds (heard self.old) (heard self.new) given };
}

/// A handler that drops what it is called with.
#[derive(Drop)]
struct Deaf;

impl Hears for Deaf {
    ghost use Rattle.std.specs.Prelude.{None};

    ghost heard = { λ d. None };

    fn hear(&mut self, given: Given) {
        drop(given);
    }
}

fn hand_on<H: Hears>(each: &mut H, fed: Fed) -> usize
    ensures used { result ≡ fed.used }
    ensures tells { OnTrue fed.stepped (Adds (H.heard each.old) (H.heard each.new) fed.given) }
    ensures still { OnFalse fed.stepped (H.heard each.new ≡ H.heard each.old) }
{
    let Fed {
        used,
        stepped,
        given,
        ..
    } = fed;
    if !stepped {
        return used;
    }
    each.hear(given);
    used
}

/// Brings into a proof what always holds of a connection; it does nothing.
fn recall(conn: &Conn)
    ensures quiet { IsQuiet conn.now }
    ensures within { PutWithin (length conn.now.core.log.journal) conn.now.core.log.put }
    ensures some { conn.now.core.log.popped ≤ length (units conn.now.core.log) }
{
    let _ = conn.phase();
    let _ = conn.logged().put_out();
}

fn is_closed(conn: &Conn) -> bool
    ensures closed { OnTrue result (conn.now.core.phase ≡ Phase.Closed) }
    ensures open { OnFalse result (conn.now.core.phase ≢ Phase.Closed) }
{
    conn.phase() == Phase::Closed
}

fn is_over(conn: &Conn, rest: &[u8]) -> bool
    ensures over { OnTrue result (IsFed conn.now rest.now conn.now) }
    ensures some { OnFalse result (rest.now ≢ []) }
    ensures open { OnFalse result (conn.now.core.phase ≢ Phase.Closed) }
{
    let phase = conn.phase();
    rest.is_empty() || phase == Phase::Closed
}

fn feed_once<H: Hears>(conn: &mut Conn, each: &mut H, rest: &[u8]) -> Result<usize, ConnFault>
    requires { rest.now ≢ [] }
    ensures tells { Tells conn.old.core.log.journal conn.new.core.log.journal (H.heard each.old) (H.heard each.new) }
    ensures on { IfOk result (λ used. GoesOn conn.old rest.now used conn.new) }
    ensures took { IfOk result (λ used. Took conn.old rest.now conn.new (drop used rest.now)) }
    ensures well { IfOk result (λ used. IsTaken conn.old rest.now conn.new) }
    ensures fault { IfErr result (λ fault. Feeds conn.old rest.now (Err fault) conn.new) }
    ensures left { OnErr result (Took conn.old rest.now conn.new rest.now) }
{
    recall(conn);
    match conn.feed(&Octets::lent(rest)) {
        Ok(fed) => Ok(hand_on(each, fed)),
        Err(fault) => Err(fault),
    }
}

fn feed_all<H: Hears>(conn: &mut Conn, each: &mut H, piece: &[u8]) -> Result<(), Stopped>
    ensures tells { Tells conn.old.core.log.journal conn.new.core.log.journal (H.heard each.old) (H.heard each.new) }
    ensures took { OnOk result (Took conn.old piece.now conn.new []) }
    ensures well { OnOk result (ClosesWell conn.old piece.now conn.new) }
    ensures stopped { IfErr result (λ s. StoppedBy conn.old piece.now s.used s.fault conn.new) }
{
    let mut used = 0;
    while !is_over(conn, &piece[used..]) {
        match feed_once(conn, each, &piece[used..]) {
            Ok(more) => used += more,
            Err(fault) => return Err(Stopped { used, fault }),
        }
    }
    Ok(())
}

fn write_slices<K: Sink>(sink: &mut K, octets: &Sliced) -> Result<(), Failed>
    requires { K.failed sink.old < 2 ^ 64 - 1 }
    ensures octets { OnOk result (Appends (K.written sink.old) (K.written sink.new) octets.now) }
    ensures front { OnErr result (AppendsFront (K.written sink.old) (K.written sink.new) octets.now) }
    ensures ok { OnOk result (K.failed sink.new ≡ K.failed sink.old) }
    ensures err { OnErr result (K.failed sink.new ≡ K.failed sink.old + 1) }
{
    let (head, rest) = octets.slices();
    match sink.write_all(head) {
        Ok(()) => {}
        Err(failed) => return Err(failed),
    }
    if rest.is_empty() {
        return Ok(());
    }
    match sink.write_all(rest) {
        Ok(()) => Ok(()),
        Err(failed) => Err(failed),
    }
}

/// Returns whether there was a unit to write.
fn write_unit<K: Sink>(sink: &mut K, conn: &mut Conn) -> Result<bool, Failed>
    requires { K.failed sink.old < 2 ^ 64 - 1 }
    ensures writes { IfOk result (λ more. OnTrue more (WritesOne conn.old conn.new (K.written sink.old) (K.written sink.new))) }
    ensures less { IfOk result (λ more. OnTrue more (length (waiting conn.new.core.log) < length (waiting conn.old.core.log))) }
    ensures none { IfOk result (λ more. OnFalse more ((conn.new ≡ conn.old) × (sink.new ≡ sink.old))) }
    ensures went { IfOk result (λ more. OnFalse more (AllWent conn.new)) }
    ensures only { OnlyWrote conn.old conn.new }
    ensures fails { OnErr result (WriteFails conn.old conn.new (K.written sink.old) (K.written sink.new)) }
    ensures ok { OnOk result (K.failed sink.new ≡ K.failed sink.old) }
    ensures err { OnErr result (K.failed sink.new ≡ K.failed sink.old + 1) }
{
    recall(conn);
    let Some(unit) = conn.pop_unit() else {
        return Ok(false);
    };
    match write_slices(sink, &unit.bytes) {
        Ok(()) => Ok(true),
        Err(failed) => Err(failed),
    }
}

fn write_waiting<K: Sink>(sink: &mut K, conn: &mut Conn) -> Result<(), Failed>
    requires { K.failed sink.old < 2 ^ 64 - 1 }
    ensures writes { OnOk result (WritesOne conn.old conn.new (K.written sink.old) (K.written sink.new)) }
    ensures went { OnOk result (AllWent conn.new) }
    ensures only { OnlyWrote conn.old conn.new }
    ensures fails { OnErr result (WriteFails conn.old conn.new (K.written sink.old) (K.written sink.new)) }
    ensures ok { OnOk result (K.failed sink.new ≡ K.failed sink.old) }
    ensures err { OnErr result (K.failed sink.new ≡ K.failed sink.old + 1) }
{
    recall(conn);
    loop {
        recall(conn);
        match write_unit(sink, conn) {
            Ok(true) => {}
            Ok(false) => return Ok(()),
            Err(failed) => return Err(failed),
        }
    }
}

/// Writes the units that wait, because the last close, which states the fault, is one of them.
fn last_units<K: Sink>(sink: &mut K, conn: &mut Conn, fault: ConnFault) -> PumpFault
    requires { K.failed sink.old < 2 ^ 64 - 1 }
    ensures last { TellsLast result fault conn.old conn.new (K.written sink.old) (K.written sink.new) }
    ensures only { OnlyWrote conn.old conn.new }
    ensures failures { CountsWrites result (K.failed sink.old) (K.failed sink.new) }
{
    match write_waiting(sink, conn) {
        Ok(()) => PumpFault::Conn(fault),
        Err(_) => PumpFault::Write,
    }
}

/// On a fault it keeps the octets that were not fed: after `NoMemory` they are to be fed again.
fn feed_kept<K: Sink, H: Hears>(
    kept: &mut Pump,
    sink: &mut K,
    conn: &mut Conn,
    each: &mut H,
) -> Result<(), PumpFault>
    requires { K.failed sink.old < 2 ^ 64 - 1 }
    ensures fed { OnOk result ((s : Option (List ℕ)) → FedAll (line s kept.old conn.old (K.written sink.old)) (line s kept.new conn.new (K.written sink.new))) }
    ensures fails { IfErr result (λ why. (s : Option (List ℕ)) → Fails why [] (line s kept.old conn.old (K.written sink.old)) (line s kept.new conn.new (K.written sink.new))) }
    ensures tells { Tells conn.old.core.log.journal conn.new.core.log.journal (H.heard each.old) (H.heard each.new) }
    ensures failures { (n : ℕ) → CountsFailures result n n (K.failed sink.old) (K.failed sink.new) }
{
    recall(conn);
    let Err(stopped) = feed_all(conn, each, kept.rest()) else {
        kept.clear();
        return Ok(());
    };
    kept.skip(stopped.used);
    Err(last_units(sink, conn, stopped.fault))
}

fn turn<S: Source, K: Sink, H: Hears>(
    kept: &mut Pump,
    source: &mut S,
    sink: &mut K,
    conn: &mut Conn,
    each: &mut H,
) -> Result<Option<PumpEnd>, PumpFault>
    requires none { kept.old ≡ [] }
    requires reads { S.failed source.old < 2 ^ 64 - 1 }
    requires writes { K.failed sink.old < 2 ^ 64 - 1 }
    ensures turned { IfOk result (λ end. Turned end (line (S.remaining source.old) kept.old conn.old (K.written sink.old)) (line (S.remaining source.new) kept.new conn.new (K.written sink.new))) }
    ensures fails { IfErr result (λ why. TurnFails why (line (S.remaining source.old) kept.old conn.old (K.written sink.old)) (line (S.remaining source.new) kept.new conn.new (K.written sink.new))) }
    ensures tells { Tells conn.old.core.log.journal conn.new.core.log.journal (H.heard each.old) (H.heard each.new) }
    ensures failures { CountsFailures result (S.failed source.old) (S.failed source.new) (K.failed sink.old) (K.failed sink.new) }
{
    let Ok(()) = write_waiting(sink, conn) else {
        return Err(PumpFault::Write);
    };
    recall(conn);
    if is_closed(conn) {
        return Ok(Some(PumpEnd::Closed));
    }
    let Ok(count) = kept.refill(source) else {
        return Err(PumpFault::Read);
    };
    if count == 0 {
        return Ok(Some(PumpEnd::EndOfInput));
    }
    match feed_kept(kept, sink, conn, each) {
        Ok(()) => Ok(None),
        Err(why) => Err(why),
    }
}

impl Pump {
    /// Runs a connection over a source and a sink for at most `turns` turns, and calls `each` with what each new
    /// entry of the journal gives, before the next frame is fed.
    ///
    /// It first feeds what the pump kept of the call before. A turn writes the units that wait, and stops if the
    /// connection is closed; else it reads once, at most 4096 octets, and feeds them.
    ///
    /// # Errors
    ///
    /// [`PumpFault::Read`] or [`PumpFault::Write`] if that device failed, and [`PumpFault::Conn`] with the fault of a
    /// feed that failed; in that case the units that still waited were written, the last close among them. What was
    /// read and not fed is kept, so after [`ConnFault::NoMemory`] the same call goes on at the octet where this one
    /// stopped.
    pub fn drive<S: Source, K: Sink, H: Hears>(
        &mut self,
        source: &mut S,
        sink: &mut K,
        conn: &mut Conn,
        each: &mut H,
        turns: u32,
    ) -> Result<PumpEnd, PumpFault>
        requires reads { S.failed source.old < 2 ^ 64 - 1 }
        requires writes { K.failed sink.old < 2 ^ 64 - 1 }
        ensures runs { Runs turns result (line (S.remaining source.old) self.old conn.old (K.written sink.old)) (line (S.remaining source.new) self.new conn.new (K.written sink.new)) }
        ensures tells { Tells conn.old.core.log.journal conn.new.core.log.journal (H.heard each.old) (H.heard each.new) }
        ensures failures { CountsFailures result (S.failed source.old) (S.failed source.new) (K.failed sink.old) (K.failed sink.new) }
    {
        take_turns(self, source, sink, conn, each, turns)
    }

    /// Runs a connection over a source and a sink for at most `turns` turns, as [`drive`](Pump::drive) does, and drops
    /// what the entries of the journal give.
    ///
    /// # Errors
    ///
    /// [`PumpFault::Read`] or [`PumpFault::Write`] if that device failed, and [`PumpFault::Conn`] with the fault of a
    /// feed that failed; what was read and not fed is kept.
    pub fn run<S: Source, K: Sink>(
        &mut self,
        source: &mut S,
        sink: &mut K,
        conn: &mut Conn,
        turns: u32,
    ) -> Result<PumpEnd, PumpFault>
        requires reads { S.failed source.old < 2 ^ 64 - 1 }
        requires writes { K.failed sink.old < 2 ^ 64 - 1 }
        ensures runs { Runs turns result (line (S.remaining source.old) self.old conn.old (K.written sink.old)) (line (S.remaining source.new) self.new conn.new (K.written sink.new)) }
        ensures failures { CountsFailures result (S.failed source.old) (S.failed source.new) (K.failed sink.old) (K.failed sink.new) }
    {
        take_turns(self, source, sink, conn, &mut Deaf, turns)
    }
}

fn take_turns<S: Source, K: Sink, H: Hears>(
    kept: &mut Pump,
    source: &mut S,
    sink: &mut K,
    conn: &mut Conn,
    each: &mut H,
    turns: u32,
) -> Result<PumpEnd, PumpFault>
    requires reads { S.failed source.old < 2 ^ 64 - 1 }
    requires writes { K.failed sink.old < 2 ^ 64 - 1 }
    ensures runs { Runs turns result (line (S.remaining source.old) kept.old conn.old (K.written sink.old)) (line (S.remaining source.new) kept.new conn.new (K.written sink.new)) }
    ensures tells { Tells conn.old.core.log.journal conn.new.core.log.journal (H.heard each.old) (H.heard each.new) }
    ensures failures { CountsFailures result (S.failed source.old) (S.failed source.new) (K.failed sink.old) (K.failed sink.new) }
{
    if let Err(why) = feed_kept(kept, sink, conn, each) {
        return Err(why);
    }
    for _ in 0..turns {
        match turn(kept, source, sink, conn, each) {
            Ok(Some(end)) => return Ok(end),
            Ok(None) => {}
            Err(why) => return Err(why),
        }
    }
    Ok(PumpEnd::TurnsOver)
}
