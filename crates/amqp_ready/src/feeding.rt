//! Feeds a connection with what was read.
ghost use Rattle.std.specs.Prelude.{◌≡◌, ◌⊎◌, [], Ok};
ghost use Rattle.std.specs.Bool.{OnTrue, OnFalse};
ghost use Rattle.amqp_conn.specs.Pumping.{Adds};
ghost use Rattle.amqp_ready.specs.Failing.{IsOfFeeding};
ghost use Rattle.amqp_ready.specs.Gathering.{gone};
ghost use Rattle.amqp_ready.specs.Lending.{kept};
ghost use Rattle.amqp_ready.specs.Serving.{fault_in, FeedsOn, IsNoFeeds};

use crate::fault::SlotFault;
use crate::handler::{Handler, Next};
use crate::inbox::Unfed;
use crate::lent::{Lent, recall};
use amqp_conn::{Conn, Fed, Octets, Phase};

fn hand_on<H: Handler>(lent: &mut Lent, handler: &mut H, fed: Fed) -> Result<Next, SlotFault>
    ensures kept { kept lent.new.conn ≡ kept lent.old.conn }
    ensures tells { OnTrue fed.stepped (Adds (H.told handler.old) (H.told handler.new) fed.given) }
    ensures still { OnFalse fed.stepped (H.told handler.new ≡ H.told handler.old) }
    ensures refused { IsNoFeeds (fault_in result) }
    ensures told { IsOfFeeding (fault_in result) }
{
    let Fed { stepped, given, .. } = fed;
    if !stepped {
        return Ok(Next::Feed);
    }
    match handler.take(lent, given) {
        Ok(next) => Ok(next),
        Err(refusal) => Err(SlotFault::Refused(refusal)),
    }
}

fn is_over(conn: &Conn, unfed: &Unfed) -> bool
    ensures { OnTrue result ((unfed.now ≡ []) ⊎ (conn.now.core.phase ≡ Phase.Closed)) }
{
    if unfed.is_empty() {
        return true;
    }
    conn.phase() == Phase::Closed
}

fn feed_once<H: Handler>(
    lent: &mut Lent,
    handler: &mut H,
    unfed: &mut Unfed,
) -> Result<Next, SlotFault>
    ensures feeds { FeedsOn (fault_in result) lent.old.conn unfed.old (H.told handler.old) lent.new.conn unfed.new (H.told handler.new) }
    ensures gone { gone lent.new.conn ≡ gone lent.old.conn }
    ensures told { IsOfFeeding (fault_in result) }
{
    recall(&lent.conn);
    match lent.conn.feed(&Octets::lent(unfed.octets())) {
        Ok(fed) => {
            unfed.skip(fed.used);
            hand_on(lent, handler, fed)
        }
        Err(fault) => Err(SlotFault::Conn(fault)),
    }
}

/// Feeds what was read, until all is fed or the connection has ended (`Next::Feed`), or until the handler asks to
/// write first (`Next::Write`).
///
/// # Errors
///
/// The fault that a feed returned, or the refusal that the handler returned. What was not fed is left.
pub(crate) fn feed<H: Handler>(
    lent: &mut Lent,
    handler: &mut H,
    unfed: &mut Unfed,
) -> Result<Next, SlotFault>
    ensures feeds { FeedsOn (fault_in result) lent.old.conn unfed.old (H.told handler.old) lent.new.conn unfed.new (H.told handler.new) }
    ensures gone { gone lent.new.conn ≡ gone lent.old.conn }
    ensures told { IsOfFeeding (fault_in result) }
    ensures all { result ≡ Ok Next.Feed → (unfed.new ≡ []) ⊎ (lent.new.conn.core.phase ≡ Phase.Closed) }
{
    for _ in 0..u64::MAX {
        if is_over(&lent.conn, unfed) {
            return Ok(Next::Feed);
        }
        match feed_once(lent, handler, unfed) {
            Ok(Next::Feed) => {}
            Ok(Next::Write) => return Ok(Next::Write),
            Err(fault) => return Err(fault),
        }
    }
    Ok(Next::Write)
}
