//! An end whose peer is waited for.
use crate::end::{Awaited, End};
use crate::fault::ClientFault;
use amqp_conn::{Given, Op, Refusal};

/// One end of a connection with its devices: a [`Client`](crate::Client).
pub trait Session {
    /// Returns the end, to be read.
    fn end(&self) -> &End;

    /// Returns the end, for what waits for nothing.
    fn end_mut(&mut self) -> &mut End;

    /// Writes what waits to go out, reads once, at most 4096 octets, and takes the frames that came. A read that ends in vain ends the turn, too. Then sends a
    /// heartbeat if one is due, announces the window again, and gives up credit that the peer wants back.
    ///
    /// # Errors
    ///
    /// `Closed` if the connection has ended, `EndOfInput` if the input has, `Silent` if the peer has been silent for too long, `Sasl`, and `Pump`.
    fn turn(&mut self) -> Result<(), ClientFault>;

    /// Writes what waits to go out, as far as that is possible, and reads once.
    fn write_out(&mut self);
}

/// Does the operation as soon as what the peer sends allows it.
///
/// # Errors
///
/// `Refused` if nothing that the peer sends would allow it, and those of `turn`.
pub fn apply<S: Session>(session: &mut S, op: &Op) -> Result<Given, ClientFault> {
    for _ in 0..u64::MAX {
        let end = session.end_mut();
        match end.conn.apply(op) {
            Ok(given) => return Ok(given),
            Err(refusal) if end.is_early(refusal) => session.turn()?,
            Err(refusal) => return Err(ClientFault::Refused(refusal)),
        }
    }
    Err(ClientFault::Refused(Refusal::Nothing))
}

/// Does the operation as `apply`, and drops what it gives.
pub(crate) fn perform<S: Session>(session: &mut S, op: Op) -> Result<(), ClientFault> {
    let answer = apply(session, &op);
    drop(op);
    match answer {
        Ok(given) => {
            drop(given);
            Ok(())
        }
        Err(fault) => Err(fault),
    }
}

/// Waits until the peer has done it, or will not do it any more.
pub(crate) fn wait_for<S: Session>(session: &mut S, awaited: Awaited) -> Result<(), ClientFault> {
    for _ in 0..u64::MAX {
        if session.end().is_over(awaited) {
            break;
        }
        session.turn()?;
    }
    Ok(())
}
