//! An end of a connection in memory: the connection, and what is done with it.

use crate::hand::{Counts, Hand};
use crate::session::Messages;
use amqp_conn::{
    Bytes, Config, Conn, ConnFault, Fed, Octets, Phase, Refusal, Role, Sliced, StartFault, Text,
};
use std::alloc::{AllocError, Global};
use thiserror::Error;

/// Why messages are not sent on. It is small, since each feed answers one.
#[derive(Clone, Copy, Debug, Error)]
pub enum EndFault {
    #[error("{0}")]
    Start(#[from] StartFault),
    #[error("{0}")]
    Refused(#[from] Refusal),
    #[error("{0}")]
    Conn(#[from] ConnFault),
    #[error("{0}")]
    Memory(#[from] AllocError),
}

/// A connection with the longest windows, and frames of 65536 octets.
pub fn connection(alloc: Global, name: &str) -> Result<Conn, EndFault> {
    let mut config = Config::new(Text::new(alloc, name)?);
    config.window = 2147483647;
    Ok(Conn::new(alloc, config)?)
}

/// One end of a connection.
#[derive(Drop)]
pub struct End {
    conn: Conn,
    hand: Hand,
}

impl End {
    /// An end that is not open yet.
    pub fn new(
        alloc: Global,
        role: Role,
        messages: Messages,
        payload: Bytes,
    ) -> Result<End, EndFault> {
        let hand = Hand::new(alloc, role, messages, payload);
        match connection(alloc, "end") {
            Ok(conn) => Ok(End { conn, hand }),
            Err(fault) => {
                drop(hand);
                Err(fault)
            }
        }
    }

    pub fn counts(&self) -> Counts {
        self.hand.counts()
    }

    /// How many steps were made.
    pub fn steps(&self) -> u32 {
        self.conn.logged().steps()
    }

    pub fn is_closed(&self) -> bool {
        self.conn.phase() == Phase::Closed
    }

    /// Does what is to be done. It stands apart, so that a profile shows what operations cost.
    #[inline(never)]
    pub fn go_on(&mut self) -> Result<(), EndFault> {
        self.hand.advance(&mut self.conn)?;
        Ok(())
    }

    /// Takes a unit of the peer's, slice by slice.
    fn hear_all(&mut self, unit: &Sliced) -> Result<(), EndFault> {
        let (head, rest) = unit.handles();
        for slice in [Some(head), rest] {
            if let Some(octets) = slice {
                self.hear(octets)?;
            }
        }
        Ok(())
    }

    /// Takes octets of the peer's.
    #[inline(always)]
    fn hear(&mut self, octets: &Bytes) -> Result<(), EndFault> {
        let mut from = 0;
        for _ in 0..u64::MAX {
            if from >= octets.len() || self.is_closed() {
                break;
            }
            let fed = self.conn.feed(&Octets::shared(octets, from))?;
            from = from.saturating_add(fed.used);
            let Fed { stepped, given, .. } = fed;
            if stepped {
                let _: bool = self.hand.receive(&mut self.conn, given)?;
            }
        }
        Ok(())
    }

    fn pop(&mut self) -> Option<Sliced> {
        self.conn.pop_unit().map(|unit| unit.bytes)
    }
}

/// One end hears all that the other put out: whether that was anything.
pub fn exchange(from: &mut End, to: &mut End) -> Result<bool, EndFault> {
    let mut is_any = false;
    for _ in 0..u64::MAX {
        match from.pop() {
            Some(octets) => {
                is_any = true;
                let heard = to.hear_all(&octets);
                drop(octets);
                heard?;
            }
            None => break,
        }
    }
    Ok(is_any)
}
