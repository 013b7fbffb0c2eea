//! The application's part of a connection.
ghost use Rattle.std.specs.Prelude.{◌≡◌};
ghost use Rattle.amqp_conn.specs.Pumping.{Adds};
ghost use Rattle.amqp_ready.specs.Lending.{kept};

use crate::lent::Lent;
use amqp_conn::{Given, Refusal};

/// What a handler wants done next.
#[derive(Clone, Copy, Debug, PartialEq, Eq)]
pub enum Next {
    /// Feed on what was read.
    Feed,
    /// Write what waits before more is fed.
    Write,
}

/// The application's part of a connection. A refusal that it returns ends its slot, and no other.
///
/// Whatever a handler does with its connection, the octets that are not read, those that went out and the frames that
/// were heard stay (`kept` of `specs/Lending`). A function that is lent the connection by a handler promises that,
/// too, and needs no proof file for it.
pub trait Handler {
    ghost use Rattle.std.specs.Prelude.{List, Option};
    ghost use Rattle.amqp_rules.specs.declared.reply.Given.{Given};

    /// What the handler was handed, in order, if it is known.
    ghost told: { Self → Option (List Given) };

    /// Takes what one more entry of the journal returned that the peer's octets made, before more is fed. It may
    /// perform operations.
    ///
    /// # Errors
    ///
    /// A refusal ends the slot by [`SlotFault::Refused`](crate::SlotFault::Refused).
    fn take(&mut self, conn: &mut Lent, given: Given) -> Result<Next, Refusal>
        ensures kept { kept conn.new.conn ≡ kept conn.old.conn }
        ensures told { Adds (told self.old) (told self.new) given };

    /// Goes on with what the application does of its own, at the end of each turn that met no fault. Returns whether
    /// it would do more as soon as what it puts out now is written.
    ///
    /// # Errors
    ///
    /// A refusal ends the slot by [`SlotFault::Refused`](crate::SlotFault::Refused).
    fn go_on(&mut self, conn: &mut Lent) -> Result<bool, Refusal>
        ensures kept { kept conn.new.conn ≡ kept conn.old.conn }
        ensures told { told self.new ≡ told self.old };
}
