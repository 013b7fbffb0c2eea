//! A connection as a handler sees it.
ghost use Rattle.std.specs.Prelude.{◌≡◌, ◌≤◌, length, IfOk, OnErr};
ghost use Rattle.amqp_journal.specs.Units.{units, PutWithin};
ghost use Rattle.amqp_conn.specs.Calling.{Performs, Closes, forgotten};
ghost use Rattle.amqp_conn.specs.Leaving.{Gives};
ghost use Rattle.amqp_ready.specs.Lending.{kept};

use amqp_conn::{AmqpError, Boxed, CloseRefusal, Conn, Left, Op, Refusal};
use std::alloc::AllocError;

/// A connection that is lent to a handler, which may read it, perform operations and close it. The octets that the
/// connection has not read, those that went out and the frames that it heard stay, whatever the handler does.
#[derive(Drop)]
pub struct Lent {
    pub(crate) conn: Conn,
}

/// It does nothing: its contract recalls what holds of every connection.
pub(crate) fn recall(conn: &Conn)
    ensures within { PutWithin (length conn.now.core.log.journal) conn.now.core.log.put }
    ensures some { conn.now.core.log.popped ≤ length (units conn.now.core.log) }
{
    let _ = conn.logged().put_out();
}

impl Lent {
    pub(crate) fn new(conn: Conn) -> Lent
        ensures { result ≡ record { conn = conn } }
    {
        Lent { conn }
    }

    /// Returns the connection, for reading.
    pub fn conn(&self) -> &Conn
        ensures { result.now ≡ self.now.conn }
    {
        &self.conn
    }

    /// Performs an operation, as `Conn::perform`; `conn().given()` returns what it resulted in.
    ///
    /// # Errors
    ///
    /// Those of `Conn::apply`: nothing has changed, and the operation is dropped.
    pub fn perform(&mut self, op: Op) -> Result<(), Refusal>
        ensures performs { Performs self.old.conn.core op result self.new.conn.core }
        ensures kept { kept self.new.conn ≡ kept self.old.conn }
    {
        recall(&self.conn);
        self.conn.perform(op)
    }

    /// Closes the connection, as `Conn::close`.
    ///
    /// # Errors
    ///
    /// Those of `Conn::close`: nothing has changed then.
    pub fn close(&mut self, error: Option<Boxed<AmqpError>>) -> Result<(), CloseRefusal>
        ensures closes { Closes self.old.conn.core error result self.new.conn.core }
        ensures kept { kept self.new.conn ≡ kept self.old.conn }
    {
        recall(&self.conn);
        self.conn.close(error)
    }

    /// Removes and returns the first delivery or outcome that a link left when it was detached, as `Conn::pop_left`.
    /// The journal gets no entry.
    ///
    /// # Errors
    ///
    /// [`AllocError`] if memory is refused: nothing has changed then.
    pub fn pop_left(&mut self) -> Result<Option<Left>, AllocError>
        ensures gives { IfOk result (λ given. Gives self.old.conn.core given self.new.conn.core) }
        ensures kept { kept self.new.conn ≡ kept self.old.conn }
        ensures err { OnErr result (self.new ≡ self.old) }
    {
        self.conn.pop_left()
    }

    /// Drops the entries of the journal so far, as `Conn::forget`.
    pub fn forget(&mut self)
        ensures forgets { self.new.conn ≡ forgotten self.old.conn }
        ensures kept { kept self.new.conn ≡ kept self.old.conn }
    {
        self.conn.forget();
    }
}
