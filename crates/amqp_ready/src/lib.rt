//! AMQP connections over streams that never wait, many on one thread.
#![tactic(auto)]
//!
//! | module | contents |
//! |---|---|
//! | `answers` | the count of octets that answer what was read and are not written |
//! | `device` | [`NonBlocking`]: a stream that never waits; [`Socket`]: a TCP stream of mio |
//! | `tap` | a record of what went over a stream ([`Recorded`], [`Way`]) |
//! | `inbox` | [`Unfed`]: octets that were read and not fed; [`Inbox`]: the room for reads |
//! | `handler`, `lent` | [`Handler`]: the application's part of a connection, which is [`Lent`] to it |
//! | `feeding` | feeding what was read |
//! | `fault` | [`SlotFault`]: why a slot ends before its connection does |
//! | `sending` | writing what a connection put out |
//! | `slot` | [`Slot`]: a connection with its stream |
//! | `outbox` | [`Outbox`]: octets on their way out |
//! | `seat` | a slot and its stage ([`Stage`]); what is left of it ([`Ended`]) |
//! | `slots` | [`Slots`]: slots by key, and which of them are due |
//! | `times` | time limits of slots ([`Limits`]), on a clock that the program hands in |
//! | `listener` | peers that connect ([`Welcome`], [`Admitted`]) |
//! | `driver` | [`Driver`]: slots over the poll of mio |
//!
//! The stages of a slot:
//!
//! ```text
//! add ──► Works ── the connection has ended, all is written ──► Over(None) ─────► take_ended
//!           └── a fault ──► Leaves ── all is written ──► Over(Some(fault)) ──► take_ended
//! ```

mod answers;
mod device;
mod driver;
mod fault;
mod feeding;
mod handler;
mod inbox;
mod lent;
mod listener;
mod outbox;
mod seat;
mod sending;
mod slot;
mod slots;
mod tap;
mod times;

pub use answers::ANSWERS;
pub use device::{Moved, NonBlocking, Socket};
pub use driver::{Driver, NotAdded};
pub use fault::SlotFault;
pub use handler::{Handler, Next};
pub use inbox::{Inbox, ReadFault, Unfed};
pub use lent::Lent;
pub use listener::{Admitted, Welcome};
pub use outbox::Outbox;
pub use seat::{Ended, Stage, Turned};
pub use sending::Flushed;
pub use slot::{Brought, Served, Slot};
pub use slots::{Returned, Round, Slots};
pub use tap::{Recorded, Way};
pub use times::{Limits, milliseconds};
