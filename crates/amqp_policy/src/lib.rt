//! What both ends of a link decide beyond the protocol: credit, the parts of a message, waiting, outcomes, what is in doubt, queues and pauses.
//!
//! Everything here is a value with methods. No module knows a connection, a device or a clock.
//!
//! | module | decides |
//! |---|---|
//! | `credit` | how much credit a receiver grants, so that no more messages come than are wanted |
//! | `parts` | which octets of a message go into the next transfer |
//! | `window` | when a session's incoming window is announced again |
//! | `waits` | when a heartbeat is due, and when a silent peer is given up |
//! | `outcome` | what an outcome means, and how many messages had each |
//! | `sent` | which messages of a sender are in doubt, and when the next one may begin |
//! | `received` | which messages of a receiver are in doubt |
//! | `queues` | messages in memory, by address |
//! | `backoff` | how long to wait before the next attempt to connect |
//! | `shown` | which characters of a peer's text are escaped in a line |
#![tactic(auto)]

mod backoff;
mod credit;
mod outcome;
mod parts;
mod queues;
mod received;
mod sent;
mod shown;
mod waits;
mod window;

pub use backoff::Backoff;
pub use credit::{Incoming, Renewal, credit_laws, credit_to_grant};
pub use outcome::{AfterOutcome, Outcome, Outcomes, after_outcome, outcome_of};
pub use parts::{has_more, part, parts_join, room_in_frame};
pub use queues::{Queued, Queues};
pub use received::{ReceivedDoubts, received_laws};
pub use sent::{Begun, SentDoubts, sent_laws};
pub use shown::Shown;
pub use waits::{TICK, Waits};
pub use window::is_window_due;
