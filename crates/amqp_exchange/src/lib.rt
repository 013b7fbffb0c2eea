//! The commands `send` and `receive`: messages to a peer, or from one, over TCP.
//!
//! | module | what it has |
//! |---|---|
//! | `exchange` | both commands, and their options ([`Exchange`](exchange::Exchange)) |
//! | `send_once`, `receive_once` | both over one connection |
//! | `again` | an exchange that goes on over one connection after the other |
//! | `send_again`, `receive_again` | both commands with a journal |
//! | `rejoining` | a link that is attached over one connection after the other |
//! | `journal` | the file of lines that says what became of each message |
//! | `recalling` | what that file says of earlier runs |
//! | `meeting` | the connection to a peer, over TCP |
//! | `bodies` | messages to be sent: so many of one size or of one file, or lines |
//! | `streaming` | lines as they come, from an input that may have nothing ready |
//! | `readiness` | which of the input and the socket can be read without waiting |
//! | `queued` | how much is put out before it is written, and the peer is read |
//! | `credit` | how much credit `receive` grants |
//! | `printing`, `json` | messages that were taken, as text and as JSON |
//! | `printout` | standard output as a file: what was printed and not noted is cut off |
//! | `progress` | how far an exchange is ([`Watch`]) |
//! | `report` | what an exchange prints as it goes on |
//! | `traced`, `seen` | devices that print each frame that passes them, and keep their errors |
//! | `order` | tests of the order of what is noted and what goes out |
//! | `observed`, `reason` | a session that keeps why either end has left it |
#![tactic(auto)]

mod again;
mod bodies;
mod credit;
pub mod exchange;
pub mod journal;
mod json;
mod meeting;
mod observed;
#[cfg(test)]
mod order;
mod printing;
mod printout;
mod progress;
mod queued;
mod readiness;
mod reason;
mod recalling;
mod receive_again;
mod receive_once;
mod rejoining;
mod report;
mod seen;
mod send_again;
mod send_once;
mod streaming;
mod traced;

pub use amqp_conn::MIN_MAX_FRAME;
pub use bodies::Labels;
pub use printing::Printed;
pub use progress::{Unwatched, Watch};
