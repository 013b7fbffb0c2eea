//! A connection for programs that pass numbers and octets alone, as those in other languages do.
#![tactic(auto)]
//!
//! | module | what it has |
//! |---|---|
//! | `caller` | [`Caller`]: a connection, driven by numbers and octets |
//! | `event` | [`Event`]: what a call reports, as one flat struct |
//! | `settings`, `arguments` | [`Settings`], [`LinkSettings`], [`Outcome`]: arguments as flat structs, and the operations that they describe |
//! | `aside` | links that come back on another connection, and what links leave that are gone |
//! | `heard` | the frame that a feed heard, as numbers |
//! | `standing` | [`ConnStatus`], [`LinkStatus`]: how a connection and its links stand, as flat structs |
//! | `texts` | [`TextKind`]: names and errors that a program can ask for |
//! | `rest` | [`Rest`]: the octets of a unit that were not written yet |
//! | `status` | the numbers by which calls report how they ended |
//!
//! Each call states what it does by the contracts of [`amqp_conn::Conn`]. Structs that such a program shares with this crate are `#[repr(C)]`.
//!
//! # How a program drives a connection
//!
//! 1. **Write**: call [`Caller::write`] until it returns 0, and send the octets in this order.
//! 2. **Read** some octets. If there will be none any more, the connection is lost ([`amqp_conn::Conn::lost`]).
//! 3. **Feed** them: call [`Caller::feed`] until all are used or the phase is closed. Each call reports one event at most.
//! 4. **Act** on the event while the connection is running: begin, attach, start, take, dispose, learn and so on.
//! 5. Start again from 1, until the phase is closed and nothing waits to be written.
//!
//! # What a program waits for
//!
//! | what happened | where the event of the feed says so |
//! |---|---|
//! | the peer opened the connection | `phase` is 3 (running) |
//! | the peer began the session | `frame` is 2 |
//! | a link was offered, answered, or is gone | `kind` is 2, 3, or 4 and 10 |
//! | credit or a window may have grown | `frame` is 4, and `handle` is the peer's handle of the link |
//! | a delivery is ready to be taken | `kind` is 6 |
//! | an outcome may be learnt | `frame` is 6 |
//! | the peer ended the session | `frame` is 8 |
//! | the connection is over | `phase` is 5 (closed) |

mod arguments;
mod aside;
mod caller;
mod event;
mod heard;
mod rest;
mod settings;
mod standing;
mod status;
mod texts;

pub use arguments::{LinkSettings, Outcome, Range};
pub use aside::LostLink;
pub use caller::Caller;
pub use event::{Event, NONE};
pub use rest::Rest;
pub use settings::{Settings, start};
pub use standing::{ConnStatus, LinkStatus};
pub use status::{
    BAD_ARGUMENT, DONE, FAULT, NO_CONNECTION, NO_MEMORY, NOT_CLOSED, NOT_STARTED, REFUSED,
};
pub use texts::TextKind;

#[cfg(test)]
mod tests;
