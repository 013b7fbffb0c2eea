//! An AMQP 1.0 client for a program that does one thing after the other: messages are sent and received over TCP, or over any reader and writer.
//!
//! ```text
//! let mut client = Client::connect(&rt, alloc, ("localhost", 5672), &Options::new("my_program"))?;
//! let from = client.receiver("in", 10)?;
//! let to = client.sender("out")?;
//! let received = client.receive(from)?;
//! let outcome = client.send(to, &received.message)?;
//! client.settle(from, received.delivery, outcome)?;
//! client.close()?;
//! ```
//!
//! - [`Client`] is a connection with one session; [`Options`] has its settings.
//! - [`Sender`] and [`Receiver`] name links, of which a connection may have several; [`Pending`] and [`Delivery`] name messages that were sent and received.
//! - [`Message`] is a message in its encoded form, [`Outcome`] what became of one.
//! - [`ClientError`] is the error of all these calls. It has the peer's condition and description, and the system's error.
//!
//! Each call waits in a read until the peer has said what it needs, or the octets end. There is no clock: a device whose reads end after a [`TICK`] is one.
//!
//! Below this library are calls for one link, the one with the number [`LINK`], over anything that is a [`Session`]. Programs use them that answer the link of a peer
//! (`answer`), bring deliveries of an earlier connection in (`open_again`, `resume`), or drain a link (`drain`, `take_drained`). They fail with a [`ClientFault`].
//!
//! | module | holds |
//! |---|---|
//! | `client`, `connecting` | [`Client`]: a connection with its devices, how it is made and closed |
//! | `sender`, `receiver`, `message` | the calls that send and receive, and what is sent |
//! | `links`, `attaching` | the links that the program opened, and how they are opened |
//! | `error`, `reporting`, `cause` | [`ClientError`], and how a fault becomes one with the peer's reason |
//! | `end`, `session` | [`End`]: a connection without its devices; [`Session`]: one whose peer is waited for |
//! | `opening`, `sending`, `receiving`, `ending`, `fault` | the calls for one link |
#![tactic(auto)]

mod attaching;
mod cause;
mod client;
mod connecting;
mod end;
mod ending;
mod error;
mod fault;
mod links;
mod message;
mod opening;
mod receiver;
mod receiving;
mod reporting;
mod sender;
mod sending;
mod session;

pub use amqp_policy::{Outcome, Outcomes, TICK};
pub use client::Client;
pub use connecting::Options;
pub use end::{End, LINK};
pub use ending::finish;
pub use error::{ClientError, Ended, EndedPart};
pub use fault::ClientFault;
pub use links::{Delivery, Pending, Receiver, Sender};
pub use message::{Message, ReceivedMessage};
pub use opening::{Wanted, answer, answer_again, await_attached, await_link, open, open_again};
pub use receiving::{drain, grant, settle_as, take, take_drained};
pub use sending::{Told, learn, number_of, resume, send, settle};
pub use session::{Session, apply};
