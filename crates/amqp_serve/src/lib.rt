//! The command `serve`: a listener that keeps messages in memory by address, for peers that send them and peers that take them, each over a
//! connection of its own, on one
//! thread or several. It is a tool for tests and no broker: nothing is kept beyond the process.
#![tactic(auto)]
//!
//! What it decides, each decision a function over values whose contract says all of it:
//!
//! | module | decides |
//! |---|---|
//! | `answer` | what the attach of a peer is answered with |
//! | `receipt` | what becomes of a message that came, and which outcome its sender is sent |
//! | `returning` | what an outcome does to a message that was sent, and what a link that ends gives back, in which order |
//! | `parts` | what goes into a transfer |
//! | `driving` | when our header is written, when a peer is sent nothing more, how long it may take, and how much of a connection is kept |
//!
//! Queues, credit, windows and the meaning of outcomes are those of `amqp_policy`.
//!
//! What carries it out:
//!
//! | module | has |
//! |---|---|
//! | `store` | the messages of all threads, and addresses that are made up |
//! | `header`, `terminus` | what is read and written of messages, and of the ends of links |
//! | `links`, `attaching` | links as they are offered, answered and kept |
//! | `peer`, `violation` | what the frames of a peer do, inside the turns of its connection |
//! | `receiving`, `outlet` | messages that came, and links on which messages go out |
//! | `greeting`, `waiting` | the first octets of a peer, which are awaited before our header is written |
//! | `report`, `traced` | lines on standard error |
//! | `shared` | what threads share: the store, and the peers that are dealt to each thread |
//! | `server` | [`Server`]: the connections of a thread |
//! | `running` | [`run_serve`]: a server that listens, and its threads |

mod answer;
mod attaching;
mod driving;
mod greeting;
mod header;
mod links;
mod outlet;
mod parts;
mod peer;
mod receipt;
mod receiving;
mod report;
mod returning;
mod running;
mod server;
mod shared;
mod store;
mod terminus;
mod traced;
mod violation;
mod waiting;

pub use running::{MAX_THREADS, Serve, ServeFault, run_serve};
pub use server::Server;
pub use shared::{Settings, Shared};
