//! Two sessions that speak with each other: each has its journal, and hears the frames that the other sent, one at a time and in order. No socket, no
//! octets: it is what two programs make of each other over connections that lose nothing.
//!
//! | module | what it has |
//! |---|---|
//! | `world` | both ends, kept together; what holds of every two ends that speak with each other |
//! | `side` | which of the two |
//! | `settings` | what is settled of an end before it starts |
//! | `refusal` | why an operation is refused, and why nothing is heard |
//! | `heard` | how much an end heard of the other |
//! | `settling` | how far both came in hearing each other until nothing waits |
//!
//! The application of an end may do what `amqp_journal` lets it do, but for one thing: it disposes no delivery whose first transfer it has not heard.
//! Then no frame of one end is a violation for the other, whatever both do and whenever they hear (`World::hear` has no such answer), and
//! what comes out of one end went into the other: both are clauses of `World::own` and `World::hear`, and `World::laws` has them with the rest.
//! When each end has heard all that the other sent, they agree on sessions, windows, links, credit and unsettled deliveries; `World::settle` hears so long,
//! which comes to an end, since no answer is answered.
//!
//! That is said of ends with settings within their limits, each short of its journal limit, which hear all frames of the other in order. Where a journal
//! is full, or memory is refused, nothing changes, and the frame still waits. No link is put aside or brought back:
//! a `World` refuses that as `Resuming`. Nothing is said of a connection that is lost, nor that a frame is ever heard.
#![tactic(auto)]

mod ahead;
mod fitting;
pub mod heard;
mod next;
pub mod refusal;
mod resuming;
pub mod settings;
pub mod settling;
pub mod side;
pub mod world;
