//! What a step of one end of an AMQP 1.0 session (OASIS AMQP 1.0 part 2, 2.5 to 2.7) makes of the session, of its links and of its unsettled
//! deliveries, with no endpoint around them: the parts that `amqp_endpoint` puts together, and the plans that its steps are stated by.
//!
//! | module | what it has |
//! |---|---|
//! | `stores` | the links and the unsettled deliveries, and what a step makes of both |
//! | `plan` | a step as it is planned, and the session |
//! | `drafting` | a step that sends a frame, before the frame is measured or written |
//! | `sending` | frames as they are sent |
//! | `cutting` | octets of short frames, cut out of shared blocks |
//! | `done` | what a step gives that was done |
//! | `onlink` | a link that an operation is taken on |
//! | `telling` | the flows that are sent |
//!
//! For each kind of operation of ours, and of frame that is heard, what it needs, what it is refused for, and what it leaves:
//!
//! | module | kind |
//! |---|---|
//! | `attach` | an Attach, and a Rejoin |
//! | `detach` | a Detach |
//! | `suspend` | a Suspend |
//! | `start` | a delivery that begins |
//! | `carry` | a further transfer of it |
//! | `abort` | one that is given up |
//! | `resume` | one that is resumed |
//! | `dispose` | a disposition |
//! | `grant` | credit that is given |
//! | `arriving` | a transfer that comes, from its parts to what it gives |
//! | `peer_transfer` | what a transfer violates |
//! | `peer_flow` | a flow that is heard |
//! | `peer_attach` | an attach that is heard |
//! | `peer_detach` | a detach that is heard |
#![tactic(auto)]

pub mod abort;
pub mod arriving;
pub mod attach;
pub mod carry;
pub mod cutting;
pub mod detach;
pub mod dispose;
pub mod done;
pub mod drafting;
pub mod grant;
pub mod onlink;
pub mod peer_attach;
pub mod peer_detach;
pub mod peer_flow;
pub mod peer_transfer;
pub mod plan;
pub mod resume;
pub mod sending;
pub mod start;
pub mod stores;
pub mod suspend;
pub mod telling;
