//! One end of an AMQP 1.0 session (OASIS AMQP 1.0 part 2, 2.5 to 2.7): it takes the application's operations and the frames that are
//! heard, and answers each with the frames to send. It keeps no history and does no input or output.
//!
//! A step is checked, made, then changed: its check asks for no memory, and is all that `refusal` and `violation` are; what owns memory is made
//! next, mostly as a plan; and the change cannot fail once its own room is there. `own` and `heard` do all three.
//!
//! With n links and u unsettled deliveries, beside the octets of the frames that are sent:
//!
//! | step | cost |
//! |---|---|
//! | opened, begin, refresh, beat; the peer's begin and open | O(1) |
//! | start, carry, grant, offer, drained, learn; a flow, a transfer | O(log n) |
//! | attach, of either end | O(log n + m), for m links of its name; where deliveries wait or are told, O(k) for k of them more |
//! | rejoin | as an attach, and a step for each pair of its deliveries |
//! | resume | O(log n) |
//! | take | O(log n), and a handle of each slice of the payload, one for each of its transfers |
//! | abort | O(log n + log u) |
//! | dispose, the peer's disposition, of k deliveries | O(log u + k), and O(log n) for each that the peer tells of; those beside them on the shorter side move where deliveries end |
//! | detach, of either end | O(log n + u) |
//! | suspend, and a detach of the peer's that does not close | O(log n + u), and O(log r) for each that is ready or put aside, for r ready ones |
//! | end, of either end | O(n + u) |
//! | what would be put aside of all links of a role, asked without a step | O(n · u) |
//!
//! | module | what it has |
//! |---|---|
//! | `endpoint` | the endpoint, and one module for each kind of step |
//!
//! What a step makes of the session, the links and the deliveries, and its plan, are in `amqp_steps`; `done` is a module of that.
#![tactic(auto)]

pub mod endpoint;

pub use amqp_links::left;
pub use amqp_rules::{config, op, refusal, reply, status, violation};
pub use amqp_steps::done;
