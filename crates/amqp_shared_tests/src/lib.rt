//! Tests of `amqp_shared`, in a crate above it: what no clause says of a connection that threads share, and each growth refused in turn of its calls, on one
//! thread, as those of a session and of a connection stand in `amqp_conn_tests`. Beside them runs of `amqp_pair` that fail, which no command line asks for, and
//! messages between two ends of `amqp_client`. They stand apart from `amqp_tests` so that both are proved side by side.
//!
//! | module | of |
//! |---|---|
//! | `shared` | the ring, calls that wait, many callers, consumers |
//! | `growth` | sessions that go twice, and come to the same |
//! | `client` | calls of the client library |
//! | `exchange` | messages between two ends that each do one thing after the other |
//! | `pair` | runs of two ends that fail |
//! | `acts`, `octets` | operations, as tables write them, and what the peer says |
//! | `session` | a shared session, as it begins and as it is taken apart |
#![tactic(auto)]

#[cfg(test)]
mod acts;
#[cfg(test)]
mod client;
#[cfg(test)]
mod exchange;
#[cfg(test)]
mod growth;
#[cfg(test)]
mod octets;
#[cfg(test)]
mod pair;
#[cfg(test)]
mod session;
#[cfg(test)]
mod shared;
