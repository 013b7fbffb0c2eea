//! Tests of an endpoint, its journal, a connection, and two ends that speak with each other, in one crate above them, as those of the libraries below stand
//! in `amqp_codec_tests`. They show what no clause says: octets of known connections, and that each call succeeds where memory is there.
//!
//! | module | of |
//! |---|---|
//! | `endpoint` | replies that an endpoint gives twice |
//! | `conn` | a whole connection |
//! | `journal` | what a connection shows that forgets its journal's entries |
//! | `ends` | what came before an end is had once |
//! | `said` | what the peer said of itself, and of why it ended something |
//! | `told` | what both attaches told of a link |
//! | `sliced` | octets that are sent, in one slice or in two |
//! | `world` | two ends that speak with each other |
//! | `acts`, `octets` | what they share: operations as tables write them, and what a peer sends |
#![tactic(auto)]

#[cfg(test)]
mod acts;
#[cfg(test)]
mod conn;
#[cfg(test)]
mod endpoint;
#[cfg(test)]
mod ends;
#[cfg(test)]
mod journal;
#[cfg(test)]
mod octets;
#[cfg(test)]
mod said;
#[cfg(test)]
mod sliced;
#[cfg(test)]
mod told;
#[cfg(test)]
mod world;
