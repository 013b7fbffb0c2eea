//! The endpoint with the journal of its steps, and the units that go out to the peer.
//!
//! | module | what it has |
//! |---|---|
//! | `logged` | the endpoint, its journal and the waiting units, kept together |
//! | `unit` | what goes out to the peer, with its number |
//! | `receipt` | what stands for an operation that was done |
//!
//! Room is made for a step's entry and its unit, and the copy that the entry keeps; only then the endpoint does the step: one that is refused,
//! or for which memory is wanting, leaves all as it was. What a step would lose of a link that it makes gone
//! is put by before, in a list of its own. The entries are kept until they are forgotten. Entries, and the laws of whole journals, are those of `amqp_laws`.
#![tactic(auto)]

pub mod logged;
pub mod receipt;
pub mod unit;

pub use amqp_endpoint::left;
pub use amqp_laws::entry;
