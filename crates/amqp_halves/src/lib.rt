//! Which performative lies in front of octets that are in two places, one after the other, where there is no memory to join them (OASIS AMQP 1.0
//! part 1, 1.4; part 2, 2.7).
//!
//! | module | what it has |
//! |---|---|
//! | `halves` | octets in two places, read as one list |
//! | `scan`, `leaf` | a value passed over; what its format code and its first octets say of it |
//! | `rows` | the table of the fields of each composite type |
//! | `judge` | whether a value is of a composite type, by that table |
//!
//! - [`find_performative`]: the performative in front, as its octets and its type; [`Found`]
#![tactic(auto)]

mod halves;
mod judge;
mod leaf;
mod rows;
mod scan;

pub use judge::{Found, find_performative};
