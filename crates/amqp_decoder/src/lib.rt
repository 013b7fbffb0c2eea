//! Reads performatives where they lie (OASIS AMQP 1.0 part 1, 1.4; part 2, 2.7): typed fields in place, by the number or the name of their
//! descriptor; only fields of any type, and the pairs of a map, become a `Value`.
//!
//! | module | what it has |
//! |---|---|
//! | `front`, `reading`, `transfer` | the performative in front of octets, by its descriptor; each by the table of its fields |
//! | `opening`, `fields` | the head of a described list; its fields, one after the other, where they lie |
//! | `setup`, `parts`, `states` | bodies that own memory; errors and delivery states |
//! | `borrowed`, `fault` | parts that want memory, still in octets; why no performative is read |
//!
//! - [`read_performative`]: the performative in front of octets; [`read_performative_into`] leaves it in the caller's slot, which is faster for
//!   transfers, flows and dispositions, where one of the kind stands there
//! - [`BodyFault`]: why none is read
//! - Laws: octets spell at most [`one_value`] and [`one_performative`]
#![tactic(auto)]

mod borrowed;
mod fault;
mod fields;
mod front;
mod opening;
mod parts;
mod reading;
mod setup;
mod states;
mod transfer;

pub use fault::BodyFault;
pub use front::{one_performative, one_value, read_performative, read_performative_into};
