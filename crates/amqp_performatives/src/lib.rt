//! The performatives of AMQP 1.0 and what they are made of (OASIS AMQP 1.0 part 2, 2.7 and 2.8; part 3, 3.4): their fields, in order, as data.
//!
//! | performative | body | made of | section |
//! |---|---|---|---|
//! | open | [`OpenBody`] | container-id | 2.7.1 |
//! | begin | [`BeginBody`] | next-outgoing-id, incoming-window, outgoing-window | 2.7.2 |
//! | attach | [`AttachBody`] | name, handle, role | 2.7.3 |
//! | flow | [`FlowBody`] | incoming-window, next-outgoing-id, outgoing-window | 2.7.4 |
//! | transfer | [`TransferBody`] | handle | 2.7.5 |
//! | disposition | [`DispositionBody`] | role, first | 2.7.6 |
//! | detach | [`DetachBody`] | handle | 2.7.7 |
//! | end, close | [`EndBody`], [`CloseBody`] | | 2.7.8, 2.7.9 |
//!
//! `TransferBody::new(handle)` and its like make a body of its mandatory fields; the others are absent until they are set.
//!
//! | module | what it has |
//! |---|---|
//! | `performative`, `bodies` | the nine performatives, and a body for each |
//! | `state`, `error` | delivery states and errors |
//! | `composite`, `named` | the table of descriptors; what a performative is called |
//! | `field`, `listed` | fields as a writer goes over them |
//! | `copying`, `equality` | copies of optional parts; what `==` is to contracts |
//!
//! - [`Performative`]: what a frame says. The bodies of open, begin and attach, values of any type and errors, which few frames have, stand
//!   behind a pointer (`Boxed`), so that a frame is narrow where it is moved.
//! - [`Role`], [`DeliveryState`], [`AmqpError`]: what fields hold
//! - [`Composite`]: the table of composite types, by the number and the name of their descriptors
//! - [`copying`]: copies of what may be left out, for all crates above
//! - [`field`], [`listed`]: the fields of a body as a writer goes over them
//! - [`equal_is_same`]: `==` of performatives, states and errors is `≡` in contracts
#![tactic(auto)]

mod bodies;
mod composite;
pub mod copying;
mod equality;
mod error;
pub mod field;
pub mod listed;
mod named;
mod performative;
mod state;

pub use bodies::{
    AttachBody, BeginBody, CloseBody, DetachBody, DispositionBody, EndBody, FlowBody, OpenBody,
    Role, TransferBody,
};
pub use composite::Composite;
pub use equality::equal_is_same;
pub use error::AmqpError;
pub use performative::Performative;
pub use state::DeliveryState;
