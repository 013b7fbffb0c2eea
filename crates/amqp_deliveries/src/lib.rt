//! What one end of a session knows of its deliveries (OASIS AMQP 1.0, part 2, 2.6.12).
//!
//! | module | what it holds |
//! |---|---|
//! | `item` | an unsettled delivery |
//! | `disposition` | what is said of deliveries, and what is told of one |
//! | `held` | the unsettled deliveries of one role, in serial order |
//! | `span` | neighbouring places among them: what a disposition covers |
//! | `tags` | which tags are in use on which link |
//! | `change` | what a step makes of unsettled deliveries, as data |
//! | `tables` | the unsettled deliveries of both roles |
//! | `chain` | octets in several slices, compared however they are cut |
//! | `partial` | the payloads of a delivery whose transfers go on, as slices that are shared |
//!
//! With n deliveries held, a look-up by id takes O(log n) and one by tag a step on average, and what a disposition does as many steps more as it
//! covers deliveries; [`Held`] has the costs of each call.
//! A call that is refused memory changes nothing.
#![tactic(auto)]

mod chain;
mod change;
mod disposition;
mod held;
mod item;
mod partial;
mod span;
mod tables;
mod tags;

pub use chain::{Chain, are_same};
pub use change::Change;
pub use disposition::{Disposition, Telling};
pub use held::Held;
pub use item::HeldItem;
pub use partial::{Partial, Parts};
pub use span::Span;
pub use tables::Tables;
