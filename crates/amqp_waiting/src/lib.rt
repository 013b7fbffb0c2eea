//! The deliveries of a link that were put aside, and that wait to be resumed (OASIS AMQP 1.0, part 2, 2.6.13).
//!
//! | module | what it has |
//! |---|---|
//! | `item` | a delivery that was put aside, and what becomes of it |
//! | `peer` | what the peer's attach tells of its own unsettled deliveries |
//! | `waiting`, `key`, `places` | the list of those that wait on one link, found by tag; where the peer told each tag |
//! | `heard` | the peer's map of unsettled deliveries, read from its values |
//! | `sent`, `brought` | the map that an attach of ours tells, and the deliveries that it brings in |
//! | `laws` | what holds of both maps |
//!
//! A link that is brought back has [`Waiting::new`] of its items, which go into its attach by [`map_of`]. The peer's attach tells what the peer has
//! ([`unsettled_of`]); once both are there, [`Waiting::meet`] says of each item what becomes of it, and one that is resumed goes
//! ([`Waiting::remove`]).
//!
//! | verdict | the peer's attach |
//! |---|---|
//! | unclear | is not there yet, or does not tell the tag and says that it does not tell all |
//! | absent | does not tell the tag |
//! | partial | tells it as received in part |
//! | held | tells it, without an outcome; and whatever it tells of a delivery that this end received |
//! | outcome | tells it with an outcome |
//!
//! A call that is refused memory changes nothing.
#![tactic(auto)]

mod brought;
mod heard;
mod item;
mod key;
mod laws;
mod peer;
mod places;
mod sent;
mod waiting;

pub use brought::Brought;
pub use heard::unsettled_of;
pub use item::{Standing, SuspendedItem, Verdict, has_twice};
pub use laws::told_is_read;
pub use peer::{Told, Unsettled};
pub use sent::{map_of, state_value};
pub use waiting::Waiting;
