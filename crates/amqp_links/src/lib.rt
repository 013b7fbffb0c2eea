//! The links of one session (OASIS AMQP 1.0, part 2, 2.6): what is kept of each, and all of them in a slab with their indexes.
//!
//! | module | what it holds |
//! |---|---|
//! | `end` | what the attach of one end tells that stays with the link |
//! | `credit` | the credit of our end, by which its role is told |
//! | `marks` | what most steps change of a link |
//! | `arrival` | a transfer that is heard, and the deliveries that it begins, goes on with or completes |
//! | `link`, `readers`, `waiting`, `learning` | a link, and what it is asked |
//! | `links`, `lookups`, `meeting` | the links that are not gone: how they are found, and what a step makes of them |
//! | `store` | where they stand, by their number and by the peer's handle, in the order in which they were made |
//! | `names`, `handles` | the indexes by name and of our handles |
//! | `telling` | what is told of deliveries waits on their links |
//! | `found` | a link that was found, with its key |
//! | `resuming` | what a link has to resume: what waits on it, or what the peer's attach told |
//! | `left` | what links leave that go |
//! | `suspend`, `rejoining` | what goes with a link that is put aside; all links of a role as they would be |
//! | `fate` | what becomes of the links, as data |
#![tactic(auto)]

pub mod arrival;
pub mod credit;
pub mod end;
pub mod fate;
pub mod found;
mod handles;
mod learning;
pub mod left;
pub mod link;
pub mod links;
mod lookups;
pub mod marks;
mod meeting;
mod names;
mod readers;
mod rejoining;
pub mod resuming;
mod store;
mod suspend;
mod telling;
mod waiting;
