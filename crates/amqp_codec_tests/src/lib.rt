//! Tests of the libraries below the endpoint, in one crate above them: a check of a crate's tests proves that crate once more, so tests that stand
//! apart spare one proof of each library. They show what no clause says: octets of known values and frames, and that each call succeeds where memory is there.
//!
//! | module | of |
//! |---|---|
//! | `types` | spellings of values, both ways |
//! | `flow` | serial numbers, windows and credit |
//! | `performatives` | copies of each kind of body, state and error |
//! | `frames` | frames written for what was read, and those that are not written |
//! | `framer` | frames read, however they are cut |
//! | `deliveries` | unsettled deliveries, and deliveries that are cut over transfers |
//! | `waiting` | what becomes of each delivery that waits to be resumed, and the maps that attaches tell, as octets |
//! | `messages` | messages, their sections and fields; the ends of a link |
//! | `traced` | lines of a trace on standard error |
//! | `growth` | each growth of memory that these calls ask for, refused in turn |
#![tactic(auto)]

#[cfg(test)]
mod deliveries;
#[cfg(test)]
mod flow;
#[cfg(test)]
mod framer;
#[cfg(test)]
mod frames;
#[cfg(test)]
mod growth;
#[cfg(test)]
mod messages;
#[cfg(test)]
mod performatives;
#[cfg(test)]
mod traced;
#[cfg(test)]
mod types;
#[cfg(test)]
mod waiting;
