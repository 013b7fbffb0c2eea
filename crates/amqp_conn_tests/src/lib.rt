//! Tests of whole connections.
//!
//! | module | what it tests |
//! |---|---|
//! | `hostile` | a peer that breaks the rules, and devices that fail |
//! | `growth` | each growth of memory refused in turn |
//! | `ready` | many connections on one thread |
//! | `act`, `device` | what they share: connections, operations as tables write them, devices |
#![tactic(auto)]

#[cfg(test)]
mod act;
#[cfg(test)]
mod device;
#[cfg(test)]
mod growth;
#[cfg(test)]
mod hostile;
#[cfg(test)]
mod ready;
