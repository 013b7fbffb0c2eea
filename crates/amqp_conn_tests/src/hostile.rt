//! One connection against a peer that breaks the rules, that is cut off or damaged in any octet, and that asks for much; and against devices that fail. What
//! a clause says of one call these show of whole sessions.
//!
//! | module | what it has |
//! |---|---|
//! | `frames` | the frames of the peer's and operations of ours, by name |
//! | `peer` | a connection that goes through a script, with each answer judged |
//! | `violations` | each violation and each fault, with the condition that goes out |
//! | `sessions` | whole sessions, cut short and with octets replaced |
//! | `devices` | a pump whose devices fail at each place, and move one octet at a time |
//! | `pumps` | how a pump ends |
//! | `bounds` | what a peer can make a connection keep |

mod bounds;
mod devices;
mod frames;
mod peer;
mod pumps;
mod sessions;
mod violations;
