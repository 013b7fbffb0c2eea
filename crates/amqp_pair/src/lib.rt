//! A run of two ends of one connection over a socket of the loopback, each shared by threads.
//!
//! | module | what it has |
//! |---|---|
//! | `pair` | `run_pair`: both ends, and what a run tells |
//! | `options` | what a run is to do |
//! | `sender`, `receiver` | each end: what its threads do, and what it tells |
//! | `threads` | the threads of an end: its reader, the one that writes for it, and its work |
//! | `end` | what the threads of one end share |
//! | `reading`, `writing` | the thread that reads an end's socket, and by what all threads write it |
//! | `inbox` | the octets that were read, cut into whole frames |
//! | `sending` | the messages that one end sends, and what it learns of them |
//! | `consuming` | the threads that accept them at the other |
//! | `beginning` | the connection as each end begins it |
//! | `keeping` | how many entries of its journal an end keeps |
//! | `ending` | how an end comes to its close, and what is left of it |
//! | `beside` | a thread beside this one, and what becomes of it where the system makes none |
//! | `gate` | what a thread waits for until its end is open |
//! | `fault` | why a run fails |
//!
//! Each end has a reader, which reads the socket without the lock and feeds what came, and a writer for what the reader puts out. A thread of the one end queues
//! messages and learns of them, consumers of the other accept them, and each writes what it has put out.
//!
//! All threads end by themselves: where the connection has closed, or its octets ended, or a read, a write or memory failed. A thread that stops for a
//! fault ends its end's connection, which ends the others of its end, and its socket, which ends the peer. A thread that the system does not make ends
//! its end likewise. Nothing of that is proved; runs show it.
#![tactic(auto)]

mod beginning;
mod beside;
mod consuming;
mod end;
mod ending;
mod fault;
mod gate;
mod inbox;
mod keeping;
mod options;
mod pair;
mod reading;
mod receiver;
mod sender;
mod sending;
mod threads;
mod writing;

pub use fault::PairFault;
pub use options::{MAX_CONSUMERS, MAX_COUNT, MAX_CREDIT, MAX_SIZE, Options};
pub use pair::{Totals, connected, run_over, run_pair};
pub use reading::ReadFault;
