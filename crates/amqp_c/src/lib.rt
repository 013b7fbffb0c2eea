//! A connection for C programs: a static library of functions over a handle.
#![tactic(auto)]
//!
//! | module | what it has |
//! |---|---|
//! | `handle` | [`Handle`](handle::Handle): a connection in the heap, or none, in 16 octets that the C program owns |
//! | `unboxed` | a box taken apart, so that a handle can hide its pointer |
//! | `moving` | connections start, octets come in and go out, connections end |
//! | `lending` | octets that C reads in place |
//! | `operations` | what the application does: sessions, links, deliveries |
//! | `returning` | links come back on another connection, and what links leave is given |
//! | `reading` | what a connection is asked |
//!
//! Each function takes the connection out of the handle, calls [`amqp_caller`], and puts it back: one pointer moves. In C, `alloc` is no argument, and
//! a slice is a pointer and a length. A handle without a connection is answered with 1, or with 0 by what returns a count, and nothing changes.
//!
//! The header declares each function `teivorm_raw_NAME` and wraps it as `teivorm_NAME`, which tests its pointers. What a C program has to keep to is said there. Nothing here waits, ends the process, or keeps a state of its own outside a handle.

mod handle;
mod lending;
mod moving;
mod operations;
mod reading;
mod returning;
#[cfg(test)]
mod tests;
mod unboxed;
