//! One end of an AMQP 1.0 connection (OASIS AMQP 1.0 part 2, 2.2 and 2.4), without input and output: a program feeds
//! the octets that it reads, and writes the units of octets that the connection queues.
#![tactic(auto)]
//!
//! | module | contents |
//! |---|---|
//! | `conn` | [`Conn`], the connection that a program drives |
//! | `config`, `phase`, `fault`, `fed`, `refused` | its settings, its phase, and the results of its calls |
//! | `treating` | the state that frames and the application drive, and what a whole frame does to it |
//! | `saying` | the readers of what the peer sent |
//! | `header`, `feeding`, `writing` | the peer's header, the framer's answers, and the connection's own frames |
//! | `device`, `pump`, `pumping` | sources and sinks, and [`Pump`], which runs a connection over them |
//! | `ops` | the common operations |
//! | `laws` | laws that hold however the octets are cut |
//!
//! This crate re-exports what a program needs of the crates below (`Op`, `Given`, `Refusal`, `Text` and so on).
//!
//! # Phases
//!
//! ```text
//!              header heard          open heard             our close                peer's close
//! AwaitHeader ─────────────► AwaitOpen ──────────► Running ───────────► Closing ───────────────► Closed
//!      │                         │                    │ peer's close, or a fault: one close goes out  ▲
//!      └─────────────────────────┴────────────────────┴───────────── octets ended (lost) ─────────────┘
//! ```
//!
//! | phase | what was queued | what is received | operations |
//! |---|---|---|---|
//! | `AwaitHeader` | our header | eight octets, the peer's header | refused |
//! | `AwaitOpen` | and our open | an open, as the first frame with a body | refused |
//! | `Running` | and the session's frames | the session's frames, and a close | done as the session allows |
//! | `Closing` | and our close | a close; every other frame is dropped | refused |
//! | `Closed` | and our close, if one could still be sent | nothing: each feed returns `ConnFault::Closed` | refused |
//!
//! # How a program drives a connection
//!
//! A [`Conn`] does no input or output, starts no thread and never waits: each call returns at once. The program moves
//! the octets:
//!
//! 1. **Write**: pop units with `pop_unit()` until it returns `None`, and write the octets of each, whole and in this
//!    order. Our header waits from the start, so write before the first read. A popped unit belongs to the program:
//!    if it was written in part, the program keeps the rest and writes it before the next unit. Popping does not
//!    allocate.
//! 2. **Read**: read as many octets as have come into a buffer of the program. A read of 0 octets is the end of the
//!    input: call `lost()`.
//! 3. **Feed**: `feed(&Octets::lent(piece))` takes octets, at most to the end of one frame. Feed the octets after the
//!    `used` ones again, until none are left or the phase is `Closed`. Where the octets were cut makes no difference.
//!    Octets that lie in a `Bytes` can be fed as `Octets::shared(&bytes, from)`: a payload that lies whole in them is
//!    not copied.
//! 4. **Act**: each feed that added an entry to the journal returns what the entry gave (`Fed::given`): a link that
//!    the peer offered, a delivery that is ready, an outcome. While the phase is `Running`, `apply(&op)` does an
//!    operation, such as take, dispose, grant or start, and queues what it sends.
//! 5. Repeat from 1 until the phase is `Closed` and no unit waits; then shut the socket.
//!
//! ```text
//! loop {
//!     while let Some(unit) = conn.pop_unit() {
//!         let (head, rest) = unit.bytes.slices();
//!         socket.write_all(head)?;
//!         socket.write_all(rest)?;
//!     }
//!     if conn.phase() == Phase::Closed { break; }
//!     let count = socket.read(&mut buffer)?;
//!     if count == 0 { conn.lost(); break; }
//!     let mut rest = &buffer[..count];
//!     while !rest.is_empty() && conn.phase() != Phase::Closed {
//!         match conn.feed(&Octets::lent(rest)) {
//!             Ok(fed) => { rest = &rest[fed.used..]; act(&mut conn, fed.given); }
//!             Err(ConnFault::NoMemory) => return,           // nothing has changed: feed `rest` again, then read
//!             Err(fault) => { why = Some(fault); break; }   // the phase is Closed now
//!         }
//!     }
//! }
//! ```
//!
//! [`Pump`] is this loop over a [`Source`] and a [`Sink`] for a number of turns, without the act: for programs that
//! have nothing else to do meanwhile, and for tests. It keeps what was read and not fed, and goes on with it.
//! [`FromStd`] makes a device of any `Read` or `Write`.
//!
//! # How it ends
//!
//! The phase `Closed` is the only end state. What it means depends on what led to it:
//!
//! | what led to `Closed` | what is sent | what it means |
//! |---|---|---|
//! | `close(..)`, then the peer's close | our close, with its error if any | closed by us; see `ended_by` |
//! | the peer's close, while `Running` | our close, without an error | closed by the peer; see `ended_by` |
//! | a feed returned `ConnFault::BadHeader` | nothing more | the peer uses another protocol or version |
//! | another fault of a feed | a close with its condition, unless we sent one | ended by us for what we received |
//! | `lost()` | nothing more | the octets ended; what the peer has taken is unknown |
//!
//! The other faults are `Framing`, `OutOfPlace`, `BadChannel` and `JournalFull`. Units that wait at the end are still
//! to be written; the last close is the last of them. An input that ends in another phase than `Closed` was cut off.
//!
//! The journal, the unsettled deliveries and the units stay readable (`logged`); they show what was settled and what
//! was not. `pop_left` returns each delivery that was ready and not taken, and each outcome that was received and not
//! learnt, once and in every phase; it also returns those of a link that a detach or an end removed earlier.
//!
//! The connection keeps what the peer said: `peer` returns its open, `parting` its close, and `ended_by` the error of
//! that close. A detach or an end ends less than the connection: `heard` returns the newest step's frame, `error_of`
//! reads the error in it, and `ended` returns the deliveries that it ended.
//!
//! # After a connection that was lost
//!
//! `links_aside(role)` returns each link of a role as it would have been put aside, with its deliveries in doubt
//! (part 2, 2.6.13), unless the session has ended, which removes all links. On a new connection and session
//! `ops::rejoin` attaches each again: its deliveries in doubt wait on the link, and both attaches list them.
//! `Endpoint::waiting_at` then returns what becomes of each delivery, and `ops::resume` goes on with it, or reports
//! that the peer has nothing of it (`Given::Resumed`), so that it must be sent again.
//!
//! # Errors
//!
//! - **A violation** of the session or of a link is answered as the standard requires, by an end or a detach with its
//!   condition (part 2, 2.5 and 2.6). That feed uses no octets and returns the violation (`Fed::violation`); the next
//!   one reads the frame again, which is then dropped. The loop above needs no case for it.
//! - **A fault** (`ConnFault`, the first five) ends the connection, as the table says.
//! - **A refusal** of an operation (`Refusal`) or of a close (`CloseRefusal`) has changed nothing.
//! - **Out of memory** (`NoMemory`, of any call) has changed nothing: the call can be made again once there is
//!   memory, a feed with the same octets.
//! - **A device's error** is the program's: call `lost()`, and write no more.
//!
//! # Idle time-out
//!
//! A peer may state in its open after how long without a frame it closes (part 2, 2.4.5); `peer` returns that open.
//! This crate has no clock, so the program keeps the time: whoever writes the units applies `Op::Beat`, which sends
//! an empty frame of eight octets, whenever half of the peer's time-out has passed since the last unit was written.
//! It may do so at any time while `Running`. Our own time-out, which our open states, is `Config::idle_time_out`, in
//! milliseconds. A program that has read nothing for twice as long may assume that the peer is gone: `close` the
//! connection with an error, or call `lost`.
//!
//! # Threads
//!
//! A `Conn` belongs to one thread at a time: each call but the readers takes `&mut self`, and no call blocks. Units
//! must be written in the order in which they were popped, so one thread pops and writes, or the program keeps the
//! order. Feeds must be in the order of the octets, so one thread reads and feeds. `amqp_shared` lets several threads
//! share a connection.

mod config;
mod conn;
mod device;
mod fault;
mod fed;
mod feeding;
mod header;
pub mod laws;
pub mod ops;
mod phase;
mod pump;
mod pumping;
mod refused;
mod saying;
mod treating;
mod writing;

pub use amqp_frames::{
    AmqpError, CloseBody, DeliveryState, Frame, FrameFault, Octets, OpenBody, Performative, Role,
};
pub use amqp_journal::left::Left;
pub use amqp_journal::logged::Logged;
pub use amqp_journal::unit::Unit;
pub use amqp_links::end::End as LinkEnd;
pub use amqp_links::link::Link;
pub use amqp_rules::op::{Op, Rejoin};
pub use amqp_rules::refusal::Refusal;
pub use amqp_rules::reply::{Given, Learned, Resumed, Suspended, Taken};
pub use amqp_rules::sliced::Sliced;
pub use amqp_rules::violation::{Violation, ViolationKind};
pub use amqp_types::{Boxed, Tag, Text, Value};
pub use amqp_waiting::{Brought, SuspendedItem, Verdict};
pub use bytes::Bytes;
pub use config::{Config, MIN_MAX_FRAME};
pub use conn::Conn;
pub use device::{Failed, FromStd, Sink, Source};
pub use fault::ConnFault;
pub use fed::Fed;
pub use phase::Phase;
pub use pump::Pump;
pub use pumping::{Hears, PumpEnd, PumpFault};
pub use refused::{CloseRefusal, StartFault};
pub use saying::error_of;
