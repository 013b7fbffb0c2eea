//! One AMQP 1.0 connection shared by threads.
#![tactic(auto)]
//!
//! | module | contents |
//! |---|---|
//! | `shared` | `Shared`: the lock, and the calls on the session under it |
//! | `many` | several operations under one lock |
//! | `left` | a waiting call that also returns what its link left |
//! | `guard` | `Guard`: the session while the lock is held, and the wake-ups on its release |
//! | `locked` | `Locked`: the connection, the book of its passes, and the producer of the ring, under the lock |
//! | `pass`, `history` | `Pass`: a share of the right to make steps, with its number of steps |
//! | `writer` | `WriterEnd`: the consumer of the ring, from which units are written without the lock |
//! | `consumers`, `batches`, `renewal` | threads that take deliveries, settle them and grant credit |
//! | `seed`, `name` | a connection before it is shared, and the type that distinguishes shared connections |
//! | `retention` | `Retention`: which entries of its journal a shared connection keeps |
//! | `close`, `closing`, `refused` | taking a shared connection apart |
//! | `growing` | what each call adds to a connection |
//! | `waiting` | what threads wait for, and which steps may bring it |
//! | `condition` | a condition at which threads wait, whose notifications are counted under the lock |
//! | `sleepers` | the threads that sleep until a delivery comes, and which of them is woken |
//!
//! # How threads share a connection
//!
//! ```text
//!  callers, consumers ──► lock ──► Locked: Conn ──► units ──► backlog ──► ring ──► WriterEnd ──► socket
//!  reader ──────────────► lock ──►                                                 (no lock, no memory)
//! ```
//!
//! 1. `Seed::new` creates the connection, and `open_shared` shares it. It returns a `Shared`, which threads use by
//!    reference, the first `Pass`, and the `WriterEnd`.
//! 2. **Callers** take the lock and do operations on the guard: `call`, or `call_wait`, which waits if credit, a
//!    window, a delivery or an outcome is missing. Each thread has a pass of its own (`Pass::split`).
//! 3. **The reader** reads from the socket without the lock, then takes the lock and feeds the octets to the guard
//!    (`feed`). When the octets end, it calls `lost`.
//! 4. **The writer** takes units from the ring and writes them without the lock, so a slow write blocks no other
//!    thread. When `take` returns `None`, the writer calls `wait_units` with the number of units that it has taken;
//!    this takes the lock and moves more units to the ring. The writer ends when the phase is `Closed` and all units
//!    are taken. Alternatively, the threads that put units out write them after they have released the guard. The
//!    writer's end then has a lock of its own, as in `amqp_pair`; `Work::told` is called when a consumer should write.
//! 5. Threads that wait for what a step has brought are woken when the guard is dropped, or is passed to a call that
//!    waits: once for all steps that were made with it. Up to sixteen threads that wait for a delivery have a seat. Of
//!    those with a seat on one link, one is woken at a time; if it leaves something ready, the next one is woken when
//!    it releases the lock. A waiting thread spins for some microseconds before it sleeps.
//! 6. `close`, with all passes and the writer's end, returns the connection and the units that nobody took.
//!
//! # What is proved
//!
//! The lock guards a `Conn`, with all that its type keeps: its journal is lawful, and the endpoint is what the journal
//! makes it. Each call on a guard does what the same call of `Conn` does, and units may move on to the ring. The passes
//! have made exactly the journal's steps. Each unit is pushed once, in order, and numbered: what the writer took, then
//! what the ring holds, then the backlog, are the units. If the seed keeps all entries (`Retention::All`), none was
//! forgotten each time that the lock is taken, and when the connection is closed: so the session is what its stored
//! journal makes it.
//!
//! # What is not proved
//!
//! - **Order.** Nothing is stated about the order in which threads get the lock, nor that each of them gets it.
//! - **Progress.** Nothing is stated about whether a thread is woken, or whether a call that waits returns. If such a
//!   call returns, its clauses hold.
//! - **The socket.** The program is responsible for writing the octets of each unit whole, and for feeding what the
//!   peer wrote.
//! - **The session across calls that take the lock themselves**, beyond what their clauses state of the guard that they
//!   return. `lock` returns a session whose journal is as long as the passes' steps; that it goes on from the session
//!   before is shown by tests.

mod batches;
mod close;
mod closing;
mod condition;
mod consumers;
mod growing;
mod guard;
mod history;
mod left;
mod locked;
mod many;
mod name;
mod pass;
mod refused;
mod renewal;
mod retention;
mod seed;
mod shared;
mod sleepers;
mod waiting;
mod writer;

pub use amqp_conn::{
    CloseRefusal, Config, Conn, ConnFault, Fed, Left, Phase, StartFault, error_of,
};
pub use amqp_frames::{AmqpError, CloseBody, DeliveryState, Frame, Octets, OpenBody, Role};
pub use amqp_journal::receipt::Receipt;
pub use amqp_journal::unit::Unit;
pub use amqp_links::end::End as LinkEnd;
pub use amqp_links::link::Link;
pub use amqp_rules::op::{Op, Rejoin};
pub use amqp_rules::refusal::Refusal;
pub use amqp_rules::reply::{Given, Learned, Resumed, Suspended, Taken};
pub use amqp_rules::sliced::Sliced;
pub use amqp_rules::violation::{Violation, ViolationKind};
pub use amqp_types::{Boxed, Tag, Text};
pub use amqp_waiting::{Brought, SuspendedItem, Verdict};
pub use bytes::Bytes;
pub use close::{Closed, NotClosed};
pub use consumers::{
    Consumed, Terms, Work, run_consumers, run_consumers_in_batches, run_consumers_with,
};
pub use guard::Guard;
pub use left::Waited;
pub use locked::Locked;
pub use many::Called;
pub use name::{Name, Numbered};
pub use pass::Pass;
pub use refused::CloseReason;
pub use renewal::Renewal;
pub use retention::Retention;
pub use seed::Seed;
pub use shared::{Shared, open_shared};
pub use writer::WriterEnd;
