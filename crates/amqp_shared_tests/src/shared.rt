//! What no clause says of a shared connection: what the lock lends, what the ring gives, and that a call which waits goes on.
//!
//! A case is a table: what each thread does, in turn, with what is due of that. So a shared connection has one owner, `course`, which lends it to threads that
//! answer yes or no.
//!
//! | module | of |
//! |---|---|
//! | `looks` | what is looked for in a connection that is lent |
//! | `playing` | a thread and what it does |
//! | `holding` | what it does under the lock |
//! | `waiting` | what it waits for |
//! | `consuming` | consumers that it runs |
//! | `course` | a connection from its seed to its end |
//! | `ending` | how it is taken apart |
//! | `ring`, `callers`, `writers`, `ends`, `wakes`, `left`, `consumers` | the cases |

mod callers;
mod consumers;
mod consuming;
mod course;
mod ending;
mod ends;
mod holding;
mod left;
mod looks;
mod playing;
mod ring;
mod waiting;
mod wakes;
mod writers;
