//! Each growth refused in turn, of the calls of a session, of its journal and of a connection, as those of the crates below stand in `amqp_codec_tests`.
//! From outside, `rt try --test --fail-alloc N -- every_growth_refused` refuses the Nth of each test; where none is refused, they are tests like any other.
//!
//! | module | what goes |
//! |---|---|
//! | `session`, `aside` | a session with its journal; links that are put aside and rejoined |
//! | `conn` | a connection, and a pump over one |
//! | `reading` | what takes no memory |
//! | `steps`, `said`, `octets` | how a session or a connection goes through a table of steps, and what tables are written with |

mod aside;
mod conn;
mod octets;
mod reading;
mod said;
mod session;
mod steps;
