//! `amqp_script`: lines of text that drive one end of a connection, and the text of its answers; and the commands of programs that do so.
//!
//! | module | what it holds |
//! |---|---|
//! | `lines` | the lines of an input, one after the other |
//! | `line`, `words` | what a line says |
//! | `answer` | the text of an answer |
//! | `script` | the command `script`: an endpoint with its journal that lines drive |
//! | `frames` | the command `frames`: octets in hexadecimal, framed and named |
//! | `trace` | the command `trace`: octets, a line for each frame |
//! | `explain` | the command `explain`: numbers in words |
//! | `driven` | the command `conn`: a whole connection that lines drive |
//! | `feeding` | one feed of a loop of feeds |
#![tactic(auto)]

pub mod answer;
pub mod driven;
pub mod explain;
pub mod feeding;
pub mod frames;
pub mod line;
pub mod lines;
pub mod script;
pub mod trace;
pub mod words;

pub use answer::Answer;
pub use line::{Line, LineFault, Question};
pub use lines::{LineTaker, Outcome, RunFault, take_lines};
pub use words::Words;
