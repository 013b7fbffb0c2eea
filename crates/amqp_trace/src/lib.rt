//! Frames as lines of text for people, as they are known from other programs' traces:
//!
//!     AMQP:FRAME:0 -> @transfer(20) [handle=0x0, delivery-id=0x0, delivery-tag=b"a", message-format=0x0] (9) \\x00Su\\xa0\\x04xxxx
//!
//! | module | what it has |
//! |---|---|
//! | `frame` | the line of a frame, and of a protocol header |
//! | `fields`, `values` | performatives with their fields; values of any type |
//! | `names` | the standard's names of types and fields |
//! | `text` | a line, which has printable characters alone |
//! | `look` | how lines are written: as they are, or in colour |
//! | `tracer` | octets in pieces, and the line of each frame in them |
//! | `teller` | what goes over a connection as lines on standard error |
//!
//! - [`frame_line`], [`header_line`]: the line of what went in a [`Direction`]; [`Protocol`]: what a header says
//! - [`value_line`]: the line of a value
//! - [`Line`]: its text
//! - [`Tracer`]: the lines of octets, however they are cut, with their [`Look`]; [`Teller`]: the same on standard error
//! - [`type_name`], [`field_names`], [`each_field_has_a_name`]: the table of names
#![tactic(auto)]

mod fields;
mod frame;
mod look;
mod names;
mod teller;
mod text;
mod tracer;
mod values;

pub use frame::{Direction, Protocol, each_field_has_a_name, frame_line, header_line};
pub use look::Look;
pub use names::{field_names, type_name};
pub use teller::Teller;
pub use text::Line;
pub use tracer::Tracer;
pub use values::value_line;
