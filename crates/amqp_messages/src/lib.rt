//! Reads and writes messages, link sources and link targets (OASIS AMQP 1.0, part 3, sections 3.2 and 3.5).
//!
//! The payloads of a delivery's transfers, joined, are one message. A message is a sequence of sections in a fixed
//! order, and each section is a described value. The numbers of this table are hexadecimal.
//!
//! | section | number | body | how often |
//! |---|---|---|---|
//! | header | 70 | a list | once at most |
//! | delivery-annotations | 71 | a map | once at most |
//! | message-annotations | 72 | a map | once at most |
//! | properties | 73 | a list | once at most |
//! | application-properties | 74 | a map | once at most |
//! | data, or | 75 | a binary | once or more |
//! | amqp-sequence, or | 76 | a list | once or more |
//! | amqp-value | 77 | any value | once |
//! | footer | 78 | a map | once at most |
//!
//! - [`Section`], [`SectionKind`]: a section and its kind
//! - [`read_section`]: reads one section, without copying the payload of a data section
//! - [`Message`], [`read_message`]: a whole message, and the function that reads it
//! - [`Header`], [`Properties`]: the fields of these sections by name, to read and to build the sections
//! - [`Source`], [`Target`]: the fields of a link's termini by name, to read and to build the values of an attach
//! - [`built_fields_fit`]: the law that values built from fields are read as fields
//! - [`write_message`], [`message_size`]: write a message in its canonical encoding, and compute its size
//! - [`message_read_back`]: the law that a written message is read back
#![tactic(auto)]

mod fault;
mod field;
mod header;
mod kind;
mod lent;
mod message;
mod order;
mod properties;
mod section;
mod terminus;
mod write;

pub use fault::{MessageFault, SectionFault};
pub use header::Header;
pub use kind::SectionKind;
pub use lent::built_fields_fit;
pub use message::{Message, read_message};
pub use properties::Properties;
pub use section::{Section, read_section};
pub use terminus::{Source, Target};
pub use write::{message_read_back, message_size, write_message};
