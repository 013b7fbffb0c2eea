//! The numbers by which calls report how they ended.

/// The call succeeded.
pub const DONE: u32 = 0;
/// There is no connection to act on.
pub const NO_CONNECTION: u32 = 1;
/// An argument is malformed: text that is not UTF-8, a tag of more than 32 octets, or a number that names nothing.
pub const BAD_ARGUMENT: u32 = 2;
/// Memory ran out before the connection was asked. Nothing has changed.
pub const NO_MEMORY: u32 = 3;
/// Added to the number of a refusal of the session.
pub const REFUSED: u32 = 256;
/// Added to the number of a fault in the octets that were fed.
pub const FAULT: u32 = 512;
/// Added to the number of the reason why a connection does not start.
pub const NOT_STARTED: u32 = 768;
/// Added to the number of the reason why a close is not sent.
pub const NOT_CLOSED: u32 = 1024;
