//! How lines are written: as they are, or in colour.
use crate::frame::Direction;

/// How a line is written.
#[derive(Clone, Copy, Debug)]
pub enum Look {
    /// Its text alone.
    Plain,
    /// In the colours of a terminal (ANSI's sequences, ECMA-48, 8.3.117): green where it was sent, cyan where it was heard, and an error in it red.
    Colored,
}

/// What begins an error.
pub(crate) const RED: &str = "\x1b[31m";

/// What ends all colours.
pub(crate) const NO_COLOR: &str = "\x1b[0m";

/// What begins what went this way.
pub(crate) fn color_of(direction: Direction) -> &'static str {
    match direction {
        Direction::Sent => "\x1b[32m",
        Direction::Heard => "\x1b[36m",
    }
}
