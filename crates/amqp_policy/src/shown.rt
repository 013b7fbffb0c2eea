//! How a text of the peer's is written in a line.
use std::fmt;
use std::fmt::{Display, Formatter};

/// A text of the peer's, as it is written in a line: what could end the line or steer a terminal is escaped, as is the backslash.
#[derive(Clone, Copy)]
pub struct Shown<'a>(pub &'a str);

impl Display for Shown<'_> {
    fn fmt<W: fmt::Write>(&self, f: &mut Formatter<W>) -> fmt::Result {
        for it in self.0.chars() {
            if it.is_control() || it == '\\' {
                write!(f, "\\x{:02x}", u32::from(it))?;
            } else {
                f.write_char(it)?;
            }
        }
        Ok(())
    }
}
