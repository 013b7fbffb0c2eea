//! A line of text.
ghost use Rattle.std.specs.Prelude.{◌≡◌, ◌++◌, ◌<◌, [], ◌∷◌, true, false, codes, decimal, OnOk, OnErr, IfOk};
ghost use Rattle.std.specs.Fmt.{digits, signed_decimal};
ghost use Rattle.amqp_trace.specs.Printed.{are_printable, hex_digit, hex, hex_octets, shown, escaped, Continues};

use crate::frame::Direction;
use crate::look::{NO_COLOR, RED, color_of};
use itoa::Buffer;
use std::alloc::{AllocError, Global};
use std::fmt;
use std::marker::Model;

/// A line of text: printable characters of ASCII alone, so it has no newline. Contracts see it as these.
#[derive(Drop)]
pub struct Line {
    text: String,
    /// Where an error stands in it.
    error: Option<Span>,
    /// It is written in the colour of what went this way; none: in no colour.
    color: Option<Direction>,
}

/// From a character of a line to another one, which is not of it.
#[derive(Clone, Copy)]
struct Span {
    from: usize,
    to: usize,
}

impl Model for Line {
    ghost use Rattle.std.specs.Prelude.{List, ℕ, ◌≡◌, true, string_bytes};
    ghost use Rattle.amqp_trace.specs.Printed.{are_printable};

    ghost Value = { List ℕ };

    ghost view = { λ l. string_bytes l.text };

    ghost invariant = { λ l. are_printable (string_bytes l.text) ≡ true };
}

impl Line {
    /// A line of no characters. It allocates nothing.
    pub fn new(alloc: Global) -> Line
        ensures { result ≡ [] }
    {
        Line {
            text: String::new(alloc),
            error: None,
            color: None,
        }
    }

    /// The text.
    pub fn as_str(&self) -> &str
        ensures value { result.now ≡ self.now }
        ensures printable { are_printable result.now ≡ true }
    {
        self.text.as_str()
    }

    /// It is written in the colour of what went this way, and an error in it in another.
    pub(crate) fn color(&mut self, direction: Direction)
        ensures { self.new ≡ self.old }
    {
        self.color = Some(direction);
    }

    /// How many characters it has.
    pub(crate) fn len(&self) -> usize {
        self.text.len()
    }

    /// From this character on it is an error that stands there.
    pub(crate) fn mark_error(&mut self, from: usize)
        ensures { self.new ≡ self.old }
    {
        self.error = Some(Span {
            from,
            to: self.text.len(),
        });
    }

    /// What stands in front of the error in it, the error, and what stands behind it.
    fn parts(&self) -> Option<(&str, &str, &str)> {
        let span = self.error?;
        let (before, rest) = self.as_str().split_at_checked(span.to)?;
        let (front, error) = before.split_at_checked(span.from)?;
        Some((front, error, rest))
    }

    fn write_colored<W: fmt::Write>(&self, f: &mut fmt::Formatter<W>, color: &str) -> fmt::Result {
        f.write_str(color)?;
        match self.parts() {
            Some((front, error, rest)) => {
                f.write_str(front)?;
                f.write_str(RED)?;
                f.write_str(error)?;
                f.write_str(color)?;
                f.write_str(rest)?;
            }
            None => f.write_str(self.as_str())?,
        }
        f.write_str(NO_COLOR)
    }

    /// Puts printable text behind the others.
    pub(crate) fn put(&mut self, text: &str) -> Result<(), AllocError>
        requires { are_printable text.now ≡ true }
        ensures text { OnOk result (self.new ≡ self.old ++ text.now) }
        ensures goes { OnOk result (Continues self.old self.new) }
    {
        self.text.push_str(text)
    }

    /// Puts the number behind the others.
    #[tactic(auto, using(crate::proofs::Printed::decimal_printable))]
    pub(crate) fn put_decimal(&mut self, n: u64) -> Result<(), AllocError>
        ensures text { OnOk result (self.new ≡ self.old ++ decimal n) }
        ensures goes { OnOk result (Continues self.old self.new) }
    {
        let mut buffer = Buffer::new();
        self.put(buffer.format(n))
    }

    /// Puts the number, which may be negative, behind the others.
    #[tactic(auto, using(crate::proofs::Printed::signed_printable))]
    pub(crate) fn put_signed(&mut self, n: i64) -> Result<(), AllocError>
        ensures text { OnOk result (self.new ≡ self.old ++ signed_decimal n) }
        ensures goes { OnOk result (Continues self.old self.new) }
    {
        let mut buffer = Buffer::new();
        self.put(buffer.format(n))
    }

    /// Puts the number in hexadecimal behind the others.
    #[tactic(auto, using(crate::proofs::Going::put_two))]
    pub(crate) fn put_hex(&mut self, n: u64) -> Result<(), AllocError>
        ensures text { OnOk result (self.new ≡ self.old ++ hex n) }
        ensures goes { OnOk result (Continues self.old self.new) }
    {
        self.put("0x")?;
        self.put_digits(n)
    }

    /// Puts the hexadecimal digits of the number behind the others.
    #[cycle(digits)]
    fn put_digits(&mut self, n: u64) -> Result<(), AllocError>
        ensures text { OnOk result (self.new ≡ self.old ++ digits 16 false n) }
    {
        if n < 16 {
            return self.put_digit(n as u8);
        }
        self.put_digits(n / 16)?;
        self.put_digit((n % 16) as u8)
    }

    /// Puts a hexadecimal digit behind the others.
    #[tactic(auto, using(crate::proofs::Printed::digit_printable))]
    pub(crate) fn put_digit(&mut self, n: u8) -> Result<(), AllocError>
        requires { n < 16 }
        ensures text { OnOk result (self.new ≡ self.old ++ hex_digit n ∷ []) }
        ensures goes { OnOk result (Continues self.old self.new) }
    {
        let digit = if n < 10 { b'0' + n } else { b'a' - 10 + n };
        self.text.push(char::from(digit))
    }

    /// Puts an octet of a text behind the others.
    fn put_octet(&mut self, octet: u8) -> Result<(), AllocError>
        ensures text { OnOk result (self.new ≡ self.old ++ shown octet) }
        ensures goes { OnOk result (Continues self.old self.new) }
    {
        match octet {
            b'"' | b'\\' => {
                self.put("\\")?;
                self.text.push(char::from(octet))
            }
            0x20..=0x7e => self.text.push(char::from(octet)),
            _ => {
                self.put("\\x")?;
                self.put_digit(octet / 16)?;
                self.put_digit(octet % 16)
            }
        }
    }

    /// Puts two hexadecimal digits for each octet behind the others.
    pub(crate) fn put_hex_octets(&mut self, octets: &[u8]) -> Result<(), AllocError>
        ensures text { OnOk result (self.new ≡ self.old ++ hex_octets octets.now) }
        ensures goes { OnOk result (Continues self.old self.new) }
    {
        for octet in octets {
            self.put_digit(*octet / 16)?;
            self.put_digit(*octet % 16)?;
        }
        Ok(())
    }

    /// Puts octets behind the others, escaped where they are not printable.
    pub(crate) fn escape(&mut self, octets: &[u8]) -> Result<(), AllocError>
        ensures text { OnOk result (self.new ≡ self.old ++ escaped octets.now) }
        ensures goes { OnOk result (Continues self.old self.new) }
    {
        for octet in octets {
            self.put_octet(*octet)?;
        }
        Ok(())
    }
}

/// The text of the line; in colour where its `Tracer` has that look.
impl fmt::Display for Line {
    fn fmt<W: fmt::Write>(&self, f: &mut fmt::Formatter<W>) -> fmt::Result {
        match self.color {
            Some(direction) => self.write_colored(f, color_of(direction)),
            None => f.write_str(self.as_str()),
        }
    }
}
