//! Lines as they come, from an input that may have nothing ready.
use crate::exchange::ExchangeFault;
use crate::readiness::{await_input, is_input_ready};
use amqp_client::TICK;
use std::alloc::Global;
use std::io::{BufRead, ErrorKind};
use std::mem;
use std::os::fd::RawFd;

/// What comes next of an input.
#[derive(Drop)]
pub(crate) enum Next<T> {
    Item(T),
    /// Nothing is ready: the input has not ended.
    NotYet,
    /// The input has ended.
    Over,
}

/// An input, read line by line. A line that has not ended is kept.
#[derive(Drop)]
pub(crate) struct Lines<'b, I> {
    alloc: Global,
    input: &'b mut I,
    line: Vec<u8>,
    /// So many octets at least are in the input's buffer: a read of them does not wait.
    held: usize,
    /// The input is standard input, and is polled before it is read.
    is_polled: bool,
}

/// What one look into the input's buffer found.
#[derive(Clone, Copy)]
struct Look {
    /// So many octets more are in it.
    held: usize,
    /// The line is whole.
    is_whole: bool,
    /// The input has ended.
    is_over: bool,
}

impl<'b, I: BufRead> Lines<'b, I> {
    pub(crate) fn new(alloc: Global, input: &'b mut I, is_polled: bool) -> Lines<'b, I> {
        Lines {
            alloc,
            input,
            line: Vec::new(alloc),
            held: 0,
            is_polled,
        }
    }

    /// Returns the next line without its end. The last one may have none.
    ///
    /// # Errors
    ///
    /// `In` if the input cannot be read, and `NoMemory`.
    pub(crate) fn next(&mut self) -> Result<Next<Vec<u8>>, ExchangeFault> {
        for _ in 0..u64::MAX {
            if !self.is_ready() {
                return Ok(Next::NotYet);
            }
            let look = self.look()?;
            self.held = look.held;
            if look.is_over && self.line.is_empty() {
                return Ok(Next::Over);
            }
            if look.is_whole || look.is_over {
                return Ok(Next::Item(mem::replace(&mut self.line, Vec::new(self.alloc))));
            }
        }
        Ok(Next::Over)
    }

    /// Waits until the input can be read, or the socket if there is one, for a [`TICK`] at most.
    pub(crate) fn await_ready(&self, socket: Option<RawFd>) {
        if self.is_polled && self.held == 0 {
            await_input(socket, TICK.cast_signed());
        }
    }

    fn is_ready(&self) -> bool {
        !self.is_polled || self.held > 0 || is_input_ready()
    }

    fn look(&mut self) -> Result<Look, ExchangeFault> {
        read_piece(self.input, &mut self.line)
    }
}

/// Moves octets from the input's buffer to the line, up to its end, which is left out.
fn read_piece<I: BufRead>(input: &mut I, line: &mut Vec<u8>) -> Result<Look, ExchangeFault> {
    let octets = match input.fill_buf() {
        Ok(octets) => octets,
        Err(error) => {
            return if error.kind() == ErrorKind::Interrupted {
                Ok(Look {
                    held: 0,
                    is_whole: false,
                    is_over: false,
                })
            } else {
                Err(ExchangeFault::In(error))
            };
        }
    };
    let len = octets.len();
    let piece = first_line(octets);
    let is_whole = piece.len() < len;
    let taken = piece.len().saturating_add(usize::from(is_whole));
    line.extend_from_slice(piece)?;
    input.consume(taken);
    Ok(Look {
        held: len.saturating_sub(taken),
        is_whole,
        is_over: len == 0,
    })
}

/// The octets before the first end of a line, or all if there is none.
fn first_line(octets: &[u8]) -> &[u8] {
    match octets.split(|octet| *octet == b'\n').next() {
        Some(piece) => piece,
        None => &[],
    }
}
