//! Waits for standard input and a socket at once.
use libc::net::{POLLIN, poll};
use libc::types::pollfd;
use std::os::fd::RawFd;

/// The descriptor of standard input.
const STANDARD_INPUT: RawFd = 0;

/// A descriptor that a poll passes over.
const NO_DESCRIPTOR: RawFd = -1;

/// Returns whether a read of standard input does not wait: bytes are there, or it has ended.
pub(crate) fn is_input_ready() -> bool {
    is_readable(STANDARD_INPUT, 0)
}

/// Returns whether a read of the descriptor does not wait, after at most so many milliseconds.
pub(crate) fn is_readable(descriptor: RawFd, milliseconds: i32) -> bool {
    let mut polled = [reading(descriptor)];
    poll(&mut polled, milliseconds) > 0
}

/// Waits for at most so many milliseconds until standard input can be read, or the socket if there is one.
pub(crate) fn await_input(socket: Option<RawFd>, milliseconds: i32) {
    let mut polled = [
        reading(STANDARD_INPUT),
        reading(socket.unwrap_or(NO_DESCRIPTOR)),
    ];
    let _ = poll(&mut polled, milliseconds);
}

fn reading(descriptor: RawFd) -> pollfd {
    pollfd {
        fd: descriptor,
        events: POLLIN,
        revents: 0,
    }
}
