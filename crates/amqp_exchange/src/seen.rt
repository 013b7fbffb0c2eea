//! What the devices of a connection have seen of errors, and whether their reads wait.
use crate::readiness::is_readable;
use std::cell::Cell;
use std::io;
use std::io::ErrorKind;
use std::os::fd::RawFd;

/// What both devices of one connection share with whoever drives it.
#[derive(Drop)]
pub(crate) struct Seen {
    /// The system's number of the last error of a read or a write; 0 if none failed.
    error: Cell<i32>,
    /// The descriptor of the socket, once there is one.
    socket: Cell<Option<RawFd>>,
    /// Reads do not wait.
    is_polling: Cell<bool>,
    /// Something was read since the last poll began.
    has_read: Cell<bool>,
}

impl Seen {
    /// Returns the state in which no device has failed, and reads wait.
    pub(crate) fn new() -> Seen {
        Seen {
            error: Cell::new(0),
            socket: Cell::new(None),
            is_polling: Cell::new(false),
            has_read: Cell::new(false),
        }
    }

    /// Notes the error of a read or a write. One that only says that nothing came is passed over.
    pub(crate) fn note(&self, error: &io::Error) {
        match error.kind() {
            ErrorKind::WouldBlock | ErrorKind::TimedOut | ErrorKind::Interrupted => {}
            _ => self.error.set(error.raw_os_error().unwrap_or(0)),
        }
    }

    /// Returns the last error that was noted.
    pub(crate) fn error(&self) -> Option<io::Error> {
        match self.error.get() {
            0 => None,
            code => Some(io::Error::from_raw_os_error(code)),
        }
    }

    /// Notes the socket that both devices are on.
    pub(crate) fn set_socket(&self, socket: RawFd) {
        self.socket.set(Some(socket));
    }

    /// Returns the socket that both devices are on.
    pub(crate) fn socket(&self) -> Option<RawFd> {
        self.socket.get()
    }

    /// Makes reads end in vain if nothing is there. Nothing was read since.
    pub(crate) fn begin_poll(&self) {
        self.is_polling.set(true);
        self.has_read.set(false);
    }

    /// Makes reads wait for the peer again.
    pub(crate) fn end_poll(&self) {
        self.is_polling.set(false);
    }

    /// Returns whether a read is to end in vain, since it would wait.
    pub(crate) fn is_in_vain(&self) -> bool {
        match self.socket.get() {
            Some(socket) => self.is_polling.get() && !is_readable(socket, 0),
            None => false,
        }
    }

    /// Notes that something was read.
    pub(crate) fn note_read(&self) {
        self.has_read.set(true);
    }

    /// Returns whether something was read since the last poll began.
    pub(crate) fn has_read(&self) -> bool {
        self.has_read.get()
    }
}
