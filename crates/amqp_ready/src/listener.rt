//! Peers that connect.
use amqp_conn::Conn;
use mio::Token;
use mio::net::{TcpListener, TcpStream};
use std::io;
use std::io::ErrorKind;
use std::net::SocketAddr;

/// The token of the listener, which is no key of a slot.
pub(crate) const LISTENER: Token = Token(usize::MAX);

/// Makes a connection and its handler for each peer that connects.
pub trait Welcome<H> {
    /// Returns the connection and the handler for a peer at the address `from`; `None` turns the peer away.
    fn welcome(&mut self, from: SocketAddr) -> Option<(Conn, H)>;
}

/// How many peers one call of `Driver::admit` let in and turned away.
#[derive(Clone, Copy, Debug, PartialEq, Eq)]
pub struct Admitted {
    pub added: usize,
    /// How many streams were closed: their peer was not welcome, or memory was refused.
    pub turned_away: usize,
}

/// A listener, and whether peers may wait at it.
#[derive(Drop)]
pub(crate) struct Listening {
    listener: TcpListener,
    is_ready: bool,
    /// The next peer could not be let in, for lack of files or memory.
    is_stuck: bool,
}

impl Listening {
    /// Peers may have connected before the listener was registered, so it starts as ready.
    pub(crate) fn new(listener: TcpListener) -> Listening {
        Listening {
            listener,
            is_ready: true,
            is_stuck: false,
        }
    }

    pub(crate) fn wake(&mut self) {
        self.is_ready = true;
    }

    /// Returns whether peers may wait, and the last attempt to let one in did not fail.
    pub(crate) fn is_open(&self) -> bool {
        self.is_ready && !self.is_stuck
    }

    /// Returns whether peers may wait, and the last attempt to let one in failed.
    pub(crate) fn is_stuck(&self) -> bool {
        self.is_ready && self.is_stuck
    }

    pub(crate) fn next(&mut self) -> io::Result<Option<(TcpStream, SocketAddr)>> {
        if !self.is_ready {
            return Ok(None);
        }
        match self.listener.accept() {
            Ok(peer) => {
                self.is_stuck = false;
                Ok(Some(peer))
            }
            Err(error) => self.stay(error),
        }
    }

    /// An interrupted call, or a peer that is gone already, makes no error: the next call asks again.
    fn stay(&mut self, error: io::Error) -> io::Result<Option<(TcpStream, SocketAddr)>> {
        match error.kind() {
            ErrorKind::WouldBlock => {
                self.is_ready = false;
                Ok(None)
            }
            ErrorKind::Interrupted | ErrorKind::ConnectionAborted => Ok(None),
            _ => {
                self.is_stuck = true;
                Err(error)
            }
        }
    }
}
