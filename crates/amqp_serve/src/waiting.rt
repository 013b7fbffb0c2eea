//! Peers whose first octets are awaited, before our header is written to them.
use crate::driving::{HEADER_WAIT, is_met};
use crate::greeting::{Greeting, greeting_of};
use crate::shared::Newcomer;
use mio::net::TcpStream;
use mio::{Interest, Registry, Token};
use std::alloc::Global;
use std::collections::VecDeque;
use std::io::ErrorKind;

/// What wakes a turn when octets of such a peer come: no slot's key.
const AWAITED: Token = Token(usize::MAX - 2);

/// A peer whose first octets are awaited, since a moment in milliseconds.
#[derive(Drop)]
struct Waiting {
    newcomer: Newcomer,
    since: u64,
}

/// Peers whose first octets are awaited, the oldest first.
#[derive(Drop)]
pub struct WaitingRoom {
    registry: Registry,
    peers: VecDeque<Waiting>,
}

/// What a look at a stream showed.
#[derive(Clone, Copy)]
enum Look {
    /// The header has come, or nothing more does.
    Ready(Greeting),
    Waits(Greeting),
}

fn look_at(stream: &TcpStream) -> Look {
    let mut octets = [0u8; 8];
    match stream.peek(&mut octets) {
        Ok(count) => {
            let greeting = greeting_of(&octets[..count.min(8)]);
            if count == 0 || count >= 8 {
                Look::Ready(greeting)
            } else {
                Look::Waits(greeting)
            }
        }
        Err(error) => match error.kind() {
            ErrorKind::WouldBlock | ErrorKind::Interrupted => Look::Waits(Greeting::Nothing),
            _ => Look::Ready(Greeting::Nothing),
        },
    }
}

impl WaitingRoom {
    /// Returns an empty room. The registry is the one by which the thread waits.
    pub fn new(alloc: Global, registry: Registry) -> WaitingRoom {
        WaitingRoom {
            registry,
            peers: VecDeque::new(alloc),
        }
    }

    /// Awaits the first octets of a peer. Returns false if memory runs out, or the system has no more room: then the peer's stream is closed.
    pub fn await_header(&mut self, newcomer: Newcomer, now: u64) -> bool {
        let mut newcomer = newcomer;
        let registered = self
            .registry
            .register(&mut newcomer.stream, AWAITED, Interest::READABLE);
        if registered.is_err() {
            drop(newcomer);
            return false;
        }
        self.peers
            .push_back(Waiting {
                newcomer,
                since: now,
            })
            .is_ok()
    }

    /// Returns how many milliseconds from `now` on a peer has waited long enough, or `None` if none waits.
    pub fn next_due(&self, now: u64) -> Option<u64> {
        let first = self.peers.front()?;
        Some(first.since.saturating_add(HEADER_WAIT).saturating_sub(now))
    }

    /// Returns how many peers wait.
    pub fn len(&self) -> usize {
        self.peers.len()
    }

    /// Returns the first peer if its header has come, or if it was silent for a quarter of a second; else it waits on, behind the others.
    pub fn next(&mut self, now: u64) -> Option<(Newcomer, Greeting)> {
        let Waiting { newcomer, since } = self.peers.pop_front()?;
        match look_at(&newcomer.stream) {
            Look::Ready(greeting) => Some(self.leave(newcomer, greeting)),
            Look::Waits(greeting) if is_met(now.saturating_sub(since)) => {
                Some(self.leave(newcomer, greeting))
            }
            Look::Waits(_) => {
                // The stream is closed if memory runs out.
                let _ = self.peers.push_back(Waiting { newcomer, since });
                None
            }
        }
    }

    fn leave(&self, newcomer: Newcomer, greeting: Greeting) -> (Newcomer, Greeting) {
        let mut newcomer = newcomer;
        let _ = self.registry.deregister(&mut newcomer.stream);
        (newcomer, greeting)
    }

    /// Closes the streams of all peers that wait.
    pub fn clear(&mut self) {
        self.peers.clear();
    }
}
