//! Many connections on one thread, over the poll of mio.
use crate::device::Socket;
use crate::handler::Handler;
use crate::listener::{Admitted, LISTENER, Listening, Welcome};
use crate::seat::Ended;
use crate::slots::{Returned, Round, Slots};
use crate::tap::Recorded;
use crate::times::Limits;
use amqp_conn::{Conn, Op, Refusal};
use mio::net::{TcpListener, TcpStream};
use mio::{Events, Interest, Poll, Token, Waker};
use std::alloc::{AllocError, Global};
use std::io;
use std::net::{Net, SocketAddr};
use std::time::Duration;

/// How long a turn waits at most if memory was refused in the one before, or if a peer could not be let in, in
/// milliseconds.
const PAUSE: u64 = 10;

/// The token of the waker, which is no key of a slot.
const WAKER: Token = Token(usize::MAX - 1);

/// How many peers one call of `admit` lets in at most.
const PEERS: usize = 64;

/// Serves many connections on one thread, each in a slot of its own over a stream that does not wait.
///
/// A program adds connections, or listens for peers, and calls `turn`, `admit` and `take_ended` in a loop. The system
/// reports which streams are ready. No contract relies on that: a slot that is served too often reads and writes
/// nothing.
#[derive(Drop)]
pub struct Driver<H> {
    poll: Poll,
    events: Events,
    slots: Slots<Socket, H>,
    listener: Option<Listening>,
    /// Whether memory was refused in the last turn.
    is_short: bool,
    /// The memory in which streams that are added are recorded; `None` if they are not.
    recorded_in: Option<Global>,
}

/// Why no connection was added, with all that was handed in.
#[derive(Drop)]
pub struct NotAdded<H> {
    pub error: io::Error,
    pub returned: Returned<Socket, H>,
}

impl<H: Handler + Drop> Driver<H> {
    /// Returns a driver without connections. One turn takes at most `events` events of the system.
    ///
    /// # Errors
    ///
    /// If the system makes no poll, or memory is refused.
    pub fn new<R: Net>(rt: &R, alloc: Global, events: usize) -> io::Result<Driver<H>> {
        Driver::over(Poll::new(rt)?, alloc, events)
    }

    /// Returns a driver over a poll that was made before, for a thread that has no `Net` of the runtime.
    ///
    /// # Errors
    ///
    /// If memory is refused; the poll is dropped then.
    pub fn over(poll: Poll, alloc: Global, events: usize) -> io::Result<Driver<H>> {
        match Events::with_capacity(alloc, events) {
            Ok(events) => Ok(Driver {
                poll,
                events,
                slots: Slots::new(alloc),
                listener: None,
                is_short: false,
                recorded_in: None,
            }),
            Err(error) => {
                drop(poll);
                Err(io::Error::from(error))
            }
        }
    }

    /// Records from now on what goes over each stream that is added later, in memory of `alloc`.
    ///
    /// Records are kept until they are taken, so the program takes them after each turn
    /// ([`take_recorded`](Driver::take_recorded)), and those of a slot that has ended from its stream
    /// ([`Socket::take_recorded`]). If memory for a record is refused, the record of that stream ends there; nothing
    /// else changes.
    pub fn record(&mut self, alloc: Global) {
        self.recorded_in = Some(alloc);
    }

    /// Removes and returns the oldest record of the stream under `key` that was not taken. Returns `None` if there is
    /// none.
    pub fn take_recorded(&mut self, key: usize) -> Option<Recorded> {
        match self.slots.stream_mut(key) {
            Some(stream) => stream.take_recorded(),
            None => None,
        }
    }

    /// Sets at how many octets each connection that is added later stops to read, as
    /// [`Slot::hold_at`](crate::Slot::hold_at).
    pub fn hold_at(&mut self, octets: u64) {
        self.slots.hold_at(octets);
    }

    /// Returns the slots, for reading.
    pub fn slots(&self) -> &Slots<Socket, H> {
        &self.slots
    }

    /// Returns the handler of the connection under `key`, as [`Slots::handler_mut`].
    pub fn handler_mut(&mut self, key: usize) -> Option<&mut H> {
        self.slots.handler_mut(key)
    }

    /// Adds a connection over `stream`, and returns its key. Sets TCP_NODELAY on the stream, since what the
    /// connection puts out is gathered into long writes.
    ///
    /// # Errors
    ///
    /// If the system does not register the stream, or memory is refused. [`NotAdded`] hands back the stream, the
    /// connection and the handler.
    pub fn add(
        &mut self,
        mut stream: TcpStream,
        conn: Conn,
        handler: H,
    ) -> Result<usize, NotAdded<H>> {
        // A system without this option is slower, and right.
        let _ = stream.set_nodelay(true);
        let key = self.slots.next_key();
        let both = Interest::READABLE | Interest::WRITABLE;
        match self.poll.registry().register(&mut stream, Token(key), both) {
            Ok(()) => {
                let socket = self.socket_over(stream);
                self.add_registered(socket, conn, handler)
            }
            Err(error) => Err(NotAdded {
                error,
                returned: Returned {
                    stream: Socket::new(stream),
                    conn,
                    handler,
                },
            }),
        }
    }

    fn socket_over(&self, stream: TcpStream) -> Socket {
        let mut socket = Socket::new(stream);
        if let Some(alloc) = self.recorded_in {
            socket.record(alloc);
        }
        socket
    }

    fn add_registered(
        &mut self,
        stream: Socket,
        conn: Conn,
        handler: H,
    ) -> Result<usize, NotAdded<H>> {
        match self.slots.add(stream, conn, handler) {
            Ok(key) => Ok(key),
            Err(mut returned) => {
                self.forget(&mut returned.stream);
                Err(NotAdded {
                    error: io::Error::from(AllocError),
                    returned,
                })
            }
        }
    }

    fn forget(&self, stream: &mut Socket) {
        let _ = self.poll.registry().deregister(stream.stream_mut());
    }

    /// Listens at `listener`, and no longer at the one before it: `admit` lets peers in.
    ///
    /// # Errors
    ///
    /// The error of the system if it does not register the listener.
    pub fn listen(&mut self, mut listener: TcpListener) -> io::Result<()> {
        self.poll
            .registry()
            .register(&mut listener, LISTENER, Interest::READABLE)?;
        self.listener = Some(Listening::new(listener));
        Ok(())
    }

    /// Lets in peers that have connected, at most 64, each into a slot of its own. The stream of a peer that is
    /// turned away is closed.
    ///
    /// # Errors
    ///
    /// The error of the system if it accepts no peer, most often since the process can open no more files. The peers
    /// before it are in; it waits, and the next call tries again.
    pub fn admit<M: Welcome<H>>(&mut self, welcomes: &mut M) -> io::Result<Admitted> {
        let mut admitted = Admitted {
            added: 0,
            turned_away: 0,
        };
        for _ in 0..PEERS {
            match self.next_peer()? {
                Some((stream, from)) => {
                    if self.admit_one(stream, from, welcomes) {
                        admitted.added = admitted.added.wrapping_add(1);
                    } else {
                        admitted.turned_away = admitted.turned_away.wrapping_add(1);
                    }
                }
                None => break,
            }
        }
        Ok(admitted)
    }

    /// Returns the next peer that has connected, if one waits, without adding its stream: for a program that
    /// distributes peers to several drivers. A program that calls `admit` does not need it.
    ///
    /// # Errors
    ///
    /// The error of the system, as for [`admit`](Driver::admit): the peer waits, and the next call tries again.
    pub fn next_peer(&mut self) -> io::Result<Option<(TcpStream, SocketAddr)>> {
        match &mut self.listener {
            Some(listener) => listener.next(),
            None => Ok(None),
        }
    }

    fn admit_one<M: Welcome<H>>(
        &mut self,
        stream: TcpStream,
        from: SocketAddr,
        welcomes: &mut M,
    ) -> bool {
        match welcomes.welcome(from) {
            Some((conn, handler)) => self.is_added(stream, conn, handler),
            None => {
                drop(stream);
                false
            }
        }
    }

    fn is_added(&mut self, stream: TcpStream, conn: Conn, handler: H) -> bool {
        match self.add(stream, conn, handler) {
            Ok(_) => true,
            Err(not_added) => {
                drop(not_added);
                false
            }
        }
    }

    /// Waits for ready streams, and then serves each slot that is due once, with one read of at most 262144 octets.
    ///
    /// Waits at most `timeout`, without a limit if it is `None`, and not at all if a slot is due or a peer waits to
    /// be let in. If memory was refused in the turn before and a slot is due, or if a peer could not be let in, it
    /// waits at most 10 milliseconds instead.
    ///
    /// # Errors
    ///
    /// The error of the system if its wait fails. No slot was served then.
    pub fn turn(&mut self, timeout: Option<Duration>) -> io::Result<Round> {
        self.wait(timeout)?;
        let round = self.slots.serve_due();
        self.is_short = round.is_short;
        Ok(round)
    }

    fn wait(&mut self, timeout: Option<Duration>) -> io::Result<()> {
        let timeout = self.at_most(timeout);
        self.poll.poll(&mut self.events, timeout)?;
        for event in &self.events {
            if event.token() == LISTENER {
                wake_listener(&mut self.listener);
            } else {
                self.slots.wake(event.token().0);
            }
        }
        Ok(())
    }

    /// If memory was refused, or a peer could not be let in, some time has to pass: else the loop would spin.
    fn at_most(&self, timeout: Option<Duration>) -> Option<Duration> {
        let (is_open, is_stuck) = match &self.listener {
            Some(listener) => (listener.is_open(), listener.is_stuck()),
            None => (false, false),
        };
        let is_due = self.slots.is_any_due();
        if is_open || is_due && !self.is_short {
            return Some(Duration::ZERO);
        }
        if is_stuck || is_due {
            return Some(Duration::from_millis(PAUSE));
        }
        timeout
    }

    /// Makes the slot under `key` due, whether its stream is ready or not: the next turn serves it, and its handler
    /// goes on.
    pub fn wake(&mut self, key: usize) {
        self.slots.wake(key);
    }

    /// Performs an operation on the connection under `key`, as [`Slots::perform`]; the next turn writes what it puts
    /// out.
    pub fn perform(&mut self, key: usize, op: Op) -> Option<Result<(), Refusal>> {
        self.slots.perform(key, op)
    }

    /// Returns a waker, which ends the wait of [`turn`](Driver::turn) from any thread for as long as the waker lives.
    /// A driver has one at most.
    ///
    /// Another thread hands its work over by a queue of the program, which the thread of the driver reads between two
    /// turns.
    ///
    /// # Errors
    ///
    /// The error of the system if it makes no waker.
    pub fn waker(&self) -> io::Result<Waker> {
        Waker::new(self.poll.registry(), WAKER)
    }

    /// Checks the time limits of all slots, as [`Slots::tick`], and returns the moment of the next check; `turn` is
    /// to wait no longer than until then. `now` is in milliseconds from a moment of the program's choice.
    ///
    /// It serves no slot: the next turn writes what it puts out.
    pub fn tick(&mut self, limits: Limits, now: u64) -> Option<u64> {
        self.slots.tick(limits, now)
    }

    /// Closes each connection that is open. A slot ends once its peer has closed, too; slots that do not end are
    /// dropped with the driver.
    pub fn close_all(&mut self) {
        self.slots.close_all();
    }

    /// Removes a slot that has ended, and returns what is left of it; `None` if there is none. A later connection may
    /// have the same key.
    pub fn take_ended(&mut self) -> Option<Ended<Socket, H>> {
        match self.slots.take_ended() {
            Some(mut ended) => {
                self.forget(&mut ended.stream);
                Some(ended)
            }
            None => None,
        }
    }
}

fn wake_listener(listener: &mut Option<Listening>) {
    if let Some(listener) = listener {
        listener.wake();
    }
}
