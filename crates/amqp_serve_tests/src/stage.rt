//! A server of one thread and its peers, all on one thread.
use amqp_conn::{Bytes, Config, Conn, Given, Op, Role, Tag, Text, ops};
use amqp_ready::{Driver, Handler, Lent, Next, milliseconds};
use amqp_serve::{Server, Settings, Shared};
use mio::Poll;
use mio::net::{TcpListener, TcpStream};
use std::alloc::Global;
use std::io;
use std::net::{IpAddr, Ipv4Addr, Net, SocketAddr};
use std::rt::Clock;
use std::sync::Wait;
use std::time::{Duration, Instant};

/// After so many turns a test gives up.
const TURNS: u32 = 4000;

/// How many octets a long part has.
pub(crate) const LONG: usize = 60000;

/// A peer that does nothing by itself.
#[derive(Drop)]
pub(crate) struct Idle;

impl Handler for Idle {
    ghost use Rattle.std.specs.Prelude.{None};

    ghost told = { λ c. None };

    fn take(&mut self, _conn: &mut Lent, given: Given) -> Result<Next, amqp_conn::Refusal> {
        drop(given);
        Ok(Next::Feed)
    }

    fn go_on(&mut self, _conn: &mut Lent) -> Result<bool, amqp_conn::Refusal> {
        Ok(false)
    }
}

/// A server, and its peers in the slots of a driver.
#[derive(Drop)]
pub(crate) struct Stage {
    pub(crate) alloc: Global,
    server: Server,
    shared: Shared,
    pub(crate) peers: Driver<Idle>,
    begun: Instant,
    there: SocketAddr,
}

/// What a test awaits of a peer's connection.
#[derive(Clone, Copy)]
pub(crate) enum Wanted {
    Begun,
    Attached(u32),
    /// The link is gone.
    Gone(u32),
    Credit(u32),
    /// The server takes transfers.
    Window,
}

fn holds(conn: &Conn, wanted: Wanted) -> bool {
    let endpoint = conn.logged().endpoint();
    match wanted {
        Wanted::Begun => endpoint.windows().next_in.is_some(),
        Wanted::Attached(link) => match endpoint.link_of(link) {
            Some(found) => found.is_attached(),
            None => false,
        },
        Wanted::Gone(link) => endpoint.link_of(link).is_none(),
        Wanted::Window => endpoint.windows().remote_in > 0,
        Wanted::Credit(link) => match endpoint.link_of(link) {
            Some(found) => found.credit() > 0,
            None => false,
        },
    }
}

impl Stage {
    /// Returns a server that grants credit for three messages on each link.
    pub(crate) fn new<R: Net + Clock + Wait>(
        rt: &R,
        alloc: Global,
        limit: usize,
    ) -> io::Result<Stage> {
        let here = SocketAddr::new(IpAddr::V4(Ipv4Addr::new(127, 0, 0, 1)), 0);
        let listener = TcpListener::bind(rt, here)?;
        let there = listener.local_addr()?;
        let settings = Settings {
            alloc,
            credit: 3,
            count: None,
            trace: None,
        };
        let shared = Shared::new(settings, limit, 2, listener)?;
        let mut server = Server::new(settings, 0, Poll::new(rt)?)?;
        server.begin(rt, &shared)?;
        Ok(Stage {
            alloc,
            server,
            shared,
            peers: Driver::new(rt, alloc, 64)?,
            begun: Instant::now(rt)?,
            there,
        })
    }

    /// Connects a peer more, which begins a session. Returns its key.
    pub(crate) fn connect<R: Net + Clock + Eprint + Wait>(&mut self, rt: &R) -> Option<usize> {
        let stream = TcpStream::connect(rt, self.there).ok()?;
        let conn = connection(self.alloc)?;
        let key = self.peers.add(stream, conn, Idle).ok()?;
        for _ in 0..TURNS {
            if self.perform(key, Op::Begin) {
                break;
            }
            self.turn(rt)?;
        }
        self.until(rt, key, Wanted::Begun)?;
        Some(key)
    }

    /// Returns the server of a second thread.
    pub(crate) fn second<R: Net + Wait>(&self, rt: &R) -> Option<Server> {
        let mut server = Server::new(self.shared.settings, 1, Poll::new(rt).ok()?).ok()?;
        server.begin(rt, &self.shared).ok()?;
        Some(server)
    }

    /// One turn of a second server. Returns how many milliseconds it took.
    pub(crate) fn turn_second<R: Clock + Eprint + Wait>(
        &self,
        rt: &R,
        second: &mut Server,
    ) -> Option<u64> {
        let begun = Instant::now(rt).ok()?;
        second.turn(rt, &self.shared, self.begun).ok()?;
        Some(milliseconds(begun.elapsed(rt).ok()?))
    }

    /// One turn of the peers and one of the server.
    pub(crate) fn turn<R: Clock + Eprint + Wait>(&mut self, rt: &R) -> Option<()> {
        self.peers.turn(Some(Duration::ZERO)).ok()?;
        self.server.turn(rt, &self.shared, self.begun).ok()?;
        self.peers.turn(Some(Duration::ZERO)).ok()?;
        Some(())
    }

    /// Turns until something holds of a peer's connection.
    pub(crate) fn until<R: Clock + Eprint + Wait>(
        &mut self,
        rt: &R,
        key: usize,
        wanted: Wanted,
    ) -> Option<()> {
        for _ in 0..TURNS {
            if holds(self.peers.slots().get(key)?.conn(), wanted) {
                return Some(());
            }
            self.turn(rt)?;
        }
        None
    }

    pub(crate) fn perform(&mut self, key: usize, op: Op) -> bool {
        matches!(self.peers.perform(key, op), Some(Ok(())))
    }

    /// Turns until an operation on a link is done: the first delivery is taken, or the first outcome is learnt.
    pub(crate) fn await_done<R: Clock + Eprint + Wait>(
        &mut self,
        rt: &R,
        key: usize,
        link: u32,
        role: Role,
    ) -> Option<()> {
        for _ in 0..TURNS {
            let op = match role {
                Role::Receiver => Op::Take { link },
                Role::Sender => Op::Learn { link },
            };
            if self.perform(key, op) {
                return Some(());
            }
            self.turn(rt)?;
        }
        None
    }

    /// Attaches a link between two nodes of one address, and turns until it is attached. Returns its number.
    pub(crate) fn attach<R: Clock + Eprint + Wait>(
        &mut self,
        rt: &R,
        key: usize,
        role: Role,
        address: &str,
    ) -> Option<u32> {
        let name = Text::new(self.alloc, address).ok()?;
        let source = ops::source(self.alloc, name.clone().ok()?).ok()?;
        let target = ops::target(self.alloc, name.clone().ok()?).ok()?;
        let link = self.offer(key, ops::attach(name, role, Some(source), Some(target)))?;
        self.until(rt, key, Wanted::Attached(link))?;
        Some(link)
    }

    /// Sends an attach. Returns the link's number.
    pub(crate) fn offer(&mut self, key: usize, op: Op) -> Option<u32> {
        if !self.perform(key, op) {
            return None;
        }
        match self.peers.slots().get(key)?.conn().given() {
            Some(Given::Link(link)) => Some(*link),
            _ => None,
        }
    }

    /// Sends a message of one octet in message-format 7, once there is credit.
    pub(crate) fn send<R: Clock + Eprint + Wait>(
        &mut self,
        rt: &R,
        key: usize,
        link: u32,
        octet: u8,
    ) -> Option<()> {
        self.until(rt, key, Wanted::Credit(link))?;
        let payload = Bytes::copy_from_slice(self.alloc, &[octet]).ok()?;
        let op = Op::Start {
            link,
            tag: Tag::new(&[octet])?,
            format: 7,
            settled: false,
            payload,
            more: false,
        };
        if self.perform(key, op) {
            Some(())
        } else {
            None
        }
    }

    /// Sends a message of three long parts and of so many parts of one octet, which are 0, 1, 2 and then 3.
    pub(crate) fn send_long<R: Clock + Eprint + Wait>(
        &mut self,
        rt: &R,
        key: usize,
        link: u32,
        parts: u32,
    ) -> Option<()> {
        self.until(rt, key, Wanted::Credit(link))?;
        let start = Op::Start {
            link,
            tag: Tag::new(&[0])?,
            format: 0,
            settled: false,
            payload: filled(self.alloc, 0, LONG)?,
            more: true,
        };
        if !self.perform(key, start) {
            return None;
        }
        for place in 1..parts {
            let (octet, len) = if place < 3 {
                (place as u8, LONG)
            } else {
                (3, 1)
            };
            self.until(rt, key, Wanted::Window)?;
            let carry = Op::Carry {
                link,
                payload: filled(self.alloc, octet, len)?,
                more: place + 1 < parts,
            };
            if !self.perform(key, carry) {
                return None;
            }
        }
        Some(())
    }

    /// Takes the next message of a link. Returns its payload.
    pub(crate) fn take_payload<R: Clock + Eprint + Wait>(
        &mut self,
        rt: &R,
        key: usize,
        link: u32,
    ) -> Option<Bytes> {
        self.await_done(rt, key, link, Role::Receiver)?;
        match self.peers.slots().get(key)?.conn().given() {
            Some(Given::Taken(taken)) => taken.get().payload.join().ok(),
            _ => None,
        }
    }

    /// Takes the next message of a link. Returns its id, its message-format and its payload's first octet.
    pub(crate) fn take<R: Clock + Eprint + Wait>(
        &mut self,
        rt: &R,
        key: usize,
        link: u32,
    ) -> Option<(u32, u32, u8)> {
        self.await_done(rt, key, link, Role::Receiver)?;
        match self.peers.slots().get(key)?.conn().given() {
            Some(Given::Taken(taken)) => {
                let taken = taken.get();
                let payload = taken.payload.join().ok()?;
                Some((taken.id, taken.format, *payload.as_slice().first()?))
            }
            _ => None,
        }
    }
}

/// So many octets, all alike.
fn filled(alloc: Global, octet: u8, len: usize) -> Option<Bytes> {
    let mut octets = Vec::new(alloc);
    octets.resize(len, octet).ok()?;
    Bytes::from_vec(octets).ok()
}

fn connection(alloc: Global) -> Option<Conn> {
    let name = Text::new(alloc, "test").ok()?;
    Conn::new(alloc, Config::new(name)).ok()
}
