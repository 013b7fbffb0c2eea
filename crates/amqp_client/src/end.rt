//! One end of a connection, without the devices that it goes over.
use crate::fault::ClientFault;
use crate::links::OpenLinks;
use amqp_conn::{Config, Conn, Given, Hears, Link, Op, Phase, Refusal};
use amqp_policy::{Waits, is_window_due};
use std::alloc::Global;

/// One end of a connection, and what it does without waiting for its peer.
#[derive(Drop)]
pub struct End {
    pub alloc: Global,
    pub conn: Conn,
    pub partings: Partings,
    pub waits: Waits,
    /// Our attach went out: from here on a session that is not mapped is one that the peer has ended.
    pub is_opened: bool,
    /// The links that the program opened by name.
    pub(crate) links: OpenLinks,
    /// The incoming window, in transfers.
    window: u32,
    /// Nothing more is sent: credit that the peer wants back is given up.
    has_sent: bool,
}

/// The number of the link that the calls for one link use.
pub const LINK: u32 = 0;

/// Notes how the link [`LINK`] ends.
#[derive(Clone, Copy)]
pub struct Partings {
    /// It was detached for good (part 2, 2.6.6): neither end keeps its state.
    is_for_good: bool,
}

impl Hears for Partings {
    ghost use Rattle.std.specs.Prelude.{None};

    ghost heard = { λ p. None };

    fn hear(&mut self, given: Given) {
        if let Given::Gone(link) = &given {
            // A peer may have attached links of its own beside ours.
            if *link == LINK {
                self.is_for_good = true;
            }
        }
        drop(given);
    }
}

/// What a call waits for.
#[derive(Clone, Copy)]
pub enum Awaited {
    /// The peer begins its session.
    Begin,
    /// The peer offers a link.
    Offer,
    /// The peer attaches our link, too.
    Attach,
    /// Either end has left the link, the session or the connection.
    Parting,
}

impl End {
    /// Returns an end of these settings. A peer from which nothing comes for `patience` seconds is given up; `None`: it is waited for without a limit.
    ///
    /// # Errors
    ///
    /// `Start` if a setting is out of its limits, or memory runs out.
    pub fn new(alloc: Global, config: Config, patience: Option<u32>) -> Result<End, ClientFault> {
        let window = config.window;
        match Conn::new(alloc, config) {
            Ok(conn) => Ok(End {
                alloc,
                conn,
                partings: Partings { is_for_good: false },
                waits: Waits::new(patience),
                is_opened: false,
                links: OpenLinks::new(alloc),
                window,
                has_sent: false,
            }),
            Err(fault) => Err(ClientFault::Start(fault)),
        }
    }

    /// Returns the connection, to be read.
    pub fn conn(&self) -> &Conn {
        &self.conn
    }

    /// Ends a turn: sends a heartbeat if one is due, announces the window again, and gives up credit that the peer wants back.
    pub fn keep_up(&mut self) {
        self.beat_if_due();
        // Half of the window is used (part 2, 2.5.6), maybe while a message is on its way.
        let incoming = self.conn.logged().endpoint().windows().incoming;
        if is_window_due(incoming, self.window) {
            self.do_if_can(Op::Refresh { echo: false });
        }
        if self.has_sent {
            self.give_up();
        }
        self.give_up_drained();
    }

    /// Gives up the credit of the program's links whose receivers drain them: a message that is to be sent waits for new credit (part 2, 2.6.7).
    fn give_up_drained(&mut self) {
        for place in 0..self.links.len() {
            if let Some(link) = self.links.sender_at(place) {
                self.do_if_can(Op::Drained { link });
            }
        }
    }

    /// Sends a heartbeat if nothing of ours went out for long enough. One that is refused is tried again at the next turn.
    fn beat_if_due(&mut self) {
        let idle_time_out = match self.conn.peer() {
            Some(open) => open.idle_time_out,
            None => None,
        };
        let put_out = self.conn.logged().put_out();
        if self.waits.is_beat_due(put_out, idle_time_out) && self.conn.phase() == Phase::Running {
            self.do_if_can(Op::Beat);
        }
    }

    /// Notes that nothing more is sent: when the peer drains the link, the credit that is left is given up (part 2, 2.6.7).
    pub fn give_up(&mut self) {
        self.has_sent = true;
        self.do_if_can(Op::Drained { link: LINK });
    }

    /// Does the operation unless it is refused: then there is nothing to do, or it is tried again at the next turn.
    pub(crate) fn do_if_can(&mut self, op: Op) {
        match self.conn.apply(&op) {
            Ok(given) => drop(given),
            Err(_) => {}
        }
        drop(op);
    }

    /// Returns whether the refusal may end by what the peer sends.
    pub fn is_early(&self, refusal: Refusal) -> bool {
        match refusal {
            Refusal::NotMapped => !self.is_opened,
            Refusal::NotRunning
            | Refusal::NotAttached
            | Refusal::NoCredit
            | Refusal::NoWindow
            | Refusal::Nothing => true,
            _ => false,
        }
    }

    /// Returns whether the peer has done it, or will not do it any more.
    pub fn is_over(&self, awaited: Awaited) -> bool {
        match awaited {
            Awaited::Begin => self.conn.logged().endpoint().windows().next_in.is_some(),
            Awaited::Offer => self.has_link(),
            Awaited::Attach => match self.link() {
                Some(link) => link.is_attached(),
                None => true,
            },
            Awaited::Parting => self.is_gone(),
        }
    }

    /// Returns the link [`LINK`], unless either end has left it.
    pub fn link(&self) -> Option<&Link> {
        self.conn.logged().endpoint().link_of(LINK)
    }

    /// Returns whether neither end has left the link. It stays if only the connection has ended.
    pub fn has_link(&self) -> bool {
        self.link().is_some()
    }

    /// Returns whether nothing goes over the link any more: either end has left the link, the session or the connection.
    pub fn is_gone(&self) -> bool {
        self.conn.phase() == Phase::Closed || !self.has_link()
    }

    /// Returns whether the link was detached for good after we had attached it: nothing on it is in doubt any more.
    pub fn is_gone_for_good(&self) -> bool {
        self.is_opened && self.partings.is_for_good
    }

    /// Checks that the link was not left, or was left for good: the peer will not ask for what was in doubt on it.
    ///
    /// # Errors
    ///
    /// `Refused` if the peer has suspended the link, or has ended the session.
    pub fn unless_aside(&self) -> Result<(), ClientFault> {
        if self.has_link() || self.partings.is_for_good {
            Ok(())
        } else {
            Err(ClientFault::Refused(Refusal::NoLink))
        }
    }

    /// Returns how many messages the sender of the link may still send.
    pub fn credit(&self) -> u32 {
        match self.link() {
            Some(link) => link.credit(),
            None => 0,
        }
    }
}
