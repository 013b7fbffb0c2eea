//! What is known of a peer, and what its frames do, inside the turns of its connection.
ghost use Rattle.std.specs.Prelude.{◌≡◌, None, IfSome};
ghost use Rattle.amqp_ready.specs.Lending.{kept};

use crate::driving::forget_old;
use crate::greeting::Greeting;
use crate::links::{Linked, Node};
use crate::receipt::is_kept;
use crate::returning::{Sending, after_end, leave, place_of};
use crate::traced::Trace;
use crate::violation::{Violation, frame_name, violation_in};
use amqp_conn::{Conn, Given, Learned, Left, Op, Performative, Refusal, Taken};
use amqp_policy::{AfterOutcome, Queued, after_outcome};
use amqp_ready::{Handler, Lent, Next};
use std::alloc::Global;
use std::collections::VecDeque;
use std::net::SocketAddr;

/// A message that came, and is in no queue yet.
#[derive(Drop)]
pub struct Arrived {
    pub link: u32,
    pub id: u32,
    pub is_settled: bool,
    pub message: Queued,
}

/// What a peer decided about a delivery.
#[derive(Clone, Copy, Debug)]
pub struct Decision {
    pub id: u32,
    pub after: AfterOutcome,
    pub is_settled: bool,
}

/// A peer: who it is, and what the server is to do for it.
#[derive(Drop)]
pub struct Peer {
    alloc: Global,
    /// Which one it is of all, from 1 on.
    pub number: u64,
    pub from: SocketAddr,
    /// What it said first.
    pub greeting: Greeting,
    is_begun: bool,
    pub links: Vec<Linked>,
    /// Links that it offers, which are to be answered.
    pub offered: VecDeque<u32>,
    pub arrived: VecDeque<Arrived>,
    /// In the order in which they began.
    pub sent: VecDeque<Sending>,
    /// What goes back to its queue.
    pub back: VecDeque<Sending>,
    /// How many messages were sent and are done with.
    pub done: u64,
    /// What is to be printed.
    pub violations: VecDeque<Violation>,
    pub trace: Option<Trace>,
}

/// What an entry of the journal gave, as far as it matters here.
#[derive(Clone, Copy)]
enum Event {
    Offered(u32),
    Ready(u32),
    Gone(u32),
    SessionEnded,
    Other,
}

fn event_of(conn: &Conn, given: &Given) -> Event {
    match given {
        Given::Offered(link) => Event::Offered(*link),
        Given::Ready(link, _) => Event::Ready(*link),
        // A link that its peer puts aside comes back as another one.
        Given::Gone(link) | Given::Parted(link, _) => Event::Gone(*link),
        Given::Nothing if has_ended(conn) => Event::SessionEnded,
        _ => Event::Other,
    }
}

/// The frame that was heard last is the peer's end of its session.
fn has_ended(conn: &Conn) -> bool {
    match conn.heard() {
        Some(frame) => matches!(&frame.body, Some(Performative::End(_))),
        None => false,
    }
}

impl Peer {
    /// Returns a peer that has said nothing but its greeting.
    pub fn new(
        alloc: Global,
        number: u64,
        from: SocketAddr,
        greeting: Greeting,
        trace: Option<Trace>,
    ) -> Peer {
        Peer {
            alloc,
            number,
            from,
            greeting,
            is_begun: false,
            links: Vec::new(alloc),
            offered: VecDeque::new(alloc),
            arrived: VecDeque::new(alloc),
            sent: VecDeque::new(alloc),
            back: VecDeque::new(alloc),
            done: 0,
            violations: VecDeque::new(alloc),
            trace,
        }
    }

    fn act(&mut self, conn: &mut Lent, event: Event) -> Result<(), Refusal>
        ensures { kept conn.new.conn ≡ kept conn.old.conn }
    {
        match event {
            Event::Offered(link) => match self.offered.push_back(link) {
                Ok(()) => Ok(()),
                Err(_) => Err(Refusal::NoMemory),
            },
            Event::Ready(link) => self.take_one(conn, link),
            Event::Gone(link) => self.leave(conn, Some(link)),
            Event::SessionEnded => self.leave(conn, None),
            Event::Other => self.begin(conn),
        }
    }

    /// Begins the session once the peer has.
    fn begin(&mut self, conn: &mut Lent) -> Result<(), Refusal>
        ensures { kept conn.new.conn ≡ kept conn.old.conn }
    {
        let windows = conn.conn().logged().endpoint().windows();
        if self.is_begun || windows.next_in.is_none() {
            return Ok(());
        }
        self.is_begun = true;
        conn.perform(Op::Begin)
    }

    /// Takes a delivery that is ready.
    fn take_one(&mut self, conn: &mut Lent, link: u32) -> Result<(), Refusal>
        ensures { kept conn.new.conn ≡ kept conn.old.conn }
    {
        conn.perform(Op::Take { link })?;
        match conn.conn().given() {
            Some(Given::Taken(taken)) => self.keep(taken.get()),
            _ => Ok(()),
        }
    }

    fn keep(&mut self, taken: &Taken) -> Result<(), Refusal> {
        let Some(message) = message_of(taken) else {
            return Err(Refusal::NoMemory);
        };
        let arrived = Arrived {
            link: taken.link,
            id: taken.id,
            is_settled: taken.settled,
            message,
        };
        match self.arrived.push_back(arrived) {
            Ok(()) => Ok(()),
            Err(_) => Err(Refusal::NoMemory),
        }
    }

    /// A link is gone, or all are if it is `None`: what came before that is taken, and what was sent on it without an outcome goes back.
    fn leave(&mut self, conn: &mut Lent, link: Option<u32>) -> Result<(), Refusal>
        ensures { kept conn.new.conn ≡ kept conn.old.conn }
    {
        for _ in 0..u64::MAX {
            match conn.pop_left() {
                Ok(Some(left)) => self.note_left(left),
                Ok(None) => break,
                Err(_) => return Err(Refusal::NoMemory),
            }
        }
        for linked in self.links.as_mut_slice() {
            if link.is_none() || link == Some(linked.link) {
                linked.is_gone = true;
            }
        }
        if self.give_back(link) {
            Ok(())
        } else {
            Err(Refusal::NoMemory)
        }
    }

    /// Notes what a link left: an outcome is learnt. A delivery that came settled is kept; another one its peer sends again.
    pub fn note_left(&mut self, left: Left) {
        match &left {
            Left::Outcome(_, learned) => self.end(decision_of(learned.get())),
            Left::Delivery(_, taken) => {
                if is_kept(taken.get().settled, true) {
                    // It is lost if memory runs out.
                    let _ = self.keep(taken.get());
                }
            }
        }
        drop(left);
    }

    /// What was sent on this link without an outcome, or on any link if it is `None`, is to go back. Returns whether memory sufficed: messages for
    /// which it did not are
    /// lost.
    pub fn give_back(&mut self, link: Option<u32>) -> bool {
        leave(self.alloc, &mut self.sent, &mut self.back, link)
    }

    /// What was sent under an id is done with, or is to go back, as the peer decided.
    pub fn end(&mut self, decision: Decision) {
        if decision.after == AfterOutcome::Pending {
            return;
        }
        let Some(at) = place_of(&self.sent, decision.id) else {
            return;
        };
        let Some(one) = self.sent.remove(at) else {
            return;
        };
        let taker = taker_of(self.number, one.link);
        match after_end(one, decision.after, taker) {
            Some(one) => {
                // It is lost if memory runs out.
                let _ = self.back.push_back(one);
            }
            None => self.done = self.done.saturating_add(1),
        }
    }

    /// Returns what was sent, or is being sent, under the id.
    pub fn sent_as(&self, id: u32) -> Option<&Sending> {
        self.sent.get(place_of(&self.sent, id)?)
    }

    /// Counts the message that was sent last among those that were copied to its link, if it is a copy.
    pub fn count_copy(&mut self) {
        let Some(one) = self.sent.back() else {
            return;
        };
        let link = one.link;
        if !one.is_copy {
            return;
        }
        for linked in self.links.as_mut_slice() {
            if linked.link == link && !linked.is_gone {
                linked.copied = linked.copied.map(|count| count.saturating_add(1));
            }
        }
    }

    /// Returns the queue at our end of a link.
    pub fn node_of(&self, link: u32) -> Option<Node> {
        for linked in self.links.as_slice() {
            if linked.link == link {
                return Some(linked.node);
            }
        }
        None
    }

    /// Notes a violation that was answered, and the frame that violated: it is heard again behind the answer.
    fn note_violation(&mut self, conn: &Conn) {
        if let Some(violation) = violation_in(conn) {
            // It is not printed if memory runs out.
            let _ = self.violations.push_back(violation);
            return;
        }
        if let Some(frame) = conn.heard() {
            self.name_violation(frame_name(frame));
        }
    }

    /// Notes the name of the frame that violated, unless it is known.
    fn name_violation(&mut self, name: &'static str) {
        if let Some(last) = self.violations.back_mut() {
            if last.frame.is_none() {
                last.frame = Some(name);
            }
        }
    }
}

/// Returns the message of a delivery, with the delivery's message-format.
fn message_of(taken: &Taken) -> Option<Queued>
    ensures { IfSome result (λ m. m ≡ record { format = taken.now.format; payload = taken.now.payload; delivery_count = 0; excluded = None }) }
{
    match taken.payload.join() {
        Ok(payload) => Some(Queued {
            format: taken.format,
            payload,
            delivery_count: 0,
            excluded: None,
        }),
        Err(_) => None,
    }
}

/// Returns the number by which a link of a peer is kept from a message.
pub fn taker_of(number: u64, link: u32) -> u64 {
    number
        .wrapping_mul(4294967296)
        .wrapping_add(u64::from(link))
}

/// Returns what the peer decided, if the newest step gave that.
pub fn decision_in(given: Option<&Given>) -> Option<Decision> {
    match given {
        Some(Given::Learned(learned)) => Some(decision_of(learned.get())),
        _ => None,
    }
}

fn decision_of(learned: &Learned) -> Decision {
    Decision {
        id: learned.id,
        after: after_outcome(&learned.state, learned.settled),
        is_settled: learned.settled,
    }
}

impl Handler for Peer {
    ghost use Rattle.std.specs.Prelude.{None};

    ghost told = { λ v. None };

    fn take(&mut self, conn: &mut Lent, given: Given) -> Result<Next, Refusal> {
        let event = event_of(conn.conn(), &given);
        drop(given);
        self.note_violation(conn.conn());
        forget_old(conn);
        match self.act(conn, event) {
            Ok(()) => Ok(Next::Feed),
            Err(refusal) => Err(refusal),
        }
    }

    fn go_on(&mut self, _conn: &mut Lent) -> Result<bool, Refusal> {
        Ok(false)
    }
}
