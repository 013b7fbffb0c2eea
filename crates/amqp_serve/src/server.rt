//! The connections of one thread.
use crate::answer::Reason;
use crate::attaching::{attach_at, error_for, linked, place_for, refused_attach, state_of};
use crate::driving::{is_behind, limits};
use crate::greeting::Greeting;
use crate::header::with_failures;
use crate::links::{Node, Offer, offer_of};
use crate::outlet::{Due, Outlet, due_on, is_draining, next_message, outlet_on, waits};
use crate::parts::{first_transfer, next_transfer};
use crate::peer::{Decision, Peer, decision_in};
use crate::receipt::{Receipt, outcome_for};
use crate::receiving::{Stored, delete_gone, store_next, take_back};
use crate::report::{print_connected, print_ended, print_violations};
use crate::returning::Sending;
use crate::shared::{Newcomer, Settings, Shared};
use crate::traced::Trace;
use crate::waiting::WaitingRoom;
use amqp_conn::{Config, Conn, DeliveryState, Given, Op, Role, Tag, Text};
use amqp_policy::{AfterOutcome, Incoming, Renewal, credit_to_grant, is_window_due};
use amqp_ready::{Driver, Ended, Socket, milliseconds};
use mio::Poll;
use mio::net::TcpStream;
use std::alloc::{AllocError, Global};
use std::io;
use std::net::SocketAddr;
use std::rt::Clock;
use std::sync::Wait;
use std::time::{Duration, Instant};

/// How long a turn waits at most, in milliseconds.
const TURN: u64 = 250;

/// After how long the clock is looked at again at the soonest, in milliseconds.
const LOOK: u64 = 10;

/// How many events a turn takes at most.
const EVENTS: usize = 256;

/// How many peers are let in at once.
const PEERS: usize = 64;

/// The longest frame that we take.
const MAX_FRAME: u32 = 65536;

/// How many transfers a peer may send until our window is announced again.
const WINDOW: u32 = 2048;

/// The connections of one thread.
#[derive(Drop)]
pub struct Server {
    settings: Settings,
    /// The thread's place among those of the server.
    place: usize,
    driver: Driver<Peer>,
    waiting: WaitingRoom,
    /// How many peers have connected at this thread's listener.
    dealt: u64,
    /// All connections were closed: no peer is let in.
    is_closing: bool,
    tags: u64,
    /// Messages were put into queues, and the other threads do not know it yet.
    has_put: bool,
    /// When the clock is looked at next, in milliseconds.
    next_look: u64,
}

impl Server {
    /// Returns a server without a connection.
    ///
    /// # Errors
    ///
    /// An `io::Error` if the system refuses it, or memory runs out.
    pub fn new(settings: Settings, place: usize, poll: Poll) -> io::Result<Server> {
        let registry = match poll.registry().try_clone() {
            Ok(registry) => registry,
            Err(error) => {
                drop(poll);
                return Err(error);
            }
        };
        match Driver::over(poll, settings.alloc, EVENTS) {
            Ok(driver) => Ok(Server {
                settings,
                place,
                driver,
                waiting: WaitingRoom::new(settings.alloc, registry),
                dealt: 0,
                is_closing: false,
                tags: 0,
                has_put: false,
                next_look: 0,
            }),
            Err(error) => {
                drop(registry);
                Err(error)
            }
        }
    }

    /// Begins: the thread runs. The first thread listens, and deals the peers that connect to all threads.
    ///
    /// # Errors
    ///
    /// An `io::Error` if the system refuses it.
    pub fn begin<R: Wait>(&mut self, rt: &R, shared: &Shared) -> io::Result<()> {
        if self.settings.trace.is_some() {
            self.driver.record(self.settings.alloc);
        }
        let waker = self.driver.waker()?;
        match shared.enter(rt, self.place, waker) {
            Some(listener) => self.driver.listen(listener),
            None => Ok(()),
        }
    }

    /// Makes one turn of a server that began at a moment: peers are let in, what came goes to its queue, and what waits goes out, as its peers take it.
    ///
    /// # Errors
    ///
    /// An `io::Error` if the system's wait failed.
    pub fn turn<R: Clock + Eprint + Wait>(
        &mut self,
        rt: &R,
        shared: &Shared,
        begun: Instant,
    ) -> io::Result<()> {
        let now = milliseconds(begun.elapsed(rt)?);
        let next = self.waiting.next_due(now).unwrap_or(TURN);
        let wait = self.next_look.saturating_sub(now).min(TURN).min(next);
        self.driver.turn(Some(Duration::from_millis(wait)))?;
        let now = milliseconds(begun.elapsed(rt)?);
        self.let_all_in(rt, shared, now);
        self.work(rt, shared);
        self.look(milliseconds(begun.elapsed(rt)?));
        Ok(())
    }

    /// Looks at the clock if it is time: for all connections, so not more often than a hundred times a second.
    fn look(&mut self, now: u64) {
        if now < self.next_look {
            return;
        }
        let soonest = self.driver.tick(limits(), now).unwrap_or(u64::MAX);
        let (least, most) = (now.saturating_add(LOOK), now.saturating_add(TURN));
        self.next_look = soonest.max(least).min(most);
    }

    fn work<R: Wait + Eprint>(&mut self, rt: &R, shared: &Shared) {
        let count = self.driver.slots().capacity();
        for key in 0..count {
            self.print(rt, shared, key);
            self.answer_all(rt, shared, key);
            self.bring_in(rt, shared, key);
        }
        self.end_all(rt, shared);
        // It comes behind all that came in, so that nothing waits for another turn.
        for key in 0..count {
            self.bring_out(rt, shared, key);
        }
        if self.has_put {
            self.has_put = false;
            shared.wake_others(rt, self.place);
        }
    }

    /// Lets in the peers that have connected here, and those that were dealt to this thread, once each has said something or was silent for long enough.
    fn let_all_in<R: Wait + Eprint>(&mut self, rt: &R, shared: &Shared, now: u64) {
        for _ in 0..PEERS {
            match self.driver.next_peer() {
                Ok(Some((stream, from))) => self.deal(rt, shared, stream, from),
                _ => break,
            }
        }
        for _ in 0..u64::MAX {
            match shared.next_newcomer(rt, self.place) {
                Some(newcomer) => {
                    let _: bool = self.waiting.await_header(newcomer, now);
                }
                None => break,
            }
        }
        for _ in 0..self.waiting.len() {
            if let Some((newcomer, greeting)) = self.waiting.next(now) {
                self.let_in(newcomer, greeting);
            }
        }
    }

    /// Deals a peer to a thread. One that comes once all is closed finds its stream closed: at the listener it would end each wait.
    fn deal<R: Wait + Eprint>(
        &mut self,
        rt: &R,
        shared: &Shared,
        stream: TcpStream,
        from: SocketAddr,
    ) {
        if self.is_closing {
            drop(stream);
            return;
        }
        self.dealt = self.dealt.saturating_add(1);
        let number = self.dealt;
        if self.settings.trace.is_some() {
            print_connected(rt, shared, number, from);
        }
        shared.deal(
            rt,
            Newcomer {
                number,
                from,
                stream,
            },
        );
    }

    /// Lets a peer in. Its stream is closed if all is closed, or memory runs out.
    fn let_in(&mut self, newcomer: Newcomer, greeting: Greeting) {
        let Newcomer {
            number,
            from,
            stream,
        } = newcomer;
        if self.is_closing {
            drop(stream);
            return;
        }
        match connection(self.settings.alloc) {
            Some(conn) => {
                let peer = peer(self.settings, number, from, greeting);
                drop(self.driver.add(stream, conn, peer));
            }
            None => drop(stream),
        }
    }

    /// Prints what went over the connection under the key in the last turn, and the violations that were answered.
    fn print<R: Wait + Eprint>(&mut self, rt: &R, shared: &Shared, key: usize) {
        if self.settings.trace.is_some() {
            let output = shared.output.lock(rt);
            for _ in 0..u64::MAX {
                if !self.print_one(rt, key) {
                    break;
                }
            }
            drop(output);
        }
        if let Some(peer) = self.driver.handler_mut(key) {
            print_violations(rt, shared, peer);
        }
    }

    fn print_one<R: Eprint>(&mut self, rt: &R, key: usize) -> bool {
        let Some(recorded) = self.driver.take_recorded(key) else {
            return false;
        };
        if let Some(peer) = self.driver.handler_mut(key) {
            if let Some(trace) = &mut peer.trace {
                trace.print(rt, &recorded);
            }
        }
        drop(recorded);
        true
    }

    /// Closes each connection. A later turn ends it once its peer has closed, too.
    pub fn close(&mut self) {
        self.is_closing = true;
        self.waiting.clear();
        self.driver.close_all();
    }

    /// Returns whether no connection is left.
    pub fn is_empty(&self) -> bool {
        self.driver.slots().is_empty()
    }

    /// Answers the attaches of the peer under the key. If memory runs out a later turn goes on.
    fn answer_all<R: Wait>(&mut self, rt: &R, shared: &Shared, key: usize) {
        for _ in 0..u64::MAX {
            let Some(link) = self.next_offered(key) else {
                return;
            };
            if self.answer(rt, shared, key, link).is_err() {
                return self.offer_again(key, link);
            }
        }
    }

    fn next_offered(&mut self, key: usize) -> Option<u32> {
        self.driver.handler_mut(key)?.offered.pop_front()
    }

    fn offer_again(&mut self, key: usize, link: u32) {
        if let Some(peer) = self.driver.handler_mut(key) {
            // There is room, since it was taken from there.
            let _ = peer.offered.push_front(link);
        }
    }

    /// Answers the attach of a link.
    fn answer<R: Wait>(
        &mut self,
        rt: &R,
        shared: &Shared,
        key: usize,
        link: u32,
    ) -> Result<(), AllocError> {
        let Some(slot) = self.driver.slots().get(key) else {
            return Ok(());
        };
        let Some(offer) = offer_of(slot.conn(), link)? else {
            return Ok(());
        };
        match place_for(rt, shared, &offer) {
            Ok(node) => {
                if !self.attach(key, offer, node) {
                    unmake(rt, shared, node);
                    return Err(AllocError);
                }
            }
            Err(reason) => self.refuse(key, offer, reason),
        }
        Ok(())
    }

    /// Answers a link with the queue at our end, and returns whether that was done.
    fn attach(&mut self, key: usize, offer: Offer, node: Node) -> bool {
        let linked = linked(&offer, node);
        let Ok(op) = attach_at(self.settings.alloc, offer, node) else {
            return false;
        };
        if !matches!(self.driver.perform(key, op), Some(Ok(()))) {
            return false;
        }
        match self.driver.handler_mut(key) {
            Some(peer) => peer.links.push(linked).is_ok(),
            None => false,
        }
    }

    /// Refuses a link: an attach without our end answers it, and a detach follows (part 2, 2.6.3).
    fn refuse(&mut self, key: usize, offer: Offer, reason: Reason) {
        let link = offer.link;
        let error = error_for(self.settings.alloc, reason);
        let _ = self.driver.perform(key, refused_attach(offer));
        let _ = self.driver.perform(key, Op::Detach { link, error });
    }

    /// Puts what came on the connection under the key into its queue, and what comes back from it.
    fn bring_in<R: Wait>(&mut self, rt: &R, shared: &Shared, key: usize) {
        for _ in 0..u64::MAX {
            if !self.store_one(rt, shared, key) {
                break;
            }
        }
        for at in 0..self.links_of(key) {
            if let Some(outlet) = self.outlet(key, at) {
                self.learn_all(key, outlet.link);
            }
        }
        if let Some(peer) = self.driver.handler_mut(key) {
            self.has_put |= take_back(rt, shared, peer);
            delete_gone(rt, shared, peer);
        }
    }

    /// Puts a message that came into its queue, and sends its outcome. Returns whether there was one.
    fn store_one<R: Wait>(&mut self, rt: &R, shared: &Shared, key: usize) -> bool {
        let stored = match self.driver.handler_mut(key) {
            Some(peer) => store_next(rt, shared, peer, false),
            None => None,
        };
        let Some(stored) = stored else {
            return false;
        };
        self.has_put |= stored.receipt == Receipt::Stored;
        if let Some(op) = outcome_op(self.settings.alloc, stored) {
            let _ = self.driver.perform(key, op);
        }
        true
    }

    /// Learns what became of what was sent on a link.
    fn learn_all(&mut self, key: usize, link: u32) {
        for _ in 0..u64::MAX {
            if !matches!(self.driver.perform(key, Op::Learn { link }), Some(Ok(()))) {
                break;
            }
            let decision = match self.driver.slots().get(key) {
                Some(slot) => decision_in(slot.conn().given()),
                None => None,
            };
            if let Some(decision) = decision {
                self.end(key, decision);
            }
        }
    }

    /// Does what a peer decided, and settles the delivery if the peer has not.
    fn end(&mut self, key: usize, decision: Decision) {
        if let Some(peer) = self.driver.handler_mut(key) {
            peer.end(decision);
        }
        if !decision.is_settled && decision.after != AfterOutcome::Pending {
            let _ = self
                .driver
                .perform(key, settling(Role::Sender, decision.id, None));
        }
    }

    /// Sends what waits for the connection under the key, as its peer takes it, and grants it credit and window.
    fn bring_out<R: Wait>(&mut self, rt: &R, shared: &Shared, key: usize) {
        for at in 0..self.links_of(key) {
            self.renew(key, at);
            if let Some(outlet) = self.outlet(key, at) {
                self.send_all(rt, shared, key, outlet);
            }
        }
        if self.is_window_due(key) {
            let _ = self.driver.perform(key, Op::Refresh { echo: false });
        }
    }

    fn links_of(&self, key: usize) -> usize {
        match self.driver.slots().get(key) {
            Some(slot) => slot.handler().links.len(),
            None => 0,
        }
    }

    /// Grants the credit of a link on which we receive, if half of it or less is left.
    fn renew(&mut self, key: usize, at: usize) {
        if let Some((link, credit)) = self.credit_due(key, at) {
            let _ = self.driver.perform(
                key,
                Op::Grant {
                    link,
                    credit,
                    drain: false,
                    echo: false,
                },
            );
        }
    }

    fn credit_due(&self, key: usize, at: usize) -> Option<(u32, u32)> {
        let slot = self.driver.slots().get(key)?;
        let linked = slot.handler().links.get(at)?;
        if linked.is_gone || linked.role == Role::Sender || is_behind(slot.unsent()) {
            return None;
        }
        let found = slot.conn().logged().endpoint().link_of(linked.link)?;
        let incoming = Incoming {
            credit: found.credit(),
            ready: 0,
            begun: 0,
        };
        let credit = credit_to_grant(u64::MAX, incoming, self.settings.credit, Renewal::AtHalf)?;
        Some((linked.link, credit))
    }

    /// The window is announced again, also while a message is on its way (part 2, 2.5.6).
    fn is_window_due(&self, key: usize) -> bool {
        match self.driver.slots().get(key) {
            Some(slot) => {
                let windows = slot.conn().logged().endpoint().windows();
                is_window_due(windows.incoming, WINDOW) && !is_behind(slot.unsent())
            }
            None => false,
        }
    }

    /// Returns how messages go out on the link at this place, or `None` if none do.
    fn outlet(&self, key: usize, at: usize) -> Option<Outlet> {
        let slot = self.driver.slots().get(key)?;
        let peer = slot.handler();
        outlet_on(slot.conn(), peer.number, peer.links.get(at)?)
    }

    fn is_behind(&self, key: usize) -> bool {
        match self.driver.slots().get(key) {
            Some(slot) => is_behind(slot.unsent()),
            None => true,
        }
    }

    /// Sends what waits for a link, as its credit and the peer's window allow, while the peer is not behind. What these leave goes in a later turn.
    /// If the peer wants the
    /// credit used up and nothing waits, what is left of it is given up (part 2, 2.6.7).
    fn send_all<R: Wait>(&mut self, rt: &R, shared: &Shared, key: usize, outlet: Outlet) {
        let mut outlet = outlet;
        for _ in 0..u64::MAX {
            if self.is_behind(key) || !self.send_one(rt, shared, key, outlet) {
                break;
            }
            outlet.copied = self.copied(key, outlet);
        }
        let is_draining = match self.driver.slots().get(key) {
            Some(slot) => is_draining(slot.conn(), outlet.link),
            None => false,
        };
        if is_draining && !waits(rt, shared, outlet) {
            let _ = self.driver.perform(key, Op::Drained { link: outlet.link });
        }
    }

    /// Returns how many messages of the queue were copied to the link of an outlet by now.
    fn copied(&self, key: usize, outlet: Outlet) -> Option<usize> {
        let slot = self.driver.slots().get(key)?;
        for linked in slot.handler().links.as_slice() {
            if linked.link == outlet.link && !linked.is_gone {
                return linked.copied;
            }
        }
        None
    }

    /// Sends a transfer more on a link, and returns whether it did.
    fn send_one<R: Wait>(&mut self, rt: &R, shared: &Shared, key: usize, outlet: Outlet) -> bool {
        let Some(slot) = self.driver.slots().get(key) else {
            return false;
        };
        match due_on(slot.conn(), outlet.link) {
            Due::Rest(id, went) => match further(outlet, slot.handler().sent_as(id), went) {
                Some(op) => matches!(self.driver.perform(key, op), Some(Ok(()))),
                None => false,
            },
            Due::Message => self.send_next(rt, shared, key, outlet),
            Due::Nothing => false,
        }
    }

    /// Begins the first message of a link's queue, and returns whether it did.
    fn send_next<R: Wait>(&mut self, rt: &R, shared: &Shared, key: usize, outlet: Outlet) -> bool {
        let Some(peer) = self.driver.handler_mut(key) else {
            return false;
        };
        if !fetch(rt, shared, self.settings.alloc, peer, outlet) {
            return false;
        }
        let id = match first(outlet, self.tags, peer.sent.back()) {
            Some(op) => self.start(key, op),
            None => None,
        };
        if let Some(peer) = self.driver.handler_mut(key) {
            note_begun(rt, shared, peer, id);
        }
        id.is_some()
    }

    /// Sends the first transfer of a message, and returns its id.
    fn start(&mut self, key: usize, op: Op) -> Option<u32> {
        if !matches!(self.driver.perform(key, op), Some(Ok(()))) {
            return None;
        }
        self.tags = self.tags.wrapping_add(1);
        match self.driver.slots().get(key)?.conn().given() {
            Some(Given::Delivery(id)) => Some(*id),
            _ => None,
        }
    }

    /// Takes what is left of connections that have ended.
    fn end_all<R: Wait + Eprint>(&mut self, rt: &R, shared: &Shared) {
        for _ in 0..u64::MAX {
            match self.driver.take_ended() {
                Some(mut ended) => {
                    self.has_put |= take_leave(rt, shared, &mut ended);
                    drop(ended);
                }
                None => break,
            }
        }
    }
}

fn connection(alloc: Global) -> Option<Conn> {
    let Ok(name) = Text::new(alloc, "amqp_peer") else {
        return None;
    };
    let mut config = Config::new(name);
    config.max_frame = MAX_FRAME;
    config.window = WINDOW;
    match Conn::new(alloc, config) {
        Ok(conn) => Some(conn),
        Err(_) => None,
    }
}

fn peer(settings: Settings, number: u64, from: SocketAddr, greeting: Greeting) -> Peer {
    let trace = match settings.trace {
        Some(look) => Some(Trace::new(settings.alloc, number, look, MAX_FRAME)),
        None => None,
    };
    Peer::new(settings.alloc, number, from, greeting, trace)
}

/// Deletes a queue that was made for a link that was not answered.
fn unmake<R: Wait>(rt: &R, shared: &Shared, node: Node) {
    if let Node::Temporary(temporary) = node {
        shared.store.lock(rt).delete(temporary);
    }
}

/// Returns the disposition that sends the outcome of a message that came, or `None` if it came settled.
fn outcome_op(alloc: Global, stored: Stored) -> Option<Op> {
    let outcome = outcome_for(stored.receipt, stored.is_settled)?;
    let reason = match stored.receipt {
        Receipt::Unroutable(reason) => Some(reason),
        Receipt::Stored | Receipt::NoRoom => None,
    };
    let state = state_of(alloc, outcome, reason);
    Some(settling(Role::Receiver, stored.id, Some(state)))
}

fn settling(role: Role, id: u32, state: Option<DeliveryState>) -> Op {
    Op::Dispose {
        role,
        first: id,
        last: id,
        settled: true,
        state,
    }
}

/// Returns the first transfer of a message that is to be sent.
fn first(outlet: Outlet, tags: u64, one: Option<&Sending>) -> Option<Op> {
    let tag = Tag::new(&tags.to_be_bytes())?;
    first_transfer(outlet.link, outlet.part, tag, one?).ok()
}

/// Returns the next transfer of the message that is being sent on a link, of which so many octets went. It is not sent to its end if the peer has
/// decided about it already
/// (part 2, 2.7.5).
fn further(outlet: Outlet, one: Option<&Sending>, went: u128) -> Option<Op> {
    let link = outlet.link;
    let Some(one) = one else {
        return Some(Op::Abort { link });
    };
    let went = usize::try_from(went).ok()?;
    next_transfer(link, outlet.part, went, one).ok()
}

/// Puts the next message for a link behind those that were sent, if one waits. It has not begun. Room is made before the message is out of its
/// queue, so that none is lost if
/// memory runs out.
fn fetch<R: Wait>(rt: &R, shared: &Shared, alloc: Global, peer: &mut Peer, outlet: Outlet) -> bool {
    if peer.sent.reserve(1).is_err() {
        return false;
    }
    let Some(message) = next_message(rt, shared, outlet) else {
        return false;
    };
    match with_failures(alloc, &message.payload, message.delivery_count) {
        Ok(octets) => peer
            .sent
            .push_back(Sending {
                link: outlet.link,
                id: 0,
                place: outlet.place,
                is_copy: outlet.copied.is_some(),
                message,
                octets,
            })
            .is_ok(),
        Err(_) => {
            if outlet.copied.is_none() {
                let _: bool = shared.store.lock(rt).queues.put_back(outlet.place, message);
            }
            false
        }
    }
}

/// Notes that the last of what was sent has begun under this id; or that it has not, and goes back to its queue.
fn note_begun<R: Wait>(rt: &R, shared: &Shared, peer: &mut Peer, id: Option<u32>) {
    match id {
        Some(id) => {
            if let Some(one) = peer.sent.back_mut() {
                one.id = id;
            }
            peer.count_copy();
        }
        None => {
            if let Some(one) = peer.sent.pop_back() {
                let _ = put_back(rt, shared, one);
            }
        }
    }
}

/// Puts a message that could not begin back into its queue. It is lost if memory runs out.
fn put_back<R: Wait>(rt: &R, shared: &Shared, one: Sending) -> bool {
    if one.is_copy {
        drop(one);
        return true;
    }
    let Sending { place, message, .. } = one;
    shared.store.lock(rt).queues.put_back(place, message)
}

/// Takes what is left of a connection that has ended: what was sent to it without an outcome goes back. Returns whether anything went to a queue.
fn take_leave<R: Wait + Eprint>(rt: &R, shared: &Shared, ended: &mut Ended<Socket, Peer>) -> bool {
    note_all_left(&mut ended.conn, &mut ended.handler);
    print_ended(rt, shared, &mut ended.handler, &ended.conn, ended.fault);
    shared.store.lock(rt).totals.end(ended.fault.is_some());
    give_all_back(rt, shared, &mut ended.handler)
}

/// Notes what a connection left when it ended.
fn note_all_left(conn: &mut Conn, peer: &mut Peer) {
    for _ in 0..u64::MAX {
        match conn.pop_left() {
            Ok(Some(left)) => peer.note_left(left),
            _ => break,
        }
    }
}

/// Gives back what was sent to a peer that is gone, and deletes its queues. Returns whether anything went to a queue.
fn give_all_back<R: Wait>(rt: &R, shared: &Shared, peer: &mut Peer) -> bool {
    // Messages are lost if memory runs out.
    let _: bool = peer.give_back(None);
    let comes_back = take_back(rt, shared, peer);
    let has_put = store_late(rt, shared, peer);
    for linked in peer.links.as_mut_slice() {
        linked.is_gone = true;
    }
    delete_gone(rt, shared, peer);
    comes_back || has_put
}

/// Puts what came settled with the end of its connection into its queue, and returns whether there was any.
fn store_late<R: Wait>(rt: &R, shared: &Shared, peer: &mut Peer) -> bool {
    let mut has_put = false;
    for _ in 0..u64::MAX {
        match store_next(rt, shared, peer, true) {
            Some(stored) => has_put |= stored.receipt == Receipt::Stored,
            None => break,
        }
    }
    has_put
}
