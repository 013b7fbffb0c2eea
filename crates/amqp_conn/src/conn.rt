//! The connection that a program drives (part 2, 2.2 and 2.4).
ghost use Rattle.std.specs.Prelude.{◌≡◌, ◌≢◌, ◌≤◌, [], Some, None, IfSome, IfOk, OnOk, OnErr, MatchResult, IsTrue, slice_get, length, option_map};
ghost use Rattle.amqp_journal.specs.Units.{units, waiting};
ghost use Rattle.amqp_laws.specs.At.{at};
ghost use Rattle.amqp_laws.specs.Past.{past};
ghost use Rattle.amqp_links.specs.Rejoining.{all_aside};
ghost use Rattle.amqp_conn.specs.Connection.{IsQuiet, connection, reads_frames, in_phase};
ghost use Rattle.amqp_conn.specs.Octets.{new_core};
ghost use Rattle.amqp_conn.specs.Feeding.{Feeds, MovesOn};
ghost use Rattle.amqp_conn.specs.Leaving.{Gives, GivesOf, left_of, but_left};
ghost use Rattle.amqp_conn.specs.Saying.{error_of_close, newest, heard_by, given_by, ended_by, detached_by};
ghost use Rattle.amqp_conn.specs.Calling.{IsFit, IsStartFault, Does, Performs, Closes, popped, forgotten};

use crate::config::Config;
use crate::fault::ConnFault;
use crate::fed::Fed;
use crate::feeding::act;
use crate::header::{fill, read_header};
use crate::phase::Phase;
use crate::refused::{CloseRefusal, StartFault};
use crate::saying::{detached_by, ended, error_of_close, given, heard};
use crate::treating::{Machine, nothing};
use amqp_frames::{AmqpError, CloseBody, Frame, Framer, Octets, OpenBody, Role};
use amqp_journal::left::Left;
use amqp_journal::logged::Logged;
use amqp_journal::unit::Unit;
use amqp_rules::op::Op;
use amqp_rules::refusal::Refusal;
use amqp_rules::reply::{Given, Suspended};
use amqp_types::Boxed;
use std::alloc::{AllocError, Global};
use std::marker::Model;

/// One end of a connection. It takes octets as they come and queues units of octets to be written; it has no socket, no
/// clock and no thread.
///
/// It keeps the octets of an unfinished frame, which are fewer than [`Config::max_frame`], in a buffer that grows with
/// them: to at most 512 bytes, or twice the octets that are kept.
pub struct Conn {
    alloc: Global,
    /// Boxed, so that moving a connection does not move a session.
    machine: Boxed<Machine>,
    /// The octets of the peer's header so far, with room for all eight.
    head: Vec<u8>,
    framer: Framer,
}

// Not derived, so that a crate that owns a connection does not prove the drops of its parts again.
impl Drop for Conn {
    fn drop(self) {
        let Conn {
            alloc: _,
            machine,
            head,
            framer,
        } = self;
        drop(machine);
        drop(head);
        drop(framer);
    }
}

impl Model for Conn {
    ghost use Rattle.std.specs.Prelude.{◌≡◌, ◌≤◌, []};
    ghost use Rattle.std.specs.Vec.{vec_capacity};
    ghost use Rattle.amqp_conn.specs.Connection.{Connection, HasRead, IsSetUp, unread_in};
    ghost use Rattle.amqp_types.specs.contracts.value.Value as value;
    ghost use Rattle.std.specs.Coded.{codes};

    ghost Value = { Connection };

    ghost coded = { Prim.hlevel (codes, value.the_row.coded) };

    ghost view = { λ c. record { core = c.machine; unread = unread_in c.machine.phase c.head.items c.framer.state.kept } };

    ghost invariant = { λ c. IsSetUp c.machine c.head.items (vec_capacity c.head) c.framer.state.max_size c.framer.state.kept };
}

impl Conn {
    /// Creates a connection whose header waits to be written. Allocates room for itself, for the eight octets of the
    /// peer's header, and for our open.
    ///
    /// # Errors
    ///
    /// [`StartFault::BadConfig`] if a setting is out of its limits ([`Config`]), or if our open would be longer than
    /// the 512 octets that every peer accepts, for example with a long container id; else [`StartFault::NoMemory`] if
    /// memory runs out.
    pub fn new(alloc: Global, config: Config) -> Result<Conn, StartFault>
        ensures { MatchResult result (λ conn. IsFit config × (conn ≡ connection (new_core config) [])) (λ e. IsStartFault e config) }
    {
        let machine = match Machine::new(alloc, config) {
            Ok(machine) => machine,
            Err(fault) => return Err(fault),
        };
        let Ok(head) = Vec::with_capacity(alloc, 8) else {
            return Err(StartFault::NoMemory);
        };
        let framer = Framer::new(alloc, machine.max_frame());
        let Ok(machine) = Boxed::new(alloc, machine) else {
            return Err(StartFault::NoMemory);
        };
        Ok(Conn {
            alloc,
            machine,
            head,
            framer,
        })
    }

    /// Does an operation of the application: adds one entry to the journal, and queues what the operation sends.
    ///
    /// Returns what the operation gave, such as the delivery that it took.
    ///
    /// # Errors
    ///
    /// [`Refusal::NotRunning`] unless the phase is [`Phase::Running`]; else the session's [`Refusal`] of the operation.
    /// A refused operation has changed nothing.
    pub fn apply(&mut self, op: &Op) -> Result<Given, Refusal>
        ensures does { Does self.old.core op.now result self.new.core }
        ensures unread { self.new.unread ≡ self.old.unread }
    {
        self.machine.boxed.apply(op)
    }

    /// Does an operation and moves it into its journal entry: unlike [`apply`](Conn::apply), it copies nothing, and
    /// [`given`](Conn::given) returns what the operation gave.
    ///
    /// # Errors
    ///
    /// [`Refusal::NotRunning`] unless the phase is [`Phase::Running`]; else the session's [`Refusal`] of the operation.
    /// A refused operation has changed nothing and is dropped; to try one again, use [`apply`](Conn::apply).
    pub fn perform(&mut self, op: Op) -> Result<(), Refusal>
        ensures performs { Performs self.old.core op result self.new.core }
        ensures unread { self.new.unread ≡ self.old.unread }
    {
        self.machine.boxed.perform(op)
    }

    /// Queues our close, with the error, and awaits the peer's close (part 2, 2.4.3). Frames that come before it are
    /// dropped.
    ///
    /// # Errors
    ///
    /// [`CloseRefusal::NotOpen`] unless the phase is [`Phase::Running`]; [`CloseRefusal::NotWritable`] if the error
    /// holds what no frame can hold; [`CloseRefusal::FrameTooBig`] if the close is longer than the peer accepts; else
    /// [`CloseRefusal::NoMemory`] if memory runs out. A refused close has changed nothing.
    pub fn close(&mut self, error: Option<Boxed<AmqpError>>) -> Result<(), CloseRefusal>
        ensures closes { Closes self.old.core error result self.new.core }
        ensures unread { self.new.unread ≡ self.old.unread }
    {
        self.machine.boxed.close(error)
    }

    /// Removes and returns the first unit that waits to be written, with its number: the octets of one frame, or our
    /// header. Does not allocate.
    pub fn pop_unit(&mut self) -> Option<Unit>
        ensures some { IfSome result (λ unit. (unit.number ≡ self.old.core.log.popped) × (slice_get (units self.old.core.log) self.old.core.log.popped ≡ Some unit.bytes) × (self.new ≡ popped self.old)) }
        ensures none { result ≡ None → (waiting self.old.core.log ≡ []) × (self.new ≡ self.old) }
    {
        self.machine.boxed.pop_unit()
    }

    /// Removes and returns the first item that links left: a delivery that was ready, or an outcome that was not
    /// learnt.
    ///
    /// A link leaves these when a detach or an end removes it. In [`Phase::Closing`] and [`Phase::Closed`], when no
    /// operation is done any more, the remaining links leave theirs too. Each item is returned once, in order. The call
    /// works in every phase, is no step, and changes nothing else that a reader shows.
    ///
    /// # Errors
    ///
    /// [`AllocError`] if memory runs out, which is possible only in [`Phase::Closing`] and [`Phase::Closed`], until one
    /// call there has succeeded; nothing has changed then.
    pub fn pop_left(&mut self) -> Result<Option<Left>, AllocError>
        ensures gives { IfOk result (λ given. Gives self.old.core given self.new.core) }
        ensures unread { self.new.unread ≡ self.old.unread }
        ensures err { OnErr result (self.new ≡ self.old) }
    {
        match self.machine.boxed.gather() {
            Ok(()) => Ok(self.machine.boxed.logged.pop_left()),
            Err(error) => Err(error),
        }
    }

    /// Removes and returns the first item that the link of this number left: a delivery of a receiver, or an outcome of
    /// a sender. [`pop_left`](Conn::pop_left) describes when links leave items. O(n) for n items that are left.
    ///
    /// # Errors
    ///
    /// [`AllocError`] if memory runs out, which is possible only in [`Phase::Closing`] and [`Phase::Closed`], until one
    /// call there has succeeded; nothing has changed then.
    pub fn pop_left_by(&mut self, role: Role, link: u32) -> Result<Option<Left>, AllocError>
        ensures gives { IfOk result (λ given. GivesOf role link self.old.core given self.new.core) }
        ensures unread { self.new.unread ≡ self.old.unread }
        ensures err { OnErr result (self.new ≡ self.old) }
    {
        match self.machine.boxed.gather() {
            Ok(()) => Ok(self.machine.boxed.logged.pop_left_by(role, link)),
            Err(error) => Err(error),
        }
    }

    /// Returns how many items [`pop_left`](Conn::pop_left) can still return.
    ///
    /// # Errors
    ///
    /// [`AllocError`] if memory runs out, which is possible only in [`Phase::Closing`] and [`Phase::Closed`], until one
    /// call there has succeeded; nothing has changed then.
    pub fn left_len(&mut self) -> Result<usize, AllocError>
        ensures len { IfOk result (λ n. n ≡ length (left_of self.old.core)) }
        ensures still { OnOk result ((left_of self.new.core ≡ left_of self.old.core) × (but_left self.new.core ≡ but_left self.old.core)) }
        ensures unread { self.new.unread ≡ self.old.unread }
        ensures err { OnErr result (self.new ≡ self.old) }
    {
        match self.machine.boxed.gather() {
            Ok(()) => Ok(self.logged().left_len()),
            Err(error) => Err(error),
        }
    }

    /// Forgets the journal's entries so far, as [`Logged::forget`] does, with the payloads that nobody else holds. The
    /// phase, the units and the unread octets stay.
    pub fn forget(&mut self)
        ensures { self.new ≡ forgotten self.old }
    {
        self.machine.boxed.forget();
    }

    /// Returns the phase of the connection.
    pub fn phase(&self) -> Phase
        ensures value { result ≡ self.now.core.phase }
        ensures quiet { IsQuiet self.now }
    {
        self.machine.get().phase()
    }

    /// Returns the session with its journal, and the units that wait to be written.
    pub fn logged(&self) -> &Logged
        ensures { result.now ≡ self.now.core.log }
    {
        self.machine.get().logged()
    }

    /// Returns the links of this role that can be rejoined, each as it would be put aside, in order: for another
    /// connection after the octets of this one ended (part 2, 2.6.13).
    ///
    /// It works in every phase, and changes nothing. A session that has ended, by either side, has no links any more.
    /// O(n · u) for n links and u unsettled deliveries of the role.
    ///
    /// # Errors
    ///
    /// [`AllocError`] if memory runs out.
    pub fn links_aside(&self, role: Role) -> Result<Vec<Suspended>, AllocError>
        ensures { IfOk result (λ v. v.items ≡ all_aside (at self.now.core.log.config (past self.now.core.log.journal)) role) }
    {
        self.logged().endpoint().links_aside(role)
    }

    /// Returns the peer's open (part 2, 2.7.1): its container id, the host that it wants, the longest frame that it
    /// accepts, its idle time-out, its properties and the rest.
    ///
    /// `None` until it is received. It stays when the connection ends, and when the journal forgets.
    pub fn peer(&self) -> Option<&OpenBody>
        ensures { option_map (λ b. b.now) result ≡ self.now.core.peer }
    {
        match &self.machine.get().peer {
            Some(body) => Some(body.get()),
            None => None,
        }
    }

    /// Returns the peer's close (part 2, 2.7.9). `None` until it is received, so also if a fault or the end of the
    /// octets ended the connection.
    pub fn parting(&self) -> Option<&CloseBody>
        ensures { option_map (λ b. b.now) result ≡ self.now.core.parting }
    {
        self.machine.get().parting.as_ref()
    }

    /// Returns why the peer closed the connection (part 2, 2.8.14): the error of its close. `None` until a close with
    /// an error is received.
    pub fn ended_by(&self) -> Option<&AmqpError>
        ensures { option_map (λ e. e.now) result ≡ error_of_close self.now.core.parting }
    {
        error_of_close(&self.machine.get().parting)
    }

    /// Returns the frame that the journal's newest entry received, until the next step or [`forget`](Conn::forget).
    ///
    /// After a feed that took a frame of the session it is that frame: [`error_of`](crate::error_of) returns the
    /// error of an end or a detach. `None` if the newest step is another, such as the answer to a violation, or if no
    /// entry is kept.
    pub fn heard(&self) -> Option<&Frame>
        ensures { option_map (λ f. f.now) result ≡ heard_by (newest self.now.core.log) }
    {
        heard(self.machine.get().logged())
    }

    /// Returns why the peer detached the link of this number (part 2, 2.8.14): the error of the detach that removed it.
    /// The items of [`pop_left`](Conn::pop_left) have the number of their link.
    ///
    /// `None` if the peer did not detach the link, if its detach has no error, or once [`forget`](Conn::forget) has
    /// removed the detach's entry. It works in every phase. O(n) for n entries that are kept.
    pub fn detached_by(&self, link: u32) -> Option<&AmqpError>
        ensures { option_map (λ e. e.now) result ≡ detached_by link self.now.core.log }
    {
        detached_by(self.machine.get().logged(), link)
    }

    /// Returns what the journal's newest entry gave, such as the delivery that an operation took, until the next step
    /// or [`forget`](Conn::forget). `None` if no entry is kept.
    pub fn given(&self) -> Option<&Given>
        ensures { option_map (λ g. g.now) result ≡ given_by (newest self.now.core.log) }
    {
        given(self.machine.get().logged())
    }

    /// Returns the deliveries that the journal's newest entry ended, by our role and id, until the next step or
    /// [`forget`](Conn::forget): those that were settled, and those that were unsettled on a link that was removed.
    pub fn ended(&self) -> &[(Role, u32)]
        ensures { result.now ≡ ended_by (newest self.now.core.log) }
    {
        ended(self.machine.get().logged())
    }

    /// Ends the connection because its octets ended: the phase is [`Phase::Closed`], and unread octets are dropped.
    /// Nothing else changes, and no close is sent.
    pub fn lost(&mut self)
        ensures { self.new ≡ connection (in_phase Phase.Closed self.old.core) [] }
    {
        self.machine.boxed.lose();
        self.framer = Framer::new(self.alloc, self.machine.get().max_frame());
    }

    /// Takes octets, at most to the end of one frame, and does what they say.
    ///
    /// If there are any octets, it uses at least one, or it makes the step that answers a violation; then the next
    /// feed reads the frame again. It copies what it keeps of an unfinished frame. A transfer's payload that lies
    /// whole in shared octets is a slice of them, which keeps all of them alive until the delivery's entry is
    /// forgotten; a payload in lent octets is copied once.
    ///
    /// # Errors
    ///
    /// A [`ConnFault`]. The first five end the connection. [`ConnFault::Closed`] is returned if it had ended before,
    /// and [`ConnFault::NoMemory`] if memory runs out; nothing has changed then, and the octets can be fed again.
    pub fn feed(&mut self, octets: &Octets<'_>) -> Result<Fed, ConnFault>
        ensures fed { Feeds self.old octets.now result self.new }
        ensures progress { octets.now ≢ [] → MovesOn result }
    {
        match self.phase() {
            Phase::Closed => Err(ConnFault::Closed),
            Phase::AwaitHeader => self.feed_header(octets.as_slice()),
            Phase::AwaitOpen | Phase::Running | Phase::Closing => self.feed_frames(octets),
        }
    }

    fn feed_header(&mut self, piece: &[u8]) -> Result<Fed, ConnFault>
        requires { self.old.core.phase ≡ Phase.AwaitHeader }
        ensures fed { Feeds self.old piece.now result self.new }
        ensures progress { piece.now ≢ [] → MovesOn result }
    {
        let count = self.head.as_slice().len();
        let missing = 8 - count;
        if piece.len() < missing {
            fill(&mut self.head, piece);
            return Ok(nothing(piece.len()));
        }
        fill(&mut self.head, &piece[..missing]);
        read_header(&mut self.machine, &mut self.head, count, missing)
    }

    #[inline(always)]
    fn feed_frames(&mut self, octets: &Octets<'_>) -> Result<Fed, ConnFault>
        requires { IsTrue (reads_frames self.old.core.phase) }
        ensures fed { Feeds self.old octets.now result self.new }
        ensures progress { octets.now ≢ [] → MovesOn result }
    {
        let mut slot = Frame::empty();
        let answer = self.framer.feed_into(octets, &mut slot);
        act(
            self.alloc,
            &mut self.machine,
            &mut self.framer,
            answer,
            &mut slot,
        )
    }
}
