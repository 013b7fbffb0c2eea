//! The state of a connection without its unread octets, and what a whole frame does to it (part 2, 2.4).
ghost use Rattle.std.specs.Prelude.{◌≡◌, ◌≢◌, ◌⊎◌, [], Some, None, Ok, Err, OnOk, OnErr, IfOk, IfErr, IfSome, IsSome, MatchResult, slice_get, length, option_map, true, false};
ghost use Rattle.amqp_rules.specs.Refusing.{no_memory};
ghost use Rattle.amqp_rules.specs.ViolationAnswer.{violation_answer, error_of};
ghost use Rattle.amqp_frames.specs.Measuring.{IsMeasureOf};
ghost use Rattle.amqp_rules.specs.Limits.{IsWithinLimits};
ghost use Rattle.amqp_rules.specs.Sending.{octets_of};
ghost use Rattle.amqp_journal.specs.Log.{IsRefusal, heard_due, popping, forgetting};
ghost use Rattle.amqp_journal.specs.Units.{units, waiting};
ghost use Rattle.amqp_conn.specs.Calling.{IsFit, IsStartFault, Does, Performs, Closes, peer_max};
ghost use Rattle.amqp_conn.specs.Octets.{open_frame, close_frame, condition, last_words, session_of, new_core};
ghost use Rattle.amqp_conn.specs.Connection.{in_phase, met, parted, sending};
ghost use Rattle.amqp_conn.specs.Leaving.{is_ungathered, gathering};
ghost use Rattle.amqp_conn.specs.Treating.{taken, greeted, sending_last, fault_of, run, await_open, await_close, hearing, answering};
ghost use Rattle.amqp_conn.specs.Saying.{close_in};
ghost use Rattle.amqp_conn.specs.Treats.{Treats, TreatsAs, IsMet, EndsWith};
ghost use Rattle.amqp_conn.specs.Kinds.{on_channel, closed_by};

use crate::config::Config;
use crate::fault::ConnFault;
use crate::fed::Fed;
use crate::phase::Phase;
use crate::refused::{CloseRefusal, StartFault};
use crate::saying::{Kind, close_in, kind_of, open_in};
use crate::writing::{HEADER, close_octets, last_close, measure_ours, open_octets, plain_close};
use amqp_frames::{AmqpError, CloseBody, Frame, FrameRefusal, Measured, OpenBody, Performative};
use amqp_journal::logged::Logged;
use amqp_journal::unit::Unit;
use amqp_rules::op::Op;
use amqp_rules::refusal::Refusal;
use amqp_rules::reply::Given;
use amqp_rules::violation::{Violation, ViolationKind};
use amqp_types::Boxed;
use bytes::Bytes;
use std::alloc::{AllocError, Global};
use std::marker::Model;
use std::mem;

/// The state that whole frames and the application's calls drive.
#[derive(Drop)]
pub struct Machine {
    alloc: Global,
    config: Config,
    /// The octets of our open, written when the connection is created.
    opening: Bytes,
    phase: Phase,
    pub logged: Logged,
    /// Whether the links that remained at the end have left their items.
    gathered: bool,
    /// The peer's open, once it was received.
    pub peer: Option<Boxed<OpenBody>>,
    /// The peer's close, once it was received.
    pub parting: Option<CloseBody>,
}

impl Model for Machine {
    ghost use Rattle.std.specs.Prelude.{◌≡◌};
    ghost use Rattle.amqp_rules.specs.Sending.{octets_of};
    ghost use Rattle.amqp_conn.specs.Connection.{Core};
    ghost use Rattle.amqp_conn.specs.Octets.{open_frame};
    ghost use Rattle.amqp_types.specs.contracts.value.Value as value;
    ghost use Rattle.std.specs.Coded.{codes};

    ghost Value = { Core };

    ghost coded = { Prim.hlevel (codes, value.the_row.coded) };

    ghost view = { λ c. record { config = c.config; phase = c.phase; log = c.logged; gathered = c.gathered; peer = c.peer; parting = c.parting } };

    ghost invariant = { λ c. c.opening ≡ octets_of (open_frame c.config) };
}

/// Returns the result of a feed that used octets and did nothing else.
pub fn nothing(used: usize) -> Fed
    ensures { result ≡ record { used = used; stepped = false; given = Given.Nothing; violation = None } }
{
    Fed {
        used,
        stepped: false,
        given: Given::Nothing,
        violation: None,
    }
}

fn fault_of(kind: ViolationKind) -> ConnFault
    ensures { result ≡ fault_of kind }
{
    match kind {
        ViolationKind::JournalFull => ConnFault::JournalFull,
        ViolationKind::OutOfSession
        | ViolationKind::BadHandle
        | ViolationKind::HandleTaken
        | ViolationKind::NameTaken
        | ViolationKind::CountAhead
        | ViolationKind::Window
        | ViolationKind::MissingField
        | ViolationKind::IdOrder
        | ViolationKind::TagHeld
        | ViolationKind::Mode
        | ViolationKind::Credit
        | ViolationKind::TooLong
        | ViolationKind::BadRange
        | ViolationKind::NoMemory => ConnFault::OutOfPlace,
    }
}

#[tactic(auto, unfolding(crate::specs::Calling::peer_max))]
fn peer_max(logged: &Logged) -> u32
    ensures { result ≡ peer_max logged.now }
{
    logged.peer_max_frame()
}

/// Returns the frame in the slot, and leaves an empty one.
#[inline(always)]
fn taken_out(slot: &mut Frame) -> Frame
    ensures { result ≡ slot.old }
{
    mem::replace(slot, Frame::empty())
}

fn start(alloc: Global, config: Config, measured: Measured) -> Result<Machine, AllocError>
    requires limits { IsWithinLimits (session_of config) }
    requires measure { IsMeasureOf (open_frame config) measured }
    ensures { IfOk result (λ machine. machine ≡ new_core config) }
{
    let opening = open_octets(alloc, &config, measured)?;
    let mut logged = Logged::new(alloc, &config.session());
    logged.put_unit(Bytes::from_static(&HEADER))?;
    Ok(Machine {
        alloc,
        config,
        opening,
        phase: Phase::AwaitHeader,
        logged,
        gathered: false,
        peer: None,
        parting: None,
    })
}

impl Machine {
    /// Creates the state of a new connection, with our header queued.
    ///
    /// # Errors
    ///
    /// [`StartFault::BadConfig`] if the settings do not fit, else [`StartFault::NoMemory`] if memory runs out.
    pub fn new(alloc: Global, config: Config) -> Result<Machine, StartFault>
        ensures { MatchResult result (λ machine. IsFit config × (machine ≡ new_core config)) (λ e. IsStartFault e config) }
    {
        if !config.is_within_limits() {
            return Err(StartFault::BadConfig);
        }
        let (config, measured) = match measure_ours(config) {
            Ok(both) => both,
            Err(_) => return Err(StartFault::BadConfig),
        };
        match start(alloc, config, measured) {
            Ok(machine) => Ok(machine),
            Err(_) => Err(StartFault::NoMemory),
        }
    }

    /// Does an operation.
    ///
    /// # Errors
    ///
    /// [`Refusal::NotRunning`] unless the phase is `Running`; else the session's refusal. Nothing has changed then.
    pub fn apply(&mut self, op: &Op) -> Result<Given, Refusal>
        ensures { Does self.old op.now result self.new }
    {
        match self.phase {
            Phase::Running => self.logged.apply(op),
            Phase::AwaitHeader | Phase::AwaitOpen | Phase::Closing | Phase::Closed => {
                Err(Refusal::NotRunning)
            }
        }
    }

    /// Does an operation and moves it into its journal entry, which has what it gave.
    ///
    /// # Errors
    ///
    /// [`Refusal::NotRunning`] unless the phase is `Running`; else the session's refusal. Nothing has changed then.
    pub fn perform(&mut self, op: Op) -> Result<(), Refusal>
        ensures { Performs self.old op result self.new }
    {
        match self.phase {
            Phase::Running => self.logged.perform(op),
            Phase::AwaitHeader | Phase::AwaitOpen | Phase::Closing | Phase::Closed => {
                drop(op);
                Err(Refusal::NotRunning)
            }
        }
    }

    /// Queues our close.
    ///
    /// # Errors
    ///
    /// A [`CloseRefusal`], `NotOpen` unless the phase is `Running`. Nothing has changed then.
    pub fn close(&mut self, error: Option<Boxed<AmqpError>>) -> Result<(), CloseRefusal>
        ensures { Closes self.old error result self.new }
    {
        match self.phase {
            Phase::Running => self.put_our_close(error),
            Phase::AwaitHeader | Phase::AwaitOpen | Phase::Closing | Phase::Closed => {
                Err(CloseRefusal::NotOpen)
            }
        }
    }

    fn put_our_close(&mut self, error: Option<Boxed<AmqpError>>) -> Result<(), CloseRefusal>
        requires { self.old.phase ≡ Phase.Running }
        ensures { Closes self.old error result self.new }
    {
        match close_octets(self.alloc, error, peer_max(&self.logged)) {
            Ok(octets) => match self.logged.put_unit(octets) {
                Ok(()) => {
                    self.phase = Phase::Closing;
                    Ok(())
                }
                Err(_) => Err(CloseRefusal::NoMemory),
            },
            Err(FrameRefusal::NotWritable) => Err(CloseRefusal::NotWritable),
            Err(FrameRefusal::FrameTooBig) => Err(CloseRefusal::FrameTooBig),
            Err(FrameRefusal::NoMemory) => Err(CloseRefusal::NoMemory),
        }
    }

    /// Forgets the journal's entries so far.
    pub fn forget(&mut self)
        ensures { self.new ≡ record self.old { log = forgetting self.old.log } }
    {
        self.logged.forget();
    }

    /// Removes and returns the first unit that waits to be written.
    pub fn pop_unit(&mut self) -> Option<Unit>
        ensures some { IfSome result (λ unit. (unit.number ≡ self.old.log.popped) × (slice_get (units self.old.log) self.old.log.popped ≡ Some unit.bytes) × (self.new ≡ record self.old { log = popping self.old.log })) }
        ensures none { result ≡ None → (waiting self.old.log ≡ []) × (self.new ≡ self.old) }
    {
        self.logged.pop_unit()
    }

    fn is_ungathered(&self) -> bool
        ensures { result ≡ is_ungathered self.now }
    {
        match self.phase {
            Phase::Closing | Phase::Closed => !self.gathered,
            Phase::AwaitHeader | Phase::AwaitOpen | Phase::Running => false,
        }
    }

    /// Lets the remaining links leave their items, once, if no step is done any more.
    ///
    /// # Errors
    ///
    /// [`AllocError`] if memory runs out; nothing has changed then.
    pub fn gather(&mut self) -> Result<(), AllocError>
        ensures ok { OnOk result (self.new ≡ gathering self.old) }
        ensures err { OnErr result (self.new ≡ self.old) }
    {
        if !self.is_ungathered() {
            return Ok(());
        }
        self.logged.leave()?;
        self.gathered = true;
        Ok(())
    }

    /// Returns the phase of the connection.
    pub fn phase(&self) -> Phase
        ensures { result ≡ self.now.phase }
    {
        self.phase
    }

    /// Returns the length of the longest frame that we accept, in octets.
    pub fn max_frame(&self) -> u32
        ensures { result ≡ self.now.config.max_frame }
    {
        self.config.max_frame
    }

    /// Returns the session with its journal.
    pub fn logged(&self) -> &Logged
        ensures { result.now ≡ self.now.log }
    {
        &self.logged
    }

    /// Ends the connection without a close, because its octets ended or are not the header.
    pub fn lose(&mut self)
        ensures { self.new ≡ in_phase Phase.Closed self.old }
    {
        self.phase = Phase::Closed;
    }

    /// Queues our open, because the peer's header was read.
    ///
    /// # Errors
    ///
    /// [`AllocError`] if memory runs out; nothing has changed then.
    pub fn greet(&mut self) -> Result<(), AllocError>
        ensures ok { OnOk result (self.new ≡ greeted self.old) }
        ensures err { OnErr result (self.new ≡ self.old) }
    {
        let octets = self.opening.clone()?;
        self.logged.put_unit(octets)?;
        self.phase = Phase::AwaitOpen;
        Ok(())
    }

    #[tactic(auto, unfolding(crate::specs::Treating::treat))]
    /// Does what a whole frame does, and keeps the bodies of an open and a close. Takes a frame that is kept out of its
    /// slot.
    ///
    /// # Errors
    ///
    /// The [`ConnFault`] that ends the connection, or [`ConnFault::NoMemory`] if memory runs out; nothing has changed
    /// in the state then.
    #[inline(always)]
    pub fn treat(&mut self, used: usize, slot: &mut Frame) -> Result<Fed, ConnFault>
        ensures { Treats self.old slot.old used result self.new }
    {
        match self.phase {
            Phase::AwaitHeader | Phase::Closed => Ok(nothing(used)),
            Phase::AwaitOpen => self.await_open(used, slot),
            Phase::Running => self.run(used, slot),
            Phase::Closing => Ok(self.await_close(used, slot)),
        }
    }

    fn await_open(&mut self, used: usize, slot: &mut Frame) -> Result<Fed, ConnFault>
        requires { self.old.phase ≡ Phase.AwaitOpen }
        ensures { TreatsAs (await_open self.old slot.old.channel slot.old.body) self.old slot.old used result self.new }
    {
        match &slot.body {
            None => Ok(nothing(used)),
            Some(Performative::Open(body)) => {
                if slot.channel != 0 {
                    return Err(self.end(ConnFault::BadChannel));
                }
                let told = body.get().max_frame_size.unwrap_or(4294967295).max(512);
                match self.logged.opened(told) {
                    Ok(()) => {
                        self.phase = Phase::Running;
                        self.peer = open_in(taken_out(slot));
                        Ok(Fed {
                            used,
                            stepped: true,
                            given: Given::Nothing,
                            violation: None,
                        })
                    }
                    Err(_) => Err(ConnFault::NoMemory),
                }
            }
            Some(_) => Err(self.end(ConnFault::OutOfPlace)),
        }
    }

    fn await_close(&mut self, used: usize, slot: &mut Frame) -> Fed
        requires { self.old.phase ≡ Phase.Closing }
        ensures { TreatsAs (await_close self.old slot.old.body) self.old slot.old used (Ok result) self.new }
    {
        if let Some(Performative::Close(_)) = &slot.body {
            self.phase = Phase::Closed;
            self.parting = close_in(taken_out(slot));
            return nothing(used);
        }
        nothing(used)
    }

    #[inline(always)]
    fn run(&mut self, used: usize, slot: &mut Frame) -> Result<Fed, ConnFault>
        requires { self.old.phase ≡ Phase.Running }
        ensures { TreatsAs (run self.old slot.old slot.old.body) self.old slot.old used result self.new }
    {
        match kind_of(&slot.body) {
            Kind::Empty => Ok(nothing(used)),
            Kind::Open => Err(self.end(ConnFault::OutOfPlace)),
            Kind::Close => self.hear_close(used, slot),
            Kind::Session => self.hear_on(used, slot),
        }
    }

    fn hear_close(&mut self, used: usize, slot: &mut Frame) -> Result<Fed, ConnFault>
        requires { self.old.phase ≡ Phase.Running }
        ensures { TreatsAs (on_channel slot.old.channel (taken (closed_by (close_in slot.old.body) self.old))) self.old slot.old used result self.new }
    {
        if slot.channel != 0 {
            return Err(self.end(ConnFault::BadChannel));
        }
        self.close_in_return(used, close_in(taken_out(slot)))
    }

    #[inline(never)]
    fn hear_on(&mut self, used: usize, slot: &mut Frame) -> Result<Fed, ConnFault>
        requires { self.old.phase ≡ Phase.Running }
        ensures { TreatsAs (on_channel slot.old.channel (hearing self.old slot.old (heard_due self.old.log slot.old))) self.old slot.old used result self.new }
    {
        if slot.channel != 0 {
            return Err(self.end(ConnFault::BadChannel));
        }
        match Boxed::new(self.alloc, taken_out(slot)) {
            Ok(frame) => self.hear(used, frame),
            Err(_) => Err(ConnFault::NoMemory),
        }
    }

    #[inline(always)]
    fn hear(&mut self, used: usize, frame: Boxed<Frame>) -> Result<Fed, ConnFault>
        requires { self.old.phase ≡ Phase.Running }
        ensures { TreatsAs (hearing self.old frame (heard_due self.old.log frame)) self.old frame used result self.new }
    {
        match self.logged.hear(frame) {
            Ok(given) => Ok(Fed {
                used,
                stepped: true,
                given,
                violation: None,
            }),
            Err(violation) => self.violated(violation),
        }
    }

    fn violated(&mut self, violation: Violation) -> Result<Fed, ConnFault>
        requires { self.old.phase ≡ Phase.Running }
        ensures { IsMet violation self.old result self.new }
    {
        if violation.kind == ViolationKind::NoMemory {
            return Err(ConnFault::NoMemory);
        }
        let Ok(answer) = violation.answer(self.alloc) else {
            return Err(ConnFault::NoMemory);
        };
        let Some(op) = answer else {
            return Err(self.end(fault_of(violation.kind)));
        };
        let done = self.logged.apply(&op);
        drop(op);
        match done {
            Ok(given) => Ok(Fed {
                used: 0,
                stepped: true,
                given,
                violation: Some(violation),
            }),
            Err(Refusal::NoMemory) => Err(ConnFault::NoMemory),
            Err(_) => Err(self.end(fault_of(violation.kind))),
        }
    }

    fn close_in_return(&mut self, used: usize, parting: Option<CloseBody>) -> Result<Fed, ConnFault>
        ensures ok { IfOk result (λ fed. (fed ≡ record { used = used; stepped = false; given = Given.Nothing; violation = None }) × (self.new ≡ closed_by parting self.old)) }
        ensures memory { IfErr result (λ e. e ≡ ConnFault.NoMemory) }
        ensures err { OnErr result (self.new ≡ self.old) }
    {
        let Ok(octets) = plain_close(self.alloc) else {
            return Err(ConnFault::NoMemory);
        };
        let Ok(()) = self.logged.put_unit(octets) else {
            return Err(ConnFault::NoMemory);
        };
        self.phase = Phase::Closed;
        self.parting = parting;
        Ok(nothing(used))
    }

    #[tactic(auto, unfolding(crate::specs::Treating::ending))]
    /// Ends the connection with the fault and returns it, or returns `NoMemory` if memory for the last close runs out.
    pub fn end(&mut self, fault: ConnFault) -> ConnFault
        requires open { self.old.phase ≢ Phase.Closed }
        ensures { EndsWith fault self.old result self.new }
    {
        match self.put_last(fault) {
            Ok(()) => {
                self.phase = Phase::Closed;
                fault
            }
            Err(_) => ConnFault::NoMemory,
        }
    }

    fn put_last(&mut self, fault: ConnFault) -> Result<(), AllocError>
        ensures ok { OnOk result (self.new ≡ sending_last (last_words self.old.phase fault) self.old) }
        ensures err { OnErr result (self.new ≡ self.old) }
        ensures needed { OnErr result (IsSome (last_words self.old.phase fault)) }
    {
        match self.phase {
            Phase::AwaitOpen => self.put_close(fault),
            Phase::Running => self.put_close(fault),
            Phase::AwaitHeader | Phase::Closing | Phase::Closed => Ok(()),
        }
    }

    fn put_close(&mut self, fault: ConnFault) -> Result<(), AllocError>
        ensures ok { OnOk result (self.new ≡ sending (octets_of (close_frame (error_of (condition fault)))) self.old) }
        ensures err { OnErr result (self.new ≡ self.old) }
    {
        let octets = last_close(self.alloc, fault)?;
        self.logged.put_unit(octets)
    }
}
