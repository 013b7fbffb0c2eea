//! An endpoint with the journal of its steps and the units that wait.
ghost use Rattle.std.specs.Prelude.{ℕ, List, ◌≡◌, ◌≢◌, ◌<◌, ◌≤◌, ◌^◌, ◌⊎◌, ◌+◌, ◌-◌, ◌++◌, ◌∷◌, ◌↔◌, length, [], drop, take, find, remove, map, min, sum_by, vec_len, vec_capacity, option_to_list, Option, Some, None, Ok, IsTrue, IfErr, IfSome, IfNone, OnOk, OnErr, IfOk, slice_get};
ghost use Rattle.std.specs.VecDeque.{deque_len, deque_capacity};
ghost use Rattle.amqp_rules.specs.declared.config.Config.{Config};
ghost use Rattle.amqp_rules.specs.Limits.{IsWithinLimits};
ghost use Rattle.amqp_rules.specs.Refusing.{no_memory};
ghost use Rattle.amqp_rules.specs.Opened.{no_reply};
ghost use Rattle.amqp_rules.specs.View.{remove_first};
ghost use Rattle.amqp_steps.specs.Plan.{IsRefused};
ghost use Rattle.amqp_endpoint.specs.Left.{left_by_own, left_by_heard};
ghost use Rattle.amqp_rules.specs.Answer.{own_answer, heard_answer};
ghost use Rattle.amqp_laws.specs.Past.{past};
ghost use Rattle.amqp_laws.specs.At.{at};
ghost use Rattle.amqp_laws.specs.Lawful.{IsLawful, NeverWithoutCredit};
ghost use Rattle.amqp_laws.specs.DeliveryLaws.{AreLeft, NeverTwice, SendsSerials};
ghost use Rattle.amqp_laws.specs.declared.entry.Step.TheVariants as step;
ghost use Rattle.amqp_journal.specs.Log.{Log, Appends, Extends, IsRefusal, opened_due, own_due, heard_due, new_log, logging, putting, popping, forgetting, leaving, is_left_by};
ghost use Rattle.amqp_journal.specs.Kept.{IsCounted};
ghost use Rattle.amqp_journal.specs.Units.{units, waiting, Stands, PutWithin, given_link, given_id};

use crate::receipt::{Receipt, id_of, link_of};
use crate::unit::Unit;
use amqp_endpoint::done::Done;
use amqp_endpoint::endpoint::Endpoint;
use amqp_endpoint::left::Left;
use amqp_frames::{Frame, Role};
use amqp_history::history::History;
use amqp_laws::entry::{Entry, Step};
use amqp_laws::laws::laws;
use amqp_rules::config::Config;
use amqp_rules::op::Op;
use amqp_rules::refusal::Refusal;
use amqp_rules::reply::{Given, Reply};
use amqp_rules::sliced::Sliced;
use amqp_rules::violation::{Violation, ViolationKind};
use amqp_types::{Boxed, Items};
use bytes::Bytes;
use std::alloc::{AllocError, Global};
use std::collections::VecDeque;
use std::marker::Model;

/// An endpoint with the journal of its steps, and the units that wait to go out.
///
/// The journal is lawful: each entry has the reply that is due after the entries before it; and the endpoint is what the journal makes it.
/// So it is of the whole journal, whether its older entries are kept or forgotten (`forget`).
/// The units that wait are those of the journal, with what was put among them, without those that were popped.
///
/// What a step would lose of a link that it makes gone stays to be popped: deliveries that were ready, and outcomes that were told.
pub struct Logged {
    config: Config,
    endpoint: Endpoint,
    /// The entries that were forgotten, for proofs alone.
    gone: History<Entry>,
    /// Those that came after.
    journal: Vec<Entry>,
    /// What was put, each with the number of entries before it.
    put: Vec<(u64, Bytes)>,
    waiting: VecDeque<Sliced>,
    /// How many octets wait.
    octets: u128,
    popped: u64,
    /// What links left that are gone.
    left: VecDeque<Left>,
}

// By hand, so that a crate that owns one does not prove its parts' drops again.
impl Drop for Logged {
    fn drop(self) {
        let Logged {
            config: _,
            endpoint,
            gone,
            journal,
            put,
            waiting,
            octets: _,
            popped: _,
            left,
        } = self;
        drop(endpoint);
        drop(gone);
        drop(journal);
        drop(put);
        drop(waiting);
        drop(left);
    }
}

impl Model for Logged {
    ghost use Rattle.std.specs.Prelude.{◌++◌, length};
    ghost use Rattle.amqp_journal.specs.Log.{Log};
    ghost use Rattle.amqp_journal.specs.Kept.{IsKept, IsCounted};
    ghost use Rattle.amqp_types.specs.contracts.value.Value as value;
    ghost use Rattle.std.specs.Coded.{codes};

    ghost Value = { Log };

    ghost coded = { Prim.hlevel (codes, value.the_row.coded) };

    ghost view = { λ l. record { config = l.config; journal = l.gone.items ++ l.journal.items; forgotten = length l.gone.items; put = l.put.items; popped = l.popped; left = l.left.items } };

    ghost invariant = { λ l. IsKept (record { config = l.config; journal = l.gone.items ++ l.journal.items; forgotten = length l.gone.items; put = l.put.items; popped = l.popped; left = l.left.items }) l.endpoint l.waiting.items × IsCounted l.octets l.waiting.items };
}

impl Logged {
    /// An endpoint with an empty journal. It asks for no memory.
    pub fn new(alloc: Global, config: &Config) -> Logged
        requires { IsWithinLimits config.now }
        ensures { result ≡ new_log config.now }
    {
        laws();
        Logged {
            config: *config,
            endpoint: Endpoint::new(alloc, config),
            gone: History::new(),
            journal: Vec::new(alloc),
            put: Vec::new(alloc),
            waiting: VecDeque::new(alloc),
            octets: 0,
            popped: 0,
            left: VecDeque::new(alloc),
        }
    }

    /// The steps that were accepted since the last `forget`, with their replies, the oldest first. The laws are
    /// said of the whole journal, what was forgotten included.
    ///
    /// Each has the reply that is due after those before it. No delivery begins without credit, at either end (part 2, 2.6.7); the i-th first
    /// transfer that is sent has the i-th serial number from the configured first one on (part 2, 2.8.9); no delivery is named twice as
    /// ended; and the unsettled deliveries are those that began unsettled, less those that were named.
    pub fn journal(&self) -> &[Entry]
        ensures value { result.now ≡ drop self.now.forgotten self.now.journal }
        ensures forgotten { self.now.forgotten ≤ length self.now.journal }
        ensures lawful { IsLawful self.now.config (past self.now.journal) }
        ensures credit { NeverWithoutCredit self.now.config self.now.journal }
        ensures serials { SendsSerials self.now.config.first_id self.now.journal }
        ensures twice { NeverTwice self.now.journal }
        ensures left { AreLeft self.now.config self.now.journal }
    {
        laws();
        self.journal.as_slice()
    }

    /// Forgets the entries so far: `journal` gives those that come after, and no earlier receipt stands. All else
    /// stays, units and steps with their numbers, and the laws of the whole journal.
    ///
    /// It takes no memory and cannot fail. What the entries own is given back; their places serve later ones. It
    /// costs what dropping them does, so whoever forgets each time that so many stand pays no more for a step.
    pub fn forget(&mut self)
        ensures { self.new ≡ forgetting self.old }
    {
        self.gone = self.gone.and(&self.journal);
        self.journal.clear();
    }

    /// How many steps were accepted, those that were forgotten too.
    pub fn steps(&self) -> u32
        ensures { result ≡ length self.now.journal }
    {
        self.endpoint.steps()
    }

    /// How many steps more it takes: each that was accepted counts against the limit, also where it was forgotten. At 0 all is refused, so a busy program
    /// goes on with its links over another connection before.
    pub fn steps_left(&self) -> u32
        ensures { result ≡ self.now.config.journal_limit - length self.now.journal }
    {
        self.config
            .journal_limit
            .saturating_sub(self.endpoint.steps())
    }

    /// The endpoint, as it stands.
    pub fn endpoint(&self) -> &Endpoint
        ensures { result.now ≡ at self.now.config (past self.now.journal) }
    {
        &self.endpoint
    }

    /// The step Opened: the peer takes frames of so many octets (part 2, 2.7.1). It is refused where the journal is full, and for want of memory.
    pub fn opened(&mut self, max: u32) -> Result<(), Refusal>
        ensures step { OnOk result (self.new ≡ logging self.old (step.Opened max) no_reply) }
        ensures refusal { IfErr result (IsRefusal Refusal.NoMemory (opened_due self.old)) }
        ensures err { OnErr result (self.new ≡ self.old) }
    {
        if self.endpoint.steps() >= self.config.journal_limit {
            return Err(Refusal::JournalFull);
        }
        let Ok(()) = self.journal.reserve(1) else {
            return Err(Refusal::NoMemory);
        };
        laws();
        self.endpoint.opened(max);
        let reply = Reply {
            sent: Items::new(*self.journal.allocator()),
            ended: Items::new(*self.journal.allocator()),
            given: Given::Nothing,
        };
        self.journal.push_reserved(Entry {
            step: Step::Opened(max),
            reply,
        });
        Ok(())
    }

    /// Does an operation: one entry more, or a refusal that leaves all as it was. A full journal is told first, and want of memory last.
    /// It costs what the endpoint's step costs (a table in `amqp_endpoint`), and one copy of the operation and of what is given; payloads are shared.
    /// Where the journal has no room left it grows, and all its entries move.
    pub fn apply(&mut self, op: &Op) -> Result<Given, Refusal>
        ensures step { IfOk result (λ given. Appends self.old (step.Own op.now) (own_due self.old op.now) given self.new) }
        ensures refusal { IfErr result (IsRefusal Refusal.NoMemory (own_due self.old op.now)) }
        ensures err { OnErr result (self.new ≡ self.old) }
    {
        if self.endpoint.steps() >= self.config.journal_limit {
            return Err(Refusal::JournalFull);
        }
        let kept = self.left.len();
        let own = match room_for_own(
            &mut self.journal,
            &mut self.waiting,
            &mut self.left,
            &self.endpoint,
            op,
        ) {
            Ok(own) => own,
            Err(_) => return Err(own_refused(&self.endpoint, op)),
        };
        laws();
        match self.endpoint.own(op) {
            Ok(done) => {
                let Done {
                    reply,
                    octets,
                    given,
                } = done;
                self.journal.push_reserved(Entry { step: own, reply });
                queue(&mut self.waiting, &mut self.octets, octets);
                Ok(given)
            }
            Err(refusal) => {
                drop(own);
                self.left.truncate(kept);
                Err(refusal)
            }
        }
    }

    /// Does an operation, which its entry keeps: one entry more, or a refusal that leaves all as it was and drops the operation, so `apply` is for
    /// one that is to be tried again. What it gives stands in the reply of the entry, the journal's last. It costs what the endpoint's step costs:
    /// nothing is copied.
    pub fn perform(&mut self, op: Op) -> Result<(), Refusal>
        ensures step { OnOk result (Extends self.old (step.Own op) (own_due self.old op) self.new) }
        ensures refusal { IfErr result (IsRefusal Refusal.NoMemory (own_due self.old op)) }
        ensures err { OnErr result (self.new ≡ self.old) }
    {
        if self.endpoint.steps() >= self.config.journal_limit {
            drop(op);
            return Err(Refusal::JournalFull);
        }
        let kept = self.left.len();
        match room_to_do(
            &mut self.journal,
            &mut self.waiting,
            &mut self.left,
            &self.endpoint,
            &op,
        ) {
            Ok(()) => {}
            Err(_) => {
                let refusal = own_refused(&self.endpoint, &op);
                drop(op);
                return Err(refusal);
            }
        }
        laws();
        match self.endpoint.own_once(&op) {
            Ok(both) => {
                let (reply, octets) = both;
                self.journal.push_reserved(Entry {
                    step: Step::Own(op),
                    reply,
                });
                queue(&mut self.waiting, &mut self.octets, octets);
                Ok(())
            }
            Err(refusal) => {
                drop(op);
                self.left.truncate(kept);
                Err(refusal)
            }
        }
    }

    /// Takes a copy of a frame that is heard, as `hear`: one entry more, or a violation that leaves all as it was. A full journal is told first, and
    /// want of memory last.
    pub fn receive(&mut self, frame: &Frame) -> Result<Given, Violation>
        ensures step { IfOk result (λ given. Appends self.old (step.Heard frame.now) (heard_due self.old frame.now) given self.new) }
        ensures violation { IfErr result (IsRefusal no_memory (heard_due self.old frame.now)) }
        ensures err { OnErr result (self.new ≡ self.old) }
    {
        if self.endpoint.steps() >= self.config.journal_limit {
            return Err(Violation::unlinked(ViolationKind::JournalFull));
        }
        match boxed(*self.journal.allocator(), frame) {
            Ok(copy) => self.hear(copy),
            Err(_) => Err(heard_refused(&self.endpoint, frame)),
        }
    }

    /// Takes a frame that is heard into its entry: one entry more, or a violation that leaves all as it was, and the frame is dropped. A full journal is
    /// told first, and want of memory last. It costs what the endpoint's step costs, and one copy of what is given; payloads are shared.
    pub fn hear(&mut self, frame: Boxed<Frame>) -> Result<Given, Violation>
        ensures step { IfOk result (λ given. Appends self.old (step.Heard frame) (heard_due self.old frame) given self.new) }
        ensures violation { IfErr result (IsRefusal no_memory (heard_due self.old frame)) }
        ensures err { OnErr result (self.new ≡ self.old) }
    {
        if self.endpoint.steps() >= self.config.journal_limit {
            drop(frame);
            return Err(Violation::unlinked(ViolationKind::JournalFull));
        }
        let kept = self.left.len();
        match room_to_hear(
            &mut self.journal,
            &mut self.waiting,
            &mut self.left,
            &self.endpoint,
            frame.get(),
        ) {
            Ok(()) => {}
            Err(_) => {
                let violation = heard_refused(&self.endpoint, frame.get());
                drop(frame);
                return Err(violation);
            }
        }
        laws();
        match self.endpoint.heard(frame.get()) {
            Ok(done) => {
                let Done {
                    reply,
                    octets,
                    given,
                } = done;
                self.journal.push_reserved(Entry {
                    step: Step::Heard(frame),
                    reply,
                });
                queue(&mut self.waiting, &mut self.octets, octets);
                Ok(given)
            }
            Err(violation) => {
                drop(frame);
                self.left.truncate(kept);
                Err(violation)
            }
        }
    }

    /// Puts octets behind all that was put out.
    pub fn put_unit(&mut self, octets: Bytes) -> Result<(), AllocError>
        ensures ok { OnOk result (self.new ≡ putting self.old octets) }
        ensures err { OnErr result (self.new ≡ self.old) }
    {
        let copy = octets.clone()?;
        room_for_put(&mut self.put, &mut self.waiting)?;
        self.put
            .push_reserved((self.endpoint.steps() as u64, octets));
        queue(&mut self.waiting, &mut self.octets, Some(Sliced::one(copy)));
        Ok(())
    }

    /// The first unit that waits, with its number. It takes no memory.
    pub fn pop_unit(&mut self) -> Option<Unit>
        ensures some { IfSome result (λ unit. (unit.number ≡ self.old.popped) × (slice_get (units self.old) self.old.popped ≡ Some unit.bytes) × (self.new ≡ popping self.old)) }
        ensures none { result ≡ None → (waiting self.old ≡ []) × (self.new ≡ self.old) }
    {
        let bytes = self.waiting.pop_front()?;
        self.octets = self.octets.saturating_sub(bytes.len() as u128);
        let number = self.popped;
        self.popped = number + 1;
        Some(Unit { number, bytes })
    }

    /// The first of what was left by links that are gone, and not popped. It is no step, and takes no memory.
    pub fn pop_left(&mut self) -> Option<Left>
        ensures some { IfSome result (λ x. self.old ≡ record self.new { left = x ∷ self.new.left }) }
        ensures none { IfNone result ((self.old.left ≡ []) × (self.new ≡ self.old)) }
    {
        self.left.pop_front()
    }

    /// The first that the link of this number left: a delivery of a receiver, an outcome of a sender. It is no step, and takes no memory; O(n) for n
    /// things that were left.
    pub fn pop_left_by(&mut self, role: Role, link: u32) -> Option<Left>
        ensures some { IfSome result (λ x. (find (is_left_by role link) self.old.left ≡ Some x) × (self.new ≡ record self.old { left = remove_first (is_left_by role link) self.old.left })) }
        ensures none { IfNone result ((find (is_left_by role link) self.old.left ≡ None) × (self.new ≡ self.old)) }
    {
        take_by(&mut self.left, role, link)
    }

    /// How many things were left by links that are gone, and not popped.
    pub fn left_len(&self) -> usize
        ensures { result ≡ length self.now.left }
    {
        self.left.len()
    }

    /// Puts what all links have ready and told behind what was left. It is no step: the links keep theirs, so it is for a session that does none
    /// any more, and once.
    pub fn leave(&mut self) -> Result<(), AllocError>
        ensures ok { OnOk result (self.new ≡ leaving self.old) }
        ensures err { OnErr result (self.new ≡ self.old) }
    {
        self.endpoint.leave_all(&mut self.left)
    }

    /// The entry at the receipt's place was not forgotten, is this operation's, and gave this link and this
    /// delivery. It costs the comparison of two operations.
    pub fn stands(&self, op: &Op, receipt: &Receipt) -> bool
        ensures { IsTrue result ↔ (self.now.forgotten ≤ receipt.now.place) × Stands self.now op.now receipt.now.place receipt.now.link receipt.now.id }
    {
        let forgotten = self.endpoint.steps() as u64 - self.journal.len() as u64;
        if receipt.place < forgotten {
            return false;
        }
        match self.journal.get((receipt.place - forgotten) as usize) {
            Some(entry) => stands_in(entry, op, receipt),
            None => false,
        }
    }

    /// In octets: the longest frame that the peer takes (part 2, 2.7.1); 512 before it told one.
    pub fn peer_max_frame(&self) -> u32
        ensures { result ≡ (at self.now.config (past self.now.journal)).max_frame }
    {
        self.endpoint.max_frame()
    }

    /// How many units were put out, popped ones included. No more were popped, and each was put at an entry that stands.
    pub fn put_out(&self) -> u64
        ensures count { result ≡ length (units self.now) }
        ensures within { PutWithin (length self.now.journal) self.now.put }
        ensures some { self.now.popped ≤ length (units self.now) }
    {
        self.popped + self.waiting.len() as u64
    }

    /// How many units wait: those that were put out and not popped.
    pub fn waiting_units(&self) -> usize
        ensures { result ≡ length (waiting self.now) }
    {
        self.waiting.len()
    }

    /// How many octets the units have that wait, or as many as a u64 tells. No unit is looked at for it.
    pub fn waiting_octets(&self) -> u64
        ensures { result ≡ min (sum_by length (waiting self.now)) (2 ^ 64 - 1) }
    {
        self.octets.min(u64::MAX as u128) as u64
    }
}

/// A copy of the frame, behind its pointer.
fn boxed(alloc: Global, frame: &Frame) -> Result<Boxed<Frame>, AllocError>
    ensures { IfOk result (λ copy. copy ≡ frame.now) }
{
    let copy = frame.clone()?;
    Boxed::new(alloc, copy)
}

/// The refusal that is due to an operation, or want of memory.
#[inline(never)]
fn own_refused(endpoint: &Endpoint, op: &Op) -> Refusal
    requires { endpoint.now.steps < 2 ^ 30 }
    ensures { IsRefused Refusal.NoMemory (own_answer endpoint.now op.now) result }
{
    endpoint.refusal(op).unwrap_or(Refusal::NoMemory)
}

/// What a frame that is heard violates, or want of memory.
#[inline(never)]
fn heard_refused(endpoint: &Endpoint, frame: &Frame) -> Violation
    requires { endpoint.now.steps < 2 ^ 30 }
    ensures { IsRefused no_memory (heard_answer endpoint.now frame.now) result }
{
    let wanting = Violation::unlinked(ViolationKind::NoMemory);
    endpoint.violation(frame).unwrap_or(wanting)
}

/// Room for one entry and one unit more.
fn room_for_one(journal: &mut Vec<Entry>, waiting: &mut VecDeque<Sliced>) -> Result<(), AllocError>
    ensures journal { journal.new.items ≡ journal.old.items }
    ensures waiting { waiting.new.items ≡ waiting.old.items }
    ensures room { OnOk result (vec_len journal.new < vec_capacity journal.new) }
    ensures place { OnOk result (deque_len waiting.new < deque_capacity waiting.new) }
{
    journal.reserve(1)?;
    waiting.reserve(1)
}

/// Room for one entry and one unit more; and what the operation leaves is behind what was left.
fn room_to_do(
    journal: &mut Vec<Entry>,
    waiting: &mut VecDeque<Sliced>,
    left: &mut VecDeque<Left>,
    endpoint: &Endpoint,
    op: &Op,
) -> Result<(), AllocError>
    ensures journal { journal.new.items ≡ journal.old.items }
    ensures waiting { waiting.new.items ≡ waiting.old.items }
    ensures room { OnOk result (vec_len journal.new < vec_capacity journal.new) }
    ensures place { OnOk result (deque_len waiting.new < deque_capacity waiting.new) }
    ensures left { OnOk result (left.new.items ≡ left.old.items ++ left_by_own endpoint.now op.now) }
    ensures still { OnErr result (left.new.items ≡ left.old.items) }
{
    room_for_one(journal, waiting)?;
    endpoint.leave_by_own(op, left)
}

/// The same for a frame that is heard.
fn room_to_hear(
    journal: &mut Vec<Entry>,
    waiting: &mut VecDeque<Sliced>,
    left: &mut VecDeque<Left>,
    endpoint: &Endpoint,
    frame: &Frame,
) -> Result<(), AllocError>
    ensures journal { journal.new.items ≡ journal.old.items }
    ensures waiting { waiting.new.items ≡ waiting.old.items }
    ensures room { OnOk result (vec_len journal.new < vec_capacity journal.new) }
    ensures place { OnOk result (deque_len waiting.new < deque_capacity waiting.new) }
    ensures left { OnOk result (left.new.items ≡ left.old.items ++ left_by_heard endpoint.now frame.now.body) }
    ensures still { OnErr result (left.new.items ≡ left.old.items) }
{
    room_for_one(journal, waiting)?;
    endpoint.leave_by_heard(frame, left)
}

/// The same as `room_to_do`, and the step with its copy of the operation.
fn room_for_own(
    journal: &mut Vec<Entry>,
    waiting: &mut VecDeque<Sliced>,
    left: &mut VecDeque<Left>,
    endpoint: &Endpoint,
    op: &Op,
) -> Result<Step, AllocError>
    ensures journal { journal.new.items ≡ journal.old.items }
    ensures waiting { waiting.new.items ≡ waiting.old.items }
    ensures room { OnOk result (vec_len journal.new < vec_capacity journal.new) }
    ensures place { OnOk result (deque_len waiting.new < deque_capacity waiting.new) }
    ensures step { IfOk result (λ s. s ≡ step.Own op.now) }
    ensures left { OnOk result (left.new.items ≡ left.old.items ++ left_by_own endpoint.now op.now) }
    ensures still { OnErr result (left.new.items ≡ left.old.items) }
{
    journal.reserve(1)?;
    waiting.reserve(1)?;
    let copy = op.clone()?;
    match endpoint.leave_by_own(op, left) {
        Ok(()) => Ok(Step::Own(copy)),
        Err(error) => {
            drop(copy);
            Err(error)
        }
    }
}

/// Room for what is put, in its list and in the queue.
fn room_for_put(
    put: &mut Vec<(u64, Bytes)>,
    waiting: &mut VecDeque<Sliced>,
) -> Result<(), AllocError>
    ensures put { put.new.items ≡ put.old.items }
    ensures waiting { waiting.new.items ≡ waiting.old.items }
    ensures room { OnOk result (vec_len put.new < vec_capacity put.new) }
    ensures place { OnOk result (deque_len waiting.new < deque_capacity waiting.new) }
{
    put.reserve(1)?;
    waiting.reserve(1)
}

/// The unit of a step waits behind the others, and its octets are counted; there is room for it.
fn queue(waiting: &mut VecDeque<Sliced>, octets: &mut u128, unit: Option<Sliced>)
    requires { deque_len waiting.old < deque_capacity waiting.old }
    ensures waiting { waiting.new.items ≡ waiting.old.items ++ option_to_list unit }
    ensures counted { IsCounted octets.old waiting.old.items → IsCounted octets.new waiting.new.items }
{
    if let Some(bytes) = unit {
        // For the proof: there are no more units than a machine counts.
        let _units = waiting.len();
        *octets = octets.saturating_add(bytes.len() as u128);
        waiting.push_back_reserved(bytes);
    }
}

/// It is a delivery, of a receiver, or an outcome, of a sender, that the link of this number left.
fn is_left_by(left: &Left, role: Role, link: u32) -> bool
    ensures { result ≡ is_left_by role link left.now }
{
    match role {
        Role::Receiver => match left {
            Left::Delivery(_, taken) => taken.get().link == link,
            Left::Outcome(_, _) => false,
        },
        Role::Sender => match left {
            Left::Delivery(_, _) => false,
            Left::Outcome(_, learned) => learned.get().link == link,
        },
    }
}

/// Takes the first such thing out.
fn take_by(left: &mut VecDeque<Left>, role: Role, link: u32) -> Option<Left>
    ensures some { IfSome result (λ x. (find (is_left_by role link) left.old.items ≡ Some x) × (left.new.items ≡ remove_first (is_left_by role link) left.old.items)) }
    ensures none { IfNone result ((find (is_left_by role link) left.old.items ≡ None) × (left.new ≡ left.old)) }
{
    let place = place_of(left, role, link)?;
    left.remove(place)
}

/// The place of the first such thing.
fn place_of(left: &VecDeque<Left>, role: Role, link: u32) -> Option<usize>
    ensures found { IfSome result (λ i. find (is_left_by role link) left.now.items ≡ slice_get left.now.items i) }
    ensures removed { IfSome result (λ i. remove left.now.items i ≡ remove_first (is_left_by role link) left.now.items) }
    ensures within { IfSome result (λ i. i < deque_len left.now) }
    ensures none { IfNone result (find (is_left_by role link) left.now.items ≡ None) }
{
    for place in 0..left.len() {
        if is_left_by(&left[place], role, link) {
            return Some(place);
        }
    }
    None
}

/// The entry is this operation's, and gave this link and this delivery.
fn stands_in(entry: &Entry, op: &Op, receipt: &Receipt) -> bool
    ensures { IsTrue result ↔ (entry.now.step ≡ step.Own op.now) × (given_link entry.now.reply.given ≡ receipt.now.link) × (given_id entry.now.reply.given ≡ receipt.now.id) }
{
    match &entry.step {
        Step::Own(own) => is_same(own, op) && gives(&entry.reply.given, receipt),
        Step::Opened(_) | Step::Heard(_) => false,
    }
}

fn is_same(own: &Op, op: &Op) -> bool
    ensures { IsTrue result ↔ own.now ≡ op.now }
{
    own == op
}

/// It names the link and the delivery of the receipt.
fn gives(given: &Given, receipt: &Receipt) -> bool
    ensures { IsTrue result ↔ (given_link given.now ≡ receipt.now.link) × (given_id given.now ≡ receipt.now.id) }
{
    link_of(given) == receipt.link && id_of(given) == receipt.id
}
