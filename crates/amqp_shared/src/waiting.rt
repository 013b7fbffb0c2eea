//! What threads wait for, and which steps may bring it.
ghost use Rattle.std.specs.Prelude.{◌≡◌, ◌-◌, length, slice_get, Ok};
ghost use Rattle.amqp_shared.specs.Waking.{with_want, waits_for, with_units, awaited_by, brought_by_op, brought_by_feed, brought_in, brought_by, brought_by_step, brought_by_frame, brought_by_body, is_ended};

use crate::condition::Condition;
use crate::sleepers::SEATS;
use amqp_conn::{Conn, ConnFault, Fed, Phase};
use amqp_frames::{Frame, Performative};
use amqp_laws::entry::{Entry, Step};
use amqp_rules::op::Op;
use amqp_rules::reply::Given;
use std::array;

/// What a call waits for.
#[derive(Clone, Copy, PartialEq, Eq)]
pub(crate) enum Want {
    /// Credit, or a window.
    Room,
    /// A delivery that is ready.
    Delivery,
    /// The peer's state of a delivery.
    Outcome,
}

/// What a call may have brought to the threads that wait.
#[derive(Clone, Copy, PartialEq, Eq)]
pub(crate) enum Change {
    Nothing,
    Brings(Want),
    /// What is awaited may have come, or may not come any more: all waiting threads try again, except those at seats
    /// whose link has no news.
    Ends,
}

/// The conditions at which threads wait.
#[derive(Drop)]
pub(crate) struct Conditions {
    room: Condition,
    /// For threads that have no seat.
    delivery: Condition,
    /// One for each seat of a thread that waits for a delivery.
    seats: [Condition; SEATS],
    outcome: Condition,
    /// Units were put out, or the connection has ended.
    pub(crate) units: Condition,
}

impl Conditions {
    pub(crate) fn new() -> Conditions {
        Conditions {
            room: Condition::new(),
            delivery: Condition::new(),
            seats: array::from_fn(|_| Condition::new()),
            outcome: Condition::new(),
            units: Condition::new(),
        }
    }

    pub(crate) fn of(&self, want: Want) -> &Condition {
        match want {
            Want::Room => &self.room,
            Want::Delivery => &self.delivery,
            Want::Outcome => &self.outcome,
        }
    }

    pub(crate) fn at(&self, seat: Option<usize>) -> &Condition {
        match seat {
            Some(place) => self.seats.get(place).unwrap_or(&self.delivery),
            None => &self.delivery,
        }
    }

    /// Of the threads that have seats only the one at `seat` is woken; `others` says whether threads without a seat
    /// sleep.
    pub(crate) fn wake(&self, due: Due, seat: Option<usize>, others: bool) {
        if due.units {
            self.units.notify_all();
        }
        if due.room {
            self.room.notify_all();
        }
        if seat.is_some() {
            self.at(seat).notify_one();
        }
        if due.delivery && others {
            self.delivery.notify_all();
        }
        if due.outcome {
            self.outcome.notify_all();
        }
    }
}

/// What has come: the threads that wait for it are to be woken.
#[derive(Clone, Copy)]
pub(crate) struct Due {
    pub(crate) units: bool,
    pub(crate) room: bool,
    pub(crate) delivery: bool,
    pub(crate) outcome: bool,
}

impl Due {
    pub(crate) const NONE: Due = Due {
        units: false,
        room: false,
        delivery: false,
        outcome: false,
    };

    pub(crate) fn and(self, want: Want) -> Due {
        match want {
            Want::Room => Due { room: true, ..self },
            Want::Delivery => Due {
                delivery: true,
                ..self
            },
            Want::Outcome => Due {
                outcome: true,
                ..self
            },
        }
    }
}

/// Which threads wait for what.
#[derive(Clone, Copy)]
pub(crate) struct Waiters {
    /// The least number past which units are awaited; `None` if no thread waits for units.
    pub(crate) units: Option<u64>,
    /// Some caller waits for credit or a window.
    pub(crate) room: bool,
    /// Some caller waits for a delivery.
    pub(crate) delivery: bool,
    /// Some caller waits for the peer's state of a delivery.
    pub(crate) outcome: bool,
}

impl Waiters {
    pub(crate) const NONE: Waiters = Waiters {
        units: None,
        room: false,
        delivery: false,
        outcome: false,
    };

    pub(crate) fn set(self, want: Want, waits: bool) -> Waiters
        ensures { result ≡ with_want want waits self }
    {
        match want {
            Want::Room => Waiters {
                room: waits,
                ..self
            },
            Want::Delivery => Waiters {
                delivery: waits,
                ..self
            },
            Want::Outcome => Waiters {
                outcome: waits,
                ..self
            },
        }
    }

    pub(crate) fn wait_for(self, want: Want) -> bool
        ensures { result ≡ waits_for want self }
    {
        match want {
            Want::Room => self.room,
            Want::Delivery => self.delivery,
            Want::Outcome => self.outcome,
        }
    }

    pub(crate) fn with_units(self, seen: u64) -> Waiters
        ensures { result ≡ with_units seen self }
    {
        let least = match self.units {
            Some(least) if least <= seen => least,
            _ => seen,
        };
        Waiters {
            units: Some(least),
            ..self
        }
    }
}

/// Returns what an operation waits for if there is nothing yet: a take waits for a delivery, a learn for the peer's
/// state of one.
pub(crate) fn awaited_by(op: &Op) -> Want
    ensures { result ≡ awaited_by op.now }
{
    match op {
        Op::Learn { .. } => Want::Outcome,
        _ => Want::Delivery,
    }
}

/// Returns what an operation may bring to other threads that wait: its link or its session is gone, or is about to go.
/// No other operation brings anything to them, because credit, a window, a delivery and an outcome come from the peer.
pub(crate) fn brought_by(op: &Op) -> Change
    ensures { result ≡ brought_by_op op.now }
{
    match op {
        Op::Detach { .. } | Op::Suspend { .. } | Op::End { .. } => Change::Ends,
        Op::Begin
        | Op::Attach { .. }
        | Op::Rejoin(_)
        | Op::Start { .. }
        | Op::Resume { .. }
        | Op::Carry { .. }
        | Op::Abort { .. }
        | Op::Dispose { .. }
        | Op::Learn { .. }
        | Op::Grant { .. }
        | Op::Offer { .. }
        | Op::Drained { .. }
        | Op::Refresh { .. }
        | Op::Take { .. }
        | Op::Beat => Change::Nothing,
    }
}

/// Returns what octets that were fed may have brought to the threads that wait.
pub(crate) fn brought(conn: &Conn, answer: &Result<Fed, ConnFault>) -> Change
    ensures { result ≡ brought_by_feed conn.now answer.now }
{
    match answer {
        Ok(fed) => of_fed(conn, fed),
        Err(ConnFault::NoMemory) => Change::Nothing,
        Err(_) => Change::Ends,
    }
}

fn of_fed(conn: &Conn, fed: &Fed) -> Change
    ensures { result ≡ brought_by_feed conn.now (Ok fed.now) }
{
    if fed.stepped {
        return stepped(conn.logged().journal(), &fed.given);
    }
    if is_closed(conn) {
        Change::Ends
    } else {
        Change::Nothing
    }
}

pub(crate) fn is_closed(conn: &Conn) -> bool
    ensures { result ≡ is_ended conn.now.core.phase }
{
    match conn.phase() {
        Phase::Closed => true,
        Phase::AwaitHeader | Phase::AwaitOpen | Phase::Running | Phase::Closing => false,
    }
}

fn stepped(journal: &[Entry], given: &Given) -> Change
    ensures { result ≡ brought_in (slice_get journal.now (length journal.now - 1)) given.now }
{
    match journal.last() {
        Some(entry) => by_step(&entry.step, given),
        None => Change::Nothing,
    }
}

/// A step by which a delivery becomes ready brings one.
fn by_step(step: &Step, given: &Given) -> Change
    ensures { result ≡ brought_by step.now given.now }
{
    match given {
        Given::Ready(_, _) => Change::Brings(Want::Delivery),
        Given::Link(_)
        | Given::Offered(_)
        | Given::Attached(_)
        | Given::Gone(_)
        | Given::Delivery(_)
        | Given::Taken(_)
        | Given::Learned(_)
        | Given::Suspended(_)
        | Given::Parted(_, _)
        | Given::Resumed(_)
        | Given::Nothing => in_step(step),
    }
}

/// An open may bring anything.
fn in_step(step: &Step) -> Change
    ensures { result ≡ brought_by_step step.now }
{
    match step {
        Step::Heard(frame) => in_frame(frame.get()),
        Step::Own(op) => brought_by(op),
        Step::Opened(_) => Change::Ends,
    }
}

fn in_frame(frame: &Frame) -> Change
    ensures { result ≡ brought_by_frame frame.now.body }
{
    match &frame.body {
        Some(body) => in_body(body),
        None => Change::Nothing,
    }
}

/// A flow brings credit and windows (part 2, 2.5.6 and 2.6.7), a disposition brings outcomes (part 2, 2.7.6). A
/// transfer by which no delivery becomes ready brings nothing.
fn in_body(body: &Performative) -> Change
    ensures { result ≡ brought_by_body body.now }
{
    match body {
        Performative::Flow(_) => Change::Brings(Want::Room),
        Performative::Transfer(_) => Change::Nothing,
        Performative::Disposition(_) => Change::Brings(Want::Outcome),
        Performative::Open(_)
        | Performative::Begin(_)
        | Performative::Attach(_)
        | Performative::Detach(_)
        | Performative::End(_)
        | Performative::Close(_) => Change::Ends,
    }
}
