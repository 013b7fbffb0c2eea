//! A step whose reply is wanted twice: one is told before anything changes, the other is that of the step.
ghost use Rattle.std.specs.Prelude.{◌≡◌, ◌<◌, ◌^◌, IfSome, OnOk, OnErr};
ghost use Rattle.amqp_rules.specs.Answer.{own_answer, next_own, heard_answer, next_heard};
ghost use Rattle.amqp_rules.specs.Refusing.{no_memory};
ghost use Rattle.amqp_steps.specs.Doing.{Foretells, Replies};
ghost use Rattle.amqp_steps.specs.Plan.{plan_reply};

use crate::endpoint::Endpoint;
use crate::op::Op;
use crate::refusal::Refusal;
use crate::reply::{Given, Reply};
use crate::violation::{Violation, ViolationKind};
use amqp_frames::{Frame, Performative};
use amqp_steps::done::quiet_reply;
use amqp_steps::plan::Plan;
use amqp_steps::sending::list_sent;

impl Endpoint {
    /// Does an operation, as [`Endpoint::own`]: its reply, twice. A refused operation has changed nothing; the room for both replies is asked
    /// for before anything changes, and last. It costs the step, and its plan once more.
    pub fn apply(&mut self, op: &Op) -> Result<(Reply, Reply), Refusal>
        requires { self.old.steps < 2 ^ 30 }
        ensures replies { Replies Refusal.NoMemory (own_answer self.old op.now) result }
        ensures next { OnOk result (self.new ≡ next_own self.old op.now) }
        ensures err { OnErr result (self.new ≡ self.old) }
    {
        let foretold = match self.foretell_own(op) {
            Ok(reply) => reply,
            Err(refusal) => return Err(refusal),
        };
        match self.own_once(op) {
            Ok((reply, octets)) => {
                drop(octets);
                Ok((reply, foretold))
            }
            Err(refusal) => {
                drop(foretold);
                Err(refusal)
            }
        }
    }

    /// Takes a frame that is heard, as [`Endpoint::heard`]: its reply, twice. A frame that is not taken has changed nothing; the room for both
    /// replies is asked for before anything changes, and last. It costs the step, and its plan once more.
    pub fn receive(&mut self, frame: &Frame) -> Result<(Reply, Reply), Violation>
        requires { self.old.steps < 2 ^ 30 }
        ensures replies { Replies no_memory (heard_answer self.old frame.now) result }
        ensures next { OnOk result (self.new ≡ next_heard self.old frame.now) }
        ensures err { OnErr result (self.new ≡ self.old) }
    {
        let foretold = match self.foretell_heard(frame) {
            Ok(reply) => reply,
            Err(violation) => return Err(violation),
        };
        match self.heard(frame) {
            Ok(done) => {
                let (reply, octets) = done.once();
                drop(octets);
                Ok((reply, foretold))
            }
            Err(violation) => {
                drop(foretold);
                Err(violation)
            }
        }
    }

    /// The reply to an operation, before it is done.
    fn foretell_own(&mut self, op: &Op) -> Result<Reply, Refusal>
        requires { self.old.steps < 2 ^ 30 }
        ensures same { self.new ≡ self.old }
        ensures reply { Foretells Refusal.NoMemory (own_answer self.old op.now) result }
    {
        match op {
            Op::Start {
                link,
                tag,
                format,
                settled,
                payload,
                more,
            } => self.foretell_start(*link, tag, *format, *settled, payload, *more),
            Op::Carry {
                link,
                payload,
                more,
            } => self.foretell_carry(*link, payload, *more),
            Op::Learn { link } => self.foretell_learn(*link),
            Op::Take { link } => self.foretell_take(*link),
            _ => match self.plan_own(op) {
                Ok(plan) => self.planned_reply(plan).ok_or(Refusal::NoMemory),
                Err(refusal) => Err(refusal),
            },
        }
    }

    /// The reply to a frame that is heard, before it is taken.
    fn foretell_heard(&self, frame: &Frame) -> Result<Reply, Violation>
        ensures { Foretells no_memory (heard_answer self.now frame.now) result }
    {
        if self.drops(&frame.body) {
            return Ok(quiet_reply(self.alloc, Given::Nothing));
        }
        match &frame.body {
            Some(Performative::Transfer(body)) => self.foretell_transfer(body, &frame.payload),
            _ => match self.plan_heard(frame) {
                Ok(plan) => {
                    let wanting = Violation::unlinked(ViolationKind::NoMemory);
                    self.planned_reply(plan).ok_or(wanting)
                }
                Err(violation) => Err(violation),
            },
        }
    }

    /// The reply of a plan that is not committed.
    fn planned_reply(&self, plan: Plan) -> Option<Reply>
        ensures { IfSome result (λ reply. reply ≡ plan_reply plan self.now) }
    {
        let Plan {
            fate,
            change,
            sent,
            given,
            ..
        } = plan;
        drop(fate);
        let ended = self.stores.tables.ended(&change);
        drop(change);
        match ended {
            Ok(ended) => {
                let (sent, octets) = list_sent(self.alloc, sent);
                drop(octets);
                Some(Reply { sent, ended, given })
            }
            Err(_) => {
                drop(sent);
                drop(given);
                None
            }
        }
    }
}
