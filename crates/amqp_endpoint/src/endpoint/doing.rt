//! A step done at once: the kinds that are most frequent by a way of their own, without a plan, and the others by their plan.
ghost use Rattle.std.specs.Prelude.{◌≡◌, ◌<◌, ◌^◌, ◌+◌, None, true, false, IfOk, OnErr};
ghost use Rattle.amqp_rules.specs.Answer.{own_answer, next_own, body_answer, next_body, heard_answer, next_heard};
ghost use Rattle.amqp_rules.specs.Opened.{no_reply};
ghost use Rattle.amqp_rules.specs.Refusing.{no_memory};
ghost use Rattle.amqp_steps.specs.Doing.{Does, DoesOnce, is_planned, is_transfer};
ghost use Rattle.amqp_steps.specs.Plan.{IsRefused, IsSound, KeepsApart, octets_sent, plan_reply, planned};

use crate::endpoint::Endpoint;
use crate::op::Op;
use crate::refusal::Refusal;
use crate::reply::{Given, Reply};
use crate::violation::{Violation, ViolationKind};
use amqp_frames::{Frame, Performative};
use amqp_rules::sliced::Sliced;
use amqp_steps::done::{Done, quiet_done};
use amqp_steps::plan::Plan;
use std::alloc::AllocError;

impl Endpoint {
    /// Does what was planned.
    fn follow(&mut self, plan: Plan) -> Result<Done, AllocError>
        requires steps { self.old.steps < 2 ^ 30 }
        requires sound { IsSound self.old plan }
        requires apart { KeepsApart self.old (planned self.old plan) }
        ensures reply { IfOk result (λ d. d.reply ≡ plan_reply plan self.old) }
        ensures octets { IfOk result (λ d. d.octets ≡ octets_sent plan.sent) }
        ensures given { IfOk result (λ d. d.given ≡ plan.given) }
        ensures next { IfOk result (λ d. self.new ≡ planned self.old plan) }
        ensures err { OnErr result (self.new ≡ self.old) }
    {
        let given = match plan.given() {
            Ok(given) => given,
            Err(e) => {
                drop(plan);
                return Err(e);
            }
        };
        match self.commit(plan) {
            Ok((reply, octets)) => Ok(Done {
                reply,
                octets,
                given,
            }),
            Err(e) => {
                drop(given);
                Err(e)
            }
        }
    }

    /// Does an operation by its plan.
    fn own_planned(&mut self, op: &Op) -> Result<Done, Refusal>
        requires steps { self.old.steps < 2 ^ 30 }
        requires planned { is_planned op.now ≡ true }
        ensures done { Does Refusal.NoMemory (own_answer self.old op.now) (next_own self.old op.now) self.new result }
        ensures err { OnErr result (self.new ≡ self.old) }
    {
        let plan = match self.plan_own(op) {
            Ok(plan) => plan,
            Err(refusal) => return Err(refusal),
        };
        match self.follow(plan) {
            Ok(done) => Ok(done),
            Err(_) => Err(Refusal::NoMemory),
        }
    }

    /// Takes a frame that is heard and not dropped by its plan.
    fn heard_planned(&mut self, frame: &Frame) -> Result<Done, Violation>
        requires steps { self.old.steps < 2 ^ 30 }
        requires planned { is_transfer frame.now.body ≡ false }
        ensures done { Does no_memory (body_answer self.old frame.now.body frame.now.payload) (next_body self.old frame.now.body frame.now.payload) self.new result }
        ensures err { OnErr result (self.new ≡ self.old) }
    {
        let plan = match self.plan_heard(frame) {
            Ok(plan) => plan,
            Err(violation) => return Err(violation),
        };
        match self.follow(plan) {
            Ok(done) => Ok(done),
            Err(_) => Err(Violation::unlinked(ViolationKind::NoMemory)),
        }
    }

    /// Does an operation: what it gives, or the first refusal that is due. A refused operation has changed nothing; memory is asked for last.
    pub fn own(&mut self, op: &Op) -> Result<Done, Refusal>
        requires { self.old.steps < 2 ^ 30 }
        ensures done { Does Refusal.NoMemory (own_answer self.old op.now) (next_own self.old op.now) self.new result }
        ensures err { OnErr result (self.new ≡ self.old) }
    {
        match op {
            Op::Start {
                link,
                tag,
                format,
                settled,
                payload,
                more,
            } => self.start(*link, tag, *format, *settled, payload, *more),
            Op::Carry {
                link,
                payload,
                more,
            } => self.carry(*link, payload, *more),
            Op::Learn { link } => self.learn(*link),
            Op::Take { link } => self.take(*link),
            _ => self.own_planned(op),
        }
    }

    /// The same, where what it tells is wanted once: in the reply.
    pub fn own_once(&mut self, op: &Op) -> Result<(Reply, Option<Sliced>), Refusal>
        requires { self.old.steps < 2 ^ 30 }
        ensures done { DoesOnce Refusal.NoMemory (own_answer self.old op.now) (next_own self.old op.now) self.new result }
        ensures err { OnErr result (self.new ≡ self.old) }
    {
        match op {
            Op::Learn { link } => self.learn_once(*link),
            Op::Take { link } => self.take_once(*link),
            _ => match self.own(op) {
                Ok(done) => Ok(done.once()),
                Err(refusal) => Err(refusal),
            },
        }
    }

    /// Takes a frame that is heard: what it gives, or what it violates. A frame that is not taken has changed nothing; memory is asked for
    /// last.
    pub fn heard(&mut self, frame: &Frame) -> Result<Done, Violation>
        requires { self.old.steps < 2 ^ 30 }
        ensures done { Does no_memory (heard_answer self.old frame.now) (next_heard self.old frame.now) self.new result }
        ensures err { OnErr result (self.new ≡ self.old) }
    {
        if self.drops(&frame.body) {
            return Ok(self.drop_heard());
        }
        match &frame.body {
            Some(Performative::Transfer(body)) => self.transfer(body, &frame.payload),
            _ => self.heard_planned(frame),
        }
    }

    /// A frame is dropped.
    fn drop_heard(&mut self) -> Done
        requires { self.old.steps < 2 ^ 30 }
        ensures done { result ≡ record { reply = no_reply; octets = None; given = Given.Nothing } }
        ensures next { self.new ≡ record self.old { steps = self.old.steps + 1 } }
    {
        self.steps += 1;
        quiet_done(self.alloc, Given::Nothing, Given::Nothing)
    }
}
