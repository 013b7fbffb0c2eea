//! Which kind a step is: one line for each kind, in what refuses and in what plans.
ghost use Rattle.std.specs.Prelude.{◌≡◌, ◌<◌, ◌^◌, true, false};
ghost use Rattle.std.specs.Result.{result_err};
ghost use Rattle.amqp_rules.specs.Answer.{own_answer, next_own, body_answer, next_body, heard_answer, is_dropped, is_end};
ghost use Rattle.amqp_rules.specs.Refusing.{no_memory};
ghost use Rattle.amqp_steps.specs.Doing.{is_planned, is_transfer};
ghost use Rattle.amqp_steps.specs.Plan.{Plans};

use crate::endpoint::Endpoint;
use crate::op::Op;
use crate::refusal::Refusal;
use crate::violation::{Violation, ViolationKind};
use amqp_frames::{Frame, Performative};
use amqp_steps::attach::{Wanted, rejoined};
use amqp_steps::dispose::Said;
use amqp_steps::plan::Plan;
use bytes::Bytes;

fn is_end(body: &Option<Performative>) -> bool
    ensures { result ≡ is_end body.now }
{
    match body {
        Some(Performative::End(_)) => true,
        _ => false,
    }
}

impl Endpoint {
    /// The first refusal that is due to an operation, and none where a reply is. It asks for no memory, and costs no more than the step.
    pub fn refusal(&self, op: &Op) -> Option<Refusal>
        requires { self.now.steps < 2 ^ 30 }
        ensures { result ≡ result_err (own_answer self.now op.now) }
    {
        match op {
            Op::Begin => self.refuse_begin(),
            Op::Attach {
                name,
                role,
                snd,
                rcv,
                source,
                target,
                count,
                max_message,
            } => self.refuse_attach(&Wanted {
                name,
                role: *role,
                snd: *snd,
                rcv: *rcv,
                source,
                target,
                count: *count,
                max_message: *max_message,
                brought: None,
            }),
            Op::Start {
                link,
                tag,
                format,
                settled,
                payload,
                more,
            } => self.refuse_start(*link, tag, *format, *settled, payload, *more),
            Op::Carry {
                link,
                payload,
                more,
            } => self.refuse_carry(*link, payload, *more),
            Op::Abort { link } => self.refuse_draft(self.draft_abort(*link), &[]),
            Op::Dispose {
                role,
                first,
                last,
                settled,
                state,
            } => self.refuse_dispose(
                *role,
                Said {
                    first: *first,
                    last: *last,
                    settled: *settled,
                    state,
                },
            ),
            Op::Learn { link } => self.check_learn(*link).err(),
            Op::Grant {
                link,
                credit,
                drain,
                echo,
            } => self.refuse_draft(self.draft_grant(*link, *credit, *drain, *echo), &[]),
            Op::Offer { link, available } => self.refuse_draft(
                self.draft_offer(*link, *available),
                &[],
            ),
            Op::Drained { link } => self.refuse_draft(self.draft_drained(*link), &[]),
            Op::Refresh { echo } => self.refuse_draft(self.draft_refresh(*echo), &[]),
            Op::Take { link } => self.check_take(*link).err(),
            Op::Detach { link, error } => self.check_detach(*link, error).err(),
            Op::Suspend { link } => self.check_suspend(*link).err(),
            Op::Rejoin(rejoin) => self.refuse_attach(&rejoined(rejoin.get())),
            Op::Resume { link, tag, settled } => self.refuse_resume(*link, tag, *settled),
            Op::End { error } => self.refuse_end(error),
            Op::Beat => self.refuse_draft(self.draft_beat(), &[]),
        }
    }

    /// What a frame that is heard violates, and nothing where a reply is due. It asks for no memory, and costs no more than the step.
    pub fn violation(&self, frame: &Frame) -> Option<Violation>
        ensures { result ≡ result_err (heard_answer self.now frame.now) }
    {
        if self.drops(&frame.body) {
            return None;
        }
        match &frame.body {
            Some(Performative::Begin(_)) => self.begin_violation(),
            Some(Performative::Attach(body)) => self.attach_violation(body.get()),
            Some(Performative::Flow(body)) => self.flow_violation(body),
            Some(Performative::Transfer(body)) => self.arrival_violation(body, &frame.payload),
            Some(Performative::Disposition(body)) => self.disposition_violation(body),
            Some(Performative::Detach(body)) => self.check_peer_detach(body).err(),
            Some(Performative::End(_)) => self.end_violation(),
            _ => Some(Violation::unlinked(ViolationKind::OutOfSession)),
        }
    }

    /// Our end was sent, and the peer's is awaited: each other frame is dropped (part 2, 2.5.5).
    pub(crate) fn drops(&self, body: &Option<Performative>) -> bool
        ensures { result ≡ is_dropped self.now body.now }
    {
        self.session.is_ending() && !is_end(body)
    }

    /// Plans an operation of a kind that is planned: the first refusal that is due, or what it answers and leaves. It changes nothing; memory
    /// is asked for last.
    pub(crate) fn plan_own(&self, op: &Op) -> Result<Plan, Refusal>
        requires steps { self.now.steps < 2 ^ 30 }
        requires planned { is_planned op.now ≡ true }
        ensures { Plans Refusal.NoMemory self.now (own_answer self.now op.now) (next_own self.now op.now) result }
    {
        match op {
            Op::Begin => self.plan_begin(),
            Op::Attach {
                name,
                role,
                snd,
                rcv,
                source,
                target,
                count,
                max_message,
            } => self.plan_attach(&Wanted {
                name,
                role: *role,
                snd: *snd,
                rcv: *rcv,
                source,
                target,
                count: *count,
                max_message: *max_message,
                brought: None,
            }),
            Op::Abort { link } => self.plan_draft(self.draft_abort(*link), &Bytes::new()),
            Op::Dispose {
                role,
                first,
                last,
                settled,
                state,
            } => self.plan_dispose(
                *role,
                Said {
                    first: *first,
                    last: *last,
                    settled: *settled,
                    state,
                },
            ),
            Op::Grant {
                link,
                credit,
                drain,
                echo,
            } => self.plan_draft(
                self.draft_grant(*link, *credit, *drain, *echo),
                &Bytes::new(),
            ),
            Op::Offer { link, available } => self.plan_draft(
                self.draft_offer(*link, *available),
                &Bytes::new(),
            ),
            Op::Drained { link } => self.plan_draft(self.draft_drained(*link), &Bytes::new()),
            Op::Refresh { echo } => self.plan_draft(self.draft_refresh(*echo), &Bytes::new()),
            Op::Detach { link, error } => self.plan_detach(*link, error),
            Op::Suspend { link } => self.plan_suspend(*link),
            Op::Rejoin(rejoin) => self.plan_attach(&rejoined(rejoin.get())),
            Op::Resume { link, tag, settled } => self.plan_resume(*link, tag, *settled),
            Op::End { error } => self.plan_end(error),
            Op::Beat => self.plan_draft(self.draft_beat(), &Bytes::new()),
            Op::Start { .. } | Op::Carry { .. } | Op::Learn { .. } | Op::Take { .. } => {
                unreachable!()
            }
        }
    }

    /// Plans the hearing of a frame that is neither dropped nor a transfer: what it violates, or what it answers and leaves. It changes
    /// nothing; memory is asked for last.
    pub(crate) fn plan_heard(&self, frame: &Frame) -> Result<Plan, Violation>
        requires { is_transfer frame.now.body ≡ false }
        ensures { Plans no_memory self.now (body_answer self.now frame.now.body frame.now.payload) (next_body self.now frame.now.body frame.now.payload) result }
    {
        match &frame.body {
            Some(Performative::Begin(body)) => self.plan_peer_begin(body.get()),
            Some(Performative::Attach(body)) => self.plan_peer_attach(body.get()),
            Some(Performative::Flow(body)) => self.plan_flow(body),
            Some(Performative::Transfer(_)) => unreachable!(),
            Some(Performative::Disposition(body)) => self.plan_peer_disposition(body),
            Some(Performative::Detach(body)) => self.plan_peer_detach(body),
            Some(Performative::End(_)) => self.plan_peer_end(),
            _ => Err(Violation::unlinked(ViolationKind::OutOfSession)),
        }
    }
}
