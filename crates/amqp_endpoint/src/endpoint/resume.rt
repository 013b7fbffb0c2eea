//! Resume: a delivery that waits on a link on which we send is sent anew, by one transfer without payload (part 2, 2.6.13 and 2.7.5).
ghost use Rattle.std.specs.Prelude.{◌≡◌, ◌<◌, ◌^◌, Some, true, IfOk};
ghost use Rattle.std.specs.Result.{result_err};
ghost use Rattle.amqp_steps.specs.Plan.{Checks, Plans};
ghost use Rattle.amqp_steps.specs.Resuming.{MaySend, change_resumed, item_at, late_rows, resume_plan, sending_plan_of};
ghost use Rattle.amqp_rules.specs.Deliveries.{is_sent_anew};
ghost use Rattle.amqp_rules.specs.Refusing.{first_refusal};
ghost use Rattle.amqp_rules.specs.Resume.{next_resume, outcome_of, resume_answer, resume_body, resumed_to};
ghost use Rattle.amqp_rules.specs.View.{next_delivery};

use crate::endpoint::Endpoint;
use crate::refusal::Refusal;
use crate::reply::Given;
use amqp_deliveries::Change;
use amqp_frames::Performative;
use amqp_links::link::Link;
use amqp_steps::arriving::marks_first;
use amqp_steps::onlink::OnLink;
use amqp_steps::plan::{Plan, plan_quiet};
use amqp_steps::resume::{
    Resuming, change_resumed, copy_outcome, early_refusal, fate_resumed, is_partial, is_sent_anew,
    is_unclear, resume_body, resuming_refusal, told_resumed,
};
use amqp_steps::sending::write;
use amqp_steps::start::{mode_forbids, started};
use amqp_types::Tag;
use amqp_waiting::Verdict;
use bytes::Bytes;
use std::alloc::AllocError;

impl Endpoint {
    /// What is refused of one that is sent anew.
    fn late_refusal(&self, l: &Link, settled: bool, partial: bool) -> Option<Refusal>
        ensures { result ≡ first_refusal (late_rows self.now l.now settled partial) }
    {
        if !partial && mode_forbids(l.snd_mode(), settled) {
            return Some(Refusal::SettleMode);
        }
        if l.credit() == 0 {
            return Some(Refusal::NoCredit);
        }
        if self.session.windows.remote_incoming() == 0 {
            return Some(Refusal::NoWindow);
        }
        None
    }

    /// The first refusal that is due, or how the delivery is resumed. O(log n) for n links.
    pub(crate) fn check_resume(
        &self,
        link: u32,
        tag: &Tag,
        settled: bool,
    ) -> Result<Resuming<'_>, Refusal>
        ensures plan { Checks self.now (resume_answer self.now link tag.now settled) (next_resume self.now link tag.now settled) (resume_plan self.now link tag.now settled) result }
        ensures may { IfOk result (λ r. is_sent_anew (item_at tag.now r) ≡ true → MaySend self.now tag.now settled r) }
    {
        if !self.session.is_mapped() {
            return Err(Refusal::NotMapped);
        }
        let Some(found) = self.stores.links.by_number(link) else {
            return Err(Refusal::NoLink);
        };
        let l = found.link;
        if let Some(refusal) = early_refusal(l) {
            return Err(refusal);
        }
        let Some(standing) = l.standing(tag) else {
            return Err(Refusal::NotWaiting);
        };
        if is_unclear(standing.verdict) {
            return Err(Refusal::Unclear);
        }
        let handle = l.our_handle();
        let second = l.rcv_mode() == 1;
        if !is_sent_anew(standing.verdict) {
            let on = OnLink {
                key: found.key,
                handle,
                marks: l.marks(),
            };
            return Ok(Resuming {
                on,
                second,
                standing,
            });
        }
        let partial = is_partial(standing.verdict);
        if let Some(refusal) = self.late_refusal(l, settled, partial) {
            return Err(refusal);
        }
        let id = self.session.next_delivery();
        if let Some(refusal) = resuming_refusal(
            handle,
            id,
            tag,
            settled,
            standing,
            self.session.max_frame,
        ) {
            return Err(refusal);
        }
        let on = OnLink {
            key: found.key,
            handle,
            marks: marks_first(l),
        };
        Ok(Resuming {
            on,
            second,
            standing,
        })
    }

    /// The refusal that is due.
    pub(crate) fn refuse_resume(&self, link: u32, tag: &Tag, settled: bool) -> Option<Refusal>
        ensures { result ≡ result_err (resume_answer self.now link tag.now settled) }
    {
        match self.check_resume(link, tag, settled) {
            Ok(_) => None,
            Err(refusal) => Some(refusal),
        }
    }

    /// What the transfer needs: what it makes of the deliveries, what is told, and its body.
    fn make_resumed(
        &self,
        link: u32,
        tag: &Tag,
        settled: bool,
        resuming: &Resuming<'_>,
    ) -> Result<(Change, Given, Option<Performative>), AllocError>
        ensures change { IfOk result (λ t. t.0 ≡ change_resumed (next_delivery self.now) link settled resuming.now.second (item_at tag.now resuming.now)) }
        ensures given { IfOk result (λ t. t.1 ≡ resumed_to resuming.now.standing.now.verdict (Some (next_delivery self.now)) (outcome_of (item_at tag.now resuming.now))) }
        ensures body { IfOk result (λ t. t.2 ≡ resume_body resuming.now.on.handle (next_delivery self.now) settled (item_at tag.now resuming.now)) }
    {
        let id = self.session.next_delivery();
        let standing = resuming.standing;
        let state = copy_outcome(standing.verdict, &standing.theirs)?;
        let given = told_resumed(self.alloc, standing.verdict, Some(id), state)?;
        let change = match change_resumed(id, link, tag, settled, resuming.second, standing) {
            Ok(change) => change,
            Err(e) => {
                drop(given);
                return Err(e);
            }
        };
        match resume_body(resuming.on.handle, id, tag, settled, standing) {
            Ok(body) => Ok((change, given, body)),
            Err(e) => {
                drop(given);
                drop(change);
                Err(e)
            }
        }
    }

    /// The plan of a delivery that is sent anew.
    fn plan_resumed(
        &self,
        link: u32,
        tag: &Tag,
        settled: bool,
        resuming: &Resuming<'_>,
    ) -> Result<Plan, AllocError>
        requires steps { self.now.steps < 2 ^ 30 }
        requires may { MaySend self.now tag.now settled resuming.now }
        ensures { IfOk result (λ p. p ≡ sending_plan_of self.now link tag.now settled resuming.now) }
    {
        let (change, given, body) = match self.make_resumed(link, tag, settled, resuming) {
            Ok(made) => made,
            Err(e) => return Err(e),
        };
        match write(self.alloc, body, Bytes::new(), self.session.max_frame) {
            Ok(sent) => Ok(Plan {
                session: started(self.session),
                fate: fate_resumed(link, tag, &resuming.on),
                change,
                sent: Some(sent),
                given,
            }),
            Err(_) => {
                drop(given);
                drop(change);
                Err(AllocError)
            }
        }
    }

    /// Resumes a delivery: where the peer does not know it, it is done with, and nothing is sent.
    pub(crate) fn plan_resume(&self, link: u32, tag: &Tag, settled: bool) -> Result<Plan, Refusal>
        requires { self.now.steps < 2 ^ 30 }
        ensures { Plans Refusal.NoMemory self.now (resume_answer self.now link tag.now settled) (next_resume self.now link tag.now settled) result }
    {
        let resuming = match self.check_resume(link, tag, settled) {
            Ok(resuming) => resuming,
            Err(refusal) => return Err(refusal),
        };
        if is_sent_anew(resuming.standing.verdict) {
            return match self.plan_resumed(link, tag, settled, &resuming) {
                Ok(plan) => Ok(plan),
                Err(_) => Err(Refusal::NoMemory),
            };
        }
        let Ok(given) = told_resumed(self.alloc, Verdict::Absent, None, None) else {
            return Err(Refusal::NoMemory);
        };
        let fate = fate_resumed(link, tag, &resuming.on);
        Ok(plan_quiet(self.session, fate, Change::Stay, given))
    }
}
