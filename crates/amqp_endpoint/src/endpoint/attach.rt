//! Attach, and Rejoin, which brings deliveries in: a link is asked for, or the peer's attach is answered (part 2, 2.6.3, 2.6.13 and 2.7.3).
ghost use Rattle.std.specs.Prelude.{◌≡◌, Err, MatchResult, IfOk, false, find};
ghost use Rattle.std.specs.Result.{result_err};
ghost use Rattle.amqp_rules.specs.Attach.{attach_answer, next_attach};
ghost use Rattle.amqp_rules.specs.View.{is_offered_as};
ghost use Rattle.amqp_waiting.specs.Waiting.{has_twice};
ghost use Rattle.amqp_steps.specs.Attaching.{IsMeeting, Meets, items_in, resuming_met, wanted_of};
ghost use Rattle.amqp_steps.specs.Plan.{Plans};

use crate::endpoint::Endpoint;
use crate::refusal::Refusal;
use crate::reply::Given;
use amqp_deliveries::Change;
use amqp_frames::Performative;
use amqp_links::credit::Credit;
use amqp_links::marks::Marks;
use amqp_links::resuming::Resuming;
use amqp_steps::attach::{
    Meeting, Wanted, attach_body, attach_refusal, attached, count_told, credit_told, has_unfair,
    items_in, our_end,
};
use amqp_steps::plan::Plan;
use amqp_steps::sending::write;
use amqp_waiting::has_twice;
use bytes::Bytes;
use std::alloc::AllocError;

impl Endpoint {
    /// The link that our attach meets, which calls it by this handle.
    fn meet(&self, wanted: &Wanted<'_>, handle: u32) -> Meeting
        ensures handle { result.handle ≡ handle }
        ensures meets { Meets self.now (wanted_of wanted.now) result.met result.number result.marks }
    {
        let count = count_told(wanted.role, wanted.count).unwrap_or(0);
        match self.stores.links.offered_as(wanted.role, wanted.name) {
            Some(found) => {
                let mut marks = found.link.marks();
                marks.credit = credit_told(&marks.credit, count);
                Meeting {
                    met: Some(found.key),
                    number: found.link.number(),
                    handle,
                    marks,
                }
            }
            None => {
                let none = Credit::none(wanted.role);
                let marks = Marks {
                    left: false,
                    credit: credit_told(&none, count),
                    available: 0,
                    sending: None,
                };
                Meeting {
                    met: None,
                    number: self.stores.links.made(),
                    handle,
                    marks,
                }
            }
        }
    }

    /// The first refusal that is due, or the link that is attached.
    fn check_attach(&self, wanted: &Wanted<'_>) -> Result<Meeting, Refusal>
        ensures { MatchResult result (IsMeeting self.now (wanted_of wanted.now)) (λ e. attach_answer self.now (wanted_of wanted.now) ≡ Err e) }
    {
        if !self.session.is_mapped() {
            return Err(Refusal::NotMapped);
        }
        if self.stores.links.has_ours(wanted.role, wanted.name) {
            return Err(Refusal::NameInUse);
        }
        let handle = self.stores.links.free_handle();
        if self.session.handle_max < handle {
            return Err(Refusal::HandleLimit);
        }
        let items = items_in(wanted.brought);
        if has_twice(items) {
            return Err(Refusal::TagTwice);
        }
        if has_unfair(items) {
            return Err(Refusal::NotWritable);
        }
        if let Some(refusal) = attach_refusal(wanted, handle, self.session.max_frame) {
            return Err(refusal);
        }
        Ok(self.meet(wanted, handle))
    }

    /// The refusal that is due.
    pub(crate) fn refuse_attach(&self, wanted: &Wanted<'_>) -> Option<Refusal>
        ensures { result ≡ result_err (attach_answer self.now (wanted_of wanted.now)) }
    {
        match self.check_attach(wanted) {
            Ok(_) => None,
            Err(refusal) => Some(refusal),
        }
    }

    /// What the link that is attached has to resume then.
    fn resuming(&self, wanted: &Wanted<'_>) -> Result<Resuming, AllocError>
        requires { has_twice (items_in wanted.now.brought) ≡ false }
        ensures { IfOk result (λ r. r ≡ resuming_met (wanted_of wanted.now) (find (is_offered_as wanted.now.role wanted.now.name.now) self.now.links)) }
    {
        let items = items_in(wanted.brought);
        match self.stores.links.offered_as(wanted.role, wanted.name) {
            Some(found) => found.link.resuming_by_us(items),
            None => Resuming::asked(self.alloc, items),
        }
    }

    /// Attaches a link. O(log n + k) for n links, where k deliveries are brought in, or the peer told as many.
    pub(crate) fn plan_attach(&self, wanted: &Wanted<'_>) -> Result<Plan, Refusal>
        ensures { Plans Refusal.NoMemory self.now (attach_answer self.now (wanted_of wanted.now)) (next_attach self.now (wanted_of wanted.now)) result }
    {
        let meeting = self.check_attach(wanted)?;
        let Ok(end) = our_end(wanted, meeting.handle) else {
            return Err(Refusal::NoMemory);
        };
        let Ok(resuming) = self.resuming(wanted) else {
            drop(end);
            return Err(Refusal::NoMemory);
        };
        let Ok(fate) = attached(wanted.name, &meeting, end, resuming) else {
            return Err(Refusal::NoMemory);
        };
        let Ok(body) = attach_body(self.alloc, wanted, meeting.handle) else {
            drop(fate);
            return Err(Refusal::NoMemory);
        };
        let body = Some(Performative::Attach(body));
        let Ok(sent) = write(self.alloc, body, Bytes::new(), self.session.max_frame) else {
            drop(fate);
            return Err(Refusal::NoMemory);
        };
        Ok(Plan {
            session: self.session,
            fate,
            change: Change::Stay,
            sent: Some(sent),
            given: Given::Link(meeting.number),
        })
    }
}
