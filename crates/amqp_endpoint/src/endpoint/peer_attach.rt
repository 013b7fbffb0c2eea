//! An attach that is heard (part 2, 2.6.3 and 2.7.3): it answers ours, or offers a link.
ghost use Rattle.std.specs.Prelude.{◌≡◌, MatchOption, None, find};
ghost use Rattle.amqp_rules.specs.PeerAttach.{attach_heard_answer, attach_violations, next_attach_heard};
ghost use Rattle.amqp_rules.specs.Refusing.{first_refusal, no_memory};
ghost use Rattle.amqp_rules.specs.View.{is_asked_as, opposite};
ghost use Rattle.amqp_steps.specs.Answered.{IsAnswered};
ghost use Rattle.amqp_steps.specs.Plan.{Plans};

use crate::endpoint::Endpoint;
use crate::reply::Given;
use crate::violation::{Violation, ViolationKind};
use amqp_deliveries::Change;
use amqp_frames::AttachBody;
use amqp_links::credit::{Credit, opposite};
use amqp_links::fate::Fate;
use amqp_links::marks::Marks;
use amqp_links::resuming::Resuming;
use amqp_steps::peer_attach::{Answered, counted, end_of, lacks_count};
use amqp_steps::plan::{Plan, plan_quiet};

impl Endpoint {
    /// The violation that an attach meets.
    pub(crate) fn attach_violation(&self, b: &AttachBody) -> Option<Violation>
        ensures { result ≡ first_refusal (attach_violations self.now b.now) }
    {
        if !self.session.takes_frames() {
            return Some(Violation::unlinked(ViolationKind::OutOfSession));
        }
        if self.stores.links.by_peer_handle(b.handle).is_some() {
            return Some(Violation::unlinked(ViolationKind::HandleTaken));
        }
        if self.stores.links.has_theirs(opposite(b.role), &b.name) {
            return Some(Violation::unlinked(ViolationKind::NameTaken));
        }
        if lacks_count(b) {
            return Some(Violation::unlinked(ViolationKind::MissingField));
        }
        None
    }

    /// The link that the attach answers.
    fn answered_link(&self, b: &AttachBody) -> Option<Answered<'_>>
        ensures { MatchOption result (find (is_asked_as (opposite b.now.role) b.now.name) self.now.links ≡ None) (IsAnswered self.now b.now) }
    {
        let Some(found) = self.stores.links.asked_as(opposite(b.role), &b.name) else {
            return None;
        };
        let mut marks = found.link.marks();
        marks.credit = counted(b, &marks.credit);
        Some(Answered {
            link: found.link,
            key: found.key,
            number: found.link.number(),
            marks,
        })
    }

    /// How many links were made.
    fn links_made(&self) -> u32
        ensures { result ≡ self.now.made }
    {
        self.stores.links.made()
    }

    /// The peer's attach: it answers ours, or offers a link. O(log n + k) for n links, where k deliveries wait, or the
    /// peer tells as many.
    pub(crate) fn plan_peer_attach(&self, b: &AttachBody) -> Result<Plan, Violation>
        ensures { Plans no_memory self.now (attach_heard_answer self.now b.now) (next_attach_heard self.now b.now) result }
    {
        if let Some(violation) = self.attach_violation(b) {
            return Err(violation);
        }
        let Ok(end) = end_of(b) else {
            return Err(Violation::unlinked(ViolationKind::NoMemory));
        };
        match self.answered_link(b) {
            Some(on) => {
                let Ok(resuming) = on.link.resuming_by_peer(b) else {
                    drop(end);
                    return Err(Violation::unlinked(ViolationKind::NoMemory));
                };
                let fate = Fate::Theirs {
                    key: on.key,
                    number: on.number,
                    end,
                    marks: on.marks,
                    resuming,
                };
                Ok(plan_quiet(self.session, fate, Change::Stay, Given::Attached(on.number)))
            }
            None => {
                let Ok(resuming) = Resuming::offered(self.alloc, b) else {
                    drop(end);
                    return Err(Violation::unlinked(ViolationKind::NoMemory));
                };
                let Ok(name) = b.name.clone() else {
                    drop(end);
                    drop(resuming);
                    return Err(Violation::unlinked(ViolationKind::NoMemory));
                };
                let marks = Marks {
                    left: false,
                    credit: counted(b, &Credit::none(opposite(b.role))),
                    available: 0,
                    sending: None,
                };
                let fate = Fate::Offered {
                    name,
                    end,
                    marks,
                    resuming,
                };
                Ok(plan_quiet(
                    self.session,
                    fate,
                    Change::Stay,
                    Given::Offered(self.links_made()),
                ))
            }
        }
    }
}
