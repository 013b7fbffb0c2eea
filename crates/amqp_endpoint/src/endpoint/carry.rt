//! Carry: a further transfer of the unfinished delivery (part 2, 2.6.14 and 2.7.5).
ghost use Rattle.std.specs.Prelude.{◌≡◌, ◌<◌, ◌+◌, ◌^◌, length, Err, IfOk, MatchResult, OnErr};
ghost use Rattle.std.specs.Result.{result_err};
ghost use Rattle.amqp_rules.specs.Carry.{carry_answer, carry_on, carry_refusals, next_carry};
ghost use Rattle.amqp_steps.specs.Carrying.{carry_plan};
ghost use Rattle.amqp_steps.specs.Doing.{Does, Foretells};
ghost use Rattle.amqp_steps.specs.Plan.{IsShort, Makes};
ghost use Rattle.amqp_steps.specs.Taking.{IsTaken};

use crate::endpoint::Endpoint;
use crate::refusal::Refusal;
use crate::reply::Reply;
use amqp_frames::Role;
use amqp_links::credit::same_role;
use amqp_steps::carry::{Carrying, carried_done, later_body, sent};
use amqp_steps::done::Done;
use amqp_steps::onlink::OnLink;
use amqp_steps::sending::{cut_sharing, sending_refusal};
use amqp_steps::start::{is_too_long, sending_after};
use amqp_steps::telling::flag;
use bytes::Bytes;

impl Endpoint {
    /// The first refusal that is due, or the link as it will be.
    fn check_carry(&self, link: u32, payload: &[u8], more: bool) -> Result<OnLink, Refusal>
        requires { self.now.steps < 2 ^ 30 }
        ensures taken { MatchResult result (IsTaken self.now link (λ l. carry_refusals self.now l payload.now) (carry_on (length payload.now) more)) (λ e. carry_answer self.now link payload.now more ≡ Err e) }
        ensures window { IfOk result (λ o. 0 < self.now.windows.remote_incoming) }
        ensures short { IfOk result (λ o. IsShort (self.now.steps + 1) o.marks.sending) }
    {
        if !self.session.is_mapped() {
            return Err(Refusal::NotMapped);
        }
        let Some(found) = self.stores.links.by_number(link) else {
            return Err(Refusal::NoLink);
        };
        let l = found.link;
        if !l.is_attached() {
            return Err(Refusal::NotAttached);
        }
        if !same_role(Role::Sender, l.role()) {
            return Err(Refusal::WrongRole);
        }
        let Some(unfinished) = l.sending() else {
            return Err(Refusal::NotInDelivery);
        };
        if self.session.windows.remote_incoming() == 0 {
            return Err(Refusal::NoWindow);
        }
        let size = unfinished.size + payload.len() as u128;
        if is_too_long(l.longest_theirs(), size) {
            return Err(Refusal::MessageTooLong);
        }
        let mut marks = l.marks();
        marks.sending = sending_after(more, unfinished.id, size);
        Ok(OnLink {
            key: found.key,
            handle: l.our_handle(),
            marks,
        })
    }

    /// The refusal that is due. O(log n) for n links.
    pub(crate) fn refuse_carry(&self, link: u32, payload: &Bytes, more: bool) -> Option<Refusal>
        requires { self.now.steps < 2 ^ 30 }
        ensures { result ≡ result_err (carry_answer self.now link payload.now more) }
    {
        match self.check_carry(link, payload, more) {
            Err(refusal) => Some(refusal),
            Ok(on) => {
                let body = later_body(on.handle, flag(more), None);
                sending_refusal(body, payload, self.session.max_frame)
            }
        }
    }

    /// The first refusal that is due, or the transfer that goes out: the octets of a short frame are out of the cutter's block.
    fn make_carry(&mut self, link: u32, payload: &Bytes, more: bool) -> Result<Carrying, Refusal>
        requires { self.old.steps < 2 ^ 30 }
        ensures same { self.new ≡ self.old }
        ensures window { IfOk result (λ c. 0 < self.old.windows.remote_incoming) }
        ensures plan { Makes Refusal.NoMemory self.old (carry_answer self.old link payload.now more) (next_carry self.old link payload.now more) (carry_plan self.old link) result }
    {
        let on = match self.check_carry(link, payload, more) {
            Ok(on) => on,
            Err(refusal) => return Err(refusal),
        };
        let body = later_body(on.handle, flag(more), None);
        let sent = match cut_sharing(
            self.alloc,
            &mut self.cutter,
            body,
            payload,
            self.session.max_frame,
        ) {
            Ok(sent) => sent,
            Err(refusal) => return Err(refusal),
        };
        Ok(Carrying { on, sent })
    }

    /// What a further transfer gives that would go out.
    pub(crate) fn foretell_carry(
        &mut self,
        link: u32,
        payload: &Bytes,
        more: bool,
    ) -> Result<Reply, Refusal>
        requires { self.old.steps < 2 ^ 30 }
        ensures same { self.new ≡ self.old }
        ensures reply { Foretells Refusal.NoMemory (carry_answer self.old link payload.now more) result }
    {
        match self.make_carry(link, payload, more) {
            Ok(c) => {
                let (reply, octets) = carried_done(self.alloc, c.sent).once();
                drop(octets);
                Ok(reply)
            }
            Err(refusal) => Err(refusal),
        }
    }

    /// More of the unfinished delivery is sent. O(log n) for n links.
    pub(crate) fn carry(&mut self, link: u32, payload: &Bytes, more: bool) -> Result<Done, Refusal>
        requires { self.old.steps < 2 ^ 30 }
        ensures done { Does Refusal.NoMemory (carry_answer self.old link payload.now more) (next_carry self.old link payload.now more) self.new result }
        ensures err { OnErr result (self.new ≡ self.old) }
    {
        let c = match self.make_carry(link, payload, more) {
            Ok(c) => c,
            Err(refusal) => return Err(refusal),
        };
        self.stores.mark(c.on.key, link, &c.on.marks);
        self.steps += 1;
        self.session = sent(self.session);
        Ok(carried_done(self.alloc, c.sent))
    }
}
