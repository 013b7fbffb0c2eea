//! Start: a delivery begins, with its first transfer.
ghost use Rattle.std.specs.Prelude.{◌≡◌, ◌<◌, ◌^◌, Err, ℕ, IfOk, MatchResult, OnErr, length, find};
ghost use Rattle.amqp_steps.specs.Doing.{Does, Foretells};
ghost use Rattle.amqp_steps.specs.Plan.{Makes};
ghost use Rattle.amqp_steps.specs.Starting.{second_on, start_plan};
ghost use Rattle.amqp_steps.specs.Taking.{IsTaken};
ghost use Rattle.std.specs.Result.{result_err};
ghost use Rattle.amqp_rules.specs.Refusing.{first_refusal};
ghost use Rattle.amqp_rules.specs.Start.{begin_delivery, start_refusals, start_answer, next_start};
ghost use Rattle.amqp_rules.specs.View.{has_number, next_delivery};

use crate::endpoint::Endpoint;
use crate::refusal::Refusal;
use crate::reply::Reply;
use amqp_frames::Role;
use amqp_links::credit::same_role;
use amqp_links::link::Link;
use amqp_steps::done::Done;
use amqp_steps::onlink::OnLink;
use amqp_steps::sending::{cut_sharing, sending_refusal};
use amqp_steps::start::{
    Starting, is_too_long, item_begun, marks_begun, mode_forbids, sending_done, size_of,
    start_body, started, uses_tag,
};
use amqp_types::Tag;
use bytes::Bytes;

impl Endpoint {
    /// The refusal that a delivery meets on this link.
    fn start_refusal(&self, l: &Link, tag: &Tag, settled: bool, payload: &Bytes) -> Option<Refusal>
        ensures { result ≡ first_refusal (start_refusals self.now l.now tag.now settled payload.now) }
    {
        if !l.is_attached() {
            return Some(Refusal::NotAttached);
        }
        if !same_role(Role::Sender, l.role()) {
            return Some(Refusal::WrongRole);
        }
        if l.sending().is_some() {
            return Some(Refusal::InDelivery);
        }
        if uses_tag(&self.stores.tables, l, tag) {
            return Some(Refusal::TagHeld);
        }
        if mode_forbids(l.snd_mode(), settled) {
            return Some(Refusal::SettleMode);
        }
        if l.credit() == 0 {
            return Some(Refusal::NoCredit);
        }
        if self.session.windows.remote_incoming() == 0 {
            return Some(Refusal::NoWindow);
        }
        if is_too_long(l.longest_theirs(), size_of(payload)) {
            return Some(Refusal::MessageTooLong);
        }
        None
    }

    /// The first refusal that is due, or the link as it will be, and whether its receiver settles second (part 2, 2.8.3).
    fn check_start(
        &self,
        link: u32,
        tag: &Tag,
        settled: bool,
        payload: &Bytes,
        more: bool,
    ) -> Result<(OnLink, bool), Refusal>
        ensures taken { MatchResult result (λ both. IsTaken self.now link (λ l. start_refusals self.now l tag.now settled payload.now) (begin_delivery (next_delivery self.now) (length payload.now) more) both.0) (λ e. (format : ℕ) → start_answer self.now link tag.now format settled payload.now more ≡ Err e) }
        ensures second { IfOk result (λ both. both.1 ≡ second_on (find (has_number link) self.now.links)) }
    {
        if !self.session.is_mapped() {
            return Err(Refusal::NotMapped);
        }
        let Some(found) = self.stores.links.by_number(link) else {
            return Err(Refusal::NoLink);
        };
        let l = found.link;
        if let Some(refusal) = self.start_refusal(l, tag, settled, payload) {
            return Err(refusal);
        }
        let id = self.session.next_delivery();
        let on = OnLink {
            key: found.key,
            handle: l.our_handle(),
            marks: marks_begun(l, id, size_of(payload), more),
        };
        Ok((on, l.rcv_mode() == 1))
    }
}

impl Endpoint {
    /// The refusal that is due. O(log n) for n links, and for as many unsettled deliveries.
    pub(crate) fn refuse_start(
        &self,
        link: u32,
        tag: &Tag,
        format: u32,
        settled: bool,
        payload: &Bytes,
        more: bool,
    ) -> Option<Refusal>
        ensures { result ≡ result_err (start_answer self.now link tag.now format settled payload.now more) }
    {
        match self.check_start(link, tag, settled, payload, more) {
            Err(refusal) => Some(refusal),
            Ok((on, _)) => {
                let id = self.session.next_delivery();
                let body = start_body(on.handle, id, *tag, format, settled, more);
                sending_refusal(body, payload, self.session.max_frame)
            }
        }
    }

    /// The first refusal that is due, or the delivery that begins: the octets of a short frame are out of the cutter's block.
    fn make_start(
        &mut self,
        link: u32,
        tag: &Tag,
        format: u32,
        settled: bool,
        payload: &Bytes,
        more: bool,
    ) -> Result<Starting, Refusal>
        requires { self.old.steps < 2 ^ 30 }
        ensures same { self.new ≡ self.old }
        ensures window { IfOk result (λ s. 0 < self.old.windows.remote_incoming) }
        ensures plan { Makes Refusal.NoMemory self.old (start_answer self.old link tag.now format settled payload.now more) (next_start self.old link tag.now format settled payload.now more) (start_plan self.old link tag.now settled) result }
    {
        let (on, second) = match self.check_start(link, tag, settled, payload, more) {
            Ok(both) => both,
            Err(refusal) => return Err(refusal),
        };
        let _size = size_of(payload);
        let id = self.session.next_delivery();
        let body = start_body(on.handle, id, *tag, format, settled, more);
        let sent = match cut_sharing(
            self.alloc,
            &mut self.cutter,
            body,
            payload,
            self.session.max_frame,
        ) {
            Ok(sent) => sent,
            Err(refusal) => return Err(refusal),
        };
        Ok(Starting { on, second, sent })
    }

    /// What a delivery gives that would begin.
    pub(crate) fn foretell_start(
        &mut self,
        link: u32,
        tag: &Tag,
        format: u32,
        settled: bool,
        payload: &Bytes,
        more: bool,
    ) -> Result<Reply, Refusal>
        requires { self.old.steps < 2 ^ 30 }
        ensures same { self.new ≡ self.old }
        ensures reply { Foretells Refusal.NoMemory (start_answer self.old link tag.now format settled payload.now more) result }
    {
        match self.make_start(link, tag, format, settled, payload, more) {
            Ok(s) => {
                let id = self.session.next_delivery();
                let (reply, octets) = sending_done(self.alloc, s.sent, id).once();
                drop(octets);
                Ok(reply)
            }
            Err(refusal) => Err(refusal),
        }
    }

    /// A delivery begins, and its first transfer is sent.
    pub(crate) fn start(
        &mut self,
        link: u32,
        tag: &Tag,
        format: u32,
        settled: bool,
        payload: &Bytes,
        more: bool,
    ) -> Result<Done, Refusal>
        requires { self.old.steps < 2 ^ 30 }
        ensures done { Does Refusal.NoMemory (start_answer self.old link tag.now format settled payload.now more) (next_start self.old link tag.now format settled payload.now more) self.new result }
        ensures err { OnErr result (self.new ≡ self.old) }
    {
        let s = match self.make_start(link, tag, format, settled, payload, more) {
            Ok(s) => s,
            Err(refusal) => return Err(refusal),
        };
        let id = self.session.next_delivery();
        let item = item_begun(id, link, tag, s.second);
        match self
            .stores
            .start(s.on.key, link, &s.on.marks, settled, item)
        {
            Ok(()) => {}
            Err(_) => {
                drop(s);
                return Err(Refusal::NoMemory);
            }
        }
        self.steps += 1;
        self.session = started(self.session);
        Ok(sending_done(self.alloc, s.sent, id))
    }
}
