//! A transfer that is heard (part 2, 2.6.12, 2.6.14 and 2.7.5): what it violates, or how it comes.
ghost use Rattle.std.specs.Prelude.{◌≡◌, ◌<◌, ◌^◌, IfOk, OnErr};
ghost use Rattle.std.specs.Result.{result_err};
ghost use Rattle.amqp_steps.specs.Arriving.{arrival_plan};
ghost use Rattle.amqp_steps.specs.Doing.{Does, Foretells};
ghost use Rattle.amqp_steps.specs.Plan.{Checks};
ghost use Rattle.amqp_steps.specs.Transferring.{first_rows};
ghost use Rattle.amqp_rules.specs.PeerTransfer.{delivery_violations, name_violations, next_transfer, transfer_answer, transfer_violations};
ghost use Rattle.amqp_rules.specs.Refusing.{first_refusal, no_memory};

use crate::endpoint::Endpoint;
use crate::reply::{Given, Reply};
use crate::violation::{Violation, ViolationKind};
use amqp_frames::TransferBody;
use amqp_links::link::Link;
use amqp_steps::arriving::Arrival;
use amqp_steps::done::{Done, quiet_reply};
use amqp_steps::peer_transfer::{
    delivery_violation, is_nameless, is_unexpected, later_violation, receives, takes_tag,
};
use bytes::Bytes;

impl Endpoint {
    /// A transfer that is heard.
    pub(crate) fn transfer(&mut self, b: &TransferBody, payload: &Bytes) -> Result<Done, Violation>
        requires { self.old.steps < 2 ^ 30 }
        ensures done { Does no_memory (transfer_answer self.old b.now payload.now) (next_transfer self.old b.now payload.now) self.new result }
        ensures err { OnErr result (self.new ≡ self.old) }
    {
        match self.arrival(b, payload) {
            Ok(Arrival::Passed(expected)) => Ok(self.pass(expected)),
            Ok(Arrival::Comes(arriving)) => match self.come(b, payload, &arriving) {
                Ok(done) => Ok(done),
                Err(_) => Err(Violation::unlinked(ViolationKind::NoMemory)),
            },
            Err(violation) => Err(violation),
        }
    }

    /// What a transfer would give.
    pub(crate) fn foretell_transfer(
        &self,
        b: &TransferBody,
        payload: &Bytes,
    ) -> Result<Reply, Violation>
        ensures { Foretells no_memory (transfer_answer self.now b.now payload.now) result }
    {
        match self.arrival(b, payload) {
            Ok(Arrival::Passed(_)) => Ok(quiet_reply(self.alloc, Given::Nothing)),
            Ok(Arrival::Comes(arriving)) => match self.arrived_reply(b, &arriving) {
                Ok(reply) => Ok(reply),
                Err(_) => Err(Violation::unlinked(ViolationKind::NoMemory)),
            },
            Err(violation) => Err(violation),
        }
    }

    /// What a transfer violates.
    pub(crate) fn arrival_violation(&self, b: &TransferBody, payload: &Bytes) -> Option<Violation>
        ensures { result ≡ result_err (transfer_answer self.now b.now payload.now) }
    {
        match self.arrival(b, payload) {
            Ok(_) => None,
            Err(violation) => Some(violation),
        }
    }

    /// What a transfer violates, or how it comes. O(log n) for n links, beside the table of unsettled deliveries.
    fn arrival(&self, b: &TransferBody, payload: &Bytes) -> Result<Arrival, Violation>
        ensures window { IfOk result (λ a. 0 < self.now.windows.incoming) }
        ensures plan { Checks self.now (transfer_answer self.now b.now payload.now) (next_transfer self.now b.now payload.now) (arrival_plan self.now b.now payload.now) result }
    {
        if !self.session.takes_frames() {
            return Err(Violation::unlinked(ViolationKind::OutOfSession));
        }
        let Some(found) = self.stores.links.by_peer_handle(b.handle) else {
            return Err(Violation::unlinked(ViolationKind::BadHandle));
        };
        let l = found.link;
        if let Some(violation) = self.transfer_violation(l, b, payload) {
            return Err(violation);
        }
        if l.has_left() {
            return Ok(Arrival::Passed(self.make_passed(b, l, payload)));
        }
        let arriving = match l.progress() {
            Some(progress) => self.make_later(b, found.key, l, progress, payload),
            None => self.make_first(b, found.key, l, payload),
        };
        Ok(Arrival::Comes(arriving))
    }

    /// What a transfer violates on this link.
    fn transfer_violation(&self, l: &Link, b: &TransferBody, payload: &Bytes) -> Option<Violation>
        ensures { result ≡ first_refusal (transfer_violations self.now b.now payload.now l.now) }
    {
        if !receives(l) {
            return Some(Violation::unlinked(ViolationKind::BadHandle));
        }
        if self.session.windows.incoming() == 0 {
            return Some(Violation::unlinked(ViolationKind::Window));
        }
        if l.has_left() {
            return None;
        }
        self.taken_violation(l, b, payload)
    }

    /// What a transfer violates on a link that we have not left.
    fn taken_violation(&self, l: &Link, b: &TransferBody, payload: &Bytes) -> Option<Violation>
        ensures { result ≡ first_refusal (delivery_violations self.now b.now payload.now l.now) }
    {
        match self.name_violation(l, b) {
            Some(violation) => Some(violation),
            None => delivery_violation(l, b, payload),
        }
    }

    /// What a transfer violates by its names.
    fn name_violation(&self, l: &Link, b: &TransferBody) -> Option<Violation>
        ensures { result ≡ first_refusal (name_violations self.now b.now l.now l.now.receiving) }
    {
        match l.progress() {
            Some(progress) => later_violation(b, progress.id),
            None => self.first_violation(l, b),
        }
    }

    /// What a first transfer violates by its names.
    fn first_violation(&self, l: &Link, b: &TransferBody) -> Option<Violation>
        ensures { result ≡ first_refusal (first_rows self.now b.now l.now) }
    {
        if is_nameless(b) {
            return Some(Violation::unlinked(ViolationKind::MissingField));
        }
        if is_unexpected(self.session.expected, b) {
            return Some(Violation::unlinked(ViolationKind::IdOrder));
        }
        if takes_tag(&self.stores.tables, l, b) {
            return Some(Violation::unlinked(ViolationKind::TagHeld));
        }
        None
    }
}
