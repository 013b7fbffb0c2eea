//! Take: the first delivery that waits on a link on which we receive is given.
ghost use Rattle.std.specs.Prelude.{◌≡◌, ◌<◌, ◌^◌, IfOk, OnErr};
ghost use Rattle.amqp_rules.specs.Take.{take_answer, taken_of, next_take};
ghost use Rattle.amqp_steps.specs.Doing.{Does, DoesOnce, Foretells, take_plan};
ghost use Rattle.amqp_steps.specs.Plan.{Checks, Makes};

use crate::endpoint::Endpoint;
use crate::refusal::Refusal;
use crate::reply::{Given, Reply, Taken};
use amqp_frames::Role;
use amqp_links::arrival::Waiting;
use amqp_links::credit::same_role;
use amqp_rules::sliced::Sliced;
use amqp_steps::done::{Done, quiet_done, quiet_reply};
use amqp_types::Boxed;
use std::alloc::AllocError;

/// What is given of a delivery that waits on this link. Its payload is shared.
fn taken_of(link: u32, waiting: &Waiting) -> Result<Taken, AllocError>
    ensures { IfOk result (λ t. t ≡ taken_of link waiting.now) }
{
    let payload = waiting.payload()?;
    Ok(Taken {
        id: waiting.id(),
        link,
        tag: *waiting.tag(),
        format: waiting.format(),
        payload,
        settled: waiting.is_settled(),
        second: waiting.is_second(),
    })
}

impl Endpoint {
    /// The first refusal that is due, or what waits first, with the key and the number of its link. O(log n) for n links.
    pub(crate) fn check_take(&self, link: u32) -> Result<(usize, u32, &Waiting), Refusal>
        ensures { Checks self.now (take_answer self.now link) (next_take self.now link) (λ first. take_plan self.now first.0 link (taken_of first.1 first.2.now)) result }
    {
        let Some(found) = self.stores.links.by_number(link) else {
            return Err(Refusal::NoLink);
        };
        if !same_role(Role::Receiver, found.link.role()) {
            return Err(Refusal::WrongRole);
        }
        match found.link.first_waiting() {
            Some(waiting) => Ok((found.key, found.link.number(), waiting)),
            None => Err(Refusal::Nothing),
        }
    }

    /// What waits first is made. O(n) for a payload that came in n transfers, none of whose octets are copied.
    fn make_taken(&self, link: u32) -> Result<(usize, Boxed<Taken>), Refusal>
        ensures { Makes Refusal.NoMemory self.now (take_answer self.now link) (next_take self.now link) (λ both. take_plan self.now both.0 link both.1) result }
    {
        let (key, number, waiting) = match self.check_take(link) {
            Ok(first) => first,
            Err(refusal) => return Err(refusal),
        };
        let Ok(taken) = taken_of(number, waiting) else {
            return Err(Refusal::NoMemory);
        };
        match Boxed::new(self.alloc, taken) {
            Ok(taken) => Ok((key, taken)),
            Err(_) => Err(Refusal::NoMemory),
        }
    }

    /// Takes what waits first.
    pub(crate) fn take(&mut self, link: u32) -> Result<Done, Refusal>
        requires { self.old.steps < 2 ^ 30 }
        ensures done { Does Refusal.NoMemory (take_answer self.old link) (next_take self.old link) self.new result }
        ensures err { OnErr result (self.new ≡ self.old) }
    {
        let (key, taken) = match self.make_taken(link) {
            Ok(both) => both,
            Err(refusal) => return Err(refusal),
        };
        let Ok(once_more) = taken.clone() else {
            drop(taken);
            return Err(Refusal::NoMemory);
        };
        self.stores.take(key, link);
        self.steps += 1;
        Ok(quiet_done(self.alloc, Given::Taken(taken), Given::Taken(once_more)))
    }

    /// What it would give.
    pub(crate) fn foretell_take(&self, link: u32) -> Result<Reply, Refusal>
        ensures { Foretells Refusal.NoMemory (take_answer self.now link) result }
    {
        match self.make_taken(link) {
            Ok((_, taken)) => Ok(quiet_reply(self.alloc, Given::Taken(taken))),
            Err(refusal) => Err(refusal),
        }
    }

    /// The same, where what it tells is wanted once.
    pub(crate) fn take_once(&mut self, link: u32) -> Result<(Reply, Option<Sliced>), Refusal>
        requires { self.old.steps < 2 ^ 30 }
        ensures done { DoesOnce Refusal.NoMemory (take_answer self.old link) (next_take self.old link) self.new result }
        ensures err { OnErr result (self.new ≡ self.old) }
    {
        let (key, taken) = match self.make_taken(link) {
            Ok(both) => both,
            Err(refusal) => return Err(refusal),
        };
        self.stores.take(key, link);
        self.steps += 1;
        Ok((quiet_reply(self.alloc, Given::Taken(taken)), None))
    }
}
