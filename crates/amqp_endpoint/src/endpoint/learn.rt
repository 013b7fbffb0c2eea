//! Learn: the first thing that was told of a delivery on a link on which we send is given.
ghost use Rattle.std.specs.Prelude.{◌≡◌, ◌<◌, ◌^◌, IfOk, OnErr};
ghost use Rattle.amqp_rules.specs.Learn.{learn_answer, learned_of, next_learn};
ghost use Rattle.amqp_steps.specs.Doing.{Does, DoesOnce, Foretells, learn_plan};
ghost use Rattle.amqp_steps.specs.Plan.{Checks, Makes};

use crate::endpoint::Endpoint;
use crate::refusal::Refusal;
use crate::reply::{Given, Learned, Reply};
use amqp_deliveries::Telling;
use amqp_frames::Role;
use amqp_links::credit::same_role;
use amqp_performatives::copying::copy_state;
use amqp_rules::sliced::Sliced;
use amqp_steps::done::{Done, quiet_done, quiet_reply};
use amqp_types::Boxed;
use std::alloc::AllocError;

/// What is given of a thing that was told.
fn learned_of(told: &Telling) -> Result<Learned, AllocError>
    ensures { IfOk result (λ l. l ≡ learned_of told.now) }
{
    let state = copy_state(&told.state)?;
    Ok(Learned {
        id: told.id,
        link: told.link,
        tag: told.tag,
        state,
        settled: told.settled,
    })
}

impl Endpoint {
    /// The first refusal that is due, or what was told first, with the key of its link; also of a link that we are leaving. O(log n) for n
    /// links.
    pub(crate) fn check_learn(&self, link: u32) -> Result<(usize, &Telling), Refusal>
        ensures { Checks self.now (learn_answer self.now link) (next_learn self.now link) (λ both. learn_plan self.now both.0 link (learned_of both.1.now)) result }
    {
        let Some(found) = self.stores.links.by_number(link) else {
            return Err(Refusal::NoLink);
        };
        if !same_role(Role::Sender, found.link.role()) {
            return Err(Refusal::WrongRole);
        }
        match found.link.first_told() {
            Some(told) => Ok((found.key, told)),
            None => Err(Refusal::Nothing),
        }
    }

    /// What was told first is made.
    fn make_learned(&self, link: u32) -> Result<(usize, Boxed<Learned>), Refusal>
        ensures { Makes Refusal.NoMemory self.now (learn_answer self.now link) (next_learn self.now link) (λ both. learn_plan self.now both.0 link both.1) result }
    {
        let (key, told) = match self.check_learn(link) {
            Ok(both) => both,
            Err(refusal) => return Err(refusal),
        };
        let Ok(learned) = learned_of(told) else {
            return Err(Refusal::NoMemory);
        };
        match Boxed::new(self.alloc, learned) {
            Ok(learned) => Ok((key, learned)),
            Err(_) => Err(Refusal::NoMemory),
        }
    }

    /// Learns what was told first.
    pub(crate) fn learn(&mut self, link: u32) -> Result<Done, Refusal>
        requires { self.old.steps < 2 ^ 30 }
        ensures done { Does Refusal.NoMemory (learn_answer self.old link) (next_learn self.old link) self.new result }
        ensures err { OnErr result (self.new ≡ self.old) }
    {
        let (key, learned) = match self.make_learned(link) {
            Ok(both) => both,
            Err(refusal) => return Err(refusal),
        };
        let Ok(once_more) = learned.clone() else {
            drop(learned);
            return Err(Refusal::NoMemory);
        };
        self.stores.learn(key, link);
        self.steps += 1;
        Ok(quiet_done(
            self.alloc,
            Given::Learned(learned),
            Given::Learned(once_more),
        ))
    }

    /// What it would give.
    pub(crate) fn foretell_learn(&self, link: u32) -> Result<Reply, Refusal>
        ensures { Foretells Refusal.NoMemory (learn_answer self.now link) result }
    {
        match self.make_learned(link) {
            Ok((_, learned)) => Ok(quiet_reply(self.alloc, Given::Learned(learned))),
            Err(refusal) => Err(refusal),
        }
    }

    /// The same, where what it tells is wanted once.
    pub(crate) fn learn_once(&mut self, link: u32) -> Result<(Reply, Option<Sliced>), Refusal>
        requires { self.old.steps < 2 ^ 30 }
        ensures done { DoesOnce Refusal.NoMemory (learn_answer self.old link) (next_learn self.old link) self.new result }
        ensures err { OnErr result (self.new ≡ self.old) }
    {
        let (key, learned) = match self.make_learned(link) {
            Ok(both) => both,
            Err(refusal) => return Err(refusal),
        };
        self.stores.learn(key, link);
        self.steps += 1;
        Ok((quiet_reply(self.alloc, Given::Learned(learned)), None))
    }
}
