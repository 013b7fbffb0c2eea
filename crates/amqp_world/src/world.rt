//! Two ends that speak with each other.
ghost use Rattle.std.specs.Prelude.{ℕ, ◌≡◌, ◌≤◌, ◌↔◌, IfOk, IfErr, OnErr, OnOk, IsTrue, is_none, length, take, true, false, Some, IsOk};
ghost use Rattle.amqp_frames.specs.declared.frame.Frame.{Frame};
ghost use Rattle.amqp_rules.specs.Limits.{IsWithinLimits};
ghost use Rattle.amqp_laws.specs.Past.{past};
ghost use Rattle.amqp_laws.specs.Live.{live};
ghost use Rattle.amqp_journal.specs.Log.{Log};
ghost use Rattle.amqp_pair_laws.specs.Moves.{count, said_as};
ghost use Rattle.amqp_pair_laws.specs.World.{hears, sends, World};
ghost use Rattle.amqp_pair_laws.specs.Premise.{ids_heard};
ghost use Rattle.amqp_world.specs.Sides.{of, other, opened};
ghost use Rattle.amqp_world.specs.declared.side.Side.{Side};
ghost use Rattle.amqp_world.specs.Promises.{AgreesAtRest, AreReached, HearingEnds, IsAgreed, KnowsTheOther, TakesNext, TransferFindsRoom, TakesWhatWasSent, TakesEver, TakesOnAttached, TakesAll, HearsWhatWasSaid, HasWhatItSaid, LearnsWhatWasSaid};
ghost use Rattle.amqp_world.specs.Calls.{Does, IsRefused, Hears, IsUnheard};
ghost use Rattle.amqp_world.specs.Octets.{HearsTheOctets};
ghost use Rattle.amqp_world.specs.AtRest.{HaveHeard, IsAtRest, IsBounded, IsStopped, Turned, how_far};
ghost use Rattle.amqp_world.specs.Knowing.{Knows, Meets};
ghost use Rattle.amqp_world.specs.declared.heard.Hearing.{Hearing};

use crate::ahead::reaches_ahead;
use crate::fitting::{body_fits, op_fits};
use crate::heard::{Heard, Hearing};
use crate::next::{next_frame, whole};
use crate::refusal::{HearRefusal, WorldRefusal};
use crate::resuming::resumes;
use crate::settings::Settings;
use crate::settling::{Settled, Turn, Unsettled};
use crate::side::Side;
use amqp_frames::written_is_framed;
use amqp_journal::logged::Logged;
use amqp_pair_laws::laws::laws;
use amqp_rules::op::Op;
use amqp_rules::reply::Given;
use amqp_rules::violation::ViolationKind;
use std::alloc::{AllocError, Global};
use std::marker::Model;

/// Two ends that speak with each other: the two sessions with their journals. An entry comes in by `own` and `hear` alone, and the journals are whole.
#[derive(Drop)]
pub struct World {
    a: Logged,
    b: Logged,
    /// How far each has heard the other.
    a_hears: Hearing,
    b_hears: Hearing,
}

impl Model for World {
    ghost use Rattle.amqp_world.specs.Sides.{Sides};
    ghost use Rattle.amqp_world.specs.Knowing.{IsPair};
    ghost use Rattle.amqp_types.specs.contracts.value.Value as value;
    ghost use Rattle.std.specs.Coded.{codes};

    ghost Value = { Sides };

    ghost coded = { Prim.hlevel (codes, value.the_row.coded) };

    ghost view = { λ w. record { a = w.a; b = w.b } };

    ghost invariant = { λ w. IsPair w.a_hears w.b_hears w.a w.b };
}

impl World {
    /// Two ends whose opens were told; neither has begun its session.
    pub fn new(alloc: Global, a: &Settings, b: &Settings) -> Result<World, AllocError>
        requires a { IsWithinLimits a.now.session }
        requires b { IsWithinLimits b.now.session }
        ensures { IfOk result (λ world. world ≡ record { a = opened a.now.session b.now.max_frame; b = opened b.now.session a.now.max_frame }) }
    {
        let a_logged = open(alloc, a, b)?;
        let b_logged = open(alloc, b, a)?;
        Ok(World {
            a: a_logged,
            b: b_logged,
            a_hears: Hearing::new(b.session.first_id),
            b_hears: Hearing::new(a.session.first_id),
        })
    }

    /// Does an operation at one end: its journal has one entry more. It costs what `Logged::apply` does.
    ///
    /// Whatever it answers, then the frame that waits is no violation (`next`), what was taken is the front of what was sent (`sent`, `ever`), and what was
    /// learnt is what was said (`learnt`), at either end: `laws` tells these with the rest.
    ///
    /// # Errors
    ///
    /// `ReachesAhead` is told first, then `Resuming`, then what the session refuses.
    pub fn own(&mut self, side: Side, op: &Op) -> Result<Given, WorldRefusal>
        ensures given { IfOk result (λ given. Does (of side self.old) op.now given (of side self.new)) }
        ensures other { of (other side) self.new ≡ of (other side) self.old }
        ensures refusal { IfErr result (λ refusal. IsRefused (of side self.old) op.now refusal) }
        ensures err { OnErr result (self.new ≡ self.old) }
        ensures next { (side : Side) → TakesNext (of side self.new) (of (other side) self.new) }
        ensures sent { (side : Side) → TakesWhatWasSent (of side self.new) (of (other side) self.new) }
        ensures ever { (side : Side) → TakesEver (of side self.new) (of (other side) self.new) }
        ensures learnt { (side : Side) → LearnsWhatWasSaid (of side self.new) (of (other side) self.new) }
    {
        let given = match side {
            Side::A => own_by(&mut self.a, &mut self.a_hears, op),
            Side::B => own_by(&mut self.b, &mut self.b_hears, op),
        };
        self.laws();
        given
    }

    /// One end hears the next frame that the other sent: its journal has one entry more. It costs what `Logged::receive` does, and a look at the entries that
    /// sent nothing before it.
    ///
    /// Whatever it answers, then the frame that waits is no violation (`next`), what was taken is the front of what was sent (`sent`, `ever`), and what was
    /// learnt is what was said (`learnt`), at either end: `laws` tells these with the rest.
    ///
    /// # Errors
    ///
    /// `Empty` exactly where it has heard all, then `JournalFull` and want of memory; so no frame of the other is ever a violation.
    pub fn hear(&mut self, side: Side) -> Result<Given, HearRefusal>
        ensures given { IfOk result (λ given. Hears (of side self.old) (of (other side) self.old) given (of side self.new)) }
        ensures other { of (other side) self.new ≡ of (other side) self.old }
        ensures refusal { IfErr result (λ refusal. IsUnheard (of side self.old) (of (other side) self.old) refusal) }
        ensures err { OnErr result (self.new ≡ self.old) }
        ensures next { (side : Side) → TakesNext (of side self.new) (of (other side) self.new) }
        ensures sent { (side : Side) → TakesWhatWasSent (of side self.new) (of (other side) self.new) }
        ensures ever { (side : Side) → TakesEver (of side self.new) (of (other side) self.new) }
        ensures learnt { (side : Side) → LearnsWhatWasSaid (of side self.new) (of (other side) self.new) }
    {
        let given = match side {
            Side::A => hear_from(&mut self.a, &self.b, &mut self.a_hears),
            Side::B => hear_from(&mut self.b, &self.a, &mut self.b_hears),
        };
        self.laws();
        given
    }

    /// The session of one end, with its whole journal.
    pub fn side(&self, side: Side) -> &Logged
        ensures value { result.now ≡ of side self.now }
        ensures whole { (of side self.now).forgotten ≡ 0 }
    {
        match side {
            Side::A => &self.a,
            Side::B => &self.b,
        }
    }

    /// What holds of every two ends that speak with each other, of each side that hears the other. It does nothing.
    ///
    /// The frame that waits is no violation (`next`), and a transfer finds the window open, its link and credit (`transfer`). What was taken on an
    /// attached link is the front of the complete deliveries that were sent on the link whose attach was heard, with ids, tags, formats, payloads and
    /// whether they were settled (`sent`), also once the link is left or gone (`ever`), and all of them, with those that wait, where all frames were
    /// heard (`all`); nothing was taken on a link that was never attached (`only`). Where all frames were heard, the last state that was heard of a
    /// delivery is the last one that was given (`states`). An end's own state of what it received is the last one that it gave (`own`). What was learnt
    /// of a delivery the other had said of it, as its own, when it settled it or gave it an outcome first (`learnt`). Where all frames were heard, an
    /// end knows whether the other has begun its session, and, as long as its own is not over, that the other's is not, the ids of all its deliveries and
    /// the next one (`knows`).
    ///
    /// When each end has heard all that the other sent, they agree on their sessions, and while these are mapped on windows, links, counts, credit, drains
    /// and unsettled deliveries (`agree`). Two ends that only hear, in any order, hear at most twice as many frames as were in flight (`ends`).
    ///
    /// The octets of all units of an end are just the frames that it sent, none longer than the other takes, and what the other heard are the first of
    /// these that have a body (`octets`). So a framer, to which these octets are fed in any pieces, reads what is heard (`amqp_frames`, `cutting`).
    pub fn laws(&self)
        ensures reached { (side : Side) → AreReached (of side self.now) (of (other side) self.now) }
        ensures next { (side : Side) → TakesNext (of side self.now) (of (other side) self.now) }
        ensures transfer { (side : Side) → TransferFindsRoom (of side self.now) (of (other side) self.now) }
        ensures sent { (side : Side) → TakesWhatWasSent (of side self.now) (of (other side) self.now) }
        ensures ever { (side : Side) → TakesEver (of side self.now) (of (other side) self.now) }
        ensures only { (side : Side) → TakesOnAttached (of side self.now) }
        ensures all { (side : Side) → TakesAll (of side self.now) (of (other side) self.now) }
        ensures states { (side : Side) → HearsWhatWasSaid (of side self.now) (of (other side) self.now) }
        ensures own { (side : Side) → HasWhatItSaid (of side self.now) }
        ensures knows { (side : Side) → KnowsTheOther (of side self.now) (of (other side) self.now) }
        ensures learnt { (side : Side) → LearnsWhatWasSaid (of side self.now) (of (other side) self.now) }
        ensures agree { (side : Side) → AgreesAtRest (of side self.now) (of (other side) self.now) }
        ensures ends { (side : Side) → HearingEnds (of side self.now) (of (other side) self.now) }
        ensures octets { (side : Side) → HearsTheOctets (of side self.now) (of (other side) self.now) }
    {
        let _ = &self.a;
        laws();
        amqp_laws::laws::laws();
        written_is_framed();
    }

    /// Returns whether nothing is on its way: each end has heard all frames with a body that the other sent.
    ///
    /// Looks at the entries behind the last frame that each end heard.
    pub fn at_rest(&self) -> bool
        ensures { IsTrue result ↔ IsAtRest self.now }
    {
        has_heard_all(&self.b, self.a_hears.place) && has_heard_all(&self.a, self.b_hears.place)
    }

    /// Hears at both ends until nothing waits, and returns how many frames each end heard.
    ///
    /// These are at most twice as many as were on their way (`bounded`), since no answer is answered. Then the two ends agree (`agree`): their sessions are
    /// in one phase, and while these are mapped they have the same links, counts, credit, windows and unsettled deliveries. An end does nothing but
    /// hear (`heard`), also before an error.
    ///
    /// # Errors
    ///
    /// [`Unsettled`] with `JournalFull` or `NoMemory` if an end cannot hear what waits for it. It says how far both came, and the frame still waits.
    pub fn settle(&mut self) -> Result<Settled, Unsettled>
        ensures heard { HaveHeard (how_far result) self.old self.new }
        ensures bounded { IsBounded (how_far result) self.old }
        ensures rest { OnOk result (IsAtRest self.new) }
        ensures agree { OnOk result ((side : Side) → IsAgreed (of side self.new) (of (other side) self.new)) }
        ensures stops { IfErr result (λ stop. IsStopped stop.side stop.refusal self.new) }
    {
        let mut heard = Settled { a: 0, b: 0 };
        self.laws();
        loop {
            match self.hear_any() {
                Turn::Heard(Side::A) => heard.a += 1,
                Turn::Heard(Side::B) => heard.b += 1,
                Turn::Rests => {
                    self.laws();
                    return Ok(heard);
                }
                Turn::Stops(side, refusal) => {
                    return Err(Unsettled {
                        side,
                        refusal,
                        heard,
                    });
                }
            }
        }
    }

    /// Hears the next frame at the first end for which one waits.
    fn hear_any(&mut self) -> Turn
        ensures { Turned result self.old self.new }
    {
        match self.hear(Side::A) {
            Ok(_) => {
                self.laws();
                return Turn::Heard(Side::A);
            }
            Err(HearRefusal::Empty) => {}
            Err(refusal) => return Turn::Stops(Side::A, refusal),
        }
        match self.hear(Side::B) {
            Ok(_) => {
                self.laws();
                return Turn::Heard(Side::B);
            }
            Err(HearRefusal::Empty) => {}
            Err(refusal) => return Turn::Stops(Side::B, refusal),
        }
        self.laws();
        Turn::Rests
    }

    /// How much one end heard of the other.
    pub fn heard(&self, side: Side) -> Heard
        ensures frames { result.frames ≡ count hears (past (of side self.now).journal) }
        ensures firsts { result.firsts ≡ length (ids_heard (live (past (of side self.now).journal))) }
    {
        let hearing = match side {
            Side::A => self.a_hears,
            Side::B => self.b_hears,
        };
        Heard {
            frames: hearing.frames,
            firsts: hearing.firsts,
        }
    }
}

/// Nothing was sent at this place in the other's journal, or behind it.
fn has_heard_all(theirs: &Logged, place: usize) -> bool
    requires whole { theirs.now.forgotten ≡ 0 }
    requires within { place ≤ length theirs.now.journal }
    ensures { result ≡ is_none (said_as sends (count sends (past (take place theirs.now.journal))) (past theirs.now.journal)) }
{
    let mut place = place;
    next_frame(whole(theirs), &mut place).is_none()
}

/// A session that was told the longest frame that the other takes.
fn open(alloc: Global, settings: &Settings, other: &Settings) -> Result<Logged, AllocError>
    requires { IsWithinLimits settings.now.session }
    ensures { IfOk result (λ logged. logged ≡ opened settings.now.session other.now.max_frame) }
{
    let mut logged = Logged::new(alloc, &settings.session);
    match logged.opened(other.max_frame) {
        Ok(()) => Ok(logged),
        Err(_) => Err(AllocError),
    }
}

/// Does an operation, unless it reaches ahead or resumes.
fn own_by(mine: &mut Logged, hearing: &mut Hearing, op: &Op) -> Result<Given, WorldRefusal>
    requires { Knows hearing.old (past mine.old.journal) }
    ensures given { IfOk result (λ given. Does mine.old op.now given mine.new) }
    ensures refusal { IfErr result (λ refusal. IsRefused mine.old op.now refusal) }
    ensures err { OnErr result (mine.new ≡ mine.old) }
    ensures meets { (theirs : Log) → Meets hearing.old mine.old theirs → Meets hearing.new mine.new theirs }
    ensures met { (h : Hearing) (theirs : Log) → Meets h theirs mine.old → Meets h theirs mine.new }
{
    if reaches_ahead(op, hearing) {
        return Err(WorldRefusal::ReachesAhead);
    }
    if resumes(op) {
        return Err(WorldRefusal::Resuming);
    }
    op_fits(op);
    match mine.apply(op) {
        Ok(given) => {
            hearing.own(op);
            Ok(given)
        }
        Err(refusal) => Err(WorldRefusal::Refused(refusal)),
    }
}

/// Hears the next frame that the other sent.
fn hear_from(
    mine: &mut Logged,
    theirs: &Logged,
    hearing: &mut Hearing,
) -> Result<Given, HearRefusal>
    requires { Meets hearing.old mine.old theirs.now }
    ensures given { IfOk result (λ given. Hears mine.old theirs.now given mine.new) }
    ensures refusal { IfErr result (λ refusal. IsUnheard mine.old theirs.now refusal) }
    ensures err { OnErr result (mine.new ≡ mine.old) }
    ensures meets { Meets hearing.new mine.new theirs.now }
    ensures met { (h : Hearing) → Meets h theirs.now mine.old → Meets h theirs.now mine.new }
{
    let Some(frame) = next_frame(whole(theirs), &mut hearing.place) else {
        return Err(HearRefusal::Empty);
    };
    laws();
    body_fits(frame);
    match mine.receive(frame) {
        Ok(given) => {
            hearing.hear(frame);
            Ok(given)
        }
        Err(violation) => match violation.kind {
            ViolationKind::JournalFull => Err(HearRefusal::JournalFull),
            ViolationKind::NoMemory => Err(HearRefusal::NoMemory),
            _ => unreachable!(),
        },
    }
}
