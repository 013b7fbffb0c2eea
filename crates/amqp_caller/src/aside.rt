//! Links that come back on another connection, and what links leave that are gone (part 2, 2.6.13).
ghost use Rattle.std.specs.Prelude.{◌≡◌, ◌⊎◌, IfOk, MatchResult, take};
ghost use Rattle.amqp_rules.specs.Status.{waiting_shown};
ghost use Rattle.amqp_caller.specs.Aside.{IsAside, IsRejoin, LeftTold, WaitTold, WasLeft, left_taken, rejoined};
ghost use Rattle.amqp_caller.specs.Numbers.{verdict_number};
ghost use Rattle.amqp_caller.specs.Calls.{Asked};
ghost use Rattle.amqp_caller.specs.Reading.{view_of};

use crate::arguments::{LinkSettings, role_of, source_of, target_of};
use crate::caller::Caller;
use crate::event::{Event, of_learned, of_taken, padded, verdict_number};
use crate::status::{BAD_ARGUMENT, DONE, NO_MEMORY};
use amqp_conn::{Boxed, Brought, Conn, Left, Op, Rejoin, Suspended, Tag, Value, Verdict};
use std::alloc::{AllocError, Global};

/// A link of a connection that was lost.
#[derive(Clone, Copy, Drop)]
pub struct LostLink {
    /// Our role on it: 0 sender, 1 receiver.
    pub role: u32,
    /// Its place among the links of the role that can be rejoined, in the order in which they were made.
    pub place: u32,
}

/// Returns the link, as it would have been put aside.
fn aside_at(conn: &Conn, link: LostLink) -> Result<Suspended, u32>
    ensures { MatchResult result (IsAside link conn.now) (λ s. (s ≡ 2) ⊎ (s ≡ 3)) }
{
    let role = role_of(link.role)?;
    let Ok(links) = conn.links_aside(role) else {
        return Err(NO_MEMORY);
    };
    let Some(aside) = links.get(link.place as usize) else {
        return Err(BAD_ARGUMENT);
    };
    match aside.clone() {
        Ok(aside) => Ok(aside),
        Err(AllocError) => Err(NO_MEMORY),
    }
}

/// Returns the operation that brings the link back, between these addresses.
fn rejoin(
    alloc: Global,
    aside: Suspended,
    source: Option<Boxed<Value>>,
    target: Option<Boxed<Value>>,
    settings: &LinkSettings,
) -> Result<Op, AllocError>
    ensures { IfOk result (λ o. o ≡ rejoined aside source target settings.now) }
{
    let items = Brought::new(alloc, aside.items)?;
    let rejoin = Rejoin {
        name: aside.name,
        role: aside.role,
        snd: settings.snd,
        rcv: settings.rcv,
        source,
        target,
        count: settings.count,
        max_message: settings.max_message,
        items,
    };
    Ok(Op::Rejoin(Boxed::new(alloc, rejoin)?))
}

/// Returns the operation that brings a link of a connection that was lost back.
fn rejoin_of(
    alloc: Global,
    lost: &Conn,
    link: LostLink,
    source: &[u8],
    target: &[u8],
    settings: &LinkSettings,
) -> Result<Op, u32>
    ensures { MatchResult result (IsRejoin link lost.now source.now target.now settings.now) (λ s. (s ≡ 2) ⊎ (s ≡ 3)) }
{
    let source = source_of(alloc, source)?;
    let target = target_of(alloc, target)?;
    let aside = aside_at(lost, link)?;
    match rejoin(alloc, aside, source, target, settings) {
        Ok(op) => Ok(op),
        Err(AllocError) => Err(NO_MEMORY),
    }
}

/// Returns the operation that resumes a delivery.
fn resume_of(link: u32, tag: &[u8], settled: bool) -> Result<Op, u32>
    ensures { MatchResult result (λ o. o ≡ Op.Resume link tag.now settled) (λ s. (s ≡ 2) ⊎ (s ≡ 3)) }
{
    let Some(tag) = Tag::new(tag) else {
        return Err(BAD_ARGUMENT);
    };
    Ok(Op::Resume { link, tag, settled })
}

/// Returns the event of a delivery that waits to be resumed.
fn of_waiting(link: u32, tag: &Tag, verdict: Verdict) -> Event
    ensures kind { result.kind ≡ 12 }
    ensures link { result.link ≡ link }
    ensures tag { take result.tag_len result.tag ≡ tag.now }
    ensures verdict { result.verdict ≡ verdict_number verdict }
{
    Event {
        kind: 12,
        link,
        verdict: verdict_number(verdict),
        tag_len: tag.octets().len() as u32,
        tag: padded(tag),
        ..Event::none()
    }
}

impl Caller {
    /// Brings a link back that another connection had when it was lost (part 2, 2.6.13). What was unsettled on it waits to be resumed.
    ///
    /// # Errors
    ///
    /// [`BAD_ARGUMENT`] if there is no such link, [`NO_MEMORY`], and those of [`Caller::apply`].
    pub fn rejoin(
        &mut self,
        alloc: Global,
        lost: &Caller,
        link: LostLink,
        source: &[u8],
        target: &[u8],
        settings: &LinkSettings,
        event: &mut Event,
    ) -> u32
        ensures { Asked (IsRejoin link lost.now.conn source.now target.now settings.now) (λ s. (s ≡ 2) ⊎ (s ≡ 3)) self.old result event.new self.new }
    {
        self.does(
            rejoin_of(alloc, &lost.conn, link, source, target, settings),
            event,
        )
    }

    /// Resumes the delivery with this tag that waits on the link (part 2, 2.6.13).
    ///
    /// # Errors
    ///
    /// [`BAD_ARGUMENT`] if the tag is too long, and those of [`Caller::apply`].
    pub fn resume(&mut self, link: u32, tag: &[u8], settled: bool, event: &mut Event) -> u32
        ensures { Asked (λ o. o ≡ Op.Resume link tag.now settled) (λ s. (s ≡ 2) ⊎ (s ≡ 3)) self.old result event.new self.new }
    {
        self.does(resume_of(link, tag, settled), event)
    }

    /// Reports the delivery at this place among those that wait on the link to be resumed: its tag, and what the peer holds of it.
    ///
    /// # Errors
    ///
    /// [`BAD_ARGUMENT`] if there is none.
    pub fn waiting(&self, link: u32, place: u32, event: &mut Event) -> u32
        ensures { WaitTold link (waiting_shown (view_of self.now.conn) link place) result event.new }
    {
        match self
            .conn
            .logged()
            .endpoint()
            .waiting_at(link, place as usize)
        {
            Some((tag, verdict)) => {
                *event = of_waiting(link, tag, verdict);
                DONE
            }
            None => {
                *event = Event::none();
                BAD_ARGUMENT
            }
        }
    }

    /// Returns in `event` the first of what is left: a delivery that was ready and not taken, or an outcome that was reported and not learnt, when its
    /// link or the connection ended. The event is that of a take or of a learn; its kind is 0 if nothing is left.
    ///
    /// # Errors
    ///
    /// [`NO_MEMORY`]; nothing has changed then.
    pub fn left(&mut self, event: &mut Event) -> u32
        ensures { WasLeft self.old result event.new self.new }
    {
        match self.conn.pop_left() {
            Ok(left) => {
                self.keep_left(left, event);
                DONE
            }
            Err(AllocError) => NO_MEMORY,
        }
    }

    /// Reports what is left, and keeps a delivery, so that its payload can be read.
    fn keep_left(&mut self, left: Option<Left>, event: &mut Event)
        ensures conn { self.new.conn ≡ self.old.conn }
        ensures rest { self.new.rest ≡ self.old.rest }
        ensures taken { self.new.taken ≡ left_taken left self.old.taken }
        ensures told { LeftTold left event.new }
    {
        match left {
            Some(Left::Delivery(name, taken)) => {
                drop(name);
                *event = of_taken(taken.get());
                self.taken = Some(taken);
            }
            Some(Left::Outcome(name, learned)) => {
                drop(name);
                *event = of_learned(learned.get());
                drop(learned);
            }
            None => *event = Event::none(),
        }
    }
}
