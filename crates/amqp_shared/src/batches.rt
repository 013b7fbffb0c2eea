//! Batches of deliveries: taken under one lock, consumed without it, and settled under one lock.
ghost use Rattle.std.specs.Prelude.{suc, ◌≡◌, ◌≢◌, ◌<◌, ◌≤◌, ◌+◌, ◌-◌, ◌^◌, ◌++◌, ◌∷◌, ◌↔◌, [], ⊤, length, map, None, IfOk, IfNone, IfSome, IsTrue, IsFalse};
ghost use Rattle.amqp_rules.specs.Take.{taken_in};
ghost use Rattle.amqp_rules.specs.declared.reply.Given.TheVariants as given;
ghost use Rattle.amqp_shared.specs.Batching.{TakesMore, TakesBatch, ConsumesAll, TellsSpan, GoesTo, TellsAll, SettlesAll, IsNext, alone, longer, passed};
ghost use Rattle.amqp_shared.specs.Consuming.{Tells, Asks, granting, Grants};
ghost use Rattle.amqp_shared.specs.Renewing.{credit_on, IsDue, IsNotDue, MayRest};

use crate::consumers::Work;
use crate::guard::Guard;
use crate::name::Name;
use crate::pass::Pass;
use crate::renewal::Renewal;
use crate::shared::Shared;
use amqp_frames::{DeliveryState, Role};
use amqp_performatives::equal_is_same;
use amqp_rules::op::Op;
use amqp_rules::refusal::Refusal;
use amqp_rules::reply::{Given, Taken};
use std::alloc::{AllocError, Global};
use std::collections::VecDeque;
use std::marker::Model;
use std::sync::Wait;

/// A delivery, and the state that its work gave it.
#[derive(Drop)]
pub(crate) struct Judged {
    pub(crate) item: Taken,
    pub(crate) state: DeliveryState,
}

/// Deliveries with consecutive ids and the same state: one disposition covers them all (part 2, 2.7.6).
#[derive(Drop)]
pub(crate) struct Span {
    pub(crate) first: u32,
    pub(crate) last: u32,
    /// Whether the receiver settles second (part 2, 2.8.3).
    pub(crate) second: bool,
    pub(crate) state: DeliveryState,
}

/// Deliveries that are taken together: those that are not consumed yet, and those that were. It has room for `more + 1`
/// deliveries.
#[derive(Drop)]
pub(crate) struct Batch {
    items: VecDeque<Taken>,
    judged: VecDeque<Judged>,
    more: u32,
}

impl Model for Batch {
    ghost use Rattle.std.specs.Prelude.{◌<◌, ◌≤◌, ◌+◌};
    ghost use Rattle.std.specs.VecDeque.{deque_len, deque_capacity};
    ghost use Rattle.amqp_shared.specs.Batching.{InHand};
    ghost use Rattle.amqp_types.specs.contracts.value.Value as value;
    ghost use Rattle.std.specs.Coded.{codes};

    ghost Value = { InHand };

    ghost coded = { Prim.hlevel (codes, value.the_row.coded) };

    ghost view = { λ b. record { items = b.items.items; judged = b.judged.items; more = b.more } };

    ghost invariant = { λ b. (b.more < deque_capacity b.items) × (b.more < deque_capacity b.judged) × (deque_len b.items + deque_len b.judged ≤ b.more + 1) };
}

impl Batch {
    pub(crate) fn new(alloc: Global, more: u32) -> Result<Batch, AllocError>
        ensures { IfOk result (λ b. b.more ≡ more) }
    {
        let room = more as usize + 1;
        Ok(Batch {
            items: VecDeque::with_capacity(alloc, room)?,
            judged: VecDeque::with_capacity(alloc, room)?,
            more,
        })
    }

    /// Returns how many deliveries were taken and are not consumed yet.
    pub(crate) fn len(&self) -> usize
        ensures { result ≡ length self.now.items }
    {
        self.items.len()
    }

    fn clear(&mut self)
        ensures { self.new ≡ record self.old { items = []; judged = [] } }
    {
        self.items.clear();
        self.judged.clear();
    }

    fn has_room(&self) -> bool
        ensures room { IsTrue result → length self.now.items + length self.now.judged ≤ self.now.more }
        ensures full { IsFalse result → self.now.more < length self.now.items + length self.now.judged }
    {
        self.items.len() + self.judged.len() <= self.more as usize
    }

    fn put(&mut self, item: Taken)
        requires { length self.old.items + length self.old.judged ≤ self.old.more }
        ensures { self.new ≡ record self.old { items = self.old.items ++ item ∷ [] } }
    {
        self.items.push_back_reserved(item);
    }

    /// Has the work consume the next delivery. `None` if all are consumed.
    fn judge<W: Work>(&mut self, work: &mut W) -> Option<()>
        ensures some { IfSome result (λ u. (j : _) × (self.old.items ≡ j.item ∷ self.new.items) × (self.new.judged ≡ self.old.judged ++ j ∷ []) × (self.new.more ≡ self.old.more) × W.consumes work.old j.item j.state work.new) }
        ensures none { IfNone result ((self.old.items ≡ []) × (self.new ≡ self.old) × (work.new ≡ work.old)) }
    {
        let item = self.items.pop_front()?;
        let state = work.consume(&item);
        self.judged.push_back_reserved(Judged { item, state });
        Some(())
    }

    /// Has the work consume all deliveries, in order.
    pub(crate) fn judge_all<W: Work>(&mut self, work: &mut W)
        requires { self.old.judged ≡ [] }
        ensures consumed { ConsumesAll W.consumes work.old self.new.judged work.new }
        ensures all { map (λ j. j.item) self.new.judged ≡ self.old.items }
        ensures more { self.new.more ≡ self.old.more }
    {
        while let Some(()) = self.judge(work) {}
    }

    fn next_judged(&mut self) -> Option<Judged>
        ensures some { IfSome result (λ j. self.old ≡ record self.new { judged = j ∷ self.new.judged }) }
        ensures none { IfNone result ((self.old.judged ≡ []) × (self.new ≡ self.old)) }
    {
        self.judged.pop_front()
    }
}

fn delivery_of(told: Given) -> Taken
    requires { taken_in told ≢ None }
    ensures { told ≡ given.Taken result }
{
    match told.into_taken() {
        Some(item) => item.into_inner(),
        None => unreachable!(),
    }
}

fn take_one<N: Name>(
    shared: &Shared<N>,
    guard: &mut Guard<'_, N>,
    pass: &mut Pass<N>,
    link: u32,
) -> Option<Taken>
    ensures some { IfSome result (λ t. TakesMore link (t ∷ []) 0 pass.old pass.new) }
    ensures none { IfNone result ((room : _) → TakesMore link [] (suc room) pass.old pass.new) }
{
    match shared.call(guard, pass, &Op::Take { link }) {
        Ok((_, told)) => Some(delivery_of(told)),
        Err(_) => None,
    }
}

fn take_more<N: Name>(
    shared: &Shared<N>,
    guard: &mut Guard<'_, N>,
    pass: &mut Pass<N>,
    link: u32,
    batch: &mut Batch,
)
    requires { (batch.old.judged ≡ []) × (length batch.old.items ≤ batch.old.more + 1) }
    ensures few { length batch.new.items ≤ batch.old.more + 1 }
    ensures more { (ts : _) × (batch.new ≡ record batch.old { items = batch.old.items ++ ts }) × TakesMore link ts (batch.old.more + 1 - length batch.new.items) pass.old pass.new }
{
    while batch.has_room() {
        match take_one(shared, guard, pass, link) {
            Some(item) => batch.put(item),
            None => return,
        }
    }
}

/// Waits for a delivery of the link, and takes what else is ready, as far as there is room. Drops what was in the batch
/// before.
pub(crate) fn take_batch<N: Name, R: Wait>(
    rt: &R,
    shared: &Shared<N>,
    pass: &mut Pass<N>,
    link: u32,
    batch: &mut Batch,
) -> Result<(), Refusal>
    ensures takes { TakesBatch link batch.old.more pass.old batch.new.items result pass.new }
    ensures judged { batch.new.judged ≡ [] }
    ensures room { batch.new.more ≡ batch.old.more }
    ensures range { pass.new.made < 2 ^ 64 }
{
    batch.clear();
    let (mut guard, answer) = shared.call_wait(rt, shared.lock(rt), pass, &Op::Take { link });
    let taken = match answer {
        Ok((_, told)) => {
            batch.put(delivery_of(told));
            take_more(shared, &mut guard, pass, link, batch);
            Ok(())
        }
        Err(refusal) => Err(refusal),
    };
    drop(guard);
    let _ = pass.made();
    taken
}

impl Span {
    fn of(one: Judged) -> Span
        ensures { result ≡ alone one }
    {
        let Judged { item, state } = one;
        Span {
            first: item.id,
            last: item.id,
            second: item.second,
            state,
        }
    }

    /// Ids are serial numbers, so the one after the last may wrap (part 2, 2.8.10).
    fn is_next(&self, one: &Judged) -> bool
        ensures { IsTrue result ↔ IsNext self.now one.now }
    {
        equal_is_same();
        one.item.id == self.last.wrapping_add(1)
            && one.item.second == self.second
            && one.state == self.state
    }

    fn and(self, one: Judged) -> Span
        ensures { result ≡ longer self one }
    {
        Span {
            last: one.item.id,
            ..self
        }
    }
}

fn apply<N: Name>(
    shared: &Shared<N>,
    guard: &mut Guard<'_, N>,
    pass: &mut Pass<N>,
    op: Op,
) -> Result<(), Refusal>
    ensures tells { Tells guard.old.conn op result guard.new.conn }
    ensures asks { Asks pass.old op result pass.new }
{
    let answer = shared.call(guard, pass, &op);
    drop(op);
    match answer {
        Ok((_, given)) => {
            drop(given);
            Ok(())
        }
        Err(refusal) => Err(refusal),
    }
}

/// Sends the state of a span, and settles it unless the sender is to settle first (part 2, 2.7.3). If nothing is held
/// any more, the peer has settled it meanwhile.
fn tell_span<N: Name>(
    shared: &Shared<N>,
    guard: &mut Guard<'_, N>,
    pass: &mut Pass<N>,
    span: Span,
) -> Result<(), Refusal>
    ensures tells { TellsSpan Tells span guard.old.conn result guard.new.conn }
    ensures asks { TellsSpan Asks span pass.old result pass.new }
{
    let Span {
        first,
        last,
        second,
        state,
    } = span;
    let op = Op::Dispose {
        role: Role::Receiver,
        first,
        last,
        settled: !second,
        state: Some(state),
    };
    match apply(shared, guard, pass, op) {
        Ok(()) | Err(Refusal::NothingHeld) => Ok(()),
        Err(refusal) => Err(refusal),
    }
}

/// Returns the span that is open after this delivery. A delivery that came settled gets no state; one that does not
/// continue the open span begins another, and the state of the open one is sent.
fn go_to<N: Name>(
    shared: &Shared<N>,
    guard: &mut Guard<'_, N>,
    pass: &mut Pass<N>,
    begun: Option<Span>,
    one: Judged,
) -> Result<Option<Span>, Refusal>
    ensures tells { GoesTo Tells begun one guard.old.conn result guard.new.conn }
    ensures asks { GoesTo Asks begun one pass.old result pass.new }
{
    if one.item.settled {
        drop(one);
        return Ok(begun);
    }
    match begun {
        None => Ok(Some(Span::of(one))),
        Some(span) => {
            if span.is_next(&one) {
                return Ok(Some(span.and(one)));
            }
            match tell_span(shared, guard, pass, span) {
                Ok(()) => Ok(Some(Span::of(one))),
                Err(refusal) => {
                    drop(one);
                    Err(refusal)
                }
            }
        }
    }
}

fn tell_all<N: Name>(
    shared: &Shared<N>,
    guard: &mut Guard<'_, N>,
    pass: &mut Pass<N>,
    batch: &mut Batch,
) -> Result<(), Refusal>
    ensures tells { TellsAll Tells batch.old.judged None guard.old.conn result guard.new.conn }
    ensures asks { TellsAll Asks batch.old.judged None pass.old result pass.new }
    ensures room { batch.new.more ≡ batch.old.more }
{
    let mut begun = None;
    while let Some(one) = batch.next_judged() {
        begun = match go_to(shared, guard, pass, begun, one) {
            Ok(begun) => begun,
            Err(refusal) => return Err(refusal),
        };
    }
    match begun {
        Some(span) => tell_span(shared, guard, pass, span),
        None => Ok(()),
    }
}

/// Returns how many deliveries of the link may still begin; 0 if there is no such link.
fn credit_of<N: Name>(guard: &Guard<'_, N>, link: u32) -> u32
    ensures { result ≡ credit_on guard.now.conn link }
{
    match guard.conn().logged().endpoint().status(link) {
        Some(status) => status.credit,
        None => 0,
    }
}

fn grant_if_due<N: Name>(
    shared: &Shared<N>,
    guard: &mut Guard<'_, N>,
    pass: &mut Pass<N>,
    link: u32,
    credit: u32,
    renewal: Renewal,
) -> Result<(), Refusal>
    ensures grants { Grants Tells (IsDue renewal credit link) (IsNotDue renewal credit link) guard.old.conn (granting link credit) result guard.new.conn }
    ensures pass { Grants Asks (λ _. ⊤) (λ _. MayRest renewal) pass.old (granting link credit) result pass.new }
{
    let rest = credit_of(guard, link);
    if !renewal.is_due(credit, rest) {
        return Ok(());
    }
    let grant = Op::Grant {
        link,
        credit,
        drain: false,
        echo: false,
    };
    apply(shared, guard, pass, grant)
}

fn settle_all<N: Name>(
    shared: &Shared<N>,
    guard: &mut Guard<'_, N>,
    pass: &mut Pass<N>,
    batch: &mut Batch,
    link: u32,
    credit: u32,
    renewal: Renewal,
) -> Result<(), Refusal>
    ensures settles { SettlesAll Tells (IsDue renewal credit link) (IsNotDue renewal credit link) guard.old.conn batch.old.judged link credit result guard.new.conn }
    ensures pass { SettlesAll Asks (λ _. ⊤) (λ _. MayRest renewal) pass.old batch.old.judged link credit result pass.new }
    ensures room { batch.new.more ≡ batch.old.more }
{
    match tell_all(shared, guard, pass, batch) {
        Ok(()) => grant_if_due(shared, guard, pass, link, credit, renewal),
        Err(refusal) => Err(refusal),
    }
}

/// Sends the states of all consumed deliveries, and grants the credit if it is due, under one lock.
pub(crate) fn settle_batch<N: Name, R: Wait>(
    rt: &R,
    shared: &Shared<N>,
    pass: &mut Pass<N>,
    batch: &mut Batch,
    link: u32,
    credit: u32,
    renewal: Renewal,
) -> Result<(), Refusal>
    ensures pass { SettlesAll Asks (λ _. ⊤) (λ _. MayRest renewal) pass.old batch.old.judged link credit result pass.new }
    ensures room { batch.new.more ≡ batch.old.more }
{
    let mut guard = shared.lock(rt);
    settle_all(shared, &mut guard, pass, batch, link, credit, renewal)
}
