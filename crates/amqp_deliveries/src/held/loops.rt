//! What happens to the deliveries of a span.
ghost use Rattle.std.specs.Prelude.{◌≡◌, ◌-◌, ◌≤◌, ◌+◌, ◌++◌, ◌∷◌, [], false, length, filter_map, IfOk, OnOk};
ghost use Rattle.std.specs.List.{All};
ghost use Rattle.amqp_performatives.specs.declared.state.DeliveryState.{DeliveryState};
ghost use Rattle.amqp_events.specs.Event as event;
ghost use Rattle.amqp_deliveries.specs.Held.{IsHeld};
ghost use Rattle.amqp_deliveries.specs.Edits.{stated, told_first};
ghost use Rattle.amqp_deliveries.specs.Span.{IsWithin, without, part, change_part};
ghost use Rattle.amqp_deliveries.specs.Tags.{IsIndex};
ghost use Rattle.amqp_deliveries.specs.declared.item.Side.TheVariants.{Remote};

use crate::disposition::{Disposition, Telling};
use crate::item::{Entry, Side};
use crate::span::Span;
use crate::tags::TagIndex;
use amqp_performatives::DeliveryState;
use std::alloc::{AllocError, Global};
use std::collections::VecDeque;

/// The tags of the deliveries at these places are not in use any more.
pub(super) fn forget(tags: &mut TagIndex, items: &VecDeque<Entry>, span: Span)
    requires within { IsWithin span items.now.items }
    requires held { IsHeld items.now.items }
    requires index { IsIndex tags.old items.now.items }
    ensures { IsIndex tags.new (without span items.now.items) }
{
    for place in span.start..span.end {
        let item = &items[place];
        tags.remove(item);
    }
}

/// The deliveries at these places go. Of one alone the shorter side moves once, of more twice.
pub(super) fn cut(items: &mut VecDeque<Entry>, span: Span)
    requires { IsWithin span items.old.items }
    ensures { items.new.items ≡ without span items.old.items }
{
    if span.len() == 1 {
        drop(items.remove(span.start));
    } else {
        drop(items.drain(span.start..span.end));
    }
}

/// So many copies of a state.
pub(super) fn copies(
    alloc: Global,
    state: &DeliveryState,
    count: usize,
) -> Result<Vec<DeliveryState>, AllocError>
    ensures count { IfOk result (λ v. length v.items ≡ count) }
    ensures same { IfOk result (λ v. All (λ copy. copy ≡ state.now) v.items) }
{
    let mut copies = Vec::with_capacity(alloc, count)?;
    for _ in 0..count {
        let copy = state.clone()?;
        copies.push(copy)?;
    }
    Ok(copies)
}

/// Each delivery at these places keeps one of the copies of a state.
pub(super) fn keep(
    items: &mut VecDeque<Entry>,
    span: Span,
    side: Side,
    tells: bool,
    mut copies: Vec<DeliveryState>,
)
    requires within { IsWithin span items.old.items }
    requires count { length copies.items ≡ span.end - span.start }
    ensures { (state : DeliveryState) → All (λ copy. copy ≡ state) copies.items → items.new.items ≡ change_part span (stated side tells state) items.old.items }
{
    let mut place = span.start;
    while let Some(copy) = copies.pop() {
        let item = &mut items[place];
        item.set_state(side, tells, copy);
        place += 1;
    }
}

/// The peer gives this state to the one delivery at these places, if there is one.
pub(super) fn set_first(items: &mut VecDeque<Entry>, span: Span, state: DeliveryState)
    requires within { IsWithin span items.old.items }
    requires few { span.end ≤ span.start + 1 }
    ensures { items.new.items ≡ change_part span (stated Remote false state) items.old.items }
{
    if span.start < span.end {
        let item = &mut items[span.start];
        item.set_state(Side::Remote, false, state);
    }
}

/// What a disposition tells of the deliveries at these places.
pub(super) fn tellings(
    alloc: Global,
    items: &VecDeque<Entry>,
    span: Span,
    said: &Disposition,
) -> Result<Vec<Telling>, AllocError>
    requires { IsWithin span items.now.items }
    ensures { IfOk result (λ v. v.items ≡ filter_map (told_first said.now) (part span items.now.items)) }
{
    let mut told = Vec::with_capacity(alloc, span.len())?;
    for place in span.start..span.end {
        let entry = &items[place];
        add_telling(&mut told, entry, said)?;
    }
    Ok(told)
}

/// What a disposition tells of this delivery goes behind the others, where it was not told before.
fn add_telling(told: &mut Vec<Telling>, entry: &Entry, said: &Disposition) -> Result<(), AllocError>
    ensures { OnOk result (told.new.items ≡ told.old.items ++ filter_map (told_first said.now) (entry.now ∷ [])) }
{
    if entry.is_told() {
        return Ok(());
    }
    let telling = said.telling(&entry.item)?;
    told.push(telling)?;
    Ok(())
}
