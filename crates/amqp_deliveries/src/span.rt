//! Neighbouring places, and how the places are found that a range of ids covers.
ghost use Rattle.std.specs.Prelude.{◌≡◌, ◌≤◌, ◌-◌, ◌↔◌, IsTrue};
ghost use Rattle.amqp_deliveries.specs.Held.{IsHeld};
ghost use Rattle.amqp_deliveries.specs.Span.{IsSpan, IsSpread, IsNarrowed};

use crate::item::Entry;
use amqp_flow::serial::Serial;
use std::collections::VecDeque;

/// The places from `start` on, before `end`.
#[derive(Clone, Copy, Debug, PartialEq, Eq)]
pub struct Span {
    pub start: usize,
    pub end: usize,
}

impl Span {
    /// How many places they are.
    pub fn len(&self) -> usize
        ensures { result ≡ self.now.end - self.now.start }
    {
        self.end.saturating_sub(self.start)
    }

    /// Whether it has no place.
    pub fn is_empty(&self) -> bool
        ensures { IsTrue result ↔ (self.now.end ≤ self.now.start) }
    {
        self.end <= self.start
    }
}

/// How many deliveries in front lie less than `reach` past the id `front`.
/// Were each id held, that were `reach` itself; it is less by no more than the ids in between that are not held.
fn place_at(items: &VecDeque<Entry>, front: u32, reach: u32) -> usize
    requires { IsSpread front items.now.items }
    ensures { IsNarrowed front items.now.items reach result result }
{
    let Some(last) = items.back() else {
        return 0;
    };
    let ids = Serial(front).distance(Serial(last.id())) as usize + 1;
    let holes = ids.saturating_sub(items.len());
    let reached = reach as usize;
    let mut low = items.len().min(reached.saturating_sub(holes));
    let mut high = items.len().min(reached);
    while low < high {
        let middle = low + (high - low) / 2;
        let item = &items[middle];
        if Serial(front).distance(Serial(item.id())) < reach {
            low = middle + 1;
        } else {
            high = middle;
        }
    }
    low
}

/// The places of the deliveries that the ids `first` to `last` cover. Distances are taken from the id in front, from which they rise.
pub(crate) fn span_of(items: &VecDeque<Entry>, first: u32, last: u32) -> Span
    requires { IsHeld items.now.items }
    ensures { IsSpan first last items.now.items result }
{
    const HALF: u32 = 1 << 31;
    let none = Span { start: 0, end: 0 };
    let Some(item) = items.front() else {
        return none;
    };
    let front = item.id();
    let reach = Serial(first).distance(Serial(last));
    let skipped = Serial(front).distance(Serial(first));
    let ahead = Serial(first).distance(Serial(front));
    if reach >= HALF {
        none
    } else if skipped < HALF {
        let start = place_at(items, front, skipped);
        let end = place_at(items, front, skipped + reach + 1);
        Span { start, end }
    } else if reach >= ahead {
        let end = place_at(items, front, reach - ahead + 1);
        Span { start: 0, end }
    } else {
        none
    }
}
