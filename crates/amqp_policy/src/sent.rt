//! Which messages of a sender are in doubt, over as many connections as it takes (part 2, 2.6.13).
ghost use Rattle.std.specs.Prelude.{◌≡◌, ◌==◌, ◌&&◌, not, cond, ℕ, List, length, find, option_map, slice_get, count_by, IfOk, OnOk, OnErr};
ghost use Rattle.std.specs.List.{list_any, position};
ghost use Rattle.amqp_policy.specs.Sent.{none, is_of, is_in_doubt, is_unresolved as is_unresolved_doubt, without, brought_number, brought, all_brought, resolved_if, resolved, may_begin, after_begin, begun_of, after_end, after_bring, after_resolve, with_kept, keeping, after_keep};
ghost use Rattle.amqp_policy.specs.SentHistory.{SentCall, state_after, events_of, has_begun, has_ended, is_unresolved, IsLawful};

use crate::outcome::{Outcome, Outcomes};
use std::alloc::{AllocError, Global};
use std::marker::Model;

/// A message that has begun, and of which no outcome is known.
#[derive(Drop)]
struct Doubt<M> {
    number: u32,
    /// It began over an earlier connection, and is not resolved over this one.
    is_brought: bool,
    kept: M,
}

/// The messages of a sender, by number: which comes next, which are in doubt, and how many had each outcome.
///
/// A message is in doubt from the moment it begins until its outcome is known. When another connection begins ([`bring`](SentDoubts::bring)), each message in doubt
/// is brought in, and is to be resolved: the peer's attach says what becomes of it (part 2, 2.6.13). Nothing begins before that.
///
/// `M` is what is kept of a message in doubt. Each call takes O(n) for n messages in doubt.
#[derive(Drop)]
pub struct SentDoubts<M> {
    next: u32,
    doubts: Vec<Doubt<M>>,
    outcomes: Outcomes,
}

impl<M> Model for SentDoubts<M> {
    ghost use Rattle.amqp_policy.specs.Sent.{Sent};

    ghost Value = { Sent M };

    ghost view = { λ s. record { next = s.next; doubts = s.doubts.items; outcomes = s.outcomes } };
}

/// What [`SentDoubts::begin`] did.
#[derive(Clone, Copy, Debug, PartialEq, Eq)]
pub enum Begun {
    /// The message began under this number.
    Number(u32),
    /// A message that was brought in is not resolved. Nothing has changed.
    Unresolved,
    /// All numbers are used up. Nothing has changed.
    NoNumber,
}

fn has<M>(doubts: &[Doubt<M>], number: u32) -> bool
    ensures { result ≡ is_in_doubt number doubts.now }
{
    doubts.iter().any(|doubt| doubt.number == number)
}

fn has_brought<M>(doubts: &[Doubt<M>]) -> bool
    ensures { result ≡ list_any (λ d. d.is_brought) doubts.now }
{
    doubts.iter().any(|doubt| doubt.is_brought)
}

fn brought_in<M>(doubts: &[Doubt<M>], place: usize) -> Option<u32>
    ensures { result ≡ brought_number place doubts.now }
{
    let mut left = place;
    for at in 0..doubts.len() {
        if !doubts[at].is_brought {
            continue;
        }
        if left == 0 {
            return Some(doubts[at].number);
        }
        left -= 1;
    }
    None
}

fn remove<M: Drop>(doubts: &mut Vec<Doubt<M>>, number: u32)
    ensures { doubts.new.items ≡ without number doubts.old.items }
{
    doubts.retain(|doubt| doubt.number != number);
}

fn place_of<M>(doubts: &[Doubt<M>], number: u32) -> Option<usize>
    ensures { result ≡ position (is_of number) doubts.now }
{
    doubts.iter().position(|doubt| doubt.number == number)
}

fn keep_at<M: Drop>(doubts: &mut Vec<Doubt<M>>, place: usize, kept: M)
    ensures { doubts.new.items ≡ with_kept (slice_get doubts.old.items place) place kept doubts.old.items }
{
    match doubts.get_mut(place) {
        Some(doubt) => doubt.kept = kept,
        None => drop(kept),
    }
}

fn keep_in<M: Drop>(doubts: &mut Vec<Doubt<M>>, number: u32, kept: M)
    ensures { doubts.new.items ≡ keeping number kept doubts.old.items }
{
    match place_of(doubts.as_slice(), number) {
        Some(place) => keep_at(doubts, place, kept),
        None => drop(kept),
    }
}

fn bring_all<M>(doubts: &mut [Doubt<M>])
    ensures { doubts.new ≡ all_brought doubts.old }
{
    for place in 0..doubts.len() {
        bring_one(&mut doubts[place]);
    }
}

fn bring_one<M>(doubt: &mut Doubt<M>)
    ensures { doubt.new ≡ brought doubt.old }
{
    doubt.is_brought = true;
}

fn resolve_in<M>(doubts: &mut [Doubt<M>], number: u32)
    ensures { doubts.new ≡ resolved number doubts.old }
{
    for place in 0..doubts.len() {
        resolve_one(&mut doubts[place], number);
    }
}

fn resolve_one<M>(doubt: &mut Doubt<M>, number: u32)
    ensures { doubt.new ≡ resolved_if number doubt.old }
{
    if doubt.number == number {
        doubt.is_brought = false;
    }
}

impl<M: Drop> SentDoubts<M> {
    /// Returns the state in which no message has begun.
    pub fn new(alloc: Global) -> SentDoubts<M>
        ensures { result ≡ none }
    {
        SentDoubts {
            next: 0,
            doubts: Vec::new(alloc),
            outcomes: Outcomes::NONE,
        }
    }

    /// Returns the number of the message that begins next. All messages with lower numbers have begun.
    pub fn next(&self) -> u32
        ensures { result ≡ self.now.next }
    {
        self.next
    }

    /// Returns how many messages are in doubt.
    pub fn len(&self) -> usize
        ensures { result ≡ length self.now.doubts }
    {
        self.doubts.len()
    }

    /// Returns whether no message is in doubt.
    pub fn is_empty(&self) -> bool
        ensures { result ≡ (length self.now.doubts == 0) }
    {
        self.doubts.is_empty()
    }

    /// Returns how many messages had each outcome.
    pub fn outcomes(&self) -> Outcomes
        ensures { result ≡ self.now.outcomes }
    {
        self.outcomes
    }

    /// Returns the number of one message in doubt, in the order in which they began.
    pub fn number_at(&self, place: usize) -> Option<u32>
        ensures { result ≡ option_map (λ d. d.number) (slice_get self.now.doubts place) }
    {
        match self.doubts.get(place) {
            Some(doubt) => Some(doubt.number),
            None => None,
        }
    }

    /// Returns whether the message is in doubt.
    pub fn has(&self, number: u32) -> bool
        ensures { result ≡ is_in_doubt number self.now.doubts }
    {
        has(self.doubts.as_slice(), number)
    }

    /// Returns what is kept of the message, or `None` if it is not in doubt.
    pub fn kept(&self, number: u32) -> Option<&M>
        ensures { option_map (λ k. k.now) result ≡ option_map (λ d. d.kept) (find (is_of number) self.now.doubts) }
    {
        match self.doubts.iter().find(|doubt| doubt.number == number) {
            Some(doubt) => Some(&doubt.kept),
            None => None,
        }
    }

    /// Replaces what is kept of the message, and returns whether it is in doubt.
    pub fn keep(&mut self, number: u32, kept: M) -> bool
        ensures new { self.new ≡ after_keep number kept self.old }
        ensures known { result ≡ is_in_doubt number self.old.doubts }
    {
        let is_known = has(self.doubts.as_slice(), number);
        keep_in(&mut self.doubts, number, kept);
        is_known
    }

    /// Returns how many messages were brought in and are not resolved.
    pub fn brought_len(&self) -> usize
        ensures { result ≡ count_by (λ d. d.is_brought) self.now.doubts }
    {
        self.doubts.iter().filter(|doubt| doubt.is_brought).count()
    }

    /// Returns the number of one message that was brought in and is not resolved, in the order in which they began.
    pub fn brought_at(&self, place: usize) -> Option<u32>
        ensures { result ≡ brought_number place self.now.doubts }
    {
        brought_in(self.doubts.as_slice(), place)
    }

    /// Returns whether a message may begin: a number is left, and all that was brought in is resolved.
    pub fn may_begin(&self) -> bool
        ensures { result ≡ may_begin self.now }
    {
        self.next < u32::MAX && !has_brought(self.doubts.as_slice())
    }

    /// Begins the next message, which is in doubt from now on, and returns its number.
    ///
    /// Changes nothing and drops `kept` if a message that was brought in is not resolved, or if no number is left.
    ///
    /// # Errors
    ///
    /// `AllocError` if memory runs out. Nothing has changed then.
    pub fn begin(&mut self, kept: M) -> Result<Begun, AllocError>
        ensures begun { IfOk result (λ b. b ≡ begun_of self.old) }
        ensures new { OnOk result (self.new ≡ after_begin kept self.old) }
        ensures err { OnErr result (self.new ≡ self.old) }
    {
        if has_brought(self.doubts.as_slice()) {
            drop(kept);
            return Ok(Begun::Unresolved);
        }
        let number = self.next;
        if number == u32::MAX {
            drop(kept);
            return Ok(Begun::NoNumber);
        }
        self.doubts.push(Doubt {
            number,
            is_brought: false,
            kept,
        })?;
        self.next = number + 1;
        Ok(Begun::Number(number))
    }

    /// Reads back that a message began. Returns false and changes nothing if it is not the next one, or if none may begin.
    ///
    /// # Errors
    ///
    /// `AllocError` if memory runs out. Nothing has changed then.
    pub fn recall_begun(&mut self, number: u32, kept: M) -> Result<bool, AllocError>
        ensures known { IfOk result (λ b. b ≡ (number == self.old.next && may_begin self.old)) }
        ensures new { IfOk result (λ b. self.new ≡ cond b (after_begin kept self.old) self.old) }
        ensures err { OnErr result (self.new ≡ self.old) }
    {
        if number != self.next || !self.may_begin() {
            drop(kept);
            return Ok(false);
        }
        self.begin(kept)?;
        Ok(true)
    }

    /// Reads back the outcome of a message, as [`end`](SentDoubts::end).
    pub fn recall_ended(&mut self, number: u32, outcome: Outcome) -> bool
        ensures new { self.new ≡ after_end number outcome self.old }
        ensures known { result ≡ is_in_doubt number self.old.doubts }
    {
        self.end(number, outcome)
    }

    /// Counts the outcome of a message, which is in doubt no more. Returns false and changes nothing if it is not in doubt.
    pub fn end(&mut self, number: u32, outcome: Outcome) -> bool
        ensures new { self.new ≡ after_end number outcome self.old }
        ensures known { result ≡ is_in_doubt number self.old.doubts }
    {
        if !has(self.doubts.as_slice(), number) {
            return false;
        }
        remove(&mut self.doubts, number);
        self.outcomes.count(outcome);
        true
    }

    /// Notes that another connection begins, which brings in all that is in doubt: each is to be resolved before anything begins.
    pub fn bring(&mut self)
        ensures { self.new ≡ after_bring self.old }
    {
        bring_all(self.doubts.as_mut_slice());
    }

    /// Notes that the peer's attach has decided what becomes of the message. It stays in doubt until its outcome is known.
    pub fn resolve(&mut self, number: u32)
        ensures { self.new ≡ after_resolve number self.old }
    {
        resolve_in(self.doubts.as_mut_slice(), number);
    }
}

/// What holds after every sequence of calls, beginning with [`SentDoubts::new`].
///
/// - `lawful`: a message begins only if it never began before, and only while nothing that was brought in is unresolved; an outcome is counted only of a message that
///   began and has had none.
/// - `doubt`: what is in doubt is exactly what has begun and has not ended.
/// - `unresolved`: what is to be resolved is exactly what was in doubt when the connection began and has been neither resolved nor ended since.
pub fn sent_laws<M>()
    ensures lawful { (calls : List (SentCall M)) → IsLawful (events_of calls) }
    ensures doubt { (calls : List (SentCall M)) (number : ℕ) → is_in_doubt number (state_after calls).doubts ≡ (has_begun number (events_of calls) && not (has_ended number (events_of calls))) }
    ensures unresolved { (calls : List (SentCall M)) (number : ℕ) → list_any (is_unresolved_doubt number) (state_after calls).doubts ≡ is_unresolved number (events_of calls) }
{}
