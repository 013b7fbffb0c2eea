//! Which messages of a receiver are in doubt, over as many connections as it takes (part 2, 2.6.12 and 2.6.13).
ghost use Rattle.std.specs.Prelude.{◌≡◌, ◌+◌, ◌++◌, ◌∷◌, ℕ, List, [], length, min, slice_get, OnOk, OnErr};
ghost use Rattle.amqp_policy.specs.Received.{none, has_tag, without, is_known, after_take, after_settle, after_bring, after_confirm, confirmed_of, after_mark, after_keep, after_tell, after_pop_brought, after_pop_told, remaining};
ghost use Rattle.amqp_policy.specs.ReceivedHistory.{ReceivedCall, state_after, events_of, is_in_doubt, takings, HasNoTwo};

use amqp_types::Tag;
use std::alloc::{AllocError, Global};
use std::collections::VecDeque;
use std::marker::Model;

/// Credit was granted. A message that comes by it shows that the sender has heard what it was told before (part 2, 2.6.7).
#[derive(Clone, Copy)]
struct Mark {
    /// So many of the messages that were told come before it.
    count: usize,
    /// So many messages may still come by older credit.
    left: u32,
}

/// The messages of a receiver: how many it took, and which of them are in doubt.
///
/// A message is in doubt from the moment it is taken until it is known that its sender asks no more about it. When another connection begins
/// ([`bring`](ReceivedDoubts::bring)), it brings in the tags of all that is in doubt.
///
/// No tag is in doubt twice. A sender that uses a tag again has settled the delivery that had it before (part 2, 2.6.12). Most calls take O(n) for n messages in
/// doubt.
#[derive(Drop)]
pub struct ReceivedDoubts {
    count: u64,
    octets: u64,
    /// Accepted over an earlier connection.
    brought: VecDeque<Tag>,
    /// Accepted over this connection.
    told: VecDeque<Tag>,
    mark: Option<Mark>,
}

impl Model for ReceivedDoubts {
    ghost use Rattle.amqp_policy.specs.Received.{Received};

    ghost Value = { Received };

    ghost view = { λ r. record { count = r.count; octets = r.octets; brought = r.brought.items; told = r.told.items; mark = r.mark } };
}

fn has(tags: &VecDeque<Tag>, tag: &Tag) -> bool
    ensures { result ≡ has_tag tag.now tags.now.items }
{
    tags.iter().any(|it| *it == *tag)
}

fn remove(tags: &mut VecDeque<Tag>, tag: &Tag)
    ensures { tags.new.items ≡ without tag.now tags.old.items }
{
    tags.retain(|it| *it != *tag);
}

/// How many of the first `count` tags are not this one.
fn count_others(tags: &VecDeque<Tag>, tag: &Tag, count: usize) -> usize
    ensures { result ≡ remaining tag.now count tags.now.items }
{
    tags.iter().take(count).filter(|it| **it != *tag).count()
}

fn push(tags: &mut VecDeque<Tag>, tag: Tag) -> Result<(), AllocError>
    ensures ok { OnOk result (tags.new.items ≡ tags.old.items ++ tag ∷ []) }
    ensures err { OnErr result (tags.new.items ≡ tags.old.items) }
{
    match tags.push_back(tag) {
        Ok(()) => Ok(()),
        Err(_) => Err(AllocError),
    }
}

impl ReceivedDoubts {
    /// Returns the state in which no message was taken.
    pub fn new(alloc: Global) -> ReceivedDoubts
        ensures { result ≡ none }
    {
        ReceivedDoubts {
            count: 0,
            octets: 0,
            brought: VecDeque::new(alloc),
            told: VecDeque::new(alloc),
            mark: None,
        }
    }

    /// Returns how many messages were taken.
    pub fn count(&self) -> u64
        ensures { result ≡ self.now.count }
    {
        self.count
    }

    /// Returns how many octets the messages that were taken had together.
    pub fn octets(&self) -> u64
        ensures { result ≡ self.now.octets }
    {
        self.octets
    }

    /// Returns how many messages are in doubt that came over earlier connections.
    pub fn brought_len(&self) -> usize
        ensures { result ≡ length self.now.brought }
    {
        self.brought.len()
    }

    /// Returns the tag of one message in doubt that came over an earlier connection.
    pub fn brought_at(&self, place: usize) -> Option<Tag>
        ensures { result ≡ slice_get self.now.brought place }
    {
        match self.brought.get(place) {
            Some(tag) => Some(*tag),
            None => None,
        }
    }

    /// Returns how many messages are in doubt whose outcome was sent over this connection.
    pub fn told_len(&self) -> usize
        ensures { result ≡ length self.now.told }
    {
        self.told.len()
    }

    /// Returns the tag of one message in doubt whose outcome was sent over this connection.
    pub fn told_at(&self, place: usize) -> Option<Tag>
        ensures { result ≡ slice_get self.now.told place }
    {
        match self.told.get(place) {
            Some(tag) => Some(*tag),
            None => None,
        }
    }

    /// Returns how many messages are in doubt.
    pub fn doubts(&self) -> usize
        ensures { result ≡ min (length self.now.brought + length self.now.told) 18446744073709551615 }
    {
        self.brought.len().saturating_add(self.told.len())
    }

    /// Returns whether a message with this tag is in doubt.
    pub fn has(&self, tag: &Tag) -> bool
        ensures { result ≡ is_known tag.now self.now }
    {
        has(&self.brought, tag) || has(&self.told, tag)
    }

    /// Counts a message that was taken, and is in doubt from now on.
    ///
    /// # Errors
    ///
    /// `AllocError` if memory runs out. A message that had this tag is settled then, and nothing else has changed.
    pub fn take(&mut self, tag: Tag, octets: u64) -> Result<(), AllocError>
        ensures ok { OnOk result (self.new ≡ after_take tag octets self.old) }
        ensures err { OnErr result (self.new ≡ after_settle tag self.old) }
    {
        self.settle(&tag);
        push(&mut self.told, tag)?;
        self.count = self.count.saturating_add(1);
        self.octets = self.octets.saturating_add(octets);
        Ok(())
    }

    /// Notes that the sender asks no more about the message with this tag, and returns whether it was in doubt.
    pub fn settle(&mut self, tag: &Tag) -> bool
        ensures new { self.new ≡ after_settle tag.now self.old }
        ensures known { result ≡ is_known tag.now self.old }
    {
        let is_known = self.has(tag);
        if is_known {
            if let Some(mark) = self.mark {
                self.mark = Some(Mark {
                    count: count_others(&self.told, tag, mark.count),
                    left: mark.left,
                });
            }
            remove(&mut self.brought, tag);
            remove(&mut self.told, tag);
        }
        is_known
    }

    /// Notes that another connection begins, which brings in all that is in doubt.
    ///
    /// # Errors
    ///
    /// `AllocError` if memory runs out. Nothing has changed then.
    pub fn bring(&mut self) -> Result<(), AllocError>
        ensures ok { OnOk result (self.new ≡ after_bring self.old) }
        ensures err { OnErr result (self.new ≡ self.old) }
    {
        self.brought.append(&mut self.told)?;
        self.mark = None;
        Ok(())
    }

    /// Notes that a message came. If it came by credit that was granted after a mark, the mark goes, and the result is how many of the messages that were told come
    /// before it: their sender has heard of them (part 2, 2.6.7).
    pub fn confirmed(&mut self) -> Option<usize>
        ensures value { result ≡ confirmed_of self.old }
        ensures new { self.new ≡ after_confirm self.old }
    {
        match self.mark {
            Some(mark) if mark.left == 0 => {
                self.mark = None;
                Some(mark.count)
            }
            Some(mark) => {
                self.mark = Some(Mark {
                    count: mark.count,
                    left: mark.left - 1,
                });
                None
            }
            None => None,
        }
    }

    /// Notes that credit was granted while `left` of the credit before was left. A message that has begun may come beside those. Changes nothing if there is a mark.
    pub fn set_mark(&mut self, left: u32)
        ensures { self.new ≡ after_mark left self.old }
    {
        if self.mark.is_none() {
            self.mark = Some(Mark {
                count: self.told.len(),
                left: left.saturating_add(1),
            });
        }
    }

    /// Removes and returns the tag of the first message in doubt that came over an earlier connection. It is settled, unless it is put back
    /// ([`keep_brought`](ReceivedDoubts::keep_brought), [`tell`](ReceivedDoubts::tell)).
    pub fn pop_brought(&mut self) -> Option<Tag>
        ensures value { result ≡ slice_get self.old.brought 0 }
        ensures new { self.new ≡ after_pop_brought self.old }
    {
        self.brought.pop_front()
    }

    /// Removes and returns the tag of the first message in doubt whose outcome was sent over this connection. It is settled.
    pub fn pop_told(&mut self) -> Option<Tag>
        ensures value { result ≡ slice_get self.old.told 0 }
        ensures new { self.new ≡ after_pop_told self.old }
    {
        let tag = self.told.pop_front();
        if tag.is_some() {
            if let Some(mark) = self.mark {
                self.mark = Some(Mark {
                    count: mark.count.saturating_sub(1),
                    left: mark.left,
                });
            }
        }
        tag
    }

    /// Puts a message back that [`pop_brought`](ReceivedDoubts::pop_brought) returned, behind the others: it still waits to be resumed.
    ///
    /// # Errors
    ///
    /// `AllocError` if memory runs out. The message is settled then.
    pub fn keep_brought(&mut self, tag: Tag) -> Result<(), AllocError>
        ensures ok { OnOk result (self.new ≡ after_keep tag self.old) }
        ensures err { OnErr result (self.new ≡ after_settle tag self.old) }
    {
        self.settle(&tag);
        push(&mut self.brought, tag)
    }

    /// Puts a message back that [`pop_brought`](ReceivedDoubts::pop_brought) returned: its outcome is sent over this connection.
    ///
    /// # Errors
    ///
    /// `AllocError` if memory runs out. The message is settled then.
    pub fn tell(&mut self, tag: Tag) -> Result<(), AllocError>
        ensures ok { OnOk result (self.new ≡ after_tell tag self.old) }
        ensures err { OnErr result (self.new ≡ after_settle tag self.old) }
    {
        self.settle(&tag);
        push(&mut self.told, tag)
    }
}

/// What holds after every sequence of calls, beginning with [`ReceivedDoubts::new`].
///
/// - `doubt`: what is in doubt is exactly what was taken, or put back, and has not been settled since.
/// - `once`: no tag is in doubt twice.
/// - `counted`: each message that was taken is counted once.
pub fn received_laws()
    ensures doubt { (calls : List ReceivedCall) (tag : List ℕ) → is_known tag (state_after calls) ≡ is_in_doubt tag (events_of calls) }
    ensures once { (calls : List ReceivedCall) → HasNoTwo ((state_after calls).brought ++ (state_after calls).told) }
    ensures counted { (calls : List ReceivedCall) → (state_after calls).count ≡ takings (events_of calls) }
{}
