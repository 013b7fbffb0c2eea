//! What a step gives: frames with their octets, deliveries that it ended, and what it tells.
ghost use Rattle.std.specs.Prelude.{◌≡◌, IfOk};
ghost use Rattle.amqp_rules.specs.Take.{taken_in};

use crate::sliced::Sliced;
use amqp_deliveries::Parts;
use amqp_frames::{DeliveryState, Frame, Role};
use amqp_performatives::copying::copy_state;
use amqp_types::{Boxed, Items, Tag, Text};
use amqp_waiting::{SuspendedItem, Verdict};
use std::alloc::AllocError;

/// A frame that is sent, with its octets.
#[derive(Debug, PartialEq, Eq, Drop)]
pub struct Sent {
    pub frame: Frame,
    /// A long payload stands in a slice of its own, the one that the frame has.
    pub bytes: Sliced,
}

/// A delivery that the application takes.
#[derive(Debug, PartialEq, Eq, Drop)]
pub struct Taken {
    pub id: u32,
    pub link: u32,
    pub tag: Tag,
    /// The message-format (part 2, 2.8.11).
    pub format: u32,
    /// As the slices that came.
    pub payload: Parts,
    /// It came settled: nothing is to be told of it.
    pub settled: bool,
    /// Its receiver settles second (part 2, 2.8.3).
    pub second: bool,
}

/// What the peer told of a delivery.
#[derive(Debug, PartialEq, Eq, Drop)]
pub struct Learned {
    pub id: u32,
    pub link: u32,
    pub tag: Tag,
    /// None where it was settled without a state.
    pub state: Option<DeliveryState>,
    pub settled: bool,
}

/// A link that was put aside: first what waits on it, then what is unsettled, each in order. On a link on which we receive, only what was taken.
#[derive(Debug, PartialEq, Eq, Drop)]
pub struct Suspended {
    pub name: Text,
    /// Our end of it.
    pub role: Role,
    pub items: Items<SuspendedItem>,
}

/// What becomes of a delivery that was resumed.
#[derive(Debug, PartialEq, Eq, Drop)]
pub struct Resumed {
    pub verdict: Verdict,
    /// The id that it has from then on; None where nothing was sent.
    pub id: Option<u32>,
    /// The outcome that the peer told, where it did.
    pub state: Option<DeliveryState>,
}

/// What a step tells the application. What is wide stands behind a pointer, since each entry of a journal has room for the widest.
#[derive(Debug, PartialEq, Eq)]
pub enum Given {
    Nothing,
    /// Our attach was sent on this link.
    Link(u32),
    /// The peer offers this link.
    Offered(u32),
    /// The peer has answered our attach of this link.
    Attached(u32),
    /// This link is gone.
    Gone(u32),
    /// A delivery was begun, with this id.
    Delivery(u32),
    /// A delivery waits on this link, with this id.
    Ready(u32, u32),
    Taken(Boxed<Taken>),
    Learned(Boxed<Learned>),
    /// We have put a link aside.
    Suspended(Boxed<Suspended>),
    /// The peer has put this link aside, and it is gone.
    Parted(u32, Boxed<Suspended>),
    /// A delivery that waited was resumed.
    Resumed(Boxed<Resumed>),
}

// By hand, so that a crate that owns one does not prove its parts' drops again.
impl Drop for Given {
    // It would be copied whole for a call.
    #[inline(always)]
    fn drop(self) {
        match self {
            Given::Taken(taken) => drop(taken),
            Given::Learned(learned) => drop(learned),
            Given::Suspended(aside) | Given::Parted(_, aside) => drop(aside),
            Given::Resumed(resumed) => drop(resumed),
            Given::Nothing
            | Given::Link(_)
            | Given::Offered(_)
            | Given::Attached(_)
            | Given::Gone(_)
            | Given::Delivery(_)
            | Given::Ready(_, _) => {}
        }
    }
}

impl Given {
    /// The delivery, where one was taken.
    pub fn into_taken(self) -> Option<Boxed<Taken>>
        ensures { result ≡ taken_in self }
    {
        match self {
            Given::Taken(taken) => Some(taken),
            other => {
                drop(other);
                None
            }
        }
    }
}

/// What a step gives: the frames to send, the deliveries that it ended by role and id, and what it tells.
#[derive(Debug, PartialEq, Eq, Drop)]
pub struct Reply {
    pub sent: Items<Sent>,
    pub ended: Items<(Role, u32)>,
    pub given: Given,
}

impl Clone for Sent {
    ghost is_clone = { λ a b. b ≡ a };

    fn clone(&self) -> Result<Sent, AllocError> {
        let bytes = self.bytes.clone()?;
        match self.frame.clone() {
            Ok(frame) => Ok(Sent { frame, bytes }),
            Err(error) => Err(error),
        }
    }
}

impl Clone for Taken {
    ghost is_clone = { λ a b. b ≡ a };

    fn clone(&self) -> Result<Taken, AllocError> {
        let payload = self.payload.clone()?;
        Ok(Taken {
            id: self.id,
            link: self.link,
            tag: self.tag,
            format: self.format,
            payload,
            settled: self.settled,
            second: self.second,
        })
    }
}

impl Clone for Learned {
    ghost is_clone = { λ a b. b ≡ a };

    fn clone(&self) -> Result<Learned, AllocError> {
        let state = copy_state(&self.state)?;
        Ok(Learned {
            id: self.id,
            link: self.link,
            tag: self.tag,
            state,
            settled: self.settled,
        })
    }
}

impl Clone for Suspended {
    ghost is_clone = { λ a b. b ≡ a };

    fn clone(&self) -> Result<Suspended, AllocError> {
        let name = self.name.clone()?;
        let items = copy_items(&self.items)?;
        Ok(Suspended {
            name,
            role: self.role,
            items,
        })
    }
}

impl Clone for Resumed {
    ghost is_clone = { λ a b. b ≡ a };

    fn clone(&self) -> Result<Resumed, AllocError> {
        let state = copy_state(&self.state)?;
        Ok(Resumed {
            verdict: self.verdict,
            id: self.id,
            state,
        })
    }
}

impl Clone for Given {
    ghost is_clone = { λ a b. b ≡ a };

    fn clone(&self) -> Result<Given, AllocError> {
        match self {
            Given::Nothing => Ok(Given::Nothing),
            Given::Link(link) => Ok(Given::Link(*link)),
            Given::Offered(link) => Ok(Given::Offered(*link)),
            Given::Attached(link) => Ok(Given::Attached(*link)),
            Given::Gone(link) => Ok(Given::Gone(*link)),
            Given::Delivery(id) => Ok(Given::Delivery(*id)),
            Given::Ready(link, id) => Ok(Given::Ready(*link, *id)),
            Given::Taken(taken) => Ok(Given::Taken(taken.clone()?)),
            Given::Learned(learned) => Ok(Given::Learned(learned.clone()?)),
            Given::Suspended(aside) => Ok(Given::Suspended(aside.clone()?)),
            Given::Parted(link, aside) => Ok(Given::Parted(*link, aside.clone()?)),
            Given::Resumed(resumed) => Ok(Given::Resumed(resumed.clone()?)),
        }
    }
}

impl Clone for Reply {
    ghost is_clone = { λ a b. b ≡ a };

    fn clone(&self) -> Result<Reply, AllocError> {
        let ended = copy_ended(&self.ended)?;
        let given = self.given.clone()?;
        let sent = copy_sent(&self.sent)?;
        Ok(Reply { sent, ended, given })
    }
}

fn copy_sent(sent: &Items<Sent>) -> Result<Items<Sent>, AllocError>
    ensures { IfOk result (λ copy. copy ≡ sent.now) }
{
    let mut copies = Vec::new(sent.allocator());
    for frame in sent.as_slice() {
        let copy = frame.clone()?;
        copies.push(copy)?;
    }
    Ok(Items { items: copies })
}

fn copy_ended(ended: &Items<(Role, u32)>) -> Result<Items<(Role, u32)>, AllocError>
    ensures { IfOk result (λ copy. copy ≡ ended.now) }
{
    let mut copies = Vec::new(ended.allocator());
    for named in ended.as_slice() {
        copies.push(*named)?;
    }
    Ok(Items { items: copies })
}

fn copy_items(items: &Items<SuspendedItem>) -> Result<Items<SuspendedItem>, AllocError>
    ensures { IfOk result (λ copy. copy ≡ items.now) }
{
    let mut copies = Vec::new(items.allocator());
    for item in items.as_slice() {
        let copy = item.clone()?;
        copies.push(copy)?;
    }
    Ok(Items { items: copies })
}
