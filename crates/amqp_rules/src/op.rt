//! Operations of the application.
ghost use Rattle.std.specs.Prelude.{◌≡◌};

use amqp_frames::{AmqpError, DeliveryState, Role};
use amqp_performatives::copying::{copy_error, copy_state, copy_value};
use amqp_types::{Boxed, Tag, Text, Value};
use amqp_waiting::Brought;
use bytes::Bytes;
use std::alloc::AllocError;

/// What a `Rejoin` asks for: what an `Attach` does, and the deliveries that it brings in.
#[derive(Debug, PartialEq, Eq)]
pub struct Rejoin {
    pub name: Text,
    /// Our end of it.
    pub role: Role,
    /// The sender's settle mode, as in `Attach`.
    pub snd: u8,
    /// The receiver's settle mode, as in `Attach`.
    pub rcv: u8,
    pub source: Option<Boxed<Value>>,
    pub target: Option<Boxed<Value>>,
    /// A sender's first delivery-count; a receiver does not tell it.
    pub count: u32,
    /// The longest message that we take, in octets; no limit where it is 0.
    pub max_message: u64,
    /// The deliveries that wait on the link from then on, in this order; no two of one tag.
    pub items: Brought,
}

// By hand, so that a crate that owns one does not prove its parts' drops again.
impl Drop for Rejoin {
    fn drop(self) {
        let Rejoin {
            name,
            role: _,
            snd: _,
            rcv: _,
            source,
            target,
            count: _,
            max_message: _,
            items,
        } = self;
        drop(name);
        drop(source);
        drop(target);
        drop(items);
    }
}

/// An operation of the application. What is wide stands behind a pointer, since each entry of a journal has room for the widest.
#[derive(Debug, PartialEq, Eq, Drop)]
pub enum Op {
    /// Begins the session, or answers the peer's begin (part 2, 2.5.1).
    Begin,
    /// Attaches a link, or answers the peer's attach (part 2, 2.6.3).
    Attach {
        name: Text,
        /// Our end of it.
        role: Role,
        /// The sender's settle mode: 0 unsettled, 1 settled, 2 mixed (part 2, 2.8.2). Any other is refused as not writable.
        snd: u8,
        /// The receiver's settle mode: 0 first, 1 second (part 2, 2.8.3). Any other is refused as not writable.
        rcv: u8,
        source: Option<Boxed<Value>>,
        target: Option<Boxed<Value>>,
        /// A sender's first delivery-count; a receiver does not tell it.
        count: u32,
        /// The longest message that we take, in octets; no limit where it is 0.
        max_message: u64,
    },
    /// Begins a delivery on the link, with its first transfer (part 2, 2.6.12).
    Start {
        link: u32,
        tag: Tag,
        /// The message-format (part 2, 2.8.11).
        format: u32,
        settled: bool,
        payload: Bytes,
        /// Further transfers of it follow, by `Carry`.
        more: bool,
    },
    /// Sends a further transfer of the delivery that is unfinished on the link (part 2, 2.6.14).
    Carry {
        link: u32,
        payload: Bytes,
        more: bool,
    },
    /// Gives up the delivery that is unfinished on the link (part 2, 2.7.5).
    Abort {
        link: u32,
    },
    /// Tells the state, where one is given, of the unsettled deliveries of this role of ours whose ids are `first` to `last`, both among them; with
    /// `settled` it ends them (part 2, 2.7.6).
    Dispose {
        role: Role,
        first: u32,
        last: u32,
        settled: bool,
        state: Option<DeliveryState>,
    },
    /// Takes the first thing that was told of a delivery on a link on which we send.
    Learn {
        link: u32,
    },
    /// Sets the credit of a link on which we receive to so many deliveries, no fewer than there are now, and 2147483647 at most (part 2, 2.6.7). With
    /// `drain` the peer is to use it up or to give it up, with `echo` it is asked for a flow.
    Grant {
        link: u32,
        credit: u32,
        drain: bool,
        echo: bool,
    },
    /// Tells the peer how many messages are available on a link on which we send (part 2, 2.6.7).
    Offer {
        link: u32,
        available: u32,
    },
    /// Gives up the credit that is left, as the peer wished by its drain (part 2, 2.6.7).
    Drained {
        link: u32,
    },
    /// Tells the peer our window anew; with `echo` the peer is asked for a flow in return (part 2, 2.5.6 and 2.7.4).
    Refresh {
        echo: bool,
    },
    /// Takes the first delivery that waits on a link on which we receive.
    Take {
        link: u32,
    },
    /// Detaches a link for good (part 2, 2.6.6).
    Detach {
        link: u32,
        error: Option<Boxed<AmqpError>>,
    },
    /// Puts a link aside: it is detached, not for good, and what is unsettled on it is given (part 2, 2.6.4).
    Suspend {
        link: u32,
    },
    /// Attaches a link as `Attach` does, and tells the peer the deliveries that were put aside: they wait on the link to be resumed (part 2, 2.6.3
    /// and 2.6.13).
    Rejoin(Boxed<Rejoin>),
    /// Resumes the delivery with this tag, which waits on a link on which we send, by one transfer without payload (part 2, 2.6.13). One that the
    /// peer does not know is done with, and nothing is sent; one that it has in part is aborted; another may be settled.
    Resume {
        link: u32,
        tag: Tag,
        settled: bool,
    },
    /// Ends the session (part 2, 2.5.2).
    End {
        error: Option<Boxed<AmqpError>>,
    },
    /// Sends an empty frame, so that the peer does not take us for gone (part 2, 2.4.5).
    Beat,
}

impl Clone for Rejoin {
    ghost is_clone = { λ a b. b ≡ a };

    fn clone(&self) -> Result<Rejoin, AllocError> {
        let name = self.name.clone()?;
        let source = copy_value(&self.source)?;
        let target = copy_value(&self.target)?;
        let items = self.items.clone()?;
        Ok(Rejoin {
            name,
            role: self.role,
            snd: self.snd,
            rcv: self.rcv,
            source,
            target,
            count: self.count,
            max_message: self.max_message,
            items,
        })
    }
}

impl Clone for Op {
    ghost is_clone = { λ a b. b ≡ a };

    fn clone(&self) -> Result<Op, AllocError> {
        match self {
            Op::Begin => Ok(Op::Begin),
            Op::Attach {
                name,
                role,
                snd,
                rcv,
                source,
                target,
                count,
                max_message,
            } => Ok(Op::Attach {
                name: name.clone()?,
                role: *role,
                snd: *snd,
                rcv: *rcv,
                source: copy_value(source)?,
                target: copy_value(target)?,
                count: *count,
                max_message: *max_message,
            }),
            Op::Start {
                link,
                tag,
                format,
                settled,
                payload,
                more,
            } => Ok(Op::Start {
                link: *link,
                tag: *tag,
                format: *format,
                settled: *settled,
                payload: payload.clone()?,
                more: *more,
            }),
            Op::Carry {
                link,
                payload,
                more,
            } => Ok(Op::Carry {
                link: *link,
                payload: payload.clone()?,
                more: *more,
            }),
            Op::Abort { link } => Ok(Op::Abort { link: *link }),
            Op::Dispose {
                role,
                first,
                last,
                settled,
                state,
            } => Ok(Op::Dispose {
                role: *role,
                first: *first,
                last: *last,
                settled: *settled,
                state: copy_state(state)?,
            }),
            Op::Learn { link } => Ok(Op::Learn { link: *link }),
            Op::Grant {
                link,
                credit,
                drain,
                echo,
            } => Ok(Op::Grant {
                link: *link,
                credit: *credit,
                drain: *drain,
                echo: *echo,
            }),
            Op::Offer { link, available } => Ok(Op::Offer {
                link: *link,
                available: *available,
            }),
            Op::Drained { link } => Ok(Op::Drained { link: *link }),
            Op::Refresh { echo } => Ok(Op::Refresh { echo: *echo }),
            Op::Take { link } => Ok(Op::Take { link: *link }),
            Op::Detach { link, error } => Ok(Op::Detach {
                link: *link,
                error: copy_error(error)?,
            }),
            Op::Suspend { link } => Ok(Op::Suspend { link: *link }),
            Op::Rejoin(rejoin) => Ok(Op::Rejoin(rejoin.clone()?)),
            Op::Resume { link, tag, settled } => Ok(Op::Resume {
                link: *link,
                tag: *tag,
                settled: *settled,
            }),
            Op::End { error } => Ok(Op::End {
                error: copy_error(error)?,
            }),
            Op::Beat => Ok(Op::Beat),
        }
    }
}
