//! The common operations, with the rest of their fields at the standard's defaults. [`Op`] has all fields.
ghost use Rattle.std.specs.Prelude.{◌≡◌, None, Some, [], ◌∷◌, true, false, IfOk};

use amqp_frames::{DeliveryState, Role};
use amqp_rules::op::{Op, Rejoin};
use amqp_rules::reply::Suspended;
use amqp_types::{Boxed, Items, Tag, Text, Value};
use amqp_waiting::Brought;
use bytes::Bytes;
use std::alloc::{AllocError, Global};

/// The sender sends all deliveries unsettled (part 2, 2.8.2).
pub const SENDER_UNSETTLED: u8 = 0;
/// The sender settles each delivery as it sends it (part 2, 2.8.2).
pub const SENDER_SETTLED: u8 = 1;
/// The sender settles some of its deliveries as it sends them (part 2, 2.8.2); the default.
pub const SENDER_MIXED: u8 = 2;
/// The receiver settles a delivery as soon as it sends its state (part 2, 2.8.3); the default.
pub const RECEIVER_FIRST: u8 = 0;
/// The receiver settles a delivery after the sender has settled it (part 2, 2.8.3).
pub const RECEIVER_SECOND: u8 = 1;

/// Returns the operation that attaches a link of this name between a source and a target (part 2, 2.7.3), with
/// [`SENDER_MIXED`], [`RECEIVER_FIRST`], messages of any length, and a delivery count from 0.
pub fn attach(
    name: Text,
    role: Role,
    source: Option<Boxed<Value>>,
    target: Option<Boxed<Value>>,
) -> Op
    ensures { result ≡ Op.Attach name role 2 0 source target 0 0 }
{
    Op::Attach {
        name,
        role,
        snd: SENDER_MIXED,
        rcv: RECEIVER_FIRST,
        source,
        target,
        count: 0,
        max_message: 0,
    }
}

/// Returns a source of this address, with the rest of its fields absent (part 3, 3.5.3): where the messages of a link
/// come from.
///
/// # Errors
///
/// [`AllocError`] if memory runs out.
pub fn source(alloc: Global, address: Text) -> Result<Boxed<Value>, AllocError>
    ensures { IfOk result (λ v. v ≡ Value.Described (Value.Ulong 40) (Value.List (Value.Str address ∷ []))) }
{
    terminus(alloc, 0x28, address)
}

/// Returns a target of this address, with the rest of its fields absent (part 3, 3.5.4): where the messages of a link
/// go to.
///
/// # Errors
///
/// [`AllocError`] if memory runs out.
pub fn target(alloc: Global, address: Text) -> Result<Boxed<Value>, AllocError>
    ensures { IfOk result (λ v. v ≡ Value.Described (Value.Ulong 41) (Value.List (Value.Str address ∷ []))) }
{
    terminus(alloc, 0x29, address)
}

fn terminus(alloc: Global, descriptor: u64, address: Text) -> Result<Boxed<Value>, AllocError>
    ensures { IfOk result (λ v. v ≡ Value.Described (Value.Ulong descriptor) (Value.List (Value.Str address ∷ []))) }
{
    let mut fields = Items::new(alloc);
    fields.push(Value::Str(address))?;
    let descriptor = Boxed::new(alloc, Value::Ulong(descriptor))?;
    let list = Boxed::new(alloc, Value::List(fields))?;
    Boxed::new(alloc, Value::Described(descriptor, list))
}

/// Returns the operation that begins the session (part 2, 2.5.1).
pub fn begin() -> Op
    ensures { result ≡ Op.Begin }
{
    Op::Begin
}

/// Returns the operation that sends a message as one unsettled delivery of one transfer, in message-format 0 (part 2,
/// 2.7.5 and 2.8.11).
pub fn start(link: u32, tag: Tag, payload: Bytes) -> Op
    ensures { result ≡ Op.Start link tag 0 false payload false }
{
    Op::Start {
        link,
        tag,
        format: 0,
        settled: false,
        payload,
        more: false,
    }
}

/// Returns the operation that accepts and settles the received delivery with this id (part 2, 2.7.6; part 3, 3.4.2).
pub fn accept(id: u32) -> Op
    ensures { result ≡ Op.Dispose Role.Receiver id id true (Some DeliveryState.Accepted) }
{
    Op::Dispose {
        role: Role::Receiver,
        first: id,
        last: id,
        settled: true,
        state: Some(DeliveryState::Accepted),
    }
}

/// Returns the operation that grants the peer credit for `credit` deliveries on the link (part 2, 2.6.7).
pub fn grant(link: u32, credit: u32) -> Op
    ensures { result ≡ Op.Grant link credit false false }
{
    Op::Grant {
        link,
        credit,
        drain: false,
        echo: false,
    }
}

/// Returns the operation that detaches the link without an error (part 2, 2.6.6).
pub fn detach(link: u32) -> Op
    ensures { result ≡ Op.Detach link None }
{
    Op::Detach { link, error: None }
}

/// Returns the operation that puts the link aside (part 2, 2.6.4). Its result has the deliveries that are unsettled on
/// the link.
pub fn suspend(link: u32) -> Op
    ensures { result ≡ Op.Suspend link }
{
    Op::Suspend { link }
}

/// Returns the operation that attaches a link again that was put aside (part 2, 2.6.13), between a source and a target,
/// with [`SENDER_MIXED`], [`RECEIVER_FIRST`], messages of any length, and a delivery count from 0.
///
/// The deliveries that were put aside with the link wait on it to be resumed. They are copied from `aside`, which stays
/// whole if memory runs out.
///
/// # Errors
///
/// [`AllocError`] if memory runs out.
pub fn rejoin(
    alloc: Global,
    aside: &Suspended,
    source: Option<Boxed<Value>>,
    target: Option<Boxed<Value>>,
) -> Result<Op, AllocError>
    ensures { IfOk result (λ op. op ≡ Op.Rejoin (record { name = aside.now.name; role = aside.now.role; snd = 2; rcv = 0; source = source; target = target; count = 0; max_message = 0; items = aside.now.items })) }
{
    let aside = aside.clone()?;
    let items = Brought::new(alloc, aside.items)?;
    let rejoin = Rejoin {
        name: aside.name,
        role: aside.role,
        snd: SENDER_MIXED,
        rcv: RECEIVER_FIRST,
        source,
        target,
        count: 0,
        max_message: 0,
        items,
    };
    Ok(Op::Rejoin(Boxed::new(alloc, rejoin)?))
}

/// Returns the operation that resumes the delivery with this tag that waits on the link, unsettled (part 2, 2.6.13).
pub fn resume(link: u32, tag: Tag) -> Op
    ensures { result ≡ Op.Resume link tag false }
{
    Op::Resume {
        link,
        tag,
        settled: false,
    }
}

/// Returns the operation that ends the session without an error (part 2, 2.5.2).
pub fn end() -> Op
    ensures { result ≡ Op.End None }
{
    Op::End { error: None }
}

/// Returns the operation that learns the first outcome that the peer has sent for a delivery of the link.
pub fn learn(link: u32) -> Op
    ensures { result ≡ Op.Learn link }
{
    Op::Learn { link }
}

/// Returns the operation that takes the first delivery of the link that is ready.
pub fn take(link: u32) -> Op
    ensures { result ≡ Op.Take link }
{
    Op::Take { link }
}
