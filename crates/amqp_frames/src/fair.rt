//! Decides whether fields hold values that a reader can find there (part 2, 2.8.2 and 2.8.3; part 3, 3.4).
ghost use Rattle.std.specs.Prelude.{◌≡◌};
ghost use Rattle.amqp_types.specs.View.{view};
ghost use Rattle.amqp_performatives.specs.Composite.{type_of};
ghost use Rattle.amqp_performatives.specs.Fair.{is_descriptor, where_present, is_present, names_state, is_other_state, is_sender_mode, is_receiver_mode, is_tag, is_fair_error, is_fair_state, is_fair_open, is_fair_begin, is_fair_attach, is_fair};

use amqp_performatives::{
    AmqpError, AttachBody, BeginBody, Composite, DeliveryState, OpenBody, Performative,
};
use amqp_types::{Boxed, Tag, Value};

fn is_present(value: &Value) -> bool
    ensures { result ≡ is_present value.now }
{
    match value {
        Value::Null => false,
        _ => true,
    }
}

/// Returns whether this is the type's descriptor, as a number or as a name.
fn is_descriptor(composite: Composite, descriptor: &Value) -> bool
    ensures { result ≡ is_descriptor (type_of composite) (view descriptor.now) }
{
    match descriptor {
        Value::Ulong(number) => *number == u64::from(composite.number()),
        Value::Symbol(name) => name.as_str() == composite.name(),
        _ => false,
    }
}

/// Returns whether this is the descriptor of one of the five delivery states.
fn names_state(descriptor: &Value) -> bool
    ensures { result ≡ names_state (view descriptor.now) }
{
    is_descriptor(Composite::Received, descriptor)
        || is_descriptor(Composite::Accepted, descriptor)
        || is_descriptor(Composite::Rejected, descriptor)
        || is_descriptor(Composite::Released, descriptor)
        || is_descriptor(Composite::Modified, descriptor)
}

fn is_other_state(value: &Value) -> bool
    ensures { result ≡ is_other_state (view value.now) }
{
    match value {
        Value::Described(descriptor, _) => !names_state(descriptor.get()),
        _ => is_present(value),
    }
}

pub(crate) fn any_present(value: &Option<Boxed<Value>>) -> bool
    ensures { result ≡ where_present is_present value.now }
{
    match value {
        Some(value) => is_present(value.get()),
        None => true,
    }
}

pub(crate) fn is_sender_mode(mode: Option<u8>) -> bool
    ensures { result ≡ where_present is_sender_mode mode }
{
    match mode {
        Some(mode) => mode <= 2,
        None => true,
    }
}

pub(crate) fn is_receiver_mode(mode: Option<u8>) -> bool
    ensures { result ≡ where_present is_receiver_mode mode }
{
    match mode {
        Some(mode) => mode <= 1,
        None => true,
    }
}

pub(crate) fn is_tag(tag: &Option<Tag>) -> bool
    ensures { result ≡ where_present is_tag tag.now }
{
    match tag {
        Some(tag) => tag.octets().len() <= Tag::MAX_LEN,
        None => true,
    }
}

pub(crate) fn is_fair_error(failed: &Option<Boxed<AmqpError>>) -> bool
    ensures { result ≡ where_present is_fair_error failed.now }
{
    match failed {
        Some(failed) => any_present(&failed.get().info),
        None => true,
    }
}

/// Returns whether a frame can carry the delivery state (part 3, 3.4).
///
/// It cannot if a value in the state is present but null, or if a state other than the five of the standard has the
/// descriptor of one of them. A frame can always carry no state.
pub fn is_fair_state(reached: &Option<DeliveryState>) -> bool
    ensures { result ≡ where_present is_fair_state reached.now }
{
    match reached {
        None => true,
        Some(
            DeliveryState::Received {
                section_number: _,
                section_offset: _,
            },
        ) => true,
        Some(DeliveryState::Accepted) => true,
        Some(DeliveryState::Rejected(failed)) => is_fair_error(failed),
        Some(DeliveryState::Released) => true,
        Some(
            DeliveryState::Modified {
                delivery_failed: _,
                undeliverable_here: _,
                message_annotations,
            },
        ) => { any_present(message_annotations) }
        Some(DeliveryState::Other(value)) => is_other_state(value.get()),
    }
}

pub(crate) fn is_fair_open(body: &OpenBody) -> bool
    ensures { result ≡ is_fair_open body.now }
{
    any_present(&body.outgoing_locales)
        && any_present(&body.incoming_locales)
        && any_present(&body.offered_capabilities)
        && any_present(&body.desired_capabilities)
        && any_present(&body.properties)
}

pub(crate) fn is_fair_begin(body: &BeginBody) -> bool
    ensures { result ≡ is_fair_begin body.now }
{
    any_present(&body.offered_capabilities)
        && any_present(&body.desired_capabilities)
        && any_present(&body.properties)
}

fn is_fair_attach(body: &AttachBody) -> bool
    ensures { result ≡ is_fair_attach body.now }
{
    is_sender_mode(body.snd_settle_mode)
        && is_receiver_mode(body.rcv_settle_mode)
        && any_present(&body.source)
        && any_present(&body.target)
        && any_present(&body.offered_capabilities)
        && any_present(&body.desired_capabilities)
        && any_present(&body.properties)
}

/// Returns whether each field holds a value that a reader can find there: no present field is null, a tag has at most
/// 32 octets, a settle mode is one of the standard's, and no other state has the descriptor of a delivery state.
pub(crate) fn is_fair(performative: &Performative) -> bool
    ensures { result ≡ is_fair performative.now }
{
    match performative {
        Performative::Open(body) => is_fair_open(body.get()),
        Performative::Begin(body) => is_fair_begin(body.get()),
        Performative::Attach(body) => is_fair_attach(body.get()),
        Performative::Flow(body) => any_present(&body.properties),
        Performative::Transfer(body) => is_tag(&body.delivery_tag)
            && is_receiver_mode(body.rcv_settle_mode)
            && is_fair_state(&body.state),
        Performative::Disposition(body) => is_fair_state(&body.state),
        Performative::Detach(body) => is_fair_error(&body.error),
        Performative::End(body) => is_fair_error(&body.error),
        Performative::Close(body) => is_fair_error(&body.error),
    }
}
