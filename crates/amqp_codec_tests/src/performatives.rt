//! Each kind of performative, state and error, with each field that owns memory, is copied where there is enough memory, and the copy is equal.
//! A body is filled through a `&mut`, and owned over no way out: its drop on each of them would be proved.
use amqp_performatives::*;
use amqp_types::{Boxed, Descriptor, Items, Tag, Text, Value};
use std::alloc::Global;

fn any(alloc: Global) -> Option<Boxed<Value>> {
    Boxed::new(alloc, Value::Uint(1)).ok()
}

/// Whether a field is set.
fn is_set(alloc: Global, field: &mut Option<Boxed<Value>>) -> bool {
    *field = any(alloc);
    field.is_some()
}

fn is_text_set(alloc: Global, field: &mut Option<Text>) -> bool {
    *field = Text::new(alloc, "a").ok();
    field.is_some()
}

fn is_mapping_set(alloc: Global, field: &mut Option<Items<(Value, Value)>>) -> bool {
    let mut pairs = Items::new(alloc);
    let is_there = pairs.push((Value::Uint(1), Value::Null)).is_ok();
    *field = Some(pairs);
    is_there
}

fn error(alloc: Global) -> Option<Boxed<AmqpError>> {
    let Ok(condition) = Text::new(alloc, "a") else {
        return None;
    };
    let mut error = AmqpError {
        condition,
        description: None,
        info: None,
    };
    let is_whole = is_text_set(alloc, &mut error.description) & is_set(alloc, &mut error.info);
    match Boxed::new(alloc, error) {
        Ok(error) if is_whole => Some(error),
        _ => None,
    }
}

/// Whether a copy is equal, and how many fields are written.
fn seen(performative: Performative) -> (bool, u32) {
    let same = match performative.clone() {
        Ok(copy) => {
            let same = copy == performative;
            drop(copy);
            same
        }
        Err(_) => false,
    };
    let fields = performative.fields();
    drop(performative);
    (same, fields)
}

/// Whether each of its fields is set.
fn is_open_filled(alloc: Global, body: &mut OpenBody) -> bool {
    is_text_set(alloc, &mut body.hostname)
        & is_set(alloc, &mut body.outgoing_locales)
        & is_set(alloc, &mut body.incoming_locales)
        & is_set(alloc, &mut body.offered_capabilities)
        & is_set(alloc, &mut body.desired_capabilities)
        & is_set(alloc, &mut body.properties)
}

fn is_open_seen(alloc: Global) -> bool {
    let Ok(name) = Text::new(alloc, "a") else {
        return false;
    };
    let mut body = OpenBody::new(name);
    let is_filled = is_open_filled(alloc, &mut body);
    match Boxed::new(alloc, body) {
        Ok(body) => seen(Performative::Open(body)) == (true, 10) && is_filled,
        Err(_) => false,
    }
}

/// Whether each of its fields is set.
fn is_begin_filled(alloc: Global, body: &mut BeginBody) -> bool {
    is_set(alloc, &mut body.offered_capabilities)
        & is_set(alloc, &mut body.desired_capabilities)
        & is_set(alloc, &mut body.properties)
}

fn is_begin_seen(alloc: Global) -> bool {
    let mut body = BeginBody::new(1, 2, 3);
    let is_filled = is_begin_filled(alloc, &mut body);
    match Boxed::new(alloc, body) {
        Ok(body) => seen(Performative::Begin(body)) == (true, 8) && is_filled,
        Err(_) => false,
    }
}

/// Whether each of its fields is set.
fn is_attach_filled(alloc: Global, body: &mut AttachBody) -> bool {
    is_set(alloc, &mut body.source)
        & is_set(alloc, &mut body.target)
        & is_mapping_set(alloc, &mut body.unsettled)
        & is_set(alloc, &mut body.offered_capabilities)
        & is_set(alloc, &mut body.desired_capabilities)
        & is_set(alloc, &mut body.properties)
}

fn is_attach_seen(alloc: Global) -> bool {
    let Ok(name) = Text::new(alloc, "a") else {
        return false;
    };
    let mut body = AttachBody::new(name, 1, Role::Receiver);
    let is_filled = is_attach_filled(alloc, &mut body);
    match Boxed::new(alloc, body) {
        Ok(body) => seen(Performative::Attach(body)) == (true, 14) && is_filled,
        Err(_) => false,
    }
}

#[test]
fn bodies_that_are_boxed(rt: HostRuntime) {
    assert!(rt; is_open_seen(rt.alloc()));
    assert!(rt; is_begin_seen(rt.alloc()));
    assert!(rt; is_attach_seen(rt.alloc()));
}

fn flow_made(alloc: Global) -> Performative {
    let mut body = FlowBody::new(1, 2, 3);
    body.properties = any(alloc);
    Performative::Flow(body)
}

fn transfer_made() -> Performative {
    let mut body = TransferBody::new(1);
    body.delivery_tag = Tag::new(&[7]);
    body.state = Some(DeliveryState::Accepted);
    Performative::Transfer(body)
}

fn disposition_made() -> Performative {
    let mut body = DispositionBody::new(Role::Sender, 1);
    body.state = Some(DeliveryState::Released);
    Performative::Disposition(body)
}

fn detach_made(alloc: Global) -> Performative {
    let mut body = DetachBody::new(1);
    body.error = error(alloc);
    Performative::Detach(body)
}

fn end_made(alloc: Global) -> Performative {
    let mut body = EndBody::new();
    body.error = error(alloc);
    Performative::End(body)
}

fn close_made(alloc: Global) -> Performative {
    let mut body = CloseBody::new();
    body.error = error(alloc);
    Performative::Close(body)
}

/// The last field that is written of each is the one that owns memory: so their count tells whether it was set.
#[test]
fn bodies(rt: HostRuntime) {
    assert!(rt; seen(Performative::Flow(FlowBody::new(1, 2, 3))) == (true, 4));
    assert!(rt; seen(flow_made(rt.alloc())) == (true, 11));
    assert!(rt; seen(transfer_made()) == (true, 8));
    assert!(rt; DispositionBody::new(Role::Sender, 1).first == 1);
    assert!(rt; seen(disposition_made()) == (true, 5));
    assert!(rt; seen(detach_made(rt.alloc())) == (true, 3));
    assert!(rt; seen(end_made(rt.alloc())) == (true, 1));
    assert!(rt; seen(close_made(rt.alloc())) == (true, 1));
}

/// Whether a copy is equal, whether it is an outcome, and whether it is a rejection without an error.
fn state_seen(state: DeliveryState) -> (bool, bool, bool) {
    let same = match state.clone() {
        Ok(copy) => {
            let same = copy == state;
            drop(copy);
            same
        }
        Err(_) => false,
    };
    let is_outcome = state.is_outcome();
    let is_bare = DeliveryState::Rejected(None) == state;
    drop(state);
    (same, is_outcome, is_bare)
}

/// The same of a modification, if its annotations have memory.
fn modified_seen(alloc: Global) -> Option<(bool, bool, bool)> {
    let message_annotations = Some(any(alloc)?);
    Some(state_seen(DeliveryState::Modified {
        delivery_failed: Some(true),
        undeliverable_here: None,
        message_annotations,
    }))
}

/// The same of a state that is null.
fn other_seen(alloc: Global) -> Option<(bool, bool, bool)> {
    let null = Boxed::new(alloc, Value::Null).ok()?;
    Some(state_seen(DeliveryState::Other(null)))
}

fn received_seen() -> (bool, bool, bool) {
    state_seen(DeliveryState::Received {
        section_number: 1,
        section_offset: 2,
    })
}

#[test]
fn states(rt: HostRuntime) {
    assert!(rt; received_seen() == (true, false, false));
    assert!(rt; state_seen(DeliveryState::Rejected(error(rt.alloc()))) == (true, true, false));
    assert!(rt; modified_seen(rt.alloc()) == Some((true, true, false)));
    assert!(rt; other_seen(rt.alloc()) == Some((true, false, false)));
    assert!(rt; DeliveryState::Accepted != DeliveryState::Released);
}

#[test]
fn descriptors(rt: HostRuntime) {
    assert!(rt; Composite::Transfer.is_named(Descriptor::Number(20)));
    assert!(rt; Composite::Error.is_named(Descriptor::Name("amqp:error:list")));
    assert!(rt; !Composite::Accepted.is_named(Descriptor::Number(35)));
}
